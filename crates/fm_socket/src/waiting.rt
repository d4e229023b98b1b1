//! Waiting for the answers of operations, as long as somebody wants them.

use crate::gate_seat::ServerWorker;
use crate::line::ClientLine;
use fm_callback_data::{Answer, FileRequest, Request};
use fm_device::Device;
use fm_filter::Callbacks;
use fm_types::{HandleId, OpId, Status};
use std::sync::Wait;
use std::sync::ledger::Ledger;
use std::time::{Clock, Duration};

/// How many milliseconds a connection waits before it looks whether its client is still there.
const PATIENCE: u64 = 100;

/// An operation whose client is gone: it goes on, and its answer is taken by whoever comes to it.
#[derive(Clone, Copy)]
pub(crate) struct Orphan {
    /// Its number.
    pub(crate) operation: OpId,
    /// Whether its answer may name a new handle.
    pub(crate) is_create: bool,
}

/// Why an operation has no answer here.
#[derive(Clone, Copy)]
pub(crate) enum Unanswered {
    /// It was refused as it began.
    Refused(Status),
    /// It goes on, and nobody waits for it.
    Left(Orphan),
}

/// Begins an operation, and waits for its answer as long as its client is there.
pub(crate) fn ask<F: Callbacks, L: Ledger, R: Wait + Clock, D: Device>(
    worker: &mut ServerWorker<'_, F, L, R, D>,
    line: &ClientLine,
    request: Request,
) -> Result<Answer, Unanswered> {
    let is_create = matches!(request, Request::Create { .. });
    let operation = match worker.begin(request) {
        Ok(operation) => operation,
        Err(status) => return Err(Unanswered::Refused(status)),
    };
    'waits: for _ in worker.rt().forever() {
        match worker.wait_for(operation, Duration::from_millis(PATIENCE)) {
            Ok(Some(answer)) => return Ok(answer),
            Ok(None) => {}
            Err(status) => return Err(Unanswered::Refused(status)),
        }
        if line.is_cut() {
            break 'waits;
        }
    }
    Err(Unanswered::Left(Orphan {
        operation,
        is_create,
    }))
}

/// A close is its cleanup, unless that began before, and then the close itself: the answer is the close's. Refused as the one that can't begin; the handle is
/// still there then.
pub(crate) fn close<F: Callbacks, L: Ledger, R: Wait + Clock, D: Device>(
    worker: &mut ServerWorker<'_, F, L, R, D>,
    line: &ClientLine,
    handle: HandleId,
) -> Result<Answer, Unanswered> {
    let request = FileRequest::Cleanup;
    match ask(worker, line, Request::OnHandle { handle, request }) {
        Ok(_) | Err(Unanswered::Refused(Status::WrongStep)) => {}
        Err(unanswered) => return Err(unanswered),
    }
    let request = FileRequest::Close;
    ask(worker, line, Request::OnHandle { handle, request })
}
