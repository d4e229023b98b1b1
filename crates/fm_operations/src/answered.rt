//! What the base's answer counts as.

ghost use Rattle.std.specs.Prelude.{◌≡◌};
ghost use Rattle.fm_operations.specs.Answered.{bare_answer, is_success, telling, bringing, success_of, base_counted, handle_given};

use fm_callback_data::{Answer, Params};
use fm_types::{Bytes, HandleId, Status};
use std::alloc::Global;

/// An answer with nothing but a status.
pub(crate) fn bare_answer(alloc: Global, status: Status) -> Answer
    ensures { result ≡ bare_answer status }
{
    Answer {
        status,
        information: 0,
        bytes: Bytes::new(alloc),
    }
}

fn is_success(status: Status) -> bool
    ensures { result ≡ is_success status }
{
    matches!(status, Status::Success)
}

fn telling(alloc: Global, information: u64) -> Answer
    ensures { result ≡ telling information }
{
    Answer {
        status: Status::Success,
        information,
        bytes: Bytes::new(alloc),
    }
}

fn bringing(bytes: Bytes) -> Answer
    ensures { result ≡ bringing bytes }
{
    Answer {
        status: Status::Success,
        information: bytes.len() as u64,
        bytes,
    }
}

fn success_of(alloc: Global, call: &Params, answer: Answer, handle: HandleId) -> Answer
    ensures { result ≡ success_of call.now answer handle }
{
    match call {
        Params::Create { .. } => telling(alloc, handle.0),
        Params::Read { .. } => bringing(answer.bytes),
        Params::Write { bytes, .. } => telling(alloc, bytes.len() as u64),
        Params::QuerySize | Params::Other { .. } => telling(alloc, answer.information),
        Params::List => bringing(answer.bytes),
        _ => telling(alloc, 0),
    }
}

/// What counts of the answer to a call: of a success the number of bytes read, written or listed, the
/// size, the new handle, or the number that a major function without a kind of its own answers; of a
/// fault its status alone.
pub(crate) fn base_counted(alloc: Global, call: &Params, answer: Answer, handle: HandleId) -> Answer
    ensures { result ≡ base_counted call.now answer handle }
{
    if is_success(answer.status) {
        success_of(alloc, call, answer, handle)
    } else {
        bare_answer(alloc, answer.status)
    }
}

/// The handle of an operation after the base answered its call: a create that succeeded has one.
pub(crate) fn handle_given(
    call: &Params,
    status: Status,
    handle: HandleId,
    before: Option<HandleId>,
) -> Option<HandleId>
    ensures { result ≡ handle_given call.now status handle before }
{
    match call {
        Params::Create { .. } if is_success(status) => Some(handle),
        _ => before,
    }
}
