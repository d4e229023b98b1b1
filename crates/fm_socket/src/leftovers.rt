//! What connections that have ended left behind.

use crate::gate_seat::ServerWorker;
use crate::limits::ABANDONED;
use crate::line::ClientLine;
use crate::waiting::{Orphan, Unanswered, close};
use fm_device::Device;
use fm_filter::Callbacks;
use fm_types::limits::{HANDLES, OPERATIONS};
use fm_types::{HandleId, Status};
use std::alloc::Global;
use std::sync::atomic::{AtomicUsize, Ordering};
use std::sync::ledger::Ledger;
use std::sync::{Mutex, Wait};
use std::time::{Clock, Duration};

/// The handles whose close has to be tried again, and the operations whose clients are gone. There is room for all that there can be.
#[derive(Drop)]
pub(crate) struct Leftovers {
    handles: Mutex<Vec<HandleId>>,
    orphans: Mutex<Vec<Orphan>>,
    // How many such operations weren't collected, those among them that a thread looks at.
    abandoned: AtomicUsize,
}

// Whether a handle is still there after its close was refused so, with 30 as its cleanup is under way: the close may be made again.
fn stays_open(status: Status) -> bool {
    matches!(
        status,
        Status::NoMemory | Status::TooMany | Status::WrongStep
    )
}

impl Leftovers {
    /// None of either. Refused with 1, if memory is refused.
    pub(crate) fn new(alloc: Global) -> Result<Leftovers, Status> {
        let handles = Vec::with_capacity(alloc, HANDLES)?;
        let orphans = Vec::with_capacity(alloc, OPERATIONS)?;
        Ok(Leftovers {
            handles: Mutex::new(handles),
            orphans: Mutex::new(orphans),
            abandoned: AtomicUsize::new(0),
        })
    }

    /// Notes an operation whose client is gone.
    pub(crate) fn note<R: Wait>(&self, rt: &R, orphan: Orphan) {
        self.abandoned.fetch_add(1, Ordering::SeqCst);
        self.put(rt, orphan);
    }

    fn put<R: Wait>(&self, rt: &R, orphan: Orphan) {
        let _ = self.orphans.lock(rt).push(orphan);
    }

    // Whether operations are there whose clients are gone.
    fn has_orphans(&self) -> bool {
        self.abandoned.load(Ordering::SeqCst) != 0
    }

    /// Whether so many of the operations are those of clients that are gone that no others are to begin but what may let them go.
    pub(crate) fn are_most(&self) -> bool {
        self.abandoned.load(Ordering::SeqCst) >= ABANDONED
    }

    /// Closes a handle that nobody has any more, and notes what is left of it.
    pub(crate) fn close<F: Callbacks, L: Ledger, R: Wait + Clock, D: Device>(
        &self,
        worker: &mut ServerWorker<'_, F, L, R, D>,
        handle: HandleId,
    ) {
        let rt = worker.rt();
        match close(worker, &ClientLine::cut(), handle) {
            Ok(_) => {}
            Err(Unanswered::Refused(status)) => {
                if stays_open(status) {
                    let _ = self.handles.lock(rt).push(handle);
                }
            }
            Err(Unanswered::Left(orphan)) => {
                let _ = self.handles.lock(rt).push(handle);
                self.note(rt, orphan);
            }
        }
    }

    /// Closes these handles.
    pub(crate) fn close_all<F: Callbacks, L: Ledger, R: Wait + Clock, D: Device>(
        &self,
        worker: &mut ServerWorker<'_, F, L, R, D>,
        handles: Vec<HandleId>,
    ) {
        for handle in handles {
            self.close(worker, handle);
        }
    }

    // How many handles are left.
    fn count_handles<R: Wait>(&self, rt: &R) -> usize {
        self.handles.lock(rt).len()
    }

    fn take_handle<R: Wait>(&self, rt: &R) -> Option<HandleId> {
        let mut handles = self.handles.lock(rt);
        if handles.is_empty() {
            return None;
        }
        Some(handles.remove(0))
    }

    /// Tries once more to close each of the handles that were left open. Whether none is left.
    pub(crate) fn close_left<F: Callbacks, L: Ledger, R: Wait + Clock, D: Device>(
        &self,
        worker: &mut ServerWorker<'_, F, L, R, D>,
    ) -> bool {
        let rt = worker.rt();
        for _ in 0..self.count_handles(rt) {
            if let Some(handle) = self.take_handle(rt) {
                self.close(worker, handle);
            }
        }
        self.count_handles(rt) == 0
    }

    fn take_orphan<R: Wait>(&self, rt: &R) -> Option<Orphan> {
        let mut orphans = self.orphans.lock(rt);
        if orphans.is_empty() {
            return None;
        }
        Some(orphans.remove(0))
    }

    // Takes the answer of an operation whose client is gone, if it is done; else it is put back. A handle that it opened is closed.
    fn collect<F: Callbacks, L: Ledger, R: Wait + Clock, D: Device>(
        &self,
        worker: &mut ServerWorker<'_, F, L, R, D>,
        orphan: Orphan,
    ) {
        let rt = worker.rt();
        match worker.wait_for(orphan.operation, Duration::from_millis(0)) {
            Ok(Some(answer)) => {
                self.abandoned.fetch_sub(1, Ordering::SeqCst);
                if orphan.is_create && answer.status == Status::Success {
                    self.close(worker, HandleId(answer.information));
                }
            }
            Ok(None) => self.put(rt, orphan),
            Err(_) => {
                self.abandoned.fetch_sub(1, Ordering::SeqCst);
            }
        }
    }

    /// Takes the answers of those operations that are done by now.
    pub(crate) fn collect_orphans<F: Callbacks, L: Ledger, R: Wait + Clock, D: Device>(
        &self,
        worker: &mut ServerWorker<'_, F, L, R, D>,
    ) {
        let rt = worker.rt();
        let count = self.orphans.lock(rt).len();
        for _ in 0..count {
            if let Some(orphan) = self.take_orphan(rt) {
                self.collect(worker, orphan);
            }
        }
    }

    /// Takes the answers of those operations that are done, and once all are tries to close the handles that were left open. Whether nothing is left.
    pub(crate) fn end_all<F: Callbacks, L: Ledger, R: Wait + Clock, D: Device>(
        &self,
        worker: &mut ServerWorker<'_, F, L, R, D>,
    ) -> bool {
        self.collect_orphans(worker);
        if self.has_orphans() {
            return false;
        }
        self.close_left(worker)
    }
}
