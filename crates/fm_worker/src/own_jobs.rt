//! Where a thread's callbacks hand over what their filters begin for themselves.

ghost use Rattle.fm_queue.specs.Passes.{IsPassOf};

use fm_queue::{Job, JobPass, JobQueue};
use fm_types::OpId;
use std::sync::Wait;
use std::thread;

/// The queue of jobs, with a pass of it for the operations that filters begin for themselves.
#[derive(Drop)]
pub(crate) struct OwnJobs<'a> {
    queue: &'a JobQueue,
    pass: JobPass,
    ghost own: { IsPassOf queue.now pass },
}

impl<'a> OwnJobs<'a> {
    pub(crate) fn new(queue: &'a JobQueue, pass: JobPass) -> OwnJobs<'a>
        requires own { IsPassOf queue.now pass }
    {
        OwnJobs { queue, pass }
    }

    /// Has a worker carry an operation on. While the queue is full this waits for room.
    pub(crate) fn put<R: Wait>(&mut self, rt: &R, operation: OpId) {
        'tries: for _ in rt.forever() {
            if self.try_put(rt, operation) {
                break 'tries;
            }
            thread::yield_now();
        }
    }

    // The same; false if the queue is full.
    fn try_put<R: Wait>(&mut self, rt: &R, operation: OpId) -> bool {
        self.queue
            .put(rt, &mut self.pass, Job::Run(operation))
            .is_ok()
    }
}
