//! What all threads share.

use crate::hook::CallbackHook;
use fm_filter::Callbacks;
use fm_lock::Manager;
use fm_queue::JobQueue;
use fm_types::{InstanceId, WorkerId};
use std::sync::Wait;
use std::sync::ledger::Ledger;

/// What the threads that carry operations on share: the manager, the queue of jobs, and the hook before callbacks. Each thread has references to the same
/// three.
#[derive(Drop)]
pub(crate) struct WorkerShared<'a, F: Drop, L: Ledger, R: Wait, G: CallbackHook> {
    pub(crate) rt: &'a R,
    pub(crate) manager: &'a Manager<F, L>,
    pub(crate) queue: &'a JobQueue,
    pub(crate) hook: &'a G,
}

impl<'a, F: Callbacks, L: Ledger, R: Wait, G: CallbackHook> WorkerShared<'a, F, L, R, G> {
    // The filter of an instance.
    pub(crate) fn filter_of(&self, instance: InstanceId) -> Option<&F> {
        self.manager.filter_of_instance(self.rt, instance)
    }

    // Whether that is a thread that takes jobs.
    pub(crate) fn is_taking_jobs(&self, turn: Option<WorkerId>) -> bool {
        match turn {
            Some(worker) => self.manager.is_taking_jobs(worker),
            None => false,
        }
    }

    // Waits for ever: what came here has no answer that could be.
    pub(crate) fn wait_forever(&self) -> ! {
        for _ in self.rt.forever() {}
        unreachable!()
    }
}
