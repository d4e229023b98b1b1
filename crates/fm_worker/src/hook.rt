//! A hook before callbacks.

use fm_operations::FlowAction;
use fm_types::WorkerId;

/// What happens before each callback that is made for an operation, with no lock held. It lets tests hold callbacks back.
pub trait CallbackHook: Send + Sync {
    /// That worker is about to make the callback of that action: a Pre, a Post or a Drain.
    fn before(&self, worker: WorkerId, action: &FlowAction);
}

/// The hook of a program: nothing happens there.
#[derive(Clone, Copy, Debug)]
pub struct NoHook;

impl CallbackHook for NoHook {
    fn before(&self, _worker: WorkerId, _action: &FlowAction) {}
}
