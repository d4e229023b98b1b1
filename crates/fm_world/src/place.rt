//! Where a worker is.

use crate::file::FileObject;
use fm_types::{CtxId, FilterId, InstanceId, OpId};

/// Where a worker is: idle, or inside one callback or routine of an instance, one call of the base or one cleanup of a context.
#[derive(Clone, Copy, Debug, PartialEq, Eq)]
pub enum Place {
    /// In none: it may be given any callback or call.
    Idle,
    /// In the setup callback of the instance.
    Setup(InstanceId),
    /// In the instance's preoperation for the operation.
    Pre(OpId, InstanceId),
    /// In the base's call for the operation.
    Base(OpId),
    /// In the instance's postoperation for the operation.
    Post(OpId, InstanceId),
    /// In a drain of the instance: it has its completion of the operation back.
    Drain(OpId, InstanceId),
    /// In a drain of the instance that was taken before its turn: it has its completion back, and the operation goes on meanwhile, perhaps to its end.
    EarlyDrain(OpId, InstanceId),
    /// In the cleanup callback of a context.
    Cleanup(CtxId),
    /// In the callback that asks whether the instance may be detached.
    Query(InstanceId),
    /// In the callback that starts the instance's teardown.
    Start(InstanceId),
    /// In the callback that completes the instance's teardown.
    Complete(InstanceId),
    /// In a routine of the instance's filter that is no callback: a work item, a thread, a timer (`FltQueueGenericWorkItem`). It may be on an open file.
    Routine(InstanceId, Option<FileObject>),
    /// In the filter's unload callback.
    Unload(FilterId),
}
