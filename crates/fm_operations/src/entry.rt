//! What happened to an operation so far, callback by callback.

use fm_callback_data::Completion;
use fm_types::{InstanceId, Status, WorkerId};

/// Where a preoperation stands: it runs, it holds the operation, or it gave the verdict that counts.
#[derive(Clone, Copy, Debug, PartialEq, Eq)]
pub enum PreState {
    /// The callback runs.
    Running,
    /// It answered Pending, and wasn't resumed yet.
    Held,
    /// It asked for its postoperation.
    Asked(Completion),
    /// It asked for its postoperation on its own worker.
    Synchronized(Completion),
    /// It let the operation pass, without a postoperation.
    Passed,
    /// It ended the descent with that status.
    Completed(Status),
}

/// A visit of an instance on the way down.
#[derive(Clone, Copy, Debug, PartialEq, Eq)]
pub struct PreVisit {
    /// The instance.
    pub instance: InstanceId,
    /// The worker that made the visit.
    pub worker: WorkerId,
    /// How it stands.
    pub state: PreState,
    /// How many values were kept of what earlier visits received: where its own stands, if it changed it.
    pub place: u8,
}

/// Where a postoperation stands.
#[derive(Clone, Copy, Debug, PartialEq, Eq)]
pub enum PostState {
    /// The callback runs.
    Running,
    /// It answered MoreProcessing, and wasn't resumed yet.
    Held,
    /// It is over.
    Finished,
}

/// A visit of an instance on the way up.
#[derive(Clone, Copy, Debug, PartialEq, Eq)]
pub struct PostVisit {
    /// The instance.
    pub instance: InstanceId,
    /// The worker that made the visit.
    pub worker: WorkerId,
    /// How it stands.
    pub state: PostState,
}

/// A drain: in place of a postoperation, an instance that is torn down got its completion back.
#[derive(Clone, Copy, Debug, PartialEq, Eq)]
pub struct DrainVisit {
    /// The instance.
    pub instance: InstanceId,
    /// Whether the callback runs.
    pub is_running: bool,
}

/// One thing that happened to an operation. Entries are only added and settled, never taken away.
#[derive(Clone, Copy, Debug, PartialEq, Eq)]
pub enum Entry {
    /// A preoperation.
    Pre(PreVisit),
    /// The base answered, with that status and information.
    Base(Status, u64),
    /// A postoperation.
    Post(PostVisit),
    /// A drain.
    Drain(DrainVisit),
}

/// A postoperation that an instance asked for.
#[derive(Clone, Copy, Debug, PartialEq, Eq)]
pub struct Ask {
    /// The instance.
    pub instance: InstanceId,
    /// The worker of its preoperation.
    pub worker: WorkerId,
    /// What the preoperation hands on.
    pub completion: Completion,
    /// Whether that worker alone may make the postoperation.
    pub is_synchronized: bool,
    /// The place of the first value that was kept at its preoperation or below.
    pub place: u8,
}
