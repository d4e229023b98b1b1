//! Where an operation stands.

use fm_types::InstanceId;

/// Where an operation stands on its way. A worker is inside one of its callbacks or its base call
/// exactly in `PreRunning`, `InBase`, `PostRunning` and `InDrain`.
#[derive(Clone, Copy, Debug, PartialEq, Eq)]
pub enum Stage {
    /// Between two instances, on the way down.
    Descending,
    /// A preoperation callback has it.
    PreRunning,
    /// A preoperation callback holds it.
    PreHeld,
    /// The base has it.
    InBase,
    /// Between two instances, on the way up; done where nobody is owed a postoperation.
    Ascending,
    /// A postoperation callback has it.
    PostRunning,
    /// A postoperation callback holds it.
    PostHeld,
    /// A drain of that instance has it.
    InDrain(InstanceId),
}
