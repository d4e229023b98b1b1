//! What an operation's next step needs to know, and what it is.

use fm_callback_data::{BaseCall, CallbackData, Completion};
use fm_types::{InstanceId, Status};

/// What lies below an operation on its way down.
#[derive(Clone, Copy, Debug, PartialEq, Eq)]
pub enum Below {
    /// That instance, and whether its filter has a preoperation callback for the operation.
    Instance(InstanceId, bool),
    /// The base, by a device call.
    Call,
    /// The base, whose answer is known without a device call: this status, and nothing else.
    Known(Status),
}

/// What a worker has to do next for an operation.
#[derive(Drop)]
pub enum FlowAction {
    /// Call that instance's preoperation with the data.
    Pre(InstanceId, CallbackData),
    /// Ask the base, of that volume and file, with the parameters.
    Base(BaseCall),
    /// Call that instance's postoperation with the data and its completion.
    Post(InstanceId, CallbackData, Completion),
    /// Give that instance its completion back, for it is torn down.
    Drain(InstanceId, Completion),
    /// Nothing: an entry was made without a call. Ask again.
    Moved,
    /// Nothing: a filter holds the operation.
    Held,
    /// Nothing: the operation is done.
    Done,
}
