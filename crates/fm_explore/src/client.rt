//! A client under way.

use fm_callback_data::Reply;
use fm_types::{HandleId, OpId};
use std::alloc::Global;

/// How a client stands.
#[derive(Clone, Copy, Debug, PartialEq, Eq)]
pub(crate) enum Stand {
    /// Its next request can be made.
    Ready,
    /// Its operation goes on.
    Under(OpId),
    /// A filter holds its operation.
    Held(OpId),
    /// Its request has to wait for operations in flight, and was made last after so many steps of others.
    Waits(u64),
    /// All its requests were answered.
    Over,
}

/// A client under way.
#[derive(Drop)]
pub(crate) struct Client {
    /// How it stands.
    pub(crate) stand: Stand,
    /// The place of its next request.
    pub(crate) next: usize,
    /// What its last request came to.
    pub(crate) reply: Option<Reply>,
    /// The handle of its last create.
    pub(crate) handle: Option<u64>,
    /// Whether its operation is a create.
    pub(crate) creates: bool,
    /// The handle whose cleanup its operation is, if the close comes after that.
    pub(crate) closing: Option<HandleId>,
    /// What its requests were answered, a line for each.
    pub(crate) answers: String,
}

impl Client {
    /// Before its first request.
    pub(crate) fn new(alloc: Global) -> Client {
        Client {
            stand: Stand::Ready,
            next: 0,
            reply: None,
            handle: None,
            creates: false,
            closing: None,
            answers: String::new(alloc),
        }
    }

    /// Whether it can go on, after so many steps.
    pub(crate) fn can_go_on(&self, steps: u64) -> bool {
        match self.stand {
            Stand::Ready | Stand::Under(_) => true,
            Stand::Waits(since) => since < steps,
            Stand::Held(_) | Stand::Over => false,
        }
    }

    /// Whether that operation is its own.
    pub(crate) fn has(&self, operation: OpId) -> bool {
        match self.stand {
            Stand::Under(own) | Stand::Held(own) => own == operation,
            Stand::Ready | Stand::Waits(_) | Stand::Over => false,
        }
    }

    /// Whether it waits for others.
    pub(crate) fn is_stuck(&self) -> bool {
        matches!(self.stand, Stand::Held(_) | Stand::Waits(_))
    }
}
