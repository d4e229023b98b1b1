//! What a filter's callbacks return.

use fm_types::{CtxId, Status};

/// What a preoperation callback hands to its own postoperation callback (`CompletionContext`).
#[derive(Clone, Copy, Debug, PartialEq, Eq)]
pub struct Completion {
    /// A number of the filter's own.
    pub number: u64,
    /// A context of the filter, whose reference travels along.
    pub context: Option<CtxId>,
}

/// What a preoperation callback returns (`FLT_PREOP_CALLBACK_STATUS`).
#[derive(Clone, Copy, Debug, PartialEq, Eq)]
pub enum PreVerdict {
    /// Go on down, and call the postoperation (`FLT_PREOP_SUCCESS_WITH_CALLBACK`).
    WithCallback(Completion),
    /// The same, with the postoperation on the worker of this callback (`FLT_PREOP_SYNCHRONIZE`).
    Synchronize(Completion),
    /// Go on down, without a postoperation (`FLT_PREOP_SUCCESS_NO_CALLBACK`).
    NoCallback,
    /// Go no further down: this is the answer (`FLT_PREOP_COMPLETE`).
    Complete(Status),
    /// Hold the operation here until it is resumed (`FLT_PREOP_PENDING`).
    Pending,
}

/// What a postoperation callback returns (`FLT_POSTOP_CALLBACK_STATUS`).
#[derive(Clone, Copy, Debug, PartialEq, Eq)]
pub enum PostVerdict {
    /// Go on up (`FLT_POSTOP_FINISHED_PROCESSING`).
    Finished,
    /// Hold the operation here until it is resumed (`FLT_POSTOP_MORE_PROCESSING_REQUIRED`).
    MoreProcessing,
}
