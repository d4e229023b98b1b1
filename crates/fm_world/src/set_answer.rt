//! What setting a context answers.

use fm_types::{CtxId, Status};

/// What came of setting a context. A refusal because one is set already may hand that one out.
#[derive(Clone, Copy, Debug, PartialEq, Eq)]
pub enum SetAnswer {
    /// The context is set. The one that it replaced is named where the caller wanted it: its reference is in the worker's hand.
    Linked(Option<CtxId>),
    /// Another one is set there and stays (22, AlreadyDefined). It is named where the caller wanted it: a reference to it is in the worker's hand.
    AlreadyDefined(Option<CtxId>),
    /// Nothing changed.
    Refused(Status),
}
