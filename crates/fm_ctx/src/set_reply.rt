//! How a context is set, and what came of it.

use fm_types::CtxId;

/// What setting a context does where the owner has one set on the object already
/// (`FLT_SET_CONTEXT_KEEP_IF_EXISTS`, `FLT_SET_CONTEXT_REPLACE_IF_EXISTS`).
#[derive(Clone, Copy, Debug, PartialEq, Eq)]
pub enum SetMode {
    /// The old one stays, and the new one isn't set.
    Keep,
    /// The new one takes the place of the old one.
    Replace,
}

/// What came of setting a context.
#[derive(Clone, Copy, Debug, PartialEq, Eq)]
pub enum SetReply {
    /// It is set. The old one that it replaced is named where the caller wanted it; the worker then
    /// holds the reference that was the old one's link.
    Linked(Option<CtxId>),
    /// Another one stays set. It is named where the caller wanted it; the worker then holds one more
    /// reference to it.
    AlreadyDefined(Option<CtxId>),
    /// The caller wanted the old one, there is one, and the worker's hand has no place for it.
    HandFull,
}
