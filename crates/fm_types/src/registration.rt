//! What a filter registers with the filter manager when it is loaded.

use crate::context_kind::ContextMask;
use crate::operation::OpMask;

/// What a filter wants to be called for (`FLT_REGISTRATION`).
#[derive(Clone, Copy, Debug, PartialEq, Eq)]
pub struct Registration {
    /// The operations of which it has a preoperation callback.
    pub pre: OpMask,
    /// The operations of which it has a postoperation callback.
    pub post: OpMask,
    /// The kinds of contexts that it may allocate.
    pub contexts: ContextMask,
    /// Whether it is asked before an instance is detached (`InstanceQueryTeardownCallback`).
    pub query: bool,
    /// Whether it may be unloaded without force (`FilterUnloadCallback`).
    pub unload: bool,
}
