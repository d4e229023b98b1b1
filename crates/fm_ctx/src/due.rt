//! A context that a worker is to clean up.

use crate::owner::Owner;
use fm_types::{Bytes, ContextKind, CtxId};

/// What a filter's cleanup callback is told (`PFLT_CONTEXT_CLEANUP_CALLBACK`): the context, of which
/// kind it is, to whom it belongs, and its body, which is the callback's from then on.
#[derive(Drop)]
pub struct Due {
    pub id: CtxId,
    pub kind: ContextKind,
    pub owner: Owner,
    pub body: Bytes,
}
