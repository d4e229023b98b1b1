//! Calls of a callback's port that were refused.

use fm_core::Place;
use fm_types::{ContextKind, CtxId, OpId, Status};
use std::fmt;

/// A call of a port, with what it was made for.
#[derive(Clone, Copy, Debug, PartialEq, Eq)]
pub enum PortCall {
    /// `FltAllocateContext`.
    Allocate(ContextKind),
    /// `FltSetStreamContext` and its kin.
    Set(CtxId),
    /// `FltGetStreamContext` and its kin.
    Get(ContextKind),
    /// `FltDeleteStreamContext` and its kin.
    Delete(ContextKind),
    /// `FltReferenceContext`.
    Reference(CtxId),
    /// `FltReleaseContext`.
    Release(CtxId),
    /// A look at a context's body.
    ReadBody(CtxId),
    /// A change of a context's body.
    WriteBody(CtxId),
    /// An addition to a number of a context's body.
    Bump(CtxId),
    /// The look for what the instance holds.
    FirstHeld,
    /// `FltCompletePendedPreOperation`.
    ResumePre(OpId),
    /// `FltCompletePendedPostOperation`.
    ResumePost(OpId),
    /// `FltPerformSynchronousIo`, `FltReadFile` and their kin.
    Perform,
}

/// A call of a port that was refused: the callback that made it, the call, and why.
#[derive(Clone, Copy, Debug, PartialEq, Eq)]
pub struct Refusal {
    /// Inside which callback the call was made.
    pub place: Place,
    /// Which call it was.
    pub call: PortCall,
    /// Its status.
    pub status: Status,
}

/// The call in the words of scripts: `rel c0`. A context is named by its slot, and behind a point stands how many contexts lay there before, if any did.
impl fmt::Display for PortCall {
    fn fmt<W: fmt::Write>(&self, f: &mut fmt::Formatter<W>) -> fmt::Result {
        match self {
            PortCall::Allocate(_) => f.write_str("alloc"),
            PortCall::Set(context) => write_of(f, "set", *context),
            PortCall::Get(_) => f.write_str("get"),
            PortCall::Delete(_) => f.write_str("del"),
            PortCall::Reference(context) => write_of(f, "ref", *context),
            PortCall::Release(context) => write_of(f, "rel", *context),
            PortCall::ReadBody(context) => write_of(f, "body", *context),
            PortCall::WriteBody(context) => write_of(f, "put", *context),
            PortCall::Bump(context) => write_of(f, "bump", *context),
            PortCall::FirstHeld => f.write_str("held"),
            PortCall::Perform => f.write_str("own"),
            PortCall::ResumePre(operation) | PortCall::ResumePost(operation) => {
                write!(f, "resume o{}", operation.0)
            }
        }
    }
}

// The call's word, and the context.
fn write_of<W: fmt::Write>(f: &mut fmt::Formatter<W>, word: &str, context: CtxId) -> fmt::Result {
    write!(f, "{word} c{}", context.slot)?;
    match context.generation {
        0 => Ok(()),
        generation => write!(f, ".{generation}"),
    }
}
