//! What a callback left in its worker's hand.

use fm_core::Place;
use fm_types::{ContextKind, CtxId, InstanceId, OpId};
use std::fmt;

/// A reference that a callback took and neither released nor sent along: the manager released it when the callback returned.
#[derive(Clone, Copy, Debug, PartialEq, Eq)]
pub struct Leak {
    /// The context that was referred to.
    pub context: CtxId,
    /// Its kind; None where it was gone before the report was made.
    pub kind: Option<ContextKind>,
    /// Inside which callback it was left.
    pub place: Place,
}

fn kind_word(kind: Option<ContextKind>) -> &'static str {
    match kind {
        Some(ContextKind::Volume) => "volume",
        Some(ContextKind::Instance) => "instance",
        Some(ContextKind::Stream) => "stream",
        Some(ContextKind::Handle) => "handle",
        Some(ContextKind::File) => "file",
        None => "-",
    }
}

// A callback of an instance that is for no operation.
fn write_of<W: fmt::Write>(
    f: &mut fmt::Formatter<W>,
    instance: InstanceId,
    callback: &str,
) -> fmt::Result {
    write!(f, " i{} {callback}", instance.0)
}

// One that is for an operation.
fn write_for<W: fmt::Write>(
    f: &mut fmt::Formatter<W>,
    instance: InstanceId,
    callback: &str,
    operation: OpId,
) -> fmt::Result {
    write!(f, " i{} {callback} o{}", instance.0, operation.0)
}

// The instance, its callback in a word, and its operation, if it has one.
fn write_place<W: fmt::Write>(f: &mut fmt::Formatter<W>, place: Place) -> fmt::Result {
    match place {
        Place::Setup(instance) => write_of(f, instance, "setup"),
        Place::Pre(operation, instance) => write_for(f, instance, "pre", operation),
        Place::Post(operation, instance) => write_for(f, instance, "post", operation),
        Place::Drain(operation, instance) | Place::EarlyDrain(operation, instance) => {
            write_for(f, instance, "drain", operation)
        }
        Place::Query(instance) => write_of(f, instance, "query"),
        Place::Start(instance) => write_of(f, instance, "start"),
        Place::Complete(instance) => write_of(f, instance, "complete"),
        Place::Routine(instance, _) => write_of(f, instance, "routine"),
        Place::Idle | Place::Base(_) | Place::Cleanup(_) | Place::Unload(_) => Ok(()),
    }
}

/// The context with its kind, whose callback it was, and the operation if there was one: `leak c0 stream i1 pre o3`. A context is named by its slot, and
/// behind a point stands how many contexts lay there before, if any did: `c0.1`.
impl fmt::Display for Leak {
    fn fmt<W: fmt::Write>(&self, f: &mut fmt::Formatter<W>) -> fmt::Result {
        write!(f, "leak c{}", self.context.slot)?;
        if self.context.generation > 0 {
            write!(f, ".{}", self.context.generation)?;
        }
        write!(f, " {}", kind_word(self.kind))?;
        write_place(f, self.place)
    }
}
