//! What an event has: the ids that it names, its status, its number. The words, the objects and the pictures read these, whatever happened.

use fm_callback_data::PreVerdict;
use fm_core::Phase;
use fm_types::{ContextKind, Status};

/// What an event has, where there is such a thing. Ids stand by their numbers, contexts in the order of their allocation.
#[derive(Clone, Copy)]
pub struct Facts {
    /// The worker.
    pub worker: Option<u64>,
    /// The filter.
    pub filter: Option<u64>,
    /// The volume.
    pub volume: Option<u64>,
    /// The instance.
    pub instance: Option<u64>,
    /// The operation.
    pub operation: Option<u64>,
    /// The handle.
    pub handle: Option<u64>,
    /// The context.
    pub context: Option<u64>,
    /// The context that was there before.
    pub old: Option<u64>,
    /// How many there are, which one it is, or what a reply tells beside its bytes.
    pub number: u64,
    /// Since which line, or on which.
    pub line: u32,
    /// The status.
    pub status: Option<Status>,
    /// The verdict of a preoperation.
    pub verdict: Option<PreVerdict>,
    /// The kind of contexts.
    pub kind: Option<ContextKind>,
    /// How far an instance's life is.
    pub phase: Option<Phase>,
}

/// Nothing.
const NONE: Facts = Facts {
    worker: None,
    filter: None,
    volume: None,
    instance: None,
    operation: None,
    handle: None,
    context: None,
    old: None,
    number: 0,
    line: 0,
    status: None,
    verdict: None,
    kind: None,
    phase: None,
};

impl Facts {
    /// None.
    pub fn none() -> Facts {
        NONE
    }

    /// An instance.
    pub fn instance(instance: u64) -> Facts {
        Facts {
            instance: Some(instance),
            ..NONE
        }
    }

    /// An instance, since a line.
    pub fn instance_since(instance: u64, line: u32) -> Facts {
        Facts {
            instance: Some(instance),
            line,
            ..NONE
        }
    }

    /// A filter, since a line.
    pub fn filter_since(filter: u64, line: u32) -> Facts {
        Facts {
            filter: Some(filter),
            line,
            ..NONE
        }
    }

    /// A volume, since a line.
    pub fn volume_since(volume: u64, line: u32) -> Facts {
        Facts {
            volume: Some(volume),
            line,
            ..NONE
        }
    }

    /// An operation.
    pub fn operation(operation: u64) -> Facts {
        Facts {
            operation: Some(operation),
            ..NONE
        }
    }

    /// A context, since a line.
    pub fn context_since(context: u64, line: u32) -> Facts {
        Facts {
            context: Some(context),
            line,
            ..NONE
        }
    }

    /// A handle.
    pub fn handle(handle: u64) -> Facts {
        Facts {
            handle: Some(handle),
            ..NONE
        }
    }

    /// A worker.
    pub fn worker(worker: u64) -> Facts {
        Facts {
            worker: Some(worker),
            ..NONE
        }
    }

    /// A number.
    pub fn number(number: u64) -> Facts {
        Facts { number, ..NONE }
    }
}
