//! What the lines of a run answered, as values.

use crate::facts::Facts;
use crate::kind::Kind;
use fm_callback_data::PreVerdict;
use fm_core::Place;
use fm_types::{InstanceId, OpId, Status};

/// A worker's visit of an instance for an operation.
#[derive(Clone, Copy)]
pub struct InstanceVisit {
    /// The worker.
    pub worker: u64,
    /// The operation.
    pub operation: u64,
    /// The instance.
    pub instance: u64,
}

/// What happened, and its facts.
#[derive(Clone, Copy)]
pub struct Event {
    /// What happened.
    pub kind: Kind,
    /// What it has.
    pub facts: Facts,
}

/// What happened on a line.
#[derive(Clone, Copy)]
pub struct Moment {
    /// The line.
    pub line: u32,
    /// What happened.
    pub event: Event,
}

// The filter whose callback is there.
fn filter_in(place: Place) -> Option<u64> {
    match place {
        Place::Unload(filter) => Some(u64::from(filter.0)),
        _ => None,
    }
}

// The ids of a place, for a worker.
fn facts_of(worker: u64, place: Place) -> Facts {
    Facts {
        worker: Some(worker),
        filter: filter_in(place),
        instance: instance_in(place),
        operation: operation_in(place),
        ..Facts::none()
    }
}

impl Event {
    /// Something with these facts.
    pub fn of(kind: Kind, facts: Facts) -> Event {
        Event { kind, facts }
    }

    /// What a worker did on its visit.
    pub fn on(kind: Kind, visit: InstanceVisit) -> Event {
        let facts = Facts {
            worker: Some(visit.worker),
            operation: Some(visit.operation),
            instance: Some(visit.instance),
            ..Facts::none()
        };
        Event { kind, facts }
    }

    /// The verdict of a preoperation, given there or as it is resumed, and the context that it sent along.
    pub fn verdict(
        kind: Kind,
        visit: InstanceVisit,
        verdict: PreVerdict,
        context: Option<u64>,
    ) -> Event {
        let facts = Facts {
            worker: Some(visit.worker),
            operation: Some(visit.operation),
            instance: Some(visit.instance),
            verdict: Some(verdict),
            context,
            ..Facts::none()
        };
        Event { kind, facts }
    }

    /// A worker came into a callback, or into the file system's call.
    pub fn entered(worker: u64, place: Place) -> Event {
        Event {
            kind: Kind::entered(place),
            facts: facts_of(worker, place),
        }
    }

    /// A callback of a setup, of a teardown, of an unload or of an early drain returned.
    pub fn returned(worker: u64, place: Place) -> Event {
        Event {
            kind: Kind::returned(place),
            facts: facts_of(worker, place),
        }
    }

    /// What a worker did with a context.
    pub fn on_context(kind: Kind, worker: u64, context: u64) -> Event {
        let facts = Facts {
            worker: Some(worker),
            context: Some(context),
            ..Facts::none()
        };
        Event { kind, facts }
    }

    /// An operation came to a status: the file system's answer, or the manager's in its place.
    pub fn answered(kind: Kind, operation: u64, status: Status) -> Event {
        let facts = Facts {
            operation: Some(operation),
            status: Some(status),
            ..Facts::none()
        };
        Event { kind, facts }
    }

    /// An operation's reply was handed out, with a number beside its bytes.
    pub fn replied(operation: u64, status: Status, number: u64) -> Event {
        let facts = Facts {
            operation: Some(operation),
            status: Some(status),
            number,
            ..Facts::none()
        };
        Event {
            kind: Kind::Replied,
            facts,
        }
    }

    /// A line was refused, that names this.
    pub fn refused(status: Status, subject: Facts) -> Event {
        let facts = Facts {
            status: Some(status),
            ..subject
        };
        Event {
            kind: Kind::Refused,
            facts,
        }
    }

    /// Whether it has that status.
    pub fn is_success(&self) -> bool {
        matches!(self.facts.status, Some(Status::Success))
    }

    /// Whether the operation is held from then on.
    pub fn holds(&self) -> bool {
        match self.kind {
            Kind::PostHeld => true,
            Kind::Pre => matches!(self.facts.verdict, Some(PreVerdict::Pending)),
            _ => false,
        }
    }

    /// The callback that returned with it, in a turn of a worker that was in none; Idle where none did.
    pub fn callback(&self) -> Place {
        match (self.facts.operation, self.facts.instance) {
            (Some(operation), Some(instance)) => {
                callback_in(self.kind, OpId(operation), instance)
            }
            _ => Place::Idle,
        }
    }
}

// The callback that an event of that kind is of.
fn callback_in(kind: Kind, operation: OpId, instance: u64) -> Place {
    let Ok(instance) = u16::try_from(instance) else {
        return Place::Idle;
    };
    match kind {
        Kind::Pre => Place::Pre(operation, InstanceId(instance)),
        Kind::Post | Kind::PostHeld => Place::Post(operation, InstanceId(instance)),
        Kind::Drained => Place::Drain(operation, InstanceId(instance)),
        _ => Place::Idle,
    }
}

/// The operation that the callback or the call there is for.
pub fn operation_in(place: Place) -> Option<u64> {
    match place {
        Place::Pre(operation, _)
        | Place::Base(operation)
        | Place::Post(operation, _)
        | Place::Drain(operation, _)
        | Place::EarlyDrain(operation, _) => Some(operation.0),
        _ => None,
    }
}

/// The instance whose callback or routine is there.
pub fn instance_in(place: Place) -> Option<u64> {
    match place {
        Place::Setup(instance)
        | Place::Pre(_, instance)
        | Place::Post(_, instance)
        | Place::Drain(_, instance)
        | Place::EarlyDrain(_, instance)
        | Place::Query(instance)
        | Place::Start(instance)
        | Place::Complete(instance)
        | Place::Routine(instance, _) => Some(u64::from(instance.0)),
        _ => None,
    }
}

/// The name of the callback that is there, or of what else a worker may be in.
pub fn callback_of(place: Place) -> &'static str {
    match place {
        Place::Idle => "none",
        Place::Setup(_) => "setup",
        Place::Pre(..) => "preoperation",
        Place::Base(_) => "call",
        Place::Post(..) => "postoperation",
        Place::Drain(..) => "drain",
        Place::EarlyDrain(..) => "early drain",
        Place::Cleanup(_) => "cleanup",
        Place::Query(_) => "query",
        Place::Start(_) => "teardown-start",
        Place::Complete(_) => "teardown-complete",
        Place::Routine(_, _) => "routine",
        Place::Unload(_) => "unload",
    }
}
