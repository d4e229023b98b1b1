//! What an answer says that happened, by what its command asked for and what was so before.

use fm_callback_data::{PostVerdict, PreVerdict};
use fm_core::{Entry, Place, PreState, State, Step};
use fm_report::{Event, Facts, InstanceVisit, Kind, held_at, instance_in, operation_in, stands_at};
use fm_script::{ContextList, Said, Task, Word};
use fm_types::{ContextKind, CtxId, InstanceId, OpId, Status, WorkerId};

/// What a line asked for.
#[derive(Clone, Copy)]
pub struct LineContext<'a> {
    /// What it had done.
    pub task: &'a Task,
    /// Where its worker was before.
    pub place: Place,
    /// Whether a device was called meanwhile.
    pub has_called: bool,
    /// What it names.
    pub subject: Facts,
    /// The manager's state now.
    pub state: &'a State,
    /// The contexts by their numbers.
    pub contexts: &'a ContextList,
}

/// A refusal of a line that names that.
pub fn refusal_in(said: &Said, subject: Facts) -> Option<Event> {
    match said {
        Said::Refused(status) => Some(Event::refused(*status, subject)),
        Said::Defined(context) => {
            let facts = Facts {
                context: Some(*context),
                ..subject
            };
            Some(Event::refused(Status::AlreadyDefined, facts))
        }
        _ => None,
    }
}

// The number that an answer gave.
fn number_in(said: &Said) -> u64 {
    match said {
        Said::Id(_, _, number) | Said::Number(_, number) => *number,
        _ => 0,
    }
}

// The number that an answer gave, as an instance.
fn instance_of(said: &Said) -> InstanceId {
    InstanceId(u16::try_from(number_in(said)).unwrap_or(0))
}

// Whether the answer is that there is none.
fn is_none(said: &Said) -> bool {
    matches!(said, Said::Plain(Word::None))
}

// A worker's number.
fn number_of(worker: WorkerId) -> u64 {
    u64::from(worker.0)
}

// A worker's visit, by where it is.
fn visit_at(worker: WorkerId, place: Place) -> InstanceVisit {
    InstanceVisit {
        worker: number_of(worker),
        operation: operation_in(place).unwrap_or(0),
        instance: instance_in(place).unwrap_or(0),
    }
}

// Something of a filter.
fn of_filter(kind: Kind, filter: u64) -> Event {
    Event::of(kind, Facts::filter_since(filter, 0))
}

// Something of a volume.
fn of_volume(kind: Kind, volume: u64) -> Event {
    Event::of(kind, Facts::volume_since(volume, 0))
}

// Something of an instance.
fn of_instance(kind: Kind, instance: u64) -> Event {
    Event::of(kind, Facts::instance(instance))
}

// Something of an operation.
fn of_operation(kind: Kind, operation: u64) -> Event {
    Event::of(kind, Facts::operation(operation))
}

// So many.
fn counted(kind: Kind, count: u64) -> Event {
    Event::of(kind, Facts::number(count))
}

// How far a context's life is.
fn life_of(context: u64, said: &Said) -> Event {
    let kind = match said {
        Said::Number(..) => Kind::Counted,
        Said::Plain(Word::Due) => Kind::CountedDue,
        Said::Plain(Word::Cleaning) => Kind::CountedCleaning,
        _ => Kind::CountedCleaned,
    };
    let facts = Facts {
        context: Some(context),
        number: number_in(said),
        ..Facts::none()
    };
    Event::of(kind, facts)
}

impl LineContext<'_> {
    /// What a line of its answer says.
    pub fn event(&self, said: &Said) -> Event {
        if let Some(refusal) = refusal_in(said, self.subject) {
            return refusal;
        }
        match self.task {
            Task::Event(step) => self.step(step, said),
            Task::Attach { .. } => of_instance(Kind::Attached, number_in(said)),
            Task::Next { worker, operation } => self.next(*worker, *operation, said),
            Task::Go { worker, operation } => self.go(*worker, *operation, said),
            Task::Pre { worker, verdict } => self.pre(visit_at(*worker, self.place), *verdict),
            Task::Base { .. } => self.based(operation_in(self.place).unwrap_or(0)),
            Task::Post { worker, verdict } => self.post(*worker, *verdict),
            other => self.question(other, said),
        }
    }

    // What a question was answered with, or what a line noted for later.
    fn question(&self, task: &Task, said: &Said) -> Event {
        let count = number_in(said);
        match task {
            Task::Plan { instance, verdict } => planned(*instance, *verdict),
            Task::Phase(instance) => self.phase(*instance),
            Task::Flight(instance) => {
                let facts = Facts {
                    instance: Some(u64::from(instance.0)),
                    number: count,
                    ..Facts::none()
                };
                Event::of(Kind::Flight, facts)
            }
            Task::Count(context) => life_of(self.number(*context), said),
            Task::Leaks => counted(Kind::Leaks, count),
            Task::Fail(0) => counted(Kind::WontFail, 0),
            Task::Fail(number) => counted(Kind::WillFail, *number),
            _ => counted(Kind::Failures, count),
        }
    }

    // How far an instance's life is.
    fn phase(&self, instance: InstanceId) -> Event {
        let facts = Facts {
            instance: Some(u64::from(instance.0)),
            phase: self.state.phase(instance),
            ..Facts::none()
        };
        Event::of(Kind::Phase, facts)
    }

    // A preoperation gave its verdict.
    fn pre(&self, visit: InstanceVisit, verdict: PreVerdict) -> Event {
        Event::verdict(Kind::Pre, visit, verdict, self.sent(visit))
    }

    // What a worker was given to do next.
    fn next(&self, worker: WorkerId, operation: OpId, said: &Said) -> Event {
        let place = match said {
            Said::Id(Word::Pre, _, _) => Place::Pre(operation, instance_of(said)),
            Said::Id(Word::Post, _, _) => Place::Post(operation, instance_of(said)),
            Said::Id(_, _, _) => Place::Drain(operation, instance_of(said)),
            Said::Plain(Word::Base) => Place::Base(operation),
            _ => return self.stands(operation, said),
        };
        Event::entered(number_of(worker), place)
    }

    // What a worker did in a turn of `go`.
    fn go(&self, worker: WorkerId, operation: OpId, said: &Said) -> Event {
        let visit = InstanceVisit {
            worker: number_of(worker),
            operation: operation.0,
            instance: number_in(said),
        };
        match said {
            Said::Answered(instance, verdict) => {
                let visit = InstanceVisit {
                    instance: *instance,
                    ..visit
                };
                self.pre(visit, *verdict)
            }
            Said::Based(status) if self.has_called => {
                Event::answered(Kind::Base, operation.0, *status)
            }
            Said::Based(status) => Event::answered(Kind::Known, operation.0, *status),
            Said::Id(Word::Post, _, _) => Event::on(Kind::Post, visit),
            Said::Id(_, _, _) => Event::on(Kind::Drained, visit),
            _ => self.stands(operation, said),
        }
    }

    // How an operation stands where no worker is in a call for it.
    fn stands(&self, operation: OpId, said: &Said) -> Event {
        let number = operation.0;
        match (said, self.known(operation)) {
            (Said::Replied(answer), _) => {
                Event::replied(number, answer.status, answer.information)
            }
            (Said::Plain(Word::Held), _) => self.held(operation),
            (Said::Plain(Word::Done), _) => of_operation(Kind::Done, number),
            (_, Some(status)) => Event::answered(Kind::Known, number, status),
            _ => of_operation(Kind::Moved, number),
        }
    }

    // An operation is held.
    fn held(&self, operation: OpId) -> Event {
        let instance = match held_at(self.state, operation) {
            Some((instance, _)) => u64::from(instance.0),
            None => 0,
        };
        let facts = Facts {
            operation: Some(operation.0),
            instance: Some(instance),
            ..Facts::none()
        };
        Event::of(Kind::Held, facts)
    }

    // The file system's answer to an operation, where that is what happened to it last.
    fn known(&self, operation: OpId) -> Option<Status> {
        match self.state.trace(operation)?.last() {
            Some(Entry::Base(status, _)) => Some(*status),
            _ => None,
        }
    }

    // The file system answered.
    fn based(&self, operation: u64) -> Event {
        let status = self.known(OpId(operation)).unwrap_or(Status::Success);
        Event::answered(Kind::Base, operation, status)
    }

    // A postoperation returned, or a drain, in which `more` holds nothing.
    fn post(&self, worker: WorkerId, verdict: PostVerdict) -> Event {
        let kind = match (self.place, verdict) {
            (Place::Drain(..), _) => Kind::Drained,
            (_, PostVerdict::Finished) => Kind::Post,
            (_, PostVerdict::MoreProcessing) => Kind::PostHeld,
        };
        Event::on(kind, visit_at(worker, self.place))
    }

    // The context that a preoperation sent along, by its number: it counts only where the postoperation does, and the context was in the hand.
    fn sent(&self, visit: InstanceVisit) -> Option<u64> {
        match stands_at(self.state, OpId(visit.operation), visit.instance)? {
            PreState::Asked(completion) | PreState::Synchronized(completion) => {
                Some(self.number(completion.context?))
            }
            _ => None,
        }
    }

    // A context's number.
    fn number(&self, context: CtxId) -> u64 {
        match self.contexts.number_of(context) {
            Some(number) => number as u64,
            None => 0,
        }
    }

    // An event of the manager.
    fn step(&self, step: &Step, said: &Said) -> Event {
        match step {
            Step::Register { .. } => of_filter(Kind::Loaded, number_in(said)),
            Step::Mount { .. } => of_volume(Kind::Mounted, number_in(said)),
            Step::Attach { worker, .. } => {
                Event::entered(number_of(*worker), Place::Setup(instance_of(said)))
            }
            Step::SetupDone { worker, .. } => self.returned(*worker),
            Step::Begin(_) | Step::BeginFrom(_, _) => { of_operation(Kind::Began, number_in(said)) }
            Step::ResumePre {
                worker,
                operation,
                verdict,
            } => {
                let visit = self.resumed(*worker, *operation);
                Event::verdict(Kind::Resumed, visit, *verdict, None)
            }
            Step::ResumePost { worker, operation } => {
                Event::on(Kind::PostResumed, self.resumed(*worker, *operation))
            }
            Step::ChangeHeld {
                worker,
                operation,
                ..
            } => Event::on(Kind::HeldChanged, self.resumed(*worker, *operation)),
            Step::Collect { operation } => self.stands(*operation, said),
            other => self.context_step(other, said),
        }
    }

    // The visit at which an operation is resumed.
    fn resumed(&self, worker: WorkerId, operation: OpId) -> InstanceVisit {
        InstanceVisit {
            operation: operation.0,
            ..visit_at(worker, self.place)
        }
    }

    // The callback that a worker was in returned.
    fn returned(&self, worker: WorkerId) -> Event {
        Event::returned(number_of(worker), self.place)
    }

    // Something that a worker did with a context that its line names.
    fn on(&self, kind: Kind, worker: WorkerId, context: CtxId) -> Event {
        Event::on_context(kind, number_of(worker), self.number(context))
    }

    // Something that a worker did with a context.
    fn context_step(&self, step: &Step, said: &Said) -> Event {
        match step {
            Step::Allocate { worker, .. } => told(Kind::Allocated, *worker, said),
            Step::Get { worker, .. } => told(Kind::Got, *worker, said),
            Step::Set {
                worker,
                context,
                ..
            } => with_old(self.on(Kind::Set, *worker, *context), said),
            Step::Delete { worker, kind, .. } => match said {
                Said::Id(..) => told(Kind::TakenOff, *worker, said),
                _ => taken_away(*worker, *kind),
            },
            Step::Reference { worker, context } => self.on(Kind::Referenced, *worker, *context),
            Step::Release { worker, context } => self.on(Kind::Released, *worker, *context),
            Step::ReadBody { worker, context } => self.on(Kind::Body, *worker, *context),
            Step::WriteBody {
                worker,
                context,
                ..
            } => self.on(Kind::Written, *worker, *context),
            Step::Bump {
                worker,
                context,
                ..
            } => with_number(self.on(Kind::Bumped, *worker, *context), said),
            other => self.cleanup_step(other, said),
        }
    }

    // A cleanup of a context.
    fn cleanup_step(&self, step: &Step, said: &Said) -> Event {
        match (step, self.place) {
            (Step::TakeDue { worker }, _) if is_none(said) => {
                Event::of(Kind::NoneDue, Facts::worker(number_of(*worker)))
            }
            (Step::TakeDue { worker }, _) => told(Kind::InCleanup, *worker, said),
            (Step::Cleaned { worker, .. }, Place::Cleanup(context)) => {
                self.on(Kind::Cleaned, *worker, context)
            }
            (other, _) => self.teardown_step(other, said),
        }
    }

    // A step of a detach, or of a routine.
    fn teardown_step(&self, step: &Step, said: &Said) -> Event {
        match step {
            Step::AskDetach { worker, instance } => entered(*worker, Place::Query(*instance)),
            Step::StartTeardown { worker, instance } => entered(*worker, Place::Start(*instance)),
            Step::DrainTake { instance, .. } if is_none(said) => {
                of_instance(Kind::NoneOwed, u64::from(instance.0))
            }
            Step::DrainTake { worker, instance } => entered(
                *worker,
                Place::EarlyDrain(OpId(number_in(said)), *instance),
            ),
            Step::CompleteTeardown { worker, instance } => {
                entered(*worker, Place::Complete(*instance))
            }
            Step::EnterRoutine {
                worker,
                instance,
                ..
            } => entered(*worker, Place::Routine(*instance, None)),
            Step::QueryReturned { worker, .. }
            | Step::StartReturned { worker }
            | Step::DrainDone { worker }
            | Step::CompleteReturned { worker }
            | Step::RoutineReturned { worker }
            | Step::UnloadReturned { worker, .. } => self.returned(*worker),
            Step::Finish { instance } => of_instance(Kind::Finished, u64::from(instance.0)),
            Step::AskUnload { worker, filter } => entered(*worker, Place::Unload(*filter)),
            other => end_step(other, said),
        }
    }
}

// How `go` answers for an instance.
fn planned(instance: InstanceId, verdict: PreVerdict) -> Event {
    let facts = Facts {
        instance: Some(u64::from(instance.0)),
        verdict: Some(verdict),
        ..Facts::none()
    };
    Event::of(Kind::Planned, facts)
}

// A worker did that with the context that its answer names.
fn told(kind: Kind, worker: WorkerId, said: &Said) -> Event {
    Event::on_context(kind, number_of(worker), number_in(said))
}

// The same, and its answer names the context that was there before.
fn with_old(event: Event, said: &Said) -> Event {
    match said {
        Said::Id(_, _, old) => {
            let facts = Facts {
                old: Some(*old),
                ..event.facts
            };
            Event::of(event.kind, facts)
        }
        _ => event,
    }
}

// The same, and its answer gives a number.
fn with_number(event: Event, said: &Said) -> Event {
    let facts = Facts {
        number: number_in(said),
        ..event.facts
    };
    Event::of(event.kind, facts)
}

// The context of a kind was taken off, and its reference given up.
fn taken_away(worker: WorkerId, kind: ContextKind) -> Event {
    let facts = Facts {
        worker: Some(number_of(worker)),
        kind: Some(kind),
        ..Facts::none()
    };
    Event::of(Kind::TakenAway, facts)
}

// A worker came into a callback.
fn entered(worker: WorkerId, place: Place) -> Event {
    Event::entered(number_of(worker), place)
}

// A step of the end of a filter or of a volume.
fn end_step(step: &Step, said: &Said) -> Event {
    match step {
        Step::EmptyFilter { filter } => of_filter(Kind::FilterEmptied, u64::from(filter.0)),
        Step::FinishFilter { filter } => of_filter(Kind::FilterFinished, u64::from(filter.0)),
        Step::StartDismount { volume } => of_volume(Kind::Dismounting, u64::from(volume.0)),
        Step::DropHandle { volume } if is_none(said) => {
            of_volume(Kind::NoneOpen, u64::from(volume.0))
        }
        Step::DropHandle { volume } => dropped(u64::from(volume.0), number_in(said)),
        Step::EmptyVolume { volume } => of_volume(Kind::VolumeEmptied, u64::from(volume.0)),
        Step::FinishVolume { volume } => of_volume(Kind::VolumeFinished, u64::from(volume.0)),
        _ => counted(Kind::Leaks, 0),
    }
}

// A handle was closed by the dismount of its volume.
fn dropped(volume: u64, handle: u64) -> Event {
    let facts = Facts {
        volume: Some(volume),
        handle: Some(handle),
        ..Facts::none()
    };
    Event::of(Kind::Dropped, facts)
}
