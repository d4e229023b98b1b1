//! The manager that threads share.

ghost use Rattle.std.specs.Prelude.{◌≡◌, Err, IfErr, IfOk, None};
ghost use Rattle.fm_stack.specs.Instances.{same_name};
ghost use Rattle.fm_world.specs.Ending.{IsOver};
ghost use Rattle.fm_world.specs.Hands.{worker_pairs};
ghost use Rattle.fm_ctx.specs.Counting.{born, cleaned_count};
ghost use Rattle.fm_lock.specs.Events.{HandAfter};
ghost use Rattle.fm_lock.specs.Hired.{place_called};
ghost use Rattle.fm_lock.specs.Runs.{IsAnswered, IsRegistered};
ghost use Rattle.fm_lock.specs.Views.{held_by};
ghost use Rattle.fm_lock.specs.Blanks.{IsBlankOf};

use crate::hand::Hand;
use crate::locked::Locked;
use crate::report::Report;
use crate::waiting::Waiting;
use fm_filter::Callbacks;
use fm_operations::FlowAction;
use fm_types::{FilterId, InstanceId, Name, OpId, Status};
use fm_world::{Refused, Step, StepReply};
use std::alloc::Global;
use std::sync::ledger::{Blank, Ledger};
use std::sync::{Mutex, MutexGuard, Wait};

/// How often a thread looks for the lock before it sleeps.
const LOOKS: usize = 13;

/// A manager that threads share, over filters of one type. Each call takes the lock for one event of the State, and gives it back before it returns: so
/// callbacks and base calls, which the caller makes between calls, run with no lock held. What holds of the State inside is `Locked`'s; a caller learns the
/// answer, and how many references its hand holds.
#[derive(Drop)]
pub struct Manager<F: Drop, L: Ledger> {
    filters: Vec<(Name, F)>,
    lock: Mutex<Locked<L>>,
    pub(crate) waiting: Waiting,
}

fn is_called(own: &Name, name: &Name) -> bool
    ensures { result ≡ same_name own.now name.now }
{
    *own == *name
}

/// Whether `next` answered that an operation is done.
pub(crate) fn is_done(action: &Result<FlowAction, Status>) -> bool {
    matches!(action, Ok(FlowAction::Done))
}

/// The same of a reply.
fn is_told_done(given: &Result<StepReply, Refused<Step>>) -> bool {
    match given {
        Ok(StepReply::Action(action)) => is_done(action),
        _ => false,
    }
}

/// The operation whose next turn an event asks for.
fn asks_next(step: &Step) -> Option<OpId> {
    match step {
        Step::Next { operation, .. } => Some(*operation),
        _ => None,
    }
}

impl<F: Drop, L: Ledger> Manager<F, L> {
    /// A manager of these filters, each under its name, before its first event. The blank is this ledger's own, in 49 parts: one for each worker's hand, and one
    /// that stays. Refused with 1 alone, if memory is refused for the state.
    pub fn new(
        alloc: Global,
        filters: Vec<(Name, F)>,
        blank: Blank,
    ) -> Result<Manager<F, L>, Status>
        requires blank { IsBlankOf blank.name blank.parts L.name L.parts }
        ensures filters { IfOk result (λ manager. manager.filters ≡ filters) }
        ensures memory { IfErr result (λ status. status ≡ Status.NoMemory) }
    {
        let locked = Locked::new(alloc, blank)?;
        Ok(Manager {
            filters,
            lock: Mutex::new(locked),
            waiting: Waiting::new(),
        })
    }

    /// Takes the lock. An event is short: so a thread looks a few times, with pauses in which the one that has it makes several events, before it sleeps.
    pub(crate) fn locked<R: Wait>(&self, rt: &R) -> MutexGuard<'_, Locked<L>> {
        'looks: for _ in 0..LOOKS {
            if let Some(locked) = self.lock.try_lock() {
                return locked;
            }
            self.waiting.pause();
        }
        self.lock.lock(rt)
    }

    /// Makes an event that names a worker, by that worker's hand, as `Locked::step`. Who waits for an operation is told of a `next` that answers Done.
    #[tactic(auto, using(crate::proofs::Seen::event_seen))]
    pub fn step<R: Wait>(
        &self,
        rt: &R,
        hand: &mut Hand<L>,
        step: Step,
    ) -> Result<StepReply, Refused<Step>>
        ensures held { HandAfter step hand.old result hand.new }
        ensures run { IsAnswered step result }
    {
        let asked = asks_next(&step);
        let result = self.locked(rt).step(hand, step);
        if is_told_done(&result) {
            if let Some(operation) = asked {
                self.waiting.tell(operation);
            }
        }
        result
    }

    /// Makes an event that names no worker, as `Locked::step_alone`. A filter is registered by `register` alone, by its name,
    /// and a dismount begins by `start_dismount` alone.
    #[tactic(auto, using(crate::proofs::Seen::alone_seen))]
    pub fn step_alone<R: Wait>(&self, rt: &R, step: Step) -> Result<StepReply, Refused<Step>>
        ensures refused { IfErr result (λ refused. refused ≡ record { status = Status.WrongStep; handed_back = step }) }
        ensures run { IsAnswered step result }
    {
        self.locked(rt).step_alone(step)
    }

    /// Gives out the hand of a worker whose hand is in. It holds nothing. Refused with 29 if all 48 are out.
    pub fn hire<R: Wait>(&self, rt: &R) -> Result<Hand<L>, Status>
        ensures ok { IfOk result (λ hand. hand.held ≡ 0) }
        ensures err { IfErr result (λ status. status ≡ Status.TooMany) }
    {
        self.locked(rt).hire()
    }

    /// Takes a hand back, which holds nothing. Refused with 30 and the hand handed back, if its worker isn't idle (a base call counts too) or its number isn't
    /// the State's.
    pub fn retire<R: Wait>(&self, rt: &R, hand: Hand<L>) -> Result<(), (Hand<L>, Status)>
        ensures ok { IfOk result (λ done. hand.held ≡ 0) }
        ensures err { IfErr result (λ refused. (refused.0 ≡ hand) × (refused.1 ≡ Status.WrongStep)) }
    {
        self.locked(rt).retire(hand)
    }

    // The place of the filter of that name.
    fn place_called(&self, name: &Name) -> Option<usize>
        ensures { result ≡ place_called name.now self.now.filters.items }
    {
        self.filters.iter().position(|row| is_called(&row.0, name))
    }

    // The filter that was handed in at that place.
    pub(crate) fn filter_at(&self, place: Option<usize>) -> Option<&F>
        ensures { place ≡ None → result ≡ None }
    {
        let row = self.filters.get(place?)?;
        Some(&row.1)
    }

    /// The filter that a filter's number stands for; none where that number wasn't given.
    pub fn filter<R: Wait>(&self, rt: &R, filter: FilterId) -> Option<&F> {
        let place = self.locked(rt).place_of(filter);
        self.filter_at(place)
    }

    /// The filter of an instance; none where the instance isn't there.
    pub fn filter_of_instance<R: Wait>(&self, rt: &R, instance: InstanceId) -> Option<&F> {
        let place = self.locked(rt).place_of_instance(instance);
        self.filter_at(place)
    }

    /// Ends the manager, if the hands are all that are out, each once, and nothing is left of its life. The hands hold together what the State says that
    /// workers hold, which is nothing. Refused with everything handed back: 32 if they aren't those hands, 34 with the number of operations, open handles,
    /// instances that aren't Detached and contexts that aren't cleaned up.
    pub fn shutdown(
        self,
        hands: Vec<Hand<L>>,
    ) -> Result<Report, (Manager<F, L>, Vec<Hand<L>>, Status)>
        requires { L.parts ≡ 49 }
        ensures over { IfOk result (λ report. IsOver report.state) }
        ensures sum { IfOk result (λ report. worker_pairs report.state ≡ held_by hands.items) }
        ensures born { IfOk result (λ report. report.born ≡ born report.state.contexts.slots) }
        ensures cleaned { IfOk result (λ report. report.cleaned ≡ cleaned_count report.state.contexts.slots) }
        ensures leaks { IfOk result (λ report. report.leaks ≡ report.state.contexts.leaks) }
        ensures back { IfErr result (λ refused. refused.1.items ≡ hands.items) }
        ensures filters { IfErr result (λ refused. refused.0.filters ≡ self.filters) }
    {
        let Manager {
            filters,
            lock,
            waiting,
        } = self;
        match lock.into_inner().close(hands) {
            Ok(report) => Ok(report),
            Err((locked, hands, status)) => {
                let manager = Manager {
                    filters,
                    lock: Mutex::new(locked),
                    waiting,
                };
                Err((manager, hands, status))
            }
        }
    }
}

impl<F: Callbacks, L: Ledger> Manager<F, L> {
    /// Registers the filter of that name (`FltRegisterFilter`), for what it asks. Refused with 6 if none was handed in under that name, and then as the State's
    /// `register`: 10 where one of that name isn't unloaded, 29, 1.
    pub fn register<R: Wait>(&self, rt: &R, name: &Name) -> Result<FilterId, Status>
        ensures none { place_called name.now self.now.filters.items ≡ None → result ≡ Err Status.NoFilter }
        ensures run { IsRegistered name.now result }
    {
        let Some(place) = self.place_called(name) else {
            return Err(Status::NoFilter);
        };
        let registration = self.filters[place].1.registration();
        self.locked(rt).register(*name, registration, place)
    }
}
