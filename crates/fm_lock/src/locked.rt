//! What stands behind the lock: the state, the book of all hands' references, and which hands are out.

ghost use Rattle.std.specs.Prelude.{◌≡◌, ◌↔◌, false, Some, None, IsTrue, IfOk, IfErr, MatchResult, option_map, replicate, slice_set};
ghost use Rattle.fm_operations.specs.Steps.{is_done};
ghost use Rattle.fm_operations.specs.Table.{operation_at};
ghost use Rattle.fm_world.specs.World.{empty_world};
ghost use Rattle.fm_world.specs.Dismounts.{StartsDismount};
ghost use Rattle.fm_world.specs.declared.step.Step.TheVariants as made;
ghost use Rattle.fm_world.specs.declared.step.StepReply.TheVariants as reply;
ghost use Rattle.fm_world.specs.Events.{Collects, Registers, sync_worker};
ghost use Rattle.fm_lock.specs.Events.{EventAlone, EventBy, KeepsHired, is_by, has_own_call};
ghost use Rattle.fm_lock.specs.Runs.{IsAnswered, IsMade};
ghost use Rattle.fm_lock.specs.Turns.{place_of};
ghost use Rattle.fm_lock.specs.Views.{HandView};
ghost use Rattle.fm_lock.specs.Blanks.{IsBlankOf};

use crate::hand::Hand;
use fm_callback_data::Answer;
use fm_core::State;
use fm_rundown::Seen;
use fm_types::limits::{FILTERS, WORKERS};
use fm_types::{FilterId, Name, OpId, Registration, Status, WorkerId};
use fm_world::{Refused, Step, StepReply};
use std::alloc::Global;
use std::marker::Model;
use std::sync::ledger::{Blank, Book, Ledger, Share};

/// What a manager's lock keeps. Each call is one event of the State, and its contract says which: so the Headline holds whenever the lock is free.
#[derive(Drop)]
pub struct Locked<L: Ledger> {
    pub(crate) state: State,
    pub(crate) book: Book<L>,
    pub(crate) rest: Share<L>,
    pub(crate) hired: [bool; WORKERS],
    pub(crate) loaded: [Option<usize>; FILTERS],
}

impl<L: Ledger> Model for Locked<L> {
    ghost use Rattle.fm_lock.specs.Views.{LockedView, IsLocked};

    ghost Value = { LockedView };

    ghost view = { λ r. record { world = r.state; hired = r.hired; loaded = r.loaded } };

    ghost invariant = { λ r. IsLocked r.state r.hired r.book.total r.rest.parts r.rest.amount };
}

/// Whether an event is that worker's.
fn is_by(worker: WorkerId, named: Option<WorkerId>) -> bool
    ensures { result ≡ is_by worker named }
{
    match named {
        Some(other) => other.0 == worker.0,
        None => false,
    }
}

/// Whether an event has a call of its own: `register` or `start_dismount`.
fn has_own_call(step: &Step) -> bool
    ensures { result ≡ has_own_call step.now }
{
    matches!(step, Step::Register { .. } | Step::StartDismount { .. })
}

impl<L: Ledger> Locked<L> {
    /// Before the first event: all hands are in. The blank is this ledger's own, in 49 parts: one for each worker, and one that stays. Refused with 1 alone,
    /// if memory is refused for the state.
    #[tactic(auto, using(crate::proofs::Running::begins))]
    pub fn new(alloc: Global, blank: Blank) -> Result<Locked<L>, Status>
        requires blank { IsBlankOf blank.name blank.parts L.name L.parts }
        ensures empty { IfOk result (λ locked. locked ≡ record { world = empty_world; hired = replicate 48 false; loaded = replicate 16 None }) }
        ensures memory { IfErr result (λ status. status ≡ Status.NoMemory) }
    {
        let state = State::new(alloc)?;
        let (book, rest) = blank.open::<L>();
        Ok(Locked {
            state,
            book,
            rest,
            hired: [false; WORKERS],
            loaded: [None; FILTERS],
        })
    }

    /// The state, to be read.
    pub fn state(&self) -> &State
        ensures { result.now ≡ self.now.world }
    {
        &self.state
    }

    /// Makes an event that names a worker, by that worker's hand. It answers as the State does. Refused with 30 before the event, nothing changed and the
    /// event handed back: if it names no worker or another one, or the hand's number isn't the State's.
    #[tactic(auto, using(crate::proofs::Running::goes_on, crate::proofs::Running::event_answered))]
    pub fn step(&mut self, hand: &mut Hand<L>, step: Step) -> Result<StepReply, Refused<Step>>
        ensures event { EventBy step self.old hand.old result self.new hand.new }
        ensures run { IsAnswered step result }
    {
        let worker = hand.worker();
        if !is_by(worker, step.worker()) || self.state.hand_len(worker) as u64 != hand.held() {
            return Err(Refused {
                status: Status::WrongStep,
                handed_back: step,
            });
        }
        let reply = self.state.step(step);
        hand.settle(&mut self.book, self.state.hand_len(worker) as u64);
        Ok(reply)
    }

    /// Makes an event that names no worker. It answers as the State does. Refused with 30 before the event, nothing changed and the event handed back: if
    /// it names one, or registers a filter or begins a dismount, which `register` and `start_dismount` do.
    #[tactic(auto, using(fm_world::proofs::Handing::keeps_pairs, crate::proofs::Running::goes_on, crate::proofs::Running::alone_answered))]
    pub fn step_alone(&mut self, step: Step) -> Result<StepReply, Refused<Step>>
        ensures event { EventAlone step self.old result self.new }
        ensures run { IsAnswered step result }
    {
        if step.worker().is_some() || has_own_call(&step) {
            return Err(Refused {
                status: Status::WrongStep,
                handed_back: step,
            });
        }
        Ok(self.state.step(step))
    }

    /// Registers a filter that was handed in at that place, and notes that its number stands for it. It answers as the State's `register` does.
    #[tactic(auto, using(fm_world::proofs::Handing::keeps_pairs, crate::proofs::Running::after_register, crate::proofs::Running::register_made))]
    pub fn register(
        &mut self,
        name: Name,
        registration: Registration,
        place: usize,
    ) -> Result<FilterId, Status>
        ensures event { Registers self.old.world name registration result self.new.world }
        ensures run { IsMade (made.Register name registration) (reply.Filter result) }
        ensures hired { self.new.hired ≡ self.old.hired }
        ensures loaded { MatchResult result (λ f. self.new.loaded ≡ slice_set self.old.loaded f.0 (Some place)) (λ status. self.new.loaded ≡ self.old.loaded) }
    {
        let filter = self.state.register(name, registration)?;
        let at = usize::from(filter.0);
        if at < FILTERS {
            self.loaded[at] = Some(place);
        }
        Ok(filter)
    }

    /// The dismount of a volume begins, which a look at a rundown gate found drained. It answers as the State does: 7, 33, 34.
    #[tactic(auto, using(fm_world::proofs::Handing::keeps_pairs, crate::proofs::Running::after_dismount, crate::proofs::Running::dismount_made))]
    pub fn start_dismount(&mut self, seen: Seen) -> Result<(), Status>
        ensures event { StartsDismount self.old.world seen.volume result self.new.world }
        ensures run { IsMade (made.StartDismount seen.volume) (reply.Done result) }
        ensures kept { KeepsHired self.old self.new }
    {
        self.state.start_dismount(seen.volume())
    }

    /// The place of the filter that a number stands for; none where that number wasn't given.
    pub fn place_of(&self, filter: FilterId) -> Option<usize>
        ensures { result ≡ place_of self.now filter }
    {
        *self.loaded.get(usize::from(filter.0))?
    }

    /// Whether a client goes on waiting for the answer of an operation: it is there, and isn't done.
    pub fn must_wait(&self, operation: OpId) -> bool
        ensures { IsTrue result ↔ (option_map is_done (operation_at operation self.now.world.flow) ≡ Some false) }
    {
        self.state.is_done(operation) == Some(false)
    }

    /// Whether an operation's next postoperation is that worker's alone.
    pub fn is_turn_of(&self, worker: WorkerId, operation: OpId) -> bool
        ensures { result ≡ is_by worker (sync_worker self.now.world operation) }
    {
        is_by(worker, self.state.sync_worker(operation))
    }

    /// Takes the answer of an operation. It answers as the State does: refused with 30, nothing changed, if the operation isn't there, isn't done, or its
    /// answer was handed out.
    #[tactic(auto, using(fm_world::proofs::Handing::keeps_pairs, crate::proofs::Seen::collect_refused, crate::proofs::Running::after_collect, crate::proofs::Running::collect_made))]
    pub fn collect(&mut self, operation: OpId) -> Result<Answer, Status>
        ensures event { Collects self.old.world operation result self.new.world }
        ensures run { IsMade (made.Collect operation) (reply.Answer result) }
        ensures refused { IfErr result (λ status. status ≡ Status.WrongStep) }
        ensures kept { KeepsHired self.old self.new }
    {
        self.state.collect(operation)
    }
}
