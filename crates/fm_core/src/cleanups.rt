//! Events that clean contexts up, and the end of an instance.

ghost use Rattle.std.specs.Prelude.{◌≡◌, ◌+◌, ◌<◌, ◌%◌, ◌^◌, length};
ghost use Rattle.fm_types.specs.Lists.{updated};
ghost use Rattle.fm_world.specs.ContextEvents.{TakesDue, Cleans, Finishes, WaitsIfBusy, left_over, totalled_for};
ghost use Rattle.fm_world.specs.Hands.{KeepsHands};
ghost use Rattle.fm_core.specs.Callers.{filter_at, refused_in};

use crate::state::State;
use crate::workers::{cleanup_of, note_due, put};
use fm_ctx::{Due, Owner};
use fm_stack::{Phase, Stack};
use fm_types::{FilterId, InstanceId, Status, WorkerId};
use fm_world::Place;

/// The filter of an owner, if it is there.
fn filter_of(stack: &Stack, owner: Option<Owner>) -> Option<FilterId>
    ensures { result ≡ filter_at stack.now owner }
{
    match owner? {
        Owner::Filter(filter) => Some(filter),
        Owner::Instance(instance) => stack.filter_of(instance),
    }
}

/// What an instance in that phase refuses its end with.
fn refused_in(phase: Option<Phase>) -> Option<Status>
    ensures { result ≡ refused_in phase }
{
    match phase {
        None | Some(Phase::Detached) => Some(Status::NoInstance),
        Some(Phase::Emptying) => None,
        Some(_) => Some(Status::WrongStep),
    }
}

// Adds to the number at a place, modulo 2^64.
fn add_at(totals: &mut [u64], at: usize, number: u64)
    requires { at < length totals.old }
    ensures { totals.new ≡ updated (λ n. (n + number) % 2 ^ 64) totals.old at }
{
    totals[at] = totals[at].wrapping_add(number);
}

/// Adds to a filter's total, modulo 2^64.
fn add_total(totals: &mut [u64], filter: Option<FilterId>, number: u64)
    ensures { totals.new ≡ totalled_for filter number totals.old }
{
    let Some(filter) = filter else {
        return;
    };
    let at = filter.0 as usize;
    if at < totals.len() {
        add_at(totals, at, number);
    }
}

impl State {
    /// An idle worker takes the context that is due longest, and is in its filter's cleanup callback (`PFLT_CONTEXT_CLEANUP_CALLBACK`); none where none is due,
    /// and the worker stays idle. The context's body moves out with it. Refused, nothing changed, with 30 where the worker isn't idle. It takes no memory.
    #[tactic(auto, unfolding(fm_world::specs::ContextEvents::TakesDue))]
    pub fn take_due(&mut self, worker: WorkerId) -> Result<Option<Due>, Status>
        ensures event { TakesDue self.old worker result self.new }
        ensures hand { KeepsHands self.old self.new }
    {
        if !self.is_idle(worker) {
            return Err(Status::WrongStep);
        }
        let due = self.contexts.take_due(worker);
        note_due(&mut self.workers, worker, &due);
        Ok(due)
    }

    /// The cleanup callback that the worker is in returns, with a number that is added to its filter's total, modulo 2^64: the context is gone. Refused,
    /// nothing changed, with 30 where the worker is in no cleanup callback. It takes no memory.
    #[tactic(auto, unfolding(fm_world::specs::ContextEvents::Cleans))]
    pub fn cleaned(&mut self, worker: WorkerId, number: u64) -> Result<(), Status>
        ensures event { Cleans self.old worker number result self.new }
        ensures hand { KeepsHands self.old self.new }
    {
        let Some(context) = cleanup_of(self.place(worker)) else {
            return Err(Status::WrongStep);
        };
        let filter = filter_of(&self.stack, self.contexts.owner_of(context));
        add_total(&mut self.totals, filter, number);
        self.contexts.cleaned(worker, context);
        put(&mut self.workers, worker, Place::Idle);
        Ok(())
    }

    // What an instance's end waits for: its contexts that aren't cleaned, and at most 256 operations that its filter asked for itself.
    fn left_over(&self, instance: InstanceId) -> u64
        ensures { result ≡ left_over self.now instance }
    {
        self.contexts.open_of(Owner::Instance(instance)) + self.flow.begun_by(instance)
    }

    /// Ends an instance whose contexts are all cleaned up, and whose filter has the answers to all that it asked for itself: it is Detached, and its name and
    /// altitude are free. Refused, nothing changed: 8 where the instance isn't there or is Detached, 30 where it isn't Emptying, 34 with the number of its
    /// contexts that aren't cleaned, each of which is due, or one worker cleans it up, and of the operations that its filter began below it or at the base
    /// and whose answers weren't handed out. It takes no memory.
    #[tactic(auto, unfolding(fm_world::specs::ContextEvents::Finishes))]
    pub fn finish(&mut self, instance: InstanceId) -> Result<(), Status>
        ensures event { Finishes self.old instance result self.new }
        ensures waiting { WaitsIfBusy self.old instance result }
        ensures hand { KeepsHands self.old self.new }
    {
        if let Some(status) = refused_in(self.stack.phase(instance)) {
            return Err(status);
        }
        let left = self.left_over(instance);
        if left > 0 {
            return Err(Status::Busy(left));
        }
        self.stack.finish(instance);
        Ok(())
    }
}
