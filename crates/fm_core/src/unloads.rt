//! Events by which a filter is unloaded: it is asked or forced, and once its instances are detached it is emptied and ends.

ghost use Rattle.std.specs.Prelude.{◌≡◌};
ghost use Rattle.fm_world.specs.Workers.{is_asked_to_unload, is_in_unload};
ghost use Rattle.fm_world.specs.Teardowns.{AsksUnload, UnloadReturns, ForcesUnload, EmptiesFilter, FinishesFilter};
ghost use Rattle.fm_world.specs.Hands.{KeepsHands};
ghost use Rattle.fm_ctx.specs.Settling.{is_linked_of};
ghost use Rattle.fm_ctx.specs.declared.owner.Owner.TheVariants as owner;
ghost use Rattle.fm_core.specs.Hands.{SweptWhere};

use crate::state::State;
use crate::workers::{note_entering, put, unload_of};
use fm_ctx::{Contexts, Owner};
use fm_types::{FilterId, Status, WorkerId};
use fm_world::Place;

fn is_in_unload(filter: FilterId, place: Place) -> bool
    ensures { result ≡ is_in_unload filter.0 place }
{
    match place {
        Place::Unload(other) => other.0 == filter.0,
        _ => false,
    }
}

/// Whether an unload callback of the filter runs.
fn is_asked_to_unload(filter: FilterId, workers: &[Place]) -> bool
    ensures { result ≡ is_asked_to_unload filter workers.now }
{
    workers.iter().any(|place| is_in_unload(filter, *place))
}

/// Where a filter is emptied, its volume contexts lose their links.
fn unlink_where(contexts: &mut Contexts, filter: FilterId, emptied: &Result<(), Status>)
    ensures { SweptWhere emptied.now (is_linked_of (owner.Filter filter)) contexts.old contexts.new }
{
    if emptied.is_ok() {
        contexts.unlink_owner(Owner::Filter(filter));
    }
}

impl State {
    /// Asks a filter whether it may be unloaded (`FltUnloadFilter`): the worker is then in its unload callback (`FilterUnloadCallback`). Refused, nothing
    /// changed: 30 where the worker isn't idle or isn't there, 6 and 9 where the filter isn't there or isn't loaded, 13 where an unload callback of it runs,
    /// 12 where it registered none. It takes no memory.
    #[tactic(auto, unfolding(fm_world::specs::Teardowns::AsksUnload))]
    pub fn ask_unload(&mut self, worker: WorkerId, filter: FilterId) -> Result<(), Status>
        ensures event { AsksUnload self.old worker filter result self.new }
        ensures hand { KeepsHands self.old self.new }
    {
        if !self.is_idle(worker) {
            return Err(Status::WrongStep);
        }
        let is_asked = is_asked_to_unload(filter, &self.workers);
        let result = self.stack.may_ask_unload(filter, is_asked);
        note_entering(&mut self.workers, worker, Place::Unload(filter), &result);
        result
    }

    /// The unload callback that the worker is in returns (`FltUnregisterFilter` begins). Allowed, the filter is Unloading and its Attached instances are
    /// Stopping; an instance in its setup stays so, and its end refuses it. Refused, nothing changed, with 30 where the worker is in no unload callback; and
    /// with 12 where the callback doesn't allow it, or 9 where the filter was unloaded by force meanwhile: then the callback returned all the same. It takes
    /// no memory.
    #[tactic(auto, unfolding(fm_world::specs::Teardowns::UnloadReturns))]
    pub fn unload_returned(&mut self, worker: WorkerId, allow: bool) -> Result<(), Status>
        ensures event { UnloadReturns self.old worker allow result self.new }
        ensures hand { KeepsHands self.old self.new }
    {
        let Some(filter) = unload_of(self.place(worker)) else {
            return Err(Status::WrongStep);
        };
        put(&mut self.workers, worker, Place::Idle);
        self.stack.unload_returned(filter, allow)
    }

    /// Unloads a filter without asking it (a mandatory unload): it is Unloading, and its Attached instances are Stopping. Refused, nothing changed: 6 and 9
    /// where the filter isn't there or isn't loaded. It takes no memory.
    #[tactic(auto, unfolding(fm_world::specs::Teardowns::ForcesUnload))]
    pub fn force_unload(&mut self, filter: FilterId) -> Result<(), Status>
        ensures event { ForcesUnload self.old filter result self.new }
        ensures hand { KeepsHands self.old self.new }
    {
        self.stack.force_unload(filter)
    }

    /// Unlinks the volume contexts of a filter whose instances are all Detached; it may be called again before the filter ends. Refused, nothing changed: 6
    /// where the filter isn't there, 30 where it isn't Unloading or an unload callback of it runs, 34 with the number of its instances that aren't Detached.
    /// It takes no memory.
    #[tactic(auto, unfolding(fm_world::specs::Teardowns::EmptiesFilter))]
    pub fn empty_filter(&mut self, filter: FilterId) -> Result<(), Status>
        ensures event { EmptiesFilter self.old filter result self.new }
        ensures hand { KeepsHands self.old self.new }
    {
        let is_asked = is_asked_to_unload(filter, &self.workers);
        let result = self.stack.empty_filter(filter, is_asked);
        unlink_where(&mut self.contexts, filter, &result);
        result
    }

    /// Ends a filter that was emptied and whose contexts are all cleaned up (`FltUnregisterFilter` returns): its name may be registered again. Refused,
    /// nothing changed: 6 where the filter isn't there, 30 where it wasn't emptied, 34 with the number of its contexts that aren't cleaned. It takes no
    /// memory.
    #[tactic(auto, unfolding(fm_world::specs::Teardowns::FinishesFilter))]
    pub fn finish_filter(&mut self, filter: FilterId) -> Result<(), Status>
        ensures event { FinishesFilter self.old filter result self.new }
        ensures hand { KeepsHands self.old self.new }
    {
        let open = self.contexts.open_of(Owner::Filter(filter));
        self.stack.finish_filter(filter, open)
    }
}
