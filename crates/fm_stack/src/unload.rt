//! The events by which a filter is unloaded.

ghost use Rattle.std.specs.Prelude.{◌≡◌, count_by, slice_get, true};
ghost use Rattle.fm_types.specs.Refusals.{first_of};
ghost use Rattle.fm_stack.specs.Detaching.{Permits};
ghost use Rattle.fm_stack.specs.Events.{is_loaded};
ghost use Rattle.fm_stack.specs.Follows.{Follows};
ghost use Rattle.fm_stack.specs.Unloading.{UnloadReturns, ForcesUnload, EmptiesFilter, FinishesFilter, ask_unload_refusals, unload_refusals, force_unload_refusals, empty_filter_refusals, finish_filter_refusals, is_left_of, is_unloading, is_filter_emptied, unloading, has_unload};

use crate::filter::{self, FilterPhase};
use crate::instance::{self, Instance};
use crate::stack::Stack;
use fm_types::{FilterId, Status};

// How many instances of a filter aren't detached.
fn left_of(rows: &[Instance], filter: FilterId) -> usize
    ensures { result ≡ count_by (is_left_of filter) rows.now }
{
    rows.iter().filter(|row| row.is_left_of(filter)).count()
}

// What refuses an event.
impl Stack {
    fn is_loaded(&self, filter: FilterId) -> bool
        ensures { result ≡ is_loaded (slice_get self.now.filters filter.0) }
    {
        let Some(row) = self.filters.get(filter.0 as usize) else {
            return false;
        };
        row.is_loaded()
    }

    fn is_unloading(&self, filter: FilterId) -> bool
        ensures { result ≡ is_unloading (slice_get self.now.filters filter.0) }
    {
        let Some(row) = self.filters.get(filter.0 as usize) else {
            return false;
        };
        row.is_unloading()
    }

    fn is_filter_emptied(&self, filter: FilterId) -> bool
        ensures { result ≡ is_filter_emptied (slice_get self.now.filters filter.0) }
    {
        let Some(row) = self.filters.get(filter.0 as usize) else {
            return false;
        };
        row.is_emptied()
    }

    fn has_unload(&self, filter: FilterId) -> bool
        ensures { result ≡ has_unload (slice_get self.now.filters filter.0) }
    {
        let Some(row) = self.filters.get(filter.0 as usize) else {
            return false;
        };
        row.registration.unload
    }

    fn ask_unload_refusal(&self, filter: FilterId, is_asked: bool) -> Option<Status>
        ensures { result ≡ first_of (ask_unload_refusals self.now filter is_asked) }
    {
        if let Some(status) = self.force_unload_refusal(filter) {
            return Some(status);
        }
        if is_asked {
            return Some(Status::DeletingObject);
        }
        if !self.has_unload(filter) {
            return Some(Status::DoNotDetach);
        }
        None
    }

    fn unload_refusal(&self, filter: FilterId, allow: bool) -> Option<Status>
        ensures { result ≡ first_of (unload_refusals self.now filter allow) }
    {
        if !allow {
            return Some(Status::DoNotDetach);
        }
        if !self.is_loaded(filter) {
            return Some(Status::NotLoaded);
        }
        None
    }

    fn force_unload_refusal(&self, filter: FilterId) -> Option<Status>
        ensures { result ≡ first_of (force_unload_refusals self.now filter) }
    {
        if filter.0 as usize >= self.filters.len() {
            return Some(Status::NoFilter);
        }
        if !self.is_loaded(filter) {
            return Some(Status::NotLoaded);
        }
        None
    }

    fn empty_filter_refusal(&self, filter: FilterId, is_asked: bool) -> Option<Status>
        ensures { result ≡ first_of (empty_filter_refusals self.now filter is_asked) }
    {
        if filter.0 as usize >= self.filters.len() {
            return Some(Status::NoFilter);
        }
        if !self.is_unloading(filter) || is_asked {
            return Some(Status::WrongStep);
        }
        let left = left_of(&self.instances, filter);
        if left > 0 {
            return Some(Status::Busy(left as u64));
        }
        None
    }

    fn finish_filter_refusal(&self, filter: FilterId, contexts: u64) -> Option<Status>
        ensures { result ≡ first_of (finish_filter_refusals self.now filter contexts) }
    {
        if filter.0 as usize >= self.filters.len() {
            return Some(Status::NoFilter);
        }
        if !self.is_filter_emptied(filter) {
            return Some(Status::WrongStep);
        }
        if contexts > 0 {
            return Some(Status::Busy(contexts));
        }
        None
    }
}

// The events.
impl Stack {
    // The filter is being unloaded, and its attached instances are stopped.
    fn unload(&mut self, filter: FilterId)
        requires { is_loaded (slice_get self.old.filters filter.0) ≡ true }
        ensures event { self.new ≡ unloading self.old filter }
        ensures follows { Follows self.old self.new }
    {
        filter::set_phase(&mut self.filters, filter.0 as usize, FilterPhase::Unloading);
        instance::stop_of(&mut self.instances, filter);
    }

    /// Whether a filter may be asked to be unloaded (`FltUnloadFilter`); `is_asked` says that an unload
    /// callback of it runs. Refused in this order: `NoFilter` (6), `NotLoaded` (9) where it isn't loaded
    /// any more, `DeletingObject` (13) where it is asked already, `DoNotDetach` (12) where it registered
    /// no unload routine. It changes nothing.
    pub fn may_ask_unload(&self, filter: FilterId, is_asked: bool) -> Result<(), Status>
        ensures { Permits (first_of (ask_unload_refusals self.now filter is_asked)) result }
    {
        match self.ask_unload_refusal(filter, is_asked) {
            Some(status) => Err(status),
            None => Ok(()),
        }
    }

    /// Ends the unload callback of a filter (`FilterUnloadCallback` returns). Allowed, the filter is being
    /// unloaded: nothing is attached for it any more, and its attached instances are stopping; one in its
    /// setup stays there. Refused, with nothing changed, in this order: `DoNotDetach` (12) where the
    /// filter doesn't allow it, `NotLoaded` (9) where it isn't loaded any more, since it was forced
    /// meanwhile. It takes no memory.
    #[tactic(auto, unfolding(crate::specs::Unloading::UnloadReturns))]
    pub fn unload_returned(&mut self, filter: FilterId, allow: bool) -> Result<(), Status>
        ensures event { UnloadReturns self.old filter allow result self.new }
        ensures follows { Follows self.old self.new }
    {
        if let Some(status) = self.unload_refusal(filter, allow) {
            return Err(status);
        }
        self.unload(filter);
        Ok(())
    }

    /// Unloads a filter without asking it (a mandatory unload): the filter is being unloaded, and its
    /// attached instances are stopping, as where it allows it. Refused, with nothing changed, in this
    /// order: `NoFilter` (6), `NotLoaded` (9). It takes no memory.
    #[tactic(auto, unfolding(crate::specs::Unloading::ForcesUnload))]
    pub fn force_unload(&mut self, filter: FilterId) -> Result<(), Status>
        ensures event { ForcesUnload self.old filter result self.new }
        ensures follows { Follows self.old self.new }
    {
        if let Some(status) = self.force_unload_refusal(filter) {
            return Err(status);
        }
        self.unload(filter);
        Ok(())
    }

    /// The filter's instances are detached, and its volume contexts may be unlinked; `is_asked` says that
    /// an unload callback of it runs. It may be called again before the filter is finished. Refused, with
    /// nothing changed, in this order: `NoFilter` (6), `WrongStep` (30) where the filter isn't being
    /// unloaded or its callback runs, `Busy` (34) with the number of its instances that aren't detached.
    /// It takes no memory.
    #[tactic(auto, unfolding(crate::specs::Unloading::EmptiesFilter))]
    pub fn empty_filter(&mut self, filter: FilterId, is_asked: bool) -> Result<(), Status>
        ensures event { EmptiesFilter self.old filter is_asked result self.new }
        ensures follows { Follows self.old self.new }
    {
        if let Some(status) = self.empty_filter_refusal(filter, is_asked) {
            return Err(status);
        }
        filter::set_phase(&mut self.filters, filter.0 as usize, FilterPhase::Emptied);
        Ok(())
    }

    /// Ends the unload of a filter (`FltUnregisterFilter`), of whose contexts that many aren't cleaned:
    /// it keeps its id, and its name may be registered again. Refused, with nothing changed, in this
    /// order: `NoFilter` (6), `WrongStep` (30) where it wasn't emptied or is finished, `Busy` (34) with
    /// the number of contexts. It takes no memory.
    #[tactic(auto, unfolding(crate::specs::Unloading::FinishesFilter))]
    pub fn finish_filter(&mut self, filter: FilterId, contexts: u64) -> Result<(), Status>
        ensures event { FinishesFilter self.old filter contexts result self.new }
        ensures follows { Follows self.old self.new }
    {
        if let Some(status) = self.finish_filter_refusal(filter, contexts) {
            return Err(status);
        }
        filter::set_phase(&mut self.filters, filter.0 as usize, FilterPhase::NotLoaded);
        Ok(())
    }
}
