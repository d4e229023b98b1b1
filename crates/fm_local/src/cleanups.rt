//! Cleaning up contexts that nobody refers to any more.

ghost use Rattle.fm_filter.specs.Handed.{numbered};
ghost use Rattle.fm_local.specs.Actions.{OnlyState};
ghost use Rattle.fm_local.specs.Cleanups as cleaning;
ghost use Rattle.fm_local.specs.Cleanups.{CleansAll, CleansSome, MayReturn, cleaner_of};
ghost use Rattle.fm_local.specs.Offered.{HasNoneDue};
ghost use Rattle.fm_local.specs.Private.{CleansUp, TidiesState};
ghost use Rattle.fm_local.specs.Requests.{Tidies};
ghost use Rattle.fm_local.specs.Waits.{StaysWaiting};

use crate::parts::{Parts, WORKER};
use fm_base::Base;
use fm_core::{Due, Owner, State};
use fm_filter::{Filters, Minifilter};

impl<F: Minifilter, B: Base> Parts<F, B> {
    /// Cleans up every context that is due.
    pub(crate) fn clean_up(&mut self)
        ensures cleans { CleansUp F.Minifilter self.old self.new }
        ensures tidies { TidiesState self.old self.new }
        ensures none { HasNoneDue self.new }
        ensures kept { OnlyState self.old self.new }
        ensures waits { StaysWaiting self.old self.new }
    {
        clean_all(&mut self.work.state, &self.filters);
    }
}

// Cleans up what is due, the longest due first, until nothing is.
#[tactic(auto, using(crate::proofs::instances::Cleanups::cleaned_all, crate::proofs::instances::Tidiness::tidies_both, crate::proofs::instances::Tidiness::tidies_none))]
fn clean_all<F: Minifilter>(state: &mut State, filters: &Filters<F>)
    ensures cleans { CleansAll F.cleanup_may (numbered filters.now) WORKER state.old state.new }
    ensures tidies { Tidies state.old state.new }
    ensures none { cleaning.HasNoneDue WORKER state.new }
{
    while clean_next(state, filters) {}
}

// Cleans up the context that is due longest; false where none is due.
#[tactic(auto, using(crate::proofs::instances::Cleanups::cleaning, crate::proofs::instances::Tidiness::tidying))]
fn clean_next<F: Minifilter>(state: &mut State, filters: &Filters<F>) -> bool
    ensures cleans { CleansSome F.cleanup_may (numbered filters.now) WORKER result state.old state.new }
    ensures tidies { Tidies state.old state.new }
{
    state.laws();
    match state.take_due(WORKER) {
        Ok(Some(due)) => {
            let number = cleanup(state, filters, &due);
            let _ = state.cleaned(WORKER, number);
            true
        }
        Ok(None) => false,
        Err(_) => false,
    }
}

// The cleanup callback of a context's filter: what it returns for its total.
fn cleanup<F: Minifilter>(state: &State, filters: &Filters<F>, due: &Due) -> u64
    ensures { MayReturn F.cleanup_may (cleaner_of (numbered filters.now) state.now.stack due.now.owner) due.now result }
{
    let filter = match due.owner {
        Owner::Instance(instance) => state.filter_of(instance),
        Owner::Filter(filter) => Some(filter),
    };
    match filters.of(filter) {
        Some(filter) => filter.cleanup(due.kind, due.body.as_slice()),
        None => 0,
    }
}
