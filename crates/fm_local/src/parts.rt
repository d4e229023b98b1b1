//! The parts of a manager, and what begins in it.

ghost use Rattle.std.specs.Prelude.{◌≡◌, IfErr, IfOk};
ghost use Rattle.std.specs.Borrow.{sem};
ghost use Rattle.std.specs.List.{IsItemAtMut};
ghost use Rattle.fm_local.specs.Between.{StaysBetween};
ghost use Rattle.fm_local.specs.Lending.{LendsOf};
ghost use Rattle.fm_local.specs.Managers.{HasRooms};
ghost use Rattle.fm_local.specs.Offered.{ForgetsReport, HasNoReport, HasNoneDue, IsNew, IsOut, LoadsAs, MountsAs, Numbers, Places, Ready, SameFilters, SameHanded, StaysReady, StaysReadyIfPlain, file_systems};
ghost use Rattle.fm_local.specs.Waits.{Waiting};

use crate::bounded::Bounded;
use crate::leak::Leak;
use crate::local_port::Work;
use crate::refusal::Refusal;
use crate::trace::Traced;
use fm_base::Base;
use fm_core::State;
use fm_device::Bases;
use fm_filter::{Filters, Minifilter};
use fm_types::limits::OPERATIONS;
use fm_types::{FilterId, Name, OpId, Status, VolumeId, WorkerId};
use std::alloc::Global;

/// The worker that does everything.
pub(crate) const WORKER: WorkerId = WorkerId(0);

/// How many steps of operations, how many leaks and how many refused calls are kept to be read.
const KEPT: usize = 1024;

/// What a manager has: its state with what waits, its filters, its file systems, the operations that ended, and what can be read of what happened.
#[derive(Drop)]
pub struct Parts<F, B> {
    pub(crate) alloc: Global,
    pub(crate) work: Work,
    pub(crate) filters: Filters<F>,
    pub(crate) bases: Bases<B>,
    pub(crate) finished: Bounded<OpId>,
    pub(crate) leaks: Bounded<Leak>,
    pub(crate) trace: Bounded<Traced>,
}

impl<F: Minifilter, B: Base> Parts<F, B> {
    /// As `LocalManager::new`.
    pub(crate) fn new(alloc: Global, filters: Vec<(Name, F)>) -> Result<Parts<F, B>, Status>
        ensures empty { IfOk result (IsNew filters) }
        ensures ready { IfOk result (Ready F.Minifilter B.Base) }
        ensures none_due { IfOk result HasNoneDue }
        ensures out { IfOk result IsOut }
        ensures room { IfOk result HasRooms }
        ensures memory { IfErr result (λ status. status ≡ Status.NoMemory) }
        ensures waits { IfOk result Waiting }
    {
        let resumed = Bounded::new(alloc, OPERATIONS)?;
        let finished = Bounded::new(alloc, OPERATIONS)?;
        let refusals = Bounded::new(alloc, KEPT)?;
        let leaks = Bounded::new(alloc, KEPT)?;
        let trace = Bounded::new(alloc, KEPT)?;
        let bases = Bases::new(alloc)?;
        let state = State::new(alloc)?;
        Ok(Parts {
            alloc,
            work: Work {
                state,
                resumed,
                refusals,
            },
            filters: Filters::new(filters),
            bases,
            finished,
            leaks,
            trace,
        })
    }

    /// As `LocalManager::base`.
    pub(crate) fn base(&mut self, volume: VolumeId) -> Option<&mut B>
        ensures* writes_back { sem 𝓛 (LendsOf F.row B.row self.entry volume result) }
        ensures item { IsItemAtMut (file_systems self.old) volume.0 result }
    {
        self.bases.of(volume)
    }

    /// As `LocalManager::forget_report`.
    pub(crate) fn forget_report(&mut self)
        ensures forgets { ForgetsReport self.old self.new }
        ensures none { HasNoReport self.new }
    {
        self.work.refusals.clear();
        self.leaks.clear();
        self.trace.clear();
    }

    /// As `LocalManager::load`.
    pub(crate) fn load(&mut self, name: &Name) -> Result<FilterId, Status>
        ensures event { LoadsAs F.Minifilter name.now self.old result self.new }
        ensures numbers { IfOk result (Numbers name.now self.old self.new) }
        ensures ready { StaysReadyIfPlain F.Minifilter B.Base self.old self.new }
        ensures refused { IfErr result (λ _. SameFilters self.old self.new) }
        ensures kept { SameHanded self.old self.new }
        ensures between { StaysBetween self.old self.new }
    {
        let place = self.filters.place(name)?;
        let Some(filter) = self.filters.at(place) else {
            return Err(Status::NoFilter);
        };
        let registration = filter.registration();
        let number = self.work.state.register(*name, registration)?;
        self.filters.note(number, place);
        Ok(number)
    }

    /// As `LocalManager::mount`.
    pub(crate) fn mount(&mut self, name: Name, base: B) -> Result<VolumeId, Status>
        ensures event { MountsAs name self.old result self.new }
        ensures base { IfOk result (λ _. Places base self.old self.new) }
        ensures refused { IfErr result (λ _. file_systems self.new ≡ file_systems self.old) }
        ensures ready { StaysReady F.Minifilter B.Base self.old self.new }
        ensures kept { SameFilters self.old self.new }
        ensures between { StaysBetween self.old self.new }
    {
        let volume = self.work.state.mount(name)?;
        self.bases.place(base);
        Ok(volume)
    }
}
