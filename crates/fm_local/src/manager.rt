//! The manager, as its callers see it.

ghost use Rattle.std.specs.Prelude.{◌≡◌, IfErr, IfOk, length, slice_get};
ghost use Rattle.std.specs.Borrow.{sem};
ghost use Rattle.std.specs.List.{IsItemAtMut};
ghost use Rattle.fm_local.specs.Actions.{GivesFinished, RefusesIn};
ghost use Rattle.fm_local.specs.Between.{IsBetween};
ghost use Rattle.fm_local.specs.Lending.{LendsBase};
ghost use Rattle.fm_local.specs.Managers.{HasRooms};
ghost use Rattle.fm_local.specs.Steps.{BeginsAlone, StepsOne, TakesResumed};
ghost use Rattle.fm_local.specs.Offered.{AnswersAny, AnswersReady, AttachesAny, AttachesAs, AttachesReady, DetachesAny, DetachesAs, DetachesReady, ForgetsReport, HandsOutFirst, HasNoReport, IsNew, LoadsAs, MountsAs, Numbers, Places, Ready, SameAround, SameFilters, SameHanded, StaysReady, StaysReadyAlike, StaysReadyIfPlain, UnloadsAny, UnloadsAs, UnloadsReady, WorksAny, dropped_count, file_systems, leaks, refused_calls, steps, world};

use crate::leak::Leak;
use crate::parts::Parts;
use crate::refusal::Refusal;
use crate::steps::Stepped;
use crate::trace::Traced;
use fm_altitude::Altitude;
use fm_base::Base;
use fm_callback_data::{Reply, Request};
use fm_core::State;
use fm_filter::{Minifilter, WorkItem};
use fm_types::{FilterId, HandleId, InstanceId, Name, OpId, Status, VolumeId};
use std::alloc::Global;
use std::marker::Model;

/// A filter manager on one thread: filters as code, one file system of a type for each volume, and the manager's state, of which each thing that happens
/// is one event. A call runs every callback that it leads to, carries on what these resume, and cleans up the contexts that are due before it returns: behind
/// it none is, and the worker is inside no callback.
#[derive(Drop)]
pub struct LocalManager<F, B> {
    parts: Parts<F, B>,
}

/// Contracts see its parts. Between two calls the worker is idle, no context is due, and each operation that waits was resumed, or ended, and waits once.
impl<F, B> Model for LocalManager<F, B> {
    ghost use Rattle.fm_local.specs.declared.parts.Parts.{Parts};
    ghost use Rattle.fm_local.specs.Between.{IsBetween};

    ghost Value = { Parts F B };

    ghost view = { λ manager. manager.parts };

    ghost invariant = { λ manager. IsBetween manager.parts };
}

impl<F: Minifilter, B: Base> LocalManager<F, B> {
    /// A manager that has these filters, each under its name, and none of them loaded: it is ready, and nothing is due. It takes the room for 8 volumes, for
    /// 256 operations that were resumed and 256 that ended, and for the steps, the leaks and the refused calls that can be read. Refused with 1.
    pub fn new(alloc: Global, filters: Vec<(Name, F)>) -> Result<LocalManager<F, B>, Status>
        ensures empty { IfOk result (IsNew filters) }
        ensures ready { IfOk result (Ready F.Minifilter B.Base) }
        ensures room { IfOk result HasRooms }
        ensures memory { IfErr result (λ status. status ≡ Status.NoMemory) }
    {
        let parts = Parts::new(alloc, filters)?;
        Ok(LocalManager { parts })
    }

    /// What holds between two calls, of whatever was called before. It does nothing.
    pub fn laws(&self)
        ensures { IsBetween self.now }
    {
        let _ = &self.parts;
    }

    /// The manager's state, to be read.
    pub fn state(&self) -> &State
        ensures { result.now ≡ world self.now }
    {
        &self.parts.work.state
    }

    /// The file system of a volume, if it is mounted. What is written to it is written there, and nothing else of the manager changes.
    pub fn base(&mut self, volume: VolumeId) -> Option<&mut B>
        ensures* writes_back { sem 𝓛 (LendsBase F.row B.row self.entry volume result) }
        ensures item { IsItemAtMut (file_systems self.old) volume.0 result }
    {
        self.parts.base(volume)
    }

    /// How many steps of operations can be read.
    pub fn traced(&self) -> usize
        ensures { result ≡ length (steps self.now) }
    {
        self.parts.trace.len()
    }

    /// One of the last 1,024 steps of operations, the oldest at place 0.
    pub fn trace(&self, place: usize) -> Option<Traced>
        ensures { result ≡ slice_get (steps self.now) place }
    {
        self.parts.trace.get(place)
    }

    /// How many leaks can be read; the state's number counts those that were left out too.
    pub fn leaked(&self) -> usize
        ensures { result ≡ length (leaks self.now) }
    {
        self.parts.leaks.len()
    }

    /// One of the last 1,024 references that callbacks left behind, the oldest at place 0.
    pub fn leak(&self, place: usize) -> Option<Leak>
        ensures { result ≡ slice_get (leaks self.now) place }
    {
        self.parts.leaks.get(place)
    }

    /// How many calls of callbacks' ports that were refused can be read.
    pub fn refused_calls(&self) -> usize
        ensures { result ≡ length (refused_calls self.now) }
    {
        self.parts.work.refusals.len()
    }

    /// One of the last 1,024 calls of callbacks' ports that were refused, the oldest at place 0.
    pub fn refused_call(&self, place: usize) -> Option<Refusal>
        ensures { result ≡ slice_get (refused_calls self.now) place }
    {
        self.parts.work.refusals.get(place)
    }

    /// How many steps, leaks and refused calls can't be read any more, since there was no room for them; 0 again once the report is forgotten.
    pub fn dropped(&self) -> u64
        ensures { result ≡ dropped_count self.now }
    {
        let parts = &self.parts;
        let refusals = parts.work.refusals.dropped();
        let leaks = parts.leaks.dropped();
        parts
            .trace
            .dropped()
            .saturating_add(leaks)
            .saturating_add(refusals)
    }

    /// Forgets the steps, the leaks and the refused calls that could be read. Nothing else changes.
    pub fn forget_report(&mut self)
        ensures forgets { ForgetsReport self.old self.new }
        ensures none { HasNoReport self.new }
    {
        self.parts.forget_report();
    }

    /// Loads the filter of that name, with what it registers for (`FltRegisterFilter`, `FltStartFiltering`). Refused, nothing changed: 6 if no filter has
    /// that name, and then as `State::register`. A manager that is ready, to which only plain filters were handed in, stays ready.
    pub fn load(&mut self, name: &Name) -> Result<FilterId, Status>
        ensures event { LoadsAs F.Minifilter name.now self.old result self.new }
        ensures numbers { IfOk result (Numbers name.now self.old self.new) }
        ensures ready { StaysReadyIfPlain F.Minifilter B.Base self.old self.new }
        ensures refused { IfErr result (λ _. SameFilters self.old self.new) }
        ensures kept { SameHanded self.old self.new }
    {
        self.parts.load(name)
    }

    /// Mounts a volume over a file system, for which `new` took the room. Refused, nothing changed but that the file system is gone, as `State::mount`. A
    /// manager that is ready stays ready.
    pub fn mount(&mut self, name: Name, base: B) -> Result<VolumeId, Status>
        ensures event { MountsAs name self.old result self.new }
        ensures base { IfOk result (λ _. Places base self.old self.new) }
        ensures refused { IfErr result (λ _. file_systems self.new ≡ file_systems self.old) }
        ensures ready { StaysReady F.Minifilter B.Base self.old self.new }
        ensures kept { SameFilters self.old self.new }
    {
        self.parts.mount(name, base)
    }

    /// Attaches an instance of a filter to a volume at an altitude, and calls its setup callback (`FltAttachVolumeAtAltitude`). Refused, nothing changed, as
    /// `State::attach`; or, after the callback, as `State::setup_done`, with 11 where the filter declines: the instance is detached again then. A manager that
    /// is ready makes these events and no others, but for cleanups, and is ready again.
    pub fn attach(
        &mut self,
        filter: FilterId,
        volume: VolumeId,
        name: Name,
        altitude: Altitude,
    ) -> Result<InstanceId, Status>
        ensures events { AttachesAs F.Minifilter filter volume name altitude self.old result self.new }
        ensures settles { AttachesAny F.Minifilter B.Base filter volume name altitude self.old result self.new }
        ensures quiet { AttachesReady F.Minifilter B.Base filter volume name altitude self.old result self.new }
        ensures ready { StaysReadyAlike F.Minifilter B.Base self.old self.new }
    {
        self.parts.attach(filter, volume, name, altitude)
    }

    /// Answers a request: the operation goes down through the instances of its volume to the file system and back up. `Held` says that a filter holds it:
    /// its reply comes from `finished`, once a callback has resumed it. Close is a cleanup, unless that began before, and then the close itself; where the
    /// cleanup is held it is the one that `Held` names, and the request is to be made again. A request that can't begin is answered with the status of its
    /// refusal, and changes nothing. Whatever the filters, each of their callbacks runs between the event that enters it and the one that ends it, what they
    /// resumed goes on after the whole request, in the order of the resumptions, and what is due is cleaned up. A manager that is ready (all its filters plain, nothing under way or
    /// being torn down) answers with the fold of its filters over its file systems, never with `Held`, and is ready again.
    pub fn answer(&mut self, request: Request) -> Reply
        ensures fold { AnswersReady F.Minifilter B.Base request self.old result self.new }
        ensures refused { RefusesIn request self.old result self.new }
        ensures requests { AnswersAny F.Minifilter B.Base request self.old result self.new }
    {
        self.parts.answer(request)
    }

    /// Begins an operation that goes on by `step`, so that several are under way beside each other. Unlike `answer` it takes a close for the close alone: its
    /// cleanup is one of its own. Refused, nothing changed, as `State::begin`.
    pub fn begin(&mut self, request: Request) -> Result<OpId, Status>
        ensures { BeginsAlone request self.old result self.new }
    {
        self.parts.begin(request)
    }

    /// One step of an operation that `begin` began, or that `resumed` named: a callback that is next, with all that it calls, or the call of the file system;
    /// or, where it is done, its reply, which isn't given again. What is due after that is cleaned up. An operation that a filter holds, that waits for
    /// `resumed` or `finished`, or that isn't there is `Held`, and nothing happens then. What a callback resumes waits for `resumed`; a call that carries
    /// requests on (`answer`, `attach`, `detach`, `unload`, `run_work`) carries it on too, and its reply is for `finished` then.
    pub fn step(&mut self, operation: OpId) -> Stepped
        ensures { StepsOne F.Minifilter B.Base operation self.old result self.new }
    {
        self.parts.step(operation)
    }

    /// The operation that callbacks resumed first, of those that wait to be carried on: it waits no more, and goes on by `step`. None where none waits.
    pub fn resumed(&mut self) -> Option<OpId>
        ensures { TakesResumed self.old result self.new }
    {
        self.parts.resumed()
    }

    /// The reply of an operation that was held, in the order in which they ended. It is never a refusal: of a manager that `new` made, whatever was called
    /// since, each operation that waits here is done and wasn't handed out, and waits once. None where none waits, and nothing changes then.
    pub fn finished(&mut self) -> Option<(OpId, Reply)>
        ensures first { HandsOutFirst self.old result self.new }
        ensures any { GivesFinished self.old result self.new }
        ensures kept { SameAround self.old self.new }
    {
        self.parts.finished()
    }

    /// Detaches an instance (`FltDetachVolume`): asks its filter, tells it that the teardown starts, drains what it still waits for, and once nothing is in
    /// flight at it any more tells it that the teardown is complete, and cleans up its contexts. Refused as the events of the state are, of which it makes
    /// one after the other; with 34 and their number while operations are in flight at it, or contexts of it aren't cleaned. Called again, it goes on where
    /// it stopped. A manager that is ready makes these events and no others, but for cleanups, and is ready again; there a detach is refused before its
    /// filter has agreed, and not behind that.
    pub fn detach(&mut self, instance: InstanceId) -> Result<(), Status>
        ensures events { DetachesAs F.Minifilter instance self.old result self.new }
        ensures settles { DetachesAny F.Minifilter B.Base instance self.old result self.new }
        ensures quiet { DetachesReady F.Minifilter B.Base instance self.old result self.new }
        ensures ready { StaysReadyAlike F.Minifilter B.Base self.old self.new }
    {
        self.parts.detach(instance)
    }

    /// Runs a work item for an instance, on no file or on that of an open handle (`FltQueueGenericWorkItem`). It does what a callback of the instance may:
    /// resume what the instance holds (`FltCompletePendedPreOperation`), also with an answer of its own, as a cancel routine does, and allocate, get, set and
    /// release contexts. What it still holds at its end leaks. What it resumed goes on after it, in the order of the resumptions, and what is due is cleaned
    /// up. Refused, and the item isn't run: 8 where the instance isn't there or is Detached, 13 where it is neither Attached nor Stopping, 14 where the handle
    /// isn't open, 32 where its file is on another volume. A manager that is ready is ready again.
    pub fn run_work<W: WorkItem>(
        &mut self,
        instance: InstanceId,
        handle: Option<HandleId>,
        item: &W,
    ) -> Result<(), Status>
        ensures works { WorksAny F.Minifilter B.Base (λ before after. W.works item.now before after) instance handle self.old result self.new }
        ensures ready { StaysReadyAlike F.Minifilter B.Base self.old self.new }
    {
        self.parts.run_work(instance, handle, item)
    }

    /// Unloads a filter (`FltUnloadFilter`): asks it, tears down its instances one after the other, and cleans up its contexts. Refused as the events of the
    /// state are, of which it makes one after the other; with 34 and their number while operations are in flight or contexts aren't cleaned. Called again, it
    /// goes on where it stopped. A manager that is ready makes these events and no others, but for cleanups, and is ready again.
    pub fn unload(&mut self, filter: FilterId) -> Result<(), Status>
        ensures events { UnloadsAs F.Minifilter filter self.old result self.new }
        ensures settles { UnloadsAny F.Minifilter B.Base filter self.old result self.new }
        ensures quiet { UnloadsReady F.Minifilter B.Base filter self.old result self.new }
        ensures ready { StaysReadyAlike F.Minifilter B.Base self.old self.new }
    {
        self.parts.unload(filter)
    }
}
