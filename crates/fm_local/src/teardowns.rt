//! How instances come and go, with all callbacks in between.

ghost use Rattle.std.specs.Prelude.{◌≡◌, false, Err, IfErr};
ghost use Rattle.fm_world.specs.declared.place.Place.TheVariants as place;
ghost use Rattle.fm_types.specs.declared.ids.InstanceId.{InstanceId};
ghost use Rattle.fm_local.specs.Actions.{AsksThenSettles, CallsBack, EndsFully, OnlyState, SetsUpThenSettles, StartsThenSettles, TearsDownAll, TearsDownFully, TearsDownWhere, TellsThenSettles};
ghost use Rattle.fm_local.specs.Between.{StaysBetween};
ghost use Rattle.fm_local.specs.Calls.{is_leaving, is_to_go, is_unloading};
ghost use Rattle.fm_local.specs.Offered.{AttachesAny, AttachesAs, AttachesReady, DetachesAny, DetachesAs, DetachesReady, HasNoneDue, StaysOut, StaysReadyAlike, UnloadsAny, UnloadsAs, UnloadsReady, world};
ghost use Rattle.fm_local.specs.Private.{Asks, AsksQuietly, AsksToUnload, ComesOut, CompletesQuietly, CompletesTeardown, DrainsAll, DrainsLess, DrainsSome, EndsQuietly, EndsTidily, FilterEnds, HasNoOperation, SetUpQuietly, SetupEnds, StartsAlone, StartsAndDrains, StartsQuietly, TearsDownAllQuietly, TearsDownIfQuietly, TearsDownQuietly, TearsDownWell, TornDown, is_stopping};
ghost use Rattle.fm_local.specs.Waits.{StaysWaiting};

use crate::parts::{Parts, WORKER};
use crate::requests::RESUMPTIONS;
use fm_altitude::Altitude;
use fm_base::Base;
use fm_core::{FilterPhase, Phase};
use fm_filter::Minifilter;
use fm_types::limits::TURNS;
use fm_types::{FilterId, InstanceId, Name, Status, VolumeId};

impl<F: Minifilter, B: Base> Parts<F, B> {
    /// As `LocalManager::attach`.
    pub(crate) fn attach(
        &mut self,
        filter: FilterId,
        volume: VolumeId,
        name: Name,
        altitude: Altitude,
    ) -> Result<InstanceId, Status>
        ensures events { AttachesAs F.Minifilter filter volume name altitude self.old result self.new }
        ensures settles { AttachesAny F.Minifilter B.Base filter volume name altitude self.old result self.new }
        ensures quiet { AttachesReady F.Minifilter B.Base filter volume name altitude self.old result self.new }
        ensures ready { StaysReadyAlike F.Minifilter B.Base self.old self.new }
        ensures between { StaysBetween self.old self.new }
    {
        let instance = self
            .work
            .state
            .attach(WORKER, filter, volume, name, altitude)?;
        match self.set_up(instance) {
            Ok(()) => Ok(instance),
            Err(status) => Err(status),
        }
    }

    // The setup of a new instance, which is detached again where that is refused.
    fn set_up(&mut self, instance: InstanceId) -> Result<(), Status>
        ensures ends { SetupEnds F.Minifilter instance self.old result }
        ensures tidily { IfErr result (λ _. EndsTidily instance self.new) }
        ensures settles { SetsUpThenSettles F.Minifilter B.Base WORKER TURNS RESUMPTIONS instance self.old result self.new }
        ensures quiet { SetUpQuietly F.Minifilter instance self.old result self.new }
        ensures none_due { HasNoneDue self.new }
        ensures out { ComesOut (place.Setup instance) self.old self.new }
        ensures waits { StaysWaiting self.old self.new }
    {
        let accepted = self.setup(instance);
        self.settle();
        if accepted.is_err() {
            let _ = self.work.state.finish(instance);
        }
        accepted
    }

    /// As `LocalManager::detach`.
    pub(crate) fn detach(&mut self, instance: InstanceId) -> Result<(), Status>
        ensures events { DetachesAs F.Minifilter instance self.old result self.new }
        ensures settles { DetachesAny F.Minifilter B.Base instance self.old result self.new }
        ensures quiet { DetachesReady F.Minifilter B.Base instance self.old result self.new }
        ensures ready { StaysReadyAlike F.Minifilter B.Base self.old self.new }
        ensures between { StaysBetween self.old self.new }
    {
        if self.is_leaving(instance) {
            return self.tear_down(instance);
        }
        self.ask(instance)?;
        self.tear_down(instance)
    }

    /// As `LocalManager::unload`.
    pub(crate) fn unload(&mut self, filter: FilterId) -> Result<(), Status>
        ensures events { UnloadsAs F.Minifilter filter self.old result self.new }
        ensures settles { UnloadsAny F.Minifilter B.Base filter self.old result self.new }
        ensures quiet { UnloadsReady F.Minifilter B.Base filter self.old result self.new }
        ensures ready { StaysReadyAlike F.Minifilter B.Base self.old self.new }
        ensures between { StaysBetween self.old self.new }
    {
        if self.is_unloading(filter) {
            return self.end(filter);
        }
        self.ask_to_unload(filter)?;
        self.end(filter)
    }

    // Asks a filter whether it may be unloaded.
    fn ask_to_unload(&mut self, filter: FilterId) -> Result<(), Status>
        ensures asks { AsksToUnload F.Minifilter filter self.old result self.new }
        ensures kept { OnlyState self.old self.new }
        ensures between { StaysBetween self.old self.new }
    {
        self.work.state.ask_unload(WORKER, filter)?;
        self.unloading(filter)
    }

    // The end of a filter, from where it is.
    fn end(&mut self, filter: FilterId) -> Result<(), Status>
        ensures ends { FilterEnds filter result self.new }
        ensures settles { EndsFully F.Minifilter B.Base WORKER TURNS RESUMPTIONS filter self.old result self.new }
        ensures quiet { EndsQuietly F.Minifilter filter self.old result self.new }
        ensures between { StaysBetween self.old self.new }
    {
        self.tear_down_all(filter)?;
        self.work.state.empty_filter(filter)?;
        self.clean_up();
        self.work.state.finish_filter(filter)
    }

    // Asks an instance's filter whether it may be detached.
    fn ask(&mut self, instance: InstanceId) -> Result<(), Status>
        ensures asks { Asks F.Minifilter instance self.old result }
        ensures settles { AsksThenSettles F.Minifilter B.Base WORKER TURNS RESUMPTIONS instance self.old result self.new }
        ensures quiet { AsksQuietly F.Minifilter instance self.old result self.new }
        ensures between { StaysBetween self.old self.new }
    {
        self.work.state.ask_detach(WORKER, instance)?;
        let allowed = self.query(instance);
        self.settle();
        allowed
    }

    // Whether an instance's teardown is under way.
    fn is_leaving(&self, instance: InstanceId) -> bool
        ensures { result ≡ is_leaving (world self.now) instance }
    {
        matches!(
            self.work.state.phase(instance),
            Some(Phase::Stopping | Phase::Completing | Phase::Emptying)
        )
    }

    // Whether an instance is stopping.
    fn is_stopping(&self, instance: InstanceId) -> bool
        ensures { result ≡ is_stopping instance self.now }
    {
        matches!(self.work.state.phase(instance), Some(Phase::Stopping))
    }

    // Whether a filter's end is under way.
    fn is_unloading(&self, filter: FilterId) -> bool
        ensures { result ≡ is_unloading (world self.now) filter }
    {
        matches!(
            self.work.state.filter_phase(filter),
            Some(FilterPhase::Unloading | FilterPhase::Emptied)
        )
    }

    // Tears down the instances of a filter that aren't detached, until one can't be yet.
    fn tear_down_all(&mut self, filter: FilterId) -> Result<(), Status>
        ensures stops { IfErr result (λ status. (i : InstanceId) × TornDown i (Err status) self.new) }
        ensures tears { TearsDownAll F.Minifilter B.Base WORKER TURNS RESUMPTIONS filter self.old result self.new }
        ensures quiet { TearsDownAllQuietly F.Minifilter filter self.old result self.new }
        ensures between { StaysBetween self.old self.new }
    {
        self.work.state.laws();
        for at in 0..u16::try_from(self.work.state.instances()).unwrap_or(u16::MAX) {
            self.tear_down_if(filter, InstanceId(at))?;
        }
        Ok(())
    }

    // The teardown of an instance, where it is one of the filter and its teardown is under way.
    fn tear_down_if(&mut self, filter: FilterId, instance: InstanceId) -> Result<(), Status>
        ensures stops { IfErr result (λ status. TornDown instance (Err status) self.new) }
        ensures tears { TearsDownWhere F.Minifilter B.Base WORKER TURNS RESUMPTIONS filter (is_to_go filter (world self.old) instance) instance self.old result self.new }
        ensures quiet { TearsDownIfQuietly F.Minifilter filter instance self.old result self.new }
        ensures between { StaysBetween self.old self.new }
    {
        if self.is_to_go(filter, instance) {
            return self.tear_down(instance);
        }
        Ok(())
    }

    // Whether an instance is one of the filter, and its teardown is under way.
    fn is_to_go(&self, filter: FilterId, instance: InstanceId) -> bool
        ensures { result ≡ is_to_go filter (world self.now) instance }
    {
        match self.work.state.filter_of(instance) {
            Some(own) => own.0 == filter.0 && self.is_leaving(instance),
            None => false,
        }
    }

    // The teardown of an instance, from where it is.
    fn tear_down(&mut self, instance: InstanceId) -> Result<(), Status>
        ensures ends { TornDown instance result self.new }
        ensures tears { TearsDownFully F.Minifilter B.Base WORKER TURNS RESUMPTIONS instance self.old result self.new }
        ensures quiet { TearsDownQuietly F.Minifilter instance self.old result self.new }
        ensures goes { TearsDownWell F.Minifilter instance self.old result }
        ensures between { StaysBetween self.old self.new }
    {
        self.work.state.laws();
        self.begin_teardown(instance);
        self.end_teardown(instance)?;
        self.clean_up();
        self.work.state.laws();
        self.work.state.finish(instance)
    }

    // The start of an instance's teardown, unless it was made before, with all that its callbacks resumed.
    fn begin_teardown(&mut self, instance: InstanceId)
        ensures drains { StartsThenSettles F.Minifilter B.Base WORKER TURNS RESUMPTIONS instance self.old self.new }
        ensures quiet { StartsQuietly F.Minifilter instance self.old self.new }
        ensures between { StaysBetween self.old self.new }
    {
        if self.start_and_drain(instance) {
            self.settle();
        }
    }

    // The start alone: the filter is told, and lets go of all that it waits for. False where it can't start, or did before.
    fn start_and_drain(&mut self, instance: InstanceId) -> bool
        ensures drains { StartsAndDrains F.Minifilter instance self.old result self.new }
        ensures quiet { StartsAlone F.Minifilter instance self.old result self.new }
        ensures kept { CallsBack self.old self.new }
        ensures none { result ≡ false → self.new ≡ self.old }
        ensures out { StaysOut self.old self.new }
        ensures waits { StaysWaiting self.old self.new }
    {
        match self.work.state.start_teardown(WORKER, instance) {
            Ok(()) => {
                self.start(instance);
                self.drain_all(instance);
                true
            }
            Err(_) => false,
        }
    }

    // The completion of an instance's teardown, where it is stopping.
    fn end_teardown(&mut self, instance: InstanceId) -> Result<(), Status>
        ensures stops { IfErr result (λ status. CompletesTeardown instance self.old (Err status) self.new) }
        ensures tells { TellsThenSettles F.Minifilter B.Base WORKER TURNS RESUMPTIONS (is_stopping instance self.old) instance self.old result self.new }
        ensures quiet { CompletesQuietly F.Minifilter instance self.old result self.new }
        ensures between { StaysBetween self.old self.new }
    {
        if !self.is_stopping(instance) {
            return Ok(());
        }
        self.work.state.complete_teardown(WORKER, instance)?;
        self.complete(instance);
        self.settle();
        Ok(())
    }

    // Has a stopping instance let go of all that it waits for.
    fn drain_all(&mut self, instance: InstanceId)
        ensures drains { DrainsAll F.Minifilter instance self.old self.new }
        ensures kept { CallsBack self.old self.new }
        ensures none { HasNoOperation self.old → self.new ≡ self.old }
        ensures out { StaysOut self.old self.new }
        ensures waits { StaysWaiting self.old self.new }
    {
        while self.drain_first(instance) {}
    }

    // Has it let go of what the first operation owes it; false where none does.
    fn drain_first(&mut self, instance: InstanceId) -> bool
        ensures less { DrainsLess instance result self.old self.new }
        ensures drains { DrainsSome F.Minifilter instance self.old result self.new }
        ensures kept { CallsBack self.old self.new }
        ensures none { HasNoOperation self.old → (result ≡ false) × (self.new ≡ self.old) }
        ensures out { StaysOut self.old self.new }
        ensures waits { StaysWaiting self.old self.new }
    {
        match self.work.state.drain_take(WORKER, instance) {
            Ok(Some((operation, completion))) => {
                let _ = self.drain_early(operation, instance, completion);
                true
            }
            Ok(None) => false,
            Err(_) => false,
        }
    }
}
