//! How a connection attaches and detaches instances, and unloads filters, with all callbacks in between.

ghost use Rattle.fm_worker.specs.Jobs.{LeavesNone};

use crate::hook::CallbackHook;
use crate::worker::Worker;
use fm_altitude::Altitude;
use fm_device::Device;
use fm_filter::Callbacks;
use fm_stack::FilterPhase;
use fm_types::{FilterId, InstanceId, Name, Status, VolumeId};
use std::sync::Wait;
use std::sync::ledger::Ledger;

impl<'a, F: Callbacks, L: Ledger, R: Wait, G: CallbackHook, D: Device> Worker<'a, F, L, R, G, D> {
    /// Loads the filter of that name (`FltRegisterFilter`). Refused as `Manager::register`.
    pub fn load(&mut self, name: &Name) -> Result<FilterId, Status> {
        self.shared.manager.register(self.shared.rt, name)
    }

    /// Attaches an instance of a filter to a volume at an altitude, and calls its setup callback (`FltAttachVolumeAtAltitude`). Refused as the manager's
    /// `attach`, or, after the callback, as its `setup_done`: with 11 if the filter declines. The instance is detached again then; if that can't be
    /// yet, the unload of its filter does it.
    pub fn attach(
        &mut self,
        filter: FilterId,
        volume: VolumeId,
        name: Name,
        altitude: Altitude,
    ) -> Result<InstanceId, Status>
        ensures settled { LeavesNone self.old.own.port.resumed self.new.own.port.resumed }
    {
        let shared = &self.shared;
        let hand = &mut self.own.port.hand;
        let instance = shared
            .manager
            .attach(shared.rt, hand, filter, volume, name, altitude)?;
        let accepted = shared.setup(&mut self.own, instance);
        self.settle(true);
        match accepted {
            Ok(()) => Ok(instance),
            Err(status) => {
                let _ = self.shared.manager.finish(self.shared.rt, instance);
                Err(status)
            }
        }
    }

    /// Detaches an instance (`FltDetachVolume`): asks its filter, tells it that the teardown starts, has it let go of what it still waits for, and once nothing is
    /// in flight at it any more tells it that the teardown is complete, and cleans up its contexts. What its callbacks resumed is carried on after those drains.
    /// Refused as the manager's events are: with 34 and their number while operations are in flight at it, or contexts of it aren't cleaned; and so before the
    /// start, while a callback of it runs that may still hold an operation. Called again, it goes on where it stopped. A step that another thread has under
    /// way gives its own refusal.
    pub fn detach(&mut self, instance: InstanceId) -> Result<(), Status>
        ensures settled { LeavesNone self.old.own.port.resumed self.new.own.port.resumed }
    {
        if !self.is_leaving(instance) {
            self.ask(instance)?;
        }
        self.tear_down(instance)
    }

    // Asks an instance's filter whether it may be detached.
    fn ask(&mut self, instance: InstanceId) -> Result<(), Status>
        ensures settled { LeavesNone self.old.own.port.resumed self.new.own.port.resumed }
    {
        let shared = &self.shared;
        let hand = &mut self.own.port.hand;
        shared.manager.ask_detach(shared.rt, hand, instance)?;
        let allowed = shared.query(&mut self.own, instance);
        self.settle(true);
        allowed
    }

    /// Unloads a filter (`FltUnloadFilter`): asks it, tears down its instances one after the other, and cleans up its contexts. Refused as the manager's events
    /// are: with 34 and their number while operations are in flight, instances aren't detached, or contexts aren't cleaned; and as `detach` before a start.
    /// Called again, it goes on where it stopped. A step that another thread has under way gives its own refusal.
    pub fn unload(&mut self, filter: FilterId) -> Result<(), Status>
        ensures settled { LeavesNone self.old.own.port.resumed self.new.own.port.resumed }
    {
        if !self.is_unloading(filter) {
            let shared = &self.shared;
            let hand = &mut self.own.port.hand;
            shared.manager.ask_unload(shared.rt, hand, filter)?;
            shared.unloading(&mut self.own, filter)?;
        }
        self.end_filter(filter)
    }

    /// The same without asking the filter: the unload that nobody can refuse (`FLTFL_FILTER_UNLOAD_MANDATORY`).
    pub fn force_unload(&mut self, filter: FilterId) -> Result<(), Status>
        ensures settled { LeavesNone self.old.own.port.resumed self.new.own.port.resumed }
    {
        if !self.is_unloading(filter) {
            self.shared.manager.force_unload(self.shared.rt, filter)?;
        }
        self.end_filter(filter)
    }

    // Whether a filter's end is under way.
    fn is_unloading(&self, filter: FilterId) -> bool {
        matches!(
            self.shared.manager.filter_phase(self.shared.rt, filter),
            Some(FilterPhase::Unloading | FilterPhase::Emptied)
        )
    }

    // The end of a filter, from where it is.
    fn end_filter(&mut self, filter: FilterId) -> Result<(), Status>
        ensures settled { LeavesNone self.old.own.port.resumed self.new.own.port.resumed }
    {
        self.tear_down_all(filter)?;
        self.shared.manager.empty_filter(self.shared.rt, filter)?;
        self.clean_up();
        self.shared.manager.finish_filter(self.shared.rt, filter)
    }

    // Tears down the instances of a filter that aren't detached, until one can't be yet.
    fn tear_down_all(&mut self, filter: FilterId) -> Result<(), Status>
        ensures settled { LeavesNone self.old.own.port.resumed self.new.own.port.resumed }
    {
        'instances: for at in 0..self.instances() {
            if self.is_to_go(filter, InstanceId(at)) {
                self.tear_down(InstanceId(at))?;
            }
        }
        Ok(())
    }

    // Whether an instance is one of the filter, and its teardown is under way.
    fn is_to_go(&self, filter: FilterId, instance: InstanceId) -> bool {
        match self.shared.manager.filter_of(self.shared.rt, instance) {
            Some(own) => own.0 == filter.0 && self.is_leaving(instance),
            None => false,
        }
    }
}
