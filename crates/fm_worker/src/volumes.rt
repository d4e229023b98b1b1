//! How a connection dismounts a volume, with all callbacks in between.

ghost use Rattle.std.specs.Prelude.{◌≡◌, IfOk, true};
ghost use Rattle.fm_rundown.specs.Seats.{IsSeatOf, view_of};
ghost use Rattle.fm_rundown.specs.Views.{volume_of};
ghost use Rattle.fm_worker.specs.Jobs.{LeavesNone};

use crate::hook::CallbackHook;
use crate::worker::Worker;
use fm_device::Device;
use fm_filter::Callbacks;
use fm_rundown::{GateSeat, Look, RundownGate, Seen};
use fm_stack::VolumePhase;
use fm_types::{InstanceId, Status, VolumeId};
use std::sync::Wait;
use std::sync::ledger::Ledger;

impl<'a, F: Callbacks, L: Ledger, R: Wait, G: CallbackHook, D: Device> Worker<'a, F, L, R, G, D> {
    /// Dismounts a volume: closes it at the rundown gate, and once that is drained tears down its instances one after the other, closes the handles that are left,
    /// and cleans up its contexts. Refused with 34 and number 0 while passes of the volume are out, and else as the manager's events are: with 34 and their number
    /// while operations are there or in flight, or contexts aren't cleaned; with 33 if the volume was dismounted before. Called again, it goes on where
    /// it stopped. A step that another thread has under way gives its own refusal.
    #[tactic(auto, using(crate::proofs::Drained::drained_seen))]
    pub fn dismount(
        &mut self,
        rundown: &RundownGate,
        seat: &mut GateSeat,
        volume: VolumeId,
    ) -> Result<(), Status>
        requires seat { IsSeatOf rundown.now seat.old }
        ensures settled { LeavesNone self.old.own.port.resumed self.new.own.port.resumed }
        ensures seat { IsSeatOf rundown.now seat.new }
        ensures drained { IfOk result (λ _. (volume_of volume.0 (view_of seat.new)).is_drained ≡ true) }
    {
        rundown.close(seat, volume)?;
        match rundown.look(seat, volume)? {
            Look::Drained(seen) => self.dismount_drained(seen),
            Look::Open | Look::Closing => Err(Status::Busy(0)),
        }
    }

    // The dismount of a volume that was seen drained, from where it is.
    fn dismount_drained(&mut self, seen: Seen) -> Result<(), Status>
        ensures settled { LeavesNone self.old.own.port.resumed self.new.own.port.resumed }
    {
        let volume = seen.volume();
        if !self.is_dismounting(volume) {
            self.shared.manager.start_dismount(self.shared.rt, seen)?;
        }
        self.stop_all(volume)?;
        self.drop_handles(volume)?;
        self.clean_up();
        self.finish_all(volume)?;
        self.shared.manager.empty_volume(self.shared.rt, volume)?;
        self.clean_up();
        self.shared.manager.finish_volume(self.shared.rt, volume)
    }

    // Whether a volume's dismount is under way.
    fn is_dismounting(&self, volume: VolumeId) -> bool {
        matches!(
            self.shared.manager.volume_phase(self.shared.rt, volume),
            Some(VolumePhase::Dismounting | VolumePhase::Emptied)
        )
    }

    // Tears down the instances on a volume, up to the cleanup of their contexts.
    fn stop_all(&mut self, volume: VolumeId) -> Result<(), Status>
        ensures settled { LeavesNone self.old.own.port.resumed self.new.own.port.resumed }
    {
        'instances: for at in 0..self.instances() {
            if self.is_on(volume, InstanceId(at)) {
                self.begin_teardown(InstanceId(at));
                self.end_teardown(InstanceId(at))?;
            }
        }
        Ok(())
    }

    // Closes the handles that are open on a dismounting volume.
    fn drop_handles(&self, volume: VolumeId) -> Result<(), Status> {
        'handles: for _ in self.shared.rt.forever() {
            if self
                .shared
                .manager
                .drop_handle(self.shared.rt, volume)?
                .is_none()
            {
                break 'handles;
            }
        }
        Ok(())
    }

    // Ends the instances on a volume, once their contexts are cleaned up.
    fn finish_all(&self, volume: VolumeId) -> Result<(), Status> {
        for at in 0..self.instances() {
            if self.is_on(volume, InstanceId(at)) {
                self.shared.manager.finish(self.shared.rt, InstanceId(at))?;
            }
        }
        Ok(())
    }

    // Whether an instance is on a volume, and its teardown is under way.
    fn is_on(&self, volume: VolumeId, instance: InstanceId) -> bool {
        match self.shared.manager.volume_of(self.shared.rt, instance) {
            Some(own) => own.0 == volume.0 && self.is_leaving(instance),
            None => false,
        }
    }
}
