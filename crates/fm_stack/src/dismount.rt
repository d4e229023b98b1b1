//! The events by which a volume is dismounted.

ghost use Rattle.std.specs.Prelude.{◌≡◌, ◌+◌, ◌<◌, ◌^◌, slice_get};
ghost use Rattle.fm_types.specs.Refusals.{first_of};
ghost use Rattle.fm_stack.specs.Dismounting.{StartsDismount, EmptiesVolume, FinishesVolume, dismount_refusals, unless_dismounting, empty_volume_refusals, finish_volume_refusals, is_volume_emptied, left_on};
ghost use Rattle.fm_stack.specs.Events.{is_mounted};
ghost use Rattle.fm_stack.specs.Follows.{Follows};

use crate::instance;
use crate::stack::Stack;
use crate::volume::{self, VolumePhase};
use fm_types::{Status, VolumeId};

// What refuses an event.
impl Stack {
    fn is_mounted(&self, volume: VolumeId) -> bool
        ensures { result ≡ is_mounted (slice_get self.now.volumes volume.0) }
    {
        let Some(row) = self.volumes.get(volume.0 as usize) else {
            return false;
        };
        row.is_mounted()
    }

    fn is_volume_emptied(&self, volume: VolumeId) -> bool
        ensures { result ≡ is_volume_emptied (slice_get self.now.volumes volume.0) }
    {
        let Some(row) = self.volumes.get(volume.0 as usize) else {
            return false;
        };
        row.is_emptied()
    }

    // The handles, and the instances on the volume that aren't detached.
    fn left_on(&self, volume: VolumeId, handles: u64) -> u64
        requires { handles < 2 ^ 63 }
        ensures { result ≡ left_on self.now volume handles }
    {
        handles + self.seats(volume).len() as u64
    }

    fn dismount_refusal(&self, volume: VolumeId, uncollected: u64) -> Option<Status>
        ensures { result ≡ first_of (dismount_refusals self.now volume uncollected) }
    {
        if volume.0 as usize >= self.volumes.len() {
            return Some(Status::NoVolume);
        }
        if !self.is_mounted(volume) {
            return Some(Status::Dismounting);
        }
        if uncollected > 0 {
            return Some(Status::Busy(uncollected));
        }
        None
    }

    /// What refuses the end of a handle without its file's callbacks, which a dismount alone may bring:
    /// `NoVolume` (7), `WrongStep` (30) if no dismount of the volume has begun. One that has ended refuses
    /// nothing. Nothing changes.
    pub fn unless_dismounting(&self, volume: VolumeId) -> Option<Status>
        ensures { result ≡ first_of (unless_dismounting self.now volume) }
    {
        if volume.0 as usize >= self.volumes.len() {
            return Some(Status::NoVolume);
        }
        if self.is_mounted(volume) {
            return Some(Status::WrongStep);
        }
        None
    }

    fn empty_volume_refusal(&self, volume: VolumeId, handles: u64) -> Option<Status>
        requires { handles < 2 ^ 63 }
        ensures { result ≡ first_of (empty_volume_refusals self.now volume handles) }
    {
        if let Some(status) = self.unless_dismounting(volume) {
            return Some(status);
        }
        let left = self.left_on(volume, handles);
        if left > 0 {
            return Some(Status::Busy(left));
        }
        None
    }

    fn finish_volume_refusal(&self, volume: VolumeId, contexts: u64) -> Option<Status>
        ensures { result ≡ first_of (finish_volume_refusals self.now volume contexts) }
    {
        if volume.0 as usize >= self.volumes.len() {
            return Some(Status::NoVolume);
        }
        if !self.is_volume_emptied(volume) {
            return Some(Status::WrongStep);
        }
        if contexts > 0 {
            return Some(Status::Busy(contexts));
        }
        None
    }
}

// The events.
impl Stack {
    /// Begins the dismount of a volume (`FSCTL_DISMOUNT_VOLUME`), of whose operations that many aren't
    /// collected: nothing is attached to it any more, and its attached instances are stopping; nobody is
    /// asked, and one in its setup stays there. Refused, with nothing changed, in this order: `NoVolume`
    /// (7), `Dismounting` (33) where a dismount has begun already, `Busy` (34) with the number of
    /// operations. It takes no memory.
    #[tactic(auto, unfolding(crate::specs::Dismounting::StartsDismount))]
    pub fn start_dismount(&mut self, volume: VolumeId, uncollected: u64) -> Result<(), Status>
        ensures event { StartsDismount self.old volume uncollected result self.new }
        ensures follows { Follows self.old self.new }
    {
        if let Some(status) = self.dismount_refusal(volume, uncollected) {
            return Err(status);
        }
        volume::set_phase(
            &mut self.volumes,
            volume.0 as usize,
            VolumePhase::Dismounting,
        );
        instance::stop_on(&mut self.instances, volume);
        Ok(())
    }

    /// A volume that is being dismounted, on which that many handles are open, has no instance left that
    /// isn't detached, and its contexts may be unlinked. It may be called again; a volume whose dismount
    /// has ended stays finished. Refused, with nothing changed, in this order: `NoVolume` (7), `WrongStep`
    /// (30) if no dismount of it has begun, `Busy` (34) with the number of handles and of instances on it
    /// that aren't detached, their sum. It takes no memory.
    #[tactic(auto, unfolding(crate::specs::Dismounting::EmptiesVolume))]
    pub fn empty_volume(&mut self, volume: VolumeId, handles: u64) -> Result<(), Status>
        requires { handles < 2 ^ 63 }
        ensures event { EmptiesVolume self.old volume handles result self.new }
        ensures follows { Follows self.old self.new }
    {
        if let Some(status) = self.empty_volume_refusal(volume, handles) {
            return Err(status);
        }
        volume::empty(&mut self.volumes, volume.0 as usize);
        Ok(())
    }

    /// Ends the dismount of a volume, of whose contexts that many aren't cleaned: it keeps its id and its
    /// name. Refused, with nothing changed, in this order: `NoVolume` (7), `WrongStep` (30) where it
    /// wasn't emptied or is finished already, `Busy` (34) with the number of contexts. It takes no memory.
    #[tactic(auto, unfolding(crate::specs::Dismounting::FinishesVolume))]
    pub fn finish_volume(&mut self, volume: VolumeId, contexts: u64) -> Result<(), Status>
        ensures event { FinishesVolume self.old volume contexts result self.new }
        ensures follows { Follows self.old self.new }
    {
        if let Some(status) = self.finish_volume_refusal(volume, contexts) {
            return Err(status);
        }
        volume::set_phase(&mut self.volumes, volume.0 as usize, VolumePhase::Finished);
        Ok(())
    }
}
