//! Events by which a volume is dismounted: nobody is asked, and once its handles are dropped and its instances detached it is emptied and ends.

ghost use Rattle.std.specs.Prelude.{◌≡◌};
ghost use Rattle.fm_ctx.specs.Settling.{is_linked_to};
ghost use Rattle.fm_ctx.specs.declared.object.Object.TheVariants as object;
ghost use Rattle.fm_world.specs.Dismounts.{StartsDismount, DropsHandle, EmptiesVolume, FinishesVolume};
ghost use Rattle.fm_world.specs.Hands.{KeepsHands};
ghost use Rattle.fm_core.specs.Hands.{SweptWhere};
ghost use Rattle.fm_core.specs.Targets.{close_on};

use crate::state::State;
use crate::target::{Target, note_answer};
use fm_ctx::{Contexts, Object};
use fm_types::{HandleId, Operation, Status, VolumeId};
use fm_world::FileHandle;

/// What the close of a handle is on.
fn close_on(handle: FileHandle) -> Target
    ensures { result ≡ close_on handle }
{
    Target {
        operation: Operation::Close,
        stream: Some(handle.stream),
        handle: Some(handle.number),
    }
}

/// Where a volume is emptied, the contexts that are set on it lose their links.
fn unlink_where(contexts: &mut Contexts, volume: VolumeId, emptied: &Result<(), Status>)
    ensures { SweptWhere emptied.now (is_linked_to (object.Volume volume)) contexts.old contexts.new }
{
    if emptied.is_ok() {
        contexts.unlink_object(Object::Volume(volume));
    }
}

impl State {
    /// Begins the dismount of a volume (`FSCTL_DISMOUNT_VOLUME`): nothing is attached to it any more and no operation begins on it, and its Attached instances
    /// are Stopping; nobody is asked. An instance in its setup stays so, and its end refuses it. Refused, nothing changed: 7 where the volume isn't there, 33
    /// where its dismount has begun already, 34 with the number of its operations that aren't collected. It takes no memory.
    #[tactic(auto, unfolding(fm_world::specs::Dismounts::StartsDismount))]
    pub fn start_dismount(&mut self, volume: VolumeId) -> Result<(), Status>
        ensures event { StartsDismount self.old volume result self.new }
        ensures hand { KeepsHands self.old self.new }
    {
        let left = self.flow.left_on(volume);
        self.stack.start_dismount(volume, left)
    }

    /// Closes the lowest handle that is open on a volume of which a dismount has begun, and answers it; none if none is left, as once the dismount has ended.
    /// No callback of the file's is called, and nothing is asked of the base: a file that was marked for deletion stays. The contexts that are set on the
    /// handle, or on the stream that is torn down with its last handle, lose their links. Refused, nothing changed: 7 if the volume isn't there, 30 if no
    /// dismount of it has begun. It takes no memory.
    #[tactic(auto, unfolding(fm_world::specs::Dismounts::DropsHandle))]
    pub fn drop_handle(&mut self, volume: VolumeId) -> Result<Option<HandleId>, Status>
        ensures event { DropsHandle self.old volume result self.new }
        ensures hand { KeepsHands self.old self.new }
    {
        if let Some(status) = self.stack.unless_dismounting(volume) {
            return Err(status);
        }
        let Some(handle) = self.files.lowest_on(volume).copied() else {
            return Ok(None);
        };
        note_answer(
            &mut self.files,
            &mut self.contexts,
            &self.flow,
            close_on(handle),
            Status::Success,
        );
        Ok(Some(handle.number))
    }

    /// Unlinks the contexts that are set on a volume, of every filter, once it has no open handle and its instances are all Detached; it may be called again,
    /// and after the dismount has ended it changes nothing. Refused, nothing changed: 7 if the volume isn't there, 30 if no dismount of it has begun, 34 with
    /// the number of its open handles and of its instances that aren't Detached, their sum. It takes no memory.
    #[tactic(auto, unfolding(fm_world::specs::Dismounts::EmptiesVolume))]
    pub fn empty_volume(&mut self, volume: VolumeId) -> Result<(), Status>
        ensures event { EmptiesVolume self.old volume result self.new }
        ensures hand { KeepsHands self.old self.new }
    {
        let handles = self.files.handles_on(volume) as u64;
        let result = self.stack.empty_volume(volume, handles);
        unlink_where(&mut self.contexts, volume, &result);
        result
    }

    /// Ends the dismount of a volume that was emptied, once the volume contexts that were allocated on it are all cleaned up: the volume keeps its number and
    /// its name. Refused, nothing changed: 7 where the volume isn't there, 30 where it wasn't emptied or is finished already, 34 with the number of these
    /// contexts that aren't cleaned. It takes no memory.
    #[tactic(auto, unfolding(fm_world::specs::Dismounts::FinishesVolume))]
    pub fn finish_volume(&mut self, volume: VolumeId) -> Result<(), Status>
        ensures event { FinishesVolume self.old volume result self.new }
        ensures hand { KeepsHands self.old self.new }
    {
        let open = self.contexts.open_on(volume);
        self.stack.finish_volume(volume, open)
    }
}
