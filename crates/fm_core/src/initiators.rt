//! Operations that no client asks for: an instance's filter does, or the file system, or the cache or memory manager.

ghost use Rattle.std.specs.Prelude.{◌≡◌, Some, true};
ghost use Rattle.fm_types.specs.Refusals.{first_of};
ghost use Rattle.fm_core.specs.Begun.{MayPlace};
ghost use Rattle.fm_operations.specs.Table.{placed};
ghost use Rattle.fm_world.specs.Hands.{KeepsHands};
ghost use Rattle.fm_world.specs.Initiators.{BeginsLower, asker_of, born_from, from_refusals, is_off_volume, placed_at, requested_volume};
ghost use Rattle.fm_world.specs.Owners.{keeps_links_by, row_at};

use crate::routines::volume_by;
use crate::state::State;
use fm_callback_data::Request;
use fm_stack::Phase;
use fm_types::{InstanceId, OpId, Status, VolumeId};
use fm_world::BeginsFrom;

// The instance whose filter asked for it; none where no filter did.
fn asker_of(from: BeginsFrom) -> Option<InstanceId>
    ensures { result ≡ asker_of from }
{
    match from {
        BeginsFrom::Below(instance) | BeginsFrom::Base(instance) => Some(instance),
        BeginsFrom::FileSystem | BeginsFrom::Top => None,
    }
}

// It visits instances that were born before that: at the base none was.
fn born_from(births: u64, from: BeginsFrom) -> u64
    ensures { result ≡ born_from births from }
{
    match from {
        BeginsFrom::Below(_) | BeginsFrom::Top => births,
        BeginsFrom::Base(_) | BeginsFrom::FileSystem => 0,
    }
}

impl State {
    // Whether the instance is there, and its teardown hasn't ended.
    fn keeps_links(&self, instance: InstanceId) -> bool
        ensures { result ≡ keeps_links_by (row_at self.now.stack instance) }
    {
        match self.stack.phase(instance) {
            Some(phase) => !matches!(phase, Phase::Emptying | Phase::Detached),
            None => false,
        }
    }

    // The volume that a request is on; none where its handle isn't open.
    fn requested_volume(&self, what: &Request) -> Option<VolumeId>
        ensures { result ≡ requested_volume self.now what.now }
    {
        match what {
            Request::List { volume } => Some(*volume),
            Request::OnVolume { volume, .. } => Some(*volume),
            Request::Create { volume, .. } => Some(*volume),
            Request::OnHandle { handle, .. } => volume_by(&self.files, *handle),
        }
    }

    // Whether that is another volume than the instance's.
    fn is_off_volume(&self, instance: InstanceId, volume: Option<VolumeId>) -> bool
        ensures { result ≡ is_off_volume (row_at self.now.stack instance) volume }
    {
        match (self.stack.volume_of(instance), volume) {
            (Some(own), Some(volume)) => own.0 != volume.0,
            _ => false,
        }
    }

    // What an instance may not ask.
    fn from_refusal(&self, from: BeginsFrom, what: &Request) -> Option<Status>
        ensures { result ≡ first_of (from_refusals self.now from what.now) }
    {
        let instance = asker_of(from)?;
        if !self.is_left(instance) {
            return Some(Status::NoInstance);
        }
        if !self.keeps_links(instance) {
            return Some(Status::DeletingObject);
        }
        if self.is_off_volume(instance, self.requested_volume(what)) {
            return Some(Status::BadRequest);
        }
        None
    }

    // An operation that has just begun goes to its place.
    fn place_from(&mut self, operation: OpId, from: BeginsFrom)
        requires { MayPlace self.old operation from }
        ensures { self.new ≡ placed_at operation from self.old }
    {
        let born = born_from(self.stack.births(), from);
        self.flow.place_below(operation, asker_of(from), born);
    }

    /// Begins an operation that no client asks for. An instance's filter does: below that instance (`InitiatingInstance` of `FltReadFile`, `FltWriteFile`,
    /// `FltCreateFileEx`, `FltClose` and their like), where those instances alone visit it that stand lower, or at the base, where none does; the
    /// instance's teardown isn't completed, nor is its end, before the answer was handed out. Or the file system does, at the base, or the cache or memory
    /// manager, at the top, where all instances visit it. Refused, nothing changed: first, where an instance asks, 8 where it isn't there or is Detached,
    /// 13 where it is Emptying, 32 where what is asked is on another volume; then as `begin`, but that a handle may be read, written, asked for its size,
    /// cut and flushed after its cleanup too, until its close.
    pub fn begin_from(&mut self, from: BeginsFrom, what: Request) -> Result<OpId, Status>
        ensures event { BeginsLower self.old from what result self.new }
        ensures hand { KeepsHands self.old self.new }
    {
        let _ = &self.flow;
        if let Some(refusal) = self.from_refusal(from, &what) {
            return Err(refusal);
        }
        match self.begin_at(true, what) {
            Ok(operation) => {
                self.place_from(operation, from);
                Ok(operation)
            }
            Err(refusal) => Err(refusal),
        }
    }
}
