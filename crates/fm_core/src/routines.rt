//! Routines: what a worker does for an instance outside of callbacks, as its filter does in a work item, a thread or a timer.

ghost use Rattle.std.specs.Prelude.{◌≡◌, ◌≤◌, ℕ, length, option_map};
ghost use Rattle.fm_types.specs.Refusals.{first_of};
ghost use Rattle.fm_world.specs.Hands.{OnlyHandOf, KeepsHands, hand_len, left_by};
ghost use Rattle.fm_world.specs.Owners.{is_flown_by, is_left_by, row_at};
ghost use Rattle.fm_world.specs.Routines.{EntersRoutine, RoutineReturns, file_by, is_elsewhere, lacks_handle, routine_refusals, volume_by};
ghost use Rattle.fm_world.specs.Workers.{AtRoutine, is_in_routine, routines_at, worker_at};

use crate::files::Files;
use crate::state::State;
use crate::workers::{is_routine, put};
use fm_stack::Phase;
use fm_types::{HandleId, InstanceId, Status, VolumeId, WorkerId};
use fm_world::{FileObject, Place};

fn is_in_routine(instance: InstanceId, place: Place) -> bool
    ensures { result ≡ is_in_routine instance.0 place }
{
    match place {
        Place::Routine(other, _) => other.0 == instance.0,
        _ => false,
    }
}

/// How many workers are in routines of the instance.
pub(crate) fn routines_at(instance: InstanceId, workers: &[Place]) -> u64
    ensures event { result ≡ routines_at instance workers.now }
    ensures few { result ≤ length workers.now }
{
    workers
        .iter()
        .filter(|place| is_in_routine(instance, **place))
        .count() as u64
}

/// The file of an open handle, if one is named.
fn file_by(files: &Files, handle: Option<HandleId>) -> Option<FileObject>
    ensures { result ≡ file_by files.now.table handle }
{
    let handle = handle?;
    let row = files.handle(handle)?;
    Some(FileObject {
        stream: row.stream,
        handle,
    })
}

/// The volume of a handle's file.
pub(crate) fn volume_by(files: &Files, handle: HandleId) -> Option<VolumeId>
    ensures { result ≡ volume_by files.now.table handle }
{
    let row = files.handle(handle)?;
    files.volume_of(row.stream)
}

/// Whether a handle is named that isn't open.
fn lacks_handle(files: &Files, handle: Option<HandleId>) -> bool
    ensures { result ≡ lacks_handle files.now.table handle }
{
    match handle {
        Some(handle) => files.handle(handle).is_none(),
        None => false,
    }
}

impl State {
    // Whether the instance is there, and isn't Detached.
    pub(crate) fn is_left(&self, instance: InstanceId) -> bool
        ensures { result ≡ is_left_by (row_at self.now.stack instance) }
    {
        match self.stack.phase(instance) {
            Some(phase) => !matches!(phase, Phase::Detached),
            None => false,
        }
    }

    // Whether operations may be in flight at the instance.
    fn is_flown(&self, instance: InstanceId) -> bool
        ensures { result ≡ is_flown_by (row_at self.now.stack instance) }
    {
        matches!(
            self.stack.phase(instance),
            Some(Phase::Attached | Phase::Stopping)
        )
    }

    // Whether a handle is named whose file is on another volume than the instance.
    fn is_elsewhere(&self, instance: InstanceId, handle: Option<HandleId>) -> bool
        ensures { result ≡ is_elsewhere self.now instance handle }
    {
        let Some(handle) = handle else {
            return false;
        };
        match (
            self.stack.volume_of(instance),
            volume_by(&self.files, handle),
        ) {
            (Some(own), Some(volume)) => own.0 != volume.0,
            _ => true,
        }
    }

    fn routine_refusal(&self, instance: InstanceId, handle: Option<HandleId>) -> Option<Status>
        ensures { result ≡ first_of (routine_refusals self.now instance handle) }
    {
        if !self.is_left(instance) {
            return Some(Status::NoInstance);
        }
        if !self.is_flown(instance) {
            return Some(Status::DeletingObject);
        }
        if lacks_handle(&self.files, handle) {
            return Some(Status::NoHandle);
        }
        if self.is_elsewhere(instance, handle) {
            return Some(Status::BadRequest);
        }
        None
    }

    /// The worker enters a routine of an instance's filter, which is no callback: a work item (`FltQueueGenericWorkItem`), a thread, a timer, the completion of
    /// an operation of the filter's own. There it may do what a callback of the instance may: resume what the instance holds
    /// (`FltCompletePendedPreOperation`), and allocate, get, set and release contexts, also on the file of a handle that is named. A teardown isn't
    /// completed while it is in. Refused, nothing changed: 30 where the worker isn't idle or isn't there, 8 where the instance isn't there or is Detached,
    /// 13 where it is neither Attached nor Stopping, 14 where the named handle isn't open, 32 where its file is on another volume. It takes no memory.
    #[tactic(auto, unfolding(fm_world::specs::Routines::EntersRoutine))]
    pub fn enter_routine(
        &mut self,
        worker: WorkerId,
        instance: InstanceId,
        handle: Option<HandleId>,
    ) -> Result<(), Status>
        ensures event { EntersRoutine self.old worker instance handle result self.new }
        ensures hand { KeepsHands self.old self.new }
    {
        if !self.is_idle(worker) {
            return Err(Status::WrongStep);
        }
        if let Some(refusal) = self.routine_refusal(instance, handle) {
            return Err(refusal);
        }
        let file = file_by(&self.files, handle);
        put(&mut self.workers, worker, Place::Routine(instance, file));
        Ok(())
    }

    /// The routine that the worker is in returns. What the worker still held is released and counts as leaked. Refused, nothing changed, with 30 where the
    /// worker is in none. It takes no memory.
    #[tactic(auto, unfolding(fm_world::specs::Routines::RoutineReturns))]
    pub fn routine_returned(&mut self, worker: WorkerId) -> Result<(), Status>
        ensures event { RoutineReturns self.old worker result self.new }
        ensures hand { OnlyHandOf worker.0 self.old self.new }
        ensures held { hand_len worker.0 self.new ≡ left_by AtRoutine (worker_at self.old.workers worker) (hand_len worker.0 self.old) }
    {
        if !is_routine(self.place(worker)) {
            return Err(Status::WrongStep);
        }
        self.contexts.leave(worker);
        put(&mut self.workers, worker, Place::Idle);
        Ok(())
    }
}
