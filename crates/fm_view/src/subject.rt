//! What a line is about, as far as its task names it or the callback is for it that its worker is in.

use fm_callback_data::Request;
use fm_core::{BeginsFrom, Place, Step};
use fm_report::{Facts, instance_in, operation_in};
use fm_script::Task;
use fm_types::{ContextKind, FilterId, OpId, VolumeId, WorkerId};

/// What a line names, whose worker was there before.
pub fn facts_of(task: &Task, place: Place) -> Facts {
    Facts {
        worker: worker_of(task).map(|worker| u64::from(worker.0)),
        filter: filter_of(task, place).map(|filter| u64::from(filter.0)),
        volume: volume_of(task).map(|volume| u64::from(volume.0)),
        instance: instance_of(task, place),
        operation: operation_of(task, place),
        handle: handle_of(task),
        ..Facts::none()
    }
}

/// The worker of an allocation, and the kind of its context.
pub fn context_kind(task: &Task) -> Option<(WorkerId, ContextKind)> {
    match task {
        Task::Event(Step::Allocate { worker, kind, .. }) => Some((*worker, *kind)),
        _ => None,
    }
}

/// The worker of a line.
pub fn worker_of(task: &Task) -> Option<WorkerId> {
    match task {
        Task::Event(step) => step.worker(),
        Task::Attach { .. } => Some(WorkerId(0)),
        Task::Next { worker, .. }
        | Task::Pre { worker, .. }
        | Task::Base { worker }
        | Task::Post { worker, .. }
        | Task::Go { worker, .. } => Some(*worker),
        _ => None,
    }
}

/// The operation that a line names, or that its worker's callback is for.
pub fn operation_of(task: &Task, place: Place) -> Option<u64> {
    match task {
        Task::Next { operation, .. }
        | Task::Go { operation, .. }
        | Task::Event(
            Step::ResumePre { operation, .. }
            | Step::ResumePost { operation, .. }
            | Step::ChangeHeld { operation, .. }
            | Step::Collect { operation },
        ) => Some(operation.0),
        _ => operation_in(place),
    }
}

/// The operation of a turn or a collecting.
pub fn turned(task: &Task) -> Option<OpId> {
    match task {
        Task::Next { operation, .. }
        | Task::Go { operation, .. }
        | Task::Event(Step::Collect { operation }) => Some(*operation),
        _ => None,
    }
}

/// The instance that a line names, or whose callback its worker is in.
pub fn instance_of(task: &Task, place: Place) -> Option<u64> {
    match task {
        Task::Plan { instance, .. }
        | Task::Phase(instance)
        | Task::Flight(instance)
        | Task::Event(
            Step::AskDetach { instance, .. }
            | Step::StartTeardown { instance, .. }
            | Step::DrainTake { instance, .. }
            | Step::CompleteTeardown { instance, .. }
            | Step::EnterRoutine { instance, .. }
            | Step::BeginFrom(BeginsFrom::Below(instance) | BeginsFrom::Base(instance), _)
            | Step::Finish { instance },
        ) => Some(u64::from(instance.0)),
        _ => instance_in(place),
    }
}

/// The filter that a line names, or whose unload its worker is in.
pub fn filter_of(task: &Task, place: Place) -> Option<FilterId> {
    match task {
        Task::Attach { filter, .. }
        | Task::Event(
            Step::Attach { filter, .. }
            | Step::AskUnload { filter, .. }
            | Step::EmptyFilter { filter }
            | Step::FinishFilter { filter },
        ) => Some(*filter),
        _ => match place {
            Place::Unload(filter) => Some(filter),
            _ => None,
        },
    }
}

/// The volume that a line names.
pub fn volume_of(task: &Task) -> Option<VolumeId> {
    match task {
        Task::Attach { volume, .. }
        | Task::Event(
            Step::Attach { volume, .. }
            | Step::Begin(
                Request::Create { volume, .. }
                | Request::List { volume }
                | Request::OnVolume { volume, .. },
            )
            | Step::BeginFrom(
                _,
                Request::Create { volume, .. }
                | Request::List { volume }
                | Request::OnVolume { volume, .. },
            )
            | Step::StartDismount { volume }
            | Step::DropHandle { volume }
            | Step::EmptyVolume { volume }
            | Step::FinishVolume { volume },
        ) => Some(*volume),
        _ => None,
    }
}

/// The handle that a line names.
pub fn handle_of(task: &Task) -> Option<u64> {
    match task {
        Task::Event(
            Step::Begin(Request::OnHandle { handle, .. })
            | Step::BeginFrom(_, Request::OnHandle { handle, .. }),
        ) => Some(handle.0),
        _ => None,
    }
}
