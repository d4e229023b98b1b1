//! What the lines of a script name, noted.

use crate::subject::context_kind;
use fm_callback_data::{FileRequest, Request};
use fm_core::{Phase, Place, State, Step};
use fm_report::{Event, Kind, Notes, instance_in, what_of};
use fm_script::Task;
use fm_types::WorkerId;
use std::alloc::AllocError;

/// Notes what an event of a line named, and what changed with it.
pub fn learn(
    notes: &mut Notes,
    line: u32,
    event: &Event,
    task: &Task,
    state: &State,
) -> Result<(), AllocError> {
    match event.kind {
        Kind::Began => begin(notes, line, task)?,
        Kind::Allocated => allocate(notes, line, task, state)?,
        Kind::Set => set(notes, line, event),
        Kind::Dropped => drop_handle(notes, event),
        Kind::Loaded | Kind::Mounted | Kind::Attached | Kind::InSetup => name(notes, line, task)?,
        _ => {}
    }
    notes.note(line, event)?;
    if event.kind.changes_lives() {
        return notes.follow(line, state);
    }
    Ok(())
}

// Notes what was named.
fn name(notes: &mut Notes, since: u32, task: &Task) -> Result<(), AllocError> {
    match task {
        Task::Event(Step::Register { name, .. }) => notes.load(*name, since),
        Task::Event(Step::Mount { name }) => notes.mount(*name, since),
        Task::Event(
            Step::Attach {
                name,
                altitude,
                filter,
                volume,
                ..
            },
        ) => notes.attach(*name, *altitude, (filter.0, volume.0), Phase::Setup, since),
        Task::Attach {
            name,
            altitude,
            filter,
            volume,
        } => notes.attach(
            *name,
            *altitude,
            (filter.0, volume.0),
            Phase::Attached,
            since,
        ),
        _ => Ok(()),
    }
}

// An operation began.
fn begin(notes: &mut Notes, line: u32, task: &Task) -> Result<(), AllocError> {
    match task {
        Task::Event(Step::Begin(request) | Step::BeginFrom(_, request)) => notes.begin(
            line,
            what_of(request)?,
        ),
        _ => Ok(()),
    }
}

// A context was allocated by the callback that the worker is in.
fn allocate(notes: &mut Notes, line: u32, task: &Task, state: &State) -> Result<(), AllocError> {
    let Some((worker, kind)) = context_kind(task) else {
        return Ok(());
    };
    match instance_of(state, worker) {
        Some(instance) => notes.allocate(line, kind, instance),
        None => Ok(()),
    }
}

// The instance whose callback a worker is in.
fn instance_of(state: &State, worker: WorkerId) -> Option<u16> {
    let place = state.place(worker).unwrap_or(Place::Idle);
    u16::try_from(instance_in(place)?).ok()
}

// A context was set.
fn set(notes: &mut Notes, line: u32, event: &Event) {
    if let Some(context) = event.facts.context {
        notes.set(line, context);
    }
}

// A dismount closed a handle.
fn drop_handle(notes: &mut Notes, event: &Event) {
    if let Some(handle) = event.facts.handle {
        notes.close(handle);
    }
}

/// The bytes that a line writes or allocates.
pub fn bytes_in(task: &Task) -> Option<&[u8]> {
    match task {
        Task::Event(
            Step::Begin(
                Request::OnHandle {
                    request: FileRequest::Write { bytes, .. },
                    ..
                },
            )
            | Step::Allocate { body: bytes, .. }
            | Step::WriteBody { bytes, .. },
        ) => Some(bytes.as_slice()),
        _ => None,
    }
}
