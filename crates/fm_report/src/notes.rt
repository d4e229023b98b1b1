//! What a run named so far, and since when: what the manager's state doesn't tell.

use crate::event::Event;
use crate::kind::Kind;
use crate::named::major_word;
use fm_altitude::Altitude;
use fm_callback_data::{FileRequest, Request};
use fm_core::{FilterPhase, Phase, Place, State, VolumePhase};
use fm_types::limits::SCRIPT_WORKERS;
use fm_types::{
    ContextKind, CreateMode, FilterId, InstanceId, Major, Name, SharedPath, Status, VolumeId,
    WorkerId,
};
use std::alloc::{AllocError, Global};

/// How many statuses there are.
const STATUSES: usize = 35;

/// A filter or a volume.
#[derive(Clone, Copy)]
pub struct Loaded<P> {
    /// Its name.
    pub name: Name,
    /// How far its life is.
    pub phase: P,
    /// The line on which it came so far.
    pub since: u32,
}

/// An instance.
#[derive(Clone, Copy)]
pub struct InstanceNote {
    /// Its name.
    pub name: Name,
    /// Its altitude.
    pub altitude: Altitude,
    /// Its filter.
    pub filter: u8,
    /// Its volume.
    pub volume: u8,
    /// How far its life is.
    pub phase: Phase,
    /// The line on which it came so far.
    pub since: u32,
    /// The line on which its teardown started, and that on which the callback that says so returned; 0 if it didn't.
    pub started: (u32, u32),
}

/// What an operation does.
#[derive(Drop)]
pub enum What {
    /// A create of a path on a volume.
    Create(u8, SharedPath, CreateMode),
    /// A listing of a volume.
    List(u8),
    /// A read or a write of a handle, between two offsets.
    Read(u64, u64, u64),
    Write(u64, u64, u64),
    /// A change of a handle's size.
    SetSize(u64, u64),
    /// What is asked of a handle with no more words.
    Size(u64),
    Flush(u64),
    Delete(u64),
    Restore(u64),
    Cleanup(u64),
    Close(u64),
    /// What a major function without a kind of its own asks of a handle, and of a volume.
    Other(u64, Major, u64),
    OtherV(u8, Major, u64),
}

impl What {
    /// The word that asks for it in a script.
    pub fn word(&self) -> &'static str {
        match self {
            What::Create(..) => "create",
            What::List(_) => "list",
            What::Read(..) => "read",
            What::Write(..) => "write",
            What::SetSize(..) => "setsize",
            What::Size(_) => "size",
            What::Flush(_) => "flush",
            What::Delete(_) => "delete",
            What::Restore(_) => "restore",
            What::Cleanup(_) => "cleanup",
            What::Close(_) => "close",
            What::Other(..) => "other",
            What::OtherV(..) => "otherv",
        }
    }

    /// The word with which it is told.
    pub fn title(&self) -> &'static str {
        match self {
            What::Create(..) => "CREATE",
            What::List(_) => "LIST",
            What::Read(..) => "READ",
            What::Write(..) => "WRITE",
            What::SetSize(..) => "SET_SIZE",
            What::Size(_) => "QUERY_SIZE",
            What::Flush(_) => "FLUSH",
            What::Delete(_) => "DELETE",
            What::Restore(_) => "RESTORE",
            What::Cleanup(_) => "CLEANUP",
            What::Close(_) => "CLOSE",
            What::Other(_, major, _) | What::OtherV(_, major, _) => major_word(*major),
        }
    }

    /// The handle that it is on.
    pub fn handle(&self) -> Option<u64> {
        match self {
            What::Create(..) | What::List(_) | What::OtherV(..) => None,
            What::Read(handle, ..)
            | What::Write(handle, ..)
            | What::SetSize(handle, _)
            | What::Size(handle)
            | What::Flush(handle)
            | What::Delete(handle)
            | What::Restore(handle)
            | What::Cleanup(handle)
            | What::Close(handle)
            | What::Other(handle, ..) => Some(*handle),
        }
    }
}

/// An operation.
#[derive(Drop)]
pub struct OperationNote {
    /// What it does.
    pub what: What,
    /// The line on which it began.
    pub line: u32,
}

/// A context.
#[derive(Clone, Copy)]
pub struct ContextNote {
    /// Its kind.
    pub kind: ContextKind,
    /// The instance that allocated it.
    pub instance: u16,
    /// The line on which it was.
    pub line: u32,
    /// The line on which it was set last; 0 if it never was.
    pub set: u32,
}

/// A reference that a callback left behind.
#[derive(Clone, Copy)]
pub struct LeakNote {
    /// The context.
    pub context: u64,
    /// Where the callback was that left it.
    pub place: Place,
    /// The line on which it returned.
    pub line: u32,
}

/// How far the life of an instance came on a line.
#[derive(Clone, Copy)]
pub struct Change {
    pub line: u32,
    pub instance: u16,
    pub phase: Phase,
}

/// What the lines named so far.
#[derive(Drop)]
pub struct Notes {
    pub filters: Vec<Loaded<FilterPhase>>,
    pub volumes: Vec<Loaded<VolumePhase>>,
    pub instances: Vec<InstanceNote>,
    pub operations: Vec<OperationNote>,
    pub contexts: Vec<ContextNote>,
    pub leaks: Vec<LeakNote>,
    pub changes: Vec<Change>,
    /// The handles that are open, as far as replies told.
    pub handles: Vec<u64>,
    /// The handles that were given, each with its volume.
    pub opened: Vec<(u64, u8)>,
    /// For each worker the line on which it came to where it is.
    pub workers: [u32; SCRIPT_WORKERS as usize],
    /// How often each status refused a line.
    pub refusals: [u64; STATUSES],
}

// The item of a list at that number.
fn item_at<T: Copy>(items: &[T], number: u64) -> Option<T> {
    items.get(usize::try_from(number).ok()?).copied()
}

impl Notes {
    /// Nothing was named.
    pub fn new(alloc: Global) -> Notes {
        Notes {
            filters: Vec::new(alloc),
            volumes: Vec::new(alloc),
            instances: Vec::new(alloc),
            operations: Vec::new(alloc),
            contexts: Vec::new(alloc),
            leaks: Vec::new(alloc),
            changes: Vec::new(alloc),
            handles: Vec::new(alloc),
            opened: Vec::new(alloc),
            workers: [0; SCRIPT_WORKERS as usize],
            refusals: [0; STATUSES],
        }
    }

    /// What is noted of a filter.
    pub fn filter(&self, number: u64) -> Option<Loaded<FilterPhase>> {
        item_at(self.filters.as_slice(), number)
    }

    /// What is noted of a volume.
    pub fn volume(&self, number: u64) -> Option<Loaded<VolumePhase>> {
        item_at(self.volumes.as_slice(), number)
    }

    /// What is noted of an instance.
    pub fn instance(&self, number: u64) -> Option<InstanceNote> {
        item_at(self.instances.as_slice(), number)
    }

    /// What is noted of a context.
    pub fn context(&self, number: u64) -> Option<ContextNote> {
        item_at(self.contexts.as_slice(), number)
    }

    /// Counts a refusal.
    pub fn refuse(&mut self, status: Status) {
        let at = usize::from(status.number());
        self.refusals[at] = self.refusals[at].saturating_add(1);
    }

    /// How many lines were refused.
    pub fn refused(&self) -> u64 {
        let mut all = 0u64;
        for count in self.refusals {
            all = all.saturating_add(count);
        }
        all
    }

    /// A filter is there.
    pub fn load(&mut self, name: Name, since: u32) -> Result<(), AllocError> {
        self.filters.push(Loaded {
            name,
            phase: FilterPhase::Loaded,
            since,
        })?;
        Ok(())
    }

    /// A volume is there.
    pub fn mount(&mut self, name: Name, since: u32) -> Result<(), AllocError> {
        self.volumes.push(Loaded {
            name,
            phase: VolumePhase::Mounted,
            since,
        })?;
        Ok(())
    }

    /// An instance is there.
    pub fn attach(
        &mut self,
        name: Name,
        altitude: Altitude,
        (filter, volume): (u8, u8),
        phase: Phase,
        since: u32,
    ) -> Result<(), AllocError> {
        if let Ok(instance) = u16::try_from(self.instances.len()) {
            self.change(since, instance, phase)?;
        }
        self.instances.push(InstanceNote {
            name,
            altitude,
            filter,
            volume,
            phase,
            since,
            started: (0, 0),
        })?;
        Ok(())
    }

    // The life of an instance came so far.
    fn change(&mut self, line: u32, instance: u16, phase: Phase) -> Result<(), AllocError> {
        self.changes.push(Change {
            line,
            instance,
            phase,
        })?;
        Ok(())
    }

    /// An operation began, that does this.
    pub fn begin(&mut self, line: u32, what: What) -> Result<(), AllocError> {
        self.operations.push(OperationNote { what, line })?;
        Ok(())
    }

    /// A context was allocated by a callback of that instance.
    pub fn allocate(
        &mut self,
        line: u32,
        kind: ContextKind,
        instance: u16,
    ) -> Result<(), AllocError> {
        self.contexts.push(ContextNote {
            kind,
            instance,
            line,
            set: 0,
        })?;
        Ok(())
    }

    /// A context was set.
    pub fn set(&mut self, line: u32, context: u64) {
        if let Ok(at) = usize::try_from(context) {
            if let Some(note) = self.contexts.get_mut(at) {
                note.set = line;
            }
        }
    }

    /// A reply of success was handed out: a create's handle is open, and a close's isn't any more.
    pub fn reply(&mut self, operation: u64, information: u64) -> Result<(), AllocError> {
        match self.what(Some(operation)) {
            Some(What::Create(volume, ..)) => {
                let volume = *volume;
                self.opened.push((information, volume))?;
                self.handles.push(information)?;
            }
            Some(What::Close(handle)) => {
                let handle = *handle;
                self.close(handle);
            }
            _ => {}
        }
        Ok(())
    }

    /// What an operation does, if it is there.
    pub fn what(&self, operation: Option<u64>) -> Option<&What> {
        let at = usize::try_from(operation?).ok()?;
        match self.operations.get(at) {
            Some(note) => Some(&note.what),
            None => None,
        }
    }

    /// The volume that a request is on: as it says itself, or that of its handle's create.
    pub fn volume_of_request(&self, what: &What) -> Option<u8> {
        if let What::Create(volume, ..) | What::List(volume) | What::OtherV(volume, ..) = what {
            return Some(*volume);
        }
        let handle = what.handle()?;
        let found = self.opened.iter().find(|(other, _)| *other == handle)?;
        Some(found.1)
    }

    /// The volume that an operation is on.
    pub fn volume_of(&self, operation: u64) -> Option<u8> {
        self.volume_of_request(self.what(Some(operation))?)
    }

    /// A handle isn't open any more.
    pub fn close(&mut self, handle: u64) {
        self.handles.retain(|other| *other != handle);
    }

    /// A reference was left behind by the callback that returned there.
    pub fn leak(&mut self, context: u64, place: Place, line: u32) -> Result<(), AllocError> {
        self.leaks.push(LeakNote {
            context,
            place,
            line,
        })?;
        Ok(())
    }

    /// Notes of an event what needs no more than its facts: where a worker came to, a teardown's start, a reply, a refusal.
    pub fn note(&mut self, line: u32, event: &Event) -> Result<(), AllocError> {
        if event.kind.is_entry() {
            self.move_worker(line, event.facts.worker);
        }
        let Some(status) = event.facts.status else {
            self.start(line, event);
            return Ok(());
        };
        match (event.kind, event.facts.operation) {
            (Kind::Refused, _) => self.refuse(status),
            (Kind::Replied, Some(operation)) if status == Status::Success => {
                self.reply(operation, event.facts.number)?
            }
            _ => {}
        }
        Ok(())
    }

    // A worker came to where it is.
    fn move_worker(&mut self, line: u32, worker: Option<u64>) {
        let Some(worker) = worker else {
            return;
        };
        if let Ok(at) = usize::try_from(worker) {
            if let Some(since) = self.workers.get_mut(at) {
                *since = line;
            }
        }
    }

    // A teardown starts, or its start is over.
    fn start(&mut self, line: u32, event: &Event) {
        let is_over = match event.kind {
            Kind::InStart => false,
            Kind::Started => true,
            _ => return,
        };
        let Some(instance) = event.facts.instance else {
            return;
        };
        if let Ok(at) = usize::try_from(instance) {
            if let Some(note) = self.instances.get_mut(at) {
                note.started = started_at(note.started, line, is_over);
            }
        }
    }

    /// Notes how far the life of each filter, volume and instance is.
    pub fn follow(&mut self, line: u32, state: &State) -> Result<(), AllocError> {
        for at in 0..self.instances.len() {
            if let Some((instance, phase)) = phase_at(state, at) {
                self.follow_instance(line, at, instance, phase)?;
            }
        }
        self.follow_filters(line, state);
        self.follow_volumes(line, state);
        Ok(())
    }

    // An instance's life is so far.
    fn follow_instance(
        &mut self,
        line: u32,
        at: usize,
        instance: u16,
        phase: Phase,
    ) -> Result<(), AllocError> {
        let Some(note) = self.instances.get_mut(at) else {
            return Ok(());
        };
        if note.phase == phase {
            return Ok(());
        }
        note.phase = phase;
        note.since = line;
        self.change(line, instance, phase)
    }

    fn follow_filters(&mut self, line: u32, state: &State) {
        for (at, note) in self.filters.iter_mut().enumerate() {
            if let Some(phase) = filter_phase_at(state, at) {
                come_to(note, phase, line);
            }
        }
    }

    fn follow_volumes(&mut self, line: u32, state: &State) {
        for (at, note) in self.volumes.iter_mut().enumerate() {
            if let Some(phase) = volume_phase_at(state, at) {
                come_to(note, phase, line);
            }
        }
    }

    /// The line on which a worker came to where it is.
    pub fn since(&self, worker: WorkerId) -> u32 {
        match self.workers.get(usize::from(worker.0)) {
            Some(line) => *line,
            None => 0,
        }
    }
}

// The lines of a teardown's start: that on which it began, and that on which it was over.
fn started_at((started, _): (u32, u32), line: u32, is_over: bool) -> (u32, u32) {
    if is_over { (started, line) } else { (line, 0) }
}

// A filter's or a volume's life is so far.
fn come_to<P: Copy + PartialEq>(note: &mut Loaded<P>, phase: P, line: u32) {
    if phase != note.phase {
        note.phase = phase;
        note.since = line;
    }
}

fn phase_at(state: &State, at: usize) -> Option<(u16, Phase)> {
    let instance = u16::try_from(at).ok()?;
    Some((instance, state.phase(InstanceId(instance))?))
}

fn filter_phase_at(state: &State, at: usize) -> Option<FilterPhase> {
    state.filter_phase(FilterId(u8::try_from(at).ok()?))
}

fn volume_phase_at(state: &State, at: usize) -> Option<VolumePhase> {
    state.volume_phase(VolumeId(u8::try_from(at).ok()?))
}

/// What a request does.
pub fn what_of(request: &Request) -> Result<What, AllocError> {
    match request {
        Request::Create { volume, path, mode } => {
            Ok(What::Create(volume.0, path.share()?, *mode))
        }
        Request::List { volume } => Ok(What::List(volume.0)),
        Request::OnVolume {
            volume,
            major,
            number,
        } => { Ok(What::OtherV(volume.0, *major, *number)) }
        Request::OnHandle { handle, request } => Ok(what_on(handle.0, request)),
    }
}

// The offset behind so many bytes.
fn behind(offset: u64, len: u64) -> u64 {
    offset.saturating_add(len)
}

fn what_on(handle: u64, request: &FileRequest) -> What {
    match request {
        FileRequest::Read { offset, len } => {
            What::Read(handle, *offset, behind(*offset, u64::from(*len)))
        }
        FileRequest::Write { offset, bytes } => {
            What::Write(handle, *offset, behind(*offset, bytes.len() as u64))
        }
        FileRequest::QuerySize => What::Size(handle),
        FileRequest::SetSize { size } => What::SetSize(handle, *size),
        FileRequest::Flush => What::Flush(handle),
        FileRequest::SetDelete => What::Delete(handle),
        FileRequest::Restore => What::Restore(handle),
        FileRequest::Cleanup => What::Cleanup(handle),
        FileRequest::Close => What::Close(handle),
        FileRequest::Other { major, number } => What::Other(handle, *major, *number),
    }
}
