//! Streams and handles.

ghost use Rattle.std.specs.Prelude.{◌≡◌, ℕ, ◌<◌, ◌≤◌, ◌+◌, ◌-◌, ◌^◌, true, false, cond, Some, IfOk, OnOk, All, AllPairs, length, count_by, option_copied, option_map, find, position, slice_index_or, IfSome, vec_capacity};
ghost use Rattle.fm_core.specs.FileNames.{AreNamed, name_of};
ghost use Rattle.fm_types.specs.Lists.{change_first, without_first};
ghost use Rattle.fm_world.specs.Files.{empty_files, is_handle, is_stream, is_on, with_phase, with_mark, stream_at, handle_at, has_handle_on, has_other_handle, is_marked, created, phased, marked, opened, closed, torn_down, left, after_base};
ghost use Rattle.fm_world.specs.Dismounts.{is_of, handles_on, lowest_on};
ghost use Rattle.fm_types.specs.declared.operation.Operation.TheVariants as kind;
ghost use Rattle.fm_operations.specs.Answered.{is_success};
ghost use Rattle.fm_core.specs.FilesKept.{paths_of, found_at, stream_or, IsBefore, IsOlder, AreCounted, changed_at, without_at, is_own};
ghost use Rattle.fm_core.specs.Targets.{opens};

use crate::file_name::{FileName, forget, look_up, note};
use crate::target::Target;
use fm_types::limits::HANDLES;
use fm_types::{HandleId, Role, SharedPath, Status, StreamId, VolumeId};
use fm_world::{FileHandle, FileStream, HandlePhase};
use std::alloc::{AllocError, Global};
use std::collections::HashMap;
use std::marker::Model;

/// A path with an owner for each that a create has: the stream and its file's name, where the create
/// brings a stream along, the operation, and its parameters; and the stream that the file has already.
#[derive(Drop)]
pub(crate) struct CreatePaths {
    pub name: FileName,
    pub stream: SharedPath,
    pub operation: SharedPath,
    pub params: SharedPath,
    pub found: Option<StreamId>,
}

impl CreatePaths {
    /// The stream of the path, which a create of that number brings along where there is none.
    pub(crate) fn stream_for(&self, number: u64) -> StreamId
        ensures { result ≡ stream_or number self.now.found }
    {
        match self.found {
            Some(stream) => stream,
            None => StreamId(number),
        }
    }
}

/// The streams in the order of their creates, and the open handles in the order of their numbers.
#[derive(Drop)]
pub(crate) struct Files {
    streams: Vec<FileStream>,
    /// How many handles are open on the stream of each place.
    opens: Vec<u32>,
    /// The stream of each file that has one. The table's seed is fixed: paths that are chosen with hashes alike make a create as slow as a walk, and nothing else.
    numbers: HashMap<FileName, StreamId>,
    handles: Vec<FileHandle>,
    next: u64,
}

impl Model for Files {
    ghost use Rattle.std.specs.Prelude.{◌+◌, length, vec_capacity};
    ghost use Rattle.std.specs.HashMap.{spare};
    ghost use Rattle.fm_core.specs.FilesKept.{AreKept, FilesKept, kept_in, room_in};

    ghost Value = { FilesKept };

    ghost view = { λ f. record {
      table = kept_in f.streams.items f.handles.items f.next;
      room = room_in (vec_capacity f.streams) (vec_capacity f.opens) (length f.streams.items + spare f.numbers);
    } };

    ghost invariant = { λ f. AreKept (kept_in f.streams.items f.handles.items f.next) f.opens.items f.numbers (vec_capacity f.handles) };
}

impl Files {
    /// No stream and no handle, with room for all handles; the error says that memory was refused.
    pub(crate) fn new(alloc: Global) -> Result<Files, AllocError>
        ensures { IfOk result (λ files. files.table ≡ empty_files) }
    {
        Ok(Files {
            streams: Vec::new(alloc),
            opens: Vec::new(alloc),
            numbers: HashMap::new(alloc),
            handles: Vec::with_capacity(alloc, HANDLES)?,
            next: 0,
        })
    }

    /// How many handles are open.
    pub(crate) fn handles(&self) -> usize
        ensures { result ≡ length self.now.table.handles }
    {
        self.handles.len()
    }

    /// The number that the next handle gets.
    pub(crate) fn next_number(&self) -> u64
        ensures result { result ≡ self.now.table.next }
        ensures number { self.now.table.next < 2 ^ 64 }
    {
        self.next
    }

    /// An open handle.
    pub(crate) fn handle(&self, handle: HandleId) -> Option<FileHandle>
        ensures { result ≡ handle_at handle self.now.table }
    {
        handle_in(&self.handles, handle).copied()
    }

    /// A stream that wasn't torn down.
    pub(crate) fn stream(&self, stream: StreamId) -> Option<&FileStream>
        ensures { option_copied result ≡ stream_at stream self.now.table }
    {
        stream_in(&self.streams, stream)
    }

    /// The volume of a stream that wasn't torn down.
    pub(crate) fn volume_of(&self, stream: StreamId) -> Option<VolumeId>
        ensures { result ≡ option_map (λ (row : FileStream). row.volume) (stream_at stream self.now.table) }
    {
        match self.stream(stream) {
            Some(row) => Some(row.volume),
            None => None,
        }
    }

    // Whether a stream is of the volume.
    fn is_of(&self, stream: StreamId, volume: VolumeId) -> bool
        ensures { result ≡ is_of volume (stream_at stream self.now.table) }
    {
        match self.stream(stream) {
            Some(row) => row.volume.0 == volume.0,
            None => false,
        }
    }

    /// How many handles are open on a volume.
    pub(crate) fn handles_on(&self, volume: VolumeId) -> usize
        ensures { result ≡ handles_on volume self.now.table }
    {
        self.handles
            .iter()
            .filter(|row| self.is_of(row.stream, volume))
            .count()
    }

    /// The lowest handle that is open on a volume.
    pub(crate) fn lowest_on(&self, volume: VolumeId) -> Option<&FileHandle>
        ensures { option_copied result ≡ lowest_on volume self.now.table }
    {
        self.handles
            .iter()
            .find(|row| self.is_of(row.stream, volume))
    }

    /// Whether a stream's file is to be unlinked.
    pub(crate) fn is_marked(&self, stream: StreamId) -> bool
        ensures { result ≡ is_marked stream self.now.table }
    {
        match self.stream(stream) {
            Some(row) => row.is_marked,
            None => false,
        }
    }

    /// Whether a handle is open on the stream.
    #[tactic(auto, using(crate::proofs::Counted::any_counted))]
    pub(crate) fn has_handle_on(&self, stream: StreamId) -> bool
        ensures { result ≡ has_handle_on stream self.now.table }
    {
        opens_on(&self.streams, &self.opens, &self.handles, stream) > 0
    }

    /// Whether a handle but that one is open on the stream.
    #[tactic(auto, using(crate::proofs::Counted::others_counted))]
    pub(crate) fn has_other_handle(&self, stream: StreamId, handle: HandleId) -> bool
        ensures { result ≡ has_other_handle stream handle self.now.table }
    {
        let own = own_on(self.handle(handle), stream);
        opens_on(&self.streams, &self.opens, &self.handles, stream) > own
    }

    /// The path of a stream that wasn't torn down, with one more owner; the error says that no more can
    /// be counted.
    pub(crate) fn path_of(&self, stream: StreamId) -> Result<Option<SharedPath>, AllocError>
        ensures { IfOk result (λ path. path ≡ option_map (λ (row : FileStream). row.path) (stream_at stream self.now.table)) }
    {
        match self.stream(stream) {
            Some(row) => Ok(Some(row.path.share()?)),
            None => Ok(None),
        }
    }

    // Makes room for one more stream. The error says that memory was refused.
    fn reserve(&mut self) -> Result<(), AllocError>
        ensures table { self.new.table ≡ self.old.table }
        ensures room { OnOk result (length self.new.table.streams < self.new.room) }
    {
        self.streams.try_reserve(1)?;
        self.opens.try_reserve(1)?;
        self.numbers.try_reserve(1)
    }

    // A file's path with its owners. Where the file has a stream, they share its path.
    fn paths_for(&self, name: FileName) -> Result<CreatePaths, AllocError>
        ensures { IfOk result (λ paths. paths ≡ paths_of name.volume name.path (found_at name.volume name.path self.now.table)) }
    {
        let volume = name.volume;
        let (found, stream) = look_up(&self.numbers, name)?;
        let path = stream.share()?;
        let operation = stream.share()?;
        let params = stream.share()?;
        Ok(CreatePaths {
            name: FileName { volume, path },
            stream,
            operation,
            params,
            found,
        })
    }

    /// Makes room for one more stream, and gives a path its owners. Where its file has a stream, it is
    /// shared with that. The error says that memory was refused.
    pub(crate) fn prepare(
        &mut self,
        volume: VolumeId,
        path: SharedPath,
    ) -> Result<CreatePaths, AllocError>
        ensures table { self.new.table ≡ self.old.table }
        ensures room { OnOk result (length self.new.table.streams < self.new.room) }
        ensures paths { IfOk result (λ paths. paths ≡ paths_of volume path (found_at volume path self.old.table)) }
    {
        self.reserve()?;
        self.paths_for(FileName { volume, path })
    }

    /// A create of that number begins on a file: where it has no stream yet, the create brings one along.
    pub(crate) fn create(
        &mut self,
        name: FileName,
        path: SharedPath,
        found: Option<StreamId>,
        number: u64,
    )
        requires path { path ≡ name.path }
        requires found { found ≡ found_at name.volume name.path self.old.table }
        requires room { length self.old.table.streams < self.old.room }
        requires fresh { All (λ (x : FileStream). x.number.0 < number) self.old.table.streams }
        requires unused { has_handle_on (record { 0 = number }) self.old.table ≡ false }
        ensures { self.new.table ≡ created name.volume name.path number self.old.table }
    {
        if found.is_none() {
            let stream = StreamId(number);
            self.streams.push_reserved(FileStream {
                number: stream,
                volume: name.volume,
                path,
                is_marked: false,
            });
            self.opens.push_reserved(0);
            note(&mut self.numbers, name, stream);
        }
    }

    /// A handle's end goes on.
    pub(crate) fn set_phase(&mut self, handle: HandleId, phase: HandlePhase)
        ensures { self.new.table ≡ phased handle phase self.old.table }
    {
        phase_in(&mut self.handles, handle, phase);
    }

    /// A file is to be unlinked, or isn't any more.
    fn mark(&mut self, stream: StreamId, is_marked: bool)
        ensures { self.new.table ≡ marked is_marked stream self.old.table }
    {
        mark_in(&mut self.streams, stream, is_marked);
    }

    /// A create succeeded: it gives a handle.
    fn open(&mut self, stream: StreamId)
        requires room { length self.old.table.handles < 4096 }
        requires number { self.old.table.next < 2 ^ 64 - 1 }
        ensures { self.new.table ≡ opened stream self.old.table }
    {
        add_open(&self.streams, &mut self.opens, stream);
        self.handles.push_reserved(FileHandle {
            number: HandleId(self.next),
            stream,
            phase: HandlePhase::Open,
        });
        self.next += 1;
    }

    /// A handle closes.
    fn close(&mut self, handle: HandleId)
        ensures { self.new.table ≡ closed handle self.old.table }
    {
        if let Some(row) = close_in(&mut self.handles, handle) {
            take_open(&self.streams, &mut self.opens, row.stream);
        }
    }

    /// A stream without a handle, and without a create under way, is torn down.
    pub(crate) fn leave(&mut self, stream: StreamId, is_created: bool)
        ensures { self.new.table ≡ left stream is_created self.old.table }
    {
        if !(self.has_handle_on(stream) || is_created) {
            tear_in(
                &mut self.streams,
                &mut self.opens,
                &mut self.numbers,
                stream,
            );
        }
    }

    /// The base answered an operation. `is_created` says whether another create of its stream is under
    /// way.
    pub(crate) fn answer(&mut self, target: Target, status: Status, is_created: bool)
        requires room { opens target status ≡ true → length self.old.table.handles < 4096 }
        requires number { opens target status ≡ true → self.old.table.next < 2 ^ 64 - 1 }
        ensures { self.new.table ≡ after_base target.operation target.stream target.handle status is_created self.old.table }
    {
        let Some(stream) = target.stream else {
            return;
        };
        match target.operation.role() {
            Role::Opens => self.answer_create(stream, status, is_created),
            Role::Marks => self.answer_marking(stream, true, status),
            Role::Unmarks => self.answer_marking(stream, false, status),
            Role::Closes => self.answer_close(stream, target.handle, is_created),
            Role::Uses | Role::CleansUp => {}
        }
    }

    fn answer_create(&mut self, stream: StreamId, status: Status, is_created: bool)
        requires room { is_success status ≡ true → length self.old.table.handles < 4096 }
        requires number { is_success status ≡ true → self.old.table.next < 2 ^ 64 - 1 }
        ensures { self.new.table ≡ cond (is_success status) (opened stream self.old.table) (left stream is_created self.old.table) }
    {
        if is_success(status) {
            self.open(stream);
        } else {
            self.leave(stream, is_created);
        }
    }

    fn answer_marking(&mut self, stream: StreamId, is_marked: bool, status: Status)
        ensures { self.new.table ≡ cond (is_success status) (marked is_marked stream self.old.table) self.old.table }
    {
        if is_success(status) {
            self.mark(stream, is_marked);
        }
    }

    fn answer_close(&mut self, stream: StreamId, handle: Option<HandleId>, is_created: bool)
        ensures { self.new.table ≡ after_base kind.Close (Some stream) handle Status.Success is_created self.old.table }
    {
        if let Some(handle) = handle {
            self.close(handle);
            self.leave(stream, is_created);
        }
    }
}

fn is_success(status: Status) -> bool
    ensures { result ≡ is_success status }
{
    matches!(status, Status::Success)
}

// By halves: the numbers rise.
fn search_handle(handles: &[FileHandle], handle: HandleId) -> Option<usize>
    requires { AllPairs IsOlder handles.now }
    ensures { result ≡ position (is_handle handle) handles.now }
{
    handles
        .binary_search_by_key(&handle.0, |row| row.number.0)
        .ok()
}

// Mostly it is the last one.
fn index_of_handle(handles: &[FileHandle], handle: HandleId) -> Option<usize>
    requires { AllPairs IsOlder handles.now }
    ensures { result ≡ position (is_handle handle) handles.now }
{
    let count = handles.len();
    if count > 0 && handles[count - 1].number.0 == handle.0 {
        return Some(count - 1);
    }
    search_handle(handles, handle)
}

#[tactic(auto, using(fm_types::proofs::Firsts::absent))]
fn handle_in(handles: &[FileHandle], handle: HandleId) -> Option<&FileHandle>
    requires { AllPairs IsOlder handles.now }
    ensures { option_copied result ≡ find (is_handle handle) handles.now }
{
    match index_of_handle(handles, handle) {
        Some(at) => Some(&handles[at]),
        None => None,
    }
}

// By halves: the numbers rise.
fn search_stream(streams: &[FileStream], stream: StreamId) -> Option<usize>
    requires { AllPairs IsBefore streams.now }
    ensures { result ≡ position (is_stream stream) streams.now }
{
    streams
        .binary_search_by_key(&stream.0, |row| row.number.0)
        .ok()
}

// Mostly it is the last one.
fn index_of_stream(streams: &[FileStream], stream: StreamId) -> Option<usize>
    requires { AllPairs IsBefore streams.now }
    ensures { result ≡ position (is_stream stream) streams.now }
{
    let count = streams.len();
    if count > 0 && streams[count - 1].number.0 == stream.0 {
        return Some(count - 1);
    }
    search_stream(streams, stream)
}

#[tactic(auto, using(fm_types::proofs::Firsts::absent))]
fn stream_in(streams: &[FileStream], stream: StreamId) -> Option<&FileStream>
    requires { AllPairs IsBefore streams.now }
    ensures { option_copied result ≡ find (is_stream stream) streams.now }
{
    match index_of_stream(streams, stream) {
        Some(at) => Some(&streams[at]),
        None => None,
    }
}

fn phase_in(handles: &mut Vec<FileHandle>, handle: HandleId, phase: HandlePhase)
    requires { AllPairs IsOlder handles.old.items }
    ensures items { handles.new.items ≡ change_first (is_handle handle) (with_phase phase) handles.old.items }
    ensures capacity { vec_capacity handles.new ≡ vec_capacity handles.old }
{
    if let Some(at) = index_of_handle(handles, handle) {
        handles[at].phase = phase;
    }
}

fn mark_in(streams: &mut Vec<FileStream>, stream: StreamId, is_marked: bool)
    requires { AllPairs IsBefore streams.old.items }
    ensures { streams.new.items ≡ change_first (is_stream stream) (with_mark is_marked) streams.old.items }
{
    if let Some(at) = index_of_stream(streams, stream) {
        streams[at].is_marked = is_marked;
    }
}

fn close_in(handles: &mut Vec<FileHandle>, handle: HandleId) -> Option<FileHandle>
    requires { AllPairs IsOlder handles.old.items }
    ensures found { result ≡ find (is_handle handle) handles.old.items }
    ensures items { handles.new.items ≡ without_first (is_handle handle) handles.old.items }
    ensures capacity { vec_capacity handles.new ≡ vec_capacity handles.old }
{
    match index_of_handle(handles, handle) {
        Some(at) => Some(handles.remove(at)),
        None => None,
    }
}

fn tear_in(
    streams: &mut Vec<FileStream>,
    opens: &mut Vec<u32>,
    numbers: &mut HashMap<FileName, StreamId>,
    stream: StreamId,
)
    requires rising { AllPairs IsBefore streams.old.items }
    requires places { length opens.old.items ≡ length streams.old.items }
    requires named { AreNamed streams.old.items numbers.old }
    ensures streams { streams.new.items ≡ without_first (is_stream stream) streams.old.items }
    ensures opens { opens.new.items ≡ without_at (position (is_stream stream) streams.old.items) opens.old.items }
    ensures named { AreNamed streams.new.items numbers.new }
{
    if let Some(at) = index_of_stream(streams, stream) {
        opens.remove(at);
        let row = streams.remove(at);
        forget(numbers, &file_of(row));
    }
}

fn file_of(row: FileStream) -> FileName
    ensures { result ≡ name_of row }
{
    FileName {
        volume: row.volume,
        path: row.path,
    }
}

/// How many of the handles on a stream are that one.
fn own_on(handle: Option<FileHandle>, stream: StreamId) -> usize
    ensures { result ≡ cond (is_own stream handle) 1 0 }
{
    match handle {
        Some(row) if row.stream.0 == stream.0 => 1,
        Some(_) | None => 0,
    }
}

/// How many handles are open on a stream.
fn opens_on(
    streams: &[FileStream],
    opens: &[u32],
    handles: &[FileHandle],
    stream: StreamId,
) -> usize
    requires rising { AllPairs IsBefore streams.now }
    requires counted { AreCounted streams.now handles.now opens.now }
    ensures { result ≡ count_by (is_on stream) handles.now }
{
    match index_of_stream(streams, stream) {
        Some(at) => opens[at] as usize,
        None => handles
            .iter()
            .filter(|row| row.stream.0 == stream.0)
            .count(),
    }
}

/// One more handle is open on a stream.
fn add_open(streams: &[FileStream], opens: &mut Vec<u32>, stream: StreamId)
    requires rising { AllPairs IsBefore streams.now }
    requires places { length opens.old.items ≡ length streams.now }
    requires few { All (λ n. n < 4096) opens.old.items }
    ensures items { opens.new.items ≡ changed_at (λ n. n + 1) (position (is_stream stream) streams.now) opens.old.items }
    ensures capacity { vec_capacity opens.new ≡ vec_capacity opens.old }
{
    if let Some(at) = index_of_stream(streams, stream) {
        opens[at] += 1;
    }
}

/// One handle less is open on a stream.
fn take_open(streams: &[FileStream], opens: &mut Vec<u32>, stream: StreamId)
    requires rising { AllPairs IsBefore streams.now }
    requires places { length opens.old.items ≡ length streams.now }
    requires some { IfSome (position (is_stream stream) streams.now) (λ k. 1 ≤ slice_index_or opens.old.items k 0) }
    ensures items { opens.new.items ≡ changed_at (λ n. n - 1) (position (is_stream stream) streams.now) opens.old.items }
    ensures capacity { vec_capacity opens.new ≡ vec_capacity opens.old }
{
    if let Some(at) = index_of_stream(streams, stream) {
        opens[at] -= 1;
    }
}
