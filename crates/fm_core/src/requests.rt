//! Requests: how operations begin.

ghost use Rattle.std.specs.Prelude.{◌≡◌, ◌<◌, All, ◌||◌, ◌∷◌, false, cond, Some, None, OnErr, length};
ghost use Rattle.fm_types.specs.Refusals.{first_of};
ghost use Rattle.fm_stack.specs.Events.{is_mounted_phase};
ghost use Rattle.fm_callback_data.specs.Params.{operation_of};
ghost use Rattle.fm_operations.specs.Creates.{is_create};
ghost use Rattle.fm_operations.specs.Table.{is_full};
ghost use Rattle.fm_world.specs.Requests.{is_late_use, is_use, phase_refusal, phase_refusal_at};
ghost use Rattle.fm_world.specs.Files.{created, has_handle_on};
ghost use Rattle.fm_world.specs.declared.file.FileStream.{FileStream};
ghost use Rattle.fm_world.specs.Events.{Begins, BeginsAt, has_no_handle_left, moved_on, volume_refusals};
ghost use Rattle.fm_world.specs.Hands.{KeepsHands};
ghost use Rattle.fm_core.specs.FilesKept.{found_at};
ghost use Rattle.fm_core.specs.Begun.{Asks, IsAsked, IsAskedOr, refusal_by};

use crate::file_name::FileName;
use crate::files::Files;
use crate::state::State;
use fm_callback_data::{Params, Request};
use fm_operations::Flow;
use fm_stack::VolumePhase;
use fm_types::limits::HANDLES;
use fm_types::{
    CreateMode, HandleId, Major, OpId, Operation, Role, SharedPath, Status, StreamId, VolumeId,
};
use fm_world::{FileHandle, HandlePhase};

/// Whether a volume in that phase is in use.
fn is_mounted(phase: VolumePhase) -> bool
    ensures { result ≡ is_mounted_phase phase }
{
    matches!(phase, VolumePhase::Mounted)
}

/// What refuses an operation on a volume in that phase.
fn refusal_by(phase: Option<VolumePhase>, is_too_many: bool) -> Option<Status>
    ensures { result ≡ refusal_by phase is_too_many }
{
    match phase {
        None => Some(Status::NoVolume),
        Some(phase) if !is_mounted(phase) => Some(Status::Dismounting),
        Some(_) if is_too_many => Some(Status::TooMany),
        Some(_) => None,
    }
}

/// What a handle's phase refuses.
fn phase_refusal(flow: &Flow, operation: Operation, phase: HandlePhase) -> Option<Status>
    ensures { result ≡ phase_refusal flow.now operation phase }
{
    match operation.role() {
        Role::CleansUp => match phase {
            HandlePhase::Open => None,
            HandlePhase::CleaningUp(_) | HandlePhase::Closing => Some(Status::WrongStep),
        },
        Role::Closes => match phase {
            HandlePhase::Open => Some(Status::WrongStep),
            HandlePhase::CleaningUp(cleanup) => {
                if flow.is_over(cleanup) {
                    None
                } else {
                    Some(Status::WrongStep)
                }
            }
            HandlePhase::Closing => Some(Status::NoHandle),
        },
        Role::Opens | Role::Uses | Role::Marks | Role::Unmarks => match phase {
            HandlePhase::Open => None,
            HandlePhase::CleaningUp(_) | HandlePhase::Closing => Some(Status::NoHandle),
        },
    }
}

/// Whether an operation only uses the file that its handle is on.
fn is_use(operation: Operation) -> bool
    ensures { result ≡ is_use operation }
{
    matches!(operation.role(), Role::Uses)
}

/// Whether a filter asks for such an operation between a handle's cleanup and its close.
fn is_late_use(is_lower: bool, operation: Operation, phase: HandlePhase) -> bool
    ensures { result ≡ is_late_use is_lower operation phase }
{
    match phase {
        HandlePhase::CleaningUp(_) => is_lower && is_use(operation),
        HandlePhase::Open | HandlePhase::Closing => false,
    }
}

/// What a handle's phase refuses of an operation that a client asks for, or a filter, which is lower.
fn phase_refusal_at(
    flow: &Flow,
    is_lower: bool,
    operation: Operation,
    phase: HandlePhase,
) -> Option<Status>
    ensures { result ≡ phase_refusal_at is_lower flow.now operation phase }
{
    if is_late_use(is_lower, operation, phase) {
        None
    } else {
        phase_refusal(flow, operation, phase)
    }
}

/// A create that began is on its path's stream.
fn note_create(
    files: &mut Files,
    has_begun: bool,
    name: FileName,
    path: SharedPath,
    found: Option<StreamId>,
    number: u64,
)
    requires path { path ≡ name.path }
    requires found { found ≡ found_at name.volume name.path files.old.table }
    requires room { length files.old.table.streams < files.old.room }
    requires fresh { All (λ (x : FileStream). x.number.0 < number) files.old.table.streams }
    requires unused { has_handle_on (record { 0 = number }) files.old.table ≡ false }
    ensures { files.new.table ≡ cond has_begun (created name.volume name.path number files.old.table) files.old.table }
{
    if has_begun {
        files.create(name, path, found, number);
    }
}

/// An operation that began on a handle moves the handle's end on, where it is a cleanup or a close.
fn note_begin(
    files: &mut Files,
    has_begun: bool,
    operation: Operation,
    handle: HandleId,
    number: u64,
)
    ensures { files.new.table ≡ cond has_begun (moved_on operation handle number files.old.table) files.old.table }
{
    if has_begun {
        move_on(files, operation, handle, number);
    }
}

fn move_on(files: &mut Files, operation: Operation, handle: HandleId, number: u64)
    ensures { files.new.table ≡ moved_on operation handle number files.old.table }
{
    match operation.role() {
        Role::CleansUp => files.set_phase(handle, HandlePhase::CleaningUp(OpId(number))),
        Role::Closes => files.set_phase(handle, HandlePhase::Closing),
        Role::Opens | Role::Uses | Role::Marks | Role::Unmarks => {}
    }
}

impl State {
    /// Begins an operation, and takes all memory that it will ever need. It visits the instances that are attached now. Refused, nothing changed, in
    /// this order: 32 where a length is above 32,768 bytes, or an end or a size above 2^40; 7 where the volume isn't there, or 14 where the handle isn't
    /// open, is past its cleanup (for all but a close) or has begun its close; 30 for a second cleanup, and for a close before the cleanup is done;
    /// 33 where the volume is dismounting; 29 at 256 operations that weren't collected, at 4,096 handles with those that creates under way may give,
    /// and where numbers run out; 1.
    #[tactic(auto, unfolding(fm_world::specs::Events::Begins))]
    pub fn begin(&mut self, what: Request) -> Result<OpId, Status>
        ensures event { Begins self.old what result self.new }
        ensures hand { KeepsHands self.old self.new }
    {
        self.begin_at(false, what)
    }

    /// Begins an operation for a client, or for a filter, which is lower.
    #[tactic(auto, using(fm_world::proofs::Requests::begin_at_does))]
    pub(crate) fn begin_at(&mut self, is_lower: bool, what: Request) -> Result<OpId, Status>
        ensures event { BeginsAt is_lower self.old what result self.new }
        ensures hand { KeepsHands self.old self.new }
    {
        match what {
            Request::List { volume } => self.begin_list(volume),
            Request::OnVolume {
                volume,
                major,
                number,
            } => self.begin_other(volume, major, number),
            Request::Create { volume, path, mode } => self.begin_create(volume, path, mode),
            Request::OnHandle { handle, request } => self.begin_on(
                is_lower,
                handle,
                request.into_params(),
            ),
        }
    }

    /// What refuses an operation on a volume, before want of memory.
    fn volume_refusal(&self, volume: VolumeId, is_too_many: bool) -> Option<Status>
        ensures { result ≡ first_of (volume_refusals self.now volume is_too_many) }
    {
        refusal_by(self.stack.volume_phase(volume), is_too_many)
    }

    /// Begins a listing.
    #[tactic(auto, unfolding(fm_world::specs::Events::Begins))]
    fn begin_list(&mut self, volume: VolumeId) -> Result<OpId, Status>
        ensures { Begins self.old (Request.List volume) result self.new }
    {
        if let Some(refusal) = self.volume_refusal(volume, self.flow.is_full()) {
            return Err(refusal);
        }
        self.flow.begin(volume, None, None, self.stack.births(), None, Params::List)
    }

    /// Begins what a major function without a kind of its own asks of a volume.
    #[tactic(auto, unfolding(fm_world::specs::Events::Begins))]
    fn begin_other(&mut self, volume: VolumeId, major: Major, number: u64) -> Result<OpId, Status>
        ensures { Begins self.old (Request.OnVolume volume major number) result self.new }
    {
        if let Some(refusal) = self.volume_refusal(volume, self.flow.is_full()) {
            return Err(refusal);
        }
        let params = Params::Other { major, number };
        self.flow
            .begin(volume, None, None, self.stack.births(), None, params)
    }

    /// Whether a create has no room for its handle, or no number.
    fn has_no_handle_left(&self) -> bool
        ensures { result ≡ has_no_handle_left self.now }
    {
        self.files.handles() + self.flow.creates() >= HANDLES
            || self.files.next_number() == u64::MAX
    }

    /// Whether no create can begin, whatever its volume.
    fn takes_no_create(&self) -> bool
        ensures { result ≡ (is_full self.now.flow || has_no_handle_left self.now) }
    {
        self.flow.is_full() || self.has_no_handle_left()
    }

    /// Begins a create.
    #[tactic(auto, unfolding(fm_world::specs::Events::Begins))]
    fn begin_create(
        &mut self,
        volume: VolumeId,
        path: SharedPath,
        mode: CreateMode,
    ) -> Result<OpId, Status>
        ensures { Begins self.old (Request.Create volume path mode) result self.new }
    {
        if let Some(refusal) = self.volume_refusal(volume, self.takes_no_create()) {
            return Err(refusal);
        }
        self.create_mounted(volume, path, mode)
    }

    /// Begins a create that nothing refuses but want of memory.
    fn create_mounted(
        &mut self,
        volume: VolumeId,
        path: SharedPath,
        mode: CreateMode,
    ) -> Result<OpId, Status>
        requires { first_of (volume_refusals self.old volume (is_full self.old.flow || has_no_handle_left self.old)) ≡ None }
        ensures { Begins self.old (Request.Create volume path mode) result self.new }
    {
        let Ok(paths) = self.files.prepare(volume, path) else {
            return Err(Status::NoMemory);
        };
        let number = self.flow.next_number();
        let stream = paths.stream_for(number);
        let born = self.stack.births();
        let params = Params::Create {
            path: paths.params,
            mode,
        };
        let path = Some(paths.operation);
        let begun = self
            .flow
            .begin(volume, Some(stream), None, born, path, params);
        note_create(
            &mut self.files,
            begun.is_ok(),
            paths.name,
            paths.stream,
            paths.found,
            number,
        );
        begun
    }

    /// The handle and the volume of an operation that nothing refuses but want of memory.
    fn on_handle(
        &self,
        is_lower: bool,
        handle: HandleId,
        params: &Params,
    ) -> Result<(FileHandle, VolumeId), Status>
        ensures { IsAskedOr is_lower self.now handle params.now result }
    {
        if !params.is_within_limits() {
            return Err(Status::BadRequest);
        }
        let Some(row) = self.files.handle(handle) else {
            return Err(Status::NoHandle);
        };
        let Some(volume) = self.files.volume_of(row.stream) else {
            return Err(Status::NoHandle);
        };
        if let Some(refusal) = phase_refusal_at(
            &self.flow,
            is_lower,
            params.operation(),
            row.phase,
        ) {
            return Err(refusal);
        }
        match self.volume_refusal(volume, self.flow.is_full()) {
            Some(refusal) => Err(refusal),
            None => Ok((row, volume)),
        }
    }

    /// Begins an operation on a handle.
    #[tactic(auto, unfolding(crate::specs::Begun::Asks))]
    fn begin_on(&mut self, is_lower: bool, handle: HandleId, params: Params) -> Result<OpId, Status>
        requires { is_create (operation_of params) ≡ false }
        ensures { Asks is_lower self.old handle params result self.new }
    {
        match self.on_handle(is_lower, handle, &params) {
            Ok((row, volume)) => self.begin_asked(is_lower, handle, params, row, volume),
            Err(refusal) => Err(refusal),
        }
    }

    /// Begins an operation on a handle that nothing refuses but want of memory.
    #[tactic(auto, unfolding(crate::specs::Begun::Asks))]
    fn begin_asked(
        &mut self,
        is_lower: bool,
        handle: HandleId,
        params: Params,
        row: FileHandle,
        volume: VolumeId,
    ) -> Result<OpId, Status>
        requires none { is_create (operation_of params) ≡ false }
        requires asked { IsAsked is_lower self.old handle params row volume }
        ensures { Asks is_lower self.old handle params result self.new }
    {
        let Ok(path) = self.files.path_of(row.stream) else {
            return Err(Status::NoMemory);
        };
        let operation = params.operation();
        let number = self.flow.next_number();
        let born = self.stack.births();
        let stream = Some(row.stream);
        let begun = self
            .flow
            .begin(volume, stream, Some(handle), born, path, params);
        note_begin(&mut self.files, begun.is_ok(), operation, handle, number);
        begun
    }
}
