//! What C says of an event: one structure for all of them, and the event that it names.

ghost use Rattle.std.specs.Prelude.{◌≡◌, IfErr, IfOk, None};
ghost use Rattle.fm_types.specs.Majors.{major_at};
ghost use Rattle.kazdrin_c.specs.Named.{attach_named, begun_named, completion_in, context_named, create_mode_named, file_named, kind_named, registration_in, request_named, set_mode_named, hold_named, status_at, step_named, teardown_named, unload_named, routine_named, file_handle_in, post_named, verdict_named, flag_in};
ghost use Rattle.kazdrin_c.specs.Refusals.{Unnamed, Unread, UnreadTexts, takes_memory};

use fm_altitude::Altitude;
use fm_callback_data::{Completion, FileRequest, PostVerdict, PreVerdict, Request};
use fm_core::{BeginsFrom, Hold, SetMode, Step};
use fm_types::{
    Bytes, ContextKind, ContextMask, CreateMode, CtxId, FilterId, HandleId, InstanceId, Major,
    Name, OpId, OpMask, Registration, RelPath, SharedPath, Status, VolumeId, WorkerId,
};
use std::alloc::Global;

/// An event, by its number, with what it is handed. Each event reads the fields that it needs, and no others: `c/include/kazdrin.h` says which.
#[repr(C)]
#[derive(Clone, Copy, Drop)]
pub struct KazdrinEvent {
    pub event: u32,
    pub slot: u32,
    pub generation: u32,
    pub len: u32,
    pub operation: u64,
    pub handle: u64,
    pub offset: u64,
    pub number: u64,
    pub pre: u64,
    pub post: u64,
    pub instance: u16,
    pub contexts: u8,
    pub query: u8,
    pub unload: u8,
    pub worker: u8,
    pub filter: u8,
    pub volume: u8,
    pub kind: u8,
    pub mode: u8,
    pub flag: u8,
    pub status: u8,
}

/// The mode of a create, by its number.
pub fn create_mode_of(number: u8) -> Option<CreateMode>
    ensures { result ≡ create_mode_named number }
{
    match number {
        0 => Some(CreateMode::Existing),
        1 => Some(CreateMode::New),
        2 => Some(CreateMode::Always),
        _ => None,
    }
}

fn kind_of(number: u8) -> Option<ContextKind>
    ensures { result ≡ kind_named number }
{
    match number {
        0 => Some(ContextKind::Volume),
        1 => Some(ContextKind::Instance),
        2 => Some(ContextKind::Stream),
        3 => Some(ContextKind::Handle),
        4 => Some(ContextKind::File),
        _ => None,
    }
}

fn set_mode_of(number: u8) -> Option<SetMode>
    ensures { result ≡ set_mode_named number }
{
    match number {
        0 => Some(SetMode::Keep),
        1 => Some(SetMode::Replace),
        _ => None,
    }
}

fn hold_of(number: u8) -> Option<Hold>
    ensures { result ≡ hold_named number }
{
    match number {
        0 => Some(Hold::Pre),
        1 => Some(Hold::Post),
        _ => None,
    }
}

/// The status of that number; `count` is that of Busy.
pub fn status_of(number: u8, count: u64) -> Option<Status>
    ensures { result ≡ status_at number count }
{
    Status::from_number(number, count)
}

/// The major function of the kit's number.
pub fn major_of(number: u8) -> Option<Major>
    ensures { result ≡ major_at number }
{
    Major::at(u64::from(number))
}

/// What a postoperation's number says.
pub fn post_verdict_of(number: u8) -> Option<PostVerdict>
    ensures { result ≡ post_named number }
{
    match number {
        0 => Some(PostVerdict::Finished),
        1 => Some(PostVerdict::MoreProcessing),
        _ => None,
    }
}

/// What a number names. Refused with 32 if it names nothing.
pub fn named<T>(found: Option<T>) -> Result<T, Status>
    ensures named { IfOk result (λ value. found ≡ Some value) }
    ensures refused { IfErr result (λ status. (status ≡ Status.BadRequest) × (found ≡ None)) }
{
    match found {
        Some(value) => Ok(value),
        None => Err(Status::BadRequest),
    }
}

impl KazdrinEvent {
    fn context(&self) -> CtxId
        ensures { result ≡ record { slot = self.now.slot; generation = self.now.generation } }
    {
        CtxId {
            slot: self.slot,
            generation: self.generation,
        }
    }

    /// Whether its flag is set.
    pub fn is_flagged(&self) -> bool
        ensures { result ≡ flag_in self.now }
    {
        self.flag != 0
    }

    fn registration(&self) -> Registration
        ensures { result ≡ registration_in self.now }
    {
        Registration {
            pre: OpMask(self.pre),
            post: OpMask(self.post),
            contexts: ContextMask(self.contexts),
            query: self.query != 0,
            unload: self.unload != 0,
        }
    }

    fn completion(&self) -> Completion
        ensures { result ≡ completion_in self.now }
    {
        let context = if self.flag != 0 {
            Some(self.context())
        } else {
            None
        };
        Completion {
            number: self.number,
            context,
        }
    }

    /// The verdict of a preoperation that C returned, by its number: 0 with callback, 1 synchronize, 2 no callback, 3 complete with a status, 4 pending.
    pub fn verdict(&self) -> Option<PreVerdict>
        ensures { result ≡ verdict_named self.now }
    {
        match self.mode {
            0 => Some(PreVerdict::WithCallback(self.completion())),
            1 => Some(PreVerdict::Synchronize(self.completion())),
            2 => Some(PreVerdict::NoCallback),
            3 => match status_of(self.status, self.number) {
                Some(status) => Some(PreVerdict::Complete(status)),
                None => None,
            },
            4 => Some(PreVerdict::Pending),
            _ => None,
        }
    }

    /// The operation that begins, by where it does: 0 at the top, for a client; 1 below the event's instance, and 4 at the base, for that instance's filter;
    /// 2 at the base, for the file system; 3 at the top, for the cache or memory manager; none for another number.
    fn begun(&self, what: Request) -> Option<Step>
        ensures { result ≡ begun_named self.now what }
    {
        match self.kind {
            0 => Some(Step::Begin(what)),
            1 => Some(Step::BeginFrom(BeginsFrom::Below(InstanceId(self.instance)), what)),
            2 => Some(Step::BeginFrom(BeginsFrom::FileSystem, what)),
            3 => Some(Step::BeginFrom(BeginsFrom::Top, what)),
            4 => Some(Step::BeginFrom(BeginsFrom::Base(InstanceId(self.instance)), what)),
            _ => None,
        }
    }

    /// The event that the number names, with the bytes that C passed as its text, body or data. Refused with 32 for a number that names none, with 3 or 15
    /// for a text that is no name or no path, and with 1 where memory was refused.
    pub fn step(&self, alloc: Global, bytes: &[u8]) -> Result<Step, Status>
        ensures named { IfOk result (λ step. step_named self.now bytes.now ≡ Some step) }
        ensures refused { IfErr result (λ status. Unread self.now bytes.now (step_named self.now bytes.now) status) }
    {
        let step = match self.event {
            1 => Step::Register {
                name: Name::read(bytes)?,
                registration: self.registration(),
            },
            2 => Step::Mount {
                name: Name::read(bytes)?,
            },
            3 => Step::SetupDone {
                worker: WorkerId(self.worker),
                accept: self.is_flagged(),
            },
            4 => named(self.begun(Request::Create {
                volume: VolumeId(self.volume),
                path: SharedPath::new(alloc, RelPath::read(bytes)?)?,
                mode: named(create_mode_of(self.mode))?,
            }))?,
            5 => named(self.begun(Request::List {
                volume: VolumeId(self.volume),
            }))?,
            51 => named(self.begun(Request::OnVolume {
                volume: VolumeId(self.volume),
                major: named(major_of(self.mode))?,
                number: self.offset,
            }))?,
            52 => Step::ChangeHeld {
                worker: WorkerId(self.worker),
                operation: OpId(self.operation),
                params: self.params_at(u32::from(self.kind), alloc, bytes)?,
            },
            _ => return self.file_step(alloc, bytes),
        };
        Ok(step)
    }

    /// The attachment of the event's filter to its volume. Refused with 3 for a text that is no name, and with 2 for one that is no altitude.
    pub fn attach(&self, name: &[u8], altitude: &[u8]) -> Result<Step, Status>
        ensures named { IfOk result (λ step. attach_named self.now name.now altitude.now ≡ step) }
        ensures refused { IfErr result (λ status. UnreadTexts name.now altitude.now status) }
    {
        Ok(Step::Attach {
            worker: WorkerId(self.worker),
            filter: FilterId(self.filter),
            volume: VolumeId(self.volume),
            name: Name::read(name)?,
            altitude: Altitude::read(altitude)?,
        })
    }

    // An operation on a handle.
    fn file_step(&self, alloc: Global, bytes: &[u8]) -> Result<Step, Status>
        ensures named { IfOk result (λ step. file_named self.now bytes.now ≡ Some step) }
        ensures refused { IfErr result (λ status. Unnamed (takes_memory self.now) (file_named self.now bytes.now) status) }
    {
        let request = match self.event {
            6 => FileRequest::Read {
                offset: self.offset,
                len: self.len,
            },
            7 => FileRequest::Write {
                offset: self.offset,
                bytes: Bytes::copy_of(alloc, bytes)?,
            },
            8 => FileRequest::QuerySize,
            9 => FileRequest::SetSize { size: self.offset },
            10 => FileRequest::Flush,
            11 => FileRequest::SetDelete,
            12 => FileRequest::Cleanup,
            13 => FileRequest::Close,
            49 => FileRequest::Restore,
            50 => FileRequest::Other {
                major: named(major_of(self.mode))?,
                number: self.offset,
            },
            _ => return self.context_step(alloc, bytes),
        };
        named(self.begun(Request::OnHandle {
            handle: HandleId(self.handle),
            request,
        }))
    }

    // What a callback does with contexts, and what goes on.
    fn context_step(&self, alloc: Global, bytes: &[u8]) -> Result<Step, Status>
        ensures named { IfOk result (λ step. context_named self.now bytes.now ≡ Some step) }
        ensures refused { IfErr result (λ status. Unnamed (takes_memory self.now) (context_named self.now bytes.now) status) }
    {
        let worker = WorkerId(self.worker);
        let step = match self.event {
            18 => Step::Allocate {
                worker,
                kind: named(kind_of(self.kind))?,
                body: Bytes::copy_of(alloc, bytes)?,
            },
            19 => Step::Set {
                worker,
                context: self.context(),
                mode: named(set_mode_of(self.mode))?,
                wants_old: self.is_flagged(),
            },
            20 => Step::Get {
                worker,
                kind: named(kind_of(self.kind))?,
            },
            21 => Step::Delete {
                worker,
                kind: named(kind_of(self.kind))?,
                wants_old: self.is_flagged(),
            },
            22 => Step::Reference {
                worker,
                context: self.context(),
            },
            23 => Step::Release {
                worker,
                context: self.context(),
            },
            24 => Step::ReadBody {
                worker,
                context: self.context(),
            },
            25 => Step::WriteBody {
                worker,
                context: self.context(),
                bytes: Bytes::copy_of(alloc, bytes)?,
            },
            26 => Step::Bump {
                worker,
                context: self.context(),
                place: self.offset,
                by: self.number,
            },
            _ => return self.hold_step(),
        };
        Ok(step)
    }

    // What is held, what is due, and what is collected.
    fn hold_step(&self) -> Result<Step, Status>
        ensures named { IfOk result (λ step. request_named self.now ≡ Some step) }
        ensures refused { IfErr result (λ status. Unnamed (takes_memory self.now) (request_named self.now) status) }
    {
        let worker = WorkerId(self.worker);
        let operation = OpId(self.operation);
        let step = match self.event {
            14 => Step::ResumePre {
                worker,
                operation,
                verdict: named(self.verdict())?,
            },
            15 => Step::ResumePost { worker, operation },
            16 => Step::FirstHeld {
                worker,
                hold: named(hold_of(self.mode))?,
            },
            17 => Step::Collect { operation },
            27 => Step::TakeDue { worker },
            28 => Step::Cleaned {
                worker,
                number: self.number,
            },
            _ => return self.teardown_step(),
        };
        Ok(step)
    }

    // The end of an instance.
    fn teardown_step(&self) -> Result<Step, Status>
        ensures named { IfOk result (λ step. teardown_named self.now ≡ Some step) }
        ensures refused { IfErr result (λ status. Unnamed (takes_memory self.now) (teardown_named self.now) status) }
    {
        let worker = WorkerId(self.worker);
        let instance = InstanceId(self.instance);
        let step = match self.event {
            29 => Step::AskDetach { worker, instance },
            30 => Step::QueryReturned {
                worker,
                allow: self.is_flagged(),
            },
            31 => Step::StartTeardown { worker, instance },
            32 => Step::StartReturned { worker },
            33 => Step::DrainTake { worker, instance },
            34 => Step::DrainDone { worker },
            35 => Step::CompleteTeardown { worker, instance },
            36 => Step::CompleteReturned { worker },
            37 => Step::Finish { instance },
            _ => return self.unload_step(),
        };
        Ok(step)
    }

    // The end of a filter, and of a volume.
    fn unload_step(&self) -> Result<Step, Status>
        ensures named { IfOk result (λ step. unload_named self.now ≡ Some step) }
        ensures refused { IfErr result (λ status. Unnamed (takes_memory self.now) (unload_named self.now) status) }
    {
        let worker = WorkerId(self.worker);
        let filter = FilterId(self.filter);
        let volume = VolumeId(self.volume);
        let step = match self.event {
            38 => Step::AskUnload { worker, filter },
            39 => Step::UnloadReturned {
                worker,
                allow: self.is_flagged(),
            },
            40 => Step::ForceUnload { filter },
            41 => Step::EmptyFilter { filter },
            42 => Step::FinishFilter { filter },
            43 => Step::StartDismount { volume },
            44 => Step::DropHandle { volume },
            45 => Step::EmptyVolume { volume },
            46 => Step::FinishVolume { volume },
            _ => return self.routine_step(),
        };
        Ok(step)
    }

    // What a filter does outside of callbacks.
    fn routine_step(&self) -> Result<Step, Status>
        ensures named { IfOk result (λ step. routine_named self.now ≡ Some step) }
        ensures refused { IfErr result (λ status. Unnamed (takes_memory self.now) (routine_named self.now) status) }
    {
        let worker = WorkerId(self.worker);
        let instance = InstanceId(self.instance);
        let step = match self.event {
            47 => Step::EnterRoutine {
                worker,
                instance,
                handle: self.file_handle(),
            },
            48 => Step::RoutineReturned { worker },
            _ => return Err(Status::BadRequest),
        };
        Ok(step)
    }

    fn file_handle(&self) -> Option<HandleId>
        ensures { result ≡ file_handle_in self.now }
    {
        if self.is_flagged() {
            Some(HandleId(self.handle))
        } else {
            None
        }
    }
}
