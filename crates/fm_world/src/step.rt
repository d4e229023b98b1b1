//! The events as values, with the answers that they get.

ghost use Rattle.std.specs.Prelude.{◌≡◌};
ghost use Rattle.fm_world.specs.StepHands.{worker_of};

use crate::begins_from::BeginsFrom;
use crate::set_answer::SetAnswer;
use fm_altitude::Altitude;
use fm_callback_data::{
    Answer, BaseCall, CallbackData, Completion, Params, PostVerdict, PreVerdict, Request,
};
use fm_ctx::{Due, SetMode};
use fm_operations::{FlowAction, Hold};
use fm_types::{
    Bytes, ContextKind, CtxId, FilterId, HandleId, InstanceId, Name, OpId, Registration, Status,
    VolumeId, WorkerId,
};

/// One event, with what it is handed.
#[derive(Drop)]
pub enum Step {
    /// A filter registers under a name.
    Register {
        name: Name,
        registration: Registration,
    },
    /// A volume is mounted under a name.
    Mount {
        name: Name,
    },
    /// The worker attaches an instance and enters its setup callback.
    Attach {
        worker: WorkerId,
        filter: FilterId,
        volume: VolumeId,
        name: Name,
        altitude: Altitude,
    },
    /// The setup callback that the worker is in returns.
    SetupDone {
        worker: WorkerId,
        accept: bool,
    },
    /// An operation begins.
    Begin(Request),
    /// An operation begins that no client asks for: below an instance whose filter asks for it, at the base, or at the top.
    BeginFrom(BeginsFrom, Request),
    /// The worker asks for the next callback or call of an operation.
    Next {
        worker: WorkerId,
        operation: OpId,
    },
    /// The preoperation callback that the worker is in returns.
    PreReturned {
        worker: WorkerId,
        verdict: PreVerdict,
        data: CallbackData,
    },
    /// The base call that the worker is in returns.
    BaseReturned {
        worker: WorkerId,
        call: BaseCall,
        answer: Answer,
    },
    /// The postoperation callback or the drain that the worker is in returns.
    PostReturned {
        worker: WorkerId,
        verdict: PostVerdict,
        data: Option<CallbackData>,
    },
    /// The callback that the worker is in resumes a preoperation of its instance that holds an operation, with a verdict.
    ResumePre {
        worker: WorkerId,
        operation: OpId,
        verdict: PreVerdict,
    },
    /// It resumes a postoperation of its instance that holds an operation: that is over.
    ResumePost {
        worker: WorkerId,
        operation: OpId,
    },
    /// It asks for the first operation that a callback of its instance holds.
    FirstHeld {
        worker: WorkerId,
        hold: Hold,
    },
    /// The client takes the answer of a done operation.
    Collect {
        operation: OpId,
    },
    /// The callback that the worker is in allocates a context.
    Allocate {
        worker: WorkerId,
        kind: ContextKind,
        body: Bytes,
    },
    /// It sets a context that it holds on the object of its kind.
    Set {
        worker: WorkerId,
        context: CtxId,
        mode: SetMode,
        wants_old: bool,
    },
    /// It gets the context that is set on the object of that kind.
    Get {
        worker: WorkerId,
        kind: ContextKind,
    },
    /// It takes that context off its object.
    Delete {
        worker: WorkerId,
        kind: ContextKind,
        wants_old: bool,
    },
    /// It takes one more reference to a context that it holds.
    Reference {
        worker: WorkerId,
        context: CtxId,
    },
    /// It gives one up.
    Release {
        worker: WorkerId,
        context: CtxId,
    },
    /// It reads the body of a context that it holds.
    ReadBody {
        worker: WorkerId,
        context: CtxId,
    },
    /// It writes that body.
    WriteBody {
        worker: WorkerId,
        context: CtxId,
        bytes: Bytes,
    },
    /// It adds to a number in that body.
    Bump {
        worker: WorkerId,
        context: CtxId,
        place: u64,
        by: u64,
    },
    /// The worker takes the context that is due longest, and enters its cleanup callback.
    TakeDue {
        worker: WorkerId,
    },
    /// The cleanup callback that the worker is in returns, with a number for its filter's total.
    Cleaned {
        worker: WorkerId,
        number: u64,
    },
    /// The worker asks an instance's filter whether it may be detached, and enters its query callback.
    AskDetach {
        worker: WorkerId,
        instance: InstanceId,
    },
    /// The query callback that the worker is in returns.
    QueryReturned {
        worker: WorkerId,
        allow: bool,
    },
    /// The worker starts an instance's teardown, and enters the callback that says so.
    StartTeardown {
        worker: WorkerId,
        instance: InstanceId,
    },
    /// The teardown-start callback that the worker is in returns.
    StartReturned {
        worker: WorkerId,
    },
    /// The worker gets back what a stopping instance is owed, before its turn, and enters that drain.
    DrainTake {
        worker: WorkerId,
        instance: InstanceId,
    },
    /// The drain that the worker is in, which was taken before its turn, returns.
    DrainDone {
        worker: WorkerId,
    },
    /// The worker completes an instance's teardown, and enters the callback that says so.
    CompleteTeardown {
        worker: WorkerId,
        instance: InstanceId,
    },
    /// The teardown-complete callback that the worker is in returns.
    CompleteReturned {
        worker: WorkerId,
    },
    /// The worker enters a routine of an instance's filter, which may be on an open file.
    EnterRoutine {
        worker: WorkerId,
        instance: InstanceId,
        handle: Option<HandleId>,
    },
    /// The routine that the worker is in returns.
    RoutineReturned {
        worker: WorkerId,
    },
    /// The instance ends, once its contexts are cleaned up.
    Finish {
        instance: InstanceId,
    },
    /// The worker asks a filter whether it may be unloaded, and enters its unload callback.
    AskUnload {
        worker: WorkerId,
        filter: FilterId,
    },
    /// The unload callback that the worker is in returns.
    UnloadReturned {
        worker: WorkerId,
        allow: bool,
    },
    /// A filter is unloaded, and isn't asked.
    ForceUnload {
        filter: FilterId,
    },
    /// A filter's volume contexts are unlinked, once its instances are detached.
    EmptyFilter {
        filter: FilterId,
    },
    /// The filter ends, once its contexts are cleaned up.
    FinishFilter {
        filter: FilterId,
    },
    /// The dismount of a volume begins, and nobody is asked.
    StartDismount {
        volume: VolumeId,
    },
    /// The lowest handle that is open on a volume closes, without its file's callbacks.
    DropHandle {
        volume: VolumeId,
    },
    /// A volume's contexts are unlinked, once no handle is open on it and its instances are detached.
    EmptyVolume {
        volume: VolumeId,
    },
    /// The dismount of a volume ends, once its contexts are cleaned up.
    FinishVolume {
        volume: VolumeId,
    },
    /// The callback that the worker is in has other parameters go down of an operation that a preoperation of its instance holds.
    ChangeHeld {
        worker: WorkerId,
        operation: OpId,
        params: Params,
    },
}

impl Step {
    /// The worker that makes the event; none where the event names no worker.
    pub fn worker(&self) -> Option<WorkerId>
        ensures { result ≡ worker_of self.now }
    {
        match self {
            Step::Register { .. }
            | Step::Mount { .. }
            | Step::Begin(_)
            | Step::BeginFrom(_, _)
            | Step::Collect { .. }
            | Step::Finish { .. }
            | Step::ForceUnload { .. }
            | Step::EmptyFilter { .. }
            | Step::FinishFilter { .. }
            | Step::StartDismount { .. }
            | Step::DropHandle { .. }
            | Step::EmptyVolume { .. }
            | Step::FinishVolume { .. } => None,
            Step::Attach { worker, .. }
            | Step::SetupDone { worker, .. }
            | Step::Next { worker, .. }
            | Step::PreReturned { worker, .. }
            | Step::BaseReturned { worker, .. }
            | Step::PostReturned { worker, .. }
            | Step::ResumePre { worker, .. }
            | Step::ResumePost { worker, .. }
            | Step::FirstHeld { worker, .. }
            | Step::Allocate { worker, .. }
            | Step::Set { worker, .. }
            | Step::Get { worker, .. }
            | Step::Delete { worker, .. }
            | Step::Reference { worker, .. }
            | Step::Release { worker, .. }
            | Step::ReadBody { worker, .. }
            | Step::WriteBody { worker, .. }
            | Step::Bump { worker, .. }
            | Step::TakeDue { worker }
            | Step::Cleaned { worker, .. }
            | Step::AskDetach { worker, .. }
            | Step::QueryReturned { worker, .. }
            | Step::StartTeardown { worker, .. }
            | Step::StartReturned { worker }
            | Step::DrainTake { worker, .. }
            | Step::DrainDone { worker }
            | Step::CompleteTeardown { worker, .. }
            | Step::CompleteReturned { worker }
            | Step::EnterRoutine { worker, .. }
            | Step::RoutineReturned { worker }
            | Step::AskUnload { worker, .. }
            | Step::UnloadReturned { worker, .. }
            | Step::ChangeHeld { worker, .. } => Some(*worker),
        }
    }
}

/// What an event answered.
#[derive(Drop)]
pub enum StepReply {
    /// To Register.
    Filter(Result<FilterId, Status>),
    /// To Mount.
    Volume(Result<VolumeId, Status>),
    /// To Attach.
    Instance(Result<InstanceId, Status>),
    /// To Begin and BeginFrom.
    Operation(Result<OpId, Status>),
    /// To Next.
    Action(Result<FlowAction, Status>),
    /// To an event that answers nothing but how it went. What a refusal hands back isn't part of it.
    Done(Result<(), Status>),
    /// To FirstHeld.
    Held(Result<Option<OpId>, Status>),
    /// To DrainTake.
    Drained(Result<Option<(OpId, Completion)>, Status>),
    /// To DropHandle.
    Dropped(Result<Option<HandleId>, Status>),
    /// To Collect.
    Answer(Result<Answer, Status>),
    /// To Allocate and Get.
    Context(Result<CtxId, Status>),
    /// To Set.
    Set(SetAnswer),
    /// To Delete: the context that was taken off, where it was wanted.
    Old(Result<Option<CtxId>, Status>),
    /// To ReadBody.
    Body(Result<Bytes, Status>),
    /// To Bump: the new number.
    Number(Result<u64, Status>),
    /// To TakeDue: the context that was due longest, if one was.
    Due(Result<Option<Due>, Status>),
}
