//! What answers a connection: the manager that all connections share, by this connection's hand.

ghost use Rattle.std.specs.Prelude.{◌≡◌, ◌≢◌, IfErr, IfOk};
ghost use Rattle.fm_socket.specs.Answering.{ClosesHandle, HandlesAfter, HandlesOn, OpensHandle, has_handle, is_close, is_foreign};
ghost use Rattle.fm_rundown.specs.Seats.{IsSeatOf};
ghost use Rattle.fm_types.specs.declared.status.Status.TheVariants.{Success};
ghost use Rattle.fm_callback_data.specs.declared.request.Reply.TheVariants as reply;

use crate::gate_seat::ServerWorker;
use crate::leftovers::Leftovers;
use crate::line::ClientLine;
use crate::waiting::{Unanswered, ask, close};
use fm_callback_data::{Answer, FileRequest, Reply, Request};
use fm_device::Device;
use fm_filter::Callbacks;
use fm_rundown::{GateSeat, RundownGate};
use fm_server::{Exec, status_reply};
use fm_types::{Bytes, HandleId, Status, VolumeId};
use fm_wire::Control;
use std::alloc::Global;
use std::mem;
use std::sync::Wait;
use std::sync::ledger::Ledger;
use std::time::Clock;

/// Answers by the shared manager: operations become jobs for the workers, and are waited for; filters are loaded, attached, detached and unloaded here.
/// It knows the handles that its connection opened.
#[derive(Drop)]
pub(crate) struct ManagerExec<'a, F: Drop, L: Ledger, R: Wait, D: Device> {
    alloc: Global,
    worker: ServerWorker<'a, F, L, R, D>,
    leftovers: &'a Leftovers,
    line: ClientLine,
    handles: Vec<HandleId>,
}

// A reply: a status, what it says beside it, and bytes.
fn reply_of(status: Status, information: u64, bytes: Bytes) -> Reply
    ensures { result ≡ reply.Done status information bytes }
{
    Reply::Done {
        status,
        information,
        bytes,
    }
}

// Whether the handle of that number is among these.
fn has(handles: &[HandleId], handle: HandleId) -> bool
    ensures { result ≡ has_handle handle handles.now }
{
    handles.iter().any(|own| own.0 == handle.0)
}

// Takes the handle of that number away from these.
fn forget(handles: &mut Vec<HandleId>, handle: HandleId)
    ensures { ClosesHandle handle handles.old.items handles.new.items }
{
    handles.retain(|own| own.0 != handle.0);
}

/// Whether an operation is asked for on a handle that is none of these.
pub(crate) fn is_foreign(handles: &[HandleId], request: &Request) -> bool
    ensures { result ≡ is_foreign handles.now request.now }
{
    match request {
        Request::OnHandle { handle, request: _ } => !has(handles, *handle),
        Request::Create { .. } | Request::List { .. } | Request::OnVolume { .. } => false,
    }
}

// Whether it is a close that is asked of a handle.
fn is_close(request: &FileRequest) -> bool
    ensures { result ≡ is_close request.now }
{
    matches!(request, FileRequest::Close)
}

// Whether an operation may let go of others, or gives up a handle.
fn gives_way(request: &Request) -> bool {
    matches!(
        request,
        Request::OnHandle {
            request: FileRequest::Flush | FileRequest::Cleanup | FileRequest::Close,
            ..
        }
    )
}

// What a refusal is told as, which is no success.
fn refusal(status: Status) -> Status
    ensures { result ≢ Success }
{
    if status == Status::Success {
        Status::WrongStep
    } else {
        status
    }
}

impl<'a, F: Callbacks, L: Ledger, R: Wait, D: Device> ManagerExec<'a, F, L, R, D> {
    /// That of no connection yet, with no handle.
    pub(crate) fn new(
        alloc: Global,
        worker: ServerWorker<'a, F, L, R, D>,
        leftovers: &'a Leftovers,
    ) -> ManagerExec<'a, F, L, R, D> {
        ManagerExec {
            alloc,
            worker,
            leftovers,
            line: ClientLine::cut(),
            handles: Vec::new(alloc),
        }
    }

    /// The handles that its connection has.
    pub(crate) fn handles(&self) -> &[HandleId]
        ensures { result.now ≡ self.now.handles.items }
    {
        self.handles.as_slice()
    }

    /// A connection begins: its client is at the end of that line.
    pub(crate) fn begin(&mut self, line: ClientLine) {
        self.line = line;
    }

    /// The worker of its thread.
    pub(crate) fn worker(&mut self) -> &mut ServerWorker<'a, F, L, R, D> {
        &mut self.worker
    }

    /// Dismounts a volume, by its worker. No handle goes.
    pub(crate) fn dismount(
        &mut self,
        rundown: &RundownGate,
        seat: &mut GateSeat,
        volume: VolumeId,
    ) -> Result<(), Status>
        requires own { IsSeatOf rundown.now seat.old }
        ensures own { IsSeatOf rundown.now seat.new }
        ensures handles { self.new.handles ≡ self.old.handles }
    {
        self.worker.dismount(rundown, seat, volume)
    }

    /// The worker of its thread, at the end.
    pub(crate) fn into_worker(self) -> ServerWorker<'a, F, L, R, D> {
        let ManagerExec { worker, .. } = self;
        worker
    }
}

impl<F: Callbacks, L: Ledger, R: Wait + Clock, D: Device> ManagerExec<'_, F, L, R, D> {
    /// The connection ends: its line is cut, its handles are closed, and operations whose clients are gone are looked at.
    pub(crate) fn end(&mut self) {
        self.line = ClientLine::cut();
        let handles = mem::replace(&mut self.handles, Vec::new(self.alloc));
        self.leftovers.close_all(&mut self.worker, handles);
        self.leftovers.collect_orphans(&mut self.worker);
        self.leftovers.close_left(&mut self.worker);
        self.worker.put_all_aside();
    }

    /// Looks at the operations whose clients are gone.
    pub(crate) fn collect_orphans(&mut self)
        ensures { self.new.handles ≡ self.old.handles }
    {
        self.leftovers.collect_orphans(&mut self.worker);
    }

    // A create. Room for its handle is taken before it begins: without it the create is refused with 1, and nothing began.
    fn create(&mut self, request: Request) -> Result<Answer, Unanswered>
        ensures opens { IfOk result (λ answer. OpensHandle answer.status answer.information self.old.handles.items self.new.handles.items) }
        ensures refused { IfErr result (λ _. self.new.handles.items ≡ self.old.handles.items) }
    {
        let Ok(()) = self.handles.reserve(1) else {
            return Err(Unanswered::Refused(Status::NoMemory));
        };
        let answer = match ask(&mut self.worker, &self.line, request) {
            Ok(answer) => answer,
            Err(unanswered) => return Err(unanswered),
        };
        if answer.status == Status::Success {
            self.handles.push_reserved(HandleId(answer.information));
        }
        Ok(answer)
    }

    // A close. Once it is done, the handle isn't the connection's any more.
    fn close(&mut self, handle: HandleId) -> Result<Answer, Unanswered>
        ensures closes { IfOk result (λ _. ClosesHandle handle self.old.handles.items self.new.handles.items) }
        ensures refused { IfErr result (λ _. self.new.handles.items ≡ self.old.handles.items) }
    {
        let answer = match close(&mut self.worker, &self.line, handle) {
            Ok(answer) => answer,
            Err(unanswered) => return Err(unanswered),
        };
        forget(&mut self.handles, handle);
        Ok(answer)
    }

    // An operation on a handle.
    fn on_handle(&mut self, handle: HandleId, request: FileRequest) -> Result<Answer, Unanswered>
        ensures handles { IfOk result (λ answer. HandlesOn handle request answer.status self.old.handles.items self.new.handles.items) }
        ensures refused { IfErr result (λ _. self.new.handles.items ≡ self.old.handles.items) }
    {
        if is_close(&request) {
            return self.close(handle);
        }
        let request = Request::OnHandle { handle, request };
        ask(&mut self.worker, &self.line, request)
    }

    fn run(&mut self, request: Request) -> Result<Answer, Unanswered>
        ensures handles { IfOk result (λ answer. HandlesAfter request answer.status answer.information self.old.handles.items self.new.handles.items) }
        ensures refused { IfErr result (λ _. self.new.handles.items ≡ self.old.handles.items) }
    {
        match request {
            Request::Create { .. } => self.create(request),
            Request::OnHandle { handle, request } => self.on_handle(handle, request),
            Request::List { .. } | Request::OnVolume { .. } => {
                ask(&mut self.worker, &self.line, request)
            }
        }
    }

    // Whether an operation may begin: not too many are left of clients that are gone, or it is one that may let them go. Those that are done give their places
    // back first.
    fn has_room(&mut self, request: &Request) -> bool
        ensures { self.new.handles ≡ self.old.handles }
    {
        if gives_way(request) || !self.leftovers.are_most() {
            return true;
        }
        self.collect_orphans();
        !self.leftovers.are_most()
    }

    // Why an operation has no answer: as it was refused; or it is left, and has none yet: it is noted, and 34 says so to nobody. Where it was refused as too many
    // are there, those whose clients are gone give their places back.
    fn why(&mut self, unanswered: Unanswered) -> Status
        ensures refused { result ≢ Success }
        ensures handles { self.new.handles ≡ self.old.handles }
    {
        match unanswered {
            Unanswered::Refused(status) => {
                if status == Status::TooMany {
                    self.collect_orphans();
                }
                refusal(status)
            }
            Unanswered::Left(orphan) => {
                self.leftovers.note(self.worker.rt(), orphan);
                Status::Busy(1)
            }
        }
    }

    // The answer of an operation, or why it has none.
    fn answer_of(&mut self, request: Request) -> Result<Answer, Status>
        ensures handles { IfOk result (λ answer. HandlesAfter request answer.status answer.information self.old.handles.items self.new.handles.items) }
        ensures refused { IfErr result (λ status. (status ≢ Success) × self.new.handles.items ≡ self.old.handles.items) }
    {
        if !self.has_room(&request) {
            return Err(Status::TooMany);
        }
        match self.run(request) {
            Ok(answer) => Ok(answer),
            Err(unanswered) => Err(self.why(unanswered)),
        }
    }

    // What a teardown came to. What it let go of gives its place back.
    fn torn_down(&mut self, done: Result<(), Status>) -> Result<u64, Status>
        ensures { self.new.handles ≡ self.old.handles }
    {
        self.collect_orphans();
        match done {
            Ok(()) => Ok(0),
            Err(status) => Err(status),
        }
    }

    // What a control asks for, and the number that its success says.
    fn done_of(&mut self, control: Control) -> Result<u64, Status>
        ensures { self.new.handles.items ≡ self.old.handles.items }
    {
        match control {
            Control::Load { name } => Ok(u64::from(self.worker.load(&name)?.0)),
            Control::Attach {
                filter,
                volume,
                name,
                altitude,
            } => Ok(u64::from(self.worker.attach(filter, volume, name, altitude)?.0)),
            Control::Detach { instance } => {
                let done = self.worker.detach(instance);
                self.torn_down(done)
            }
            Control::Unload { filter } => {
                let done = self.worker.unload(filter);
                self.torn_down(done)
            }
            Control::Dismount { volume: _ } => Err(Status::BadRequest),
            Control::Stop => Ok(0),
        }
    }
}

impl<F: Callbacks, L: Ledger, R: Wait + Clock, D: Device> Exec for ManagerExec<'_, F, L, R, D> {
    ghost use Rattle.std.specs.Prelude.{◌≡◌};
    ghost use Rattle.fm_socket.specs.Answering.{HandlesBy, IsDone};

    ghost operates = { λ old request answer new. IsDone answer × HandlesBy request answer old.handles.items new.handles.items };

    ghost controls = { λ old control answer new. IsDone answer × new.handles.items ≡ old.handles.items };

    fn operate(&mut self, request: Request) -> Reply {
        self.worker.put_aside();
        match self.answer_of(request) {
            Ok(answer) => reply_of(answer.status, answer.information, answer.bytes),
            Err(status) => status_reply(self.alloc, status),
        }
    }

    fn control(&mut self, control: Control) -> Reply {
        self.worker.put_aside();
        match self.done_of(control) {
            Ok(information) => reply_of(Status::Success, information, Bytes::new(self.alloc)),
            Err(status) => status_reply(self.alloc, status),
        }
    }
}
