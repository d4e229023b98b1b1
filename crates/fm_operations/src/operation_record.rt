//! One operation.

ghost use Rattle.std.specs.Prelude.{◌≡◌, ℕ, ◌-◌, ◌<◌, ◌≤◌, true, false, length, IsTrue, IfOk, Ok, Err, Some, None, option_map, position, slice_get, if◌then◌else◌};
ghost use Rattle.std.specs.List.{list_any};
ghost use Rattle.fm_callback_data.specs.Params.{is_within_limits, are_on, fit, call_fits};
ghost use Rattle.fm_callback_data.specs.Data.{data_fits};
ghost use Rattle.fm_operations.specs.Entries.{times, visited, last_visited, last_posted, owed};
ghost use Rattle.fm_operations.specs.Verdict.{is_counted};
ghost use Rattle.fm_operations.specs.Counts.{is_running_drain};
ghost use Rattle.fm_operations.specs.Steps.{with_entry, with_visit, with_base, with_drain, post_entry, passed_up, call_pre, call_base, call_post, give_post, descend, ascend, unwound, may_take, next_of, MayLieBelow, takes, changed_held, pre_settled, pre_returned_of, base_returned_of, post_state, post_settled, post_returned_of, drain_returned_of, is_done, data_reply, pre_after, base_fits, base_reply, base_after, post_after, pre_leads, post_leads};
ghost use Rattle.fm_operations.specs.Answered.{bare_answer};
ghost use Rattle.fm_operations.specs.Creates.{is_creating, is_unanswered};
ghost use Rattle.fm_operations.specs.Sound.{IsSound};
ghost use Rattle.fm_operations.specs.Drains.{is_of, owes, owed_to, drained_early, early_over, RunsEarly};
ghost use Rattle.fm_operations.specs.Flights.{flies};
ghost use Rattle.fm_operations.specs.Holds.{holder, is_held, same_number, sync_of};
ghost use Rattle.fm_operations.specs.Table.{begun_record, placed, marked, is_collectable};

use crate::action::{Below, FlowAction};
use crate::answered::{bare_answer, base_counted, handle_given};
use crate::entry::{Ask, DrainVisit, Entry, PostState, PostVisit, PreState, PreVisit};
use crate::hold::Hold;
use crate::owed_stack::OwedStack;
use crate::room::Room;
use crate::stage::Stage;
use crate::{entries, lent};
use fm_callback_data::{Answer, BaseCall, CallbackData, Completion, Params, PostVerdict};
use fm_types::limits::TRANSFER;
use fm_types::{
    Bytes, HandleId, InstanceId, OpId, Operation, SharedPath, Status, StreamId, VolumeId, WorkerId,
};
use std::alloc::{AllocError, Global};
use std::marker::Model;
use std::mem;

/// What an instance asks for whose filter has no preoperation callback.
const BARE: Completion = Completion {
    number: 0,
    context: None,
};

/// An operation on its way: what it is, what happened to it so far, and where it stands.
#[derive(Drop)]
pub struct OperationRecord {
    alloc: Global,
    number: OpId,
    operation: Operation,
    volume: VolumeId,
    stream: Option<StreamId>,
    handle: Option<HandleId>,
    born: u64,
    below: Option<InstanceId>,
    path: Option<SharedPath>,
    // the same path, for the base's call, so that `next` takes no memory
    lent_path: Option<SharedPath>,
    // the parameters, in the data that the next callback or the base is lent
    data: Option<CallbackData>,
    answer: Answer,
    stage: Stage,
    entries: Vec<Entry>,
    // beside the entries: whose postoperations are owed, and who was visited last
    owed: OwedStack,
    last: Option<InstanceId>,
    kept: Vec<Params>,
    is_collected: bool,
}

impl Model for OperationRecord {
    ghost use Rattle.std.specs.Prelude.{◌≤◌, vec_capacity};
    ghost use Rattle.fm_operations.specs.Record.{FlowRecord};

    ghost Value = { FlowRecord };

    ghost use Rattle.fm_operations.specs.Answered.{bare_answer};
    ghost use Rattle.fm_operations.specs.Creates.{is_creating, is_unanswered};
    ghost use Rattle.fm_operations.specs.Sound.{IsSound, HasPath};
    ghost use Rattle.fm_operations.specs.Noted.{IsBare, IsNoted, received_in};

    ghost view = { λ o. record { number = o.number; operation = o.operation; volume = o.volume; stream = o.stream; handle = o.handle; born = o.born; below = o.below; path = o.path; params = received_in o.data; answer = o.answer; stage = o.stage; entries = o.entries.items; kept = o.kept.items; collected = o.is_collected } };

    ghost invariant = { λ o. IsSound (record { number = o.number; operation = o.operation; volume = o.volume; stream = o.stream; handle = o.handle; born = o.born; below = o.below; path = o.path; params = received_in o.data; answer = o.answer; stage = o.stage; entries = o.entries.items; kept = o.kept.items; collected = o.is_collected }) × ((65 ≤ vec_capacity o.entries) × ((32 ≤ vec_capacity o.kept) × (HasPath o.stage o.path o.lent_path × (IsBare o.data × IsNoted o.owed o.last o.entries.items)))) };
}

impl OperationRecord {
    /// An operation that begins, with the room for all that will happen to it.
    pub(crate) fn begin(
        alloc: Global,
        room: Room,
        number: OpId,
        volume: VolumeId,
        stream: Option<StreamId>,
        handle: Option<HandleId>,
        born: u64,
        path: Option<SharedPath>,
        params: Params,
    ) -> Result<OperationRecord, AllocError>
        requires limits { IsTrue (is_within_limits params) }
        requires file { are_on path params ≡ true }
        ensures { IfOk result (λ r. r ≡ begun_record number.0 volume stream handle born path params) }
    {
        let operation = params.operation();
        let lent_path = shared(&path)?;
        let data = CallbackData::new(alloc, params)?;
        let (entries, kept) = room.into_lists();
        Ok(OperationRecord {
            alloc,
            number,
            operation,
            volume,
            stream,
            handle,
            born,
            below: None,
            path,
            lent_path,
            data: Some(data),
            answer: bare_answer(alloc, Status::Success),
            stage: Stage::Descending,
            entries,
            owed: OwedStack::new(alloc),
            last: None,
            kept,
            is_collected: false,
        })
    }

    /// It began below that instance, if one is named, and visits those that were born before `born` alone.
    pub(crate) fn place_below(&mut self, below: Option<InstanceId>, born: u64)
        ensures { self.new ≡ placed below born self.old }
    {
        self.below = below;
        self.born = born;
    }

    /// The instance whose filter asked for it, below which it began or at the base (`InitiatingInstance` of
    /// `FltReadFile` and its like); none where no filter did.
    pub fn below(&self) -> Option<InstanceId>
        ensures { result ≡ self.now.below }
    {
        self.below
    }

    /// The number by which it is named.
    pub fn number(&self) -> OpId
        ensures { result ≡ self.now.number }
    {
        self.number
    }

    /// What kind of operation it is.
    pub fn operation(&self) -> Operation
        ensures { result ≡ self.now.operation }
    {
        self.operation
    }

    /// The volume that it is on.
    pub fn volume(&self) -> VolumeId
        ensures { result ≡ self.now.volume }
    {
        self.volume
    }

    /// The stream that it is on, where it has one; named also after the stream is gone.
    pub fn stream(&self) -> Option<StreamId>
        ensures { result ≡ self.now.stream }
    {
        self.stream
    }

    /// The handle that it is on, where it has one; named also after the handle is closed.
    pub fn handle(&self) -> Option<HandleId>
        ensures { result ≡ self.now.handle }
    {
        self.handle
    }

    /// How many instances were born before it began.
    pub fn born(&self) -> u64
        ensures { result ≡ self.now.born }
    {
        self.born
    }

    /// The path of the file that it is on, as it was when the operation began; a listing has none.
    pub fn path(&self) -> &Option<SharedPath>
        ensures { result.now ≡ self.now.path }
    {
        &self.path
    }

    /// Where it stands.
    pub fn stage(&self) -> Stage
        ensures { result ≡ self.now.stage }
    {
        self.stage
    }

    /// What happened to it so far.
    pub fn trace(&self) -> &[Entry]
        ensures { result.now ≡ self.now.entries }
    {
        self.entries.as_slice()
    }

    /// The instance that it visited last on its way down.
    pub fn last_visited(&self) -> Option<InstanceId>
        ensures { option_map (λ i. i.0) result ≡ last_visited self.now.entries }
    {
        self.last
    }

    /// How many entries it had before the last one; 0 where it has none. On its way down that is where the instance visited last sits in the order of its
    /// volume, if no instance above that one was left out.
    pub fn entries_before_last(&self) -> usize
        ensures { result ≡ length self.now.entries - 1 }
    {
        self.entries.len().saturating_sub(1)
    }

    /// The instance that had a postoperation of it last.
    pub fn last_posted(&self) -> Option<InstanceId>
        ensures { option_map (λ i. i.0) result ≡ last_posted self.now.entries }
    {
        entries::last_posted(&self.entries)
    }

    /// The postoperation that it is owed next.
    pub fn next_owed(&self) -> Option<Ask>
        ensures { result ≡ slice_get (owed self.now.entries) 0 }
    {
        entries::ask_at(&self.entries, self.owed.top()?)
    }

    /// Whether it is done: nothing is left but to hand out its answer.
    pub fn is_done(&self) -> bool
        ensures { result ≡ is_done self.now }
    {
        match self.stage {
            Stage::Ascending => self.next_owed().is_none(),
            _ => false,
        }
    }

    // the instance whose callback of that kind holds it
    fn holder(&self, hold: Hold) -> Option<InstanceId>
        ensures { option_map (λ i. i.0) result ≡ holder hold self.now }
    {
        match (hold, self.stage) {
            (Hold::Pre, Stage::PreHeld) => self.last,
            (Hold::Post, Stage::PostHeld) => entries::last_posted(&self.entries),
            _ => None,
        }
    }

    /// Whether a callback of that kind of an instance holds it.
    pub fn is_held(&self, hold: Hold, instance: InstanceId) -> bool
        ensures { result ≡ is_held hold instance.0 self.now }
    {
        self.laws();
        is_that(instance, self.holder(hold))
    }

    /// The worker that alone may make the postoperation that comes next: that of its preoperation, which asked for it as synchronized
    /// (`FLT_PREOP_SYNCHRONIZE`). None where another comes next or nothing, and where the instance is torn down, for anybody may drain it.
    pub fn synchronized_with(&self, is_stopping: bool) -> Option<WorkerId>
        ensures { result ≡ sync_of is_stopping self.now }
    {
        if self.is_collected || is_stopping {
            return None;
        }
        let Stage::Ascending = self.stage else {
            return None;
        };
        let ask = self.next_owed()?;
        if ask.is_synchronized {
            Some(ask.worker)
        } else {
            None
        }
    }

    /// Whether it is a create that neither the base nor a filter has answered.
    pub fn is_creating(&self) -> bool
        ensures { result ≡ is_creating self.now }
    {
        matches!(self.operation, Operation::Create) && is_unanswered(self.stage)
    }

    /// Whether its answer was handed out.
    pub fn is_collected(&self) -> bool
        ensures { result ≡ self.now.collected }
    {
        self.is_collected
    }

    /// The laws of every operation, for callers that rest on them. It does nothing.
    pub fn laws(&self)
        ensures { IsSound self.now }
    {
        let _ = &self.stage;
    }

    /// The next step of the operation, by that worker. It takes no memory.
    pub(crate) fn next(
        &mut self,
        worker: WorkerId,
        below: Below,
        is_stopping: bool,
    ) -> Result<FlowAction, Status>
        requires { MayLieBelow below self.old.entries }
        ensures reply { result ≡ (next_of worker below is_stopping self.old).reply }
        ensures after { self.new ≡ (next_of worker below is_stopping self.old).after }
    {
        if self.is_collected {
            return Err(Status::WrongStep);
        }
        match self.stage {
            Stage::Descending => Ok(self.descend(worker, below)),
            Stage::Ascending => self.ascend(worker, is_stopping),
            Stage::PreHeld | Stage::PostHeld => Ok(FlowAction::Held),
            Stage::PreRunning | Stage::InBase | Stage::PostRunning | Stage::InDrain(_) => Err(
                Status::WrongStep,
            ),
        }
    }

    fn descend(&mut self, worker: WorkerId, below: Below) -> FlowAction
        requires stage { self.old.stage ≡ Stage.Descending }
        requires lies { MayLieBelow below self.old.entries }
        ensures reply { Ok result ≡ (descend worker below self.old).reply }
        ensures after { self.new ≡ (descend worker below self.old).after }
    {
        match below {
            Below::Instance(instance, is_called) => {
                if is_called {
                    self.call_pre(worker, instance)
                } else {
                    self.pass_down(worker, instance, BARE);
                    FlowAction::Moved
                }
            }
            Below::Call => self.call_base(),
            Below::Known(status) => {
                self.answer_known(status);
                FlowAction::Moved
            }
        }
    }

    fn call_pre(&mut self, worker: WorkerId, instance: InstanceId) -> FlowAction
        requires stage { self.old.stage ≡ Stage.Descending }
        requires fresh { times instance.0 (visited self.old.entries) ≡ 0 }
        requires few { length (visited self.old.entries) < 32 }
        ensures reply { Ok result ≡ (call_pre worker instance self.old self.old.params).reply }
        ensures after { self.new ≡ (call_pre worker instance self.old self.old.params).after }
    {
        let Some(data) = self.data.take() else {
            unreachable!();
        };
        let place = self.kept.len() as u8;
        let state = PreState::Running;
        self.entries.push_reserved(Entry::Pre(PreVisit {
            instance,
            worker,
            state,
            place,
        }));
        self.last = Some(instance);
        self.stage = Stage::PreRunning;
        FlowAction::Pre(instance, data)
    }

    /// It passes an instance on its way down, which asks at once for its postoperation.
    #[inline(always)]
    pub(crate) fn pass_down(
        &mut self,
        worker: WorkerId,
        instance: InstanceId,
        completion: Completion,
    )
        requires stage { self.old.stage ≡ Stage.Descending }
        requires fresh { times instance.0 (visited self.old.entries) ≡ 0 }
        requires few { length (visited self.old.entries) < 32 }
        ensures { self.new ≡ with_visit worker instance (PreState.Asked completion) self.old }
    {
        let place = self.kept.len() as u8;
        let state = PreState::Asked(completion);
        self.owed.note(true, self.entries.len());
        self.entries.push_reserved(Entry::Pre(PreVisit {
            instance,
            worker,
            state,
            place,
        }));
        self.last = Some(instance);
    }

    fn call_base(&mut self) -> FlowAction
        requires { self.old.stage ≡ Stage.Descending }
        ensures reply { Ok result ≡ (call_base self.old self.old.params).reply }
        ensures after { self.new ≡ (call_base self.old self.old.params).after }
    {
        let Some(data) = self.data.take() else {
            unreachable!();
        };
        self.stage = Stage::InBase;
        FlowAction::Base(BaseCall::new(self.volume, self.lent_path.take(), data))
    }

    fn answer_known(&mut self, status: Status)
        requires { self.old.stage ≡ Stage.Descending }
        ensures { self.new ≡ with_base (bare_answer status) self.old }
    {
        self.answer = bare_answer(self.alloc, status);
        self.entries.push_reserved(Entry::Base(status, 0));
        self.stage = Stage::Ascending;
    }

    fn ascend(&mut self, worker: WorkerId, is_stopping: bool) -> Result<FlowAction, Status>
        requires { self.old.stage ≡ Stage.Ascending }
        ensures reply { result ≡ (ascend worker is_stopping self.old (slice_get (owed self.old.entries) 0)).reply }
        ensures after { self.new ≡ (ascend worker is_stopping self.old (slice_get (owed self.old.entries) 0)).after }
    {
        let Some(ask) = self.next_owed() else {
            return Ok(FlowAction::Done);
        };
        if is_stopping {
            self.give_drain(ask);
            return Ok(FlowAction::Drain(ask.instance, ask.completion));
        }
        if !may_take(worker, ask) {
            return Err(Status::WrongStep);
        }
        Ok(self.call_post(worker, ask))
    }

    fn give_drain(&mut self, ask: Ask)
        requires stage { self.old.stage ≡ Stage.Ascending }
        requires next { slice_get (owed self.old.entries) 0 ≡ Some ask }
        ensures { self.new ≡ with_drain ask.instance (Stage.InDrain ask.instance) self.old }
    {
        let drain = Entry::Drain(DrainVisit {
            instance: ask.instance,
            is_running: true,
        });
        entries::answer(&mut self.entries, &mut self.owed, drain);
        self.stage = Stage::InDrain(ask.instance);
    }

    fn call_post(&mut self, worker: WorkerId, ask: Ask) -> FlowAction
        requires stage { self.old.stage ≡ Stage.Ascending }
        requires next { slice_get (owed self.old.entries) 0 ≡ Some ask }
        requires may { may_take worker ask ≡ true }
        ensures reply { Ok result ≡ (call_post worker ask self.old).reply }
        ensures after { self.new ≡ (call_post worker ask self.old).after }
    {
        self.unwind(ask.place);
        self.give_post(worker, ask)
    }

    /// It passes an instance on its way up: the postoperation that is owed next is made, and is over.
    #[inline(always)]
    pub(crate) fn pass_up(&mut self, worker: WorkerId, ask: Ask)
        requires stage { self.old.stage ≡ Stage.Ascending }
        requires next { slice_get (owed self.old.entries) 0 ≡ Some ask }
        requires may { may_take worker ask ≡ true }
        ensures { self.new ≡ passed_up worker ask self.old }
    {
        self.unwind(ask.place);
        self.note_post(worker, ask);
    }

    #[inline(always)]
    fn note_post(&mut self, worker: WorkerId, ask: Ask)
        requires stage { self.old.stage ≡ Stage.Ascending }
        requires next { slice_get (owed self.old.entries) 0 ≡ Some ask }
        requires may { may_take worker ask ≡ true }
        ensures { self.new ≡ with_entry (post_entry worker ask.instance PostState.Finished) Stage.Ascending self.old }
    {
        let post = Entry::Post(PostVisit {
            instance: ask.instance,
            worker,
            state: PostState::Finished,
        });
        entries::answer(&mut self.entries, &mut self.owed, post);
    }

    // what callbacks from that place on changed is put back
    #[inline(always)]
    fn unwind(&mut self, place: u8)
        requires { self.old.stage ≡ Stage.Ascending }
        ensures { self.new ≡ unwound place self.old }
    {
        let Some(params) = lent::unwind(&mut self.kept, place as usize) else {
            return;
        };
        let Some(data) = &mut self.data else {
            unreachable!();
        };
        data.receive(params);
    }

    fn give_post(&mut self, worker: WorkerId, ask: Ask) -> FlowAction
        requires stage { self.old.stage ≡ Stage.Ascending }
        requires next { slice_get (owed self.old.entries) 0 ≡ Some ask }
        requires may { may_take worker ask ≡ true }
        ensures reply { Ok result ≡ (give_post worker ask self.old self.old.params).reply }
        ensures after { self.new ≡ (give_post worker ask self.old self.old.params).after }
    {
        let Some(mut data) = self.data.take() else {
            unreachable!();
        };
        data.put_answer(lent::lend_answer(self.alloc, self.operation, &mut self.answer));
        let post = Entry::Post(PostVisit {
            instance: ask.instance,
            worker,
            state: PostState::Running,
        });
        entries::answer(&mut self.entries, &mut self.owed, post);
        self.stage = Stage::PostRunning;
        FlowAction::Post(ask.instance, data, ask.completion)
    }

    /// A preoperation callback returns its data with the verdict that counts. Data that isn't of this
    /// operation is handed back, and nothing changes.
    pub(crate) fn pre_returned(
        &mut self,
        state: PreState,
        lent: CallbackData,
    ) -> Result<(), CallbackData>
        requires stage { self.old.stage ≡ Stage.PreRunning }
        requires counted { is_counted state ≡ true }
        ensures reply { result ≡ data_reply lent self.old }
        ensures after { self.new ≡ pre_after state lent self.old }
    {
        if !lent.fits(self.operation, &self.path) {
            return Err(lent);
        }
        self.take_pre(state, lent);
        Ok(())
    }

    fn take_pre(&mut self, state: PreState, mut lent: CallbackData)
        requires stage { self.old.stage ≡ Stage.PreRunning }
        requires counted { is_counted state ≡ true }
        requires fits { data_fits self.old.operation self.old.path lent ≡ true }
        ensures { self.new ≡ pre_returned_of state lent self.old }
    {
        lent::keep(self.alloc, &mut self.kept, &mut lent);
        self.data = Some(lent);
        lent::complete(self.alloc, state, &mut self.answer);
        let place = entries::settle_pre(&mut self.entries, state);
        self.owed.note(entries::asks(state), place);
        self.stage = pre_leads(state);
    }

    /// The base answers, and gives its call back. A call that isn't of this operation and
    /// an answer of more than 32,768 bytes are handed back, and nothing changes.
    pub(crate) fn base_returned(
        &mut self,
        call: BaseCall,
        answer: Answer,
        handle: HandleId,
    ) -> Result<(), (BaseCall, Answer)>
        requires { self.old.stage ≡ Stage.InBase }
        ensures reply { result ≡ base_reply call answer self.old }
        ensures after { self.new ≡ base_after call answer handle self.old }
    {
        if !self.takes(&call, &answer) {
            return Err((call, answer));
        }
        self.take_base(call, answer, handle);
        Ok(())
    }

    fn takes(&self, call: &BaseCall, answer: &Answer) -> bool
        ensures { result ≡ base_fits call.now answer.now self.now }
    {
        call.fits(self.operation, self.volume, &self.path) && answer.bytes.len() as u64 <= TRANSFER
    }

    fn take_base(&mut self, call: BaseCall, answer: Answer, handle: HandleId)
        requires stage { self.old.stage ≡ Stage.InBase }
        requires fits { base_fits call answer self.old ≡ true }
        ensures { self.new ≡ base_returned_of call answer handle self.old }
    {
        self.handle = handle_given(call.params(), answer.status, handle, self.handle);
        let answer = base_counted(self.alloc, call.params(), answer, handle);
        self.entries
            .push_reserved(Entry::Base(answer.status, answer.information));
        self.data = Some(call.into_data());
        self.answer = answer;
        self.stage = Stage::Ascending;
    }

    /// A postoperation callback returns its data. Data that isn't of this operation is handed back,
    /// and nothing changes.
    pub(crate) fn post_returned(
        &mut self,
        verdict: PostVerdict,
        lent: CallbackData,
    ) -> Result<(), CallbackData>
        requires { self.old.stage ≡ Stage.PostRunning }
        ensures reply { result ≡ data_reply lent self.old }
        ensures after { self.new ≡ post_after verdict lent self.old }
    {
        if !lent.fits(self.operation, &self.path) {
            return Err(lent);
        }
        self.take_post(verdict, lent);
        Ok(())
    }

    fn take_post(&mut self, verdict: PostVerdict, mut lent: CallbackData)
        requires stage { self.old.stage ≡ Stage.PostRunning }
        requires fits { data_fits self.old.operation self.old.path lent ≡ true }
        ensures { self.new ≡ post_returned_of verdict lent self.old }
    {
        let answer = lent.take_answer(self.alloc);
        self.data = Some(lent);
        lent::take_answer(self.operation, &mut self.answer, answer);
        let state = post_state(verdict);
        entries::settle_post(&mut self.entries, state);
        self.stage = post_leads(state);
    }

    /// The preoperation that holds it gives its verdict after all.
    pub(crate) fn resume_pre(&mut self, state: PreState)
        requires stage { self.old.stage ≡ Stage.PreHeld }
        requires counted { is_counted state ≡ true }
        ensures { self.new ≡ pre_settled state self.old }
    {
        lent::complete(self.alloc, state, &mut self.answer);
        let place = entries::settle_pre(&mut self.entries, state);
        self.owed.note(entries::asks(state), place);
        self.stage = pre_leads(state);
    }

    /// The preoperation that holds it has those parameters go down in place of what it received. It takes no memory.
    pub(crate) fn change_held(&mut self, params: Params)
        requires stage { self.old.stage ≡ Stage.PreHeld }
        requires fits { takes params self.old ≡ true }
        ensures { self.new ≡ changed_held params self.old }
    {
        let Some(data) = &mut self.data else {
            unreachable!();
        };
        let received = data.receive(params);
        lent::keep_held(&mut self.kept, entries::last_place(&self.entries), received);
    }

    /// The postoperation that holds it is over.
    pub(crate) fn resume_post(&mut self)
        requires { self.old.stage ≡ Stage.PostHeld }
        ensures { self.new ≡ post_settled PostState.Finished self.old }
    {
        entries::settle_post(&mut self.entries, PostState::Finished);
        self.stage = Stage::Ascending;
    }

    /// The drain that has the operation is over.
    pub(crate) fn drain_returned(&mut self, instance: InstanceId)
        requires { self.old.stage ≡ Stage.InDrain instance }
        ensures { self.new ≡ drain_returned_of instance self.old }
    {
        entries::settle_drain(&mut self.entries, instance);
        self.stage = Stage::Ascending;
    }

    // how deep in the stack what an instance is owed stands
    fn depth_of(&self, instance: InstanceId) -> Option<usize>
        ensures { result ≡ position (is_of instance.0) (owed self.now.entries) }
    {
        entries::depth_of(&self.entries, &self.owed, instance)
    }

    /// Whether it owes an instance its postoperation.
    pub fn owes(&self, instance: InstanceId) -> bool
        ensures { result ≡ owes instance.0 self.now }
    {
        self.depth_of(instance).is_some()
    }

    /// Whether it is in flight at an instance: a callback there runs or holds it, or the instance is owed a postoperation.
    pub fn is_in_flight(&self, instance: InstanceId) -> bool
        ensures { result ≡ flies instance.0 self.now }
    {
        self.owes(instance) || entries::has_callback_at(&self.entries, instance)
    }

    /// A drain of an instance that is owed a postoperation starts, whatever the operation is doing. Gives its completion.
    pub(crate) fn drain_early(&mut self, instance: InstanceId) -> Completion
        requires { owes instance.0 self.old ≡ true }
        ensures completion { owed_to instance.0 self.old ≡ Some result }
        ensures after { self.new ≡ drained_early instance self.old }
    {
        let Some(depth) = self.depth_of(instance) else {
            unreachable!();
        };
        let Some(ask) = entries::ask_at(&self.entries, self.owed.remove(depth)) else {
            unreachable!();
        };
        self.entries.push_reserved(Entry::Drain(DrainVisit {
            instance,
            is_running: true,
        }));
        ask.completion
    }

    /// A drain that was taken early is over.
    pub(crate) fn early_over(&mut self, instance: InstanceId)
        requires { RunsEarly instance (Some self.old) }
        ensures { self.new ≡ early_over instance self.old }
    {
        entries::settle_drain(&mut self.entries, instance);
    }

    /// Whether a drain runs.
    pub(crate) fn has_running_drain(&self) -> bool
        ensures { result ≡ list_any is_running_drain self.now.entries }
    {
        entries::has_running_drain(&self.entries)
    }

    /// Hands out the answer. The record stays, for a drain that runs.
    pub(crate) fn hand_out(&mut self) -> Answer
        requires { is_collectable self.old ≡ true }
        ensures answer { result ≡ self.old.answer }
        ensures after { self.new ≡ marked self.old }
    {
        self.is_collected = true;
        let rest = Answer {
            status: self.answer.status,
            information: self.answer.information,
            bytes: Bytes::new(self.alloc),
        };
        mem::replace(&mut self.answer, rest)
    }

    /// The answer of a record that goes, and the room that it had.
    pub(crate) fn into_answer(self) -> (Answer, Room)
        ensures { result.0 ≡ self.answer }
    {
        let OperationRecord {
            answer,
            entries,
            kept,
            ..
        } = self;
        (answer, Room::of(entries, kept))
    }
}

// One more owner of a path.
fn shared(path: &Option<SharedPath>) -> Result<Option<SharedPath>, AllocError>
    ensures { IfOk result (λ shared. shared ≡ path.now) }
{
    match path {
        Some(path) => Ok(Some(path.share()?)),
        None => Ok(None),
    }
}

fn is_unanswered(stage: Stage) -> bool
    ensures { result ≡ is_unanswered stage }
{
    matches!(
        stage,
        Stage::Descending | Stage::PreRunning | Stage::PreHeld | Stage::InBase
    )
}

fn is_that(instance: InstanceId, other: Option<InstanceId>) -> bool
    ensures { result ≡ same_number instance.0 (option_map (λ i. i.0) other) }
{
    match other {
        Some(other) => other.0 == instance.0,
        None => false,
    }
}

/// Whether a worker may make that postoperation: one that is synchronized is its preoperation's worker's alone.
pub fn may_take(worker: WorkerId, ask: Ask) -> bool
    ensures { result ≡ may_take worker ask }
{
    !ask.is_synchronized || ask.worker.0 == worker.0
}

fn pre_leads(state: PreState) -> Stage
    ensures { result ≡ pre_leads state }
{
    match state {
        PreState::Running => Stage::PreRunning,
        PreState::Held => Stage::PreHeld,
        PreState::Asked(_) | PreState::Synchronized(_) | PreState::Passed => Stage::Descending,
        PreState::Completed(_) => Stage::Ascending,
    }
}

fn post_leads(state: PostState) -> Stage
    ensures { result ≡ post_leads state }
{
    match state {
        PostState::Running => Stage::PostRunning,
        PostState::Held => Stage::PostHeld,
        PostState::Finished => Stage::Ascending,
    }
}

pub(crate) fn post_state(verdict: PostVerdict) -> PostState
    ensures { result ≡ post_state verdict }
{
    match verdict {
        PostVerdict::Finished => PostState::Finished,
        PostVerdict::MoreProcessing => PostState::Held,
    }
}
