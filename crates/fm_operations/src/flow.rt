//! All operations that were begun and not yet collected.

ghost use Rattle.std.specs.Prelude.{◌≡◌, ◌+◌, ◌<◌, ◌≤◌, ◌^◌, ◌&&◌, ◌∷◌, [], ℕ, true, false, length, Option, Some, None, Ok, Err, IsTrue, IfOk, option_copied, is_some, position, count_by, find, if◌then◌else◌};
ghost use Rattle.std.specs.List.{list_any};
ghost use Rattle.fm_callback_data.specs.Params.{is_within_limits, are_on};
ghost use Rattle.fm_operations.specs.Verdict.{is_counted};
ghost use Rattle.fm_operations.specs.Steps.{next_of, may_take, passed_up, with_visit, data_reply, pre_after, base_reply, base_after, post_after, takes, changed_held, pre_settled, post_settled, drain_returned_of};
ghost use Rattle.fm_operations.specs.Holds.{is_held, IsFirstHeld};
ghost use Rattle.fm_operations.specs.Creates.{is_creating, is_on_stream, has_create_on, creates, is_over};
ghost use Rattle.fm_operations.specs.Tallied.{IsAscending, entered, left_pre, left_post, if_taken};
ghost use Rattle.fm_operations.specs.Drains.{owes, DrainTaken, RunsEarly, drain_done_of};
ghost use Rattle.fm_operations.specs.Flights.{flies};
ghost use Rattle.fm_operations.specs.OnVolumes.{is_left_on, left_on};
ghost use Rattle.fm_operations.specs.Initiators.{is_below, is_begun_by, begun_by};
ghost use Rattle.fm_operations.specs.Table.{in_flight, IsFlow, MayLieBelowOf, OwesNext, StandsAt, empty_table, is_number, operation_at, changed, placed, told, is_full, is_collectable, BeginsRecord, collect_reply, collected_of, is_spent};

use crate::action::{Below, FlowAction};
use crate::boxed_record::BoxedRecord;
use crate::entry::{Ask, PostState, PreState};
use crate::flights::Flights;
use crate::hold::Hold;
use crate::operation_record::{OperationRecord, post_state};
use crate::room::Room;
use crate::stage::Stage;
use fm_callback_data::{Answer, BaseCall, CallbackData, Completion, Params, PostVerdict};
use fm_types::limits::{INSTANCES, OPERATIONS};
use fm_types::{HandleId, InstanceId, OpId, SharedPath, Status, StreamId, VolumeId, WorkerId};
use std::alloc::{AllocError, Global};
use std::marker::Model;

/// The operations, in the order of their numbers, which count up from 0.
#[derive(Drop)]
pub struct Flow {
    alloc: Global,
    operations: Vec<BoxedRecord>,
    // beside the operations: how many weren't collected, and how many are creates that nobody answered
    under_way: usize,
    creates: usize,
    // and how many are in flight at each instance
    flights: Flights,
    // of an operation that is over, for the next one
    room: Option<Room>,
    next: u64,
}

impl Model for Flow {
    ghost use Rattle.fm_operations.specs.Table.{FlowTable, IsFlow};
    ghost use Rattle.fm_operations.specs.Tallied.{IsTallied};

    ghost Value = { FlowTable };

    ghost view = { λ f. record { operations = f.operations.items; next = f.next } };

    ghost invariant = { λ f. IsFlow (record { operations = f.operations.items; next = f.next }) × IsTallied f.under_way f.creates f.flights f.operations.items };
}

// By halves: the numbers ascend.
#[inline(never)]
fn search(operations: &[BoxedRecord], number: OpId) -> Option<usize>
    requires { IsAscending operations.now }
    ensures { result ≡ position (is_number number) operations.now }
{
    operations
        .binary_search_by_key(&number.0, |operation| operation.as_ref().number().0)
        .ok()
}

// Mostly it is the last one.
fn place_of(operations: &[BoxedRecord], number: OpId) -> Option<usize>
    requires { IsAscending operations.now }
    ensures { result ≡ position (is_number number) operations.now }
{
    let count = operations.len();
    if count > 0 && operations[count - 1].as_ref().number().0 == number.0 {
        return Some(count - 1);
    }
    search(operations, number)
}

// the place of one that is there
fn standing(operations: &[BoxedRecord], number: OpId) -> usize
    requires there { is_some (find (is_number number) operations.now) ≡ true }
    requires ascending { IsAscending operations.now }
    ensures { position (is_number number) operations.now ≡ Some result }
{
    let Some(place) = place_of(operations, number) else {
        unreachable!();
    };
    place
}

#[tactic(auto, using(crate::proofs::Tallied::place_inside))]
fn record_of(operations: &[BoxedRecord], number: OpId) -> Option<&OperationRecord>
    requires { IsAscending operations.now }
    ensures { option_copied result ≡ find (is_number number) operations.now }
{
    let place = place_of(operations, number)?;
    Some(operations[place].as_ref())
}

fn held_place(operations: &[BoxedRecord], hold: Hold, instance: InstanceId) -> Option<usize>
    ensures { result ≡ position (is_held hold instance.0) operations.now }
{
    operations
        .iter()
        .position(|operation| operation.as_ref().is_held(hold, instance))
}

fn first_held(
    operations: &[BoxedRecord],
    hold: Hold,
    instance: InstanceId,
) -> Option<&OperationRecord>
    ensures { option_copied result ≡ find (is_held hold instance.0) operations.now }
{
    let place = held_place(operations, hold, instance)?;
    Some(operations[place].as_ref())
}

fn owing_place(operations: &[BoxedRecord], instance: InstanceId) -> Option<usize>
    ensures { result ≡ position (owes instance.0) operations.now }
{
    operations
        .iter()
        .position(|operation| operation.as_ref().owes(instance))
}

// Where an instance's number isn't kept.
fn flying(operations: &[BoxedRecord], instance: InstanceId) -> usize
    ensures { result ≡ count_by (flies instance.0) operations.now }
{
    operations
        .iter()
        .filter(|operation| operation.as_ref().is_in_flight(instance))
        .count()
}

fn is_left_on(operation: &OperationRecord, volume: VolumeId) -> bool
    ensures { result ≡ is_left_on volume operation.now }
{
    !operation.is_collected() && operation.volume().0 == volume.0
}

fn left_on(operations: &[BoxedRecord], volume: VolumeId) -> usize
    ensures { result ≡ count_by (is_left_on volume) operations.now }
{
    operations
        .iter()
        .filter(|operation| is_left_on(operation.as_ref(), volume))
        .count()
}

fn is_below(instance: InstanceId, below: Option<InstanceId>) -> bool
    ensures { result ≡ is_below instance.0 below }
{
    match below {
        Some(below) => below.0 == instance.0,
        None => false,
    }
}

fn is_begun_by(operation: &OperationRecord, instance: InstanceId) -> bool
    ensures { result ≡ is_begun_by instance.0 operation.now }
{
    !operation.is_collected() && is_below(instance, operation.below())
}

fn begun_by(operations: &[BoxedRecord], instance: InstanceId) -> usize
    ensures { result ≡ count_by (is_begun_by instance.0) operations.now }
{
    operations
        .iter()
        .filter(|operation| is_begun_by(operation.as_ref(), instance))
        .count()
}

// How many pass a test, where one of them may have come to pass it or to fail it.
fn recounted(count: usize, did_pass: bool, passes: bool) -> usize
    requires some { did_pass ≡ true → 0 < count }
    requires few { count ≤ 256 }
    ensures { result + (if did_pass then 1 else 0) ≡ count + (if passes then 1 else 0) }
{
    match (did_pass, passes) {
        (true, false) => count - 1,
        (false, true) => count + 1,
        _ => count,
    }
}

// The instance to which the answer of `next` brings an operation on its way down.
fn entered(below: Below, reply: &Result<FlowAction, Status>) -> Option<InstanceId>
    ensures { result ≡ entered below reply.now }
{
    match (reply, below) {
        (Ok(FlowAction::Pre(instance, _)), _) => Some(*instance),
        (Ok(FlowAction::Moved), Below::Instance(instance, _)) => Some(instance),
        _ => None,
    }
}

// The instance that an operation leaves where a preoperation there gives that verdict: none where it asks or holds.
fn left_pre(state: PreState, instance: Option<InstanceId>) -> Option<InstanceId>
    ensures { result ≡ left_pre state instance }
{
    match state {
        PreState::Passed | PreState::Completed(_) => instance,
        _ => None,
    }
}

// And where a postoperation does.
fn left_post(state: PostState, instance: Option<InstanceId>) -> Option<InstanceId>
    ensures { result ≡ left_post state instance }
{
    match state {
        PostState::Finished => instance,
        _ => None,
    }
}

// None where the data was handed back.
fn if_taken(reply: &Result<(), CallbackData>, instance: Option<InstanceId>) -> Option<InstanceId>
    ensures { result ≡ if_taken reply.now instance }
{
    match reply {
        Ok(()) => instance,
        Err(_) => None,
    }
}

fn is_on_stream(stream: StreamId, other: Option<StreamId>) -> bool
    ensures { result ≡ is_on_stream stream other }
{
    match other {
        Some(other) => other.0 == stream.0,
        None => false,
    }
}

fn is_create_on(operation: &OperationRecord, stream: StreamId) -> bool
    ensures { result ≡ (is_creating operation.now && is_on_stream stream operation.now.stream) }
{
    operation.is_creating() && is_on_stream(stream, operation.stream())
}

fn is_created(operations: &[BoxedRecord], stream: StreamId) -> bool
    ensures { result ≡ list_any (λ r. is_creating r && is_on_stream stream r.stream) operations.now }
{
    operations
        .iter()
        .any(|operation| is_create_on(operation.as_ref(), stream))
}

fn is_collectable(operation: &OperationRecord) -> bool
    ensures { result ≡ is_collectable operation.now }
{
    !operation.is_collected() && operation.is_done()
}

// whether nobody needs it any more
fn is_spent(operation: &OperationRecord) -> bool
    ensures { result ≡ is_spent operation.now }
{
    operation.is_collected() && !operation.has_running_drain()
}

impl Flow {
    /// No operation, and a number for each of 4,096 instances; the error says that memory was refused.
    pub fn new(alloc: Global) -> Result<Flow, AllocError>
        ensures { IfOk result (λ flow. flow ≡ empty_table) }
    {
        let flights = Flights::new(alloc)?;
        Ok(Flow {
            alloc,
            operations: Vec::new(alloc),
            under_way: 0,
            creates: 0,
            flights,
            room: None,
            next: 0,
        })
    }

    /// The laws of all operations, for callers that rest on them: each is sound, their numbers ascend
    /// and lie below the next, at most 256 aren't collected, and of each that was collected a drain
    /// runs. It does nothing.
    pub fn laws(&self)
        ensures { IsFlow self.now }
    {
        let _ = &self.next;
    }

    /// The operation of that number: also one whose answer was handed out, while a drain of it runs.
    pub fn record(&self, number: OpId) -> Option<&OperationRecord>
        ensures { option_copied result ≡ operation_at number self.now }
    {
        record_of(&self.operations, number)
    }

    /// The number that the next operation gets.
    pub fn next_number(&self) -> u64
        ensures result { result ≡ self.now.next }
        ensures number { self.now.next < 2 ^ 64 }
    {
        self.next
    }

    /// How many records of operations there are: also one whose answer was handed out, while a drain of it runs.
    pub fn operations(&self) -> usize
        ensures { result ≡ length self.now.operations }
    {
        self.operations.len()
    }

    /// How many creates are under way: begun, and answered by neither the base nor a filter.
    pub fn creates(&self) -> usize
        ensures { result ≡ creates self.now }
    {
        self.creates
    }

    /// Whether a create of that stream is under way.
    pub fn has_create_on(&self, stream: StreamId) -> bool
        ensures { result ≡ has_create_on stream self.now }
    {
        self.creates > 0 && is_created(&self.operations, stream)
    }

    /// Whether an operation that was begun is done; it is, where its answer was handed out.
    pub fn is_over(&self, number: OpId) -> bool
        ensures { result ≡ is_over number self.now }
    {
        match self.record(number) {
            Some(operation) => operation.is_done(),
            None => true,
        }
    }

    /// The next step of an operation, by that worker (`FltStartCallbacks` and the descent and ascent
    /// through the instances of a volume). `below` says what lies below it, if it is on its way down:
    /// an instance that it didn't visit, of fewer than 32 visits. `is_stopping` says whether the
    /// instance that is owed its next postoperation is being torn down. Refused with 30, nothing
    /// changed, where there is no such operation, its answer was handed out, a worker has it, or its
    /// next postoperation is another worker's. All other operations stay. It takes no memory.
    pub fn next(
        &mut self,
        number: OpId,
        worker: WorkerId,
        below: Below,
        is_stopping: bool,
    ) -> Result<FlowAction, Status>
        requires { MayLieBelowOf below (operation_at number self.old) }
        ensures reply { result ≡ told (λ r. (next_of worker below is_stopping r).reply) (Err Status.WrongStep) number self.old }
        ensures after { self.new ≡ changed number (λ r. (next_of worker below is_stopping r).after) self.old }
    {
        let Some(place) = place_of(&self.operations, number) else {
            return Err(Status::WrongStep);
        };
        let count = self.operations.len();
        let operation = self.operations[place].as_mut();
        let was_creating = operation.is_creating();
        let reply = operation.next(worker, below, is_stopping);
        self.creates = recounted(self.creates, was_creating, operation.is_creating());
        self.flights.enters(entered(below, &reply), count);
        reply
    }

    /// An operation passes the next instance on its way down: in one step what `next` and
    /// `pre_returned` make of it where the instance's preoperation changes nothing of its data and asks for
    /// its postoperation with that completion. The operation has to be on its way down, and the instance has
    /// to lie below it. All other operations stay. It takes no memory.
    #[inline(always)]
    pub fn pass_down(
        &mut self,
        number: OpId,
        worker: WorkerId,
        instance: InstanceId,
        completion: Completion,
    )
        requires stage { StandsAt Stage.Descending (operation_at number self.old) }
        requires lies { MayLieBelowOf (Below.Instance instance true) (operation_at number self.old) }
        ensures { self.new ≡ changed number (with_visit worker instance (PreState.Asked completion)) self.old }
    {
        let place = standing(&self.operations, number);
        let count = self.operations.len();
        let operation = self.operations[place].as_mut();
        operation.pass_down(worker, instance, completion);
        self.flights.enters(Some(instance), count);
    }

    /// An operation passes the instance that is owed its next postoperation: in one step what `next` and
    /// `post_returned` make of it where that postoperation changes nothing of the answer and finishes. The
    /// operation has to owe it next, and the worker has to be one that may make it. All other operations
    /// stay. It takes no memory.
    #[inline(always)]
    pub fn pass_up(&mut self, number: OpId, worker: WorkerId, ask: Ask)
        requires owes { OwesNext ask (operation_at number self.old) }
        requires may { may_take worker ask ≡ true }
        ensures { self.new ≡ changed number (passed_up worker ask) self.old }
    {
        let place = standing(&self.operations, number);
        let operation = self.operations[place].as_mut();
        operation.pass_up(worker, ask);
        self.flights.leaves(Some(ask.instance));
    }

    /// Begins an operation, with all the memory that it will need (`FLT_CALLBACK_DATA` is made for a
    /// request). `path` is that of the file that it is on, which a create names; a listing has none. The
    /// parameters have to be within the limits. Refused with 29 at 256 operations whose
    /// answer wasn't handed out, and where the numbers run out; with 1 where memory is refused.
    /// A refusal changes nothing.
    #[tactic(auto, using(crate::proofs::Tallied::creates_few))]
    pub fn begin(
        &mut self,
        volume: VolumeId,
        stream: Option<StreamId>,
        handle: Option<HandleId>,
        born: u64,
        path: Option<SharedPath>,
        params: Params,
    ) -> Result<OpId, Status>
        requires limits { IsTrue (is_within_limits params) }
        requires file { are_on path params ≡ true }
        ensures { BeginsRecord volume stream handle born path params self.old result self.new }
    {
        if self.is_full() {
            return Err(Status::TooMany);
        }
        let number = OpId(self.next);
        let room = match self.room.take() {
            Some(room) => room,
            None => Room::new(self.alloc)?,
        };
        let record = OperationRecord::begin(
            self.alloc, room, number, volume, stream, handle, born, path, params,
        )?;
        let is_creating = record.is_creating();
        let record = BoxedRecord::new(self.alloc, record)?;
        self.operations.push(record)?;
        self.under_way += 1;
        self.creates = recounted(self.creates, false, is_creating);
        self.next += 1;
        Ok(number)
    }

    /// An operation that has just begun is named an instance, whose filter asked for it (`InitiatingInstance`
    /// of `FltReadFile` and its like): it visits those instances alone that were born before `born`, at
    /// the base none, and lie below that one if one is named. The operation has to be there. All other
    /// operations stay. It takes no memory.
    pub fn place_below(&mut self, number: OpId, below: Option<InstanceId>, born: u64)
        requires { is_some (operation_at number self.old) ≡ true }
        ensures { self.new ≡ changed number (placed below born) self.old }
    {
        let place = standing(&self.operations, number);
        self.operations[place].as_mut().place_below(below, born);
    }

    /// Whether no operation can begin: 256 are there whose answer wasn't handed out, or the numbers run
    /// out.
    pub fn is_full(&self) -> bool
        ensures { result ≡ is_full self.now }
    {
        self.under_way >= OPERATIONS || self.next == u64::MAX
    }

    /// A preoperation callback of an operation returns, with the verdict that counts (`counted`). The
    /// operation has to be in such a callback. Data that isn't of the operation, of another kind, on
    /// another path of a create or past a limit, is handed back, and nothing changes. All other
    /// operations stay. It takes no memory.
    pub fn pre_returned(
        &mut self,
        number: OpId,
        state: PreState,
        lent: CallbackData,
    ) -> Result<(), CallbackData>
        requires stage { StandsAt Stage.PreRunning (operation_at number self.old) }
        requires counted { is_counted state ≡ true }
        ensures reply { result ≡ told (data_reply lent) (Err lent) number self.old }
        ensures after { self.new ≡ changed number (pre_after state lent) self.old }
    {
        let place = standing(&self.operations, number);
        let operation = self.operations[place].as_mut();
        let was_creating = operation.is_creating();
        let instance = operation.last_visited();
        let reply = operation.pre_returned(state, lent);
        self.creates = recounted(self.creates, was_creating, operation.is_creating());
        self.flights
            .leaves(if_taken(&reply, left_pre(state, instance)));
        reply
    }

    /// The base answers an operation, and gives its call back. `handle` is the number that
    /// a create's success gives its handle. What counts of a success is the number of bytes read,
    /// written or listed, the size or the handle, and of a fault its status alone. The operation has to be at
    /// the base. A call that isn't of the operation and an answer of more than 32,768 bytes are handed
    /// back, and nothing changes. All other operations stay. It takes no memory.
    pub fn base_returned(
        &mut self,
        number: OpId,
        call: BaseCall,
        answer: Answer,
        handle: HandleId,
    ) -> Result<(), (BaseCall, Answer)>
        requires { StandsAt Stage.InBase (operation_at number self.old) }
        ensures reply { result ≡ told (base_reply call answer) (Err (call, answer)) number self.old }
        ensures after { self.new ≡ changed number (base_after call answer handle) self.old }
    {
        let place = standing(&self.operations, number);
        let operation = self.operations[place].as_mut();
        let was_creating = operation.is_creating();
        let reply = operation.base_returned(call, answer, handle);
        self.creates = recounted(self.creates, was_creating, operation.is_creating());
        reply
    }

    /// A postoperation callback of an operation returns. The operation has to be in such a callback.
    /// Data that isn't of the operation is handed back, and nothing changes. What the callback made of
    /// the answer counts, but on a create, a cleanup and a close. All other operations stay. It takes
    /// no memory.
    pub fn post_returned(
        &mut self,
        number: OpId,
        verdict: PostVerdict,
        lent: CallbackData,
    ) -> Result<(), CallbackData>
        requires { StandsAt Stage.PostRunning (operation_at number self.old) }
        ensures reply { result ≡ told (data_reply lent) (Err lent) number self.old }
        ensures after { self.new ≡ changed number (post_after verdict lent) self.old }
    {
        let place = standing(&self.operations, number);
        let operation = self.operations[place].as_mut();
        let instance = operation.last_posted();
        let reply = operation.post_returned(verdict, lent);
        self.flights
            .leaves(if_taken(&reply, left_post(post_state(verdict), instance)));
        reply
    }

    /// A held preoperation of an operation is resumed, with the verdict that counts (`FltCompletePendedPreOperation`). The operation has to be held
    /// in one. All other operations stay. It takes no memory.
    pub fn resume_pre(&mut self, number: OpId, state: PreState)
        requires stage { StandsAt Stage.PreHeld (operation_at number self.old) }
        requires counted { is_counted state ≡ true }
        ensures { self.new ≡ changed number (pre_settled state) self.old }
    {
        let place = standing(&self.operations, number);
        let operation = self.operations[place].as_mut();
        let was_creating = operation.is_creating();
        let instance = operation.last_visited();
        operation.resume_pre(state);
        self.creates = recounted(self.creates, was_creating, operation.is_creating());
        self.flights.leaves(left_pre(state, instance));
    }

    /// A preoperation that holds an operation has those parameters go down in place of what it received, which its own postoperation is to see still. The
    /// operation has to be held in one, and the parameters to be its own. All other operations stay. It takes no memory.
    pub fn change_held(&mut self, number: OpId, params: Params)
        requires stage { StandsAt Stage.PreHeld (operation_at number self.old) }
        requires fits { told (takes params) false number self.old ≡ true }
        ensures { self.new ≡ changed number (changed_held params) self.old }
    {
        let place = standing(&self.operations, number);
        self.operations[place].as_mut().change_held(params);
    }

    /// A held postoperation of an operation is over (`FltCompletePendedPostOperation`). The operation has to be held in one. All other operations
    /// stay. It takes no memory.
    pub fn resume_post(&mut self, number: OpId)
        requires { StandsAt Stage.PostHeld (operation_at number self.old) }
        ensures { self.new ≡ changed number (post_settled PostState.Finished) self.old }
    {
        let place = standing(&self.operations, number);
        let operation = self.operations[place].as_mut();
        let instance = operation.last_posted();
        operation.resume_post();
        self.flights.leaves(instance);
    }

    /// The lowest number of those operations that a callback of that kind of the instance holds.
    pub fn first_held(&self, hold: Hold, instance: InstanceId) -> Option<OpId>
        ensures { IsFirstHeld hold instance.0 self.now result }
    {
        let operation = first_held(&self.operations, hold, instance)?;
        Some(operation.number())
    }

    /// The drain that has an operation is over. All other operations stay. It takes no memory.
    pub fn drain_returned(&mut self, number: OpId, instance: InstanceId)
        requires { StandsAt (Stage.InDrain instance) (operation_at number self.old) }
        ensures { self.new ≡ changed number (drain_returned_of instance) self.old }
    {
        let place = standing(&self.operations, number);
        self.operations[place].as_mut().drain_returned(instance);
        self.flights.leaves(Some(instance));
    }

    /// How many operations are in flight at an instance: a callback there runs or holds them, or they
    /// owe the instance a postoperation. One counts also after its answer was handed out, while a
    /// drain of it runs.
    pub fn in_flight(&self, instance: InstanceId) -> u64
        ensures { result ≡ in_flight instance.0 self.now }
    {
        if (instance.0 as usize) < INSTANCES {
            return self.flights.of(instance) as u64;
        }
        flying(&self.operations, instance) as u64
    }

    /// How many operations of a volume weren't collected. A drain that runs for one whose answer was
    /// handed out doesn't count.
    pub fn left_on(&self, volume: VolumeId) -> u64
        ensures { result ≡ left_on volume self.now }
    {
        left_on(&self.operations, volume) as u64
    }

    /// How many operations an instance's filter asked for itself, whose answers weren't handed out.
    pub fn begun_by(&self, instance: InstanceId) -> u64
        ensures { result ≡ begun_by instance.0 self.now }
    {
        begun_by(&self.operations, instance) as u64
    }

    /// Gives an instance that is torn down the completion of a postoperation that it is owed, before
    /// its place in the ascent (`FLTFL_POST_OPERATION_DRAINING`): that of the operation of the lowest
    /// number that owes it one, whatever the operation is doing. The drain runs from then on; the
    /// operation stays where it is, and goes on. None, nothing changed, where no operation owes the
    /// instance anything. All other operations stay. It takes no memory.
    pub fn drain_take(&mut self, instance: InstanceId) -> Option<(OpId, Completion)>
        ensures { DrainTaken instance self.old result self.new }
    {
        let place = owing_place(&self.operations, instance)?;
        let operation = self.operations[place].as_mut();
        let completion = operation.drain_early(instance);
        Some((operation.number(), completion))
    }

    /// A drain that `drain_take` gave is over. The record of an operation whose answer was handed out
    /// goes, where no other drain of it runs. The drain has to run, and not to be the one
    /// that has the operation. All other operations stay. It takes no memory.
    pub fn drain_done(&mut self, number: OpId, instance: InstanceId)
        requires { RunsEarly instance (operation_at number self.old) }
        ensures { self.new ≡ drain_done_of number instance self.old }
    {
        let place = standing(&self.operations, number);
        let operation = self.operations[place].as_mut();
        operation.early_over(instance);
        self.flights.leaves(Some(instance));
        if is_spent(operation) {
            self.operations.remove(place);
        }
    }

    /// Hands out the answer of a done operation (the request is completed), once. Its record goes, or
    /// stays for a drain that still runs. Refused with 30, nothing changed, where there is no such
    /// operation, it isn't done, or its answer was handed out. It takes no memory.
    pub fn collect(&mut self, number: OpId) -> Result<Answer, Status>
        ensures reply { result ≡ told collect_reply (Err Status.WrongStep) number self.old }
        ensures after { self.new ≡ collected_of number self.old }
    {
        let Some(place) = place_of(&self.operations, number) else {
            return Err(Status::WrongStep);
        };
        if !is_collectable(self.operations[place].as_ref()) {
            return Err(Status::WrongStep);
        }
        self.under_way -= 1;
        if self.operations[place].as_ref().has_running_drain() {
            let operation = self.operations[place].as_mut();
            return Ok(operation.hand_out());
        }
        let (answer, room) = self.operations.remove(place).into_record().into_answer();
        self.room = Some(room);
        Ok(answer)
    }
}
