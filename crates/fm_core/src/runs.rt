//! Events as values, one after another.

ghost use Rattle.std.specs.Prelude.{◌≡◌, IfErr, IfOk};
ghost use Rattle.fm_world.specs.World.{empty_world};
ghost use Rattle.fm_core.specs.Returned.{status_of};
ghost use Rattle.fm_world.specs.Events.{BaseReturns, PostReturns, PreReturns};
ghost use Rattle.fm_world.specs.Steps.{Steps, RunThrough};
ghost use Rattle.fm_world.specs.Headline.{Headline};
ghost use Rattle.fm_world.specs.Hands.{HoldsNone, KeepsHands, OnlyHandOf};
ghost use Rattle.fm_world.specs.StepHands.{HandsAfter, worker_of};

use crate::state::State;
use fm_callback_data::{Answer, BaseCall, CallbackData, PostVerdict, PreVerdict};
use fm_types::{Status, WorkerId};
use fm_world::{Refused, Step, StepReply};
use std::alloc::Global;

/// The answer without what a refusal hands back.
fn without_data<T: Drop>(result_given: Result<(), Refused<T>>) -> Result<(), Status>
    ensures { result ≡ status_of result_given }
{
    match result_given {
        Ok(()) => Ok(()),
        Err(refused) => Err(refused.status),
    }
}

impl State {
    // A preoperation's return, of which nothing is handed back.
    fn pre_done(
        &mut self,
        worker: WorkerId,
        verdict: PreVerdict,
        lent: CallbackData,
    ) -> Result<(), Status>
        ensures event { PreReturns self.old worker verdict lent result self.new }
        ensures hand { OnlyHandOf worker.0 self.old self.new }
        ensures held { HoldsNone worker.0 result self.old self.new }
    {
        without_data(self.pre_returned(worker, verdict, lent))
    }

    // A base call's return, of which nothing is handed back.
    fn base_done(&mut self, worker: WorkerId, call: BaseCall, answer: Answer) -> Result<(), Status>
        ensures event { BaseReturns self.old worker call answer result self.new }
        ensures hand { KeepsHands self.old self.new }
    {
        without_data(self.base_returned(worker, call, answer))
    }

    // A postoperation's return, of which nothing is handed back.
    fn post_done(
        &mut self,
        worker: WorkerId,
        verdict: PostVerdict,
        lent: Option<CallbackData>,
    ) -> Result<(), Status>
        ensures event { PostReturns self.old worker verdict lent result self.new }
        ensures hand { OnlyHandOf worker.0 self.old self.new }
        ensures held { HoldsNone worker.0 result self.old self.new }
    {
        without_data(self.post_returned(worker, verdict, lent))
    }

    /// Makes one event, and tells what it answered. What a refusal hands back is dropped. Of the workers' hands it changes at most that of the worker that the
    /// event names, by as much as its kind and its answer say.
    #[tactic(auto, using(fm_world::proofs::Handing::keeps_held, fm_world::proofs::Handing::setup_left, fm_world::proofs::Handing::query_left, fm_world::proofs::Handing::start_left, fm_world::proofs::Handing::complete_left, fm_world::proofs::Handing::routine_left, fm_world::proofs::Handing::resume_left))]
    pub fn step(&mut self, step: Step) -> StepReply
        ensures event { Steps self.old step result self.new }
        ensures hands { HandsAfter (worker_of step) step result self.old self.new }
    {
        match step {
            Step::Register { name, registration } => StepReply::Filter(self.register(
                name,
                registration,
            )),
            Step::Mount { name } => StepReply::Volume(self.mount(name)),
            Step::Attach {
                worker,
                filter,
                volume,
                name,
                altitude,
            } => StepReply::Instance(self.attach(worker, filter, volume, name, altitude)),
            Step::SetupDone { worker, accept } => StepReply::Done(self.setup_done(worker, accept)),
            Step::Begin(what) => StepReply::Operation(self.begin(what)),
            Step::BeginFrom(from, what) => StepReply::Operation(self.begin_from(from, what)),
            Step::Next { worker, operation } => StepReply::Action(self.next(worker, operation)),
            Step::PreReturned {
                worker,
                verdict,
                data,
            } => StepReply::Done(self.pre_done(worker, verdict, data)),
            Step::BaseReturned {
                worker,
                call,
                answer,
            } => StepReply::Done(self.base_done(worker, call, answer)),
            Step::PostReturned {
                worker,
                verdict,
                data,
            } => StepReply::Done(self.post_done(worker, verdict, data)),
            Step::ResumePre {
                worker,
                operation,
                verdict,
            } => StepReply::Done(self.resume_pre(worker, operation, verdict)),
            Step::ResumePost { worker, operation } => StepReply::Done(self.resume_post(
                worker, operation,
            )),
            Step::FirstHeld { worker, hold } => StepReply::Held(self.first_held(worker, hold)),
            Step::Collect { operation } => StepReply::Answer(self.collect(operation)),
            Step::Allocate { worker, kind, body } => StepReply::Context(self.allocate(
                worker, kind, body,
            )),
            Step::Set {
                worker,
                context,
                mode,
                wants_old,
            } => StepReply::Set(self.set(worker, context, mode, wants_old)),
            Step::Get { worker, kind } => StepReply::Context(self.get(worker, kind)),
            Step::Delete {
                worker,
                kind,
                wants_old,
            } => StepReply::Old(self.delete(worker, kind, wants_old)),
            Step::Reference { worker, context } => StepReply::Done(self.reference(worker, context)),
            Step::Release { worker, context } => StepReply::Done(self.release(worker, context)),
            Step::ReadBody { worker, context } => StepReply::Body(self.read_body(worker, context)),
            Step::WriteBody {
                worker,
                context,
                bytes,
            } => StepReply::Done(self.write_body(worker, context, bytes.as_slice())),
            Step::Bump {
                worker,
                context,
                place,
                by,
            } => StepReply::Number(self.bump(worker, context, place, by)),
            Step::TakeDue { worker } => StepReply::Due(self.take_due(worker)),
            Step::Cleaned { worker, number } => StepReply::Done(self.cleaned(worker, number)),
            Step::AskDetach { worker, instance } => StepReply::Done(self.ask_detach(
                worker, instance,
            )),
            Step::QueryReturned { worker, allow } => StepReply::Done(self.query_returned(
                worker, allow,
            )),
            Step::StartTeardown { worker, instance } => StepReply::Done(self.start_teardown(
                worker, instance,
            )),
            Step::StartReturned { worker } => StepReply::Done(self.start_returned(worker)),
            Step::DrainTake { worker, instance } => StepReply::Drained(self.drain_take(
                worker, instance,
            )),
            Step::DrainDone { worker } => StepReply::Done(self.drain_done(worker)),
            Step::CompleteTeardown { worker, instance } => StepReply::Done(self.complete_teardown(
                worker, instance,
            )),
            Step::CompleteReturned { worker } => StepReply::Done(self.complete_returned(worker)),
            Step::EnterRoutine {
                worker,
                instance,
                handle,
            } => StepReply::Done(self.enter_routine(worker, instance, handle)),
            Step::RoutineReturned { worker } => StepReply::Done(self.routine_returned(worker)),
            Step::AskUnload { worker, filter } => StepReply::Done(self.ask_unload(worker, filter)),
            Step::UnloadReturned { worker, allow } => StepReply::Done(self.unload_returned(
                worker, allow,
            )),
            Step::ForceUnload { filter } => StepReply::Done(self.force_unload(filter)),
            Step::EmptyFilter { filter } => StepReply::Done(self.empty_filter(filter)),
            Step::FinishFilter { filter } => StepReply::Done(self.finish_filter(filter)),
            Step::StartDismount { volume } => StepReply::Done(self.start_dismount(volume)),
            Step::DropHandle { volume } => StepReply::Dropped(self.drop_handle(volume)),
            Step::EmptyVolume { volume } => StepReply::Done(self.empty_volume(volume)),
            Step::FinishVolume { volume } => StepReply::Done(self.finish_volume(volume)),
            Step::ChangeHeld {
                worker,
                operation,
                params,
            } => StepReply::Done(self.change_held(worker, operation, params)),
            Step::Finish { instance } => StepReply::Done(self.finish(instance)),
        }
    }
}

/// The events of a list, from the empty state: the state that they lead to, and what each answered. The contract says that each reply is the event's,
/// and that the Headline holds after each. Refused with 1 alone, where memory for the replies or the state was refused. The events are taken by value,
/// so that no byte that they bring is copied.
pub fn run(alloc: Global, steps: Vec<Step>) -> Result<(State, Vec<StepReply>), Status>
    ensures run { IfOk result (λ ended. RunThrough Headline empty_world steps.items ended.1.items ended.0) }
    ensures memory { IfErr result (λ status. status ≡ Status.NoMemory) }
{
    let mut state = State::new(alloc)?;
    let mut replies = Vec::new(alloc);
    for step in steps {
        let reply = state.step(step);
        state.headline();
        replies.push(reply)?;
    }
    Ok((state, replies))
}
