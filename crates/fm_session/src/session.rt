//! The state, and what its workers were lent.

ghost use Rattle.std.specs.Prelude.{◌≡◌, true, IfErr, IfNone, IfOk, IfSome, option_copied, replicate, slice_get};
ghost use Rattle.fm_world.specs.World.{empty_world};
ghost use Rattle.fm_world.specs.Events.{Attaches, BaseReturns, Collects, SetsUp};
ghost use Rattle.fm_world.specs.Steps.{Steps};
ghost use Rattle.fm_session.specs.Sessions.{LentPasses, LendsNext, LentPreReturns, LentPostReturns, LentBaseReturns, LentBaseAnswered, LentChanges, LentAnswers, lent_to, lend, lent_by, given_by, pre_in, post_in, base_in, post_lent, lent_back};
ghost use Rattle.fm_session.specs.declared.lent.Lent.{Lent};
ghost use Rattle.fm_session.specs.declared.lent.Lent.TheVariants as lent;

use crate::lent::{Given, Lent};
use fm_altitude::Altitude;
use fm_callback_data::{Answer, BaseCall, CallbackData, Params, PostVerdict, PreVerdict};
use fm_core::{Passed, Refused, State, Step, StepReply};
use fm_device::Device;
use fm_operations::FlowAction;
use fm_types::limits::WORKERS;
use fm_types::{Bytes, FilterId, InstanceId, Name, OpId, Status, VolumeId, WorkerId};
use std::alloc::Global;
use std::marker::Model;
use std::mem;

/// A state, and for each worker what it was lent. Contracts see both.
#[derive(Drop)]
pub struct Session {
    state: State,
    lent: Vec<Lent>,
}

impl Model for Session {
    ghost use Rattle.fm_session.specs.Sessions.{Lending};

    ghost Value = { Lending };

    ghost view = { λ s. record { world = s.state; lent = s.lent.items } };
}

impl Session {
    /// The state before the first event, and 48 workers of which none was lent anything. Refused with 1 if memory was refused.
    pub fn new(alloc: Global) -> Result<Self, Status>
        ensures empty { IfOk result (λ session. session.world ≡ empty_world) }
        ensures lent { IfOk result (λ session. session.lent ≡ replicate 48 lent.Nothing) }
        ensures memory { IfErr result (λ status. status ≡ Status.NoMemory) }
    {
        let state = State::new(alloc)?;
        let mut lent = Vec::new(alloc);
        for _ in 0..WORKERS {
            lent.push(Lent::Nothing)?;
        }
        Ok(Session { state, lent })
    }

    /// The state, to be read.
    pub fn state(&self) -> &State
        ensures { result.now ≡ self.now.world }
    {
        &self.state
    }

    /// What a worker was lent and hasn't given back; none where there is no such worker.
    pub fn lent(&self, worker: WorkerId) -> Option<&Lent>
        ensures { option_copied result ≡ slice_get self.now.lent worker.0 }
    {
        self.lent.get(usize::from(worker.0))
    }

    /// The callback that the worker is in puts other parameters in place of those that it received, and marks its data dirty (`FltSetCallbackDataDirty`).
    /// Refused with 30 where the worker was lent no callback data, and with 32 for parameters of another operation, on another path of a create, or past
    /// a limit. A refusal changes nothing; the state stays in either case. A postoperation's are dropped at its return.
    pub fn change(&mut self, worker: WorkerId, params: Params) -> Result<(), Status>
        ensures { LentChanges self.old worker params result self.new }
    {
        match self.lent.get_mut(usize::from(worker.0)) {
            Some(lent) => lent.change(params),
            None => Err(Status::WrongStep),
        }
    }

    /// The callback that the worker is in puts a status and a number in the answer (`IoStatus`), and bytes, where it gives some; else the bytes stay.
    /// Refused with 30 where the worker was lent no callback data, and with 32 above 32,768 bytes. A refusal changes nothing; the state stays in either
    /// case.
    pub fn answer(
        &mut self,
        worker: WorkerId,
        status: Status,
        information: u64,
        bytes: Option<Bytes>,
    ) -> Result<(), Status>
        ensures { LentAnswers self.old worker status information bytes result self.new }
    {
        match self.lent.get_mut(usize::from(worker.0)) {
            Some(lent) => lent.answer(status, information, bytes),
            None => Err(Status::WrongStep),
        }
    }

    /// Makes one event, as `State::step` does. What it lends or takes back is the caller's: the session keeps nothing of it.
    pub fn step(&mut self, step: Step) -> StepReply
        ensures event { Steps self.old.world step result self.new.world }
        ensures lent { self.new.lent ≡ self.old.lent }
    {
        self.state.step(step)
    }

    /// The worker attaches an instance (`State::attach`).
    pub fn attach(
        &mut self,
        worker: WorkerId,
        filter: FilterId,
        volume: VolumeId,
        name: Name,
        altitude: Altitude,
    ) -> Result<InstanceId, Status>
        ensures event { Attaches self.old.world worker filter volume name altitude result self.new.world }
        ensures lent { self.new.lent ≡ self.old.lent }
    {
        self.state.attach(worker, filter, volume, name, altitude)
    }

    /// The setup callback that the worker is in returns (`State::setup_done`).
    pub fn setup_done(&mut self, worker: WorkerId, accept: bool) -> Result<(), Status>
        ensures event { SetsUp self.old.world worker accept result self.new.world }
        ensures lent { self.new.lent ≡ self.old.lent }
    {
        self.state.setup_done(worker, accept)
    }

    /// A worker takes the next step of an operation (`State::next`), and keeps here what it is lent.
    pub fn next(&mut self, worker: WorkerId, operation: OpId) -> Result<Given, Status>
        ensures { LendsNext self.old worker operation result self.new }
    {
        match self.state.next(worker, operation)? {
            FlowAction::Pre(instance, data) => {
                self.lend(worker, Lent::Pre(data));
                Ok(Given::Pre(instance))
            }
            FlowAction::Post(instance, data, completion) => {
                self.lend(worker, Lent::Post(data));
                Ok(Given::Post(instance, completion))
            }
            other => Ok(self.lend_other(worker, other)),
        }
    }

    // The same of an action that isn't a callback's. Each has room of its own to be lent from, which the callbacks don't pay for.
    fn lend_other(&mut self, worker: WorkerId, action: FlowAction) -> Given
        ensures given { result ≡ given_by action }
        ensures lent { self.new ≡ record self.old { lent = lend self.old.lent worker (lent_by action) } }
    {
        let given = Given::of(&action);
        self.lend(worker, Lent::by(action));
        given
    }

    /// The worker's preoperation callback returns with what it was lent (`State::pre_returned`). Refused with 30, nothing changed, where it was lent no
    /// such data. Where the event is refused the worker still has it.
    #[tactic(auto, using(crate::proofs::Returns::pre_back))]
    pub fn pre_returned(&mut self, worker: WorkerId, verdict: PreVerdict) -> Result<(), Status>
        ensures { LentPreReturns self.old worker verdict result self.new }
    {
        let Some(data) = self.take_pre(worker) else {
            return Err(Status::WrongStep);
        };
        match self.state.pre_returned(worker, verdict, data) {
            Ok(()) => Ok(()),
            Err(refused) => {
                self.lend(worker, Lent::Pre(refused.handed_back));
                Err(refused.status)
            }
        }
    }

    /// The worker's postoperation callback returns with what it was lent, or its drain with nothing (`State::post_returned`). Refused with 30, nothing
    /// changed, where it was lent neither. Where the event is refused the worker still has it.
    #[tactic(auto, using(crate::proofs::Returns::post_back))]
    pub fn post_returned(&mut self, worker: WorkerId, verdict: PostVerdict) -> Result<(), Status>
        ensures { LentPostReturns self.old worker verdict result self.new }
    {
        let Some(data) = self.take_post(worker) else {
            return Err(Status::WrongStep);
        };
        match self.state.post_returned(worker, verdict, data) {
            Ok(()) => Ok(()),
            Err(refused) => {
                self.lend(worker, post_lent(refused.handed_back));
                Err(refused.status)
            }
        }
    }

    /// The operation passes one instance, down or up: `next` and the return of the callback that it calls in one, where that callback answers where it is
    /// called (`State::pass`). None, and nothing changed, where that can't be: `next` tells what is to be done then.
    pub fn pass(
        &mut self,
        worker: WorkerId,
        operation: OpId,
        verdicts: &[PreVerdict],
    ) -> Option<Passed>
        ensures { LentPasses self.old worker operation verdicts.now result self.new }
    {
        if usize::from(worker.0) >= self.lent.len() {
            return None;
        }
        let passed = self.state.pass(worker, operation, verdicts)?;
        self.lend_nothing(worker);
        Some(passed)
    }

    /// The device carries out the call that the worker was lent, and the worker's call returns (`State::base_returned`): the status that the device
    /// answered. Refused with 30, nothing changed and no call made, where the worker was lent no call. Where the event is refused it still has it.
    #[tactic(auto, using(crate::proofs::Returns::base_back))]
    pub fn call_base<D: Device>(
        &mut self,
        worker: WorkerId,
        device: &mut D,
    ) -> Result<Status, Status>
        ensures { LentBaseReturns D.carries self.old device.old worker result self.new device.new }
    {
        let Some(call) = self.take_base(worker) else {
            return Err(Status::WrongStep);
        };
        let answer = device.call(&call);
        let status = answer.status;
        self.return_base(worker, call, answer)?;
        Ok(status)
    }

    /// The call that the worker was lent returns with an answer that the caller brings (`State::base_returned`), for a file system that no device here
    /// stands for. Refused with 30, nothing changed, where the worker was lent no call. Where the event is refused it still has it.
    #[tactic(auto, using(crate::proofs::Returns::base_back))]
    pub fn base_answered(&mut self, worker: WorkerId, answer: Answer) -> Result<(), Status>
        ensures { LentBaseAnswered self.old worker answer result self.new }
    {
        let Some(call) = self.take_base(worker) else {
            return Err(Status::WrongStep);
        };
        self.return_base(worker, call, answer)
    }

    /// Hands out the answer of a done operation (`State::collect`).
    pub fn collect(&mut self, operation: OpId) -> Result<Answer, Status>
        ensures event { Collects self.old.world operation result self.new.world }
        ensures lent { self.new.lent ≡ self.old.lent }
    {
        self.state.collect(operation)
    }

    // A call that was taken from the worker returns. Where that is refused the worker has it again.
    fn return_base(
        &mut self,
        worker: WorkerId,
        call: BaseCall,
        answer: Answer,
    ) -> Result<(), Status>
        ensures event { BaseReturns self.old.world worker call answer result self.new.world }
        ensures lent { self.new.lent ≡ lent_back self.old.lent worker (lent.Base call) result }
    {
        match self.state.base_returned(worker, call, answer) {
            Ok(()) => Ok(()),
            Err(
                Refused {
                    status,
                    handed_back: (call, _),
                },
            ) => {
                self.lend(worker, Lent::Base(call));
                Err(status)
            }
        }
    }

    // Whether the worker is lent nothing.
    fn has_nothing(&self, worker: WorkerId) -> bool
        ensures { result ≡ true → lent_to self.now.lent worker ≡ lent.Nothing }
    {
        match self.lent.get(usize::from(worker.0)) {
            Some(lent) => matches!(lent, Lent::Nothing),
            None => false,
        }
    }

    // The worker is lent nothing any more. Mostly it is lent nothing already.
    #[inline(always)]
    #[tactic(auto, using(crate::proofs::Returns::nothing_again))]
    fn lend_nothing(&mut self, worker: WorkerId)
        ensures { self.new ≡ record self.old { lent = lend self.old.lent worker lent.Nothing } }
    {
        if !self.has_nothing(worker) {
            self.lend(worker, Lent::Nothing);
        }
    }

    // Keeps what the worker is lent.
    #[inline(never)]
    fn lend(&mut self, worker: WorkerId, lent: Lent)
        ensures { self.new ≡ record self.old { lent = lend self.old.lent worker lent } }
    {
        if let Some(place) = self.lent.get_mut(usize::from(worker.0)) {
            *place = lent;
        }
    }

    // Takes the data of the preoperation that the worker is in.
    fn take_pre(&mut self, worker: WorkerId) -> Option<CallbackData>
        ensures is { result ≡ pre_in (lent_to self.old.lent worker) }
        ensures some { IfSome result (λ _. self.new ≡ record self.old { lent = lend self.old.lent worker lent.Nothing }) }
        ensures none { IfNone result (self.new ≡ self.old) }
    {
        let place = self.lent.get_mut(usize::from(worker.0))?;
        match mem::replace(place, Lent::Nothing) {
            Lent::Pre(data) => Some(data),
            other => {
                *place = other;
                None
            }
        }
    }

    // Takes the data of the postoperation that the worker is in, or none of its drain.
    fn take_post(&mut self, worker: WorkerId) -> Option<Option<CallbackData>>
        ensures is { result ≡ post_in (lent_to self.old.lent worker) }
        ensures some { IfSome result (λ _. self.new ≡ record self.old { lent = lend self.old.lent worker lent.Nothing }) }
        ensures none { IfNone result (self.new ≡ self.old) }
    {
        let place = self.lent.get_mut(usize::from(worker.0))?;
        match mem::replace(place, Lent::Nothing) {
            Lent::Post(data) => Some(Some(data)),
            Lent::Drain => Some(None),
            other => {
                *place = other;
                None
            }
        }
    }

    // Takes the base call that the worker is in.
    fn take_base(&mut self, worker: WorkerId) -> Option<BaseCall>
        ensures is { result ≡ base_in (lent_to self.old.lent worker) }
        ensures some { IfSome result (λ _. self.new ≡ record self.old { lent = lend self.old.lent worker lent.Nothing }) }
        ensures none { IfNone result (self.new ≡ self.old) }
    {
        let place = self.lent.get_mut(usize::from(worker.0))?;
        match mem::replace(place, Lent::Nothing) {
            Lent::Base(call) => Some(call),
            other => {
                *place = other;
                None
            }
        }
    }
}

// What a postoperation's data is lent as; a drain has none.
fn post_lent(given: Option<CallbackData>) -> Lent
    ensures { result ≡ post_lent given }
{
    match given {
        Some(data) => Lent::Post(data),
        None => Lent::Drain,
    }
}
