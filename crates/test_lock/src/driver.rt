//! What a script's lines have done, done by a manager that threads share.

ghost use Rattle.std.specs.Prelude.{◌≡◌, All, IfSome};
ghost use Rattle.fm_lock.specs.Blanks.{IsBlankOf};
ghost use Rattle.fm_rundown.specs.Seats.{IsSeatOf};

use crate::declared::Declared;
use fm_altitude::Altitude;
use fm_callback_data::{PostVerdict, PreVerdict};
use fm_core::{Action, Entry, State, Step, StepReply};
use fm_device::Device;
use fm_lock::{Hand, Manager};
use fm_rundown::{GateSeat, Look, RundownGate, Seen};
use fm_script::{
    ContextList, Devices, Interpreter, Output, Said, ScriptEnd, Task, Word, said_attached,
    said_called, said_count, said_done, said_given, said_of, said_phase,
};
use fm_session::{Given, Lent};
use fm_types::limits::{TURNS, VOLUMES};
use fm_types::{FilterId, InstanceId, Name, OpId, Status, VolumeId, WorkerId};
use fm_world::Refused;
use std::alloc::{AllocError, Global};
use std::mem;
use std::sync::Wait;
use std::sync::ledger::{Blank, Ledger};

/// How many workers a script has.
const WORKERS: usize = 16;

/// The worker that attaches for the command `attach`.
const ATTACHER: WorkerId = WorkerId(0);

/// A manager with the hands of a script's workers, what these were lent, the devices below, and what was printed.
#[derive(Drop)]
pub struct Driver<L: Ledger> {
    manager: Manager<Declared, L>,
    hands: Vec<Hand<L>>,
    lent: Vec<Lent>,
    devices: Devices,
    contexts: ContextList,
    output: Output<Vec<u8>>,
    alloc: Global,
}

// The end of a script that was refused memory of its own.
fn or_end<T>(kept: Result<T, AllocError>) -> Result<T, ScriptEnd> {
    kept.map_err(|_| ScriptEnd::NoMemory)
}

// The status of the base's entry that `next` has just made without a call, if it made one.
fn known(state: &State, operation: OpId) -> Option<Status> {
    match state.trace(operation)?.last() {
        Some(Entry::Base(status, _)) => Some(*status),
        _ => None,
    }
}

// Makes one event, by its worker's hand: what filters do with contexts by the manager's own call for it, and any other as it is.
fn call<L: Ledger, R: Wait>(
    rt: &R,
    manager: &Manager<Declared, L>,
    hand: &mut Hand<L>,
    step: Step,
) -> Result<StepReply, Refused<Step>> {
    let reply = match step {
        Step::Delete {
            kind,
            wants_old,
            ..
        } => StepReply::Old(manager.delete(rt, hand, kind, wants_old)),
        Step::Reference { context, .. } => StepReply::Done(manager.reference(rt, hand, context)),
        Step::ReadBody { context, .. } => StepReply::Body(manager.read_body(rt, hand, context)),
        Step::WriteBody { context, bytes, .. } => {
            StepReply::Done(manager.write_body(rt, hand, context, bytes.as_slice()))
        }
        other => return manager.step(rt, hand, other),
    };
    Ok(reply)
}

// What a look finds at a gate before which nobody is.
fn seen_drained(alloc: Global, volume: VolumeId) -> Result<Seen, Status> {
    let (gate, mut seats) = RundownGate::new(alloc, VOLUMES, 1)?;
    let Some(mut seat) = only_seat(&gate, &mut seats) else {
        return Err(Status::WrongStep);
    };
    gate.close(&mut seat, volume)?;
    match gate.look(&mut seat, volume)? {
        Look::Drained(seen) => Ok(seen),
        Look::Open | Look::Closing => Err(Status::WrongStep),
    }
}

fn only_seat(gate: &RundownGate, seats: &mut Vec<GateSeat>) -> Option<GateSeat>
    requires { All (λ seat. IsSeatOf gate.now seat) seats.old.items }
    ensures { IfSome result (λ seat. IsSeatOf gate.now seat) }
{
    let _ = gate;
    seats.pop()
}

impl<L: Ledger> Driver<L> {
    /// A manager of these filters before its first event, with a hand for each of a script's workers. Refused with 1.
    pub fn new<R: Wait>(
        rt: &R,
        alloc: Global,
        filters: Vec<(Name, Declared)>,
        blank: Blank,
    ) -> Result<Driver<L>, Status>
        requires blank { IsBlankOf blank.name blank.parts L.name L.parts }
    {
        let manager = Manager::new(alloc, filters, blank)?;
        let mut hands = Vec::new(alloc);
        let mut lent = Vec::new(alloc);
        for _ in 0..WORKERS {
            hands.push(manager.hire(rt)?)?;
            lent.push(Lent::Nothing)?;
        }
        Ok(Driver {
            manager,
            hands,
            lent,
            devices: Devices::new(alloc)?,
            contexts: ContextList::new(alloc),
            output: Output::new(alloc, Vec::new(alloc)),
            alloc,
        })
    }

    /// What was printed.
    pub fn take_printed(&mut self, alloc: Global) -> Result<Vec<u8>, ScriptEnd> {
        self.output.change_writer(Vec::new(alloc))
    }

    /// Prints a refusal.
    pub fn refuse(&mut self, status: Status) -> Result<(), ScriptEnd> {
        self.output.say(&Said::Refused(status))
    }

    /// Ends the manager: how many contexts were allocated, how many cleaned up, and how many references left behind. Refused as `Manager::shutdown`.
    pub fn end(self) -> Result<[u64; 3], Status>
        requires { L.parts ≡ 49 }
    {
        let Driver { manager, hands, .. } = self;
        match manager.shutdown(hands) {
            Ok(report) => Ok([report.born, report.cleaned, report.leaks]),
            Err((_, _, status)) => Err(status),
        }
    }

    // Makes one event that names no worker.
    fn step_alone<R: Wait>(&self, rt: &R, step: Step) -> Result<StepReply, Status> {
        if let Step::Register { name, .. } = step {
            return Ok(StepReply::Filter(self.manager.register(rt, &name)));
        }
        if let Step::StartDismount { volume } = step {
            let seen = seen_drained(self.alloc, volume);
            return Ok(StepReply::Done(seen.and_then(|seen| self.manager.start_dismount(rt, seen))));
        }
        self.manager
            .step_alone(rt, step)
            .map_err(|refused| refused.status)
    }

    /// Makes one event, by its worker's hand.
    pub fn step<R: Wait>(&mut self, rt: &R, step: Step) -> Result<StepReply, Status> {
        let Some(worker) = step.worker() else {
            return self.step_alone(rt, step);
        };
        let Some(hand) = self.hands.get_mut(usize::from(worker.0)) else {
            return Err(Status::WrongStep);
        };
        call(rt, &self.manager, hand, step).map_err(|refused| refused.status)
    }

    // Makes one event, notes the context that it allocates, and prints what it answers.
    fn event<R: Wait>(&mut self, rt: &R, step: Step) -> Result<(), ScriptEnd> {
        let is_allocation = matches!(&step, Step::Allocate { .. });
        let reply = match self.step(rt, step) {
            Ok(reply) => reply,
            Err(status) => return self.refuse(status),
        };
        if is_allocation {
            self.note(&reply)?;
        }
        let line = said_of(&self.contexts, reply);
        self.output.say(&line)
    }

    fn note(&mut self, reply: &StepReply) -> Result<(), ScriptEnd> {
        let StepReply::Context(Ok(context)) = reply else {
            return Ok(());
        };
        match self.contexts.reserve() {
            Ok(()) => self.contexts.push(*context),
            Err(_) => return Err(ScriptEnd::NoMemory),
        }
        Ok(())
    }

    // Worker 0 attaches an instance, and accepts its setup.
    fn attach<R: Wait>(
        &mut self,
        rt: &R,
        filter: FilterId,
        volume: VolumeId,
        name: Name,
        altitude: Altitude,
    ) -> Result<InstanceId, Status> {
        let Some(hand) = self.hands.get_mut(usize::from(ATTACHER.0)) else {
            return Err(Status::WrongStep);
        };
        let instance = self
            .manager
            .attach(rt, hand, filter, volume, name, altitude)?;
        self.manager.setup_done(rt, hand, true)?;
        Ok(instance)
    }

    // The worker takes the operation's next step, and keeps what it is lent.
    fn next<R: Wait>(
        &mut self,
        rt: &R,
        worker: WorkerId,
        operation: OpId,
    ) -> Result<Given, Status> {
        let Some(hand) = self.hands.get_mut(usize::from(worker.0)) else {
            return Err(Status::WrongStep);
        };
        let action = self.manager.next(rt, hand, operation)?;
        let given = Given::of(&action);
        match action {
            Action::Pre(_, lent) => self.lend(worker, Lent::Pre(lent)),
            Action::Base(call) => self.lend(worker, Lent::Base(call)),
            Action::Post(_, lent, _) => self.lend(worker, Lent::Post(lent)),
            Action::Drain(_, _) => self.lend(worker, Lent::Drain),
            Action::Moved | Action::Held | Action::Done => {}
        }
        Ok(given)
    }

    fn lend(&mut self, worker: WorkerId, lent: Lent) {
        if let Some(place) = self.lent.get_mut(usize::from(worker.0)) {
            *place = lent;
        }
    }

    fn take(&mut self, worker: WorkerId) -> Lent {
        match self.lent.get_mut(usize::from(worker.0)) {
            Some(place) => mem::replace(place, Lent::Nothing),
            None => Lent::Nothing,
        }
    }

    // The worker's preoperation callback returns. What it was lent stays with it where that is refused.
    fn pre<R: Wait>(
        &mut self,
        rt: &R,
        worker: WorkerId,
        verdict: PreVerdict,
    ) -> Result<(), Status> {
        let lent = match self.take(worker) {
            Lent::Pre(lent) => lent,
            other => {
                self.lend(worker, other);
                return Err(Status::WrongStep);
            }
        };
        let Some(hand) = self.hands.get_mut(usize::from(worker.0)) else {
            return Err(Status::WrongStep);
        };
        match self.manager.pre_returned(rt, hand, verdict, lent) {
            Ok(()) => Ok(()),
            Err(refused) => {
                self.lend(worker, Lent::Pre(refused.handed_back));
                Err(refused.status)
            }
        }
    }

    // The worker's base call is carried out by the devices, and returns with the status that they answered.
    fn base<R: Wait>(&mut self, rt: &R, worker: WorkerId) -> Result<Status, Status> {
        let call = match self.take(worker) {
            Lent::Base(call) => call,
            other => {
                self.lend(worker, other);
                return Err(Status::WrongStep);
            }
        };
        let Some(hand) = self.hands.get_mut(usize::from(worker.0)) else {
            return Err(Status::WrongStep);
        };
        let answer = self.devices.call(&call);
        let status = answer.status;
        match self.manager.base_returned(rt, hand, call, answer) {
            Ok(()) => Ok(status),
            Err(refused) => Err(refused.status),
        }
    }

    // The worker's postoperation callback or drain returns.
    fn post<R: Wait>(
        &mut self,
        rt: &R,
        worker: WorkerId,
        verdict: PostVerdict,
    ) -> Result<(), Status> {
        let lent = match self.take(worker) {
            Lent::Post(lent) => Some(lent),
            Lent::Drain => None,
            other => {
                self.lend(worker, other);
                return Err(Status::WrongStep);
            }
        };
        let Some(hand) = self.hands.get_mut(usize::from(worker.0)) else {
            return Err(Status::WrongStep);
        };
        match self.manager.post_returned(rt, hand, verdict, lent) {
            Ok(()) => Ok(()),
            Err(refused) => Err(refused.status),
        }
    }

    // The worker takes one step of the operation and answers it, by what is planned, and prints that. Whether the operation goes on.
    fn turn<R: Wait>(
        &mut self,
        rt: &R,
        plans: &Interpreter,
        worker: WorkerId,
        operation: OpId,
    ) -> Result<bool, ScriptEnd> {
        let given = self.next(rt, worker, operation);
        match given {
            Ok(Given::Pre(instance)) => {
                let verdict = plans.planned(instance);
                let outcome = self.pre(rt, worker, verdict);
                self.says_and(Said::Answered(u64::from(instance.0), verdict), outcome)
            }
            Ok(Given::Base) => match self.base(rt, worker) {
                Ok(status) => self.says_and(Said::Based(status), Ok(())),
                Err(status) => self.ends(Said::Refused(status)),
            },
            Ok(Given::Post(instance, _)) => self.goes_back(rt, worker, Word::Post, instance),
            Ok(Given::Drain(instance, _)) => self.goes_back(rt, worker, Word::Drain, instance),
            Ok(Given::Moved) => match self.manager.read(rt, |state| known(state, operation)) {
                Some(status) => self.says_and(Said::Based(status), Ok(())),
                None => Ok(true),
            },
            Ok(Given::Done) => match self.manager.wait_reply(rt, operation) {
                Ok(answer) => self.ends(Said::Replied(answer)),
                Err(status) => self.ends(Said::Refused(status)),
            },
            Ok(Given::Held) | Err(_) => self.ends(said_given(given)),
        }
    }

    fn goes_back<R: Wait>(
        &mut self,
        rt: &R,
        worker: WorkerId,
        word: Word,
        instance: InstanceId,
    ) -> Result<bool, ScriptEnd> {
        let outcome = self.post(rt, worker, PostVerdict::Finished);
        self.says_and(Said::Id(word, b'i', u64::from(instance.0)), outcome)
    }

    // Prints a line. The operation goes on unless its event was refused.
    fn says_and(&mut self, line: Said, outcome: Result<(), Status>) -> Result<bool, ScriptEnd> {
        self.output.say(&line)?;
        match outcome {
            Ok(()) => Ok(true),
            Err(status) => self.ends(Said::Refused(status)),
        }
    }

    // Prints the last line.
    fn ends(&mut self, line: Said) -> Result<bool, ScriptEnd> {
        self.output.say(&line)?;
        Ok(false)
    }

    fn go<R: Wait>(
        &mut self,
        rt: &R,
        plans: &Interpreter,
        worker: WorkerId,
        operation: OpId,
    ) -> Result<(), ScriptEnd> {
        for _ in 0..TURNS {
            if !self.turn(rt, plans, worker, operation)? {
                return Ok(());
            }
        }
        self.refuse(Status::WrongStep)
    }

    fn fail(&mut self, number: u64) -> Result<(), ScriptEnd> {
        or_end(self.devices.fail(number))?;
        self.output.say(&Said::Plain(Word::Ok))
    }

    // What a reader says.
    fn tell<R: Wait>(&mut self, rt: &R, task: &Task) -> Result<(), ScriptEnd> {
        let line = match task {
            Task::Phase(instance) => said_phase(self.manager.phase(rt, *instance)),
            Task::Flight(instance) => {
                Said::Number(Word::Flight, self.manager.in_flight(rt, *instance))
            }
            Task::Count(context) => said_count(self.manager.count(rt, *context)),
            Task::Leaks => Said::Number(Word::Leaks, self.manager.leaks(rt)),
            Task::Failures => Said::Number(Word::Failures, self.devices.failures()),
            _ => Said::Plain(Word::Ok),
        };
        self.output.say(&line)
    }

    /// Does what a line has done, and prints what it answers. What is planned is read off the interpreter that reads the lines.
    pub fn perform<R: Wait>(
        &mut self,
        rt: &R,
        plans: &Interpreter,
        task: Task,
    ) -> Result<(), ScriptEnd> {
        let line = match task {
            Task::Event(step) => return self.event(rt, step),
            Task::Go { worker, operation } => return self.go(rt, plans, worker, operation),
            Task::Fail(number) => return self.fail(number),
            Task::Attach {
                filter,
                volume,
                name,
                altitude,
            } => said_attached(self.attach(rt, filter, volume, name, altitude)),
            Task::Next { worker, operation } => said_given(self.next(rt, worker, operation)),
            Task::Pre { worker, verdict } => said_done(self.pre(rt, worker, verdict)),
            Task::Base { worker } => said_called(self.base(rt, worker)),
            Task::Post { worker, verdict } => said_done(self.post(rt, worker, verdict)),
            other => return self.tell(rt, &other),
        };
        self.output.say(&line)
    }
}
