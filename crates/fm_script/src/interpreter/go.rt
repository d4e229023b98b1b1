//! The turns of the command `go`: a worker takes one step of an operation, and answers it.

ghost use Rattle.std.specs.Prelude.{◌≡◌, Err};
ghost use Rattle.fm_script.specs.Runs.{Goes};

use super::Interpreter;
use crate::said::{Said, Word, said_given};
use crate::script_end::ScriptEnd;
use crate::sink::Sink;
use fm_callback_data::{PostVerdict, PreVerdict};
use fm_core::Passed;
use fm_session::Given;
use fm_types::limits::TURNS;
use fm_types::{InstanceId, OpId, Status, WorkerId};

impl Interpreter {
    /// A worker takes the operation's steps, and answers each, until the operation is held or done. It tells each step.
    #[inline(never)]
    #[tactic(auto, using(crate::proofs::Going::goes_then, crate::proofs::Going::goes_none))]
    pub fn go<S: Sink>(
        &mut self,
        worker: WorkerId,
        operation: OpId,
        sink: &mut S,
    ) -> Result<(), ScriptEnd>
        ensures goes { Goes worker operation self.old self.new }
        ensures never { result ≡ Err ScriptEnd.Ended → ⊥ }
    {
        for _ in 0..TURNS {
            if !self.turn(worker, operation, sink)? {
                return Ok(());
            }
        }
        sink.tell(Said::Refused(Status::WrongStep))
    }

    /// One turn of a `go`: the worker takes the operation's next step, and answers it, a preoperation callback as it is planned, a base call by the devices,
    /// a postoperation callback and a drain by finishing them, and a done operation by collecting its reply. It tells what happened, and says whether the
    /// operation goes on. Of a `go` that is made turn by turn the state can be read between them.
    #[tactic(auto, using(crate::proofs::Going::goes_then))]
    pub fn turn<S: Sink>(
        &mut self,
        worker: WorkerId,
        operation: OpId,
        sink: &mut S,
    ) -> Result<bool, ScriptEnd>
        ensures goes { Goes worker operation self.old self.new }
        ensures never { result ≡ Err ScriptEnd.Ended → ⊥ }
    {
        match self.pass(worker, operation) {
            Some(Passed::Down(instance, number)) => sink.tell_down(instance, number)?,
            Some(Passed::Up(instance)) => sink.tell_up(instance)?,
            None => return self.step(worker, operation, sink),
        }
        Ok(true)
    }

    // The same of one that passes no instance in one event.
    #[inline(never)]
    fn step<S: Sink>(
        &mut self,
        worker: WorkerId,
        operation: OpId,
        sink: &mut S,
    ) -> Result<bool, ScriptEnd>
        ensures goes { Goes worker operation self.old self.new }
        ensures never { result ≡ Err ScriptEnd.Ended → ⊥ }
    {
        let given = self.next(worker, operation);
        self.answer(worker, operation, given, sink)
    }

    // The operation passes an instance in one event, down or up, where it is planned to go on and come back.
    fn pass(&mut self, worker: WorkerId, operation: OpId) -> Option<Passed>
        ensures { Goes worker operation self.old self.new }
    {
        self.session.pass(worker, operation, self.plans.as_slice())
    }

    // Each line is made where it is told, and nowhere else: what any arm here makes has its room cleared at every turn.
    #[tactic(auto, using(crate::proofs::Going::goes_none))]
    fn answer<S: Sink>(
        &mut self,
        worker: WorkerId,
        operation: OpId,
        given: Result<Given, Status>,
        sink: &mut S,
    ) -> Result<bool, ScriptEnd>
        ensures goes { Goes worker operation self.old self.new }
        ensures never { result ≡ Err ScriptEnd.Ended → ⊥ }
    {
        match given {
            Ok(Given::Pre(instance)) => {
                let (verdict, outcome) = self.answer_pre(worker, operation, instance);
                say_answered(sink, instance, verdict, outcome)
            }
            Ok(Given::Base) => match self.answer_base(worker, operation) {
                Ok(status) => say_based(sink, status),
                Err(status) => refuses(sink, status),
            },
            Ok(Given::Post(instance, _)) => {
                let outcome = self.answer_post(worker, operation);
                say_back(sink, Word::Post, instance, outcome)
            }
            Ok(Given::Drain(instance, _)) => {
                let outcome = self.answer_post(worker, operation);
                say_back(sink, Word::Drain, instance, outcome)
            }
            Ok(Given::Moved) => say_moved(sink, self.known(operation)),
            Ok(Given::Done) => self.answer_done(worker, operation, sink),
            Ok(Given::Held) | Err(_) => say_stopped(sink, given),
        }
    }

    fn answer_pre(
        &mut self,
        worker: WorkerId,
        operation: OpId,
        instance: InstanceId,
    ) -> (PreVerdict, Result<(), Status>)
        ensures { Goes worker operation self.old self.new }
    {
        let _ = operation;
        let verdict = self.planned(instance);
        let outcome = self.pre(worker, verdict);
        (verdict, outcome)
    }

    fn answer_base(&mut self, worker: WorkerId, operation: OpId) -> Result<Status, Status>
        ensures { Goes worker operation self.old self.new }
    {
        let _ = operation;
        self.base(worker)
    }

    fn answer_post(&mut self, worker: WorkerId, operation: OpId) -> Result<(), Status>
        ensures { Goes worker operation self.old self.new }
    {
        let _ = operation;
        self.post(worker, PostVerdict::Finished)
    }

    #[tactic(auto, using(crate::proofs::Going::goes_collect))]
    fn answer_done<S: Sink>(
        &mut self,
        worker: WorkerId,
        operation: OpId,
        sink: &mut S,
    ) -> Result<bool, ScriptEnd>
        ensures goes { Goes worker operation self.old self.new }
        ensures never { result ≡ Err ScriptEnd.Ended → ⊥ }
    {
        let _ = worker;
        match self.session.collect(operation) {
            Ok(answer) => ends(sink, Said::Replied(answer)),
            Err(status) => refuses(sink, status),
        }
    }
}

// Tells what a preoperation callback answered. The operation goes on unless that was refused.
fn say_answered<S: Sink>(
    sink: &mut S,
    instance: InstanceId,
    verdict: PreVerdict,
    outcome: Result<(), Status>,
) -> Result<bool, ScriptEnd>
    ensures never { result ≡ Err ScriptEnd.Ended → ⊥ }
{
    sink.tell(Said::Answered(u64::from(instance.0), verdict))?;
    goes_on(sink, outcome)
}

// Tells that a postoperation callback or a drain returned. The operation goes on unless that was refused.
fn say_back<S: Sink>(
    sink: &mut S,
    word: Word,
    instance: InstanceId,
    outcome: Result<(), Status>,
) -> Result<bool, ScriptEnd>
    ensures never { result ≡ Err ScriptEnd.Ended → ⊥ }
{
    sink.tell(Said::Id(word, b'i', u64::from(instance.0)))?;
    goes_on(sink, outcome)
}

fn goes_on<S: Sink>(sink: &mut S, outcome: Result<(), Status>) -> Result<bool, ScriptEnd>
    ensures never { result ≡ Err ScriptEnd.Ended → ⊥ }
{
    match outcome {
        Ok(()) => Ok(true),
        Err(status) => refuses(sink, status),
    }
}

// Tells the status of the base. The operation goes on.
fn say_based<S: Sink>(sink: &mut S, status: Status) -> Result<bool, ScriptEnd>
    ensures never { result ≡ Err ScriptEnd.Ended → ⊥ }
{
    sink.tell(Said::Based(status))?;
    Ok(true)
}

// Tells the status of the base, if it is known. The operation goes on.
fn say_moved<S: Sink>(sink: &mut S, status: Option<Status>) -> Result<bool, ScriptEnd>
    ensures never { result ≡ Err ScriptEnd.Ended → ⊥ }
{
    match status {
        Some(status) => say_based(sink, status),
        None => Ok(true),
    }
}

// Tells that the operation is held, or why it doesn't go on.
fn say_stopped<S: Sink>(sink: &mut S, given: Result<Given, Status>) -> Result<bool, ScriptEnd>
    ensures never { result ≡ Err ScriptEnd.Ended → ⊥ }
{
    ends(sink, said_given(given))
}

// Tells a refusal as the last line.
fn refuses<S: Sink>(sink: &mut S, status: Status) -> Result<bool, ScriptEnd>
    ensures never { result ≡ Err ScriptEnd.Ended → ⊥ }
{
    ends(sink, Said::Refused(status))
}

// Tells the last line.
fn ends<S: Sink>(sink: &mut S, line: Said) -> Result<bool, ScriptEnd>
    ensures never { result ≡ Err ScriptEnd.Ended → ⊥ }
{
    sink.tell(line)?;
    Ok(false)
}
