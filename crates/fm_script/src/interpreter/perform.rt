//! What a task makes, and the line that tells it.

ghost use Rattle.std.specs.Prelude.{◌≡◌, ◌∷◌, [], IfOk, IfSome, MatchResult};
ghost use Rattle.fm_script.specs.Lines.{TellsLine};
ghost use Rattle.fm_script.specs.Runs.{Performs, PerformsAs, Stays};
ghost use Rattle.fm_script.specs.declared.task.Task.TheVariants as TaskOf;

use super::Interpreter;
use crate::runner::is_silent;
use crate::said::{
    Said, Word, said_attached, said_called, said_count, said_done, said_given, said_of, said_phase,
};
use crate::script_end::ScriptEnd;
use crate::task::Task;
use fm_altitude::Altitude;
use fm_callback_data::{PostVerdict, PreVerdict};
use fm_core::Step;
use fm_types::limits::LINE;
use fm_types::{CtxId, FilterId, InstanceId, Name, OpId, Status, VolumeId, WorkerId};
use std::alloc::{AllocError, Global};

impl Interpreter {
    /// Runs one line as a script does, and gives what is told of it, one value for each line that a script prints. Of a line 4,097 bytes are enough. It is
    /// NoMemory if there is no memory for the line, for a note or for what is told.
    pub fn run(&mut self, alloc: Global, line: &[u8]) -> Result<Vec<Said>, ScriptEnd>
        ensures { IfOk result (λ told. TellsLine line.now told.items self.old self.new) }
    {
        if line.len() > LINE {
            return list_of(alloc, Some(Said::Refused(Status::BadRequest)));
        }
        if is_silent(line) {
            return Ok(Vec::new(alloc));
        }
        match self.read(alloc, line) {
            Ok(Ok(task)) => self.tell(alloc, task),
            Ok(Err(status)) => list_of(alloc, Some(Said::Refused(status))),
            Err(_) => Err(ScriptEnd::NoMemory),
        }
    }

    // Does a task, and gives what is told of it.
    fn tell(&mut self, alloc: Global, task: Task) -> Result<Vec<Said>, ScriptEnd>
        ensures { IfOk result (λ told. Performs task (λ line. told.items ≡ line ∷ []) self.old self.new) }
    {
        match task {
            Task::Go { worker, operation } => {
                let mut told = Vec::new(alloc);
                self.go(worker, operation, &mut told)?;
                Ok(told)
            }
            other => self.tell_alone(alloc, other),
        }
    }

    // The same of a task that is told in one line.
    fn tell_alone(&mut self, alloc: Global, task: Task) -> Result<Vec<Said>, ScriptEnd>
        ensures { IfOk result (λ told. Performs task (λ line. told.items ≡ line ∷ []) self.old self.new) }
    {
        match self.perform(task) {
            Ok(said) => list_of(alloc, said),
            Err(_) => Err(ScriptEnd::NoMemory),
        }
    }

    /// Does a task, and gives the line that tells it. A `go` is told in more than one: it isn't begun here, and nothing is told. It fails, nothing changed,
    /// where there is no memory for a note.
    #[tactic(auto, using(crate::proofs::Going::goes_none))]
    pub fn perform(&mut self, task: Task) -> Result<Option<Said>, AllocError>
        ensures { MatchResult result (λ said. Performs task (λ line. said ≡ Some line) self.old self.new) (λ _. Stays self.old self.new) }
    {
        match task {
            Task::Event(step) => self.told_event(step),
            Task::Attach {
                filter,
                volume,
                name,
                altitude,
            } => Ok(self.told_attach(filter, volume, name, altitude)),
            Task::Next { worker, operation } => Ok(self.told_next(worker, operation)),
            Task::Pre { worker, verdict } => Ok(self.told_pre(worker, verdict)),
            Task::Base { worker } => Ok(self.told_base(worker)),
            Task::Post { worker, verdict } => Ok(self.told_post(worker, verdict)),
            Task::Go { .. } => Ok(None),
            Task::Plan { instance, verdict } => self.told_plan(instance, verdict),
            Task::Phase(instance) => Ok(self.told_phase(instance)),
            Task::Flight(instance) => Ok(self.told_flight(instance)),
            Task::Count(context) => Ok(self.told_count(context)),
            Task::Leaks => Ok(self.told_leaks()),
            Task::Fail(number) => self.told_fail(number),
            Task::Failures => Ok(self.told_failures()),
        }
    }

    // One event.
    fn told_event(&mut self, step: Step) -> Result<Option<Said>, AllocError>
        ensures { PerformsAs (TaskOf.Event step) result self.old self.new }
    {
        let reply = self.event(step)?;
        Ok(Some(said_of(&self.contexts, reply)))
    }

    // Worker 0 attaches an instance, and accepts its setup.
    fn told_attach(
        &mut self,
        filter: FilterId,
        volume: VolumeId,
        name: Name,
        altitude: Altitude,
    ) -> Option<Said>
        ensures { Performs (TaskOf.Attach filter volume name altitude) (λ line. result ≡ Some line) self.old self.new }
    {
        let answer = self.attach(filter, volume, name, altitude);
        Some(said_attached(answer))
    }

    // A worker takes one step of an operation.
    fn told_next(&mut self, worker: WorkerId, operation: OpId) -> Option<Said>
        ensures { Performs (TaskOf.Next worker operation) (λ line. result ≡ Some line) self.old self.new }
    {
        let answer = self.next(worker, operation);
        Some(said_given(answer))
    }

    // The worker's preoperation callback returns.
    fn told_pre(&mut self, worker: WorkerId, verdict: PreVerdict) -> Option<Said>
        ensures { Performs (TaskOf.Pre worker verdict) (λ line. result ≡ Some line) self.old self.new }
    {
        let answer = self.pre(worker, verdict);
        Some(said_done(answer))
    }

    // The worker's base call is carried out, and returns.
    fn told_base(&mut self, worker: WorkerId) -> Option<Said>
        ensures { Performs (TaskOf.Base worker) (λ line. result ≡ Some line) self.old self.new }
    {
        let answer = self.base(worker);
        Some(said_called(answer))
    }

    // The worker's postoperation callback or drain returns.
    fn told_post(&mut self, worker: WorkerId, verdict: PostVerdict) -> Option<Said>
        ensures { Performs (TaskOf.Post worker verdict) (λ line. result ≡ Some line) self.old self.new }
    {
        let answer = self.post(worker, verdict);
        Some(said_done(answer))
    }

    // What `go` will answer for an instance.
    fn told_plan(
        &mut self,
        instance: InstanceId,
        verdict: PreVerdict,
    ) -> Result<Option<Said>, AllocError>
        ensures { PerformsAs (TaskOf.Plan instance verdict) result self.old self.new }
    {
        self.plan(instance, verdict)?;
        Ok(Some(Said::Plain(Word::Ok)))
    }

    // A device call that will fail.
    fn told_fail(&mut self, number: u64) -> Result<Option<Said>, AllocError>
        ensures { PerformsAs (TaskOf.Fail number) result self.old self.new }
    {
        self.fail(number)?;
        Ok(Some(Said::Plain(Word::Ok)))
    }

    // An instance's phase.
    fn told_phase(&self, instance: InstanceId) -> Option<Said>
        ensures { Performs (TaskOf.Phase instance) (λ line. result ≡ Some line) self.now self.now }
    {
        let phase = self.state().phase(instance);
        Some(said_phase(phase))
    }

    // How many operations are in flight at an instance.
    fn told_flight(&self, instance: InstanceId) -> Option<Said>
        ensures { Performs (TaskOf.Flight instance) (λ line. result ≡ Some line) self.now self.now }
    {
        let flight = self.state().in_flight(instance);
        Some(Said::Number(Word::Flight, flight))
    }

    // How far a context's life has come.
    fn told_count(&self, context: CtxId) -> Option<Said>
        ensures { Performs (TaskOf.Count context) (λ line. result ≡ Some line) self.now self.now }
    {
        let count = self.state().count(context);
        Some(said_count(count))
    }

    // How many references callbacks left behind.
    fn told_leaks(&self) -> Option<Said>
        ensures { Performs TaskOf.Leaks (λ line. result ≡ Some line) self.now self.now }
    {
        let leaks = self.state().leaks();
        Some(Said::Number(Word::Leaks, leaks))
    }

    // How many device calls failed.
    fn told_failures(&self) -> Option<Said>
        ensures { Performs TaskOf.Failures (λ line. result ≡ Some line) self.now self.now }
    {
        let failures = self.failures();
        Some(Said::Number(Word::Failures, failures))
    }
}

// The list of what is told in one line, if it is told.
fn list_of(alloc: Global, said: Option<Said>) -> Result<Vec<Said>, ScriptEnd>
    ensures { IfOk result (λ told. IfSome said (λ own. told.items ≡ own ∷ [])) }
{
    let mut told = Vec::new(alloc);
    if let Some(own) = said {
        told.push(own).map_err(|_| ScriptEnd::NoMemory)?;
    }
    Ok(told)
}
