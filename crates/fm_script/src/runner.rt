//! Runs a script line by line, and prints what each line answers.

ghost use Rattle.std.specs.Prelude.{◌≡◌, [], Err, IfOk};
ghost use Rattle.fm_script.specs.Lines.{ReadsTask, RunsLine, is_silent};
ghost use Rattle.fm_script.specs.Printing.{printed};
ghost use Rattle.fm_script.specs.Runs.{Goes, PerformsOr, Refuses};
ghost use Rattle.fm_script.specs.Scripts.{IsFirst, Pauses};
ghost use Rattle.fm_words.specs.Words.{words_of};

use crate::interpreter::Interpreter;
use crate::output::Output;
use crate::said::Said;
use crate::script_end::ScriptEnd;
use crate::task::Task;
use fm_types::limits::LINE;
use fm_types::{OpId, Status, WorkerId};
use std::alloc::{AllocError, Global};
use std::io::Write;

/// A script's interpreter with its output.
#[derive(Drop)]
pub struct Runner<W: Write + Drop> {
    alloc: Global,
    interpreter: Interpreter,
    output: Output<W>,
}

impl<W: Write + Drop> Runner<W> {
    /// A runner that has run no line.
    pub fn new(alloc: Global, writer: W) -> Result<Self, ScriptEnd>
        ensures { IfOk result (λ runner. IsFirst runner.interpreter × (printed W.contents runner.output ≡ record { given = W.contents writer; held = [] })) }
    {
        match Interpreter::new(alloc) {
            Ok(interpreter) => Ok(Runner::over(alloc, interpreter, writer)),
            Err(_) => Err(ScriptEnd::NoMemory),
        }
    }

    /// A runner of that interpreter, which has printed nothing.
    pub fn over(alloc: Global, interpreter: Interpreter, writer: W) -> Self
        ensures same { result.interpreter ≡ interpreter }
        ensures nothing { printed W.contents result.output ≡ record { given = W.contents writer; held = [] } }
    {
        Runner {
            alloc,
            interpreter,
            output: Output::new(alloc, writer),
        }
    }

    /// Hands all that was printed to the writer.
    pub fn flush(&mut self) -> Result<(), ScriptEnd>
        ensures { Pauses W.contents self.old result self.new }
    {
        self.output.flush()
    }

    /// The writer. What it wasn't given yet is gone.
    pub fn into_writer(self) -> W
        ensures { result ≡ self.output.writer }
    {
        self.output.into_writer()
    }

    /// What the lines drive: the manager's state and the contexts by their numbers, to be read between lines.
    pub fn interpreter(&self) -> &Interpreter
        ensures { result.now ≡ self.now.interpreter }
    {
        &self.interpreter
    }

    /// Runs one line, of which 4,097 bytes are enough: one that is longer than 4,096 is refused. An empty line and a comment do nothing. It is NoMemory if
    /// there is no memory for reading the line or for a note of the script's own, and then nothing else has changed; or if there is none for what it
    /// prints, and WriteFault if the writer fails: then it was done all the same. An event that is refused memory prints that, as any refusal.
    pub fn run(&mut self, line: &[u8]) -> Result<(), ScriptEnd>
        ensures runs { RunsLine line.now result self.old.interpreter self.new.interpreter (printed W.contents self.old.output) (printed W.contents self.new.output) }
        ensures never { result ≡ Err ScriptEnd.Ended → ⊥ }
    {
        if line.len() > LINE {
            return self.refuse(Status::BadRequest);
        }
        if is_silent(line) {
            return Ok(());
        }
        match self.read(line) {
            Ok(Ok(task)) => self.perform(task),
            Ok(Err(status)) => self.refuse(status),
            Err(_) => Err(ScriptEnd::NoMemory),
        }
    }

    // A refusal.
    fn refuse(&mut self, status: Status) -> Result<(), ScriptEnd>
        ensures refuses { Refuses status result self.old.interpreter self.new.interpreter (printed W.contents self.old.output) (printed W.contents self.new.output) }
        ensures never { result ≡ Err ScriptEnd.Ended → ⊥ }
    {
        self.output.say(&Said::Refused(status))
    }

    /// What a line of at most 4,096 bytes that isn't silent has to be done, or why it is refused before anything is done: what `run` does with it. It fails
    /// if there is no memory for reading it.
    pub fn read(&self, line: &[u8]) -> Result<Result<Task, Status>, AllocError>
        ensures { IfOk result (ReadsTask (words_of line.now) self.now.interpreter) }
    {
        self.interpreter.read(self.alloc, line)
    }

    // A worker takes the operation's steps.
    fn go(&mut self, worker: WorkerId, operation: OpId) -> Result<(), ScriptEnd>
        ensures goes { Goes worker operation self.old.interpreter self.new.interpreter }
        ensures never { result ≡ Err ScriptEnd.Ended → ⊥ }
    {
        self.interpreter.go(worker, operation, &mut self.output)
    }

    // Does a task, and prints the line that tells it.
    fn tell(&mut self, task: Task) -> Result<(), ScriptEnd>
        ensures performs { PerformsOr task result self.old.interpreter self.new.interpreter (printed W.contents self.old.output) (printed W.contents self.new.output) }
        ensures never { result ≡ Err ScriptEnd.Ended → ⊥ }
    {
        match self.interpreter.perform(task) {
            Ok(Some(said)) => self.output.say(&said),
            Ok(None) => Ok(()),
            Err(_) => Err(ScriptEnd::NoMemory),
        }
    }

    // Does it, and prints what it answers.
    fn perform(&mut self, task: Task) -> Result<(), ScriptEnd>
        ensures performs { PerformsOr task result self.old.interpreter self.new.interpreter (printed W.contents self.old.output) (printed W.contents self.new.output) }
        ensures never { result ≡ Err ScriptEnd.Ended → ⊥ }
    {
        match task {
            Task::Go { worker, operation } => self.go(worker, operation),
            other => self.tell(other),
        }
    }
}

/// Whether a line asks for nothing: an empty one, and a comment.
pub fn is_silent(line: &[u8]) -> bool
    ensures { result ≡ is_silent line.now }
{
    match line {
        [] => true,
        [first, ..] => *first == b'#',
    }
}
