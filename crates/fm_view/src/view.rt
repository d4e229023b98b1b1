//! A script that is run line by line as `fltscript` runs it, and shown to a reader.

mod ending;
mod expectations;
mod objects;
mod surprises;
mod titles;
mod words;

use crate::answer::printed;
use crate::expect::{Expectations, LineNote, expected_in};
use crate::happened::{LineContext, refusal_in};
use crate::learn::{bytes_in, learn};
use crate::reason::{RefusedLine, say_refusal};
use crate::subject::{facts_of, worker_of};
use fm_core::{Place, State, Step};
use fm_page::{Inert, Label, PAGE_BEGIN};
use fm_report::{Event, Facts, Kind, Moment, Notes, Text, say_begin_json};
use fm_script::{Heard, Interpreter, Listener, Said, ScriptEnd, Task, is_silent, read_lines};
use fm_types::limits::{LINE, TURNS};
use fm_types::{OpId, Status, WorkerId};
use std::alloc::{AllocError, Global};
use std::io::{Read, Write};

/// How a run is shown.
#[derive(Clone, Copy, PartialEq, Eq)]
pub enum ViewFormat {
    /// In words, line by line.
    Words,
    /// As JSON, one object for each answer.
    Json,
    /// As a page for a browser.
    Page,
    /// As a picture, once the script has ended.
    Picture,
    /// Only what wasn't as the script expects.
    Check,
}

/// What is shown of a run, and how strictly it is judged.
#[derive(Clone, Copy)]
pub struct Shown {
    /// How it is shown.
    pub format: ViewFormat,
    /// Whether a refusal that no line expects counts as an expectation that isn't met.
    pub is_strict: bool,
    /// Whether words have colours, as a terminal knows them.
    pub is_coloured: bool,
    /// The first line and the last one that are shown in words. All are run.
    pub lines: (u32, u32),
}

impl Shown {
    /// The whole run in that format, judged as its lines expect it.
    pub fn new(format: ViewFormat) -> Shown {
        Shown {
            format,
            is_strict: false,
            is_coloured: false,
            lines: (0, u32::MAX),
        }
    }
}

// A line as it was read, or a turn of a `go`: where its worker is before it, how many references were left behind so far, and how many devices were called.
#[derive(Clone, Copy)]
struct ScriptLine<'a> {
    text: &'a [u8],
    task: Option<&'a Task>,
    worker: Option<WorkerId>,
    place: Place,
    leaks: u64,
    calls: u64,
}

// What is shown of a line, and what a script prints for it, so far.
#[derive(Drop)]
struct Answered {
    text: Text,
    printed: Vec<u8>,
    is_first: bool,
}

// A run that is shown.
#[derive(Drop)]
struct View<W: Write + Drop> {
    alloc: Global,
    interpreter: Interpreter,
    notes: Notes,
    moments: Vec<Moment>,
    titles: Vec<Label>,
    line: u32,
    last: u32,
    shown: Shown,
    expectations: Expectations,
    /// In a check, what is told of the last line where no line expects it.
    surprise: Text,
    writer: W,
}

impl<W: Write + Drop> View<W> {
    // A run of no line. It is NoMemory if there is no memory for it.
    fn new(alloc: Global, shown: Shown, writer: W) -> Result<View<W>, ScriptEnd> {
        Ok(View {
            alloc,
            interpreter: Interpreter::new(alloc).map_err(|_| ScriptEnd::NoMemory)?,
            notes: Notes::new(alloc),
            moments: Vec::new(alloc),
            titles: Vec::new(alloc),
            line: 0,
            last: 0,
            shown,
            expectations: Expectations::new(alloc),
            surprise: Text::new(alloc),
            writer,
        })
    }

    // Writes what stands before all lines of a script of that file.
    fn begin(&mut self, file: Option<&str>) -> Result<(), ScriptEnd> {
        if self.shown.format == ViewFormat::Page {
            self.write_raw(PAGE_BEGIN)?;
        }
        if !self.is_json() {
            return Ok(());
        }
        let mut text = Text::new(self.alloc);
        say_begin_json(self.alloc, &mut text, file);
        self.write_made(text)
    }

    // Whether objects are written.
    fn is_json(&self) -> bool {
        matches!(self.shown.format, ViewFormat::Json | ViewFormat::Page)
    }

    // Whether the line is shown in words.
    fn is_said(&self) -> bool {
        let (first, last) = self.shown.lines;
        self.shown.format == ViewFormat::Words && first <= self.line && self.line <= last
    }

    // Runs a line that isn't silent, and shows what it answered.
    fn run(&mut self, text: &[u8]) -> Result<(), ScriptEnd> {
        self.settle()?;
        let task = self.read(text)?;
        let (changes, leaks) = (self.notes.changes.len(), self.notes.leaks.len());
        let mut answered = Answered {
            text: Text::new(self.alloc),
            printed: Vec::new(self.alloc),
            is_first: true,
        };
        match &task {
            Ok(Task::Go { worker, operation }) => {
                self.go(text, &task, (*worker, *operation), &mut answered)?
            }
            _ => self.perform(text, &task, &mut answered)?,
        }
        let Answered {
            mut text,
            printed,
            ..
        } = answered;
        self.show_rest(&mut text, changes, leaks);
        self.note_answers(&task, printed);
        self.write_made(text)
    }

    // Runs a line that is done at once.
    fn perform(
        &mut self,
        text: &[u8],
        task: &Result<Task, Status>,
        answered: &mut Answered,
    ) -> Result<(), ScriptEnd> {
        let line = self.before(text, task);
        let told = self.interpreter.run(self.alloc, text)?;
        self.show_all(&line, told.as_slice(), answered)
            .map_err(|_| ScriptEnd::NoMemory)
    }

    // Runs a `go` turn by turn, since the state tells only of the last callback what it left behind.
    fn go(
        &mut self,
        text: &[u8],
        task: &Result<Task, Status>,
        (worker, operation): (WorkerId, OpId),
        answered: &mut Answered,
    ) -> Result<(), ScriptEnd> {
        for _ in 0..TURNS {
            let line = self.before(text, task);
            let mut told = Vec::new(self.alloc);
            let goes_on = self.interpreter.turn(worker, operation, &mut told)?;
            self.show_all(&line, told.as_slice(), answered)
                .map_err(|_| ScriptEnd::NoMemory)?;
            if !goes_on {
                return Ok(());
            }
        }
        let line = self.before(text, task);
        self.show_all(&line, &[Said::Refused(Status::WrongStep)], answered)
            .map_err(|_| ScriptEnd::NoMemory)
    }

    // Notes what a line printed, for what the script expects of it.
    fn note_answers(&mut self, task: &Result<Task, Status>, printed: Vec<u8>) {
        let status = self.last_refusal();
        let note = LineNote {
            is_refused: status.is_some(),
            is_unread: is_unread(task),
            is_misuse: is_misuse(task, status),
        };
        self.expectations.take(printed, note);
    }

    // With what the last line was refused, if it was.
    fn last_refusal(&self) -> Option<Status> {
        let event = self.moments.last()?.event;
        if event.kind == Kind::Refused {
            event.facts.status
        } else {
            None
        }
    }

    // Shows what a line or a turn answered, and notes it.
    fn show_all(
        &mut self,
        line: &ScriptLine<'_>,
        told: &[Said],
        answered: &mut Answered,
    ) -> Result<(), AllocError> {
        let lines = printed(self.alloc, told)?;
        answered.printed.extend_from_slice(lines.as_slice())?;
        for said in told {
            self.show(&mut answered.text, line, said, answered.is_first)?;
            answered.is_first = false;
        }
        self.note_leaks(line)
    }

    // How things are before a line, or before a turn of it.
    fn before<'a>(&self, text: &'a [u8], task: &'a Result<Task, Status>) -> ScriptLine<'a> {
        let state = self.interpreter.state();
        let (task, worker) = match task {
            Ok(task) => (Some(task), worker_of(task)),
            Err(_) => (None, None),
        };
        ScriptLine {
            text,
            task,
            worker,
            place: place_of(state, worker),
            leaks: state.leaks(),
            calls: self.interpreter.calls(),
        }
    }

    // Notes the references that the callback left behind that returned on a line, or in a turn of it.
    fn note_leaks(&mut self, line: &ScriptLine<'_>) -> Result<(), AllocError> {
        let is_more = self.interpreter.state().leaks() != line.leaks;
        let (Some(worker), true) = (line.worker, is_more) else {
            return Ok(());
        };
        let place = self.returned_from(line);
        let number = self.line;
        let View {
            interpreter,
            notes,
            ..
        } = self;
        note_left(notes, interpreter, worker, (place, number))
    }

    // The callback that returned on a line: the one that its worker was in, or the one that a turn came to.
    fn returned_from(&self, line: &ScriptLine<'_>) -> Place {
        match (line.place, self.moments.last()) {
            (Place::Idle, Some(moment)) => moment.event.callback(),
            (place, _) => place,
        }
    }

    // What a line has to be done, or why it is refused before anything is.
    fn read(&self, line: &[u8]) -> Result<Result<Task, Status>, ScriptEnd> {
        if line.len() > LINE {
            return Ok(Err(Status::BadRequest));
        }
        self.interpreter
            .read(self.alloc, line)
            .map_err(|_| ScriptEnd::NoMemory)
    }

    // The event of one line of an answer.
    fn event(&self, line: &ScriptLine<'_>, said: &Said) -> Option<Event> {
        let Some(task) = line.task else {
            return refusal_in(said, Facts::none());
        };
        let interpreter = &self.interpreter;
        let asked = LineContext {
            task,
            place: line.place,
            has_called: interpreter.calls() != line.calls,
            subject: facts_of(task, line.place),
            state: interpreter.state(),
            contexts: interpreter.contexts(),
        };
        Some(asked.event(said))
    }

    // Notes what happened.
    fn note(&mut self, line: &ScriptLine<'_>, event: &Event) -> Result<(), AllocError> {
        let state = self.interpreter.state();
        match line.task {
            Some(task) => learn(&mut self.notes, self.line, event, task, state)?,
            None => self.notes.note(self.line, event)?,
        }
        self.moments.push(Moment {
            line: self.line,
            event: *event,
        })?;
        Ok(())
    }

    // Shows one answer of a line, and notes it.
    fn show(
        &mut self,
        text: &mut Text,
        line: &ScriptLine<'_>,
        said: &Said,
        is_first: bool,
    ) -> Result<(), AllocError> {
        let Some(event) = self.event(line, said) else {
            return Ok(());
        };
        self.note(line, &event)?;
        if !self.is_told(&event) {
            return Ok(());
        }
        let reason = self.reason(line, &event);
        reason.check()?;
        let words = self.words(line, said, &event, reason.as_str());
        words.check()?;
        let words = words.as_str();
        match self.shown.format {
            ViewFormat::Check => self.note_surprise(line, words),
            ViewFormat::Words => self.show_words(text, line.text, &event, words, is_first),
            ViewFormat::Json | ViewFormat::Page => {
                self.show_object(text, line, said, &event, (words, reason.as_str()))
            }
            ViewFormat::Picture => return self.title(line, words),
        }
        Ok(())
    }

    // Whether an event is told: a check tells refusals alone, and words may be of a part of the lines.
    fn is_told(&self, event: &Event) -> bool {
        match self.shown.format {
            ViewFormat::Check => event.kind == Kind::Refused,
            ViewFormat::Words => self.is_said(),
            ViewFormat::Json | ViewFormat::Page | ViewFormat::Picture => true,
        }
    }

    // Why a line was refused; nothing if it wasn't.
    fn reason(&self, line: &ScriptLine<'_>, event: &Event) -> Text {
        let mut reason = Text::new(self.alloc);
        let (Kind::Refused, Some(status)) = (event.kind, event.facts.status) else {
            return reason;
        };
        let interpreter = &self.interpreter;
        let refusal = RefusedLine {
            notes: &self.notes,
            state: interpreter.state(),
            contexts: interpreter.contexts(),
            task: line.task,
            place: line.place,
            line: line.text,
            context: event.facts.context,
        };
        say_refusal(self.alloc, &mut reason, &refusal, status);
        reason
    }

    // Writes what was made, if there was memory for all of it.
    fn write_made(&mut self, text: Text) -> Result<(), ScriptEnd> {
        let text = text.finish().map_err(|_| ScriptEnd::NoMemory)?;
        self.write(text.as_str())
    }

    // Writes a text out: in a page as data, that can't break out of its place.
    fn write(&mut self, text: &str) -> Result<(), ScriptEnd> {
        if self.shown.format != ViewFormat::Page {
            return self.write_raw(text);
        }
        let inert = Inert::new(self.alloc, text.as_bytes()).map_err(|_| ScriptEnd::NoMemory)?;
        self.writer
            .write_all(inert.as_slice())
            .map_err(|_| ScriptEnd::WriteFault)
    }

    // Writes a text out as it is.
    fn write_raw(&mut self, text: &str) -> Result<(), ScriptEnd> {
        self.writer
            .write_all(text.as_bytes())
            .map_err(|_| ScriptEnd::WriteFault)
    }
}

// Where the worker of a line is, if it has one.
fn place_of(state: &State, worker: Option<WorkerId>) -> Place {
    match worker {
        Some(worker) => state.place(worker).unwrap_or(Place::Idle),
        None => Place::Idle,
    }
}

// Notes what a worker's last callback left behind, which returned there, on that line.
fn note_left(
    notes: &mut Notes,
    interpreter: &Interpreter,
    worker: WorkerId,
    (place, line): (Place, u32),
) -> Result<(), AllocError> {
    let contexts = interpreter.contexts();
    for context in interpreter.state().left(worker) {
        if let Some(number) = contexts.number_of(*context) {
            notes.leak(number as u64, place, line)?;
        }
    }
    Ok(())
}

// The bytes that a line writes, or that its answer tells.
fn bytes_of<'a>(task: Option<&'a Task>, said: &'a Said) -> Option<&'a [u8]> {
    match said {
        Said::Told(_, bytes) => Some(bytes.as_slice()),
        Said::Replied(answer) => Some(answer.bytes.as_slice()),
        Said::Id(..) | Said::Plain(_) => bytes_in(task?),
        _ => None,
    }
}

// Whether a line can't be read: its words aren't those of a command. One that names what was never given can.
fn is_unread(task: &Result<Task, Status>) -> bool {
    matches!(
        task,
        Err(Status::BadRequest | Status::BadName | Status::BadAltitude | Status::BadPath)
    )
}

// Whether a line gave back what wasn't held, or resumed what no filter held, by its refusal.
fn is_misuse(task: &Result<Task, Status>, status: Option<Status>) -> bool {
    match (task, status) {
        (Ok(Task::Event(Step::Release { .. })), Some(Status::NotHeld)) => true,
        (
            Ok(Task::Event(Step::ResumePre { .. } | Step::ResumePost { .. })),
            Some(Status::NotPended),
        ) => true,
        _ => false,
    }
}

/// Runs the script that a reader gives, and writes what happened to a writer. Objects and a page name the file, if one is named. It gives the exit status: that of the script's end. Of one that ended well it is
/// 2 if a line expects what can't be read, else 6 if something wasn't as the script expects, and else 5 if it left a reference behind or an operation that a
/// filter holds, or if a line gave back or resumed what it didn't have; where the script expects a status, it is 0 if that one came, and 6 if not.
pub fn show_script<R: Read + Drop, W: Write + Drop>(
    alloc: Global,
    shown: Shown,
    file: Option<&str>,
    reader: R,
    writer: W,
) -> u8 {
    run_shown(alloc, shown, file, reader, writer).0
}

/// The same, which gives beside the exit status how many lines expect something.
pub(crate) fn run_shown<R: Read + Drop, W: Write + Drop>(
    alloc: Global,
    shown: Shown,
    file: Option<&str>,
    reader: R,
    writer: W,
) -> (u8, u64) {
    let view = match View::new(alloc, shown, writer) {
        Ok(view) => view,
        Err(end) => return (end.status(), 0),
    };
    let mut view = view;
    if let Err(end) = view.begin(file) {
        return view.finish(end);
    }
    let Heard { listener, end, .. } = read_lines(alloc, reader, view);
    listener.finish(end)
}

impl<W: Write + Drop> Listener for View<W> {
    ghost use Rattle.std.specs.Prelude.{⊤};

    ghost takes = { λ _ _ _ _. ⊤ };

    ghost pauses = { λ _ _ _. ⊤ };

    fn take(&mut self, line: &[u8]) -> Result<(), ScriptEnd> {
        self.line = self.line.saturating_add(1);
        if !line.is_empty() {
            self.last = self.line;
        }
        if line.len() > LINE || !is_silent(line) {
            return self.run(line);
        }
        if let Some(expected) = expected_in(line) {
            return self.expect(line, expected);
        }
        if line.is_empty() {
            return Ok(());
        }
        let text = self.comment(line);
        self.write_made(text)
    }

    fn pause(&mut self) -> Result<(), ScriptEnd> {
        self.writer.flush().map_err(|_| ScriptEnd::WriteFault)
    }
}
