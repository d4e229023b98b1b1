//! A run that is told in objects as it goes, by what isn't a script: a trial of filters as code.

use crate::event::Event;
use crate::facts::Facts;
use crate::json::{
    Detail, FORMAT, ObjectDetail, put_place, say_change_json, say_comment_json, say_end_json,
    say_json,
};
use crate::kind::Kind;
use crate::named::{kind_word, push_place};
use crate::notes::{Notes, What, what_of};
use crate::object::JsonObject;
use crate::push::push_id;
use crate::status::sentence;
use crate::tally::Summary;
use crate::text::Text;
use crate::words::say_detail;
use fm_callback_data::{FileRequest, Request};
use fm_core::{Phase, Place, State};
use fm_types::{ContextKind, CtxId, FilterId, InstanceId, Name, Status, VolumeId};
use std::alloc::{AllocError, Global};

/// What is told of a callback.
#[derive(Clone, Copy)]
pub struct CallbackDetail<'a> {
    /// Its number, which stays.
    pub id: &'a str,
    /// Whether it is a limit of the model, and no mistake.
    pub is_limit: bool,
    /// What was done, in words.
    pub words: &'a str,
    /// Inside which callback it was done.
    pub place: Place,
    /// Which context it was done with, if it was with one.
    pub context: Option<CtxId>,
}

// What a request does, and what it brings.
#[derive(Drop)]
struct NotedRequest {
    what: What,
    bytes: Option<Vec<u8>>,
}

/// Tells a run in the objects of docs/JSON.md, each appended to a text as one line. It notes what it is told, so that an object can name what came before: an
/// operation by its request, an instance by its name. Each call that appends fails where memory is refused, and the text may then end amid an object.
#[derive(Drop)]
pub struct Teller {
    alloc: Global,
    notes: Notes,
    line: u32,
    command: String,
    asked: Option<NotedRequest>,
    contexts: Vec<CtxId>,
    changes: usize,
}

// Appends what was written.
fn push_made(text: &mut String, made: Text) -> Result<(), AllocError> {
    let made = made.finish()?;
    text.push_str(made.as_str())
}

// Why a line was refused, if it was.
fn reason_of<'a>(event: &Event, detail: &Detail<'a>) -> &'a str {
    match (event.kind, event.facts.status, detail.reason) {
        (Kind::Refused, _, Some(reason)) => reason,
        (Kind::Refused, Some(status), None) => sentence(status),
        _ => "",
    }
}

impl Teller {
    /// Before the first line.
    pub fn new(alloc: Global) -> Teller {
        Teller {
            alloc,
            notes: Notes::new(alloc),
            line: 0,
            command: String::new(alloc),
            asked: None,
            contexts: Vec::new(alloc),
            changes: 0,
        }
    }

    /// Appends the first object: the number of the schema, that this is a trial, and of which file.
    pub fn begin(&self, text: &mut String, file: Option<&str>) -> Result<(), AllocError> {
        let mut object = JsonObject::new(self.alloc, 0, "Run");
        object.number("format", FORMAT);
        object.text("origin", "trial");
        if let Some(file) = file {
            object.written("file", "raw", file.as_bytes());
        }
        self.append(text, object)
    }

    // Appends an object.
    fn append(&self, text: &mut String, object: JsonObject) -> Result<(), AllocError> {
        let mut made = Text::new(self.alloc);
        object.finish(&mut made);
        push_made(text, made)
    }

    /// Goes on to a line, of which is told what follows. What is asked for by the one before is forgotten.
    pub fn take_line(&mut self, line: u32, command: &str) -> Result<(), AllocError> {
        self.line = line;
        self.command.clear();
        self.asked = None;
        self.command.push_str(command)
    }

    /// How many lines were refused so far.
    pub fn refused(&self) -> u64 {
        self.notes.refused()
    }

    /// Appends that the line asks for nothing.
    pub fn say_comment(&self, text: &mut String) -> Result<(), AllocError> {
        let mut made = Text::new(self.alloc);
        say_comment_json(self.alloc, &mut made, self.line, self.command.as_bytes());
        push_made(text, made)
    }

    /// Appends what happened, and notes it.
    pub fn say_event(
        &mut self,
        text: &mut String,
        event: &Event,
        detail: &Detail<'_>,
    ) -> Result<(), AllocError> {
        self.notes.note(self.line, event)?;
        let mut words = Text::new(self.alloc);
        say_detail(&mut words, &self.notes, event, detail);
        words.check()?;
        let told = ObjectDetail {
            line: self.line,
            command: self.command.as_bytes(),
            words: words.as_str(),
            reason: reason_of(event, detail),
            detail: *detail,
        };
        let mut made = Text::new(self.alloc);
        say_json(self.alloc, &mut made, &self.notes, event, &told);
        push_made(text, made)
    }

    /// Appends what happened that has its facts alone, and notes it.
    pub fn say_plain(&mut self, text: &mut String, event: &Event) -> Result<(), AllocError> {
        self.say_event(text, event, &Detail::none())
    }

    /// Appends that the line was refused, what it names, and why; the sentence of the status, where no reason is given.
    pub fn say_refused(
        &mut self,
        text: &mut String,
        status: Status,
        reason: Option<&str>,
        subject: Facts,
    ) -> Result<(), AllocError> {
        let refused = Event::refused(status, subject);
        let detail = Detail {
            reason,
            ..Detail::none()
        };
        self.say_event(text, &refused, &detail)
    }

    /// Appends that a filter was loaded. Filters are numbered in that order.
    pub fn say_loaded(
        &mut self,
        text: &mut String,
        filter: FilterId,
        name: Name,
    ) -> Result<(), AllocError> {
        self.notes.load(name, self.line)?;
        let facts = Facts {
            filter: Some(u64::from(filter.0)),
            ..Facts::none()
        };
        self.say_plain(text, &Event::of(Kind::Loaded, facts))
    }

    /// Appends that a volume was mounted. Volumes are numbered in that order.
    pub fn say_mounted(
        &mut self,
        text: &mut String,
        volume: VolumeId,
        name: Name,
    ) -> Result<(), AllocError> {
        self.notes.mount(name, self.line)?;
        let facts = Facts {
            volume: Some(u64::from(volume.0)),
            ..Facts::none()
        };
        self.say_plain(text, &Event::of(Kind::Mounted, facts))
    }

    /// Appends that the line asks for an end, which a trial passes over.
    pub fn say_stopped(&self, text: &mut String) -> Result<(), AllocError> {
        let mut object = JsonObject::new(self.alloc, self.line, "Stopped");
        object.written("command", "raw", self.command.as_bytes());
        object.text("words", "a trial ends with its file, and goes on here");
        self.append(text, object)
    }

    /// Notes what the line asks for, before it is asked: what begins on the line is that.
    pub fn ask(&mut self, request: &Request) -> Result<(), AllocError> {
        let mut bytes = None;
        if let Request::OnHandle {
            request: FileRequest::Write { bytes: given, .. },
            ..
        } = request
        {
            bytes = Some(Vec::from_slice(self.alloc, given.as_slice())?);
        }
        self.asked = Some(NotedRequest {
            what: what_of(request)?,
            bytes,
        });
        Ok(())
    }

    /// How many operations began so far.
    pub fn begun(&self) -> u64 {
        self.notes.operations.len() as u64
    }

    /// Appends that an operation of the line's request began; nothing where no request was noted. Operations are numbered in that order.
    pub fn say_began(&mut self, text: &mut String, operation: u64) -> Result<(), AllocError> {
        let Some(NotedRequest { what, bytes }) = self.next_asked() else {
            return Ok(());
        };
        self.notes.begin(self.line, what)?;
        let detail = match &bytes {
            Some(bytes) => Detail::bytes(bytes.as_slice()),
            None => Detail::none(),
        };
        let began = Event::of(Kind::Began, Facts::operation(operation));
        self.say_event(text, &began, &detail)
    }

    // What of the request begins next. A close is a cleanup first, unless that began before.
    fn next_asked(&mut self) -> Option<NotedRequest> {
        if let Some(
            NotedRequest {
                what: What::Close(handle),
                ..
            },
        ) = &self.asked
        {
            let handle = *handle;
            if !self.is_cleaned(handle) {
                return Some(NotedRequest {
                    what: What::Cleanup(handle),
                    bytes: None,
                });
            }
        }
        self.asked.take()
    }

    // Whether the cleanup of a handle began.
    fn is_cleaned(&self, handle: u64) -> bool {
        self.notes.operations.iter().any(
            |note| matches!(&note.what, What::Cleanup(other) if *other == handle),
        )
    }

    /// Appends the instances that were attached since the last call, and how far the life of each came.
    pub fn say_lives(&mut self, text: &mut String, state: &State) -> Result<(), AllocError> {
        for number in self.notes.instances.len()..state.instances() {
            if let Ok(number) = u16::try_from(number) {
                self.say_attached(text, state, InstanceId(number))?;
            }
        }
        self.notes.follow(self.line, state)?;
        self.say_changes(text)
    }

    // Notes an instance, and appends that it was attached, unless it declined.
    fn say_attached(
        &mut self,
        text: &mut String,
        state: &State,
        instance: InstanceId,
    ) -> Result<(), AllocError> {
        let (Some(name), Some(altitude), Some(filter), Some(volume), Some(phase)) = (
            state.instance_name(instance),
            state.altitude_of(instance),
            state.filter_of(instance),
            state.volume_of(instance),
            state.phase(instance),
        ) else {
            return Ok(());
        };
        let owner = (filter.0, volume.0);
        self.notes.attach(name, altitude, owner, phase, self.line)?;
        if phase != Phase::Attached {
            return Ok(());
        }
        let facts = Facts::instance(u64::from(instance.0));
        self.say_plain(text, &Event::of(Kind::Attached, facts))
    }

    // Appends the changes of lives that weren't told yet.
    fn say_changes(&mut self, text: &mut String) -> Result<(), AllocError> {
        let mut made = Text::new(self.alloc);
        for change in self.notes.changes.iter().skip(self.changes) {
            say_change_json(self.alloc, &mut made, change);
        }
        self.changes = self.notes.changes.len();
        push_made(text, made)
    }

    /// Appends that the callback that returned there left a reference behind.
    pub fn say_leaked(
        &mut self,
        text: &mut String,
        context: CtxId,
        kind: Option<ContextKind>,
        place: Place,
    ) -> Result<(), AllocError> {
        let number = self.number_of(context)?;
        let kind = kind.map(kind_word);
        let words = self.leak_words(number, kind, place);
        words.check()?;
        let mut object = JsonObject::new(self.alloc, self.line, "Leaked");
        object.text("words", words.as_str());
        object.id("context", 'c', number);
        if let Some(kind) = kind {
            object.text("kind", kind);
        }
        put_place(&mut object, place);
        self.append(text, object)
    }

    // The words for a reference that was left behind.
    fn leak_words(&self, number: u64, kind: Option<&str>, place: Place) -> Text {
        let mut words = Text::new(self.alloc);
        words.push_str("LEAKED ");
        push_id(&mut words, 'c', number);
        if let Some(kind) = kind {
            words.push_str(" (");
            words.push_str(kind);
            words.push_str(" context)");
        }
        words.push_str(", ");
        push_place(&mut words, &self.notes, place);
        words
    }

    // The number of a context: how many others were told before it.
    fn number_of(&mut self, context: CtxId) -> Result<u64, AllocError> {
        match self.contexts.iter().position(|other| *other == context) {
            Some(number) => Ok(number as u64),
            None => {
                self.contexts.push(context)?;
                Ok(self.contexts.len().saturating_sub(1) as u64)
            }
        }
    }

    /// Appends what is told of a callback.
    pub fn say_told(
        &mut self,
        text: &mut String,
        telling: &CallbackDetail<'_>,
    ) -> Result<(), AllocError> {
        let kind = if telling.is_limit { "limit" } else { "mistake" };
        let mut object = JsonObject::new(self.alloc, self.line, "Told");
        object.text("id", telling.id);
        object.text("telling", kind);
        object.text("words", telling.words);
        object.id("worker", 'w', 0);
        if let Some(context) = telling.context {
            let number = self.number_of(context)?;
            object.id("context", 'c', number);
        }
        put_place(&mut object, telling.place);
        self.append(text, object)
    }

    /// Appends whether the line's expectation was met: the words that are expected, and the lines of what was answered.
    pub fn say_expectation(
        &self,
        text: &mut String,
        expected: &str,
        is_met: bool,
        answered: &str,
    ) -> Result<(), AllocError> {
        let event = if is_met { "Met" } else { "Unmet" };
        let mut object = JsonObject::new(self.alloc, self.line, event);
        object.written("command", "raw", self.command.as_bytes());
        object.text("expected", expected);
        if !is_met {
            object.lines("answered", answered.as_bytes());
        }
        self.append(text, object)
    }

    /// Appends the last object: what is left, in figures and in words, and the exit status.
    pub fn say_end(
        &self,
        text: &mut String,
        tally: &Summary,
        words: &str,
    ) -> Result<(), AllocError> {
        let mut made = Text::new(self.alloc);
        say_end_json(self.alloc, &mut made, tally, words);
        push_made(text, made)
    }
}
