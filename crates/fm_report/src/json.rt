//! A run as JSON: one object a line, for each line that is printed, and for what only the end of a line tells. docs/JSON.md has the schema.

use crate::event::{Event, callback_of, instance_in, operation_in};
use crate::facts::Facts;
use crate::kind::Kind;
use crate::named::{kind_word, mode_word};
use crate::notes::{Change, LeakNote, Notes, What};
use crate::object::JsonObject;
use crate::tally::Summary;
use crate::text::Text;
use fm_callback_data::PreVerdict;
use fm_core::{Phase, Place};
use fm_types::Status;
use std::alloc::Global;

/// The number of the schema: a member that goes or means something else raises it.
pub const FORMAT: u64 = 1;

/// What an object says beside its event.
#[derive(Clone, Copy)]
pub struct ObjectDetail<'a> {
    /// The number of the line.
    pub line: u32,
    /// The line.
    pub command: &'a [u8],
    /// What happened, in words.
    pub words: &'a str,
    /// Why it was refused, if it was.
    pub reason: &'a str,
    /// What else it says.
    pub detail: Detail<'a>,
}

/// What an event doesn't have itself, where there is such a thing.
#[derive(Clone, Copy)]
pub struct Detail<'a> {
    /// The bytes that were written, read or told.
    pub bytes: Option<&'a [u8]>,
    /// The verdict that counts in place of the one that a preoperation gave.
    pub counted: Option<PreVerdict>,
    /// The status that a postoperation left in place of another one.
    pub left: Option<Status>,
    /// Why it was refused, if its status alone doesn't tell.
    pub reason: Option<&'a str>,
}

impl<'a> Detail<'a> {
    /// Nothing.
    pub fn none() -> Detail<'a> {
        Detail {
            bytes: None,
            counted: None,
            left: None,
            reason: None,
        }
    }

    /// Bytes alone.
    pub fn bytes(bytes: &'a [u8]) -> Detail<'a> {
        Detail {
            bytes: Some(bytes),
            ..Detail::none()
        }
    }
}

/// Appends the first object: the number of the schema, and of which file the script is, where that is known.
pub fn say_begin_json(alloc: Global, text: &mut Text, file: Option<&str>) {
    let mut object = JsonObject::new(alloc, 0, "Run");
    object.number("format", FORMAT);
    if let Some(file) = file {
        object.written("file", "raw", file.as_bytes());
    }
    object.finish(text)
}

/// Appends a line that asks for nothing.
pub fn say_comment_json(alloc: Global, text: &mut Text, line: u32, comment: &[u8]) {
    let mut object = JsonObject::new(alloc, line, "Comment");
    object.written("command", "raw", comment);
    object.finish(text)
}

/// Appends what happened.
pub fn say_json(
    alloc: Global,
    text: &mut Text,
    notes: &Notes,
    event: &Event,
    told: &ObjectDetail<'_>,
) {
    let mut object = JsonObject::new(alloc, told.line, event.kind.name());
    object.written("command", "raw", told.command);
    object.text("words", told.words);
    put_facts(&mut object, &event.facts);
    put_more(&mut object, notes, event, told.reason);
    put_detail(&mut object, &told.detail);
    object.finish(text)
}

// The ids of an event, its status, its verdict, its kind and its phase, where it has them.
fn put_facts(object: &mut JsonObject, facts: &Facts) {
    put_ids(object, facts);
    if let Some(status) = facts.status {
        put_status(object, status);
    }
    if let Some(verdict) = facts.verdict {
        put_verdict(object, verdict);
    }
    if let Some(kind) = facts.kind {
        object.text("kind", kind_word(kind));
    }
    match facts.phase {
        Some(phase) => object.text("phase", phase_name(phase)),
        None => {}
    }
}

fn put_ids(object: &mut JsonObject, facts: &Facts) {
    object.maybe("worker", 'w', facts.worker);
    object.maybe("filter", 'f', facts.filter);
    object.maybe("volume", 'v', facts.volume);
    object.maybe("instance", 'i', facts.instance);
    object.maybe("operation", 'o', facts.operation);
    object.maybe("handle", 'h', facts.handle);
    object.maybe("context", 'c', facts.context);
    object.maybe("old", 'c', facts.old)
}

// What an event has beside: what is noted of what it names, its number under its name, and why it was refused.
fn put_more(object: &mut JsonObject, notes: &Notes, event: &Event, reason: &str) {
    if event.kind.is_of_context() {
        put_context(object, notes, event.facts.context);
    }
    match event.kind {
        Kind::Loaded | Kind::Mounted | Kind::Attached | Kind::InSetup => {
            put_names(object, notes, &event.facts)
        }
        Kind::Began => put_request(object, notes, event.facts.operation),
        Kind::Replied => put_reply(object, notes, &event.facts),
        Kind::Refused => object.text("reason", reason),
        other => put_number(object, other, event.facts.number),
    }
}

// The number of an event, under its name.
fn put_number(object: &mut JsonObject, kind: Kind, number: u64) {
    match kind {
        Kind::Bumped => object.number("number", number),
        Kind::Leaks | Kind::Failures | Kind::Flight | Kind::Counted => {
            object.number("count", number)
        }
        Kind::CountedDue => object.text("life", "due"),
        Kind::CountedCleaning => object.text("life", "cleaning"),
        Kind::CountedCleaned => object.text("life", "cleaned"),
        Kind::WillFail | Kind::WontFail => object.number("call", number),
        _ => {}
    }
}

// What an event doesn't have itself, but for why it was refused.
fn put_detail(object: &mut JsonObject, detail: &Detail<'_>) {
    if let Some(counted) = detail.counted {
        put_counted(object, counted);
    }
    if let Some(status) = detail.left {
        put_status(object, status);
    }
    match detail.bytes {
        Some(bytes) => object.bytes("bytes", bytes),
        None => {}
    }
}

// The verdict that counts.
fn put_counted(object: &mut JsonObject, counted: PreVerdict) {
    object.text("counted", verdict_word(counted));
    match counted {
        PreVerdict::Complete(status) => {
            object.number("counted_status", u64::from(status.number()))
        }
        _ => {}
    }
}

// The names of a filter, of a volume or of an instance that came.
fn put_names(object: &mut JsonObject, notes: &Notes, facts: &Facts) {
    match (facts.filter, facts.volume, facts.instance) {
        (_, _, Some(instance)) => put_instance(object, notes, instance),
        (Some(filter), _, None) => match notes.filter(filter) {
            Some(note) => put_name(object, note.name.text()),
            None => {}
        },
        (None, Some(volume), None) => match notes.volume(volume) {
            Some(note) => put_name(object, note.name.text()),
            None => {}
        },
        (None, None, None) => {}
    }
}

fn put_name(object: &mut JsonObject, name: &[u8]) {
    object.written("name", "raw_name", name)
}

// The filter and the volume of an instance, its name and its altitude.
fn put_instance(object: &mut JsonObject, notes: &Notes, instance: u64) {
    let Some(note) = notes.instance(instance) else {
        return;
    };
    object.id("filter", 'f', u64::from(note.filter));
    object.id("volume", 'v', u64::from(note.volume));
    put_name(object, note.name.text());
    object.written("altitude", "raw_altitude", note.altitude.text())
}

// A status with its name; behind Busy stands how many things are in the way.
fn put_status(object: &mut JsonObject, status: Status) {
    object.number("status", u64::from(status.number()));
    object.text("status_name", status.name());
    match status {
        Status::Busy(count) => object.number("count", count),
        _ => {}
    }
}

fn put_verdict(object: &mut JsonObject, verdict: PreVerdict) {
    object.text("verdict", verdict_word(verdict));
    match verdict {
        PreVerdict::Complete(status) => put_status(object, status),
        _ => {}
    }
}

fn verdict_word(verdict: PreVerdict) -> &'static str {
    match verdict {
        PreVerdict::WithCallback(_) => "with",
        PreVerdict::Synchronize(_) => "sync",
        PreVerdict::NoCallback => "none",
        PreVerdict::Complete(_) => "complete",
        PreVerdict::Pending => "pend",
    }
}

// What the number of a reply is.
fn put_reply(object: &mut JsonObject, notes: &Notes, facts: &Facts) {
    match (notes.what(facts.operation), facts.status) {
        (Some(What::Create(..)), Some(Status::Success)) => object.id("handle", 'h', facts.number),
        (Some(What::Size(_)), Some(Status::Success)) => object.number("size", facts.number),
        _ => object.number("information", facts.number),
    }
}

// What an operation does, and on which volume.
fn put_request(object: &mut JsonObject, notes: &Notes, operation: Option<u64>) {
    let Some(what) = notes.what(operation) else {
        return;
    };
    object.text("request", what.word());
    object.maybe("volume", 'v', notes.volume_of_request(what).map(u64::from));
    object.maybe("handle", 'h', what.handle());
    match what {
        What::Create(_, path, mode) => {
            object.written("path", "raw_path", path.path().text());
            object.text("mode", mode_word(*mode))
        }
        What::Read(_, from, until) | What::Write(_, from, until) => {
            object.number("from", *from);
            object.number("until", *until)
        }
        What::SetSize(_, size) => object.number("size", *size),
        What::Other(_, major, number) | What::OtherV(_, major, number) => {
            object.major("major", *major);
            object.number("parameters", *number)
        }
        _ => {}
    }
}

// The kind of a context, and whose it is.
fn put_context(object: &mut JsonObject, notes: &Notes, context: Option<u64>) {
    let Some(note) = context.and_then(|context| notes.context(context)) else {
        return;
    };
    object.text("kind", kind_word(note.kind));
    object.id("owner", 'i', u64::from(note.instance))
}

/// Appends how far the life of an instance came on a line.
pub fn say_change_json(alloc: Global, text: &mut Text, change: &Change) {
    let mut object = JsonObject::new(alloc, change.line, "Became");
    object.id("instance", 'i', u64::from(change.instance));
    object.text("phase", phase_name(change.phase));
    object.finish(text)
}

/// Puts which callback it is, of which instance, and for which operation.
pub(crate) fn put_place(object: &mut JsonObject, place: Place) {
    object.text("callback", callback_of(place));
    object.maybe("instance", 'i', instance_in(place));
    object.maybe("operation", 'o', operation_in(place))
}

/// Appends that a callback left a reference behind.
pub fn say_leak_json(alloc: Global, text: &mut Text, notes: &Notes, leak: &LeakNote, words: &str) {
    let mut object = JsonObject::new(alloc, leak.line, "Leaked");
    object.text("words", words);
    object.id("context", 'c', leak.context);
    put_context(&mut object, notes, Some(leak.context));
    put_place(&mut object, leak.place);
    object.finish(text)
}

/// Appends whether an expectation was met: what was expected, and what the line before printed.
pub fn say_expectation_json(
    alloc: Global,
    text: &mut Text,
    line: u32,
    expected: &[u8],
    (is_met, printed): (bool, &[u8]),
) {
    let mut object = JsonObject::new(alloc, line, if is_met { "Met" } else { "Unmet" });
    object.written("expected", "raw", expected);
    if !is_met {
        object.lines("answered", printed);
    }
    object.finish(text)
}

/// Appends what is left at the end, and the exit status.
pub fn say_end_json(alloc: Global, text: &mut Text, tally: &Summary, words: &str) {
    let mut object = JsonObject::new(alloc, tally.lines, "End");
    object.text("words", words);
    object.text("verdict", tally.verdict());
    object.number("status", u64::from(tally.status));
    put_figures(&mut object, tally);
    put_trial(&mut object, tally);
    object.finish(text)
}

// The figures of each run.
fn put_figures(object: &mut JsonObject, tally: &Summary) {
    object.number("refused", tally.refused);
    object.number("born", tally.born);
    object.number("cleaned", tally.cleaned);
    object.number("leaks", tally.leaks);
    object.number("held", tally.held);
    object.number("misuses", tally.misuses);
    object.number("unmet", tally.unmet)
}

// Those of a trial.
fn put_trial(object: &mut JsonObject, tally: &Summary) {
    if let Some(told) = tally.told {
        object.number("told", told);
    }
    match tally.dropped {
        Some(dropped) => object.number("dropped", dropped),
        None => {}
    }
}

// The name of a phase, as scripts print it.
fn phase_name(phase: Phase) -> &'static str {
    match phase {
        Phase::Setup => "setup",
        Phase::Attached => "attached",
        Phase::Stopping => "stopping",
        Phase::Completing => "completing",
        Phase::Emptying => "emptying",
        Phase::Detached => "detached",
    }
}
