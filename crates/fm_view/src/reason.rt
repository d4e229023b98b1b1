//! Why a line was refused, as far as the manager's state and the notes tell.

use crate::subject::{
    filter_of, handle_of, instance_of, operation_of, turned, volume_of, worker_of,
};
use crate::usage::{say_wrong, usage};
use crate::verdict::say_where;
use fm_altitude::Altitude;
use fm_core::{BeginsFrom, Count, Entry, FilterPhase, Phase, Place, State, Step, VolumePhase};
use fm_report::{
    ContextNote, Facts, InstanceNote, Notes, Text, What, fill, held_at, push_ascii, push_context,
    push_instance, push_operation, push_those, push_verb, sentence,
};
use fm_script::{ContextList, Keyword, Task, split_at_byte};
use fm_types::limits::{LINE, SCRIPT_WORKERS, WORKERS};
use fm_types::{ContextKind, FilterId, InstanceId, OpId, Status, WorkerId};
use fm_words::read_id;
use std::alloc::{AllocError, Global};
use strsim::osa_distance;

/// A line that was refused, beside what is known.
#[derive(Clone, Copy)]
pub struct RefusedLine<'a> {
    /// What the lines before it named.
    pub notes: &'a Notes,
    /// The manager's state.
    pub state: &'a State,
    /// The contexts by their numbers.
    pub contexts: &'a ContextList,
    /// What it asked for, if it could be read.
    pub task: Option<&'a Task>,
    /// Where its worker was.
    pub place: Place,
    /// The line.
    pub line: &'a [u8],
    /// The context that the refusal named.
    pub context: Option<u64>,
}

impl RefusedLine<'_> {
    // Appends words with these facts.
    fn fill(&self, text: &mut Text, facts: &Facts, pattern: &str) {
        fill(text, self.notes, facts, pattern)
    }
}

// Why a line of a file with lines of another system can't be read.
const CARRIAGE_RETURN: &str =
    "the line ends in a carriage return, which is a byte of its last word: lines of a script end in a line feed alone";

// Appends the sentence of a status.
fn say_sentence(text: &mut Text, status: Status) {
    text.push_str(sentence(status))
}

/// Appends why a line was refused.
pub fn say_refusal(alloc: Global, text: &mut Text, refusal: &RefusedLine<'_>, status: Status) {
    match refusal.task {
        Some(task) => say_asked(text, refusal, task, status),
        None => say_unasked(alloc, text, refusal, status),
    }
}

// A line that asked for something.
fn say_asked(text: &mut Text, refusal: &RefusedLine<'_>, task: &Task, status: Status) {
    match status {
        Status::WrongStep => say_wrong_step(text, refusal, task),
        Status::DeletingObject | Status::NoInstance => say_going(text, refusal, task),
        Status::NotPended => say_not_held(text, refusal, task),
        Status::Busy(count) => say_busy(text, refusal, task, count),
        Status::BadRequest => text.push_str(past_a_limit(task)),
        Status::NoHandle => say_no_handle(text, refusal, task),
        Status::DoNotDetach => say_unwilling(text, refusal, task),
        Status::AlreadyDefined => say_defined(text, refusal, task),
        Status::AlreadyLinked => say_linked(text, refusal, task),
        Status::NameCollision | Status::AltitudeCollision => {
            say_collision(text, refusal, task, status)
        }
        _ => say_sentence(text, status),
    }
}

// A line that was refused before any event.
fn say_unasked(alloc: Global, text: &mut Text, refusal: &RefusedLine<'_>, status: Status) {
    if refusal.line.ends_with(b"\r") {
        return text.push_str(CARRIAGE_RETURN);
    }
    match status {
        Status::BadRequest => say_unread(alloc, text, refusal.line),
        Status::WrongStep => say_unknown(text, refusal),
        Status::NotHeld => text.push_str("no context has that number"),
        Status::NoHandle => text.push_str("no handle of that number was given"),
        _ => say_sentence(text, status),
    }
}

// Which limit or rule a line passes that could be read.
fn past_a_limit(task: &Task) -> &'static str {
    match task {
        Task::Event(
            Step::Begin(_) | Step::BeginFrom(BeginsFrom::FileSystem | BeginsFrom::Top, _),
        ) => { "one read or write has at most 32,768 bytes, and a file ends at 2^40 at most" }
        Task::Event(Step::BeginFrom(BeginsFrom::Below(_) | BeginsFrom::Base(_), _)) => {
            "it is on another volume than the instance, or past a limit of 32,768 bytes or 2^40"
        }
        Task::Event(Step::WriteBody { .. }) => "the body has another length",
        Task::Event(Step::Bump { .. }) => "the body ends before eight bytes from there",
        _ => "it doesn't fit what it is asked of",
    }
}

// Which number of a line was never given.
fn say_unknown(text: &mut Text, refusal: &RefusedLine<'_>) {
    for word in refusal.line.split(|byte| *byte == b' ') {
        match unknown_in(refusal.state, word) {
            Some(facts) if facts.operation.is_some() => {
                return refusal.fill(text, &facts, "no %o was begun");
            }
            Some(facts) => {
                return refusal.fill(text, &facts, "there is no %w: workers are w0 to w15");
            }
            None => {}
        }
    }
    say_sentence(text, Status::WrongStep)
}

// The operation or the worker that a word names, if it was never given.
fn unknown_in(state: &State, word: &[u8]) -> Option<Facts> {
    if let Some(operation) = read_id(b'o', word) {
        if operation >= state.operations_begun() {
            return Some(Facts::operation(operation));
        }
    }
    let worker = read_id(b'w', word)?;
    if worker >= SCRIPT_WORKERS {
        return Some(Facts::worker(worker));
    }
    None
}

// Why a handle isn't open for it.
fn say_no_handle(text: &mut Text, refusal: &RefusedLine<'_>, task: &Task) {
    let Some(handle) = handle_of(task) else {
        return say_sentence(text, Status::NoHandle);
    };
    let facts = Facts::handle(handle);
    if handle >= refusal.state.handles_given() {
        return refusal.fill(text, &facts, "no %h was given");
    }
    match end_of(refusal.notes, handle) {
        Some((facts, words)) => refusal.fill(text, &facts, words),
        None => refusal.fill(text, &facts, "%h was closed by the dismount"),
    }
}

// The last operation that ends a handle, and the words for it.
fn end_of(notes: &Notes, handle: u64) -> Option<(Facts, &'static str)> {
    let mut number = 0u64;
    let mut last = None;
    for note in &notes.operations {
        if let Some(words) = end_words(&note.what, handle) {
            let facts = Facts {
                operation: Some(number),
                line: note.line,
                ..Facts::handle(handle)
            };
            last = Some((facts, words));
        }
        number = number.saturating_add(1);
    }
    last
}

// The words for a request that ends a handle.
fn end_words(what: &What, handle: u64) -> Option<&'static str> {
    match what {
        What::Cleanup(other) if *other == handle => {
            Some("the cleanup of %h, %o, began on line %l")
        }
        What::Close(other) if *other == handle => Some("the close of %h, %o, began on line %l"),
        _ => None,
    }
}

// Whether a filter was asked at all.
fn say_unwilling(text: &mut Text, refusal: &RefusedLine<'_>, task: &Task) {
    let (asks, words) = match task {
        Task::Event(Step::AskDetach { instance, .. }) => (
            refusal.state.filter_of(*instance),
            "%f has no query routine, so nobody was asked",
        ),
        Task::Event(Step::AskUnload { filter, .. }) => (
            Some(*filter),
            "%f has no unload routine, so nobody was asked",
        ),
        _ => (None, ""),
    };
    match asks {
        Some(filter) => { refusal.fill(text, &Facts::filter_since(u64::from(filter.0), 0), words) }
        None => say_sentence(text, Status::DoNotDetach),
    }
}

// Which context is set there already, and whether a reference to it came into the hand.
fn say_defined(text: &mut Text, refusal: &RefusedLine<'_>, task: &Task) {
    let (context, words) = match refusal.context {
        Some(context) => (
            Some(context),
            "%c is set there already, and one reference to it came into the hand",
        ),
        None => (only_other(refusal, task), "%c is set there already"),
    };
    match context {
        Some(context) => refusal.fill(text, &Facts::context_since(context, 0), words),
        None => say_sentence(text, Status::AlreadyDefined),
    }
}

// The context of the same owner and kind as that of the line, if no more than one was ever set: then it is the one that is there.
fn only_other(refusal: &RefusedLine<'_>, task: &Task) -> Option<u64> {
    let Task::Event(Step::Set { context, .. }) = task else {
        return None;
    };
    let own = refusal.contexts.number_of(*context)?;
    let mut found = None;
    for (number, note) in refusal.notes.contexts.iter().enumerate() {
        if number != own && note.set > 0 && is_alike(refusal.notes, note, own) {
            if found.is_some() {
                return None;
            }
            found = Some(number as u64);
        }
    }
    found
}

// Whether a context has the kind and the owner of that one.
fn is_alike(notes: &Notes, note: &ContextNote, own: usize) -> bool {
    let Some(other) = notes.contexts.get(own) else {
        return false;
    };
    note.kind == other.kind && is_one_owner(notes, note, other)
}

// Whether two contexts of a kind have one owner.
fn is_one_owner(notes: &Notes, note: &ContextNote, other: &ContextNote) -> bool {
    match note.kind {
        ContextKind::Volume => {
            filter_at(notes, note.instance) == filter_at(notes, other.instance)
        }
        _ => note.instance == other.instance,
    }
}

// The filter of an instance.
fn filter_at(notes: &Notes, instance: u16) -> Option<u8> {
    Some(notes.instance(u64::from(instance))?.filter)
}

// Where a context is set already.
fn say_linked(text: &mut Text, refusal: &RefusedLine<'_>, task: &Task) {
    let Some(number) = context_in(refusal, task) else {
        return say_sentence(text, Status::AlreadyLinked);
    };
    match refusal.notes.context(number) {
        Some(note) if note.set > 0 => {
            let facts = Facts::context_since(number, note.set);
            refusal.fill(text, &facts, "%c is set already, since line %l")
        }
        _ => {
            let facts = Facts::context_since(number, 0);
            refusal.fill(text, &facts, "%c is set already")
        }
    }
}

// The number of the context that a line sets.
fn context_in(refusal: &RefusedLine<'_>, task: &Task) -> Option<u64> {
    match task {
        Task::Event(Step::Set { context, .. }) => {
            Some(refusal.contexts.number_of(*context)? as u64)
        }
        _ => None,
    }
}

// Which instance has the name or the altitude.
fn say_collision(text: &mut Text, refusal: &RefusedLine<'_>, task: &Task, status: Status) {
    say_sentence(text, status);
    let Some(volume) = volume_of(task) else {
        return;
    };
    let mut number = 0u64;
    for note in &refusal.notes.instances {
        let is_there = note.phase != Phase::Detached && note.volume == volume.0;
        if is_there && is_spelled(note, refusal.line, status) {
            return refusal.fill(text, &Facts::instance(number), ": %i");
        }
        number = number.saturating_add(1);
    }
}

// Whether a word of the line is the instance's name, or its altitude.
fn is_spelled(note: &InstanceNote, line: &[u8], status: Status) -> bool {
    for word in line.split(|byte| *byte == b' ').skip(3) {
        if is_same(note, word, status) {
            return true;
        }
    }
    false
}

// Whether a word is the instance's name, or its altitude.
fn is_same(note: &InstanceNote, word: &[u8], status: Status) -> bool {
    match status {
        Status::NameCollision => word == note.name.text(),
        _ => Altitude::read(word) == Ok(note.altitude),
    }
}

// A line that can't be read: which word isn't one.
fn say_unread(alloc: Global, text: &mut Text, line: &[u8]) {
    if line.len() > LINE {
        text.push_str("a line has at most ");
        text.push_number(LINE as u64);
        return text.push_str(" bytes");
    }
    let (word, _) = split_at_byte(line, b' ');
    match Keyword::read(word) {
        Some(keyword) => {
            say_wrong(text, line, usage(keyword));
            text.push_str(": it is ");
            say_usage(text, word, keyword)
        }
        None => say_no_command(alloc, text, word),
    }
}

// How a command is spelled.
fn say_usage(text: &mut Text, word: &[u8], keyword: Keyword) {
    push_ascii(text, word);
    text.push(' ');
    text.push_str(usage(keyword))
}

// A line whose first word is no command.
fn say_no_command(alloc: Global, text: &mut Text, word: &[u8]) {
    let words = other_words(word);
    if !words.is_empty() {
        return text.push_str(words);
    }
    text.push('\'');
    push_ascii(text, word);
    text.push_str("' is no command");
    say_nearest(alloc, text, word)
}

// What is said of words that other languages have.
fn other_words(word: &[u8]) -> &'static str {
    match word {
        b"detach" => "a detach is query, queried, start, started, complete, completed and finish",
        b"help" => "the commands stand in docs/SCRIPT.md; the end of the input ends a script",
        b"quit" | b"exit" => "the end of the input ends a script",
        _ => "",
    }
}

// Bytes as a text.
fn written(alloc: Global, bytes: &[u8]) -> Result<String, AllocError> {
    let mut text = Text::new(alloc);
    push_ascii(&mut text, bytes);
    text.finish()
}

// The command that is spelled most alike.
fn say_nearest(alloc: Global, text: &mut Text, word: &[u8]) {
    match nearest(alloc, word) {
        Ok(Some(keyword)) => {
            text.push_str("; the nearest is ");
            say_usage(text, keyword.spelling(), keyword)
        }
        Ok(None) => {}
        Err(_) => text.fail(),
    }
}

// The keyword that is spelled most alike, if one is.
fn nearest(alloc: Global, word: &[u8]) -> Result<Option<Keyword>, AllocError> {
    let word = written(alloc, word)?;
    let mut least = word.len().min(4);
    let mut nearest = None;
    for keyword in Keyword::ALL {
        let spelled = written(alloc, keyword.spelling())?;
        let distance = osa_distance(alloc, word.as_str(), spelled.as_str())?;
        if distance < least {
            least = distance;
            nearest = Some(keyword);
        }
    }
    Ok(nearest)
}

// Something out of order: where the worker is, or what else is in the way.
fn say_wrong_step(text: &mut Text, refusal: &RefusedLine<'_>, task: &Task) {
    let worker = worker_of(task);
    if let (Some(worker), true) = (worker, refusal.place != Place::Idle) {
        return say_where(text, refusal.notes, worker, refusal.place);
    }
    match (turned(task), torn(task), worker) {
        (Some(operation), _, _) => say_operation(text, refusal, operation),
        (_, Some(instance), _) => say_instance(text, refusal, task, u64::from(instance.0)),
        (_, _, Some(worker)) => {
            let facts = Facts::worker(u64::from(worker.0));
            refusal.fill(text, &facts, "%w is in no callback")
        }
        _ => say_object(text, refusal, task),
    }
}

// The instance of a step of a teardown, or of a routine.
fn torn(task: &Task) -> Option<InstanceId> {
    match task {
        Task::Event(
            Step::StartTeardown { instance, .. }
            | Step::CompleteTeardown { instance, .. }
            | Step::EnterRoutine { instance, .. }
            | Step::BeginFrom(BeginsFrom::Below(instance) | BeginsFrom::Base(instance), _)
            | Step::Finish { instance },
        ) => Some(*instance),
        _ => None,
    }
}

// Why an operation doesn't go on.
fn say_operation(text: &mut Text, refusal: &RefusedLine<'_>, operation: OpId) {
    if let Some((worker, place)) = worker_in(refusal.state, operation) {
        return say_where(text, refusal.notes, worker, place);
    }
    let facts = Facts::operation(operation.0);
    if let Some(worker) = refusal.state.sync_worker(operation) {
        let facts = Facts::worker(u64::from(worker.0));
        return refusal.fill(text, &facts, "its next postoperation is for %w alone");
    }
    match refusal.state.is_done(operation) {
        Some(false) => refusal.fill(text, &facts, "%o isn't done"),
        _ => refusal.fill(text, &facts, "the reply of %o was collected"),
    }
}

// The worker that is in a callback or a call for an operation, and where.
fn worker_in(state: &State, operation: OpId) -> Option<(WorkerId, Place)> {
    for number in 0..WORKERS as u8 {
        let worker = WorkerId(number);
        let place = state.place(worker).unwrap_or(Place::Idle);
        if is_for(place, operation) {
            return Some((worker, place));
        }
    }
    None
}

// Whether a callback or a call is for an operation, in its turn.
fn is_for(place: Place, operation: OpId) -> bool {
    match place {
        Place::Pre(other, _)
        | Place::Post(other, _)
        | Place::Drain(other, _)
        | Place::Base(other) => { other == operation }
        _ => false,
    }
}

// Why an instance isn't so far.
fn say_instance(text: &mut Text, refusal: &RefusedLine<'_>, task: &Task, instance: u64) {
    let Some(note) = refusal.notes.instance(instance) else {
        return say_sentence(text, Status::WrongStep);
    };
    let is_finish = matches!(task, Task::Event(Step::Finish { .. }));
    if is_finish || note.phase != Phase::Stopping {
        return say_phase(text, refusal, instance, &note);
    }
    let is_start = matches!(task, Task::Event(Step::StartTeardown { .. }));
    let (line, words) = teardown_words(note.started, is_start);
    refusal.fill(text, &Facts::instance_since(instance, line), words)
}

// How far an instance's life is, and since when.
fn say_phase(text: &mut Text, refusal: &RefusedLine<'_>, instance: u64, note: &InstanceNote) {
    let facts = Facts {
        phase: Some(note.phase),
        ..Facts::instance_since(instance, note.since)
    };
    refusal.fill(text, &facts, "%i is %P since line %l")
}

// What isn't so far of a teardown, and the line that is told with it.
fn teardown_words(started: (u32, u32), is_start: bool) -> (u32, &'static str) {
    match started {
        (started, _) if is_start => (started, "the teardown of %i started on line %l"),
        (0, _) => (0, "the teardown of %i hasn't started"),
        (started, 0) => (started, "the teardown-start of line %l hasn't returned"),
        _ => (0, "a query of %i hasn't returned"),
    }
}

// The words for how far a filter's life is.
fn filter_words(phase: FilterPhase) -> &'static str {
    match phase {
        FilterPhase::Loaded => "%f has to be unloaded first: it is loaded since line %l",
        FilterPhase::Unloading => "%f is being unloaded since line %l",
        FilterPhase::Emptied => "%f has lost its volume contexts since line %l",
        FilterPhase::NotLoaded => "%f isn't loaded any more since line %l",
    }
}

// The words for how far a volume's life is.
fn volume_words(phase: VolumePhase) -> &'static str {
    match phase {
        VolumePhase::Mounted => "%v has to be dismounted first: it is mounted since line %l",
        VolumePhase::Dismounting => "%v is being dismounted since line %l",
        VolumePhase::Emptied => "%v has lost its contexts since line %l",
        VolumePhase::Finished => "%v is dismounted since line %l",
    }
}

// How far the life of a filter or a volume is.
fn say_object(text: &mut Text, refusal: &RefusedLine<'_>, task: &Task) {
    if let Some((facts, words)) = volume_life(refusal.notes, task) {
        return refusal.fill(text, &facts, words);
    }
    if let Some((facts, words)) = filter_life(refusal, task) {
        return refusal.fill(text, &facts, words);
    }
    match handle_of(task) {
        Some(handle) => refusal.fill(
            text,
            &Facts::handle(handle),
            "the cleanup of %h comes once, and is done before its close",
        ),
        None => say_sentence(text, Status::WrongStep),
    }
}

// How far the life of the volume is that a line names.
fn volume_life(notes: &Notes, task: &Task) -> Option<(Facts, &'static str)> {
    let volume = u64::from(volume_of(task)?.0);
    let note = notes.volume(volume)?;
    Some((
        Facts::volume_since(volume, note.since),
        volume_words(note.phase),
    ))
}

// How far the life of the filter is that a line names.
fn filter_life(refusal: &RefusedLine<'_>, task: &Task) -> Option<(Facts, &'static str)> {
    let filter = u64::from(filter_of(task, refusal.place)?.0);
    let note = refusal.notes.filter(filter)?;
    Some((
        Facts::filter_since(filter, note.since),
        filter_words(note.phase),
    ))
}

// What is going, and since when.
fn say_going(text: &mut Text, refusal: &RefusedLine<'_>, task: &Task) {
    if let Some(instance) = instance_of(task, refusal.place) {
        return say_going_instance(text, refusal, instance);
    }
    let Some(filter) = filter_of(task, refusal.place) else {
        return say_sentence(text, Status::DeletingObject);
    };
    let filter = u64::from(filter.0);
    match refusal.notes.filter(filter) {
        Some(note) if note.phase != FilterPhase::Loaded => {
            let facts = Facts::filter_since(filter, note.since);
            refusal.fill(text, &facts, "%f is being unloaded since line %l")
        }
        _ => refusal.fill(text, &Facts::filter_since(filter, 0), "%f is asked already"),
    }
}

// Whether an instance is going, and since when.
fn say_going_instance(text: &mut Text, refusal: &RefusedLine<'_>, instance: u64) {
    match refusal.notes.instance(instance) {
        Some(note) if note.phase != Phase::Attached => say_phase(text, refusal, instance, &note),
        _ => refusal.fill(
            text,
            &Facts::instance(instance),
            "%i is asked already, or its object is going",
        ),
    }
}

// Who holds an operation, if not the instance whose callback resumes it.
fn say_not_held(text: &mut Text, refusal: &RefusedLine<'_>, task: &Task) {
    let operation = operation_of(task, refusal.place).unwrap_or(0);
    let facts = Facts::operation(operation);
    let Some((holder, _)) = held_at(refusal.state, OpId(operation)) else {
        return refusal.fill(text, &facts, "nobody holds %o");
    };
    let held = Facts {
        instance: Some(u64::from(holder.0)),
        ..facts
    };
    refusal.fill(text, &held, "%i holds %o, and the callback is one of ");
    let own = instance_of(task, refusal.place).unwrap_or(0);
    refusal.fill(text, &Facts::instance(own), "%j")
}

// What is in the way.
fn say_busy(text: &mut Text, refusal: &RefusedLine<'_>, task: &Task, count: u64) {
    match task {
        Task::Event(Step::CompleteTeardown { instance, .. }) => {
            push_verb(text, count, "operation");
            text.push_str(" in flight at it");
            say_group(text, refusal, Group::At(*instance), count)
        }
        Task::Event(Step::StartDismount { volume }) => {
            push_those(text, count, "operations");
            text.push_str(" not collected");
            say_group(text, refusal, Group::On(volume.0), count)
        }
        Task::Event(Step::EmptyFilter { filter }) => {
            push_those(text, count, "instances");
            text.push_str(" not detached");
            say_attached(text, refusal, *filter)
        }
        Task::Event(Step::EmptyVolume { volume }) => say_left_open(text, refusal, volume.0, count),
        other => say_busy_end(text, refusal, other, count),
    }
}

// What is in the way of an end.
fn say_busy_end(text: &mut Text, refusal: &RefusedLine<'_>, task: &Task, count: u64) {
    match task {
        Task::Event(Step::Finish { .. }) => {
            push_those(text, count, "contexts");
            text.push_str(" not cleaned up");
            say_contexts(text, refusal, task)
        }
        Task::Event(Step::FinishFilter { .. } | Step::FinishVolume { .. }) => {
            push_verb(text, count, "volume context");
            text.push_str(" not cleaned up");
            say_contexts(text, refusal, task)
        }
        _ => {
            text.push_number(count);
            text.push_str(" are in the way")
        }
    }
}

// Whether an instance's preoperation saw an operation.
fn is_visited(state: &State, operation: OpId, instance: InstanceId) -> bool {
    match state.trace(operation) {
        Some(trace) => trace.iter().any(
            |entry| matches!(entry, Entry::Pre(visit) if visit.instance == instance),
        ),
        None => false,
    }
}

// Operations that may be in the way.
#[derive(Clone, Copy)]
enum Group {
    // Those in flight at an instance.
    At(InstanceId),
    // Those on a volume that weren't collected.
    On(u8),
}

impl Group {
    // Whether an operation is one of them.
    fn has(self, refusal: &RefusedLine<'_>, number: u64) -> bool {
        let operation = OpId(number);
        match (self, refusal.state.is_done(operation)) {
            (Group::At(instance), Some(false)) => is_visited(refusal.state, operation, instance),
            (Group::On(volume), Some(_)) => { refusal.notes.volume_of(number) == Some(volume) }
            _ => false,
        }
    }

    // How many they are.
    fn count(self, refusal: &RefusedLine<'_>) -> u64 {
        let mut count = 0u64;
        for number in 0..refusal.state.operations_begun() {
            if self.has(refusal, number) {
                count = count.saturating_add(1);
            }
        }
        count
    }
}

// The operations of a group, if the notes tell all that are in the way.
fn say_group(text: &mut Text, refusal: &RefusedLine<'_>, group: Group, count: u64) {
    if group.count(refusal) != count {
        return;
    }
    let mut is_first = true;
    for number in 0..refusal.state.operations_begun() {
        if group.has(refusal, number) {
            text.push_str(mark(is_first));
            push_operation(text, refusal.notes, number);
            is_first = false;
        }
    }
}

// What stands before one of a list.
fn mark(is_first: bool) -> &'static str {
    if is_first { ": " } else { ", " }
}

// The instances of a filter that aren't detached.
fn say_attached(text: &mut Text, refusal: &RefusedLine<'_>, filter: FilterId) {
    let mut is_first = true;
    let mut number = 0u64;
    for note in &refusal.notes.instances {
        if note.phase != Phase::Detached && note.filter == filter.0 {
            text.push_str(mark(is_first));
            push_instance(text, refusal.notes, number);
            is_first = false;
        }
        number = number.saturating_add(1);
    }
}

// Whether a context keeps the line's instance, filter or volume from its end.
fn is_kept(refusal: &RefusedLine<'_>, task: &Task, note: &ContextNote) -> bool {
    let owner = refusal.notes.instances.get(usize::from(note.instance));
    let is_volume = note.kind == ContextKind::Volume;
    match (task, owner) {
        (Task::Event(Step::Finish { instance }), _) => !is_volume && note.instance == instance.0,
        (Task::Event(Step::FinishFilter { filter }), Some(owner)) => {
            is_volume && owner.filter == filter.0
        }
        (Task::Event(Step::FinishVolume { volume }), Some(owner)) => {
            is_volume && owner.volume == volume.0
        }
        _ => false,
    }
}

// The contexts that aren't cleaned up and keep it from its end.
fn say_contexts(text: &mut Text, refusal: &RefusedLine<'_>, task: &Task) {
    let mut is_first = true;
    let ids = refusal.contexts.as_slice();
    for (number, note) in refusal.notes.contexts.iter().enumerate() {
        let is_cleaned = match ids.get(number) {
            Some(id) => refusal.state.count(*id) == Count::Cleaned,
            None => true,
        };
        if !is_cleaned && is_kept(refusal, task, note) {
            text.push_str(mark(is_first));
            push_context(text, refusal.notes, number as u64);
            is_first = false;
        }
    }
}

// What keeps a volume from being emptied: handles, and instances.
fn say_left_open(text: &mut Text, refusal: &RefusedLine<'_>, volume: u8, count: u64) {
    let mut attached = 0u64;
    for note in &refusal.notes.instances {
        if note.phase != Phase::Detached && note.volume == volume {
            attached = attached.saturating_add(1);
        }
    }
    let open = count.saturating_sub(attached);
    match (open, attached) {
        (0, _) => {
            push_verb(text, attached, "instance");
            text.push_str(" not detached");
        }
        (_, 0) => {
            push_verb(text, open, "handle");
            text.push_str(" open");
        }
        _ => {
            push_verb(text, open, "handle");
            text.push_str(" open, and ");
            push_verb(text, attached, "instance");
            text.push_str(" not detached");
        }
    }
    say_left_instances(text, refusal, volume)
}

// The instances on a volume that aren't detached.
fn say_left_instances(text: &mut Text, refusal: &RefusedLine<'_>, volume: u8) {
    let mut is_first = true;
    let mut number = 0u64;
    for note in &refusal.notes.instances {
        if note.phase != Phase::Detached && note.volume == volume {
            text.push_str(mark(is_first));
            push_instance(text, refusal.notes, number);
            is_first = false;
        }
        number = number.saturating_add(1);
    }
}
