//! What is left when a script has ended.

ghost use Rattle.std.specs.Prelude.{◌≡◌};
ghost use Rattle.fm_report.specs.Counted.{held_in};
ghost use Rattle.fm_view.specs.Ends.{status_of};

use crate::expect::Expectations;
use fm_callback_data::PreVerdict;
use fm_core::{Hold, Phase, Place, State};
use fm_report::{
    Event, Facts, Kind, Notes, RunFault, Text, counted_for, fill, held_at, held_operations,
    push_count, push_instance, push_place, say_leak, stands_at,
};
use fm_script::ScriptEnd;
use fm_types::{OpId, Status, WorkerId};

/// The exit status of a script that was shown, whose end left that state: that of its end. Of one that ended well it is 2 if a line expects what can't be
/// read, else 6 if an expectation wasn't met, and else 5 if the state has a reference that was left behind, or an operation that a filter holds, or if a line
/// gave back or resumed what it didn't have.
pub fn exit_status(end: ScriptEnd, wrong: u64, unmet: u64, misuses: u64, state: &State) -> u8
    ensures { result ≡ status_of end wrong unmet state.now.contexts.leaks (held_in state.now.flow) misuses }
{
    match end {
        ScriptEnd::Ended if wrong > 0 => 2,
        ScriptEnd::Ended if unmet > 0 => 6,
        ScriptEnd::Ended if state.leaks() > 0 || held_operations(state) > 0 || misuses > 0 => 5,
        other => other.status(),
    }
}

/// The verdict that counts in place of the one that a preoperation gave that has just returned.
pub fn counted_at(state: &State, event: &Event) -> Option<PreVerdict> {
    let facts = &event.facts;
    if event.kind != Kind::Pre {
        return None;
    }
    let stands = stands_at(state, OpId(facts.operation?), facts.instance?)?;
    counted_for(facts.verdict?, stands)
}

/// Appends what is left.
pub fn say_end(text: &mut Text, notes: &Notes, state: &State, lines: u32) {
    text.push_number(u64::from(lines));
    text.push_str(" lines, ");
    say_refusals(text, notes);
    say_contexts(text, state);
    say_leaks(text, notes);
    say_operations(text, notes, state);
    say_workers(text, notes, state);
    say_handles(text, notes, state);
    say_instances(text, notes)
}

// What became of contexts.
fn say_contexts(text: &mut Text, state: &State) {
    text.push_str("contexts: ");
    text.push_number(state.born());
    text.push_str(" born, ");
    text.push_number(state.cleaned_count());
    text.push_str(" cleaned up, ");
    push_count(text, state.leaks(), "reference");
    text.push_str(" left behind\n")
}

// How many lines were refused, by their statuses.
fn say_refusals(text: &mut Text, notes: &Notes) {
    text.push_number(notes.refused());
    text.push_str(" of them refused");
    let mut is_first = true;
    for (number, count) in notes.refusals.iter().enumerate() {
        if *count > 0 {
            text.push_str(before(is_first));
            say_refused_with(text, number, *count);
            is_first = false;
        }
    }
    text.push('\n')
}

// What stands before a status in a list of them.
fn before(is_first: bool) -> &'static str {
    if is_first { ": " } else { ", " }
}

// What stands before an instance in a list of them.
fn before_instance(is_first: bool) -> &'static str {
    if is_first {
        "  instances not detached: "
    } else {
        ", "
    }
}

// How many were refused with the status of that number.
fn say_refused_with(text: &mut Text, number: usize, count: u64) {
    text.push_number(count);
    text.push_str(" with ");
    text.push_number(number as u64);
    text.push(' ');
    text.push_str(name_of(number))
}

// The name of the status of that number.
fn name_of(number: usize) -> &'static str {
    let Ok(number) = u8::try_from(number) else {
        return "";
    };
    match Status::from_number(number, 0) {
        Some(status) => status.name(),
        None => "",
    }
}

/// Appends which references were left behind, and by which callbacks.
pub fn say_leaks(text: &mut Text, notes: &Notes) {
    for leak in &notes.leaks {
        text.push_str("  ");
        say_leak(text, notes, leak);
        text.push('\n');
    }
}

/// Appends which operations filters hold.
pub fn say_held(text: &mut Text, notes: &Notes, state: &State) {
    for number in 0..state.operations_begun() {
        if held_at(state, OpId(number)).is_some() {
            say_operation(text, notes, state, number);
        }
    }
}

// The operations that are held, under way, or not collected.
fn say_operations(text: &mut Text, notes: &Notes, state: &State) {
    for number in 0..state.operations_begun() {
        say_operation(text, notes, state, number);
    }
}

fn say_operation(text: &mut Text, notes: &Notes, state: &State, number: u64) {
    let facts = Facts::operation(number);
    match (held_at(state, OpId(number)), state.is_done(OpId(number))) {
        (Some((instance, hold)), _) => {
            let facts = Facts {
                instance: Some(u64::from(instance.0)),
                ..facts
            };
            fill(text, notes, &facts, held_words(hold))
        }
        (None, Some(false)) => fill(text, notes, &facts, "  under way: %O\n"),
        _ => {}
    }
}

// By what an operation is held.
fn held_words(hold: Hold) -> &'static str {
    match hold {
        Hold::Pre => "  HELD %O by the preoperation of %i\n",
        Hold::Post => "  HELD %O by the postoperation of %i\n",
    }
}

// The workers that are inside something.
fn say_workers(text: &mut Text, notes: &Notes, state: &State) {
    for number in 0..16u8 {
        let worker = WorkerId(number);
        let place = state.place(worker).unwrap_or(Place::Idle);
        if place != Place::Idle {
            text.push_str("  ");
            say_where(text, notes, worker, place);
            text.push('\n');
        }
    }
}

/// Appends where a worker is, and since when.
pub fn say_where(text: &mut Text, notes: &Notes, worker: WorkerId, place: Place) {
    text.push('w');
    text.push_number(u64::from(worker.0));
    text.push_str(" is ");
    push_place(text, notes, place);
    text.push_str(" since line ");
    text.push_number(u64::from(notes.since(worker)))
}

// The handles that are open.
fn say_handles(text: &mut Text, notes: &Notes, state: &State) {
    let count = state.handles();
    if count == 0 {
        return;
    }
    text.push_str("  handles open: ");
    text.push_number(count as u64);
    if count == notes.handles.len() {
        for handle in &notes.handles {
            fill(text, notes, &Facts::handle(*handle), " %h");
        }
    }
    text.push('\n')
}

// The instances that aren't detached.
fn say_instances(text: &mut Text, notes: &Notes) {
    let mut is_first = true;
    let mut number = 0u64;
    for note in &notes.instances {
        if note.phase != Phase::Detached {
            text.push_str(before_instance(is_first));
            push_instance(text, notes, number);
            is_first = false;
        }
        number = number.saturating_add(1);
    }
    if !is_first {
        text.push('\n')
    }
}

/// Appends how many lines aren't as a script should be: which expect what can't be read, or gave back what they didn't have, which expectations weren't met, and
/// in a strict run which refusals nothing expects.
pub fn say_expectations(text: &mut Text, expectations: &Expectations, is_strict: bool) {
    let surprises = if is_strict { expectations.surprises } else { 0 };
    say_lines(
        text,
        expectations.wrong,
        "line",
        wrong_words(expectations.wrong),
    );
    say_lines(
        text,
        expectations.misuses,
        "line",
        "gave back or resumed what it didn't have",
    );
    say_lines(text, expectations.unmet, "expectation", "not met");
    say_lines(text, surprises, "refusal", "that no line expects")
}

// That so many lines expect what can't be read.
fn wrong_words(count: u64) -> &'static str {
    match count {
        1 => "expects what can't be read",
        _ => "expect what can't be read",
    }
}

// A line of its own that so many of these are so, where there are some.
fn say_lines(text: &mut Text, count: u64, what: &str, words: &str) {
    if count == 0 {
        return;
    }
    text.push_str("  ");
    push_count(text, count, what);
    text.push(' ');
    text.push_str(words);
    text.push('\n')
}

/// Why an end wasn't a good one.
pub fn say_fault(text: &mut Text, end: ScriptEnd) {
    match end {
        ScriptEnd::Ended => {}
        ScriptEnd::NoMemory => text.push_str("1 NoMemory: the script ended early\n"),
        ScriptEnd::ReadFault => text.push_str("the script couldn't be read to its end\n"),
        ScriptEnd::WriteFault => text.push_str("the output couldn't be written\n"),
    }
}

/// What cut a script off, if something did.
pub fn fault_of(end: ScriptEnd) -> Option<RunFault> {
    match end {
        ScriptEnd::Ended => None,
        ScriptEnd::NoMemory => Some(RunFault::NoMemory),
        ScriptEnd::ReadFault => Some(RunFault::Read),
        ScriptEnd::WriteFault => Some(RunFault::Write),
    }
}
