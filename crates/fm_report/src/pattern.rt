//! Words with facts in them: a letter behind `%` stands for one.

use crate::facts::Facts;
use crate::named::{
    kind_word, phase_word, push_context, push_filter, push_instance, push_operation, push_volume,
};
use crate::notes::{Notes, What};
use crate::push::{push_ascii, push_count, push_hex, push_id, push_number, push_status};
use crate::text::Text;
use fm_callback_data::PreVerdict;
use fm_core::Phase;
use fm_types::{ContextKind, Status};

/// How many bytes of a body or of a reply are shown.
const SHOWN: usize = 32;

/// What a pattern is filled with.
#[derive(Clone, Copy)]
pub struct Filling<'a> {
    /// What the run named.
    pub notes: &'a Notes,
    /// The facts.
    pub facts: &'a Facts,
    /// The bytes that were written, read or told.
    pub bytes: &'a [u8],
}

/// Appends a pattern with these facts: `%f`, `%v`, `%i`, `%O`, `%c` are a filter, a volume, an instance, an operation and a context by id and name, `%w`,
/// `%o`, `%h` and `%j` a worker, an operation, a handle and an instance by their ids, `%n` the number, `%l` the line, `%s` the status, `%V` the verdict, `%k`
/// the kind, `%P` the phase. What isn't there leaves nothing.
pub fn fill(text: &mut Text, notes: &Notes, facts: &Facts, pattern: &str) {
    let filling = Filling {
        notes,
        facts,
        bytes: b"",
    };
    fill_with(text, &filling, pattern)
}

/// The same with bytes: `%x` are those of a body, and `%R` what a reply has behind its status.
pub fn fill_with(text: &mut Text, filling: &Filling<'_>, pattern: &str) {
    let mut is_fact = false;
    for byte in pattern.as_bytes() {
        let byte = *byte;
        if is_fact {
            push_fact(text, filling, byte);
            is_fact = false;
        } else if byte == b'%' {
            is_fact = true;
        } else {
            text.push(char::from(byte));
        }
    }
}

// Appends the fact of a letter: one that has a name.
fn push_fact(text: &mut Text, filling: &Filling<'_>, letter: u8) {
    let Filling { notes, facts, .. } = filling;
    match (letter, id_of(facts, letter)) {
        (b'f', Some(filter)) => push_filter(text, notes, filter),
        (b'v', Some(volume)) => push_volume(text, notes, volume),
        (b'i', Some(instance)) => push_instance(text, notes, instance),
        (b'O', Some(operation)) => push_operation(text, notes, operation),
        (b'c', Some(context)) => push_context(text, notes, context),
        (b'@', Some(instance)) => push_on(text, notes, instance),
        (b'D', Some(old)) => push_old(text, notes, old),
        (b'w' | b'o' | b'h', Some(id)) => push_id(text, char::from(letter), id),
        (b'j', Some(instance)) => push_id(text, 'i', instance),
        (_, Some(_)) => {}
        (_, None) => push_number_fact(text, filling, letter),
    }
}

// The id that a letter stands for, if it is there.
fn id_of(facts: &Facts, letter: u8) -> Option<u64> {
    match letter {
        b'f' => facts.filter,
        b'v' => facts.volume,
        b'i' | b'j' | b'@' => facts.instance,
        b'O' | b'o' => facts.operation,
        b'c' => facts.context,
        b'D' => facts.old,
        b'w' => facts.worker,
        b'h' => facts.handle,
        _ => None,
    }
}

// Appends the fact of a letter: a number, or how many there are.
fn push_number_fact(text: &mut Text, filling: &Filling<'_>, letter: u8) {
    let number = filling.facts.number;
    match letter {
        b'n' => push_number(text, number),
        b'l' => push_number(text, u64::from(filling.facts.line)),
        b'r' => push_count(text, number, "reference"),
        b'b' => push_count(text, number, "operation"),
        b'a' => push_count(text, number, "device call"),
        b'x' => push_body(text, filling.bytes),
        b'R' => push_reply(text, filling),
        other => push_word_fact(text, filling.facts, other),
    }
}

// Appends the fact of a letter: a status, a verdict, a kind or a phase.
fn push_word_fact(text: &mut Text, facts: &Facts, letter: u8) {
    match letter {
        b's' => push_stated(text, facts.status),
        b'V' => push_given(text, facts.verdict, facts.context),
        b'k' => text.push_str(kind_of(facts.kind)),
        b'P' => text.push_str(phase_of(facts.phase)),
        _ => {}
    }
}

// Appends a status, if there is one.
fn push_stated(text: &mut Text, status: Option<Status>) {
    match status {
        Some(status) => push_status(text, status),
        None => {}
    }
}

// Appends a verdict, if there is one, and the context that is sent along.
fn push_given(text: &mut Text, verdict: Option<PreVerdict>, context: Option<u64>) {
    match verdict {
        Some(verdict) => push_verdict(text, verdict, context),
        None => {}
    }
}

// The word for a kind of contexts, if there is one.
fn kind_of(kind: Option<ContextKind>) -> &'static str {
    match kind {
        Some(kind) => kind_word(kind),
        None => "",
    }
}

// The words for a phase, if there is one.
fn phase_of(phase: Option<Phase>) -> &'static str {
    match phase {
        Some(phase) => phase_word(phase),
        None => "",
    }
}

// Appends on which volume an instance is, if that is noted.
fn push_on(text: &mut Text, notes: &Notes, instance: u64) {
    match notes.instance(instance) {
        Some(note) => {
            text.push_str(" on ");
            push_volume(text, notes, u64::from(note.volume))
        }
        None => {}
    }
}

// Appends which context was there before.
fn push_old(text: &mut Text, notes: &Notes, old: u64) {
    text.push_str("; a reference to ");
    push_context(text, notes, old);
    text.push_str(", which was, is in the hand")
}

/// Appends the verdict of a preoperation, and which context it sends along.
pub fn push_verdict(text: &mut Text, verdict: PreVerdict, context: Option<u64>) {
    text.push_str(verdict_words(verdict));
    if let PreVerdict::Complete(status) = verdict {
        return push_status(text, status);
    }
    match context {
        Some(context) => {
            text.push_str(", and sends ");
            push_id(text, 'c', context);
            text.push_str(" along")
        }
        None => {}
    }
}

// The words for a verdict; behind them stands the status with which it ends the operation.
fn verdict_words(verdict: PreVerdict) -> &'static str {
    match verdict {
        PreVerdict::WithCallback(_) => "asks for its postoperation",
        PreVerdict::Synchronize(_) => "asks for its postoperation on the same worker",
        PreVerdict::NoCallback => "passes it on",
        PreVerdict::Complete(_) => "ends it with ",
        PreVerdict::Pending => "holds it",
    }
}

// Appends what a reply of success has behind its status.
fn push_reply(text: &mut Text, filling: &Filling<'_>) {
    let Filling {
        notes,
        facts,
        bytes,
    } = filling;
    match (facts.status, notes.what(facts.operation)) {
        (Some(Status::Success), Some(what)) => push_result(text, what, facts.number, bytes),
        _ => {}
    }
}

// Appends what the number and the bytes of a reply are.
fn push_result(text: &mut Text, what: &What, number: u64, bytes: &[u8]) {
    match what {
        What::Create(..) => {
            text.push_str(", handle ");
            push_id(text, 'h', number)
        }
        What::Read(..) => {
            text.push_str(", ");
            push_count(text, number, "byte");
            text.push(' ');
            push_quoted(text, bytes)
        }
        What::List(_) => {
            text.push_str(", names ");
            push_quoted(text, bytes)
        }
        What::Write(..) => {
            text.push_str(", ");
            push_count(text, number, "byte");
            text.push_str(" written")
        }
        What::Size(_) => {
            text.push_str(", size ");
            push_number(text, number)
        }
        _ => {}
    }
}

// Appends bytes in quotes: at most 32 of them.
fn push_quoted(text: &mut Text, bytes: &[u8]) {
    let count = bytes.len().min(SHOWN);
    text.push('"');
    push_ascii(text, &bytes[..count]);
    text.push('"');
    if count < bytes.len() {
        return text.push_str("..");
    }
}

// Appends the bytes of a body: in hexadecimal, and in quotes where all of them can be read. At most 32 of them.
fn push_body(text: &mut Text, bytes: &[u8]) {
    let count = bytes.len().min(SHOWN);
    push_hex(text, &bytes[..count]);
    if count < bytes.len() {
        return text.push_str("..");
    }
    if bytes.is_empty() || !bytes.iter().all(|byte| *byte >= b' ' && *byte <= b'~') {
        return;
    }
    text.push(' ');
    push_quoted(text, bytes)
}
