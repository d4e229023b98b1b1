//! What happened, in words.

use crate::event::Event;
use crate::json::Detail;
use crate::kind::Kind;
use crate::named::{push_context, push_place};
use crate::notes::{LeakNote, Notes};
use crate::pattern::{Filling, fill_with, push_verdict};
use crate::push::{push_number, push_status};
use crate::status::sentence;
use crate::text::Text;

/// Appends what happened, with what its event doesn't have itself. A refusal without a reason has the sentence of its status.
pub fn say_detail(text: &mut Text, notes: &Notes, event: &Event, detail: &Detail<'_>) {
    let filling = Filling {
        notes,
        facts: &event.facts,
        bytes: detail.bytes.unwrap_or(b""),
    };
    fill_with(text, &filling, event.kind.pattern());
    say_reason(text, event, detail);
    say_counted(text, detail);
    say_left(text, detail)
}

// Appends why a line was refused.
fn say_reason(text: &mut Text, event: &Event, detail: &Detail<'_>) {
    match (event.kind, event.facts.status, detail.reason) {
        (Kind::Refused, _, Some(reason)) => {
            text.push_str(": ");
            text.push_str(reason)
        }
        (Kind::Refused, Some(status), None) => {
            text.push_str(": ");
            text.push_str(sentence(status))
        }
        _ => {}
    }
}

// Appends which verdict counts.
fn say_counted(text: &mut Text, detail: &Detail<'_>) {
    match detail.counted {
        Some(counted) => {
            text.push_str(", but counts as one that ");
            push_verdict(text, counted, None)
        }
        None => {}
    }
}

// Appends which status a postoperation left.
fn say_left(text: &mut Text, detail: &Detail<'_>) {
    match detail.left {
        Some(status) => {
            text.push_str(", and sets ");
            push_status(text, status)
        }
        None => {}
    }
}

/// Appends that a reference was left behind, and by which callback.
pub fn say_leak(text: &mut Text, notes: &Notes, leak: &LeakNote) {
    text.push_str("LEAKED ");
    push_context(text, notes, leak.context);
    text.push_str(", ");
    push_place(text, notes, leak.place);
    text.push_str(", which returned on line ");
    push_number(text, u64::from(leak.line))
}
