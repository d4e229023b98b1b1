//! So many of something, with their verb.

use crate::push::{push_count, push_number};
use crate::text::Text;

// The verb of so many.
fn verb(count: u64) -> &'static str {
    match count {
        1 => " is",
        _ => " are",
    }
}

/// Appends so many of a thing, with its verb: `1 handle is`, `2 handles are`.
pub fn push_verb(text: &mut Text, count: u64, what: &str) {
    push_count(text, count, what);
    text.push_str(verb(count))
}

/// Appends so many of those that a thing has, with their verb: `1 of its contexts is`, `2 of its contexts are`.
pub fn push_those(text: &mut Text, count: u64, what: &str) {
    push_number(text, count);
    text.push_str(" of its ");
    text.push_str(what);
    text.push_str(verb(count))
}
