//! How commands are spelled, and which word of a line isn't.

use fm_report::{Text, push_ascii};
use fm_script::Keyword;
use fm_words::{read_id, read_number, read_status};

/// The words that stand after a command's first word.
pub fn usage(keyword: Keyword) -> &'static str {
    match keyword {
        Keyword::Load => "NAME [only-pre, only-post or bare]",
        Keyword::Mount => "NAME",
        Keyword::Attach => "F V NAME ALTITUDE",
        Keyword::Setup => "W F V NAME ALTITUDE",
        Keyword::SetDone | Keyword::Queried | Keyword::Unloaded => "W yes or no",
        Keyword::Next | Keyword::Go | Keyword::ResPost => "W O",
        Keyword::Pre => "W with [C], none, sync, pend or complete S",
        Keyword::Plan => "I with, none, sync, pend or complete S",
        Keyword::Resume => "W O with, none or complete S",
        Keyword::ChangeHeld => "W O read OFFSET LEN, setsize N or other MAJOR N",
        Keyword::Post => "W done or more",
        Keyword::Collect => "O",
        Keyword::Create => "V PATH existing, new or always",
        Keyword::Read => "H OFFSET LEN",
        Keyword::Write => "H OFFSET HEX",
        Keyword::SetSize => "H N",
        Keyword::Other => "H MAJOR N",
        Keyword::OtherV => "V MAJOR N",
        Keyword::Size | Keyword::QuerySize | Keyword::Flush | Keyword::Cleanup | Keyword::Close =>
            "H",
        Keyword::Delete | Keyword::SetDelete | Keyword::Restore => "H",
        Keyword::Alloc => "W KIND HEX",
        Keyword::Set => "W C keep or replace [old]",
        Keyword::Get => "W KIND",
        Keyword::Del => "W KIND [old]",
        other => usage_of_few(other),
    }
}

fn usage_of_few(keyword: Keyword) -> &'static str {
    match keyword {
        Keyword::Ref | Keyword::Rel | Keyword::Body => "W C",
        Keyword::WBody => "W C HEX",
        Keyword::Bump => "W C PLACE BY",
        Keyword::Count => "C",
        Keyword::Fail => "N",
        Keyword::Phase | Keyword::Finish | Keyword::Flight => "I",
        Keyword::Query | Keyword::Start | Keyword::Drain | Keyword::Complete => "W I",
        Keyword::Unload => "W F",
        Keyword::EmptyF | Keyword::FinishF => "F",
        Keyword::List | Keyword::Dismount | Keyword::Drop | Keyword::EmptyV | Keyword::FinishV =>
            "V",
        Keyword::Leaks | Keyword::Failures => "[alone]",
        Keyword::Below => {
            "I list, read, setsize, size, querysize, flush, delete, setdelete, cleanup or close"
        }
        Keyword::AtBase => {
            "I (or none) list, read, setsize, size, querysize, flush, delete, setdelete, cleanup or close"
        }
        Keyword::AtTop => {
            "list, read, setsize, size, querysize, flush, delete, setdelete, cleanup or close"
        }
        _ => "W",
    }
}

/// Appends what of a line isn't as it is spelled: the first word that can't be read, one that is missing, or one too many.
pub fn say_wrong(text: &mut Text, line: &[u8], usage: &'static str) {
    let mut forms = usage.as_bytes().split(|byte| *byte == b' ');
    let mut chosen = None;
    for word in line.split(|byte| *byte == b' ').skip(1) {
        if word.is_empty() {
            return text.push_str("a space stands before a space or at the end");
        }
        if let Some(before) = chosen {
            return say_quoted(text, "what stands behind ", before, " can't be read");
        }
        match judge(usage, forms.next(), word) {
            Judged::Fits => {}
            Judged::Chosen => chosen = Some(word),
            Judged::Unread => return say_quoted(text, "", word, " can't be read"),
            Judged::TooMany => return say_quoted(text, "", word, " is a word too many"),
        }
    }
    text.push_str("a word is missing")
}

// What a word of a line is, at its place.
#[derive(Clone, Copy)]
enum Judged {
    // One of the form that stands there.
    Fits,
    // One of those of which one is written, behind which no word of the form can be told.
    Chosen,
    // None that can be read there.
    Unread,
    // One too many.
    TooMany,
}

fn judge(usage: &'static str, form: Option<&[u8]>, word: &[u8]) -> Judged {
    match form {
        None => Judged::TooMany,
        Some(form) if is_choice(form) => {
            if is_chosen(usage, word) {
                Judged::Chosen
            } else {
                Judged::Unread
            }
        }
        Some(form) if fits(form, word) => Judged::Fits,
        Some(_) => Judged::Unread,
    }
}

// Appends a word in quotes, with what stands before and behind it.
fn say_quoted(text: &mut Text, before: &str, word: &[u8], behind: &str) {
    text.push_str(before);
    text.push('\'');
    push_ascii(text, word);
    text.push('\'');
    text.push_str(behind)
}

// Whether the form is the first of some words of which one is written.
fn is_choice(form: &[u8]) -> bool {
    match form.first() {
        Some(byte) => !byte.is_ascii_uppercase(),
        None => false,
    }
}

// Whether the word is one that the usage names.
fn is_chosen(usage: &'static str, word: &[u8]) -> bool {
    let is_named = usage
        .as_bytes()
        .split(|byte| matches!(*byte, b' ' | b','))
        .any(|choice| choice == word);
    is_named && is_choice(word) && word != b"or".as_slice()
}

// Whether a word is of that form.
fn fits(form: &[u8], word: &[u8]) -> bool {
    match form {
        b"F" => read_id(b'f', word).is_some(),
        b"V" => read_id(b'v', word).is_some(),
        b"I" => read_id(b'i', word).is_some(),
        b"H" => read_id(b'h', word).is_some(),
        b"O" => read_id(b'o', word).is_some(),
        b"C" => read_id(b'c', word).is_some(),
        b"W" => read_id(b'w', word).is_some(),
        b"S" => read_status(word).is_some(),
        b"OFFSET" | b"LEN" | b"N" | b"PLACE" | b"BY" => read_number(word).is_some(),
        b"HEX" => is_hex(word),
        b"KIND" => matches!(word, b"volume" | b"instance" | b"stream" | b"handle"),
        _ => true,
    }
}

// Whether a word spells bytes.
fn is_hex(word: &[u8]) -> bool {
    let is_digits = word
        .iter()
        .all(|byte| matches!(*byte, b'0'..=b'9' | b'a'..=b'f'));
    word == b"-".as_slice() || (is_digits && word.len() % 2 == 0)
}
