//! Names, paths and altitudes, by hand.

use fm_altitude::Altitude;
use fm_types::{Name, RelPath, Status};
use std::cmp::Ordering;
use std::process::Abort;

// What a text is read as.
enum Grammar {
    OfAltitudes,
    OfNames,
    OfPaths,
}

use Grammar::{OfAltitudes, OfNames, OfPaths};

// 64 digits, and a point and 63 of them.
const DIGITS: &[u8] = &[b'1'; 64];

const FRACTION: &[u8] = b".111111111111111111111111111111111111111111111111111111111111111";

// Texts, each with the one text of what it is read as, or the refusal.
const TEXTS: &[(Grammar, &[u8], Result<&[u8], Status>)] = &[
    (OfAltitudes, b"", Err(Status::BadAltitude)),
    (OfAltitudes, b".", Err(Status::BadAltitude)),
    (OfAltitudes, b"1.2.3", Err(Status::BadAltitude)),
    (OfAltitudes, b"+1", Err(Status::BadAltitude)),
    (OfAltitudes, b"0.50", Ok(b".5")),
    (OfAltitudes, b"5.", Ok(b"5")),
    (OfAltitudes, b"000", Ok(b"0")),
    (OfAltitudes, DIGITS, Ok(DIGITS)),
    (OfAltitudes, FRACTION, Ok(FRACTION)),
    (OfAltitudes, &[b'1'; 65], Err(Status::BadAltitude)),
    (OfNames, b"a-1", Ok(b"a-1")),
    (OfNames, b"a b", Err(Status::BadName)),
    (OfNames, b"", Err(Status::BadName)),
    (OfNames, &[b'a'; 32], Ok(&[b'a'; 32])),
    (OfNames, &[b'a'; 33], Err(Status::BadName)),
    (OfPaths, b"a/b c/..d", Ok(b"a/b c/..d")),
    (OfPaths, b"a/../b", Err(Status::BadPath)),
    (OfPaths, b"/a", Err(Status::BadPath)),
    (OfPaths, b"a//b", Err(Status::BadPath)),
    (OfPaths, b"", Err(Status::BadPath)),
    (OfPaths, &[b'a'; 255], Ok(&[b'a'; 255])),
    (OfPaths, &[b'a'; 256], Err(Status::BadPath)),
];

fn is_altitude(text: &[u8], wanted: Result<&[u8], Status>) -> bool {
    match Altitude::read(text) {
        Ok(altitude) => wanted == Ok(altitude.text()),
        Err(status) => wanted == Err(status),
    }
}

fn is_name(text: &[u8], wanted: Result<&[u8], Status>) -> bool {
    match Name::read(text) {
        Ok(name) => wanted == Ok(name.text()),
        Err(status) => wanted == Err(status),
    }
}

fn is_path(text: &[u8], wanted: Result<&[u8], Status>) -> bool {
    match RelPath::read(text) {
        Ok(path) => wanted == Ok(path.text()),
        Err(status) => wanted == Err(status),
    }
}

// The number of the first text that is read as something else.
fn other_text(rows: &[(Grammar, &[u8], Result<&[u8], Status>)]) -> Option<usize> {
    for (number, (grammar, text, wanted)) in rows.iter().enumerate() {
        let is_read = match grammar {
            OfAltitudes => is_altitude(text, *wanted),
            OfNames => is_name(text, *wanted),
            OfPaths => is_path(text, *wanted),
        };
        if !is_read {
            return Some(number);
        }
    }
    None
}

#[test]
fn grammars(rt: HostRuntime) {
    assert_eq!(rt; other_text(TEXTS), None);
}

// Two altitudes, and how the first stands to the second: zeros at the end don't count, a digit more is more, and numbers are compared, not texts.
const VALUES: &[(&[u8], &[u8], Ordering)] = &[
    (b"100.5", b"100.50", Ordering::Equal),
    (b"100.5", b"100.5000001", Ordering::Less),
    (b"100.123456", b"03333", Ordering::Less),
    (b"328010", b"40500", Ordering::Greater),
];

fn altitude(rt: &impl Abort, text: &[u8]) -> Altitude {
    Altitude::read(text).expect(rt, "an altitude")
}

// The number of the first pair that stands otherwise.
fn other_order(rt: &impl Abort, rows: &[(&[u8], &[u8], Ordering)]) -> Option<usize> {
    for (number, (first, second, order)) in rows.iter().enumerate() {
        if altitude(rt, first).cmp(&altitude(rt, second)) != *order {
            return Some(number);
        }
    }
    None
}

#[test]
fn altitude_values(rt: HostRuntime) {
    assert_eq!(rt; other_order(&rt, VALUES), None);
}
