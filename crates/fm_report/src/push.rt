//! Pieces of text that are appended: numbers, bytes, statuses.

use crate::text::Text;
use fm_types::Status;

/// The digits of bytes.
const DIGITS: [char; 16] = [
    '0', '1', '2', '3', '4', '5', '6', '7', '8', '9', 'a', 'b', 'c', 'd', 'e', 'f',
];

/// Appends a number.
pub fn push_number(text: &mut Text, number: u64) {
    text.push_number(number)
}

/// Appends an id: its letter and its number.
pub fn push_id(text: &mut Text, letter: char, number: u64) {
    text.push(letter);
    push_number(text, number)
}

// Appends a byte as two digits.
fn push_byte(text: &mut Text, byte: u8) {
    text.push(DIGITS[usize::from(byte / 16 % 16)]);
    text.push(DIGITS[usize::from(byte % 16)])
}

/// Whether a byte stands as it is: those from the space to `~`.
pub fn is_plain(byte: u8) -> bool {
    byte >= b' ' && byte <= b'~'
}

// Appends a byte, as it is or as `\x` and two digits.
fn push_written(text: &mut Text, byte: u8) {
    if is_plain(byte) {
        return text.push(char::from(byte));
    }
    text.push_str("\\x");
    push_byte(text, byte)
}

/// Appends any bytes: those from the space to `~` stand as they are, any other as `\x` and two digits.
pub fn push_ascii(text: &mut Text, bytes: &[u8]) {
    for byte in bytes {
        push_written(text, *byte);
    }
}

/// Appends bytes in hexadecimal.
pub fn push_hex(text: &mut Text, bytes: &[u8]) {
    for byte in bytes {
        push_byte(text, *byte);
    }
}

/// Appends a status, by number and name: `34 Busy (2 in the way)`.
pub fn push_status(text: &mut Text, status: Status) {
    push_number(text, u64::from(status.number()));
    text.push(' ');
    text.push_str(status.name());
    match status {
        Status::Busy(count) => push_busy(text, count),
        _ => {}
    }
}

// Appends how many are in the way.
fn push_busy(text: &mut Text, count: u64) {
    text.push_str(" (");
    push_number(text, count);
    text.push_str(" in the way)")
}

/// Appends how many there are: `1 byte`, `2 bytes`.
pub fn push_count(text: &mut Text, count: u64, what: &str) {
    push_number(text, count);
    text.push(' ');
    text.push_str(what);
    if count == 1 {
        return;
    }
    text.push('s')
}
