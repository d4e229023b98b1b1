//! The parts of an altitude's text: what stands before the point and behind it, without the zeros that say nothing.

ghost use Rattle.std.specs.Prelude.{◌≡◌, ◌≤◌, ◌↔◌, IsTrue, length, ◌==◌, position};
ghost use Rattle.fm_altitude.specs.Grammar.{IsAltitude, after_point, before_point, fraction_of, trim_back, trim_front, whole_of};

use fm_types::limits::ALTITUDE;

/// The digit that says nothing in front of a whole number and at the end of a fraction.
const ZERO: u8 = b'0';

/// Whether the text is 1 to 64 characters, digits and at most one point, with a digit among them.
pub fn is_altitude(text: &[u8]) -> bool
    ensures { IsTrue result ↔ IsAltitude text.now }
{
    text.len() <= ALTITUDE
        && text.iter().all(|b| b.is_ascii_digit() || *b == b'.')
        && text.iter().filter(|b| **b == b'.').count() <= 1
        && text.iter().filter(|b| b.is_ascii_digit()).count() > 0
}

// Where the first point stands.
fn first_point(text: &[u8]) -> Option<usize>
    ensures { result ≡ position (λ b. b == 46) text.now }
{
    text.iter().position(|b| *b == b'.')
}

// What stands before the first point, and behind it.
fn split_at_point(text: &[u8]) -> (&[u8], &[u8])
    ensures before { result.0.now ≡ before_point text.now }
    ensures after { result.1.now ≡ after_point text.now }
{
    match first_point(text) {
        Some(at) => (&text[..at], &text[at + 1..]),
        None => (text, &text[text.len()..]),
    }
}

// The digits without the zeros in front.
fn without_front_zeros(digits: &[u8]) -> &[u8]
    ensures { result.now ≡ trim_front digits.now }
{
    match digits {
        [ZERO, rest @ ..] => without_front_zeros(rest),
        _ => digits,
    }
}

// The digits without the zeros at the end.
fn without_back_zeros(digits: &[u8]) -> &[u8]
    ensures { result.now ≡ trim_back digits.now }
{
    let Some((last, rest)) = digits.split_last() else {
        return digits;
    };
    if *last == ZERO {
        without_back_zeros(rest)
    } else {
        digits
    }
}

/// The digits of an altitude before the point and behind it, without the zeros that say nothing.
pub fn trimmed_parts(text: &[u8]) -> (&[u8], &[u8])
    requires { IsAltitude text.now }
    ensures whole { result.0.now ≡ whole_of text.now }
    ensures fraction { result.1.now ≡ fraction_of text.now }
{
    let (before, after) = split_at_point(text);
    (without_front_zeros(before), without_back_zeros(after))
}
