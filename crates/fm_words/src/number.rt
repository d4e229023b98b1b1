//! Numbers, ids and statuses, as words spell them.

ghost use Rattle.std.specs.Prelude.{◌≡◌, ◌<◌, ◌≤◌, ◌⊎◌, ◌+◌, ◌*◌, ◌^◌, ℕ, IfNone, IfSome, true, false};
ghost use Rattle.fm_types.specs.Statuses.{number_of};
ghost use Rattle.fm_words.specs.Numbers.{WithDigit, id_read, number_read};

use fm_types::Status;

// The number with one digit more, as far as the byte is a digit and there is such a u64.
fn with_digit(number: u64, byte: u8) -> Option<u64>
    ensures { WithDigit number byte result }
{
    if !byte.is_ascii_digit() {
        return None;
    }
    number.checked_mul(10)?.checked_add(u64::from(byte - b'0'))
}

/// Reads a number: decimal digits alone, at least one and leading zeros allowed, up to 2^64 - 1. There is none if the word is anything else.
#[tactic(auto, unfolding(crate::specs::Numbers::number_read))]
pub fn read_number(word: &[u8]) -> Option<u64>
    ensures { result ≡ number_read word.now }
{
    if word.is_empty() {
        return None;
    }
    let mut number = 0;
    for byte in word {
        number = with_digit(number, *byte)?;
    }
    Some(number)
}

/// Reads an id: its letter, and a number after it.
pub fn read_id(letter: u8, word: &[u8]) -> Option<u64>
    ensures { result ≡ id_read letter word.now }
{
    match word {
        [first, number @ ..] if *first == letter => read_number(number),
        _ => None,
    }
}

/// Reads the number of a status, from 0 to 33: any but Busy.
pub fn read_status(word: &[u8]) -> Option<Status>
    ensures some { IfSome result (λ status. (number_read word.now ≡ Some (number_of status)) × (number_of status < 34)) }
    ensures none { IfNone result ((n : ℕ) → number_read word.now ≡ Some n → 34 ≤ n) }
{
    match read_number(word) {
        Some(number) if number < 34 => Status::from_number(number as u8, 0),
        _ => None,
    }
}
