//! Bytes, as words spell them: lower-case hexadecimal, and `-` for none.

ghost use Rattle.std.specs.Prelude.{◌≡◌, ◌∷◌, ◌++◌, ◌*◌, ◌<◌, ◌≤◌, ℕ, List, [], IfErr, IfOk, MatchOption, length, vec_capacity};
ghost use Rattle.fm_words.specs.Hexadecimal.{IsNoHexadecimal, IsNoPairs, hex_digit, hex_of, hex_pair, hex_pairs};

use std::alloc::{AllocError, Global};

// The digits, each at its number.
const DIGITS: [u8; 16] = *b"0123456789abcdef";

// How many bytes are spelled before their digits are appended at once.
const SPELLED: usize = 32;

// The digit of a number below 16.
fn hex_digit(nibble: u8) -> u8
    requires { nibble < 16 }
    ensures { result ≡ hex_digit nibble }
{
    DIGITS[nibble as usize]
}

// Spells bytes by place, two digits for each.
fn spell(digits: &mut [u8], bytes: &[u8])
    requires { length digits.old ≡ length bytes.now * 2 }
    ensures { digits.new ≡ hex_pairs bytes.now }
{
    for place in 0..bytes.len() {
        let byte = bytes[place];
        digits[place * 2] = hex_digit(byte / 16);
        digits[place * 2 + 1] = hex_digit(byte % 16);
    }
}

// Appends two digits for each byte.
fn write_pairs(text: &mut Vec<u8>, bytes: &[u8]) -> Result<(), AllocError>
    ensures appends { IfOk result (λ _. text.new.items ≡ text.old.items ++ hex_pairs bytes.now) }
    ensures full { IfErr result (λ _. vec_capacity text.old < length (text.old.items ++ hex_pairs bytes.now)) }
    ensures room { vec_capacity text.old ≤ vec_capacity text.new }
{
    text.try_reserve(bytes.len() * 2)?;
    let mut digits = [0; SPELLED * 2];
    let mut rest = bytes;
    while !rest.is_empty() {
        let (chunk, behind) = rest.split_at(rest.len().min(SPELLED));
        let spelled = &mut digits[..chunk.len() * 2];
        spell(spelled, chunk);
        text.extend_from_slice(spelled)?;
        rest = behind;
    }
    Ok(())
}

/// Appends the spelling of the bytes.
pub fn write_hex(text: &mut Vec<u8>, bytes: &[u8]) -> Result<(), AllocError>
    ensures appends { IfOk result (λ _. text.new.items ≡ text.old.items ++ hex_of bytes.now) }
    ensures full { IfErr result (λ _. vec_capacity text.old < length (text.old.items ++ hex_of bytes.now)) }
    ensures room { vec_capacity text.old ≤ vec_capacity text.new }
{
    if bytes.is_empty() {
        text.push(b'-')?;
        return Ok(());
    }
    write_pairs(text, bytes)
}

// The number below 16 whose digit it is.
fn hex_value(digit: u8) -> Option<u8>
    ensures { MatchOption result ((n : ℕ) → n < 16 → hex_digit n ≡ digit → ⊥) (λ n. (n < 16) × (hex_digit n ≡ digit)) }
{
    match digit {
        b'0'..=b'9' => Some(digit - b'0'),
        b'a'..=b'f' => Some(digit - b'a' + 10),
        _ => None,
    }
}

// The byte that two digits spell.
fn read_pair(high: u8, low: u8) -> Option<u8>
    ensures { MatchOption result ((b : ℕ) → b < 256 → hex_pair b ≡ high ∷ low ∷ [] → ⊥) (λ b. hex_pair b ≡ high ∷ low ∷ []) }
{
    let high = hex_value(high)?;
    let low = hex_value(low)?;
    Some(high * 16 + low)
}

// The bytes that are spelled by two digits each.
fn read_pairs(alloc: Global, word: &[u8]) -> Result<Option<Vec<u8>>, AllocError>
    ensures { IfOk result (λ read. MatchOption read (IsNoPairs word.now) (λ bytes. hex_pairs bytes.items ≡ word.now)) }
{
    let mut bytes = Vec::with_capacity(alloc, word.len() / 2)?;
    let mut rest = word;
    while let [high, low, behind @ ..] = rest {
        let Some(byte) = read_pair(*high, *low) else {
            return Ok(None);
        };
        bytes.push_reserved(byte);
        rest = behind;
    }
    if rest.is_empty() {
        Ok(Some(bytes))
    } else {
        Ok(None)
    }
}

/// Reads bytes: the list whose spelling the word is. There is none if the word is no spelling, as one with an odd run of digits or with
/// upper-case digits. It fails if there is no memory for the bytes.
pub fn read_hex(alloc: Global, word: &[u8]) -> Result<Option<Vec<u8>>, AllocError>
    ensures { IfOk result (λ read. MatchOption read (IsNoHexadecimal word.now) (λ bytes. hex_of bytes.items ≡ word.now)) }
{
    if word.is_empty() {
        return Ok(None);
    }
    if word == b"-".as_slice() {
        return Ok(Some(Vec::new(alloc)));
    }
    read_pairs(alloc, word)
}
