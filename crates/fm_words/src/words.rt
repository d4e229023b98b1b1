//! Cutting: input into lines, and lines into words.

ghost use Rattle.std.specs.Prelude.{◌≡◌, ◌==◌, ◌∷◌, ◌++◌, IfOk, MatchOption, false, map};
ghost use Rattle.std.specs.List.{All, position, position_or_len};
ghost use Rattle.fm_words.specs.Words.{words_of};

use smallvec::SmallVec;
use std::alloc::AllocError;

/// How many words the longest command has.
const FEW: usize = 6;

/// How many bytes are compared in a row, without a look whether the text ends.
const ROW: usize = 8;

// Where a byte stands first.
fn place_among(bytes: &[u8], byte: u8) -> Option<usize>
    ensures { result ≡ position (λ b. b == byte) bytes.now }
{
    bytes.iter().position(|b| *b == byte)
}

// How many bytes stand before the first one of that value: all of them if it isn't there.
fn count_before(text: &[u8], byte: u8) -> usize
    ensures { result ≡ position_or_len (λ b. b == byte) text.now }
{
    let mut before = 0;
    let mut rest = text;
    while let Some((row, behind)) = rest.split_first_chunk::<ROW>() {
        if let Some(place) = place_among(row, byte) {
            return before + place;
        }
        before += ROW;
        rest = behind;
    }
    match place_among(rest, byte) {
        Some(place) => before + place,
        None => text.len(),
    }
}

/// What stands before the first byte of that value, and what stands after it; the whole text and nothing if it isn't there.
pub fn split_at_byte(text: &[u8], byte: u8) -> (&[u8], Option<&[u8]>)
    ensures front { All (λ b. (b == byte) ≡ false) result.0.now }
    ensures parts { MatchOption result.1 (result.0.now ≡ text.now) (λ behind. text.now ≡ result.0.now ++ byte ∷ behind.now) }
{
    let at = count_before(text, byte);
    if at < text.len() {
        (&text[..at], Some(&text[at + 1..]))
    } else {
        (text, None)
    }
}

/// Appends the words of a line, divided by single spaces: a line without a space is one word, and two spaces have an empty word between them.
/// It fails if there is no memory for the list, which takes some only past six words.
pub fn split_words<'a>(
    words: &mut SmallVec<&'a [u8], FEW>,
    line: &'a [u8],
) -> Result<(), AllocError>
    ensures { IfOk result (λ _. map (λ word. word.now) words.new.items ≡ map (λ word. word.now) words.old.items ++ words_of line.now) }
{
    let mut left = Some(line);
    while let Some(rest) = left {
        let (word, behind) = split_at_byte(rest, b' ');
        words.push(word)?;
        left = behind;
    }
    Ok(())
}
