//! Texts that stand in a picture.

ghost use Rattle.std.specs.Prelude.{◌≡◌, ◌<◌, ◌++◌, IfOk};
ghost use Rattle.std.specs.List.{All};
ghost use Rattle.fm_page.specs.Escapes.{IsSafe, digit, escaped, is_safe, spelled};

use std::alloc::{AllocError, Global};

// Whether a byte stands as it is: from the space to `~`, but for the four that mean something in a picture.
fn is_safe(byte: u8) -> bool
    ensures { result ≡ is_safe byte }
{
    byte >= 32 && byte < 127 && byte != b'<' && byte != b'>' && byte != b'&' && byte != b'"'
}

// A digit of four bits.
pub(crate) fn digit(bits: u8) -> u8
    requires { bits < 16 }
    ensures { result ≡ digit bits }
{
    if bits < 10 { 48 + bits } else { 87 + bits }
}

// Appends a byte: as it is, or as `\x` and two digits.
fn push_escaped(text: &mut Vec<u8>, byte: u8) -> Result<(), AllocError>
    ensures { IfOk result (λ _. text.new.items ≡ text.old.items ++ spelled byte) }
{
    if is_safe(byte) {
        text.push(byte)?;
        return Ok(());
    }
    text.push(92)?;
    text.push(120)?;
    text.push(digit(byte / 16 % 16))?;
    text.push(digit(byte % 16))?;
    Ok(())
}

// The bytes, each spelled.
fn spelled_out(alloc: Global, bytes: &[u8]) -> Result<Vec<u8>, AllocError>
    ensures { IfOk result (λ text. text.items ≡ escaped bytes.now) }
{
    let mut text = Vec::new(alloc);
    let mut rest = bytes;
    while let Some((byte, behind)) = rest.split_first() {
        push_escaped(&mut text, *byte)?;
        rest = behind;
    }
    Ok(text)
}

/// Any bytes, as a text that has none of `<`, `>`, `&` and `"` and no control byte: those, and what isn't ASCII, are spelled as `\x` and two digits.
#[tactic(auto, using(crate::proofs::Escaping::safe_of))]
pub fn escaped(alloc: Global, bytes: &[u8]) -> Result<Vec<u8>, AllocError>
    ensures value { IfOk result (λ text. text.items ≡ escaped bytes.now) }
    ensures safe { IfOk result (λ text. All IsSafe text.items) }
{
    spelled_out(alloc, bytes)
}
