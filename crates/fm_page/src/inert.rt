//! Data that stands in a page.

ghost use Rattle.std.specs.Prelude.{◌≡◌, ◌<◌, ◌++◌, IfOk};
ghost use Rattle.std.specs.List.{All};
ghost use Rattle.fm_page.specs.Escapes.{IsInert, inert, is_inert, spelled_inert};

use crate::escape::digit;
use std::alloc::{AllocError, Global};

/// JSON that can't end the element of a page in which it stands.
#[derive(Drop)]
pub struct Inert {
    bytes: Vec<u8>,
}

impl Inert {
    /// That of a JSON text, whose `<`, `>` and `&` stand in strings alone.
    pub fn new(alloc: Global, json: &[u8]) -> Result<Inert, AllocError>
        ensures { IfOk result (λ made. made.bytes.items ≡ inert json.now) }
    {
        Ok(Inert {
            bytes: spelled_out(alloc, json)?,
        })
    }

    /// Its bytes: none of them is `<`, `>` or `&`.
    pub fn as_slice(&self) -> &[u8]
        ensures { result.now ≡ self.now.bytes.items }
    {
        self.bytes.as_slice()
    }
}

// Whether a byte stands as it is: all but the three that mean something in a page.
fn is_inert(byte: u8) -> bool
    ensures { result ≡ is_inert byte }
{
    byte != b'<' && byte != b'>' && byte != b'&'
}

// Appends a byte: as it is, or as `\u00` and two digits.
fn push_inert(text: &mut Vec<u8>, byte: u8) -> Result<(), AllocError>
    ensures { IfOk result (λ _. text.new.items ≡ text.old.items ++ spelled_inert byte) }
{
    if is_inert(byte) {
        text.push(byte)?;
        return Ok(());
    }
    text.push(92)?;
    text.push(117)?;
    text.push(48)?;
    text.push(48)?;
    text.push(digit(byte / 16 % 16))?;
    text.push(digit(byte % 16))?;
    Ok(())
}

// The bytes, each spelled.
fn written_out(alloc: Global, bytes: &[u8]) -> Result<Vec<u8>, AllocError>
    ensures { IfOk result (λ text. text.items ≡ inert bytes.now) }
{
    let mut text = Vec::new(alloc);
    let mut rest = bytes;
    while let Some((byte, behind)) = rest.split_first() {
        push_inert(&mut text, *byte)?;
        rest = behind;
    }
    Ok(text)
}

// The same, which has none of the three bytes.
#[tactic(auto, using(crate::proofs::Inerts::inert_of))]
fn spelled_out(alloc: Global, bytes: &[u8]) -> Result<Vec<u8>, AllocError>
    ensures value { IfOk result (λ text. text.items ≡ inert bytes.now) }
    ensures safe { IfOk result (λ text. All IsInert text.items) }
{
    written_out(alloc, bytes)
}
