//! The request that words name.

ghost use Rattle.std.specs.Prelude.{◌≡◌, ◌⊎◌, IfErr, IfOk, Err, Some, None, map};
ghost use Rattle.fm_cli.specs.Requests.{Names};

use crate::request_words::read_after;
use crate::verb::Verb;
use fm_types::Status;
use fm_wire::{Body, Frame};
use std::alloc::{AllocError, Global};

// What the words ask for, if they name a request.
fn read_words(alloc: Global, words: &[&str]) -> Result<Option<Body>, AllocError>
    ensures { IfOk result (Names (map (λ word. word.now) words.now)) }
{
    let [first, after @ ..] = words else {
        return Ok(None);
    };
    match Verb::read(first.as_bytes()) {
        Some(verb) => read_after(alloc, verb, after),
        None => Ok(None),
    }
}

/// The frame with number 1 that asks for what the words name: a request's name in lower case, and its numbers, modes, texts and bytes, as
/// docs/FRAMES.md lists them. A number may have leading zeros, and an altitude any spelling.
///
/// 32 (`BadRequest`) for any other words: an unknown name, another number of words, a word that can't be read, a number too large for its field, a
/// path, a name or an altitude that its reader refuses, a read or a write of more than 32,768 bytes. 1 (`NoMemory`) if memory is refused.
pub fn request_of(alloc: Global, words: &[&str]) -> Result<Frame, Status>
    ensures asks { IfOk result (λ frame. (frame.number ≡ 1) × Names (map (λ word. word.now) words.now) (Some frame.body)) }
    ensures refused { result ≡ Err Status.BadRequest → Names (map (λ word. word.now) words.now) None }
    ensures errors { IfErr result (λ status. (status ≡ Status.BadRequest) ⊎ (status ≡ Status.NoMemory)) }
{
    match read_words(alloc, words) {
        Ok(Some(body)) => Ok(Frame { number: 1, body }),
        Ok(None) => Err(Status::BadRequest),
        Err(_) => Err(Status::NoMemory),
    }
}
