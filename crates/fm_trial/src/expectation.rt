//! What a scenario expects of a request.

ghost use Rattle.std.specs.Prelude.{◌≡◌, IfOk, IfSome, map};
ghost use Rattle.fm_trial.specs.Lines.{IsSpelled, reply_meets};

use fm_callback_data::Reply;
use fm_mistakes::Mistake;
use fm_words::{read_hex, read_number};
use std::alloc::{AllocError, Global};

/// What the last request must have come to.
#[derive(Drop)]
pub enum Expectation {
    /// Its reply has the status of that number.
    Status(u64),
    /// Its reply has these bytes.
    Bytes(Vec<u8>),
    /// A filter holds it.
    Held,
    /// That was told while it was carried out.
    Told(Mistake),
}

/// The words behind `expect` on a line, with one space between them. Fails if memory is refused.
pub(crate) fn expected_words(alloc: Global, line: &str) -> Result<String, AllocError> {
    let mut text = String::new(alloc);
    for word in line.split_ascii_whitespace().skip(1) {
        if !text.is_empty() {
            text.push(' ')?;
        }
        text.push_str(word)?;
    }
    Ok(text)
}

// Reads the words behind `expect`, but for bytes.
fn read_plain(words: &[&str]) -> Option<Expectation>
    ensures { IfSome result (λ expected. IsSpelled expected (map (λ word. word.now) words.now)) }
{
    match words {
        ["held"] => Some(Expectation::Held),
        ["status", number] | [number] => Some(Expectation::Status(read_number(number.as_bytes())?)),
        ["told", id] => Some(Expectation::Told(Mistake::read(id)?)),
        _ => None,
    }
}

impl Expectation {
    /// Reads the words behind `expect`: `N` or `status N`, `bytes HEX`, `held`, `told KZ0101`. None if they are others. Fails if memory is refused.
    pub fn read(alloc: Global, words: &[&str]) -> Result<Option<Expectation>, AllocError>
        ensures { IfOk result (λ read. IfSome read (λ expected. IsSpelled expected (map (λ word. word.now) words.now))) }
    {
        if let ["bytes", bytes] = words {
            return match read_hex(alloc, bytes.as_bytes())? {
                Some(bytes) => Ok(Some(Expectation::Bytes(bytes))),
                None => Ok(None),
            };
        }
        Ok(read_plain(words))
    }

    /// Whether a reply is as expected. What was told with it isn't its own.
    pub fn is_met(&self, reply: &Reply) -> bool
        ensures { result ≡ reply_meets self.now reply.now }
    {
        match (self, reply) {
            (Expectation::Status(number), Reply::Done { status, .. }) => {
                u64::from(status.number()) == *number
            }
            (Expectation::Bytes(wanted), Reply::Done { bytes, .. }) => {
                bytes.as_slice() == wanted.as_slice()
            }
            (Expectation::Held, Reply::Held(_)) => true,
            _ => false,
        }
    }
}
