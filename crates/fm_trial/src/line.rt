//! One line of a scenario.

ghost use Rattle.std.specs.Prelude.{◌≡◌, IfOk, map};
ghost use Rattle.fm_trial.specs.Lines.{IsSaid, Says};

use crate::expectation::Expectation;
use crate::text::words_of;
use fm_cli::request_of;
use fm_types::Status;
use fm_wire::Body;
use std::alloc::{AllocError, Global};

/// What a line says.
#[derive(Drop)]
pub enum ScenarioLine {
    /// Nothing: it is empty, or a remark.
    Nothing,
    /// A request.
    Request(Body),
    /// What the last request must have come to.
    Expect(Expectation),
    /// Words that are none of these.
    Unknown,
}

// The line of these words, which are no remark.
fn read_words(alloc: Global, words: &[&str]) -> Result<ScenarioLine, Status>
    ensures { IfOk result (IsSaid (map (λ word. word.now) words.now)) }
{
    if let ["expect", expected @ ..] = words {
        return Ok(match Expectation::read(alloc, expected)? {
            Some(expectation) => ScenarioLine::Expect(expectation),
            None => ScenarioLine::Unknown,
        });
    }
    match request_of(alloc, words) {
        Ok(frame) => Ok(ScenarioLine::Request(frame.body)),
        Err(Status::NoMemory) => Err(Status::NoMemory),
        Err(_) => Ok(ScenarioLine::Unknown),
    }
}

impl ScenarioLine {
    /// Reads a line. Refused with 1, if memory is refused.
    pub fn read(alloc: Global, text: &str) -> Result<ScenarioLine, Status>
        ensures { IfOk result (Says text.now) }
    {
        let words = words_of(alloc, text)?;
        match words.as_slice() {
            [] => Ok(ScenarioLine::Nothing),
            [first, ..] if first.as_bytes().first() == Some(&b'#') => Ok(ScenarioLine::Nothing),
            words => read_words(alloc, words),
        }
    }
}
