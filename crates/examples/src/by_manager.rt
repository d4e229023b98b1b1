//! The same scripts by a manager that threads share: each line is one of its events, by the hand of the line's worker.

ghost use Rattle.std.specs.Prelude.{◌≡◌};
ghost use Rattle.fm_lock.specs.Blanks.{IsBlankOf};

use fm_core::{Hold, Step, StepReply};
use fm_script::ScriptEnd;
use fm_types::limits::PARTS;
use fm_types::{FilterId, OpId, Status, VolumeId, WorkerId};
use std::alloc::Global;
use std::marker::Brand;
use std::sync::Wait;
use std::sync::ledger::{Blank, Ledger};
use test_lock::Rows;

// How many parts a manager's ledger has.
// How a manager ends after a script: contexts allocated and cleaned up, and references left behind.
type End = Result<[u64; 3], Status>;

// What the manager of some scripts says at its end.
const ENDS: [(&str, End); 3] = [
    ("rows/drain_of_a_held_read", Err(Status::Busy(1))),
    ("rows/detach_with_contexts", Err(Status::Busy(3))),
    ("rows/volume_context", Ok([1, 1, 2])),
];

// Whether the manager of that script ended as it should.
fn is_end(name: &str, end: &End) -> bool {
    ENDS.iter().all(|row| row.0 != name || row.1 == *end)
}

// The start of a script up to its first line that resumes something, and the rest.
fn before_resume(script: &[u8]) -> (&[u8], &[u8]) {
    let word = b"\nresume ";
    match script
        .windows(word.len())
        .position(|piece| piece == word.as_slice())
    {
        Some(at) => script.split_at(at + 1),
        None => (script, b""),
    }
}

fn is_done(reply: &Result<StepReply, Status>, wanted: Result<(), Status>) -> bool {
    matches!(reply, Ok(StepReply::Done(result)) if *result == wanted)
}

// What no line can ask for, asked where it stands in some scripts: which operation a filter holds first, that an unload without a question ends where the
// filter is gone, and that the end of a dismount comes once.
fn ask_more<L: Ledger, R: Wait>(rt: &R, rows: &mut Rows<L>, name: &str) -> bool {
    match name {
        "rows/unload" => {
            let filter = FilterId(1);
            let first = rows.step(rt, Step::ForceUnload { filter });
            let second = rows.step(rt, Step::ForceUnload { filter });
            is_done(&first, Ok(())) && is_done(&second, Err(Status::NotLoaded))
        }
        "rows/dismount" => {
            let volume = VolumeId(0);
            let reply = rows.step(rt, Step::FinishVolume { volume });
            is_done(&reply, Err(Status::WrongStep))
        }
        _ => true,
    }
}

fn holds_first<L: Ledger, R: Wait>(rt: &R, rows: &mut Rows<L>, name: &str) -> bool {
    let step = Step::FirstHeld {
        worker: WorkerId(1),
        hold: Hold::Pre,
    };
    name != "rows/pend_and_resume"
        || matches!(rows.step(rt, step), Ok(StepReply::Held(Ok(Some(OpId(1))))))
}

/// A stored script, and what it prints.
#[derive(Clone, Copy, Drop)]
pub struct Stored<'a> {
    pub name: &'a str,
    pub script: &'a [u8],
    pub output: &'a [u8],
}

// Whether the script prints the same so, and its manager says what it should beside it and at its end.
fn run_by_hands<L: Ledger, R: Wait>(
    rt: &R,
    alloc: Global,
    blank: Blank,
    stored: &Stored,
) -> Result<bool, ScriptEnd>
    requires blank { IsBlankOf blank.name blank.parts L.name L.parts }
{
    let mut rows = Rows::<L>::new(rt, alloc, stored.script, blank)?;
    let (start, rest) = before_resume(stored.script);
    rows.take(rt, start)?;
    let holds = holds_first(rt, &mut rows, stored.name);
    rows.take(rt, rest)?;
    let printed = rows.take_printed(alloc)?;
    let says = ask_more(rt, &mut rows, stored.name);
    Ok(printed.as_slice() == stored.output && holds && says && is_end(stored.name, &rows.end()))
}

/// Whether the script prints the same by a manager's hands, and its manager says what it should beside it and at its end.
pub fn is_same<R: Wait>(rt: &R, alloc: Global, stored: &Stored) -> bool {
    let seen = run_by_hands::<Brand, R>(rt, alloc, Blank::new(PARTS), stored);
    matches!(seen, Ok(true))
}
