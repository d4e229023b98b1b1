//! A script from end to end: reads its reader piece by piece, cuts the pieces into lines, and runs them.

ghost use Rattle.std.specs.Prelude.{◌≡◌, ◌⊎◌, ◌<◌, ◌+◌, ◌++◌, [], true, Err, IfErr, IfOk, Ok, OnOk, length, take};
ghost use Rattle.fm_script.specs.Listening.{BreaksIn, GoesOn, IsEnd, ReadsLines, ReadsOn, RunsOn, TakesLine, TakesMore, TakesPiece, TakesRest, TakesUpTo};
ghost use Rattle.fm_script.specs.Scripts.{RunsScript};

use crate::interpreter::Interpreter;
use crate::line::{KEPT, Line};
use crate::runner::Runner;
use crate::script_end::ScriptEnd;
use fm_types::limits::LINES;
use fm_words::split_at_byte;
use std::alloc::{AllocError, Global};
use std::io::{Error, ErrorKind, Read, Write};

/// How many bytes are read at once, where they are there.
const PIECE: usize = 16384;

/// What a script's lines are handed to.
pub trait Listener {
    ghost use Rattle.std.specs.Prelude.{ℕ, List, Result};
    ghost use Rattle.fm_script.specs.declared.script_end.ScriptEnd.{ScriptEnd};

    /// From the first state a line may be taken so, which leaves the second state.
    ghost takes: { Self → List ℕ → Result (Unit {0}) ScriptEnd → Self → Type 0 };

    /// The same of a pause.
    ghost pauses: { Self → Result (Unit {0}) ScriptEnd → Self → Type 0 };

    /// Takes the next line, of which at most 4,097 bytes are given. An error ends the script.
    fn take(&mut self, line: &[u8]) -> Result<(), ScriptEnd>
        ensures { takes self.old line.now result self.new };

    /// Hands over what it has to say, since the reader may wait. An error ends the script.
    fn pause(&mut self) -> Result<(), ScriptEnd>
        ensures { pauses self.old result self.new };
}

impl<W: Write + Drop> Listener for Runner<W> {
    ghost use Rattle.fm_script.specs.Scripts.{Pauses, Takes};

    ghost takes = { λ old line result new. Takes W.contents old line result new };

    ghost pauses = { λ old result new. Pauses W.contents old result new };

    fn take(&mut self, line: &[u8]) -> Result<(), ScriptEnd> {
        self.run(line)
    }

    fn pause(&mut self) -> Result<(), ScriptEnd> {
        self.flush()
    }
}

// The lines of a script, as they come in.
#[derive(Drop)]
struct Lines<L: Listener + Drop> {
    listener: L,
    line: Line,
    count: u32,
}

impl<L: Listener + Drop> Lines<L> {
    // Takes a piece of the input, and hands on the lines that end in it.
    fn take(&mut self, piece: &[u8]) -> Result<(), ScriptEnd>
        ensures { TakesPiece L.takes L.pauses result piece.now self.old.line self.old.count self.old.listener self.new.line self.new.count self.new.listener }
    {
        let mut rest = piece;
        while !rest.is_empty() {
            match self.take_front(rest) {
                Ok(left) => rest = left,
                Err(end) => return Err(end),
            }
        }
        Ok(())
    }

    // Takes the front of a piece, through its first line feed or to its end. It gives what is left of it.
    fn take_front<'a>(&mut self, piece: &'a [u8]) -> Result<&'a [u8], ScriptEnd>
        ensures takes { IfOk result (λ left. TakesUpTo L.takes L.pauses left.now piece.now self.old.line self.old.count self.old.listener self.new.line self.new.count self.new.listener) }
        ensures breaks { IfErr result (λ end. BreaksIn L.takes L.pauses end piece.now self.old.line self.old.count self.old.listener self.new.listener) }
        ensures shorter { IfOk result (λ left. 0 < length piece.now → length left.now < length piece.now) }
    {
        if self.count >= LINES {
            return Err(ScriptEnd::ReadFault);
        }
        let (front, behind) = split_at_byte(piece, b'\n');
        match behind {
            Some(behind) => match self.end_line(front) {
                Ok(()) => {
                    self.count_line();
                    Ok(behind)
                }
                Err(end) => Err(end),
            },
            None => match self.keep(front) {
                Ok(()) => Ok(&piece[piece.len()..]),
                Err(end) => Err(end),
            },
        }
    }

    // One line more.
    fn count_line(&mut self)
        requires { self.old.count < 100000 }
        ensures counts { self.new.count ≡ self.old.count + 1 }
        ensures others { (self.new.listener ≡ self.old.listener) × (self.new.line ≡ self.old.line) }
    {
        self.count += 1;
    }

    // Keeps the beginning of a line, or more of one.
    fn keep(&mut self, piece: &[u8]) -> Result<(), ScriptEnd>
        ensures keeps { OnOk result (self.new.line ≡ take 4097 (self.old.line ++ piece.now)) }
        ensures memory { IfErr result (λ end. end ≡ ScriptEnd.NoMemory) }
        ensures others { (self.new.listener ≡ self.old.listener) × (self.new.count ≡ self.old.count) }
    {
        self.line.extend(piece).map_err(|_| ScriptEnd::NoMemory)
    }

    // Hands on the line that ends with that piece. One that stands in it whole is handed on where it stands.
    fn end_line(&mut self, piece: &[u8]) -> Result<(), ScriptEnd>
        ensures takes { TakesLine L.takes L.pauses result piece.now self.old.line self.old.listener self.new.listener }
        ensures begins { OnOk result (self.new.line ≡ []) }
        ensures counts { self.new.count ≡ self.old.count }
    {
        if self.line.as_slice().is_empty() {
            return self.listener.take(&piece[..KEPT.min(piece.len())]);
        }
        match self.keep(piece) {
            Ok(()) => self.run(),
            Err(end) => Err(end),
        }
    }

    // Hands on the line that was read, and begins the next one.
    fn run(&mut self) -> Result<(), ScriptEnd>
        ensures takes { L.takes self.old.listener self.old.line result self.new.listener }
        ensures begins { self.new.line ≡ [] }
        ensures counts { self.new.count ≡ self.old.count }
    {
        let outcome = self.listener.take(self.line.as_slice());
        self.line.clear();
        outcome
    }
}

// Takes what stands after the last line feed as one more line. There is no more.
fn take_last<L: Listener + Drop>(lines: &mut Lines<L>) -> Result<bool, ScriptEnd>
    ensures { TakesRest L.takes L.pauses result lines.old.line lines.old.listener lines.new.listener }
{
    match lines.run() {
        Ok(()) => Ok(false),
        Err(end) => Err(end),
    }
}

// Takes a piece. There may be more.
fn take_more<L: Listener + Drop>(lines: &mut Lines<L>, piece: &[u8]) -> Result<bool, ScriptEnd>
    ensures { TakesMore L.takes L.pauses result piece.now lines.old.line lines.old.count lines.old.listener lines.new.line lines.new.count lines.new.listener }
{
    match lines.take(piece) {
        Ok(()) => Ok(true),
        Err(end) => Err(end),
    }
}

// Reads once, and takes what that gives. Whether there may be more.
fn take_read<R: Read, L: Listener + Drop>(
    reader: &mut R,
    lines: &mut Lines<L>,
    buffer: &mut [u8],
) -> Result<bool, ScriptEnd>
    requires { 0 < length buffer.old }
    ensures { GoesOn L.takes L.pauses result (R.remaining reader.old) lines.old.line lines.old.count lines.old.listener
        (R.remaining reader.new) lines.new.line lines.new.count lines.new.listener }
{
    match reader.read(buffer) {
        Ok(0) => take_last(lines),
        Ok(count) => take_more(lines, &buffer[..count]),
        Err(fault) => is_read_again(&fault),
    }
}

// Whether a read that failed is made again: one that was interrupted.
fn is_read_again(fault: &Error) -> Result<bool, ScriptEnd>
    ensures { (result ≡ Ok true) ⊎ (result ≡ Err ScriptEnd.ReadFault) }
{
    if fault.kind() == ErrorKind::Interrupted {
        Ok(true)
    } else {
        Err(ScriptEnd::ReadFault)
    }
}

// The same after a pause.
fn turn<R: Read, L: Listener + Drop>(
    reader: &mut R,
    lines: &mut Lines<L>,
    buffer: &mut [u8],
) -> Result<bool, ScriptEnd>
    requires { 0 < length buffer.old }
    ensures { GoesOn L.takes L.pauses result (R.remaining reader.old) lines.old.line lines.old.count lines.old.listener
        (R.remaining reader.new) lines.new.line lines.new.count lines.new.listener }
{
    match lines.listener.pause() {
        Ok(()) => take_read(reader, lines, buffer),
        Err(end) => Err(end),
    }
}

// Reads until the reader's end, and takes what it gives.
fn run<R: Read, L: Listener + Drop>(
    reader: &mut R,
    lines: &mut Lines<L>,
    buffer: &mut [u8],
) -> Result<(), ScriptEnd>
    requires { 0 < length buffer.old }
    ensures { RunsOn L.takes L.pauses result (R.remaining reader.old) lines.old.line lines.old.count lines.old.listener (R.remaining reader.new) lines.new.listener }
{
    for _ in 0..u32::MAX {
        match turn(reader, lines, buffer) {
            Ok(true) => {}
            Ok(false) => return Ok(()),
            Err(end) => return Err(end),
        }
    }
    Err(ScriptEnd::ReadFault)
}

// The same, with room for what a read gives.
fn run_all<R: Read, L: Listener + Drop>(
    alloc: Global,
    reader: &mut R,
    lines: &mut Lines<L>,
) -> Result<(), ScriptEnd>
    ensures { RunsOn L.takes L.pauses result (R.remaining reader.old) lines.old.line lines.old.count lines.old.listener (R.remaining reader.new) lines.new.listener }
{
    match new_buffer(alloc) {
        Ok(mut buffer) => run(reader, lines, buffer.as_mut_slice()),
        Err(_) => Err(ScriptEnd::NoMemory),
    }
}

// Room for what a read gives.
fn new_buffer(alloc: Global) -> Result<Vec<u8>, AllocError>
    ensures { IfOk result (λ buffer. 0 < length buffer.items) }
{
    vec![in alloc; 0; PIECE]
}

// Takes what the reader gives, and has a last pause, how ever that ended.
fn run_to_end<R: Read, L: Listener + Drop>(
    alloc: Global,
    reader: &mut R,
    lines: &mut Lines<L>,
) -> ScriptEnd
    ensures { ReadsOn L.takes L.pauses result (R.remaining reader.old) lines.old.line lines.old.count lines.old.listener (R.remaining reader.new) lines.new.listener }
{
    let outcome = run_all(alloc, reader, lines);
    let rested = lines.listener.pause();
    end_of(outcome, rested)
}

// How a script ended whose lines ended so, and its last pause.
fn end_of(outcome: Result<(), ScriptEnd>, rested: Result<(), ScriptEnd>) -> ScriptEnd
    ensures { IsEnd outcome rested result }
{
    match (outcome, rested) {
        (Ok(()), Ok(())) => ScriptEnd::Ended,
        (Err(end), _) | (Ok(()), Err(end)) => end,
    }
}

/// A listener to which the lines of a reader were handed, with the reader, and how that ended.
#[derive(Drop)]
pub struct Heard<R: Drop, L: Drop> {
    /// The reader, after what was read.
    pub reader: R,
    /// The listener, after its last pause.
    pub listener: L,
    /// How it ended.
    pub end: ScriptEnd,
}

/// Reads lines from the reader, and hands each to the listener; before each read and at the end the listener has a pause. Lines end with 0x0A, which the
/// last may lack; of one that is longer the first 4,097 bytes are handed on. It ends with ReadFault where the reader fails, at the 100,001st line, and after
/// 2^32 - 1 reads.
pub fn read_lines<R: Read + Drop, L: Listener + Drop>(
    alloc: Global,
    mut reader: R,
    listener: L,
) -> Heard<R, L>
    ensures { ReadsLines L.takes L.pauses result.end listener (R.remaining reader) (R.remaining result.reader) result.listener }
{
    let mut lines = Lines {
        listener,
        line: Line::new(alloc),
        count: 0,
    };
    let end = run_to_end(alloc, &mut reader, &mut lines);
    Heard {
        reader,
        listener: lines.listener,
        end,
    }
}

/// A script that ran: how it ended, and what it read from and printed to.
#[derive(Drop)]
pub struct Ran<R: Drop, W: Drop> {
    /// How it ended.
    pub end: ScriptEnd,
    /// The reader, after what was read.
    pub reader: R,
    /// The writer, after what was written.
    pub writer: W,
}

/// Runs a script: reads commands from the reader, one a line, and prints to the writer what they answer. What was printed is handed to the
/// writer before each read and at the end, so that a script can be driven line by line. A line above 4,096 bytes is refused and skipped. It ends as
/// `read_lines` says.
pub fn script<R: Read + Drop, W: Write + Drop>(alloc: Global, reader: R, writer: W) -> Ran<R, W>
    ensures { RunsScript W.contents result.end (R.remaining reader) (W.contents writer) (R.remaining result.reader) (W.contents result.writer) }
{
    let interpreter = match Interpreter::new(alloc) {
        Ok(interpreter) => interpreter,
        Err(_) => {
            return Ran {
                end: ScriptEnd::NoMemory,
                reader,
                writer,
            };
        }
    };
    let runner = Runner::over(alloc, interpreter, writer);
    let Heard {
        reader,
        listener,
        end,
    } = read_lines(alloc, reader, runner);
    Ran {
        end,
        reader,
        writer: listener.into_writer(),
    }
}
