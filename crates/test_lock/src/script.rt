//! A script's lines through a manager that threads share.

ghost use Rattle.std.specs.Prelude.{◌≡◌};
ghost use Rattle.fm_lock.specs.Blanks.{IsBlankOf};

use crate::declared::Declared;
use crate::driver::Driver;
use fm_core::{Step, StepReply};
use fm_script::{Runner, ScriptEnd, Task, is_silent};
use fm_types::limits::LINE;
use fm_types::{Name, Status};
use std::alloc::Global;
use std::sync::Wait;
use std::sync::ledger::{Blank, Ledger};

/// A script that a manager does, line by line, and beside it what reads the lines.
#[derive(Drop)]
pub struct Rows<L: Ledger> {
    reader: Runner<Vec<u8>>,
    driver: Driver<L>,
}

// The filter that an event loads, under its name.
fn declared_by(step: Step) -> Option<(Name, Declared)> {
    match step {
        Step::Register { name, registration } => Some((name, Declared { registration })),
        _ => None,
    }
}

// The filter that a line loads, under its name.
fn loaded_by(reader: &Runner<Vec<u8>>, line: &[u8]) -> Result<Option<(Name, Declared)>, ScriptEnd> {
    if line.len() > LINE || is_silent(line) {
        return Ok(None);
    }
    let Ok(task) = reader.read(line).map_err(|_| ScriptEnd::NoMemory)? else {
        return Ok(None);
    };
    match task {
        Task::Event(step) => Ok(declared_by(step)),
        _ => Ok(None),
    }
}

// The filters that a script's lines load. A name that several load is the first one's.
fn filters_of(
    reader: &Runner<Vec<u8>>,
    alloc: Global,
    script: &[u8],
) -> Result<Vec<(Name, Declared)>, ScriptEnd> {
    let mut filters = Vec::new(alloc);
    for line in script.split(|byte| *byte == b'\n') {
        if let Some(filter) = loaded_by(reader, line)? {
            filters.push(filter).map_err(|_| ScriptEnd::NoMemory)?;
        }
    }
    Ok(filters)
}

impl<L: Ledger> Rows<L> {
    /// Before the first line of that script. The blank is the ledger's own, in 49 parts.
    pub fn new<R: Wait>(
        rt: &R,
        alloc: Global,
        script: &[u8],
        blank: Blank,
    ) -> Result<Rows<L>, ScriptEnd>
        requires blank { IsBlankOf blank.name blank.parts L.name L.parts }
    {
        let reader = Runner::new(alloc, Vec::new(alloc))?;
        let filters = filters_of(&reader, alloc, script)?;
        let driver = Driver::new(rt, alloc, filters, blank).map_err(|_| ScriptEnd::NoMemory)?;
        Ok(Rows { reader, driver })
    }

    // One line: read as a script reads it, done by the manager, and then by the reader too, so that the next line is read as it should be.
    fn take_line<R: Wait>(&mut self, rt: &R, line: &[u8]) -> Result<(), ScriptEnd> {
        if line.len() > LINE {
            self.driver.refuse(Status::BadRequest)?;
            return self.reader.run(line);
        }
        if is_silent(line) {
            return Ok(());
        }
        match self.reader.read(line).map_err(|_| ScriptEnd::NoMemory)? {
            Ok(task) => self.driver.perform(rt, self.reader.interpreter(), task)?,
            Err(status) => self.driver.refuse(status)?,
        }
        self.reader.run(line)
    }

    /// Runs lines: each is one event of the manager, by the hand of its worker.
    pub fn take<R: Wait>(&mut self, rt: &R, lines: &[u8]) -> Result<(), ScriptEnd> {
        for line in lines.split(|byte| *byte == b'\n') {
            self.take_line(rt, line)?;
        }
        Ok(())
    }

    /// Makes an event that no line can name.
    pub fn step<R: Wait>(&mut self, rt: &R, step: Step) -> Result<StepReply, Status> {
        self.driver.step(rt, step)
    }

    /// What was printed.
    pub fn take_printed(&mut self, alloc: Global) -> Result<Vec<u8>, ScriptEnd> {
        self.driver.take_printed(alloc)
    }

    /// Ends the manager: how many contexts were allocated, how many cleaned up, and how many references left behind. Refused as `Manager::shutdown`.
    pub fn end(self) -> Result<[u64; 3], Status>
        requires { L.parts ≡ 49 }
    {
        self.driver.end()
    }
}
