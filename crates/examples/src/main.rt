//! Runs each script, NAME.flt in the folder that it is run in or in its folder `rows`: read whole, read in pieces of any length, and without its last
//! line's end. Says which don't print what NAME.out has, and of which folder each does, and which aren't as their own lines expect. Those that have a NAME.txt
//! beside them are shown in words too, those that have a NAME.svg as a picture, and these are compared.
#![tactic(auto)]

mod by_manager;

use crate::by_manager::{Stored, is_same};
use fm_script::{ScriptEnd, script};
use fm_view::{Shown, ViewFormat, show_script};
use std::alloc::{AllocError, Global};
use std::io::Read;
use std::sync::Wait;
use std::{fs, io};

// The lengths of the pieces that a script is read in.
const PIECES: [usize; 3] = [1, 7, 16384];

// The scripts that are shown.
const SHOWN: [&str; 5] = [
    "leak",
    "held_read",
    "detach",
    "refusals",
    "rows/early_drain",
];

// Those that are shown in words alone.
const SAID: [&str; 3] = [
    "rows/leak_of_a_verdict",
    "rows/not_sent_along",
    "rows/leak_of_a_drain",
];

// A reader that gives a script in pieces of at most that many bytes, and is interrupted before each.
#[derive(Drop)]
struct Pieces<'a> {
    rest: &'a [u8],
    most: usize,
    is_interrupted: bool,
}

impl Read for Pieces<'_> {
    fn read(&mut self, buf: &mut [u8]) -> io::Result<usize> {
        self.is_interrupted = !self.is_interrupted;
        if self.is_interrupted {
            return Err(io::Error::from(io::ErrorKind::Interrupted));
        }
        let most = self.most.min(buf.len());
        self.rest.read(&mut buf[..most])
    }
}

// The names of a folder's scripts, ascending and without their ending.
fn names(rt: &HostRuntime, folder: &str) -> io::Result<Vec<String>> {
    let mut names = Vec::new(rt.alloc());
    for entry in fs::read_dir(rt, folder)? {
        let entry = entry?;
        if let Some(name) = entry.file_name().strip_suffix(".flt") {
            names.push(format!(in rt.alloc(); "{folder}/{name}")?)?;
        }
    }
    names.sort_unstable();
    Ok(names)
}

// What came of a script, beside what it is to print.
#[derive(Clone, Copy, PartialEq)]
enum Outcome {
    Same,
    // It ended for want of memory behind a right beginning, as `rt try --fail-alloc` may have it.
    Beginning,
    // An event or the base was refused memory, and it went on: the first line that isn't as it should be says so.
    Refused,
    Other,
}

impl Outcome {
    fn text(self) -> &'static str {
        match self {
            Outcome::Same => "prints what",
            Outcome::Beginning => "ends for want of memory, and prints the beginning of what",
            Outcome::Refused => "prints that memory was refused in place of a line of what",
            Outcome::Other => "prints something else than",
        }
    }
}

// Whether the first line that isn't as it should be says that an event or the base was refused memory.
fn is_refused(printed: &[u8], output: &[u8]) -> bool {
    let mut rest = output;
    for line in printed.split_inclusive(|byte| *byte == b'\n') {
        match rest.strip_prefix(line) {
            Some(behind) => rest = behind,
            None => return line == b"no 1\n".as_slice() || line == b"base 1\n".as_slice(),
        }
    }
    false
}

// Runs the script, read in pieces of that length.
fn run(alloc: Global, input: &[u8], output: &[u8], most: usize) -> Outcome {
    let mut bytes = Vec::new(alloc);
    let reader = Pieces {
        rest: input,
        most,
        is_interrupted: false,
    };
    let end = script(alloc, reader, &mut bytes).end;
    match end {
        ScriptEnd::Ended if bytes.as_slice() == output => Outcome::Same,
        ScriptEnd::NoMemory if output.starts_with(bytes.as_slice()) => Outcome::Beginning,
        ScriptEnd::Ended if is_refused(bytes.as_slice(), output) => Outcome::Refused,
        _ => Outcome::Other,
    }
}

// What comes of it however it is read: the first that isn't the same.
fn run_in_pieces(alloc: Global, input: &[u8], output: &[u8]) -> Outcome {
    let cut = input.strip_suffix(b"\n").unwrap_or(input);
    for most in PIECES {
        let outcome = run(alloc, input, output, most);
        if outcome != Outcome::Same {
            return outcome;
        }
    }
    run(alloc, cut, output, 16384)
}

// Runs each script of a folder by the hands of a manager, and tells those that print something else. Whether the folder has scripts, and there are no such.
fn run_by_manager<R: Wait>(lock: &R, rt: &HostRuntime, folder: &str) -> io::Result<bool> {
    let alloc = rt.alloc();
    let names = names(rt, folder)?;
    let mut is_well = !names.is_empty();
    for name in &names {
        let input = fs::read(rt, format!(in alloc; "{name}.flt")?)?;
        let output = fs::read(rt, format!(in alloc; "{name}.out")?)?;
        let stored = Stored {
            name,
            script: input.as_slice(),
            output: output.as_slice(),
        };
        if !is_same(lock, alloc, &stored) {
            is_well = false;
            println!(rt; "{name} prints something else by a manager's hands")?;
        }
    }
    Ok(is_well)
}

// Runs each script of a folder, and tells those that don't print what they should. Whether the folder has scripts, and there are no such.
fn run_all(rt: &HostRuntime, folder: &str) -> io::Result<bool> {
    let alloc = rt.alloc();
    let names = names(rt, folder)?;
    let mut is_well = !names.is_empty();
    for name in &names {
        let input = fs::read(rt, format!(in alloc; "{name}.flt")?)?;
        let output = fs::read(rt, format!(in alloc; "{name}.out")?)?;
        let outcome = run_in_pieces(alloc, input.as_slice(), output.as_slice());
        if outcome != Outcome::Same {
            is_well = false;
            println!(rt; "{name} {} {name}.out has", outcome.text())?;
        }
    }
    Ok(is_well)
}

// Checks each script of a folder as a test, and tells those that aren't as their lines expect. Whether there are no such.
fn check_all(rt: &HostRuntime, folder: &str) -> io::Result<bool> {
    let alloc = rt.alloc();
    let mut is_well = true;
    for name in &names(rt, folder)? {
        let input = fs::read(rt, format!(in alloc; "{name}.flt")?)?;
        let mut bytes = Vec::new(alloc);
        let status = show_script(
            alloc,
            Shown::new(ViewFormat::Check),
            None,
            input.as_slice(),
            &mut bytes,
        );
        if status != 0 {
            is_well = false;
            println!(rt; "{name} isn't as its lines expect: status {status}")?;
        }
    }
    Ok(is_well)
}

// Whether the empty script prints nothing, and ends well.
fn is_nothing(alloc: Global) -> bool {
    run(alloc, b"", b"", 1) == Outcome::Same
}

// Shows a script, and tells whether that is what its file of that ending has.
fn is_shown(rt: &HostRuntime, name: &str, format: ViewFormat, ending: &str) -> io::Result<bool> {
    let alloc = rt.alloc();
    let input = fs::read(rt, format!(in alloc; "{name}.flt")?)?;
    let wanted = fs::read(rt, format!(in alloc; "{name}.{ending}")?)?;
    let mut bytes = Vec::new(alloc);
    let _ = show_script(
        alloc,
        Shown::new(format),
        None,
        input.as_slice(),
        &mut bytes,
    );
    Ok(bytes.as_slice() == wanted.as_slice())
}

// Tells whether a script is shown so as it should be.
fn show(rt: &HostRuntime, name: &str, format: ViewFormat, ending: &str) -> io::Result<()> {
    let verb = if is_shown(rt, name, format, ending)? {
        "is"
    } else {
        "isn't"
    };
    println!(rt; "{name} {verb} shown as {name}.{ending} has it")
}

// Tells of each script that is shown whether that is as it should be.
fn show_all(rt: &HostRuntime) -> io::Result<()> {
    for name in SHOWN {
        show(rt, name, ViewFormat::Words, "txt")?;
        show(rt, name, ViewFormat::Picture, "svg")?;
    }
    for name in SAID {
        show(rt, name, ViewFormat::Words, "txt")?;
    }
    Ok(())
}

fn main(rt: HostRuntime) -> io::Result<()> {
    for folder in [".", "rows"] {
        if run_all(&rt, folder)? {
            println!(rt; "{folder}: each script prints what its .out has")?;
        }
        if run_by_manager(&rt, &rt, folder)? {
            println!(rt; "{folder}: and so it does by a manager's hands")?;
        }
        if check_all(&rt, folder)? {
            println!(rt; "{folder}: each script is as its lines expect")?;
        }
    }
    if is_nothing(rt.alloc()) {
        println!(rt; "the empty script prints nothing")?;
    }
    show_all(&rt)
}
