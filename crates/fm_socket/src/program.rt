//! The server program: from what it stands on to its exit status.

ghost use Rattle.std.specs.Prelude.{◌≡◌};

use crate::endpoint::Endpoint;
use crate::faults::{fault_of, outside};
use crate::samples::samples;
use crate::server::run_server;
use fm_cli::Fault;
use fm_device::Device;
use fm_filter::{Callbacks, Minifilter};
use fm_types::limits::PARTS;
use fm_types::{Name, Status};
use std::alloc::Global;
use std::io::{self, Write};
use std::marker::Brand;
use std::sync::Wait;
use std::sync::ledger::Blank;
use std::thread::Threads;
use std::time::Clock;

/// What a server says at its end.
#[derive(Clone, Copy, Drop)]
pub(crate) struct ServerSummary {
    pub(crate) born: u64,
    pub(crate) cleaned: u64,
    pub(crate) leaks: u64,
    pub(crate) is_clean: bool,
}

// Serves at that endpoint, with these filters.
fn serve<F, R, D, W>(
    rt: &R,
    alloc: Global,
    filters: Vec<(Name, F)>,
    endpoint: Endpoint<D>,
    out: W,
) -> (Result<ServerSummary, Fault>, W)
where
    F: Callbacks + Send + Sync,
    R: Threads + Wait + Sync + Clock,
    D: Device + Send,
    W: Write + Drop,
{
    run_server::<F, Brand, R, D, W>(rt, alloc, filters, Blank::new(PARTS), endpoint, out)
}

// Says what became of contexts.
fn say<W: Write>(alloc: Global, tally: &ServerSummary, out: &mut W) -> io::Result<()> {
    let line = format!(in alloc;
        "born {} cleaned {} leaks {}\n",
        tally.born, tally.cleaned, tally.leaks
    )?;
    out.write_all(line.as_bytes())?;
    out.flush()
}

// The exit status of a server that ended so, once it has said what became of contexts, or that something failed.
fn finish<W: Write>(alloc: Global, served: Result<ServerSummary, Fault>, out: &mut W) -> u8 {
    let told = match served {
        Ok(tally) => match say(alloc, &tally, out) {
            Ok(()) if tally.is_clean => return 0,
            Ok(()) => return 1,
            Err(error) => outside(error),
        },
        Err(fault) => fault,
    };
    tell(&told, out)
}

/// A server program of these filters, each ready to be loaded under its name, at what `prepare` made: the folder is volume 0, named v0, behind the Unix socket,
/// and so many workers carry operations on. It prints `ready` once its workers take jobs and it takes connections, and at a Stop, after the last connection has
/// ended and every filter was unloaded, how many contexts were allocated and cleaned up and how many references were left behind. The exit status: 0; 1 if a
/// growth was refused, for the filters too, a thread couldn't be made, or something couldn't be closed at the end; 3, and `fault` is printed, if the folder, the
/// socket or the writer failed.
pub fn front_with<F, R, D, W>(
    rt: &R,
    alloc: Global,
    filters: Result<Vec<(Name, F)>, Status>,
    endpoint: Result<Endpoint<D>, Fault>,
    out: W,
) -> u8
where
    F: Minifilter,
    R: Threads + Wait + Sync + Clock,
    D: Device + Send,
    W: Write + Drop,
{
    let mut out = out;
    let filters = match filters {
        Ok(filters) => filters,
        Err(status) => return tell(&fault_of(status), &mut out),
    };
    match endpoint {
        Ok(endpoint) => {
            let (served, mut out) = serve(rt, alloc, filters, endpoint, out);
            finish(alloc, served, &mut out)
        }
        Err(fault) => tell(&fault, &mut out),
    }
}

/// `front_with` the samples under their names.
pub fn front<R, D, W>(rt: &R, alloc: Global, endpoint: Result<Endpoint<D>, Fault>, out: W) -> u8
where
    R: Threads + Wait + Sync + Clock,
    D: Device + Send,
    W: Write + Drop,
{
    front_with(rt, alloc, samples(alloc), endpoint, out)
}

/// Prints `fault` for a fault from outside; the exit status of any.
pub(crate) fn tell<W: Write>(fault: &Fault, out: &mut W) -> u8 {
    if matches!(fault, Fault::Outside(_)) {
        let _ = out.write_all(b"fault\n");
        let _ = out.flush();
    }
    fault.status()
}

// A line, written out.
fn write_line<W: Write>(text: &str, out: &mut W) -> io::Result<()> {
    out.write_all(text.as_bytes())?;
    out.write_all(b"\n")?;
    out.flush()
}

/// Prints how a program is used. The exit status is the one that is passed, or 3 if that can't be written.
pub fn show_usage<W: Write>(text: &str, status: u8, out: &mut W) -> u8 {
    match write_line(text, out) {
        Ok(()) => status,
        Err(_) => 3,
    }
}
