//! A manager that threads share, beside its bare State: listings of a volume that no instance is on. Each is begun, taken to the base, answered, found done
//! and collected: five events.

ghost use Rattle.std.specs.Prelude.{◌≡◌};
ghost use Rattle.fm_lock.specs.Blanks.{IsBlankOf};

use crate::a_second;
use fm_callback_data::{Answer, Request};
use fm_core::{Action, State};
use fm_lock::{Hand, Manager};
use fm_types::limits::PARTS;
use fm_types::{Bytes, Name, Status, VolumeId, WorkerId};
use std::alloc::Global;
use std::marker::Brand;
use std::sync::Wait;
use std::sync::ledger::{Blank, Ledger};
use std::thread::Threads;
use std::time::Instant;
use std::{io, thread};

/// How many listings are made where no number is given.
const FEW: u64 = 40;

/// How many events a listing is.
const EVENTS: u64 = 5;

fn listing() -> Request {
    Request::List {
        volume: VolumeId(0),
    }
}

fn nothing_listed(alloc: Global) -> Answer {
    Answer {
        status: Status::Success,
        information: 0,
        bytes: Bytes::new(alloc),
    }
}

fn list_bare(alloc: Global, state: &mut State) -> Result<(), Status> {
    let worker = WorkerId(0);
    let operation = state.begin(listing())?;
    let Action::Base(call) = state.next(worker, operation)? else {
        return Err(Status::WrongStep);
    };
    if let Err(refused) = state.base_returned(worker, call, nothing_listed(alloc)) {
        return Err(refused.status);
    }
    state.next(worker, operation)?;
    state.collect(operation)?;
    Ok(())
}

// So many listings of a bare State.
fn bare(alloc: Global, listings: u64) -> Result<(), Status> {
    let mut state = State::new(alloc)?;
    state.mount(Name::read(b"v")?)?;
    for _ in 0..listings {
        list_bare(alloc, &mut state)?;
    }
    Ok(())
}

fn list<L: Ledger, R: Wait>(
    rt: &R,
    alloc: Global,
    manager: &Manager<(), L>,
    hand: &mut Hand<L>,
) -> Result<(), Status> {
    let operation = manager.begin(rt, listing())?;
    let Action::Base(call) = manager.next(rt, hand, operation)? else {
        return Err(Status::WrongStep);
    };
    if let Err(refused) = manager.base_returned(rt, hand, call, nothing_listed(alloc)) {
        return Err(refused.status);
    }
    manager.next(rt, hand, operation)?;
    manager.wait_reply(rt, operation)?;
    Ok(())
}

// So many listings by a hand.
fn lists<L: Ledger, R: Wait>(
    rt: &R,
    alloc: Global,
    manager: &Manager<(), L>,
    listings: u64,
) -> Result<(), Status> {
    let mut hand = manager.hire(rt)?;
    for _ in 0..listings {
        list(rt, alloc, manager, &mut hand)?;
    }
    Ok(())
}

fn list_twice<L: Ledger + Send + Sync, R: Threads + Wait + Sync>(
    rt: &R,
    alloc: Global,
    manager: &Manager<(), L>,
    listings: u64,
) -> Result<(), Status> {
    let (one, other) = thread::join(
        rt,
        || lists(rt, alloc, manager, listings),
        || lists(rt, alloc, manager, listings),
    );
    one.and(other)
}

// So many listings by one thread's hand, or by four threads' on one manager.
fn shared<L: Ledger + Send + Sync, R: Threads + Wait + Sync>(
    rt: &R,
    alloc: Global,
    blank: Blank,
    is_four: bool,
    listings: u64,
) -> Result<(), Status>
    requires blank { IsBlankOf blank.name blank.parts L.name L.parts }
{
    let manager = Manager::<(), L>::new(alloc, Vec::new(alloc), blank)?;
    manager.mount(rt, Name::read(b"v")?)?;
    if !is_four {
        return lists(rt, alloc, &manager, listings);
    }
    let manager = &manager;
    let (one, other) = thread::join(
        rt,
        || list_twice(rt, alloc, manager, listings / 4),
        || list_twice(rt, alloc, manager, listings / 4),
    );
    one.and(other)
}

fn or_fault(done: Result<(), Status>) -> io::Result<()> {
    done.map_err(|_| io::Error::from(io::ErrorKind::OutOfMemory))
}

/// Makes that many listings of each, and prints how many events were made in a second.
pub fn measure<R: Threads + Wait + Sync>(
    rt: &HostRuntime,
    threads: &R,
    given: Option<u64>,
) -> io::Result<()> {
    let listings = given.unwrap_or(FEW);
    let alloc = rt.alloc();
    let start = Instant::now(rt)?;
    or_fault(bare(alloc, listings))?;
    let alone = start.elapsed(rt)?;
    let start = Instant::now(rt)?;
    or_fault(shared::<Brand, R>(threads, alloc, Blank::new(PARTS), false, listings))?;
    let one = start.elapsed(rt)?;
    let start = Instant::now(rt)?;
    or_fault(shared::<Brand, R>(threads, alloc, Blank::new(PARTS), true, listings))?;
    let four = start.elapsed(rt)?;
    if given.is_some() {
        let events = listings.saturating_mul(EVENTS);
        let (alone, one, four) = (
            a_second(events, alone),
            a_second(events, one),
            a_second(events, four),
        );
        println!(rt; "bare State {alone}, one thread {one}, four threads {four} events a second")?;
    }
    Ok(())
}
