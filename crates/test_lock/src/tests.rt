//! What no script can say of a manager: its hands and its end, two threads at once, and one that waits for what the other carries on.

ghost use Rattle.std.specs.Prelude.{◌≡◌};
ghost use Rattle.fm_lock.specs.Blanks.{IsBlankOf};

use fm_callback_data::{Answer, Request};
use fm_lock::{Hand, Manager};
use fm_operations::FlowAction;
use fm_types::limits::PARTS;
use fm_types::{Bytes, Name, OpId, Status, VolumeId};
use std::alloc::Global;
use std::marker::Brand;
use std::process::Abort;
use std::sync::Wait;
use std::sync::ledger::{Blank, Ledger};
use std::thread;
use std::thread::Threads;

/// How many operations each thread has.
const ROUNDS: u32 = 20;

/// Contexts allocated and cleaned up, and references left behind.
type Numbers = [u64; 3];

// Ends a manager by these hands.
fn end<L: Ledger>(manager: Manager<(), L>, hands: Vec<Hand<L>>) -> Result<Numbers, Status>
    requires { L.parts ≡ 49 }
{
    match manager.shutdown(hands) {
        Ok(report) => Ok([report.born, report.cleaned, report.leaks]),
        Err((_, _, status)) => Err(status),
    }
}

// Two hands go out. With none of them the manager doesn't end; with the one that didn't come back it does.
fn hands_of<L: Ledger, R: Wait>(
    rt: &R,
    alloc: Global,
    blank: Blank,
) -> Result<(Status, Numbers), Status>
    requires blank { IsBlankOf blank.name blank.parts L.name L.parts }
{
    let manager = Manager::<(), L>::new(alloc, Vec::new(alloc), blank)?;
    let first = manager.hire(rt)?;
    let second = manager.hire(rt)?;
    let (manager, _, refusal) = match manager.shutdown(Vec::new(alloc)) {
        Ok(_) => return Err(Status::Success),
        Err(refused) => refused,
    };
    if let Err((_, status)) = manager.retire(rt, first) {
        return Err(status);
    }
    let mut hands = Vec::new(alloc);
    hands.push(second)?;
    Ok((refusal, end(manager, hands)?))
}

#[test]
fn empty_shutdown(rt: HostRuntime) {
    let seen = hands_of::<Brand, _>(&rt, rt.alloc(), Blank::new(PARTS));
    assert!(rt; seen == Ok((Status::BadRequest, [0, 0, 0])));
}

// The worker carries an operation on, which no instance sees, until it is done.
fn carry_on<L: Ledger, R: Wait>(
    rt: &R,
    alloc: Global,
    manager: &Manager<(), L>,
    hand: &mut Hand<L>,
    operation: OpId,
) -> Result<(), Status> {
    let FlowAction::Base(call) = manager.next(rt, hand, operation)? else {
        return Err(Status::WrongStep);
    };
    let given = Answer {
        status: Status::Success,
        information: 0,
        bytes: Bytes::new(alloc),
    };
    if let Err(refused) = manager.base_returned(rt, hand, call, given) {
        return Err(refused.status);
    }
    match manager.next(rt, hand, operation) {
        Ok(FlowAction::Done) | Err(Status::WrongStep) => Ok(()),
        _ => Err(Status::BadRequest),
    }
}

fn listing() -> Request {
    Request::List {
        volume: VolumeId(0),
    }
}

// One thread's operations: each is begun, carried on and answered.
fn live<L: Ledger, R: Wait>(
    rt: &R,
    alloc: Global,
    manager: &Manager<(), L>,
    hand: &mut Hand<L>,
) -> Result<u32, Status> {
    let mut answers: u32 = 0;
    for _ in 0..ROUNDS {
        let operation = manager.begin(rt, listing())?;
        carry_on(rt, alloc, manager, hand, operation)?;
        if manager.wait_reply(rt, operation)?.status == Status::Success {
            answers = answers.saturating_add(1);
        }
    }
    Ok(answers)
}

fn with_volume<L: Ledger, R: Wait>(
    rt: &R,
    alloc: Global,
    blank: Blank,
) -> Result<Manager<(), L>, Status>
    requires blank { IsBlankOf blank.name blank.parts L.name L.parts }
{
    let manager = Manager::<(), L>::new(alloc, Vec::new(alloc), blank)?;
    manager.mount(rt, Name::read(b"v")?)?;
    Ok(manager)
}

fn two_lives<L: Ledger + Send + Sync, R: Threads + Wait + Sync>(
    rt: &R,
    alloc: Global,
    blank: Blank,
) -> Result<([u32; 2], Numbers), Status>
    requires blank { IsBlankOf blank.name blank.parts L.name L.parts }
{
    let manager = with_volume::<L, R>(rt, alloc, blank)?;
    let mut first = manager.hire(rt)?;
    let mut second = manager.hire(rt)?;
    let (one, other) = thread::join(
        rt,
        || live(rt, alloc, &manager, &mut first),
        || live(rt, alloc, &manager, &mut second),
    );
    let mut hands = Vec::new(alloc);
    hands.push(first)?;
    hands.push(second)?;
    Ok(([one?, other?], end(manager, hands)?))
}

#[test]
fn two_threads(rt: HostRuntime) {
    let seen = two_lives::<Brand, _>(&rt, rt.alloc(), Blank::new(PARTS));
    assert!(rt; seen == Ok(([ROUNDS, ROUNDS], [0, 0, 0])));
}

// How many answers a thread gets that waits for them, while the other one carries the operations on.
fn waits<L: Ledger + Send + Sync, R: Threads + Wait + Sync>(
    rt: &R,
    alloc: Global,
    blank: Blank,
) -> Result<(u32, Numbers), Status>
    requires blank { IsBlankOf blank.name blank.parts L.name L.parts }
{
    let manager = with_volume::<L, R>(rt, alloc, blank)?;
    let mut hand = manager.hire(rt)?;
    let mut answers: u32 = 0;
    for _ in 0..ROUNDS {
        let operation = manager.begin(rt, listing())?;
        let (answer, carried) = thread::join(
            rt,
            || manager.wait_reply(rt, operation),
            || carry_on(rt, alloc, &manager, &mut hand, operation),
        );
        carried?;
        if answer?.status == Status::Success {
            answers = answers.saturating_add(1);
        }
    }
    let mut hands = Vec::new(alloc);
    hands.push(hand)?;
    Ok((answers, end(manager, hands)?))
}

#[test]
fn never_waits_in_vain(rt: HostRuntime) {
    let seen = waits::<Brand, _>(&rt, rt.alloc(), Blank::new(PARTS));
    assert!(rt; seen == Ok((ROUNDS, [0, 0, 0])));
}
