//! The gate's rows, and five threads at one gate.

ghost use Rattle.std.specs.Prelude.{◌≡◌, All, IfSome};
ghost use Rattle.fm_rundown.specs.Seats.{IsSeatOf};

use fm_rundown::{GateSeat, Look, RundownGate};
use fm_types::{Status, VolumeId};
use std::alloc::Global;
use std::process::Abort;
use std::sync::Wait;
use std::sync::atomic::{AtomicU64, Ordering};
use std::thread;
use std::thread::Threads;

const VOLUME: VolumeId = VolumeId(0);

// The last seat of a list.
fn next_seat(gate: &RundownGate, seats: &mut Vec<GateSeat>) -> Option<GateSeat>
    requires { All (λ seat. IsSeatOf gate.now seat) seats.old.items }
    ensures all { All (λ seat. IsSeatOf gate.now seat) seats.new.items }
    ensures next { IfSome result (λ seat. IsSeatOf gate.now seat) }
{
    let _ = gate;
    seats.pop()
}

// A seat goes back to the list.
fn put_back(rt: &impl Abort, gate: &RundownGate, seats: &mut Vec<GateSeat>, seat: GateSeat)
    requires all { All (λ seat. IsSeatOf gate.now seat) seats.old.items }
    requires own { IsSeatOf gate.now seat }
    ensures { All (λ seat. IsSeatOf gate.now seat) seats.new.items }
{
    let _ = gate;
    seats.push(seat).expect(rt, "memory");
}

// What a seat is asked, with what it says.
#[derive(Clone, Copy)]
enum Line {
    Enters(VolumeId, Result<(), Status>),
    Leaves(VolumeId, Result<(), Status>),
    Closes(VolumeId, Result<(), Status>),
    Looks(VolumeId, Result<Look, Status>),
    /// It sees that volume drained.
    Drained(VolumeId),
    /// How many passes it holds.
    Holds(u64),
}

use Line::{Closes, Drained, Enters, Holds, Leaves, Looks};

// The volume that a look finds drained, if it is.
fn seen_drained(gate: &RundownGate, seat: &mut GateSeat, volume: VolumeId) -> Option<VolumeId>
    requires { IsSeatOf gate.now seat.old }
    ensures { IsSeatOf gate.now seat.new }
{
    match gate.look(seat, volume) {
        Ok(Look::Drained(seen)) => Some(seen.volume()),
        _ => None,
    }
}

// Whether the seat says what the line has.
fn is_said(gate: &RundownGate, seat: &mut GateSeat, line: Line) -> bool
    requires { IsSeatOf gate.now seat.old }
    ensures { IsSeatOf gate.now seat.new }
{
    match line {
        Enters(volume, told) => gate.enter(seat, volume) == told,
        Leaves(volume, told) => gate.leave(seat, volume) == told,
        Closes(volume, told) => gate.close(seat, volume) == told,
        Looks(volume, told) => gate.look(seat, volume) == told,
        Drained(volume) => seen_drained(gate, seat, volume) == Some(volume),
        Holds(count) => seat.passes() == count,
    }
}

// Goes through the lines, up to the first at which the seat says something else: that line's number.
fn other_line(gate: &RundownGate, seat: &mut GateSeat, lines: &[Line]) -> Option<usize>
    requires { IsSeatOf gate.now seat.old }
    ensures { IsSeatOf gate.now seat.new }
{
    'lines: for (number, line) in lines.iter().enumerate() {
        if !is_said(gate, seat, *line) {
            return Some(number);
        }
    }
    None
}

// The same a thousand times.
fn other_of_thousand(gate: &RundownGate, seat: &mut GateSeat, lines: &[Line]) -> Option<usize>
    requires { IsSeatOf gate.now seat.old }
    ensures { IsSeatOf gate.now seat.new }
{
    'turns: for _ in 0..1_000 {
        if let Some(number) = other_line(gate, seat, lines) {
            return Some(number);
        }
    }
    None
}

// What the next seat of a list says otherwise.
fn other_of_next(
    rt: &impl Abort,
    gate: &RundownGate,
    seats: &mut Vec<GateSeat>,
    lines: &[Line],
) -> Option<usize>
    requires { All (λ seat. IsSeatOf gate.now seat) seats.old.items }
{
    let mut seat = next_seat(gate, seats).expect(rt, "a seat");
    other_line(gate, &mut seat, lines)
}

const CLOSED: &[Line] = &[
    Looks(VOLUME, Ok(Look::Open)),
    Enters(VOLUME, Ok(())),
    Closes(VOLUME, Ok(())),
    Looks(VOLUME, Ok(Look::Closing)),
];

const REFUSED: &[Line] = &[Enters(VOLUME, Err(Status::Dismounting))];

const DRAINED: &[Line] = &[
    Leaves(VOLUME, Ok(())),
    Drained(VOLUME),
    Leaves(VOLUME, Err(Status::NotHeld)),
];

// A seat enters and closes the volume, another is refused, and the first one leaves: what they say otherwise.
fn others_of_two(
    gate: &RundownGate,
    first: &mut GateSeat,
    second: &mut GateSeat,
) -> [Option<usize>; 3]
    requires { IsSeatOf gate.now first.old × IsSeatOf gate.now second.old }
    ensures { IsSeatOf gate.now first.new × IsSeatOf gate.now second.new }
{
    let closed = other_line(gate, first, CLOSED);
    let refused = other_line(gate, second, REFUSED);
    [closed, refused, other_line(gate, first, DRAINED)]
}

#[test]
fn gate_steps(rt: HostRuntime) {
    let (gate, mut seats) = RundownGate::new(rt.alloc(), 1, 2).expect(&rt, "a gate");
    let mut second = next_seat(&gate, &mut seats).expect(&rt, "two seats");
    let mut first = next_seat(&gate, &mut seats).expect(&rt, "two seats");
    let others = others_of_two(&gate, &mut first, &mut second);
    put_back(&rt, &gate, &mut seats, first);
    put_back(&rt, &gate, &mut seats, second);
    let is_ended = gate.end(seats).is_ok();
    assert_eq!(rt; (others, is_ended), ([None; 3], true));
}

const NO_VOLUME: Status = Status::NoVolume;

const LAST_VOLUME: &[Line] = &[
    Enters(VolumeId(7), Ok(())),
    Enters(VolumeId(8), Err(NO_VOLUME)),
    Leaves(VolumeId(8), Err(NO_VOLUME)),
    Closes(VolumeId(8), Err(NO_VOLUME)),
    Looks(VolumeId(8), Err(NO_VOLUME)),
];

fn refusal(alloc: Global, volumes: usize, seats: usize) -> Option<Status> {
    RundownGate::new(alloc, volumes, seats).err()
}

// No volumes, no seats, a volume too many, and a seat too many.
fn refusals(alloc: Global) -> [Option<Status>; 4] {
    [
        refusal(alloc, 0, 1),
        refusal(alloc, 1, 0),
        refusal(alloc, 9, 1),
        refusal(alloc, 1, 65_537),
    ]
}

#[test]
fn numbers_of_a_gate(rt: HostRuntime) {
    let (gate, mut seats) = RundownGate::new(rt.alloc(), 8, 65_536).expect(&rt, "a gate");
    let count = seats.len();
    let other = other_of_next(&rt, &gate, &mut seats, LAST_VOLUME);
    assert_eq!(rt; (count, other), (65_536, None));
    assert_eq!(rt; refusals(rt.alloc()), [Some(Status::BadRequest); 4]);
}

const ENTERED: &[Line] = &[Enters(VOLUME, Ok(()))];

const FULL: &[Line] = &[
    Enters(VOLUME, Err(Status::TooMany)),
    Holds(1_000),
    Enters(VolumeId(1), Ok(())),
    Closes(VOLUME, Ok(())),
    Enters(VOLUME, Err(Status::Dismounting)),
];

const LEFT: &[Line] = &[Looks(VOLUME, Ok(Look::Closing)), Leaves(VOLUME, Ok(()))];

const EMPTY: &[Line] = &[
    Drained(VOLUME),
    Looks(VolumeId(1), Ok(Look::Open)),
    Holds(1),
];

// A thousand passes are taken and given back: what the seat says otherwise.
fn others(gate: &RundownGate, seat: &mut GateSeat) -> [Option<usize>; 4]
    requires { IsSeatOf gate.now seat.old }
    ensures { IsSeatOf gate.now seat.new }
{
    let entered = other_of_thousand(gate, seat, ENTERED);
    let full = other_line(gate, seat, FULL);
    let left = other_of_thousand(gate, seat, LEFT);
    [entered, full, left, other_line(gate, seat, EMPTY)]
}

#[test]
fn thousand_passes(rt: HostRuntime) {
    let (gate, mut seats) = RundownGate::new(rt.alloc(), 2, 1).expect(&rt, "a gate");
    let mut seat = next_seat(&gate, &mut seats).expect(&rt, "a seat");
    assert_eq!(rt; others(&gate, &mut seat), [None; 4]);
}

// Ends the gate too soon: it comes back with its seats, and with what is said.
fn refused_end(
    rt: &impl Abort,
    gate: RundownGate,
    seats: Vec<GateSeat>,
) -> (RundownGate, Vec<GateSeat>, Status)
    requires { All (λ seat. IsSeatOf gate seat) seats.items }
    ensures gate { result.0 ≡ gate }
    ensures seats { result.1.items ≡ seats.items }
{
    match gate.end(seats) {
        Err(back) => back,
        Ok(()) => panic!(rt; "the gate ended too soon"),
    }
}

const LEAVES: &[Line] = &[Leaves(VOLUME, Ok(()))];

#[test]
fn end_too_soon(rt: HostRuntime) {
    let (gate, mut seats) = RundownGate::new(rt.alloc(), 1, 2).expect(&rt, "a gate");
    let mut seat = next_seat(&gate, &mut seats).expect(&rt, "two seats");
    let entered = other_line(&gate, &mut seat, ENTERED);
    let (gate, mut seats, missing) = refused_end(&rt, gate, seats);
    let one = seats.len();
    put_back(&rt, &gate, &mut seats, seat);
    let (gate, mut seats, held) = refused_end(&rt, gate, seats);
    let two = seats.len();
    let mut seat = next_seat(&gate, &mut seats).expect(&rt, "two seats");
    let left = other_line(&gate, &mut seat, LEAVES);
    put_back(&rt, &gate, &mut seats, seat);
    let is_ended = gate.end(seats).is_ok();
    assert_eq!(rt; (missing, one), (Status::BadRequest, 1));
    assert_eq!(rt; (held, two), (Status::Busy(1), 2));
    assert_eq!(rt; (entered, left, is_ended), (None, None, true));
}

// What the threads of a test share: how many are between `enter` and `leave`, and how often one was.
#[derive(Drop)]
struct Traffic {
    inside: AtomicU64,
    visits: AtomicU64,
}

// Enters and leaves until the volume is found closing.
fn visit<R: Wait>(rt: &R, gate: &RundownGate, traffic: &Traffic, mut seat: GateSeat) -> GateSeat
    requires { IsSeatOf gate.now seat }
    ensures { IsSeatOf gate.now result }
{
    for _ in rt.forever() {
        if gate.enter(&mut seat, VOLUME).is_err() {
            return seat;
        }
        traffic.inside.fetch_add(1, Ordering::SeqCst);
        traffic.visits.fetch_add(1, Ordering::SeqCst);
        traffic.inside.fetch_sub(1, Ordering::SeqCst);
        let _ = gate.leave(&mut seat, VOLUME);
    }
    unreachable!()
}

// Closes the volume after a thousand visits, and looks until it is drained. Gives how many are inside then.
fn close_and_look<R: Wait>(
    rt: &R,
    gate: &RundownGate,
    traffic: &Traffic,
    mut seat: GateSeat,
) -> (GateSeat, u64)
    requires { IsSeatOf gate.now seat }
    ensures { IsSeatOf gate.now result.0 }
{
    'waits: for _ in rt.forever() {
        if traffic.visits.load(Ordering::SeqCst) >= 1_000 {
            break;
        }
        thread::yield_now();
    }
    let _ = gate.close(&mut seat, VOLUME);
    'looks: for _ in rt.forever() {
        if seen_drained(gate, &mut seat, VOLUME) == Some(VOLUME) {
            break;
        }
        thread::yield_now();
    }
    (seat, traffic.inside.load(Ordering::SeqCst))
}

// The seats of two threads.
#[derive(Drop)]
struct Two(GateSeat, GateSeat);

// Two threads that visit.
fn visit_twice<R: Threads + Wait + Sync>(
    rt: &R,
    gate: &RundownGate,
    traffic: &Traffic,
    seats: Two,
) -> Two
    requires { IsSeatOf gate.now seats.0 × IsSeatOf gate.now seats.1 }
    ensures { IsSeatOf gate.now result.0 × IsSeatOf gate.now result.1 }
{
    let Two(one, other) = seats;
    let (one, other) = thread::join(
        rt,
        move ||
            requires { IsSeatOf gate.now one }
            ensures { IsSeatOf gate.entry.now result }
        { visit(rt, gate, traffic, one) },
        move ||
            requires { IsSeatOf gate.now other }
            ensures { IsSeatOf gate.entry.now result }
        { visit(rt, gate, traffic, other) },
    );
    Two(one, other)
}

// Four threads that visit, while a fifth closes and looks. Gives the seats, and how many were inside when the fifth saw the volume drained.
fn rundown<R: Threads + Wait + Sync>(
    rt: &R,
    gate: &RundownGate,
    closer: GateSeat,
    first: Two,
    second: Two,
) -> (u64, GateSeat, Two, Two)
    requires closer { IsSeatOf gate.now closer }
    requires first { IsSeatOf gate.now first.0 × IsSeatOf gate.now first.1 }
    requires second { IsSeatOf gate.now second.0 × IsSeatOf gate.now second.1 }
    ensures closer { IsSeatOf gate.now result.1 }
    ensures first { IsSeatOf gate.now result.2.0 × IsSeatOf gate.now result.2.1 }
    ensures second { IsSeatOf gate.now result.3.0 × IsSeatOf gate.now result.3.1 }
{
    let traffic = Traffic {
        inside: AtomicU64::new(0),
        visits: AtomicU64::new(0),
    };
    let traffic = &traffic;
    let ((closer, inside), (first, second)) = thread::join(
        rt,
        move ||
            requires { IsSeatOf gate.now closer }
            ensures { IsSeatOf gate.entry.now result.0 }
        { close_and_look(rt, gate, traffic, closer) },
        move ||
            requires { IsSeatOf gate.now first.0 × IsSeatOf gate.now first.1 × IsSeatOf gate.now second.0 × IsSeatOf gate.now second.1 }
            ensures { IsSeatOf gate.entry.now result.0.0 × IsSeatOf gate.entry.now result.0.1 × IsSeatOf gate.entry.now result.1.0 × IsSeatOf gate.entry.now result.1.1 }
        {
            thread::join(
                rt,
                move ||
                    requires { IsSeatOf gate.now first.0 × IsSeatOf gate.now first.1 }
                    ensures { IsSeatOf gate.entry.now result.0 × IsSeatOf gate.entry.now result.1 }
                { visit_twice(rt, gate, traffic, first) },
                move ||
                    requires { IsSeatOf gate.now second.0 × IsSeatOf gate.now second.1 }
                    ensures { IsSeatOf gate.entry.now result.0 × IsSeatOf gate.entry.now result.1 }
                { visit_twice(rt, gate, traffic, second) },
            )
        },
    );
    (inside, closer, first, second)
}

// Two seats of a list.
fn next_two(gate: &RundownGate, seats: &mut Vec<GateSeat>) -> Option<Two>
    requires { All (λ seat. IsSeatOf gate.now seat) seats.old.items }
    ensures all { All (λ seat. IsSeatOf gate.now seat) seats.new.items }
    ensures next { IfSome result (λ two. IsSeatOf gate.now two.0 × IsSeatOf gate.now two.1) }
{
    let one = next_seat(gate, seats)?;
    let other = next_seat(gate, seats)?;
    Some(Two(one, other))
}

const ENDED: &[Line] = &[Enters(VOLUME, Err(Status::Dismounting)), Drained(VOLUME)];

// Whether the seat finds the volume drained, before it goes back to the list.
fn other_at_end(
    rt: &impl Abort,
    gate: &RundownGate,
    seats: &mut Vec<GateSeat>,
    mut seat: GateSeat,
) -> Option<usize>
    requires all { All (λ seat. IsSeatOf gate.now seat) seats.old.items }
    requires own { IsSeatOf gate.now seat }
    ensures { All (λ seat. IsSeatOf gate.now seat) seats.new.items }
{
    let other = other_line(gate, &mut seat, ENDED);
    put_back(rt, gate, seats, seat);
    other
}

// The same of two.
fn others_at_end(
    rt: &impl Abort,
    gate: &RundownGate,
    seats: &mut Vec<GateSeat>,
    two: Two,
) -> (Option<usize>, Option<usize>)
    requires all { All (λ seat. IsSeatOf gate.now seat) seats.old.items }
    requires own { IsSeatOf gate.now two.0 × IsSeatOf gate.now two.1 }
    ensures { All (λ seat. IsSeatOf gate.now seat) seats.new.items }
{
    let Two(one, other) = two;
    let first = other_at_end(rt, gate, seats, one);
    (first, other_at_end(rt, gate, seats, other))
}

#[test]
fn four_threads_and_a_close(rt: HostRuntime) {
    let (gate, mut seats) = RundownGate::new(rt.alloc(), 1, 5).expect(&rt, "a gate");
    let closer = next_seat(&gate, &mut seats).expect(&rt, "five seats");
    let first = next_two(&gate, &mut seats).expect(&rt, "five seats");
    let second = next_two(&gate, &mut seats).expect(&rt, "five seats");
    let (inside, closer, first, second) = rundown(&rt, &gate, closer, first, second);
    let closer = other_at_end(&rt, &gate, &mut seats, closer);
    let first = others_at_end(&rt, &gate, &mut seats, first);
    let second = others_at_end(&rt, &gate, &mut seats, second);
    let is_ended = gate.end(seats).is_ok();
    assert_eq!(rt; (inside, is_ended), (0, true));
    assert_eq!(rt; (closer, first, second), (None, (None, None), (None, None)));
}
