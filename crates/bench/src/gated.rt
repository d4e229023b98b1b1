//! Passes at the rundown gate.

ghost use Rattle.std.specs.Prelude.{All, IfSome};
ghost use Rattle.fm_rundown.specs.Seats.{IsSeatOf};

use fm_rundown::{GateSeat, RundownGate};
use fm_types::{Status, VolumeId};
use std::alloc::Global;
use std::thread;
use std::thread::Threads;

const VOLUME: VolumeId = VolumeId(0);

// One thread's pairs.
fn work(gate: &RundownGate, mut seat: GateSeat, pairs: u64)
    requires { IsSeatOf gate.now seat }
{
    for _ in 0..pairs {
        if gate.enter(&mut seat, VOLUME).is_ok() {
            let _ = gate.leave(&mut seat, VOLUME);
        }
    }
}

// Two seats.
#[derive(Drop)]
struct Two(GateSeat, GateSeat);

fn work_twice<R: Threads + Sync>(rt: &R, gate: &RundownGate, seats: Two, pairs: u64)
    requires { IsSeatOf gate.now seats.0 × IsSeatOf gate.now seats.1 }
{
    let Two(one, other) = seats;
    thread::join(
        rt,
        move ||
            requires { IsSeatOf gate.now one }
        { work(gate, one, pairs) },
        move ||
            requires { IsSeatOf gate.now other }
        { work(gate, other, pairs) },
    );
}

// The last two seats of a list.
fn next_two(gate: &RundownGate, seats: &mut Vec<GateSeat>) -> Option<Two>
    requires { All (λ seat. IsSeatOf gate.now seat) seats.old.items }
    ensures all { All (λ seat. IsSeatOf gate.now seat) seats.new.items }
    ensures next { IfSome result (λ two. IsSeatOf gate.now two.0 × IsSeatOf gate.now two.1) }
{
    let _ = gate;
    let one = seats.pop()?;
    let other = seats.pop()?;
    Some(Two(one, other))
}

/// So many pairs on one volume, by one thread or by four.
pub fn pairs<R: Threads + Sync>(
    rt: &R,
    alloc: Global,
    is_four: bool,
    pairs: u64,
) -> Result<(), Status> {
    let (gate, mut seats) = RundownGate::new(alloc, 1, 4)?;
    let gate = &gate;
    let (Some(first), Some(second)) = (next_two(gate, &mut seats), next_two(gate, &mut seats))
    else {
        return Err(Status::TooMany);
    };
    if is_four {
        let each = pairs / 4;
        thread::join(
            rt,
            move ||
                requires { IsSeatOf gate.now first.0 × IsSeatOf gate.now first.1 }
            { work_twice(rt, gate, first, each) },
            move ||
                requires { IsSeatOf gate.now second.0 × IsSeatOf gate.now second.1 }
            { work_twice(rt, gate, second, each) },
        );
    } else {
        let Two(one, _) = first;
        work(gate, one, pairs);
    }
    Ok(())
}
