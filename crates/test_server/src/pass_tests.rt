//! Each operation stands between its entry at the gate before a volume and its end there.

ghost use Rattle.std.specs.Prelude.{All, IfSome};
ghost use Rattle.fm_rundown.specs.Seats.{IsSeatOf};

use fm_callback_data::{Reply, Request};
use fm_rundown::{GateSeat, Look, RundownGate};
use fm_server::{Exec, guarded, status_reply};
use fm_types::{Status, VolumeId};
use fm_wire::Control;
use std::alloc::Global;

/// The only volume.
const VOLUME: VolumeId = VolumeId(0);

/// Closes the volume while it answers, by a seat of its own, and notes what a look says then and how often it answered.
#[derive(Drop)]
struct Closing<'a> {
    alloc: Global,
    gate: &'a RundownGate,
    seat: GateSeat,
    seen: Option<Look>,
    answers: u32,
    ghost own: { IsSeatOf gate.now seat },
}

impl Exec for Closing<'_> {
    ghost use Rattle.std.specs.Prelude.{⊤};

    ghost operates = { λ _ _ _ _. ⊤ };

    ghost controls = { λ _ _ _ _. ⊤ };

    fn operate(&mut self, _request: Request) -> Reply {
        let _ = self.gate.close(&mut self.seat, VOLUME);
        self.seen = self.gate.look(&mut self.seat, VOLUME).ok();
        self.answers = self.answers.saturating_add(1);
        status_reply(self.alloc, Status::Success)
    }

    fn control(&mut self, _control: Control) -> Reply {
        status_reply(self.alloc, Status::BadRequest)
    }
}

fn listing() -> Request {
    Request::List { volume: VOLUME }
}

fn status_in(said: Reply) -> Option<Status> {
    match said {
        Reply::Done { status, .. } => Some(status),
        _ => None,
    }
}

// Takes a seat at the gate.
fn take_seat(gate: &RundownGate, seats: &mut Vec<GateSeat>) -> Option<GateSeat>
    requires own { All (λ seat. IsSeatOf gate.now seat) seats.old.items }
    ensures own { All (λ seat. IsSeatOf gate.now seat) seats.new.items }
    ensures taken { IfSome result (λ seat. IsSeatOf gate.now seat) }
{
    seats.pop()
}

/// What two operations are answered, what was seen while the first one was, what is seen after it, and how often the exec answered.
#[derive(Clone, Copy)]
struct Seen {
    first: Option<Status>,
    second: Option<Status>,
    during: Option<Look>,
    after: Option<Look>,
    answers: u32,
}

// Two listings; the volume is closed while the first one is answered.
fn two_listings(alloc: Global) -> Result<Seen, Status> {
    let (gate, mut seats) = RundownGate::new(alloc, 1, 2)?;
    let Some(mut own) = take_seat(&gate, &mut seats) else {
        return Err(Status::TooMany);
    };
    let Some(seat) = take_seat(&gate, &mut seats) else {
        return Err(Status::TooMany);
    };
    let mut exec = Closing {
        alloc,
        gate: &gate,
        seat,
        seen: None,
        answers: 0,
    };
    let first = guarded(alloc, &gate, &mut own, VOLUME, &mut exec, listing());
    let after = gate.look(&mut own, VOLUME).ok();
    let second = guarded(alloc, &gate, &mut own, VOLUME, &mut exec, listing());
    Ok(Seen {
        first: status_in(first),
        second: status_in(second),
        during: exec.seen,
        after,
        answers: exec.answers,
    })
}

#[test]
fn pass_brackets(rt: HostRuntime) {
    let seen = two_listings(rt.alloc()).expect(&rt, "a gate of two seats");
    assert!(rt; seen.first == Some(Status::Success) && seen.second == Some(Status::Dismounting));
    assert!(rt;
        matches!(seen.during, Some(Look::Closing)) && matches!(seen.after, Some(Look::Drained(_)))
    );
    assert!(rt; seen.answers == 1);
}
