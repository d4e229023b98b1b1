//! An operation that is answered under a pass of its volume, so that a dismount can wait until no request of it is under way.

ghost use Rattle.fm_rundown.specs.Seats.{IsSeatOf, view_of};
ghost use Rattle.fm_server.specs.Guards.{Guarded, KeepsPasses};

use crate::exec::Exec;
use crate::replies::status_reply;
use fm_callback_data::{Reply, Request};
use fm_rundown::{GateSeat, RundownGate};
use fm_types::VolumeId;
use std::alloc::Global;

/// Has the exec answer the operation under a pass of the volume, which is given back before this returns (`ExAcquireRundownProtection` and
/// `ExReleaseRundownProtection` around a request). The exec is asked exactly if the gate gives the pass, and its answer is the reply. If the gate
/// refuses it, that refusal is the reply and the exec isn't asked: 7 (`NoVolume`)
/// if the gate has no such volume, 33 (`Dismounting`) if it was found closing, as it is ever after the seat has seen that, 29 (`TooMany`) if the
/// seat holds all its passes of the volume. The seat's passes are as before. The seat is one of this gate's.
#[tactic(auto, using(crate::proofs::Entering::enter_refused))]
pub fn guarded<E: Exec>(
    alloc: Global,
    gate: &RundownGate,
    seat: &mut GateSeat,
    volume: VolumeId,
    exec: &mut E,
    request: Request,
) -> Reply
    requires own { IsSeatOf gate.now seat.old }
    ensures own { IsSeatOf gate.now seat.new }
    ensures passes { KeepsPasses (view_of seat.old) (view_of seat.new) }
    ensures guarded { Guarded E.operates gate.now volume.0 (view_of seat.old) exec.old request result (view_of seat.new) exec.new }
{
    match gate.enter(seat, volume) {
        Ok(()) => {
            let answer = exec.operate(request);
            let _ = gate.leave(seat, volume);
            answer
        }
        Err(status) => status_reply(alloc, status),
    }
}
