//! What a thread of the server has to itself.

ghost use Rattle.fm_rundown.specs.Seats.{IsSeatOf};

use fm_rundown::{GateSeat, RundownGate};
use fm_worker::{NoHook, Worker};

/// A thread's worker at the server's manager.
pub(crate) type ServerWorker<'a, F, L, R, D> = Worker<'a, F, L, R, NoHook, D>;

/// A seat at the rundown gate of the volumes, with its gate.
#[derive(Drop)]
pub(crate) struct VolumeSeat<'a> {
    pub(crate) rundown: &'a RundownGate,
    pub(crate) seat: GateSeat,
    ghost own: { IsSeatOf rundown.now seat },
}

impl<'a> VolumeSeat<'a> {
    /// A seat of that gate.
    pub(crate) fn new(rundown: &'a RundownGate, seat: GateSeat) -> VolumeSeat<'a>
        requires { IsSeatOf rundown.now seat }
    {
        VolumeSeat { rundown, seat }
    }
}
