//! A seat at the gate.

ghost use Rattle.std.specs.Prelude.{◌≡◌};
ghost use Rattle.fm_rundown.specs.Views.{fresh_seat};
ghost use Rattle.fm_rundown.specs.Rest.{IsAtRest};

use crate::view::SeatView;
use atomic_table::Seat;
use fm_types::limits::VOLUMES;

/// The right to hold passes, for one thread at a time, at the gate that it was made with. It counts the passes of each volume that it
/// holds. One that is dropped with a pass keeps the volume from ever being drained.
#[derive(Drop)]
pub struct GateSeat {
    pub(crate) seat: Seat<(), SeatView>,
    pub(crate) held: [u16; VOLUMES],
    ghost at_rest: { IsAtRest held seat.me.0 },
}

impl GateSeat {
    // A seat with no pass.
    pub(crate) fn fresh(seat: Seat<(), SeatView>) -> GateSeat
        requires { seat.me.0 ≡ fresh_seat 0 }
        ensures { result.seat ≡ seat }
    {
        GateSeat {
            seat,
            held: [0; VOLUMES],
        }
    }
}
