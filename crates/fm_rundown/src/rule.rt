//! The gate's rule, and what each kind of step tells the seat that makes it.

use crate::view::SeatView;
use atomic_table::{Play, Split, TableRule};

/// The rule, by the number of the gate's seats. The first seat is made with the gate.
pub struct GateRule;

impl TableRule<(), SeatView, usize> for GateRule {
    ghost use Rattle.std.specs.Prelude.{◌-◌};
    ghost use Rattle.fm_rundown.specs.Views.{fresh_seat};
    ghost use Rattle.fm_rundown.specs.Rule.{IsKept};

    ghost holds = { IsKept };

    ghost first = { λ seats. fresh_seat (seats - 1) };
}

/// `enter` adds a pass.
pub struct Entering;

impl Play<(), SeatView> for Entering {
    ghost use Rattle.fm_rundown.specs.Kinds.{enters};
    ghost use Rattle.fm_rundown.specs.Rule.{Tells};

    ghost then = { λ step before found after. Tells enters step.word before found after };
}

/// `enter` takes its pass back.
pub struct Undoing;

impl Play<(), SeatView> for Undoing {
    ghost use Rattle.fm_rundown.specs.Kinds.{undoes};
    ghost use Rattle.fm_rundown.specs.Rule.{Tells};

    ghost then = { λ step before found after. Tells undoes step.word before found after };
}

/// `leave` gives a pass back.
pub struct Leaving;

impl Play<(), SeatView> for Leaving {
    ghost use Rattle.fm_rundown.specs.Kinds.{leaves};
    ghost use Rattle.fm_rundown.specs.Rule.{Tells};

    ghost then = { λ step before found after. Tells leaves step.word before found after };
}

/// `close` sets the closing bit.
pub struct Shutting;

impl Play<(), SeatView> for Shutting {
    ghost use Rattle.fm_rundown.specs.Kinds.{closes};
    ghost use Rattle.fm_rundown.specs.Rule.{Tells};

    ghost then = { λ step before found after. Tells closes step.word before found after };
}

/// `look` reads.
pub struct Looking;

impl Play<(), SeatView> for Looking {
    ghost use Rattle.fm_rundown.specs.Kinds.{looks};
    ghost use Rattle.fm_rundown.specs.Rule.{Tells};

    ghost then = { λ step before found after. Tells looks step.word before found after };
}

/// A seat made of another, while the gate is made.
pub struct Making;

impl Split<SeatView> for Making {
    ghost use Rattle.fm_rundown.specs.Views.{one_made, fresh_seat};

    ghost left = { one_made };

    ghost right = { λ _. fresh_seat 0 };
}
