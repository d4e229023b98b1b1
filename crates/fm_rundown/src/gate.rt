//! The gate itself.

ghost use Rattle.std.specs.Prelude.{◌≤◌};

use crate::rule::GateRule;
use crate::view::SeatView;
use atomic_table::Table;
use std::alloc::Global;

/// How many seats a gate has at most.
pub const MAX_SEATS: usize = 65_536;

/// A count of passes for each volume, without a lock, that can be closed and seen drained (`EX_RUNDOWN_REF`). Seats share it by reference
/// among threads.
#[derive(Drop)]
pub struct RundownGate {
    pub(crate) table: Table<(), SeatView, usize, GateRule, Global>,
    pub(crate) volumes: u8,
    pub(crate) seats: usize,
    ghost few: { (volumes ≤ 8) × (seats ≤ 65536) },
}
