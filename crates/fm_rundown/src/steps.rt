//! The steps: each is one atomic exchange on a volume's word.

ghost use Rattle.std.specs.Prelude.{◌≡◌, ◌<◌};
ghost use Rattle.fm_rundown.specs.Views.{most_volumes, volume_of, fresh_seat, one_made};
ghost use Rattle.fm_rundown.specs.Kinds.{enters, undoes, leaves, closes, looks};
ghost use Rattle.fm_rundown.specs.Rule.{Tells};
ghost use Rattle.fm_rundown.specs.Tables.{IsAt};

use crate::rule::{Entering, GateRule, Leaving, Looking, Making, Shutting, Undoing};
use crate::view::SeatView;
use atomic_table::Seat;

/// The gate's words, as the seats step on them.
pub type Shared = atomic_table::Shared<(), SeatView, usize, GateRule>;

/// Adds a pass, and gives the word that it found.
pub fn add(shared: &Shared, seat: &mut Seat<(), SeatView>, volume: usize) -> u64
    requires own { IsAt shared.now.table_id seat.old }
    requires volume { volume < most_volumes }
    requires may { enters.may (volume_of volume seat.old.me.0) }
    ensures own { IsAt shared.now.table_id seat.new }
    ensures tells { Tells enters volume seat.old.me result seat.new.me }
{
    shared.fetch_add::<Entering>(seat, volume, 2)
}

/// Takes back the pass that was added in vain.
pub fn undo(shared: &Shared, seat: &mut Seat<(), SeatView>, volume: usize) -> u64
    requires own { IsAt shared.now.table_id seat.old }
    requires volume { volume < most_volumes }
    requires may { undoes.may (volume_of volume seat.old.me.0) }
    ensures own { IsAt shared.now.table_id seat.new }
    ensures tells { Tells undoes volume seat.old.me result seat.new.me }
{
    shared.fetch_sub::<Undoing>(seat, volume, 2)
}

/// Gives a pass back.
pub fn release(shared: &Shared, seat: &mut Seat<(), SeatView>, volume: usize) -> u64
    requires own { IsAt shared.now.table_id seat.old }
    requires volume { volume < most_volumes }
    requires may { leaves.may (volume_of volume seat.old.me.0) }
    ensures own { IsAt shared.now.table_id seat.new }
    ensures tells { Tells leaves volume seat.old.me result seat.new.me }
{
    shared.fetch_sub::<Leaving>(seat, volume, 2)
}

/// Sets the closing bit.
pub fn shut(shared: &Shared, seat: &mut Seat<(), SeatView>, volume: usize) -> u64
    requires own { IsAt shared.now.table_id seat.old }
    requires volume { volume < most_volumes }
    ensures own { IsAt shared.now.table_id seat.new }
    ensures tells { Tells closes volume seat.old.me result seat.new.me }
{
    shared.fetch_or::<Shutting>(seat, volume, 1)
}

/// Reads the word.
pub fn read(shared: &Shared, seat: &mut Seat<(), SeatView>, volume: usize) -> u64
    requires own { IsAt shared.now.table_id seat.old }
    requires volume { volume < most_volumes }
    ensures own { IsAt shared.now.table_id seat.new }
    ensures tells { Tells looks volume seat.old.me result seat.new.me }
{
    shared.load::<Looking>(seat, volume)
}

/// Makes another seat, while the gate is made.
pub fn make(shared: &Shared, seat: &mut Seat<(), SeatView>) -> Seat<(), SeatView>
    requires own { IsAt shared.now.table_id seat.old }
    requires some { 0 < (seat.old.me.0).to_make }
    ensures own { IsAt shared.now.table_id seat.new × IsAt shared.now.table_id result }
    ensures left { seat.new.me.0 ≡ one_made seat.old.me.0 }
    ensures made { result.me.0 ≡ fresh_seat 0 }
{
    shared.split_seat::<Making>(seat)
}
