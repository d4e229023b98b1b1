//! What all hands hold, counted one hand at a time.

ghost use Rattle.std.specs.Prelude.{◌≡◌, ◌+◌, ◌<◌, length};
ghost use Rattle.fm_lock.specs.Views.{held_by};

use crate::hand::Hand;
use std::sync::ledger::{Book, Ledger, Share};

/// Shows that the book is what the hands hold, where they and the share have all parts of the ledger. Each hand lends its part meanwhile, and has it back at
/// the end: nothing changes.
pub(crate) fn audit<L: Ledger>(book: &mut Book<L>, seen: &mut Share<L>, hands: &mut [Hand<L>])
    requires some { 0 < seen.old.parts }
    requires all { seen.old.parts + length hands.old ≡ L.parts }
    ensures total { book.old.total ≡ seen.old.amount + held_by hands.old }
    ensures book { book.new.total ≡ book.old.total }
    ensures seen { (seen.new.parts ≡ seen.old.parts) × (seen.new.amount ≡ seen.old.amount) }
    ensures hands { hands.new ≡ hands.old }
{
    match hands.split_first_mut() {
        None => book.audit(seen),
        Some((hand, others)) => {
            let held = hand.held;
            hand.share.give(seen, 1, held);
            audit(book, seen, others);
            seen.give(&mut hand.share, 1, held);
        }
    }
}
