//! Whose hands are out.

ghost use Rattle.std.specs.Prelude.{◌≡◌, false, not};
ghost use Rattle.std.specs.List.{list_all};
ghost use Rattle.fm_lock.specs.Hired.{are_hired};

use crate::hand::Hand;
use fm_types::limits::WORKERS;
use std::sync::ledger::Ledger;

/// Whether no hand is out.
fn is_nobody_out(hired: &[bool; WORKERS]) -> bool
    ensures { result ≡ list_all not hired.now }
{
    hired.iter().all(|is_out| !*is_out)
}

/// Whether the hands are those that are out, each once. It marks each that it meets as in.
pub(crate) fn are_hired<L: Ledger>(hired: &mut [bool; WORKERS], hands: &[Hand<L>]) -> bool
    ensures { result ≡ are_hired hired.old hands.now }
{
    match hands.split_first() {
        None => is_nobody_out(hired),
        Some((hand, others)) => {
            let worker = usize::from(hand.worker().0);
            if worker >= WORKERS || !hired[worker] {
                return false;
            }
            hired[worker] = false;
            are_hired(hired, others)
        }
    }
}
