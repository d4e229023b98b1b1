//! A worker's hand.

ghost use Rattle.std.specs.Prelude.{◌≡◌, ◌+◌};

use fm_types::WorkerId;
use std::marker::Model;
use std::sync::ledger::{Book, Ledger, Share};

/// The right to make one worker's events, and the number of references that the worker holds. It is one part of the manager's ledger: the numbers of all
/// hands add up to what the manager's book has.
#[derive(Drop)]
pub struct Hand<L: Ledger> {
    pub(crate) worker: WorkerId,
    pub(crate) held: u64,
    pub(crate) share: Share<L>,
}

impl<L: Ledger> Model for Hand<L> {
    ghost use Rattle.fm_lock.specs.Views.{HandView, IsHand};

    ghost Value = { HandView };

    ghost view = { λ h. record { worker = h.worker; held = h.held } };

    ghost invariant = { λ h. IsHand (record { worker = h.worker; held = h.held }) h.share.parts h.share.amount };
}

impl<L: Ledger> Hand<L> {
    /// Whose hand it is.
    pub fn worker(&self) -> WorkerId
        ensures { result ≡ self.now.worker }
    {
        self.worker
    }

    /// How many references the worker holds.
    pub fn held(&self) -> u64
        ensures { result ≡ self.now.held }
    {
        self.held
    }

    /// Notes that the worker holds so many from now on, here and in the book.
    pub(crate) fn settle(&mut self, book: &mut Book<L>, now: u64)
        ensures total { book.new.total + self.old.held ≡ book.old.total + now }
        ensures hand { self.new ≡ record self.old { held = now } }
    {
        if now > self.held {
            book.add(&mut self.share, now - self.held);
        } else {
            book.sub(&mut self.share, self.held - now);
        }
        self.held = now;
    }
}
