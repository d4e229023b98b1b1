//! The seats of all linked contexts, by slot and in chains.

ghost use Rattle.std.specs.Prelude.{◌≡◌, ◌+◌, ◌<◌, ◌≤◌, ◌++◌, ◌∷◌, [], true, None, Some, length, slice_index_or, slice_set, position, count_by, vec_capacity, IfSome, IfOk};
ghost use Rattle.fm_ctx.specs.Sweep.{seat_passes};
ghost use Rattle.fm_ctx.specs.Seats.{is_seat, stands, last_below, end_of, IsAbove, firsts_led, nexts_led};

use crate::seat::{CHAINS, Links, Seat};
use fm_types::limits::CONTEXTS;
use std::alloc::{AllocError, Global};
use std::marker::Model;

/// Which slot has which seat. Each seat is on a chain, and a chain leads through its slots from the
/// highest to the lowest, so that it never comes back to one. There is room for 65,536 slots from the
/// start: no call after `new` takes memory. A `HashMap` wouldn't do, since it promises no room for a
/// key where another one was removed. Contracts see the seat of each slot.
#[derive(Drop)]
pub struct Seats {
    firsts: Vec<Option<u32>>,
    nexts: Vec<Option<u32>>,
    seats: Vec<Option<Seat>>,
}

impl Model for Seats {
    ghost use Rattle.std.specs.Prelude.{List, Option, vec_capacity};
    ghost use Rattle.fm_ctx.specs.declared.seat.Seat.{Seat};

    ghost Value = { List (Option Seat) };

    ghost use Rattle.fm_ctx.specs.Seats.{IsSeating};

    ghost view = { λ s. s.seats.items };

    ghost invariant = { λ s. IsSeating s.firsts.items s.nexts.items s.seats.items (vec_capacity s.nexts) (vec_capacity s.seats) };
}

// What a slot leads to, or the chain itself where no slot is above, is from now on this slot or none.
fn lead(
    firsts: &mut Vec<Option<u32>>,
    nexts: &mut Vec<Option<u32>>,
    chain: usize,
    above: Option<u32>,
    slot: Option<u32>,
)
    requires chain { chain < length firsts.old.items }
    requires above { IfSome above (λ a. a < length nexts.old.items) }
    ensures firsts { firsts.new.items ≡ firsts_led firsts.old.items chain above slot }
    ensures nexts { nexts.new.items ≡ nexts_led nexts.old.items above slot }
    ensures room { vec_capacity nexts.new ≡ vec_capacity nexts.old }
{
    match above {
        None => firsts[chain] = slot,
        Some(place) => nexts[place as usize] = slot,
    }
}

impl Seats {
    /// No slots; the error says that memory was refused.
    pub fn new(alloc: Global) -> Result<Seats, AllocError>
        ensures { IfOk result (λ seats. seats ≡ []) }
    {
        Ok(Seats {
            firsts: vec![in alloc; None; CHAINS]?,
            nexts: Vec::with_capacity(alloc, CONTEXTS)?,
            seats: Vec::with_capacity(alloc, CONTEXTS)?,
        })
    }

    /// One more slot, with no seat.
    pub fn add(&mut self)
        requires { length self.old < 65536 }
        ensures { self.new ≡ self.old ++ None ∷ [] }
    {
        self.nexts.push_reserved(None);
        self.seats.push_reserved(None);
    }

    /// The slot that has a seat.
    pub fn find(&self, seat: Seat) -> Option<u32>
        requires { count_by (is_seat seat) self.now ≤ 1 }
        ensures { result ≡ position (is_seat seat) self.now }
    {
        let mut next = self.firsts[seat.chain()];
        while let Some(slot) = next {
            if self.has(slot, seat) {
                return next;
            }
            next = self.nexts[slot as usize];
        }
        None
    }

    /// Whether a slot has a seat on that object, or of that owner.
    pub fn is_among(&self, slot: usize, links: Links) -> bool
        requires { slot < length self.now }
        ensures { result ≡ seat_passes links (slice_index_or self.now slot None) }
    {
        let Some(seat) = self.seats[slot] else {
            return false;
        };
        seat.is_among(links)
    }

    fn has(&self, slot: u32, seat: Seat) -> bool
        requires { slot < length self.now }
        ensures { result ≡ is_seat seat (slice_index_or self.now slot None) }
    {
        let Some(other) = self.seats[slot as usize] else {
            return false;
        };
        seat.is(other)
    }

    // The lowest slot of a chain that is above another slot.
    fn above(&self, chain: usize, slot: u32) -> Option<u32>
        requires { chain < 4096 }
        ensures { IsAbove (stands self.now chain) slot (length self.now) result }
    {
        let mut above = None;
        let mut next = self.firsts[chain];
        while let Some(place) = next {
            if place <= slot {
                return above;
            }
            above = Some(place);
            next = self.nexts[place as usize];
        }
        above
    }

    /// What a slot of a chain leads to, or the chain itself.
    pub fn after(&self, chain: usize, above: Option<u32>) -> Option<u32>
        requires chain { chain < 4096 }
        requires above { IfSome above (λ a. (a < length self.now) × (stands self.now chain a ≡ true)) }
        ensures { result ≡ last_below (stands self.now chain) (end_of above (length self.now)) }
    {
        match above {
            None => self.firsts[chain],
            Some(place) => self.nexts[place as usize],
        }
    }

    /// A slot that has no seat gets one.
    pub fn put(&mut self, slot: u32, seat: Seat)
        requires within { slot < length self.old }
        requires free { slice_index_or self.old slot None ≡ None }
        ensures { self.new ≡ slice_set self.old slot (Some seat) }
    {
        let chain = seat.chain();
        let above = self.above(chain, slot);
        let next = self.after(chain, above);
        self.nexts[slot as usize] = next;
        self.seats[slot as usize] = Some(seat);
        lead(&mut self.firsts, &mut self.nexts, chain, above, Some(slot));
    }

    /// A slot loses its seat, if it has one.
    pub fn take(&mut self, slot: u32)
        requires { slot < length self.old }
        ensures { self.new ≡ slice_set self.old slot None }
    {
        let Some(seat) = self.seats[slot as usize] else {
            return;
        };
        let chain = seat.chain();
        let above = self.above(chain, slot);
        let next = self.nexts[slot as usize];
        self.seats[slot as usize] = None;
        lead(&mut self.firsts, &mut self.nexts, chain, above, next);
    }
}
