//! Whose postoperations are owed.

ghost use Rattle.std.specs.Prelude.{◌≡◌, ◌<◌, [], ◌∷◌, length, drop, reverse, slice_get, Some, if◌then◌else◌};
ghost use Rattle.std.specs.List.{remove};

use fm_types::limits::LIVE;
use smallvec::SmallVec;
use std::alloc::Global;
use std::marker::Model;

/// The places of the entries that ask for a postoperation and had none: what comes next is on top.
#[derive(Drop)]
pub(crate) struct OwedStack {
    places: SmallVec<u8, LIVE>,
}

impl Model for OwedStack {
    ghost use Rattle.std.specs.Prelude.{◌≡◌, ℕ, List, reverse};

    ghost Value = { List ℕ };

    ghost view = { λ o. reverse o.places.items };

    ghost invariant = { λ o. o.places.capacity ≡ 32 };
}

impl OwedStack {
    /// Nothing is owed. It takes no memory.
    pub(crate) fn new(alloc: Global) -> OwedStack
        ensures { result ≡ [] }
    {
        OwedStack {
            places: SmallVec::new(alloc),
        }
    }

    /// The place of the one that comes next.
    pub(crate) fn top(&self) -> Option<usize>
        ensures { result ≡ slice_get self.now 0 }
    {
        self.places.as_slice().last().map(|place| *place as usize)
    }

    /// One more, if it asks.
    pub(crate) fn note(&mut self, asks: bool, place: usize)
        requires room { length self.old < 32 }
        requires small { place < 256 }
        ensures { self.new ≡ (if asks then place ∷ self.old else self.old) }
    {
        if asks {
            self.places.push_reserved(place as u8);
        }
    }

    /// The one that comes next had its answer.
    pub(crate) fn pop(&mut self)
        ensures { self.new ≡ drop 1 self.old }
    {
        self.places.pop();
    }

    /// The places, from the one that comes last to the one that comes next.
    pub(crate) fn places(&self) -> &[u8]
        ensures { reverse result.now ≡ self.now }
    {
        self.places.as_slice()
    }

    /// The one so deep below the top had its answer. Gives its place.
    pub(crate) fn remove(&mut self, depth: usize) -> usize
        requires { depth < length self.old }
        ensures place { slice_get self.old depth ≡ Some result }
        ensures others { self.new ≡ remove self.old depth }
    {
        let place = self.places.len() - 1 - depth;
        self.places.remove(place) as usize
    }
}
