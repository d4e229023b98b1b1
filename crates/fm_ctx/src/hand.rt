//! The references to contexts that workers hold.

ghost use Rattle.std.specs.Prelude.{◌≡◌, ◌<◌, ◌≤◌, ◌++◌, ◌∷◌, [], nat_le, length, IfOk, position, slice_set, slice_get, Some};
ghost use Rattle.fm_ctx.specs.Bags.{is_id, holds, without, hand_of};

use fm_types::limits::REFERENCES;
use fm_types::{CtxId, WorkerId};
use std::alloc::{AllocError, Global};
use std::marker::Model;

/// References to contexts, at most 16 of them; one that was taken twice stands there twice. Contracts
/// see the list.
#[derive(Drop)]
pub struct Hand {
    ids: Vec<CtxId>,
}

impl Model for Hand {
    ghost use Rattle.std.specs.Prelude.{List, ◌≤◌, vec_len, vec_capacity};
    ghost use Rattle.fm_types.specs.declared.ids.CtxId.{CtxId};

    ghost Value = { List CtxId };

    ghost view = { λ hand. hand.ids.items };

    ghost invariant = { λ hand. (vec_len hand.ids ≤ 16) × (16 ≤ vec_capacity hand.ids) };
}

/// Whether two ids are the same.
pub fn is_same(a: CtxId, b: CtxId) -> bool
    ensures { result ≡ is_id a b }
{
    b.slot == a.slot && b.generation == a.generation
}

impl Hand {
    /// An empty hand, with room for 16 references; the error says that memory was refused.
    pub fn new(alloc: Global) -> Result<Hand, AllocError>
        ensures { IfOk result (λ hand. hand ≡ []) }
    {
        let ids = Vec::with_capacity(alloc, REFERENCES)?;
        Ok(Hand { ids })
    }

    /// How many references it has.
    pub fn len(&self) -> usize
        ensures count { result ≡ length self.now }
        ensures few { result ≤ 16 }
    {
        self.ids.len()
    }

    /// Whether it has 16 references.
    pub fn is_full(&self) -> bool
        ensures { result ≡ nat_le 16 (length self.now) }
    {
        self.ids.len() >= REFERENCES
    }

    /// The reference that stands first.
    pub fn first(&self) -> Option<CtxId>
        ensures { result ≡ slice_get self.now 0 }
    {
        self.ids.first().copied()
    }

    /// The reference at that place, if it has so many.
    pub fn at(&self, place: usize) -> Option<CtxId>
        ensures { result ≡ slice_get self.now place }
    {
        self.ids.get(place).copied()
    }

    /// The references, in their order.
    pub fn ids(&self) -> &[CtxId]
        ensures same { result.now ≡ self.now }
        ensures few { length self.now ≤ 16 }
    {
        self.ids.as_slice()
    }

    fn place_of(&self, id: CtxId) -> Option<usize>
        ensures { result ≡ position (is_id id) self.now }
    {
        self.ids.iter().position(|held| is_same(id, *held))
    }

    /// Whether it has a reference to that context.
    #[tactic(auto, unfolding(crate::specs::Bags::holds))]
    pub fn holds(&self, id: CtxId) -> bool
        ensures { result ≡ holds self.now id }
    {
        self.ids.iter().any(|held| is_same(id, *held))
    }

    /// Takes one more reference. It takes no memory.
    pub fn push(&mut self, id: CtxId)
        requires { length self.old < 16 }
        ensures { self.new ≡ self.old ++ id ∷ [] }
    {
        self.ids.push_reserved(id);
    }

    /// Gives up one reference to a context. Where it has none nothing changes.
    pub fn take(&mut self, id: CtxId)
        ensures { self.new ≡ without id self.old }
    {
        if let Some(place) = self.place_of(id) {
            self.ids.remove(place);
        }
    }
}

/// Puts one more reference into a worker's hand. It takes no memory.
pub fn put(hands: &mut Vec<Hand>, worker: WorkerId, id: CtxId)
    requires within { worker.0 < length hands.old.items }
    requires room { length (hand_of hands.old.items worker.0) < 16 }
    ensures { hands.new.items ≡ slice_set hands.old.items worker.0 (hand_of hands.old.items worker.0 ++ id ∷ []) }
{
    hands[worker.0 as usize].push(id);
}

/// Takes one reference out of a worker's hand, where one is there.
pub fn take(hands: &mut Vec<Hand>, worker: WorkerId, id: CtxId)
    requires { worker.0 < length hands.old.items }
    ensures { hands.new.items ≡ slice_set hands.old.items worker.0 (without id (hand_of hands.old.items worker.0)) }
{
    hands[worker.0 as usize].take(id);
}
