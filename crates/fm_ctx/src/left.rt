//! What a worker's last callback left behind.

ghost use Rattle.std.specs.Prelude.{◌≡◌, ◌≤◌, [], length};

use fm_types::CtxId;
use fm_types::limits::REFERENCES;
use std::marker::Model;

/// The contexts that a worker's last callback still had in its hand as it returned, in the order of the
/// hand: they tell a person who forgot a release. Contracts see the list.
#[derive(Drop)]
pub struct Left {
    ids: [CtxId; REFERENCES],
    len: usize,
}

impl Model for Left {
    ghost use Rattle.std.specs.Prelude.{List, ◌≡◌, ◌≤◌, length, take};
    ghost use Rattle.fm_types.specs.declared.ids.CtxId.{CtxId};

    ghost Value = { List CtxId };

    ghost view = { λ left. take left.len left.ids };

    ghost invariant = { λ left. (left.len ≤ 16) × (length left.ids ≡ 16) };
}

impl Left {
    /// Nothing is left behind.
    pub fn nothing() -> Left
        ensures { result ≡ [] }
    {
        let none = CtxId {
            slot: 0,
            generation: 0,
        };
        Left {
            ids: [none; REFERENCES],
            len: 0,
        }
    }

    /// Notes what is in a hand, in place of what was noted before. It takes no memory.
    pub fn note(&mut self, held: &[CtxId])
        requires { length held.now ≤ 16 }
        ensures { self.new ≡ held.now }
    {
        self.len = held.len();
        if held.is_empty() {
            return;
        }
        self.ids[..held.len()].copy_from_slice(held);
    }

    /// What was noted.
    pub fn ids(&self) -> &[CtxId]
        ensures { result.now ≡ self.now }
    {
        &self.ids[..self.len]
    }
}
