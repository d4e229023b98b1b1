//! How a context is kept: the entry of its slot.

ghost use Rattle.std.specs.Prelude.{◌≡◌, ℕ, ◌+◌, ◌≤◌, length, Some};
ghost use Rattle.fm_ctx.specs.Counting.{is_open, is_open_on};
ghost use Rattle.fm_ctx.specs.Bodies.{raised as raised_number, with_number};
ghost use Rattle.fm_ctx.specs.Stored.{context_in_entry};

use crate::object::Object;
use crate::owner::Owner;
use fm_types::{ContextKind, VolumeId};

/// A context, from when it is allocated until it is cleaned up.
#[derive(Drop)]
pub struct Entry {
    pub kind: ContextKind,
    pub owner: Owner,
    pub volume: VolumeId,
    pub body: Vec<u8>,
    pub link: Option<Object>,
    pub count: u64,
    pub carried: u64,
    /// The context is cleaned, and its slot had its last generation: the entry stays, so that the slot
    /// isn't used again.
    pub is_retired: bool,
}

impl Entry {
    /// Whether it is a context of that owner that isn't cleaned.
    pub fn is_open_of(&self, owner: Owner) -> bool
        ensures { result ≡ is_open owner (context_in_entry self.now) }
    {
        !self.is_retired && owner.is(self.owner)
    }

    /// Whether it is a volume context that was allocated on that volume and isn't cleaned.
    pub fn is_open_on(&self, volume: VolumeId) -> bool
        ensures { result ≡ is_open_on volume (context_in_entry self.now) }
    {
        !self.is_retired && matches!(self.kind, ContextKind::Volume) && self.volume.0 == volume.0
    }
}

/// Adds to the number at a place of a body, modulo 2^64, and gives the sum.
pub fn bump_number(body: &mut Vec<u8>, place: usize, by: u64) -> u64
    requires { place + 8 ≤ length body.old.items }
    ensures sum { result ≡ raised_number place by body.old.items }
    ensures rest { body.new.items ≡ with_number place result body.old.items }
{
    let mut bytes = [0; 8];
    bytes.copy_from_slice(&body[place..place + 8]);
    let sum = u64::from_be_bytes(bytes).wrapping_add(by);
    body[place..place + 8].copy_from_slice(&sum.to_be_bytes());
    sum
}
