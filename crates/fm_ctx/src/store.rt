//! Where the contexts stand: the rows of all slots.

ghost use Rattle.std.specs.Prelude.{◌≡◌, ◌==◌, ℕ, ◌+◌, ◌-◌, ◌^◌, ◌<◌, ◌≤◌, not, false, [], length, slice_index_or, Some, None, IfOk, OnErr, option_copied, count_by};
ghost use Rattle.fm_types.specs.Lists.{updated};
ghost use Rattle.fm_ctx.specs.Counting.{is_open, is_open_on, was_given};
ghost use Rattle.fm_ctx.specs.Bodies.{raised as raised_number, with_number};
ghost use Rattle.fm_ctx.specs.Births.{has_free_slot, last_generation};
ghost use Rattle.fm_ctx.specs.Rows.{Row, IsOpenAt, IsPut, slot_of, slots_of, row_at, raised, lowered, carried_away, brought_back, linked_row, unlinked_row, cleaned_row, row_with};
ghost use Rattle.fm_ctx.specs.Stored.{IsNextOf, open_row, named_row};

use crate::entry::{Entry, bump_number};
use crate::generations::next_generation;
use crate::object::Object;
use crate::owner::Owner;
use fm_types::limits::CONTEXTS;
use fm_types::{CtxId, VolumeId};
use slab::Slab;
use std::alloc::{AllocError, Global};
use std::marker::Model;
use std::mem;

/// The slots: what context each has, until that is cleaned up, and the generation that it was given
/// last. A slot that had its last generation keeps its entry, so that the slab never picks it again.
/// Contracts see a row for each slot.
#[derive(Drop)]
pub struct Rows {
    slots: Slab<Entry>,
    lasts: Vec<u32>,
}

impl Model for Rows {
    ghost use Rattle.std.specs.Prelude.{List};
    ghost use Rattle.fm_ctx.specs.Rows.{Row as KeptRow};

    ghost Value = { List KeptRow };

    ghost use Rattle.fm_ctx.specs.Stored.{rows_in, IsStored};

    ghost view = { λ r. rows_in r.slots.slots r.lasts.items };

    ghost invariant = { λ r. IsStored r.slots.slots r.lasts.items };
}

// The generation that a free slot gets now, or a new slot. The error says that memory was refused, and
// nothing changed.
fn next_of(lasts: &mut Vec<u32>, slot: usize) -> Result<u32, AllocError>
    requires { slot < length lasts.old.items → slice_index_or lasts.old.items slot 0 < last_generation }
    ensures ok { IfOk result (IsNextOf lasts.old.items lasts.new.items slot) }
    ensures err { OnErr result (lasts.new.items ≡ lasts.old.items) }
{
    if slot < lasts.len() {
        let Some(generation) = next_generation(lasts[slot]) else {
            unreachable!()
        };
        lasts[slot] = generation;
        return Ok(generation);
    }
    // The slab picks a free slot, or the next new one if none is free. Its contract leaves other keys
    // open, so they are refused, but its body never picks one.
    if slot > lasts.len() || slot >= CONTEXTS {
        return Err(AllocError);
    }
    lasts.push(0)?;
    Ok(0)
}

impl Rows {
    /// No slots.
    pub fn new(alloc: Global) -> Rows
        ensures { result ≡ [] }
    {
        Rows {
            slots: Slab::new(alloc),
            lasts: Vec::new(alloc),
        }
    }

    /// How many slots there are.
    pub fn len(&self) -> usize
        ensures { result ≡ length self.now }
    {
        self.lasts.len()
    }

    /// Whether no slot may be used again.
    pub fn has_none_free(&self) -> bool
        ensures { result ≡ not (has_free_slot (slots_of self.now)) }
    {
        self.slots.len() == self.lasts.len()
    }

    /// Puts a context into a free slot, with its next generation, or into a new slot. The error says
    /// that memory was refused, and nothing changed; no other call takes memory.
    pub fn put(&mut self, entry: Entry) -> Result<CtxId, AllocError>
        requires opens { entry.is_retired ≡ false }
        ensures ok { IfOk result (IsPut self.old self.new (open_row 0 entry)) }
        ensures err { OnErr result (self.new ≡ self.old) }
    {
        self.slots.reserve(1)?;
        let slot = self.slots.vacant_key();
        let generation = next_of(&mut self.lasts, slot)?;
        self.slots.insert_reserved(entry);
        Ok(CtxId {
            slot: slot as u32,
            generation,
        })
    }

    /// The generation that a slot was given last.
    pub fn generation(&self, slot: usize) -> u32
        requires { slot < length self.now }
        ensures { (d : Row) → result ≡ (slice_index_or self.now slot d).generation }
    {
        self.lasts[slot]
    }

    /// The context of a slot.
    pub fn entry(&self, slot: usize) -> &Entry
        requires { IsOpenAt self.now slot }
        ensures { (d : Row) → slice_index_or self.now slot d ≡ open_row (slice_index_or self.now slot d).generation result.now }
    {
        &self.slots[slot]
    }

    /// The context that an id names, if it isn't cleaned.
    pub fn named(&self, id: CtxId) -> Option<&Entry>
        ensures { named_row id (option_copied result) ≡ row_at self.now id }
    {
        let slot = id.slot as usize;
        let Some(entry) = self.slots.get(slot) else {
            return None;
        };
        if entry.is_retired || id.generation != self.lasts[slot] {
            return None;
        }
        Some(entry)
    }

    /// How many contexts of an owner aren't cleaned.
    pub fn open_of(&self, owner: Owner) -> usize
        ensures { result ≡ count_by (λ (r : Row). is_open owner (slot_of r).context) self.now }
    {
        let mut count = 0;
        for slot in 0..self.len() {
            if self.is_open_of(slot, owner) {
                count += 1;
            }
        }
        count
    }

    /// How many volume contexts that were allocated on a volume aren't cleaned.
    pub fn open_on(&self, volume: VolumeId) -> usize
        ensures { result ≡ count_by (λ (r : Row). is_open_on volume (slot_of r).context) self.now }
    {
        let mut count = 0;
        for slot in 0..self.len() {
            if self.is_open_on(slot, volume) {
                count += 1;
            }
        }
        count
    }

    fn is_open_of(&self, slot: usize, owner: Owner) -> bool
        requires { slot < length self.now }
        ensures { (d : Row) → result ≡ is_open owner (slot_of (slice_index_or self.now slot d)).context }
    {
        let Some(entry) = self.slots.get(slot) else {
            return false;
        };
        entry.is_open_of(owner)
    }

    fn is_open_on(&self, slot: usize, volume: VolumeId) -> bool
        requires { slot < length self.now }
        ensures { (d : Row) → result ≡ is_open_on volume (slot_of (slice_index_or self.now slot d)).context }
    {
        let Some(entry) = self.slots.get(slot) else {
            return false;
        };
        entry.is_open_on(volume)
    }

    /// Whether a context was given that id.
    pub fn was_given(&self, id: CtxId) -> bool
        ensures { result ≡ was_given (slots_of self.now) id }
    {
        let slot = id.slot as usize;
        if slot >= self.lasts.len() {
            return false;
        }
        id.generation <= self.lasts[slot]
    }
}

// Changes of one row.
impl Rows {
    /// One more reference to the context of a slot.
    pub fn raise(&mut self, slot: usize)
        requires there { IsOpenAt self.old slot }
        requires fits { (d : Row) → (slice_index_or self.old slot d).count < 2 ^ 64 - 1 }
        ensures { self.new ≡ updated raised self.old slot }
    {
        let entry = &mut self.slots[slot];
        entry.count += 1;
    }

    /// One reference fewer; says whether that was the last one.
    pub fn lower(&mut self, slot: usize) -> bool
        requires there { IsOpenAt self.old slot }
        requires some { (d : Row) → 0 < (slice_index_or self.old slot d).count }
        ensures last { (d : Row) → result ≡ ((slice_index_or self.old slot d).count == 1) }
        ensures rest { self.new ≡ updated lowered self.old slot }
    {
        let entry = &mut self.slots[slot];
        entry.count -= 1;
        entry.count == 0
    }

    /// A completion carries one more of the references.
    pub fn carry(&mut self, slot: usize)
        requires there { IsOpenAt self.old slot }
        requires fits { (d : Row) → (slice_index_or self.old slot d).carried < 2 ^ 64 - 1 }
        ensures { self.new ≡ updated carried_away self.old slot }
    {
        let entry = &mut self.slots[slot];
        entry.carried += 1;
    }

    /// Completions carry one of the references fewer.
    pub fn bring(&mut self, slot: usize)
        requires there { IsOpenAt self.old slot }
        requires some { (d : Row) → 0 < (slice_index_or self.old slot d).carried }
        ensures { self.new ≡ updated brought_back self.old slot }
    {
        let entry = &mut self.slots[slot];
        entry.carried -= 1;
    }

    /// Links the context to an object; the link is one more reference.
    pub fn link(&mut self, slot: usize, object: Object)
        requires there { IsOpenAt self.old slot }
        requires fits { (d : Row) → (slice_index_or self.old slot d).count < 2 ^ 64 - 1 }
        ensures { self.new ≡ updated (linked_row object) self.old slot }
    {
        let entry = &mut self.slots[slot];
        entry.link = Some(object);
        entry.count += 1;
    }

    /// Takes the link away; what becomes of its reference is another matter.
    pub fn unlink(&mut self, slot: usize)
        requires { IsOpenAt self.old slot }
        ensures { self.new ≡ updated unlinked_row self.old slot }
    {
        let entry = &mut self.slots[slot];
        entry.link = None;
    }

    /// The context is cleaned up, and its slot is free, unless it had its last generation.
    pub fn clean(&mut self, slot: usize)
        requires { IsOpenAt self.old slot }
        ensures { self.new ≡ updated cleaned_row self.old slot }
    {
        if next_generation(self.lasts[slot]).is_some() {
            self.slots.remove(slot);
        } else {
            let entry = &mut self.slots[slot];
            entry.is_retired = true;
        }
    }

    /// Takes the body out, and leaves an empty vector in its place.
    pub fn take_body(&mut self, slot: usize, empty: Vec<u8>) -> Vec<u8>
        requires there { IsOpenAt self.old slot }
        requires bare { empty.items ≡ [] }
        ensures body { (d : Row) → result.items ≡ (slice_index_or self.old slot d).body }
        ensures rest { self.new ≡ updated (row_with []) self.old slot }
    {
        let entry = &mut self.slots[slot];
        mem::replace(&mut entry.body, empty)
    }

    /// Writes other bytes over the body, which keeps its length.
    pub fn write_body(&mut self, slot: usize, bytes: &[u8])
        requires there { IsOpenAt self.old slot }
        requires length { (d : Row) → length bytes.now ≡ length (slice_index_or self.old slot d).body }
        ensures { self.new ≡ updated (row_with bytes.now) self.old slot }
    {
        let entry = &mut self.slots[slot];
        entry.body.copy_from_slice(bytes);
    }

    /// Adds to the number at a place of the body, modulo 2^64, and gives the sum.
    pub fn bump(&mut self, slot: usize, place: usize, by: u64) -> u64
        requires there { IsOpenAt self.old slot }
        requires within { (d : Row) → place + 8 ≤ length (slice_index_or self.old slot d).body }
        ensures sum { (d : Row) → result ≡ raised_number place by (slice_index_or self.old slot d).body }
        ensures rest { (d : Row) → self.new ≡ updated (row_with (with_number place result (slice_index_or self.old slot d).body)) self.old slot }
    {
        let entry = &mut self.slots[slot];
        bump_number(&mut entry.body, place, by)
    }
}
