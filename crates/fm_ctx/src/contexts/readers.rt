//! What can be read of the contexts.

ghost use Rattle.std.specs.Prelude.{cond, not, ◌≡◌, ◌<◌, true, is_some, length, nat_lt, option_copied, option_map, slice_get, unwrap_or};
ghost use Rattle.std.specs.List.{list_any};
ghost use Rattle.fm_ctx.specs.Bags.{holds, hand_of, left_of, is_hand_full, cleaning_of, cleans};
ghost use Rattle.fm_ctx.specs.Births.{is_out_of_slots};
ghost use Rattle.fm_ctx.specs.Table.{context_at, count_in, link_at, owner_at, kind_at};
ghost use Rattle.fm_ctx.specs.Rows.{Row as KeptRow, context_of, count_of_row};
ghost use Rattle.fm_ctx.specs.Stored.{named_row};
ghost use Rattle.fm_ctx.specs.Kept.{carried_of};
ghost use Rattle.fm_ctx.specs.declared.count.Count.TheVariants as Count;
ghost use Rattle.fm_ctx.specs.Counting.{count_reply, was_given, born, cleaned_count, open_of, open_on};

use crate::contexts::Contexts;
use crate::count::Count;
use crate::entry::Entry;
use crate::hand;
use crate::object::Object;
use crate::owner::Owner;
use fm_types::limits::CONTEXTS;
use fm_types::{ContextKind, CtxId, VolumeId, WorkerId};

// Whether it is that context which a worker cleans up.
fn cleans(id: CtxId, cleaning: Option<CtxId>) -> bool
    ensures { result ≡ cleans id cleaning }
{
    let Some(other) = cleaning else {
        return false;
    };
    hand::is_same(id, other)
}

// Whether some worker cleans that context up.
fn is_any(cleaning: &[Option<CtxId>], id: CtxId) -> bool
    ensures { result ≡ list_any (cleans id) cleaning.now }
{
    cleaning.iter().any(|other| cleans(id, *other))
}

impl Contexts {
    /// Whether the worker holds a reference to that context; what is held isn't cleaned.
    pub fn holds(&self, worker: WorkerId, id: CtxId) -> bool
        requires { worker.0 < 48 }
        ensures held { result ≡ holds (hand_of self.now.table.hands worker.0) id }
        ensures there { result ≡ true → is_some (context_at self.now.table.slots id) ≡ true }
    {
        self.hands[worker.0 as usize].holds(id)
    }

    /// How many references the worker holds.
    pub fn hand_len(&self, worker: WorkerId) -> usize
        requires { worker.0 < 48 }
        ensures { result ≡ length (hand_of self.now.table.hands worker.0) }
    {
        self.hands[worker.0 as usize].len()
    }

    /// The reference at that place of the worker's hand, if it holds so many.
    pub fn held_at(&self, worker: WorkerId, place: usize) -> Option<CtxId>
        requires { worker.0 < 48 }
        ensures { result ≡ slice_get (hand_of self.now.table.hands worker.0) place }
    {
        self.hands[worker.0 as usize].at(place)
    }

    /// The contexts that were left in the worker's hand as its last callback returned, in the order of the hand; none for a worker past the 48.
    pub fn left(&self, worker: WorkerId) -> &[CtxId]
        ensures { result.now ≡ left_of self.now.table.left worker.0 }
    {
        match self.left.get(worker.0 as usize) {
            Some(left) => left.ids(),
            None => &[],
        }
    }

    /// Whether some context waits for its cleanup.
    pub fn has_due(&self) -> bool
        ensures { result ≡ nat_lt 0 (length self.now.table.due) }
    {
        self.due.has_some()
    }

    pub(super) fn is_hand_full(&self, worker: WorkerId) -> bool
        requires { worker.0 < 48 }
        ensures { result ≡ is_hand_full self.now.table.hands worker.0 }
    {
        self.hands[worker.0 as usize].is_full()
    }

    // How many slots there are.
    pub(super) fn slots(&self) -> usize
        ensures { result ≡ length self.now.table.slots }
    {
        self.rows.len()
    }

    // Whether a new context finds no slot: all are there, and none is free.
    pub(super) fn is_out_of_slots(&self) -> bool
        ensures { result ≡ is_out_of_slots self.now.table.slots }
    {
        self.rows.len() >= CONTEXTS && self.rows.has_none_free()
    }

    // The context that an id names, if it isn't cleaned.
    fn entry(&self, id: CtxId) -> Option<&Entry>
        ensures context { option_map context_of (named_row id (option_copied result)) ≡ context_at self.now.table.slots id }
        ensures carried { unwrap_or (option_map (λ (r : KeptRow). r.carried) (named_row id (option_copied result))) 0 ≡ carried_of self.now id }
        ensures count { count_of_row (named_row id (option_copied result)) ≡ count_in (carried_of self.now) self.now.table id }
    {
        self.rows.named(id)
    }

    /// What the context is set on, if it is and isn't cleaned.
    pub fn link_of(&self, id: CtxId) -> Option<Object>
        ensures { result ≡ link_at self.now.table.slots id }
    {
        let Some(entry) = self.entry(id) else {
            return None;
        };
        entry.link
    }

    /// To whom the context belongs, if it isn't cleaned.
    pub fn owner_of(&self, id: CtxId) -> Option<Owner>
        ensures { result ≡ owner_at self.now.table.slots id }
    {
        let Some(entry) = self.entry(id) else {
            return None;
        };
        Some(entry.owner)
    }

    /// Of which kind the context is, if it isn't cleaned.
    pub fn kind_of(&self, id: CtxId) -> Option<ContextKind>
        ensures { result ≡ kind_at self.now.table.slots id }
    {
        let Some(entry) = self.entry(id) else {
            return None;
        };
        Some(entry.kind)
    }

    /// How many references to the context completions carry; none if it is cleaned.
    pub fn carried(&self, id: CtxId) -> u64
        ensures { result ≡ carried_of self.now id }
    {
        let Some(entry) = self.entry(id) else {
            return 0;
        };
        entry.carried
    }

    /// Which context the worker cleans up.
    pub fn cleaning_of(&self, worker: WorkerId) -> Option<CtxId>
        requires { worker.0 < 48 }
        ensures { result ≡ cleaning_of self.now.table.cleaning worker.0 }
    {
        self.cleaning[worker.0 as usize]
    }

    /// How many references callbacks left behind; it stays at 2^64 - 1 once it is there.
    pub fn leaks(&self) -> u64
        ensures { result ≡ self.now.table.leaks }
    {
        self.leaks
    }

    /// How many contexts were allocated.
    pub fn born(&self) -> u64
        ensures { result ≡ born self.now.table.slots }
    {
        self.tally.born
    }

    /// How many of them are cleaned.
    pub fn cleaned_count(&self) -> u64
        ensures { result ≡ cleaned_count self.now.table.slots }
    {
        self.tally.cleaned()
    }

    /// How many contexts of an owner aren't cleaned.
    pub fn open_of(&self, owner: Owner) -> u64
        ensures { result ≡ open_of self.now.table.slots owner }
    {
        self.rows.open_of(owner) as u64
    }

    /// How many volume contexts that were allocated on a volume aren't cleaned, whosever they are.
    pub fn open_on(&self, volume: VolumeId) -> u64
        ensures { result ≡ open_on self.now.table.slots volume }
    {
        self.rows.open_on(volume) as u64
    }

    /// How far the life of a context has come. A live one has as many references as its link, the
    /// workers' hands and the completions that carry it make.
    pub fn count(&self, id: CtxId) -> Count
        ensures { result ≡ count_reply (carried_of self.now) self.now.table id }
    {
        let Some(entry) = self.entry(id) else {
            return self.count_of_none(id);
        };
        if entry.count > 0 {
            return Count::Live(entry.count);
        }
        if self.is_cleaning(id) {
            return Count::Cleaning;
        }
        Count::Due
    }

    // What is known of an id that names no context: it was one that is cleaned, or none.
    fn count_of_none(&self, id: CtxId) -> Count
        ensures { result ≡ cond (was_given self.now.table.slots id) Count.Cleaned Count.Absent }
    {
        if self.rows.was_given(id) {
            Count::Cleaned
        } else {
            Count::Absent
        }
    }

    // Of a context without references, whether a worker cleans it up; else it is due.
    fn is_cleaning(&self, id: CtxId) -> bool
        requires there { is_some (context_at self.now.table.slots id) ≡ true }
        requires idle { count_in (carried_of self.now) self.now.table id ≡ 0 }
        ensures { holds self.now.table.due id ≡ not result }
    {
        is_any(&self.cleaning, id)
    }
}
