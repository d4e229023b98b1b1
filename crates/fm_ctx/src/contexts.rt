//! All contexts of a run: their references, and the hands of the workers.

mod bodies;
mod cleanup;
mod links;
mod readers;

ghost use Rattle.std.specs.Prelude.{◌≡◌, ◌+◌, ◌<◌, ◌≤◌, ◌^◌, ◌==◌, ◌++◌, ◌∷◌, [], if◌then◌else◌, IfOk, OnErr, false, true, None, count_by, is_some, length, slice_get, slice_index_or};
ghost use Rattle.fm_types.specs.Refusals.{Answers, AnswersOrMemory};
ghost use Rattle.fm_types.specs.Lists.{updated};
ghost use Rattle.fm_types.specs.declared.ids.CtxId.{CtxId};
ghost use Rattle.fm_ctx.specs.Bags.{holds, hand_of, left_of};
ghost use Rattle.fm_ctx.specs.Table.{link_at, count_in};
ghost use Rattle.fm_ctx.specs.Kept.{nothing_kept, carried_of};
ghost use Rattle.fm_ctx.specs.Laws.{IsLawful};
ghost use Rattle.fm_ctx.specs.References.{kept_grabbed, kept_released, kept_carried, kept_brought, reference_refusal, release_refusal};
ghost use Rattle.fm_ctx.specs.Links.{IsFree, linked, unlinked, unlinked_into};
ghost use Rattle.fm_ctx.specs.DueLists.{is_at};
ghost use Rattle.fm_ctx.specs.Births.{Allocates, allocate_refused};
ghost use Rattle.fm_ctx.specs.Generations.{IsAccount};
ghost use Rattle.fm_ctx.specs.Settling.{Leaves, kept_noted};
ghost use Rattle.fm_ctx.specs.Rows.{Row as KeptRow, lowered, IsFresh, IsOpenAt, IsPut, lives_of, seats_of};
ghost use Rattle.fm_ctx.specs.Stored.{open_row};

use crate::due_list::DueList;
use crate::entry::Entry;
use crate::hand::{self, Hand};
use crate::left::Left;
use crate::object::Object;
use crate::owner::Owner;
use crate::seat::Seat;
use crate::seats::Seats;
use crate::store::Rows;
use crate::tally::Tally;
use fm_types::limits::{BODY, WORKERS};
use fm_types::{Bytes, ContextKind, CtxId, Status, VolumeId, WorkerId};
use std::alloc::{AllocError, Global};
use std::marker::Model;

/// The contexts by their ids, what each worker holds, and which contexts wait to be cleaned up.
/// Contracts see a table of slots by number, and for each slot how many references completions carry.
#[derive(Drop)]
pub struct Contexts {
    alloc: Global,
    rows: Rows,
    tally: Tally,
    seats: Seats,
    hands: Vec<Hand>,
    due: DueList,
    cleaning: Vec<Option<CtxId>>,
    leaks: u64,
    left: Vec<Left>,
}

impl Model for Contexts {
    ghost use Rattle.fm_ctx.specs.Kept.{ContextsKept};

    ghost Value = { ContextsKept };

    ghost use Rattle.fm_ctx.specs.Rows.{kept_in, IsIndexed};

    ghost view = { λ c. kept_in c.rows c.hands.items c.due.ids c.cleaning.items c.leaks c.left.items };

    ghost invariant = { λ c. IsIndexed c.rows (kept_in c.rows c.hands.items c.due.ids c.cleaning.items c.leaks c.left.items) c.due.slots c.seats c.tally };
}

// The context has one reference fewer; with the last one it is due.
fn drop_reference(rows: &mut Rows, due: &mut DueList, id: CtxId)
    requires there { IsOpenAt rows.old id.slot }
    requires some { (d : KeptRow) → 0 < (slice_index_or rows.old id.slot d).count }
    requires within { id.slot < due.old.slots }
    requires absent { count_by (is_at id.slot) due.old.ids ≡ 0 }
    ensures rows { rows.new ≡ updated lowered rows.old id.slot }
    ensures due { (d : KeptRow) → due.new.ids ≡ (if (slice_index_or rows.old id.slot d).count == 1 then due.old.ids ++ id ∷ [] else due.old.ids) }
    ensures slots { due.new.slots ≡ due.old.slots }
{
    if rows.lower(id.slot as usize) {
        due.push(id);
    }
}

// The context gets a slot that was free, with its next generation, or a new slot. The error says that
// memory was refused, and nothing is changed.
fn place(
    rows: &mut Rows,
    tally: &mut Tally,
    seats: &mut Seats,
    due: &mut DueList,
    entry: Entry,
) -> Result<CtxId, AllocError>
    requires few { length rows.old ≤ 65536 }
    requires account { IsAccount (lives_of rows.old) tally.old }
    requires seated { seats.old ≡ seats_of rows.old }
    requires placed { due.old.slots ≡ length rows.old }
    requires fresh { IsFresh (open_row 0 entry) }
    requires opens { entry.is_retired ≡ false }
    ensures ok { IfOk result (IsPut rows.old rows.new (open_row 0 entry)) }
    ensures err { OnErr result (rows.new ≡ rows.old) }
    ensures account { IsAccount (lives_of rows.new) tally.new }
    ensures seated { seats.new ≡ seats_of rows.new }
    ensures placed { due.new ≡ record due.old { slots = length rows.new } }
{
    let slots = rows.len();
    let id = rows.put(entry)?;
    if id.slot as usize == slots {
        seats.add();
        due.add();
    }
    tally.begin();
    Ok(id)
}

impl Contexts {
    /// No contexts, and 48 empty hands; the error says that memory was refused.
    pub fn new(alloc: Global) -> Result<Contexts, AllocError>
        ensures { IfOk result (λ contexts. contexts ≡ nothing_kept) }
    {
        let mut hands = Vec::with_capacity(alloc, WORKERS)?;
        let mut cleaning = Vec::with_capacity(alloc, WORKERS)?;
        let mut left = Vec::with_capacity(alloc, WORKERS)?;
        for _worker in 0..WORKERS {
            hands.push_reserved(Hand::new(alloc)?);
            cleaning.push_reserved(None);
            left.push_reserved(Left::nothing());
        }
        Ok(Contexts {
            alloc,
            rows: Rows::new(alloc),
            tally: Tally { born: 0, living: 0 },
            seats: Seats::new(alloc)?,
            hands,
            due: DueList::new(alloc)?,
            cleaning,
            leaks: 0,
            left,
        })
    }

    /// The laws of all contexts, for callers that rest on them. It does nothing.
    pub fn laws(&self)
        ensures lawful { IsLawful (carried_of self.now) self.now.table }
        ensures matched { length self.now.carried ≡ length self.now.table.slots }
    {
        let _leaks = &self.leaks;
    }
}

// References.
impl Contexts {
    /// Allocates a context (`FltAllocateContext`): it isn't linked, and its one reference is in the
    /// worker's hand. Refused, with nothing changed, in this
    /// order: `TooMany` (29) where the body has more than 4,096 bytes, or where there are 65,536 slots
    /// and none is free, `HandFull` (26), `NoMemory` (1). A slot is free again once its context is
    /// cleaned, unless it had its last generation.
    pub fn allocate(
        &mut self,
        worker: WorkerId,
        kind: ContextKind,
        owner: Owner,
        volume: VolumeId,
        body: Bytes,
    ) -> Result<CtxId, Status>
        requires { worker.0 < 48 }
        ensures { AnswersOrMemory (allocate_refused self.old worker.0 body) result self.old self.new
            (Allocates self.old self.new worker.0 kind owner volume body) }
    {
        if body.len() > BODY || self.is_out_of_slots() {
            return Err(Status::TooMany);
        }
        if self.is_hand_full(worker) {
            return Err(Status::HandFull);
        }
        let entry = Entry {
            kind,
            owner,
            volume,
            body: body.into_vec(),
            link: None,
            count: 1,
            carried: 0,
            is_retired: false,
        };
        let Ok(id) = place(
            &mut self.rows,
            &mut self.tally,
            &mut self.seats,
            &mut self.due,
            entry,
        ) else {
            return Err(Status::NoMemory);
        };
        hand::put(&mut self.hands, worker, id);
        Ok(id)
    }

    /// Takes one more reference to a context that the worker holds (`FltReferenceContext`). Refused,
    /// with nothing changed, in this order: `NotHeld` (25), `HandFull` (26). It takes no memory.
    pub fn reference(&mut self, worker: WorkerId, id: CtxId) -> Result<(), Status>
        requires { worker.0 < 48 }
        ensures { Answers (reference_refusal self.old.table worker.0 id) result self.old self.new (λ _. self.new ≡ kept_grabbed self.old worker.0 id) }
    {
        if !self.holds(worker, id) {
            return Err(Status::NotHeld);
        }
        if self.is_hand_full(worker) {
            return Err(Status::HandFull);
        }
        self.laws();
        self.grab(worker, id);
        Ok(())
    }

    /// Gives one reference back (`FltReleaseContext`); with the last one the context is due. Refused,
    /// with nothing changed: `NotHeld` (25). It takes no memory.
    pub fn release(&mut self, worker: WorkerId, id: CtxId) -> Result<(), Status>
        requires { worker.0 < 48 }
        ensures { Answers (release_refusal self.old.table worker.0 id) result self.old self.new (λ _. self.new ≡ kept_released self.old worker.0 id) }
    {
        if !self.holds(worker, id) {
            return Err(Status::NotHeld);
        }
        self.let_go(worker, id);
        Ok(())
    }

    /// A completion takes a reference out of the worker's hand along, where the hand has one; where it
    /// has none nothing changes. Says whether it had one. It takes no memory.
    pub fn carry(&mut self, worker: WorkerId, id: CtxId) -> bool
        requires within { worker.0 < 48 }
        requires few { carried_of self.old id < 2 ^ 32 }
        ensures found { result ≡ holds (hand_of self.old.table.hands worker.0) id }
        ensures after { self.new ≡ (if result then kept_carried self.old worker.0 id else self.old) }
    {
        if !self.holds(worker, id) {
            return false;
        }
        hand::take(&mut self.hands, worker, id);
        self.rows.carry(id.slot as usize);
        true
    }

    /// A completion comes back: the reference that it carried is in the worker's hand. It takes no
    /// memory.
    pub fn bring(&mut self, worker: WorkerId, id: CtxId)
        requires within { worker.0 < 48 }
        requires carried { 0 < carried_of self.old id }
        requires room { length (hand_of self.old.table.hands worker.0) < 16 }
        ensures { self.new ≡ kept_brought self.old worker.0 id }
    {
        self.rows.bring(id.slot as usize);
        hand::put(&mut self.hands, worker, id);
    }

    /// A callback of the worker returns: the references that are left in its hand are released, and
    /// counted as leaks; `left` tells them until its next callback has returned. It takes no memory.
    #[inline(always)]
    pub fn leave(&mut self, worker: WorkerId)
        requires { worker.0 < 48 }
        ensures table { Leaves (carried_of self.old) self.old.table self.new.table worker.0 }
        ensures carried { self.new.carried ≡ self.old.carried }
    {
        self.laws();
        self.note_left(worker);
        if self.hand_len(worker) > 0 {
            self.release_left(worker);
        }
    }

    // What is in the hand is noted.
    fn note_left(&mut self, worker: WorkerId)
        requires { worker.0 < 48 }
        ensures noted { self.new ≡ kept_noted self.old worker.0 }
        ensures few { self.old.table.leaks < 2 ^ 64 }
    {
        self.left[worker.0 as usize].note(self.hands[worker.0 as usize].ids());
    }

    // What is in the hand, and was noted, is released and counted as leaks.
    #[inline(never)]
    #[tactic(auto, using(crate::proofs::Bags::first_held))]
    fn release_left(&mut self, worker: WorkerId)
        requires worker { worker.0 < 48 }
        requires noted { left_of self.old.table.left worker.0 ≡ hand_of self.old.table.hands worker.0 }
        ensures table { Leaves (carried_of self.old) self.old.table self.new.table worker.0 }
        ensures carried { self.new.carried ≡ self.old.carried }
    {
        self.laws();
        let left = self.hand_len(worker);
        while let Some(id) = self.first_held(worker) {
            self.let_go(worker, id);
        }
        self.leaks = self.leaks.saturating_add(left as u64);
    }

    fn first_held(&self, worker: WorkerId) -> Option<CtxId>
        requires { worker.0 < 48 }
        ensures { result ≡ slice_get (hand_of self.now.table.hands worker.0) 0 }
    {
        self.hands[worker.0 as usize].first()
    }

    // One more reference to a context that has one.
    fn grab(&mut self, worker: WorkerId, id: CtxId)
        requires within { worker.0 < 48 }
        requires live { 0 < count_in (carried_of self.old) self.old.table id }
        requires room { length (hand_of self.old.table.hands worker.0) < 16 }
        ensures { self.new ≡ kept_grabbed self.old worker.0 id }
    {
        self.rows.raise(id.slot as usize);
        hand::put(&mut self.hands, worker, id);
    }

    // One reference fewer, out of the hand.
    fn let_go(&mut self, worker: WorkerId, id: CtxId)
        requires within { worker.0 < 48 }
        requires held { holds (hand_of self.old.table.hands worker.0) id ≡ true }
        ensures { self.new ≡ kept_released self.old worker.0 id }
    {
        hand::take(&mut self.hands, worker, id);
        drop_reference(&mut self.rows, &mut self.due, id);
    }
}

// Links, one at a time.
impl Contexts {
    // The context gets a link, where nothing of its owner is linked to the object.
    fn link(&mut self, id: CtxId, object: Object)
        requires live { 0 < count_in (carried_of self.old) self.old.table id }
        requires free { IsFree self.old.table id object }
        ensures { self.new ≡ record self.old { table = linked self.old.table id object } }
    {
        let owner = self.rows.entry(id.slot as usize).owner;
        self.seats.put(id.slot, Seat { owner, object });
        self.rows.link(id.slot as usize, object);
    }

    // The context loses its link, and the reference of the link goes.
    fn unlink(&mut self, id: CtxId)
        requires { is_some (link_at self.old.table.slots id) ≡ true }
        ensures { self.new ≡ record self.old { table = unlinked (carried_of self.old) self.old.table id } }
    {
        drop_reference(&mut self.rows, &mut self.due, id);
        self.rows.unlink(id.slot as usize);
        self.seats.take(id.slot);
    }

    // The context loses its link, and the reference of the link goes to the hand.
    fn unlink_into(&mut self, worker: WorkerId, id: CtxId)
        requires within { worker.0 < 48 }
        requires linked { is_some (link_at self.old.table.slots id) ≡ true }
        requires room { length (hand_of self.old.table.hands worker.0) < 16 }
        ensures { self.new ≡ record self.old { table = unlinked_into self.old.table worker.0 id } }
    {
        self.rows.unlink(id.slot as usize);
        self.seats.take(id.slot);
        hand::put(&mut self.hands, worker, id);
    }
}
