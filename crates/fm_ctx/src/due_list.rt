//! The contexts that wait for their cleanup.

ghost use Rattle.std.specs.Prelude.{◌≡◌, ◌<◌, ◌+◌, ◌++◌, ◌∷◌, [], ◌≤◌, nat_lt, length, count_by, IfOk, IfNone, IfSome, None, Some, slice_set, vec_capacity};
ghost use Rattle.fm_ctx.specs.DueLists.{is_at, nexts_led};

use fm_types::CtxId;
use fm_types::limits::CONTEXTS;
use std::alloc::{AllocError, Global};
use std::marker::Model;

/// Which contexts wait for their cleanup, in the order in which they lost their last reference. They are
/// linked through their slots: each slot leads to the context that became due after its own. There is
/// room for 65,536 slots from the start: no call after `new` takes memory. Contracts see how many slots
/// there are, and the list.
#[derive(Drop)]
pub struct DueList {
    first: Option<CtxId>,
    last: Option<CtxId>,
    nexts: Vec<Option<CtxId>>,
}

impl Model for DueList {
    ghost use Rattle.std.specs.Prelude.{vec_capacity};
    ghost use Rattle.fm_ctx.specs.DueLists.{IsDueList, Waiting, waiting_in};

    ghost Value = { Waiting };

    ghost view = { λ d. waiting_in d.nexts.items d.first };

    ghost invariant = { λ d. IsDueList d.nexts.items d.first d.last (vec_capacity d.nexts) };
}

// The slot of the last one, if there is one, leads to that id from now on, whose own slot leads to none.
fn lead(nexts: &mut Vec<Option<CtxId>>, last: Option<CtxId>, id: CtxId)
    requires within { id.slot < length nexts.old.items }
    requires last { IfSome last (λ c. c.slot < length nexts.old.items) }
    ensures nexts { nexts.new.items ≡ nexts_led nexts.old.items last id }
    ensures room { vec_capacity nexts.new ≡ vec_capacity nexts.old }
{
    nexts[id.slot as usize] = None;
    if let Some(last) = last {
        nexts[last.slot as usize] = Some(id);
    }
}

impl DueList {
    /// No slots; the error says that memory was refused.
    pub fn new(alloc: Global) -> Result<DueList, AllocError>
        ensures { IfOk result (λ due. due ≡ record { slots = 0; ids = [] }) }
    {
        Ok(DueList {
            first: None,
            last: None,
            nexts: Vec::with_capacity(alloc, CONTEXTS)?,
        })
    }

    /// One more slot, whose context doesn't wait.
    pub fn add(&mut self)
        requires { self.old.slots < 65536 }
        ensures { self.new ≡ record self.old { slots = self.old.slots + 1 } }
    {
        self.nexts.push_reserved(None);
    }

    /// Whether some context waits.
    pub fn has_some(&self) -> bool
        ensures { result ≡ nat_lt 0 (length self.now.ids) }
    {
        self.first.is_some()
    }

    /// One more context waits, behind all others.
    pub fn push(&mut self, id: CtxId)
        requires within { id.slot < self.old.slots }
        requires absent { count_by (is_at id.slot) self.old.ids ≡ 0 }
        ensures { self.new ≡ record self.old { ids = self.old.ids ++ id ∷ [] } }
    {
        lead(&mut self.nexts, self.last, id);
        self.first = self.first.or(Some(id));
        self.last = Some(id);
    }

    /// Takes the one out that has waited longest.
    pub fn pop(&mut self) -> Option<CtxId>
        ensures none { IfNone result ((self.old.ids ≡ []) × (self.new ≡ self.old)) }
        ensures some { IfSome result (λ id. (self.old.ids ≡ id ∷ self.new.ids) × (self.new.slots ≡ self.old.slots)) }
    {
        let Some(id) = self.first else {
            return None;
        };
        self.first = self.nexts[id.slot as usize];
        self.last = self.first.and(self.last);
        Some(id)
    }
}
