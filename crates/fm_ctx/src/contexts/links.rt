//! Setting contexts on objects, finding them there, and taking them away.

ghost use Rattle.std.specs.Prelude.{◌≡◌, ◌<◌, true, IfSome, Some, is_some, length};
ghost use Rattle.fm_types.specs.Refusals.{Answers};
ghost use Rattle.fm_types.specs.declared.ids.CtxId.{CtxId};
ghost use Rattle.fm_ctx.specs.Bags.{holds, hand_of};
ghost use Rattle.fm_ctx.specs.Table.{context_at, count_in, link_at};
ghost use Rattle.fm_ctx.specs.Kept.{carried_of};
ghost use Rattle.fm_ctx.specs.Links.{id_at, holder, unlinked_for, kept_after, kept_set, set_reply, get_refused, delete_refused, Deletes, Gets, IsUnlinkedOf};
ghost use Rattle.fm_ctx.specs.Settling.{Sweeps, is_linked_to, is_linked_of};
ghost use Rattle.fm_ctx.specs.Seats.{end_of, last_below};
ghost use Rattle.fm_ctx.specs.Sweep.{context_of_slot, link_test, links_on, passes, swept_at};

use crate::contexts::Contexts;
use crate::object::Object;
use crate::owner::Owner;
use crate::seat::{Links, Seat, chain_to};
use crate::set_reply::{SetMode, SetReply};
use fm_types::{CtxId, Status, WorkerId};

impl Contexts {
    // The owner's context that is set on the object. The search passes the contexts that are set on
    // the object, and few of other objects.
    fn find(&self, owner: Owner, object: Object) -> Option<CtxId>
        ensures found { result ≡ holder self.now.table.slots owner object }
        ensures linked { IfSome result (λ id. is_some (link_at self.now.table.slots id) ≡ true) }
        ensures live { IfSome result (λ id. 0 < count_in (carried_of self.now) self.now.table id) }
    {
        let Some(slot) = self.seats.find(Seat { owner, object }) else {
            return None;
        };
        Some(self.id_at(slot as usize))
    }

    // The id that a slot was given last.
    fn id_at(&self, slot: usize) -> CtxId
        requires { slot < length self.now.table.slots }
        ensures { result ≡ id_at self.now.table.slots slot }
    {
        let generation = self.rows.generation(slot);
        CtxId {
            slot: slot as u32,
            generation,
        }
    }

    /// Sets a context that the worker holds on an object (`FltSetInstanceContext`,
    /// `FltSetStreamContext` ..): it is linked, and the link is one more reference. Where the owner has
    /// one set there already, `Keep` leaves that one and `Replace` takes its link away. With
    /// `wants_old` the worker is handed the old one: with `Keep` one more reference to it, with
    /// `Replace` the reference of its link, which else is gone. It takes no memory.
    pub fn set(
        &mut self,
        worker: WorkerId,
        id: CtxId,
        owner: Owner,
        object: Object,
        mode: SetMode,
        wants_old: bool,
    ) -> SetReply
        requires within { worker.0 < 48 }
        requires held { holds (hand_of self.old.table.hands worker.0) id ≡ true }
        requires bare { IsUnlinkedOf owner (context_at self.old.table.slots id) }
        ensures reply { result ≡ set_reply self.old.table worker.0 mode wants_old (holder self.old.table.slots owner object) }
        ensures after { self.new ≡ kept_set self.old worker.0 id owner object mode wants_old }
    {
        self.laws();
        let Some(old) = self.find(owner, object) else {
            self.link(id, object);
            return SetReply::Linked(None);
        };
        if wants_old && self.is_hand_full(worker) {
            return SetReply::HandFull;
        }
        let named = if wants_old { Some(old) } else { None };
        match mode {
            SetMode::Keep => {
                self.keep_for(worker, wants_old, old);
                SetReply::AlreadyDefined(named)
            }
            SetMode::Replace => {
                self.unlink_for(worker, wants_old, old);
                self.link(id, object);
                SetReply::Linked(named)
            }
        }
    }

    // The linked context stays; where it is wanted the worker gets a reference to it.
    fn keep_for(&mut self, worker: WorkerId, wants_old: bool, old: CtxId)
        requires within { worker.0 < 48 }
        requires linked { is_some (link_at self.old.table.slots old) ≡ true }
        requires room { wants_old ≡ true → length (hand_of self.old.table.hands worker.0) < 16 }
        ensures { self.new ≡ record self.old { table = kept_after self.old.table worker.0 wants_old old } }
    {
        if wants_old {
            self.grab(worker, old);
        }
    }

    // The context loses its link; where it is wanted the worker gets the link's reference.
    fn unlink_for(&mut self, worker: WorkerId, wants_old: bool, old: CtxId)
        requires within { worker.0 < 48 }
        requires linked { is_some (link_at self.old.table.slots old) ≡ true }
        requires room { wants_old ≡ true → length (hand_of self.old.table.hands worker.0) < 16 }
        ensures { self.new ≡ record self.old { table = unlinked_for (carried_of self.old) self.old.table worker.0 wants_old old } }
    {
        if wants_old {
            self.unlink_into(worker, old);
        } else {
            self.unlink(old);
        }
    }

    /// Finds the owner's context that is set on an object (`FltGetInstanceContext`,
    /// `FltGetStreamContext` ..), and puts one more reference to it into the worker's hand. Refused,
    /// with nothing changed, in this order: `NoContext` (24), `HandFull` (26). It takes no memory.
    pub fn get(&mut self, worker: WorkerId, owner: Owner, object: Object) -> Result<CtxId, Status>
        requires { worker.0 < 48 }
        ensures { Answers (get_refused self.old worker.0 owner object) result self.old self.new (Gets self.old self.new worker.0 owner object) }
    {
        let Some(id) = self.find(owner, object) else {
            return Err(Status::NoContext);
        };
        if self.is_hand_full(worker) {
            return Err(Status::HandFull);
        }
        self.grab(worker, id);
        Ok(id)
    }

    /// Takes the owner's context off an object (`FltDeleteInstanceContext`, `FltDeleteStreamContext`
    /// ..). With `wants_old` the reference of its link goes to the worker's hand and its id is
    /// answered, else the reference is gone. Refused, with nothing changed, in this order: `NoContext`
    /// (24), `HandFull` (26) where the old one is wanted. It takes no memory.
    pub fn delete(
        &mut self,
        worker: WorkerId,
        owner: Owner,
        object: Object,
        wants_old: bool,
    ) -> Result<Option<CtxId>, Status>
        requires { worker.0 < 48 }
        ensures { Answers (delete_refused self.old worker.0 owner object wants_old) result self.old self.new
            (Deletes self.old self.new worker.0 owner object wants_old) }
    {
        let Some(old) = self.find(owner, object) else {
            return Err(Status::NoContext);
        };
        if wants_old && self.is_hand_full(worker) {
            return Err(Status::HandFull);
        }
        self.unlink_for(worker, wants_old, old);
        Ok(if wants_old { Some(old) } else { None })
    }

    /// An object is torn down: every context that is set on it loses its link. Passes the contexts that
    /// are set on the object, and few of other objects. It takes no memory.
    pub fn unlink_object(&mut self, object: Object)
        ensures table { Sweeps (carried_of self.old) (is_linked_to object) self.old.table self.new.table }
        ensures carried { self.new.carried ≡ self.old.carried }
    {
        let chain = chain_to(object);
        let mut next = self.next_on(chain, None);
        while let Some(slot) = next {
            // The slot leaves the chain with its link.
            next = self.next_on(chain, Some(slot));
            self.sweep_slot(slot as usize, Links::To(object));
        }
    }

    // The highest slot of a chain below another one of it, or of all.
    fn next_on(&self, chain: usize, above: Option<u32>) -> Option<u32>
        requires chain { chain < 4096 }
        requires above { IfSome above (λ a. links_on self.now.table.slots chain a ≡ true) }
        ensures { result ≡ last_below (links_on self.now.table.slots chain) (end_of above (length self.now.table.slots)) }
    {
        self.seats.after(chain, above)
    }

    /// An owner goes: every context of it loses its link (`FltDeleteContext` on each). It takes no
    /// memory.
    pub fn unlink_owner(&mut self, owner: Owner)
        ensures table { Sweeps (carried_of self.old) (is_linked_of owner) self.old.table self.new.table }
        ensures carried { self.new.carried ≡ self.old.carried }
    {
        for slot in 0..self.slots() {
            self.sweep_slot(slot, Links::Of(owner));
        }
    }

    // The context of a slot loses its link, if it is among those.
    #[tactic(auto, using(crate::proofs::Sweeping::passes_linked))]
    fn sweep_slot(&mut self, slot: usize, links: Links)
        requires { slot < length self.old.table.slots }
        ensures { self.new ≡ record self.old { table = swept_at (carried_of self.old) self.old.table (link_test links) slot } }
    {
        if self.is_among(slot, links) {
            self.unlink(self.id_at(slot));
        }
    }

    // Whether the context of a slot is among those.
    fn is_among(&self, slot: usize, links: Links) -> bool
        requires { slot < length self.now.table.slots }
        ensures { result ≡ passes (link_test links) (context_of_slot self.now.table.slots slot) }
    {
        self.seats.is_among(slot, links)
    }
}
