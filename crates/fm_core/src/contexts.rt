//! Events of callbacks on contexts.

ghost use Rattle.std.specs.Prelude.{◌≡◌, ◌+◌, ◌<◌, Some, None, Ok, MatchResult, slice_get};
ghost use Rattle.fm_ctx.specs.Table.{Context, context_at};
ghost use Rattle.fm_world.specs.ContextEvents.{Allocates, Sets, Gets, Deletes, callback_of, set_answer};
ghost use Rattle.fm_world.specs.Hands.{OnlyHandOf, HoldsMore, hand_len, given_with, given_by_set};
ghost use Rattle.fm_core.specs.Callers.{caller_of, has_kind_at};
ghost use Rattle.fm_core.specs.Setting.{IsSettable, IsUnsettable, IsFound, IsNotFound};

use crate::caller::{Caller, has_kind, is_closing, is_there};
use crate::state::State;
use fm_ctx::{Object, Owner, SetMode, SetReply};
use fm_types::{Bytes, ContextKind, CtxId, Status, WorkerId};
use fm_world::SetAnswer;

/// What setting a context answered.
fn set_answer(reply: SetReply) -> SetAnswer
    ensures { result ≡ set_answer reply }
{
    match reply {
        SetReply::Linked(old) => SetAnswer::Linked(old),
        SetReply::AlreadyDefined(old) => SetAnswer::AlreadyDefined(old),
        SetReply::HandFull => SetAnswer::Refused(Status::HandFull),
    }
}

impl State {
    /// Allocates a context of a kind, with its body (`FltAllocateContext`): its one reference is in the worker's hand, and it belongs to the callback's
    /// instance, or to its filter where it is a volume context. Refused, nothing changed: 30 where the worker is in no callback of an instance, 21 where
    /// the filter didn't register the kind, 29 where the body has more than 4,096 bytes and at the 65,537th context, 26 where the hand has 16 references, 1.
    #[tactic(auto, unfolding(fm_world::specs::ContextEvents::Allocates))]
    pub fn allocate(
        &mut self,
        worker: WorkerId,
        kind: ContextKind,
        body: Bytes,
    ) -> Result<CtxId, Status>
        ensures event { Allocates self.old worker kind body result self.new }
        ensures hand { OnlyHandOf worker.0 self.old self.new }
        ensures held { HoldsMore worker.0 result (λ _. 1) self.old self.new }
    {
        let Some(caller) = self.caller(worker) else {
            return Err(Status::WrongStep);
        };
        if !has_kind(&self.stack, caller.instance, kind) {
            return Err(Status::NotRegistered);
        }
        self.contexts.laws();
        self.contexts
            .allocate(worker, kind, caller.owner(kind), caller.volume, body)
    }

    /// What setting a context of the worker's hand needs: its owner, and the object of the callback that it is set on.
    fn settable(
        &self,
        worker: WorkerId,
        caller: Caller,
        context: CtxId,
    ) -> Result<(Owner, Object), Status>
        requires { worker.0 < 48 }
        ensures { MatchResult result (IsSettable self.now worker context caller) (IsUnsettable self.now worker context caller) }
    {
        if !self.contexts.holds(worker, context) {
            return Err(Status::NotHeld);
        }
        if self.contexts.link_of(context).is_some() {
            return Err(Status::AlreadyLinked);
        }
        let (Some(owner), Some(kind)) = (
            self.contexts.owner_of(context),
            self.contexts.kind_of(context),
        ) else {
            return Err(Status::NoObject);
        };
        let Some(object) = caller.object(kind) else {
            return Err(Status::NoObject);
        };
        if is_closing(&self.stack, caller.instance) || !is_there(&self.files, object) {
            return Err(Status::DeletingObject);
        }
        Ok((owner, object))
    }

    /// Sets a context of the worker's hand on the callback's object of its kind (`FltSetVolumeContext`, `FltSetInstanceContext`,
    /// `FltSetStreamContext`, `FltSetStreamHandleContext`): a reference more where it succeeds. Keep leaves a context that the owner has there;
    /// Replace takes its place. Refused, nothing changed: 30 where the worker is in no callback of an instance, 25 where it doesn't hold the context, 23
    /// where the context is set already, 27 where the callback has no such object (a create before it succeeded, a listing and a setup have neither stream nor
    /// handle), 13 where the instance is torn down, its volume dismounted, the handle closed or the stream torn down, 26 where the
    /// old one is wanted and the hand has 16 references. 22 where Keep finds one: where it is wanted, a reference to it is in the hand. It takes no memory.
    #[tactic(auto, unfolding(fm_world::specs::ContextEvents::Sets))]
    pub fn set(
        &mut self,
        worker: WorkerId,
        context: CtxId,
        mode: SetMode,
        wants_old: bool,
    ) -> SetAnswer
        ensures event { Sets self.old worker context mode wants_old result self.new }
        ensures hand { OnlyHandOf worker.0 self.old self.new }
        ensures held { hand_len worker.0 self.new ≡ hand_len worker.0 self.old + given_by_set result }
    {
        let Some(caller) = self.caller(worker) else {
            return SetAnswer::Refused(Status::WrongStep);
        };
        let (owner, object) = match self.settable(worker, caller, context) {
            Ok(found) => found,
            Err(status) => return SetAnswer::Refused(status),
        };
        let reply = self
            .contexts
            .set(worker, context, owner, object, mode, wants_old);
        set_answer(reply)
    }

    /// The owner and the object of the callback's contexts of a kind.
    fn findable(&self, caller: Caller, kind: ContextKind) -> Result<(Owner, Object), Status>
        ensures { MatchResult result (IsFound self.now caller kind) (IsNotFound self.now caller kind) }
    {
        if !has_kind(&self.stack, caller.instance, kind) {
            return Err(Status::NotRegistered);
        }
        match caller.object(kind) {
            Some(object) => Ok((caller.owner(kind), object)),
            None => Err(Status::NoObject),
        }
    }

    /// Gets the context of a kind that is set on the callback's object (`FltGetVolumeContext`, `FltGetInstanceContext`, `FltGetStreamContext`,
    /// `FltGetStreamHandleContext`): a reference more, in the hand. Refused, nothing changed: 30 where the worker is in no callback of an instance, 21
    /// where the filter didn't register the kind, 27 where the callback has no such object, 13 where the handle is closed or the stream torn down, 24 where
    /// none is set, 26 where the hand has 16 references. It takes no memory.
    #[tactic(auto, unfolding(fm_world::specs::ContextEvents::Gets))]
    pub fn get(&mut self, worker: WorkerId, kind: ContextKind) -> Result<CtxId, Status>
        ensures event { Gets self.old worker kind result self.new }
        ensures hand { OnlyHandOf worker.0 self.old self.new }
        ensures held { HoldsMore worker.0 result (λ _. 1) self.old self.new }
    {
        let Some(caller) = self.caller(worker) else {
            return Err(Status::WrongStep);
        };
        let (owner, object) = match self.findable(caller, kind) {
            Ok(found) => found,
            Err(status) => return Err(status),
        };
        if !is_there(&self.files, object) {
            return Err(Status::DeletingObject);
        }
        self.contexts.get(worker, owner, object)
    }

    /// Takes the context of a kind off the callback's object (`FltDeleteVolumeContext`, `FltDeleteInstanceContext`, `FltDeleteStreamContext`,
    /// `FltDeleteStreamHandleContext`): its link's reference is released, or in the hand where it is wanted. Refused, nothing changed: 30 where the worker
    /// is in no callback of an instance, 21 where the filter didn't register the kind, 27 where the callback has no such object, 24 where none is set, 26
    /// where it is wanted and the hand has 16 references. It takes no memory.
    #[tactic(auto, unfolding(fm_world::specs::ContextEvents::Deletes))]
    pub fn delete(
        &mut self,
        worker: WorkerId,
        kind: ContextKind,
        wants_old: bool,
    ) -> Result<Option<CtxId>, Status>
        ensures event { Deletes self.old worker kind wants_old result self.new }
        ensures hand { OnlyHandOf worker.0 self.old self.new }
        ensures held { HoldsMore worker.0 result given_with self.old self.new }
    {
        let Some(caller) = self.caller(worker) else {
            return Err(Status::WrongStep);
        };
        let (owner, object) = match self.findable(caller, kind) {
            Ok(found) => found,
            Err(status) => return Err(status),
        };
        self.contexts.delete(worker, owner, object, wants_old)
    }
}
