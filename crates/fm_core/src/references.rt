//! References that workers hold: what becomes of a hand where a callback begins with a completion and where one ends, and the events on contexts in a hand.

ghost use Rattle.std.specs.Prelude.{◌≡◌, ◌<◌};
ghost use Rattle.fm_ctx.specs.Bags.{hand_of};
ghost use Rattle.fm_operations.specs.declared.entry.PreState.{PreState as CountedState};
ghost use Rattle.fm_world.specs.ContextEvents.{References, Releases, ReadsBody, WritesBody, Bumps};
ghost use Rattle.fm_world.specs.Events.{of_hand, held_context, sent_in};
ghost use Rattle.fm_world.specs.Hands.{OnlyHandOf, KeepsHands, HoldsFewer, HoldsMore};
ghost use Rattle.fm_core.specs.Hands.{back_in, MayBring, kept_brought, MaySend, kept_sent, Ends, SweepsUnless};

use crate::state::State;
use fm_callback_data::{Completion, PreVerdict};
use fm_ctx::{Contexts, Owner};
use fm_operations::{FlowAction, PreState};
use fm_types::{Bytes, CtxId, InstanceId, Status, WorkerId};

// A completion's context, where the worker holds it.
fn held_context(contexts: &Contexts, worker: WorkerId, context: Option<CtxId>) -> Option<CtxId>
    requires { worker.0 < 48 }
    ensures { result ≡ held_context (hand_of contexts.now.table.hands worker.0) context }
{
    match context {
        Some(id) if contexts.holds(worker, id) => Some(id),
        _ => None,
    }
}

/// The verdict, with its completion's context only where the worker holds it.
pub(crate) fn of_hand(contexts: &Contexts, worker: WorkerId, verdict: PreVerdict) -> PreVerdict
    requires { worker.0 < 48 }
    ensures { result ≡ of_hand (hand_of contexts.now.table.hands worker.0) verdict }
{
    match verdict {
        PreVerdict::WithCallback(completion) => PreVerdict::WithCallback(Completion {
            context: held_context(contexts, worker, completion.context),
            ..completion
        }),
        PreVerdict::Synchronize(completion) => PreVerdict::Synchronize(Completion {
            context: held_context(contexts, worker, completion.context),
            ..completion
        }),
        PreVerdict::NoCallback => PreVerdict::NoCallback,
        PreVerdict::Complete(status) => PreVerdict::Complete(status),
        PreVerdict::Pending => PreVerdict::Pending,
    }
}

/// The context that a verdict sends along with its completion.
pub(crate) fn sent_in(state: &PreState) -> Option<CtxId>
    ensures { result ≡ sent_in state.now }
{
    match state {
        PreState::Asked(completion) | PreState::Synchronized(completion) => completion.context,
        _ => None,
    }
}

/// A context that a completion carried is in the worker's hand again.
pub(crate) fn bring(contexts: &mut Contexts, worker: WorkerId, brought: Option<CtxId>)
    requires { MayBring contexts.old worker.0 brought }
    ensures { contexts.new ≡ kept_brought contexts.old worker.0 brought }
{
    if let Some(id) = brought {
        contexts.bring(worker, id);
    }
}

/// A callback begins: the context that its completion carried is in the worker's hand again.
pub(crate) fn bring_back(contexts: &mut Contexts, worker: WorkerId, action: &FlowAction)
    requires { MayBring contexts.old worker.0 (back_in action.now) }
    ensures { contexts.new ≡ kept_brought contexts.old worker.0 (back_in action.now) }
{
    match action {
        FlowAction::Post(_, _, completion) | FlowAction::Drain(_, completion) => {
            bring(contexts, worker, completion.context);
        }
        _ => {}
    }
}

/// A completion takes a context along, out of the worker's hand.
pub(crate) fn send(contexts: &mut Contexts, worker: WorkerId, sent: Option<CtxId>)
    requires within { worker.0 < 48 }
    requires sends { MaySend contexts.old worker.0 sent }
    ensures { contexts.new ≡ kept_sent contexts.old worker.0 sent }
{
    if let Some(id) = sent {
        contexts.carry(worker, id);
    }
}

/// A callback ends: its completion takes a context along, and what is left in the hand leaks.
pub(crate) fn end_callback(contexts: &mut Contexts, worker: WorkerId, sent: Option<CtxId>)
    requires within { worker.0 < 48 }
    requires sends { MaySend contexts.old worker.0 sent }
    ensures { Ends (kept_sent contexts.old worker.0 sent) contexts.new worker.0 }
{
    send(contexts, worker, sent);
    contexts.leave(worker);
}

/// Where an instance isn't attached, its contexts lose their links.
pub(crate) fn unlink_unless(
    contexts: &mut Contexts,
    instance: InstanceId,
    attached: &Result<(), Status>,
)
    ensures { SweepsUnless attached.now instance contexts.old contexts.new }
{
    if attached.is_err() {
        contexts.unlink_owner(Owner::Instance(instance));
    }
}

impl State {
    /// Takes one more reference to a context that the worker holds (`FltReferenceContext`). Refused, nothing changed: 30 where the worker is in no callback
    /// of an instance, 25 where it doesn't hold the context, 26 where its hand has 16 references. It takes no memory.
    #[tactic(auto, unfolding(fm_world::specs::ContextEvents::References))]
    pub fn reference(&mut self, worker: WorkerId, context: CtxId) -> Result<(), Status>
        ensures event { References self.old worker context result self.new }
        ensures hand { OnlyHandOf worker.0 self.old self.new }
        ensures held { HoldsMore worker.0 result (λ _. 1) self.old self.new }
    {
        let Some(_caller) = self.caller(worker) else {
            return Err(Status::WrongStep);
        };
        self.contexts.reference(worker, context)
    }

    /// Gives up one reference of the worker's hand (`FltReleaseContext`): with the last one the context is due. Refused, nothing changed: 30 where the worker
    /// is in no callback of an instance, 25 where it doesn't hold the context. It takes no memory.
    #[tactic(auto, unfolding(fm_world::specs::ContextEvents::Releases))]
    pub fn release(&mut self, worker: WorkerId, context: CtxId) -> Result<(), Status>
        ensures event { Releases self.old worker context result self.new }
        ensures hand { OnlyHandOf worker.0 self.old self.new }
        ensures held { HoldsFewer worker.0 result 1 self.old self.new }
    {
        let Some(_caller) = self.caller(worker) else {
            return Err(Status::WrongStep);
        };
        self.contexts.release(worker, context)
    }

    /// A copy of the body of a context that the worker holds. Refused, nothing changed: 30 where the worker is in no callback of an instance, 25 where it
    /// doesn't hold the context, 1.
    #[tactic(auto, unfolding(fm_world::specs::ContextEvents::ReadsBody))]
    pub fn read_body(&mut self, worker: WorkerId, context: CtxId) -> Result<Bytes, Status>
        ensures event { ReadsBody self.old worker context result self.new }
        ensures hand { KeepsHands self.old self.new }
    {
        let Some(_caller) = self.caller(worker) else {
            return Err(Status::WrongStep);
        };
        self.contexts.read_body(worker, context)
    }

    /// Replaces the body of a context that the worker holds. Refused, nothing changed: 30 where the worker is in no callback of an instance, 25 where it
    /// doesn't hold the context, 32 where the bytes have another length than the body. It takes no memory.
    #[tactic(auto, unfolding(fm_world::specs::ContextEvents::WritesBody))]
    pub fn write_body(
        &mut self,
        worker: WorkerId,
        context: CtxId,
        bytes: &[u8],
    ) -> Result<(), Status>
        ensures event { WritesBody self.old worker context bytes.now result self.new }
        ensures hand { KeepsHands self.old self.new }
    {
        let Some(_caller) = self.caller(worker) else {
            return Err(Status::WrongStep);
        };
        self.contexts.write_body(worker, context, bytes)
    }

    /// Adds to the number at a place of the body of a context that the worker holds, and answers the sum: eight bytes, the highest first, modulo 2^64. Refused,
    /// nothing changed: 30 where the worker is in no callback of an instance, 25 where it doesn't hold the context, 32 where the number would go past the
    /// body's end. It takes no memory.
    #[tactic(auto, unfolding(fm_world::specs::ContextEvents::Bumps))]
    pub fn bump(
        &mut self,
        worker: WorkerId,
        context: CtxId,
        place: u64,
        by: u64,
    ) -> Result<u64, Status>
        ensures event { Bumps self.old worker context place by result self.new }
        ensures hand { KeepsHands self.old self.new }
    {
        let Some(_caller) = self.caller(worker) else {
            return Err(Status::WrongStep);
        };
        self.contexts.bump(worker, context, place, by)
    }
}
