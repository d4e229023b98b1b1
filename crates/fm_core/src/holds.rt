//! Held operations: a callback of the instance that holds one lets it go on, or asks for the first.

ghost use Rattle.std.specs.Prelude.{◌≡◌, true, false, IfNone, IfSome, Some, None};
ghost use Rattle.fm_operations.specs.Table.{operation_at, told};
ghost use Rattle.fm_operations.specs.Holds.{is_held};
ghost use Rattle.fm_operations.specs.Steps.{takes};
ghost use Rattle.fm_world.specs.Changes.{ChangesHeld};
ghost use Rattle.fm_world.specs.Events.{ResumesPre, ResumesPost, FindsHeld, lets_go, sync_worker};
ghost use Rattle.fm_world.specs.Hands.{OnlyHandOf, KeepsHands, HoldsFewer};
ghost use Rattle.fm_core.specs.Callers.{taken_at};

use crate::descent::{drains_next, has_post};
use crate::references::{of_hand, send, sent_in};
use crate::state::State;
use crate::target::{note_verdict, target_of};
use fm_callback_data::{Params, PreVerdict};
use fm_operations::{Flow, Hold, OperationRecord, counted};
use fm_types::{InstanceId, OpId, Status, WorkerId};

/// Whether the operation goes on by that verdict.
fn lets_go(verdict: PreVerdict) -> bool
    ensures { result ≡ lets_go verdict }
{
    !matches!(verdict, PreVerdict::Pending | PreVerdict::Synchronize(_))
}

/// The operation, where a callback of that kind of the instance holds it.
fn held_record(
    flow: &Flow,
    hold: Hold,
    operation: OpId,
    instance: InstanceId,
) -> Option<&OperationRecord>
    ensures none { IfNone result (told (is_held hold instance.0) false operation flow.now ≡ false) }
    ensures some { IfSome result (λ held. (operation_at operation flow.now ≡ Some held.now) × (is_held hold instance.0 held.now ≡ true)) }
{
    let record = flow.record(operation)?;
    if record.is_held(hold, instance) {
        Some(record)
    } else {
        None
    }
}

/// Whether those are parameters of the operation.
fn takes(operation: &OperationRecord, params: &Params) -> bool
    ensures { result ≡ takes params.now operation.now }
{
    params.fit(operation.operation(), operation.path())
}

impl State {
    /// Lets an operation go on that a preoperation callback held (`FltCompletePendedPreOperation`), with the verdict that the preoperation gives after all:
    /// it counts as that of `pre_returned`. The worker is in a callback of the same instance, for whatever operation, and stays there. A completion takes a
    /// context of the worker's hand along, and counts as having none where the hand has it not; the rest of the hand stays. Where a create that it completes
    /// was all that kept its stream, the contexts set on that lose their links. Refused, nothing changed: 30 where the worker is in no callback of an
    /// instance, 32 for Pending and Synchronize, 28 where no preoperation of the instance holds the operation. It takes no memory.
    #[tactic(auto, unfolding(fm_world::specs::Events::ResumesPre))]
    pub fn resume_pre(
        &mut self,
        worker: WorkerId,
        operation: OpId,
        verdict: PreVerdict,
    ) -> Result<(), Status>
        ensures event { ResumesPre self.old worker operation verdict result self.new }
        ensures hand { OnlyHandOf worker.0 self.old self.new }
        ensures held { HoldsFewer worker.0 result (taken_at self.old worker operation verdict) self.old self.new }
    {
        let Some(instance) = self.instance_of(worker) else {
            return Err(Status::WrongStep);
        };
        if !lets_go(verdict) {
            return Err(Status::BadRequest);
        }
        let Some(held) = held_record(&self.flow, Hold::Pre, operation, instance) else {
            return Err(Status::NotPended);
        };
        let target = target_of(held);
        let has_post = has_post(&self.stack, instance, target.operation);
        self.contexts.laws();
        let verdict = of_hand(&self.contexts, worker, verdict);
        let state = counted(verdict, target.operation, has_post);
        self.flow.resume_pre(operation, state);
        send(&mut self.contexts, worker, sent_in(&state));
        note_verdict(
            &mut self.files,
            &mut self.contexts,
            &self.flow,
            target,
            state,
        );
        Ok(())
    }

    /// Lets an operation go on that a postoperation callback held (`FltCompletePendedPostOperation`): the postoperation is over. The worker is in a callback
    /// of the same instance, for whatever operation, and stays there. Refused, nothing changed: 30 where the worker is in no callback of an instance, 28 where
    /// no postoperation of the instance holds the operation. It takes no memory.
    #[tactic(auto, unfolding(fm_world::specs::Events::ResumesPost))]
    pub fn resume_post(&mut self, worker: WorkerId, operation: OpId) -> Result<(), Status>
        ensures event { ResumesPost self.old worker operation result self.new }
        ensures hand { KeepsHands self.old self.new }
    {
        let Some(instance) = self.instance_of(worker) else {
            return Err(Status::WrongStep);
        };
        let Some(_held) = held_record(&self.flow, Hold::Post, operation, instance) else {
            return Err(Status::NotPended);
        };
        self.flow.resume_post(operation);
        Ok(())
    }

    /// Has other parameters go down of an operation that a preoperation callback held, in place of those that it received: those below receive them, and the
    /// postoperations of that callback and of those above it see what they were to see. It may be done several times, and the last counts. The worker is in a
    /// callback or a routine of the same instance, and stays there. Refused, nothing changed: 30 where the worker is in no callback of an instance, 28 where no
    /// preoperation of the instance holds the operation, 32 for parameters of another operation, on another path of a create, or past a limit. It takes no memory.
    #[tactic(auto, unfolding(fm_world::specs::Changes::ChangesHeld))]
    pub fn change_held(
        &mut self,
        worker: WorkerId,
        operation: OpId,
        params: Params,
    ) -> Result<(), Status>
        ensures event { ChangesHeld self.old worker operation params result self.new }
        ensures hand { KeepsHands self.old self.new }
    {
        let Some(instance) = self.instance_of(worker) else {
            return Err(Status::WrongStep);
        };
        let Some(record) = held_record(&self.flow, Hold::Pre, operation, instance) else {
            return Err(Status::NotPended);
        };
        if !takes(record, &params) {
            return Err(Status::BadRequest);
        }
        self.flow.change_held(operation, params);
        Ok(())
    }

    /// The first operation, by number, that a callback of that kind of the worker's instance holds; none where it holds none. Refused with 30 where the worker
    /// is in no callback of an instance. Nothing changes.
    #[tactic(auto, unfolding(fm_world::specs::Events::FindsHeld))]
    pub fn first_held(&self, worker: WorkerId, hold: Hold) -> Result<Option<OpId>, Status>
        ensures { FindsHeld self.now worker hold result self.now }
    {
        let Some(instance) = self.instance_of(worker) else {
            return Err(Status::WrongStep);
        };
        Ok(self.flow.first_held(hold, instance))
    }

    /// The worker that alone `next` would give the next postoperation of an operation, were it idle: the preoperation asked for it as synchronized
    /// (`FLT_PREOP_SYNCHRONIZE`). None where there is no such operation, a worker has it or a filter holds it, where any worker may go on with it, and
    /// where it is done.
    pub fn sync_worker(&self, operation: OpId) -> Option<WorkerId>
        ensures { result ≡ sync_worker self.now operation }
    {
        let record = self.flow.record(operation)?;
        record.synchronized_with(drains_next(&self.stack, record))
    }
}
