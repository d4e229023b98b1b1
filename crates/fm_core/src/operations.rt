//! Events on operations.

ghost use Rattle.std.specs.Prelude.{◌≡◌, true, IfErr, Some, None, Ok};
ghost use Rattle.fm_world.specs.Workers.{worker_at, gives_nothing};
ghost use Rattle.fm_core.specs.Places.{post_of, drain_of};
ghost use Rattle.fm_world.specs.Events.{Nexts, PreReturns, BaseReturns, PostReturns, Collects};
ghost use Rattle.fm_world.specs.Hands.{OnlyHandOf, KeepsHands, HoldsMore, HoldsNone, given_by_next};
ghost use Rattle.fm_core.specs.Returned.{status_of};

use crate::descent::{drains_next, has_post, lies_below};
use crate::references::{bring_back, end_callback, of_hand, sent_in};
use crate::state::State;
use crate::target::{known_in, note_answer, note_verdict, target_of};
use crate::workers::{base_of, drain_of, note_next, post_of, pre_of, put};
use fm_callback_data::{Answer, BaseCall, CallbackData, PostVerdict, PreVerdict};
use fm_operations::{FlowAction, counted};
use fm_types::{HandleId, InstanceId, OpId, Status, WorkerId};
use fm_world::{Place, Refused};

impl State {
    /// Answers what a worker has to do next for an operation: call a callback or the base, ask again (an entry was recorded without a call), wait until
    /// a filter resumes it, or nothing more. After a callback or a call the worker is inside it. Refused with 30, nothing changed: where the worker
    /// isn't idle or isn't there, where there is no such operation or another worker is inside it, and where the next callback is a synchronized
    /// postoperation of another worker. The context that a completion carries is in the worker's hand again. Where the base's answer was known and took
    /// away a handle or a stream, the contexts set on it lose their links. Where the operation is held or done nothing changes either. It takes no memory.
    #[tactic(auto, unfolding(fm_world::specs::Events::Nexts))]
    pub fn next(&mut self, worker: WorkerId, operation: OpId) -> Result<FlowAction, Status>
        ensures event { Nexts self.old worker operation result self.new }
        ensures nothing { gives_nothing result ≡ true → self.new ≡ self.old }
        ensures hand { OnlyHandOf worker.0 self.old self.new }
        ensures held { HoldsMore worker.0 result given_by_next self.old self.new }
    {
        if !self.is_idle(worker) {
            return Err(Status::WrongStep);
        }
        let Some(record) = self.flow.record(operation) else {
            return Err(Status::WrongStep);
        };
        let target = target_of(record);
        let below = lies_below(&self.stack, &self.files, &self.flow, record);
        let drains = drains_next(&self.stack, record);
        self.contexts.laws();
        let _next = self.flow.next_number();
        let action = match self.flow.next(operation, worker, below, drains) {
            Ok(action) => action,
            Err(status) => return Err(status),
        };
        bring_back(&mut self.contexts, worker, &action);
        note_next(&mut self.workers, worker, operation, &action);
        let Some(status) = known_in(&action, below) else {
            return Ok(action);
        };
        note_answer(
            &mut self.files,
            &mut self.contexts,
            &self.flow,
            target,
            status,
        );
        Ok(action)
    }

    /// The preoperation callback that the worker is in returns, with its verdict and its data. A completion takes a context of the worker's hand along, and
    /// counts as having none where the hand has it not; what else is in the hand is released and counts as leaked. Where a create that it completes was all
    /// that kept its stream, the contexts set on that lose their links. Refused, nothing changed and the data handed back: 30
    /// where the worker is in no preoperation, 32 where the data is strange: of another operation, on another path of a create, or past a limit.
    #[tactic(auto, unfolding(fm_world::specs::Events::PreReturns))]
    pub fn pre_returned(
        &mut self,
        worker: WorkerId,
        verdict: PreVerdict,
        lent: CallbackData,
    ) -> Result<(), Refused<CallbackData>>
        ensures event { PreReturns self.old worker verdict lent (status_of result) self.new }
        ensures hand { OnlyHandOf worker.0 self.old self.new }
        ensures held { HoldsNone worker.0 (status_of result) self.old self.new }
        ensures back { IfErr result (λ refused. refused.handed_back ≡ lent) }
    {
        let Some((operation, instance)) = pre_of(self.place(worker)) else {
            return Err(Refused {
                status: Status::WrongStep,
                handed_back: lent,
            });
        };
        let Some(record) = self.flow.record(operation) else {
            unreachable!();
        };
        let target = target_of(record);
        let has_post = has_post(&self.stack, instance, target.operation);
        self.contexts.laws();
        let verdict = of_hand(&self.contexts, worker, verdict);
        let state = counted(verdict, target.operation, has_post);
        if let Err(handed_back) = self.flow.pre_returned(operation, state, lent) {
            return Err(Refused {
                status: Status::BadRequest,
                handed_back,
            });
        }
        end_callback(&mut self.contexts, worker, sent_in(&state));
        put(&mut self.workers, worker, Place::Idle);
        note_verdict(
            &mut self.files,
            &mut self.contexts,
            &self.flow,
            target,
            state,
        );
        Ok(())
    }

    /// The base call that the worker is in returns, with what it was asked and its answer. The contexts that are set on a handle that closes, or on a
    /// stream that is torn down, lose their links. Refused, nothing changed and both handed back: 30 where the worker is in no base call, 32 where the call
    /// is strange (of another volume, file or operation, or past a limit) or more than 32,768 bytes come back.
    #[tactic(auto, unfolding(fm_world::specs::Events::BaseReturns))]
    pub fn base_returned(
        &mut self,
        worker: WorkerId,
        call: BaseCall,
        given: Answer,
    ) -> Result<(), Refused<(BaseCall, Answer)>>
        ensures event { BaseReturns self.old worker call given (status_of result) self.new }
        ensures hand { KeepsHands self.old self.new }
        ensures back { IfErr result (λ refused. refused.handed_back ≡ (call, given)) }
    {
        let Some(operation) = base_of(self.place(worker)) else {
            return Err(Refused {
                status: Status::WrongStep,
                handed_back: (call, given),
            });
        };
        let Some(record) = self.flow.record(operation) else {
            unreachable!();
        };
        let target = target_of(record);
        let _next = self.flow.next_number();
        let handle = HandleId(self.files.next_number());
        let status = given.status;
        if let Err(handed_back) = self.flow.base_returned(operation, call, given, handle) {
            return Err(Refused {
                status: Status::BadRequest,
                handed_back,
            });
        }
        put(&mut self.workers, worker, Place::Idle);
        note_answer(
            &mut self.files,
            &mut self.contexts,
            &self.flow,
            target,
            status,
        );
        Ok(())
    }

    /// The postoperation callback that the worker is in returns, with its verdict and its data; or the drain, which has no data and whose verdict counts as
    /// Finished. What is in the worker's hand is released and counts as leaked. Refused, nothing changed and the data handed back: 30 where the worker is
    /// in neither, 32 where the data is strange, where a postoperation has none or a drain has some.
    #[tactic(auto, using(fm_world::proofs::Returns::post_does), unfolding(fm_world::specs::Events::PostReturns))]
    pub fn post_returned(
        &mut self,
        worker: WorkerId,
        verdict: PostVerdict,
        lent: Option<CallbackData>,
    ) -> Result<(), Refused<Option<CallbackData>>>
        ensures event { PostReturns self.old worker verdict lent (status_of result) self.new }
        ensures hand { OnlyHandOf worker.0 self.old self.new }
        ensures held { HoldsNone worker.0 (status_of result) self.old self.new }
        ensures back { IfErr result (λ refused. refused.handed_back ≡ lent) }
    {
        if let Some((operation, instance)) = post_of(self.place(worker)) {
            let Some(lent) = lent else {
                return Err(Refused {
                    status: Status::BadRequest,
                    handed_back: None,
                });
            };
            return self.post_data_returned(worker, operation, instance, verdict, lent);
        }
        let Some((operation, instance)) = drain_of(self.place(worker)) else {
            return Err(Refused {
                status: Status::WrongStep,
                handed_back: lent,
            });
        };
        if lent.is_some() {
            return Err(Refused {
                status: Status::BadRequest,
                handed_back: lent,
            });
        }
        self.drain_returned(worker, operation, instance, verdict);
        Ok(())
    }

    /// A postoperation returns, with data.
    fn post_data_returned(
        &mut self,
        worker: WorkerId,
        operation: OpId,
        instance: InstanceId,
        verdict: PostVerdict,
        lent: CallbackData,
    ) -> Result<(), Refused<Option<CallbackData>>>
        requires { post_of (worker_at self.old.workers worker) ≡ Some (operation, instance) }
        ensures event { PostReturns self.old worker verdict (Some lent) (status_of result) self.new }
        ensures back { IfErr result (λ refused. refused.handed_back ≡ Some lent) }
    {
        if let Err(lent) = self.flow.post_returned(operation, verdict, lent) {
            return Err(Refused {
                status: Status::BadRequest,
                handed_back: Some(lent),
            });
        }
        end_callback(&mut self.contexts, worker, None);
        put(&mut self.workers, worker, Place::Idle);
        Ok(())
    }

    /// A drain returns.
    fn drain_returned(
        &mut self,
        worker: WorkerId,
        operation: OpId,
        instance: InstanceId,
        _verdict: PostVerdict,
    )
        requires { drain_of (worker_at self.old.workers worker) ≡ Some (operation, instance) }
        ensures { PostReturns self.old worker _verdict None (Ok tt) self.new }
    {
        self.flow.drain_returned(operation, instance);
        end_callback(&mut self.contexts, worker, None);
        put(&mut self.workers, worker, Place::Idle);
    }

    /// Hands out the answer of a done operation, once, and forgets the operation. Refused with 30, nothing changed, where there is no such operation,
    /// where it isn't done, or where its answer was handed out.
    pub fn collect(&mut self, operation: OpId) -> Result<Answer, Status>
        ensures event { Collects self.old operation result self.new }
        ensures hand { KeepsHands self.old self.new }
    {
        self.flow.collect(operation)
    }
}
