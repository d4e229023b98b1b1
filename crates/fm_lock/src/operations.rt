//! The events that lend data out, hand it back or are lent some: by the hand of their worker, with what a refusal hands back.

ghost use Rattle.std.specs.Prelude.{◌≡◌, Err, IfErr};
ghost use Rattle.fm_core.specs.Returned.{status_of};
ghost use Rattle.fm_world.specs.Hands.{given_by_next};
ghost use Rattle.fm_world.specs.StepHands.{More, Nothing};
ghost use Rattle.fm_world.specs.declared.step.Step.TheVariants as step;
ghost use Rattle.fm_world.specs.declared.step.StepReply.TheVariants as reply;
ghost use Rattle.fm_lock.specs.Events.{Holding};
ghost use Rattle.fm_lock.specs.Lending.{BaseReturnsBy, NextsBy, PostReturnsBy, PreReturnsBy, WritesBodyBy, wrong};
ghost use Rattle.fm_lock.specs.Runs.{IsMadeOr};

use crate::hand::Hand;
use crate::locked::Locked;
use fm_callback_data::{Answer, BaseCall, CallbackData, PostVerdict, PreVerdict};
use fm_operations::FlowAction;
use fm_types::{CtxId, OpId, Status};
use fm_world::Refused;
use std::sync::ledger::Ledger;

impl<L: Ledger> Locked<L> {
    /// What the hand's worker has to do next for an operation, as the State's `next`. Refused with 30 before the event, nothing changed, if the hand's number
    /// isn't the State's.
    #[tactic(auto, using(crate::proofs::Running::after_next, crate::proofs::Running::next_made))]
    pub fn next(&mut self, hand: &mut Hand<L>, operation: OpId) -> Result<FlowAction, Status>
        ensures event { NextsBy operation self.old hand.old result self.new hand.new }
        ensures run { IsMadeOr (Err Status.WrongStep) (step.Next hand.old.worker operation) (reply.Action result) result }
        ensures held { Holding (More result given_by_next) hand.old hand.new }
    {
        let worker = hand.worker();
        if self.state.hand_len(worker) as u64 != hand.held() {
            return Err(Status::WrongStep);
        }
        let result = self.state.next(worker, operation);
        hand.settle(&mut self.book, self.state.hand_len(worker) as u64);
        result
    }

    /// The preoperation callback that the hand's worker is in returns, as the State's `pre_returned`. Refused with 30 before the event, nothing changed and
    /// the data handed back, if the hand's number isn't the State's.
    #[tactic(auto, using(crate::proofs::Running::after_pre, crate::proofs::Running::pre_made))]
    pub fn pre_returned(
        &mut self,
        hand: &mut Hand<L>,
        verdict: PreVerdict,
        lent: CallbackData,
    ) -> Result<(), Refused<CallbackData>>
        ensures event { PreReturnsBy verdict lent self.old hand.old result self.new hand.new }
        ensures run { IsMadeOr (wrong lent) (step.PreReturned hand.old.worker verdict lent) (reply.Done (status_of result)) result }
        ensures held { Holding (Nothing (status_of result)) hand.old hand.new }
        ensures back { IfErr result (λ refused. refused.handed_back ≡ lent) }
    {
        let worker = hand.worker();
        if self.state.hand_len(worker) as u64 != hand.held() {
            return Err(Refused {
                status: Status::WrongStep,
                handed_back: lent,
            });
        }
        let result = self.state.pre_returned(worker, verdict, lent);
        hand.settle(&mut self.book, self.state.hand_len(worker) as u64);
        result
    }

    /// The base call that the hand's worker is in returns, as the State's `base_returned`. Refused with 30 before the event, nothing changed and both handed
    /// back, if the hand's number isn't the State's.
    #[tactic(auto, using(fm_world::proofs::Handing::keeps_held, crate::proofs::Running::after_base, crate::proofs::Running::base_made))]
    pub fn base_returned(
        &mut self,
        hand: &mut Hand<L>,
        call: BaseCall,
        given: Answer,
    ) -> Result<(), Refused<(BaseCall, Answer)>>
        ensures event { BaseReturnsBy call given self.old hand.old result self.new hand.new }
        ensures run { IsMadeOr (wrong (call, given)) (step.BaseReturned hand.old.worker call given) (reply.Done (status_of result)) result }
        ensures held { hand.new ≡ hand.old }
        ensures back { IfErr result (λ refused. refused.handed_back ≡ (call, given)) }
    {
        let worker = hand.worker();
        if self.state.hand_len(worker) as u64 != hand.held() {
            return Err(Refused {
                status: Status::WrongStep,
                handed_back: (call, given),
            });
        }
        let result = self.state.base_returned(worker, call, given);
        hand.settle(&mut self.book, self.state.hand_len(worker) as u64);
        result
    }

    /// The postoperation callback or the drain that the hand's worker is in returns, as the State's `post_returned`. Refused with 30 before the event, nothing
    /// changed and the data handed back, if the hand's number isn't the State's.
    #[tactic(auto, using(crate::proofs::Running::after_post, crate::proofs::Running::post_made))]
    pub fn post_returned(
        &mut self,
        hand: &mut Hand<L>,
        verdict: PostVerdict,
        lent: Option<CallbackData>,
    ) -> Result<(), Refused<Option<CallbackData>>>
        ensures event { PostReturnsBy verdict lent self.old hand.old result self.new hand.new }
        ensures run { IsMadeOr (wrong lent) (step.PostReturned hand.old.worker verdict lent) (reply.Done (status_of result)) result }
        ensures held { Holding (Nothing (status_of result)) hand.old hand.new }
        ensures back { IfErr result (λ refused. refused.handed_back ≡ lent) }
    {
        let worker = hand.worker();
        if self.state.hand_len(worker) as u64 != hand.held() {
            return Err(Refused {
                status: Status::WrongStep,
                handed_back: lent,
            });
        }
        let result = self.state.post_returned(worker, verdict, lent);
        hand.settle(&mut self.book, self.state.hand_len(worker) as u64);
        result
    }

    /// Replaces the bytes of a context that the hand's worker has, as the State's `write_body`; it takes no memory. Refused with 30 before the event, nothing
    /// changed, if the hand's number isn't the State's.
    #[tactic(auto, using(fm_world::proofs::Handing::keeps_held, crate::proofs::Running::after_write, crate::proofs::Running::write_made))]
    pub fn write_body(
        &mut self,
        hand: &mut Hand<L>,
        context: CtxId,
        bytes: &[u8],
    ) -> Result<(), Status>
        ensures event { WritesBodyBy context bytes.now self.old hand.old result self.new hand.new }
        ensures run { IsMadeOr (Err Status.WrongStep) (step.WriteBody hand.old.worker context bytes.now) (reply.Done result) result }
        ensures held { hand.new ≡ hand.old }
    {
        let worker = hand.worker();
        if self.state.hand_len(worker) as u64 != hand.held() {
            return Err(Status::WrongStep);
        }
        let result = self.state.write_body(worker, context, bytes);
        hand.settle(&mut self.book, self.state.hand_len(worker) as u64);
        result
    }
}
