//! The events that lend data out, hand it back or are lent some, by the manager.

ghost use Rattle.std.specs.Prelude.{◌≡◌, Err, IfErr};
ghost use Rattle.fm_core.specs.Returned.{status_of};
ghost use Rattle.fm_world.specs.Hands.{given_by_next};
ghost use Rattle.fm_world.specs.StepHands.{More, Nothing};
ghost use Rattle.fm_world.specs.declared.step.Step.TheVariants as step;
ghost use Rattle.fm_world.specs.declared.step.StepReply.TheVariants as reply;
ghost use Rattle.fm_lock.specs.Events.{Holding};
ghost use Rattle.fm_lock.specs.Lending.{wrong};
ghost use Rattle.fm_lock.specs.Runs.{IsMadeOr};

use crate::hand::Hand;
use crate::manager::Manager;
use fm_callback_data::{Answer, BaseCall, CallbackData, PostVerdict, PreVerdict};
use fm_operations::FlowAction;
use fm_types::{CtxId, OpId, Status};
use fm_world::Refused;
use std::sync::Wait;
use std::sync::ledger::Ledger;

impl<F: Drop, L: Ledger> Manager<F, L> {
    /// What the hand's worker has to do next for an operation. It answers as the State does: 30. The context that a postoperation or a drain brings back is
    /// one reference more in the hand. Who waits for the operation is told as by `turn`.
    pub fn next<R: Wait>(
        &self,
        rt: &R,
        hand: &mut Hand<L>,
        operation: OpId,
    ) -> Result<FlowAction, Status>
        ensures held { Holding (More result given_by_next) hand.old hand.new }
        ensures run { IsMadeOr (Err Status.WrongStep) (step.Next hand.old.worker operation) (reply.Action result) result }
    {
        self.turn(rt, hand, operation).action
    }

    /// The preoperation callback that the hand's worker is in returns: the hand is empty. It answers as the State does, 30 and 32, with the data handed back.
    pub fn pre_returned<R: Wait>(
        &self,
        rt: &R,
        hand: &mut Hand<L>,
        verdict: PreVerdict,
        lent: CallbackData,
    ) -> Result<(), Refused<CallbackData>>
        ensures held { Holding (Nothing (status_of result)) hand.old hand.new }
        ensures run { IsMadeOr (wrong lent) (step.PreReturned hand.old.worker verdict lent) (reply.Done (status_of result)) result }
        ensures back { IfErr result (λ refused. refused.handed_back ≡ lent) }
    {
        self.locked(rt).pre_returned(hand, verdict, lent)
    }

    /// The base call that the hand's worker is in returns. It answers as the State does, 30 and 32, with both handed back.
    pub fn base_returned<R: Wait>(
        &self,
        rt: &R,
        hand: &mut Hand<L>,
        call: BaseCall,
        given: Answer,
    ) -> Result<(), Refused<(BaseCall, Answer)>>
        ensures held { hand.new ≡ hand.old }
        ensures run { IsMadeOr (wrong (call, given)) (step.BaseReturned hand.old.worker call given) (reply.Done (status_of result)) result }
        ensures back { IfErr result (λ refused. refused.handed_back ≡ (call, given)) }
    {
        self.locked(rt).base_returned(hand, call, given)
    }

    /// The postoperation callback or the drain that the hand's worker is in returns: the hand is empty. It answers as the State does, 30 and 32, with the data
    /// handed back.
    pub fn post_returned<R: Wait>(
        &self,
        rt: &R,
        hand: &mut Hand<L>,
        verdict: PostVerdict,
        lent: Option<CallbackData>,
    ) -> Result<(), Refused<Option<CallbackData>>>
        ensures held { Holding (Nothing (status_of result)) hand.old hand.new }
        ensures run { IsMadeOr (wrong lent) (step.PostReturned hand.old.worker verdict lent) (reply.Done (status_of result)) result }
        ensures back { IfErr result (λ refused. refused.handed_back ≡ lent) }
    {
        self.locked(rt).post_returned(hand, verdict, lent)
    }

    /// Writes the bytes of a context that the hand has, which takes no memory. It answers as the State does: 30, 25, 32. The bytes are lent: an event as a value
    /// would own a copy of them, which could want memory.
    pub fn write_body<R: Wait>(
        &self,
        rt: &R,
        hand: &mut Hand<L>,
        context: CtxId,
        bytes: &[u8],
    ) -> Result<(), Status>
        ensures held { hand.new ≡ hand.old }
        ensures run { IsMadeOr (Err Status.WrongStep) (step.WriteBody hand.old.worker context bytes.now) (reply.Done result) result }
    {
        self.locked(rt).write_body(hand, context, bytes)
    }
}
