//! An operation's next turn, with all that a worker has to know for it: one event, and what can be read at the same moment.

ghost use Rattle.std.specs.Prelude.{◌≡◌, Err, None, MatchResult, length, nat_lt};
ghost use Rattle.fm_world.specs.Events.{sync_worker};
ghost use Rattle.fm_world.specs.Hands.{given_by_next};
ghost use Rattle.fm_world.specs.StepHands.{More};
ghost use Rattle.fm_world.specs.declared.step.Step.TheVariants as step;
ghost use Rattle.fm_world.specs.declared.step.StepReply.TheVariants as reply;
ghost use Rattle.fm_lock.specs.Events.{Holding};
ghost use Rattle.fm_lock.specs.Lending.{NextsBy};
ghost use Rattle.fm_lock.specs.Runs.{IsMadeOr};
ghost use Rattle.fm_lock.specs.Turns.{called_by, place_called_by, place_of_instance};

use crate::hand::Hand;
use crate::locked::Locked;
use crate::manager::{Manager, is_done};
use fm_operations::FlowAction;
use fm_types::{InstanceId, OpId, Status, WorkerId};
use std::sync::Wait;
use std::sync::ledger::Ledger;

/// What a worker learns of an operation's next turn, all at one moment. The filter is lent, or inside the lock is its place among those that were handed in.
#[derive(Drop)]
pub struct Turn<T: Copy> {
    /// What the worker has to do next, as `next` answers it.
    pub action: Result<FlowAction, Status>,
    /// The filter of the instance whose callback that is; none where it is no callback.
    pub filter: Option<T>,
    /// Where the operation is refused: the worker that alone would be given its next postoperation, if there is one.
    pub bound_to: Option<WorkerId>,
    /// Whether a context is due for its cleanup.
    pub has_due: bool,
}

// The instance whose callback an action is.
fn called_by(action: &Result<FlowAction, Status>) -> Option<InstanceId>
    ensures { result ≡ called_by action.now }
{
    match action {
        Ok(FlowAction::Pre(instance, _)) => Some(*instance),
        Ok(FlowAction::Post(instance, _, _)) => Some(*instance),
        Ok(FlowAction::Drain(instance, _)) => Some(*instance),
        _ => None,
    }
}

impl<L: Ledger> Locked<L> {
    /// The place of an instance's filter among those that were handed in; none where the instance isn't there.
    pub fn place_of_instance(&self, instance: InstanceId) -> Option<usize>
        ensures { result ≡ place_of_instance self.now instance }
    {
        match self.state.filter_of(instance) {
            Some(filter) => self.place_of(filter),
            None => None,
        }
    }

    // The place of the filter whose callback an action is.
    fn place_called_by(&self, action: &Result<FlowAction, Status>) -> Option<usize>
        ensures { result ≡ place_called_by self.now action.now }
    {
        match called_by(action) {
            Some(instance) => self.place_of_instance(instance),
            None => None,
        }
    }

    // Whose turn an operation is, where it was refused.
    fn bound_to(&self, operation: OpId, action: &Result<FlowAction, Status>) -> Option<WorkerId>
        ensures { MatchResult action.now (λ _. result ≡ None) (λ _. result ≡ sync_worker self.now.world operation) }
    {
        match action {
            Ok(_) => None,
            Err(_) => self.state.sync_worker(operation),
        }
    }

    /// What the hand's worker has to do next for an operation, as `next`; and at the same moment the place of the filter whose callback that is, whether
    /// a context is due, and where the operation is refused, whose turn it is.
    pub fn turn(&mut self, hand: &mut Hand<L>, operation: OpId) -> Turn<usize>
        ensures event { NextsBy operation self.old hand.old result.action self.new hand.new }
        ensures run { IsMadeOr (Err Status.WrongStep) (step.Next hand.old.worker operation) (reply.Action result.action) result.action }
        ensures held { Holding (More result.action given_by_next) hand.old hand.new }
        ensures filter { result.filter ≡ place_called_by self.new result.action }
        ensures bound { MatchResult result.action (λ _. result.bound_to ≡ None) (λ _. result.bound_to ≡ sync_worker self.new.world operation) }
        ensures due { result.has_due ≡ nat_lt 0 (length self.new.world.contexts.due) }
    {
        let action = self.next(hand, operation);
        let filter = self.place_called_by(&action);
        let bound_to = self.bound_to(operation, &action);
        Turn {
            action,
            filter,
            bound_to,
            has_due: self.state.has_due(),
        }
    }
}

impl<F: Drop, L: Ledger> Manager<F, L> {
    /// What the hand's worker has to do next for an operation, as `next`; and at the same moment the filter whose callback that is, whether a context is
    /// due, and where the operation is refused, whose turn it is: so a worker that has to call that filter, to leave the operation or to give it to another knows no more and no less than
    /// the answer. Who waits for the operation is told if it is done, or is the turn of one that waits.
    pub fn turn<R: Wait>(&self, rt: &R, hand: &mut Hand<L>, operation: OpId) -> Turn<&F>
        ensures held { Holding (More result.action given_by_next) hand.old hand.new }
        ensures run { IsMadeOr (Err Status.WrongStep) (step.Next hand.old.worker operation) (reply.Action result.action) result.action }
        ensures filter { called_by result.action ≡ None → result.filter ≡ None }
    {
        let turn = self.locked(rt).turn(hand, operation);
        if is_done(&turn.action) {
            self.waiting.tell(operation);
        } else if turn.bound_to.is_some() {
            self.waiting.wake(operation);
        }
        Turn {
            filter: self.filter_at(turn.filter),
            action: turn.action,
            bound_to: turn.bound_to,
            has_due: turn.has_due,
        }
    }
}
