//! How an operation is carried on: one turn after the other, each what the manager says is next.

ghost use Rattle.std.specs.Prelude.{◌≡◌};
ghost use Rattle.fm_queue.specs.Passes.{IsPassOf};
ghost use Rattle.fm_world.specs.Hands.{given_by_next};
ghost use Rattle.fm_worker.specs.Between.{IsFree};

use crate::hook::CallbackHook;
use crate::own::Own;
use crate::shared::WorkerShared;
use crate::worker::Worker;
use fm_callback_data::BaseCall;
use fm_device::Device;
use fm_filter::Callbacks;
use fm_lock::Turn;
use fm_operations::FlowAction;
use fm_types::{OpId, Status};
use std::sync::Wait;
use std::sync::ledger::Ledger;

// Whether an action is a callback.
fn is_callback(action: &FlowAction) -> bool {
    matches!(
        action,
        FlowAction::Pre(..) | FlowAction::Post(..) | FlowAction::Drain(..)
    )
}

impl<'a, F: Callbacks, L: Ledger, R: Wait, G: CallbackHook> WorkerShared<'a, F, L, R, G> {
    // Makes the callback, which is that filter's, or the call of an action. True if the operation can go on.
    fn act<D: Device>(
        &self,
        own: &mut Own<'a, F, L, R, D>,
        operation: OpId,
        filter: Option<&F>,
        action: FlowAction,
    ) -> bool
        requires pass { IsPassOf self.now.queue.now own.old.pass }
        requires held { own.old.port.hand.held ≡ given_by_next action }
        ensures free { IsFree self.now.queue.now own.new.port.hand.held own.new.pass }
    {
        if is_callback(&action) {
            self.hook.before(own.port.hand.worker(), &action);
        }
        match action {
            FlowAction::Pre(_, lent) => self.pre(own, filter, lent),
            FlowAction::Base(call) => self.call(own, call),
            FlowAction::Post(_, lent, completion) => self.post(own, filter, lent, completion),
            FlowAction::Drain(_, completion) => self.drain(own, filter, completion),
            FlowAction::Moved => {}
            FlowAction::Held => {
                self.note(own, operation);
                return false;
            }
            FlowAction::Done => return false,
        }
        true
    }

    // The call of the base that an operation reached.
    fn call<D: Device>(&self, own: &mut Own<'a, F, L, R, D>, call: BaseCall)
        requires free { IsFree self.now.queue.now own.old.port.hand.held own.old.pass }
        ensures free { IsFree self.now.queue.now own.new.port.hand.held own.new.pass }
    {
        let answer = own.devices.call(&call);
        let hand = &mut own.port.hand;
        if self
            .manager
            .base_returned(self.rt, hand, call, answer)
            .is_err()
        {
            self.wait_forever();
        }
    }
}

impl<'a, F: Callbacks, L: Ledger, R: Wait, G: CallbackHook, D: Device> Worker<'a, F, L, R, G, D> {
    /// Carries an operation on, until it is done, a filter holds it, or another thread has it. After each turn what the turn resumed is handed on. True if a
    /// context is due then.
    pub(crate) fn carry(&mut self, operation: OpId) -> bool {
        let rt = self.shared.rt;
        'turns: for _ in rt.forever() {
            let ended = self.take_turn(operation);
            self.queue_resumed();
            if let Some(has_due) = ended {
                return has_due;
            }
        }
        unreachable!()
    }

    // One turn of an operation. None if the operation can go on; and else whether a context is due. An operation is done before any `next` says so, and whoever
    // waits for it may have collected it already: so a refusal of `next` ends the turns.
    fn take_turn(&mut self, operation: OpId) -> Option<bool> {
        let shared = &self.shared;
        let Turn {
            action,
            filter,
            bound_to,
            has_due,
        } = shared
            .manager
            .turn(shared.rt, &mut self.own.port.hand, operation);
        let goes_on = match action {
            Ok(action) => shared.act(&mut self.own, operation, filter, action),
            Err(Status::WrongStep) => {
                let takes_jobs = shared.is_taking_jobs(bound_to);
                shared.put_back(&mut self.own, operation, bound_to, takes_jobs);
                shared.note(&mut self.own, operation);
                false
            }
            Err(_) => false,
        };
        if goes_on { None } else { Some(has_due) }
    }
}
