//! The teardown of an instance, from where it is.

ghost use Rattle.std.specs.Prelude.{◌≡◌, []};
ghost use Rattle.fm_worker.specs.Jobs.{LeavesNone};

use crate::hook::CallbackHook;
use crate::worker::Worker;
use fm_device::Device;
use fm_filter::Callbacks;
use fm_operations::FlowAction;
use fm_stack::Phase;
use fm_types::{InstanceId, Status};
use std::sync::Wait;
use std::sync::ledger::Ledger;

impl<'a, F: Callbacks, L: Ledger, R: Wait, G: CallbackHook, D: Device> Worker<'a, F, L, R, G, D> {
    /// How many instances were attached: their numbers are those below.
    pub(crate) fn instances(&self) -> u16 {
        u16::try_from(self.shared.manager.instances(self.shared.rt)).unwrap_or(u16::MAX)
    }

    // How far the life of an instance has come.
    fn phase(&self, instance: InstanceId) -> Option<Phase> {
        self.shared.manager.phase(self.shared.rt, instance)
    }

    /// Whether an instance's teardown is under way.
    pub(crate) fn is_leaving(&self, instance: InstanceId) -> bool {
        matches!(
            self.phase(instance),
            Some(Phase::Stopping | Phase::Completing | Phase::Emptying)
        )
    }

    // How many operations are in flight at an instance, if a callback of it runs that may still hold one. The start of a teardown has the filter let go of
    // what it holds, so what it held after that nobody would let go. No such callback begins any more at an instance that is stopping.
    fn may_be_held(&self, instance: InstanceId) -> Option<u64> {
        self.shared.manager.read(self.shared.rt, |state| {
            if state.may_hold(instance) {
                Some(state.in_flight(instance))
            } else {
                None
            }
        })
    }

    /// The teardown of an instance. Refused as its events are: with 34 and their number while operations are in flight at it, or contexts of it aren't cleaned,
    /// and before it starts while a callback of it runs that may still hold an operation; a step that another thread has under way gives its own refusal.
    pub(crate) fn tear_down(&mut self, instance: InstanceId) -> Result<(), Status>
        ensures settled { self.new.own.port.resumed ≡ [] }
    {
        if let Some(number) = self.may_be_held(instance) {
            self.settle(true);
            return Err(Status::Busy(number));
        }
        self.begin_teardown(instance);
        self.end_teardown(instance)?;
        self.clean_up();
        self.shared.manager.finish(self.shared.rt, instance)
    }

    /// The start of an instance's teardown, unless it was made before, and then all that its callbacks resumed.
    pub(crate) fn begin_teardown(&mut self, instance: InstanceId)
        ensures settled { self.new.own.port.resumed ≡ [] }
    {
        self.start_and_drain(instance);
        self.settle(true);
    }

    // The start alone: the filter is told, and lets go of all that it waits for. Nothing that this resumed is carried on yet.
    fn start_and_drain(&mut self, instance: InstanceId)
        ensures same { self.new.own.pass ≡ self.old.own.pass }
    {
        let shared = &self.shared;
        let hand = &mut self.own.port.hand;
        if shared
            .manager
            .start_teardown(shared.rt, hand, instance)
            .is_ok()
        {
            shared.start(&mut self.own, instance);
            self.drain_all(instance);
        }
    }

    // Has a stopping instance let go of all that it waits for.
    fn drain_all(&mut self, instance: InstanceId)
        ensures same { self.new.own.pass ≡ self.old.own.pass }
    {
        let rt = self.shared.rt;
        'drains: for _ in rt.forever() {
            if !self.drain_first(instance) {
                break 'drains;
            }
        }
    }

    // Has it let go of what the first operation owes it; false if none does. That operation then goes on as any that was resumed: it may have been the turn of
    // one thread alone, which nobody else would have carried on.
    fn drain_first(&mut self, instance: InstanceId) -> bool
        ensures same { self.new.own.pass ≡ self.old.own.pass }
    {
        let shared = &self.shared;
        let hand = &mut self.own.port.hand;
        match shared.manager.drain_take(shared.rt, hand, instance) {
            Ok(Some((operation, completion))) => {
                let action = FlowAction::Drain(instance, completion);
                shared.hook.before(hand.worker(), &action);
                shared.drain_early(&mut self.own, instance, completion);
                self.own.let_go(operation);
                true
            }
            Ok(None) | Err(_) => false,
        }
    }

    /// The completion of an instance's teardown, if it is stopping, with all that its callback resumed.
    pub(crate) fn end_teardown(&mut self, instance: InstanceId) -> Result<(), Status>
        ensures settled { LeavesNone self.old.own.port.resumed self.new.own.port.resumed }
    {
        if !matches!(self.phase(instance), Some(Phase::Stopping)) {
            return Ok(());
        }
        let shared = &self.shared;
        let hand = &mut self.own.port.hand;
        shared.manager.complete_teardown(shared.rt, hand, instance)?;
        shared.complete(&mut self.own, instance);
        self.settle(true);
        Ok(())
    }
}
