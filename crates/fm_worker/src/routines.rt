//! What a filter has done for an instance outside of callbacks.

ghost use Rattle.std.specs.Prelude.{IfOk};
ghost use Rattle.fm_worker.specs.Jobs.{LeavesNone};
ghost use Rattle.fm_worker.specs.Ports.{HasRun};

use crate::hook::CallbackHook;
use crate::worker::Worker;
use fm_device::Device;
use fm_filter::{Callbacks, WorkItem};
use fm_types::{HandleId, InstanceId, Status};
use std::sync::Wait;
use std::sync::ledger::Ledger;

impl<'a, F: Callbacks, L: Ledger, R: Wait, G: CallbackHook, D: Device> Worker<'a, F, L, R, G, D> {
    /// Runs a work item for an instance, on no file or on that of an open handle (`FltQueueGenericWorkItem`), and carries on what it resumed. Refused, and the
    /// item isn't run, as the manager's `enter_routine`: 8, 13, 14, 32.
    pub fn run_work<W: WorkItem>(
        &mut self,
        instance: InstanceId,
        handle: Option<HandleId>,
        item: &W,
    ) -> Result<(), Status>
        ensures works { IfOk result (λ _. HasRun self.old.own.port (λ port. port.resumed) (λ before after. W.works item.now before after)) }
        ensures settled { LeavesNone self.old.own.port.resumed self.new.own.port.resumed }
    {
        let shared = &self.shared;
        let hand = &mut self.own.port.hand;
        shared
            .manager
            .enter_routine(shared.rt, hand, instance, handle)?;
        shared.work(&mut self.own, item);
        self.settle(true);
        Ok(())
    }
}
