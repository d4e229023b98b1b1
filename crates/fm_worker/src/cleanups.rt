//! Cleaning up contexts that nobody refers to any more.

ghost use Rattle.std.specs.Prelude.{◌≡◌};

use crate::hook::CallbackHook;
use crate::shared::WorkerShared;
use crate::worker::Worker;
use fm_ctx::{Due, Owner};
use fm_device::Device;
use fm_filter::Callbacks;
use std::sync::Wait;
use std::sync::ledger::Ledger;

impl<'a, F: Callbacks, L: Ledger, R: Wait, G: CallbackHook> WorkerShared<'a, F, L, R, G> {
    // The cleanup callback of a context's filter: what it returns for its total.
    fn cleanup(&self, due: &Due) -> u64 {
        let filter = match due.owner {
            Owner::Instance(instance) => self.filter_of(instance),
            Owner::Filter(filter) => self.manager.filter(self.rt, filter),
        };
        match filter {
            Some(filter) => filter.cleanup(due.kind, due.body.as_slice()),
            None => 0,
        }
    }
}

impl<'a, F: Callbacks, L: Ledger, R: Wait, G: CallbackHook, D: Device> Worker<'a, F, L, R, G, D> {
    /// Cleans up every context that is due.
    pub(crate) fn clean_up(&mut self)
        ensures kept { self.new.own.port.resumed ≡ self.old.own.port.resumed }
    {
        let rt = self.shared.rt;
        'contexts: for _ in rt.forever() {
            if !self.clean_next() {
                break 'contexts;
            }
        }
    }

    // Cleans up the context that is due longest; false if none is due.
    fn clean_next(&mut self) -> bool
        ensures kept { self.new.own.port.resumed ≡ self.old.own.port.resumed }
    {
        let shared = &self.shared;
        let hand = &mut self.own.port.hand;
        match shared.manager.take_due(shared.rt, hand) {
            Ok(Some(due)) => {
                let number = shared.cleanup(&due);
                if shared.manager.cleaned(shared.rt, hand, number).is_err() {
                    shared.wait_forever();
                }
                true
            }
            Ok(None) | Err(_) => false,
        }
    }
}
