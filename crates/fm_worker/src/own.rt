//! What belongs to one thread alone.

ghost use Rattle.std.specs.Prelude.{◌≡◌};
ghost use Rattle.fm_worker.specs.Ports.{WaitsOr};

use crate::op_queue::OpQueue;
use crate::own_jobs::OwnJobs;
use crate::port::HandPort;
use fm_device::Device;
use fm_lock::{Hand, Manager};
use fm_queue::JobPass;
use fm_types::OpId;
use std::sync::Wait;
use std::sync::ledger::Ledger;

/// What belongs to one worker, or to one connection: the port that its callbacks work with, its pass of the queue, its devices, and operations that wait.
#[derive(Drop)]
pub(crate) struct Own<'a, F: Drop, L: Ledger, R: Wait, D: Device> {
    pub(crate) port: HandPort<'a, F, L, R>,
    pub(crate) pass: JobPass,
    pub(crate) devices: D,
    pub(crate) waiting: WaitingOperations,
}

/// Operations that wait at a thread, beside those that its callbacks resumed.
#[derive(Drop)]
pub(crate) struct WaitingOperations {
    // Jobs that were set aside while the queue was full.
    pub(crate) aside: OpQueue,
    // Operations that went no further here and may become this thread's turn alone.
    pub(crate) bound: OpQueue,
}

impl<'a, F: Drop, L: Ledger, R: Wait, D: Device> Own<'a, F, L, R, D> {
    /// A thread's own: with its hand, its pass, the one for what filters begin for themselves, its devices, room for what its callbacks resume, for jobs that are set aside and for operations that may become
    /// its turn alone.
    pub(crate) fn new(
        rt: &'a R,
        manager: &'a Manager<F, L>,
        hand: Hand<L>,
        pass: JobPass,
        own_jobs: OwnJobs<'a>,
        devices: D,
        resumed: OpQueue,
        aside: OpQueue,
        bound: OpQueue,
    ) -> Own<'a, F, L, R, D>
        ensures hand { result.port.hand ≡ hand }
        ensures resumed { result.port.resumed ≡ resumed }
        ensures pass { result.pass ≡ pass }
        ensures devices { result.devices ≡ devices }
        ensures aside { result.waiting.aside ≡ aside }
        ensures bound { result.waiting.bound ≡ bound }
    {
        Own {
            port: HandPort {
                rt,
                manager,
                hand,
                resumed,
                own_jobs,
            },
            pass,
            devices,
            waiting: WaitingOperations { aside, bound },
        }
    }

    /// Has an operation go on that a drain let go: it waits with those that callbacks resumed, or where no place is left it is set aside.
    pub(crate) fn let_go(&mut self, operation: OpId)
        ensures pass { self.new.pass ≡ self.old.pass }
        ensures hand { self.new.port.hand ≡ self.old.port.hand }
        ensures waits { WaitsOr operation self.old.port.resumed self.old.waiting.aside self.new.port.resumed self.new.waiting.aside }
    {
        if self.port.lacks_room(operation) {
            self.waiting.aside.put(operation);
        } else {
            self.port.resumed.put(operation);
        }
    }

    /// The hand, the pass and the devices. What still waits here is dropped.
    pub(crate) fn into_parts(self) -> (Hand<L>, JobPass, D)
        ensures hand { result.0 ≡ self.entry.port.hand }
        ensures pass { result.1 ≡ self.entry.pass }
        ensures devices { result.2 ≡ self.entry.devices }
    {
        let Own {
            port,
            pass,
            devices,
            ..
        } = self;
        let HandPort { hand, .. } = port;
        (hand, pass, devices)
    }
}
