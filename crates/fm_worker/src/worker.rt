//! A worker, or a connection that does what workers do.

ghost use Rattle.std.specs.Prelude.{◌≡◌, All, IfSome};
ghost use Rattle.fm_queue.specs.Passes.{IsPassOf};
ghost use Rattle.fm_worker.specs.Between.{IsFree};

use crate::hook::CallbackHook;
use crate::op_queue::OpQueue;
use crate::own::Own;
use crate::own_jobs::OwnJobs;
use crate::shared::WorkerShared;
use fm_callback_data::{Answer, Request};
use fm_device::Device;
use fm_filter::Callbacks;
use fm_lock::{Hand, Manager, Waited};
use fm_queue::{JobPass, JobQueue};
use fm_types::{OpId, Status};
use std::alloc::Global;
use std::sync::Wait;
use std::sync::ledger::Ledger;
use std::time::{Clock, Duration};

/// A thread that is between two callbacks, with all that it needs: what it shares with others, and its own. It can be moved into a closure as it is, since it
/// says itself that its hand holds nothing and that its pass is of its queue: no clause of a closure has to, and none of the calls here.
#[derive(Drop)]
pub struct Worker<'a, F: Drop, L: Ledger, R: Wait, G: CallbackHook, D: Device> {
    pub(crate) shared: WorkerShared<'a, F, L, R, G>,
    pub(crate) own: Own<'a, F, L, R, D>,
    ghost free: { IsFree shared.queue.now own.port.hand.held own.pass },
}

// Takes a pass of the queue.
fn take_pass(queue: &JobQueue, passes: &mut Vec<JobPass>) -> Option<JobPass>
    requires own { All (λ pass. IsPassOf queue.now pass) passes.old.items }
    ensures own { All (λ pass. IsPassOf queue.now pass) passes.new.items }
    ensures taken { IfSome result (λ pass. IsPassOf queue.now pass) }
{
    passes.pop()
}

impl<'a, F: Callbacks, L: Ledger, R: Wait, G: CallbackHook, D: Device> Worker<'a, F, L, R, G, D> {
    /// A worker at a manager, its queue and the hook before callbacks: with a hand that is hired for it, the last two of those passes, these devices, and memory
    /// for operations that wait at it. Refused with 29 if no two passes are left or all hands are out, and with 1 if memory is refused; passes that were taken
    /// by then are dropped.
    pub fn new(
        rt: &'a R,
        manager: &'a Manager<F, L>,
        queue: &'a JobQueue,
        hook: &'a G,
        alloc: Global,
        passes: &mut Vec<JobPass>,
        devices: D,
    ) -> Result<Worker<'a, F, L, R, G, D>, Status>
        requires own { All (λ pass. IsPassOf queue.now pass) passes.old.items }
        ensures own { All (λ pass. IsPassOf queue.now pass) passes.new.items }
    {
        let resumed = OpQueue::new(alloc)?;
        let aside = OpQueue::new(alloc)?;
        let bound = OpQueue::new(alloc)?;
        let Some(pass) = take_pass(queue, passes) else {
            return Err(Status::TooMany);
        };
        let Some(own_pass) = take_pass(queue, passes) else {
            return Err(Status::TooMany);
        };
        let own_jobs = OwnJobs::new(queue, own_pass);
        let hand = manager.hire(rt)?;
        Ok(Worker {
            shared: WorkerShared {
                rt,
                manager,
                queue,
                hook,
            },
            own: Own::new(
                rt, manager, hand, pass, own_jobs, devices, resumed, aside, bound,
            ),
        })
    }

    /// Hands out the hand and the devices. What still waits here is dropped.
    pub fn into_parts(self) -> (Hand<L>, D) {
        let Worker { shared, own } = self;
        let (hand, _pass, devices) = own.into_parts();
        shared.manager.leaves_jobs(&hand);
        (hand, devices)
    }

    /// The runtime.
    pub fn rt(&self) -> &'a R {
        self.shared.rt
    }

    /// Begins an operation and carries it on here, as far as it goes: `wait_for` tells its answer. What its callbacks resumed becomes jobs for the workers.
    /// Refused as its beginning is.
    pub fn begin(&mut self, request: Request) -> Result<OpId, Status> {
        let operation = self.shared.manager.begin(self.shared.rt, request)?;
        self.carry_here(operation);
        Ok(operation)
    }

    /// Begins an operation, carries it on here as far as it goes, and waits for its answer. What of it is this thread's turn alone later is done here too.
    /// Refused as its beginning is.
    pub fn answer(&mut self, request: Request) -> Result<Answer, Status> {
        let operation = self.begin(request)?;
        self.wait(operation)
    }

    // Waits for the answer of an operation.
    fn wait(&mut self, operation: OpId) -> Result<Answer, Status> {
        let rt = self.shared.rt;
        'turns: for _ in rt.forever() {
            let hand = &self.own.port.hand;
            match self.shared.manager.wait_turn(rt, hand, operation) {
                Ok(Some(answer)) => return Ok(answer),
                Ok(None) => self.carry_here(operation),
                Err(status) => return Err(status),
            }
        }
        unreachable!()
    }
}

impl<'a, F: Callbacks, L: Ledger, R: Wait + Clock, G: CallbackHook, D: Device> Worker<
    'a,
    F,
    L,
    R,
    G,
    D,
> {
    /// Waits for the answer of an operation that was begun, but no longer than that time: none then, and it can be waited for again. What of it
    /// is this thread's turn alone is done here. Refused with 30, if the operation isn't there or its answer was handed out.
    pub fn wait_for(&mut self, operation: OpId, time: Duration) -> Result<Option<Answer>, Status> {
        let rt = self.shared.rt;
        'turns: for _ in rt.forever() {
            let hand = &self.own.port.hand;
            match self.shared.manager.wait_turn_for(rt, hand, operation, time) {
                Ok(Waited::Answer(answer)) => return Ok(Some(answer)),
                Ok(Waited::Late) => return Ok(None),
                Ok(Waited::Turn) => self.carry_here(operation),
                Err(status) => return Err(status),
            }
        }
        unreachable!()
    }
}
