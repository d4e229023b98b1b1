//! Jobs: what workers take, and what becomes of operations that were resumed, or that another thread has to carry on.

ghost use Rattle.std.specs.Prelude.{◌≡◌, ◌&&◌, [], MatchBool, cond};
ghost use Rattle.fm_queue.specs.Passes.{tally_of};
ghost use Rattle.fm_queue.specs.Tallies.{after_put};
ghost use Rattle.fm_worker.specs.Between.{IsFree};
ghost use Rattle.fm_worker.specs.Jobs.{IsKept, LeavesNone, MovesJobs, is_for_another};

use crate::hook::CallbackHook;
use crate::op_queue::OpQueue;
use crate::own::Own;
use crate::shared::WorkerShared;
use crate::worker::Worker;
use fm_device::Device;
use fm_filter::Callbacks;
use fm_queue::Job;
use fm_types::{OpId, WorkerId};
use std::sync::Wait;
use std::sync::ledger::Ledger;
use std::thread;

// Whether an operation is another worker's turn.
fn is_for_another(own: WorkerId, turn: Option<WorkerId>) -> bool
    ensures { result ≡ is_for_another own turn }
{
    match turn {
        Some(worker) => worker.0 != own.0,
        None => false,
    }
}

impl<'a, F: Callbacks, L: Ledger, R: Wait, G: CallbackHook> WorkerShared<'a, F, L, R, G> {
    // Puts a job for an operation; false if the queue is full.
    fn put<D: Device>(&self, own: &mut Own<'a, F, L, R, D>, operation: OpId) -> bool
        requires free { IsFree self.now.queue.now own.old.port.hand.held own.old.pass }
        ensures free { IsFree self.now.queue.now own.new.port.hand.held own.new.pass }
        ensures put { tally_of own.new.pass ≡ cond result (after_put (tally_of own.old.pass) (Job.Run operation)) (tally_of own.old.pass) }
        ensures port { own.new.port ≡ own.old.port }
        ensures waiting { own.new.waiting ≡ own.old.waiting }
    {
        self.queue
            .put(self.rt, &mut own.pass, Job::Run(operation))
            .is_ok()
    }

    /// What becomes of an operation that was refused with 30, when at that moment it was that worker's turn: one that another worker alone may carry on, which
    /// takes jobs, becomes a job again, or is set aside if the queue is full. A client whose turn it is has been told. Any other isn't this thread's any more.
    pub(crate) fn put_back<D: Device>(
        &self,
        own: &mut Own<'a, F, L, R, D>,
        operation: OpId,
        turn: Option<WorkerId>,
        takes_jobs: bool,
    )
        requires free { IsFree self.now.queue.now own.old.port.hand.held own.old.pass }
        ensures free { IsFree self.now.queue.now own.new.port.hand.held own.new.pass }
        ensures back { MatchBool (is_for_another own.old.port.hand.worker turn && takes_jobs) (IsKept operation (tally_of own.old.pass) own.old.waiting.aside (tally_of own.new.pass) own.new.waiting.aside) (own.new ≡ own.old) }
    {
        if is_for_another(own.port.hand.worker(), turn) && takes_jobs {
            self.keep(own, operation);
        }
    }

    // Keeps an operation for another thread: as a job, or set aside if the queue is full.
    fn keep<D: Device>(&self, own: &mut Own<'a, F, L, R, D>, operation: OpId)
        requires free { IsFree self.now.queue.now own.old.port.hand.held own.old.pass }
        ensures free { IsFree self.now.queue.now own.new.port.hand.held own.new.pass }
        ensures kept { IsKept operation (tally_of own.old.pass) own.old.waiting.aside (tally_of own.new.pass) own.new.waiting.aside }
    {
        if !self.put(own, operation) {
            own.waiting.aside.put(operation);
        }
    }

    /// Notes an operation that goes no further here. It may become this thread's turn alone, and while the thread takes no jobs nothing would tell it so. Those
    /// that are over make room where 256 are noted.
    pub(crate) fn note<D: Device>(&self, own: &mut Own<'a, F, L, R, D>, operation: OpId)
        ensures port { own.new.port ≡ own.old.port }
        ensures pass { own.new.pass ≡ own.old.pass }
        ensures aside { own.new.waiting.aside ≡ own.old.waiting.aside }
    {
        if own.waiting.bound.is_full() {
            self.forget_over(&mut own.waiting.bound);
        }
        own.waiting.bound.put(operation);
    }

    // Takes those that are over out of a list of operations.
    fn forget_over(&self, noted: &mut OpQueue) {
        'noted: for _ in 0..noted.len() {
            let Some(operation) = noted.take() else {
                break 'noted;
            };
            if self.manager.is_done(self.rt, operation) == Some(false) {
                noted.put(operation);
            }
        }
    }
}

impl<'a, F: Callbacks, L: Ledger, R: Wait, G: CallbackHook, D: Device> Worker<'a, F, L, R, G, D> {
    /// What a worker does until it takes a Stop: it takes jobs and carries their operations on, as far as they go. What callbacks resume becomes a job for any
    /// worker, or is carried on here if the queue is full; contexts that are due are cleaned up after each job. An operation that only another worker may
    /// carry on becomes a job again, or, if the queue is full, waits until it has room. From the first time on to the Stop operations that are its turn alone come
    /// to it as jobs. At its Stop it carries on what is its turn alone by then, and puts what it had set aside, as far as the queue has room. While a thread waits for what a
    /// filter began for itself, and no other worker could carry that on, it works on. What becomes its
    /// turn alone later goes on once it works again, or as a client's does.
    pub fn work(&mut self) {
        let rt = self.shared.rt;
        self.shared.manager.takes_jobs(&self.own.port.hand);
        self.carry_bound();
        'jobs: for _ in rt.forever() {
            self.requeue();
            match self.next_job() {
                Some(Job::Stop) => break 'jobs,
                Some(Job::Run(operation)) => self.carry_here(operation),
                None => thread::yield_now(),
            }
        }
        self.end_own_waits();
        self.shared.manager.leaves_jobs(&self.own.port.hand);
        self.put_aside();
    }

    // Takes jobs as long as a thread waits for what a filter began for itself, and no other worker could carry that on.
    fn end_own_waits(&mut self) {
        let rt = self.shared.rt;
        let mut stops = 0_usize;
        'jobs: for _ in rt.forever() {
            if self.may_stop() {
                break 'jobs;
            }
            match self.shared.queue.try_take(rt, &mut self.own.pass) {
                Some(Job::Stop) => stops = stops.saturating_add(1),
                Some(Job::Run(operation)) => self.carry_here(operation),
                None => thread::yield_now(),
            }
        }
        self.put_stops(stops);
    }

    // Whether no such thread needs this worker. From then on none relies on it.
    fn may_stop(&self) -> bool {
        let shared = &self.shared;
        shared
            .manager
            .may_leave_jobs(shared.rt, &self.own.port.hand)
    }

    // Puts the Stops of other workers back, which came meanwhile.
    fn put_stops(&mut self, stops: usize) {
        for _ in 0..stops {
            self.stop_worker();
        }
    }

    // The job in front. It waits for one where none is queued, unless something is set aside here, of which nobody else knows: then there may be none.
    fn next_job(&mut self) -> Option<Job> {
        let shared = &self.shared;
        match self.own.waiting.aside.first() {
            Some(_) => shared.queue.try_take(shared.rt, &mut self.own.pass),
            None => Some(shared.queue.take(shared.rt, &mut self.own.pass)),
        }
    }

    /// Has an operation that was begun carried on: it becomes a job for the workers. If the queue is full it is carried on here, as a worker does.
    pub fn submit(&mut self, operation: OpId)
        ensures settled { LeavesNone self.old.own.port.resumed self.new.own.port.resumed }
    {
        if !self.shared.put(&mut self.own, operation) {
            self.carry_here(operation);
        }
    }

    /// Carries an operation on here.
    pub(crate) fn carry_here(&mut self, operation: OpId)
        ensures settled { self.new.own.port.resumed ≡ [] }
    {
        let has_due = self.carry(operation);
        self.settle(has_due);
    }

    /// Puts the jobs that were set aside, as many as the queue has room for.
    #[tactic(auto, using(crate::proofs::Handing::hands_none))]
    pub(crate) fn requeue(&mut self)
        ensures moved { MovesJobs (tally_of self.old.own.pass) self.old.own.waiting.aside (tally_of self.new.own.pass) self.new.own.waiting.aside }
        ensures kept { self.new.own.port.resumed ≡ self.old.own.port.resumed }
    {
        let rt = self.shared.rt;
        'jobs: for _ in rt.forever() {
            let Some(operation) = self.own.waiting.aside.first() else {
                break 'jobs;
            };
            if !self.shared.put(&mut self.own, operation) {
                break 'jobs;
            }
            let _ = self.own.waiting.aside.take();
        }
    }

    /// Makes jobs of what callbacks resumed, as many as the queue has room for.
    #[tactic(auto, using(crate::proofs::Handing::hands_none))]
    pub(crate) fn queue_resumed(&mut self)
        ensures moved { MovesJobs (tally_of self.old.own.pass) self.old.own.port.resumed (tally_of self.new.own.pass) self.new.own.port.resumed }
    {
        let rt = self.shared.rt;
        'jobs: for _ in rt.forever() {
            let Some(operation) = self.own.port.resumed.first() else {
                break 'jobs;
            };
            if !self.shared.put(&mut self.own, operation) {
                break 'jobs;
            }
            let _ = self.own.port.resumed.take();
        }
    }

    /// Makes jobs of what callbacks resumed, carries on here what the queue has no room for, and cleans up what is due, if a context may be.
    #[tactic(auto, using(crate::proofs::Handing::none_left))]
    pub(crate) fn settle(&mut self, has_due: bool)
        ensures settled { self.new.own.port.resumed ≡ [] }
    {
        let rt = self.shared.rt;
        let mut has_due = has_due;
        'resumed: for _ in rt.forever() {
            self.queue_resumed();
            let Some(operation) = self.own.port.resumed.take() else {
                break 'resumed;
            };
            has_due = self.carry(operation) || has_due;
        }
        if has_due {
            self.clean_up();
        }
    }

    /// Carries on what became this thread's turn alone, of the operations that it noted.
    pub(crate) fn carry_bound(&mut self) {
        'bound: for _ in 0..self.own.waiting.bound.len() {
            let Some(operation) = self.own.waiting.bound.take() else {
                break 'bound;
            };
            self.look_again(operation);
        }
    }

    // Carries an operation on if it is this thread's turn alone, and notes it again if it isn't yet.
    fn look_again(&mut self, operation: OpId) {
        let shared = &self.shared;
        if shared
            .manager
            .is_turn_of(shared.rt, &self.own.port.hand, operation)
        {
            self.carry_here(operation);
        } else if shared.manager.is_done(shared.rt, operation) == Some(false) {
            shared.note(&mut self.own, operation);
        }
    }

    /// Puts jobs that were set aside in the queue, as many as it has room for, after what became this thread's turn alone is carried on. A client calls it
    /// before each thing that it does.
    pub fn put_aside(&mut self) {
        self.carry_bound();
        self.requeue();
    }

    /// Puts all of them in the queue: while it is full this waits for room. Whoever leaves a worker to others calls it, so that no operation waits there.
    pub fn put_all_aside(&mut self) {
        let rt = self.shared.rt;
        self.carry_bound();
        'rounds: for _ in rt.forever() {
            self.requeue();
            if self.own.waiting.aside.first().is_none() {
                break 'rounds;
            }
            thread::yield_now();
        }
    }

    /// Has one worker end, once it comes to that job: while the queue is full this waits for room. An operation that is tied to that worker (a postoperation that
    /// was asked for as synchronized) has to be over by then, or its thread has to work again or to do what clients do: no other thread can carry it on.
    pub fn stop_worker(&mut self) {
        let rt = self.shared.rt;
        'tries: for _ in rt.forever() {
            if self.put_stop() {
                break 'tries;
            }
            thread::yield_now();
        }
    }

    // Puts a Stop; false if the queue is full.
    fn put_stop(&mut self) -> bool {
        let shared = &self.shared;
        shared
            .queue
            .put(shared.rt, &mut self.own.pass, Job::Stop)
            .is_ok()
    }
}
