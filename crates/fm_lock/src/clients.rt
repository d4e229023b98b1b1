//! What clients wait for: the answers of their operations, and turns that are theirs alone. And which threads are no clients, but take jobs.

ghost use Rattle.std.specs.Prelude.{◌≡◌, IfErr};
ghost use Rattle.fm_lock.specs.Runs.{IsMade, IsTaken, IsTakenIn};
ghost use Rattle.fm_world.specs.declared.step.Step.TheVariants as step;
ghost use Rattle.fm_world.specs.declared.step.StepReply.TheVariants as reply;

use crate::hand::Hand;
use crate::manager::Manager;
use fm_callback_data::Answer;
use fm_types::{OpId, Status, WorkerId};
use std::sync::ledger::Ledger;
use std::sync::{CondvarTimeouts, Wait};
use std::time::{Clock, Duration};

/// What a client's wait of limited time came to.
#[derive(Drop)]
pub enum Waited {
    /// The operation was done: this is its answer.
    Answer(Answer),
    /// Its next postoperation is the client's alone: its own hand has to carry it on.
    Turn,
    /// The time is over, and neither came.
    Late,
}

impl<F: Drop, L: Ledger> Manager<F, L> {
    /// Waits until an operation is done, and takes its answer. Refused with 30, if the operation isn't there or its answer was handed out. It waits for ever
    /// for one that nobody carries on.
    pub fn wait_reply<R: Wait>(&self, rt: &R, operation: OpId) -> Result<Answer, Status>
        ensures refused { IfErr result (λ status. status ≡ Status.WrongStep) }
        ensures run { IsMade (step.Collect operation) (reply.Answer result) }
    {
        self.waiting.enter(operation);
        let answer = self.collect(rt, operation);
        self.waiting.leave();
        answer
    }

    // Sleeps at the operation's place until it is done, and takes its answer.
    fn collect<R: Wait>(&self, rt: &R, operation: OpId) -> Result<Answer, Status>
        ensures refused { IfErr result (λ status. status ≡ Status.WrongStep) }
        ensures run { IsMade (step.Collect operation) (reply.Answer result) }
    {
        let changed = &self.waiting.place(operation).changed;
        let mut locked = changed.wait_while(
            rt,
            self.locked(rt),
            |locked| locked.must_wait(operation),
        );
        locked.collect(operation)
    }

    /// Waits until an operation is done, and takes its answer, or until its next postoperation is the hand's worker's alone: None then, and it has to be
    /// carried on by that hand. Refused as `wait_reply`.
    pub fn wait_turn<R: Wait>(
        &self,
        rt: &R,
        hand: &Hand<L>,
        operation: OpId,
    ) -> Result<Option<Answer>, Status>
        ensures refused { IfErr result (λ status. status ≡ Status.WrongStep) }
        ensures run { IsTaken operation result }
    {
        self.waiting.enter(operation);
        let answer = self.collect_unless_turn(rt, hand.worker(), operation);
        self.waiting.leave();
        answer
    }

    // The same, asleep.
    fn collect_unless_turn<R: Wait>(
        &self,
        rt: &R,
        worker: WorkerId,
        operation: OpId,
    ) -> Result<Option<Answer>, Status>
        ensures refused { IfErr result (λ status. status ≡ Status.WrongStep) }
        ensures run { IsTaken operation result }
    {
        let changed = &self.waiting.place(operation).changed;
        let mut locked = changed.wait_while(rt, self.locked(rt), |locked| {
            locked.must_wait(operation) && !locked.is_turn_of(worker, operation)
        });
        if locked.must_wait(operation) {
            return Ok(None);
        }
        match locked.collect(operation) {
            Ok(answer) => Ok(Some(answer)),
            Err(status) => Err(status),
        }
    }

    /// The same, but no longer than that time: who waits can look meanwhile whether anybody still wants the answer. With no time it asks once, and waits for
    /// nothing but the lock.
    pub fn wait_turn_for<R: Wait + Clock>(
        &self,
        rt: &R,
        hand: &Hand<L>,
        operation: OpId,
        time: Duration,
    ) -> Result<Waited, Status>
        ensures refused { IfErr result (λ status. status ≡ Status.WrongStep) }
        ensures run { IsTakenIn operation result }
    {
        if time.is_zero() {
            return self.collect_within(rt, hand.worker(), operation, time);
        }
        self.waiting.enter(operation);
        let waited = self.collect_within(rt, hand.worker(), operation, time);
        self.waiting.leave();
        waited
    }

    // The same, asleep.
    fn collect_within<R: Wait + Clock>(
        &self,
        rt: &R,
        worker: WorkerId,
        operation: OpId,
        time: Duration,
    ) -> Result<Waited, Status>
        ensures refused { IfErr result (λ status. status ≡ Status.WrongStep) }
        ensures run { IsTakenIn operation result }
    {
        let changed = &self.waiting.place(operation).changed;
        let (mut locked, waited) = changed.wait_timeout_while(
            rt,
            self.locked(rt),
            time,
            |locked| { locked.must_wait(operation) && !locked.is_turn_of(worker, operation) },
        );
        if locked.must_wait(operation) {
            return Ok(if waited.timed_out() {
                Waited::Late
            } else {
                Waited::Turn
            });
        }
        match locked.collect(operation) {
            Ok(answer) => Ok(Waited::Answer(answer)),
            Err(status) => Err(status),
        }
    }

    /// Whether an operation's next postoperation is the hand's worker's alone.
    pub fn is_turn_of<R: Wait>(&self, rt: &R, hand: &Hand<L>, operation: OpId) -> bool {
        self.locked(rt).is_turn_of(hand.worker(), operation)
    }

    /// Notes that the hand's worker takes jobs: an operation that is its turn alone may be left to it as a job.
    pub fn takes_jobs(&self, hand: &Hand<L>) {
        self.waiting.takes_jobs(hand.worker());
        self.waiting.carriers.add(hand.worker());
    }

    /// How many workers could carry on what a filter begins for itself: they take jobs, and don't wait for such an operation themselves.
    pub fn carriers(&self) -> u32 {
        self.waiting.carriers.count()
    }

    /// Notes that it takes none any more.
    pub fn leaves_jobs(&self, hand: &Hand<L>) {
        self.waiting.leaves_jobs(hand.worker());
        self.waiting.carriers.remove(hand.worker());
    }

    /// Whether the hand's worker may take no more jobs: not while a thread waits for what a filter began for itself, and no other worker could carry it on.
    /// Such an operation isn't left to it any more then.
    pub fn may_leave_jobs<R: Wait>(&self, rt: &R, hand: &Hand<L>) -> bool {
        self.waiting.carriers.leave(rt, hand.worker())
    }

    /// The hand's thread begins to wait for what a filter began for itself. False if no other worker could carry it on: each takes no jobs, or waits too.
    pub fn begins_own_wait<R: Wait>(&self, rt: &R, hand: &Hand<L>) -> bool {
        self.waiting.carriers.begin_wait(rt, hand.worker())
    }

    /// It has waited.
    pub fn ends_own_wait(&self, hand: &Hand<L>) {
        let takes_jobs = self.is_taking_jobs(hand.worker());
        self.waiting.carriers.end_wait(hand.worker(), takes_jobs);
    }

    /// Whether a worker takes jobs. If not, it is a client's, and looks itself for what is its turn alone.
    pub fn is_taking_jobs(&self, worker: WorkerId) -> bool {
        self.waiting.is_taking_jobs(worker)
    }
}
