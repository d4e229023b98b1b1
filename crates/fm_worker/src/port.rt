//! What callbacks of one thread work on.

ghost use Rattle.std.specs.Prelude.{◌≡◌};
ghost use Rattle.fm_worker.specs.Ports.{lacks_room};

use crate::op_queue::OpQueue;
use crate::own_jobs::OwnJobs;
use fm_callback_data::{Answer, PreVerdict, Request};
use fm_ctx::SetMode;
use fm_filter::Port;
use fm_lock::{Hand, Manager};
use fm_operations::Hold;
use fm_types::{Bytes, ContextKind, CtxId, InstanceId, OpId, Status};
use fm_world::{About, BeginsFrom, SetAnswer};
use std::sync::Wait;
use std::sync::ledger::Ledger;

/// The port of the callbacks that one thread makes: its hand, room for what they resume, and the queue for what their filters begin for themselves. Each call
/// but `perform` is one event of the manager, by the hand. A thread has one for its whole life.
#[derive(Drop)]
pub struct HandPort<'a, F: Drop, L: Ledger, R: Wait> {
    pub(crate) rt: &'a R,
    pub(crate) manager: &'a Manager<F, L>,
    pub(crate) hand: Hand<L>,
    pub(crate) resumed: OpQueue,
    pub(crate) own_jobs: OwnJobs<'a>,
}

impl<'a, F: Drop, L: Ledger, R: Wait> HandPort<'a, F, L, R> {
    // Whether there is no place for an operation that isn't there yet.
    pub(crate) fn lacks_room(&self, operation: OpId) -> bool
        ensures { result ≡ lacks_room operation self.now.resumed }
    {
        self.resumed.is_full() && !self.resumed.has(operation)
    }

    // Begins an operation below an instance, has a worker carry it on, and waits for its answer.
    fn answer_below(&mut self, instance: InstanceId, request: Request) -> Result<Answer, Status>
        ensures hand { self.new.hand ≡ self.old.hand }
        ensures resumed { self.new.resumed ≡ self.old.resumed }
    {
        let from = BeginsFrom::Below(instance);
        let operation = self.manager.begin_from(self.rt, from, request)?;
        self.own_jobs.put(self.rt, operation);
        self.manager.wait_reply(self.rt, operation)
    }
}

impl<'a, F: Drop, L: Ledger, R: Wait> Port for HandPort<'a, F, L, R> {
    ghost use Rattle.std.specs.Prelude.{◌≡◌, ◌+◌, ⊤, None};
    ghost use Rattle.fm_lock.specs.Events.{Holding};
    ghost use Rattle.fm_world.specs.Hands.{given_by_set, given_with};
    ghost use Rattle.fm_world.specs.StepHands.{Fewer, More};
    ghost use Rattle.fm_worker.specs.Ports.{ResumesPost, ResumesPre};

    ghost tells = { λ port result. ⊤ };

    ghost allocates = { λ old kind body result new. Holding (More result (λ _. 1)) old.hand new.hand };

    ghost sets = { λ old context mode wants_old result new. Holding (λ before after. after ≡ before + given_by_set result) old.hand new.hand };

    ghost gets = { λ old kind result new. Holding (More result (λ _. 1)) old.hand new.hand };

    ghost deletes = { λ old kind wants_old result new. Holding (More result given_with) old.hand new.hand };

    ghost references = { λ old context result new. Holding (More result (λ _. 1)) old.hand new.hand };

    ghost releases = { λ old context result new. Holding (Fewer result) old.hand new.hand };

    ghost reads_body = { λ old context result new. new.hand ≡ old.hand };

    ghost writes_body = { λ old context bytes result new. new.hand ≡ old.hand };

    ghost bumps = { λ old context place by result new. new.hand ≡ old.hand };

    ghost finds_held = { λ old hold result new. new.hand ≡ old.hand };

    ghost resumes_pre = { λ old operation verdict result new. ResumesPre verdict operation old.hand old.resumed result new.hand new.resumed };

    ghost resumes_post = { λ old operation result new. ResumesPost operation old.hand old.resumed result new.hand new.resumed };

    ghost performs = { λ old request result new. (new.hand ≡ old.hand) × (new.resumed ≡ old.resumed) };

    ghost hand = { λ port. None };

    ghost kept = { λ port. record { worker = port.hand.worker; standing = None } };

    fn about(&self) -> Result<About, Status> {
        self.manager.about(self.rt, &self.hand)
    }

    fn allocate(&mut self, kind: ContextKind, body: Bytes) -> Result<CtxId, Status> {
        self.manager.allocate(self.rt, &mut self.hand, kind, body)
    }

    #[tactic(auto, using(fm_filter::proofs::Hands::set_unsaid))]
    fn set(&mut self, context: CtxId, mode: SetMode, wants_old: bool) -> SetAnswer {
        self.manager
            .set(self.rt, &mut self.hand, context, mode, wants_old)
    }

    fn get(&mut self, kind: ContextKind) -> Result<CtxId, Status> {
        self.manager.get(self.rt, &mut self.hand, kind)
    }

    #[tactic(auto, using(fm_filter::proofs::Hands::old_unsaid))]
    fn delete(&mut self, kind: ContextKind, wants_old: bool) -> Result<Option<CtxId>, Status> {
        self.manager
            .delete(self.rt, &mut self.hand, kind, wants_old)
    }

    fn reference(&mut self, context: CtxId) -> Result<(), Status> {
        self.manager.reference(self.rt, &mut self.hand, context)
    }

    fn release(&mut self, context: CtxId) -> Result<(), Status> {
        self.manager.release(self.rt, &mut self.hand, context)
    }

    fn read_body(&mut self, context: CtxId) -> Result<Bytes, Status> {
        self.manager.read_body(self.rt, &mut self.hand, context)
    }

    fn write_body(&mut self, context: CtxId, bytes: &[u8]) -> Result<(), Status> {
        self.manager
            .write_body(self.rt, &mut self.hand, context, bytes)
    }

    fn bump(&mut self, context: CtxId, place: u64, by: u64) -> Result<u64, Status> {
        self.manager
            .bump(self.rt, &mut self.hand, context, place, by)
    }

    fn first_held(&mut self, hold: Hold) -> Result<Option<OpId>, Status> {
        self.manager.first_held(self.rt, &mut self.hand, hold)
    }

    fn resume_pre(&mut self, operation: OpId, verdict: PreVerdict) -> Result<(), Status> {
        if self.lacks_room(operation) {
            return Err(Status::TooMany);
        }
        self.manager
            .resume_pre(self.rt, &mut self.hand, operation, verdict)?;
        self.resumed.put(operation);
        Ok(())
    }

    fn resume_post(&mut self, operation: OpId) -> Result<(), Status> {
        if self.lacks_room(operation) {
            return Err(Status::TooMany);
        }
        self.manager
            .resume_post(self.rt, &mut self.hand, operation)?;
        self.resumed.put(operation);
        Ok(())
    }

    fn perform(&mut self, request: Request) -> Result<Answer, Status> {
        let instance = self.about()?.instance;
        if !self.manager.begins_own_wait(self.rt, &self.hand) {
            return Err(Status::TooMany);
        }
        let answer = self.answer_below(instance, request);
        self.manager.ends_own_wait(&self.hand);
        answer
    }
}
