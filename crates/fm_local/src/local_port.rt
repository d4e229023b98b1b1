//! The port of a callback of the one-thread manager.

ghost use Rattle.std.specs.Prelude.{◌≡◌};
ghost use Rattle.fm_filter.specs.Hands.{LosesSent, sent_by};
ghost use Rattle.fm_local.specs.Ports.{ResumesPostIn, ResumesPreIn, hand_at};
ghost use Rattle.fm_local.specs.Waits.{standing_with};

use crate::bounded::Bounded;
use crate::parts::WORKER;
use crate::refusal::{PortCall, Refusal};
use fm_callback_data::{Answer, PreVerdict, Request};
use fm_core::{About, Hold, Place, SetAnswer, SetMode, State};
use fm_filter::Port;
use fm_types::{Bytes, ContextKind, CtxId, OpId, Status};

/// What callbacks work on, and the port that they are lent: the manager's state, and what they resumed, in the order of the resumptions. Each call is the
/// event of the state, for the worker of the manager. What a callback resumes is noted, so that the manager carries it on afterwards, and so is each call that
/// is refused.
#[derive(Drop)]
pub(crate) struct Work {
    pub(crate) state: State,
    pub(crate) resumed: Bounded<OpId>,
    pub(crate) refusals: Bounded<Refusal>,
}

impl Work {
    // Notes a call that was refused.
    fn note(&mut self, call: PortCall, status: Status)
        ensures state { self.new.state ≡ self.old.state }
        ensures resumed { self.new.resumed ≡ self.old.resumed }
    {
        let place = self.state.place(WORKER).unwrap_or(Place::Idle);
        self.refusals.put(Refusal {
            place,
            call,
            status,
        });
    }

    // Hands a call's answer on, and notes it where the call was refused.
    fn answered<T: Copy>(&mut self, call: PortCall, answer: Result<T, Status>) -> Result<T, Status>
        ensures same { result ≡ answer }
        ensures state { self.new.state ≡ self.old.state }
        ensures resumed { self.new.resumed ≡ self.old.resumed }
    {
        if let Err(status) = answer {
            self.note(call, status);
        }
        answer
    }

    // Resumes an operation that a preoperation holds, and notes it as resumed, if there is room.
    fn resume_held_pre(&mut self, operation: OpId, verdict: PreVerdict) -> Result<(), Status>
        ensures event { ResumesPreIn self.old WORKER operation verdict result self.new }
        ensures stands { standing_with self.new.resumed.items.items self.new.state ≡ standing_with self.old.resumed.items.items self.old.state }
        ensures hand { LosesSent (sent_by verdict) (hand_at self.old.state WORKER) (hand_at self.new.state WORKER) }
    {
        if self.resumed.is_full() {
            return Err(Status::TooMany);
        }
        self.state.laws();
        self.state.resume_pre(WORKER, operation, verdict)?;
        self.resumed.put(operation);
        Ok(())
    }

    // The same of one that a postoperation holds.
    fn resume_held_post(&mut self, operation: OpId) -> Result<(), Status>
        ensures event { ResumesPostIn self.old WORKER operation result self.new }
        ensures stands { standing_with self.new.resumed.items.items self.new.state ≡ standing_with self.old.resumed.items.items self.old.state }
        ensures hand { hand_at self.new.state WORKER ≡ hand_at self.old.state WORKER }
    {
        if self.resumed.is_full() {
            return Err(Status::TooMany);
        }
        self.state.laws();
        self.state.resume_post(WORKER, operation)?;
        self.resumed.put(operation);
        Ok(())
    }
}

impl Port for Work {
    ghost use Rattle.std.specs.Prelude.{◌≡◌, Err, Some};
    ghost use Rattle.fm_types.specs.declared.status.Status.TheVariants.{TooMany};
    ghost use Rattle.fm_world.specs.ContextEvents.{Allocates, Sets, Gets, Deletes, References, Releases, ReadsBody, WritesBody, Bumps};
    ghost use Rattle.fm_world.specs.About.{Tells};
    ghost use Rattle.fm_world.specs.Events.{FindsHeld};
    ghost use Rattle.fm_local.specs.Waits.{standing_with};
    ghost use Rattle.fm_local.specs.Ports.{OnState, ResumesPreIn, ResumesPostIn, hand_at};
    ghost use Rattle.fm_local.specs.declared.parts.TheConstants.{WORKER};

    ghost tells = { λ work result. Tells work.state WORKER result };

    ghost allocates = { λ old kind body result new. OnState (λ before after. Allocates before WORKER kind body result after) old new };

    ghost sets = { λ old context mode wants_old result new. OnState (λ before after. Sets before WORKER context mode wants_old result after) old new };

    ghost gets = { λ old kind result new. OnState (λ before after. Gets before WORKER kind result after) old new };

    ghost deletes = { λ old kind wants_old result new. OnState (λ before after. Deletes before WORKER kind wants_old result after) old new };

    ghost references = { λ old context result new. OnState (λ before after. References before WORKER context result after) old new };

    ghost releases = { λ old context result new. OnState (λ before after. Releases before WORKER context result after) old new };

    ghost reads_body = { λ old context result new. OnState (λ before after. ReadsBody before WORKER context result after) old new };

    ghost writes_body = { λ old context bytes result new. OnState (λ before after. WritesBody before WORKER context bytes result after) old new };

    ghost bumps = { λ old context place by result new. OnState (λ before after. Bumps before WORKER context place by result after) old new };

    ghost finds_held = { λ old hold result new. OnState (λ before after. FindsHeld before WORKER hold result after) old new };

    ghost resumes_pre = { λ old operation verdict result new. ResumesPreIn old WORKER operation verdict result new };

    ghost resumes_post = { λ old operation result new. ResumesPostIn old WORKER operation result new };

    ghost performs = { λ old request result new. (result ≡ Err TooMany) × (new.state ≡ old.state) × (new.resumed ≡ old.resumed) };

    ghost hand = { λ work. hand_at work.state WORKER };

    ghost kept = { λ work. record { worker = WORKER; standing = Some (standing_with work.resumed.items.items work.state) } };

    fn about(&self) -> Result<About, Status> {
        self.state.about(WORKER)
    }

    #[tactic(auto, using(crate::proofs::queues::Standing::allocate_stands, crate::proofs::queues::Hands::allocate_hand))]
    fn allocate(&mut self, kind: ContextKind, body: Bytes) -> Result<CtxId, Status> {
        self.state.laws();
        let answer = self.state.allocate(WORKER, kind, body);
        self.answered(PortCall::Allocate(kind), answer)
    }

    #[tactic(auto, using(crate::proofs::queues::Standing::set_stands, crate::proofs::queues::Hands::set_hand))]
    fn set(&mut self, context: CtxId, mode: SetMode, wants_old: bool) -> SetAnswer {
        self.state.laws();
        let answer = self.state.set(WORKER, context, mode, wants_old);
        if let SetAnswer::Refused(status) = answer {
            self.note(PortCall::Set(context), status);
        }
        answer
    }

    #[tactic(auto, using(crate::proofs::queues::Standing::get_stands, crate::proofs::queues::Hands::get_hand))]
    fn get(&mut self, kind: ContextKind) -> Result<CtxId, Status> {
        self.state.laws();
        let answer = self.state.get(WORKER, kind);
        self.answered(PortCall::Get(kind), answer)
    }

    #[tactic(auto, using(crate::proofs::queues::Standing::delete_stands, crate::proofs::queues::Hands::delete_hand))]
    fn delete(&mut self, kind: ContextKind, wants_old: bool) -> Result<Option<CtxId>, Status> {
        self.state.laws();
        let answer = self.state.delete(WORKER, kind, wants_old);
        self.answered(PortCall::Delete(kind), answer)
    }

    #[tactic(auto, using(crate::proofs::queues::Standing::reference_stands, crate::proofs::queues::Hands::reference_hand))]
    fn reference(&mut self, context: CtxId) -> Result<(), Status> {
        self.state.laws();
        let answer = self.state.reference(WORKER, context);
        self.answered(PortCall::Reference(context), answer)
    }

    #[tactic(auto, using(crate::proofs::queues::Standing::release_stands, crate::proofs::queues::Hands::release_hand))]
    fn release(&mut self, context: CtxId) -> Result<(), Status> {
        self.state.laws();
        let answer = self.state.release(WORKER, context);
        self.answered(PortCall::Release(context), answer)
    }

    #[tactic(auto, using(crate::proofs::queues::Standing::read_stands, crate::proofs::queues::Hands::read_hand))]
    fn read_body(&mut self, context: CtxId) -> Result<Bytes, Status> {
        self.state.laws();
        let answer = self.state.read_body(WORKER, context);
        if let Err(status) = &answer {
            self.note(PortCall::ReadBody(context), *status);
        }
        answer
    }

    #[tactic(auto, using(crate::proofs::queues::Standing::write_stands, crate::proofs::queues::Hands::write_hand))]
    fn write_body(&mut self, context: CtxId, bytes: &[u8]) -> Result<(), Status> {
        self.state.laws();
        let answer = self.state.write_body(WORKER, context, bytes);
        self.answered(PortCall::WriteBody(context), answer)
    }

    #[tactic(auto, using(crate::proofs::queues::Standing::bump_stands, crate::proofs::queues::Hands::bump_hand))]
    fn bump(&mut self, context: CtxId, place: u64, by: u64) -> Result<u64, Status> {
        self.state.laws();
        let answer = self.state.bump(WORKER, context, place, by);
        self.answered(PortCall::Bump(context), answer)
    }

    #[tactic(auto, using(crate::proofs::queues::Standing::held_stands, crate::proofs::queues::Hands::find_hand))]
    fn first_held(&mut self, hold: Hold) -> Result<Option<OpId>, Status> {
        self.state.laws();
        let answer = self.state.first_held(WORKER, hold);
        self.answered(PortCall::FirstHeld, answer)
    }

    fn resume_pre(&mut self, operation: OpId, verdict: PreVerdict) -> Result<(), Status> {
        let answer = self.resume_held_pre(operation, verdict);
        self.answered(PortCall::ResumePre(operation), answer)
    }

    fn resume_post(&mut self, operation: OpId) -> Result<(), Status> {
        let answer = self.resume_held_post(operation);
        self.answered(PortCall::ResumePost(operation), answer)
    }

    // The one worker is in the callback, so that nobody could carry the operation on.
    fn perform(&mut self, _request: Request) -> Result<Answer, Status> {
        self.note(PortCall::Perform, Status::TooMany);
        Err(Status::TooMany)
    }
}
