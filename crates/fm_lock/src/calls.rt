//! The events as typed calls.

ghost use Rattle.std.specs.Prelude.{◌≡◌, ◌+◌, ℕ};
ghost use Rattle.fm_world.specs.Hands.{given_by_drain, given_by_set, given_with};
ghost use Rattle.fm_world.specs.StepHands.{Fewer, Left, More, Nothing, Resumed};
ghost use Rattle.fm_world.specs.declared.step.Step.TheVariants as step;
ghost use Rattle.fm_world.specs.declared.step.StepReply.TheVariants as reply;
ghost use Rattle.fm_lock.specs.Events.{Holding};
ghost use Rattle.fm_lock.specs.Replies.{body_in, context_in, done_in, drained_in, dropped_in, due_in, held_in, instance_in, number_in, old_in, operation_in, set_in, volume_in};
ghost use Rattle.fm_lock.specs.Runs.{IsMade, IsRead};

use crate::hand::Hand;
use crate::manager::Manager;
use crate::replies::{
    body_in, context_in, done_in, drained_in, dropped_in, due_in, held_in, instance_in, number_in,
    old_in, operation_in, set_in, volume_in,
};
use fm_altitude::Altitude;
use fm_callback_data::{Completion, Params, PreVerdict, Request};
use fm_ctx::{Due, SetMode};
use fm_operations::Hold;
use fm_rundown::Seen;
use fm_types::{
    Bytes, ContextKind, CtxId, FilterId, HandleId, InstanceId, Name, OpId, Status, VolumeId,
};
use fm_world::{BeginsFrom, SetAnswer, Step};
use std::sync::Wait;
use std::sync::ledger::Ledger;

impl<F: Drop, L: Ledger> Manager<F, L> {
    /// Mounts a volume under a name. It answers as the State does: 4, 29, 1.
    #[tactic(auto, using(crate::proofs::Running::read_off))]
    pub fn mount<R: Wait>(&self, rt: &R, name: Name) -> Result<VolumeId, Status>
        ensures run { IsRead (step.Mount name) volume_in result }
    {
        volume_in(self.step_alone(rt, Step::Mount { name }))
    }

    /// Attaches an instance (`FltAttachVolumeAtAltitude`): the worker is then in its setup callback. It answers as the State does: 30, 6, 9, 7, 33, 4, 5, 29,
    /// 1.
    #[tactic(auto, using(crate::proofs::Running::read_off, crate::proofs::AnswerKinds::stays))]
    pub fn attach<R: Wait>(
        &self,
        rt: &R,
        hand: &mut Hand<L>,
        filter: FilterId,
        volume: VolumeId,
        name: Name,
        altitude: Altitude,
    ) -> Result<InstanceId, Status>
        ensures held { hand.new ≡ hand.old }
        ensures run { IsRead (step.Attach hand.old.worker filter volume name altitude) instance_in result }
    {
        let worker = hand.worker();
        instance_in(self.step(
            rt,
            hand,
            Step::Attach {
                worker,
                filter,
                volume,
                name,
                altitude,
            },
        ))
    }

    /// The setup callback that the worker is in returns. It answers as the State does: 30, 11, 13. Whatever the answer but 30, the hand is empty.
    #[tactic(auto, using(crate::proofs::Running::read_off, crate::proofs::AnswerKinds::done_held))]
    pub fn setup_done<R: Wait>(
        &self,
        rt: &R,
        hand: &mut Hand<L>,
        accept: bool,
    ) -> Result<(), Status>
        ensures held { Holding (Left result) hand.old hand.new }
        ensures run { IsRead (step.SetupDone hand.old.worker accept) done_in result }
    {
        let worker = hand.worker();
        done_in(self.step(rt, hand, Step::SetupDone { worker, accept }))
    }

    /// An operation begins. It answers as the State does: 32, 14, 30, 7, 33, 29, 1.
    #[tactic(auto, using(crate::proofs::Running::read_off))]
    pub fn begin<R: Wait>(&self, rt: &R, what: Request) -> Result<OpId, Status>
        ensures run { IsRead (step.Begin what) operation_in result }
    {
        operation_in(self.step_alone(rt, Step::Begin(what)))
    }

    /// An operation begins that an instance's filter asks for itself, below that instance or at the base (`FltReadFile`, `FltCreateFileEx` and their like). It
    /// answers as the State does: 8, 13, 32, then as `begin`.
    #[tactic(auto, using(crate::proofs::Running::read_off))]
    pub fn begin_from<R: Wait>(
        &self,
        rt: &R,
        from: BeginsFrom,
        what: Request,
    ) -> Result<OpId, Status>
        ensures run { IsRead (step.BeginFrom from what) operation_in result }
    {
        operation_in(self.step_alone(rt, Step::BeginFrom(from, what)))
    }

    /// Lets an operation go on that a preoperation held (`FltCompletePendedPreOperation`). It answers as the State does: 30, 32, 28. The hand loses the
    /// context that the completion takes along.
    #[tactic(auto, using(crate::proofs::Running::read_off, crate::proofs::AnswerKinds::done_held))]
    pub fn resume_pre<R: Wait>(
        &self,
        rt: &R,
        hand: &mut Hand<L>,
        operation: OpId,
        verdict: PreVerdict,
    ) -> Result<(), Status>
        ensures held { Holding (Resumed verdict result) hand.old hand.new }
        ensures run { IsRead (step.ResumePre hand.old.worker operation verdict) done_in result }
    {
        let worker = hand.worker();
        done_in(self.step(
            rt,
            hand,
            Step::ResumePre {
                worker,
                operation,
                verdict,
            },
        ))
    }

    /// Lets an operation go on that a postoperation held (`FltCompletePendedPostOperation`). It answers as the State does: 30, 28.
    #[tactic(auto, using(crate::proofs::Running::read_off, crate::proofs::AnswerKinds::stays))]
    pub fn resume_post<R: Wait>(
        &self,
        rt: &R,
        hand: &mut Hand<L>,
        operation: OpId,
    ) -> Result<(), Status>
        ensures held { hand.new ≡ hand.old }
        ensures run { IsRead (step.ResumePost hand.old.worker operation) done_in result }
    {
        let worker = hand.worker();
        done_in(self.step(rt, hand, Step::ResumePost { worker, operation }))
    }

    /// Has other parameters go down of an operation that a preoperation held. It answers as the State does: 30, 28, 32.
    #[tactic(auto, using(crate::proofs::Running::read_off, crate::proofs::AnswerKinds::stays))]
    pub fn change_held<R: Wait>(
        &self,
        rt: &R,
        hand: &mut Hand<L>,
        operation: OpId,
        params: Params,
    ) -> Result<(), Status>
        ensures held { hand.new ≡ hand.old }
        ensures run { IsRead (step.ChangeHeld hand.old.worker operation params) done_in result }
    {
        let worker = hand.worker();
        done_in(self.step(
            rt,
            hand,
            Step::ChangeHeld {
                worker,
                operation,
                params,
            },
        ))
    }

    /// The first operation that a callback of that kind of the worker's instance holds. It answers as the State does: 30.
    #[tactic(auto, using(crate::proofs::Running::read_off, crate::proofs::AnswerKinds::stays))]
    pub fn first_held<R: Wait>(
        &self,
        rt: &R,
        hand: &mut Hand<L>,
        hold: Hold,
    ) -> Result<Option<OpId>, Status>
        ensures held { hand.new ≡ hand.old }
        ensures run { IsRead (step.FirstHeld hand.old.worker hold) held_in result }
    {
        let worker = hand.worker();
        held_in(self.step(rt, hand, Step::FirstHeld { worker, hold }))
    }

    /// Allocates a context (`FltAllocateContext`), with one reference in the hand. It answers as the State does: 30, 21, 32, 26, 29, 1.
    #[tactic(auto, using(crate::proofs::Running::read_off, crate::proofs::AnswerKinds::context_held))]
    pub fn allocate<R: Wait>(
        &self,
        rt: &R,
        hand: &mut Hand<L>,
        kind: ContextKind,
        body: Bytes,
    ) -> Result<CtxId, Status>
        ensures held { Holding (More result (λ _. 1)) hand.old hand.new }
        ensures run { IsRead (step.Allocate hand.old.worker kind body) context_in result }
    {
        let worker = hand.worker();
        context_in(self.step(rt, hand, Step::Allocate { worker, kind, body }))
    }

    /// Sets a context that the hand has on the object of its kind (`FltSetStreamContext` and its kin). It answers as the State does: 30, 25, 27, 13, 23, 22,
    /// 26. An old one that is handed out is one reference more in the hand.
    #[tactic(auto, using(crate::proofs::Running::read_off))]
    pub fn set<R: Wait>(
        &self,
        rt: &R,
        hand: &mut Hand<L>,
        context: CtxId,
        mode: SetMode,
        wants_old: bool,
    ) -> SetAnswer
        ensures held { Holding (λ before after. after ≡ before + given_by_set result) hand.old hand.new }
        ensures run { IsRead (step.Set hand.old.worker context mode wants_old) set_in result }
    {
        let worker = hand.worker();
        set_in(self.step(
            rt,
            hand,
            Step::Set {
                worker,
                context,
                mode,
                wants_old,
            },
        ))
    }

    /// Gets the context that is set on the object of that kind (`FltGetStreamContext` and its kin), with one reference more in the hand. It answers as the
    /// State does: 30, 21, 27, 13, 24, 26.
    #[tactic(auto, using(crate::proofs::Running::read_off, crate::proofs::AnswerKinds::context_held))]
    pub fn get<R: Wait>(
        &self,
        rt: &R,
        hand: &mut Hand<L>,
        kind: ContextKind,
    ) -> Result<CtxId, Status>
        ensures held { Holding (More result (λ _. 1)) hand.old hand.new }
        ensures run { IsRead (step.Get hand.old.worker kind) context_in result }
    {
        let worker = hand.worker();
        context_in(self.step(rt, hand, Step::Get { worker, kind }))
    }

    /// Takes that context off its object (`FltDeleteStreamContext` and its kin). It answers as the State does: 30, 21, 27, 13, 24, 26. One that is handed out
    /// is one reference more in the hand.
    #[tactic(auto, using(crate::proofs::Running::read_off, crate::proofs::AnswerKinds::old_held))]
    pub fn delete<R: Wait>(
        &self,
        rt: &R,
        hand: &mut Hand<L>,
        kind: ContextKind,
        wants_old: bool,
    ) -> Result<Option<CtxId>, Status>
        ensures held { Holding (More result given_with) hand.old hand.new }
        ensures run { IsRead (step.Delete hand.old.worker kind wants_old) old_in result }
    {
        let worker = hand.worker();
        old_in(self.step(
            rt,
            hand,
            Step::Delete {
                worker,
                kind,
                wants_old,
            },
        ))
    }

    /// Takes one more reference to a context that the hand has (`FltReferenceContext`). It answers as the State does: 30, 25, 26.
    #[tactic(auto, using(crate::proofs::Running::read_off, crate::proofs::AnswerKinds::done_held))]
    pub fn reference<R: Wait>(
        &self,
        rt: &R,
        hand: &mut Hand<L>,
        context: CtxId,
    ) -> Result<(), Status>
        ensures held { Holding (More result (λ _. 1)) hand.old hand.new }
        ensures run { IsRead (step.Reference hand.old.worker context) done_in result }
    {
        let worker = hand.worker();
        done_in(self.step(rt, hand, Step::Reference { worker, context }))
    }

    /// Gives a reference up (`FltReleaseContext`). It answers as the State does: 30, 25.
    #[tactic(auto, using(crate::proofs::Running::read_off, crate::proofs::AnswerKinds::done_held))]
    pub fn release<R: Wait>(&self, rt: &R, hand: &mut Hand<L>, context: CtxId) -> Result<(), Status>
        ensures held { Holding (Fewer result) hand.old hand.new }
        ensures run { IsRead (step.Release hand.old.worker context) done_in result }
    {
        let worker = hand.worker();
        done_in(self.step(rt, hand, Step::Release { worker, context }))
    }

    /// The bytes of a context that the hand has. It answers as the State does: 30, 25, 1.
    #[tactic(auto, using(crate::proofs::Running::read_off, crate::proofs::AnswerKinds::stays))]
    pub fn read_body<R: Wait>(
        &self,
        rt: &R,
        hand: &mut Hand<L>,
        context: CtxId,
    ) -> Result<Bytes, Status>
        ensures held { hand.new ≡ hand.old }
        ensures run { IsRead (step.ReadBody hand.old.worker context) body_in result }
    {
        let worker = hand.worker();
        body_in(self.step(rt, hand, Step::ReadBody { worker, context }))
    }

    /// Adds to a number in the bytes of a context that the hand has, and tells the new one. It answers as the State does: 30, 25, 32.
    #[tactic(auto, using(crate::proofs::Running::read_off, crate::proofs::AnswerKinds::stays))]
    pub fn bump<R: Wait>(
        &self,
        rt: &R,
        hand: &mut Hand<L>,
        context: CtxId,
        place: u64,
        by: u64,
    ) -> Result<u64, Status>
        ensures held { hand.new ≡ hand.old }
        ensures run { IsRead (step.Bump hand.old.worker context place by) number_in result }
    {
        let worker = hand.worker();
        number_in(self.step(
            rt,
            hand,
            Step::Bump {
                worker,
                context,
                place,
                by,
            },
        ))
    }

    /// Takes the context that is due longest: the worker is then in its cleanup callback. It answers as the State does: 30.
    #[tactic(auto, using(crate::proofs::Running::read_off, crate::proofs::AnswerKinds::stays))]
    pub fn take_due<R: Wait>(&self, rt: &R, hand: &mut Hand<L>) -> Result<Option<Due>, Status>
        ensures held { hand.new ≡ hand.old }
        ensures run { IsRead (step.TakeDue hand.old.worker) due_in result }
    {
        let worker = hand.worker();
        due_in(self.step(rt, hand, Step::TakeDue { worker }))
    }

    /// The cleanup callback that the worker is in returns (`ContextCleanupCallback`), with a number for its filter's total. It answers as the State does: 30.
    #[tactic(auto, using(crate::proofs::Running::read_off, crate::proofs::AnswerKinds::stays))]
    pub fn cleaned<R: Wait>(&self, rt: &R, hand: &mut Hand<L>, number: u64) -> Result<(), Status>
        ensures held { hand.new ≡ hand.old }
        ensures run { IsRead (step.Cleaned hand.old.worker number) done_in result }
    {
        let worker = hand.worker();
        done_in(self.step(rt, hand, Step::Cleaned { worker, number }))
    }

    /// Asks whether an instance may be detached (`FltDetachVolume`): the worker is then in its query callback. It answers as the State does: 30, 8, 13, 12.
    #[tactic(auto, using(crate::proofs::Running::read_off, crate::proofs::AnswerKinds::stays))]
    pub fn ask_detach<R: Wait>(
        &self,
        rt: &R,
        hand: &mut Hand<L>,
        instance: InstanceId,
    ) -> Result<(), Status>
        ensures held { hand.new ≡ hand.old }
        ensures run { IsRead (step.AskDetach hand.old.worker instance) done_in result }
    {
        let worker = hand.worker();
        done_in(self.step(rt, hand, Step::AskDetach { worker, instance }))
    }

    /// The query callback that the worker is in returns. It answers as the State does: 30, 12, 13. Whatever the answer but 30, the hand is empty.
    #[tactic(auto, using(crate::proofs::Running::read_off, crate::proofs::AnswerKinds::done_held))]
    pub fn query_returned<R: Wait>(
        &self,
        rt: &R,
        hand: &mut Hand<L>,
        allow: bool,
    ) -> Result<(), Status>
        ensures held { Holding (Left result) hand.old hand.new }
        ensures run { IsRead (step.QueryReturned hand.old.worker allow) done_in result }
    {
        let worker = hand.worker();
        done_in(self.step(rt, hand, Step::QueryReturned { worker, allow }))
    }

    /// Starts the teardown of an instance: the worker is then in the callback that says so. It answers as the State does: 30, 8.
    #[tactic(auto, using(crate::proofs::Running::read_off, crate::proofs::AnswerKinds::stays))]
    pub fn start_teardown<R: Wait>(
        &self,
        rt: &R,
        hand: &mut Hand<L>,
        instance: InstanceId,
    ) -> Result<(), Status>
        ensures held { hand.new ≡ hand.old }
        ensures run { IsRead (step.StartTeardown hand.old.worker instance) done_in result }
    {
        let worker = hand.worker();
        done_in(self.step(rt, hand, Step::StartTeardown { worker, instance }))
    }

    /// The teardown-start callback that the worker is in returns: the hand is empty. It answers as the State does: 30.
    #[tactic(auto, using(crate::proofs::Running::read_off, crate::proofs::AnswerKinds::done_held))]
    pub fn start_returned<R: Wait>(&self, rt: &R, hand: &mut Hand<L>) -> Result<(), Status>
        ensures held { Holding (Left result) hand.old hand.new }
        ensures run { IsRead (step.StartReturned hand.old.worker) done_in result }
    {
        let worker = hand.worker();
        done_in(self.step(rt, hand, Step::StartReturned { worker }))
    }

    /// Gets back what a stopping instance is owed, before its turn: the worker is then in that drain, with the completion's context in its hand. It answers
    /// as the State does: 30, 8.
    #[tactic(auto, using(crate::proofs::Running::read_off, crate::proofs::AnswerKinds::drained_held))]
    pub fn drain_take<R: Wait>(
        &self,
        rt: &R,
        hand: &mut Hand<L>,
        instance: InstanceId,
    ) -> Result<Option<(OpId, Completion)>, Status>
        ensures held { Holding (More result given_by_drain) hand.old hand.new }
        ensures run { IsRead (step.DrainTake hand.old.worker instance) drained_in result }
    {
        let worker = hand.worker();
        drained_in(self.step(rt, hand, Step::DrainTake { worker, instance }))
    }

    /// That drain returns: the hand is empty. It answers as the State does: 30.
    #[tactic(auto, using(crate::proofs::Running::read_off, crate::proofs::AnswerKinds::done_held))]
    pub fn drain_done<R: Wait>(&self, rt: &R, hand: &mut Hand<L>) -> Result<(), Status>
        ensures held { Holding (Nothing result) hand.old hand.new }
        ensures run { IsRead (step.DrainDone hand.old.worker) done_in result }
    {
        let worker = hand.worker();
        done_in(self.step(rt, hand, Step::DrainDone { worker }))
    }

    /// Completes the teardown of an instance: the worker is then in the callback that says so. It answers as the State does: 30, 8, 34.
    #[tactic(auto, using(crate::proofs::Running::read_off, crate::proofs::AnswerKinds::stays))]
    pub fn complete_teardown<R: Wait>(
        &self,
        rt: &R,
        hand: &mut Hand<L>,
        instance: InstanceId,
    ) -> Result<(), Status>
        ensures held { hand.new ≡ hand.old }
        ensures run { IsRead (step.CompleteTeardown hand.old.worker instance) done_in result }
    {
        let worker = hand.worker();
        done_in(self.step(rt, hand, Step::CompleteTeardown { worker, instance }))
    }

    /// The teardown-complete callback that the worker is in returns: the hand is empty. It answers as the State does: 30.
    #[tactic(auto, using(crate::proofs::Running::read_off, crate::proofs::AnswerKinds::done_held))]
    pub fn complete_returned<R: Wait>(&self, rt: &R, hand: &mut Hand<L>) -> Result<(), Status>
        ensures held { Holding (Left result) hand.old hand.new }
        ensures run { IsRead (step.CompleteReturned hand.old.worker) done_in result }
    {
        let worker = hand.worker();
        done_in(self.step(rt, hand, Step::CompleteReturned { worker }))
    }

    /// The worker enters a routine of an instance's filter, on no file or on that of a handle (`FltQueueGenericWorkItem`). It answers as the State does: 30, 8,
    /// 13, 14, 32.
    #[tactic(auto, using(crate::proofs::Running::read_off, crate::proofs::AnswerKinds::stays))]
    pub fn enter_routine<R: Wait>(
        &self,
        rt: &R,
        hand: &mut Hand<L>,
        instance: InstanceId,
        handle: Option<HandleId>,
    ) -> Result<(), Status>
        ensures held { hand.new ≡ hand.old }
        ensures run { IsRead (step.EnterRoutine hand.old.worker instance handle) done_in result }
    {
        let worker = hand.worker();
        done_in(self.step(
            rt,
            hand,
            Step::EnterRoutine {
                worker,
                instance,
                handle,
            },
        ))
    }

    /// That routine returns: the hand is empty. It answers as the State does: 30.
    #[tactic(auto, using(crate::proofs::Running::read_off, crate::proofs::AnswerKinds::done_held))]
    pub fn routine_returned<R: Wait>(&self, rt: &R, hand: &mut Hand<L>) -> Result<(), Status>
        ensures held { Holding (Left result) hand.old hand.new }
        ensures run { IsRead (step.RoutineReturned hand.old.worker) done_in result }
    {
        let worker = hand.worker();
        done_in(self.step(rt, hand, Step::RoutineReturned { worker }))
    }

    /// An instance ends, once its contexts are cleaned up. It answers as the State does: 8, 30, 34.
    #[tactic(auto, using(crate::proofs::Running::read_off))]
    pub fn finish<R: Wait>(&self, rt: &R, instance: InstanceId) -> Result<(), Status>
        ensures run { IsRead (step.Finish instance) done_in result }
    {
        done_in(self.step_alone(rt, Step::Finish { instance }))
    }

    /// Asks whether a filter may be unloaded (`FltUnloadFilter`): the worker is then in its unload callback. It answers as the State does: 30, 6, 9, 12.
    #[tactic(auto, using(crate::proofs::Running::read_off, crate::proofs::AnswerKinds::stays))]
    pub fn ask_unload<R: Wait>(
        &self,
        rt: &R,
        hand: &mut Hand<L>,
        filter: FilterId,
    ) -> Result<(), Status>
        ensures held { hand.new ≡ hand.old }
        ensures run { IsRead (step.AskUnload hand.old.worker filter) done_in result }
    {
        let worker = hand.worker();
        done_in(self.step(rt, hand, Step::AskUnload { worker, filter }))
    }

    /// The unload callback that the worker is in returns. It answers as the State does: 30, 12, 9.
    #[tactic(auto, using(crate::proofs::Running::read_off, crate::proofs::AnswerKinds::stays))]
    pub fn unload_returned<R: Wait>(
        &self,
        rt: &R,
        hand: &mut Hand<L>,
        allow: bool,
    ) -> Result<(), Status>
        ensures held { hand.new ≡ hand.old }
        ensures run { IsRead (step.UnloadReturned hand.old.worker allow) done_in result }
    {
        let worker = hand.worker();
        done_in(self.step(rt, hand, Step::UnloadReturned { worker, allow }))
    }

    /// A filter is unloaded, and isn't asked. It answers as the State does: 6, 9.
    #[tactic(auto, using(crate::proofs::Running::read_off))]
    pub fn force_unload<R: Wait>(&self, rt: &R, filter: FilterId) -> Result<(), Status>
        ensures run { IsRead (step.ForceUnload filter) done_in result }
    {
        done_in(self.step_alone(rt, Step::ForceUnload { filter }))
    }

    /// A filter's volume contexts are unlinked. It answers as the State does: 6, 30, 34.
    #[tactic(auto, using(crate::proofs::Running::read_off))]
    pub fn empty_filter<R: Wait>(&self, rt: &R, filter: FilterId) -> Result<(), Status>
        ensures run { IsRead (step.EmptyFilter filter) done_in result }
    {
        done_in(self.step_alone(rt, Step::EmptyFilter { filter }))
    }

    /// A filter ends, once its contexts are cleaned up (`FltUnregisterFilter` returns). It answers as the State does: 6, 30, 34.
    #[tactic(auto, using(crate::proofs::Running::read_off))]
    pub fn finish_filter<R: Wait>(&self, rt: &R, filter: FilterId) -> Result<(), Status>
        ensures run { IsRead (step.FinishFilter filter) done_in result }
    {
        done_in(self.step_alone(rt, Step::FinishFilter { filter }))
    }

    /// The dismount of a volume begins, which a look at a rundown gate found drained; no other call begins one. It answers as the State does: 7, 33, 34.
    pub fn start_dismount<R: Wait>(&self, rt: &R, seen: Seen) -> Result<(), Status>
        ensures run { IsMade (step.StartDismount seen.volume) (reply.Done result) }
    {
        self.locked(rt).start_dismount(seen)
    }

    /// The lowest handle that is open on a dismounting volume closes. It answers as the State does: 7, 30.
    #[tactic(auto, using(crate::proofs::Running::read_off))]
    pub fn drop_handle<R: Wait>(&self, rt: &R, volume: VolumeId) -> Result<Option<HandleId>, Status>
        ensures run { IsRead (step.DropHandle volume) dropped_in result }
    {
        dropped_in(self.step_alone(rt, Step::DropHandle { volume }))
    }

    /// A dismounting volume's contexts are unlinked. It answers as the State does: 7, 30, 34.
    #[tactic(auto, using(crate::proofs::Running::read_off))]
    pub fn empty_volume<R: Wait>(&self, rt: &R, volume: VolumeId) -> Result<(), Status>
        ensures run { IsRead (step.EmptyVolume volume) done_in result }
    {
        done_in(self.step_alone(rt, Step::EmptyVolume { volume }))
    }

    /// The dismount of a volume ends, once its contexts are cleaned up. It answers as the State does: 7, 30, 34.
    #[tactic(auto, using(crate::proofs::Running::read_off))]
    pub fn finish_volume<R: Wait>(&self, rt: &R, volume: VolumeId) -> Result<(), Status>
        ensures run { IsRead (step.FinishVolume volume) done_in result }
    {
        done_in(self.step_alone(rt, Step::FinishVolume { volume }))
    }
}
