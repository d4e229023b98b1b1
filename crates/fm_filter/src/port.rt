//! The trait of what a callback may call.

ghost use Rattle.std.specs.Prelude.{◌≡◌, ◌%◌, ◌^◌, ◌-◌};
ghost use Rattle.fm_callback_data.specs.declared.request.FileRequest.TheVariants as asks;
ghost use Rattle.fm_callback_data.specs.declared.request.Request.TheVariants as request;
ghost use Rattle.fm_filter.specs.Hands.{Gains, GainsOld, GainsSame, GainsSet, Loses, LosesSent, sent_by};

use fm_callback_data::{Answer, FileRequest, PreVerdict, Request};
use fm_ctx::SetMode;
use fm_operations::Hold;
use fm_types::{
    Bytes, ContextKind, CreateMode, CtxId, HandleId, OpId, SharedPath, Status, VolumeId,
};
use fm_world::{About, SetAnswer};

/// What a filter's callback may call of the filter manager while it runs (the `Flt` routines of the kit).
/// A port stands for one callback: its instance, the operation or object that it is called for, and the
/// hand of the worker that runs it, in which the references lie that the callback holds. What is left in
/// the hand when the callback returns is released and counted as a leak.
///
/// Each call has a relation, a ghost member, of what it may answer and what it makes of the port. A
/// refusal changes nothing, but for a `set` that hands out the context which is there.
pub trait Port {
    ghost use Rattle.std.specs.Prelude.{ℕ, Bool, List, Option, Result};
    ghost use Rattle.fm_types.specs.declared.context_kind.ContextKind.{ContextKind};
    ghost use Rattle.fm_types.specs.declared.ids.CtxId.{CtxId};
    ghost use Rattle.fm_types.specs.declared.ids.OpId.{OpId};
    ghost use Rattle.fm_types.specs.declared.status.Status.{Status};
    ghost use Rattle.fm_callback_data.specs.declared.answer.Answer.{Answer};
    ghost use Rattle.fm_callback_data.specs.declared.request.Request.{Request};
    ghost use Rattle.fm_callback_data.specs.declared.verdict.PreVerdict.{PreVerdict};
    ghost use Rattle.fm_ctx.specs.declared.set_reply.SetMode.{SetMode};
    ghost use Rattle.fm_operations.specs.declared.hold.Hold.{Hold};
    ghost use Rattle.fm_world.specs.declared.set_answer.SetAnswer.{SetAnswer};
    ghost use Rattle.fm_world.specs.declared.about.About.{About};
    ghost use Rattle.fm_filter.specs.Hands.{InHand};
    ghost use Rattle.fm_filter.specs.Standing.{Kept};

    /// How `about` may answer.
    ghost tells: { Self → Result About Status → Type 0 };

    /// How `allocate` may answer, and what it makes of the port.
    ghost allocates: { Self → ContextKind → List ℕ → Result CtxId Status → Self → Type 0 };

    /// The same of `set`.
    ghost sets: { Self → CtxId → SetMode → Bool → SetAnswer → Self → Type 0 };

    /// The same of `get`.
    ghost gets: { Self → ContextKind → Result CtxId Status → Self → Type 0 };

    /// The same of `delete`.
    ghost deletes: { Self → ContextKind → Bool → Result (Option CtxId) Status → Self → Type 0 };

    /// The same of `reference`.
    ghost references: { Self → CtxId → Result (Unit {0}) Status → Self → Type 0 };

    /// The same of `release`.
    ghost releases: { Self → CtxId → Result (Unit {0}) Status → Self → Type 0 };

    /// The same of `read_body`.
    ghost reads_body: { Self → CtxId → Result (List ℕ) Status → Self → Type 0 };

    /// The same of `write_body`.
    ghost writes_body: { Self → CtxId → List ℕ → Result (Unit {0}) Status → Self → Type 0 };

    /// The same of `bump`.
    ghost bumps: { Self → CtxId → ℕ → ℕ → Result ℕ Status → Self → Type 0 };

    /// The same of `first_held`.
    ghost finds_held: { Self → Hold → Result (Option OpId) Status → Self → Type 0 };

    /// The same of `resume_pre`.
    ghost resumes_pre: { Self → OpId → PreVerdict → Result (Unit {0}) Status → Self → Type 0 };

    /// The same of `resume_post`.
    ghost resumes_post: { Self → OpId → Result (Unit {0}) Status → Self → Type 0 };

    /// The same of `perform`.
    ghost performs: { Self → Request → Result Answer Status → Self → Type 0 };

    /// The references that the callback holds, in the order in which it got them, if the port says it. A filter that promises to leave nothing behind says so
    /// by it.
    ghost hand: { Self → InHand };

    /// What no call changes: which worker runs the callback, and what stands in the manager, if the port says it.
    ghost kept: { Self → Kept };

    /// What the callback is called for (`FLT_RELATED_OBJECTS`): its instance with its name and altitude, whose it is, the volume, and the operation with its
    /// number, kind, open file and path. It takes no memory and changes nothing. Refused with 1 where no more owners of the path can be counted.
    fn about(&self) -> Result<About, Status>
        ensures { tells self.now result };

    /// Allocates a context of a kind, with its body (`FltAllocateContext`). Its one reference is in the
    /// hand, and it belongs to the callback's instance, or to its filter where it is a volume context.
    /// Refused with 21 where the filter didn't register the kind, 29 where the body has more than 4,096
    /// bytes or there are too many contexts, 26 where the hand has 16 references, 1.
    fn allocate(&mut self, kind: ContextKind, body: Bytes) -> Result<CtxId, Status>
        ensures event { allocates self.old kind body result self.new }
        ensures hand { Gains result (hand self.old) (hand self.new) }
        ensures kept { kept self.new ≡ kept self.old };

    /// Sets a context of the hand on the callback's object of its kind (`FltSetVolumeContext`,
    /// `FltSetInstanceContext`, `FltSetStreamContext`, `FltSetStreamHandleContext`), for which it has one
    /// reference more. Keep leaves a context that is there, and Replace takes its place; where the old one
    /// is wanted a reference to it is in the hand. Refused with 25 where it isn't in the hand, 23 where it
    /// is set already, 27 where the callback has no such object, 13 where the object or the instance is
    /// torn down, 26 where the old one is wanted and the hand has 16 references.
    fn set(&mut self, context: CtxId, mode: SetMode, wants_old: bool) -> SetAnswer
        ensures event { sets self.old context mode wants_old result self.new }
        ensures hand { GainsSet mode wants_old result (hand self.old) (hand self.new) }
        ensures kept { kept self.new ≡ kept self.old };

    /// Gets the context of a kind that is set on the callback's object (`FltGetVolumeContext`,
    /// `FltGetInstanceContext`, `FltGetStreamContext`, `FltGetStreamHandleContext`), with a reference more,
    /// in the hand. Refused with 21 where the filter didn't register the kind, 27 where the callback has
    /// no such object, 13 where that is torn down, 24 where none is set, 26 where the hand has 16
    /// references.
    fn get(&mut self, kind: ContextKind) -> Result<CtxId, Status>
        ensures event { gets self.old kind result self.new }
        ensures hand { Gains result (hand self.old) (hand self.new) }
        ensures kept { kept self.new ≡ kept self.old };

    /// Takes the context of a kind off the callback's object (`FltDeleteVolumeContext`,
    /// `FltDeleteInstanceContext`, `FltDeleteStreamContext`, `FltDeleteStreamHandleContext`). The
    /// reference for which it was set is released, or in the hand where the old one is wanted. Refused
    /// with 21, 27, 24 and 26 as `get` is.
    fn delete(&mut self, kind: ContextKind, wants_old: bool) -> Result<Option<CtxId>, Status>
        ensures event { deletes self.old kind wants_old result self.new }
        ensures hand { GainsOld wants_old result (hand self.old) (hand self.new) }
        ensures kept { kept self.new ≡ kept self.old };

    /// Takes one more reference to a context of the hand (`FltReferenceContext`). Refused with 25 where
    /// it isn't there, and 26 where the hand has 16 references.
    fn reference(&mut self, context: CtxId) -> Result<(), Status>
        ensures event { references self.old context result self.new }
        ensures hand { GainsSame context result (hand self.old) (hand self.new) }
        ensures kept { kept self.new ≡ kept self.old };

    /// Gives up one reference of the hand (`FltReleaseContext`): with the last one the context is due for
    /// its cleanup. Refused with 25 where the context isn't in the hand.
    fn release(&mut self, context: CtxId) -> Result<(), Status>
        ensures event { releases self.old context result self.new }
        ensures hand { Loses context result (hand self.old) (hand self.new) }
        ensures kept { kept self.new ≡ kept self.old };

    /// A copy of the body of a context of the hand (what the kit's pointer `PFLT_CONTEXT` points to).
    /// Refused with 25 where the context isn't there, and 1.
    fn read_body(&mut self, context: CtxId) -> Result<Bytes, Status>
        ensures event { reads_body self.old context result self.new }
        ensures hand { hand self.new ≡ hand self.old }
        ensures kept { kept self.new ≡ kept self.old };

    /// Replaces the body of a context of the hand. Refused with 25 where the context isn't there, and 32
    /// where the bytes have another length than the body.
    fn write_body(&mut self, context: CtxId, bytes: &[u8]) -> Result<(), Status>
        ensures event { writes_body self.old context bytes.now result self.new }
        ensures hand { hand self.new ≡ hand self.old }
        ensures kept { kept self.new ≡ kept self.old };

    /// Adds to the number at a place of the body of a context of the hand, and answers the sum
    /// (`InterlockedAdd64`): eight bytes, the highest first, modulo 2^64. Refused with 25 where the context
    /// isn't there, and 32 where the number would go past the body's end.
    fn bump(&mut self, context: CtxId, place: u64, by: u64) -> Result<u64, Status>
        ensures event { bumps self.old context place by result self.new }
        ensures hand { hand self.new ≡ hand self.old }
        ensures kept { kept self.new ≡ kept self.old };

    /// Takes from the number at a place of the body of a context of the hand, and answers what is left, modulo 2^64. It is a `bump` by what makes up the
    /// difference, and refused as one.
    fn bump_down(&mut self, context: CtxId, place: u64, by: u64) -> Result<u64, Status>
        ensures event { bumps self.old context place ((2 ^ 64 - by) % 2 ^ 64) result self.new }
        ensures hand { hand self.new ≡ hand self.old }
        ensures kept { kept self.new ≡ kept self.old }
    {
        self.bump(context, place, 0u64.wrapping_sub(by))
    }

    /// The first operation, by number, that a callback of that kind of the port's instance holds, if it
    /// holds one.
    fn first_held(&mut self, hold: Hold) -> Result<Option<OpId>, Status>
        ensures event { finds_held self.old hold result self.new }
        ensures hand { hand self.new ≡ hand self.old }
        ensures kept { kept self.new ≡ kept self.old };

    /// Lets an operation go on that a preoperation of the port's instance held
    /// (`FltCompletePendedPreOperation`), with the verdict that it gives after all. Refused with 29 where
    /// the manager has no room for one more resumed operation, 32 for Pending and Synchronize, 28 where
    /// none of them holds the operation.
    fn resume_pre(&mut self, operation: OpId, verdict: PreVerdict) -> Result<(), Status>
        ensures event { resumes_pre self.old operation verdict result self.new }
        ensures hand { LosesSent (sent_by verdict) (hand self.old) (hand self.new) }
        ensures kept { kept self.new ≡ kept self.old };

    /// Lets an operation go on that a postoperation of the port's instance held
    /// (`FltCompletePendedPostOperation`). Refused with 29 where the manager has no room for one more
    /// resumed operation, 28 where none of them holds the operation.
    fn resume_post(&mut self, operation: OpId) -> Result<(), Status>
        ensures event { resumes_post self.old operation result self.new }
        ensures hand { hand self.new ≡ hand self.old }
        ensures kept { kept self.new ≡ kept self.old };

    /// Begins an operation of the filter's own, and waits for its answer (`FltPerformSynchronousIo`). The instances below the port's hear of it, and the others
    /// don't. Refused with 30 outside of a callback of an instance, 29 where no other worker could carry it on, as while each of them waits for such an
    /// operation, and as its beginning is: 8, 13, 32, 14, 30, 7, 33, 29, 1. An operation that a filter below holds is waited for until it is let go.
    fn perform(&mut self, request: Request) -> Result<Answer, Status>
        ensures event { performs self.old request result self.new }
        ensures hand { hand self.new ≡ hand self.old }
        ensures kept { kept self.new ≡ kept self.old };

    /// Opens or makes a file of a volume (`FltCreateFileEx`): the answer's information is the handle's number. Nobody but the filter closes it. It is a
    /// `perform`, and refused as one.
    fn create(
        &mut self,
        volume: VolumeId,
        path: SharedPath,
        mode: CreateMode,
    ) -> Result<Answer, Status>
        ensures event { performs self.old (request.Create volume path mode) result self.new }
        ensures hand { hand self.new ≡ hand self.old }
        ensures kept { kept self.new ≡ kept self.old }
    {
        self.perform(Request::Create { volume, path, mode })
    }

    /// Reads at most `len` bytes from `offset` on (`FltReadFile`). It is a `perform`, and refused as one.
    fn read(&mut self, handle: HandleId, offset: u64, len: u32) -> Result<Answer, Status>
        ensures event { performs self.old (request.OnHandle handle (asks.Read offset len)) result self.new }
        ensures hand { hand self.new ≡ hand self.old }
        ensures kept { kept self.new ≡ kept self.old }
    {
        let request = FileRequest::Read { offset, len };
        self.perform(Request::OnHandle { handle, request })
    }

    /// Writes bytes at `offset` (`FltWriteFile`). It is a `perform`, and refused as one.
    fn write(&mut self, handle: HandleId, offset: u64, bytes: Bytes) -> Result<Answer, Status>
        ensures event { performs self.old (request.OnHandle handle (asks.Write offset bytes)) result self.new }
        ensures hand { hand self.new ≡ hand self.old }
        ensures kept { kept self.new ≡ kept self.old }
    {
        let request = FileRequest::Write { offset, bytes };
        self.perform(Request::OnHandle { handle, request })
    }

    /// Asks for a file's size, the answer's information (`FltQueryInformationFile`). It is a `perform`, and refused as one.
    fn query_size(&mut self, handle: HandleId) -> Result<Answer, Status>
        ensures event { performs self.old (request.OnHandle handle asks.QuerySize) result self.new }
        ensures hand { hand self.new ≡ hand self.old }
        ensures kept { kept self.new ≡ kept self.old }
    {
        let request = FileRequest::QuerySize;
        self.perform(Request::OnHandle { handle, request })
    }

    /// Writes out what is buffered (`FltFlushBuffers`). It is a `perform`, and refused as one.
    fn flush(&mut self, handle: HandleId) -> Result<Answer, Status>
        ensures event { performs self.old (request.OnHandle handle asks.Flush) result self.new }
        ensures hand { hand self.new ≡ hand self.old }
        ensures kept { kept self.new ≡ kept self.old }
    {
        let request = FileRequest::Flush;
        self.perform(Request::OnHandle { handle, request })
    }

    /// Closes a handle of the filter's own (`FltClose`): a cleanup and then the close. Each is a `perform`, and refused as one; the answer is the close's.
    fn close(&mut self, handle: HandleId) -> Result<Answer, Status>
        ensures hand { hand self.new ≡ hand self.old }
        ensures kept { kept self.new ≡ kept self.old }
    {
        let request = FileRequest::Cleanup;
        self.perform(Request::OnHandle { handle, request })?;
        let request = FileRequest::Close;
        self.perform(Request::OnHandle { handle, request })
    }
}
