//! A filter that audits a volume: it counts what is written to each file, and lets nobody delete one.

ghost use Rattle.std.specs.Prelude.{◌≡◌, ⊤, [], Some};
ghost use Rattle.fm_filter.specs.Hands.{more};

use fm_callback_data::{CallbackData, Completion, Params, PostVerdict, PreVerdict};
use fm_core::{SetAnswer, SetMode};
use fm_filter::{Agreeable, Port};
use fm_types::{Bytes, ContextKind, ContextMask, CtxId, OpMask, Registration, Status};
use std::alloc::Global;

/// Counts the writes to each file in a context of its stream, eight bytes, and denies each deletion. A write that can't be counted passes all the same.
#[derive(Clone, Copy)]
pub struct Audit {
    alloc: Global,
}

impl Audit {
    /// The filter, which takes memory for the body of each context.
    pub fn new(alloc: Global) -> Audit {
        Audit { alloc }
    }

    // The stream's context, with a reference in the hand; the first write makes it. None, with nothing in the hand, where a call was refused.
    #[tactic(auto, using(fm_filter::proofs::Hands::release_first))]
    fn counter<P: Port>(&self, port: &mut P) -> Option<CtxId>
        ensures far { P.kept port.new ≡ P.kept port.old }
        ensures held { P.hand port.old ≡ Some [] → P.hand port.new ≡ Some (more result []) }
    {
        if let Ok(there) = port.get(ContextKind::Stream) {
            return Some(there);
        }
        let Ok(body) = Bytes::copy_of(self.alloc, &[0; 8]) else {
            return None;
        };
        let Ok(context) = port.allocate(ContextKind::Stream, body) else {
            return None;
        };
        match port.set(context, SetMode::Keep, true) {
            SetAnswer::Linked(_) => Some(context),
            SetAnswer::AlreadyDefined(there) => {
                let _ = port.release(context);
                there
            }
            SetAnswer::Refused(_) => {
                let _ = port.release(context);
                None
            }
        }
    }
}

impl Agreeable for Audit {
    ghost use Rattle.std.specs.Prelude.{⊤, true, [], ◌∷◌};
    ghost use Rattle.fm_filter.specs.Registers.{kinds_of, mask_of};
    ghost use Rattle.fm_types.specs.declared.context_kind.ContextKind.TheVariants.{Stream};
    ghost use Rattle.fm_types.specs.declared.operation.Operation.TheVariants.{SetDelete, Write};

    ghost registers = { λ _. record { pre = mask_of (Write ∷ SetDelete ∷ []); post = mask_of []; contexts = kinds_of (Stream ∷ []); query = true; unload = true } };

    ghost pre_may = { λ _ _ _ _. ⊤ };

    ghost post_may = { λ _ _ _ _ _. ⊤ };

    ghost cleanup_may = { λ _ _ _ _. ⊤ };

    ghost is_quiet = { λ _. ⊥ };

    fn registration(&self) -> Registration {
        Registration {
            pre: OpMask(OpMask::WRITE.0 | OpMask::SET_DELETE.0),
            post: OpMask::NONE,
            contexts: ContextMask::STREAM,
            query: true,
            unload: true,
        }
    }

    // It leaves no reference behind.
    #[tactic(auto, using(fm_filter::proofs::Hands::release_first))]
    fn pre<P: Port>(&self, lent: &mut CallbackData, port: &mut P) -> PreVerdict
        ensures may { ⊤ }
        ensures kept { lent.new.received ≡ lent.old.received }
        ensures quiet { ⊥ → port.new ≡ port.old }
        ensures far { P.kept port.new ≡ P.kept port.old }
        ensures clean { P.hand port.old ≡ Some [] → P.hand port.new ≡ Some [] }
    {
        if let Params::SetDelete = lent.params() {
            return PreVerdict::Complete(Status::AccessDenied);
        }
        if let Some(counter) = self.counter(port) {
            let _ = port.bump(counter, 0, 1);
            let _ = port.release(counter);
        }
        PreVerdict::NoCallback
    }

    fn post<P: Port>(&self, _: &mut CallbackData, _: Completion, _: &mut P) -> PostVerdict {
        PostVerdict::Finished
    }

    fn cleanup(&self, _kind: ContextKind, body: &[u8]) -> u64 {
        match body.first_chunk::<8>() {
            Some(writes) => u64::from_be_bytes(*writes),
            None => 0,
        }
    }
}
