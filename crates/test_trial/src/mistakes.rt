//! A filter that makes mistakes, each at an offset of a read.

ghost use Rattle.std.specs.Prelude.{◌≡◌};

use fm_callback_data::{CallbackData, Completion, Params, PostVerdict, PreVerdict};
use fm_core::SetMode;
use fm_filter::{Agreeable, Port};
use fm_types::{Bytes, ContextKind, ContextMask, CtxId, OpId, OpMask, Registration, Status};
use std::alloc::Global;

/// A read at 0 leaves a reference behind, at 1 it releases one twice, at 2 it uses a context after its release, at 3 it sets it then, at 4 it resumes an
/// operation that nobody holds, and at 5 it sends a context along, whose reference the postoperation leaves behind. At 6 it holds the read, and at 8 it sets a
/// status and holds it. From 100 on it lets the operation of that number less 100 go. Others pass.
#[derive(Clone, Copy)]
pub struct Mistakes {
    alloc: Global,
}

impl Mistakes {
    /// The filter, which takes memory for the body of each context.
    pub fn new(alloc: Global) -> Mistakes {
        Mistakes { alloc }
    }

    // A new context, with its only reference in the hand. None where a call was refused.
    fn new_context<P: Port>(&self, port: &mut P) -> Option<CtxId>
        ensures far { P.kept port.new ≡ P.kept port.old }
    {
        let body = Bytes::copy_of(self.alloc, &[0; 8]).ok()?;
        port.allocate(ContextKind::Stream, body).ok()
    }

    // What is done with a context whose reference was released, by the offset.
    fn misuse<P: Port>(&self, offset: u64, port: &mut P)
        ensures far { P.kept port.new ≡ P.kept port.old }
    {
        let Some(context) = self.new_context(port) else {
            return;
        };
        let _ = port.release(context);
        match offset {
            1 => {
                let _ = port.release(context);
            }
            2 => {
                let _ = port.bump(context, 0, 1);
            }
            _ => {
                let _ = port.set(context, SetMode::Keep, false);
            }
        }
    }
}

impl Agreeable for Mistakes {
    ghost use Rattle.std.specs.Prelude.{⊤, true};

    ghost registers = { λ _. record { pre = record { 0 = 2 }; post = record { 0 = 2 }; contexts = record { 0 = 4 }; query = true; unload = true } };

    ghost pre_may = { λ _ _ _ _. ⊤ };

    ghost post_may = { λ _ _ _ _ _. ⊤ };

    ghost cleanup_may = { λ _ _ _ _. ⊤ };

    ghost is_quiet = { λ _. ⊥ };

    fn registration(&self) -> Registration {
        Registration {
            pre: OpMask::READ,
            post: OpMask::READ,
            contexts: ContextMask::STREAM,
            query: true,
            unload: true,
        }
    }

    fn pre<P: Port>(&self, lent: &mut CallbackData, port: &mut P) -> PreVerdict {
        let Params::Read { offset, .. } = lent.params() else {
            return PreVerdict::NoCallback;
        };
        match *offset {
            0 => {
                let _ = self.new_context(port);
            }
            1 | 2 | 3 => self.misuse(*offset, port),
            4 => {
                let _ = port.resume_pre(OpId(0), PreVerdict::NoCallback);
            }
            5 => {
                return PreVerdict::WithCallback(Completion {
                    number: 0,
                    context: self.new_context(port),
                });
            }
            6 => return PreVerdict::Pending,
            8 => {
                lent.set_status(Status::AccessDenied, 0);
                return PreVerdict::Pending;
            }
            at => {
                if let Some(number) = at.checked_sub(100) {
                    let _ = port.resume_pre(OpId(number), PreVerdict::NoCallback);
                }
            }
        }
        PreVerdict::NoCallback
    }

    fn post<P: Port>(&self, _: &mut CallbackData, _: Completion, _: &mut P) -> PostVerdict {
        PostVerdict::Finished
    }

    fn cleanup(&self, _kind: ContextKind, _body: &[u8]) -> u64 {
        0
    }
}
