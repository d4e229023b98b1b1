//! A filter whose verdicts and statuses don't count as they are given.

ghost use Rattle.std.specs.Prelude.{◌≡◌};

use fm_callback_data::{CallbackData, Completion, Params, PostVerdict, PreVerdict};
use fm_core::AboutOperation;
use fm_filter::{Agreeable, Port};
use fm_types::{ContextKind, ContextMask, OpMask, Registration, Status};

/// It completes the create of the file `done` with success, denies every other create when it is done, asks for the postoperation of a write, which it doesn't
/// register, sets the status of a flush on the way down, and completes each close.
#[derive(Clone, Copy)]
pub struct Verdicts;

// What a postoperation is asked for with, where it brings nothing along.
const NOTHING: Completion = Completion {
    number: 0,
    context: None,
};

// Whether the operation is on the file `done`.
fn is_on_done(operation: &AboutOperation) -> bool {
    match &operation.path {
        Some(path) => path.path().text() == b"done".as_slice(),
        None => false,
    }
}

// Whether the callback is for that file, and stands at 50.
fn is_done<P: Port>(port: &P) -> bool {
    let Ok(about) = port.about() else {
        return false;
    };
    match &about.operation {
        Some(operation) => is_on_done(operation) && about.altitude.text() == b"50".as_slice(),
        None => false,
    }
}

impl Agreeable for Verdicts {
    ghost use Rattle.std.specs.Prelude.{⊤, true, [], ◌∷◌};
    ghost use Rattle.fm_filter.specs.Registers.{kinds_of, mask_of};
    ghost use Rattle.fm_types.specs.declared.operation.Operation.TheVariants.{Close, Create, Flush, Write};

    ghost registers = { λ _. record { pre = mask_of (Create ∷ Write ∷ Flush ∷ Close ∷ []); post = mask_of (Create ∷ []); contexts = kinds_of []; query = true; unload = true } };

    ghost pre_may = { λ _ _ _ _. ⊤ };

    ghost post_may = { λ _ _ _ _ _. ⊤ };

    ghost cleanup_may = { λ _ _ _ _. ⊤ };

    ghost is_quiet = { λ _. ⊥ };

    fn registration(&self) -> Registration {
        let pre = OpMask::CREATE.0 | OpMask::WRITE.0 | OpMask::FLUSH.0 | OpMask::CLOSE.0;
        Registration {
            pre: OpMask(pre),
            post: OpMask::CREATE,
            contexts: ContextMask::NONE,
            query: true,
            unload: true,
        }
    }

    fn pre<P: Port>(&self, lent: &mut CallbackData, port: &mut P) -> PreVerdict {
        match lent.params() {
            Params::Create { .. } if is_done(port) => PreVerdict::Complete(Status::Success),
            Params::Create { .. } | Params::Write { .. } => PreVerdict::WithCallback(NOTHING),
            Params::Close => PreVerdict::Complete(Status::AccessDenied),
            _ => {
                lent.set_status(Status::AccessDenied, 0);
                PreVerdict::NoCallback
            }
        }
    }

    fn post<P: Port>(&self, lent: &mut CallbackData, _: Completion, _: &mut P) -> PostVerdict {
        lent.set_status(Status::AccessDenied, 0);
        PostVerdict::Finished
    }

    fn cleanup(&self, _kind: ContextKind, _body: &[u8]) -> u64 {
        0
    }
}
