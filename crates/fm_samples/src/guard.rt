//! A filter that denies creates below one folder.

ghost use Rattle.std.specs.Prelude.{◌≡◌};
ghost use Rattle.fm_samples.specs.Guard.{is_below_deny, is_denied};

use fm_callback_data::{CallbackData, Completion, Params, PostVerdict, PreVerdict};
use fm_filter::{Agreeable, Port};
use fm_types::{ContextKind, ContextMask, OpMask, Registration, Status};

/// Denies each create of a path below the folder `deny`, and lets every other one go on (what an access
/// filter does). It asks for no postoperation and has no contexts.
#[derive(Clone, Copy, Debug)]
pub struct Guard;

// Whether a path is below the folder `deny`.
fn is_below_deny(path: &[u8]) -> bool
    ensures { result ≡ is_below_deny path.now }
{
    path.starts_with(b"deny/")
}

fn is_denied(params: &Params) -> bool
    ensures { result ≡ is_denied params.now }
{
    match params {
        Params::Create { path, .. } => is_below_deny(path.path().text()),
        _ => false,
    }
}

impl Agreeable for Guard {
    ghost use Rattle.std.specs.Prelude.{⊤};
    ghost use Rattle.fm_samples.specs.Guard.{GuardsPre, guard_registers};
    ghost use Rattle.fm_samples.specs.Common.{IsBarePost, CountsNothing};

    ghost registers = { λ _. guard_registers };

    ghost pre_may = { λ _. GuardsPre };

    ghost post_may = { λ _. IsBarePost };

    ghost cleanup_may = { λ _. CountsNothing };

    ghost is_quiet = { λ _. ⊤ };

    fn registration(&self) -> Registration {
        Registration {
            pre: OpMask::CREATE,
            post: OpMask::NONE,
            contexts: ContextMask::NONE,
            query: true,
            unload: true,
        }
    }

    fn pre<P: Port>(&self, lent: &mut CallbackData, _port: &mut P) -> PreVerdict {
        if is_denied(lent.params()) {
            PreVerdict::Complete(Status::AccessDenied)
        } else {
            PreVerdict::NoCallback
        }
    }

    fn post<P: Port>(
        &self,
        _lent: &mut CallbackData,
        _completion: Completion,
        _port: &mut P,
    ) -> PostVerdict {
        PostVerdict::Finished
    }

    fn cleanup(&self, _kind: ContextKind, _body: &[u8]) -> u64 {
        0
    }
}
