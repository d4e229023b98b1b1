//! Filters of a script: what each registers for is in the line that loads it, and what its callbacks answer is in lines further on.

use fm_callback_data::{CallbackData, Completion, PostVerdict, PreVerdict};
use fm_filter::{Agreeable, Port};
use fm_types::{ContextKind, Registration};

/// A filter that a script's line loads. Its callbacks are the script's lines: none of these is ever called.
#[derive(Clone, Copy)]
pub struct Declared {
    /// What it registers for.
    pub registration: Registration,
}

impl Agreeable for Declared {
    ghost use Rattle.std.specs.Prelude.{◌≡◌, ⊤};
    ghost use Rattle.fm_callback_data.specs.declared.verdict.PostVerdict.{PostVerdict};
    ghost use Rattle.fm_callback_data.specs.declared.verdict.PreVerdict.{PreVerdict};

    ghost registers = { λ filter. filter.registration };

    ghost pre_may = { λ _ old verdict new. (verdict ≡ PreVerdict.NoCallback) × (new ≡ old) };

    ghost post_may = { λ _ old _ verdict new. (verdict ≡ PostVerdict.Finished) × (new ≡ old) };

    ghost cleanup_may = { λ _ _ _ number. number ≡ 0 };

    ghost is_quiet = { λ _. ⊤ };

    fn registration(&self) -> Registration {
        self.registration
    }

    fn pre<P: Port>(&self, _lent: &mut CallbackData, _port: &mut P) -> PreVerdict {
        PreVerdict::NoCallback
    }

    fn post<P: Port>(
        &self,
        _lent: &mut CallbackData,
        _completion: Completion,
        _port: &mut P,
    ) -> PostVerdict {
        PostVerdict::Finished
    }

    fn cleanup(&self, _kind: ContextKind, _body: &[u8]) -> u64 {
        0
    }
}
