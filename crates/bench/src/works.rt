//! A filter that works for a while in its callbacks.

use fm_callback_data::{CallbackData, Completion, PostVerdict, PreVerdict};
use fm_filter::{Agreeable, Port};
use fm_types::{ContextKind, ContextMask, OpMask, Registration};

/// Takes so many rounds of arithmetic in the preoperation of each read, two nanoseconds or so each.
#[derive(Clone, Copy)]
pub struct Works {
    rounds: u64,
}

impl Works {
    /// A filter that takes so many rounds.
    pub fn new(rounds: u64) -> Works {
        Works { rounds }
    }

    // The rounds; what comes out is of no use but to be computed.
    fn work(&self, seed: u64) -> u64 {
        let mut mixed = seed | 1;
        for _ in 0..self.rounds {
            mixed ^= mixed << 13;
            mixed ^= mixed >> 7;
            mixed ^= mixed << 17;
        }
        mixed
    }
}

impl Agreeable for Works {
    ghost use Rattle.std.specs.Prelude.{⊤, true};
    ghost use Rattle.fm_samples.specs.Common.{CountsNothing, IsBarePost};

    ghost registers = { λ _. record { pre = record { 0 = 2 }; post = record { 0 = 0 }; contexts = record { 0 = 0 }; query = true; unload = true } };

    ghost pre_may = { λ _ _ _ _. ⊤ };

    ghost post_may = { λ _. IsBarePost };

    ghost cleanup_may = { λ _. CountsNothing };

    ghost is_quiet = { λ _. ⊤ };

    fn registration(&self) -> Registration {
        Registration {
            pre: OpMask::READ,
            post: OpMask::NONE,
            contexts: ContextMask::NONE,
            query: true,
            unload: true,
        }
    }

    fn pre<P: Port>(&self, lent: &mut CallbackData, _port: &mut P) -> PreVerdict {
        if self.work(lent.information()) == 0 {
            return PreVerdict::Pending;
        }
        PreVerdict::NoCallback
    }

    fn post<P: Port>(&self, _: &mut CallbackData, _: Completion, _: &mut P) -> PostVerdict {
        PostVerdict::Finished
    }

    fn cleanup(&self, _kind: ContextKind, _body: &[u8]) -> u64 {
        0
    }
}
