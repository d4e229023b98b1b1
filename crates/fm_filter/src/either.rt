//! One of two filters, as a filter.

ghost use Rattle.std.specs.Prelude.{◌≡◌};

use crate::minifilter::Minifilter;
use crate::port::Port;
use fm_callback_data::{CallbackData, Completion, PostVerdict, PreVerdict};
use fm_types::{ContextKind, Registration};

/// One of two filters, so that a manager, which has filters of one type, can have filters of both. Each callback is that of the filter, with its contract.
/// For three types it is used twice: `Either<A, Either<B, C>>`.
#[derive(Drop)]
pub enum Either<A, B> {
    /// The one.
    Left(A),
    /// The other.
    Right(B),
}

impl<A: Minifilter, B: Minifilter> Minifilter for Either<A, B> {
    ghost use Rattle.fm_filter.specs.Either.{of_either, OfEither};

    ghost registers = { of_either A.registers B.registers };

    ghost setup_may = { λ e answer. OfEither (λ a. A.setup_may a answer) (λ b. B.setup_may b answer) e };

    ghost pre_may = { λ e old answer new. OfEither (λ a. A.pre_may a old answer new) (λ b. B.pre_may b old answer new) e };

    ghost post_may = { λ e old completion answer new. OfEither (λ a. A.post_may a old completion answer new) (λ b. B.post_may b old completion answer new) e };

    ghost query_may = { λ e answer. OfEither (λ a. A.query_may a answer) (λ b. B.query_may b answer) e };

    ghost unload_may = { λ e answer. OfEither (λ a. A.unload_may a answer) (λ b. B.unload_may b answer) e };

    ghost cleanup_may = { λ e kind body number. OfEither (λ a. A.cleanup_may a kind body number) (λ b. B.cleanup_may b kind body number) e };

    ghost drained = { λ e completion. OfEither (λ a. A.drained a completion) (λ b. B.drained b completion) e };

    ghost started = { OfEither A.started B.started };

    ghost completed = { OfEither A.completed B.completed };

    ghost is_quiet = { OfEither A.is_quiet B.is_quiet };

    fn registration(&self) -> Registration {
        match self {
            Either::Left(filter) => filter.registration(),
            Either::Right(filter) => filter.registration(),
        }
    }

    fn setup<P: Port>(&self, port: &mut P) -> bool {
        match self {
            Either::Left(filter) => filter.setup(port),
            Either::Right(filter) => filter.setup(port),
        }
    }

    fn pre<P: Port>(&self, lent: &mut CallbackData, port: &mut P) -> PreVerdict {
        match self {
            Either::Left(filter) => filter.pre(lent, port),
            Either::Right(filter) => filter.pre(lent, port),
        }
    }

    fn post<P: Port>(
        &self,
        lent: &mut CallbackData,
        completion: Completion,
        port: &mut P,
    ) -> PostVerdict {
        match self {
            Either::Left(filter) => filter.post(lent, completion, port),
            Either::Right(filter) => filter.post(lent, completion, port),
        }
    }

    fn drain<P: Port>(&self, completion: Completion, port: &mut P) {
        match self {
            Either::Left(filter) => filter.drain(completion, port),
            Either::Right(filter) => filter.drain(completion, port),
        }
    }

    fn query_teardown<P: Port>(&self, port: &mut P) -> bool {
        match self {
            Either::Left(filter) => filter.query_teardown(port),
            Either::Right(filter) => filter.query_teardown(port),
        }
    }

    fn teardown_start<P: Port>(&self, port: &mut P) {
        match self {
            Either::Left(filter) => filter.teardown_start(port),
            Either::Right(filter) => filter.teardown_start(port),
        }
    }

    fn teardown_complete<P: Port>(&self, port: &mut P) {
        match self {
            Either::Left(filter) => filter.teardown_complete(port),
            Either::Right(filter) => filter.teardown_complete(port),
        }
    }

    fn unload(&self) -> bool {
        match self {
            Either::Left(filter) => filter.unload(),
            Either::Right(filter) => filter.unload(),
        }
    }

    fn cleanup(&self, kind: ContextKind, body: &[u8]) -> u64 {
        match self {
            Either::Left(filter) => filter.cleanup(kind, body),
            Either::Right(filter) => filter.cleanup(kind, body),
        }
    }
}
