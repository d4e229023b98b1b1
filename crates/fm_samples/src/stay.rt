//! A filter that holds the answers of reads until a flush.

ghost use Rattle.std.specs.Prelude.{◌≡◌};
ghost use Rattle.fm_callback_data.specs.Data.{current_of};
ghost use Rattle.fm_samples.specs.Calls.{ResumesAll};
ghost use Rattle.fm_samples.specs.Stay.{StaysPre, StaysPost, StaysCalls};

use crate::common::{plain_completion, resume_all};
use fm_callback_data::{CallbackData, Completion, Params, PostVerdict, PreVerdict};
use fm_filter::{Agreeable, Port};
use fm_operations::Hold as Held;
use fm_types::{ContextKind, ContextMask, OpMask, Registration};

/// Holds each read in its postoperation, until a flush comes to the instance or its teardown starts. It
/// has no query routine, so that its instances can't be detached by hand.
#[derive(Clone, Copy, Debug)]
pub struct Stay;

impl Agreeable for Stay {
    ghost use Rattle.fm_samples.specs.Stay.{stay_registers, StaysPre, StaysPost};
    ghost use Rattle.fm_samples.specs.Common.{CountsNothing};

    ghost registers = { λ _. stay_registers };

    ghost pre_may = { λ _. StaysPre };

    ghost post_may = { λ _. StaysPost };

    ghost cleanup_may = { λ _. CountsNothing };

    ghost is_quiet = { λ _. ⊥ };

    fn registration(&self) -> Registration {
        Registration {
            pre: OpMask(OpMask::READ.0 | OpMask::FLUSH.0),
            post: OpMask::READ,
            contexts: ContextMask::NONE,
            query: false,
            unload: true,
        }
    }

    fn pre<P: Port>(&self, lent: &mut CallbackData, port: &mut P) -> PreVerdict
        ensures may { StaysPre lent.old result lent.new }
        ensures kept { lent.new.received ≡ lent.old.received }
        ensures calls { StaysCalls P.Port (current_of lent.old) port.old port.new }
        ensures far { P.kept port.new ≡ P.kept port.old }
    {
        match lent.params() {
            Params::Read { .. } => PreVerdict::WithCallback(plain_completion()),
            Params::Flush => {
                resume_all(port, Held::Post);
                PreVerdict::NoCallback
            }
            _ => PreVerdict::NoCallback,
        }
    }

    fn post<P: Port>(
        &self,
        _lent: &mut CallbackData,
        _completion: Completion,
        _port: &mut P,
    ) -> PostVerdict
        ensures may { StaysPost _lent.old _completion result _lent.new }
        ensures kept { _lent.new.received ≡ _lent.old.received }
        ensures calls { _port.new ≡ _port.old }
    {
        PostVerdict::MoreProcessing
    }

    fn teardown_start<P: Port>(&self, port: &mut P)
        ensures calls { ResumesAll P.Port Held.Post port.old port.new }
        ensures far { P.kept port.new ≡ P.kept port.old }
    {
        resume_all(port, Held::Post);
    }

    fn cleanup(&self, _kind: ContextKind, _body: &[u8]) -> u64 {
        0
    }
}
