//! A filter that holds reads until a flush.

ghost use Rattle.std.specs.Prelude.{◌≡◌};
ghost use Rattle.fm_callback_data.specs.Data.{current_of};
ghost use Rattle.fm_samples.specs.Calls.{ResumesAll};
ghost use Rattle.fm_samples.specs.Common.{IsBarePost};
ghost use Rattle.fm_samples.specs.Hold.{HoldsPre, HoldsCalls};

use crate::common::resume_all;
use fm_callback_data::{CallbackData, Completion, Params, PostVerdict, PreVerdict};
use fm_filter::{Agreeable, Port};
use fm_operations::Hold as Held;
use fm_types::{ContextKind, ContextMask, OpMask, Registration};

/// Holds each read in its preoperation, until a flush comes to the instance or its teardown starts (what a
/// filter does that has to wait for a verdict of its own).
#[derive(Clone, Copy, Debug)]
pub struct Hold;

impl Agreeable for Hold {
    ghost use Rattle.fm_samples.specs.Hold.{hold_registers, HoldsPre};
    ghost use Rattle.fm_samples.specs.Common.{IsBarePost, CountsNothing};

    ghost registers = { λ _. hold_registers };

    ghost pre_may = { λ _. HoldsPre };

    ghost post_may = { λ _. IsBarePost };

    ghost cleanup_may = { λ _. CountsNothing };

    ghost is_quiet = { λ _. ⊥ };

    fn registration(&self) -> Registration {
        Registration {
            pre: OpMask(OpMask::READ.0 | OpMask::FLUSH.0),
            post: OpMask::NONE,
            contexts: ContextMask::NONE,
            query: true,
            unload: true,
        }
    }

    fn pre<P: Port>(&self, lent: &mut CallbackData, port: &mut P) -> PreVerdict
        ensures may { HoldsPre lent.old result lent.new }
        ensures kept { lent.new.received ≡ lent.old.received }
        ensures calls { HoldsCalls P.Port (current_of lent.old) port.old port.new }
        ensures far { P.kept port.new ≡ P.kept port.old }
    {
        match lent.params() {
            Params::Read { .. } => PreVerdict::Pending,
            Params::Flush => {
                resume_all(port, Held::Pre);
                PreVerdict::NoCallback
            }
            _ => PreVerdict::NoCallback,
        }
    }

    fn post<P: Port>(
        &self,
        _lent: &mut CallbackData,
        _completion: Completion,
        _port: &mut P,
    ) -> PostVerdict
        ensures may { IsBarePost _lent.old _completion result _lent.new }
        ensures kept { _lent.new.received ≡ _lent.old.received }
        ensures calls { _port.new ≡ _port.old }
    {
        PostVerdict::Finished
    }

    fn teardown_start<P: Port>(&self, port: &mut P)
        ensures calls { ResumesAll P.Port Held.Pre port.old port.new }
        ensures far { P.kept port.new ≡ P.kept port.old }
    {
        resume_all(port, Held::Pre);
    }

    fn cleanup(&self, _kind: ContextKind, _body: &[u8]) -> u64 {
        0
    }
}
