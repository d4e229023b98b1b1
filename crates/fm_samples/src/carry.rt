//! A filter whose reads take a context along.

ghost use Rattle.std.specs.Prelude.{◌≡◌, ◌∷◌, [], IfOk, IfErr};
ghost use Rattle.fm_callback_data.specs.Data.{current_of};
ghost use Rattle.fm_samples.specs.Calls.{ReleasesSent};
ghost use Rattle.fm_samples.specs.Carry.{CarriesPre, CarriesCalls, FindsOwn, MakesOwn};
ghost use Rattle.fm_samples.specs.Common.{IsBarePost};

use crate::common::set_unless_there;
use crate::memory::Memory;
use fm_callback_data::{CallbackData, Completion, Params, PostVerdict, PreVerdict};
use fm_filter::{Agreeable, Port};
use fm_types::{Bytes, ContextKind, ContextMask, CtxId, OpMask, Registration, Status};
use std::alloc::{AllocError, Global};

/// Sends the context of its handle along with each read (what a filter does that keeps a handle's state for
/// the way up): a reference is in the hand again at the postoperation, or at the drain, which releases it.
/// Where a call is refused the read goes on without a postoperation.
#[derive(Clone, Copy)]
pub struct Carry<M: Memory = Global> {
    memory: M,
}

impl<M: Memory> Carry<M> {
    /// The filter, which takes memory for the body of each context.
    pub fn new(memory: M) -> Carry<M>
        ensures { result ≡ record { memory = memory } }
    {
        Carry { memory }
    }

    // A body of one byte.
    fn blank(&self) -> Result<Bytes, AllocError>
        ensures body { IfOk result (λ body. body ≡ 0 ∷ []) }
        ensures refused { IfErr result (λ _. M.refuses self.now.memory) }
    {
        self.memory.body(&[0])
    }

    // The context of the callback's handle, with a reference in the hand; a new one if there is none. None if a call is refused.
    fn of_handle<P: Port>(&self, port: &mut P) -> Option<CtxId>
        ensures calls { FindsOwn P.Port (M.refuses self.now.memory) result port.old port.new }
        ensures far { P.kept port.new ≡ P.kept port.old }
    {
        match port.get(ContextKind::Handle) {
            Ok(context) => Some(context),
            Err(Status::NoContext) => self.new_of_handle(port),
            Err(_) => None,
        }
    }

    // A new context of the callback's handle, or the one that was set there first.
    fn new_of_handle<P: Port>(&self, port: &mut P) -> Option<CtxId>
        ensures calls { MakesOwn P.Port (M.refuses self.now.memory) result port.old port.new }
        ensures far { P.kept port.new ≡ P.kept port.old }
    {
        let Ok(body) = self.blank() else {
            return None;
        };
        set_unless_there(port, ContextKind::Handle, body)
    }
}

// Releases what a completion brought.
fn release<P: Port>(completion: Completion, port: &mut P)
    ensures calls { ReleasesSent P.Port completion.context port.old port.new }
    ensures far { P.kept port.new ≡ P.kept port.old }
{
    if let Some(context) = completion.context {
        let _ = port.release(context);
    }
}

impl<M: Memory + Send + Sync> Agreeable for Carry<M> {
    ghost use Rattle.fm_samples.specs.Carry.{carry_registers, CarriesPre};
    ghost use Rattle.fm_samples.specs.Common.{IsBarePost, CountsNothing};

    ghost registers = { λ _. carry_registers };

    ghost pre_may = { λ _. CarriesPre };

    ghost post_may = { λ _. IsBarePost };

    ghost cleanup_may = { λ _. CountsNothing };

    ghost is_quiet = { λ _. ⊥ };

    fn registration(&self) -> Registration {
        Registration {
            pre: OpMask::READ,
            post: OpMask::READ,
            contexts: ContextMask::HANDLE,
            query: true,
            unload: true,
        }
    }

    fn pre<P: Port>(&self, lent: &mut CallbackData, port: &mut P) -> PreVerdict
        ensures may { CarriesPre lent.old result lent.new }
        ensures kept { lent.new.received ≡ lent.old.received }
        ensures calls { CarriesCalls P.Port (M.refuses self.now.memory) (current_of lent.old) result port.old port.new }
        ensures far { P.kept port.new ≡ P.kept port.old }
    {
        let Params::Read { .. } = lent.params() else {
            return PreVerdict::NoCallback;
        };
        match self.of_handle(port) {
            Some(context) => PreVerdict::WithCallback(Completion {
                number: 1,
                context: Some(context),
            }),
            None => PreVerdict::NoCallback,
        }
    }

    fn post<P: Port>(
        &self,
        _lent: &mut CallbackData,
        completion: Completion,
        port: &mut P,
    ) -> PostVerdict
        ensures may { IsBarePost _lent.old completion result _lent.new }
        ensures kept { _lent.new.received ≡ _lent.old.received }
        ensures calls { ReleasesSent P.Port completion.context port.old port.new }
        ensures far { P.kept port.new ≡ P.kept port.old }
    {
        release(completion, port);
        PostVerdict::Finished
    }

    fn drain<P: Port>(&self, completion: Completion, port: &mut P)
        ensures calls { ReleasesSent P.Port completion.context port.old port.new }
        ensures far { P.kept port.new ≡ P.kept port.old }
    {
        release(completion, port);
    }

    fn cleanup(&self, _kind: ContextKind, _body: &[u8]) -> u64 {
        0
    }
}
