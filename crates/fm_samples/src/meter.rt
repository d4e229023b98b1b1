//! A filter that counts what is read and written.

ghost use Rattle.std.specs.Prelude.{◌≡◌, IfOk, IfErr, replicate};
ghost use Rattle.fm_callback_data.specs.Data.{current_of};
ghost use Rattle.fm_samples.specs.Common.{IsBarePre, IsBarePost};
ghost use Rattle.fm_samples.specs.Meter.{Counts, MayCount, MetersCalls, counted_in};

use crate::common::set_unless_there;
use crate::memory::Memory;
use fm_callback_data::{CallbackData, Completion, Params, PostVerdict, PreVerdict};
use fm_filter::{Agreeable, Port};
use fm_types::{Bytes, ContextKind, ContextMask, OpMask, Registration};
use std::alloc::{AllocError, Global};

/// Counts the reads and the writes of each stream in a context of the stream (what a filter for auditing
/// does): a number of reads, then a number of writes, eight bytes each, the highest first. Where a call is
/// refused it doesn't count. A context's cleanup returns how many operations it counted, modulo 2^64.
#[derive(Clone, Copy)]
pub struct Meter<M: Memory = Global> {
    memory: M,
}

impl<M: Memory> Meter<M> {
    /// The filter, which takes memory for the body of each context.
    pub fn new(memory: M) -> Meter<M>
        ensures { result ≡ record { memory = memory } }
    {
        Meter { memory }
    }

    // A body that has counted nothing.
    fn blank(&self) -> Result<Bytes, AllocError>
        ensures body { IfOk result (λ body. body ≡ replicate 16 0) }
        ensures refused { IfErr result (λ _. M.refuses self.now.memory) }
    {
        self.memory.body(&[0; 16])
    }

    // Counts one operation in the number at that place of the stream's context, if there is memory for a body.
    fn try_count<P: Port>(&self, place: u64, port: &mut P)
        ensures calls { MayCount P.Port (M.refuses self.now.memory) place port.old port.new }
        ensures far { P.kept port.new ≡ P.kept port.old }
    {
        if let Ok(body) = self.blank() {
            count(place, body, port);
        }
    }
}

// Counts one operation in the number at that place of the stream's context. If there is none it is made, with that body.
fn count<P: Port>(place: u64, body: Bytes, port: &mut P)
    ensures calls { Counts P.Port place body port.old port.new }
    ensures far { P.kept port.new ≡ P.kept port.old }
{
    let Some(context) = set_unless_there(port, ContextKind::Stream, body) else {
        return;
    };
    let _ = port.bump(context, place, 1);
    let _ = port.release(context);
}

// How many operations a body has counted, modulo 2^64; a body of less than 16 bytes counts none.
fn counted_in(body: &[u8]) -> u64
    ensures { result ≡ counted_in body.now }
{
    let Some((reads, rest)) = body.split_first_chunk::<8>() else {
        return 0;
    };
    let Some((writes, _)) = rest.split_first_chunk::<8>() else {
        return 0;
    };
    u64::from_be_bytes(*reads).wrapping_add(u64::from_be_bytes(*writes))
}

impl<M: Memory + Send + Sync> Agreeable for Meter<M> {
    ghost use Rattle.fm_samples.specs.Meter.{meter_registers, MetersCleanup};
    ghost use Rattle.fm_samples.specs.Common.{IsBarePre, IsBarePost};

    ghost registers = { λ _. meter_registers };

    ghost pre_may = { λ _. IsBarePre };

    ghost post_may = { λ _. IsBarePost };

    ghost cleanup_may = { λ _. MetersCleanup };

    ghost is_quiet = { λ _. ⊥ };

    fn registration(&self) -> Registration {
        Registration {
            pre: OpMask(OpMask::READ.0 | OpMask::WRITE.0),
            post: OpMask::NONE,
            contexts: ContextMask::STREAM,
            query: true,
            unload: true,
        }
    }

    fn pre<P: Port>(&self, lent: &mut CallbackData, port: &mut P) -> PreVerdict
        ensures may { IsBarePre lent.old result lent.new }
        ensures kept { lent.new.received ≡ lent.old.received }
        ensures calls { MetersCalls P.Port (M.refuses self.now.memory) (current_of lent.old) port.old port.new }
        ensures far { P.kept port.new ≡ P.kept port.old }
    {
        match lent.params() {
            Params::Read { .. } => self.try_count(0, port),
            Params::Write { .. } => self.try_count(8, port),
            _ => {}
        }
        PreVerdict::NoCallback
    }

    fn post<P: Port>(
        &self,
        _lent: &mut CallbackData,
        _completion: Completion,
        _port: &mut P,
    ) -> PostVerdict
        ensures may { IsBarePost _lent.old _completion result _lent.new }
        ensures kept { _lent.new.received ≡ _lent.old.received }
        ensures calls { _port.new ≡ _port.old }
    {
        PostVerdict::Finished
    }

    fn cleanup(&self, _kind: ContextKind, body: &[u8]) -> u64 {
        counted_in(body)
    }
}
