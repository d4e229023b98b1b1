//! A filter that keeps the bytes of files changed on their volume, and shows them as they were written.

ghost use Rattle.std.specs.Prelude.{◌≡◌, IfOk};
ghost use Rattle.fm_samples.specs.Shift.{raised, lowered, ShiftsPre};

use crate::common::plain_completion;
use fm_callback_data::{CallbackData, Completion, Params, PostVerdict, PreVerdict};
use fm_filter::{Agreeable, Port};
use fm_types::{Bytes, ContextKind, ContextMask, OpMask, Registration, Status};
use std::alloc::{AllocError, Global};

/// Adds 1 to each byte that is written, and takes 1 from each byte that is read, modulo 256 (what a filter
/// for encryption does, with the simplest of ciphers). A write for whose changed bytes there is no memory
/// ends with `NoMemory`.
#[derive(Clone, Copy)]
pub struct Shift {
    alloc: Global,
}

impl Shift {
    /// The filter, which takes memory for the changed bytes of each write.
    pub fn new(alloc: Global) -> Shift {
        Shift { alloc }
    }
}

// The bytes with 1 added to each.
fn raise(alloc: Global, bytes: &[u8]) -> Result<Bytes, AllocError>
    ensures { IfOk result (λ changed. changed ≡ raised bytes.now) }
{
    let changed = bytes
        .iter()
        .map(|byte| byte.wrapping_add(1))
        .collect(alloc)?;
    Ok(Bytes::from_vec(changed))
}

// Takes 1 from each byte of the answer, in its place: there is no want of memory on the way up.
fn lower(lent: &mut CallbackData)
    ensures { lent.new ≡ record lent.old { out = lowered lent.old.out } }
{
    for place in 0..lent.out_bytes().len() {
        let byte = lent.out_bytes()[place];
        match lent.map_out(place, byte.wrapping_sub(1)) {
            Ok(()) => {}
            Err(_) => unreachable!(),
        }
    }
}

impl Agreeable for Shift {
    ghost use Rattle.std.specs.Prelude.{⊤};
    ghost use Rattle.fm_samples.specs.Shift.{ShiftsPre, ShiftsPost, shift_registers};
    ghost use Rattle.fm_samples.specs.Common.{CountsNothing};

    ghost registers = { λ _. shift_registers };

    ghost pre_may = { λ _. ShiftsPre };

    ghost post_may = { λ _. ShiftsPost };

    ghost cleanup_may = { λ _. CountsNothing };

    ghost is_quiet = { λ _. ⊤ };

    fn registration(&self) -> Registration {
        Registration {
            pre: OpMask(OpMask::READ.0 | OpMask::WRITE.0),
            post: OpMask::READ,
            contexts: ContextMask::NONE,
            query: true,
            unload: true,
        }
    }

    fn pre<P: Port>(&self, lent: &mut CallbackData, _port: &mut P) -> PreVerdict {
        lent.laws();
        let (offset, changed) = match lent.params() {
            Params::Write { offset, bytes } => (*offset, raise(self.alloc, bytes.as_slice())),
            Params::Read { .. } => return PreVerdict::WithCallback(plain_completion()),
            _ => return PreVerdict::NoCallback,
        };
        let Ok(bytes) = changed else {
            return PreVerdict::Complete(Status::NoMemory);
        };
        match lent.change(Params::Write { offset, bytes }) {
            Ok(()) => PreVerdict::NoCallback,
            Err(_) => unreachable!(),
        }
    }

    fn post<P: Port>(
        &self,
        lent: &mut CallbackData,
        _completion: Completion,
        _port: &mut P,
    ) -> PostVerdict {
        lower(lent);
        PostVerdict::Finished
    }

    fn cleanup(&self, _kind: ContextKind, _body: &[u8]) -> u64 {
        0
    }
}
