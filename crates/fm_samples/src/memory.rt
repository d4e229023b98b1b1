//! Where a filter has the bodies of its contexts from.

ghost use Rattle.std.specs.Prelude.{◌≡◌, IfOk, IfErr};

use fm_types::Bytes;
use std::alloc::{AllocError, Global};

/// Makes the bodies of contexts. Of an allocator no contract can say that it refused a growth; this says it, so that a filter leaves its work undone for want of
/// memory alone, and not because its callback never tried.
pub trait Memory: Copy + Drop {
    /// It may refuse memory.
    ghost refuses: { Self → Type 0 };

    /// A copy of the bytes.
    fn body(&self, bytes: &[u8]) -> Result<Bytes, AllocError>
        ensures copy { IfOk result (λ body. body ≡ bytes.now) }
        ensures refused { IfErr result (λ _. refuses self.now) };
}

impl Memory for Global {
    ghost use Rattle.std.specs.Prelude.{⊤};

    ghost refuses = { λ _. ⊤ };

    fn body(&self, bytes: &[u8]) -> Result<Bytes, AllocError> {
        Bytes::copy_of(*self, bytes)
    }
}
