//! Owned bytes: what a file holds, and what a read answers or a write brings.

ghost use Rattle.std.specs.Prelude.{◌≡◌, ◌<◌, ◌≤◌, ◌+◌, ◌==◌, [], length, take, drop, slice_set, IfOk, OnOk, OnErr};
ghost use Rattle.fm_types.specs.ByteLists.{resized};

use std::alloc::{AllocError, Global};
use std::marker::Model;

/// Bytes on the heap. Contracts see the list of bytes.
#[derive(Drop)]
pub struct Bytes {
    held: Vec<u8>,
}

impl Model for Bytes {
    ghost use Rattle.std.specs.Prelude.{List, ℕ};

    ghost Value = { List ℕ };

    ghost view = { λ bytes. bytes.held.items };
}

impl Bytes {
    /// No bytes; takes no memory.
    pub fn new(alloc: Global) -> Bytes
        ensures { result ≡ [] }
    {
        Bytes {
            held: Vec::new(alloc),
        }
    }

    /// The bytes of a vector, which isn't copied.
    pub fn from_vec(held: Vec<u8>) -> Bytes
        ensures { result ≡ held.items }
    {
        Bytes { held }
    }

    /// The vector of the bytes, which isn't copied.
    pub fn into_vec(self) -> Vec<u8>
        ensures { result.items ≡ self }
    {
        let Bytes { held } = self;
        held
    }

    /// A copy of the bytes; the error says that memory was refused.
    pub fn copy_of(alloc: Global, bytes: &[u8]) -> Result<Bytes, AllocError>
        ensures { IfOk result (λ copy. copy ≡ bytes.now) }
    {
        let held = bytes.to_vec(alloc)?;
        Ok(Bytes { held })
    }

    /// How many bytes there are.
    pub fn len(&self) -> usize
        ensures { result ≡ length self.now }
    {
        self.held.len()
    }

    /// Whether there are no bytes.
    pub fn is_empty(&self) -> bool
        ensures { result ≡ (length self.now == 0) }
    {
        self.held.len() == 0
    }

    /// The bytes as a slice.
    pub fn as_slice(&self) -> &[u8]
        ensures { result.now ≡ self.now }
    {
        self.held.as_slice()
    }

    /// A copy of the `len` bytes from `offset` on, or of as many as are there; the error says that
    /// memory was refused.
    pub fn part(&self, alloc: Global, offset: usize, len: usize) -> Result<Bytes, AllocError>
        ensures { IfOk result (λ part. part ≡ take len (drop offset self.now)) }
    {
        let bytes = self.held.as_slice();
        let offset = offset.min(bytes.len());
        let rest = &bytes[offset..];
        let len = len.min(rest.len());
        Bytes::copy_of(alloc, &rest[..len])
    }

    /// Sets the byte at that place, which has to be there.
    pub fn set(&mut self, at: usize, byte: u8)
        requires { at < length self.old }
        ensures { self.new ≡ slice_set self.old at byte }
    {
        self.held[at] = byte;
    }

    /// Cuts the bytes to that length, or fills them up to it with zeros. Where memory is refused the
    /// bytes stay as they are.
    pub fn set_len(&mut self, len: usize) -> Result<(), AllocError>
        ensures ok { OnOk result (self.new ≡ resized len self.old) }
        ensures err { OnErr result (self.new ≡ self.old) }
    {
        self.held.resize(len, 0)
    }
}
