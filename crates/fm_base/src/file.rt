//! The bytes of one file in memory.

ghost use Rattle.std.specs.Prelude.{◌≡◌, ◌+◌, ◌^◌, ◌≤◌, [], length, take, drop, IfOk, OnOk, OnErr};
ghost use Rattle.fm_types.specs.ByteLists.{resized, written};

use crate::page::Page;
use crate::pages::{copy, cut, make_room, overwrite};
use fm_types::Bytes;
use std::alloc::{AllocError, Global};
use std::collections::BTreeMap;
use std::marker::Model;

/// A file in memory, which takes memory for the pages that were written and not for its size. Contracts
/// see its bytes.
#[derive(Drop)]
pub struct File {
    size: u64,
    pages: BTreeMap<u64, Page>,
}

impl Model for File {
    ghost use Rattle.std.specs.Prelude.{List, ℕ};
    ghost use Rattle.fm_base.specs.Pages.{contents, IsStored};

    ghost Value = { List ℕ };

    ghost view = { λ file. contents file.size file.pages };

    ghost invariant = { λ file. IsStored file.size file.pages };
}

impl File {
    /// A file of no bytes; takes no memory.
    pub fn new(alloc: Global) -> File
        ensures { result ≡ [] }
    {
        File {
            size: 0,
            pages: BTreeMap::new(alloc),
        }
    }

    /// How many bytes there are.
    pub fn size(&self) -> u64
        ensures { result ≡ length self.now }
    {
        self.size
    }

    /// A copy of the `len` bytes from `offset` on, or of as many as are there.
    pub fn read(&self, alloc: Global, offset: u64, len: u32) -> Result<Bytes, AllocError>
        ensures { IfOk result (λ bytes. bytes ≡ take len (drop offset self.now)) }
    {
        let rest = self.size.saturating_sub(offset);
        let count = rest.min(len as u64) as u32;
        Ok(Bytes::from_vec(copy(&self.pages, alloc, offset, count)?))
    }

    /// Writes the bytes from `offset` on: a gap is filled with zeros, and what lies behind the written
    /// bytes stays. Writing no bytes changes nothing. Where memory is refused the bytes stay as they
    /// are.
    pub fn write(&mut self, alloc: Global, offset: u64, bytes: &[u8]) -> Result<(), AllocError>
        requires { offset + length bytes.now ≤ 2 ^ 40 }
        ensures ok { OnOk result (self.new ≡ written offset bytes.now self.old) }
        ensures err { OnErr result (self.new ≡ self.old) }
    {
        if bytes.is_empty() {
            return Ok(());
        }
        let end = offset + bytes.len() as u64;
        make_room(&mut self.pages, alloc, offset, end)?;
        overwrite(&mut self.pages, offset, bytes);
        self.size = self.size.max(end);
        Ok(())
    }

    /// Cuts the bytes to that size, or fills them up to it with zeros, which takes no memory.
    pub fn set_size(&mut self, size: u64)
        requires { size ≤ 2 ^ 40 }
        ensures { self.new ≡ resized size self.old }
    {
        if size < self.size {
            cut(&mut self.pages, size);
        }
        self.size = size;
    }
}
