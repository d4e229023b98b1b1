//! One page of a file in memory: some bytes of which the first ones are kept, and the rest are zeros.

ghost use Rattle.std.specs.Prelude.{◌≡◌, ◌+◌, ◌-◌, ◌^◌, ◌≤◌, ◌++◌, [], length, take, drop, replicate, OnOk, OnErr};
ghost use Rattle.fm_types.specs.ByteLists.{resized};
ghost use Rattle.fm_base.specs.Pages.{overwritten};

use std::alloc::{AllocError, Global};
use std::marker::Model;

/// The bytes of a page up to the last one that was written, or some zeros more. Contracts see them.
#[derive(Drop)]
pub struct Page {
    held: Vec<u8>,
}

impl Model for Page {
    ghost use Rattle.std.specs.Prelude.{List, ℕ};

    ghost Value = { List ℕ };

    ghost view = { λ page. page.held.items };
}

impl Page {
    /// A page of no bytes; takes no memory.
    pub fn new(alloc: Global) -> Page
        ensures { result ≡ [] }
    {
        Page {
            held: Vec::new(alloc),
        }
    }

    /// Fills the page up to that length with zeros. Where memory is refused the page stays as it is.
    pub fn grow(&mut self, len: usize) -> Result<(), AllocError>
        ensures ok { OnOk result (self.new ≡ self.old ++ replicate (len - length self.old) 0) }
        ensures err { OnErr result (self.new ≡ self.old) }
    {
        if self.held.len() < len {
            self.held.resize(len, 0)?;
        }
        Ok(())
    }

    /// Takes away what lies behind that length.
    pub fn cut(&mut self, len: usize)
        ensures { self.new ≡ take len self.old }
    {
        self.held.truncate(len);
    }

    /// Writes over what lies from `from` on, which has to be there.
    pub fn overwrite(&mut self, from: usize, bytes: &[u8])
        requires { from + length bytes.now ≤ length self.old }
        ensures { self.new ≡ overwritten from bytes.now self.old }
    {
        self.held[from..from + bytes.len()].copy_from_slice(bytes);
    }

    /// Appends the `count` bytes from `from` on to others, zeros for those that aren't there.
    pub fn append_to(&self, out: &mut Vec<u8>, from: usize, count: usize) -> Result<(), AllocError>
        requires { length out.old.items + count ≤ 2 ^ 63 }
        ensures { OnOk result (out.new.items ≡ out.old.items ++ resized count (drop from self.now)) }
    {
        let bytes = self.held.as_slice();
        let rest = &bytes[from.min(bytes.len())..];
        let there = count.min(rest.len());
        out.extend_from_slice(&rest[..there])?;
        out.resize(out.len() + (count - there), 0)
    }
}
