//! Lines of at most 16 bytes, which are appended at once.

ghost use Rattle.std.specs.Prelude.{◌≡◌, ◌≤◌, ◌++◌, IfOk, OnErr, length};

use std::alloc::AllocError;
use std::marker::Model;

/// How many bytes a short line has at most.
pub const SHORT: usize = 16;

/// A line of at most 16 bytes, with its line feed. Contracts see its bytes.
#[derive(Drop)]
pub struct ShortLine {
    bytes: [u8; SHORT],
    len: u8,
}

impl Model for ShortLine {
    ghost use Rattle.std.specs.Prelude.{List, ℕ, ◌≡◌, ◌≤◌, length, take};

    ghost Value = { List ℕ };

    ghost view = { λ line. take line.len line.bytes };

    ghost invariant = { λ line. (line.len ≤ 16) × (length line.bytes ≡ 16) };
}

impl ShortLine {
    /// The line with these bytes.
    pub fn of(text: &[u8]) -> ShortLine
        requires { length text.now ≤ 16 }
        ensures { result ≡ text.now }
    {
        let mut bytes = [0; SHORT];
        bytes[..text.len()].copy_from_slice(text);
        ShortLine {
            bytes,
            len: text.len() as u8,
        }
    }

    /// Appends the line. All 16 bytes are, and what is behind the line goes again: that is quicker than to
    /// append as many as it has. It fails if there is no memory for 16 bytes, and nothing is appended then.
    #[inline(always)]
    pub fn append(&self, text: &mut Vec<u8>) -> Result<(), AllocError>
        ensures appends { IfOk result (λ _. text.new.items ≡ text.old.items ++ self.now) }
        ensures err { OnErr result (text.new.items ≡ text.old.items) }
    {
        let end = text.len() + self.len as usize;
        text.extend_from_slice(&self.bytes)?;
        text.truncate(end);
        Ok(())
    }
}
