//! The line that a script is being read into.

ghost use Rattle.std.specs.Prelude.{◌≡◌, ◌++◌, ◌≤◌, [], IfOk, length, take};

use std::alloc::{AllocError, Global};
use std::marker::Model;

/// How much of a line is kept: one byte more than a line may have, by which a longer one is told.
pub const KEPT: usize = 4097;

/// The first 4,097 bytes of a line, as far as it was read. Contracts see them.
#[derive(Drop)]
pub struct Line {
    kept: Vec<u8>,
}

impl Model for Line {
    ghost use Rattle.std.specs.Prelude.{◌≤◌, List, ℕ, length};

    ghost Value = { List ℕ };

    ghost view = { λ line. line.kept.items };

    ghost invariant = { λ line. length line.kept.items ≤ 4097 };
}

impl Line {
    /// A line of which nothing was read.
    pub fn new(alloc: Global) -> Self
        ensures { result ≡ [] }
    {
        Line {
            kept: Vec::new(alloc),
        }
    }

    /// More of the line. What stands past its first 4,097 bytes is forgotten. It fails where there is no memory for the bytes.
    pub fn extend(&mut self, piece: &[u8]) -> Result<(), AllocError>
        ensures { IfOk result (λ _. self.new ≡ take 4097 (self.old ++ piece.now)) }
    {
        let room = KEPT - self.kept.len();
        let piece = &piece[..room.min(piece.len())];
        self.kept.extend_from_slice(piece)?;
        Ok(())
    }

    /// Begins the next line.
    pub fn clear(&mut self)
        ensures { self.new ≡ [] }
    {
        self.kept.clear();
    }

    /// The bytes.
    pub fn as_slice(&self) -> &[u8]
        ensures bytes { result.now ≡ self.now }
        ensures few { length self.now ≤ 4097 }
    {
        self.kept.as_slice()
    }
}
