//! What frames are read from: a trait that remembers whether it failed, and one of std's readers as such a source.

ghost use Rattle.std.specs.Prelude.{◌≡◌, ◌+◌, Option, List, ℕ, IfOk, IfErr, OnOk, length, true, false};
ghost use Rattle.std.specs.Io.{ReadsAtMost};
ghost use Rattle.std.specs.Io.KnownBytes.{ReadConsumes};

use std::io::{Error, ErrorKind, Read, Result};

/// What bytes come from. std's `Read` can't say later that a read failed; this can, so that `serve` tells a fault only if there was one.
pub trait Source {
    ghost use Rattle.std.specs.Prelude.{ℕ, List, Option};

    /// The bytes that are still to come, if that is known.
    ghost remaining: { Self → Option (List ℕ) };

    /// How often bytes or the end were received.
    ghost reads: { Self → ℕ };

    /// The source failed.
    ghost failed: { Self → Type 0 };

    /// Receives bytes into the front of the buffer, and says how many; none only at the end, or if the buffer has no room.
    fn receive(&mut self, buffer: &mut [u8]) -> Result<usize>
        ensures bound { ReadsAtMost result buffer.new }
        ensures bytes { ReadConsumes (remaining self.old) (remaining self.new) result buffer.new }
        ensures counted { OnOk result (reads self.new ≡ reads self.old + 1) }
        ensures failed { IfErr result (λ _. failed self.new) };
}

/// A reader as a source: it counts the reads, and remembers whether one failed.
#[derive(Drop)]
pub struct ReaderSource<R: Read + Drop> {
    reader: R,
    reads: u64,
    has_failed: bool,
}

impl<R: Read + Drop> ReaderSource<R> {
    /// A source that received nothing yet.
    pub fn new(reader: R) -> Self
        ensures { result ≡ record { reader = reader; reads = 0; has_failed = false } }
    {
        ReaderSource {
            reader,
            reads: 0,
            has_failed: false,
        }
    }
}

impl<R: Read + Drop> Source for ReaderSource<R> {
    ghost use Rattle.std.specs.Prelude.{◌≡◌, true};

    ghost remaining = { λ source. R.remaining source.reader };

    ghost reads = { λ source. source.reads };

    ghost failed = { λ source. source.has_failed ≡ true };

    fn receive(&mut self, buffer: &mut [u8]) -> Result<usize> {
        let Some(reads) = self.reads.checked_add(1) else {
            self.has_failed = true;
            return Err(Error::from(ErrorKind::Other));
        };
        match self.reader.read(buffer) {
            Ok(count) => {
                self.reads = reads;
                Ok(count)
            }
            Err(error) => {
                self.has_failed = true;
                Err(error)
            }
        }
    }
}
