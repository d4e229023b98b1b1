//! What replies are written to: a trait that remembers whether it failed, and one of std's writers as such a sink.

ghost use Rattle.std.specs.Prelude.{◌≡◌, ◌<◌, Option, List, ℕ, IfOk, IfErr, length, true, false};
ghost use Rattle.std.specs.Io.{WritesAtMost};
ghost use Rattle.std.specs.Io.KnownBytes.{Keeps, WriteAppends};

use std::io::{Result, Write};

/// What bytes go to. std's `Write` can't say later that a write failed; this can, so that `serve` tells a fault only if there was one.
pub trait Sink {
    ghost use Rattle.std.specs.Prelude.{ℕ, List, Option};

    /// The bytes that it was given, if that is known.
    ghost contents: { Self → Option (List ℕ) };

    /// The sink failed.
    ghost failed: { Self → Type 0 };

    /// It holds back nothing of what it was given.
    ghost handed_on: { Self → Type 0 };

    /// Takes bytes from the front of the text, and says how many. If it takes none of a text, it failed.
    fn put(&mut self, text: &[u8]) -> Result<usize>
        ensures bound { WritesAtMost result text.now }
        ensures bytes { WriteAppends (contents self.old) (contents self.new) result text.now }
        ensures none { IfOk result (λ count. count ≡ 0 → 0 < length text.now → failed self.new) }
        ensures failed { IfErr result (λ _. failed self.new) };

    /// Hands on what it still holds back.
    fn finish(&mut self) -> Result<()>
        ensures bytes { Keeps (contents self.old) (contents self.new) }
        ensures handed { IfOk result (λ _. handed_on self.new) }
        ensures failed { IfErr result (λ _. failed self.new) };
}

/// A writer as a sink: it remembers whether a write or a flush failed, and whether it wasn't flushed since the last write. A write that takes nothing is a
/// failure.
#[derive(Drop)]
pub struct WriterSink<W: Write + Drop> {
    writer: W,
    has_failed: bool,
    holds_back: bool,
}

impl<W: Write + Drop> WriterSink<W> {
    /// A sink that was given nothing yet.
    pub fn new(writer: W) -> Self
        ensures { result ≡ record { writer = writer; has_failed = false; holds_back = false } }
    {
        WriterSink {
            writer,
            has_failed: false,
            holds_back: false,
        }
    }

    /// The writer, with what was given to it.
    pub fn into_writer(self) -> W
        ensures { result ≡ self.writer }
    {
        let WriterSink {
            writer,
            has_failed: _,
            holds_back: _,
        } = self;
        writer
    }
}

impl<W: Write + Drop> Sink for WriterSink<W> {
    ghost use Rattle.std.specs.Prelude.{◌≡◌, true, false};

    ghost contents = { λ sink. W.contents sink.writer };

    ghost failed = { λ sink. sink.has_failed ≡ true };

    ghost handed_on = { λ sink. sink.holds_back ≡ false };

    fn put(&mut self, text: &[u8]) -> Result<usize> {
        self.holds_back = true;
        let put = self.writer.write(text);
        match &put {
            Ok(0) if !text.is_empty() => self.has_failed = true,
            Ok(_) => {}
            Err(_) => self.has_failed = true,
        }
        put
    }

    fn finish(&mut self) -> Result<()> {
        let finished = self.writer.flush();
        match &finished {
            Ok(()) => self.holds_back = false,
            Err(_) => self.has_failed = true,
        }
        finished
    }
}
