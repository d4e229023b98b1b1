//! One read of a source.

ghost use Rattle.std.specs.Prelude.{◌≡◌, ◌≢◌, ◌<◌, ◌+◌, length};
ghost use Rattle.fm_server.specs.Connections.{Receives};

use crate::source::Source;

/// What a read gave.
pub(crate) enum Got {
    /// So many bytes, in front of the buffer.
    Piece(usize),
    /// The end of the input.
    End,
    /// A fault of the source.
    Fault,
}

/// Reads once into the buffer, which has room.
pub(crate) fn receive<R: Source>(source: &mut R, buffer: &mut [u8]) -> Got
    requires { 0 < length buffer.old }
    ensures gives { Receives result (R.remaining source.old) (R.remaining source.new) buffer.new }
    ensures counted { (result ≡ Got.Fault → ⊥) → R.reads source.new ≡ R.reads source.old + 1 }
    ensures failed { result ≡ Got.Fault → R.failed source.new }
{
    match source.receive(buffer) {
        Ok(0) => Got::End,
        Ok(count) => Got::Piece(count),
        Err(_) => Got::Fault,
    }
}
