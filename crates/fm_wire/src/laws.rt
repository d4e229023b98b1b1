//! What holds of all frames and streams: laws without code, for those who prove something above this
//! crate.

ghost use Rattle.fm_wire.specs.Laws.{NoPrefix, OneFrame, OneReading, OnlySpelled, Pieces};

/// No frame's bytes are a prefix of another's.
pub fn no_prefix()
    ensures { NoPrefix }
{}

/// Bytes are one frame at most.
pub fn one_frame()
    ensures { OneFrame }
{}

/// A stream has one list of frames and one rest.
pub fn one_reading()
    ensures { OneReading }
{}

/// It doesn't matter how a stream is cut: the frames of a piece, read with what was left before it, are
/// the next frames of the stream.
pub fn pieces()
    ensures { Pieces }
{}

/// What was read from bytes and isn't refused has a spelling, which is read as the same frame.
pub fn only_spelled()
    ensures { OnlySpelled }
{}
