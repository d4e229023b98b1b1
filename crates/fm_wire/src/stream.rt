//! Streams of frames: where one ends, and which stand in front.

ghost use Rattle.std.specs.Prelude.{◌≡◌, ◌<◌, ◌≤◌, ◌↔◌, ◌⊎◌, ◌++◌, ◌+◌, get_or, IfOk, IfErr, IfNone, IfSome, IsTrue, drop, length};
ghost use Rattle.fm_wire.specs.Spelling.{framed};
ghost use Rattle.fm_wire.specs.Grammar.{IsBodyLength};
ghost use Rattle.fm_wire.specs.Stream.{IsFault, IsPartial, Splits};

use crate::frame::Frame;
use crate::numbers::split_u32;
use crate::reading::read_body;
use fm_types::Status;
use std::alloc::Global;

/// How short a frame's body may be: a code and a number.
pub(crate) const MIN_BODY: u32 = 5;

/// How long a frame's body may be.
pub(crate) const MAX_BODY: u32 = 33_000;

fn is_body_length(len: u32) -> bool
    ensures { IsTrue result ↔ IsBodyLength len }
{
    MIN_BODY <= len && len <= MAX_BODY
}

/// Whether the stream begins with a length out of range.
pub(crate) fn is_fault(stream: &[u8]) -> bool
    ensures { IsTrue result ↔ IsFault stream.now }
{
    if stream.len() < 4 {
        return false;
    }
    let (len, _) = split_u32(stream);
    !is_body_length(len)
}

// The byte at that place of what is held with the piece behind it.
fn byte_across(held: &[u8], piece: &[u8], place: usize) -> u8
    requires { place < length held.now + length piece.now }
    ensures { result ≡ get_or (held.now ++ piece.now) place 0 }
{
    if place < held.len() {
        held[place]
    } else {
        piece[place - held.len()]
    }
}

/// Whether what is held with the piece behind it begins with a length out of range; takes no memory.
pub(crate) fn is_fault_across(held: &[u8], piece: &[u8]) -> bool
    ensures { IsTrue result ↔ IsFault (held.now ++ piece.now) }
{
    if held.len() + piece.len() < 4 {
        return false;
    }
    let head = [
        byte_across(held, piece, 0),
        byte_across(held, piece, 1),
        byte_across(held, piece, 2),
        byte_across(held, piece, 3),
    ];
    is_fault(&head)
}

/// The body of the frame in front, where there is a whole one, and what lies behind it.
fn split_frame(stream: &[u8]) -> Option<(&[u8], &[u8])>
    ensures some { IfSome result (λ parts. (stream.now ≡ framed parts.0.now ++ parts.1.now) × IsBodyLength (length parts.0.now)) }
    ensures shorter { IfSome result (λ parts. length parts.1.now < length stream.now) }
    ensures none { IfNone result (IsPartial stream.now ⊎ IsFault stream.now) }
{
    if stream.len() < 4 {
        return None;
    }
    let (len, rest) = split_u32(stream);
    if !is_body_length(len) {
        return None;
    }
    if rest.len() < len as usize {
        return None;
    }
    Some(rest.split_at(len as usize))
}

/// Reads the whole frames in front, and counts their bytes. The error is `NoMemory` alone.
pub(crate) fn read_frames(alloc: Global, stream: &[u8]) -> Result<(Vec<Frame>, usize), Status>
    ensures ok { IfOk result (λ read. Splits stream.now read.0.items (drop read.1 stream.now) × (read.1 ≤ length stream.now)) }
    ensures refused { IfErr result (λ status. status ≡ Status.NoMemory) }
{
    let mut frames = Vec::new(alloc);
    let mut rest = stream;
    while let Some((body, behind)) = split_frame(rest) {
        frames.push(read_body(alloc, body)?)?;
        rest = behind;
    }
    Ok((frames, stream.len() - rest.len()))
}
