//! Serving one connection, from its first read to its end.

ghost use Rattle.std.specs.Prelude.{◌≡◌, ◌<◌, ◌≤◌, ◌+◌, ◌-◌, ◌^◌, ◌⊎◌, Err, IfOk, OnOk, length};
ghost use Rattle.fm_server.specs.Serving.{Leaves};
ghost use Rattle.fm_server.specs.Connections.{AppendsSuch, GoesOn, HandsOn, HandsOnAt, LastEnd, LeavesAt, TakesAll, TakesPiece, TellsBehind};
ghost use Rattle.fm_server.specs.Replies.{Says};

use crate::answering::do_all;
use crate::exec::Exec;
use crate::got::{Got, receive};
use crate::serve_end::ServeEnd;
use crate::sink::Sink;
use crate::source::Source;
use crate::writing::tell_fault;
use fm_types::Status;
use fm_wire::Decoder;
use std::alloc::{AllocError, Global};

/// How often `serve` reads.
pub const MOST_READS: u32 = u32::MAX;

/// How many bytes a read may give: more than the longest frame has, so that most come whole.
const PIECE: usize = 65_536;

// Takes the next piece: answers the frames that are whole now, or the fault that stands in front.
fn take_piece<W: Sink, E: Exec>(
    alloc: Global,
    decoder: &mut Decoder,
    sink: &mut W,
    exec: &mut E,
    piece: &[u8],
) -> Result<(), ServeEnd>
    ensures takes { TakesPiece (Says E.operates E.controls) result piece.now decoder.old exec.old decoder.new exec.new (W.contents sink.old) (W.contents sink.new) }
    ensures handed { HandsOn result (W.handed_on sink.old) (W.handed_on sink.new) }
    ensures fault { result ≡ Err ServeEnd.WriteFault → W.failed sink.new }
    ensures never { result ≡ Err ServeEnd.ReadFault → ⊥ }
{
    match decoder.feed(piece) {
        Ok(frames) => do_all(alloc, sink, exec, frames),
        Err(Status::BadRequest) => Err(tell_fault(alloc, sink)),
        Err(_) => Err(ServeEnd::NoMemory),
    }
}

// Tells the fault that stands after the frames that came, if one does.
fn tell_behind<W: Sink>(alloc: Global, decoder: &Decoder, sink: &mut W) -> Result<(), ServeEnd>
    ensures tells { AppendsSuch (W.contents sink.old) (W.contents sink.new) (TellsBehind result decoder.now) }
    ensures handed { HandsOn result (W.handed_on sink.old) (W.handed_on sink.new) }
    ensures fault { result ≡ Err ServeEnd.WriteFault → W.failed sink.new }
    ensures never { result ≡ Err ServeEnd.ReadFault → ⊥ }
{
    if decoder.is_at_fault() {
        Err(tell_fault(alloc, sink))
    } else {
        Ok(())
    }
}

// Takes a piece, and tells the fault that stands after its frames, if one does.
fn take_whole<W: Sink, E: Exec>(
    alloc: Global,
    decoder: &mut Decoder,
    sink: &mut W,
    exec: &mut E,
    piece: &[u8],
) -> Result<(), ServeEnd>
    ensures takes { TakesAll (Says E.operates E.controls) result piece.now decoder.old exec.old decoder.new exec.new (W.contents sink.old) (W.contents sink.new) }
    ensures handed { HandsOn result (W.handed_on sink.old) (W.handed_on sink.new) }
    ensures fault { result ≡ Err ServeEnd.WriteFault → W.failed sink.new }
    ensures never { result ≡ Err ServeEnd.ReadFault → ⊥ }
{
    match take_piece(alloc, decoder, sink, exec, piece) {
        Ok(()) => tell_behind(alloc, decoder, sink),
        Err(end) => Err(end),
    }
}

// The end of the input, between two frames or inside of one.
fn last_end(decoder: &Decoder) -> ServeEnd
    ensures { LastEnd decoder.now result }
{
    if decoder.is_between_frames() {
        ServeEnd::Ended
    } else {
        ServeEnd::Truncated
    }
}

// One read, and what comes of it.
fn turn<R: Source, W: Sink, E: Exec>(
    alloc: Global,
    source: &mut R,
    decoder: &mut Decoder,
    sink: &mut W,
    exec: &mut E,
    buffer: &mut [u8],
) -> Result<(), ServeEnd>
    requires { 0 < length buffer.old }
    ensures handed { HandsOn result (W.handed_on sink.old) (W.handed_on sink.new) }
    ensures write_fault { result ≡ Err ServeEnd.WriteFault → W.failed sink.new }
    ensures read_fault { result ≡ Err ServeEnd.ReadFault → R.failed source.new }
    ensures counted { OnOk result (R.reads source.new ≡ R.reads source.old + 1) }
    ensures goes { GoesOn (Says E.operates E.controls) result decoder.old (R.remaining source.old) (W.contents sink.old) exec.old
        decoder.new (R.remaining source.new) (W.contents sink.new) exec.new }
{
    match receive(source, buffer) {
        Got::Piece(count) => take_whole(alloc, decoder, sink, exec, &buffer[..count]),
        Got::End => Err(last_end(decoder)),
        Got::Fault => Err(ServeEnd::ReadFault),
    }
}

// Reads until serving ends.
fn run<R: Source, W: Sink, E: Exec>(
    alloc: Global,
    source: &mut R,
    decoder: &mut Decoder,
    sink: &mut W,
    exec: &mut E,
    buffer: &mut [u8],
) -> ServeEnd
    requires { 0 < length buffer.old }
    ensures handed { HandsOnAt result (W.handed_on sink.old) (W.handed_on sink.new) }
    ensures write_fault { result ≡ ServeEnd.WriteFault → W.failed sink.new }
    ensures read_fault { result ≡ ServeEnd.ReadFault → R.failed source.new ⊎ (R.reads source.old + (2 ^ 32 - 1) ≤ R.reads source.new) }
    ensures leaves { LeavesAt (Says E.operates E.controls) result decoder.old (R.remaining source.old) (W.contents sink.old) exec.old
        (R.remaining source.new) (W.contents sink.new) exec.new }
{
    for _ in 0..MOST_READS {
        match turn(alloc, source, decoder, sink, exec, buffer) {
            Ok(()) => {}
            Err(end) => return end,
        }
    }
    ServeEnd::ReadFault
}

// Room for what a read gives.
fn new_buffer(alloc: Global) -> Result<Vec<u8>, AllocError>
    ensures { IfOk result (λ buffer. 0 < length buffer.items) }
{
    vec![in alloc; 0; PIECE]
}

// Serves, with that room for what a read gives.
fn serve_by<R: Source, W: Sink, E: Exec>(
    alloc: Global,
    source: &mut R,
    sink: &mut W,
    exec: &mut E,
    mut buffer: Vec<u8>,
) -> ServeEnd
    requires { 0 < length buffer.items }
    ensures handed { HandsOnAt result (W.handed_on sink.old) (W.handed_on sink.new) }
    ensures write_fault { result ≡ ServeEnd.WriteFault → W.failed sink.new }
    ensures read_fault { result ≡ ServeEnd.ReadFault → R.failed source.new ⊎ (R.reads source.old + (2 ^ 32 - 1) ≤ R.reads source.new) }
    ensures leaves { Leaves (Says E.operates E.controls) result (R.remaining source.old) (W.contents sink.old) exec.old (R.remaining source.new) (W.contents sink.new) exec.new }
{
    let mut decoder = Decoder::new(alloc);
    run(
        alloc,
        source,
        &mut decoder,
        sink,
        exec,
        buffer.as_mut_slice(),
    )
}

/// Serves one connection: reads frames from the source, has the exec answer each, and writes the replies to the sink, in order and with nothing
/// else. One request at a time: a reply was written, and handed on by the sink, before the next frame is answered.
///
/// A frame that refuses itself is answered with its status, one that only a server says with 32 (`BadRequest`), and an answer of the exec that
/// has no spelling with 32 under the request's number. How it ends:
/// - `Ended`: the input is whole frames, and all replies were written;
/// - `Truncated`: after them the input ends inside a frame, for which nothing was written;
/// - `BadFrame`: after the replies to the frames in front a length stood that no frame has; it was answered last, with number 0 and status 32;
/// - `Stopped`: the reply to a Stop was the last;
/// - `ReadFault`: the source failed, or was read 2^32 - 1 times; all frames that came whole were answered;
/// - `WriteFault`: the sink failed; what it took is a prefix of that text;
/// - `NoMemory`: a growth was refused; the first frames were answered, and what answers may have been asked once more.
pub fn serve<R: Source, W: Sink, E: Exec>(
    alloc: Global,
    source: &mut R,
    sink: &mut W,
    exec: &mut E,
) -> ServeEnd
    ensures handed { HandsOnAt result (W.handed_on sink.old) (W.handed_on sink.new) }
    ensures write_fault { result ≡ ServeEnd.WriteFault → W.failed sink.new }
    ensures read_fault { result ≡ ServeEnd.ReadFault → R.failed source.new ⊎ (R.reads source.old + (2 ^ 32 - 1) ≤ R.reads source.new) }
    ensures leaves { Leaves (Says E.operates E.controls) result (R.remaining source.old) (W.contents sink.old) exec.old (R.remaining source.new) (W.contents sink.new) exec.new }
{
    match new_buffer(alloc) {
        Ok(buffer) => serve_by(alloc, source, sink, exec, buffer),
        Err(_) => ServeEnd::NoMemory,
    }
}
