//! Writing to a sink until all was taken.

ghost use Rattle.std.specs.Prelude.{◌≡◌, ◌<◌, ◌≤◌, [], Err, IfErr, IfOk, length};
ghost use Rattle.std.specs.Io.KnownBytes.{Appends};
ghost use Rattle.fm_server.specs.Connections.{AppendsFront, AppendsSuch, HandsOn, HandsOnAt, SendsAnswer, SendsText, TellsFault};

use crate::replies::{bare_reply, text_of};
use crate::serve_end::ServeEnd;
use crate::sink::Sink;
use fm_types::Status;
use fm_wire::Frame;
use std::alloc::Global;

// Writes some bytes from the front of a text, and says how many.
fn put_some<W: Sink>(sink: &mut W, text: &[u8]) -> Result<usize, ServeEnd>
    requires { 0 < length text.now }
    ensures some { IfOk result (λ count. (0 < count) × (count ≤ length text.now)) }
    ensures appends { AppendsFront result text.now (W.contents sink.old) (W.contents sink.new) }
    ensures fault { IfErr result (λ end. (end ≡ ServeEnd.WriteFault) × W.failed sink.new) }
{
    match sink.put(text) {
        Ok(0) => Err(ServeEnd::WriteFault),
        Ok(count) => Ok(count),
        Err(_) => Err(ServeEnd::WriteFault),
    }
}

fn finish<W: Sink>(sink: &mut W) -> Result<(), ServeEnd>
    ensures appends { Appends (W.contents sink.old) (W.contents sink.new) [] }
    ensures handed { IfOk result (λ _. W.handed_on sink.new) }
    ensures fault { IfErr result (λ end. (end ≡ ServeEnd.WriteFault) × W.failed sink.new) }
{
    match sink.finish() {
        Ok(()) => Ok(()),
        Err(_) => Err(ServeEnd::WriteFault),
    }
}

/// Writes a text, all of it if the sink doesn't fail, and has it handed on.
pub(crate) fn put_whole<W: Sink>(sink: &mut W, text: &[u8]) -> Result<(), ServeEnd>
    ensures sends { AppendsSuch (W.contents sink.old) (W.contents sink.new) (SendsText result text.now) }
    ensures handed { IfOk result (λ _. W.handed_on sink.new) }
    ensures fault { IfErr result (λ end. (end ≡ ServeEnd.WriteFault) × W.failed sink.new) }
{
    let mut rest = text;
    while !rest.is_empty() {
        match put_some(sink, rest) {
            Ok(count) => {
                let (_, behind) = rest.split_at(count);
                rest = behind;
            }
            Err(end) => return Err(end),
        }
    }
    finish(sink)
}

/// Sends the answer to the request of that number.
pub(crate) fn send<W: Sink>(
    alloc: Global,
    sink: &mut W,
    number: u32,
    answer: &Frame,
) -> Result<(), ServeEnd>
    ensures sends { AppendsSuch (W.contents sink.old) (W.contents sink.new) (SendsAnswer result number answer.now) }
    ensures handed { HandsOn result (W.handed_on sink.old) (W.handed_on sink.new) }
    ensures fault { result ≡ Err ServeEnd.WriteFault → W.failed sink.new }
{
    match text_of(alloc, number, answer) {
        Ok(text) => put_whole(sink, text.as_slice()),
        Err(_) => Err(ServeEnd::NoMemory),
    }
}

/// Answers a frame fault, which ends the connection.
pub(crate) fn tell_fault<W: Sink>(alloc: Global, sink: &mut W) -> ServeEnd
    ensures tells { AppendsSuch (W.contents sink.old) (W.contents sink.new) (TellsFault result) }
    ensures handed { HandsOnAt result (W.handed_on sink.old) (W.handed_on sink.new) }
    ensures fault { result ≡ ServeEnd.WriteFault → W.failed sink.new }
{
    match send(alloc, sink, 0, &bare_reply(alloc, 0, Status::BadRequest)) {
        Ok(()) => ServeEnd::BadFrame,
        Err(end) => end,
    }
}
