//! Answering frames one after the other, each reply before the next frame.

ghost use Rattle.std.specs.Prelude.{◌≡◌, List, ℕ, Err};
ghost use Rattle.std.specs.Io.KnownBytes.{Appends};
ghost use Rattle.fm_server.specs.Connections.{Does, DoesAll, HandsOn};
ghost use Rattle.fm_server.specs.Replies.{AnswersTo, Says};

use crate::exec::Exec;
use crate::replies::{bare_reply, is_stop, replied};
use crate::serve_end::ServeEnd;
use crate::sink::Sink;
use crate::writing::send;
use fm_types::Status;
use fm_wire::{Body, Frame};
use std::alloc::Global;

// The answer to a frame: the server's own to one that refuses itself, and else the exec's, under the frame's number.
fn answer_to<E: Exec>(alloc: Global, exec: &mut E, frame: Frame) -> Frame
    ensures { AnswersTo (Says E.operates E.controls) exec.old frame result exec.new }
{
    let Frame { number, body } = frame;
    match body {
        Body::Operation(request) => replied(number, exec.operate(request)),
        Body::Control(control) => replied(number, exec.control(control)),
        Body::Refused(status) => bare_reply(alloc, number, status),
        Body::Reply(_) => bare_reply(alloc, number, Status::BadRequest),
    }
}

// Answers a frame, and sends the answer. After that of a Stop it is the end Stopped.
fn do_one<W: Sink, E: Exec>(
    alloc: Global,
    sink: &mut W,
    exec: &mut E,
    frame: Frame,
) -> Result<(), ServeEnd>
    ensures does { (output : List ℕ) × Appends (W.contents sink.old) (W.contents sink.new) output
        × Does (Says E.operates E.controls) result exec.old frame output exec.new }
    ensures handed { HandsOn result (W.handed_on sink.old) (W.handed_on sink.new) }
    ensures fault { result ≡ Err ServeEnd.WriteFault → W.failed sink.new }
{
    let number = frame.number;
    let stops = is_stop(&frame.body);
    let answer = answer_to(alloc, exec, frame);
    match send(alloc, sink, number, &answer) {
        Ok(()) if stops => Err(ServeEnd::Stopped),
        sent => sent,
    }
}

/// Answers the frames in order, up to a Stop.
pub(crate) fn do_all<W: Sink, E: Exec>(
    alloc: Global,
    sink: &mut W,
    exec: &mut E,
    frames: Vec<Frame>,
) -> Result<(), ServeEnd>
    ensures does { (output : List ℕ) × Appends (W.contents sink.old) (W.contents sink.new) output
        × DoesAll (Says E.operates E.controls) result exec.old frames.items output exec.new }
    ensures handed { HandsOn result (W.handed_on sink.old) (W.handed_on sink.new) }
    ensures fault { result ≡ Err ServeEnd.WriteFault → W.failed sink.new }
{
    for frame in frames {
        match do_one(alloc, sink, exec, frame) {
            Ok(()) => {}
            Err(end) => return Err(end),
        }
    }
    Ok(())
}
