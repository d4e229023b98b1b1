//! Replies of the server's own, and the bytes of an answer.

ghost use Rattle.std.specs.Prelude.{◌≡◌, MatchResult};
ghost use Rattle.fm_server.specs.Replies.{Sends, bare_reply, is_stop, replied, status_reply};

use crate::serve_end::ServeEnd;
use fm_callback_data::Reply;
use fm_types::{Bytes, Status};
use fm_wire::{Body, Control, Frame, encode};
use std::alloc::Global;

/// The reply that says a status, with the count of a busy one, and has no bytes.
pub fn status_reply(alloc: Global, status: Status) -> Reply
    ensures { result ≡ status_reply status }
{
    let information = match status {
        Status::Busy(count) => count,
        _ => 0,
    };
    Reply::Done {
        status,
        information,
        bytes: Bytes::new(alloc),
    }
}

/// A reply under its request's number.
pub(crate) fn replied(number: u32, said: Reply) -> Frame
    ensures { result ≡ replied number said }
{
    Frame {
        number,
        body: Body::Reply(said),
    }
}

/// The reply that says a status, under a request's number.
pub fn bare_reply(alloc: Global, number: u32, status: Status) -> Frame
    ensures { result ≡ bare_reply number status }
{
    replied(number, status_reply(alloc, status))
}

/// Whether a client asks the server to end.
pub(crate) fn is_stop(body: &Body) -> bool
    ensures { result ≡ is_stop body.now }
{
    matches!(body, Body::Control(Control::Stop))
}

/// What goes out for an answer to the request of that number. It is NoMemory alone if there is nothing.
pub(crate) fn text_of(alloc: Global, number: u32, answer: &Frame) -> Result<Bytes, ServeEnd>
    ensures { MatchResult result (λ text. Sends number answer.now text) (λ end. end ≡ ServeEnd.NoMemory) }
{
    match encode(alloc, answer) {
        Ok(text) => Ok(text),
        Err(Status::BadRequest) => {
            let refusal = bare_reply(alloc, number, Status::BadRequest);
            encode(alloc, &refusal).map_err(|_| ServeEnd::NoMemory)
        }
        Err(_) => Err(ServeEnd::NoMemory),
    }
}
