//! The encoder: the one spelling of a frame.

ghost use Rattle.std.specs.Prelude.{◌≡◌, ◌<◌, ◌^◌, ◌↔◌, ◌⊎◌, ◌++◌, Ok, Err, IfOk, IfErr, IsTrue, OnOk, length};
ghost use Rattle.fm_wire.specs.Spelling.{body_of, code_of, fields_of, spelling_of};
ghost use Rattle.fm_wire.specs.Grammar.{Fits, HasNoBytes, HasTexts, IsFrame, IsSpelled, KeepsLimits, canonical_body};

mod controls;
mod numbers;
mod replies;
mod requests;

use crate::encoding::controls::{control_code, control_len, put_control};
use crate::encoding::numbers::put_u32;
use crate::encoding::replies::{keeps_reply_limits, put_reply, reply_code, reply_len};
use crate::encoding::requests::{keeps_request_limits, put_request, request_code, request_len};
use crate::frame::{Body, Frame};
use crate::stream::MAX_BODY;
use fm_types::{Bytes, Status};
use std::alloc::{AllocError, Global};

fn keeps_limits(body: &Body) -> bool
    ensures { IsTrue result ↔ KeepsLimits body.now }
{
    match body {
        Body::Operation(request) => keeps_request_limits(request),
        Body::Control(_) => true,
        Body::Reply(reply) => keeps_reply_limits(reply),
        Body::Refused(_) => false,
    }
}

fn code(body: &Body) -> u8
    ensures { result ≡ code_of body.now }
{
    match body {
        Body::Operation(request) => request_code(request),
        Body::Control(control) => control_code(control),
        Body::Reply(reply) => reply_code(reply),
        Body::Refused(_) => 0,
    }
}

fn fields_len(body: &Body) -> usize
    ensures { result ≡ length (fields_of body.now) }
{
    match body {
        Body::Operation(request) => request_len(request),
        Body::Control(control) => control_len(control),
        Body::Reply(reply) => reply_len(reply),
        Body::Refused(_) => 0,
    }
}

fn put_fields(out: &mut Vec<u8>, body: &Body) -> Result<(), AllocError>
    ensures ok { OnOk result (out.new.items ≡ out.old.items ++ fields_of body.now) }
    ensures fits { OnOk result (Fits body.now) }
    ensures texts { OnOk result (HasTexts body.now × (canonical_body body.now ≡ body.now)) }
{
    match body {
        Body::Operation(request) => put_request(out, request),
        Body::Control(control) => put_control(out, control),
        Body::Reply(reply) => put_reply(out, reply),
        Body::Refused(_) => Ok(()),
    }
}

// Makes the bytes of a frame whose body is so long.
fn put_frame(alloc: Global, frame: &Frame, len: u32) -> Result<Vec<u8>, AllocError>
    requires { len ≡ length (body_of frame.now) }
    ensures text { IfOk result (λ text. text.items ≡ spelling_of frame.now) }
    ensures fits { IfOk result (λ text. (frame.now.number < 2 ^ 32) × Fits frame.now.body) }
    ensures texts { IfOk result (λ text. HasTexts frame.now.body × (canonical_body frame.now.body ≡ frame.now.body)) }
{
    let mut out = Vec::with_capacity(alloc, len as usize + 4)?;
    put_u32(&mut out, len)?;
    out.push(code(&frame.body))?;
    put_u32(&mut out, frame.number)?;
    put_fields(&mut out, &frame.body)?;
    Ok(out)
}

/// The bytes of a frame: a length, a code, the number and the fields. An altitude is spelled by its
/// canonical text, and everything else has one spelling.
///
/// 32 (`BadRequest`) where the frame has none: a read or a write of more than 32,768 bytes, a reply whose
/// status is `Busy` and whose information isn't its count, a reply with more than 32,986 bytes, a refused
/// frame. 1 (`NoMemory`) where memory is refused.
pub fn encode(alloc: Global, frame: &Frame) -> Result<Bytes, Status>
    ensures text { IfOk result (λ text. text ≡ spelling_of frame.now) }
    ensures frame { IfOk result (λ text. IsFrame text frame.now) }
    ensures refused { (result ≡ Err Status.BadRequest) ↔ (IsSpelled frame.now → ⊥) }
    ensures none { result ≡ Err Status.BadRequest → HasNoBytes frame.now }
    ensures errors { IfErr result (λ status. (status ≡ Status.BadRequest) ⊎ (status ≡ Status.NoMemory)) }
{
    if !keeps_limits(&frame.body) {
        return Err(Status::BadRequest);
    }
    // a code and a number stand in front of the fields
    let len = fields_len(&frame.body);
    if len > MAX_BODY as usize - 5 {
        return Err(Status::BadRequest);
    }
    let text = put_frame(alloc, frame, len as u32 + 5)?;
    Ok(Bytes::from_vec(text))
}
