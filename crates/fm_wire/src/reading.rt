//! Bodies of frames, read by the code in front of them.

ghost use Rattle.std.specs.Prelude.{◌≡◌, ◌≤◌, ◌⊎◌, Ok, Err, IfOk, IfErr, length};
ghost use Rattle.fm_wire.specs.Grammar.{IsBody, Reading};

mod controls;
mod replies;
mod requests;
mod single;

use crate::frame::{Body, Frame};
use crate::numbers::{split_u8, split_u32};
use crate::reading::controls::{read_attach, read_detach, read_load, read_stop};
use crate::reading::replies::read_reply;
use crate::reading::requests::{read_create, read_read, read_set_size, read_write};
use crate::reading::single::{read_on_byte, read_on_number};
use fm_types::Status;
use std::alloc::Global;

fn read_fields(alloc: Global, code: u8, fields: &[u8]) -> Result<Body, Status>
    ensures ok { IfOk result (λ body. Reading code fields.now (Ok body)) }
    ensures refused { IfErr result (λ status. (status ≡ Status.NoMemory) ⊎ Reading code fields.now (Err status)) }
{
    match code {
        1 => read_create(alloc, fields),
        2 => read_read(fields),
        3 => read_write(alloc, fields),
        4 | 6 | 8 | 9 | 10 | 129 => read_on_number(code, fields),
        5 => read_set_size(fields),
        7 | 19 | 20 => read_on_byte(code, fields),
        16 => read_load(fields),
        17 => read_attach(fields),
        18 => read_detach(fields),
        21 => read_stop(fields),
        128 => read_reply(alloc, fields),
        _ => Err(Status::BadRequest),
    }
}

/// Reads a frame's body: its code, its number and its fields. A body that says nothing is read too, as
/// a refused frame under its number. The error is `NoMemory` alone.
pub(crate) fn read_body(alloc: Global, bytes: &[u8]) -> Result<Frame, Status>
    requires { 5 ≤ length bytes.now }
    ensures ok { IfOk result (IsBody bytes.now) }
    ensures refused { IfErr result (λ status. status ≡ Status.NoMemory) }
{
    let (code, rest) = split_u8(bytes);
    let (number, fields) = split_u32(rest);
    match read_fields(alloc, code, fields) {
        Ok(body) => Ok(Frame { number, body }),
        Err(Status::NoMemory) => Err(Status::NoMemory),
        Err(status) => Ok(Frame {
            number,
            body: Body::Refused(status),
        }),
    }
}
