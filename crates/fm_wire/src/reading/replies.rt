//! The fields of replies.

ghost use Rattle.std.specs.Prelude.{◌≡◌, ◌⊎◌, Ok, Err, IfOk, IfErr};
ghost use Rattle.fm_wire.specs.Grammar.{Reading};

use crate::frame::Body;
use crate::numbers::{split_u8, split_u64};
use fm_callback_data::Reply;
use fm_types::{Bytes, Status};
use std::alloc::Global;

/// Reads a status, an information and bytes that fill the rest.
pub(crate) fn read_reply(alloc: Global, fields: &[u8]) -> Result<Body, Status>
    ensures ok { IfOk result (λ body. Reading 128 fields.now (Ok body)) }
    ensures refused { IfErr result (λ status. (status ≡ Status.NoMemory) ⊎ Reading 128 fields.now (Err status)) }
{
    if fields.len() < 9 {
        return Err(Status::BadRequest);
    }
    let (number, rest) = split_u8(fields);
    let (information, bytes) = split_u64(rest);
    match Status::from_number(number, information) {
        Some(status) => Ok(Body::Reply(Reply::Done {
            status,
            information,
            bytes: Bytes::copy_of(alloc, bytes)?,
        })),
        None => Err(Status::BadRequest),
    }
}
