//! The fields of the requests that ask for operations.

ghost use Rattle.std.specs.Prelude.{◌≡◌, ◌<◌, ◌⊎◌, Ok, Err, IfOk, IfErr};
ghost use Rattle.fm_wire.specs.Spelling.{mode_number};
ghost use Rattle.fm_wire.specs.Grammar.{Reading};

use crate::frame::Body;
use crate::numbers::{split_u8, split_u32, split_u64};
use fm_callback_data::{FileRequest, Request};
use fm_types::limits::TRANSFER;
use fm_types::{Bytes, CreateMode, HandleId, RelPath, SharedPath, Status, VolumeId};
use std::alloc::Global;

fn read_mode(number: u8) -> Result<CreateMode, Status>
    ensures ok { IfOk result (λ mode. mode_number mode ≡ number) }
    ensures refused { IfErr result (λ status. (status ≡ Status.BadRequest) × (2 < number)) }
{
    match number {
        0 => Ok(CreateMode::Existing),
        1 => Ok(CreateMode::New),
        2 => Ok(CreateMode::Always),
        _ => Err(Status::BadRequest),
    }
}

/// Reads a volume, a mode and a path that fills the rest.
pub(crate) fn read_create(alloc: Global, fields: &[u8]) -> Result<Body, Status>
    ensures ok { IfOk result (λ body. Reading 1 fields.now (Ok body)) }
    ensures refused { IfErr result (λ status. (status ≡ Status.NoMemory) ⊎ Reading 1 fields.now (Err status)) }
{
    if fields.len() < 2 {
        return Err(Status::BadRequest);
    }
    let (volume, rest) = split_u8(fields);
    let (mode, path) = split_u8(rest);
    let mode = match read_mode(mode) {
        Ok(mode) => mode,
        Err(status) => return Err(status),
    };
    match RelPath::read(path) {
        Ok(path) => Ok(Body::Operation(Request::Create {
            volume: VolumeId(volume),
            path: SharedPath::new(alloc, path)?,
            mode,
        })),
        Err(status) => Err(status),
    }
}

/// Reads a handle, an offset and a length.
pub(crate) fn read_read(fields: &[u8]) -> Result<Body, Status>
    ensures { Reading 2 fields.now result }
{
    if fields.len() != 20 {
        return Err(Status::BadRequest);
    }
    let (handle, rest) = split_u64(fields);
    let (offset, rest) = split_u64(rest);
    let (len, _) = split_u32(rest);
    if len as u64 > TRANSFER {
        return Err(Status::BadRequest);
    }
    let request = FileRequest::Read { offset, len };
    Ok(Body::Operation(Request::OnHandle {
        handle: HandleId(handle),
        request,
    }))
}

/// Reads a handle, an offset and bytes that fill the rest.
pub(crate) fn read_write(alloc: Global, fields: &[u8]) -> Result<Body, Status>
    ensures ok { IfOk result (λ body. Reading 3 fields.now (Ok body)) }
    ensures refused { IfErr result (λ status. (status ≡ Status.NoMemory) ⊎ Reading 3 fields.now (Err status)) }
{
    if fields.len() < 16 || fields.len() as u64 > 16 + TRANSFER {
        return Err(Status::BadRequest);
    }
    let (handle, rest) = split_u64(fields);
    let (offset, bytes) = split_u64(rest);
    let request = FileRequest::Write {
        offset,
        bytes: Bytes::copy_of(alloc, bytes)?,
    };
    Ok(Body::Operation(Request::OnHandle {
        handle: HandleId(handle),
        request,
    }))
}

/// Reads a handle and a size.
pub(crate) fn read_set_size(fields: &[u8]) -> Result<Body, Status>
    ensures { Reading 5 fields.now result }
{
    if fields.len() != 16 {
        return Err(Status::BadRequest);
    }
    let (handle, rest) = split_u64(fields);
    let (size, _) = split_u64(rest);
    let request = FileRequest::SetSize { size };
    Ok(Body::Operation(Request::OnHandle {
        handle: HandleId(handle),
        request,
    }))
}
