//! The spelling of requests for operations.

ghost use Rattle.std.specs.Prelude.{◌≡◌, ◌≤◌, ◌+◌, ◌^◌, ◌++◌, ◌↔◌, IsTrue, OnOk, length};
ghost use Rattle.fm_wire.specs.Spelling as spelling;
ghost use Rattle.fm_wire.specs.Grammar.{FitsFile, FitsRequest, HasRequestTexts, KeepsFileLimits, KeepsRequestLimits};

use crate::encoding::numbers::{put_u32, put_u64};
use fm_callback_data::{FileRequest, Request};
use fm_types::CreateMode;
use fm_types::limits::TRANSFER;
use std::alloc::AllocError;

// Whether it may be said: no more bytes are read or written than an operation may, it is no cleanup, which a close brings, and it has a kind of its own.
fn keeps_file_limits(request: &FileRequest) -> bool
    ensures { IsTrue result ↔ KeepsFileLimits request.now }
{
    match request {
        FileRequest::Read { len, .. } => *len as u64 <= TRANSFER,
        FileRequest::Write { bytes, .. } => bytes.len() as u64 <= TRANSFER,
        FileRequest::Cleanup | FileRequest::Other { .. } => false,
        _ => true,
    }
}

/// Whether a frame may say it.
pub(crate) fn keeps_request_limits(request: &Request) -> bool
    ensures { IsTrue result ↔ KeepsRequestLimits request.now }
{
    match request {
        Request::OnHandle { request, .. } => keeps_file_limits(request),
        Request::Create { .. } | Request::List { .. } => true,
        Request::OnVolume { .. } => false,
    }
}

fn file_code(request: &FileRequest) -> u8
    ensures { result ≡ spelling.file_code request.now }
{
    match request {
        FileRequest::Read { .. } => 2,
        FileRequest::Write { .. } => 3,
        FileRequest::QuerySize => 4,
        FileRequest::SetSize { .. } => 5,
        FileRequest::Flush => 6,
        FileRequest::SetDelete => 8,
        FileRequest::Close => 9,
        FileRequest::Restore => 10,
        FileRequest::Cleanup | FileRequest::Other { .. } => 0,
    }
}

/// The code of a request.
pub(crate) fn request_code(request: &Request) -> u8
    ensures { result ≡ spelling.request_code request.now }
{
    match request {
        Request::Create { .. } => 1,
        Request::List { .. } => 7,
        Request::OnVolume { .. } => 0,
        Request::OnHandle { request, .. } => file_code(request),
    }
}

// How many bytes the fields behind a handle take.
#[tactic(auto, unfolding(crate::specs::Spelling::bytes_of_u32, crate::specs::Spelling::bytes_of_u64))]
fn file_len(request: &FileRequest) -> usize
    ensures len { result ≡ length (spelling.file_fields request.now) }
    ensures fits { result ≤ 2 ^ 63 + 8 }
{
    match request {
        FileRequest::Read { .. } => 12,
        FileRequest::Write { bytes, .. } => 8 + bytes.as_slice().len(),
        FileRequest::SetSize { .. } => 8,
        _ => 0,
    }
}

/// How many bytes a request's fields take.
#[tactic(auto, unfolding(crate::specs::Spelling::bytes_of_u64))]
pub(crate) fn request_len(request: &Request) -> usize
    ensures { result ≡ length (spelling.request_fields request.now) }
{
    match request {
        Request::Create { path, .. } => 2 + path.path().text().len(),
        Request::List { .. } | Request::OnVolume { .. } => 1,
        Request::OnHandle { request, .. } => 8 + file_len(request),
    }
}

fn mode_number(mode: CreateMode) -> u8
    ensures { result ≡ spelling.mode_number mode }
{
    match mode {
        CreateMode::Existing => 0,
        CreateMode::New => 1,
        CreateMode::Always => 2,
    }
}

// Appends the fields behind a handle.
fn put_file(out: &mut Vec<u8>, request: &FileRequest) -> Result<(), AllocError>
    ensures ok { OnOk result (out.new.items ≡ out.old.items ++ spelling.file_fields request.now) }
    ensures fits { OnOk result (FitsFile request.now) }
{
    match request {
        FileRequest::Read { offset, len } => {
            put_u64(out, *offset)?;
            put_u32(out, *len)
        }
        FileRequest::Write { offset, bytes } => {
            put_u64(out, *offset)?;
            out.extend_from_slice(bytes.as_slice())
        }
        FileRequest::SetSize { size } => put_u64(out, *size),
        _ => Ok(()),
    }
}

/// Appends the fields of a request.
pub(crate) fn put_request(out: &mut Vec<u8>, request: &Request) -> Result<(), AllocError>
    ensures ok { OnOk result (out.new.items ≡ out.old.items ++ spelling.request_fields request.now) }
    ensures fits { OnOk result (FitsRequest request.now) }
    ensures texts { OnOk result (HasRequestTexts request.now) }
{
    match request {
        Request::Create { volume, path, mode } => {
            out.push(volume.0)?;
            out.push(mode_number(*mode))?;
            out.extend_from_slice(path.path().text())
        }
        Request::List { volume } | Request::OnVolume { volume, .. } => Ok(out.push(volume.0)?),
        Request::OnHandle { handle, request } => {
            put_u64(out, handle.0)?;
            put_file(out, request)
        }
    }
}
