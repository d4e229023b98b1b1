//! The words after the first one of a request.

ghost use Rattle.std.specs.Prelude.{◌≡◌, IfOk, map};
ghost use Rattle.fm_cli.specs.Requests.{Attaches, Creates, Loads, ReadsAfter, Writes};
ghost use Rattle.fm_cli.specs.Requests.{attach_read, create_read, detach_read, dismount_read, list_read, load_read};
ghost use Rattle.fm_cli.specs.Requests.{on_handle, only_handle, plain_read, read_read, set_size_read, stop_read, unload_read, write_read};

use crate::values::{
    read_altitude, read_bytes, read_len, read_mode, read_name, read_path, read_u8, read_u16,
};
use crate::verb::Verb;
use fm_altitude::Altitude;
use fm_callback_data::{FileRequest, Request};
use fm_types::limits::TRANSFER;
use fm_types::{Bytes, FilterId, HandleId, InstanceId, Name, SharedPath, VolumeId};
use fm_wire::{Body, Control};
use fm_words::read_number;
use std::alloc::{AllocError, Global};

/// What the words after the first one ask for, if they are its words. It fails if there is no memory for a path or for bytes.
pub(crate) fn read_after(
    alloc: Global,
    verb: Verb,
    words: &[&str],
) -> Result<Option<Body>, AllocError>
    ensures { IfOk result (ReadsAfter verb (map (λ word. word.now) words.now)) }
{
    match verb {
        Verb::Create => read_create(alloc, words),
        Verb::Write => read_write(alloc, words),
        Verb::Load => Ok(read_load(words)),
        Verb::Attach => Ok(read_attach(words)),
        other => Ok(read_plain(other, words)),
    }
}

// `create V MODE PATH`.
fn read_create(alloc: Global, words: &[&str]) -> Result<Option<Body>, AllocError>
    ensures { IfOk result (Creates (map (λ word. word.now) words.now)) }
{
    let [volume, mode, path] = words else {
        return Ok(None);
    };
    let path = read_path(alloc, path.as_bytes())?;
    Ok(create_of(volume.as_bytes(), mode.as_bytes(), path))
}

fn create_of(volume: &[u8], mode: &[u8], path: Option<SharedPath>) -> Option<Body>
    ensures { result ≡ create_read volume.now mode.now path }
{
    let volume = VolumeId(read_u8(volume)?);
    let mode = read_mode(mode)?;
    let path = path?;
    Some(Body::Operation(Request::Create { volume, path, mode }))
}

// `write H OFFSET HEX`.
fn read_write(alloc: Global, words: &[&str]) -> Result<Option<Body>, AllocError>
    ensures { IfOk result (Writes (map (λ word. word.now) words.now)) }
{
    let [handle, offset, bytes] = words else {
        return Ok(None);
    };
    let bytes = read_bytes(alloc, bytes.as_bytes())?;
    Ok(write_of(handle.as_bytes(), offset.as_bytes(), bytes))
}

fn write_of(handle: &[u8], offset: &[u8], bytes: Option<Bytes>) -> Option<Body>
    ensures { result ≡ write_read handle.now offset.now bytes }
{
    let handle = read_number(handle)?;
    let offset = read_number(offset)?;
    let bytes = bytes?;
    if bytes.len() > TRANSFER as usize {
        return None;
    }
    Some(on_handle(handle, FileRequest::Write { offset, bytes }))
}

fn on_handle(handle: u64, request: FileRequest) -> Body
    ensures { result ≡ on_handle handle request }
{
    Body::Operation(Request::OnHandle {
        handle: HandleId(handle),
        request,
    })
}

// `load NAME`.
fn read_load(words: &[&str]) -> Option<Body>
    ensures { Loads (map (λ word. word.now) words.now) result }
{
    let [name] = words else {
        return None;
    };
    load_of(read_name(name.as_bytes()))
}

fn load_of(name: Option<Name>) -> Option<Body>
    ensures { result ≡ load_read name }
{
    Some(Body::Control(Control::Load { name: name? }))
}

// `attach F V NAME ALT`.
fn read_attach(words: &[&str]) -> Option<Body>
    ensures { Attaches (map (λ word. word.now) words.now) result }
{
    let [filter, volume, name, altitude] = words else {
        return None;
    };
    let name = read_name(name.as_bytes());
    let altitude = read_altitude(altitude.as_bytes());
    attach_of(filter.as_bytes(), volume.as_bytes(), name, altitude)
}

fn attach_of(
    filter: &[u8],
    volume: &[u8],
    name: Option<Name>,
    altitude: Option<Altitude>,
) -> Option<Body>
    ensures { result ≡ attach_read filter.now volume.now name altitude }
{
    let filter = FilterId(read_u8(filter)?);
    let volume = VolumeId(read_u8(volume)?);
    let name = name?;
    let altitude = altitude?;
    Some(Body::Control(Control::Attach {
        filter,
        volume,
        name,
        altitude,
    }))
}

// The words after any other first word: numbers alone.
fn read_plain(verb: Verb, words: &[&str]) -> Option<Body>
    ensures { result ≡ plain_read verb (map (λ word. word.now) words.now) }
{
    match verb {
        Verb::Read => read_read(words),
        Verb::QuerySize => only_handle(words, FileRequest::QuerySize),
        Verb::SetSize => read_set_size(words),
        Verb::Flush => only_handle(words, FileRequest::Flush),
        Verb::List => read_list(words),
        Verb::SetDelete => only_handle(words, FileRequest::SetDelete),
        Verb::Restore => only_handle(words, FileRequest::Restore),
        Verb::Close => only_handle(words, FileRequest::Close),
        Verb::Detach => read_detach(words),
        Verb::Unload => read_unload(words),
        Verb::Dismount => read_dismount(words),
        Verb::Stop => read_stop(words),
        _ => None,
    }
}

// `read H OFFSET LEN`.
fn read_read(words: &[&str]) -> Option<Body>
    ensures { result ≡ read_read (map (λ word. word.now) words.now) }
{
    let [handle, offset, len] = words else {
        return None;
    };
    let handle = read_number(handle.as_bytes())?;
    let offset = read_number(offset.as_bytes())?;
    let len = read_len(len.as_bytes())?;
    Some(on_handle(handle, FileRequest::Read { offset, len }))
}

// `setsize H N`.
fn read_set_size(words: &[&str]) -> Option<Body>
    ensures { result ≡ set_size_read (map (λ word. word.now) words.now) }
{
    let [handle, size] = words else {
        return None;
    };
    let handle = read_number(handle.as_bytes())?;
    let size = read_number(size.as_bytes())?;
    Some(on_handle(handle, FileRequest::SetSize { size }))
}

// `querysize H`, `flush H`, `setdelete H`, `close H`.
fn only_handle(words: &[&str], request: FileRequest) -> Option<Body>
    ensures { result ≡ only_handle (map (λ word. word.now) words.now) request }
{
    let [handle] = words else {
        return None;
    };
    let handle = read_number(handle.as_bytes())?;
    Some(on_handle(handle, request))
}

// `list V`.
fn read_list(words: &[&str]) -> Option<Body>
    ensures { result ≡ list_read (map (λ word. word.now) words.now) }
{
    let [volume] = words else {
        return None;
    };
    let volume = VolumeId(read_u8(volume.as_bytes())?);
    Some(Body::Operation(Request::List { volume }))
}

// `detach I`.
fn read_detach(words: &[&str]) -> Option<Body>
    ensures { result ≡ detach_read (map (λ word. word.now) words.now) }
{
    let [instance] = words else {
        return None;
    };
    let instance = InstanceId(read_u16(instance.as_bytes())?);
    Some(Body::Control(Control::Detach { instance }))
}

// `unload F`.
fn read_unload(words: &[&str]) -> Option<Body>
    ensures { result ≡ unload_read (map (λ word. word.now) words.now) }
{
    let [filter] = words else {
        return None;
    };
    let filter = FilterId(read_u8(filter.as_bytes())?);
    Some(Body::Control(Control::Unload { filter }))
}

// `dismount V`.
fn read_dismount(words: &[&str]) -> Option<Body>
    ensures { result ≡ dismount_read (map (λ word. word.now) words.now) }
{
    let [volume] = words else {
        return None;
    };
    let volume = VolumeId(read_u8(volume.as_bytes())?);
    Some(Body::Control(Control::Dismount { volume }))
}

// `stop`.
fn read_stop(words: &[&str]) -> Option<Body>
    ensures { result ≡ stop_read (map (λ word. word.now) words.now) }
{
    match words {
        [] => Some(Body::Control(Control::Stop)),
        _ => None,
    }
}
