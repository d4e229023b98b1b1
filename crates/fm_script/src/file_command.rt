//! The commands on files and on the device.

ghost use Rattle.std.specs.Prelude.{◌≡◌, map};
ghost use Rattle.fm_script.specs.FileCommands.{asked, fail_read, failures_read, file_read, handle_and_number, length_asked, major_read, only_asked, other_on_volume_read, other_read, read_read, set_size_read, with_handle, write_read};

use crate::command::{id, number, numbers};
use crate::ids::{handle_in, volume_in};
use crate::keyword::Keyword;
use crate::task::Task;
use fm_callback_data::{FileRequest, Request};
use fm_core::{State, Step};
use fm_types::{Bytes, HandleId, Major, Status};

/// What the words behind the keyword of a command on a handle or on the device stand for.
pub(crate) fn read_file_command(
    state: &State,
    keyword: Keyword,
    words: &[&[u8]],
) -> Result<Task, Status>
    ensures { result ≡ file_read state.now keyword (map (λ word. word.now) words.now) }
{
    match keyword {
        Keyword::Read => read_read(state, words),
        Keyword::Size | Keyword::QuerySize => { only_asked(state, words, FileRequest::QuerySize) }
        Keyword::SetSize => read_set_size(state, words),
        Keyword::Flush => only_asked(state, words, FileRequest::Flush),
        Keyword::Delete | Keyword::SetDelete => { only_asked(state, words, FileRequest::SetDelete) }
        Keyword::Restore => only_asked(state, words, FileRequest::Restore),
        Keyword::Other => read_other(state, words),
        Keyword::OtherV => read_other_on_volume(state, words),
        Keyword::Cleanup => only_asked(state, words, FileRequest::Cleanup),
        Keyword::Close => only_asked(state, words, FileRequest::Close),
        Keyword::Fail => read_fail(words),
        Keyword::Failures => read_failures(words),
        _ => Err(Status::BadRequest),
    }
}

// `read H OFFSET LEN`.
fn read_read(state: &State, words: &[&[u8]]) -> Result<Task, Status>
    ensures { result ≡ read_read state.now (map (λ word. word.now) words.now) }
{
    let [handle, offset, len] = words else {
        return Err(Status::BadRequest);
    };
    let handle = id(b'h', handle)?;
    let (offset, len) = numbers(offset, len)?;
    let len = length_asked(len);
    asked(state, handle, FileRequest::Read { offset, len })
}

// A handle, and what was read behind it.
#[tactic(auto, unfolding(crate::specs::FileCommands::with_handle))]
fn with_handle<T: Copy>(
    state: &State,
    handle: &[u8],
    read: Result<T, Status>,
) -> Result<(HandleId, T), Status>
    ensures { result ≡ with_handle state.now handle.now read }
{
    let handle = id(b'h', handle)?;
    let it = read?;
    Ok((handle_in(state, handle)?, it))
}

// A handle and a number, as the only words.
fn handle_and_number(state: &State, words: &[&[u8]]) -> Result<(HandleId, u64), Status>
    ensures { result ≡ handle_and_number state.now (map (λ word. word.now) words.now) }
{
    match words {
        [handle, word] => with_handle(state, handle, number(word)),
        _ => Err(Status::BadRequest),
    }
}

// `setsize H N`.
fn read_set_size(state: &State, words: &[&[u8]]) -> Result<Task, Status>
    ensures { result ≡ set_size_read state.now (map (λ word. word.now) words.now) }
{
    let (handle, size) = handle_and_number(state, words)?;
    let request = FileRequest::SetSize { size };
    Ok(Task::Event(Step::Begin(Request::OnHandle { handle, request })))
}

/// `write H OFFSET HEX`: a write of those bytes begins.
pub(crate) fn read_write(state: &State, words: &[&[u8]], bytes: Bytes) -> Result<Task, Status>
    ensures { result ≡ write_read state.now (map (λ word. word.now) words.now) bytes }
{
    let (handle, offset) = handle_and_number(state, words)?;
    let request = FileRequest::Write { offset, bytes };
    Ok(Task::Event(Step::Begin(Request::OnHandle { handle, request })))
}

/// A major function by the kit's number, and what stands for its parameters.
#[tactic(auto, unfolding(crate::specs::FileCommands::major_read))]
pub(crate) fn read_major(code: &[u8], word: &[u8]) -> Result<(Major, u64), Status>
    ensures { result ≡ major_read code.now word.now }
{
    let (code, number) = numbers(code, word)?;
    let major = Major::at(code).ok_or(Status::BadRequest)?;
    Ok((major, number))
}

// `other H MAJOR N`: what a major function without a kind of its own asks of a handle.
fn read_other(state: &State, words: &[&[u8]]) -> Result<Task, Status>
    ensures { result ≡ other_read state.now (map (λ word. word.now) words.now) }
{
    let [handle, code, word] = words else {
        return Err(Status::BadRequest);
    };
    let handle = id(b'h', handle)?;
    let (major, number) = read_major(code, word)?;
    asked(state, handle, FileRequest::Other { major, number })
}

// `otherv V MAJOR N`: and of a volume.
fn read_other_on_volume(state: &State, words: &[&[u8]]) -> Result<Task, Status>
    ensures { result ≡ other_on_volume_read state.now (map (λ word. word.now) words.now) }
{
    let [volume, code, word] = words else {
        return Err(Status::BadRequest);
    };
    let volume = id(b'v', volume)?;
    let (major, number) = read_major(code, word)?;
    let volume = volume_in(state, volume)?;
    Ok(Task::Event(Step::Begin(Request::OnVolume {
        volume,
        major,
        number,
    })))
}

// `fail N`.
fn read_fail(words: &[&[u8]]) -> Result<Task, Status>
    ensures { result ≡ fail_read (map (λ word. word.now) words.now) }
{
    let [word] = words else {
        return Err(Status::BadRequest);
    };
    Ok(Task::Fail(number(word)?))
}

// `failures`.
fn read_failures(words: &[&[u8]]) -> Result<Task, Status>
    ensures { result ≡ failures_read (map (λ word. word.now) words.now) }
{
    match words {
        [] => Ok(Task::Failures),
        _ => Err(Status::BadRequest),
    }
}

// A request on the handle that is the only word begins: `size H`, `flush H`, `delete H`, `cleanup H`, `close H`.
fn only_asked(state: &State, words: &[&[u8]], request: FileRequest) -> Result<Task, Status>
    ensures { result ≡ only_asked state.now (map (λ word. word.now) words.now) request }
{
    let [handle] = words else {
        return Err(Status::BadRequest);
    };
    let handle = id(b'h', handle)?;
    asked(state, handle, request)
}

// A request on a handle begins.
fn asked(state: &State, handle: u64, request: FileRequest) -> Result<Task, Status>
    ensures { result ≡ asked state.now handle request }
{
    let handle = handle_in(state, handle)?;
    Ok(Task::Event(Step::Begin(Request::OnHandle { handle, request })))
}

/// A length past all bounds stands for one that is past the limit, so that the event refuses it.
pub(crate) fn length_asked(len: u64) -> u32
    ensures { result ≡ length_asked len }
{
    u32::try_from(len).unwrap_or(u32::MAX)
}
