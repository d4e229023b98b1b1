//! The commands on contexts. A context is meant by its number in the order of allocation.

ghost use Rattle.std.specs.Prelude.{◌≡◌, [], map};
ghost use Rattle.fm_script.specs.ContextCommands.{allocate_read, bump_as, bump_at, bump_read, context_read, delete_as, delete_read, held_read, kind_of_read, kind_read, leaks_read, manner_read, mode_read, old_read, set_as, set_read, write_body_read};
ghost use Rattle.fm_script.specs.Tasks.{held_in};
ghost use Rattle.fm_script.specs.declared.keyword.Keyword.TheVariants as key;

use crate::command::{id, numbers, one_id, only_worker, two_ids, with_worker};
use crate::ids::{context_in, worker_in};
use crate::keyword::Keyword;
use crate::task::Task;
use fm_core::{SetMode, Step};
use fm_types::{Bytes, ContextKind, CtxId, Status, WorkerId};

/// What the words behind the keyword of a command on contexts stand for.
pub(crate) fn read_context_command(
    contexts: &[CtxId],
    keyword: Keyword,
    words: &[&[u8]],
) -> Result<Task, Status>
    ensures { result ≡ context_read contexts.now keyword (map (λ word. word.now) words.now) }
{
    match keyword {
        Keyword::Set => read_set(contexts, words),
        Keyword::Get => read_get(words),
        Keyword::Del => read_delete(words),
        Keyword::Ref => read_reference(contexts, words),
        Keyword::Rel => read_release(contexts, words),
        Keyword::Body => read_body(contexts, words),
        Keyword::Bump => read_bump(contexts, words),
        Keyword::Due => read_due(words),
        Keyword::Cleaned => read_cleaned(words),
        Keyword::Count => read_count(contexts, words),
        Keyword::Leaks => read_leaks(words),
        _ => Err(Status::BadRequest),
    }
}

// `get W KIND`.
fn read_get(words: &[&[u8]]) -> Result<Task, Status>
    ensures { result ≡ context_read [] key.Get (map (λ word. word.now) words.now) }
{
    let (worker, kind) = read_kind_of(words)?;
    Ok(Task::Event(Step::Get { worker, kind }))
}

// `ref W C`.
fn read_reference(contexts: &[CtxId], words: &[&[u8]]) -> Result<Task, Status>
    ensures { result ≡ context_read contexts.now key.Ref (map (λ word. word.now) words.now) }
{
    let (worker, context) = read_held(contexts, words)?;
    Ok(Task::Event(Step::Reference { worker, context }))
}

// `rel W C`.
fn read_release(contexts: &[CtxId], words: &[&[u8]]) -> Result<Task, Status>
    ensures { result ≡ context_read contexts.now key.Rel (map (λ word. word.now) words.now) }
{
    let (worker, context) = read_held(contexts, words)?;
    Ok(Task::Event(Step::Release { worker, context }))
}

// `body W C`.
fn read_body(contexts: &[CtxId], words: &[&[u8]]) -> Result<Task, Status>
    ensures { result ≡ context_read contexts.now key.Body (map (λ word. word.now) words.now) }
{
    let (worker, context) = read_held(contexts, words)?;
    Ok(Task::Event(Step::ReadBody { worker, context }))
}

// `due W`.
fn read_due(words: &[&[u8]]) -> Result<Task, Status>
    ensures { result ≡ context_read [] key.Due (map (λ word. word.now) words.now) }
{
    let worker = only_worker(words)?;
    Ok(Task::Event(Step::TakeDue { worker }))
}

// `cleaned W`.
fn read_cleaned(words: &[&[u8]]) -> Result<Task, Status>
    ensures { result ≡ context_read [] key.Cleaned (map (λ word. word.now) words.now) }
{
    let worker = only_worker(words)?;
    Ok(Task::Event(Step::Cleaned { worker, number: 0 }))
}

// `count C`.
fn read_count(contexts: &[CtxId], words: &[&[u8]]) -> Result<Task, Status>
    ensures { result ≡ context_read contexts.now key.Count (map (λ word. word.now) words.now) }
{
    let context = one_id(b'c', words)?;
    Ok(Task::Count(context_in(contexts, context)?))
}

/// A context and the worker that says it holds it.
pub(crate) fn held_by(
    contexts: &[CtxId],
    worker: u64,
    context: u64,
) -> Result<(WorkerId, CtxId), Status>
    ensures { result ≡ held_in contexts.now worker context }
{
    let context = context_in(contexts, context)?;
    let worker = worker_in(worker)?;
    Ok((worker, context))
}

// The same, as the only words: `ref W C`, `rel W C`, `body W C`.
fn read_held(contexts: &[CtxId], words: &[&[u8]]) -> Result<(WorkerId, CtxId), Status>
    ensures { result ≡ held_read contexts.now (map (λ word. word.now) words.now) }
{
    let [worker, context] = words else {
        return Err(Status::BadRequest);
    };
    let (worker, context) = two_ids(b'w', worker, b'c', context)?;
    held_by(contexts, worker, context)
}

// A worker and a kind of contexts, as the only words: `get W KIND`.
fn read_kind_of(words: &[&[u8]]) -> Result<(WorkerId, ContextKind), Status>
    ensures { result ≡ kind_of_read (map (λ word. word.now) words.now) }
{
    match words {
        [worker, kind] => with_worker(worker, read_kind(kind)),
        _ => Err(Status::BadRequest),
    }
}

/// `alloc W KIND HEX`: a context is allocated, with those bytes as its body.
pub(crate) fn read_allocate(words: &[&[u8]], bytes: Bytes) -> Result<Task, Status>
    ensures { result ≡ allocate_read (map (λ word. word.now) words.now) bytes }
{
    let (worker, kind) = read_kind_of(words)?;
    Ok(Task::Event(Step::Allocate {
        worker,
        kind,
        body: bytes,
    }))
}

/// `wbody W C HEX`: the body is written.
pub(crate) fn read_write_body(
    contexts: &[CtxId],
    words: &[&[u8]],
    bytes: Bytes,
) -> Result<Task, Status>
    ensures { result ≡ write_body_read contexts.now (map (λ word. word.now) words.now) bytes }
{
    let (worker, context) = read_held(contexts, words)?;
    Ok(Task::Event(Step::WriteBody {
        worker,
        context,
        bytes,
    }))
}

// `set W C MODE`, with `old` behind it or nothing.
fn read_set(contexts: &[CtxId], words: &[&[u8]]) -> Result<Task, Status>
    ensures { result ≡ set_read contexts.now (map (λ word. word.now) words.now) }
{
    match words {
        [worker, context, mode, rest @ ..] => set_as(contexts, worker, context, mode, rest),
        _ => Err(Status::BadRequest),
    }
}

#[tactic(auto, unfolding(crate::specs::ContextCommands::set_as))]
fn set_as(
    contexts: &[CtxId],
    worker: &[u8],
    context: &[u8],
    mode: &[u8],
    rest: &[&[u8]],
) -> Result<Task, Status>
    ensures { result ≡ set_as contexts.now worker.now context.now mode.now (map (λ word. word.now) rest.now) }
{
    let (worker, context) = two_ids(b'w', worker, b'c', context)?;
    let (mode, wants_old) = read_manner(mode, rest)?;
    let (worker, context) = held_by(contexts, worker, context)?;
    Ok(Task::Event(Step::Set {
        worker,
        context,
        mode,
        wants_old,
    }))
}

// How a context is set: the mode, and whether the old one is wanted.
fn read_manner(mode: &[u8], rest: &[&[u8]]) -> Result<(SetMode, bool), Status>
    ensures { result ≡ manner_read mode.now (map (λ word. word.now) rest.now) }
{
    Ok((read_mode(mode)?, read_old(rest)?))
}

// `del W KIND`, with `old` behind it or nothing.
fn read_delete(words: &[&[u8]]) -> Result<Task, Status>
    ensures { result ≡ delete_read (map (λ word. word.now) words.now) }
{
    match words {
        [worker, kind, rest @ ..] => delete_as(worker, kind, rest),
        _ => Err(Status::BadRequest),
    }
}

#[tactic(auto, unfolding(crate::specs::ContextCommands::delete_as))]
fn delete_as(worker: &[u8], kind: &[u8], rest: &[&[u8]]) -> Result<Task, Status>
    ensures { result ≡ delete_as worker.now kind.now (map (λ word. word.now) rest.now) }
{
    let worker = id(b'w', worker)?;
    let kind = read_kind(kind)?;
    let wants_old = read_old(rest)?;
    let worker = worker_in(worker)?;
    Ok(Task::Event(Step::Delete {
        worker,
        kind,
        wants_old,
    }))
}

// `bump W C PLACE BY`.
fn read_bump(contexts: &[CtxId], words: &[&[u8]]) -> Result<Task, Status>
    ensures { result ≡ bump_read contexts.now (map (λ word. word.now) words.now) }
{
    match words {
        [worker, context, place, by] => bump_as(contexts, worker, context, place, by),
        _ => Err(Status::BadRequest),
    }
}

#[tactic(auto, unfolding(crate::specs::ContextCommands::bump_as))]
fn bump_as(
    contexts: &[CtxId],
    worker: &[u8],
    context: &[u8],
    place: &[u8],
    by: &[u8],
) -> Result<Task, Status>
    ensures { result ≡ bump_as contexts.now worker.now context.now place.now by.now }
{
    let ids = two_ids(b'w', worker, b'c', context)?;
    let numbers = numbers(place, by)?;
    bump_at(contexts, ids, numbers)
}

#[tactic(auto, unfolding(crate::specs::ContextCommands::bump_at))]
fn bump_at(contexts: &[CtxId], ids: (u64, u64), numbers: (u64, u64)) -> Result<Task, Status>
    ensures { result ≡ bump_at contexts.now ids numbers }
{
    let (worker, context) = held_by(contexts, ids.0, ids.1)?;
    let (place, by) = numbers;
    Ok(Task::Event(Step::Bump {
        worker,
        context,
        place,
        by,
    }))
}

// `leaks`.
fn read_leaks(words: &[&[u8]]) -> Result<Task, Status>
    ensures { result ≡ leaks_read (map (λ word. word.now) words.now) }
{
    match words {
        [] => Ok(Task::Leaks),
        _ => Err(Status::BadRequest),
    }
}

// A kind of contexts, by its name.
fn read_kind(word: &[u8]) -> Result<ContextKind, Status>
    ensures { result ≡ kind_read word.now }
{
    if word == b"volume".as_slice() {
        Ok(ContextKind::Volume)
    } else if word == b"instance".as_slice() {
        Ok(ContextKind::Instance)
    } else if word == b"stream".as_slice() {
        Ok(ContextKind::Stream)
    } else if word == b"handle".as_slice() {
        Ok(ContextKind::Handle)
    } else if word == b"file".as_slice() {
        Ok(ContextKind::File)
    } else {
        Err(Status::BadRequest)
    }
}

// What to do where a context is set already.
fn read_mode(word: &[u8]) -> Result<SetMode, Status>
    ensures { result ≡ mode_read word.now }
{
    if word == b"keep".as_slice() {
        Ok(SetMode::Keep)
    } else if word == b"replace".as_slice() {
        Ok(SetMode::Replace)
    } else {
        Err(Status::BadRequest)
    }
}

// Whether the old context is wanted: `old`, or nothing.
fn read_old(words: &[&[u8]]) -> Result<bool, Status>
    ensures { result ≡ old_read (map (λ word. word.now) words.now) }
{
    match words {
        [] => Ok(false),
        [word] if *word == b"old".as_slice() => Ok(true),
        _ => Err(Status::BadRequest),
    }
}
