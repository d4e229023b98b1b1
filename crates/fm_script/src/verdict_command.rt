//! The commands that bring a verdict: that of a preoperation or a postoperation that returns, of a plan, and of an operation that is resumed.

ghost use Rattle.std.specs.Prelude.{◌≡◌, map};
ghost use Rattle.fm_script.specs.VerdictCommands.{AnswersBare, AnswersPre, Plans, ReadsAnswer, ReadsComplete, ReadsVerdict, Resumes, bare_verdict, done_or_more, own_verdict, post_read, pre_with_read, sends_context};

use crate::command::{id, turn_in, two_ids, with_worker};
use crate::context_command::held_by;
use crate::ids::{instance_in, worker_in};
use crate::task::Task;
use fm_callback_data::{Completion, PostVerdict, PreVerdict};
use fm_core::{State, Step};
use fm_types::{CtxId, Status};
use fm_words::read_status;

/// The verdict `with`: a script's completions carry the number 0, and no context that the line doesn't name.
pub const WITH: PreVerdict = PreVerdict::WithCallback(Completion {
    number: 0,
    context: None,
});

// The verdict `sync`.
const SYNC: PreVerdict = PreVerdict::Synchronize(Completion {
    number: 0,
    context: None,
});

/// `pre W ANSWER`.
pub(crate) fn read_pre(contexts: &[CtxId], words: &[&[u8]]) -> Result<Task, Status>
    ensures { AnswersPre contexts.now (map (λ word. word.now) words.now) result }
{
    if sends_context(words) {
        read_pre_with(contexts, words)
    } else {
        read_pre_bare(words)
    }
}

// Whether the words are those of an answer that sends a context along.
fn sends_context(words: &[&[u8]]) -> bool
    ensures { result ≡ sends_context (map (λ word. word.now) words.now) }
{
    match words {
        [_, word, _] => *word == b"with".as_slice(),
        _ => false,
    }
}

// `pre W with C`.
fn read_pre_with(contexts: &[CtxId], words: &[&[u8]]) -> Result<Task, Status>
    ensures { result ≡ pre_with_read contexts.now (map (λ word. word.now) words.now) }
{
    let [worker, _, context] = words else {
        return Err(Status::BadRequest);
    };
    let (worker, context) = two_ids(b'w', worker, b'c', context)?;
    let (worker, context) = held_by(contexts, worker, context)?;
    let context = Some(context);
    let verdict = PreVerdict::WithCallback(Completion { number: 0, context });
    Ok(Task::Pre { worker, verdict })
}

// `pre W ANSWER` without a context.
fn read_pre_bare(words: &[&[u8]]) -> Result<Task, Status>
    ensures { AnswersBare (map (λ word. word.now) words.now) result }
{
    let Some((worker, answer)) = words.split_first() else {
        return Err(Status::BadRequest);
    };
    let worker = id(b'w', worker)?;
    let verdict = read_answer(answer)?;
    let worker = worker_in(worker)?;
    Ok(Task::Pre { worker, verdict })
}

/// `plan I ANSWER`.
pub(crate) fn read_plan(state: &State, words: &[&[u8]]) -> Result<Task, Status>
    ensures { Plans state.now (map (λ word. word.now) words.now) result }
{
    let Some((instance, answer)) = words.split_first() else {
        return Err(Status::BadRequest);
    };
    let instance = id(b'i', instance)?;
    let verdict = read_answer(answer)?;
    let instance = instance_in(state, instance)?;
    Ok(Task::Plan { instance, verdict })
}

/// `post W done`, or `more`.
pub(crate) fn read_post(words: &[&[u8]]) -> Result<Task, Status>
    ensures { result ≡ post_read (map (λ word. word.now) words.now) }
{
    let [worker, verdict] = words else {
        return Err(Status::BadRequest);
    };
    let (worker, verdict) = with_worker(worker, done_or_more(verdict))?;
    Ok(Task::Post { worker, verdict })
}

/// `resume W O VERDICT`: a held operation goes on.
pub(crate) fn read_resume(state: &State, words: &[&[u8]]) -> Result<Task, Status>
    ensures { Resumes state.now (map (λ word. word.now) words.now) result }
{
    let [worker, operation, verdict @ ..] = words else {
        return Err(Status::BadRequest);
    };
    let (worker, operation) = two_ids(b'w', worker, b'o', operation)?;
    let verdict = read_verdict(verdict)?;
    let (worker, operation) = turn_in(state, worker, operation)?;
    Ok(Task::Event(Step::ResumePre {
        worker,
        operation,
        verdict,
    }))
}

// What a preoperation answers as it returns: a verdict by which the operation goes on, or one of its own.
fn read_answer(words: &[&[u8]]) -> Result<PreVerdict, Status>
    ensures { ReadsAnswer (map (λ word. word.now) words.now) result }
{
    match own_verdict(words) {
        Some(verdict) => Ok(verdict),
        None => read_verdict(words),
    }
}

// `pend` or `sync`.
fn own_verdict(words: &[&[u8]]) -> Option<PreVerdict>
    ensures { result ≡ own_verdict (map (λ word. word.now) words.now) }
{
    match words {
        [word] if *word == b"pend".as_slice() => Some(PreVerdict::Pending),
        [word] if *word == b"sync".as_slice() => Some(SYNC),
        _ => None,
    }
}

// `with`, `none` or `complete STATUS`.
fn read_verdict(words: &[&[u8]]) -> Result<PreVerdict, Status>
    ensures { ReadsVerdict (map (λ word. word.now) words.now) result }
{
    match words {
        [word] => read_bare_verdict(word),
        [word, status] if *word == b"complete".as_slice() => read_complete(status),
        _ => Err(Status::BadRequest),
    }
}

// A verdict of one word.
fn read_bare_verdict(word: &[u8]) -> Result<PreVerdict, Status>
    ensures { result ≡ bare_verdict word.now }
{
    if word == b"with".as_slice() {
        Ok(WITH)
    } else if word == b"none".as_slice() {
        Ok(PreVerdict::NoCallback)
    } else {
        Err(Status::BadRequest)
    }
}

// The operation ends with the status of that number, from 0 to 33.
fn read_complete(word: &[u8]) -> Result<PreVerdict, Status>
    ensures { ReadsComplete word.now result }
{
    match read_status(word) {
        Some(status) => Ok(PreVerdict::Complete(status)),
        None => Err(Status::BadRequest),
    }
}

// The postoperation is finished, or holds the operation.
fn done_or_more(word: &[u8]) -> Result<PostVerdict, Status>
    ensures { result ≡ done_or_more word.now }
{
    if word == b"done".as_slice() {
        Ok(PostVerdict::Finished)
    } else if word == b"more".as_slice() {
        Ok(PostVerdict::MoreProcessing)
    } else {
        Err(Status::BadRequest)
    }
}
