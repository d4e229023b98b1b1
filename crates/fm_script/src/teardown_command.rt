//! The commands by which instances are detached, routines entered, filters unloaded and volumes dismounted, and what is in flight at an instance.

ghost use Rattle.std.specs.Prelude.{◌≡◌, map};
ghost use Rattle.fm_script.specs.TeardownCommands.{worker_and_instance, asked_filter, asked_instance, worker_and_filter, only_filter, enter_on, enter_read, teardown_read};

use crate::command::{id, one_id, only_instance, only_volume, only_worker, read_answered, two_ids};
use crate::ids::{filter_in, handle_in, instance_in, worker_in};
use crate::keyword::Keyword;
use crate::task::Task;
use fm_core::{State, Step};
use fm_types::{FilterId, InstanceId, Status, WorkerId};

/// What the words behind the keyword of a command of a detach, an unload or a dismount stand for.
pub(crate) fn read_teardown_command(
    state: &State,
    keyword: Keyword,
    words: &[&[u8]],
) -> Result<Task, Status>
    ensures { result ≡ teardown_read state.now keyword (map (λ word. word.now) words.now) }
{
    match keyword {
        Keyword::Query => {
            let (worker, instance) = read_asked_instance(state, words)?;
            Ok(Task::Event(Step::AskDetach { worker, instance }))
        }
        Keyword::Queried => {
            let (worker, allow) = read_answered(words)?;
            Ok(Task::Event(Step::QueryReturned { worker, allow }))
        }
        Keyword::Start => {
            let (worker, instance) = read_asked_instance(state, words)?;
            Ok(Task::Event(Step::StartTeardown { worker, instance }))
        }
        Keyword::Started => Ok(Task::Event(Step::StartReturned {
            worker: only_worker(words)?,
        })),
        Keyword::Complete => {
            let (worker, instance) = read_asked_instance(state, words)?;
            Ok(Task::Event(Step::CompleteTeardown { worker, instance }))
        }
        Keyword::Completed => Ok(Task::Event(Step::CompleteReturned {
            worker: only_worker(words)?,
        })),
        Keyword::Enter => read_enter(state, words),
        Keyword::Left => Ok(Task::Event(Step::RoutineReturned {
            worker: only_worker(words)?,
        })),
        Keyword::Finish => Ok(Task::Event(Step::Finish {
            instance: only_instance(state, words)?,
        })),
        Keyword::Unload => {
            let (worker, filter) = read_asked_filter(state, words)?;
            Ok(Task::Event(Step::AskUnload { worker, filter }))
        }
        Keyword::Unloaded => {
            let (worker, allow) = read_answered(words)?;
            Ok(Task::Event(Step::UnloadReturned { worker, allow }))
        }
        Keyword::EmptyF => Ok(Task::Event(Step::EmptyFilter {
            filter: only_filter(state, words)?,
        })),
        Keyword::FinishF => Ok(Task::Event(Step::FinishFilter {
            filter: only_filter(state, words)?,
        })),
        Keyword::Drain => {
            let (worker, instance) = read_asked_instance(state, words)?;
            Ok(Task::Event(Step::DrainTake { worker, instance }))
        }
        Keyword::Drained => Ok(Task::Event(Step::DrainDone {
            worker: only_worker(words)?,
        })),
        Keyword::Dismount => Ok(Task::Event(Step::StartDismount {
            volume: only_volume(state, words)?,
        })),
        Keyword::Drop => Ok(Task::Event(Step::DropHandle {
            volume: only_volume(state, words)?,
        })),
        Keyword::EmptyV => Ok(Task::Event(Step::EmptyVolume {
            volume: only_volume(state, words)?,
        })),
        Keyword::FinishV => Ok(Task::Event(Step::FinishVolume {
            volume: only_volume(state, words)?,
        })),
        Keyword::Flight => Ok(Task::Flight(only_instance(state, words)?)),
        _ => Err(Status::BadRequest),
    }
}

// A worker and the instance whose callback it enters.
fn worker_and_instance(
    state: &State,
    worker: u64,
    instance: u64,
) -> Result<(WorkerId, InstanceId), Status>
    ensures { result ≡ worker_and_instance state.now worker instance }
{
    let instance = instance_in(state, instance)?;
    Ok((worker_in(worker)?, instance))
}

// The same, as the only words.
fn read_asked_instance(state: &State, words: &[&[u8]]) -> Result<(WorkerId, InstanceId), Status>
    ensures { result ≡ asked_instance state.now (map (λ word. word.now) words.now) }
{
    let [worker, instance] = words else {
        return Err(Status::BadRequest);
    };
    let (worker, instance) = two_ids(b'w', worker, b'i', instance)?;
    worker_and_instance(state, worker, instance)
}

// `enter W I` or `enter W I H`: a routine of the instance, on no file or on that of the handle.
fn read_enter(state: &State, words: &[&[u8]]) -> Result<Task, Status>
    ensures { result ≡ enter_read state.now (map (λ word. word.now) words.now) }
{
    match words {
        [worker, instance] => {
            let (worker, instance) = two_ids(b'w', worker, b'i', instance)?;
            let (worker, instance) = worker_and_instance(state, worker, instance)?;
            let handle = None;
            Ok(Task::Event(Step::EnterRoutine {
                worker,
                instance,
                handle,
            }))
        }
        [worker, instance, handle] => enter_on(state, worker, instance, handle),
        _ => Err(Status::BadRequest),
    }
}

fn enter_on(state: &State, worker: &[u8], instance: &[u8], handle: &[u8]) -> Result<Task, Status>
    ensures { result ≡ enter_on state.now worker.now instance.now handle.now }
{
    let (worker, instance) = two_ids(b'w', worker, b'i', instance)?;
    let handle = id(b'h', handle)?;
    let handle = Some(handle_in(state, handle)?);
    let (worker, instance) = worker_and_instance(state, worker, instance)?;
    Ok(Task::Event(Step::EnterRoutine {
        worker,
        instance,
        handle,
    }))
}

// A worker and the filter whose callback it enters.
fn worker_and_filter(
    state: &State,
    worker: u64,
    filter: u64,
) -> Result<(WorkerId, FilterId), Status>
    ensures { result ≡ worker_and_filter state.now worker filter }
{
    let filter = filter_in(state, filter)?;
    Ok((worker_in(worker)?, filter))
}

// The same, as the only words.
fn read_asked_filter(state: &State, words: &[&[u8]]) -> Result<(WorkerId, FilterId), Status>
    ensures { result ≡ asked_filter state.now (map (λ word. word.now) words.now) }
{
    let [worker, filter] = words else {
        return Err(Status::BadRequest);
    };
    let (worker, filter) = two_ids(b'w', worker, b'f', filter)?;
    worker_and_filter(state, worker, filter)
}

// The filter that is the only word.
fn only_filter(state: &State, words: &[&[u8]]) -> Result<FilterId, Status>
    ensures { result ≡ only_filter state.now (map (λ word. word.now) words.now) }
{
    let filter = one_id(b'f', words)?;
    filter_in(state, filter)
}
