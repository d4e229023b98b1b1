//! The commands of the script language: what the words of a line stand for. First all words are read, 32 (BadRequest) where there is another number of
//! them or one can't be read, and 3 (BadName), 2 (BadAltitude) or 15 (BadPath) where a name, an altitude or a path is refused by its reader; then an id
//! that wasn't given is refused: 6, 7, 8, 14, 30 and 25 in this order, and 30 for a worker last.

ghost use Rattle.std.specs.Prelude.{◌≡◌, IfOk, map};
ghost use Rattle.fm_script.specs.Commands.{at_base_read, at_top_read, begun_from, below_read, request_read, span_read, size_read, other_params_read, params_read, change_held_read, Attaches, Creates, Loads, Mounts, ReadsAs, ReadsCreate, ReadsPlace, SetsUp, attach_at, base_read, collect_read, create_at, create_ids, create_mode_read, go_read, is_create, is_of_contexts, is_of_teardowns, list_read, next_read, option_read, phase_read, registration_read, resume_post_read, setup_at, setup_done_read, setup_ids, takes_bytes, turn_read, with_bytes_read};
ghost use Rattle.fm_words.specs.Numbers.{id_read, number_read};
ghost use Rattle.fm_script.specs.Tasks.{answered_read, ids_read, numbers_read, one_id, only_instance, only_volume, only_worker, or_bad, turn_in, with_worker, yes_or_no};

use crate::context_command::{read_allocate, read_context_command, read_write_body};
use crate::file_command::{length_asked, read_file_command, read_major, read_write};
use crate::ids::{filter_in, instance_in, operation_in, volume_in, worker_in};
use crate::keyword::Keyword;
use crate::task::Task;
use crate::teardown_command::read_teardown_command;
use crate::verdict_command::{read_plan, read_post, read_pre, read_resume};
use fm_altitude::Altitude;
use fm_callback_data::{Params, Request};
use fm_core::{BeginsFrom, State, Step};
use fm_types::{
    Bytes, ContextMask, CreateMode, CtxId, InstanceId, Name, OpId, OpMask, Registration, RelPath,
    SharedPath, Status, VolumeId, WorkerId,
};
use fm_words::{read_id, read_number};
use std::alloc::{AllocError, Global};

/// Whether the command's last word is bytes.
pub fn takes_bytes(keyword: Keyword) -> bool
    ensures { result ≡ takes_bytes keyword }
{
    matches!(keyword, Keyword::Alloc | Keyword::WBody | Keyword::Write)
}

/// Whether the command is `create`, whose path takes memory as it is read.
pub fn is_create(keyword: Keyword) -> bool
    ensures { result ≡ is_create keyword }
{
    matches!(keyword, Keyword::Create)
}

/// What the words behind the keyword of a command that takes bytes stand for, with those bytes.
pub fn read_with_bytes(
    state: &State,
    contexts: &[CtxId],
    keyword: Keyword,
    words: &[&[u8]],
    bytes: Bytes,
) -> Result<Task, Status>
    ensures { result ≡ with_bytes_read state.now contexts.now keyword (map (λ word. word.now) words.now) bytes }
{
    match keyword {
        Keyword::Alloc => read_allocate(words, bytes),
        Keyword::WBody => read_write_body(contexts, words, bytes),
        _ => read_write(state, words, bytes),
    }
}

/// What the words behind the keyword of any other command stand for, unless it is `create`.
pub fn read_command(
    state: &State,
    contexts: &[CtxId],
    keyword: Keyword,
    words: &[&[u8]],
) -> Result<Task, Status>
    ensures { ReadsAs state.now contexts.now keyword (map (λ word. word.now) words.now) result }
{
    match keyword {
        Keyword::Load => read_load(words),
        Keyword::Mount => read_mount(words),
        Keyword::Attach => read_attach(state, words),
        Keyword::Setup => read_setup(state, words),
        Keyword::SetDone => read_setup_done(words),
        Keyword::List => read_list(state, words),
        Keyword::Next => read_next(state, words),
        Keyword::Go => read_go(state, words),
        Keyword::Pre => read_pre(contexts, words),
        Keyword::Base => read_base(words),
        Keyword::Post => read_post(words),
        Keyword::Plan => read_plan(state, words),
        Keyword::Resume => read_resume(state, words),
        Keyword::ResPost => read_resume_post(state, words),
        Keyword::Collect => read_collect(state, words),
        Keyword::Phase => read_phase(state, words),
        Keyword::Below => read_below(state, words),
        Keyword::AtBase => read_at_base(state, words),
        Keyword::AtTop => read_at_top(state, words),
        Keyword::ChangeHeld => read_change_held(state, words),
        other if is_of_contexts(other) => read_context_command(contexts, other, words),
        other if is_of_teardowns(other) => read_teardown_command(state, other, words),
        other => read_file_command(state, other, words),
    }
}

// `setdone`: a setup callback returns.
fn read_setup_done(words: &[&[u8]]) -> Result<Task, Status>
    ensures { result ≡ setup_done_read (map (λ word. word.now) words.now) }
{
    let (worker, accept) = read_answered(words)?;
    Ok(Task::Event(Step::SetupDone { worker, accept }))
}

// `next`: a worker takes one step of an operation.
fn read_next(state: &State, words: &[&[u8]]) -> Result<Task, Status>
    ensures { result ≡ next_read state.now (map (λ word. word.now) words.now) }
{
    let (worker, operation) = read_turn(state, words)?;
    Ok(Task::Next { worker, operation })
}

// `go`: a worker takes an operation's steps.
fn read_go(state: &State, words: &[&[u8]]) -> Result<Task, Status>
    ensures { result ≡ go_read state.now (map (λ word. word.now) words.now) }
{
    let (worker, operation) = read_turn(state, words)?;
    Ok(Task::Go { worker, operation })
}

// `base`: a base call is carried out.
fn read_base(words: &[&[u8]]) -> Result<Task, Status>
    ensures { result ≡ base_read (map (λ word. word.now) words.now) }
{
    Ok(Task::Base {
        worker: only_worker(words)?,
    })
}

// `respost`: a held postoperation goes on.
fn read_resume_post(state: &State, words: &[&[u8]]) -> Result<Task, Status>
    ensures { result ≡ resume_post_read state.now (map (λ word. word.now) words.now) }
{
    let (worker, operation) = read_turn(state, words)?;
    Ok(Task::Event(Step::ResumePost { worker, operation }))
}

// `phase`: an instance's phase is told.
fn read_phase(state: &State, words: &[&[u8]]) -> Result<Task, Status>
    ensures { result ≡ phase_read state.now (map (λ word. word.now) words.now) }
{
    Ok(Task::Phase(only_instance(state, words)?))
}

// A request but a create and a write.
fn read_request(state: &State, words: &[&[u8]]) -> Result<Task, Status>
    ensures { result ≡ request_read state.now (map (λ word. word.now) words.now) }
{
    let Some((keyword, words)) = words.split_first() else {
        return Err(Status::BadRequest);
    };
    match Keyword::read(keyword) {
        None => Err(Status::BadRequest),
        Some(Keyword::List) => read_list(state, words),
        Some(other) => read_file_command(state, other, words),
    }
}

// A filter's own request begins there.
fn begun_from(from: BeginsFrom, asked: Task) -> Result<Task, Status>
    ensures { result ≡ begun_from from asked }
{
    match asked {
        Task::Event(Step::Begin(what)) => Ok(Task::Event(Step::BeginFrom(from, what))),
        _ => Err(Status::BadRequest),
    }
}

// `below I REQUEST`: a filter's own request begins below its instance.
fn read_below(state: &State, words: &[&[u8]]) -> Result<Task, Status>
    ensures { result ≡ below_read state.now (map (λ word. word.now) words.now) }
{
    let Some((instance, words)) = words.split_first() else {
        return Err(Status::BadRequest);
    };
    let instance = id(b'i', instance)?;
    let asked = read_request(state, words)?;
    let instance = instance_in(state, instance)?;
    begun_from(BeginsFrom::Below(instance), asked)
}

// `atbase I REQUEST`: it begins at the base. Without the instance the file system asks.
fn read_at_base(state: &State, words: &[&[u8]]) -> Result<Task, Status>
    ensures { result ≡ at_base_read state.now (map (λ word. word.now) words.now) }
{
    let Some((first, rest)) = words.split_first() else {
        return Err(Status::BadRequest);
    };
    match id(b'i', first) {
        Ok(instance) => {
            let asked = read_request(state, rest)?;
            let instance = instance_in(state, instance)?;
            begun_from(BeginsFrom::Base(instance), asked)
        }
        Err(_) => {
            let asked = read_request(state, words)?;
            begun_from(BeginsFrom::FileSystem, asked)
        }
    }
}

// `attop REQUEST`: it begins at the top, as the cache or memory manager asks.
fn read_at_top(state: &State, words: &[&[u8]]) -> Result<Task, Status>
    ensures { result ≡ at_top_read state.now (map (λ word. word.now) words.now) }
{
    let asked = read_request(state, words)?;
    begun_from(BeginsFrom::Top, asked)
}

// `read OFFSET LEN`, without a handle.
fn read_span(words: &[&[u8]]) -> Result<Params, Status>
    ensures { result ≡ span_read (map (λ word. word.now) words.now) }
{
    let [offset, len] = words else {
        return Err(Status::BadRequest);
    };
    let (offset, len) = numbers(offset, len)?;
    let len = length_asked(len);
    Ok(Params::Read { offset, len })
}

// `setsize N`.
fn read_size(words: &[&[u8]]) -> Result<Params, Status>
    ensures { result ≡ size_read (map (λ word. word.now) words.now) }
{
    let [size] = words else {
        return Err(Status::BadRequest);
    };
    let size = number(size)?;
    Ok(Params::SetSize { size })
}

// `other MAJOR N`.
fn read_other_params(words: &[&[u8]]) -> Result<Params, Status>
    ensures { result ≡ other_params_read (map (λ word. word.now) words.now) }
{
    let [code, word] = words else {
        return Err(Status::BadRequest);
    };
    let (major, number) = read_major(code, word)?;
    Ok(Params::Other { major, number })
}

// The parameters that such words spell.
fn read_params(keyword: Option<Keyword>, words: &[&[u8]]) -> Result<Params, Status>
    ensures { result ≡ params_read keyword (map (λ word. word.now) words.now) }
{
    match keyword {
        Some(Keyword::Read) => read_span(words),
        Some(Keyword::SetSize) => read_size(words),
        Some(Keyword::Other) => read_other_params(words),
        _ => Err(Status::BadRequest),
    }
}

// `change_held W O PARAMS`: other parameters of a held operation go down.
fn read_change_held(state: &State, words: &[&[u8]]) -> Result<Task, Status>
    ensures { result ≡ change_held_read state.now (map (λ word. word.now) words.now) }
{
    let [worker, operation, word, words @ ..] = words else {
        return Err(Status::BadRequest);
    };
    let (worker, operation) = two_ids(b'w', worker, b'o', operation)?;
    let params = read_params(Keyword::read(word), words)?;
    let (worker, operation) = turn_in(state, worker, operation)?;
    Ok(Task::Event(Step::ChangeHeld {
        worker,
        operation,
        params,
    }))
}

// Whether the command is on contexts.
fn is_of_contexts(keyword: Keyword) -> bool
    ensures { result ≡ is_of_contexts keyword }
{
    matches!(
        keyword,
        Keyword::Set
            | Keyword::Get
            | Keyword::Del
            | Keyword::Ref
            | Keyword::Rel
            | Keyword::Body
            | Keyword::Bump
            | Keyword::Due
            | Keyword::Cleaned
            | Keyword::Count
            | Keyword::Leaks,
    )
}

// Whether it is of a detach, a routine, an unload or a dismount.
fn is_of_teardowns(keyword: Keyword) -> bool
    ensures { result ≡ is_of_teardowns keyword }
{
    matches!(
        keyword,
        Keyword::Query
            | Keyword::Queried
            | Keyword::Start
            | Keyword::Started
            | Keyword::Complete
            | Keyword::Completed
            | Keyword::Enter
            | Keyword::Left
            | Keyword::Finish
            | Keyword::Unload
            | Keyword::Unloaded
            | Keyword::EmptyF
            | Keyword::FinishF
            | Keyword::Flight
            | Keyword::Drain
            | Keyword::Drained
            | Keyword::Dismount
            | Keyword::Drop
            | Keyword::EmptyV
            | Keyword::FinishV,
    )
}

// `load NAME`, with `only-pre`, `only-post` or `bare` behind it or nothing.
fn read_load(words: &[&[u8]]) -> Result<Task, Status>
    ensures { Loads (map (λ word. word.now) words.now) result }
{
    let Some((name, options)) = words.split_first() else {
        return Err(Status::BadRequest);
    };
    let registration = read_registration(options)?;
    let name = Name::read(name)?;
    Ok(Task::Event(Step::Register { name, registration }))
}

// What a filter registers for: all, but for what an option leaves out.
fn read_registration(options: &[&[u8]]) -> Result<Registration, Status>
    ensures { result ≡ registration_read (map (λ word. word.now) options.now) }
{
    match options {
        [] => Ok(Registration {
            pre: OpMask::ALL,
            post: OpMask::ALL,
            contexts: ContextMask::ALL,
            query: true,
            unload: true,
        }),
        [option] => read_option(option),
        _ => Err(Status::BadRequest),
    }
}

// `only-pre`, `only-post` or `bare`.
fn read_option(option: &[u8]) -> Result<Registration, Status>
    ensures { result ≡ option_read option.now }
{
    let is_bare = option == b"bare".as_slice();
    let (pre, post) = if option == b"only-pre".as_slice() {
        (OpMask::ALL, OpMask::NONE)
    } else if option == b"only-post".as_slice() {
        (OpMask::NONE, OpMask::ALL)
    } else if is_bare {
        (OpMask::ALL, OpMask::ALL)
    } else {
        return Err(Status::BadRequest);
    };
    let contexts = if is_bare {
        ContextMask::NONE
    } else {
        ContextMask::ALL
    };
    Ok(Registration {
        pre,
        post,
        contexts,
        query: !is_bare,
        unload: !is_bare,
    })
}

// `mount NAME`.
fn read_mount(words: &[&[u8]]) -> Result<Task, Status>
    ensures { Mounts (map (λ word. word.now) words.now) result }
{
    let [name] = words else {
        return Err(Status::BadRequest);
    };
    let name = Name::read(name)?;
    Ok(Task::Event(Step::Mount { name }))
}

// `attach F V NAME ALTITUDE`.
fn read_attach(state: &State, words: &[&[u8]]) -> Result<Task, Status>
    ensures { Attaches state.now (map (λ word. word.now) words.now) result }
{
    let [filter, volume, name, altitude] = words else {
        return Err(Status::BadRequest);
    };
    let (filter, volume) = two_ids(b'f', filter, b'v', volume)?;
    let (name, altitude) = read_place(name, altitude)?;
    attach_at(state, filter, volume, name, altitude)
}

#[tactic(auto, unfolding(crate::specs::Commands::attach_at))]
fn attach_at(
    state: &State,
    filter: u64,
    volume: u64,
    name: Name,
    altitude: Altitude,
) -> Result<Task, Status>
    ensures { result ≡ attach_at state.now filter volume name altitude }
{
    let filter = filter_in(state, filter)?;
    let volume = volume_in(state, volume)?;
    Ok(Task::Attach {
        filter,
        volume,
        name,
        altitude,
    })
}

// `setup W F V NAME ALTITUDE`.
fn read_setup(state: &State, words: &[&[u8]]) -> Result<Task, Status>
    ensures { SetsUp state.now (map (λ word. word.now) words.now) result }
{
    let [worker, filter, volume, name, altitude] = words else {
        return Err(Status::BadRequest);
    };
    let ids = setup_ids(worker, filter, volume)?;
    let (name, altitude) = read_place(name, altitude)?;
    setup_at(state, ids, name, altitude)
}

#[tactic(auto, unfolding(crate::specs::Commands::setup_at))]
fn setup_at(
    state: &State,
    ids: (u64, u64, u64),
    name: Name,
    altitude: Altitude,
) -> Result<Task, Status>
    ensures { result ≡ setup_at state.now ids name altitude }
{
    let (worker, filter, volume) = ids;
    let filter = filter_in(state, filter)?;
    let volume = volume_in(state, volume)?;
    let worker = worker_in(worker)?;
    Ok(Task::Event(Step::Attach {
        worker,
        filter,
        volume,
        name,
        altitude,
    }))
}

// The numbers of a worker, a filter and a volume.
#[tactic(auto, unfolding(crate::specs::Commands::setup_ids))]
fn setup_ids(worker: &[u8], filter: &[u8], volume: &[u8]) -> Result<(u64, u64, u64), Status>
    ensures { result ≡ setup_ids worker.now filter.now volume.now }
{
    let worker = id(b'w', worker)?;
    let (filter, volume) = two_ids(b'f', filter, b'v', volume)?;
    Ok((worker, filter, volume))
}

// An instance's name and altitude.
fn read_place(name: &[u8], altitude: &[u8]) -> Result<(Name, Altitude), Status>
    ensures { ReadsPlace name.now altitude.now result }
{
    let name = Name::read(name)?;
    let altitude = Altitude::read(altitude)?;
    Ok((name, altitude))
}

/// A worker, and whether its callback agrees: `W yes`, or `no`, as the only words.
pub(crate) fn read_answered(words: &[&[u8]]) -> Result<(WorkerId, bool), Status>
    ensures { result ≡ answered_read (map (λ word. word.now) words.now) }
{
    match words {
        [worker, answer] => with_worker(worker, yes_or_no(answer)),
        _ => Err(Status::BadRequest),
    }
}

/// A worker, and what was read behind it.
#[tactic(auto, unfolding(crate::specs::Tasks::with_worker))]
pub(crate) fn with_worker<T: Copy>(
    worker: &[u8],
    read: Result<T, Status>,
) -> Result<(WorkerId, T), Status>
    ensures { result ≡ with_worker worker.now read }
{
    let worker = id(b'w', worker)?;
    let it = read?;
    Ok((worker_in(worker)?, it))
}

fn yes_or_no(word: &[u8]) -> Result<bool, Status>
    ensures { result ≡ yes_or_no word.now }
{
    if word == b"yes".as_slice() {
        Ok(true)
    } else if word == b"no".as_slice() {
        Ok(false)
    } else {
        Err(Status::BadRequest)
    }
}

/// `create V PATH MODE`. It fails if there is no memory for the path.
#[inline(never)]
pub fn read_create(
    alloc: Global,
    state: &State,
    words: &[&[u8]],
) -> Result<Result<Task, Status>, AllocError>
    ensures { IfOk result (Creates state.now (map (λ word. word.now) words.now)) }
{
    match read_create_words(words) {
        Ok((ids, path)) => create_at(alloc, state, ids, path),
        Err(status) => Ok(Err(status)),
    }
}

// The number of a volume, a mode and a path.
fn read_create_words(words: &[&[u8]]) -> Result<((u64, CreateMode), RelPath), Status>
    ensures { ReadsCreate (map (λ word. word.now) words.now) result }
{
    let [volume, path, mode] = words else {
        return Err(Status::BadRequest);
    };
    let ids = create_ids(volume, mode)?;
    let path = RelPath::read(path)?;
    Ok((ids, path))
}

// A create of a path that was read, on a volume that may not be there.
fn create_at(
    alloc: Global,
    state: &State,
    ids: (u64, CreateMode),
    path: RelPath,
) -> Result<Result<Task, Status>, AllocError>
    ensures { IfOk result (λ read. read ≡ create_at state.now ids path) }
{
    let (volume, mode) = ids;
    let volume = match volume_in(state, volume) {
        Ok(volume) => volume,
        Err(status) => return Ok(Err(status)),
    };
    let path = SharedPath::new(alloc, path)?;
    Ok(Ok(Task::Event(Step::Begin(Request::Create { volume, path, mode }))))
}

// The number of a volume, and a mode.
fn create_ids(volume: &[u8], mode: &[u8]) -> Result<(u64, CreateMode), Status>
    ensures { result ≡ create_ids volume.now mode.now }
{
    Ok((id(b'v', volume)?, read_create_mode(mode)?))
}

// What a create does with a file that is there: `existing`, `new` or `always`.
fn read_create_mode(word: &[u8]) -> Result<CreateMode, Status>
    ensures { result ≡ create_mode_read word.now }
{
    if word == b"existing".as_slice() {
        Ok(CreateMode::Existing)
    } else if word == b"new".as_slice() {
        Ok(CreateMode::New)
    } else if word == b"always".as_slice() {
        Ok(CreateMode::Always)
    } else {
        Err(Status::BadRequest)
    }
}

// `list V`.
fn read_list(state: &State, words: &[&[u8]]) -> Result<Task, Status>
    ensures { result ≡ list_read state.now (map (λ word. word.now) words.now) }
{
    let volume = only_volume(state, words)?;
    Ok(Task::Event(Step::Begin(Request::List { volume })))
}

// A worker and an operation, as the only words behind `next`, `go` and `respost`.
fn read_turn(state: &State, words: &[&[u8]]) -> Result<(WorkerId, OpId), Status>
    ensures { result ≡ turn_read state.now (map (λ word. word.now) words.now) }
{
    let [worker, operation] = words else {
        return Err(Status::BadRequest);
    };
    let (worker, operation) = two_ids(b'w', worker, b'o', operation)?;
    turn_in(state, worker, operation)
}

/// The numbers of two ids, each behind its letter.
#[tactic(auto, unfolding(crate::specs::Tasks::ids_read))]
pub(crate) fn two_ids(first: u8, one: &[u8], second: u8, other: &[u8]) -> Result<(u64, u64), Status>
    ensures { result ≡ ids_read first one.now second other.now }
{
    Ok((id(first, one)?, id(second, other)?))
}

/// An operation and the worker that takes a turn with it.
pub(crate) fn turn_in(
    state: &State,
    worker: u64,
    operation: u64,
) -> Result<(WorkerId, OpId), Status>
    ensures { result ≡ turn_in state.now worker operation }
{
    let operation = operation_in(state, operation)?;
    Ok((worker_in(worker)?, operation))
}

// `collect O`.
fn read_collect(state: &State, words: &[&[u8]]) -> Result<Task, Status>
    ensures { result ≡ collect_read state.now (map (λ word. word.now) words.now) }
{
    let operation = one_id(b'o', words)?;
    let operation = operation_in(state, operation)?;
    Ok(Task::Event(Step::Collect { operation }))
}

/// The worker that is the only word.
pub(crate) fn only_worker(words: &[&[u8]]) -> Result<WorkerId, Status>
    ensures { result ≡ only_worker (map (λ word. word.now) words.now) }
{
    let worker = one_id(b'w', words)?;
    worker_in(worker)
}

/// The volume that is the only word.
pub(crate) fn only_volume(state: &State, words: &[&[u8]]) -> Result<VolumeId, Status>
    ensures { result ≡ only_volume state.now (map (λ word. word.now) words.now) }
{
    let volume = one_id(b'v', words)?;
    volume_in(state, volume)
}

/// The instance that is the only word.
pub(crate) fn only_instance(state: &State, words: &[&[u8]]) -> Result<InstanceId, Status>
    ensures { result ≡ only_instance state.now (map (λ word. word.now) words.now) }
{
    let instance = one_id(b'i', words)?;
    instance_in(state, instance)
}

/// The id that is the only word.
pub(crate) fn one_id(letter: u8, words: &[&[u8]]) -> Result<u64, Status>
    ensures { result ≡ one_id letter (map (λ word. word.now) words.now) }
{
    let [word] = words else {
        return Err(Status::BadRequest);
    };
    id(letter, word)
}

/// The number of an id, or 32 where the word is no id of that letter.
pub(crate) fn id(letter: u8, word: &[u8]) -> Result<u64, Status>
    ensures { result ≡ or_bad (id_read letter word.now) }
{
    read_id(letter, word).ok_or(Status::BadRequest)
}

/// Two numbers.
#[tactic(auto, unfolding(crate::specs::Tasks::numbers_read))]
pub(crate) fn numbers(one: &[u8], other: &[u8]) -> Result<(u64, u64), Status>
    ensures { result ≡ numbers_read one.now other.now }
{
    Ok((number(one)?, number(other)?))
}

/// The number that a word is, or 32.
pub(crate) fn number(word: &[u8]) -> Result<u64, Status>
    ensures { result ≡ or_bad (number_read word.now) }
{
    read_number(word).ok_or(Status::BadRequest)
}
