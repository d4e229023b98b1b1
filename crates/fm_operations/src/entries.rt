//! The entries of an operation: who asked, and callbacks that are settled.

ghost use Rattle.std.specs.Prelude.{◌≡◌, ◌<◌, [], ◌∷◌, ◌++◌, length, drop, true, map, count_by, position, vec_capacity, slice_get, Some, option_map};
ghost use Rattle.std.specs.List.{list_any};
ghost use Rattle.fm_operations.specs.Entries.{ask_of, asks, ask_at, is_open, settle_pre, settle_post, settle_drain, settle, post_of, last_posted, place_of, last_place};
ghost use Rattle.fm_operations.specs.Counts.{is_running_drain, is_running_drain_of, is_due};
ghost use Rattle.fm_operations.specs.Drains.{is_some_of};
ghost use Rattle.fm_operations.specs.Flights.{is_at};

use crate::entry::{Ask, Entry, PostState, PreState, PreVisit};
use crate::owed_stack::OwedStack;
use fm_callback_data::Completion;
use fm_types::InstanceId;

fn ask_with(visit: PreVisit, completion: Completion, is_synchronized: bool) -> Ask
    ensures { result ≡ record { instance = visit.instance; worker = visit.worker; completion = completion; is_synchronized = is_synchronized; place = visit.place } }
{
    Ask {
        instance: visit.instance,
        worker: visit.worker,
        completion,
        is_synchronized,
        place: visit.place,
    }
}

fn ask(entry: Entry) -> Option<Ask>
    ensures { result ≡ ask_of entry }
{
    match entry {
        Entry::Pre(visit) => match visit.state {
            PreState::Asked(completion) => Some(ask_with(visit, completion, false)),
            PreState::Synchronized(completion) => Some(ask_with(visit, completion, true)),
            _ => None,
        },
        _ => None,
    }
}

/// The postoperation that the preoperation at that place asked for.
pub(crate) fn ask_at(entries: &[Entry], place: usize) -> Option<Ask>
    ensures { result ≡ ask_at entries.now place }
{
    ask(*entries.get(place)?)
}

fn is_of(ask: Option<Ask>, instance: InstanceId) -> bool
    ensures { result ≡ is_some_of instance.0 ask }
{
    match ask {
        Some(ask) => ask.instance.0 == instance.0,
        None => false,
    }
}

/// How deep in the stack the place stands at which an instance asked for its postoperation.
pub(crate) fn depth_of(entries: &[Entry], owed: &OwedStack, instance: InstanceId) -> Option<usize>
    ensures { result ≡ position (λ place. is_some_of instance.0 (ask_at entries.now place)) owed.now }
{
    owed.places()
        .iter()
        .rev()
        .position(|place| is_of(ask_at(entries, *place as usize), instance))
}

/// One more entry, which answers what is owed next.
#[inline(always)]
pub(crate) fn answer(entries: &mut Vec<Entry>, owed: &mut OwedStack, entry: Entry)
    requires { length entries.old.items < vec_capacity entries.old }
    ensures items { entries.new.items ≡ entries.old.items ++ entry ∷ [] }
    ensures capacity { vec_capacity entries.new ≡ vec_capacity entries.old }
    ensures owed { owed.new ≡ drop 1 owed.old }
{
    entries.push_reserved(entry);
    owed.pop();
}

/// Whether a preoperation with that verdict asks for its postoperation.
pub(crate) fn asks(state: PreState) -> bool
    ensures { result ≡ asks state }
{
    matches!(state, PreState::Asked(_) | PreState::Synchronized(_))
}

fn end_pre(entry: &mut Entry, state: PreState)
    ensures { entry.new ≡ settle_pre state entry.old }
{
    if let Entry::Pre(visit) = entry {
        if matches!(visit.state, PreState::Running | PreState::Held) {
            visit.state = state;
        }
    }
}

fn end_post(entry: &mut Entry, state: PostState)
    ensures { entry.new ≡ settle_post state entry.old }
{
    if let Entry::Post(visit) = entry {
        if matches!(visit.state, PostState::Running | PostState::Held) {
            visit.state = state;
        }
    }
}

fn end_drain(entry: &mut Entry, instance: InstanceId)
    ensures { entry.new ≡ settle_drain instance.0 entry.old }
{
    if let Entry::Drain(visit) = entry {
        if visit.instance.0 == instance.0 {
            visit.is_running = false;
        }
    }
}

/// What is over: a preoperation or a postoperation, which gets its verdict, or the drains of an instance.
#[derive(Clone, Copy)]
enum Ending {
    Pre(PreState),
    Post(PostState),
    Drain(InstanceId),
}

fn end(entry: &mut Entry, ending: Ending)
    ensures { entry.new ≡ settle ending entry.old }
{
    match ending {
        Ending::Pre(state) => end_pre(entry, state),
        Ending::Post(state) => end_post(entry, state),
        Ending::Drain(instance) => end_drain(entry, instance),
    }
}

fn is_open(entry: Entry) -> bool
    ensures { result ≡ is_open entry }
{
    match entry {
        Entry::Pre(visit) => matches!(visit.state, PreState::Running | PreState::Held),
        Entry::Post(visit) => matches!(visit.state, PostState::Running | PostState::Held),
        _ => false,
    }
}

fn is_running_drain(entry: Entry) -> bool
    ensures { result ≡ is_running_drain entry }
{
    match entry {
        Entry::Drain(visit) => visit.is_running,
        _ => false,
    }
}

fn is_running_drain_of(entry: Entry, instance: InstanceId) -> bool
    ensures { result ≡ is_running_drain_of instance.0 entry }
{
    match entry {
        Entry::Drain(visit) => visit.instance.0 == instance.0 && visit.is_running,
        _ => false,
    }
}

fn is_due(entry: Entry, ending: Ending) -> bool
    ensures { result ≡ is_due ending entry }
{
    match ending {
        Ending::Drain(instance) => is_running_drain_of(entry, instance),
        _ => is_open(entry),
    }
}

// Where the one stands that is over: nearly always at the end.
fn due_place(entries: &[Entry], ending: Ending) -> usize
    requires { count_by (is_due ending) entries.now ≡ 1 }
    ensures { option_map (is_due ending) (slice_get entries.now result) ≡ Some true }
{
    let mut place = entries.len();
    while place > 0 {
        place -= 1;
        if is_due(entries[place], ending) {
            return place;
        }
    }
    unreachable!()
}

// That one is settled, and no other changes.
fn settle_due(entries: &mut Vec<Entry>, ending: Ending) -> usize
    requires { count_by (is_due ending) entries.old.items ≡ 1 }
    ensures place { option_map (is_due ending) (slice_get entries.old.items result) ≡ Some true }
    ensures items { entries.new.items ≡ map (settle ending) entries.old.items }
    ensures capacity { vec_capacity entries.new ≡ vec_capacity entries.old }
{
    let place = due_place(entries, ending);
    end(&mut entries[place], ending);
    place
}

/// The preoperation that runs or holds gets its verdict. Gives its place.
pub(crate) fn settle_pre(entries: &mut Vec<Entry>, state: PreState) -> usize
    requires { count_by is_open entries.old.items ≡ 1 }
    ensures place { option_map is_open (slice_get entries.old.items result) ≡ Some true }
    ensures items { entries.new.items ≡ map (settle_pre state) entries.old.items }
    ensures capacity { vec_capacity entries.new ≡ vec_capacity entries.old }
{
    settle_due(entries, Ending::Pre(state))
}

/// The postoperation that runs or holds gets its verdict.
pub(crate) fn settle_post(entries: &mut Vec<Entry>, state: PostState)
    requires { count_by is_open entries.old.items ≡ 1 }
    ensures items { entries.new.items ≡ map (settle_post state) entries.old.items }
    ensures capacity { vec_capacity entries.new ≡ vec_capacity entries.old }
{
    settle_due(entries, Ending::Post(state));
}

/// The drain of that instance is over.
pub(crate) fn settle_drain(entries: &mut Vec<Entry>, instance: InstanceId)
    requires { count_by (is_running_drain_of instance.0) entries.old.items ≡ 1 }
    ensures items { entries.new.items ≡ map (settle_drain instance.0) entries.old.items }
    ensures capacity { vec_capacity entries.new ≡ vec_capacity entries.old }
{
    settle_due(entries, Ending::Drain(instance));
}

fn is_at(entry: Entry, instance: InstanceId) -> bool
    ensures { result ≡ is_at instance.0 entry }
{
    match entry {
        Entry::Pre(visit) => visit.instance.0 == instance.0 && is_open(entry),
        Entry::Base(_, _) => false,
        Entry::Post(visit) => visit.instance.0 == instance.0 && is_open(entry),
        Entry::Drain(_) => is_running_drain_of(entry, instance),
    }
}

/// Whether a callback of an instance runs or holds the operation.
pub(crate) fn has_callback_at(entries: &[Entry], instance: InstanceId) -> bool
    ensures { result ≡ list_any (is_at instance.0) entries.now }
{
    entries.iter().any(|entry| is_at(*entry, instance))
}

/// Whether a drain runs.
pub(crate) fn has_running_drain(entries: &[Entry]) -> bool
    ensures { result ≡ list_any is_running_drain entries.now }
{
    entries.iter().any(|entry| is_running_drain(*entry))
}

fn place_of(entry: Entry) -> Option<u8>
    ensures { result ≡ place_of entry }
{
    match entry {
        Entry::Pre(visit) => Some(visit.place),
        _ => None,
    }
}

/// The place of the visit that came last on the way down: nearly always at the end.
pub(crate) fn last_place(entries: &[Entry]) -> Option<u8>
    ensures { result ≡ last_place entries.now }
{
    let mut count = entries.len();
    while count > 0 {
        count -= 1;
        let place = place_of(entries[count]);
        if place.is_some() {
            return place;
        }
    }
    None
}

fn post_of(entry: Entry) -> Option<InstanceId>
    ensures { option_map (λ i. i.0) result ≡ post_of entry }
{
    match entry {
        Entry::Post(visit) => Some(visit.instance),
        _ => None,
    }
}

/// The instance that was visited last on the way up: nearly always at the end.
pub(crate) fn last_posted(entries: &[Entry]) -> Option<InstanceId>
    ensures { option_map (λ i. i.0) result ≡ last_posted entries.now }
{
    let mut place = entries.len();
    while place > 0 {
        place -= 1;
        let posted = post_of(entries[place]);
        if posted.is_some() {
            return posted;
        }
    }
    None
}
