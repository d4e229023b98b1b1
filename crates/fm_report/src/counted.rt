//! What the manager's records tell of an operation: who holds it, and which verdicts count.

ghost use Rattle.std.specs.Prelude.{◌≡◌};
ghost use Rattle.fm_report.specs.Counted.{counted_for, first_in, held_at, held_in, holder, stand, stands_at};

use fm_callback_data::PreVerdict;
use fm_core::{Entry, Hold, PostState, PreState, State};
use fm_types::{InstanceId, OpId};

// Who holds an operation by an entry of its record.
fn holder(entry: &Entry) -> Option<(InstanceId, Hold)>
    ensures { result ≡ holder entry.now }
{
    match entry {
        Entry::Pre(visit) => match visit.state {
            PreState::Held => Some((visit.instance, Hold::Pre)),
            _ => None,
        },
        Entry::Post(visit) => match visit.state {
            PostState::Held => Some((visit.instance, Hold::Post)),
            _ => None,
        },
        _ => None,
    }
}

// Who holds an operation with these entries.
fn holder_in(entries: &[Entry]) -> Option<(InstanceId, Hold)>
    ensures { result ≡ first_in holder entries.now }
{
    for entry in entries {
        if let Some(found) = holder(entry) {
            return Some(found);
        }
    }
    None
}

/// Where an operation is held: the instance, and whether its preoperation or its postoperation holds it.
pub fn held_at(state: &State, operation: OpId) -> Option<(InstanceId, Hold)>
    ensures { result ≡ held_at operation state.now.flow }
{
    match state.trace(operation) {
        Some(entries) => holder_in(entries),
        None => None,
    }
}

/// How many operations filters hold.
pub fn held_operations(state: &State) -> u64
    ensures { result ≡ held_in state.now.flow }
{
    let mut count = 0u64;
    for number in 0..state.operations_begun() {
        if held_at(state, OpId(number)).is_some() {
            count += 1;
        }
    }
    count
}

// How a preoperation stands by an entry of a record, if it is one of that instance.
fn stand(entry: &Entry, instance: u64) -> Option<PreState>
    ensures { result ≡ stand instance entry.now }
{
    match entry {
        Entry::Pre(visit) if u64::from(visit.instance.0) == instance => Some(visit.state),
        _ => None,
    }
}

// How the preoperation of an instance stands by these entries.
fn stand_in(entries: &[Entry], instance: u64) -> Option<PreState>
    ensures { result ≡ first_in (stand instance) entries.now }
{
    for entry in entries {
        if let Some(found) = stand(entry, instance) {
            return Some(found);
        }
    }
    None
}

/// How the preoperation of an instance stands that saw an operation, if it did.
pub fn stands_at(state: &State, operation: OpId, instance: u64) -> Option<PreState>
    ensures { result ≡ stands_at operation instance state.now.flow }
{
    match state.trace(operation) {
        Some(entries) => stand_in(entries, instance),
        None => None,
    }
}

/// The verdict that counts in place of the one that a preoperation gave, where another one does: none where it asked for a postoperation that its filter
/// doesn't have, or completed a cleanup or a close; and for a create that it completed with Success the completion with AccessDenied.
pub fn counted_for(given: PreVerdict, stands: PreState) -> Option<PreVerdict>
    ensures { result ≡ counted_for given stands }
{
    match (given, stands) {
        (
            PreVerdict::WithCallback(_) | PreVerdict::Synchronize(_) | PreVerdict::Complete(_),
            PreState::Passed,
        ) => Some(PreVerdict::NoCallback),
        (PreVerdict::Complete(status), PreState::Completed(other))
            if status.number() != other.number() => { Some(PreVerdict::Complete(other)) }
        _ => None,
    }
}
