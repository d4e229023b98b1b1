//! What a postoperation callback is lent: the parameters as its own preoperation received them, and
//! the answer so far.

ghost use Rattle.std.specs.Prelude.{◌≡◌, ◌<◌, ◌++◌, IfSome, length, slice_get, take, vec_capacity, if◌then◌else◌};
ghost use Rattle.fm_callback_data.specs.Data.{current_of, fresh_data};
ghost use Rattle.fm_operations.specs.Steps.{stands, lent_answer, left_answer, kept_of, kept_held, answer_after};

use crate::entry::PreState;
use fm_callback_data::{Answer, CallbackData, Params};
use fm_types::{Bytes, Operation};
use std::alloc::Global;
use std::mem;

/// Whether the answer stands: postoperations of a create, a cleanup and a close change nothing of it.
pub(crate) fn has_fixed_answer(operation: Operation) -> bool
    ensures { result ≡ stands operation }
{
    match operation {
        Operation::Create | Operation::Cleanup | Operation::Close => true,
        _ => false,
    }
}

/// The answer for a postoperation callback. Its bytes go along, unless it stands.
pub(crate) fn lend_answer(alloc: Global, operation: Operation, answer: &mut Answer) -> Answer
    ensures lent { result ≡ lent_answer operation answer.old }
    ensures left { answer.new ≡ left_answer operation answer.old }
{
    let mut bytes = Bytes::new(alloc);
    if !has_fixed_answer(operation) {
        mem::swap(&mut bytes, &mut answer.bytes);
    }
    Answer {
        status: answer.status,
        information: answer.information,
        bytes,
    }
}

/// The value that was kept first from that place on, which goes with all behind it.
pub(crate) fn unwind(kept: &mut Vec<Params>, place: usize) -> Option<Params>
    requires { place < 256 }
    ensures value { result ≡ slice_get kept.old.items place }
    ensures rest { kept.new.items ≡ take place kept.old.items }
    ensures capacity { vec_capacity kept.new ≡ vec_capacity kept.old }
{
    if kept.len() <= place {
        return None;
    }
    kept.truncate(place + 1);
    kept.pop()
}

/// Makes the data that a preoperation callback returned ready for the next one, and keeps what it received where it put something in its place.
pub(crate) fn keep(alloc: Global, kept: &mut Vec<Params>, lent: &mut CallbackData)
    requires { length kept.old.items < vec_capacity kept.old }
    ensures data { lent.new ≡ fresh_data (current_of lent.old) }
    ensures items { kept.new.items ≡ kept.old.items ++ kept_of lent.old.received lent.old.changed }
    ensures capacity { vec_capacity kept.new ≡ vec_capacity kept.old }
{
    if let Some(received) = lent.settle(alloc) {
        kept.push_reserved(received);
    }
}

/// Keeps what a preoperation received that holds the operation and puts something else in its place: once.
pub(crate) fn keep_held(kept: &mut Vec<Params>, place: Option<u8>, received: Params)
    requires { IfSome place (λ p. p < vec_capacity kept.old) }
    ensures items { kept.new.items ≡ kept_held place kept.old.items received }
    ensures capacity { vec_capacity kept.new ≡ vec_capacity kept.old }
{
    if let Some(place) = place {
        if kept.len() <= place as usize {
            kept.push_reserved(received);
        }
    }
}

/// The answer after a preoperation's verdict: a Complete gives it.
pub(crate) fn complete(alloc: Global, state: PreState, answer: &mut Answer)
    ensures { answer.new ≡ answer_after state answer.old }
{
    if let PreState::Completed(status) = state {
        answer.status = status;
        answer.information = 0;
        answer.bytes = Bytes::new(alloc);
    }
}

/// Takes the answer back from a postoperation callback, unless it stands.
pub(crate) fn take_answer(operation: Operation, answer: &mut Answer, returned: Answer)
    ensures { answer.new ≡ (if stands operation then answer.old else returned) }
{
    if !has_fixed_answer(operation) {
        *answer = returned;
    }
}
