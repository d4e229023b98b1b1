//! Which verdict of a preoperation counts.

ghost use Rattle.std.specs.Prelude.{◌≡◌, true};
ghost use Rattle.fm_operations.specs.Verdict.{verdict_counted, is_counted, completed_as, create_completed};

use crate::entry::PreState;
use fm_callback_data::PreVerdict;
use fm_types::{Operation, Status};

/// The verdict that counts, of a filter that has a postoperation callback for the operation or
/// hasn't: without one nothing is asked for, nothing completes a cleanup or a close, and a create
/// that a filter completes with Success has no handle and so ends with AccessDenied.
pub fn counted(verdict: PreVerdict, operation: Operation, has_post: bool) -> PreState
    ensures value { result ≡ verdict_counted verdict operation has_post }
    ensures counted { is_counted result ≡ true }
{
    match verdict {
        PreVerdict::WithCallback(completion) if has_post => PreState::Asked(completion),
        PreVerdict::Synchronize(completion) if has_post => PreState::Synchronized(completion),
        PreVerdict::WithCallback(_) | PreVerdict::Synchronize(_) | PreVerdict::NoCallback =>
            PreState::Passed,
        PreVerdict::Complete(status) => completed(status, operation),
        PreVerdict::Pending => PreState::Held,
    }
}

fn completed(status: Status, operation: Operation) -> PreState
    ensures { result ≡ completed_as status operation }
{
    match operation {
        Operation::Cleanup | Operation::Close => PreState::Passed,
        Operation::Create => PreState::Completed(create_completed(status)),
        _ => PreState::Completed(status),
    }
}

fn create_completed(status: Status) -> Status
    ensures { result ≡ create_completed status }
{
    match status {
        Status::Success => Status::AccessDenied,
        status => status,
    }
}
