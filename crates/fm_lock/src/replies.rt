//! The answer to an event, read off a reply of its kind. What the lock refused first of all, and a reply of another kind, which no event gets, is 30.

ghost use Rattle.std.specs.Prelude.{◌≡◌, Err};
ghost use Rattle.fm_lock.specs.Replies.{body_in, context_in, done_in, drained_in, dropped_in, due_in, held_in, instance_in, number_in, old_in, operation_in, set_in, volume_in};

use fm_callback_data::Completion;
use fm_ctx::Due;
use fm_types::{Bytes, CtxId, HandleId, InstanceId, OpId, Status, VolumeId};
use fm_world::{Refused, SetAnswer, Step, StepReply};

/// What an event by the lock answers.
type StepResult = Result<StepReply, Refused<Step>>;

// No answer of the kind that is asked for.
fn wrong<T>(_given: StepResult) -> Result<T, Status>
    ensures { result ≡ Err Status.WrongStep }
{
    Err(Status::WrongStep)
}

pub(crate) fn volume_in(given: StepResult) -> Result<VolumeId, Status>
    ensures { result ≡ volume_in given }
{
    match given {
        Ok(StepReply::Volume(result)) => result,
        other => wrong(other),
    }
}

pub(crate) fn instance_in(given: StepResult) -> Result<InstanceId, Status>
    ensures { result ≡ instance_in given }
{
    match given {
        Ok(StepReply::Instance(result)) => result,
        other => wrong(other),
    }
}

pub(crate) fn operation_in(given: StepResult) -> Result<OpId, Status>
    ensures { result ≡ operation_in given }
{
    match given {
        Ok(StepReply::Operation(result)) => result,
        other => wrong(other),
    }
}

pub(crate) fn done_in(given: StepResult) -> Result<(), Status>
    ensures { result ≡ done_in given }
{
    match given {
        Ok(StepReply::Done(result)) => result,
        other => wrong(other),
    }
}

pub(crate) fn held_in(given: StepResult) -> Result<Option<OpId>, Status>
    ensures { result ≡ held_in given }
{
    match given {
        Ok(StepReply::Held(result)) => result,
        other => wrong(other),
    }
}

pub(crate) fn drained_in(given: StepResult) -> Result<Option<(OpId, Completion)>, Status>
    ensures { result ≡ drained_in given }
{
    match given {
        Ok(StepReply::Drained(result)) => result,
        other => wrong(other),
    }
}

pub(crate) fn dropped_in(given: StepResult) -> Result<Option<HandleId>, Status>
    ensures { result ≡ dropped_in given }
{
    match given {
        Ok(StepReply::Dropped(result)) => result,
        other => wrong(other),
    }
}

pub(crate) fn context_in(given: StepResult) -> Result<CtxId, Status>
    ensures { result ≡ context_in given }
{
    match given {
        Ok(StepReply::Context(result)) => result,
        other => wrong(other),
    }
}

pub(crate) fn old_in(given: StepResult) -> Result<Option<CtxId>, Status>
    ensures { result ≡ old_in given }
{
    match given {
        Ok(StepReply::Old(result)) => result,
        other => wrong(other),
    }
}

pub(crate) fn body_in(given: StepResult) -> Result<Bytes, Status>
    ensures { result ≡ body_in given }
{
    match given {
        Ok(StepReply::Body(result)) => result,
        other => wrong(other),
    }
}

pub(crate) fn number_in(given: StepResult) -> Result<u64, Status>
    ensures { result ≡ number_in given }
{
    match given {
        Ok(StepReply::Number(result)) => result,
        other => wrong(other),
    }
}

pub(crate) fn due_in(given: StepResult) -> Result<Option<Due>, Status>
    ensures { result ≡ due_in given }
{
    match given {
        Ok(StepReply::Due(result)) => result,
        other => wrong(other),
    }
}

pub(crate) fn set_in(given: StepResult) -> SetAnswer
    ensures { result ≡ set_in given }
{
    match given {
        Ok(StepReply::Set(answer)) => answer,
        _ => SetAnswer::Refused(Status::WrongStep),
    }
}
