//! What is told of a callback.

ghost use Rattle.std.specs.Prelude.{◌≡◌};
ghost use Rattle.fm_mistakes.specs.Findings.{call_finding, finding_at, mistake_in, next_status, next_step, place_in, status_found};

use crate::mistake::Mistake;
use fm_core::Place;
use fm_local::{Leak, Refusal, Traced, Visit};
use fm_types::{OpId, Status};

/// Something that a manager noted, and that is told as a mistake or as a limit of the model.
#[derive(Clone, Copy, Debug, PartialEq, Eq)]
pub enum Finding {
    /// A verdict or a status of a callback.
    Answer(Mistake, Place),
    /// A reference that a callback left behind.
    Leak(Leak),
    /// A call of a port that was refused.
    Call(Mistake, Refusal),
}

impl Finding {
    /// Which mistake it is.
    pub fn mistake(&self) -> Mistake
        ensures { result ≡ mistake_in self.now }
    {
        match self {
            Finding::Answer(mistake, _) | Finding::Call(mistake, _) => *mistake,
            Finding::Leak(_) => Mistake::Leak,
        }
    }

    /// Of which callback it is told.
    pub fn place(&self) -> Place
        ensures { result ≡ place_in self.now }
    {
        match self {
            Finding::Answer(_, place) => *place,
            Finding::Leak(leak) => leak.place,
            Finding::Call(_, refusal) => refusal.place,
        }
    }
}

// The status that a step found or replied with, if it is one of that operation above the file system.
fn status_found(step: &Traced, operation: OpId) -> Option<Status>
    ensures { result ≡ status_found operation step.now }
{
    match step.visit {
        Visit::Post(_, answer) if step.operation == operation => Some(answer.found),
        Visit::Replied(status) if step.operation == operation => Some(status),
        _ => None,
    }
}

// The next one of these steps that is of an operation above the file system, or its reply.
fn next_step(steps: &[Traced], operation: OpId) -> Option<Traced>
    ensures { result ≡ next_step operation steps.now }
{
    steps
        .iter()
        .copied()
        .find(|step| status_found(step, operation).is_some())
}

// The status that the next one of these steps of an operation found, or that its reply has.
fn next_status(steps: &[Traced], operation: OpId) -> Option<Status>
    ensures { result ≡ next_status operation steps.now }
{
    status_found(&next_step(steps, operation)?, operation)
}

/// What is told of the step at that place; none where it isn't one of a callback, or where nothing is told of it.
pub(crate) fn finding_at(steps: &[Traced], place: usize) -> Option<Finding>
    ensures { result ≡ finding_at steps.now place }
{
    let step = steps.get(place)?;
    match step.visit {
        Visit::Pre(instance, answer) => {
            let mistake = Mistake::of_pre(&answer)?;
            Some(Finding::Answer(mistake, Place::Pre(step.operation, instance)))
        }
        Visit::Post(instance, answer) => {
            let next = next_status(&steps[place + 1..], step.operation)?;
            let mistake = Mistake::of_post(&answer, next)?;
            Some(Finding::Answer(mistake, Place::Post(step.operation, instance)))
        }
        Visit::Base(_) | Visit::Drain(_) | Visit::Replied(_) => None,
    }
}

/// What is told of a refused call; none where a filter may meet that refusal.
pub(crate) fn call_finding(refusal: &Refusal) -> Option<Finding>
    ensures { result ≡ call_finding refusal.now }
{
    let mistake = Mistake::of(refusal)?;
    Some(Finding::Call(mistake, *refusal))
}
