//! What the manager notes of each operation.

use fm_callback_data::{PostVerdict, PreVerdict};
use fm_core::PreState;
use fm_types::{InstanceId, OpId, Status};
use std::fmt;

/// What a preoperation answered.
#[derive(Clone, Copy, Debug, PartialEq, Eq)]
pub struct PreAnswer {
    /// The verdict that it gave.
    pub given: PreVerdict,
    /// The verdict that counts, once it has returned.
    pub counted: Option<PreState>,
    /// The status that it found in the data.
    pub found: Status,
    /// The status that it left there.
    pub left: Status,
}

/// What a postoperation answered.
#[derive(Clone, Copy, Debug, PartialEq, Eq)]
pub struct PostAnswer {
    /// The verdict that it gave.
    pub given: PostVerdict,
    /// The status that it found in the data.
    pub found: Status,
    /// The status that it left there.
    pub left: Status,
}

/// One step of an operation.
#[derive(Clone, Copy, Debug, PartialEq, Eq)]
pub enum Visit {
    /// The preoperation of an instance was called.
    Pre(InstanceId, PreAnswer),
    /// The file system answered with that status.
    Base(Status),
    /// The postoperation of an instance was called.
    Post(InstanceId, PostAnswer),
    /// An instance that is torn down was drained of its postoperation.
    Drain(InstanceId),
    /// Its reply was handed out, with that status.
    Replied(Status),
}

/// A step, and the operation that it is of.
#[derive(Clone, Copy, Debug, PartialEq, Eq)]
pub struct Traced {
    pub operation: OpId,
    pub visit: Visit,
}

/// In the words of scripts: `pre i0 with`, `base 0`, `post i0`, `drain i0` or `reply 0`. A postoperation that holds the operation has `more` behind it. Where
/// another verdict counts than the one that was given that one follows (`pre i0 complete 17 counts as none`), and so does a status that a postoperation
/// changed (`post i0 status 0 to 17`).
impl fmt::Display for Visit {
    fn fmt<W: fmt::Write>(&self, f: &mut fmt::Formatter<W>) -> fmt::Result {
        match self {
            Visit::Pre(instance, answer) => {
                write!(f, "pre i{} ", instance.0)?;
                write_verdict(f, answer.given)?;
                match answer.counted {
                    Some(counted) => write_counted(f, answer.given, counted),
                    None => Ok(()),
                }
            }
            Visit::Base(status) => write!(f, "base {}", status.number()),
            Visit::Post(instance, answer) => {
                write!(f, "post i{}", instance.0)?;
                write_post(f, *answer)
            }
            Visit::Drain(instance) => write!(f, "drain i{}", instance.0),
            Visit::Replied(status) => write!(f, "reply {}", status.number()),
        }
    }
}

fn write_verdict<W: fmt::Write>(f: &mut fmt::Formatter<W>, verdict: PreVerdict) -> fmt::Result {
    match verdict {
        PreVerdict::WithCallback(_) => f.write_str("with"),
        PreVerdict::Synchronize(_) => f.write_str("sync"),
        PreVerdict::NoCallback => f.write_str("none"),
        PreVerdict::Complete(status) => write!(f, "complete {}", status.number()),
        PreVerdict::Pending => f.write_str("pend"),
    }
}

// What a postoperation that holds the operation, or changed its status, has behind it.
fn write_post<W: fmt::Write>(f: &mut fmt::Formatter<W>, answer: PostAnswer) -> fmt::Result {
    if let PostVerdict::MoreProcessing = answer.given {
        f.write_str(" more")?;
    }
    if answer.found == answer.left {
        return Ok(());
    }
    write!(
        f,
        " status {} to {}",
        answer.found.number(),
        answer.left.number()
    )
}

// The verdict that counts, where it is another one than was given.
fn write_counted<W: fmt::Write>(
    f: &mut fmt::Formatter<W>,
    given: PreVerdict,
    counted: PreState,
) -> fmt::Result {
    match (given, counted) {
        (PreVerdict::WithCallback(_) | PreVerdict::Synchronize(_), PreState::Passed)
        | (PreVerdict::Complete(_), PreState::Passed) => f.write_str(" counts as none"),
        (PreVerdict::Complete(status), PreState::Completed(other)) if status != other => {
            write!(f, " counts as complete {}", other.number())
        }
        _ => Ok(()),
    }
}

/// The operation, and what was done with it: `o3 pre i0 with`.
impl fmt::Display for Traced {
    fn fmt<W: fmt::Write>(&self, f: &mut fmt::Formatter<W>) -> fmt::Result {
        write!(f, "o{} {}", self.operation.0, self.visit)
    }
}
