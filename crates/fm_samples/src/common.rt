//! What the sample filters have in common.

ghost use Rattle.std.specs.Prelude.{◌≡◌};
ghost use Rattle.fm_samples.specs.Calls.{Resumes, ResumesAll, ResumesOne, SetsUnlessThere};
ghost use Rattle.fm_samples.specs.Common.{plain_completion};

use fm_callback_data::{Completion, PreVerdict};
use fm_ctx::SetMode;
use fm_filter::Port;
use fm_operations::Hold;
use fm_types::limits::OPERATIONS;
use fm_types::{Bytes, ContextKind, CtxId, OpId, Status};
use fm_world::SetAnswer;

/// A completion that says nothing: its number is 0, and no context travels along.
pub(crate) fn plain_completion() -> Completion
    ensures { result ≡ plain_completion }
{
    Completion {
        number: 0,
        context: None,
    }
}

/// The context of that kind that is set on the callback's object, with a reference in the hand: a new one
/// with that body, or another one where that was there first. None, with nothing taken, where a call was
/// refused.
pub(crate) fn set_unless_there<P: Port>(
    port: &mut P,
    kind: ContextKind,
    body: Bytes,
) -> Option<CtxId>
    ensures calls { SetsUnlessThere P.Port kind body result port.old port.new }
    ensures far { P.kept port.new ≡ P.kept port.old }
{
    let Ok(context) = port.allocate(kind, body) else {
        return None;
    };
    match port.set(context, SetMode::Keep, true) {
        SetAnswer::Linked(_) => Some(context),
        SetAnswer::AlreadyDefined(there) => {
            let _ = port.release(context);
            there
        }
        SetAnswer::Refused(_) => {
            let _ = port.release(context);
            None
        }
    }
}

/// Lets every operation go on that the instance holds in that callback, the first one by number first, until a call is refused.
pub(crate) fn resume_all<P: Port>(port: &mut P, held: Hold)
    ensures calls { ResumesAll P.Port held port.old port.new }
    ensures far { P.kept port.new ≡ P.kept port.old }
{
    for _gone in 0..OPERATIONS {
        if !resume_first(port, held) {
            return;
        }
    }
}

// Lets the first operation go on that the instance holds in that callback. False if it holds none, or a call is refused.
fn resume_first<P: Port>(port: &mut P, held: Hold) -> bool
    ensures calls { ResumesOne P.Port held result port.old port.new }
    ensures far { P.kept port.new ≡ P.kept port.old }
{
    match port.first_held(held) {
        Ok(Some(operation)) => resume(port, held, operation).is_ok(),
        Ok(None) => false,
        Err(_) => false,
    }
}

// Lets one operation go on that the instance holds in that callback.
fn resume<P: Port>(port: &mut P, held: Hold, operation: OpId) -> Result<(), Status>
    ensures calls { Resumes P.Port held operation result port.old port.new }
    ensures far { P.kept port.new ≡ P.kept port.old }
{
    match held {
        Hold::Pre => port.resume_pre(operation, PreVerdict::NoCallback),
        Hold::Post => port.resume_post(operation),
    }
}
