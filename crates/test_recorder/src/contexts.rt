//! The contexts of recording filters, and the operations that they hold.

ghost use Rattle.std.specs.Prelude.{◌≡◌};

use crate::plan::Plan;
use fm_callback_data::PreVerdict;
use fm_ctx::SetMode;
use fm_filter::Port;
use fm_operations::Hold;
use fm_types::{Bytes, ContextKind, CtxId};
use fm_world::SetAnswer;
use std::alloc::Global;

/// The context of that kind on the callback's object, with a reference in the hand. The first callback sets it. None if a call is refused.
pub(crate) fn set_once<P: Port>(alloc: Global, kind: ContextKind, port: &mut P) -> Option<CtxId>
    ensures far { P.kept port.new ≡ P.kept port.old }
{
    if let Ok(there) = port.get(kind) {
        return Some(there);
    }
    let body = Bytes::copy_of(alloc, &[0]).ok()?;
    let context = port.allocate(kind, body).ok()?;
    match port.set(context, SetMode::Keep, false) {
        SetAnswer::Linked(_) => Some(context),
        SetAnswer::AlreadyDefined(_) | SetAnswer::Refused(_) => {
            let _ = port.release(context);
            None
        }
    }
}

/// The same, and the reference is given up.
pub(crate) fn set_and_release<P: Port>(alloc: Global, kind: ContextKind, port: &mut P)
    ensures far { P.kept port.new ≡ P.kept port.old }
{
    if let Some(context) = set_once(alloc, kind, port) {
        let _ = port.release(context);
    }
}

/// Lets all go on that the instance holds, three at most, the first by number first, those that a preoperation holds with that verdict.
pub(crate) fn let_all_go<P: Port>(plan: Plan, verdict: PreVerdict, port: &mut P)
    ensures far { P.kept port.new ≡ P.kept port.old }
{
    if let_first_go(plan, verdict, port) && let_first_go(plan, verdict, port) {
        let_first_go(plan, verdict, port);
    }
}

/// Lets the first go on. False where none is held.
pub(crate) fn let_first_go<P: Port>(plan: Plan, verdict: PreVerdict, port: &mut P) -> bool
    ensures far { P.kept port.new ≡ P.kept port.old }
{
    match plan {
        Plan::Keep => match port.first_held(Hold::Post) {
            Ok(Some(operation)) => port.resume_post(operation).is_ok(),
            _ => false,
        },
        _ => match port.first_held(Hold::Pre) {
            Ok(Some(operation)) => port.resume_pre(operation, verdict).is_ok(),
            _ => false,
        },
    }
}
