//! What cancels the operations that a filter holds.

ghost use Rattle.std.specs.Prelude.{◌≡◌, true};
ghost use Rattle.fm_samples.specs.Calls.{CancelsFirst};

use fm_callback_data::PreVerdict;
use fm_filter::{Port, WorkItem};
use fm_operations::Hold;
use fm_types::Status;
use fm_types::limits::OPERATIONS;

/// Completes each operation that the instance holds in its preoperation with that status, the first one by number first, until none is held or a call is
/// refused: what the cancel routine of a held operation does (`FltSetCancelCompletion`), which runs in no callback.
#[derive(Clone, Copy, Debug)]
pub struct Cancel {
    pub status: Status,
}

impl WorkItem for Cancel {
    ghost use Rattle.std.specs.Prelude.{⊤};

    ghost works = { λ cancel old new. ⊤ };

    fn run<P: Port>(&self, port: &mut P) {
        cancel_all(port, self.status);
    }
}

// Completes every operation that the instance holds.
fn cancel_all<P: Port>(port: &mut P, status: Status)
    ensures far { P.kept port.new ≡ P.kept port.old }
{
    for _gone in 0..OPERATIONS {
        if !cancel_first(port, status) {
            return;
        }
    }
}

// Completes the first operation that the instance holds. False if it holds none, or a call is refused.
fn cancel_first<P: Port>(port: &mut P, status: Status) -> bool
    ensures calls { result ≡ true → CancelsFirst P.Port status port.old port.new }
    ensures far { P.kept port.new ≡ P.kept port.old }
{
    match port.first_held(Hold::Pre) {
        Ok(Some(operation)) => port
            .resume_pre(operation, PreVerdict::Complete(status))
            .is_ok(),
        Ok(None) => false,
        Err(_) => false,
    }
}
