//! What answers requests.

use fm_callback_data::{Reply, Request};
use fm_wire::Control;

/// Answers one request after the other. `serve` opens each frame: it asks what operations and controls ask for, answers by itself what a frame refuses and what
/// only a server says, and sends each reply under its request's number. A reply that has no spelling goes out as 32.
pub trait Exec {
    ghost use Rattle.fm_callback_data.specs.declared.request.Request.{Request};
    ghost use Rattle.fm_callback_data.specs.declared.request.Reply.{Reply};
    ghost use Rattle.fm_wire.specs.declared.frame.Control.{Control};

    /// From the first state an operation may be answered so, which leaves the second state.
    ghost operates: { Self → Request → Reply → Self → Type 0 };

    /// The same of a control.
    ghost controls: { Self → Control → Reply → Self → Type 0 };

    /// Answers an operation.
    fn operate(&mut self, request: Request) -> Reply
        ensures { operates self.old request result self.new };

    /// Answers a control.
    fn control(&mut self, control: Control) -> Reply
        ensures { controls self.old control result self.new };
}
