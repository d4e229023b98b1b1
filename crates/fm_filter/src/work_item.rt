//! What a filter does outside of callbacks.

ghost use Rattle.std.specs.Prelude.{◌≡◌};

use crate::port::Port;

/// What a filter does for an instance outside of callbacks: a work item (`PFLT_GENERIC_WORKITEM_ROUTINE`), a thread, a timer. The manager calls it with none of
/// its locks held, in a routine of the instance. It gets a port for what it may call of the manager, as callbacks do, and resumes there what the instance holds
/// (`FltCompletePendedPreOperation`). It changes nothing that the port keeps.
pub trait WorkItem {
    /// What one run of it may make of a port. A manager that promises this of a port has run the item on it, and once.
    ghost works: { Self → {P : Type 0} → P → P → Type 0 };

    fn run<P: Port>(&self, port: &mut P)
        ensures works { works self.now port.old port.new }
        ensures far { P.kept port.new ≡ P.kept port.old };
}
