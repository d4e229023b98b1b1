//! The laws of operations, as functions that promise them and do nothing.

ghost use Rattle.fm_operations.specs.Flights.{InFlightOnce};
ghost use Rattle.fm_operations.specs.Seen.{ParametersSeen};
ghost use Rattle.fm_operations.specs.Turns.{SynchronizedTurn};

/// A preoperation's change of parameters goes down, also one that it makes while it holds the operation; its own postoperation, and those above, see what their
/// preoperations received.
pub fn parameters_seen()
    ensures { ParametersSeen }
{}

/// An operation counts at most once at an instance, however many entries of it name the instance: the number in flight there is a number of operations.
pub fn in_flight_once()
    ensures { InFlightOnce }
{}

/// Whom a synchronized postoperation waits for: one worker alone is given it, all others are refused; where it waits for nobody, `next` tells every worker the same.
pub fn synchronized_turn()
    ensures { SynchronizedTurn }
{}
