//! What a manager leaves behind at its end.

use fm_core::State;

/// The state at the end, with its numbers.
#[derive(Drop)]
pub struct Report {
    /// The state: no operation, no open handle, no link and no reference is there, each instance is Detached.
    pub state: State,
    /// How many contexts were allocated.
    pub born: u64,
    /// How many were cleaned up.
    pub cleaned: u64,
    /// How many references callbacks left behind.
    pub leaks: u64,
}
