//! What a worker is told to do next.

use fm_types::OpId;

/// What a worker takes from the queue.
#[derive(Clone, Copy, Debug, PartialEq, Eq)]
pub enum Job {
    /// Carry this operation on.
    Run(OpId),
    /// Take no more jobs.
    Stop,
}
