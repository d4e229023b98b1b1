//! Choices.

/// A choice that a run made.
#[derive(Clone, Copy, Debug, PartialEq, Eq)]
pub struct Choice {
    /// How many options there were.
    pub options: usize,
    /// The place of the one that was taken among them, from 0 on.
    pub taken: usize,
}
