//! How far the life of a context has come.

/// What is known of the id of a context.
#[derive(Clone, Copy, Debug, PartialEq, Eq)]
pub enum Count {
    /// The context has so many references, at least one.
    Live(u64),
    /// It has none, and waits to be cleaned up.
    Due,
    /// A worker cleans it up.
    Cleaning,
    /// It is cleaned up.
    Cleaned,
    /// No context was ever given that id.
    Absent,
}
