//! The server's own limits.

/// How many of the 256 operations may be those of clients that are gone. From there on nothing else begins but what may let them go, or gives up a handle: there
/// is room for that, since at most 31 clients more may leave one each before they meet it.
pub(crate) const ABANDONED: usize = 192;
