//! What C reads of a manager: its counts.

/// How many contexts were born and how many of them were cleaned up, how many references callbacks left behind, and how many the worker holds.
#[repr(C)]
#[derive(Clone, Copy, Drop)]
pub struct KazdrinCounts {
    pub born: u64,
    pub cleaned: u64,
    pub leaks: u64,
    pub held: u64,
}
