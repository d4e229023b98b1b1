//! What a pass knows of the queue's past: its own.

use crate::job::Job;
use std::collections::LinkedList;

/// What one pass has put and taken, oldest first, and how many parts it has of the right to know the whole. It exists in contracts alone: no
/// value of it is made.
pub struct PassTally {
    /// How many of all parts it has.
    pub parts: u64,
    /// What was put with it.
    pub puts: LinkedList<Job>,
    /// What was taken with it.
    pub takes: LinkedList<Job>,
}
