//! Runs filters of one's own under every order of their callbacks: a scenario's clients make requests beside each other, and each order in which these can go on
//! is tried by a manager of its own, over a file system in memory.
//!
//! A step is a callback with all that it calls, a call of the file system, the beginning of an operation, or a whole attach, detach, load or unload. The manager
//! has one thread: two callbacks are never interleaved.
#![tactic(auto)]

mod client;
mod found;
mod options;
mod program;
mod run;
mod scenario;
mod scene;
mod schedule;
mod search;
mod verdict;

pub use crate::program::{TrialOrSearch, show_usage, trial};
