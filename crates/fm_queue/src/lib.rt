//! The queue of jobs between those who resume operations and the workers that carry them on: bounded, for any number of threads, and
//! without a lock. What goes in comes out, as often as it went in.
#![tactic(auto)]

mod bell;
mod ends;
mod job;
mod kept;
pub mod laws;
mod queue;
mod tally;

pub use crate::job::Job;
pub use crate::queue::{JobPass, JobQueue};
pub use crate::tally::PassTally;
