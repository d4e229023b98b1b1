//! Schedules of the manager that threads share: a hook that lets one thread go on at a time, and picks which by a seed or by a path of choices. It is a tool
//! for tests: filters are run under many orders of their callbacks, and each order can be repeated.
#![tactic(auto)]

mod board;
mod choice;
mod chooser;
mod hook;

pub use crate::choice::{Next, Schedule, Went};
pub use crate::chooser::Chooser;
pub use crate::hook::ScheduleHook;
