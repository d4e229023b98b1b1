//! A filter that notes what it sees, the lists that say what that must be, and how a manager is taken through one of them.
#![tactic(auto)]

mod contexts;
mod log;
mod order;
mod plan;
mod playing;
mod recorder;

pub use crate::log::Log;
pub use crate::order::ORDER;
pub use crate::playing::{Host, Told, play};
pub use crate::recorder::{Recorder, recorders};
