//! Searches by depth through runs: the choices that a run made, and the path of the next one.
#![tactic(auto)]

mod choice;
pub mod laws;
mod search;

pub use crate::choice::Choice;
pub use crate::search::next_path;
