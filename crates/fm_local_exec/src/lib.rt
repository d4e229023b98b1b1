//! What answers the frames of a server: the one-thread manager.
#![tactic(auto)]

mod local_exec;
mod said;

pub use crate::local_exec::LocalExec;
