//! The manager's state together with what each worker was lent: between the event that gives a worker callback data or a call of the base and the
//! event that takes it back, whoever plays the callbacks and the base finds it here.
#![tactic(auto)]

mod lent;
mod session;

pub use crate::lent::{Given, Lent};
pub use crate::session::Session;
