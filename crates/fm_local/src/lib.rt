//! The one-thread manager: filters as code, requests answered one after the other, and what they left behind.
#![tactic(auto)]

mod bounded;
mod callbacks;
mod cleanups;
pub mod laws;
mod leak;
mod local_port;
mod manager;
mod parts;
mod refusal;
mod requests;
mod routines;
mod steps;
mod teardowns;
mod trace;

pub use crate::leak::Leak;
pub use crate::manager::LocalManager;
pub use crate::refusal::{PortCall, Refusal};
pub use crate::steps::Stepped;
pub use crate::trace::{PostAnswer, PreAnswer, Traced, Visit};
