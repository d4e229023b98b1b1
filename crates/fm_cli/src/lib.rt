//! The words of the server's programs: what `fltc` asks for, what `fltd` is to serve, the words for help, and the fault by which a program ends early.
#![tactic(auto)]

mod fault;
mod front;
mod request;
mod request_words;
mod usage;
mod values;
mod verb;

pub use crate::fault::Fault;
pub use crate::front::{Front, front_of};
pub use crate::request::request_of;
pub use crate::usage::asks_usage;
pub use crate::verb::Verb;
