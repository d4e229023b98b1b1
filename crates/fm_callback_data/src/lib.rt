//! What travels with an operation: its parameters, the callback data that a filter's callbacks are
//! given, the verdicts with which they return it, and what a client asks and is answered.
#![tactic(auto)]

mod answer;
mod base_call;
mod callback_data;
mod params;
mod request;
mod verdict;

pub use crate::answer::Answer;
pub use crate::base_call::BaseCall;
pub use crate::callback_data::CallbackData;
pub use crate::params::Params;
pub use crate::request::{FileRequest, Reply, Request};
pub use crate::verdict::{Completion, PostVerdict, PreVerdict};
