//! Tries filters of one's own: scenarios of requests, one file after another, each answered by a manager of its own over a file system in memory.
//!
//! A line of a scenario is a request in the words that `fltc` and the host for drivers in C take, or says what the last one must have come to (`expect`). What
//! callbacks did, and what they did wrong, is printed between a request and its reply; or it is told in the objects of `fltview`, alone or in a page.
#![tactic(auto)]

mod expectation;
mod line;
mod line_request;
mod objects;
mod program;
mod report;
mod reporter;
mod scenario;
mod scenario_text;
mod text;
mod trial_format;
mod words;

pub use crate::expectation::Expectation;
pub use crate::line::ScenarioLine;
pub use crate::program::{show_usage, trial};
pub use crate::report::{TrialManager, write_reply};
pub use crate::text::{lines_of, without_return};
