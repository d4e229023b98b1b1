//! What happened when a script ran: in words, as JSON, as a page for a browser and as a picture. A run is that of `fltscript`, line by line; what a line
//! answers is told as values (`fm_report`).
#![tactic(auto)]

mod answer;
mod check;
mod colour;
mod expect;
mod happened;
mod lanes;
mod learn;
mod picture;
mod reason;
mod subject;
mod usage;
mod verdict;
mod view;
mod ways;

pub use crate::check::{Strictness, check_scripts};
pub use crate::verdict::exit_status;
pub use crate::view::{Shown, ViewFormat, show_script};
pub use fm_script::ScriptEnd;
