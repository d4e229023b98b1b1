//! The model of the filter manager, with no code but types: what a World is, which events there are, what each answers and makes of a World, and what
//! holds of every World that a list of events leads to.
//!
//! `specs/` says it, each file to be read aloud: `World`, `Workers`, `Files`, `FileLaws`, `Owners`, `Links`, `Events`, `ContextEvents`, `Steps`, `Descent`, `Headline`,
//! `Lasting`. `laws` has the proofs as public functions.
#![tactic(auto)]

mod about;
mod begins_from;
mod file;
pub mod laws;
mod place;
mod refused;
mod set_answer;
mod step;

pub use crate::about::{About, AboutOperation};
pub use crate::begins_from::BeginsFrom;
pub use crate::file::{FileHandle, FileObject, FileStream, HandlePhase};
pub use crate::place::Place;
pub use crate::refused::Refused;
pub use crate::set_answer::SetAnswer;
pub use crate::step::{Step, StepReply};
