//! What stands in a page for a browser, or in a picture: the fixed text of the page, and texts and data that can't break out of their places.
#![tactic(auto)]

mod escape;
mod inert;
mod label;
mod page;

pub use crate::inert::Inert;
pub use crate::label::Label;
pub use crate::page::{PAGE_BEGIN, PAGE_END};
