//! What a minifilter is to the filter manager: the calls that the manager makes of it, and the calls that
//! its callbacks may make of the manager.
#![tactic(auto)]

mod agreeable;
mod asks;
mod callbacks;
mod either;
mod filters;
mod minifilter;
mod port;
mod work_item;

pub use crate::agreeable::Agreeable;
pub use crate::asks::{ask_post, ask_pre, ask_query, ask_setup, let_go, tell_complete, tell_start};
pub use crate::callbacks::Callbacks;
pub use crate::either::Either;
pub use crate::filters::Filters;
pub use crate::minifilter::Minifilter;
pub use crate::port::Port;
pub use crate::work_item::WorkItem;
