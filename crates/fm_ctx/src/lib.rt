//! The contexts that filters allocate: which objects they are set on, who holds references to them,
//! and which of them wait to be cleaned up.
//!
//! The layer knows no filters, instances and callbacks: it is told the worker, the owner and the
//! object. Its main type is `Contexts`.
#![tactic(auto)]

mod contexts;
mod count;
mod due;
mod due_list;
mod entry;
mod generations;
mod hand;
mod left;
mod object;
mod owner;
mod seat;
mod seats;
mod set_reply;
mod store;
mod tally;

pub use crate::contexts::Contexts;
pub use crate::count::Count;
pub use crate::due::Due;
pub use crate::generations::next_generation;
pub use crate::object::Object;
pub use crate::owner::Owner;
pub use crate::set_reply::{SetMode, SetReply};
