//! Operations on their way through the instances of a volume: down by preoperations, to the base, and
//! up by the postoperations that were asked for, in the reverse order. This crate knows no instances:
//! it is told which one lies below and whether one is being torn down.
#![tactic(auto)]

mod action;
mod answered;
mod boxed_record;
mod entries;
mod entry;
mod flights;
mod flow;
mod hold;
pub mod laws;
mod lent;
mod operation_record;
mod owed_stack;
mod room;
mod stage;
mod verdict;

pub use crate::action::{Below, FlowAction};
pub use crate::entry::{Ask, DrainVisit, Entry, PostState, PostVisit, PreState, PreVisit};
pub use crate::flow::Flow;
pub use crate::hold::Hold;
pub use crate::operation_record::{OperationRecord, may_take};
pub use crate::stage::Stage;
pub use crate::verdict::counted;
