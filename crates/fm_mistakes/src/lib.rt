//! Which mistakes of its filters a manager has noted, and what of them the lines of a trial expect.
//!
//! `findings` reads the three lists of a manager: the steps of operations, the references that callbacks left behind, and the calls that were refused. An
//! `Account` keeps what was told of each request, what was expected, and says how a trial ends.
//!
//! Only fm_trial uses it. It is a crate of its own so that both are proved in parallel.
#![tactic(auto)]

mod account;
mod finding;
mod mistake;
mod noted;

pub use crate::account::{Account, ToldMistake};
pub use crate::finding::Finding;
pub use crate::mistake::Mistake;
pub use crate::noted::{findings, steps_of};
