//! The manager for many threads: the State of `fm_core` behind a lock, and for each worker a hand.
//!
//! Whoever has a worker's `Hand` may make that worker's events. Each call of `Manager` is one event of the State in one critical section: callbacks and base
//! calls run between calls, with no lock held. How many references each hand holds is kept outside the lock, in the hand itself, and the sum of all is kept in
//! the lock, by a ledger: so `Manager::shutdown` knows, without a look at any worker, that nothing is held that no hand knows of.
#![tactic(auto)]

mod audit;
mod calls;
mod carriers;
mod clients;
mod ending;
mod hand;
mod hired;
mod lending;
mod locked;
mod manager;
mod operations;
mod readers;
mod replies;
mod report;
mod turn;
mod waiting;

pub use crate::clients::Waited;
pub use crate::hand::Hand;
pub use crate::locked::Locked;
pub use crate::manager::Manager;
pub use crate::report::Report;
pub use crate::turn::Turn;
