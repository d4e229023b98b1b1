//! The filters, volumes and instances of the manager: who is loaded, what is mounted, and which
//! instance is attached where, at which altitude.
//!
//! The layer knows nothing of workers, of operations under way and of contexts: how many of these hold up the end
//! of an instance, a filter or a volume, the caller says. Its main type is `Stack`.
#![tactic(auto)]

mod dismount;
pub mod filter;
pub mod instance;
mod names;
mod order;
pub mod stack;
mod teardown;
mod unload;
pub mod volume;

pub use crate::filter::{Filter, FilterPhase};
pub use crate::instance::{Instance, Phase, StartMark};
pub use crate::stack::Stack;
pub use crate::volume::{Volume, VolumePhase};
