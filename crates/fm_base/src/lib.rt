//! What an operation finds below the lowest instance of its volume: a base, which keeps files by path.
//! The trait says what every base answers; `MemoryBase` keeps its files in memory, and `FailNth` makes
//! one call of another base fail.
#![tactic(auto)]

mod base;
mod fail_nth;
mod file;
pub mod laws;
mod listing;
mod memory_base;
mod page;
mod pages;

pub use crate::base::Base;
pub use crate::fail_nth::FailNth;
pub use crate::memory_base::MemoryBase;
