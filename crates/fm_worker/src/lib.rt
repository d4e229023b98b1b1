//! What threads do with the manager that they share: workers carry operations on, and connections attach, detach, unload and dismount.
//!
//! A thread has a `Worker`: its hand, what its callbacks resumed, its pass of the queue and its bases, and references to what all threads share. It is whole
//! between two callbacks. No lock is held while a callback or a base call runs.
#![tactic(auto)]

mod callbacks;
mod cleanups;
mod hook;
mod instances;
mod jobs;
mod op_queue;
mod own;
mod own_jobs;
mod port;
mod routines;
mod shared;
mod teardowns;
mod turns;
mod volumes;
mod worker;

pub use crate::hook::{CallbackHook, NoHook};
pub use crate::op_queue::OpQueue;
pub use crate::port::HandPort;
pub use crate::worker::Worker;
