//! The manager's state, and each event as one call on it.
//!
//! A call of `State` is one critical section: callbacks and base calls run between calls, played by the caller. What each call answers and changes is said
//! by a relation of `fm_world` (its `specs/Events` and `specs/ContextEvents`), and every State keeps the Headline (`specs/Headline` there):
//! `State::headline` says so.
#![tactic(auto)]

mod about;
mod caller;
mod cleanups;
mod contexts;
mod descent;
mod dismounts;
mod drains;
mod ending;
mod file_name;
mod files;
mod holds;
mod initiators;
mod instances;
mod names;
mod operations;
mod passing;
mod readers;
mod references;
mod requests;
mod routines;
mod runs;
mod state;
mod target;
mod teardowns;
mod unloads;
mod workers;

pub use crate::passing::Passed;
pub use crate::runs::run;
pub use crate::state::State;
pub use fm_ctx::{Count, Due, Object, Owner, SetMode};
pub use fm_operations::{
    Ask, DrainVisit, Entry, FlowAction as Action, Hold, PostState, PostVisit, PreState, PreVisit,
    Stage,
};
pub use fm_stack::{FilterPhase, Phase, VolumePhase};
pub use fm_world::{
    About, AboutOperation, BeginsFrom, FileHandle, HandlePhase, Place, Refused, SetAnswer, Step,
    StepReply,
};
