//! The rundown gate before the volumes of a filter manager: passes of a volume are taken and given back without a lock, until the volume is
//! closed and seen drained. From then on nobody holds a pass of it or gets one.
#![tactic(auto)]

mod calls;
mod gate;
pub mod laws;
mod life;
mod look;
mod passes;
mod rule;
mod seat;
mod steps;
mod view;

pub use crate::gate::RundownGate;
pub use crate::look::{Look, Seen};
pub use crate::seat::GateSeat;
pub use crate::view::{SeatView, VolumeView};
