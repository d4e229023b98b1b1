//! Sample filters, each as small as its kind allows.
#![tactic(auto)]

mod cancel;
mod carry;
mod common;
mod guard;
mod hold;
pub mod laws;
mod memory;
mod meter;
mod sample;
mod scan;
mod shift;
mod stay;

pub use crate::cancel::Cancel;
pub use crate::carry::Carry;
pub use crate::guard::Guard;
pub use crate::hold::Hold;
pub use crate::memory::Memory;
pub use crate::meter::Meter;
pub use crate::sample::Sample;
pub use crate::scan::Scan;
pub use crate::shift::Shift;
pub use crate::stay::Stay;
