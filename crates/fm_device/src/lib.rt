//! The file systems below the volumes, as operations call them: one call names its volume, its file and what is asked, and is answered as an
//! operation is.
#![tactic(auto)]

mod bases;
mod calls;
mod device;
mod memory;

pub use crate::bases::Bases;
pub use crate::calls::call_base;
pub use crate::device::Device;
pub use crate::memory::MemoryDevices;
