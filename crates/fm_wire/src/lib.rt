//! Frames: how a client asks a server for operations and for filters, and how it is answered. A frame is
//! a length, a code, a number and fields; `encode` makes its bytes, and a `Decoder` takes frames from a
//! stream that comes in pieces. The format stands in docs/FRAMES.md.
#![tactic(auto)]

mod decoder;
mod encoding;
mod frame;
pub mod laws;
mod numbers;
mod reading;
mod stream;

pub use crate::decoder::Decoder;
pub use crate::encoding::encode;
pub use crate::frame::{Body, Control, Frame};
