//! Altitudes: where on its volume an instance stands. An altitude is a decimal number of any precision, written in at most 64 characters; the
//! highest instance sees an operation first. Altitudes compare as numbers and never as texts, and each has one canonical text.
#![tactic(auto)]

mod altitude;
pub mod laws;
mod parts;
mod spell;

pub use altitude::Altitude;
