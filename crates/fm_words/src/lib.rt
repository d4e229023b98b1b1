//! Texts that scripts and programs' words have in common: numbers, ids, bytes as hexadecimal, and the words of a line. Each reader accepts
//! exactly its spelling.
#![tactic(auto)]

mod hexadecimal;
mod number;
mod words;

pub use crate::hexadecimal::{read_hex, write_hex};
pub use crate::number::{read_id, read_number, read_status};
pub use crate::words::{split_at_byte, split_words};
