//! The outcome of an operation.

use fm_types::{Bytes, Status};

/// What an operation is answered, by its base or by the filter that completed it
/// (`IO_STATUS_BLOCK` and the buffer of `FLT_IO_PARAMETER_BLOCK`).
#[derive(Drop)]
pub struct Answer {
    /// Whether it succeeded, or why not.
    pub status: Status,
    /// How many bytes were read or written, a size, or a new handle's number.
    pub information: u64,
    /// What a read or a listing gives.
    pub bytes: Bytes,
}
