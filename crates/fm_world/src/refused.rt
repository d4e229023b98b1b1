//! What a refused call hands back.

use fm_types::Status;

/// A refusal, with what the call was handed.
#[derive(Debug, Drop)]
pub struct Refused<T> {
    /// Why the call was refused.
    pub status: Status,
    /// What it was handed, unchanged.
    pub handed_back: T,
}
