//! What a seat knows of the gate. It exists in contracts alone: no value of it is made.

use std::collections::LinkedList;

/// What one seat holds of one volume, and what it has seen and done there.
pub struct VolumeView {
    /// How many passes it holds.
    pub held: u64,
    /// Whether an `enter` of it is taking its pass back: 0 or 1.
    pub tentative: u64,
    /// Whether it has seen the volume closing.
    pub is_closing: bool,
    /// Whether it has seen the volume drained.
    pub is_drained: bool,
    /// Whether it has closed the volume itself.
    pub has_closed: bool,
    /// How many looks it has taken at the volume.
    pub looks: u64,
}

/// What a seat knows of each volume, and how many seats are still to be made of it.
pub struct SeatView {
    /// By the volume's number.
    pub volumes: LinkedList<VolumeView>,
    /// More than 0 only while the gate is made.
    pub to_make: u64,
}
