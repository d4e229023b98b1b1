//! How serving ends.

/// How `serve` ended.
#[derive(Clone, Copy, Debug, PartialEq, Eq)]
pub enum ServeEnd {
    /// The input ended after a whole frame, or was empty.
    Ended,
    /// The input ended inside a frame.
    Truncated,
    /// A length that no frame has stood in a frame's place.
    BadFrame,
    /// The source failed, or was read as often as it may be.
    ReadFault,
    /// The sink failed.
    WriteFault,
    /// A growth was refused.
    NoMemory,
    /// A Stop was answered.
    Stopped,
}
