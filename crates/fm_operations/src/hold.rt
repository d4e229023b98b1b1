//! Which of its callbacks an instance holds an operation in.

/// Which callback of an instance holds an operation.
#[derive(Clone, Copy, Debug, PartialEq, Eq)]
pub enum Hold {
    /// Its preoperation, which answered Pending (`FLT_PREOP_PENDING`).
    Pre,
    /// Its postoperation, which answered MoreProcessing (`FLT_POSTOP_MORE_PROCESSING_REQUIRED`).
    Post,
}
