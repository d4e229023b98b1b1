//! The parameters of an operation, with the limits on what they ask for.

ghost use Rattle.std.specs.Prelude.{◌≡◌, ◌+◌, ◌^◌, nat_le};
ghost use Rattle.fm_callback_data.specs.Params.{operation_of, length_of, end_of, is_within_limits, same_operation, are_on, are_for, fit, may_replace, path_of};

use fm_types::limits::{END, TRANSFER};
use fm_types::{Bytes, CreateMode, Major, OpMask, Operation, SharedPath};

/// What an operation is asked to do, one variant for each kind (`FLT_PARAMETERS`).
#[derive(Drop)]
pub enum Params {
    /// Opens the file of that path.
    Create { path: SharedPath, mode: CreateMode },
    /// Reads at most `len` bytes from `offset` on.
    Read { offset: u64, len: u32 },
    /// Writes the bytes at `offset`.
    Write { offset: u64, bytes: Bytes },
    /// Asks for the size.
    QuerySize,
    /// Cuts the file to that size, or fills it up with zeros.
    SetSize { size: u64 },
    /// Writes out what is buffered.
    Flush,
    /// Lists the volume's files.
    List,
    /// Marks the file for deletion.
    SetDelete,
    /// Takes that mark back.
    Restore,
    /// The client let go of its handle.
    Cleanup,
    /// The handle ends.
    Close,
    /// What a major function without a kind of its own is asked to do: a number that stands for it,
    /// which the manager hands on and doesn't look into.
    Other { major: Major, number: u64 },
}

impl Params {
    /// The kind of operation that has such parameters (`FLT_IO_PARAMETER_BLOCK.MajorFunction`).
    pub fn operation(&self) -> Operation
        ensures { result ≡ operation_of self.now }
    {
        match self {
            Params::Create { .. } => Operation::Create,
            Params::Read { .. } => Operation::Read,
            Params::Write { .. } => Operation::Write,
            Params::QuerySize => Operation::QuerySize,
            Params::SetSize { .. } => Operation::SetSize,
            Params::Flush => Operation::Flush,
            Params::List => Operation::List,
            Params::SetDelete => Operation::SetDelete,
            Params::Restore => Operation::Restore,
            Params::Cleanup => Operation::Cleanup,
            Params::Close => Operation::Close,
            Params::Other { major, .. } => Operation::Other(*major),
        }
    }

    /// Whether they ask for at most 32,768 bytes and name no end of a file past 2^40. Offset and
    /// length are added without wrapping.
    pub fn is_within_limits(&self) -> bool
        ensures { result ≡ is_within_limits self.now }
    {
        self.is_short() && self.is_near()
    }

    fn is_short(&self) -> bool
        ensures { result ≡ nat_le (length_of self.now) 32768 }
    {
        match self {
            Params::Read { len, .. } => *len as u64 <= TRANSFER,
            Params::Write { bytes, .. } => bytes.len() as u64 <= TRANSFER,
            _ => true,
        }
    }

    fn is_near(&self) -> bool
        ensures { result ≡ nat_le (end_of self.now) (2 ^ 40) }
    {
        match self {
            Params::Read { offset, len } => ends_near(*offset, *len as u64),
            Params::Write { offset, bytes } => ends_near(*offset, bytes.len() as u64),
            Params::SetSize { size } => *size <= END,
            _ => true,
        }
    }

    /// Whether these are parameters of such an operation on the file of that path: a create names it,
    /// and others name none.
    pub fn are_for(&self, operation: Operation, path: &Option<SharedPath>) -> bool
        ensures { result ≡ are_for operation path.now self.now }
    {
        self.are_of(operation) && self.are_on(path)
    }

    // kinds are compared by their bits, as `same_operation` does
    fn are_of(&self, operation: Operation) -> bool
        ensures { result ≡ same_operation (operation_of self.now) operation }
    {
        OpMask::of(self.operation()).0 == OpMask::of(operation).0
    }

    /// Whether a create names that path; others name none.
    pub fn are_on(&self, path: &Option<SharedPath>) -> bool
        ensures { result ≡ are_on path.now self.now }
    {
        match self {
            Params::Create { path: own, .. } => match path {
                Some(path) => own.path() == path.path(),
                None => false,
            },
            _ => true,
        }
    }

    /// Whether these are such parameters and within the limits.
    pub fn fit(&self, operation: Operation, path: &Option<SharedPath>) -> bool
        ensures { result ≡ fit operation path.now self.now }
    {
        self.are_for(operation, path) && self.is_within_limits()
    }

    /// Whether a filter may put these in place of those: they are of the same operation, a create's
    /// on the same path, and within the limits.
    pub fn may_replace(&self, received: &Params) -> bool
        ensures { result ≡ may_replace received.now self.now }
    {
        self.are_of(received.operation()) && self.are_beside(received) && self.is_within_limits()
    }

    fn are_beside(&self, received: &Params) -> bool
        ensures { result ≡ are_on (path_of received.now) self.now }
    {
        match self {
            Params::Create { path: own, .. } => match received {
                Params::Create { path, .. } => own.path() == path.path(),
                _ => false,
            },
            _ => true,
        }
    }
}

fn ends_near(offset: u64, len: u64) -> bool
    ensures { result ≡ nat_le (offset + len) (2 ^ 40) }
{
    offset <= END && len <= END && offset + len <= END
}
