//! The kinds of operations, and sets of them: what a filter's callbacks are registered for.

ghost use Rattle.std.specs.Prelude.{⊤, ◌≡◌, ◌<◌, ◌^◌, [], ◌∷◌, codes};
ghost use Rattle.fm_types.specs.Roles.{role_of};
ghost use Rattle.fm_types.specs.Masks.{operation_bit, has_operation, HasEveryOperation, HasNoOperation};

use crate::major::Major;
use bitflags::{Flag, Flags, bitflag_items};

/// A kind of operation on a volume, as the major function of a callback data (`IRP_MJ_CREATE` ..).
#[derive(Clone, Copy, Debug, PartialEq, Eq, Hash)]
pub enum Operation {
    Create,
    Read,
    Write,
    QuerySize,
    SetSize,
    Flush,
    List,
    SetDelete,
    Restore,
    Cleanup,
    Close,
    /// Of a major function that the manager steps and doesn't look into: a number stands for its parameters, and what it does is the file system's.
    Other(Major),
}

/// What an operation does with the file that it is on.
#[derive(Clone, Copy, Debug, PartialEq, Eq, Hash)]
pub enum Role {
    /// It gives a handle on it.
    Opens,
    /// It uses an open handle and leaves it as it is; or it lists a volume, and has no handle.
    Uses,
    /// It marks the file for deletion.
    Marks,
    /// It takes that mark back.
    Unmarks,
    /// It begins the handle's end.
    CleansUp,
    /// It closes the handle.
    Closes,
}

impl Operation {
    /// What it does with the file that it is on.
    pub fn role(self) -> Role
        ensures { result ≡ role_of self }
    {
        match self {
            Operation::Create => Role::Opens,
            Operation::Read
            | Operation::Write
            | Operation::QuerySize
            | Operation::SetSize
            | Operation::Flush
            | Operation::List
            | Operation::Other(_) => Role::Uses,
            Operation::SetDelete => Role::Marks,
            Operation::Restore => Role::Unmarks,
            Operation::Cleanup => Role::CleansUp,
            Operation::Close => Role::Closes,
        }
    }
}

/// What a create does with a file that is there, and with one that isn't (the create disposition).
#[derive(Clone, Copy, Debug, PartialEq, Eq, Hash)]
pub enum CreateMode {
    /// Opens the file; there has to be one.
    Existing,
    /// Makes the file; there may be none.
    New,
    /// Opens the file, or makes it where there is none.
    Always,
}

/// A set of kinds of operations (the entries of `FLT_OPERATION_REGISTRATION`).
#[derive(Clone, Copy, Debug, PartialEq, Eq)]
pub struct OpMask(pub u64);

bitflag_items! {
    impl OpMask: u64 {
        const CREATE = 1;
        const READ = 2;
        const WRITE = 4;
        const QUERY_SIZE = 8;
        const SET_SIZE = 16;
        const FLUSH = 32;
        const LIST = 64;
        const SET_DELETE = 128;
        const CLEANUP = 256;
        const CLOSE = 512;
        const RESTORE = 1024;
    }
}

impl Flags for OpMask {
    type Bits = u64;

    ghost exact = { ⊤ };

    ghost table = { (codes "CREATE", 1) ∷ (codes "READ", 2) ∷ (codes "WRITE", 4) ∷ (codes "QUERY_SIZE", 8) ∷ (codes "SET_SIZE", 16) ∷ (codes "FLUSH", 32) ∷ (codes "LIST", 64) ∷ (codes "SET_DELETE", 128) ∷ (codes "CLEANUP", 256) ∷ (codes "CLOSE", 512) ∷ (codes "RESTORE", 1024) ∷ [] };

    ghost set_of = { λ mask. mask.0 };

    fn flags<'a>() -> &'a [Flag<OpMask>] {
        OpMask::FLAGS
    }

    fn bits(&self) -> u64 {
        self.0
    }

    fn from_bits_retain(bits: u64) -> OpMask {
        OpMask(bits)
    }
}

impl OpMask {
    /// Every kind of operation.
    pub const ALL: OpMask = OpMask(576460752303423487);

    /// No kind of operation.
    pub const NONE: OpMask = OpMask(0);

    /// The set of that kind alone.
    pub fn of(operation: Operation) -> OpMask
        ensures { result.0 ≡ operation_bit operation }
    {
        match operation {
            Operation::Create => OpMask::CREATE,
            Operation::Read => OpMask::READ,
            Operation::Write => OpMask::WRITE,
            Operation::QuerySize => OpMask::QUERY_SIZE,
            Operation::SetSize => OpMask::SET_SIZE,
            Operation::Flush => OpMask::FLUSH,
            Operation::List => OpMask::LIST,
            Operation::SetDelete => OpMask::SET_DELETE,
            Operation::Restore => OpMask::RESTORE,
            Operation::Cleanup => OpMask::CLEANUP,
            Operation::Close => OpMask::CLOSE,
            Operation::Other(major) => OpMask(major.bit()),
        }
    }

    /// Every kind of operation is in `ALL`, none is in `NONE`, and both are below 2^59.
    pub fn laws()
        ensures all { HasEveryOperation OpMask.ALL.0 × (OpMask.ALL.0 < 2 ^ 59) }
        ensures none { HasNoOperation OpMask.NONE.0 × (OpMask.NONE.0 < 2 ^ 59) }
    {}

    /// Whether that kind of operation is in the set.
    pub fn has(self, operation: Operation) -> bool
        ensures { result ≡ has_operation self.0 operation }
    {
        self.contains(OpMask::of(operation))
    }
}
