//! Where an operation begins that no client asked for.

use fm_types::InstanceId;

/// Where an operation begins that no client asked for, and for whom.
#[derive(Clone, Copy, Debug, PartialEq, Eq)]
pub enum BeginsFrom {
    /// Below that instance, whose filter asked for it (`InitiatingInstance` of `FltReadFile`, `FltCreateFileEx` and their like): it visits those alone
    /// that stand lower.
    Below(InstanceId),
    /// At the base, for that instance, whose filter asked for it: it visits no instance.
    Base(InstanceId),
    /// At the base, for the file system itself, which no filter asked: it visits no instance.
    FileSystem,
    /// At the top, for the cache or memory manager, which no filter asked: it visits all instances. Its handle may be one whose cleanup has begun, until
    /// its close.
    Top,
}
