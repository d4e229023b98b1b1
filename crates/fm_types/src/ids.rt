//! The numbers by which callers name what the filter manager keeps. Ids of one kind are given in
//! order from 0 and never given again; a context's id has a generation, since its slot is used again.

/// Names one load of a filter (`PFLT_FILTER`), of at most 16.
#[derive(Clone, Copy, Debug, PartialEq, Eq, Hash)]
pub struct FilterId(pub u8);

/// Names a volume (`PFLT_VOLUME`), of at most 8.
#[derive(Clone, Copy, Debug, PartialEq, Eq, Hash)]
pub struct VolumeId(pub u8);

/// Names an instance of a filter on a volume (`PFLT_INSTANCE`), of at most 4,096.
#[derive(Clone, Copy, Debug, PartialEq, Eq, Hash)]
pub struct InstanceId(pub u16);

/// Names a stream of a volume: a file's data, as long as a handle or a create is on it.
#[derive(Clone, Copy, Debug, PartialEq, Eq, Hash)]
pub struct StreamId(pub u64);

/// Names a handle that a successful create gave (`FILE_OBJECT`).
#[derive(Clone, Copy, Debug, PartialEq, Eq, Hash)]
pub struct HandleId(pub u64);

/// Names an operation on its way through the instances of a volume.
#[derive(Clone, Copy, Debug, PartialEq, Eq, Hash)]
pub struct OpId(pub u64);

/// Names one of the 48 workers that may run callbacks.
#[derive(Clone, Copy, Debug, PartialEq, Eq, Hash)]
pub struct WorkerId(pub u8);

/// Names a context (`PFLT_CONTEXT`): the slot that it lies in, and how many contexts lay there before.
#[derive(Clone, Copy, Debug, PartialEq, Eq, Hash)]
pub struct CtxId {
    pub slot: u32,
    pub generation: u32,
}
