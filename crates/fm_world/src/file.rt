//! Streams and handles: what operations on files are on.

use fm_types::{HandleId, OpId, SharedPath, StreamId, VolumeId};

/// A file's data, as long as a handle or a create under way is on it (`FLT_RELATED_OBJECTS`, by its
/// `FsContext`): one for each path of a volume.
#[derive(Drop)]
pub struct FileStream {
    /// The number of the create that it came with.
    pub number: StreamId,
    pub volume: VolumeId,
    /// Where the file is; the operations on it share the path.
    pub path: SharedPath,
    /// Whether the file is to be unlinked when the last handle closes (`FileDispositionInformation`).
    pub is_marked: bool,
}

/// How far a handle's end has come.
#[derive(Clone, Copy, Debug, PartialEq, Eq)]
pub enum HandlePhase {
    /// Any operation but a close may begin on it.
    Open,
    /// That cleanup has begun: nothing but a close may begin.
    CleaningUp(OpId),
    /// A close has begun.
    Closing,
}

/// An open file, as an operation on it names it (`FLT_RELATED_OBJECTS`).
#[derive(Clone, Copy, Debug, PartialEq, Eq)]
pub struct FileObject {
    pub stream: StreamId,
    pub handle: HandleId,
}

/// What a successful create gave its client (`FILE_OBJECT`), until its close has reached the base.
#[derive(Clone, Copy, Debug, PartialEq, Eq)]
pub struct FileHandle {
    pub number: HandleId,
    pub stream: StreamId,
    pub phase: HandlePhase,
}
