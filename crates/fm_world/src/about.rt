//! What a callback may know of what it is called for.

use fm_altitude::Altitude;
use fm_types::{FilterId, HandleId, InstanceId, Name, OpId, Operation, SharedPath, VolumeId};

/// The operation that a callback is called for (`FLT_CALLBACK_DATA`): what of it is no parameter.
#[derive(Drop)]
pub struct AboutOperation {
    /// Its number, which no other operation of the run has.
    pub number: OpId,
    /// What is asked of the file system (`FLT_IO_PARAMETER_BLOCK`, `MajorFunction`).
    pub kind: Operation,
    /// The open file that it is on (`FLT_RELATED_OBJECTS`, `FileObject`). A create has none before it succeeded, and a listing has none.
    pub handle: Option<HandleId>,
    /// The path of that file, as it was when the operation began (`FltGetFileNameInformation`); a listing has none. It is shared, so no text is copied.
    pub path: Option<SharedPath>,
}

/// What a callback of an instance may know of what it is called for (`FLT_RELATED_OBJECTS`).
#[derive(Drop)]
pub struct About {
    /// The instance that is called.
    pub instance: InstanceId,
    /// The name of that instance.
    pub instance_name: Name,
    /// Whose instance it is.
    pub filter: FilterId,
    /// Where on its volume the instance stands.
    pub altitude: Altitude,
    /// The volume that the instance is attached to.
    pub volume: VolumeId,
    /// The name of that volume (`FltGetVolumeName`).
    pub volume_name: Name,
    /// The operation that the callback is for; none at a setup, a query and a teardown.
    pub operation: Option<AboutOperation>,
}
