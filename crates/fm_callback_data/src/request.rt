//! What a client asks of a volume, and what it is told.

ghost use Rattle.std.specs.Prelude.{◌≡◌};
ghost use Rattle.fm_callback_data.specs.Requests.{params_of};

use crate::params::Params;
use fm_types::{Bytes, CreateMode, HandleId, Major, OpId, SharedPath, Status, VolumeId};

/// What a client asks of a handle.
#[derive(Drop)]
pub enum FileRequest {
    /// Reads at most `len` bytes from `offset` on (`IRP_MJ_READ`).
    Read { offset: u64, len: u32 },
    /// Writes the bytes at `offset` (`IRP_MJ_WRITE`).
    Write { offset: u64, bytes: Bytes },
    /// Asks for the file's size (`IRP_MJ_QUERY_INFORMATION`).
    QuerySize,
    /// Cuts the file to that size, or fills it up with zeros (`IRP_MJ_SET_INFORMATION`).
    SetSize { size: u64 },
    /// Writes out what is buffered (`IRP_MJ_FLUSH_BUFFERS`).
    Flush,
    /// Marks the file, to be deleted at its last close (`FileDispositionInformation`).
    SetDelete,
    /// Takes that mark back, so that the file stays (`FileDispositionInformation`, `DeleteFile` FALSE).
    Restore,
    /// The client let go of the handle (`IRP_MJ_CLEANUP`). Frames don't spell it: a close of theirs
    /// begins two operations, a cleanup and then the close.
    Cleanup,
    /// The handle ends (`IRP_MJ_CLOSE`).
    Close,
    /// What a major function without a kind of its own is asked to do. Frames don't spell it.
    Other { major: Major, number: u64 },
}

impl FileRequest {
    /// The parameters of the operation that is asked for.
    pub fn into_params(self) -> Params
        ensures { result ≡ params_of self }
    {
        match self {
            FileRequest::Read { offset, len } => Params::Read { offset, len },
            FileRequest::Write { offset, bytes } => Params::Write { offset, bytes },
            FileRequest::QuerySize => Params::QuerySize,
            FileRequest::SetSize { size } => Params::SetSize { size },
            FileRequest::Flush => Params::Flush,
            FileRequest::SetDelete => Params::SetDelete,
            FileRequest::Restore => Params::Restore,
            FileRequest::Cleanup => Params::Cleanup,
            FileRequest::Close => Params::Close,
            FileRequest::Other { major, number } => Params::Other { major, number },
        }
    }
}

/// What a client asks: of a script, in a frame, or of the manager. Its shapes and limits are those of
/// the parameters of the operation that it begins.
#[derive(Drop)]
pub enum Request {
    /// Opens or makes a file of a volume (`IRP_MJ_CREATE`).
    Create {
        volume: VolumeId,
        path: SharedPath,
        mode: CreateMode,
    },
    /// Lists the files of a volume (`IRP_MJ_DIRECTORY_CONTROL`).
    List {
        volume: VolumeId,
    },
    /// A major function without a kind of its own is asked of a volume, without a file. Frames don't
    /// spell it.
    OnVolume {
        volume: VolumeId,
        major: Major,
        number: u64,
    },
    /// An operation on a handle.
    OnHandle {
        handle: HandleId,
        request: FileRequest,
    },
}

/// What a client is told.
#[derive(Drop)]
pub enum Reply {
    /// The operation ended with this answer.
    Done {
        status: Status,
        information: u64,
        bytes: Bytes,
    },
    /// A filter holds the operation; its reply comes later.
    Held(OpId),
}
