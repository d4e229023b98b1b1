//! What a client and a server tell each other, one frame at a time.

use fm_altitude::Altitude;
use fm_callback_data::{Reply, Request};
use fm_types::{FilterId, InstanceId, Name, Status, VolumeId};

/// One message: a client's request, or a server's answer to it under the same number.
#[derive(Drop)]
pub struct Frame {
    /// The client's number for the request; a server repeats it and gives it no meaning.
    pub number: u32,
    pub body: Body,
}

/// What a frame says.
#[derive(Drop)]
pub enum Body {
    /// A client asks for an operation on a volume or a handle (codes 1 to 9).
    Operation(Request),
    /// A client asks for filters to be managed (codes 16 to 21).
    Control(Control),
    /// A server's answer (codes 128 and 129).
    Reply(Reply),
    /// A frame was read that says nothing: `BadRequest` where its code is unknown or its fields don't
    /// fill the code's form, and `BadPath`, `BadName` or `BadAltitude` where its reader refuses a text.
    /// It has no spelling.
    Refused(Status),
}

/// What a client asks for beside operations.
#[derive(Clone, Copy, Debug)]
pub enum Control {
    /// Loads a filter.
    Load {
        name: Name,
    },
    /// Attaches an instance of a filter to a volume.
    Attach {
        filter: FilterId,
        volume: VolumeId,
        name: Name,
        altitude: Altitude,
    },
    /// Detaches an instance.
    Detach {
        instance: InstanceId,
    },
    /// Unloads a filter.
    Unload {
        filter: FilterId,
    },
    /// Dismounts a volume.
    Dismount {
        volume: VolumeId,
    },
    /// Ends the server.
    Stop,
}
