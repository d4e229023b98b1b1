//! The objects that contexts are set on.

ghost use Rattle.std.specs.Prelude.{◌≡◌};
ghost use Rattle.fm_ctx.specs.Objects.{same_object};

use fm_types::{HandleId, InstanceId, StreamId, VolumeId};

/// What a context is set on; for each kind of context one kind of object.
#[derive(Clone, Copy, Debug, PartialEq, Eq)]
pub enum Object {
    Volume(VolumeId),
    Instance(InstanceId),
    Stream(StreamId),
    /// A file has one stream, whose number names it.
    File(StreamId),
    Handle(HandleId),
}

impl Object {
    /// Whether it is that object.
    pub fn is(self, other: Object) -> bool
        ensures { result ≡ same_object self other }
    {
        match (self, other) {
            (Object::Volume(a), Object::Volume(b)) => a.0 == b.0,
            (Object::Instance(a), Object::Instance(b)) => a.0 == b.0,
            (Object::Stream(a), Object::Stream(b)) => a.0 == b.0,
            (Object::File(a), Object::File(b)) => a.0 == b.0,
            (Object::Handle(a), Object::Handle(b)) => a.0 == b.0,
            _ => false,
        }
    }
}
