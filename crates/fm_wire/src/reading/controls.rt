//! The fields of the requests that manage filters.

ghost use Rattle.fm_wire.specs.Grammar.{Reading};

use crate::frame::{Body, Control};
use crate::numbers::{split_u8, split_u16};
use fm_altitude::Altitude;
use fm_types::{FilterId, InstanceId, Name, Status, VolumeId};

/// Reads a name that is all there is.
pub(crate) fn read_load(fields: &[u8]) -> Result<Body, Status>
    ensures { Reading 16 fields.now result }
{
    match Name::read(fields) {
        Ok(name) => Ok(Body::Control(Control::Load { name })),
        Err(status) => Err(status),
    }
}

/// Reads a filter, a volume, a name behind its length, and an altitude that fills the rest.
pub(crate) fn read_attach(fields: &[u8]) -> Result<Body, Status>
    ensures { Reading 17 fields.now result }
{
    if fields.len() < 3 {
        return Err(Status::BadRequest);
    }
    let (filter, rest) = split_u8(fields);
    let (volume, rest) = split_u8(rest);
    let (len, texts) = split_u8(rest);
    if texts.len() < len as usize {
        return Err(Status::BadRequest);
    }
    let (name, altitude) = texts.split_at(len as usize);
    let name = match Name::read(name) {
        Ok(name) => name,
        Err(status) => return Err(status),
    };
    match Altitude::read(altitude) {
        Ok(altitude) => Ok(Body::Control(Control::Attach {
            filter: FilterId(filter),
            volume: VolumeId(volume),
            name,
            altitude,
        })),
        Err(status) => Err(status),
    }
}

/// Reads an instance.
pub(crate) fn read_detach(fields: &[u8]) -> Result<Body, Status>
    ensures { Reading 18 fields.now result }
{
    if fields.len() != 2 {
        return Err(Status::BadRequest);
    }
    let (instance, _) = split_u16(fields);
    Ok(Body::Control(Control::Detach {
        instance: InstanceId(instance),
    }))
}

/// Reads nothing, which is all there may be.
pub(crate) fn read_stop(fields: &[u8]) -> Result<Body, Status>
    ensures { Reading 21 fields.now result }
{
    if !fields.is_empty() {
        return Err(Status::BadRequest);
    }
    Ok(Body::Control(Control::Stop))
}
