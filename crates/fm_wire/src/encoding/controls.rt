//! The spelling of requests that manage filters.

ghost use Rattle.std.specs.Prelude.{◌≡◌, ◌++◌, OnOk, length};
ghost use Rattle.fm_wire.specs.Spelling as spelling;
ghost use Rattle.fm_wire.specs.Grammar.{FitsControl, HasControlTexts, canonical_control};

use crate::encoding::numbers::put_u16;
use crate::frame::Control;
use std::alloc::AllocError;

/// The code of a request.
pub(crate) fn control_code(control: &Control) -> u8
    ensures { result ≡ spelling.control_code control.now }
{
    match control {
        Control::Load { .. } => 16,
        Control::Attach { .. } => 17,
        Control::Detach { .. } => 18,
        Control::Unload { .. } => 19,
        Control::Dismount { .. } => 20,
        Control::Stop => 21,
    }
}

/// How many bytes a request's fields take.
#[tactic(auto, unfolding(crate::specs::Spelling::bytes_of_u16))]
pub(crate) fn control_len(control: &Control) -> usize
    ensures { result ≡ length (spelling.control_fields control.now) }
{
    match control {
        Control::Load { name } => name.text().len(),
        Control::Attach { name, altitude, .. } => 3 + name.text().len() + altitude.text().len(),
        Control::Detach { .. } => 2,
        Control::Unload { .. } | Control::Dismount { .. } => 1,
        Control::Stop => 0,
    }
}

/// Appends the fields of a request.
pub(crate) fn put_control(out: &mut Vec<u8>, control: &Control) -> Result<(), AllocError>
    ensures ok { OnOk result (out.new.items ≡ out.old.items ++ spelling.control_fields control.now) }
    ensures fits { OnOk result (FitsControl control.now) }
    ensures texts { OnOk result (HasControlTexts control.now) }
    ensures canonical { OnOk result (canonical_control control.now ≡ control.now) }
{
    match control {
        Control::Load { name } => out.extend_from_slice(name.text()),
        Control::Attach {
            filter,
            volume,
            name,
            altitude,
        } => {
            out.push(filter.0)?;
            out.push(volume.0)?;
            out.push(name.text().len() as u8)?;
            out.extend_from_slice(name.text())?;
            out.extend_from_slice(altitude.text())
        }
        Control::Detach { instance } => put_u16(out, instance.0),
        Control::Unload { filter } => Ok(out.push(filter.0)?),
        Control::Dismount { volume } => Ok(out.push(volume.0)?),
        Control::Stop => Ok(()),
    }
}
