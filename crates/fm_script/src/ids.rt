//! The ids that a line names: each is there where it was given.

ghost use Rattle.std.specs.Prelude.{◌≡◌};
ghost use Rattle.fm_script.specs.Ids.{filter_in, volume_in, instance_in, handle_in, operation_in, context_in, worker_in};

use fm_core::State;
use fm_types::limits::SCRIPT_WORKERS;
use fm_types::{CtxId, FilterId, HandleId, InstanceId, OpId, Status, VolumeId, WorkerId};

/// The filter of that number, or 6.
pub fn filter_in(state: &State, number: u64) -> Result<FilterId, Status>
    ensures { result ≡ filter_in state.now number }
{
    match u8::try_from(number) {
        Ok(id) if usize::from(id) < state.filters() => Ok(FilterId(id)),
        _ => Err(Status::NoFilter),
    }
}

/// The volume of that number, or 7.
pub fn volume_in(state: &State, number: u64) -> Result<VolumeId, Status>
    ensures { result ≡ volume_in state.now number }
{
    match u8::try_from(number) {
        Ok(id) if state.volume_phase(VolumeId(id)).is_some() => Ok(VolumeId(id)),
        _ => Err(Status::NoVolume),
    }
}

/// The instance of that number, or 8.
pub fn instance_in(state: &State, number: u64) -> Result<InstanceId, Status>
    ensures { result ≡ instance_in state.now number }
{
    match u16::try_from(number) {
        Ok(id) if usize::from(id) < state.instances() => Ok(InstanceId(id)),
        _ => Err(Status::NoInstance),
    }
}

/// The handle of that number, or 14.
pub fn handle_in(state: &State, number: u64) -> Result<HandleId, Status>
    ensures { result ≡ handle_in state.now number }
{
    if number < state.handles_given() {
        Ok(HandleId(number))
    } else {
        Err(Status::NoHandle)
    }
}

/// The operation of that number, or 30.
pub fn operation_in(state: &State, number: u64) -> Result<OpId, Status>
    ensures { result ≡ operation_in state.now number }
{
    if number < state.operations_begun() {
        Ok(OpId(number))
    } else {
        Err(Status::WrongStep)
    }
}

/// The context of that number, in the order of their allocation, or 25.
pub fn context_in(contexts: &[CtxId], number: u64) -> Result<CtxId, Status>
    ensures { result ≡ context_in contexts.now number }
{
    let Ok(at) = usize::try_from(number) else {
        return Err(Status::NotHeld);
    };
    match contexts.get(at) {
        Some(context) => Ok(*context),
        None => Err(Status::NotHeld),
    }
}

/// The worker of that number, or 30.
pub fn worker_in(number: u64) -> Result<WorkerId, Status>
    ensures { result ≡ worker_in number }
{
    if number < SCRIPT_WORKERS {
        Ok(WorkerId(number as u8))
    } else {
        Err(Status::WrongStep)
    }
}
