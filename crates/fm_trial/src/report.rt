//! What is printed of a scenario.

use fm_base::MemoryBase;
use fm_callback_data::Reply;
use fm_core::{Hold, Phase, Place};
use fm_filter::Minifilter;
use fm_local::{Leak, LocalManager, Refusal};
use fm_mistakes::{Finding, Mistake};
use fm_report::{callback_of, held_at, instance_in, operation_in};
use fm_types::{InstanceId, OpId};
use std::alloc::AllocError;
use std::fmt::Write;

/// The only file system of a trial.
pub type TrialManager<F> = LocalManager<F, MemoryBase>;

// The bytes as two digits each, or a dash.
fn write_bytes(text: &mut String, bytes: &[u8]) -> Result<(), AllocError> {
    if bytes.is_empty() {
        return text.push_str("-");
    }
    for byte in bytes {
        write!(text, "{byte:02x}")?;
    }
    Ok(())
}

/// Appends a reply.
pub fn write_reply(text: &mut String, reply: &Reply) -> Result<(), AllocError> {
    match reply {
        Reply::Done {
            status,
            information,
            bytes,
        } => {
            write!(
                text,
                "status {} {} info {information} bytes ",
                status.number(),
                status.name()
            )?;
            write_bytes(text, bytes.as_slice())?;
        }
        Reply::Held(operation) => write!(text, "held as o{}", operation.0)?,
    }
    text.push_str("\n")
}

/// Appends the steps of operations since the last report.
pub(crate) fn write_steps<F: Minifilter>(
    text: &mut String,
    manager: &TrialManager<F>,
) -> Result<(), AllocError> {
    for place in 0..manager.traced() {
        if let Some(step) = manager.trace(place) {
            writeln!(text, "  {step}")?;
        }
    }
    Ok(())
}

// Appends a name, or an altitude.
fn write_name(text: &mut String, name: &[u8]) -> Result<(), AllocError> {
    for byte in name {
        text.push(char::from(*byte))?;
    }
    Ok(())
}

/// Appends of an instance its name, whose it is, and where it stands. Nothing, where it isn't attached.
pub(crate) fn write_attached<F: Minifilter>(
    text: &mut String,
    manager: &TrialManager<F>,
    instance: InstanceId,
) -> Result<(), AllocError> {
    let state = manager.state();
    let Some(Phase::Attached) = state.phase(instance) else {
        return Ok(());
    };
    let (Some(name), Some(altitude), Some(filter), Some(volume)) = (
        state.instance_name(instance),
        state.altitude_of(instance),
        state.filter_of(instance),
        state.volume_of(instance),
    ) else {
        return Ok(());
    };
    write!(text, "  i{} ", instance.0)?;
    write_name(text, name.text())?;
    text.push_str(": ")?;
    if let Some(filter) = state.filter_name(filter) {
        write_name(text, filter.text())?;
    }
    text.push_str(" at ")?;
    write_name(text, altitude.text())?;
    text.push_str(" on ")?;
    if let Some(volume) = state.volume_name(volume) {
        write_name(text, volume.text())?;
    }
    text.push_str("\n")
}

// Appends whose instance it is.
fn write_instance<F: Minifilter>(
    text: &mut String,
    manager: &TrialManager<F>,
    instance: InstanceId,
) -> Result<(), AllocError> {
    let state = manager.state();
    if let Some(filter) = state.filter_of(instance) {
        if let Some(name) = state.filter_name(filter) {
            text.push_str("filter ")?;
            write_name(text, name.text())?;
            text.push_str(", ")?;
        }
    }
    write!(text, "instance {}", instance.0)
}

// Appends who did what is told: whose instance, which callback, and for which operation. Nothing where no callback of an instance is named.
fn write_place<F: Minifilter>(
    text: &mut String,
    manager: &TrialManager<F>,
    place: Place,
) -> Result<(), AllocError> {
    if let Some(instance) = instance_of(place) {
        text.push_str(": ")?;
        write_instance(text, manager, instance)?;
        text.push_str(", ")?;
        text.push_str(callback_word(place))?;
        write_operation(text, place)?;
    }
    text.push_str("\n")
}

// The instance whose callback is there.
fn instance_of(place: Place) -> Option<InstanceId> {
    Some(InstanceId(u16::try_from(instance_in(place)?).ok()?))
}

// Appends for which operation a callback is, if it is for one.
fn write_operation(text: &mut String, place: Place) -> Result<(), AllocError> {
    match operation_in(place) {
        Some(operation) => write!(text, ", operation {operation}"),
        None => Ok(()),
    }
}

// The word for a callback in lines: a drain is one, whenever it comes.
fn callback_word(place: Place) -> &'static str {
    match place {
        Place::EarlyDrain(..) => "drain",
        other => callback_of(other),
    }
}

// Appends what is told of a leak, with its context.
fn write_leak<F: Minifilter>(
    text: &mut String,
    manager: &TrialManager<F>,
    leak: &Leak,
) -> Result<(), AllocError> {
    write!(text, "{} ({leak})", Mistake::Leak)?;
    write_place(text, manager, leak.place)
}

/// Appends what is told of what a manager noted, as one line.
pub(crate) fn write_finding<F: Minifilter>(
    text: &mut String,
    manager: &TrialManager<F>,
    finding: &Finding,
) -> Result<(), AllocError> {
    match finding {
        Finding::Answer(mistake, place) => write_told(text, manager, *mistake, *place),
        Finding::Leak(leak) => write_leak(text, manager, leak),
        Finding::Call(mistake, refusal) => write_refusal(text, manager, *mistake, refusal),
    }
}

/// Appends what is told of a callback.
pub(crate) fn write_told<F: Minifilter>(
    text: &mut String,
    manager: &TrialManager<F>,
    told: Mistake,
    place: Place,
) -> Result<(), AllocError> {
    write!(text, "{told}")?;
    write_place(text, manager, place)
}

/// The callback that holds an operation.
pub(crate) fn holder_of<F: Minifilter>(manager: &TrialManager<F>, operation: OpId) -> Place {
    match held_at(manager.state(), operation) {
        Some((instance, Hold::Pre)) => Place::Pre(operation, instance),
        Some((instance, Hold::Post)) => Place::Post(operation, instance),
        None => Place::Idle,
    }
}

// Appends that a call of a port was a mistake.
fn write_refusal<F: Minifilter>(
    text: &mut String,
    manager: &TrialManager<F>,
    told: Mistake,
    refusal: &Refusal,
) -> Result<(), AllocError> {
    write!(
        text,
        "{told} ({} was refused with {} {})",
        refusal.call,
        refusal.status.number(),
        refusal.status.name()
    )?;
    write_place(text, manager, refusal.place)
}
