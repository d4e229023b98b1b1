//! What a run named, as its reader is told it.

use crate::event::{callback_of, instance_in, operation_in};
use crate::notes::{Notes, What};
use crate::push::{push_ascii, push_id, push_number};
use crate::text::Text;
use fm_core::{Phase, Place};
use fm_types::{ContextKind, CreateMode, Major};

/// Appends a filter: `f0 scanner`.
pub fn push_filter(text: &mut Text, notes: &Notes, filter: u64) {
    push_id(text, 'f', filter);
    match notes.filter(filter) {
        Some(note) => push_name(text, note.name.text()),
        None => {}
    }
}

/// Appends a volume: `v0 disk`.
pub fn push_volume(text: &mut Text, notes: &Notes, volume: u64) {
    push_id(text, 'v', volume);
    match notes.volume(volume) {
        Some(note) => push_name(text, note.name.text()),
        None => {}
    }
}

// Appends a name behind a space.
fn push_name(text: &mut Text, name: &[u8]) {
    text.push(' ');
    push_ascii(text, name)
}

/// Appends an instance: `i0 scanner@320000`.
pub fn push_instance(text: &mut Text, notes: &Notes, instance: u64) {
    push_id(text, 'i', instance);
    let Some(note) = notes.instance(instance) else {
        return;
    };
    push_name(text, note.name.text());
    text.push('@');
    push_ascii(text, note.altitude.text())
}

/// Appends an operation: `o1 READ h0 0..9`.
pub fn push_operation(text: &mut Text, notes: &Notes, operation: u64) {
    push_id(text, 'o', operation);
    match notes.what(Some(operation)) {
        Some(what) => {
            text.push(' ');
            push_what(text, what)
        }
        None => {}
    }
}

/// Appends a context: `c0 (stream context of i0)`.
pub fn push_context(text: &mut Text, notes: &Notes, context: u64) {
    push_id(text, 'c', context);
    let Some(note) = notes.context(context) else {
        return;
    };
    text.push_str(" (");
    text.push_str(kind_word(note.kind));
    text.push_str(" context of ");
    push_id(text, 'i', u64::from(note.instance));
    text.push(')')
}

/// The word for a kind of contexts.
pub fn kind_word(kind: ContextKind) -> &'static str {
    match kind {
        ContextKind::Volume => "volume",
        ContextKind::Instance => "instance",
        ContextKind::Stream => "stream",
        ContextKind::Handle => "handle",
        ContextKind::File => "file",
    }
}

/// The word for how a create finds its file.
pub fn mode_word(mode: CreateMode) -> &'static str {
    match mode {
        CreateMode::Existing => "existing",
        CreateMode::New => "new",
        CreateMode::Always => "always",
    }
}

/// The words for how far an instance's life is.
pub fn phase_word(phase: Phase) -> &'static str {
    match phase {
        Phase::Setup => "in its setup",
        Phase::Attached => "attached",
        Phase::Stopping => "stopping",
        Phase::Completing => "in its teardown-complete",
        Phase::Emptying => "being emptied",
        Phase::Detached => "detached",
    }
}

/// The name of a major function (`IRP_MJ_..`).
pub fn major_word(major: Major) -> &'static str {
    match major {
        Major::CreateNamedPipe => "CREATE_NAMED_PIPE",
        Major::QueryInformation => "QUERY_INFORMATION",
        Major::SetInformation => "SET_INFORMATION",
        Major::QueryEa => "QUERY_EA",
        Major::SetEa => "SET_EA",
        Major::QueryVolumeInformation => "QUERY_VOLUME_INFORMATION",
        Major::SetVolumeInformation => "SET_VOLUME_INFORMATION",
        Major::DirectoryControl => "DIRECTORY_CONTROL",
        Major::FileSystemControl => "FILE_SYSTEM_CONTROL",
        Major::DeviceControl => "DEVICE_CONTROL",
        Major::InternalDeviceControl => "INTERNAL_DEVICE_CONTROL",
        Major::Shutdown => "SHUTDOWN",
        Major::LockControl => "LOCK_CONTROL",
        Major::CreateMailslot => "CREATE_MAILSLOT",
        Major::QuerySecurity => "QUERY_SECURITY",
        Major::SetSecurity => "SET_SECURITY",
        Major::Power => "POWER",
        Major::SystemControl => "SYSTEM_CONTROL",
        Major::DeviceChange => "DEVICE_CHANGE",
        Major::QueryQuota => "QUERY_QUOTA",
        Major::SetQuota => "SET_QUOTA",
        Major::Pnp => "PNP",
        other => fast_word(other),
    }
}

// Of one that is no IRP's: a fast I/O call, or a callback of the file systems' own.
fn fast_word(major: Major) -> &'static str {
    match major {
        Major::VolumeDismount => "VOLUME_DISMOUNT",
        Major::VolumeMount => "VOLUME_MOUNT",
        Major::PrepareMdlWrite => "PREPARE_MDL_WRITE",
        Major::MdlRead => "MDL_READ",
        Major::NetworkQueryOpen => "NETWORK_QUERY_OPEN",
        Major::FastIoCheckIfPossible => "FAST_IO_CHECK_IF_POSSIBLE",
        Major::QueryOpen => "QUERY_OPEN",
        Major::ReleaseForCcFlush => "RELEASE_FOR_CC_FLUSH",
        Major::AcquireForCcFlush => "ACQUIRE_FOR_CC_FLUSH",
        Major::ReleaseForModWrite => "RELEASE_FOR_MOD_WRITE",
        Major::AcquireForModWrite => "ACQUIRE_FOR_MOD_WRITE",
        Major::ReleaseForSectionSynchronization => "RELEASE_FOR_SECTION_SYNCHRONIZATION",
        Major::AcquireForSectionSynchronization => "ACQUIRE_FOR_SECTION_SYNCHRONIZATION",
        _ => "OTHER",
    }
}

// Appends what an operation does: its word, what it is on, and between which offsets.
fn push_what(text: &mut Text, what: &What) {
    text.push_str(what.title());
    if let Some(handle) = what.handle() {
        text.push(' ');
        push_id(text, 'h', handle);
    }
    match what {
        What::Create(volume, path, mode) => {
            push_on(text, *volume);
            push_name(text, path.path().text());
            text.push(' ');
            text.push_str(mode_word(*mode))
        }
        What::List(volume) => push_on(text, *volume),
        What::Other(_, _, number) => {
            text.push(' ');
            push_number(text, *number)
        }
        What::OtherV(volume, _, number) => {
            push_on(text, *volume);
            text.push(' ');
            push_number(text, *number)
        }
        What::Read(_, from, until) | What::Write(_, from, until) => {
            push_range(text, *from, *until)
        }
        What::SetSize(_, size) => {
            text.push(' ');
            push_number(text, *size)
        }
        _ => {}
    }
}

// Appends a volume's id behind a space.
fn push_on(text: &mut Text, volume: u8) {
    text.push(' ');
    push_id(text, 'v', u64::from(volume))
}

// Appends two offsets behind a space.
fn push_range(text: &mut Text, from: u64, until: u64) {
    text.push(' ');
    push_number(text, from);
    text.push_str("..");
    push_number(text, until)
}

/// Appends where a worker is: `in the drain of i1 scanner@320000 for o2`.
pub fn push_place(text: &mut Text, notes: &Notes, place: Place) {
    match place {
        Place::Idle => return text.push_str("idle"),
        Place::Base(_) => text.push_str("in the file system's call"),
        Place::Cleanup(_) => return text.push_str("in the cleanup of a context"),
        other => {
            text.push_str("in the ");
            text.push_str(callback_of(other));
        }
    }
    if let Place::Unload(filter) = place {
        text.push_str(" of ");
        push_filter(text, notes, u64::from(filter.0));
    }
    push_object(text, notes, place)
}

// Appends of which instance a callback is, and for which operation.
fn push_object(text: &mut Text, notes: &Notes, place: Place) {
    if let Some(instance) = instance_in(place) {
        text.push_str(" of ");
        push_instance(text, notes, instance);
    }
    if let Some(operation) = operation_in(place) {
        text.push_str(" for ");
        push_id(text, 'o', operation);
    }
}
