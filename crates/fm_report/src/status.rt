//! What statuses are about, in one sentence each.

use fm_types::Status;

/// Why a line is refused with that status, in general.
pub fn sentence(status: Status) -> &'static str {
    match status {
        Status::Success => "it was done",
        Status::NoMemory => "there is no memory for it",
        Status::BadAltitude => "an altitude is 1 to 64 digits with at most one point",
        Status::BadName => "a name is 1 to 32 letters, digits, '_' and '-'",
        Status::NameCollision => "the name is taken",
        Status::AltitudeCollision => "another instance on the volume has that altitude",
        Status::NoFilter => "there is no such filter",
        Status::NoVolume => "there is no such volume",
        Status::NoInstance => "there is no such instance",
        Status::NotLoaded => "the filter isn't loaded any more",
        Status::AlreadyLoaded => "a filter of that name is loaded",
        Status::DoNotAttach => "the filter declined: the instance is being emptied",
        Status::DoNotDetach => "the filter doesn't agree",
        Status::DeletingObject => "it is being torn down",
        Status::NoHandle => "no such handle is open for it",
        Status::BadPath => "a path is parts that '/' divides, none of them empty, '.' or '..'",
        Status::DeletePending => "the file is marked for deletion",
        other => more(other),
    }
}

fn more(status: Status) -> &'static str {
    match status {
        Status::AccessDenied => "it isn't allowed",
        Status::DeviceFault => "the device failed",
        Status::FileNotFound => "no file has that path",
        Status::AlreadyExists => "there is a file of that path",
        Status::NotRegistered => "the filter registered for no contexts of that kind",
        Status::AlreadyDefined => "a context is set there already",
        Status::AlreadyLinked => "the context is set somewhere already",
        Status::NoContext => "no context is set there",
        Status::NotHeld => "the worker holds no reference to it",
        Status::HandFull => "the worker holds 16 references already",
        Status::NoObject => "the callback has no object of that kind",
        Status::NotPended => "no callback of that instance holds the operation",
        Status::TooMany => "a limit is reached",
        Status::WrongStep => "it is out of order",
        Status::EndOfFile => "the file ends before that",
        Status::BadRequest => "the line can't be read",
        Status::Dismounting => "the volume is being dismounted",
        _ => "something is in the way",
    }
}
