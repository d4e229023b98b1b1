//! The outcome of a call: success, or the reason for which it was refused.

ghost use Rattle.std.specs.Prelude.{◌≡◌, ◌<◌, ◌==◌, ◌↔◌, cond, IfSome, IsSome, option_map};
ghost use Rattle.fm_types.specs.Statuses.{number_of, information_of, name_of};

use std::alloc::{AllocError, AllocFailed};

/// Why a call was refused, or that it succeeded. Each status has a number, 0 to 34 in the order in
/// which they stand here, and `Busy` has a count beside it.
#[derive(Clone, Copy, Debug, PartialEq, Eq)]
pub enum Status {
    /// The call did what was asked.
    Success,
    /// A growth of memory was refused.
    NoMemory,
    /// A text is no altitude.
    BadAltitude,
    /// A text is no name.
    BadName,
    /// The name is taken.
    NameCollision,
    /// The altitude is taken by an instance of the volume.
    AltitudeCollision,
    /// No filter has that id.
    NoFilter,
    /// No volume has that id.
    NoVolume,
    /// No instance has that id.
    NoInstance,
    /// The filter isn't loaded.
    NotLoaded,
    /// A filter of that name is loaded.
    AlreadyLoaded,
    /// The filter refused to be attached.
    DoNotAttach,
    /// The filter refused to be detached.
    DoNotDetach,
    /// The object is being torn down.
    DeletingObject,
    /// No handle has that id.
    NoHandle,
    /// A text is no path.
    BadPath,
    /// The file is marked for deletion.
    DeletePending,
    /// The operation isn't allowed.
    AccessDenied,
    /// The device failed.
    DeviceFault,
    /// No file has that path.
    FileNotFound,
    /// A file of that path is there.
    AlreadyExists,
    /// The filter registered for no such context.
    NotRegistered,
    /// A context is set already.
    AlreadyDefined,
    /// The context is linked to an object already.
    AlreadyLinked,
    /// No context is set.
    NoContext,
    /// The caller holds no such reference.
    NotHeld,
    /// The caller's hand has no place left.
    HandFull,
    /// The operation has no object of that kind.
    NoObject,
    /// The callback wasn't pended.
    NotPended,
    /// A limit of the filter manager is reached.
    TooMany,
    /// The call is out of its order.
    WrongStep,
    /// The file ends before the offset.
    EndOfFile,
    /// The request has no meaning.
    BadRequest,
    /// The volume is being dismounted.
    Dismounting,
    /// So many things are still in use.
    Busy(u64),
}

impl Status {
    /// The status's number, 0 to 34.
    pub fn number(self) -> u8
        ensures value { result ≡ number_of self }
        ensures small { result < 35 }
    {
        match self {
            Status::Success => 0,
            Status::NoMemory => 1,
            Status::BadAltitude => 2,
            Status::BadName => 3,
            Status::NameCollision => 4,
            Status::AltitudeCollision => 5,
            Status::NoFilter => 6,
            Status::NoVolume => 7,
            Status::NoInstance => 8,
            Status::NotLoaded => 9,
            Status::AlreadyLoaded => 10,
            Status::DoNotAttach => 11,
            Status::DoNotDetach => 12,
            Status::DeletingObject => 13,
            Status::NoHandle => 14,
            Status::BadPath => 15,
            Status::DeletePending => 16,
            Status::AccessDenied => 17,
            Status::DeviceFault => 18,
            Status::FileNotFound => 19,
            Status::AlreadyExists => 20,
            Status::NotRegistered => 21,
            Status::AlreadyDefined => 22,
            Status::AlreadyLinked => 23,
            Status::NoContext => 24,
            Status::NotHeld => 25,
            Status::HandFull => 26,
            Status::NoObject => 27,
            Status::NotPended => 28,
            Status::TooMany => 29,
            Status::WrongStep => 30,
            Status::EndOfFile => 31,
            Status::BadRequest => 32,
            Status::Dismounting => 33,
            Status::Busy(_) => 34,
        }
    }

    /// The status's name, as this enum spells it.
    pub fn name(self) -> &'static str
        ensures { result.now ≡ name_of self }
    {
        match self {
            Status::Success => "Success",
            Status::NoMemory => "NoMemory",
            Status::BadAltitude => "BadAltitude",
            Status::BadName => "BadName",
            Status::NameCollision => "NameCollision",
            Status::AltitudeCollision => "AltitudeCollision",
            Status::NoFilter => "NoFilter",
            Status::NoVolume => "NoVolume",
            Status::NoInstance => "NoInstance",
            Status::NotLoaded => "NotLoaded",
            Status::AlreadyLoaded => "AlreadyLoaded",
            Status::DoNotAttach => "DoNotAttach",
            Status::DoNotDetach => "DoNotDetach",
            Status::DeletingObject => "DeletingObject",
            Status::NoHandle => "NoHandle",
            Status::BadPath => "BadPath",
            Status::DeletePending => "DeletePending",
            Status::AccessDenied => "AccessDenied",
            Status::DeviceFault => "DeviceFault",
            Status::FileNotFound => "FileNotFound",
            Status::AlreadyExists => "AlreadyExists",
            Status::NotRegistered => "NotRegistered",
            Status::AlreadyDefined => "AlreadyDefined",
            Status::AlreadyLinked => "AlreadyLinked",
            Status::NoContext => "NoContext",
            Status::NotHeld => "NotHeld",
            Status::HandFull => "HandFull",
            Status::NoObject => "NoObject",
            Status::NotPended => "NotPended",
            Status::TooMany => "TooMany",
            Status::WrongStep => "WrongStep",
            Status::EndOfFile => "EndOfFile",
            Status::BadRequest => "BadRequest",
            Status::Dismounting => "Dismounting",
            Status::Busy(_) => "Busy",
        }
    }

    /// How many things are in use, for `Busy`; 0 for every other status.
    pub fn information(self) -> u64
        ensures { result ≡ information_of self }
    {
        match self {
            Status::Busy(count) => count,
            _ => 0,
        }
    }

    /// The status with that number, where there is one. `information` is the count of `Busy`, and
    /// isn't read for any other status.
    pub fn from_number(number: u8, information: u64) -> Option<Status>
        ensures there { IsSome result ↔ (number < 35) }
        ensures number { IfSome result (λ status. number_of status ≡ number) }
        ensures information { IfSome result (λ status. information_of status ≡ cond (number == 34) information 0) }
    {
        let status = match number {
            0 => Status::Success,
            1 => Status::NoMemory,
            2 => Status::BadAltitude,
            3 => Status::BadName,
            4 => Status::NameCollision,
            5 => Status::AltitudeCollision,
            6 => Status::NoFilter,
            7 => Status::NoVolume,
            8 => Status::NoInstance,
            9 => Status::NotLoaded,
            10 => Status::AlreadyLoaded,
            11 => Status::DoNotAttach,
            12 => Status::DoNotDetach,
            13 => Status::DeletingObject,
            14 => Status::NoHandle,
            15 => Status::BadPath,
            16 => Status::DeletePending,
            17 => Status::AccessDenied,
            18 => Status::DeviceFault,
            19 => Status::FileNotFound,
            20 => Status::AlreadyExists,
            21 => Status::NotRegistered,
            22 => Status::AlreadyDefined,
            23 => Status::AlreadyLinked,
            24 => Status::NoContext,
            25 => Status::NotHeld,
            26 => Status::HandFull,
            27 => Status::NoObject,
            28 => Status::NotPended,
            29 => Status::TooMany,
            30 => Status::WrongStep,
            31 => Status::EndOfFile,
            32 => Status::BadRequest,
            33 => Status::Dismounting,
            34 => Status::Busy(information),
            _ => return None,
        };
        Some(status)
    }
}

impl From<AllocError> for Status {
    ghost use Rattle.fm_types.specs.declared.status.Status.TheVariants.{NoMemory};

    ghost from_gives = { λ _ status. status ≡ NoMemory };

    fn from(_refused: AllocError) -> Status {
        Status::NoMemory
    }
}

impl<T: Drop> From<AllocFailed<T>> for Status {
    ghost use Rattle.fm_types.specs.declared.status.Status.TheVariants.{NoMemory};

    ghost from_gives = { λ _ status. status ≡ NoMemory };

    fn from(_refused: AllocFailed<T>) -> Status {
        Status::NoMemory
    }
}
