//! Statuses and errors as faults of a program.

use fm_cli::Fault;
use fm_types::Status;
use std::alloc::AllocError;
use std::io;

/// The fault that a status is to a program: want of memory, or a fault outside.
pub(crate) fn fault_of(status: Status) -> Fault {
    match status {
        Status::NoMemory => Fault::Memory(AllocError),
        _ => Fault::Outside(io::Error::from(io::ErrorKind::Other)),
    }
}

/// The fault that an error of the host is: want of memory, if it says so.
pub(crate) fn outside(error: io::Error) -> Fault {
    match error.kind() {
        io::ErrorKind::OutOfMemory => Fault::Memory(AllocError),
        _ => Fault::Outside(error),
    }
}
