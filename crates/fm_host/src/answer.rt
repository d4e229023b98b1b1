//! What the host tells, as a base answers it.

ghost use Rattle.std.specs.Prelude.{◌≡◌, IfErr};
ghost use Rattle.fm_base.specs.Answers.{faults_after};
ghost use Rattle.fm_host.specs.Told.{status_of, answer_of, IsHostRefusal};

use fm_types::Status;
use std::io;
use std::io::ErrorKind;

/// The status for an error: 19 where a file, or a folder above it, isn't there, 20 where a file is there
/// already, 1 where a growth of this program's own was refused, and 18 for all else, also where the host
/// wants memory, which its error then says by a number of the host's.
fn status_of(error: &io::Error) -> Status
    ensures { result ≡ status_of error.now }
{
    match error.kind() {
        ErrorKind::NotFound | ErrorKind::NotADirectory => Status::FileNotFound,
        ErrorKind::AlreadyExists => Status::AlreadyExists,
        ErrorKind::OutOfMemory if error.raw_os_error().is_none() => Status::NoMemory,
        _ => Status::DeviceFault,
    }
}

/// What the host told, as a base answers it. A fault is counted.
pub fn answer<T>(failures: &mut u64, told: io::Result<T>) -> Result<T, Status>
    ensures value { result ≡ answer_of told }
    ensures refused { IfErr result IsHostRefusal }
    ensures counts { failures.new ≡ faults_after failures.old result }
{
    match told {
        Ok(value) => Ok(value),
        Err(error) => {
            let status = status_of(&error);
            if status == Status::DeviceFault {
                *failures = failures.saturating_add(1);
            }
            Err(status)
        }
    }
}
