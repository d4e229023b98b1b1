//! The call of a base, of whatever kind it is.

ghost use Rattle.std.specs.Prelude.{◌≡◌, ◌≤◌, length};
ghost use Rattle.fm_callback_data.specs.Params.{is_within_limits};
ghost use Rattle.fm_device.specs.Devices.{bare, faults_told, done_as, told_as, sized_as, is_listing, KnownAs, CarriesWithin, CarriesAny};

use fm_base::Base;
use fm_callback_data::{Answer, BaseCall, Params};
use fm_types::{Bytes, RelPath, SharedPath, Status};
use std::alloc::Global;

/// The base of a volume carries out what an operation that reached it asks (`IoCallDriver`). A call that
/// names no file and is no listing is answered with 32, and one past the limits or of a major function
/// without a kind of its own too; these change nothing.
/// Any other is answered, and changes the folder, as that says, unless memory is wanting (1) or the device
/// failed (18). Memory is wanting only if nothing else refuses the call, never for a size, a flush or an
/// unlink, and then nothing changes. A fault is counted, and nothing else is; after it nothing is said of a
/// file that the call changes, and all else stays. There are at most 32,768 bytes in the answer.
#[tactic(auto, using(crate::proofs::Answers::counted_told))]
pub fn call_base<B: Base>(alloc: Global, base: &mut B, call: &BaseCall) -> Answer
    ensures carried { KnownAs (B.folder base.old) (B.folder base.new) (λ old new. CarriesAny call.now.path call.now.params old new result) }
    ensures counts { B.faults base.new ≡ faults_told result.status (B.faults base.old) }
    ensures within { length result.bytes ≤ 32768 }
{
    if is_listing(call.params()) {
        return told(alloc, base.list());
    }
    match call.path() {
        Some(path) => on_file(alloc, base, path.path(), call.params()),
        None => refused(alloc, Status::BadRequest),
    }
}

fn is_listing(call: &Params) -> bool
    ensures { result ≡ is_listing call.now }
{
    matches!(call, Params::List)
}

pub(crate) fn refused(alloc: Global, status: Status) -> Answer
    ensures { result ≡ bare status }
{
    Answer {
        status,
        information: 0,
        bytes: Bytes::new(alloc),
    }
}

// An answer that says no more than whether it succeeded.
fn done(alloc: Global, outcome: Result<(), Status>) -> Answer
    ensures { result ≡ done_as outcome }
{
    match outcome {
        Ok(()) => refused(alloc, Status::Success),
        Err(status) => refused(alloc, status),
    }
}

// An answer with bytes.
fn told(alloc: Global, outcome: Result<Bytes, Status>) -> Answer
    ensures { result ≡ told_as outcome }
{
    match outcome {
        Ok(bytes) => Answer {
            status: Status::Success,
            information: bytes.len() as u64,
            bytes,
        },
        Err(status) => refused(alloc, status),
    }
}

// An answer with a size.
fn sized(alloc: Global, outcome: Result<u64, Status>) -> Answer
    ensures { result ≡ sized_as outcome }
{
    match outcome {
        Ok(size) => Answer {
            status: Status::Success,
            information: size,
            bytes: Bytes::new(alloc),
        },
        Err(status) => refused(alloc, status),
    }
}

// The call of an operation on a file. A close that reaches the base unlinks the file.
#[tactic(auto, using(crate::proofs::Answers::counted_done, crate::proofs::Answers::counted_told, crate::proofs::Answers::counted_sized))]
fn on_file<B: Base>(alloc: Global, base: &mut B, path: &RelPath, call: &Params) -> Answer
    ensures carried { KnownAs (B.folder base.old) (B.folder base.new) (λ old new. CarriesWithin (is_within_limits call.now) path.now call.now old new result) }
    ensures counts { B.faults base.new ≡ faults_told result.status (B.faults base.old) }
    ensures within { length result.bytes ≤ 32768 }
{
    if !call.is_within_limits() {
        return refused(alloc, Status::BadRequest);
    }
    match call {
        Params::Create { mode, .. } => done(alloc, base.create(path, *mode)),
        Params::Read { offset, len } => told(alloc, base.read(path, *offset, *len)),
        Params::Write { offset, bytes } => done(alloc, base.write(path, *offset, bytes.as_slice())),
        Params::QuerySize => sized(alloc, base.size(path)),
        Params::SetSize { size } => done(alloc, base.set_size(path, *size)),
        Params::Flush => done(alloc, base.flush(path)),
        Params::Close => done(alloc, base.unlink(path)),
        Params::List | Params::SetDelete | Params::Restore | Params::Cleanup => done(alloc, Ok(())),
        Params::Other { .. } => refused(alloc, Status::BadRequest),
    }
}
