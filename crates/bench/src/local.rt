//! Requests through the one-thread manager: a file of 64 bytes is written and read so many times, through 0, 1, 8 and 32 instances of the filter shift, and
//! the same by plain calls: as many functions change the bytes, over the same kind of base.

use crate::a_second;
use fm_altitude::Altitude;
use fm_base::{Base, MemoryBase};
use fm_callback_data::{FileRequest, Reply, Request};
use fm_local::LocalManager;
use fm_samples::{Sample, Shift};
use fm_types::{
    Bytes, CreateMode, FilterId, HandleId, Name, RelPath, SharedPath, Status, VolumeId,
};
use std::alloc::{AllocError, Global};
use std::io;
use std::time::Instant;

/// How many times the file is written and read where no number is given.
const FEW: u64 = 10;

/// How many bytes the file has.
const LENGTH: u32 = 64;

/// How many instances there are.
const DEPTHS: [u8; 4] = [0, 1, 8, 32];

type Shifts = LocalManager<Sample, MemoryBase>;

fn filters(alloc: Global) -> Result<Vec<(Name, Sample)>, Status> {
    let mut filters = Vec::new(alloc);
    filters.push((Name::read(b"shift")?, Sample::Shift(Shift::new(alloc))))?;
    Ok(filters)
}

// Mounts the volume, and attaches so many instances of shift. (What owns a manager is proved dearly, so all that makes several calls of one borrows it.)
fn attach_all(alloc: Global, manager: &mut Shifts, depth: u8) -> Result<(), Status> {
    let volume = manager.mount(Name::read(b"disk")?, MemoryBase::new(alloc))?;
    let filter = manager.load(&Name::read(b"shift")?)?;
    for place in 0..depth {
        attach(manager, filter, volume, place)?;
    }
    Ok(())
}

// One more instance, under a name and at an altitude of its own.
fn attach(
    manager: &mut Shifts,
    filter: FilterId,
    volume: VolumeId,
    place: u8,
) -> Result<(), Status> {
    let digits = [
        b'1',
        b'0'.wrapping_add(place / 10),
        b'0'.wrapping_add(place % 10),
    ];
    let altitude = Altitude::read(&digits)?;
    manager.attach(filter, volume, Name::read(&digits)?, altitude)?;
    Ok(())
}

// The information and the bytes of an answer with success.
fn ask(manager: &mut Shifts, request: Request) -> Result<(u64, Bytes), Status> {
    match manager.answer(request) {
        Reply::Done {
            status: Status::Success,
            information,
            bytes,
        } => Ok((information, bytes)),
        Reply::Done { status, .. } => Err(status),
        Reply::Held(_) => Err(Status::WrongStep),
    }
}

fn create(alloc: Global, manager: &mut Shifts) -> Result<HandleId, Status> {
    let path = SharedPath::new(alloc, RelPath::read(b"file")?)?;
    let request = Request::Create {
        volume: VolumeId(0),
        path,
        mode: CreateMode::New,
    };
    let (handle, _) = ask(manager, request)?;
    Ok(HandleId(handle))
}

// Writes and reads the file once; the answer is how many bytes were read.
fn write_and_read(alloc: Global, manager: &mut Shifts, handle: HandleId) -> Result<u64, Status> {
    let mut bytes = Bytes::new(alloc);
    bytes.set_len(LENGTH as usize)?;
    let offset = 0;
    let write = FileRequest::Write { offset, bytes };
    ask(
        manager,
        Request::OnHandle {
            handle,
            request: write,
        },
    )?;
    let read = FileRequest::Read {
        offset,
        len: LENGTH,
    };
    let (_, bytes) = ask(
        manager,
        Request::OnHandle {
            handle,
            request: read,
        },
    )?;
    Ok(bytes.len() as u64)
}

// So many rounds; the answer is how many bytes were read.
fn ask_all(alloc: Global, manager: &mut Shifts, depth: u8, rounds: u64) -> Result<u64, Status> {
    attach_all(alloc, manager, depth)?;
    let handle = create(alloc, manager)?;
    let mut read = 0u64;
    for _ in 0..rounds {
        read = read.wrapping_add(write_and_read(alloc, manager, handle)?);
    }
    Ok(read)
}

fn by_requests(alloc: Global, depth: u8, rounds: u64) -> Result<u64, Status> {
    let mut manager = LocalManager::new(alloc, filters(alloc)?)?;
    ask_all(alloc, &mut manager, depth, rounds)
}

// Bytes with so much added to each, modulo 256: what one instance of shift makes of them.
fn shifted(alloc: Global, bytes: &[u8], by: u8) -> Result<Bytes, AllocError> {
    let changed = bytes
        .iter()
        .map(|byte| byte.wrapping_add(by))
        .collect(alloc)?;
    Ok(Bytes::from_vec(changed))
}

// Writes and reads the file once by plain calls; the answer is how many bytes were read.
fn call_and_call(
    alloc: Global,
    base: &mut MemoryBase,
    path: &RelPath,
    depth: u8,
) -> Result<u64, Status> {
    let mut bytes = Bytes::new(alloc);
    bytes.set_len(LENGTH as usize)?;
    for _ in 0..depth {
        bytes = shifted(alloc, bytes.as_slice(), 1)?;
    }
    if bytes.len() != LENGTH as usize {
        return Err(Status::BadRequest);
    }
    base.write(path, 0, bytes.as_slice())?;
    let mut bytes = base.read(path, 0, LENGTH)?;
    for _ in 0..depth {
        bytes = shifted(alloc, bytes.as_slice(), 255)?;
    }
    Ok(bytes.len() as u64)
}

fn call_all(alloc: Global, base: &mut MemoryBase, depth: u8, rounds: u64) -> Result<u64, Status> {
    let path = RelPath::read(b"file")?;
    base.create(&path, CreateMode::New)?;
    let mut read = 0u64;
    for _ in 0..rounds {
        read = read.wrapping_add(call_and_call(alloc, base, &path, depth)?);
    }
    Ok(read)
}

fn by_calls(alloc: Global, depth: u8, rounds: u64) -> Result<u64, Status> {
    let mut base = MemoryBase::new(alloc);
    call_all(alloc, &mut base, depth, rounds)
}

fn failed(_status: Status) -> io::Error {
    io::Error::from(io::ErrorKind::Other)
}

fn measure_at(rt: &HostRuntime, depth: u8, given: Option<u64>) -> io::Result<()> {
    let rounds = given.unwrap_or(FEW);
    let start = Instant::now(rt)?;
    let asked = by_requests(rt.alloc(), depth, rounds).map_err(failed)?;
    let asking = start.elapsed(rt)?;
    let start = Instant::now(rt)?;
    let called = by_calls(rt.alloc(), depth, rounds).map_err(failed)?;
    let calling = start.elapsed(rt)?;
    if asked != called {
        return Err(io::Error::from(io::ErrorKind::Other));
    }
    if given.is_some() {
        let made = rounds.saturating_mul(2);
        let (requests, calls) = (a_second(made, asking), a_second(made, calling));
        println!(rt; "{depth} shifts: {requests} requests a second, {calls} by plain calls")?;
    }
    Ok(())
}

/// Writes and reads a file that many times at each depth, and prints how many requests were answered in a second, and how many plain calls.
pub fn measure(rt: &HostRuntime, given: Option<u64>) -> io::Result<()> {
    for depth in DEPTHS {
        measure_at(rt, depth, given)?;
    }
    Ok(())
}
