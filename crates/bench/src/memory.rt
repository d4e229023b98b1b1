//! A base in memory: so many writes of 64 bytes all over a file of 1 MiB, each read back.

use crate::a_second;
use fm_base::{Base, MemoryBase};
use fm_types::{CreateMode, RelPath, Status};
use std::io;
use std::time::Instant;

/// How many times bytes are written and read where no number is given.
const FEW: u64 = 1_000;

/// How many pieces of 64 bytes the file has.
const PIECES: u64 = 16_384;

// Writes and reads; the answer is how many bytes were read.
fn write_and_read(base: &mut MemoryBase, path: &RelPath, rounds: u64) -> Result<u64, Status> {
    base.create(path, CreateMode::New)?;
    base.set_size(path, 64 * PIECES)?;
    let bytes = [7; 64];
    let mut read = 0u64;
    for round in 0..rounds {
        let offset = 64 * (round.wrapping_mul(7919) % PIECES);
        base.write(path, offset, &bytes)?;
        read = read.wrapping_add(base.read(path, offset, 64)?.len() as u64);
    }
    Ok(read)
}

/// Writes and reads that many times, and prints how many calls were made in a second.
pub fn measure(rt: &HostRuntime, given: Option<u64>) -> io::Result<()> {
    let rounds = given.unwrap_or(FEW);
    let mut base = MemoryBase::new(rt.alloc());
    let start = Instant::now(rt)?;
    let read = RelPath::read(b"file").and_then(|path| write_and_read(&mut base, &path, rounds));
    let time = start.elapsed(rt)?;
    let Ok(read) = read else {
        return Err(io::Error::from(io::ErrorKind::Other));
    };
    if given.is_some() {
        let calls = a_second(rounds.saturating_mul(2), time);
        println!(rt; "{read} bytes read back, {calls} calls a second")?;
    }
    Ok(())
}
