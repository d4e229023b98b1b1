//! The rundown gate beside a count under a Mutex: one thread and then four enter and leave a volume so many times in all.

use crate::{a_second, gated, locked};
use std::io;
use std::sync::Wait;
use std::thread::Threads;
use std::time::Instant;

/// How many pairs are made where no number is given.
const FEW: u64 = 1_000;

/// Makes that many pairs at each, and prints how many were made in a second.
pub fn measure<R: Threads + Wait + Sync>(
    rt: &HostRuntime,
    threads: &R,
    given: Option<u64>,
) -> io::Result<()> {
    let pairs = given.unwrap_or(FEW);
    for is_four in [false, true] {
        let start = Instant::now(rt)?;
        let Ok(()) = gated::pairs(threads, rt.alloc(), is_four, pairs) else {
            return Err(io::Error::from(io::ErrorKind::OutOfMemory));
        };
        let gate = start.elapsed(rt)?;
        let start = Instant::now(rt)?;
        locked::pairs(threads, is_four, pairs);
        let lock = start.elapsed(rt)?;
        if given.is_some() {
            let count = if is_four { 4 } else { 1 };
            let (gate, lock) = (a_second(pairs, gate), a_second(pairs, lock));
            println!(rt;
                "threads {count}: rundown gate {gate}, count under a Mutex {lock} pairs a second"
            )?;
        }
    }
    Ok(())
}
