//! The job queue beside a list under a Mutex with a Condvar: so many jobs from one thread to one and from two to two.

use crate::{a_second, listed, ruled};
use std::io;
use std::sync::Wait;
use std::thread::Threads;
use std::time::Instant;

/// How many jobs either queue holds at most.
pub const CAPACITY: usize = 256;

/// How many jobs are sent where no number is given.
const FEW: u64 = 1_000;

/// Sends that many jobs through each, and prints how many passed in a second.
pub fn measure<R: Threads + Wait + Sync>(
    rt: &HostRuntime,
    threads: &R,
    given: Option<u64>,
) -> io::Result<()> {
    let jobs = given.unwrap_or(FEW);
    for count in [1, 2] {
        let start = Instant::now(rt)?;
        ruled::exchange(threads, rt.alloc(), count == 2, jobs).map_err(|_| io::Error::from(
            io::ErrorKind::OutOfMemory,
        ))?;
        let ruled = start.elapsed(rt)?;
        let start = Instant::now(rt)?;
        listed::exchange(threads, rt.alloc(), count == 2, jobs)?;
        let listed = start.elapsed(rt)?;
        if given.is_some() {
            let (ruled, listed) = (a_second(jobs, ruled), a_second(jobs, listed));
            println!(rt;
                "{count} to {count}: job queue {ruled}, list under a Mutex {listed} jobs a second"
            )?;
        }
    }
    Ok(())
}
