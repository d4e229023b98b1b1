//! Measures parts of the manager and of the server: `bench memory`, `queue`, `gate`, `wire`, `local`, `lock` or `workers`, and after it a number that says how much is done; the figures are printed.
//! Given no word, it does a little of each and prints nothing.
#![tactic(auto)]

mod gate;
mod gated;
mod listed;
mod local;
mod lock;
mod locked;
mod memory;
mod queue;
mod ruled;
mod wire;
mod workers;
mod works;

use std::time::Duration;
use std::{env, io};

// How many a second, where so many took so long.
fn a_second(count: u64, time: Duration) -> u128 {
    let nanoseconds = time.as_nanos().max(1);
    u128::from(count).saturating_mul(1_000_000_000) / nanoseconds
}

fn main(rt: HostRuntime) -> io::Result<()> {
    let mut words = env::args(&rt)?;
    let part = words.nth(1);
    let count: Option<u64> = words.next().and_then(|word| word.parse().ok());
    match part {
        None => {
            memory::measure(&rt, None)?;
            queue::measure(&rt, &rt, None)?;
            gate::measure(&rt, &rt, None)?;
            wire::measure(&rt, None)?;
            local::measure(&rt, None)?;
            lock::measure(&rt, &rt, None)?;
            workers::measure(&rt, &rt, None)
        }
        Some(part) => match part.as_str() {
            "memory" => memory::measure(&rt, count),
            "queue" => queue::measure(&rt, &rt, count),
            "gate" => gate::measure(&rt, &rt, count),
            "wire" => wire::measure(&rt, count),
            "local" => local::measure(&rt, count),
            "lock" => lock::measure(&rt, &rt, count),
            "workers" => workers::measure(&rt, &rt, count),
            _ => Err(io::Error::from(io::ErrorKind::InvalidInput)),
        },
    }
}
