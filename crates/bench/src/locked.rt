//! A count under a Mutex, with the closing bit.

use std::sync::{Mutex, Wait};
use std::thread;
use std::thread::Threads;

/// What the lock is round.
#[derive(Drop)]
struct Count {
    passes: u64,
    is_closing: bool,
}

// False where the count is closing.
fn enter<R: Wait>(rt: &R, count: &Mutex<Count>) -> bool {
    let mut count = count.lock(rt);
    if count.is_closing {
        return false;
    }
    count.passes = count.passes.wrapping_add(1);
    true
}

fn leave<R: Wait>(rt: &R, count: &Mutex<Count>) {
    let mut count = count.lock(rt);
    count.passes = count.passes.wrapping_sub(1);
}

fn work<R: Wait>(rt: &R, count: &Mutex<Count>, pairs: u64) {
    for _ in 0..pairs {
        if enter(rt, count) {
            leave(rt, count);
        }
    }
}

fn work_twice<R: Threads + Wait + Sync>(rt: &R, count: &Mutex<Count>, pairs: u64) {
    thread::join(rt, || work(rt, count, pairs), || work(rt, count, pairs));
}

/// So many pairs, by one thread or by four.
pub fn pairs<R: Threads + Wait + Sync>(rt: &R, is_four: bool, pairs: u64) {
    let count = Mutex::new(Count {
        passes: 0,
        is_closing: false,
    });
    let count = &count;
    if is_four {
        let each = pairs / 4;
        thread::join(
            rt,
            || work_twice(rt, count, each),
            || work_twice(rt, count, each),
        );
    } else {
        work(rt, count, pairs);
    }
}
