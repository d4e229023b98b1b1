//! The same queue as a list under a Mutex, with a Condvar for those that wait for a job.

use crate::queue::CAPACITY;
use fm_queue::Job;
use fm_types::OpId;
use std::alloc::{AllocError, Global};
use std::collections::VecDeque;
use std::sync::{Condvar, Mutex, Wait};
use std::thread;
use std::thread::Threads;

/// A bounded list of jobs.
#[derive(Drop)]
struct List {
    jobs: Mutex<VecDeque<Job>>,
    some: Condvar,
}

impl List {
    fn new(alloc: Global) -> Result<List, AllocError> {
        Ok(List {
            jobs: Mutex::new(VecDeque::with_capacity(alloc, CAPACITY)?),
            some: Condvar::new(),
        })
    }

    // False where it is full.
    fn put<R: Wait>(&self, rt: &R, job: Job) -> bool {
        let mut jobs = self.jobs.lock(rt);
        if jobs.len() >= CAPACITY || jobs.push_back(job).is_err() {
            return false;
        }
        self.some.notify_one();
        true
    }

    // Waits for a job.
    fn take<R: Wait>(&self, rt: &R) -> Job {
        for _ in rt.forever() {
            let mut jobs = self
                .some
                .wait_while(rt, self.jobs.lock(rt), |jobs| jobs.is_empty());
            if let Some(job) = jobs.pop_front() {
                return job;
            }
        }
        unreachable!()
    }
}

// Puts so many jobs, and Stop behind them.
fn put_all<R: Wait>(rt: &R, list: &List, count: u64) {
    for number in 0..count {
        put_soon(rt, list, Job::Run(OpId(number)));
    }
    put_soon(rt, list, Job::Stop);
}

fn put_soon<R: Wait>(rt: &R, list: &List, job: Job) {
    for _ in rt.forever() {
        if list.put(rt, job) {
            return;
        }
        thread::yield_now();
    }
}

// Takes until Stop.
fn take_all<R: Wait>(rt: &R, list: &List) {
    for _ in rt.forever() {
        if list.take(rt) == Job::Stop {
            return;
        }
    }
}

/// Sends so many jobs from one thread to one, or from two to two.
pub fn exchange<R: Threads + Wait + Sync>(
    rt: &R,
    alloc: Global,
    is_double: bool,
    jobs: u64,
) -> Result<(), AllocError> {
    let list = List::new(alloc)?;
    let list = &list;
    if is_double {
        thread::join(rt, || pair(rt, list, jobs / 2), || pair(rt, list, jobs / 2));
    } else {
        pair(rt, list, jobs);
    }
    Ok(())
}

// A thread that puts and one that takes.
fn pair<R: Threads + Wait + Sync>(rt: &R, list: &List, jobs: u64) {
    thread::join(rt, || put_all(rt, list, jobs), || take_all(rt, list));
}
