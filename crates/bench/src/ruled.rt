//! Jobs through the job queue.

ghost use Rattle.std.specs.Prelude.{All, IfSome};
ghost use Rattle.fm_queue.specs.Passes.{IsPassOf};

use crate::queue::CAPACITY;
use fm_queue::{Job, JobPass, JobQueue};
use fm_types::{OpId, Status};
use std::alloc::Global;
use std::sync::Wait;
use std::thread;
use std::thread::Threads;

// Puts so many jobs, and Stop behind them.
fn put_all<R: Wait>(rt: &R, queue: &JobQueue, pass: &mut JobPass, count: u64)
    requires { IsPassOf queue.now pass.old }
    ensures { IsPassOf queue.now pass.new }
{
    for number in 0..count {
        put_soon(rt, queue, pass, Job::Run(OpId(number)));
    }
    put_soon(rt, queue, pass, Job::Stop);
}

fn put_soon<R: Wait>(rt: &R, queue: &JobQueue, pass: &mut JobPass, job: Job)
    requires { IsPassOf queue.now pass.old }
    ensures { IsPassOf queue.now pass.new }
{
    for _ in rt.forever() {
        if queue.put(rt, pass, job).is_ok() {
            return;
        }
        thread::yield_now();
    }
    unreachable!()
}

// Takes until Stop.
fn take_all<R: Wait>(rt: &R, queue: &JobQueue, pass: &mut JobPass)
    requires { IsPassOf queue.now pass.old }
{
    for _ in rt.forever() {
        if queue.take(rt, pass) == Job::Stop {
            return;
        }
    }
    unreachable!()
}

// A thread that puts and one that takes.
fn pair<R: Threads + Wait + Sync>(rt: &R, queue: &JobQueue, ends: Passes, jobs: u64)
    requires { IsPassOf queue.now ends.puts × IsPassOf queue.now ends.takes }
{
    let Passes {
        mut puts,
        mut takes,
    } = ends;
    thread::join(
        rt,
        move ||
            requires { IsPassOf queue.now puts }
        { put_all(rt, queue, &mut puts, jobs) },
        move ||
            requires { IsPassOf queue.now takes }
        { take_all(rt, queue, &mut takes) },
    );
}

// The passes of one pair.
#[derive(Drop)]
struct Passes {
    puts: JobPass,
    takes: JobPass,
}

// Two passes of a list.
fn next_passes(queue: &JobQueue, passes: &mut Vec<JobPass>) -> Option<Passes>
    requires { All (λ pass. IsPassOf queue.now pass) passes.old.items }
    ensures all { All (λ pass. IsPassOf queue.now pass) passes.new.items }
    ensures next { IfSome result (λ ends. IsPassOf queue.now ends.puts × IsPassOf queue.now ends.takes) }
{
    let _ = queue;
    let puts = passes.pop()?;
    let takes = passes.pop()?;
    Some(Passes { puts, takes })
}

/// Sends so many jobs from one thread to one, or from two to two.
pub fn exchange<R: Threads + Wait + Sync>(
    rt: &R,
    alloc: Global,
    is_double: bool,
    jobs: u64,
) -> Result<(), Status> {
    let (queue, mut passes) = JobQueue::new(alloc, CAPACITY, 4)?;
    let queue = &queue;
    let (Some(first), Some(second)) = (
        next_passes(queue, &mut passes),
        next_passes(queue, &mut passes),
    ) else {
        return Err(Status::TooMany);
    };
    if is_double {
        thread::join(
            rt,
            move ||
                requires { IsPassOf queue.now first.puts × IsPassOf queue.now first.takes }
            { pair(rt, queue, first, jobs / 2) },
            move ||
                requires { IsPassOf queue.now second.puts × IsPassOf queue.now second.takes }
            { pair(rt, queue, second, jobs / 2) },
        );
    } else {
        pair(rt, queue, first, jobs);
    }
    Ok(())
}
