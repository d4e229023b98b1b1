//! The queue's rows, and four threads at one queue.

ghost use Rattle.std.specs.Prelude.{◌≡◌, ◌+◌, All, IfSome, IfNone, sum_by};
ghost use Rattle.fm_queue.specs.Passes.{parts_of, IsPassOf};

use fm_queue::laws::jobs_are_kept;
use fm_queue::{Job, JobPass, JobQueue};
use fm_types::{OpId, Status};
use std::alloc::Global;
use std::ops::Range;
use std::process::Abort;
use std::sync::Wait;
use std::thread;
use std::thread::Threads;

fn run(number: u64) -> Job {
    Job::Run(OpId(number))
}

// The last pass of a list.
fn next_pass(queue: &JobQueue, passes: &mut Vec<JobPass>) -> Option<JobPass>
    requires { All (λ pass. IsPassOf queue.now pass) passes.old.items }
    ensures all { All (λ pass. IsPassOf queue.now pass) passes.new.items }
    ensures next { IfSome result (λ pass. IsPassOf queue.now pass) }
    ensures parts { IfSome result (λ pass. sum_by parts_of passes.new.items + parts_of pass ≡ sum_by parts_of passes.old.items) }
    ensures none { IfNone result (sum_by parts_of passes.old.items ≡ 0) }
{
    let _ = queue;
    passes.pop()
}

// What is said to a job.
type Put = Result<(), (Job, Status)>;

// Three jobs for a queue of two, and the last of them again once there is room: what is said to each, and what is taken.
fn puts_and_takes<R: Wait>(rt: &R, queue: &JobQueue, pass: &mut JobPass) -> ([Put; 4], [Job; 3])
    requires { IsPassOf queue.now pass.old }
    ensures own { IsPassOf queue.now pass.new }
    ensures parts { parts_of pass.new ≡ parts_of pass.old }
{
    let first = queue.put(rt, pass, run(0));
    let second = queue.put(rt, pass, run(1));
    let refused = queue.put(rt, pass, Job::Stop);
    let taken = queue.take(rt, pass);
    let stop = queue.put(rt, pass, Job::Stop);
    let last = queue.take(rt, pass);
    let stopped = queue.take(rt, pass);
    ([first, second, refused, stop], [taken, last, stopped])
}

// The third job is refused and handed back.
fn are_put(puts: [Put; 4]) -> bool {
    puts == [Ok(()), Ok(()), Err((Job::Stop, Status::TooMany)), Ok(())]
}

fn are_taken(taken: [Job; 3]) -> bool {
    taken == [run(0), run(1), Job::Stop]
}

#[test]
fn queue_of_two(rt: HostRuntime) {
    let (queue, mut passes) = JobQueue::new(rt.alloc(), 2, 1).expect(&rt, "a queue");
    let mut pass = next_pass(&queue, &mut passes).expect(&rt, "a pass");
    let (puts, taken) = puts_and_takes(&rt, &queue, &mut pass);
    assert!(rt; next_pass(&queue, &mut passes).is_none());
    jobs_are_kept(&queue, &mut pass);
    assert!(rt; are_put(puts) && are_taken(taken));
}

fn refusal(alloc: Global, capacity: usize, passes: usize) -> Option<Status> {
    JobQueue::new(alloc, capacity, passes).err()
}

#[test]
fn no_room_and_no_pass(rt: HostRuntime) {
    let no_room = refusal(rt.alloc(), 0, 1);
    let no_pass = refusal(rt.alloc(), 1, 0);
    let neither = refusal(rt.alloc(), 0, 0);
    assert_eq!(rt; [no_room, no_pass, neither], [Some(Status::BadRequest); 3]);
    assert_eq!(rt; refusal(rt.alloc(), 1, 1), None);
}

// Puts a job as soon as there is room.
fn put_soon<R: Wait>(rt: &R, queue: &JobQueue, pass: &mut JobPass, job: Job)
    requires { IsPassOf queue.now pass.old }
    ensures own { IsPassOf queue.now pass.new }
    ensures parts { parts_of pass.new ≡ parts_of pass.old }
{
    for _ in rt.forever() {
        match queue.put(rt, pass, job) {
            Ok(()) => return,
            Err(_) => thread::yield_now(),
        }
    }
    unreachable!()
}

// Puts a job for each of these operations, and Stop behind them.
fn put_all<R: Wait>(rt: &R, queue: &JobQueue, mut pass: JobPass, numbers: Range<u64>) -> JobPass
    requires { IsPassOf queue.now pass }
    ensures own { IsPassOf queue.now result }
    ensures parts { parts_of result ≡ parts_of pass }
{
    for number in numbers {
        put_soon(rt, queue, &mut pass, run(number));
    }
    put_soon(rt, queue, &mut pass, Job::Stop);
    pass
}

// Takes jobs until Stop, and gives the operations in the order in which they came.
fn take_all<R: Abort + Wait>(rt: &R, alloc: Global, queue: &JobQueue, mut pass: JobPass) -> Taken
    requires { IsPassOf queue.now pass }
    ensures own { IsPassOf queue.now result.pass }
    ensures parts { parts_of result.pass ≡ parts_of pass }
{
    let mut numbers = Vec::new(alloc);
    for _ in rt.forever() {
        match queue.take(rt, &mut pass) {
            Job::Run(operation) => numbers.push(operation.0).expect(rt, "memory"),
            Job::Stop => return Taken { pass, numbers },
        }
    }
    unreachable!()
}

// What one thread took, with its pass.
#[derive(Drop)]
struct Taken {
    pass: JobPass,
    numbers: Vec<u64>,
}

// Two threads that put 10,000 jobs each and a Stop. Gives one pass for both.
fn put_both<R: Threads + Wait + Sync>(
    rt: &R,
    queue: &JobQueue,
    one: JobPass,
    other: JobPass,
) -> JobPass
    requires { IsPassOf queue.now one × IsPassOf queue.now other }
    ensures own { IsPassOf queue.now result }
    ensures parts { parts_of result ≡ parts_of one + parts_of other }
{
    let (mut one, other) = thread::join(
        rt,
        move ||
            requires { IsPassOf queue.now one }
            ensures { IsPassOf queue.entry.now result × (parts_of result ≡ parts_of one) }
        { put_all(rt, queue, one, 0..10_000) },
        move ||
            requires { IsPassOf queue.now other }
            ensures { IsPassOf queue.entry.now result × (parts_of result ≡ parts_of other) }
        { put_all(rt, queue, other, 5_000..15_000) },
    );
    queue.absorb(&mut one, other);
    one
}

// Two threads that take until Stop.
fn take_both<R: Abort + Threads + Wait + Sync>(
    rt: &R,
    alloc: Global,
    queue: &JobQueue,
    one: JobPass,
    other: JobPass,
) -> (Taken, Taken)
    requires { IsPassOf queue.now one × IsPassOf queue.now other }
    ensures own { IsPassOf queue.now result.0.pass × IsPassOf queue.now result.1.pass }
    ensures parts { parts_of result.0.pass + parts_of result.1.pass ≡ parts_of one + parts_of other }
{
    thread::join(
        rt,
        move ||
            requires { IsPassOf queue.now one }
            ensures { IsPassOf queue.entry.now result.pass × (parts_of result.pass ≡ parts_of one) }
        { take_all(rt, alloc, queue, one) },
        move ||
            requires { IsPassOf queue.now other }
            ensures { IsPassOf queue.entry.now result.pass × (parts_of result.pass ≡ parts_of other) }
        { take_all(rt, alloc, queue, other) },
    )
}

// Two threads put and two take. Gives what each took.
fn exchange<R: Abort + Threads + Wait + Sync>(rt: &R, alloc: Global) -> (Vec<u64>, Vec<u64>) {
    let (queue, mut passes) = JobQueue::new(alloc, 64, 4).expect(rt, "a queue");
    let queue = &queue;
    let a = next_pass(queue, &mut passes).expect(rt, "four passes");
    let b = next_pass(queue, &mut passes).expect(rt, "four passes");
    let c = next_pass(queue, &mut passes).expect(rt, "four passes");
    let d = next_pass(queue, &mut passes).expect(rt, "four passes");
    let (mut whole, (one, other)) = thread::join(
        rt,
        move ||
            requires { IsPassOf queue.now a × IsPassOf queue.now b }
            ensures { IsPassOf queue.entry.now result × (parts_of result ≡ parts_of a + parts_of b) }
        { put_both(rt, queue, a, b) },
        move ||
            requires { IsPassOf queue.now c × IsPassOf queue.now d }
            ensures { IsPassOf queue.entry.now result.0.pass × IsPassOf queue.entry.now result.1.pass × (parts_of result.0.pass + parts_of result.1.pass ≡ parts_of c + parts_of d) }
        { take_both(rt, alloc, queue, c, d) },
    );
    queue.absorb(&mut whole, one.pass);
    queue.absorb(&mut whole, other.pass);
    assert!(rt; next_pass(queue, &mut passes).is_none());
    jobs_are_kept(queue, &mut whole);
    (one.numbers, other.numbers)
}

// Counts how often each operation was taken.
fn tally(times: &mut [u32], taken: &[u64]) {
    for number in taken {
        if let Some(count) = times.get_mut(*number as usize) {
            *count = count.saturating_add(1);
        }
    }
}

// How often each operation below 15,000 was taken.
fn times(rt: &impl Abort, alloc: Global, taken: &[u64], more: &[u64]) -> Vec<u32> {
    let mut times = Vec::from_elem(alloc, 0u32, 15_000).expect(rt, "memory");
    tally(&mut times, taken);
    tally(&mut times, more);
    times
}

// The first operation that wasn't taken as often as it was put: twice from the 5,000th to the 9,999th, and once otherwise.
fn other_operation(times: &[u32]) -> Option<usize> {
    for (number, count) in times.iter().enumerate() {
        let is_put_twice = 5_000 <= number && number < 10_000;
        if *count != 1 + u32::from(is_put_twice) {
            return Some(number);
        }
    }
    None
}

#[test]
fn four_threads(rt: HostRuntime) {
    let (taken, more) = exchange(&rt, rt.alloc());
    let count = taken.len().saturating_add(more.len());
    let other = other_operation(&times(&rt, rt.alloc(), &taken, &more));
    assert_eq!(rt; (count, other), (20_000, None));
}
