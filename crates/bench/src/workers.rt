//! Reads that workers carry on, through a filter that counts them and one that works for a while in each of its callbacks.

ghost use Rattle.std.specs.Prelude.{◌≡◌, All};
ghost use Rattle.fm_queue.specs.Passes.{IsPassOf};
ghost use Rattle.fm_lock.specs.Blanks.{IsBlankOf};

use crate::a_second;
use crate::works::Works;
use fm_altitude::Altitude;
use fm_base::MemoryBase;
use fm_callback_data::{FileRequest, Request};
use fm_device::Bases;
use fm_filter::Minifilter;
use fm_lock::Manager;
use fm_queue::{JobPass, JobQueue};
use fm_samples::Meter;
use fm_types::limits::PARTS;
use fm_types::{CreateMode, HandleId, Name, OpId, RelPath, SharedPath, Status, VolumeId};
use fm_worker::{NoHook, Worker};
use std::alloc::Global;
use std::marker::Brand;
use std::sync::Wait;
use std::sync::ledger::{Blank, Ledger};
use std::thread::Threads;
use std::time::{Duration, Instant};
use std::{io, thread};

/// How many batches of reads are made where no number is given.
const FEW: u64 = 2;

/// How many reads are under way at once.
const BATCH: u64 = 128;

/// How many rounds of arithmetic the filter that works takes in a callback.
const ROUNDS: u64 = 10_000;

/// That of a client or of a worker.
type MemoryWorker<'a, F, L, R> = Worker<'a, F, L, R, NoHook, Bases<MemoryBase>>;

fn folder(alloc: Global) -> Result<Bases<MemoryBase>, Status> {
    let mut bases = Bases::new(alloc)?;
    bases.place(MemoryBase::new(alloc));
    Ok(bases)
}

// Begins a batch of reads, and waits for all of them.
fn read_batch<F: Minifilter, L: Ledger, R: Wait>(
    rt: &R,
    alloc: Global,
    manager: &Manager<F, L>,
    client: &mut MemoryWorker<'_, F, L, R>,
) -> Result<(), Status> {
    let mut begun: Vec<OpId> = Vec::with_capacity(alloc, BATCH as usize)?;
    for _ in 0..BATCH {
        let operation = manager.begin(
            rt,
            Request::OnHandle {
                handle: HandleId(0),
                request: FileRequest::Read { offset: 0, len: 0 },
            },
        )?;
        client.submit(operation);
        begun.push(operation)?;
    }
    for operation in begun {
        manager.wait_reply(rt, operation)?;
    }
    Ok(())
}

// A file below the filter, and so many batches of reads of it.
fn read_all<F: Minifilter, L: Ledger, R: Wait>(
    rt: &R,
    alloc: Global,
    manager: &Manager<F, L>,
    client: &mut MemoryWorker<'_, F, L, R>,
    batches: u64,
) -> Result<(), Status> {
    let name = Name::read(b"f")?;
    let filter = client.load(&name)?;
    client.attach(filter, VolumeId(0), name, Altitude::read(b"100")?)?;
    client.answer(Request::Create {
        volume: VolumeId(0),
        path: SharedPath::new(alloc, RelPath::read(b"x")?)?,
        mode: CreateMode::Always,
    })?;
    for _ in 0..batches {
        read_batch(rt, alloc, manager, client)?;
    }
    Ok(())
}

// The same, and after it, whatever came of it, so many workers end.
fn ask<F: Minifilter, L: Ledger, R: Wait>(
    rt: &R,
    alloc: Global,
    manager: &Manager<F, L>,
    client: &mut MemoryWorker<'_, F, L, R>,
    load: Load,
) -> Result<(), Status> {
    let asked = read_all(rt, alloc, manager, client, load.batches);
    for _ in 0..load.workers {
        client.stop_worker();
    }
    asked
}

/// How much is done, and by how many workers: 1, 2 or 4.
#[derive(Clone, Copy)]
struct Load {
    batches: u64,
    workers: u8,
}

// So many workers.
fn new_worker<'a, F: Minifilter, L: Ledger, R: Wait>(
    rt: &'a R,
    alloc: Global,
    manager: &'a Manager<F, L>,
    queue: &'a JobQueue,
    gate: &'a NoHook,
    passes: &mut Vec<JobPass>,
) -> Result<MemoryWorker<'a, F, L, R>, Status>
    requires { All (λ pass. IsPassOf queue.now pass) passes.old.items }
    ensures { All (λ pass. IsPassOf queue.now pass) passes.new.items }
{
    Worker::new(rt, manager, queue, gate, alloc, passes, folder(alloc)?)
}

/// Those of a client and of four workers.
#[derive(Drop)]
struct Workers<'a, F: Drop, L: Ledger, R: Wait> {
    client: MemoryWorker<'a, F, L, R>,
    a: MemoryWorker<'a, F, L, R>,
    b: MemoryWorker<'a, F, L, R>,
    c: MemoryWorker<'a, F, L, R>,
    d: MemoryWorker<'a, F, L, R>,
}

fn make_workers<'a, F: Minifilter, L: Ledger, R: Wait>(
    rt: &'a R,
    alloc: Global,
    manager: &'a Manager<F, L>,
    queue: &'a JobQueue,
    gate: &'a NoHook,
    passes: &mut Vec<JobPass>,
) -> Result<Workers<'a, F, L, R>, Status>
    requires { All (λ pass. IsPassOf queue.now pass) passes.old.items }
{
    let client = new_worker(rt, alloc, manager, queue, gate, passes)?;
    let a = new_worker(rt, alloc, manager, queue, gate, passes)?;
    let b = new_worker(rt, alloc, manager, queue, gate, passes)?;
    let c = new_worker(rt, alloc, manager, queue, gate, passes)?;
    let d = new_worker(rt, alloc, manager, queue, gate, passes)?;
    Ok(Workers { client, a, b, c, d })
}

// The client asks, while so many workers work, each in a thread of its own.
fn ask_beside<F: Minifilter, L: Ledger + Send + Sync, R: Threads + Wait + Sync>(
    rt: &R,
    alloc: Global,
    manager: &Manager<F, L>,
    workers: Workers<'_, F, L, R>,
    load: Load,
) -> Result<(), Status> {
    let Workers {
        mut client,
        mut a,
        mut b,
        mut c,
        mut d,
    } = workers;
    let (asked, _) = thread::join(
        rt,
        || ask(rt, alloc, manager, &mut client, load),
        || thread::join(
            rt,
            || work_two(rt, &mut a, &mut b, load.workers.min(2)),
            || work_two(rt, &mut c, &mut d, load.workers.saturating_sub(2)),
        ),
    );
    asked
}

// A manager of that filter, and reads through it.
fn shared<F: Minifilter, L: Ledger + Send + Sync, R: Threads + Wait + Sync>(
    rt: &R,
    alloc: Global,
    blank: Blank,
    filter: F,
    load: Load,
) -> Result<(), Status>
    requires blank { IsBlankOf blank.name blank.parts L.name L.parts }
{
    let mut filters = Vec::new(alloc);
    filters.push((Name::read(b"f")?, filter))?;
    let manager = Manager::<F, L>::new(alloc, filters, blank)?;
    manager.mount(rt, Name::read(b"v")?)?;
    let (queue, mut passes) = JobQueue::new(alloc, 272, 10)?;
    let gate = NoHook;
    let workers = make_workers(rt, alloc, &manager, &queue, &gate, &mut passes)?;
    ask_beside(rt, alloc, &manager, workers, load)
}

// So many of two workers.
fn work_two<F: Minifilter, L: Ledger + Send + Sync, R: Threads + Wait + Sync>(
    rt: &R,
    one: &mut MemoryWorker<'_, F, L, R>,
    other: &mut MemoryWorker<'_, F, L, R>,
    workers: u8,
) {
    match workers {
        0 => {}
        1 => one.work(),
        _ => {
            let _ = thread::join(rt, || one.work(), || other.work());
        }
    }
}

fn or_fault(done: Result<(), Status>) -> io::Result<()> {
    done.map_err(|_| io::Error::from(io::ErrorKind::OutOfMemory))
}

// How long it takes through that filter.
fn time<F: Minifilter, R: Threads + Wait + Sync>(
    rt: &HostRuntime,
    threads: &R,
    filter: F,
    load: Load,
) -> io::Result<Duration> {
    let start = Instant::now(rt)?;
    or_fault(shared::<F, Brand, R>(threads, rt.alloc(), Blank::new(PARTS), filter, load))?;
    start.elapsed(rt)
}

fn tell(rt: &HostRuntime, filter: &str, load: Load, time: Duration) -> io::Result<()> {
    let reads = a_second(load.batches.saturating_mul(BATCH), time);
    println!(rt;
        "{filter}, {} workers: {reads} reads a second",
        load.workers
    )
}

/// Makes that many batches of 128 reads with 1, 2 and 4 workers, through `meter`, which counts them, and through a filter that works some 20 microseconds in
/// each callback, and prints how many reads were carried on in a second.
pub fn measure<R: Threads + Wait + Sync>(
    rt: &HostRuntime,
    threads: &R,
    given: Option<u64>,
) -> io::Result<()> {
    let batches = given.unwrap_or(FEW);
    for workers in [1, 2, 4] {
        let load = Load { batches, workers };
        let counting = time(rt, threads, Meter::new(rt.alloc()), load)?;
        let working = time(rt, threads, Works::new(ROUNDS), load)?;
        if given.is_some() {
            tell(rt, "meter", load, counting)?;
            tell(rt, "a filter that works", load, working)?;
        }
    }
    Ok(())
}
