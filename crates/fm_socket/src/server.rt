//! A server's threads, from the first to the last.

ghost use Rattle.std.specs.Prelude.{◌≡◌, All, IfSome};
ghost use Rattle.fm_queue.specs.Passes.{IsPassOf};
ghost use Rattle.fm_rundown.specs.Seats.{IsSeatOf};
ghost use Rattle.fm_lock.specs.Blanks.{IsBlankOf};

use crate::connection::Connection;
use crate::connections::{Connections, Incoming};
use crate::endpoint::Endpoint;
use crate::faults::{fault_of, outside};
use crate::gate_seat::{ServerWorker, VolumeSeat};
use crate::leftovers::Leftovers;
use crate::program::ServerSummary;
use fm_cli::Fault;
use fm_device::Device;
use fm_filter::Callbacks;
use fm_lock::{Hand, Manager};
use fm_queue::{JobPass, JobQueue};
use fm_rundown::{GateSeat, RundownGate};
use fm_types::limits::{CONNECTIONS, JOBS, WORKERS};
use fm_types::{FilterId, Name, Status};
use fm_worker::{NoHook, Worker};
use std::alloc::{AllocError, Global};
use std::io::Write;
use std::os::unix::net::UnixListener;
use std::slice::IterMut;
use std::sync::Wait;
use std::sync::ledger::{Blank, Ledger};
use std::thread;
use std::thread::{Scope, Threads};
use std::time::{Clock, Duration};

/// How many milliseconds the accept rests after an error.
const REST: u64 = 20;

/// How often what connections left is looked at, at the end, and how many milliseconds lie between two looks: five seconds in all.
const LOOKS: u32 = 500;

const PAUSE: u64 = 10;

/// How many milliseconds lie between two looks at whether all workers take jobs.
const LOOK: u64 = 1;

/// What all threads of a server share.
#[derive(Drop)]
struct ServerShared<'a, F: Drop, L: Ledger, R: Wait> {
    rt: &'a R,
    alloc: Global,
    manager: &'a Manager<F, L>,
    queue: &'a JobQueue,
    rundown: &'a RundownGate,
    gate: &'a NoHook,
    leftovers: &'a Leftovers,
}

// Takes a seat at the rundown gate.
fn take_seat(rundown: &RundownGate, seats: &mut Vec<GateSeat>) -> Option<GateSeat>
    requires own { All (λ seat. IsSeatOf rundown.now seat) seats.old.items }
    ensures own { All (λ seat. IsSeatOf rundown.now seat) seats.new.items }
    ensures taken { IfSome result (λ seat. IsSeatOf rundown.now seat) }
{
    seats.pop()
}

impl<'a, F: Callbacks, L: Ledger, R: Wait> ServerShared<'a, F, L, R> {
    // The worker of a thread, over those devices.
    fn worker<D: Device>(
        &self,
        passes: &mut Vec<JobPass>,
        devices: D,
    ) -> Result<ServerWorker<'a, F, L, R, D>, Status>
        requires { All (λ pass. IsPassOf self.now.queue.now pass) passes.old.items }
        ensures { All (λ pass. IsPassOf self.now.queue.now pass) passes.new.items }
    {
        Worker::new(
            self.rt,
            self.manager,
            self.queue,
            self.gate,
            self.alloc,
            passes,
            devices,
        )
    }

    // The workers.
    fn workers<D: Device>(
        &self,
        passes: &mut Vec<JobPass>,
        below: Vec<D>,
    ) -> Result<Vec<ServerWorker<'a, F, L, R, D>>, Status>
        requires { All (λ pass. IsPassOf self.now.queue.now pass) passes.old.items }
        ensures { All (λ pass. IsPassOf self.now.queue.now pass) passes.new.items }
    {
        let mut workers = Vec::with_capacity(self.alloc, WORKERS)?;
        'workers: for devices in below {
            let worker = self.worker(passes, devices)?;
            workers.push(worker)?;
        }
        Ok(workers)
    }

    // A thread's place for connections, with its worker and its seat.
    fn connection<D: Device>(
        &self,
        passes: &mut Vec<JobPass>,
        seats: &mut Vec<GateSeat>,
        devices: D,
    ) -> Result<Connection<'a, F, L, R, D>, Status>
        requires passes { All (λ pass. IsPassOf self.now.queue.now pass) passes.old.items }
        requires seats { All (λ seat. IsSeatOf self.now.rundown.now seat) seats.old.items }
        ensures passes { All (λ pass. IsPassOf self.now.queue.now pass) passes.new.items }
        ensures seats { All (λ seat. IsSeatOf self.now.rundown.now seat) seats.new.items }
    {
        let Some(seat) = take_seat(self.rundown, seats) else {
            return Err(Status::TooMany);
        };
        let worker = self.worker(passes, devices)?;
        let seat = VolumeSeat::new(self.rundown, seat);
        Ok(Connection::new(self.alloc, worker, self.leftovers, seat))
    }

    // All of them.
    fn connections<D: Device>(
        &self,
        passes: &mut Vec<JobPass>,
        seats: &mut Vec<GateSeat>,
        below: Vec<D>,
    ) -> Result<Vec<Connection<'a, F, L, R, D>>, Status>
        requires passes { All (λ pass. IsPassOf self.now.queue.now pass) passes.old.items }
        requires seats { All (λ seat. IsSeatOf self.now.rundown.now seat) seats.old.items }
    {
        let mut all = Vec::with_capacity(self.alloc, CONNECTIONS)?;
        'connections: for devices in below {
            let connection = self.connection(passes, seats, devices)?;
            all.push(connection)?;
        }
        Ok(all)
    }
}

impl<'a, F: Callbacks, L: Ledger, R: Wait> ServerShared<'a, F, L, R> {
    // What the threads own.
    fn parts<D: Device>(
        &self,
        passes: &mut Vec<JobPass>,
        seats: &mut Vec<GateSeat>,
        workers: Vec<D>,
        connections: Vec<D>,
    ) -> Result<ThreadParts<'a, F, L, R, D>, Status>
        requires passes { All (λ pass. IsPassOf self.now.queue.now pass) passes.old.items }
        requires seats { All (λ seat. IsSeatOf self.now.rundown.now seat) seats.old.items }
    {
        let workers = self.workers(passes, workers)?;
        let connections = self.connections(passes, seats, connections)?;
        Ok(ThreadParts {
            workers,
            connections,
        })
    }
}

// Takes connections until a Stop came. The socket is closed after it, and so is the end at which they come in: the threads inside end once they have served who
// is there. An error ends nothing but that try.
fn accept<R: Wait + Clock>(
    connections: &Connections<'_, R>,
    listener: UnixListener,
    incoming: Incoming,
) {
    for stream in listener.incoming() {
        if connections.is_stopping() {
            break;
        }
        match stream {
            Ok(stream) => connections.admit(&incoming, stream),
            Err(_) => thread::sleep(connections.rt(), Duration::from_millis(REST)),
        }
    }
}

// Says that connections are taken. All workers take jobs then.
fn say_ready<W: Write>(out: &mut W) -> Result<(), Fault> {
    out.write_all(b"ready\n").map_err(outside)?;
    out.flush().map_err(outside)
}

/// Where connections come in, and where it is said that they are taken.
#[derive(Drop)]
struct Listening<W: Drop> {
    listener: UnixListener,
    incoming: Incoming,
    out: W,
}

impl<W: Write + Drop> Listening<W> {
    // Says that connections are taken, and takes them until a Stop came.
    fn serve<R: Wait + Clock>(self, connections: &Connections<'_, R>) -> Served<W> {
        let Listening {
            listener,
            incoming,
            mut out,
        } = self;
        let served = say_ready(&mut out);
        if served.is_ok() {
            accept(connections, listener, incoming);
        }
        Served { served, out }
    }

    // Takes none, since not all threads could be made.
    fn give_up(self) -> Served<W> {
        Served {
            served: Err(Fault::Memory(AllocError)),
            out: self.out,
        }
    }
}

/// What taking connections came to: whether all threads could be made and `ready` be said, and the writer.
#[derive(Drop)]
struct Served<W: Drop> {
    served: Result<(), Fault>,
    out: W,
}

// Unloads each filter, after the end of a dismount that began.
fn unload_all<F: Callbacks, L: Ledger, R: Wait, D: Device>(
    connection: &mut Connection<'_, F, L, R, D>,
    filters: usize,
) {
    connection.end_dismount();
    let worker = connection.worker();
    for filter in 0..u8::try_from(filters).unwrap_or(u8::MAX) {
        let _ = worker.force_unload(FilterId(filter));
    }
}

// Takes the answers of operations whose clients are gone, and closes the handles that were left open. Where a filter holds some, it is unloaded beside the
// workers, which has it let them go: they are looked at again, for five seconds at most. Whether nothing is left.
fn end_leftovers<F: Callbacks, L: Ledger, R: Wait + Clock, D: Device>(
    leftovers: &Leftovers,
    connection: &mut Connection<'_, F, L, R, D>,
    filters: usize,
) -> bool {
    let rt = connection.worker().rt();
    for _ in 0..LOOKS {
        if leftovers.end_all(connection.worker()) {
            return true;
        }
        unload_all(connection, filters);
        thread::sleep(rt, Duration::from_millis(PAUSE));
    }
    false
}

// After the last connection: what is left of connections is ended, and the workers end. Whether nothing is left.
fn end_connections<F: Callbacks, L: Ledger, R: Wait + Clock, D: Device>(
    leftovers: &Leftovers,
    all: &mut [Connection<'_, F, L, R, D>],
    filters: usize,
    workers: usize,
) -> bool {
    let Some(connection) = all.first_mut() else {
        return false;
    };
    let is_clean = end_leftovers(leftovers, connection, filters);
    let worker = connection.worker();
    worker.put_all_aside();
    for _ in 0..workers {
        worker.stop_worker();
    }
    is_clean
}

// After the last worker, so that none still cleans up: each filter is unloaded.
fn end_filters<F: Callbacks, L: Ledger, R: Wait, D: Device>(
    all: &mut [Connection<'_, F, L, R, D>],
    filters: usize,
) {
    if let Some(connection) = all.first_mut() {
        unload_all(connection, filters);
    }
}

// The hands of these threads. There is room for them.
fn gather_hands<F: Callbacks, L: Ledger, R: Wait, D: Device>(
    parts: ThreadParts<'_, F, L, R, D>,
    hands: &mut Vec<Hand<L>>,
) {
    let ThreadParts {
        workers,
        connections,
    } = parts;
    gather_workers(workers, hands);
    for connection in connections {
        let _ = hands.push(connection.into_hand());
    }
}

// The hands of these workers. There is room for them.
fn gather_workers<F: Callbacks, L: Ledger, R: Wait, D: Device>(
    workers: Vec<ServerWorker<'_, F, L, R, D>>,
    hands: &mut Vec<Hand<L>>,
) {
    for worker in workers {
        let _ = hands.push(worker.into_parts().0);
    }
}

/// How a server's threads ended: whether nothing stayed open, and what taking connections came to.
#[derive(Drop)]
struct Outcome<W: Drop> {
    is_clean: bool,
    served: Served<W>,
}

/// What the threads of a server own: workers, and places for connections.
#[derive(Drop)]
struct ThreadParts<'a, F: Drop, L: Ledger, R: Wait, D: Device> {
    workers: Vec<ServerWorker<'a, F, L, R, D>>,
    connections: Vec<Connection<'a, F, L, R, D>>,
}

// Starts the thread of a worker. Whether it could be made.
fn start_worker<'s, 'a: 's, E, F, L, R, D>(
    scope: &Scope<'s, E>,
    worker: &'s mut ServerWorker<'a, F, L, R, D>,
) -> bool
where
    F: Callbacks + Send + Sync + 's,
    L: Ledger + Send + Sync + 's,
    R: Wait + Sync + 's,
    D: Device + Send + 's,
{
    scope.spawn(move || worker.work()).is_ok()
}

// Starts a thread for each of these workers. How many could be made, and whether those are all.
fn start_workers<'s, 'a: 's, E, F, L, R, D>(
    scope: &Scope<'s, E>,
    every: IterMut<'s, ServerWorker<'a, F, L, R, D>>,
) -> (usize, bool)
where
    F: Callbacks + Send + Sync + 's,
    L: Ledger + Send + Sync + 's,
    R: Wait + Sync + 's,
    D: Device + Send + 's,
{
    let mut started = 0_usize;
    for worker in every {
        if !start_worker(scope, worker) {
            return (started, false);
        }
        started = started.saturating_add(1);
    }
    (started, true)
}

// Starts the thread of connections, one after the other. Whether it could be made.
fn start_connection<'s, 'a: 's, 'c: 's, E, F, L, R, D>(
    scope: &Scope<'s, E>,
    connections: &'s Connections<'c, R>,
    connection: &'s mut Connection<'a, F, L, R, D>,
) -> bool
where
    F: Callbacks + Send + Sync + 's,
    L: Ledger + Send + Sync + 's,
    R: Wait + Sync + Clock + 's,
    D: Device + Send + 's,
{
    scope
        .spawn(move || connections.serve_thread(connection))
        .is_ok()
}

// Starts a thread for each of these. Whether all could be made.
fn start_connections<'s, 'a: 's, 'c: 's, E, F, L, R, D>(
    scope: &Scope<'s, E>,
    connections: &'s Connections<'c, R>,
    every: IterMut<'s, Connection<'a, F, L, R, D>>,
) -> bool
where
    F: Callbacks + Send + Sync + 's,
    L: Ledger + Send + Sync + 's,
    R: Wait + Sync + Clock + 's,
    D: Device + Send + 's,
{
    for connection in every {
        if !start_connection(scope, connections, connection) {
            return false;
        }
    }
    true
}

// A thread for each connection that may be there, and then the accept beside them, once `ready` is said. It ends after the last connection.
fn serve_connections<F, L, R, D, W>(
    connections: &Connections<'_, R>,
    all: &mut [Connection<'_, F, L, R, D>],
    listening: Listening<W>,
) -> Served<W>
where
    F: Callbacks + Send + Sync,
    L: Ledger + Send + Sync,
    R: Threads + Wait + Sync + Clock,
    D: Device + Send,
    W: Write + Drop,
{
    let rt = connections.rt();
    let every = all.iter_mut();
    thread::scope(thread::scope_env(), rt, |scope| {
        if start_connections(scope, connections, every) {
            listening.serve(connections)
        } else {
            listening.give_up()
        }
    })
}

// Waits until so many workers take jobs. Before that nobody could carry on what a filter begins for itself while it is asked.
fn await_workers<F: Callbacks, L: Ledger, R: Wait + Clock>(
    rt: &R,
    manager: &Manager<F, L>,
    workers: usize,
) {
    for _ in rt.forever() {
        if manager.carriers() as usize >= workers {
            return;
        }
        thread::sleep(rt, Duration::from_millis(LOOK));
    }
    unreachable!()
}

// In a scope: a thread for each worker, and the connections beside them once all workers take jobs. If a thread can't be made, no connection is taken.
fn serve_in<'s, 'a: 's, 'c, E, F, L, R, D, W>(
    scope: &Scope<'s, E>,
    manager: &Manager<F, L>,
    workers: IterMut<'s, ServerWorker<'a, F, L, R, D>>,
    connections: &Connections<'_, R>,
    all: &mut [Connection<'c, F, L, R, D>],
    listening: Listening<W>,
) -> (usize, Served<W>)
where
    F: Callbacks + Send + Sync + 's,
    L: Ledger + Send + Sync + 's,
    R: Threads + Wait + Sync + Clock + 's,
    D: Device + Send + 's,
    W: Write + Drop,
{
    let (started, are_all) = start_workers(scope, workers);
    let served = if are_all {
        await_workers(connections.rt(), manager, started);
        serve_connections(connections, all, listening)
    } else {
        listening.give_up()
    };
    (started, served)
}

// A thread for each worker, and the connections beside them, until the last has ended; then the workers end.
fn serve_beside<'a, F, L, R, D, W>(
    connections: &Connections<'_, R>,
    leftovers: &Leftovers,
    manager: &Manager<F, L>,
    parts: ThreadParts<'a, F, L, R, D>,
    listening: Listening<W>,
) -> (Outcome<W>, ThreadParts<'a, F, L, R, D>)
where
    F: Callbacks + Send + Sync,
    L: Ledger + Send + Sync,
    R: Threads + Wait + Sync + Clock,
    D: Device + Send,
    W: Write + Drop,
{
    let ThreadParts {
        mut workers,
        connections: mut all,
    } = parts;
    let rt = connections.rt();
    let every = workers.iter_mut();
    let (outcome, mut all) = thread::scope(thread::scope_env(), rt, |scope| {
        let (started, served) = serve_in(scope, manager, every, connections, &mut all, listening);
        let is_clean = end_connections(leftovers, &mut all, manager.filters(rt), started);
        (Outcome { is_clean, served }, all)
    });
    end_filters(&mut all, manager.filters(rt));
    (
        outcome,
        ThreadParts {
            workers,
            connections: all,
        },
    )
}

// A server's threads over that manager, from their workers to their hands. Where they can't be made the writer comes back with the status.
fn run_threads<'a, F, L, R, D, W>(
    rt: &'a R,
    alloc: Global,
    manager: &'a Manager<F, L>,
    endpoint: Endpoint<D>,
    out: W,
) -> Result<(Outcome<W>, Vec<Hand<L>>), (Status, W)>
where
    F: Callbacks + Send + Sync,
    L: Ledger + Send + Sync,
    R: Threads + Wait + Sync + Clock,
    D: Device + Send,
    W: Write + Drop,
{
    let Endpoint {
        workers,
        connections,
        listener,
        bell,
    } = endpoint;
    let (queue, mut passes) = match JobQueue::new(alloc, JOBS, 2 * WORKERS) {
        Ok(made) => made,
        Err(status) => return Err((status, out)),
    };
    let (rundown, mut seats) = match RundownGate::new(alloc, 1, CONNECTIONS) {
        Ok(made) => made,
        Err(status) => return Err((status, out)),
    };
    let leftovers = match Leftovers::new(alloc) {
        Ok(leftovers) => leftovers,
        Err(status) => return Err((status, out)),
    };
    let gate = NoHook;
    let shared = ServerShared {
        rt,
        alloc,
        manager,
        queue: &queue,
        rundown: &rundown,
        gate: &gate,
        leftovers: &leftovers,
    };
    let mut hands = match Vec::with_capacity(alloc, WORKERS) {
        Ok(hands) => hands,
        Err(_) => return Err((Status::NoMemory, out)),
    };
    let parts = match shared.parts(&mut passes, &mut seats, workers, connections) {
        Ok(parts) => parts,
        Err(status) => return Err((status, out)),
    };
    let (connections, incoming) = match Connections::new(rt, alloc, bell) {
        Ok(made) => made,
        Err(status) => return Err((status, out)),
    };
    let listening = Listening {
        listener,
        incoming,
        out,
    };
    let (outcome, parts) = serve_beside(&connections, &leftovers, manager, parts, listening);
    gather_hands(parts, &mut hands);
    Ok((outcome, hands))
}

/// A server: its manager of these filters, the threads over it, and what it says at its end. `Memory` if a growth was refused, `Outside` if the socket, the writer or the start
/// of a thread failed. The writer is handed back.
pub(crate) fn run_server<F, L, R, D, W>(
    rt: &R,
    alloc: Global,
    filters: Vec<(Name, F)>,
    blank: Blank,
    endpoint: Endpoint<D>,
    out: W,
) -> (Result<ServerSummary, Fault>, W)
where
    F: Callbacks + Send + Sync,
    L: Ledger + Send + Sync,
    R: Threads + Wait + Sync + Clock,
    D: Device + Send,
    W: Write + Drop,
    requires blank { IsBlankOf blank.name blank.parts L.name L.parts }
{
    let manager = match mounted::<F, L, R>(rt, alloc, filters, blank) {
        Ok(manager) => manager,
        Err(status) => return (Err(fault_of(status)), out),
    };
    let (outcome, hands) = match run_threads(rt, alloc, &manager, endpoint, out) {
        Ok(ended) => ended,
        Err((status, out)) => return (Err(fault_of(status)), out),
    };
    let Outcome { is_clean, served } = outcome;
    let Served { served, out } = served;
    match served {
        Ok(()) => (Ok(end(rt, manager, hands, is_clean)), out),
        Err(fault) => (Err(fault), out),
    }
}

// A manager of these filters, with the only volume.
fn mounted<F: Callbacks, L: Ledger, R: Wait>(
    rt: &R,
    alloc: Global,
    filters: Vec<(Name, F)>,
    blank: Blank,
) -> Result<Manager<F, L>, Status>
    requires blank { IsBlankOf blank.name blank.parts L.name L.parts }
{
    let manager = Manager::<F, L>::new(alloc, filters, blank)?;
    manager.mount(rt, Name::read(b"v0")?)?;
    Ok(manager)
}

// The end of a manager. If it can't end, it says itself what it has.
fn end<F: Callbacks, L: Ledger, R: Wait>(
    rt: &R,
    manager: Manager<F, L>,
    hands: Vec<Hand<L>>,
    is_clean: bool,
) -> ServerSummary
    requires { L.parts ≡ 49 }
{
    match manager.shutdown(hands) {
        Ok(report) => ServerSummary {
            born: report.born,
            cleaned: report.cleaned,
            leaks: report.leaks,
            is_clean,
        },
        Err((manager, _hands, _status)) => ServerSummary {
            born: manager.born(rt),
            cleaned: manager.cleaned_count(rt),
            leaks: manager.leaks(rt),
            is_clean: false,
        },
    }
}
