//! Where clients wait for the answers of their operations, and how a thread looks a while before it sleeps.

ghost use Rattle.std.specs.Prelude.{◌<◌};

use crate::carriers::Carriers;
use fm_spin::Looks;
use fm_types::{OpId, WorkerId};
use std::array;
use std::sync::Condvar;
use std::sync::atomic::{AtomicU64, Ordering};

/// How many conditions clients wait by.
const PLACES: usize = 32;

/// How many loads a pause between two looks for the lock takes: some microseconds. Whoever has the lock makes several events meanwhile, while what they
/// touch is in its processor's cache.
const PAUSE: usize = 3_000;

/// A condition that clients wait by.
#[derive(Drop)]
pub(crate) struct WaitPlace {
    pub(crate) changed: Condvar,
    // The number of the operation that was last told done here. It is a hint alone.
    told: AtomicU64,
}

impl WaitPlace {
    fn new() -> WaitPlace {
        WaitPlace {
            changed: Condvar::new(),
            told: AtomicU64::new(u64::MAX),
        }
    }

    // Whether an operation is told done before so many loads were made.
    fn is_told_within(&self, loads: usize, operation: OpId) -> bool {
        'looks: for _ in 0..loads {
            if self.told.load(Ordering::SeqCst) == operation.0 {
                return true;
            }
        }
        false
    }
}

/// The places where clients wait: each at that of its operation's number. So the end of an operation wakes its own client, and few others.
#[derive(Drop)]
pub(crate) struct Waiting {
    places: [WaitPlace; PLACES],
    // How many clients wait.
    clients: AtomicU64,
    // How long the next clients look.
    looks: Looks,
    // Which workers take jobs, a bit for each.
    workers: AtomicU64,
    /// Who could carry on what a filter began for itself.
    pub(crate) carriers: Carriers,
}

/// The bit of a worker.
pub(crate) fn bit_of(worker: WorkerId) -> u64 {
    1_u64.checked_shl(u32::from(worker.0)).unwrap_or(0)
}

fn place_of(operation: OpId) -> usize
    ensures { result < 32 }
{
    (operation.0 % 32) as usize
}

impl Waiting {
    pub(crate) fn new() -> Waiting {
        Waiting {
            places: array::from_fn(|_| WaitPlace::new()),
            clients: AtomicU64::new(0),
            looks: Looks::new(),
            workers: AtomicU64::new(0),
            carriers: Carriers::new(),
        }
    }

    /// The place of an operation.
    pub(crate) fn place(&self, operation: OpId) -> &WaitPlace {
        &self.places[place_of(operation)]
    }

    /// Tells the clients at an operation's place that it is done.
    pub(crate) fn tell(&self, operation: OpId) {
        self.place(operation)
            .told
            .store(operation.0, Ordering::SeqCst);
        self.wake(operation);
    }

    /// Has the clients at an operation's place look again: it may be the turn of one of them.
    pub(crate) fn wake(&self, operation: OpId) {
        self.place(operation).changed.notify_all();
    }

    /// A client begins to wait for an operation. One that waits alone first looks a while: its answer may come before it could fall asleep. Where others
    /// wait too, or looks were in vain, the processors have better to do.
    pub(crate) fn enter(&self, operation: OpId) {
        if self.clients.fetch_add(1, Ordering::SeqCst) == 0 {
            self.look(operation);
        }
    }

    // Looks for the end of an operation, as long as looks last now.
    fn look(&self, operation: OpId) {
        let loads = self.looks.begin();
        if loads != 0 {
            self.looks
                .end(self.place(operation).is_told_within(loads, operation));
        }
    }

    /// It has waited.
    pub(crate) fn leave(&self) {
        self.clients.fetch_sub(1, Ordering::SeqCst);
    }

    /// From now on that worker takes jobs.
    pub(crate) fn takes_jobs(&self, worker: WorkerId) {
        self.workers.fetch_or(bit_of(worker), Ordering::SeqCst);
    }

    /// It takes none any more.
    pub(crate) fn leaves_jobs(&self, worker: WorkerId) {
        self.workers.fetch_and(!bit_of(worker), Ordering::SeqCst);
    }

    /// Whether it does.
    pub(crate) fn is_taking_jobs(&self, worker: WorkerId) -> bool {
        self.workers.load(Ordering::SeqCst) & bit_of(worker) != 0
    }

    /// A pause of some microseconds. `spin_loop` does nothing here, and a loop that looks at nothing would be left out.
    pub(crate) fn pause(&self) {
        'pause: for _ in 0..PAUSE {
            if self.clients.load(Ordering::SeqCst) == u64::MAX {
                break 'pause;
            }
        }
    }
}
