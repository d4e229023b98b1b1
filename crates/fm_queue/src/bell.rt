//! Whom a put wakes: one thread that sleeps until a job is put, or nobody if one looks for it already.

use fm_spin::Looks;
use std::sync::Wait;
use std::sync::atomic::{AtomicU64, Ordering};

/// What the threads that take jobs wait by. It only says who is to wake: what is queued, the channel alone knows.
#[derive(Drop)]
pub struct Bell {
    // Jobs that are queued, and those that are being put: never fewer than the channel has.
    queued: AtomicU64,
    // How many jobs were put so far. A thread that looks reads it, and those that sleep do so on it.
    puts: AtomicU64,
    // 1 while a thread looks: one at a time.
    looking: AtomicU64,
    // How long the next looks last. The thread that looks alone changes it.
    looks: Looks,
    // Threads that sleep, and those that are about to.
    sleepers: AtomicU64,
}

impl Bell {
    /// A bell of a queue that is empty.
    pub fn new() -> Bell {
        Bell {
            queued: AtomicU64::new(0),
            puts: AtomicU64::new(0),
            looking: AtomicU64::new(0),
            looks: Looks::new(),
            sleepers: AtomicU64::new(0),
        }
    }

    /// Counts a job before it is put. Whether it is the only one, which a thread that looks will take: of the jobs that are queued at any time
    /// that is one at most, since it is counted until it was taken.
    pub fn announce(&self) -> bool {
        self.queued.fetch_add(1, Ordering::SeqCst) == 0
    }

    /// The job wasn't put.
    pub fn withdraw(&self) {
        self.queued.fetch_sub(1, Ordering::SeqCst);
    }

    /// The job was put: wakes one thread that sleeps, unless one looks that will take this job. That one has its last try after it ended its
    /// look, and so after this put.
    pub fn ring(&self, is_only: bool) {
        self.puts.fetch_add(1, Ordering::SeqCst);
        if is_only && self.looking.load(Ordering::SeqCst) != 0 {
            return;
        }
        if self.sleepers.load(Ordering::SeqCst) != 0 {
            self.puts.wake_one();
        }
    }

    /// A job was taken.
    pub fn taken(&self) {
        self.queued.fetch_sub(1, Ordering::SeqCst);
    }

    /// Looks a while for a job, if none is queued and no other thread looks. Try to take one afterwards: a put may rely on it.
    pub fn look(&self) {
        if self.is_empty() && self.looking.swap(1, Ordering::SeqCst) == 0 {
            let puts = self.puts.load(Ordering::SeqCst);
            if self.is_empty() {
                self.watch(puts);
            }
            self.looking.store(0, Ordering::SeqCst);
        }
    }

    fn is_empty(&self) -> bool {
        self.queued.load(Ordering::SeqCst) == 0
    }

    // Looks until there are more puts than those, as long as looks last now.
    fn watch(&self, puts: u64) {
        let loads = self.looks.begin();
        if loads != 0 {
            self.looks.end(self.is_put_within(loads, puts));
        }
    }

    // Whether there are more puts than those before so many loads were made. The loop reads memory, since a loop with nothing to read is no pause.
    fn is_put_within(&self, loads: usize, puts: u64) -> bool {
        'looks: for _ in 0..loads {
            if self.puts.load(Ordering::SeqCst) != puts {
                return true;
            }
        }
        false
    }

    /// Counts a thread that is about to sleep. It tries once more to take a job, and then sleeps, if it got none, as long as no job is put
    /// after this call. The puts are compared by 32 bits: 2^32 of them in between would look like none.
    pub fn listen(&self) -> u32 {
        self.sleepers.fetch_add(1, Ordering::SeqCst);
        (self.puts.load(Ordering::SeqCst) & 0xffff_ffff) as u32
    }

    /// Sleeps until a job is put, if it has to. It may also wake for no reason.
    pub fn sleep<R: Wait>(&self, rt: &R, heard: u32, has_to: bool) {
        if has_to {
            self.puts.park(rt, heard);
        }
        self.sleepers.fetch_sub(1, Ordering::SeqCst);
    }
}
