//! Who could carry on what a filter began for itself.

use crate::waiting::bit_of;
use fm_types::WorkerId;
use std::sync::Wait;
use std::sync::atomic::{AtomicU64, Ordering};

/// One thread that waits, above the bits of 48 workers.
const ONE: u64 = 1 << 48;

/// Which workers could carry on an operation that a filter began for itself: a bit for each that takes jobs and doesn't wait for such an operation itself.
/// Above them stands how many threads wait for one. While one waits a worker is left that doesn't.
#[derive(Drop)]
pub(crate) struct Carriers {
    word: AtomicU64,
}

// Whether a worker is there.
fn has_worker(word: u64) -> bool {
    word & (ONE - 1) != 0
}

// Whether a thread waits.
fn is_waited_for(word: u64) -> bool {
    word >= ONE
}

impl Carriers {
    pub(crate) fn new() -> Carriers {
        Carriers {
            word: AtomicU64::new(0),
        }
    }

    /// How many there are.
    pub(crate) fn count(&self) -> u32 {
        (self.word.load(Ordering::SeqCst) & (ONE - 1)).count_ones()
    }

    /// A worker takes jobs, and waits for nothing.
    pub(crate) fn add(&self, worker: WorkerId) {
        self.word.fetch_or(bit_of(worker), Ordering::SeqCst);
    }

    /// It takes none any more.
    pub(crate) fn remove(&self, worker: WorkerId) {
        self.word.fetch_and(!bit_of(worker), Ordering::SeqCst);
    }

    /// The same, unless a thread waits and no other worker is left: false then.
    pub(crate) fn leave<R: Wait>(&self, rt: &R, worker: WorkerId) -> bool {
        'tries: for _ in rt.forever() {
            let word = self.word.load(Ordering::SeqCst);
            let others = word & !bit_of(worker);
            if is_waited_for(word) && !has_worker(others) {
                return false;
            }
            if self.swap(word, others) {
                return true;
            }
        }
        unreachable!()
    }

    /// A thread begins to wait, so that it takes no job meanwhile. False if no other worker is left.
    pub(crate) fn begin_wait<R: Wait>(&self, rt: &R, worker: WorkerId) -> bool {
        'tries: for _ in rt.forever() {
            let word = self.word.load(Ordering::SeqCst);
            let others = word & !bit_of(worker);
            if !has_worker(others) {
                return false;
            }
            if self.swap(word, others.wrapping_add(ONE)) {
                return true;
            }
        }
        unreachable!()
    }

    /// It has waited, and takes jobs again if it did before.
    pub(crate) fn end_wait(&self, worker: WorkerId, takes_jobs: bool) {
        self.word.fetch_sub(ONE, Ordering::SeqCst);
        if takes_jobs {
            self.add(worker);
        }
    }

    // Writes a new word, unless another thread wrote meanwhile.
    fn swap(&self, word: u64, next: u64) -> bool {
        self.word
            .compare_exchange(word, next, Ordering::SeqCst, Ordering::SeqCst)
            .is_ok()
    }
}
