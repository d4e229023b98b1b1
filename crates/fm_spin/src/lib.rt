//! How long a thread looks for what it waits for before it sleeps: as long as this machine's sleep and wake take, where that is of use, and else hardly.
#![tactic(auto)]

ghost use Rattle.std.specs.Prelude.{◌≤◌};

use std::sync::atomic::{AtomicU64, Ordering};

/// How many loads a short look takes: some microseconds.
pub const SHORT: usize = 8_000;

/// How many loads a long look takes: some seventy microseconds, about what it costs to put a thread to sleep and to wake it.
pub const LONG: usize = 100_000;

/// How many looks are left out after one that was in vain. On a machine whose processors are all busy hardly any look is of use.
const LEFT_OUT: u64 = 15;

/// How many looks in vain the looks that were of use stand for, at most.
const CREDIT: u64 = 16;

/// Each look of that number is long, whatever came of those before: so it shows when looks are of use again.
const TRIAL: u64 = 4;

/// What came of the looks of threads that wait for the same kind of thing. One thread looks at a time; what others make of it meanwhile is only less apt.
#[derive(Drop)]
pub struct Looks {
    // How many of the next looks are left out.
    left_out: AtomicU64,
    // How many looks in vain are still made at full length.
    credit: AtomicU64,
    // How many looks were made with no credit.
    made: AtomicU64,
}

impl Looks {
    /// Nobody looked yet.
    pub fn new() -> Looks {
        Looks {
            left_out: AtomicU64::new(0),
            credit: AtomicU64::new(0),
            made: AtomicU64::new(0),
        }
    }

    /// How many loads the look takes that comes next: none where it is left out. One that is made is told by `end`.
    pub fn begin(&self) -> usize
        ensures { result ≤ 100000 }
    {
        let left_out = self.left_out.load(Ordering::SeqCst);
        if left_out != 0 {
            self.left_out.store(left_out - 1, Ordering::SeqCst);
            return 0;
        }
        if self.credit.load(Ordering::SeqCst) != 0 || self.is_trial() {
            LONG
        } else {
            SHORT
        }
    }

    // Whether it is time for a long look.
    fn is_trial(&self) -> bool {
        self.made.fetch_add(1, Ordering::SeqCst) % TRIAL == 0
    }

    /// Tells what came of a look. One that was of use lets one in vain more be made at full length, 16 at most; one in vain with nothing to stand for it has the next
    /// 15 left out.
    pub fn end(&self, was_of_use: bool) {
        let credit = self.credit.load(Ordering::SeqCst);
        if was_of_use {
            self.credit
                .store(credit.saturating_add(1).min(CREDIT), Ordering::SeqCst);
        } else if credit != 0 {
            self.credit.store(credit - 1, Ordering::SeqCst);
        } else {
            self.left_out.store(LEFT_OUT, Ordering::SeqCst);
        }
    }
}

// How long the next looks are, of which none is of use: so many that are made.
#[cfg(test)]
fn in_vain(looks: &Looks) -> [usize; 4] {
    let mut lengths = [0; 4];
    for at in 0..4 {
        lengths[at] = looks.begin();
        looks.end(false);
        for _ in 0..LEFT_OUT {
            let _ = looks.begin();
        }
    }
    lengths
}

#[test]
fn looks_in_vain_are_short_and_seldom(rt: HostRuntime) {
    let looks = Looks::new();
    assert_eq!(rt; looks.begin(), 100_000);
    looks.end(false);
    assert_eq!(rt; looks.begin(), 0);
    for _ in 0..14 {
        let _ = looks.begin();
    }
    assert_eq!(rt; in_vain(&looks), [8_000, 8_000, 8_000, 100_000]);
}

#[test]
fn looks_of_use_are_long(rt: HostRuntime) {
    let looks = Looks::new();
    let _ = looks.begin();
    looks.end(true);
    assert_eq!(rt; looks.begin(), 100_000);
    looks.end(false);
    assert_eq!(rt; looks.begin(), 8_000);
    looks.end(false);
    assert_eq!(rt; looks.begin(), 0);
}
