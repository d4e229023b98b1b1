//! The queue's rule, and what each step of a pass tells the pass.

use crate::job::Job;
use crate::tally::PassTally;
use crossbeam_channel::protocol::{Join, Lesson, Outcome, Protocol, Split};

/// The rule that jobs are kept.
pub struct JobsKept;

impl Protocol<Job, PassTally> for JobsKept {
    ghost use Rattle.fm_queue.specs.Tallies.{first_tally, JobsAreKept};

    ghost holds = { JobsAreKept };

    ghost first = { first_tally };
}

/// A job put: the pass has put it, last.
pub struct Put;

impl Outcome<Job, PassTally> for Put {
    ghost use Rattle.std.specs.Prelude.{◌≡◌};
    ghost use Rattle.fm_queue.specs.Tallies.{after_put};

    ghost then = { λ before job after. after ≡ after_put before job };
}

impl Lesson<Job, PassTally> for Put {
    ghost use Rattle.fm_queue.specs.Tallies.{KnowsAll};

    ghost fact = { KnowsAll };
}

/// A job taken: the pass has taken it, last.
pub struct Take;

impl Outcome<Job, PassTally> for Take {
    ghost use Rattle.std.specs.Prelude.{◌≡◌};
    ghost use Rattle.fm_queue.specs.Tallies.{after_take};

    ghost then = { λ before job after. after ≡ after_take before job };
}

impl Lesson<Job, PassTally> for Take {
    ghost use Rattle.fm_queue.specs.Tallies.{KnowsAll};

    ghost fact = { KnowsAll };
}

/// A pass made of another: it gets one part and an empty past.
pub struct Cut;

impl Split<PassTally> for Cut {
    ghost use Rattle.fm_queue.specs.Tallies.{cut_tally, new_tally};

    ghost left = { cut_tally };

    ghost right = { λ _. new_tally };
}

/// A pass that takes in another: its parts and its past.
pub struct Whole;

impl Join<PassTally> for Whole {
    ghost use Rattle.fm_queue.specs.Tallies.{joined, spent_tally};

    ghost both = { joined };

    ghost spent = { spent_tally };
}
