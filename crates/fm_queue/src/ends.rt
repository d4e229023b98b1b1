//! The two ends of the channel that a queue of jobs is.

ghost use Rattle.std.specs.Prelude.{◌≡◌};
ghost use Rattle.crossbeam_channel.specs.Ends.{sends_on, receives_on};

use crate::job::Job;
use crate::kept::JobsKept;
use crate::tally::PassTally;
use crossbeam_channel::{RuledReceiver, RuledSender};

/// Both ends of one channel.
#[derive(Drop)]
pub struct Ends {
    pub sender: RuledSender<Job, PassTally, JobsKept>,
    pub receiver: RuledReceiver<Job, PassTally, JobsKept>,
    ghost one_channel: { receives_on receiver ≡ sends_on sender },
}
