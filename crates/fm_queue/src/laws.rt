//! What the queue's rule says, as the contract of a call.

ghost use Rattle.std.specs.Prelude.{◌≡◌, length};
ghost use Rattle.fm_queue.specs.Passes.{tally_of, IsPassOf, IsWhole};
ghost use Rattle.fm_queue.specs.Calls.{KeepsJobs, TookAll};

use crate::queue::{JobPass, JobQueue};

/// Jobs are kept: with every pass of a queue taken in, the jobs put are the jobs taken and those still queued, each as often as it was put.
/// Where as many were taken as were put, none is queued. Nothing changes.
pub fn jobs_are_kept(queue: &JobQueue, pass: &mut JobPass)
    requires own { IsPassOf queue.now pass.old }
    requires whole { IsWhole pass.old }
    ensures own { IsPassOf queue.now pass.new }
    ensures same { tally_of pass.new ≡ tally_of pass.old }
    ensures kept { KeepsJobs (tally_of pass.old) }
    ensures all_taken { length (tally_of pass.old).takes ≡ length (tally_of pass.old).puts → TookAll (tally_of pass.old) }
{
    queue.learn(pass);
}
