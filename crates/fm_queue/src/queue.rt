//! The queue and its passes.

ghost use Rattle.std.specs.Prelude.{◌≡◌, ◌<◌, IfOk, IfErr, IfNone, All, length, sum_by};
ghost use Rattle.fm_queue.specs.Tallies.{empty_tally, every_part, after_take, cut_tally, new_tally, joined};
ghost use Rattle.fm_queue.specs.Passes.{tally_of, parts_of, IsPassOf, capacity_of, IsWhole};
ghost use Rattle.fm_queue.specs.Calls.{NewRefused, Puts, IsFull, KeepsJobs, MayTake, TookAll};

use crate::bell::Bell;
use crate::ends::Ends;
use crate::job::Job;
use crate::kept::{Cut, JobsKept, Put, Take, Whole};
use crate::tally::PassTally;
use crossbeam_channel::{Pass, TrySendError, bounded_with};
use fm_types::Status;
use std::alloc::{AllocError, Global};
use std::sync::Wait;

/// The right to put and take, for one thread at a time, of the queue that it was made with. It has no bytes. In contracts it knows what was put
/// and taken with it (`tally_of`).
pub type JobPass = Pass<Job, PassTally>;

/// A bounded queue of jobs, shared by reference among threads.
#[derive(Drop)]
pub struct JobQueue {
    ends: Ends,
    bell: Bell,
}

impl JobQueue {
    /// An empty queue for at most `capacity` jobs, and so many passes, none of which has put or taken anything. Refused with 32 where either
    /// number is 0, and with 1 where memory was refused.
    pub fn new(
        alloc: Global,
        capacity: usize,
        passes: usize,
    ) -> Result<(JobQueue, Vec<JobPass>), Status>
        ensures refused { NewRefused capacity passes result }
        ensures capacity { IfOk result (λ made. capacity_of made.0 ≡ capacity) }
        ensures passes { IfOk result (λ made. length made.1.items ≡ passes) }
        ensures own { IfOk result (λ made. All (λ pass. IsPassOf made.0 pass) made.1.items) }
        ensures idle { IfOk result (λ made. All (λ pass. tally_of pass ≡ empty_tally (parts_of pass)) made.1.items) }
        ensures parts { IfOk result (λ made. sum_by parts_of made.1.items ≡ every_part) }
    {
        if capacity == 0 || passes == 0 {
            return Err(Status::BadRequest);
        }
        let (queue, first) = JobQueue::with_one_pass(alloc, capacity)?;
        let all = queue.every_pass(alloc, first, passes)?;
        Ok((queue, all))
    }

    // A queue and its first pass, which has every part.
    fn with_one_pass(alloc: Global, capacity: usize) -> Result<(JobQueue, JobPass), AllocError>
        requires { 0 < capacity }
        ensures capacity { IfOk result (λ made. capacity_of made.0 ≡ capacity) }
        ensures own { IfOk result (λ made. IsPassOf made.0 made.1) }
        ensures idle { IfOk result (λ made. tally_of made.1 ≡ empty_tally every_part) }
    {
        let (sender, receiver, first) = bounded_with::<Job, PassTally, JobsKept, Global>(
            alloc, capacity,
        )?;
        let queue = JobQueue {
            ends: Ends { sender, receiver },
            bell: Bell::new(),
        };
        Ok((queue, first))
    }

    // So many passes, the one with every part cut into them, which comes last.
    fn every_pass(
        &self,
        alloc: Global,
        first: JobPass,
        passes: usize,
    ) -> Result<Vec<JobPass>, AllocError>
        requires own { IsPassOf self.now first }
        requires idle { tally_of first ≡ empty_tally every_part }
        requires some { 0 < passes }
        ensures passes { IfOk result (λ all. length all.items ≡ passes) }
        ensures own { IfOk result (λ all. All (λ pass. IsPassOf self.now pass) all.items) }
        ensures idle { IfOk result (λ all. All (λ pass. tally_of pass ≡ empty_tally (parts_of pass)) all.items) }
        ensures parts { IfOk result (λ all. sum_by parts_of all.items ≡ every_part) }
    {
        let mut first = first;
        let mut all = Vec::with_capacity(alloc, passes)?;
        for _ in 1..passes {
            all.push(self.cut(&mut first))?;
        }
        all.push(first)?;
        Ok(all)
    }

    // A pass with one of the other's parts.
    fn cut(&self, pass: &mut JobPass) -> JobPass
        requires own { IsPassOf self.now pass.old }
        requires parts { 1 < parts_of pass.old }
        ensures own { IsPassOf self.now pass.new × IsPassOf self.now result }
        ensures left { tally_of pass.new ≡ cut_tally (tally_of pass.old) }
        ensures cut { tally_of result ≡ new_tally }
    {
        self.ends.sender.another::<Cut>(pass)
    }

    /// Puts a job behind those queued, and wakes one thread that sleeps in `take`, unless another looks for this job already. Where the queue
    /// is full, the job is handed back with 29, and the pass is as it was. Where the pass has every part, a refusal tells that the jobs it put
    /// and hasn't taken are as many as the queue holds. Takes no memory and waits for no room, only for another thread that is in the middle of
    /// its step on the same place.
    pub fn put<R: Wait>(&self, rt: &R, pass: &mut JobPass, job: Job) -> Result<(), (Job, Status)>
        requires own { IsPassOf self.now pass.old }
        ensures own { IsPassOf self.now pass.new }
        ensures put { Puts (tally_of pass.old) job result (tally_of pass.new) }
        ensures full { IfErr result (λ _. IsWhole pass.old → IsFull (capacity_of self.now) (tally_of pass.old)) }
    {
        let is_only = self.bell.announce();
        let told = self.send(rt, pass, job);
        match &told {
            Ok(()) => self.bell.ring(is_only),
            Err(_) => self.bell.withdraw(),
        }
        told
    }

    // Puts a job, and wakes nobody.
    fn send<R: Wait>(&self, rt: &R, pass: &mut JobPass, job: Job) -> Result<(), (Job, Status)>
        requires own { IsPassOf self.now pass.old }
        ensures own { IsPassOf self.now pass.new }
        ensures put { Puts (tally_of pass.old) job result (tally_of pass.new) }
        ensures full { IfErr result (λ _. IsWhole pass.old → IsFull (capacity_of self.now) (tally_of pass.old)) }
    {
        'tries: for _ in rt.forever() {
            match self.ends.sender.try_send_as::<Put, R>(rt, pass, job) {
                Ok(()) => return Ok(()),
                Err(TrySendError::Full(back)) => return Err((back, Status::TooMany)),
                Err(_) => {}
            }
        }
        unreachable!()
    }

    /// Takes the job in front, and waits for one where none is queued: looks a while if no other thread does, and then sleeps. Takes no memory.
    pub fn take<R: Wait>(&self, rt: &R, pass: &mut JobPass) -> Job
        requires own { IsPassOf self.now pass.old }
        ensures own { IsPassOf self.now pass.new }
        ensures taken { tally_of pass.new ≡ after_take (tally_of pass.old) result }
    {
        'tries: for _ in rt.forever() {
            self.bell.look();
            if let Some(job) = self.try_take(rt, pass) {
                return job;
            }
            if let Some(job) = self.take_or_sleep(rt, pass) {
                return job;
            }
        }
        unreachable!()
    }

    /// Takes the job in front; None where none is queued, and the pass is as it was. Where the pass has every part, None tells that it took all
    /// that it put. Takes no memory and waits for no job, only for another thread that is in the middle of its step on the same place.
    pub fn try_take<R: Wait>(&self, rt: &R, pass: &mut JobPass) -> Option<Job>
        requires own { IsPassOf self.now pass.old }
        ensures own { IsPassOf self.now pass.new }
        ensures taken { MayTake (tally_of pass.old) result (tally_of pass.new) }
        ensures none { IfNone result (IsWhole pass.old → TookAll (tally_of pass.old)) }
    {
        match self.ends.receiver.try_recv_as::<Take, R>(rt, pass) {
            Ok(job) => {
                self.bell.taken();
                Some(job)
            }
            Err(_) => None,
        }
    }

    // Takes the job in front, or sleeps until a job is put. A put after the last try finds this thread counted.
    fn take_or_sleep<R: Wait>(&self, rt: &R, pass: &mut JobPass) -> Option<Job>
        requires own { IsPassOf self.now pass.old }
        ensures own { IsPassOf self.now pass.new }
        ensures taken { MayTake (tally_of pass.old) result (tally_of pass.new) }
    {
        let heard = self.bell.listen();
        let taken = self.try_take(rt, pass);
        self.bell.sleep(rt, heard, taken.is_none());
        taken
    }

    /// Takes another pass in, with what it has put and taken: the way to a pass with every part, which knows the whole.
    pub fn absorb(&self, pass: &mut JobPass, other: JobPass)
        requires own { IsPassOf self.now pass.old × IsPassOf self.now other }
        ensures own { IsPassOf self.now pass.new }
        ensures joined { tally_of pass.new ≡ joined (tally_of pass.old) (tally_of other) }
    {
        self.ends.sender.absorb::<Whole>(pass, other);
    }

    // What a pass with every part learns of the jobs queued.
    pub(crate) fn learn(&self, pass: &mut JobPass)
        requires own { IsPassOf self.now pass.old }
        requires whole { IsWhole pass.old }
        ensures own { IsPassOf self.now pass.new }
        ensures same { tally_of pass.new ≡ tally_of pass.old }
        ensures kept { KeepsJobs (tally_of pass.old) }
    {
        self.ends.sender.learn_as::<Put>(pass);
    }
}
