//! Operations that are under way beside each other: each goes on step by step, in the order that the caller chooses.

ghost use Rattle.std.specs.Prelude.{◌≡◌};
ghost use Rattle.fm_local.specs.Between.{StaysBetween};
ghost use Rattle.fm_local.specs.Offered.{HasNoneDue, StaysOut};
ghost use Rattle.fm_local.specs.Steps.{BeginsAlone, StandsAfter, StepsOne, StepsTurned, TakesResumed, waits_in};
ghost use Rattle.fm_local.specs.Waits.{StaysApart};

use crate::parts::Parts;
use crate::requests::Turn;
use fm_base::Base;
use fm_callback_data::{Reply, Request};
use fm_filter::Minifilter;
use fm_types::{OpId, Status};

/// How a step leaves an operation.
#[derive(Drop)]
pub enum Stepped {
    /// There is more to do.
    Goes,
    /// There is nothing to do now: a filter holds it, it waits to be taken by `resumed` or `finished`, or it isn't there.
    Held,
    /// It is done, with that reply.
    Done(Reply),
}

impl<F: Minifilter, B: Base> Parts<F, B> {
    /// As `LocalManager::begin`.
    pub(crate) fn begin(&mut self, request: Request) -> Result<OpId, Status>
        ensures begins { BeginsAlone request self.old result self.new }
        ensures between { StaysBetween self.old self.new }
    {
        self.work.state.laws();
        self.work.state.begin(request)
    }

    /// As `LocalManager::step`.
    pub(crate) fn step(&mut self, operation: OpId) -> Stepped
        ensures steps { StepsOne F.Minifilter B.Base operation self.old result self.new }
        ensures between { StaysBetween self.old self.new }
    {
        if self.waits(operation) {
            return Stepped::Held;
        }
        self.step_on(operation)
    }

    /// As `LocalManager::resumed`.
    pub(crate) fn resumed(&mut self) -> Option<OpId>
        ensures takes { TakesResumed self.old result self.new }
        ensures between { StaysBetween self.old self.new }
    {
        self.work.resumed.take()
    }

    // Whether an operation waits to be carried on, or to be handed out.
    fn waits(&self, operation: OpId) -> bool
        ensures { result ≡ waits_in operation self.now }
    {
        self.work.resumed.has(operation) || self.finished.has(operation)
    }

    // A turn of an operation that waits nowhere, and what it leaves due is cleaned up.
    fn step_on(&mut self, operation: OpId) -> Stepped
        ensures steps { StepsTurned F.Minifilter B.Base operation self.old result self.new }
        ensures none_due { HasNoneDue self.new }
        ensures out { StaysOut self.old self.new }
        ensures waits { StaysApart operation self.old self.new }
    {
        let ended = self.turn(operation);
        let stepped = self.stand(operation, ended);
        self.clean_up();
        stepped
    }

    // How an operation stands after a turn that ended so.
    fn stand(&mut self, operation: OpId, ended: Turn) -> Stepped
        ensures stands { StandsAfter ended operation self.old result self.new }
        ensures out { StaysOut self.old self.new }
        ensures waits { StaysApart operation self.old self.new }
    {
        match ended {
            Turn::Goes => Stepped::Goes,
            Turn::Held => Stepped::Held,
            Turn::Done => Stepped::Done(self.reply(operation)),
        }
    }
}
