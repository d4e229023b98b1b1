//! A one-thread manager that answers frames.

ghost use Rattle.std.specs.Prelude.{◌≡◌};
ghost use Rattle.fm_local_exec.specs.Locals.{Answers, AnswersControl, Loads};
ghost use Rattle.fm_local.specs.Actions.{GivesFinished};
ghost use Rattle.fm_local.specs.Steps.{BeginsAlone, StepsOne, TakesResumed};
ghost use Rattle.fm_local.specs.Offered.{ForgetsReport, HandsOutFirst, HasNoReport, SameAround};

use crate::said::{filter_reply, instance_reply, number_reply, status_reply, unit_reply};
use fm_base::Base;
use fm_callback_data::{Reply, Request};
use fm_filter::Minifilter;
use fm_local::{LocalManager, Stepped};
use fm_samples::Sample;
use fm_server::Exec;
use fm_types::{FilterId, Name, OpId, Status};
use fm_wire::Control;
use std::alloc::Global;

/// Answers the frames of a server by a one-thread manager: a request by its `answer`, a load, an attach, a detach and an unload by the calls of these names. An
/// operation that a filter holds is answered `Held`, and its reply stays with the manager. A dismount is answered 32 (`BadRequest`) and a Stop with
/// success, both without a call.
///
/// It is an `Exec` over the samples. Over other filters `operate_by` and `control_by` say the same, and an `Exec` of one's own hands on to them.
#[derive(Drop)]
pub struct LocalExec<F, B> {
    alloc: Global,
    manager: LocalManager<F, B>,
}

impl<F: Minifilter, B: Base> LocalExec<F, B> {
    /// Answers by that manager.
    pub fn new(alloc: Global, manager: LocalManager<F, B>) -> Self
        ensures { result ≡ record { alloc = alloc; manager = manager } }
    {
        LocalExec { alloc, manager }
    }

    /// The manager, to be read.
    pub fn manager(&self) -> &LocalManager<F, B>
        ensures { result.now ≡ self.now.manager }
    {
        &self.manager
    }

    /// Forgets the steps, the leaks and the refused calls that could be read, as the manager's `forget_report`.
    pub fn forget_report(&mut self)
        ensures forgets { ForgetsReport self.old.manager self.new.manager }
        ensures none { HasNoReport self.new.manager }
        ensures same { self.new.alloc ≡ self.old.alloc }
    {
        self.manager.forget_report();
    }

    /// The reply of an operation that was held and has ended, as the manager's `finished`.
    pub fn finished(&mut self) -> Option<(OpId, Reply)>
        ensures first { HandsOutFirst self.old.manager result self.new.manager }
        ensures any { GivesFinished self.old.manager result self.new.manager }
        ensures kept { SameAround self.old.manager self.new.manager }
        ensures same { self.new.alloc ≡ self.old.alloc }
    {
        self.manager.finished()
    }

    /// Begins an operation that goes on by `step`, as the manager's `begin`.
    pub fn begin(&mut self, request: Request) -> Result<OpId, Status>
        ensures begins { BeginsAlone request self.old.manager result self.new.manager }
        ensures same { self.new.alloc ≡ self.old.alloc }
    {
        self.manager.begin(request)
    }

    /// One step of an operation, as the manager's `step`.
    pub fn step(&mut self, operation: OpId) -> Stepped
        ensures steps { StepsOne F.Minifilter B.Base operation self.old.manager result self.new.manager }
        ensures same { self.new.alloc ≡ self.old.alloc }
    {
        self.manager.step(operation)
    }

    /// The operation that callbacks resumed first, as the manager's `resumed`.
    pub fn resumed(&mut self) -> Option<OpId>
        ensures takes { TakesResumed self.old.manager result self.new.manager }
        ensures same { self.new.alloc ≡ self.old.alloc }
    {
        self.manager.resumed()
    }

    fn load(&mut self, name: &Name) -> Result<FilterId, Status>
        ensures loads { Loads F.Minifilter B.Base name.now self.old.manager result self.new.manager }
        ensures same { self.new.alloc ≡ self.old.alloc }
    {
        self.manager.load(name)
    }

    /// Answers an operation, by the manager's `answer`.
    pub fn operate_by(&mut self, request: Request) -> Reply
        ensures { Answers F.Minifilter B.Base request self.old.manager result self.new.manager }
    {
        self.manager.answer(request)
    }

    /// Answers a control, by the call that it names.
    pub fn control_by(&mut self, control: Control) -> Reply
        ensures { AnswersControl F.Minifilter B.Base control self.old.manager result self.new.manager }
    {
        match control {
            Control::Load { name } => {
                let loaded = self.load(&name);
                filter_reply(self.alloc, loaded)
            }
            Control::Attach {
                filter,
                volume,
                name,
                altitude,
            } => {
                let instance = self.manager.attach(filter, volume, name, altitude);
                instance_reply(self.alloc, instance)
            }
            Control::Detach { instance } => {
                unit_reply(self.alloc, self.manager.detach(instance))
            }
            Control::Unload { filter } => unit_reply(self.alloc, self.manager.unload(filter)),
            Control::Dismount { volume: _ } => status_reply(self.alloc, Status::BadRequest),
            Control::Stop => number_reply(self.alloc, 0),
        }
    }
}

impl<B: Base> Exec for LocalExec<Sample, B> {
    ghost use Rattle.fm_local_exec.specs.Locals.{Answers, AnswersControl};

    ghost operates = { λ old request said new. Answers (⟦<Sample as Minifilter>⟧) B.Base request old.manager said new.manager };

    ghost controls = { λ old control said new. AnswersControl (⟦<Sample as Minifilter>⟧) B.Base control old.manager said new.manager };

    fn operate(&mut self, request: Request) -> Reply {
        self.operate_by(request)
    }

    fn control(&mut self, control: Control) -> Reply {
        self.control_by(control)
    }
}
