//! The events by which an instance is detached, from the question to its filter until its contexts alone
//! are left.

ghost use Rattle.std.specs.Prelude.{◌≡◌, ◌<◌, length, slice_get, true};
ghost use Rattle.fm_types.specs.Refusals.{first_of};
ghost use Rattle.fm_stack.specs.Detaching.{Permits, QueryReturns, StartsTeardown, CompletesTeardown, ask_detach_refusals, query_refusals, start_refusals, complete_refusals, started, emptying, has_query, is_in_use, is_in_complete, is_to_start, is_to_complete};
ghost use Rattle.fm_stack.specs.Follows.{Follows};
ghost use Rattle.fm_stack.specs.Instances.{is_gone_at, passes, registration_of};

use crate::instance::{self, Phase, StartMark};
use crate::stack::Stack;
use fm_types::{InstanceId, Status};

// What refuses an event.
impl Stack {
    fn is_gone(&self, instance: InstanceId) -> bool
        ensures { result ≡ is_gone_at (slice_get self.now.instances instance.0) }
    {
        matches!(self.phase(instance), None | Some(Phase::Detached))
    }

    fn is_in_use(&self, instance: InstanceId) -> bool
        ensures { result ≡ passes is_in_use (slice_get self.now.instances instance.0) }
    {
        matches!(self.phase(instance), Some(Phase::Attached))
    }

    fn is_to_start(&self, instance: InstanceId) -> bool
        ensures { result ≡ passes is_to_start (slice_get self.now.instances instance.0) }
    {
        let Some(row) = self.instances.get(instance.0 as usize) else {
            return false;
        };
        row.is_to_start()
    }

    fn is_to_complete(&self, instance: InstanceId) -> bool
        ensures { result ≡ passes is_to_complete (slice_get self.now.instances instance.0) }
    {
        let Some(row) = self.instances.get(instance.0 as usize) else {
            return false;
        };
        row.is_to_complete()
    }

    fn has_query(&self, instance: InstanceId) -> bool
        ensures { result ≡ has_query (registration_of self.now instance) }
    {
        let Some(registration) = self.registration_of(instance) else {
            return false;
        };
        registration.query
    }

    fn ask_detach_refusal(&self, instance: InstanceId, is_asked: bool) -> Option<Status>
        ensures { result ≡ first_of (ask_detach_refusals self.now instance is_asked) }
    {
        if self.is_gone(instance) {
            return Some(Status::NoInstance);
        }
        if !self.is_in_use(instance) || is_asked {
            return Some(Status::DeletingObject);
        }
        if !self.has_query(instance) {
            return Some(Status::DoNotDetach);
        }
        None
    }

    fn query_refusal(&self, instance: InstanceId, allow: bool) -> Option<Status>
        ensures { result ≡ first_of (query_refusals self.now instance allow) }
    {
        if !allow {
            return Some(Status::DoNotDetach);
        }
        if !self.is_in_use(instance) {
            return Some(Status::DeletingObject);
        }
        None
    }

    fn start_refusal(&self, instance: InstanceId) -> Option<Status>
        ensures { result ≡ first_of (start_refusals self.now instance) }
    {
        if self.is_gone(instance) {
            return Some(Status::NoInstance);
        }
        if !self.is_to_start(instance) {
            return Some(Status::WrongStep);
        }
        None
    }

    fn complete_refusal(
        &self,
        instance: InstanceId,
        is_asked: bool,
        in_flight: u64,
    ) -> Option<Status>
        ensures { result ≡ first_of (complete_refusals self.now instance is_asked in_flight) }
    {
        if self.is_gone(instance) {
            return Some(Status::NoInstance);
        }
        if !self.is_to_complete(instance) || is_asked {
            return Some(Status::WrongStep);
        }
        if in_flight > 0 {
            return Some(Status::Busy(in_flight));
        }
        None
    }
}

// The events.
impl Stack {
    /// Whether the filter of an instance may be asked to detach it (`FltDetachVolume`); `is_asked` says
    /// that a query of it runs. Refused in this order: `NoInstance` (8) where no instance has that id or
    /// it is detached, `DeletingObject` (13) where it isn't attached or is asked already, `DoNotDetach`
    /// (12) where its filter registered no query routine. It changes nothing.
    pub fn may_ask_detach(&self, instance: InstanceId, is_asked: bool) -> Result<(), Status>
        ensures { Permits (first_of (ask_detach_refusals self.now instance is_asked)) result }
    {
        match self.ask_detach_refusal(instance, is_asked) {
            Some(status) => Err(status),
            None => Ok(()),
        }
    }

    /// Ends the query of an instance (`InstanceQueryTeardownCallback` returns). Allowed, the instance is
    /// stopping: no new operation comes to it, and it keeps its name and altitude. Refused, with nothing
    /// changed, in this order: `DoNotDetach` (12) where the filter doesn't allow it, `DeletingObject`
    /// (13) where the instance isn't attached any more, since an unload or a dismount came meanwhile. It
    /// takes no memory.
    #[tactic(auto, unfolding(crate::specs::Detaching::QueryReturns))]
    pub fn query_returned(&mut self, instance: InstanceId, allow: bool) -> Result<(), Status>
        ensures event { QueryReturns self.old instance allow result self.new }
        ensures follows { Follows self.old self.new }
    {
        if let Some(status) = self.query_refusal(instance, allow) {
            return Err(status);
        }
        instance::set_phase(&mut self.instances, instance.0 as usize, Phase::Stopping);
        Ok(())
    }

    /// Begins the teardown-start callback of an instance (`InstanceTeardownStartCallback`), which is made
    /// once. Refused, with nothing changed, in this order: `NoInstance` (8) where no instance has that id
    /// or it is detached, `WrongStep` (30) where it isn't stopping or the callback was made. It takes no
    /// memory.
    #[tactic(auto, unfolding(crate::specs::Detaching::StartsTeardown))]
    pub fn start_teardown(&mut self, instance: InstanceId) -> Result<(), Status>
        ensures event { StartsTeardown self.old instance result self.new }
        ensures follows { Follows self.old self.new }
    {
        if let Some(status) = self.start_refusal(instance) {
            return Err(status);
        }
        instance::set_start(&mut self.instances, instance.0 as usize, StartMark::Made);
        Ok(())
    }

    /// Ends the teardown-start callback of an instance. It takes no memory.
    pub fn start_returned(&mut self, instance: InstanceId)
        requires { instance.0 < length self.old.instances }
        ensures event { self.new ≡ started self.old instance }
        ensures follows { Follows self.old self.new }
    {
        instance::set_start(
            &mut self.instances,
            instance.0 as usize,
            StartMark::Returned,
        );
    }

    /// Begins the teardown-complete callback of an instance (`InstanceTeardownCompleteCallback`), at which
    /// nothing is in flight; `is_asked` says that a query of it runs, `in_flight` how many operations are
    /// in flight at it. Refused, with nothing changed, in this order: `NoInstance` (8) where no instance
    /// has that id or it is detached, `WrongStep` (30) where it isn't stopping, its teardown-start
    /// callback didn't return, or a query of it runs, `Busy` (34) with the number in flight. It takes no
    /// memory.
    #[tactic(auto, unfolding(crate::specs::Detaching::CompletesTeardown))]
    pub fn complete_teardown(
        &mut self,
        instance: InstanceId,
        is_asked: bool,
        in_flight: u64,
    ) -> Result<(), Status>
        ensures event { CompletesTeardown self.old instance is_asked in_flight result self.new }
        ensures follows { Follows self.old self.new }
    {
        if let Some(status) = self.complete_refusal(instance, is_asked, in_flight) {
            return Err(status);
        }
        instance::set_phase(&mut self.instances, instance.0 as usize, Phase::Completing);
        Ok(())
    }

    /// Ends the teardown-complete callback of an instance: what is left of it waits for its contexts to
    /// be cleaned up. It takes no memory.
    pub fn complete_returned(&mut self, instance: InstanceId)
        requires { passes is_in_complete (slice_get self.old.instances instance.0) ≡ true }
        ensures event { self.new ≡ emptying self.old instance }
        ensures follows { Follows self.old self.new }
    {
        instance::set_phase(&mut self.instances, instance.0 as usize, Phase::Emptying);
    }
}
