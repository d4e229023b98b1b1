//! Events by which an instance is detached: its filter is asked, its teardown starts and is completed.

ghost use Rattle.std.specs.Prelude.{◌≡◌, ℕ};
ghost use Rattle.std.specs.List.{list_any};
ghost use Rattle.fm_world.specs.Workers.{worker_at, is_queried, is_in_query, AtQuery, AtStart, AtComplete};
ghost use Rattle.fm_world.specs.Teardowns.{unfinished_at};
ghost use Rattle.fm_world.specs.Teardowns.{AsksDetach, QueryReturns, StartsTeardown, StartReturns, CompletesTeardown, CompleteReturns};
ghost use Rattle.fm_world.specs.Hands.{OnlyHandOf, KeepsHands, hand_len, left_by};

use crate::routines::routines_at;
use crate::state::State;
use crate::workers::{complete_of, note_entering, put, query_of, start_of};
use fm_ctx::Owner;
use fm_types::{InstanceId, Status, WorkerId};
use fm_world::Place;

fn is_in_query(instance: InstanceId, place: Place) -> bool
    ensures { result ≡ is_in_query instance.0 place }
{
    match place {
        Place::Query(other) => other.0 == instance.0,
        _ => false,
    }
}

/// Whether a query of the instance runs.
fn is_queried(instance: InstanceId, workers: &[Place]) -> bool
    ensures { result ≡ is_queried instance workers.now }
{
    workers.iter().any(|place| is_in_query(instance, *place))
}

impl State {
    // What a teardown waits for: operations in flight, at most 256 that the instance's filter asked for itself, and at most 48 workers.
    fn unfinished_at(&self, instance: InstanceId) -> u64
        ensures { result ≡ unfinished_at self.now instance }
    {
        self.flow.in_flight(instance)
            + self.flow.begun_by(instance)
            + routines_at(instance, &self.workers)
    }

    /// Asks the filter of an instance whether it may be detached (`FltDetachVolume`): the worker is then in the query callback
    /// (`InstanceQueryTeardownCallback`). Refused, nothing changed: 30 where the worker isn't idle or isn't there, 8 where the instance isn't there or is
    /// Detached, 13 where it isn't Attached or a query of it runs, 12 where its filter registered no query callback. It takes no memory.
    #[tactic(auto, unfolding(fm_world::specs::Teardowns::AsksDetach))]
    pub fn ask_detach(&mut self, worker: WorkerId, instance: InstanceId) -> Result<(), Status>
        ensures event { AsksDetach self.old worker instance result self.new }
        ensures hand { KeepsHands self.old self.new }
    {
        if !self.is_idle(worker) {
            return Err(Status::WrongStep);
        }
        let is_asked = is_queried(instance, &self.workers);
        let result = self.stack.may_ask_detach(instance, is_asked);
        note_entering(&mut self.workers, worker, Place::Query(instance), &result);
        result
    }

    /// The query callback that the worker is in returns. Allowed, the instance is Stopping: no new operation comes to it. Refused, nothing changed, with 30
    /// where the worker is in no query; and with 12 where the callback doesn't allow it, or 13 where the instance isn't Attached any more, since an unload
    /// came meanwhile: then the callback returned all the same. What the worker still held is released and counts as leaked. It takes no memory.
    #[tactic(auto, unfolding(fm_world::specs::Teardowns::QueryReturns))]
    pub fn query_returned(&mut self, worker: WorkerId, allow: bool) -> Result<(), Status>
        ensures event { QueryReturns self.old worker allow result self.new }
        ensures hand { OnlyHandOf worker.0 self.old self.new }
        ensures held { hand_len worker.0 self.new ≡ left_by AtQuery (worker_at self.old.workers worker) (hand_len worker.0 self.old) }
    {
        let Some(instance) = query_of(self.place(worker)) else {
            return Err(Status::WrongStep);
        };
        self.contexts.leave(worker);
        put(&mut self.workers, worker, Place::Idle);
        self.stack.query_returned(instance, allow)
    }

    /// Starts the teardown of an instance: the worker is then in the callback that says so (`InstanceTeardownStartCallback`), which is made once. Refused,
    /// nothing changed: 30 where the worker isn't idle or isn't there, 8 where the instance isn't there or is Detached, 30 where it isn't Stopping or its
    /// start was made. It takes no memory.
    #[tactic(auto, unfolding(fm_world::specs::Teardowns::StartsTeardown))]
    pub fn start_teardown(&mut self, worker: WorkerId, instance: InstanceId) -> Result<(), Status>
        ensures event { StartsTeardown self.old worker instance result self.new }
        ensures hand { KeepsHands self.old self.new }
    {
        if !self.is_idle(worker) {
            return Err(Status::WrongStep);
        }
        let result = self.stack.start_teardown(instance);
        note_entering(&mut self.workers, worker, Place::Start(instance), &result);
        result
    }

    /// The teardown-start callback that the worker is in returns. What the worker still held is released and counts as leaked. Refused, nothing changed,
    /// with 30 where the worker is in none. It takes no memory.
    #[tactic(auto, unfolding(fm_world::specs::Teardowns::StartReturns))]
    pub fn start_returned(&mut self, worker: WorkerId) -> Result<(), Status>
        ensures event { StartReturns self.old worker result self.new }
        ensures hand { OnlyHandOf worker.0 self.old self.new }
        ensures held { hand_len worker.0 self.new ≡ left_by AtStart (worker_at self.old.workers worker) (hand_len worker.0 self.old) }
    {
        let Some(instance) = start_of(self.place(worker)) else {
            return Err(Status::WrongStep);
        };
        self.contexts.leave(worker);
        put(&mut self.workers, worker, Place::Idle);
        self.stack.start_returned(instance);
        Ok(())
    }

    /// Completes the teardown of an instance: the worker is then in the callback that says so (`InstanceTeardownCompleteCallback`). Refused, nothing
    /// changed: 30 where the worker isn't idle or isn't there, 8 where the instance isn't there or is Detached, 30 where it isn't Stopping, its teardown-start
    /// callback didn't return or a query of it runs, 34 with the number of operations that are in flight at it and of its filter's routines. It takes no memory.
    #[tactic(auto, unfolding(fm_world::specs::Teardowns::CompletesTeardown))]
    pub fn complete_teardown(
        &mut self,
        worker: WorkerId,
        instance: InstanceId,
    ) -> Result<(), Status>
        ensures event { CompletesTeardown self.old worker instance result self.new }
        ensures hand { KeepsHands self.old self.new }
    {
        if !self.is_idle(worker) {
            return Err(Status::WrongStep);
        }
        let is_asked = is_queried(instance, &self.workers);
        let unfinished = self.unfinished_at(instance);
        let result = self.stack.complete_teardown(instance, is_asked, unfinished);
        note_entering(
            &mut self.workers,
            worker,
            Place::Complete(instance),
            &result,
        );
        result
    }

    /// The teardown-complete callback that the worker is in returns: the instance is Emptying, and all contexts that belong to it lose their links. What the
    /// worker still held is released and counts as leaked. Refused, nothing changed, with 30 where the worker is in none. It takes no memory.
    #[tactic(auto, unfolding(fm_world::specs::Teardowns::CompleteReturns))]
    pub fn complete_returned(&mut self, worker: WorkerId) -> Result<(), Status>
        ensures event { CompleteReturns self.old worker result self.new }
        ensures hand { OnlyHandOf worker.0 self.old self.new }
        ensures held { hand_len worker.0 self.new ≡ left_by AtComplete (worker_at self.old.workers worker) (hand_len worker.0 self.old) }
    {
        let Some(instance) = complete_of(self.place(worker)) else {
            return Err(Status::WrongStep);
        };
        self.contexts.leave(worker);
        self.stack.complete_returned(instance);
        self.contexts.unlink_owner(Owner::Instance(instance));
        put(&mut self.workers, worker, Place::Idle);
        Ok(())
    }
}
