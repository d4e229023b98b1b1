//! Drains that are taken before their turn, while an instance is torn down.

ghost use Rattle.std.specs.Prelude.{◌≡◌};
ghost use Rattle.fm_world.specs.EarlyDrains.{TakesDrain, DrainReturns};
ghost use Rattle.fm_world.specs.Hands.{OnlyHandOf, HoldsMore, HoldsNone, given_by_drain};
ghost use Rattle.fm_core.specs.Places.{drains_in};

use crate::references::bring;
use crate::state::State;
use crate::workers::{early_drain_of, put};
use fm_callback_data::Completion;
use fm_stack::Phase;
use fm_types::{InstanceId, OpId, Status, WorkerId};
use fm_world::Place;

/// Whether an instance in that phase is drained before the turn of what it is owed; one that isn't there refuses.
fn drains_in(phase: Option<Phase>) -> Result<bool, Status>
    ensures { result ≡ drains_in phase }
{
    match phase {
        None | Some(Phase::Detached) => Err(Status::NoInstance),
        Some(Phase::Stopping) => Ok(true),
        Some(_) => Ok(false),
    }
}

impl State {
    /// Gives a worker what a stopping instance is owed, before its turn (`FLTFL_POST_OPERATION_DRAINING`): the completion of the operation of the lowest
    /// number that owes it one, whatever that operation is doing. The worker is then in that drain, with the context that the completion carries in its
    /// hand; the operation stays where it is and goes on, perhaps to its end. None, nothing changed, where nothing is owed to the instance or it isn't
    /// Stopping. Refused, nothing changed: 30 where the worker isn't idle or isn't there, 8 where the instance isn't there or is Detached. It takes no
    /// memory.
    #[tactic(auto, unfolding(fm_world::specs::EarlyDrains::TakesDrain))]
    pub fn drain_take(
        &mut self,
        worker: WorkerId,
        instance: InstanceId,
    ) -> Result<Option<(OpId, Completion)>, Status>
        ensures event { TakesDrain self.old worker instance result self.new }
        ensures hand { OnlyHandOf worker.0 self.old self.new }
        ensures held { HoldsMore worker.0 result given_by_drain self.old self.new }
    {
        if !self.is_idle(worker) {
            return Err(Status::WrongStep);
        }
        if !drains_in(self.stack.phase(instance))? {
            return Ok(None);
        }
        self.contexts.laws();
        let Some((operation, completion)) = self.flow.drain_take(instance) else {
            return Ok(None);
        };
        bring(&mut self.contexts, worker, completion.context);
        put(
            &mut self.workers,
            worker,
            Place::EarlyDrain(operation, instance),
        );
        Ok(Some((operation, completion)))
    }

    /// The drain that the worker is in, which `drain_take` gave, returns. What the worker still held is released and counts as leaked. The operation of
    /// which this was the last drain, and whose answer was handed out, is forgotten. Refused, nothing changed, with 30 where the worker is in no such
    /// drain. It takes no memory.
    #[tactic(auto, unfolding(fm_world::specs::EarlyDrains::DrainReturns))]
    pub fn drain_done(&mut self, worker: WorkerId) -> Result<(), Status>
        ensures event { DrainReturns self.old worker result self.new }
        ensures hand { OnlyHandOf worker.0 self.old self.new }
        ensures held { HoldsNone worker.0 result self.old self.new }
    {
        let Some((operation, instance)) = early_drain_of(self.place(worker)) else {
            return Err(Status::WrongStep);
        };
        self.contexts.leave(worker);
        self.flow.drain_done(operation, instance);
        put(&mut self.workers, worker, Place::Idle);
        Ok(())
    }
}
