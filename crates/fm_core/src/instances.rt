//! Events on filters, volumes and instances.

ghost use Rattle.std.specs.Prelude.{◌≡◌};
ghost use Rattle.fm_world.specs.Events.{Registers, Mounts, Attaches, SetsUp};
ghost use Rattle.fm_world.specs.Workers.{worker_at};
ghost use Rattle.fm_world.specs.Hands.{OnlyHandOf, KeepsHands, hand_len, left_by_setup};

use crate::references::unlink_unless;
use crate::state::State;
use crate::workers::{note_attach, put, setup_of};
use fm_altitude::Altitude;
use fm_types::{FilterId, InstanceId, Name, Registration, Status, VolumeId, WorkerId};
use fm_world::Place;

impl State {
    /// Registers a filter under a name (`FltRegisterFilter`). Refused, nothing changed: 10 where a filter of that name isn't unloaded, 29 at the 17th
    /// registration of a run, 1.
    #[tactic(auto, unfolding(fm_world::specs::Events::Registers))]
    pub fn register(&mut self, name: Name, registration: Registration) -> Result<FilterId, Status>
        ensures event { Registers self.old name registration result self.new }
        ensures hand { KeepsHands self.old self.new }
    {
        self.stack.register(name, registration)
    }

    /// Mounts a volume under a name. Refused, nothing changed: 4 where a volume has that name, 29 at the 9th volume of a run, 1.
    #[tactic(auto, unfolding(fm_world::specs::Events::Mounts))]
    pub fn mount(&mut self, name: Name) -> Result<VolumeId, Status>
        ensures event { Mounts self.old name result self.new }
        ensures hand { KeepsHands self.old self.new }
    {
        self.stack.mount(name)
    }

    /// Attaches an instance of a filter to a volume (`FltAttachVolumeAtAltitude`): the worker is then in its setup callback (`InstanceSetupCallback`).
    /// Refused, nothing changed: 30 where the worker isn't idle or isn't there, 6 and 9 where the filter isn't there or isn't loaded, 7 and 33 where the
    /// volume isn't there or is dismounting, 4 and 5 where an instance on the volume that isn't detached has that name or an equal altitude, 29 at 32 such
    /// instances or at the 4,097th attach of a run, 1.
    #[tactic(auto, unfolding(fm_world::specs::Events::Attaches))]
    pub fn attach(
        &mut self,
        worker: WorkerId,
        filter: FilterId,
        volume: VolumeId,
        name: Name,
        altitude: Altitude,
    ) -> Result<InstanceId, Status>
        ensures event { Attaches self.old worker filter volume name altitude result self.new }
        ensures hand { KeepsHands self.old self.new }
    {
        if !self.is_idle(worker) {
            return Err(Status::WrongStep);
        }
        let result = self.stack.attach(filter, volume, name, altitude);
        note_attach(&mut self.workers, worker, &result);
        result
    }

    /// The setup callback that the worker is in returns. Accepted, the instance is attached, with the next birth number: it sees every operation that
    /// begins from now on. Refused, nothing changed, with 30 where the worker is in no setup callback; and with 11 where the callback refused, or 13 where
    /// the filter isn't loaded any more or the volume is dismounting: then the callback returned all the same, the instance is Emptying, and its contexts lost
    /// their links. What the worker still held is released and counts as leaked. It takes no memory.
    #[tactic(auto, unfolding(fm_world::specs::Events::SetsUp))]
    pub fn setup_done(&mut self, worker: WorkerId, accept: bool) -> Result<(), Status>
        ensures event { SetsUp self.old worker accept result self.new }
        ensures hand { OnlyHandOf worker.0 self.old self.new }
        ensures held { hand_len worker.0 self.new ≡ left_by_setup (worker_at self.old.workers worker) (hand_len worker.0 self.old) }
    {
        let Some(instance) = setup_of(self.place(worker)) else {
            return Err(Status::WrongStep);
        };
        self.contexts.leave(worker);
        let result = self.stack.setup_done(instance, accept);
        unlink_unless(&mut self.contexts, instance, &result);
        put(&mut self.workers, worker, Place::Idle);
        result
    }
}
