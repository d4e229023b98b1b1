//! What a callback may know of what it is called for.

ghost use Rattle.std.specs.Prelude.{◌≡◌, true, is_some, IfErr, IfOk};
ghost use Rattle.fm_world.specs.About.{Tells, about_of, about_on, about_operation};
ghost use Rattle.fm_world.specs.Owners.{operation_in, row_at};
ghost use Rattle.fm_core.specs.Callers.{path_about};

use crate::caller::{instance_in, operation_in};
use crate::state::State;
use fm_types::{SharedPath, Status, WorkerId};
use fm_world::{About, AboutOperation, Place};

// One more owner of a path, if there is one.
fn shared(path: &Option<SharedPath>) -> Result<Option<SharedPath>, Status>
    ensures told { IfOk result (λ told. told ≡ path.now) }
    ensures memory { IfErr result (λ why. why ≡ Status.NoMemory) }
    ensures path { IfErr result (λ why. is_some path.now ≡ true) }
{
    let Some(path) = path else {
        return Ok(None);
    };
    let path = path.share()?;
    Ok(Some(path))
}

impl State {
    // The operation of a callback in that place.
    fn about_operation(&self, place: Place) -> Result<Option<AboutOperation>, Status>
        ensures told { IfOk result (λ told. told ≡ about_operation self.now.flow (operation_in place)) }
        ensures memory { IfErr result (λ why. why ≡ Status.NoMemory) }
        ensures path { IfErr result (λ why. is_some (path_about self.now.flow (operation_in place)) ≡ true) }
    {
        let Some(number) = operation_in(place) else {
            return Ok(None);
        };
        let Some(record) = self.flow.record(number) else {
            return Ok(None);
        };
        let path = shared(record.path())?;
        Ok(Some(AboutOperation {
            number: record.number(),
            kind: record.operation(),
            handle: record.handle(),
            path,
        }))
    }

    /// What the callback that the worker is in may know of what it is called for (`FLT_RELATED_OBJECTS`). It takes no memory, and changes nothing. Refused
    /// with 30 where the worker is in no callback of an instance, and with 1 only where the operation has a path of which no more owners can be counted.
    #[tactic(auto, unfolding(fm_world::specs::About::Tells))]
    pub fn about(&self, worker: WorkerId) -> Result<About, Status>
        ensures { Tells self.now worker result }
    {
        let Some(place) = self.place(worker) else {
            return Err(Status::WrongStep);
        };
        let Some(instance) = instance_in(place) else {
            return Err(Status::WrongStep);
        };
        let Some(row) = self.stack.instance(instance) else {
            return Err(Status::WrongStep);
        };
        let Some(volume_name) = self.stack.volume_name(row.volume) else {
            return Err(Status::WrongStep);
        };
        Ok(About {
            instance,
            instance_name: row.name,
            filter: row.filter,
            altitude: row.altitude,
            volume: row.volume,
            volume_name,
            operation: self.about_operation(place)?,
        })
    }
}
