//! The names that can be read of a State: of filters, of volumes, of instances with their altitudes, and of the files that operations are on.

ghost use Rattle.std.specs.Prelude.{◌≡◌, slice_get, option_map, option_and_then, option_copied};
ghost use Rattle.fm_stack.specs.declared.filter.Filter.{Filter};
ghost use Rattle.fm_stack.specs.declared.instance.Instance.{Instance};
ghost use Rattle.fm_stack.specs.declared.volume.Volume.{Volume};
ghost use Rattle.fm_operations.specs.Record.{FlowRecord};
ghost use Rattle.fm_operations.specs.Table.{operation_at};

use crate::state::State;
use fm_altitude::Altitude;
use fm_types::{FilterId, InstanceId, Name, OpId, RelPath, VolumeId};

impl State {
    /// The name under which a filter was registered (`FLT_FILTER_FULL_INFORMATION`), also after its unload; none where it isn't there.
    pub fn filter_name(&self, filter: FilterId) -> Option<Name>
        ensures { result ≡ option_map (λ (row : Filter). row.name) (slice_get self.now.stack.filters filter.0) }
    {
        self.stack.filter_name(filter)
    }

    /// The name under which a volume was mounted (`FltGetVolumeName`), also after its dismount; none where it isn't there.
    pub fn volume_name(&self, volume: VolumeId) -> Option<Name>
        ensures { result ≡ option_map (λ (row : Volume). row.name) (slice_get self.now.stack.volumes volume.0) }
    {
        self.stack.volume_name(volume)
    }

    /// The name under which an instance was attached (`FltGetInstanceInformation`), also after its detach; none where it isn't there.
    pub fn instance_name(&self, instance: InstanceId) -> Option<Name>
        ensures { result ≡ option_map (λ (row : Instance). row.name) (slice_get self.now.stack.instances instance.0) }
    {
        let row = self.stack.instance(instance)?;
        Some(row.name)
    }

    /// The altitude at which an instance was attached (`FltGetInstanceInformation`), also after its detach; none where it isn't there.
    pub fn altitude_of(&self, instance: InstanceId) -> Option<Altitude>
        ensures { result ≡ option_map (λ (row : Instance). row.altitude) (slice_get self.now.stack.instances instance.0) }
    {
        let row = self.stack.instance(instance)?;
        Some(row.altitude)
    }

    /// The path of the file that an operation is on, as it was when the operation began (`FltGetFileNameInformation`). None for a listing, and where no
    /// such operation is there.
    pub fn path_of(&self, operation: OpId) -> Option<&RelPath>
        ensures { option_copied result ≡ option_and_then (λ (r : FlowRecord). r.path) (operation_at operation self.now.flow) }
    {
        match self.flow.record(operation)?.path() {
            Some(path) => Some(path.path()),
            None => None,
        }
    }
}
