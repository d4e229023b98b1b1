//! Rows of instances, and the names of filters and volumes, to be read.

ghost use Rattle.std.specs.Prelude.{◌≡◌, option_copied, slice_get};
ghost use Rattle.std.specs.Option.{option_map};
ghost use Rattle.fm_stack.specs.declared.filter.Filter.{Filter};
ghost use Rattle.fm_stack.specs.declared.volume.Volume.{Volume};

use crate::instance::Instance;
use crate::stack::Stack;
use fm_types::{FilterId, InstanceId, Name, VolumeId};

impl Stack {
    /// The name of a filter, whatever its phase, if there is one of that id.
    pub fn filter_name(&self, filter: FilterId) -> Option<Name>
        ensures { result ≡ option_map (λ (row : Filter). row.name) (slice_get self.now.filters filter.0) }
    {
        let row = self.filters.get(filter.0 as usize)?;
        Some(row.name)
    }

    /// The name of a volume, whatever its phase, if there is one of that id.
    pub fn volume_name(&self, volume: VolumeId) -> Option<Name>
        ensures { result ≡ option_map (λ (row : Volume). row.name) (slice_get self.now.volumes volume.0) }
    {
        let row = self.volumes.get(volume.0 as usize)?;
        Some(row.name)
    }

    /// The row of an instance, whatever its phase, if there is one of that id.
    pub fn instance(&self, instance: InstanceId) -> Option<&Instance>
        ensures { option_copied result ≡ slice_get self.now.instances instance.0 }
    {
        self.instances.get(instance.0 as usize)
    }
}
