//! File systems in memory, one for each volume.

ghost use Rattle.std.specs.Prelude.{◌≡◌, IfOk, replicate};
ghost use Rattle.std.specs.FinMap.{empty};
ghost use Rattle.fm_device.specs.Devices.{CarriesCall};

use crate::bases::Bases;
use crate::device::Device;
use fm_base::MemoryBase;
use fm_callback_data::{Answer, BaseCall};
use fm_types::limits::VOLUMES;
use std::alloc::{AllocError, Global};
use std::marker::Model;

/// A folder in memory for each volume that may be mounted, empty at first. Contracts see the folders.
#[derive(Drop)]
pub struct MemoryDevices {
    folders: Bases<MemoryBase>,
}

impl Model for MemoryDevices {
    ghost use Rattle.std.specs.Prelude.{List};
    ghost use Rattle.std.specs.Coded.{coded_ℕ, coded_list};
    ghost use Rattle.std.specs.FinMap as map;
    ghost use Rattle.fm_base.specs.Folders.{Folder};

    ghost Value = { List Folder };

    ghost coded = { coded_list (map.code (coded_list coded_ℕ) (coded_list coded_ℕ)) };

    ghost view = { λ devices. devices.folders.all.items };
}

impl MemoryDevices {
    /// Eight empty folders. It fails where there is no memory for them.
    pub fn new(alloc: Global) -> Result<Self, AllocError>
        ensures { IfOk result (λ devices. devices ≡ replicate 8 empty) }
    {
        let mut folders = Bases::new(alloc)?;
        for _ in 0..VOLUMES {
            folders.place(MemoryBase::new(alloc));
        }
        Ok(MemoryDevices { folders })
    }
}

impl Device for MemoryDevices {
    ghost carries = { CarriesCall };

    /// A call of a volume that isn't there is answered with 7, one that names no file and is no listing with 32, and these change nothing. Any
    /// other is answered, and changes its volume's folder, as that folder says, unless memory is wanting, when it changes nothing. All other volumes stay.
    fn call(&mut self, call: &BaseCall) -> Answer {
        self.folders.call(call)
    }
}
