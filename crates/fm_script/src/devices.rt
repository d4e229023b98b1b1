//! The devices below a script's volumes: folders in memory, of which calls are counted together, from the script's start, and those that the script
//! names fail.

ghost use Rattle.std.specs.Prelude.{◌≡◌, ◌≤◌, ◌++◌, ◌∷◌, [], IfOk, IfErr, cond, nat_lt, length, replicate, OnOk, OnErr};
ghost use Rattle.std.specs.FinMap.{empty};
ghost use Rattle.fm_script.specs.Devices.{AreFresh, Calls, CallsOrFails, failing_with, is_failing};

use fm_callback_data::{Answer, BaseCall};
use fm_device::{Device, MemoryDevices};
use fm_types::{Bytes, Status};
use std::alloc::{AllocError, Global};

/// The devices of a script.
#[derive(Drop)]
pub struct Devices {
    alloc: Global,
    folders: MemoryDevices,
    failing: Vec<u64>,
    calls: u64,
    failures: u64,
}

impl Devices {
    /// Empty folders, and no call that fails. It fails itself where there is no memory for them.
    pub fn new(alloc: Global) -> Result<Self, AllocError>
        ensures { IfOk result AreFresh }
    {
        Ok(Devices {
            alloc,
            folders: MemoryDevices::new(alloc)?,
            failing: Vec::new(alloc),
            calls: 0,
            failures: 0,
        })
    }

    /// The call of that number, counted from 1, will fail. A call that was made stays as it was.
    pub fn fail(&mut self, number: u64) -> Result<(), AllocError>
        ensures ok { OnOk result (self.new.failing.items ≡ failing_with number self.old.calls self.old.failing.items) }
        ensures err { OnErr result (self.new.failing.items ≡ self.old.failing.items) }
        ensures rest { (self.new.folders ≡ self.old.folders) × (self.new.calls ≡ self.old.calls) × (self.new.failures ≡ self.old.failures) }
    {
        if number > self.calls {
            self.failing.push(number)?;
        }
        Ok(())
    }

    /// How many calls failed.
    pub fn failures(&self) -> u64
        ensures { result ≡ self.now.failures }
    {
        self.failures
    }

    /// How many calls were made; it stays at 2^64 - 1 once it is there.
    pub fn calls(&self) -> u64
        ensures { result ≡ self.now.calls }
    {
        self.calls
    }
}

impl Device for Devices {
    ghost carries = { Calls };

    /// A call that is to fail is answered with 18, and changes no folder. Any other is one of the folders in memory.
    fn call(&mut self, call: &BaseCall) -> Answer {
        self.calls = self.calls.saturating_add(1);
        if is_failing(&self.failing, self.calls) {
            self.failures = self.failures.saturating_add(1);
            return Answer {
                status: Status::DeviceFault,
                information: 0,
                bytes: Bytes::new(self.alloc),
            };
        }
        self.folders.call(call)
    }
}

// Whether the call of that number is one of those that fail.
fn is_failing(failing: &[u64], number: u64) -> bool
    ensures { result ≡ is_failing number failing.now }
{
    failing.iter().any(|other| *other == number)
}
