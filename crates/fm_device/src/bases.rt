//! File systems of one type, one for each volume.

ghost use Rattle.std.specs.Prelude.{◌≡◌, ◌≤◌, ◌++◌, ◌∷◌, [], IfOk, cond, nat_lt, vec_capacity, vec_len};
ghost use Rattle.std.specs.Borrow.{sem};
ghost use Rattle.std.specs.List.{IsItemAtMut};
ghost use Rattle.fm_device.specs.Bases.{BasesCarry};
ghost use Rattle.fm_device.specs.Lending.{LendsBase};

use crate::calls::{call_base, refused};
use crate::device::Device;
use fm_base::Base;
use fm_callback_data::{Answer, BaseCall};
use fm_types::limits::VOLUMES;
use fm_types::{Status, VolumeId};
use std::alloc::{AllocError, Global};

/// The bases of volumes, of one type, in the order of the volumes' numbers: none at first, and 8 at most have their room.
#[derive(Drop)]
pub struct Bases<B> {
    alloc: Global,
    all: Vec<B>,
}

impl<B: Base> Bases<B> {
    /// No bases, and the room for those of 8 volumes. It fails if there is no memory for that.
    pub fn new(alloc: Global) -> Result<Bases<B>, AllocError>
        ensures none { IfOk result (λ bases. bases.all.items ≡ []) }
        ensures room { IfOk result (λ bases. 8 ≤ vec_capacity bases.all) }
    {
        Ok(Bases {
            alloc,
            all: Vec::with_capacity(alloc, VOLUMES)?,
        })
    }

    /// Places the base of the next volume after those of the others, if there is room for it; else the base is gone. It takes no memory.
    pub fn place(&mut self, base: B)
        ensures placed { self.new.all.items ≡ cond (nat_lt (vec_len self.old.all) (vec_capacity self.old.all)) (self.old.all.items ++ base ∷ []) self.old.all.items }
        ensures room { vec_capacity self.new.all ≡ vec_capacity self.old.all }
    {
        if self.all.len() < self.all.capacity() {
            self.all.push_reserved(base);
        }
    }

    /// The base of a volume, if it has one. What is written to it is written there, and all others stay.
    pub fn of(&mut self, volume: VolumeId) -> Option<&mut B>
        ensures* writes_back { sem 𝓛 (LendsBase B.row self.entry volume result) }
        ensures item { IsItemAtMut self.old.all.items volume.0 result }
    {
        self.all.get_mut(usize::from(volume.0))
    }
}

impl<B: Base> Device for Bases<B> {
    ghost carries = { λ old call answer new. BasesCarry B.folder B.faults old.all.items call answer new.all.items };

    /// A call of a volume that has no base is answered with 7, and changes nothing. Any other is answered as `call_base` answers it of the base of its
    /// volume, and changes that base as it does; all others stay.
    fn call(&mut self, call: &BaseCall) -> Answer {
        let alloc = self.alloc;
        match self.of(call.volume()) {
            Some(base) => call_base(alloc, base, call),
            None => refused(alloc, Status::NoVolume),
        }
    }
}
