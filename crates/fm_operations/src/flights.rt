//! How many operations are in flight at each instance.

ghost use Rattle.std.specs.Prelude.{◌≡◌, IfOk, replicate, length};
ghost use Rattle.fm_operations.specs.Tallied.{kept_at, one_more, one_less, MayEnter, MayLeave};

use fm_types::InstanceId;
use fm_types::limits::INSTANCES;
use std::alloc::{AllocError, Global};
use std::marker::Model;

/// A number for each instance: how many operations are in flight there. An instance past the table has none.
#[derive(Drop)]
pub(crate) struct Flights {
    counts: Vec<usize>,
}

impl Model for Flights {
    ghost use Rattle.std.specs.Prelude.{◌≡◌, ℕ, List, length};

    ghost Value = { List ℕ };

    ghost view = { λ f. f.counts.items };

    ghost invariant = { λ f. length f.counts.items ≡ 4096 };
}

impl Flights {
    /// Nothing is in flight. It takes all the memory that it will need, refused where that is.
    pub(crate) fn new(alloc: Global) -> Result<Flights, AllocError>
        ensures { IfOk result (λ flights. flights ≡ replicate 4096 0) }
    {
        let mut counts = Vec::new(alloc);
        counts.resize(INSTANCES, 0)?;
        Ok(Flights { counts })
    }

    /// How many are in flight at an instance.
    pub(crate) fn of(&self, instance: InstanceId) -> usize
        ensures { result ≡ kept_at self.now instance.0 }
    {
        match self.counts.get(instance.0 as usize) {
            Some(count) => *count,
            None => 0,
        }
    }

    /// An operation comes to an instance, if one is named, at which fewer than that many are.
    pub(crate) fn enters(&mut self, instance: Option<InstanceId>, operations: usize)
        requires { MayEnter instance operations self.old }
        ensures table { length self.old ≡ 4096 }
        ensures after { self.new ≡ one_more instance self.old }
    {
        let count = self.counts.len();
        let Some(instance) = instance else {
            return;
        };
        let place = instance.0 as usize;
        if place < count {
            self.counts[place] += 1;
        }
    }

    /// An operation leaves an instance, if one is named.
    pub(crate) fn leaves(&mut self, instance: Option<InstanceId>)
        requires { MayLeave instance self.old }
        ensures table { length self.old ≡ 4096 }
        ensures after { self.new ≡ one_less instance self.old }
    {
        let count = self.counts.len();
        let Some(instance) = instance else {
            return;
        };
        let place = instance.0 as usize;
        if place < count {
            self.counts[place] -= 1;
        }
    }
}
