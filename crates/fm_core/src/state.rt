//! The state itself: what it consists of, where workers are, and what always holds of it.

ghost use Rattle.std.specs.Prelude.{◌≡◌, ◌<◌, IfErr, IfOk, option_map};
ghost use Rattle.fm_world.specs.World.{empty_world};
ghost use Rattle.fm_world.specs.Workers.{worker_at, is_idle};
ghost use Rattle.fm_world.specs.Headline.{Headline};
ghost use Rattle.fm_world.specs.Sound.{IsSound};

use crate::files::Files;
use fm_ctx::Contexts;
use fm_operations::Flow;
use fm_stack::Stack;
use fm_types::limits::{FILTERS, WORKERS};
use fm_types::{Status, WorkerId};
use fm_world::Place;
use std::alloc::Global;
use std::marker::Model;

/// The state of a filter manager: its filters, volumes and instances, its operations under way, the contexts, streams and handles, where each of 48 workers
/// is, and what each filter's cleanups returned in all.
#[derive(Drop)]
pub struct State {
    pub(crate) stack: Stack,
    pub(crate) flow: Flow,
    pub(crate) contexts: Contexts,
    pub(crate) workers: [Place; WORKERS],
    pub(crate) totals: [u64; FILTERS],
    pub(crate) files: Files,
}

impl Model for State {
    ghost use Rattle.fm_world.specs.World.{World};

    ghost Value = { World };

    ghost use Rattle.fm_core.specs.Fields.{world_of, IsState};

    ghost view = { λ s. world_of s.stack s.flow s.workers s.contexts s.totals s.files };

    ghost invariant = { λ s. IsState (world_of s.stack s.flow s.workers s.contexts s.totals s.files) s.contexts };
}

impl State {
    /// The state before the first event: nothing is registered, mounted or attached, nothing is under way, each worker is idle and holds nothing. It
    /// takes the memory for all that workers will ever hold, for all handles, and for a number for each instance. Refused with 1 where memory was refused.
    pub fn new(alloc: Global) -> Result<State, Status>
        ensures empty { IfOk result (λ state. state ≡ empty_world) }
        ensures memory { IfErr result (λ status. status ≡ Status.NoMemory) }
    {
        let flow = Flow::new(alloc)?;
        let contexts = Contexts::new(alloc)?;
        let files = Files::new(alloc)?;
        Ok(State {
            stack: Stack::new(alloc),
            flow,
            contexts,
            workers: [Place::Idle; WORKERS],
            totals: [0; FILTERS],
            files,
        })
    }

    /// What holds of every state, whatever events led to it, for callers that rest on it. It does nothing.
    pub fn headline(&self)
        ensures { Headline self.now }
    {
        self.laws();
    }

    /// What the induction over events rests on, for callers that carry one further. It does nothing.
    pub fn laws(&self)
        ensures { IsSound self.now }
    {
        let _ = &self.stack;
    }

    /// Where a worker is, if there is such a worker.
    pub fn place(&self, worker: WorkerId) -> Option<Place>
        ensures { result ≡ worker_at self.now.workers worker }
    {
        self.workers.get(worker.0 as usize).copied()
    }

    /// Whether the worker is there and idle.
    pub fn is_idle(&self, worker: WorkerId) -> bool
        ensures { result ≡ is_idle (worker_at self.now.workers worker) }
    {
        matches!(self.place(worker), Some(Place::Idle))
    }
}
