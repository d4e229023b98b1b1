//! One run of a scenario, in one order.

ghost use Rattle.std.specs.Prelude.{◌≡◌, [], IfOk};
ghost use Rattle.fm_explore.specs.Orders.{TookPath};
ghost use Rattle.fm_explore.specs.declared.run.End.{End};

use crate::scenario::ClientScenario;
use crate::scene::Scene;
use crate::schedule::{Chooser, RunOrder};
use fm_filter::Minifilter;
use fm_types::{Name, Status};
use std::alloc::Global;

/// How many steps a run may have.
pub(crate) const STEPS: usize = 20_000;

/// How a run ended.
#[derive(Clone, Copy, Debug, PartialEq, Eq)]
pub(crate) enum End {
    /// Nobody could go on any more.
    Over,
    /// It has more steps than it may have.
    Endless,
    /// A choice wasn't there: the filters don't repeat themselves, or a schedule to be played is another scenario's.
    Strayed,
}

/// A run under way.
#[derive(Drop)]
pub(crate) struct ScheduleRun<'a, F> {
    /// Its order so far, and what picks the next client.
    pub(crate) order: RunOrder,
    /// What it is over.
    pub(crate) scene: Scene<'a, F>,
}

impl<'a, F: Minifilter> ScheduleRun<'a, F> {
    /// Before its first step. Refused with 1, if memory is refused.
    pub(crate) fn new(
        alloc: Global,
        scenario: &'a ClientScenario,
        filters: Vec<(Name, F)>,
        chooser: Chooser,
        bound: u32,
    ) -> Result<ScheduleRun<'a, F>, Status>
        ensures order { IfOk result (λ run. (run.order.chooser ≡ chooser) × (run.order.bound ≡ bound) × (run.order.schedule.choices.items ≡ [])) }
    {
        let scene = Scene::new(alloc, scenario, filters)?;
        let order = RunOrder::new(alloc, chooser, bound);
        Ok(ScheduleRun { order, scene })
    }

    #[tactic(auto, using(crate::proofs::Paths::on_path_begun, crate::proofs::Paths::took_path))]
    /// Goes on until nobody can, and then makes the requests of `finally`. A run that is over took the path that it was given, and after it the first of those that
    /// could go on. Refused with 1, if memory is refused.
    pub(crate) fn play(&mut self) -> Result<End, Status>
        ensures takes { self.old.order.schedule.choices.items ≡ [] → IfOk result (λ end. end ≡ End.Over → TookPath self.old.order.chooser self.new.order.schedule.choices.items) }
    {
        for _ in 0..STEPS {
            let can = self.scene.who_can()?;
            let options = self.order.options(self.scene.alloc, can.as_slice())?;
            if options.is_empty() {
                if !self.scene.take_finally()? {
                    return Ok(self.order.end());
                }
            } else {
                let chosen = self.order.choose(options.as_slice(), can.as_slice())?;
                let Some(client) = chosen else {
                    return Ok(End::Strayed);
                };
                self.scene.step(client)?;
            }
        }
        Ok(End::Endless)
    }
}
