//! What a filter does for an instance outside of callbacks.

ghost use Rattle.fm_local.specs.Actions.{WorksThenSettles};
ghost use Rattle.fm_local.specs.Between.{StaysBetween};
ghost use Rattle.fm_local.specs.Callbacks.{KeepsWaiting, LeavesStanding};
ghost use Rattle.fm_local.specs.Offered.{StaysReadyAlike};
ghost use Rattle.fm_local.specs.Private.{EndsRoutine, NotesLeaks};

use crate::local_port::Work;
use crate::parts::{Parts, WORKER};
use crate::requests::RESUMPTIONS;
use fm_base::Base;
use fm_core::Place;
use fm_filter::{Minifilter, WorkItem};
use fm_types::limits::TURNS;
use fm_types::{HandleId, InstanceId, Status};

impl<F: Minifilter, B: Base> Parts<F, B> {
    /// As `LocalManager::run_work`.
    pub(crate) fn run_work<W: WorkItem>(
        &mut self,
        instance: InstanceId,
        handle: Option<HandleId>,
        item: &W,
    ) -> Result<(), Status>
        ensures works { WorksThenSettles F.Minifilter B.Base WORKER TURNS RESUMPTIONS (λ before after. W.works item.now before after) instance handle self.old result self.new }
        ensures between { StaysBetween self.old self.new }
        ensures ready { StaysReadyAlike F.Minifilter B.Base self.old self.new }
    {
        self.work.state.enter_routine(WORKER, instance, handle)?;
        self.run_item(item);
        self.settle();
        Ok(())
    }

    // Runs a work item in the routine that the worker has entered.
    fn run_item<W: WorkItem>(&mut self, item: &W)
        ensures ends { EndsRoutine (λ before after. W.works item.now before after) self.old self.new }
        ensures kept { NotesLeaks self.old self.new }
        ensures waits { KeepsWaiting self.old.work self.new.work }
    {
        let routine = self.work.state.place(WORKER).unwrap_or(Place::Idle);
        do_work(&mut self.work, item);
        let before = self.work.state.leaks();
        // The worker is in the routine, so that its end isn't refused.
        let _ = self.work.state.routine_returned(WORKER);
        self.note_left(before, routine);
    }
}

// Runs a work item on the port.
fn do_work<W: WorkItem>(work: &mut Work, item: &W)
    ensures works { W.works item.now work.old work.new }
    ensures far { LeavesStanding work.old work.new }
    ensures waits { KeepsWaiting work.old work.new }
{
    item.run(work);
}
