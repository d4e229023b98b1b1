//! Choices, and what a run was by them.

ghost use Rattle.std.specs.Prelude.{◌≡◌, true, false, All, Err, IfErr, IfOk, MatchOption};
ghost use Rattle.fm_choice.specs.Choices.{IsLast, IsNextPath};
ghost use Rattle.test_schedule.specs.Schedules.{is_repeatable};

use fm_choice::{Choice, next_path};
use fm_operations::FlowAction;
use fm_types::{InstanceId, Status, WorkerId};
use std::alloc::{AllocError, Global};

/// What a thread stands before, and does once it is let go.
#[derive(Clone, Copy, Debug, PartialEq, Eq)]
pub enum Next {
    /// It begins.
    Begin,
    /// Something of its own, with that number: `ScheduleHook::pause`.
    Own(u32),
    /// The preoperation of that instance.
    Pre(InstanceId),
    /// The postoperation of that instance.
    Post(InstanceId),
    /// That instance lets go of what its completion names, in the place of its postoperation.
    Drain(InstanceId),
}

impl Next {
    // What comes with an action of the manager. A hook is asked of callbacks alone.
    pub(crate) fn of(action: &FlowAction) -> Next {
        match action {
            FlowAction::Pre(instance, _) => Next::Pre(*instance),
            FlowAction::Post(instance, _, _) => Next::Post(*instance),
            FlowAction::Drain(instance, _) => Next::Drain(*instance),
            _ => Next::Own(0),
        }
    }
}

/// Who went on at a choice.
#[derive(Clone, Copy, Debug, PartialEq, Eq)]
pub struct Went {
    /// The thread's worker.
    pub worker: WorkerId,
    /// What it stood before.
    pub next: Next,
}

/// What a run was: its choices in their order, and whether anything else than choices had a part in it.
#[derive(Drop)]
pub struct Schedule {
    /// The choices, the first one first: how many could go on, and the place of the one that did, in the order of the workers' numbers.
    pub choices: Vec<Choice>,
    /// Who went on at each.
    pub went: Vec<Went>,
    /// How often the hook went on without a thread that didn't come for so long. From the first time on the order depends on time too.
    pub passed_over: u32,
    /// How many choices aren't in the lists, since memory was refused.
    pub lost: u32,
    /// Whether a path named an option that wasn't there: then the last one was taken.
    pub has_strayed: bool,
}

impl Schedule {
    /// Whether choices alone made the order, all of which are in the lists.
    pub fn is_repeatable(&self) -> bool
        ensures { result ≡ is_repeatable self.now }
    {
        self.passed_over == 0 && self.lost == 0 && !self.has_strayed
    }

    /// The path of the next run of a search by depth (`fm_choice::next_path`), after a run with this schedule. Refused with 32 where the schedule isn't repeatable,
    /// since its order isn't that of its choices alone; and with 1, if memory is refused.
    pub fn next_path(&self, alloc: Global) -> Result<Option<Vec<usize>>, Status>
        ensures ends { IfOk result (λ next. MatchOption next (All IsLast self.now.choices.items) (λ path. IsNextPath self.now.choices.items path.items)) }
        ensures strayed { is_repeatable self.now ≡ false → result ≡ Err Status.BadRequest }
        ensures memory { is_repeatable self.now ≡ true → IfErr result (λ status. status ≡ Status.NoMemory) }
    {
        if !self.is_repeatable() {
            return Err(Status::BadRequest);
        }
        match next_path(alloc, self.choices.as_slice()) {
            Ok(next) => Ok(next),
            Err(_) => Err(Status::NoMemory),
        }
    }

    // Notes a choice, and who went on. Fails if memory is refused.
    pub(crate) fn note(&mut self, choice: Choice, went: Went) -> Result<(), AllocError> {
        self.choices.push(choice)?;
        self.went.push(went)?;
        Ok(())
    }
}
