//! A law of the script, as a function that promises it and does nothing.

ghost use Rattle.fm_script.specs.Events.{TasksAreRuns};

/// Whatever a line makes of the manager's state is a run of events that its command names, each with an answer that the model gives it: of `go` those of
/// its worker and its operation. So what holds of every run holds behind every line of a script.
#[tactic(auto, using(crate::proofs::Running::tasks_are_runs))]
pub fn tasks_are_runs()
    ensures { TasksAreRuns }
{}
