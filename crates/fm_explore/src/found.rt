//! What a search found.

use crate::schedule::Schedule;
use std::alloc::{AllocError, Global};
use std::fmt::Write;

/// Of which kind a finding is.
#[derive(Clone, Copy, Debug, PartialEq, Eq)]
pub(crate) enum FoundKind {
    /// A mistake of a callback was told.
    Told,
    /// An expectation wasn't met.
    Unmet,
    /// A client waits, and nobody can go on.
    Stuck,
    /// How a run ended.
    End,
}

impl FoundKind {
    /// What stands before its words, which say themselves what was told.
    pub(crate) fn word(self) -> &'static str {
        match self {
            FoundKind::Unmet => "UNMET ",
            FoundKind::Stuck => "STUCK ",
            FoundKind::Told | FoundKind::End => "",
        }
    }
}

/// What was found in one run.
#[derive(Drop)]
pub(crate) struct RunFinding {
    /// Of which kind it is.
    pub(crate) kind: FoundKind,
    /// What it is: the same words for the same finding in each run.
    pub(crate) words: String,
}

/// What was found in some schedules.
#[derive(Drop)]
pub(crate) struct Found {
    /// What it is.
    pub(crate) finding: RunFinding,
    /// In how many schedules.
    pub(crate) count: u64,
    /// The number of the last of these.
    pub(crate) last: u64,
    /// The one that is best to look at, of those so far.
    pub(crate) best: BestSchedule,
}

/// A schedule, as it is shown.
#[derive(Drop)]
pub(crate) struct BestSchedule {
    pub(crate) preemptions: u32,
    pub(crate) switches: u32,
    pub(crate) steps: usize,
    pub(crate) words: String,
}

impl BestSchedule {
    /// A schedule of clients with these names. Fails if memory is refused.
    pub(crate) fn of(
        alloc: Global,
        schedule: &Schedule,
        names: &[&str],
    ) -> Result<BestSchedule, AllocError> {
        Ok(BestSchedule {
            preemptions: schedule.preemptions,
            switches: schedule.switches,
            steps: schedule.choices.len(),
            words: words_of(alloc, schedule, names)?,
        })
    }

    /// Whether a schedule is better to look at: it has fewer preemptions, else fewer switches, else fewer steps.
    pub(crate) fn is_behind(&self, schedule: &Schedule) -> bool {
        if schedule.preemptions != self.preemptions {
            return schedule.preemptions < self.preemptions;
        }
        if schedule.switches != self.switches {
            return schedule.switches < self.switches;
        }
        schedule.choices.len() < self.steps
    }
}

// Appends a client with the number of its steps.
fn write_run(words: &mut String, name: &str, steps: usize) -> Result<(), AllocError> {
    if !words.is_empty() {
        words.push(' ')?;
    }
    words.push_str(name)?;
    if steps > 1 {
        write!(words, "*{steps}")?;
    }
    Ok(())
}

// A schedule in words: each client with the number of its steps, in their order.
fn words_of(alloc: Global, schedule: &Schedule, names: &[&str]) -> Result<String, AllocError> {
    let mut words = String::new(alloc);
    let mut last: Option<(usize, usize)> = None;
    for next in &schedule.clients {
        last = match last {
            Some((client, steps)) if client == *next => Some((client, steps.saturating_add(1))),
            Some((client, steps)) => {
                write_run(&mut words, name_in(names, client), steps)?;
                Some((*next, 1))
            }
            None => Some((*next, 1)),
        };
    }
    if let Some((client, steps)) = last {
        write_run(&mut words, name_in(names, client), steps)?;
    }
    Ok(words)
}

// The name at that place.
fn name_in<'a>(names: &[&'a str], place: usize) -> &'a str {
    match names.get(place) {
        Some(name) => *name,
        None => "",
    }
}

impl Found {
    /// Whether it is that finding.
    pub(crate) fn is_same(&self, finding: &RunFinding) -> bool {
        self.finding.kind == finding.kind && self.finding.words.as_str() == finding.words.as_str()
    }
}
