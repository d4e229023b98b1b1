//! What findings come to.

ghost use Rattle.std.specs.Prelude.{◌≡◌, ◌||◌};
ghost use Rattle.std.specs.List.{list_any};
ghost use Rattle.fm_explore.specs.declared.found.RunFinding.{RunFinding};
ghost use Rattle.fm_explore.specs.Verdicts.{found_status, is_stuck, is_wrong, nothing_found, with_found};

use crate::found::{FoundKind, RunFinding};

/// The exit status if a mistake was told or an expectation wasn't met.
pub(crate) const FOUND: u8 = 5;

/// The exit status if a client was stuck and nothing else was found.
pub(crate) const STUCK: u8 = 6;

// Whether a finding of that kind is a mistake that was told, or an expectation that wasn't met.
fn is_wrong(kind: FoundKind) -> bool
    ensures { result ≡ is_wrong kind }
{
    matches!(kind, FoundKind::Told | FoundKind::Unmet)
}

// Whether it is a client that waits while nobody can go on.
fn is_stuck(kind: FoundKind) -> bool
    ensures { result ≡ is_stuck kind }
{
    matches!(kind, FoundKind::Stuck)
}

// Whether one of these is wrong.
fn are_wrong(found: &[RunFinding]) -> bool
    ensures { result ≡ list_any (λ (f : RunFinding). is_wrong f.kind) found.now }
{
    found.iter().any(|finding| is_wrong(finding.kind))
}

// Whether one of these is a stuck client.
fn are_stuck(found: &[RunFinding]) -> bool
    ensures { result ≡ list_any (λ (f : RunFinding). is_stuck f.kind) found.now }
{
    found.iter().any(|finding| is_stuck(finding.kind))
}

/// Whether one is so.
pub(crate) fn either(one: bool, other: bool) -> bool
    ensures { result ≡ one || other }
{
    one || other
}

/// What the findings so far come to.
#[derive(Clone, Copy, Debug, PartialEq, Eq)]
pub(crate) struct Verdict {
    /// Whether a mistake was told, or an expectation wasn't met.
    pub(crate) is_wrong: bool,
    /// Whether a client was stuck.
    pub(crate) is_stuck: bool,
}

impl Verdict {
    /// Nothing was found yet.
    pub(crate) fn new() -> Verdict
        ensures { result ≡ nothing_found }
    {
        Verdict {
            is_wrong: false,
            is_stuck: false,
        }
    }

    /// What they come to with these: a told mistake, an unmet expectation and a stuck client count, wherever they stand among them.
    pub(crate) fn with_found(self, found: &[RunFinding]) -> Verdict
        ensures { result ≡ with_found self found.now }
    {
        Verdict {
            is_wrong: either(self.is_wrong, are_wrong(found)),
            is_stuck: either(self.is_stuck, are_stuck(found)),
        }
    }

    /// The exit status by what was found: 5 if something is wrong, else 6 if a client was stuck, else 0.
    pub(crate) fn status(self) -> u8
        ensures { result ≡ found_status self }
    {
        if self.is_wrong {
            FOUND
        } else if self.is_stuck {
            STUCK
        } else {
            0
        }
    }
}
