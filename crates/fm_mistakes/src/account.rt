//! What was told of a scenario so far, what of it was expected, and how the scenario ends.

ghost use Rattle.std.specs.Prelude.{◌≡◌, ◌≤◌, ◌<◌, ◌++◌, ◌∷◌, [], IfOk, OnErr, OnOk, count_by, position};
ghost use Rattle.fm_mistakes.specs.Accounts.{Expects, TellsAll, counts_as_mistake, is_open, is_told_leak, is_told_misuse, next_request, status_of, tellings, told_leaks, told_now};

use crate::finding::Finding;
use crate::mistake::Mistake;
use std::alloc::{AllocError, Global};

/// A mistake or a limit that was told of a request, and whether a line expects it.
#[derive(Clone, Copy, Debug, PartialEq, Eq)]
pub struct ToldMistake {
    /// Which one it is.
    pub mistake: Mistake,
    /// Of which request, by their order.
    pub request: u64,
    /// Whether a line of its own expects it.
    pub is_expected: bool,
}

impl ToldMistake {
    // Whether it counts at the end. A limit of the model is no mistake.
    fn is_counted(&self) -> bool
        ensures { result ≡ counts_as_mistake self.now }
    {
        !self.is_expected && !self.mistake.is_limit()
    }

    // Whether something was given back or let go on that isn't held.
    fn is_misuse(&self) -> bool
        ensures { result ≡ is_told_misuse self.now }
    {
        self.mistake.is_misuse()
    }

    // Whether it is a reference that a callback left behind.
    fn is_leak(&self) -> bool
        ensures { result ≡ is_told_leak self.now }
    {
        self.mistake.is_leak()
    }

    // Whether it is that mistake, told of that request, and no line expects it yet.
    fn is_open(&self, wanted: Mistake, request: u64) -> bool
        ensures { result ≡ is_open wanted request self.now }
    {
        !self.is_expected && self.request == request && self.mistake.number() == wanted.number()
    }
}

// What is told of these findings of a request.
fn tellings(alloc: Global, found: &[Finding], request: u64) -> Result<Vec<ToldMistake>, AllocError>
    ensures { IfOk result (λ told. told.items ≡ tellings request found.now) }
{
    found
        .iter()
        .map(|finding| ToldMistake {
            mistake: finding.mistake(),
            request,
            is_expected: false,
        })
        .collect(alloc)
}

/// All that was told of a scenario, in its order, and what its lines expect of it.
#[derive(Drop)]
pub struct Account {
    told: Vec<ToldMistake>,
    // How many requests were made, as far as a number tells.
    request: u64,
    // How many expectations weren't met.
    unmet: u64,
    // How many steps, leaks and refused calls the manager didn't keep, so that nothing is told of them.
    dropped: u64,
}

impl Account {
    /// Before anything is told.
    pub fn new(alloc: Global) -> Account
        ensures told { result.told.items ≡ [] }
        ensures unmet { result.unmet ≡ 0 }
        ensures dropped { result.dropped ≡ 0 }
    {
        Account {
            told: Vec::new(alloc),
            request: 0,
            unmet: 0,
            dropped: 0,
        }
    }

    /// Another request is made: what was told before it isn't expected by the lines that follow.
    pub fn begin_request(&mut self)
        ensures { self.new ≡ record self.old { request = next_request self.old.request } }
    {
        self.request = self.request.saturating_add(1);
    }

    /// That mistake is told of the last request. Fails, nothing changed, if memory is refused.
    pub fn tell(&mut self, mistake: Mistake) -> Result<(), AllocError>
        ensures told { OnOk result (self.new.told.items ≡ self.old.told.items ++ told_now mistake self.old.request ∷ []) }
        ensures refused { OnErr result (self.new.told.items ≡ self.old.told.items) }
        ensures same { self.new ≡ record self.old { told = self.new.told } }
    {
        self.told.push(ToldMistake {
            mistake,
            request: self.request,
            is_expected: false,
        })?;
        Ok(())
    }

    /// These findings are told of the last request, in their order. Fails, nothing changed, if memory is refused.
    pub fn tell_all(&mut self, alloc: Global, found: &[Finding]) -> Result<(), AllocError>
        ensures told { IfOk result (λ _. TellsAll found.now self.old self.new) }
        ensures refused { OnErr result (self.new.told.items ≡ self.old.told.items) }
    {
        let told = tellings(alloc, found, self.request)?;
        self.told.extend_from_slice(told.as_slice())
    }

    // Where the first one stands that is that mistake, told of the last request, and that no line expects yet.
    fn open_place(&self, wanted: Mistake) -> Option<usize>
        ensures { result ≡ position (is_open wanted self.now.request) self.now.told.items }
    {
        let request = self.request;
        self.told
            .iter()
            .position(|told| told.is_open(wanted, request))
    }

    /// A line expects that this mistake was told of the last request. Whether it was, and no other line expects that telling: it is expected by this one then.
    pub fn expect(&mut self, wanted: Mistake) -> bool
        ensures { Expects wanted self.old result self.new }
    {
        let Some(place) = self.open_place(wanted) else {
            return false;
        };
        self.told[place].is_expected = true;
        true
    }

    /// An expectation wasn't met.
    pub fn miss(&mut self)
        ensures same { self.new ≡ record self.old { unmet = self.new.unmet } }
        ensures more { 0 < self.new.unmet }
    {
        self.unmet = self.unmet.saturating_add(1);
    }

    /// So much wasn't kept of what could have been told.
    pub fn drop_more(&mut self, count: u64)
        ensures same { self.new ≡ record self.old { dropped = self.new.dropped } }
        ensures kept { self.old.dropped ≤ self.new.dropped }
        ensures more { count ≤ self.new.dropped }
    {
        self.dropped = self.dropped.saturating_add(count);
    }

    /// All that was told, in its order.
    pub fn told(&self) -> &[ToldMistake]
        ensures { result.now ≡ self.now.told.items }
    {
        self.told.as_slice()
    }

    /// Whether that was told of the last request.
    pub fn is_of_last(&self, told: &ToldMistake) -> bool {
        told.request == self.request
    }

    /// How many mistakes were told that no line expects.
    pub fn mistakes(&self) -> usize
        ensures { result ≡ count_by counts_as_mistake self.now.told.items }
    {
        self.told.iter().filter(|told| told.is_counted()).count()
    }

    /// How often something was given back or let go on that wasn't held.
    pub fn misuses(&self) -> usize
        ensures { result ≡ count_by is_told_misuse self.now.told.items }
    {
        self.told.iter().filter(|told| told.is_misuse()).count()
    }

    /// How many references that callbacks left behind were told.
    pub fn leaks(&self) -> usize
        ensures { result ≡ told_leaks self.now }
    {
        self.told.iter().filter(|told| told.is_leak()).count()
    }

    /// How many expectations weren't met.
    pub fn unmet(&self) -> u64
        ensures { result ≡ self.now.unmet }
    {
        self.unmet
    }

    /// How many steps, leaks and refused calls weren't kept.
    pub fn dropped(&self) -> u64
        ensures { result ≡ self.now.dropped }
    {
        self.dropped
    }

    /// The exit status of a scenario that came to that: 1 if an expectation wasn't met, else 5 if a mistake was told that no line expects, or if something wasn't
    /// kept of which one could have been told, and else 0.
    pub fn status(&self) -> u8
        ensures { result ≡ status_of self.now }
    {
        if self.unmet > 0 {
            1
        } else if self.mistakes() > 0 || self.dropped > 0 {
            5
        } else {
            0
        }
    }
}
