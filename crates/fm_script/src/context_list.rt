//! The contexts that a script allocated, by their numbers.

ghost use Rattle.std.specs.Prelude.{◌≡◌, ◌++◌, ◌∷◌, [], IfSome, OnOk, position, reverse, true};
ghost use Rattle.std.specs.List.{position_or_len};
ghost use Rattle.fm_script.specs.ContextLists.{is_context, number_in};

use fm_types::CtxId;
use std::alloc::{AllocError, Global};
use std::marker::Model;

/// How many contexts are compared in a row, without a look whether there are more.
const ROW: usize = 8;

/// The contexts in the order of their allocation, which their numbers are. Contracts see them, and whether there is room for one more.
#[derive(Drop)]
pub struct ContextList {
    ids: Vec<CtxId>,
    // For each slot that it reaches: the highest number of a context there. Slots mostly come into use one after the other.
    newest: Vec<usize>,
}

impl Model for ContextList {
    ghost use Rattle.std.specs.Prelude.{vec_capacity};
    ghost use Rattle.fm_script.specs.ContextLists.{AreNewest, ContextsNoted, noted_in};

    ghost Value = { ContextsNoted };

    ghost view = { λ contexts. noted_in contexts.ids.items (vec_capacity contexts.ids) contexts.newest.items (vec_capacity contexts.newest) };

    ghost invariant = { λ contexts. AreNewest contexts.ids.items contexts.newest.items };
}

impl ContextList {
    /// No contexts.
    pub fn new(alloc: Global) -> Self
        ensures { result.ids ≡ [] }
    {
        ContextList {
            ids: Vec::new(alloc),
            newest: Vec::new(alloc),
        }
    }

    /// The contexts.
    pub fn as_slice(&self) -> &[CtxId]
        ensures { result.now ≡ self.now.ids }
    {
        self.ids.as_slice()
    }

    /// Makes room for one more. The error says that memory was refused; no other call takes memory.
    pub fn reserve(&mut self) -> Result<(), AllocError>
        ensures ok { OnOk result (self.new.has_room ≡ true) }
        ensures ids { self.new.ids ≡ self.old.ids }
    {
        self.newest.try_reserve(1)?;
        self.ids.try_reserve(1)
    }

    /// Appends one that was allocated.
    pub fn push(&mut self, context: CtxId)
        requires { self.old.has_room ≡ true }
        ensures { self.new.ids ≡ self.old.ids ++ context ∷ [] }
    {
        let number = self.ids.len();
        let slot = context.slot as usize;
        if slot < self.newest.len() {
            self.newest[slot] = number;
        } else if slot == self.newest.len() {
            self.newest.push_reserved(number);
        }
        self.ids.push_reserved(context);
    }

    /// A context's number, if it is there: the last one of its slot is found at once, and any other is searched for.
    pub fn number_of(&self, context: CtxId) -> Option<usize>
        ensures { result ≡ number_in context self.now.ids }
    {
        match self.newest_number(context) {
            Some(number) => Some(number),
            None => searched(self.ids.as_slice(), context),
        }
    }

    // The number of a context that is the last one of its slot.
    fn newest_number(&self, context: CtxId) -> Option<usize>
        ensures { IfSome result (λ number. number_in context self.now.ids ≡ Some number) }
    {
        let number = *self.newest.get(context.slot as usize)?;
        let last = self.ids.get(number)?;
        if is_same(*last, context) {
            Some(number)
        } else {
            None
        }
    }
}

fn is_same(own: CtxId, context: CtxId) -> bool
    ensures { result ≡ is_context context own }
{
    own.slot == context.slot && own.generation == context.generation
}

// How many of a row of contexts were allocated after it, if it is among them.
fn newer_in_row(row: &[CtxId], context: CtxId) -> Option<usize>
    ensures { result ≡ position (is_context context) (reverse row.now) }
{
    row.iter().rev().position(|own| is_same(*own, context))
}

// How many contexts were allocated after it: all where it isn't among them.
fn newer_than(contexts: &[CtxId], context: CtxId) -> usize
    ensures { result ≡ position_or_len (is_context context) (reverse contexts.now) }
{
    let mut newer = 0;
    let mut rest = contexts;
    while let Some((older, row)) = rest.split_last_chunk::<ROW>() {
        if let Some(place) = newer_in_row(row, context) {
            return newer + place;
        }
        newer += ROW;
        rest = older;
    }
    match newer_in_row(rest, context) {
        Some(place) => newer + place,
        None => contexts.len(),
    }
}

// The number of a context, by a walk from the last one.
fn searched(contexts: &[CtxId], context: CtxId) -> Option<usize>
    ensures { result ≡ number_in context contexts.now }
{
    let newer = newer_than(contexts, context);
    if newer < contexts.len() {
        Some(contexts.len() - (newer + 1))
    } else {
        None
    }
}
