//! The room that an operation has for what happens to it.

ghost use Rattle.std.specs.Prelude.{◌≡◌, ◌≤◌, [], IfOk, vec_capacity};

use crate::entry::Entry;
use fm_callback_data::Params;
use fm_types::limits::{ENTRIES, LIVE};
use std::alloc::{AllocError, Global};
use std::marker::Model;

/// Room for all the entries of an operation, and for the parameters that it keeps. That of an operation
/// which is over is kept for the next one. Contracts see the entries in it: none.
#[derive(Drop)]
pub(crate) struct Room {
    entries: Vec<Entry>,
    kept: Vec<Params>,
}

impl Model for Room {
    ghost use Rattle.std.specs.Prelude.{List, ◌≡◌, ◌≤◌, [], vec_capacity};
    ghost use Rattle.fm_operations.specs.declared.entry.Entry.{Entry};

    ghost Value = { List Entry };

    ghost view = { λ room. room.entries.items };

    ghost invariant = { λ room. (room.entries.items ≡ []) × ((room.kept.items ≡ []) × ((65 ≤ vec_capacity room.entries) × (32 ≤ vec_capacity room.kept))) };
}

impl Room {
    /// New room; the error says that memory was refused.
    pub(crate) fn new(alloc: Global) -> Result<Room, AllocError>
        ensures { IfOk result (λ room. room ≡ []) }
    {
        let entries = Vec::with_capacity(alloc, ENTRIES)?;
        let kept = Vec::with_capacity(alloc, LIVE)?;
        Ok(Room { entries, kept })
    }

    /// The room that an operation had, emptied.
    pub(crate) fn of(mut entries: Vec<Entry>, mut kept: Vec<Params>) -> Room
        requires entries { 65 ≤ vec_capacity entries }
        requires kept { 32 ≤ vec_capacity kept }
        ensures { result ≡ [] }
    {
        entries.clear();
        kept.clear();
        Room { entries, kept }
    }

    /// Where an operation begins to note what happens to it.
    pub(crate) fn into_lists(self) -> (Vec<Entry>, Vec<Params>)
        ensures entries { result.0.items ≡ [] }
        ensures kept { result.1.items ≡ [] }
        ensures room { 65 ≤ vec_capacity result.0 }
        ensures few { 32 ≤ vec_capacity result.1 }
    {
        let Room { entries, kept } = self;
        (entries, kept)
    }
}
