//! Filters: a name, what it registered for, and how far its life has come.

ghost use Rattle.std.specs.Prelude.{◌≡◌, ◌<◌, length};
ghost use Rattle.fm_types.specs.Lists.{updated};
ghost use Rattle.fm_stack.specs.Events.{is_named, is_loaded_phase};
ghost use Rattle.fm_stack.specs.Unloading.{filter_in, is_unloading_phase, is_filter_emptied_phase};

use fm_types::{Name, Registration};

/// How far a filter's life has come.
#[derive(Clone, Copy, Debug, PartialEq, Eq)]
pub enum FilterPhase {
    /// Registered; instances of it may be attached.
    Loaded,
    /// Its unload was consented to or forced; its instances are torn down.
    Unloading,
    /// Its volume contexts are unlinked.
    Emptied,
    /// Unloaded for good. Its name may be registered again.
    NotLoaded,
}

/// A filter that was registered in this run. Rows are kept for good.
#[derive(Drop)]
pub struct Filter {
    /// Its name, which no other filter that isn't unloaded has.
    pub name: Name,
    /// The operations and kinds of contexts that it registered.
    pub registration: Registration,
    /// How far its life has come.
    pub phase: FilterPhase,
}

impl Filter {
    /// Whether the filter has that name and isn't unloaded.
    pub fn is_named(&self, name: &Name) -> bool
        ensures { result ≡ is_named name.now self.now }
    {
        self.name == *name && !matches!(self.phase, FilterPhase::NotLoaded)
    }

    /// Whether instances of the filter may be attached.
    pub fn is_loaded(&self) -> bool
        ensures { result ≡ is_loaded_phase self.now.phase }
    {
        matches!(self.phase, FilterPhase::Loaded)
    }

    /// Whether the filter is being unloaded: its unload was consented to or forced, and it isn't unloaded
    /// for good.
    pub fn is_unloading(&self) -> bool
        ensures { result ≡ is_unloading_phase self.now.phase }
    {
        matches!(self.phase, FilterPhase::Unloading | FilterPhase::Emptied)
    }

    /// Whether the filter's volume contexts are unlinked, and it may be unloaded for good.
    pub fn is_emptied(&self) -> bool
        ensures { result ≡ is_filter_emptied_phase self.now.phase }
    {
        matches!(self.phase, FilterPhase::Emptied)
    }
}

/// One filter goes on to that phase.
pub fn set_phase(rows: &mut Vec<Filter>, at: usize, phase: FilterPhase)
    requires { at < length rows.old.items }
    ensures { rows.new.items ≡ updated (filter_in phase) rows.old.items at }
{
    rows[at].phase = phase;
}
