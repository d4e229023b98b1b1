//! The filters that a manager has.

ghost use Rattle.std.specs.Prelude.{◌≡◌, Some, None, length, ok_or, option_and_then, replicate, slice_set};
ghost use Rattle.fm_stack.specs.Instances.{same_name};
ghost use Rattle.fm_filter.specs.Handed.{IsFoundAs, handed_in, numbered, place_called};

use fm_types::limits::FILTERS;
use fm_types::{FilterId, Name, Status};

/// The filters that were handed in, each under its name, and which of them each number that the manager gave stands for.
#[derive(Drop)]
pub struct Filters<F> {
    all: Vec<(Name, F)>,
    loaded: [Option<usize>; FILTERS],
}

fn is_called(own: &Name, name: &Name) -> bool
    ensures { result ≡ same_name own.now name.now }
{
    *own == *name
}

impl<F: Drop> Filters<F> {
    /// The filters, none of them loaded.
    pub fn new(all: Vec<(Name, F)>) -> Filters<F>
        ensures all { result.all ≡ all }
        ensures none { result.loaded ≡ replicate 16 None }
    {
        Filters {
            all,
            loaded: [None; FILTERS],
        }
    }

    fn place_of(&self, name: &Name) -> Option<usize>
        ensures { result ≡ place_called name.now self.now.all.items }
    {
        self.all.iter().position(|row| is_called(&row.0, name))
    }

    /// The place of the filter of that name. Refused with 6 where none has it.
    pub fn place(&self, name: &Name) -> Result<usize, Status>
        ensures { result ≡ ok_or (place_called name.now self.now.all.items) Status.NoFilter }
    {
        self.place_of(name).ok_or(Status::NoFilter)
    }

    /// The filter at a place.
    pub fn at(&self, place: usize) -> Option<&F>
        ensures { IsFoundAs (handed_in self.now place) result }
    {
        match self.all.get(place) {
            Some(row) => Some(&row.1),
            None => None,
        }
    }

    /// Notes that a number below 16 stands for the filter at that place. It takes no memory.
    pub fn note(&mut self, filter: FilterId, place: usize)
        ensures all { self.new.all ≡ self.old.all }
        ensures noted { self.new.loaded ≡ slice_set self.old.loaded filter.0 (Some place) }
        ensures places { length self.old.loaded ≡ 16 }
    {
        let at = usize::from(filter.0);
        if at < FILTERS {
            self.loaded[at] = Some(place);
        }
    }

    /// The filter that a number stands for.
    pub fn of(&self, filter: Option<FilterId>) -> Option<&F>
        ensures { IsFoundAs (option_and_then (λ number. numbered self.now number.0) filter) result }
    {
        let filter = filter?;
        let place = *self.loaded.get(usize::from(filter.0))?;
        self.at(place?)
    }
}
