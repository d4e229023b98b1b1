//! The order of a run, and which one comes next.

ghost use Rattle.std.specs.Prelude.{◌≡◌, ◌<◌, ◌+◌, ◌-◌, ◌^◌, ◌++◌, ◌∷◌, [], false, All, IfOk, IfSome, MatchOption, length, min, slice_get, slice_index_or};
ghost use Rattle.fm_choice.specs.Choices.{IsLast, IsNextPath};
ghost use Rattle.fm_explore.specs.Orders.{Chooses, IsFollowed, IsOnPath, IsWanted, is_last, last_of, options_of, others_of, preempts};
ghost use Rattle.fm_explore.specs.declared.run.End.{End};

use crate::run::End;
use fm_choice::{Choice, next_path};
use std::alloc::{AllocError, Global};

// The option of a path after so many choices, and the first one after its end.
fn option_at(path: &[usize], made: usize) -> usize
    ensures { result ≡ slice_index_or path.now made 0 }
{
    match path.get(made) {
        Some(option) => *option,
        None => 0,
    }
}

// The client at that place, of those that may go on.
fn client_at(options: &[usize], place: usize) -> Option<usize>
    ensures { result ≡ slice_get options.now place }
{
    match options.get(place) {
        Some(client) => Some(*client),
        None => None,
    }
}

// Whether a client is among those that can go on.
fn can_at(can: &[bool], client: usize) -> bool
    ensures { result ≡ slice_index_or can.now client false }
{
    match can.get(client) {
        Some(can) => *can,
        None => false,
    }
}

/// What picks one of those that can go on.
#[derive(Drop)]
pub(crate) enum Chooser {
    /// Their places, and the first one after the end.
    Path(Vec<usize>),
    /// The clients, and the first one that can go on after the end.
    Clients(Vec<usize>),
}

impl Chooser {
    /// The place of the one that is taken, of those that can be, after so many choices. None if it can't be taken.
    pub(crate) fn place(&self, made: usize, options: &[usize]) -> Option<usize>
        ensures there { IfSome result (λ place. place < length options.now) }
        ensures wanted { IfSome result (IsWanted self.now made) }
    {
        let place = match self {
            Chooser::Path(path) => option_at(path.as_slice(), made),
            Chooser::Clients(clients) => match clients.get(made) {
                Some(client) => options.iter().position(|option| option == client)?,
                None => 0,
            },
        };
        if place < options.len() {
            Some(place)
        } else {
            None
        }
    }
}

/// The order of a run.
#[derive(Drop)]
pub(crate) struct Schedule {
    /// Its choices: how many clients could go on, within the bound, and which of these was taken.
    pub(crate) choices: Vec<Choice>,
    /// The client that was taken at each.
    pub(crate) clients: Vec<usize>,
    /// How often a client was left that could go on.
    pub(crate) preemptions: u32,
    /// How often another client went on than before.
    pub(crate) switches: u32,
}

impl Schedule {
    /// Nothing was chosen yet.
    pub(crate) fn new(alloc: Global) -> Schedule
        ensures { result.choices.items ≡ [] }
    {
        Schedule {
            choices: Vec::new(alloc),
            clients: Vec::new(alloc),
            preemptions: 0,
            switches: 0,
        }
    }

    /// The client that went on last.
    pub(crate) fn last(&self) -> Option<usize>
        ensures { result ≡ last_of self.now }
    {
        self.clients.as_slice().last().copied()
    }

    /// The path of the next run. None if no choice has an untried option. Fails if memory is refused.
    pub(crate) fn next_path(&self, alloc: Global) -> Result<Option<Vec<usize>>, AllocError>
        ensures { IfOk result (λ next. MatchOption next (All IsLast self.now.choices.items) (λ path. IsNextPath self.now.choices.items path.items)) }
    {
        next_path(alloc, self.choices.as_slice())
    }

    // Counts that a client goes on, which is a preemption where another one went on last and could have gone on.
    fn leave(&mut self, client: usize, can: &[bool])
        ensures counts { self.new.preemptions ≡ min (self.old.preemptions + preempts (last_of self.old) client can.now) (2 ^ 32 - 1) }
        ensures choices { self.new.choices ≡ self.old.choices }
        ensures clients { self.new.clients ≡ self.old.clients }
    {
        let last = self.last();
        let is_switch = is_switch(last, client);
        let preempted = preempted(last, client, can);
        self.switches = self.switches.saturating_add(u32::from(is_switch));
        self.preemptions = self.preemptions.saturating_add(preempted);
    }

    /// Notes that a client goes on, the one at that place of so many. Fails if memory is refused.
    pub(crate) fn note(
        &mut self,
        client: usize,
        taken: usize,
        options: usize,
        can: &[bool],
    ) -> Result<(), AllocError>
        ensures choices { IfOk result (λ done. self.new.choices.items ≡ self.old.choices.items ++ record { options = options; taken = taken } ∷ []) }
        ensures clients { IfOk result (λ done. self.new.clients.items ≡ self.old.clients.items ++ client ∷ []) }
        ensures counts { IfOk result (λ done. self.new.preemptions ≡ min (self.old.preemptions + preempts (last_of self.old) client can.now) (2 ^ 32 - 1)) }
    {
        self.leave(client, can);
        self.choices.push(Choice { options, taken })?;
        self.clients.push(client)?;
        Ok(())
    }
}

// Whether that client went on last.
fn is_last(last: Option<usize>, client: usize) -> bool
    ensures { result ≡ is_last last client }
{
    match last {
        Some(last) => last == client,
        None => false,
    }
}

// Whether another client than that went on last.
fn is_switch(last: Option<usize>, client: usize) -> bool {
    match last {
        Some(last) => last != client,
        None => false,
    }
}

// How many preemptions it is that a client goes on.
fn preempted(last: Option<usize>, client: usize, can: &[bool]) -> u32
    ensures { result ≡ preempts last client can.now }
{
    match last {
        Some(last) if last != client && can_at(can, last) => 1,
        _ => 0,
    }
}

// Appends the clients that can go on, but the one that went on last.
fn with_others(
    mut options: Vec<usize>,
    last: Option<usize>,
    can: &[bool],
) -> Result<Vec<usize>, AllocError>
    ensures { IfOk result (λ all. all.items ≡ options.items ++ others_of last 0 can.now) }
{
    for client in 0..can.len() {
        if can_at(can, client) && !is_last(last, client) {
            options.push(client)?;
        }
    }
    Ok(options)
}

/// The order of a run under way.
#[derive(Drop)]
pub(crate) struct RunOrder {
    chooser: Chooser,
    bound: u32,
    /// What was chosen so far.
    pub(crate) schedule: Schedule,
}

impl RunOrder {
    /// Nothing was chosen yet.
    pub(crate) fn new(alloc: Global, chooser: Chooser, bound: u32) -> RunOrder
        ensures { (result.chooser ≡ chooser) × (result.bound ≡ bound) × (result.schedule.choices.items ≡ []) }
    {
        let schedule = Schedule::new(alloc);
        RunOrder {
            chooser,
            bound,
            schedule,
        }
    }

    /// The clients that may go on, of those that can: the one that went on last first. At the bound it is alone, where it can. Fails if memory is refused.
    pub(crate) fn options(&self, alloc: Global, can: &[bool]) -> Result<Vec<usize>, AllocError>
        ensures { IfOk result (λ options. options.items ≡ options_of self.now can.now) }
    {
        let last = self.schedule.last();
        let mut options = Vec::new(alloc);
        if let Some(last) = last {
            if can_at(can, last) {
                options.push(last)?;
                if self.schedule.preemptions >= self.bound {
                    return Ok(options);
                }
            }
        }
        with_others(options, last, can)
    }

    // The place of the client that is wanted next, of those that may go on. None if it isn't there.
    fn wanted(&self, options: &[usize]) -> Option<usize>
        ensures { IfSome result (IsWanted self.now.chooser (length self.now.schedule.choices.items)) }
    {
        let made = self.schedule.choices.len();
        self.chooser.place(made, options)
    }

    /// The client that goes on, noted as a choice. None if the one that is wanted can't. Fails if memory is refused.
    pub(crate) fn choose(
        &mut self,
        options: &[usize],
        can: &[bool],
    ) -> Result<Option<usize>, AllocError>
        ensures chooses { IfOk result (λ chosen. IfSome chosen (Chooses options.now can.now self.old self.new)) }
        ensures same { (self.new.chooser ≡ self.old.chooser) × (self.new.bound ≡ self.old.bound) }
        ensures path { IsOnPath self.old → IfOk result (λ chosen. IfSome chosen (λ _. IsOnPath self.new)) }
    {
        let Some(taken) = self.wanted(options) else {
            return Ok(None);
        };
        let Some(client) = client_at(options, taken) else {
            return Ok(None);
        };
        self.schedule.note(client, taken, options.len(), can)?;
        Ok(Some(client))
    }

    /// How a run ends in which nobody can go on any more: it strayed if its path isn't at an end.
    pub(crate) fn end(&self) -> End
        ensures { result ≡ End.Over → IsFollowed self.now }
    {
        match &self.chooser {
            Chooser::Path(path) if path.len() > self.schedule.choices.len() => End::Strayed,
            _ => End::Over,
        }
    }
}
