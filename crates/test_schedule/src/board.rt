//! Who stands at the hook, and who is at work.

use crate::choice::{Next, Schedule, Went};
use crate::chooser::Chooser;
use fm_choice::Choice;
use fm_types::WorkerId;
use fm_types::limits::WORKERS;
use std::alloc::Global;

/// What the hook knows of its threads. One at most is at work; those that were passed over aren't known to be.
#[derive(Drop)]
pub(crate) struct ThreadBoard {
    // What each worker's thread stands before; none, if it doesn't stand here.
    stands: [Option<Next>; WORKERS],
    // The thread that was let go last, until it comes back.
    working: Option<WorkerId>,
    // How many threads are still to begin, and how many have begun and haven't left.
    missing: u32,
    inside: u32,
    // How many threads came, left or were passed over.
    moves: u64,
    // How many choices were made.
    made: usize,
    chooser: Chooser,
    schedule: Schedule,
}

impl ThreadBoard {
    /// Nobody stands anywhere.
    pub(crate) fn new(alloc: Global, chooser: Chooser) -> ThreadBoard {
        ThreadBoard {
            stands: [None; WORKERS],
            working: None,
            missing: 0,
            inside: 0,
            moves: 0,
            made: 0,
            chooser,
            schedule: Schedule {
                choices: Vec::new(alloc),
                went: Vec::new(alloc),
                passed_over: 0,
                lost: 0,
                has_strayed: false,
            },
        }
    }

    /// What was chosen.
    pub(crate) fn into_schedule(self) -> Schedule {
        self.schedule
    }

    /// Nobody goes on until so many threads have begun.
    pub(crate) fn expect(&mut self, threads: u32) {
        self.missing = threads;
    }

    /// Whether everybody passes: nobody has begun, and nobody is to.
    pub(crate) fn is_idle(&self) -> bool {
        self.missing == 0 && self.inside == 0
    }

    /// How many threads came, left or were passed over so far.
    pub(crate) fn moves(&self) -> u64 {
        self.moves
    }

    /// Whether that worker's thread stands here.
    pub(crate) fn has_standing(&self, worker: WorkerId) -> bool {
        matches!(self.stands.get(usize::from(worker.0)), Some(Some(_)))
    }

    /// A thread begins, and stands here.
    pub(crate) fn enter(&mut self, worker: WorkerId) {
        self.missing = self.missing.saturating_sub(1);
        self.inside = self.inside.saturating_add(1);
        self.come(worker, Next::Begin);
    }

    /// A thread comes to the hook.
    pub(crate) fn come(&mut self, worker: WorkerId, next: Next) {
        if let Some(place) = self.stands.get_mut(usize::from(worker.0)) {
            *place = Some(next);
        }
        self.give_up(worker);
    }

    /// A thread leaves.
    pub(crate) fn leave(&mut self, worker: WorkerId) {
        self.inside = self.inside.saturating_sub(1);
        self.give_up(worker);
    }

    /// The thread at work isn't waited for any more, nor are those that haven't begun.
    pub(crate) fn pass_over(&mut self) {
        self.missing = 0;
        self.working = None;
        self.schedule.passed_over = self.schedule.passed_over.saturating_add(1);
        self.moves = self.moves.wrapping_add(1);
        self.let_one_go();
    }

    // A thread isn't at work any more.
    fn give_up(&mut self, worker: WorkerId) {
        if self.working == Some(worker) {
            self.working = None;
        }
        self.moves = self.moves.wrapping_add(1);
        self.let_one_go();
    }

    // Lets one go on, if nobody is at work: the first that begins, or the one that is picked.
    fn let_one_go(&mut self) {
        if self.working.is_some() || self.missing > 0 {
            return;
        }
        match self.beginner() {
            Some(place) => self.let_go(place),
            None => self.choose(),
        }
    }

    // The first thread that begins.
    fn beginner(&self) -> Option<usize> {
        self.stands
            .iter()
            .position(|stand| matches!(stand, Some(Next::Begin)))
    }

    fn let_go(&mut self, place: usize) {
        if let Some(stand) = self.stands.get_mut(place) {
            *stand = None;
            self.working = Some(WorkerId(u8::try_from(place).unwrap_or(0)));
        }
    }

    // How many stand here.
    fn options(&self) -> usize {
        self.stands.iter().filter(|stand| stand.is_some()).count()
    }

    // Lets the one go on that the chooser picks.
    fn choose(&mut self) {
        let options = self.options();
        let Some(last) = options.checked_sub(1) else {
            return;
        };
        let wanted = self.chooser.place(self.made, options);
        let taken = wanted.min(last);
        self.schedule.has_strayed = self.schedule.has_strayed || taken != wanted;
        self.made = self.made.saturating_add(1);
        if let Some((place, next)) = self.standing(taken) {
            self.note(place, next, options, taken);
            self.let_go(place);
        }
    }

    // Who stands there, of those that stand here.
    fn standing(&self, taken: usize) -> Option<(usize, Next)> {
        let mut before = taken;
        for (place, stand) in self.stands.iter().enumerate() {
            if let Some(next) = stand {
                if before == 0 {
                    return Some((place, *next));
                }
                before -= 1;
            }
        }
        None
    }

    fn note(&mut self, place: usize, next: Next, options: usize, taken: usize) {
        let worker = WorkerId(u8::try_from(place).unwrap_or(0));
        let went = Went { worker, next };
        if self.schedule.note(Choice { options, taken }, went).is_err() {
            self.schedule.lost = self.schedule.lost.saturating_add(1);
        }
    }
}
