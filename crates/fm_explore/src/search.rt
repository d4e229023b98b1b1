//! All orders of a scenario.

ghost use Rattle.std.specs.Prelude.{◌≡◌, [], IfOk, List, None};
ghost use Rattle.fm_choice.specs.Trees.{Takes};
ghost use Rattle.fm_explore.specs.Orders.{TookPath};
ghost use Rattle.fm_explore.specs.Searches.{FindsNothing, GoesOn, IsWhole, Notes, RunMade};
ghost use Rattle.fm_explore.specs.Verdicts.{nothing_found, search_status, stopped_by, with_found};

use crate::found::{BestSchedule, Found, FoundKind, RunFinding};
use crate::run::{End, ScheduleRun};
use crate::scenario::ClientScenario;
use crate::scene::Scene;
use crate::schedule::{Chooser, Schedule};
use crate::verdict::{Verdict, either};
use fm_choice::laws::whole_searches_run_all;
use fm_filter::Minifilter;
use fm_types::{Name, Status};
use std::alloc::Global;

/// The exit status if nothing was tested.
pub(crate) const UNTESTED: u8 = 1;

/// The exit status of a search that isn't whole.
pub(crate) const PARTIAL: u8 = 4;

/// What a search came to.
#[derive(Drop)]
pub(crate) struct Search {
    /// What was found, in the order of its first schedules.
    pub(crate) found: Vec<Found>,
    /// What that comes to.
    pub(crate) verdict: Verdict,
    /// How many schedules were run.
    pub(crate) schedules: u64,
    /// How many steps the longest has.
    pub(crate) longest: usize,
    /// Whether something was tested: a callback was called, or a line expects something.
    pub(crate) is_tested: bool,
    /// Why it isn't whole, if it isn't.
    pub(crate) stopped: Option<Stopped>,
}

/// Why a search isn't whole.
#[derive(Clone, Copy, Debug, PartialEq, Eq)]
pub(crate) enum Stopped {
    /// A load or an attach of that line was refused before the clients began.
    SetUp(usize),
    /// A run has too many steps.
    Endless,
    /// The filters don't repeat themselves.
    Strayed,
    /// Not all that the manager noted could be kept.
    Dropped,
}

/// Why a search isn't whole after a run that ended so and of which so much wasn't kept.
pub(crate) fn stopped_by(before: Option<Stopped>, end: End, dropped: u64) -> Option<Stopped>
    ensures { result ≡ stopped_by before end dropped }
{
    match end {
        End::Strayed => Some(Stopped::Strayed),
        _ if dropped > 0 => Some(Stopped::Dropped),
        End::Endless => Some(Stopped::Endless),
        End::Over => before,
    }
}

/// The exit status by what was found, by why not all was run, and by whether something was tested: 1 if nothing could be set up; else 5 if something is wrong, else 6 if
/// a client was stuck; else 4 if it isn't whole; else 1 if nothing was tested; else 0.
pub(crate) fn exit_status(verdict: Verdict, stopped: Option<Stopped>, is_tested: bool) -> u8
    ensures { result ≡ search_status verdict stopped is_tested }
{
    if let Some(Stopped::SetUp(_)) = stopped {
        return UNTESTED;
    }
    let found = verdict.status();
    if found != 0 {
        found
    } else if stopped.is_some() {
        PARTIAL
    } else if !is_tested {
        UNTESTED
    } else {
        0
    }
}

impl Search {
    /// Runs a scenario in every order with at most so many preemptions, each over filters that are made for it. Refused with 1, if memory is refused, or with what
    /// the filters are refused.
    pub(crate) fn all<F, E>(
        alloc: Global,
        scenario: &ClientScenario,
        bound: u32,
        make: &E,
    ) -> Result<Search, Status>
    where
        F: Minifilter,
        E: Fn(Global) -> Result<Vec<(Name, F)>, Status>,
        requires { E.IsAlwaysCallable make.now }
        ensures whole { IfOk result (λ search. search.stopped ≡ None → (runs : List RunMade) × IsWhole search runs) }
    {
        whole_searches_run_all();
        let mut search = Search::new(alloc, scenario.expects());
        let mut path = Vec::new(alloc);
        for _ in 0..u64::MAX {
            let filters = make(alloc)?;
            match search.run_path(alloc, scenario, filters, path, bound)? {
                Some(next) => path = next,
                None => return Ok(search),
            }
        }
        search.stopped = Some(Stopped::Endless);
        Ok(search)
    }

    /// The same, with its exit status: one that ends with 0 is whole, and found nothing in any run.
    pub(crate) fn all_with_status<F, E>(
        alloc: Global,
        scenario: &ClientScenario,
        bound: u32,
        make: &E,
    ) -> Result<(Search, u8), Status>
    where
        F: Minifilter,
        E: Fn(Global) -> Result<Vec<(Name, F)>, Status>,
        requires { E.IsAlwaysCallable make.now }
        ensures { IfOk result (λ ended. ended.1 ≡ 0 → (runs : List RunMade) × FindsNothing runs) }
    {
        let search = Search::all(alloc, scenario, bound, make)?;
        let status = exit_status(search.verdict, search.stopped, search.is_tested);
        Ok((search, status))
    }

    // Before its first run.
    fn new(alloc: Global, is_tested: bool) -> Search
        ensures { (result.verdict ≡ nothing_found) × (result.stopped ≡ None) }
    {
        Search {
            found: Vec::new(alloc),
            verdict: Verdict::new(),
            schedules: 0,
            longest: 0,
            is_tested,
            stopped: None,
        }
    }

    // Runs the schedule of a path: the path of the next one, if the search goes on. A run is dropped here alone.
    fn run_path<F: Minifilter>(
        &mut self,
        alloc: Global,
        scenario: &ClientScenario,
        filters: Vec<(Name, F)>,
        path: Vec<usize>,
        bound: u32,
    ) -> Result<Option<Vec<usize>>, Status>
        ensures goes { IfOk result (λ next. self.new.stopped ≡ None → (run : RunMade) × Takes path.items run.choices × Notes run self.old self.new × GoesOn run next) }
    {
        let chooser = Chooser::Path(path);
        let mut run = ScheduleRun::new(alloc, scenario, filters, chooser, bound)?;
        self.take_run(alloc, scenario, &mut run)
    }

    // Makes a run, and notes what it found: the path of the next one, if the search goes on.
    fn take_run<F: Minifilter>(
        &mut self,
        alloc: Global,
        scenario: &ClientScenario,
        run: &mut ScheduleRun<'_, F>,
    ) -> Result<Option<Vec<usize>>, Status>
        ensures goes { run.old.order.schedule.choices.items ≡ [] → IfOk result (λ next. self.new.stopped ≡ None → (made : RunMade) × TookPath run.old.order.chooser made.choices × Notes made self.old self.new × GoesOn made next) }
    {
        if let Some(line) = run.scene.set_up()? {
            self.stopped = Some(Stopped::SetUp(line));
            return Ok(None);
        }
        let end = run.play()?;
        self.stopped = stopped_by(self.stopped, end, run.scene.dropped());
        if end == End::Strayed {
            return Ok(None);
        }
        run.scene.finish()?;
        self.count_run(run.scene.is_heard(), run.order.schedule.choices.len());
        let found = take_found(alloc, &mut run.scene);
        self.note_run(alloc, scenario, &run.order.schedule, found)?;
        let next = run.order.schedule.next_path(alloc)?;
        Ok(next)
    }

    // Counts a run of so many choices, by which something was tested if a callback was called.
    fn count_run(&mut self, is_heard: bool, choices: usize)
        ensures { (self.new.verdict ≡ self.old.verdict) × (self.new.stopped ≡ self.old.stopped) }
    {
        self.is_tested = either(self.is_tested, is_heard);
        self.schedules = self.schedules.saturating_add(1);
        self.longest = self.longest.max(choices);
    }

    // Notes what a run found, and what that comes to.
    fn note_run(
        &mut self,
        alloc: Global,
        scenario: &ClientScenario,
        schedule: &Schedule,
        found: Vec<RunFinding>,
    ) -> Result<(), Status>
        ensures verdict { IfOk result (λ done. self.new.verdict ≡ with_found self.old.verdict found.items) }
        ensures same { IfOk result (λ done. self.new.stopped ≡ self.old.stopped) }
    {
        let verdict = self.verdict.with_found(found.as_slice());
        let names = scenario.names(alloc)?;
        for finding in found {
            self.count(alloc, finding, schedule, names.as_slice())?;
        }
        self.verdict = verdict;
        Ok(())
    }

    // Counts a finding once a schedule, and keeps the schedule that is best to look at.
    fn count(
        &mut self,
        alloc: Global,
        finding: RunFinding,
        schedule: &Schedule,
        names: &[&str],
    ) -> Result<(), Status>
        ensures { self.new.stopped ≡ self.old.stopped }
    {
        for found in &mut self.found {
            if found.is_same(&finding) {
                if found.last == self.schedules {
                    return Ok(());
                }
                found.last = self.schedules;
                found.count = found.count.saturating_add(1);
                if found.best.is_behind(schedule) {
                    found.best = BestSchedule::of(alloc, schedule, names)?;
                }
                return Ok(());
            }
        }
        let best = BestSchedule::of(alloc, schedule, names)?;
        self.found.push(Found {
            finding,
            count: 1,
            last: self.schedules,
            best,
        })?;
        Ok(())
    }

    /// How many schedules have a finding of that kind, each finding by itself.
    pub(crate) fn count_of(&self, kind: FoundKind) -> u64 {
        let mut count: u64 = 0;
        for found in &self.found {
            if found.finding.kind == kind {
                count = count.saturating_add(found.count);
            }
        }
        count
    }
}

// What a run found, taken from it.
fn take_found<F: Minifilter>(alloc: Global, scene: &mut Scene<'_, F>) -> Vec<RunFinding> {
    std::mem::replace(&mut scene.found, Vec::new(alloc))
}
