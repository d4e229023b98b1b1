//! The program: a trial, or a search.

ghost use Rattle.std.specs.Prelude.{◌≡◌, ◌<◌, true, All, IfOk, List, None, Ok, length};
ghost use Rattle.fm_trial.specs.Verdicts.{PassesText};
ghost use Rattle.fm_explore.specs.Searches.{FindsNothing, RunMade};
ghost use Rattle.fm_explore.specs.Verdicts.{nothing_found, ran_status, search_status, stopped_by, with_found};

use crate::found::{Found, FoundKind, RunFinding};
use crate::options::{Options, asks_search};
use crate::run::{End, ScheduleRun};
use crate::scenario::{ClientScenario, ScenarioFault};
use crate::schedule::Chooser;
use crate::search::{Search, Stopped, UNTESTED, exit_status, stopped_by};
use crate::verdict::Verdict;
use fm_cli::asks_usage;
use fm_filter::Minifilter;
use fm_types::{Name, Status};
use fm_words::read_number;
use std::alloc::{AllocError, Global};
use std::env::{self, Env};
use std::fmt::Write as Append;
use std::fs;
use std::io::{self, Read, Write};
use std::rt::Files;

// The exit status if a file can't be read or isn't understood, or for wrong words.
const WRONG: u8 = 2;

/// What the words of a program asked for, with its exit status.
#[derive(Clone, Copy, Debug, PartialEq, Eq)]
pub enum TrialOrSearch {
    /// Scenarios were tried.
    Trial(u8),
    /// A scenario was searched.
    Search(u8),
    /// One schedule of a scenario was run.
    Replay(u8),
}

impl TrialOrSearch {
    /// The exit status.
    pub fn status(self) -> u8
        ensures { result ≡ ran_status self }
    {
        match self {
            TrialOrSearch::Trial(status)
            | TrialOrSearch::Search(status)
            | TrialOrSearch::Replay(status) => status,
        }
    }
}

// What a search ran, with its exit status: all schedules, or one.
#[derive(Clone, Copy)]
enum Searched {
    All(u8),
    One(u8),
}

// The error of a program whose memory is refused, or whose filters can't be made.
fn failed(status: Status) -> io::Error {
    match status {
        Status::NoMemory => io::Error::from(io::ErrorKind::OutOfMemory),
        _ => io::Error::from(io::ErrorKind::Other),
    }
}

/// Runs scenarios as `fm_trial::trial` does; or, with the word `--explore`, one scenario in every order in which its clients' callbacks can come, and tells what was
/// found, each with the schedule that is best to look at. It says which of these it did. A trial that ends with 0 promises what `fm_trial::trial` does. A search that ends with 0
/// has run each path that its bound leaves, if all its runs are of one tree, and found nothing in any of them. What a run does at each step is tested by rows.
///
/// `--bound N` runs all schedules with at most N preemptions (2 without the word), `--bound all` each schedule. `--ends` shows each end that differs, by what clients
/// were answered and by the filters' totals. `--replay SCHEDULE` runs one schedule, and shows its steps.
///
/// The exit status of a search: 0; 5 if a mistake was told or an expectation wasn't met; 6 if a client was stuck and nothing else was found; 4 if it isn't whole, since
/// a run has no end, filters don't repeat themselves, or not all that was noted was kept; 1 if a load or an attach before the clients is refused, or if no callback
/// was called and no line expects anything; 2 with a sentence on standard error for wrong words, for a file that can't be read, for a line that isn't understood, and
/// for a schedule of another scenario. It fails if memory is refused, if the filters can't be made, or if a write fails.
pub fn trial<R, I, F, E, W>(rt: &R, input: I, make: E, out: &mut W) -> io::Result<TrialOrSearch>
where
    R: Env + Eprint + Files + AllocGlobal,
    I: Read + Drop,
    F: Minifilter,
    E: Fn(Global) -> Result<Vec<(Name, F)>, Status>,
    W: Write,
    requires { E.IsAlwaysCallable make }
    ensures search { IfOk result (λ ran. ran ≡ TrialOrSearch.Search 0 → (runs : List RunMade) × FindsNothing runs) }
    ensures trial { IfOk result (λ ran. ran ≡ TrialOrSearch.Trial 0 → (texts : List _) × (0 < length texts) × All (PassesText F.Minifilter (λ filters. (alloc : _) × E.post make alloc (Ok filters))) texts) }
{
    let alloc = rt.alloc();
    let words: Vec<String> = env::args(rt)?.skip(1).collect(alloc)?;
    if !asks_search(words.as_slice()) {
        let status = fm_trial::trial(rt, input, make, out)?;
        return Ok(TrialOrSearch::Trial(status));
    }
    match search(rt, words.as_slice(), &make, out)? {
        Searched::All(status) => Ok(TrialOrSearch::Search(status)),
        Searched::One(status) => Ok(TrialOrSearch::Replay(status)),
    }
}

// Searches the scenario that the words name, or runs one schedule of it.
fn search<R, F, E, W>(rt: &R, words: &[String], make: &E, out: &mut W) -> io::Result<Searched>
where
    R: Eprint + Files + AllocGlobal,
    F: Minifilter,
    E: Fn(Global) -> Result<Vec<(Name, F)>, Status>,
    W: Write,
    requires { E.IsAlwaysCallable make.now }
    ensures { IfOk result (λ ran. ran ≡ Searched.All 0 → (runs : List RunMade) × FindsNothing runs) }
{
    let Some(options) = Options::read(rt.alloc(), words)? else {
        eprintln!(rt;
            "behind --explore there are --bound N, --ends, --replay SCHEDULE and one file"
        )?;
        return Ok(Searched::All(WRONG));
    };
    let Some(scenario) = read_scenario(rt, options.file.as_str())? else {
        return Ok(Searched::All(WRONG));
    };
    explore(rt, &options, &scenario, make, out)
}

/// Whether the program of that name was asked how it is used, by `--help` or `-h` and no other word; it has said so then. Fails if the words can't be read, if memory is
/// refused, or if a write fails.
pub fn show_usage<R, W>(rt: &R, program: &str, out: &mut W) -> io::Result<bool>
where
    R: Env + AllocGlobal,
    W: Write,
{
    let words: Vec<String> = env::args(rt)?.skip(1).collect(rt.alloc())?;
    let is_asked = asks_usage(words.as_slice());
    if is_asked {
        let usage = format!(in rt.alloc();
            "usage: {program} [--json | --page] [FILE ..]\n       {program} --explore [--bound N | --bound all] [--ends] [--replay SCHEDULE] FILE\n"
        )?;
        out.write_all(usage.as_bytes())?;
        out.flush()?;
    }
    Ok(is_asked)
}

// The scenario of a file. None where it can't be read, or isn't one: that is said.
fn read_scenario<R>(rt: &R, file: &str) -> io::Result<Option<ClientScenario>>
where
    R: Eprint + Files + AllocGlobal,
{
    let text = match fs::read_to_string(rt, file) {
        Ok(text) => text,
        Err(error) => {
            eprintln!(rt; "{file} can't be read: {error}")?;
            return Ok(None);
        }
    };
    match ClientScenario::read(rt.alloc(), text.as_str()).map_err(failed)? {
        Ok(scenario) => Ok(Some(scenario)),
        Err(ScenarioFault::Line(line)) => {
            eprintln!(rt;
                "{file}:{line}: this is no request, no expectation of a reply, and no line of a client"
            )?;
            Ok(None)
        }
        Err(ScenarioFault::Clients) => {
            eprintln!(rt; "{file} has more than 12 clients")?;
            Ok(None)
        }
        Err(ScenarioFault::NoClient) => {
            eprintln!(rt; "{file} has no client: `client NAME: request; request`")?;
            Ok(None)
        }
    }
}

// Runs one schedule, or searches all.
fn explore<R, F, E, W>(
    rt: &R,
    options: &Options,
    scenario: &ClientScenario,
    make: &E,
    out: &mut W,
) -> io::Result<Searched>
where
    R: Eprint + AllocGlobal,
    F: Minifilter,
    E: Fn(Global) -> Result<Vec<(Name, F)>, Status>,
    W: Write,
    requires { E.IsAlwaysCallable make.now }
    ensures { IfOk result (λ ran. ran ≡ Searched.All 0 → (runs : List RunMade) × FindsNothing runs) }
{
    let alloc = rt.alloc();
    if let Some(schedule) = &options.replay {
        let Some(clients) = read_schedule(alloc, scenario, schedule.as_str())? else {
            eprintln!(rt;
                "a schedule has clients of the scenario, each with `*` and a number of steps or without"
            )?;
            return Ok(Searched::One(WRONG));
        };
        let status = replay(rt, scenario, clients, make, out)?;
        return Ok(Searched::One(status));
    }
    let bound = options.bound.unwrap_or(u32::MAX);
    let (search, status) = match Search::all_with_status(alloc, scenario, bound, make) {
        Ok(ended) => ended,
        Err(status) => return Err(failed(status)),
    };
    let mut text = String::new(alloc);
    write_search(&mut text, options, &search)?;
    out.write_all(text.as_bytes())?;
    out.flush()?;
    Ok(Searched::All(status))
}

// Appends what a search came to.
fn write_search(text: &mut String, options: &Options, search: &Search) -> Result<(), AllocError> {
    match options.bound {
        Some(bound) => write!(text, "bound {bound}")?,
        None => text.push_str("no bound")?,
    }
    writeln!(
        text,
        ": {} schedules, longest {}; told {}, unmet {}, stuck {}",
        search.schedules,
        search.longest,
        search.count_of(FoundKind::Told),
        search.count_of(FoundKind::Unmet),
        search.count_of(FoundKind::Stuck)
    )?;
    if let Some(stopped) = search.stopped {
        write_stopped(text, stopped)?;
    } else if !search.is_tested {
        writeln!(
            text,
            "nothing was tested: no callback was called, and nothing is expected"
        )?;
    }
    for found in &search.found {
        if found.finding.kind != FoundKind::End || options.ends {
            write_found(text, found)?;
        }
    }
    Ok(())
}

// Appends why a search isn't whole.
fn write_stopped(text: &mut String, stopped: Stopped) -> Result<(), AllocError> {
    match stopped {
        Stopped::SetUp(line) => writeln!(text, "nothing was tested: line {line} was refused"),
        Stopped::Endless => writeln!(text, "it isn't whole: a schedule has more than 20000 steps"),
        Stopped::Strayed => {
            writeln!(
                text,
                "it isn't whole: the same order led elsewhere, so a filter doesn't repeat itself"
            )
        }
        Stopped::Dropped => writeln!(
            text,
            "it isn't whole: a schedule has more steps of operations than are kept"
        ),
    }
}

// Appends a finding, with its schedule.
fn write_found(text: &mut String, found: &Found) -> Result<(), AllocError> {
    writeln!(text, "\n{} schedules:", found.count)?;
    match found.finding.kind {
        FoundKind::End => {
            for line in found.finding.words.as_str().lines() {
                writeln!(text, "    {line}")?;
            }
        }
        kind => writeln!(text, "    {}{}", kind.word(), found.finding.words.as_str())?,
    }
    writeln!(
        text,
        "  the shortest: {} preemptions, {} switches, {} steps",
        found.best.preemptions, found.best.switches, found.best.steps
    )?;
    writeln!(text, "  --replay '{}'", found.best.words.as_str())
}

// The clients of a schedule, one for each step. None where a word is none.
fn read_schedule(
    alloc: Global,
    scenario: &ClientScenario,
    text: &str,
) -> Result<Option<Vec<usize>>, AllocError> {
    let mut clients = Vec::new(alloc);
    for word in text.split_ascii_whitespace() {
        let (name, steps) = match word.split_once('*') {
            Some((name, steps)) => (name, read_number(steps.as_bytes())),
            None => (word, Some(1)),
        };
        let (Some(client), Some(steps)) = (scenario.place(name), steps) else {
            return Ok(None);
        };
        for _ in 0..steps.min(crate::run::STEPS as u64) {
            clients.push(client)?;
        }
    }
    Ok(Some(clients))
}

// Runs one schedule, and shows its steps and what was found.
fn replay<R, F, E, W>(
    rt: &R,
    scenario: &ClientScenario,
    clients: Vec<usize>,
    make: &E,
    out: &mut W,
) -> io::Result<u8>
where
    R: Eprint + AllocGlobal,
    F: Minifilter,
    E: Fn(Global) -> Result<Vec<(Name, F)>, Status>,
    W: Write,
    requires { E.IsAlwaysCallable make.now }
{
    let alloc = rt.alloc();
    let filters = make(alloc).map_err(failed)?;
    let chooser = Chooser::Clients(clients);
    let mut run = ScheduleRun::new(alloc, scenario, filters, chooser, u32::MAX).map_err(failed)?;
    replay_run(rt, &mut run, out)
}

// Plays a run, and shows its steps and what was found: its exit status.
fn replay_run<R, F, W>(rt: &R, run: &mut ScheduleRun<'_, F>, out: &mut W) -> io::Result<u8>
where
    R: Eprint + AllocGlobal,
    F: Minifilter,
    W: Write,
{
    run.scene.shown = Some(String::new(rt.alloc()));
    if let Some(line) = run.scene.set_up().map_err(failed)? {
        eprintln!(rt; "line {line} was refused")?;
        return Ok(UNTESTED);
    }
    let end = run.play().map_err(failed)?;
    if end == End::Strayed {
        eprintln!(rt; "the schedule names a client that can't go on there")?;
        return Ok(WRONG);
    }
    run.scene.finish().map_err(failed)?;
    write_run(rt.alloc(), run, out)?;
    out.flush()?;
    let stopped = stopped_by(None, end, run.scene.dropped());
    Ok(replay_status(run.scene.found.as_slice(), stopped))
}

// Writes the steps of a run, and what was found.
fn write_run<F: Minifilter, W: Write>(
    alloc: Global,
    run: &ScheduleRun<'_, F>,
    out: &mut W,
) -> io::Result<()> {
    if let Some(shown) = &run.scene.shown {
        out.write_all(shown.as_bytes())?;
    }
    for finding in &run.scene.found {
        let line = match finding.kind {
            FoundKind::End => format!(in alloc; "{}", finding.words.as_str())?,
            kind => format!(in alloc; "{}{}\n", kind.word(), finding.words.as_str())?,
        };
        out.write_all(line.as_bytes())?;
    }
    Ok(())
}

// The exit status of one schedule, by what was found in it and by why it isn't whole.
fn replay_status(found: &[RunFinding], stopped: Option<Stopped>) -> u8
    ensures { result ≡ search_status (with_found nothing_found found.now) stopped true }
{
    exit_status(Verdict::new().with_found(found), stopped, true)
}
