//! The trial program.

ghost use Rattle.std.specs.Prelude.{◌≡◌, ◌<◌, All, IfOk, List, Ok, length, map, true};
ghost use Rattle.fm_trial.specs.declared.scenario_text.ScenarioText.{ScenarioText};
ghost use Rattle.fm_trial.specs.Scenarios.{EndsAfter, EndsScenario, IsFresh, TakesLines};
ghost use Rattle.fm_trial.specs.Verdicts.{PassesText, worse};

use crate::reporter::Reporter;
use crate::scenario::{Scenario, WRONG_FILE};
use crate::scenario_text::ScenarioText;
use crate::text::{lines_of, without_return};
use crate::trial_format::TrialFormat;
use crate::words::Words;
use fm_cli::asks_usage;
use fm_filter::Minifilter;
use fm_report::{RunFault, Summary, Teller};
use fm_types::{Name, Status};
use std::alloc::{AllocError, Global};
use std::env::{self, Env};
use std::io::{self, Read, Write};
use std::rt::Files;

// The error of a program whose memory is refused, or whose filters can't be made.
fn failed(status: Status) -> io::Error {
    match status {
        Status::NoMemory => io::Error::from(io::ErrorKind::OutOfMemory),
        _ => io::Error::from(io::ErrorKind::Other),
    }
}

// Which of two exit statuses says more: 2 before 1, and 1 before 5.
fn worse(one: u8, other: u8) -> u8
    ensures { result ≡ worse one other }
{
    if one == WRONG_FILE || other == WRONG_FILE {
        WRONG_FILE
    } else if one == 1 || other == 1 {
        1
    } else if other == 0 {
        one
    } else {
        other
    }
}

// Takes the lines one after the other. Whether all say something.
fn take_all<F: Minifilter, W: Write>(
    alloc: Global,
    format: TrialFormat,
    scenario: &mut Scenario<F>,
    lines: &[&str],
    out: &mut W,
) -> io::Result<bool>
    ensures { IfOk result (λ is_known. is_known ≡ true → TakesLines F.Minifilter (map (λ line. line.now) lines.now) scenario.old scenario.new) }
{
    for (place, line) in lines.iter().enumerate() {
        let line = without_return(line);
        let mut said = String::new(alloc);
        let is_known = scenario
            .take(place.saturating_add(1), line, &mut said)
            .map_err(failed)?;
        format.write(alloc, said.as_str(), out)?;
        if !is_known {
            return Ok(false);
        }
    }
    Ok(true)
}

// How a scenario is told that is shown so.
fn reporter_of(alloc: Global, format: TrialFormat) -> Reporter {
    match format {
        TrialFormat::Lines => Reporter::Lines,
        TrialFormat::Json | TrialFormat::Page => Reporter::Objects(Teller::new(alloc)),
    }
}

// A scenario over these filters, whose beginning is written.
fn begin<F: Minifilter, W: Write>(
    alloc: Global,
    format: TrialFormat,
    file: Option<&str>,
    filters: Vec<(Name, F)>,
    out: &mut W,
) -> io::Result<Scenario<F>>
    ensures { IfOk result (IsFresh filters) }
{
    let reporter = reporter_of(alloc, format);
    let mut scenario = Scenario::new(alloc, filters, reporter).map_err(failed)?;
    let mut said = String::new(alloc);
    scenario.begin(file, &mut said).map_err(failed)?;
    format.write(alloc, said.as_str(), out)?;
    Ok(scenario)
}

// Ends a scenario, of which all lines said something or the last one didn't, and writes what that comes to: its exit status.
fn end<F: Minifilter, W: Write>(
    alloc: Global,
    format: TrialFormat,
    scenario: &mut Scenario<F>,
    is_known: bool,
    out: &mut W,
) -> io::Result<u8>
    ensures { IfOk result (EndsAfter is_known scenario.old) }
{
    let mut said = String::new(alloc);
    let status = scenario.finish(is_known, &mut said).map_err(failed)?;
    format.write(alloc, said.as_str(), out)?;
    Ok(status)
}

// Tells a scenario from its beginning to its end: its exit status.
fn tell<F: Minifilter, W: Write>(
    alloc: Global,
    format: TrialFormat,
    file: Option<&str>,
    filters: Vec<(Name, F)>,
    text: &str,
    out: &mut W,
) -> io::Result<u8>
    ensures { IfOk result (EndsScenario F.Minifilter filters text.now) }
{
    let lines = lines_of(alloc, text)?;
    let mut scenario = begin(alloc, format, file, filters, out)?;
    let is_known = take_all(alloc, format, &mut scenario, lines.as_slice(), out)?;
    let status = end(alloc, format, &mut scenario, is_known, out)?;
    Ok(status)
}

// Runs a scenario: its exit status. A page that is cut off ends as one, so that it shows what came before.
fn run<F: Minifilter, W: Write>(
    alloc: Global,
    format: TrialFormat,
    file: Option<&str>,
    filters: Vec<(Name, F)>,
    text: &str,
    out: &mut W,
) -> io::Result<u8>
    ensures { IfOk result (EndsScenario F.Minifilter filters text.now) }
{
    format.begin(out)?;
    let told = tell(alloc, format, file, filters, text, out);
    format.end(out)?;
    told
}

// Says which file comes now. In objects the first one does.
fn say_file<W: Write>(
    alloc: Global,
    format: TrialFormat,
    name: &str,
    out: &mut W,
) -> io::Result<()> {
    if format != TrialFormat::Lines {
        return Ok(());
    }
    let line = format!(in alloc; "== {name}\n")?;
    out.write_all(line.as_bytes())
}

// Says that a file can't be read.
fn say_unread<W: Write>(
    alloc: Global,
    format: TrialFormat,
    file: &str,
    error: &io::Error,
    out: &mut W,
) -> io::Result<()> {
    let words = format!(in alloc; "it can't be read: {error}\n")?;
    if format == TrialFormat::Lines {
        out.write_all(words.as_bytes())?;
        return out.flush();
    }
    let objects = unread_objects(alloc, file, words.as_str())?;
    format.begin(out)?;
    format.write(alloc, objects.as_str(), out)?;
    format.end(out)
}

// The objects of a file that can't be read: the first and the last.
fn unread_objects(alloc: Global, file: &str, words: &str) -> Result<String, AllocError> {
    let mut text = String::new(alloc);
    let teller = Teller::new(alloc);
    teller.begin(&mut text, Some(file))?;
    let tally = Summary {
        fault: Some(RunFault::Read),
        status: WRONG_FILE,
        lines: 0,
        refused: 0,
        born: 0,
        cleaned: 0,
        leaks: 0,
        held: 0,
        misuses: 0,
        unmet: 0,
        told: Some(0),
        dropped: Some(0),
    };
    teller.say_end(&mut text, &tally, words)?;
    Ok(text)
}

// Runs a scenario over filters that are made for it: its exit status.
fn run_text<F, E, W>(
    alloc: Global,
    format: TrialFormat,
    scenario: &ScenarioText,
    make: &E,
    out: &mut W,
) -> io::Result<u8>
where
    F: Minifilter,
    E: Fn(Global) -> Result<Vec<(Name, F)>, Status>,
    W: Write,
    requires { E.IsAlwaysCallable make.now }
    ensures { IfOk result (λ status. status ≡ 0 → PassesText F.Minifilter (λ filters. E.post make.now alloc (Ok filters)) scenario.now) }
{
    let file = scenario.file();
    if let Some(name) = file {
        say_file(alloc, format, name, out)?;
    }
    match &scenario.text {
        Ok(text) => {
            let filters = make(alloc).map_err(failed)?;
            let status = run(alloc, format, file, filters, text.as_str(), out)?;
            Ok(status)
        }
        Err(error) => {
            say_unread(alloc, format, file.unwrap_or_default(), error, out)?;
            Ok(WRONG_FILE)
        }
    }
}

// Runs scenarios one after the other: the exit status that says most.
fn run_all<F, E, W>(
    alloc: Global,
    format: TrialFormat,
    texts: &[ScenarioText],
    make: &E,
    out: &mut W,
) -> io::Result<u8>
where
    F: Minifilter,
    E: Fn(Global) -> Result<Vec<(Name, F)>, Status>,
    W: Write,
    requires { E.IsAlwaysCallable make.now }
    ensures { IfOk result (λ status. status ≡ 0 → All (PassesText F.Minifilter (λ filters. E.post make.now alloc (Ok filters))) texts.now) }
{
    let mut worst = 0;
    for scenario in texts {
        let status = run_text(alloc, format, scenario, make, out)?;
        worst = worse(worst, status);
    }
    Ok(worst)
}

/// Runs the scenarios of the files that the program's words name, each over filters that are made for it, or the one of the input where no word is a file.
///
/// Each request is printed behind `> `, then the steps of its operations, the mistakes that callbacks made, with the numbers of the host for drivers in C, and its
/// reply. With the word `--json` the objects of docs/JSON.md are printed instead, one a line, and with `--page` the page of `fltview` that has them. The exit
/// status: 0; 5 if a mistake was told that no line expects, or steps weren't kept of which one could have been told; 1 if an expectation isn't met, if there is no
/// request, or if no line expects anything and no callback heard of an operation that was asked for; 2 if a line is no request and no expectation, or a file can't be read.
/// It is 2 too, with a sentence on standard error and nothing else, for another word that begins with `--`, for both words, and for a page of several files. It
/// fails if memory is refused, if the filters can't be made, or if a write fails. The clause says nothing of which files are read, and what is in them.
pub fn trial<R, I, F, E, W>(rt: &R, input: I, make: E, out: &mut W) -> io::Result<u8>
where
    R: Env + Eprint + Files + AllocGlobal,
    I: Read + Drop,
    F: Minifilter,
    E: Fn(Global) -> Result<Vec<(Name, F)>, Status>,
    W: Write,
    requires { E.IsAlwaysCallable make }
    ensures { IfOk result (λ status. status ≡ 0 → (texts : List ScenarioText) × (0 < length texts) × All (PassesText F.Minifilter (λ filters. (alloc : _) × E.post make alloc (Ok filters))) texts) }
{
    let alloc = rt.alloc();
    let words: Vec<String> = env::args(rt)?.skip(1).collect(alloc)?;
    let Words { format, files } = match Words::read(alloc, words)? {
        Ok(words) => words,
        Err(refused) => {
            eprintln!(rt; "{refused}")?;
            return Ok(WRONG_FILE);
        }
    };
    let texts = ScenarioText::all(rt, input, files)?;
    let status = run_all(alloc, format, texts.as_slice(), &make, out)?;
    Ok(status)
}

/// Whether the trial program of that name was asked how it is used, by `--help` or `-h` and no other word; it has said so then. Fails if the words can't be read,
/// if memory is refused, or if a write fails.
pub fn show_usage<R, W>(rt: &R, program: &str, out: &mut W) -> io::Result<bool>
where
    R: Env + AllocGlobal,
    W: Write,
{
    let words: Vec<String> = env::args(rt)?.skip(1).collect(rt.alloc())?;
    let is_asked = asks_usage(words.as_slice());
    if is_asked {
        let usage = format!(in rt.alloc(); "usage: {program} [--json | --page] [FILE ..]\n")?;
        out.write_all(usage.as_bytes())?;
        out.flush()?;
    }
    Ok(is_asked)
}
