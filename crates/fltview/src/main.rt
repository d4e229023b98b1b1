//! Runs a script of the filter manager from standard input as `fltscript` does, and shows what happened: in words, as JSON, as a page for a browser, as a
//! picture, or only what wasn't as the script expects. It ends with status 0, with 5 where a callback left a reference behind, a filter holds an operation, or a line gave back or resumed
//! what it didn't have, with 6 where something wasn't as the script expects, with 1 where there is no memory, with 3 where a read or a write fails, and with 2
//! where a line expects what can't be read, or a word of the command line is none.
//!
//! With files it runs each of them as a test, and tells in the words of TAP whether it is as its lines expect: it ends with 0 where all are, and else with 1.
#![tactic(auto)]

use clap::{Arg, ArgAction, ArgMatches, Command, value_parser};
use fm_view::{Shown, Strictness, ViewFormat, check_scripts, show_script};
use std::alloc::{AllocError, Global};
use std::process::ExitCode;

// What `--help` says at its top.
const ABOUT: &str =
    "Runs a script from standard input, and shows what happened: each line with its answer in words, and at the end what is left. \
Ends with status 5 where a reference was left behind or an operation is held, and with 6 where something wasn't as a line `#! expect TEXT` says.";

// A word that is there or not.
fn flag<'a>(alloc: Global, name: &'a str, help: &'a str) -> Arg<'a> {
    Arg::new(alloc, name)
        .long(name)
        .help(help)
        .action(ArgAction::SetTrue)
}

// A word with the number of a line behind it.
fn line_number<'a>(alloc: Global, name: &'a str, help: &'a str) -> Arg<'a> {
    Arg::new(alloc, name)
        .long(name)
        .value_name("LINE")
        .help(help)
        .value_parser(value_parser!(u32))
        .action(ArgAction::Set)
}

// The words that the program takes.
fn command<'a>(alloc: Global) -> Result<Command<'a>, AllocError> {
    let json = "Writes each answer as a JSON object, one a line";
    let page = "Writes a page for a browser";
    let check = "Writes only what wasn't as the script expects";
    let strict = "A refusal that no line expects counts too";
    let skip = "With files: a script of which no line expects anything doesn't fail";
    let files = Arg::new(alloc, "FILE")
        .help("With --check: runs each as a test, and writes TAP")
        .num_args(0..)
        .action(ArgAction::Append)
        .requires_arg("check")?;
    Command::new(alloc, "fltview")
        .about(ABOUT)
        .arg(flag(alloc, "picture", "Draws the run as an SVG"))?
        .arg(flag(alloc, "json", json).conflicts_with("picture")?)?
        .arg(
            flag(alloc, "page", page)
                .conflicts_with("json")?
                .conflicts_with("picture")?,
        )?
        .arg(
            flag(alloc, "check", check)
                .conflicts_with("json")?
                .conflicts_with("picture")?
                .conflicts_with("page")?,
        )?
        .arg(flag(alloc, "strict", strict))?
        .arg(flag(alloc, "skip", skip))?
        .arg(files)?
        .arg(flag(alloc, "colour", "Words have colours"))?
        .arg(
            Arg::new(alloc, "name")
                .long("name")
                .value_name("NAME")
                .help("Of which file the script is, for objects and pages")
                .action(ArgAction::Set),
        )?
        .arg(line_number(
            alloc,
            "from",
            "The first line that is told in words; all are run",
        ))?
        .arg(line_number(alloc, "to", "The last line that is told in words"))
}

// Runs scripts as tests.
fn check<'a>(
    rt: &HostRuntime,
    matches: &ArgMatches<'a>,
    files: &[&'a str],
) -> anyhow::Result<ExitCode> {
    let strictness = Strictness {
        is_strict: matches.get_flag("strict"),
        skips: matches.get_flag("skip"),
    };
    let is_well = check_scripts(rt, strictness, files, &mut rt.stdout())?;
    Ok(ExitCode::from(u8::from(!is_well)))
}

fn main(rt: HostRuntime) -> anyhow::Result<ExitCode> {
    let alloc = rt.alloc();
    let words: Vec<String> = std::env::args(&rt)?.collect(alloc)?;
    let matches = match command(alloc)?.try_get_matches_from(words.as_slice()) {
        Ok(matches) => matches,
        Err(error) => {
            error.print(&rt)?;
            return Ok(ExitCode::from(error.exit_code() as u8));
        }
    };
    if let Some(files) = matches.get_strs("FILE") {
        return check(&rt, &matches, files);
    }
    let format = if matches.get_flag("picture") {
        ViewFormat::Picture
    } else if matches.get_flag("json") {
        ViewFormat::Json
    } else if matches.get_flag("page") {
        ViewFormat::Page
    } else if matches.get_flag("check") {
        ViewFormat::Check
    } else {
        ViewFormat::Words
    };
    let shown = Shown {
        is_strict: matches.get_flag("strict"),
        is_coloured: matches.get_flag("colour"),
        lines: (
            matches.get_one::<u32>("from").unwrap_or(0),
            matches.get_one::<u32>("to").unwrap_or(u32::MAX),
        ),
        ..Shown::new(format)
    };
    let file = matches.get_str("name");
    Ok(ExitCode::from(show_script(alloc, shown, file, rt.stdin(), rt.stdout())))
}
