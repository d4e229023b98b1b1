//! What the server is to serve, as `fltd`'s words say it.

ghost use Rattle.std.specs.Prelude.{◌≡◌, ◌≢◌, ◌⊎◌, ◌≤◌, IfErr, IfOk, MatchOption, Err, [], codes, false, map, option_map};
ghost use Rattle.clap.specs.Words.{app_of, fault_of, first_of, found_of, kind_of, matches_of, one_of, rows_of, rule_of};
ghost use Rattle.fm_cli.specs.Fronts.{Fronts, HasNoFront, HasValues, LacksValues, ReadsWorkers, TakesWords, front_app, required_rule, workers_rule};

use clap::error::ErrorKind;
use clap::{Arg, ArgAction, ArgMatches, Command, Error};
use fm_types::Status;
use std::alloc::{AllocError, Global};

/// What the server is to serve: a folder, a socket's path, and how many workers.
#[derive(Clone, Copy)]
pub struct Front<'a> {
    pub folder: &'a str,
    pub socket: &'a str,
    pub workers: u8,
}

fn required<'a>(alloc: Global, id: &'a str) -> Arg<'a>
    ensures rule { rule_of result ≡ required_rule id.entry.now }
    ensures local { result.global ≡ false }
{
    Arg::new(alloc, id).required(true).action(ArgAction::Set)
}

fn workers<'a>(alloc: Global) -> Arg<'a>
    ensures rule { rule_of result ≡ workers_rule }
    ensures local { result.global ≡ false }
{
    Arg::new(alloc, "workers")
        .long("workers")
        .action(ArgAction::Set)
        .value_parser(clap::value_parser!(u8).range(1..=16))
        .default_value("4")
}

fn command<'a>(alloc: Global) -> Result<Command<'a>, AllocError>
    ensures { IfOk result (λ command. app_of command ≡ front_app) }
{
    let folder = required(alloc, "folder");
    let socket = required(alloc, "socket");
    let workers = workers(alloc);
    Command::new(alloc, "fltd")
        .no_binary_name(true)
        .arg(folder)?
        .arg(socket)?
        .arg(workers)
}

// The status of a fault of clap: all but want of memory is 32, help and version too.
fn status_of(error: &Error) -> Status
    ensures memory { kind_of error.now ≡ ErrorKind.OutOfMemory → result ≡ Status.NoMemory }
    ensures other { (kind_of error.now ≡ ErrorKind.OutOfMemory → ⊥) → result ≡ Status.BadRequest }
{
    match error.kind() {
        ErrorKind::OutOfMemory => Status::NoMemory,
        _ => Status::BadRequest,
    }
}

// What clap makes of the words.
fn parse<'a>(alloc: Global, words: &'a [&'a str]) -> Result<ArgMatches<'a>, Status>
    ensures taken { IfOk result (λ matches. TakesWords (map (λ word. word.now) words.now) (rows_of (found_of matches))) }
    ensures refused { result ≡ Err Status.BadRequest → fault_of front_app (map (λ word. word.now) words.now) ≢ [] }
    ensures errors { IfErr result (λ status. (status ≡ Status.BadRequest) ⊎ (status ≡ Status.NoMemory)) }
{
    let Ok(command) = command(alloc) else {
        return Err(Status::NoMemory);
    };
    match command.try_get_matches_from(words) {
        Ok(matches) => Ok(matches),
        Err(error) => Err(status_of(&error)),
    }
}

// The first value of an argument, as text.
#[tactic(auto, using(crate::proofs::Rows::first_is))]
fn text_of<'a>(matches: &ArgMatches<'a>, id: &str) -> Option<&'a str>
    ensures { option_map (λ text. text.now) result ≡ first_of id.now (rows_of (found_of matches.now)) }
{
    matches.get_str(id)
}

// A number of workers, if the server may have so many.
fn in_range(workers: u8) -> Option<u8>
    ensures { MatchOption result ((1 ≤ workers) × (workers ≤ 16) → ⊥) (λ it. (it ≡ workers) × (1 ≤ workers) × (workers ≤ 16)) }
{
    if workers < 1 || workers > 16 {
        None
    } else {
        Some(workers)
    }
}

// The number of workers.
fn workers_of(matches: &ArgMatches<'_>) -> Option<u8>
    ensures { ReadsWorkers (one_of (codes "workers") (rows_of (found_of matches.now))) result }
{
    match matches.get_one::<u8>("workers") {
        Some(workers) => in_range(workers),
        None => None,
    }
}

// The values that it found.
fn values_of<'a>(matches: &ArgMatches<'a>) -> Option<Front<'a>>
    ensures { MatchOption result (LacksValues (rows_of (found_of matches.now))) (HasValues (rows_of (found_of matches.now))) }
{
    let Some(folder) = text_of(matches, "folder") else {
        return None;
    };
    let Some(socket) = text_of(matches, "socket") else {
        return None;
    };
    let Some(workers) = workers_of(matches) else {
        return None;
    };
    Some(Front {
        folder,
        socket,
        workers,
    })
}

/// What the words ask the server to serve: `FOLDER SOCKET [--workers N]`, with N from 1 to 16, and 4 without it. The words are those after the
/// program's name.
///
/// 32 (`BadRequest`) for any words that the command doesn't take, `--help` and `--version` too. 1 (`NoMemory`) if memory is refused.
pub fn front_of<'a>(alloc: Global, words: &'a [&'a str]) -> Result<Front<'a>, Status>
    ensures fronts { IfOk result (Fronts (map (λ word. word.now) words.now)) }
    ensures refused { result ≡ Err Status.BadRequest → HasNoFront (map (λ word. word.now) words.now) }
    ensures errors { IfErr result (λ status. (status ≡ Status.BadRequest) ⊎ (status ≡ Status.NoMemory)) }
{
    match parse(alloc, words) {
        Ok(matches) => values_of(&matches).ok_or(Status::BadRequest),
        Err(status) => Err(status),
    }
}
