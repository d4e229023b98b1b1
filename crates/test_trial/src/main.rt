//! Tries filters that make each mistake that a trial tells, and meet each limit: what is printed, and the exit status, are what is wanted.
#![tactic(auto)]

mod mistakes;
mod verdicts;

use crate::mistakes::Mistakes;
use crate::verdicts::Verdicts;
use fm_filter::Either;
use fm_trial::trial;
use fm_types::{Name, Status};
use std::alloc::Global;
use std::io;
use std::process::ExitCode;

// The filters, under their names.
fn filters(alloc: Global) -> Result<Vec<(Name, Either<Mistakes, Verdicts>)>, Status> {
    let mut filters = Vec::new(alloc);
    filters.push((Name::read(b"mistakes")?, Either::Left(Mistakes::new(alloc))))?;
    filters.push((Name::read(b"verdicts")?, Either::Right(Verdicts)))?;
    Ok(filters)
}

fn main(rt: HostRuntime) -> io::Result<ExitCode> {
    let mut out = io::writer(&rt);
    let status = trial(&rt, rt.stdin(), |alloc| filters(alloc), &mut out)?;
    Ok(ExitCode::from(status))
}
