//! Tries the filters of own_filter: `own_trial [--json | --page] FILE ..` runs the scenarios of these files, and without a file the one of its input. For
//! `--help` it prints how it is used.
#![tactic(auto)]

use fm_explore::{show_usage, trial};
use own_filter::filters;
use std::io;
use std::process::ExitCode;

fn main(rt: HostRuntime) -> io::Result<ExitCode> {
    let mut out = io::writer(&rt);
    if show_usage(&rt, "own_trial", &mut out)? {
        return Ok(ExitCode::SUCCESS);
    }
    let ran = trial(&rt, rt.stdin(), |alloc| filters(alloc), &mut out)?;
    Ok(ExitCode::from(ran.status()))
}
