//! Serves a folder behind a Unix socket: `fltd FOLDER SOCKET [--workers N]`. Without words, and for `--help`, it prints how it is used. It ends with status 0,
//! with 1 if there is no memory or something couldn't be closed, with 2 if the words are none of its own, and with 3 if the folder, the socket or a write fails.
#![tactic(auto)]

use fm_socket::{Invocation, endpoint_of, front};
use std::io;
use std::process::ExitCode;

// How the program is used.
const USAGE: &str = "usage: fltd FOLDER SOCKET [--workers N]";

fn main(rt: HostRuntime) -> io::Result<ExitCode> {
    let mut out = io::writer(&rt);
    let status = match endpoint_of(&rt, USAGE, &mut out)? {
        Invocation::Serve(endpoint) => front(&rt, rt.alloc(), endpoint, out),
        Invocation::End(status) => status,
    };
    Ok(ExitCode::from(status))
}
