//! Serves a folder behind a Unix socket, with the filters of own_filter ready to load: `own_server FOLDER SOCKET [--workers N]`. It does what fltd does with the
//! samples, and ends as it does.
#![tactic(auto)]

use fm_socket::{Invocation, endpoint_of, front_with};
use own_filter::filters;
use std::io;
use std::process::ExitCode;

// How the program is used.
const USAGE: &str = "usage: own_server FOLDER SOCKET [--workers N]";

fn main(rt: HostRuntime) -> io::Result<ExitCode> {
    let mut out = io::writer(&rt);
    let status = match endpoint_of(&rt, USAGE, &mut out)? {
        Invocation::Serve(endpoint) => front_with(
            &rt,
            rt.alloc(),
            filters(rt.alloc()),
            endpoint,
            out,
        ),
        Invocation::End(status) => status,
    };
    Ok(ExitCode::from(status))
}
