//! Runs a script of the filter manager from standard input to standard output. Its words aren't read. It ends with status 0, with 1 where there
//! is no memory for what the script asks, and with 3 where a read or a write fails or the script is too long, and then prints `fault` where
//! that is possible.
#![tactic(auto)]

use fm_script::{ScriptEnd, script};
use std::process::ExitCode;

fn main(rt: HostRuntime) -> ExitCode {
    let end = script(rt.alloc(), rt.stdin(), rt.stdout()).end;
    if matches!(end, ScriptEnd::ReadFault | ScriptEnd::WriteFault) {
        let _ = println!(rt; "fault");
    }
    ExitCode::from(end.status())
}
