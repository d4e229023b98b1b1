//! Asks a server for one thing, and prints its reply: `fltc SOCKET WORDS`. Without words, and for `--help`, it prints how it is used. It ends with status 0,
//! with 1 if there is no memory, with 2 if the words stand for no request, with 3 if the socket fails or the answer is no reply, and with 4 if the reply's
//! status isn't 0.
#![tactic(auto)]

use fm_cli::asks_usage;
use fm_socket::{CLIENT_USAGE, client, show_usage, texts, words_of};
use std::io;
use std::process::ExitCode;

fn main(rt: HostRuntime) -> io::Result<ExitCode> {
    let alloc = rt.alloc();
    let mut out = io::writer(&rt);
    let Some(words) = words_of(&rt)? else {
        return Ok(ExitCode::from(show_usage(CLIENT_USAGE, 2, &mut out)));
    };
    if asks_usage(words.as_slice()) {
        return Ok(ExitCode::from(show_usage(CLIENT_USAGE, 0, &mut out)));
    }
    let Some((socket, rest)) = words.split_first() else {
        return Ok(ExitCode::from(show_usage(CLIENT_USAGE, 0, &mut out)));
    };
    let asked = texts(alloc, rest)?;
    Ok(ExitCode::from(client(&rt, alloc, socket.as_str(), asked.as_slice(), &mut out)))
}
