//! The words that a program is started with.

use crate::endpoint::{Endpoint, Folder, prepare};
use crate::program::show_usage;
use fm_cli::{Fault, asks_usage, front_of};
use fm_types::Status;
use std::alloc::Global;
use std::env::{self, Env};
use std::io::{self, Write};
use std::net::Net;
use std::rt::Files;

/// The words after the program's name: none, if one of them isn't UTF-8. Fails if they can't be read, or memory is refused.
pub fn words_of<R: Env + AllocGlobal>(rt: &R) -> io::Result<Option<Vec<String>>> {
    match env::args(rt) {
        Ok(words) => Ok(Some(words.skip(1).collect(rt.alloc())?)),
        Err(error) if error.kind() == io::ErrorKind::InvalidData => Ok(None),
        Err(error) => Err(error),
    }
}

/// Words as text. Fails if memory is refused.
pub fn texts<'a>(alloc: Global, words: &'a [String]) -> io::Result<Vec<&'a str>> {
    let mut all = Vec::new(alloc);
    for word in words {
        all.push(word.as_str())?;
    }
    Ok(all)
}

/// What the words of a server program ask for.
#[derive(Drop)]
pub enum Invocation<D: Drop> {
    /// To serve there, or what is in the way.
    Serve(Result<Endpoint<D>, Fault>),
    /// Nothing: the program ends with that exit status.
    End(u8),
}

/// What the program is asked for by its words, `FOLDER SOCKET [--workers N]`: with them the folder and the socket are made ready (`prepare`). Without words,
/// and for `--help` or `-h`, the usage is printed, and the exit status is 0; it is 2 where the words are others, or not UTF-8, and 1 if memory is refused. Fails if
/// the words can't be read.
pub fn endpoint_of<R, W>(rt: &R, usage: &str, out: &mut W) -> io::Result<Invocation<Folder<R>>>
where
    R: Env + Files + Net + AllocGlobal + Clone + Drop,
    W: Write,
{
    let Some(words) = words_of(rt)? else {
        return Ok(Invocation::End(show_usage(usage, 2, out)));
    };
    if words.is_empty() || asks_usage(words.as_slice()) {
        return Ok(Invocation::End(show_usage(usage, 0, out)));
    }
    let words = texts(rt.alloc(), words.as_slice())?;
    Ok(match front_of(rt.alloc(), words.as_slice()) {
        Ok(front) => Invocation::Serve(prepare(rt, rt.alloc(), &front)),
        Err(Status::NoMemory) => Invocation::End(1),
        Err(_) => Invocation::End(show_usage(usage, 2, out)),
    })
}
