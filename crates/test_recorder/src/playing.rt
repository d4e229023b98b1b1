//! How a manager is taken through a list.

use crate::log::Log;
use fm_cli::request_of;
use fm_types::Status;
use fm_wire::Body;
use std::alloc::{AllocError, Global};
use std::fmt::Write;

/// What a request came to.
#[derive(Clone, Copy)]
pub enum Told {
    /// It is answered with that status.
    Status(Status),
    /// A filter holds it.
    Held,
}

/// A manager of recording filters.
pub trait Host {
    /// Makes a request, and all that it leads to. Refused where that can't be made.
    fn ask(&mut self, body: Body) -> Result<Told, Status>;
}

// The words of a line.
fn words_of(alloc: Global, line: &str) -> Result<Vec<&str>, AllocError> {
    let mut words = Vec::new(alloc);
    for word in line.split_ascii_whitespace() {
        words.push(word)?;
    }
    Ok(words)
}

// Appends what was seen from that place on.
fn write_seen(log: &Log, from: usize, text: &mut String) -> Result<(), AllocError> {
    for place in from..log.len() {
        log.write(place, text)?;
    }
    Ok(())
}

// Appends what the last request was answered.
fn write_told(told: Told, text: &mut String) -> Result<(), AllocError> {
    match told {
        Told::Status(status) => writeln!(text, "expect status {}", status.number()),
        Told::Held => text.push_str("expect held\n"),
    }
}

// Makes a request, and appends its line and what was seen then.
fn request<H: Host>(
    alloc: Global,
    log: &Log,
    host: &mut H,
    line: &str,
    text: &mut String,
) -> Result<Told, Status> {
    text.push_str(line)?;
    text.push_str("\n")?;
    let words = words_of(alloc, line)?;
    let frame = request_of(alloc, words.as_slice())?;
    let from = log.len();
    let told = host.ask(frame.body)?;
    write_seen(log, from, text)?;
    Ok(told)
}

// Takes a manager, which told that last, through a line.
fn take<H: Host>(
    alloc: Global,
    log: &Log,
    host: &mut H,
    line: &str,
    last: Told,
    text: &mut String,
) -> Result<Told, Status> {
    if line.starts_with("saw ") {
        return Ok(last);
    }
    if line.starts_with("expect ") {
        write_told(last, text)?;
        return Ok(last);
    }
    if line.starts_with("# ") {
        text.push_str(line)?;
        text.push_str("\n")?;
        return Ok(last);
    }
    request(alloc, log, host, line, text)
}

/// Takes a manager through a list: the list as it comes out. Refused where a line is no request, or the manager can't make one.
pub fn play<H: Host>(alloc: Global, log: &Log, host: &mut H, list: &str) -> Result<String, Status> {
    let mut text = String::new(alloc);
    let mut last = Told::Status(Status::Success);
    for line in list.split('\n') {
        last = take(alloc, log, host, line, last, &mut text)?;
    }
    Ok(text)
}
