//! What filters saw, in the order in which they saw it.

use fm_types::{ContextKind, Name, Operation, Status};
use std::alloc::{AllocError, Global};
use std::sync::OnceLock;
use std::sync::atomic::{AtomicUsize, Ordering};

/// How many callbacks a log has room for.
const ROOM: usize = 256;

/// Which callback.
#[derive(Clone, Copy)]
pub(crate) enum Callback {
    Setup,
    Pre,
    Post,
    Drain,
    Query,
    Start,
    Complete,
    Cleanup,
    Unload,
}

/// What a callback is for.
#[derive(Clone, Copy)]
pub(crate) enum For {
    /// An instance, or the filter alone.
    Itself,
    /// An operation of that kind.
    Operation(Operation),
    /// A context of that kind.
    Context(ContextKind),
}

/// One callback.
#[derive(Clone, Copy)]
pub(crate) struct Seen {
    /// Which one it was.
    pub(crate) callback: Callback,
    /// The name of the instance that it was called for, or of the filter.
    pub(crate) whose: Name,
    /// What it was for.
    pub(crate) what: For,
}

/// What all filters of a manager saw. Callbacks of several threads may note in it; each place is written once.
#[derive(Drop)]
pub struct Log {
    places: Vec<OnceLock<Seen>>,
    next: AtomicUsize,
}

impl Log {
    /// An empty log. Refused with 1.
    pub fn new(alloc: Global) -> Result<Log, Status> {
        let mut places = Vec::with_capacity(alloc, ROOM)?;
        for _ in 0..ROOM {
            places.push(OnceLock::new())?;
        }
        Ok(Log {
            places,
            next: AtomicUsize::new(0),
        })
    }

    /// Notes a callback, if there is room.
    pub(crate) fn note(&self, seen: Seen) {
        let place = self.next.fetch_add(1, Ordering::SeqCst);
        if let Some(free) = self.places.get(place) {
            let _ = free.try_set(seen);
        }
    }

    /// How many callbacks were noted.
    pub(crate) fn len(&self) -> usize {
        self.next.load(Ordering::SeqCst)
    }

    /// Appends the line of the callback at that place.
    pub(crate) fn write(&self, place: usize, text: &mut String) -> Result<(), AllocError> {
        let Some(noted) = self.places.get(place) else {
            return text.push_str("saw more than there is room for\n");
        };
        match noted.get() {
            Some(seen) => write_seen(seen, text),
            None => text.push_str("saw what isn't noted yet\n"),
        }
    }
}

// Appends a line.
fn write_seen(seen: &Seen, text: &mut String) -> Result<(), AllocError> {
    text.push_str("saw ")?;
    text.push_str(callback_word(seen.callback))?;
    text.push_str(" ")?;
    for byte in seen.whose.text() {
        text.push(char::from(*byte))?;
    }
    text.push_str(for_word(seen.what))?;
    text.push_str("\n")
}

// The host for drivers in C has the same words.
fn callback_word(callback: Callback) -> &'static str {
    match callback {
        Callback::Setup => "setup",
        Callback::Pre => "pre",
        Callback::Post => "post",
        Callback::Drain => "drain",
        Callback::Query => "query",
        Callback::Start => "start",
        Callback::Complete => "complete",
        Callback::Cleanup => "cleanup",
        Callback::Unload => "unload",
    }
}

// The word of the requests for a kind of operation, or that for a kind of context, behind a space.
fn for_word(what: For) -> &'static str {
    match what {
        For::Itself => "",
        For::Operation(kind) => operation_word(kind),
        For::Context(ContextKind::Volume) => " volume",
        For::Context(ContextKind::Instance) => " instance",
        For::Context(ContextKind::Stream) => " stream",
        For::Context(ContextKind::Handle) => " handle",
        For::Context(ContextKind::File) => " file",
    }
}

fn operation_word(kind: Operation) -> &'static str {
    match kind {
        Operation::Create => " create",
        Operation::Read => " read",
        Operation::Write => " write",
        Operation::QuerySize => " querysize",
        Operation::SetSize => " setsize",
        Operation::Flush => " flush",
        Operation::List => " list",
        Operation::SetDelete => " setdelete",
        Operation::Restore => " restore",
        Operation::Cleanup => " cleanup",
        Operation::Close => " close",
        Operation::Other(_) => " other",
    }
}
