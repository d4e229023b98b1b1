//! Colours of a terminal.

use fm_report::{Event, Tone};

/// A colour, by what it is for.
#[derive(Clone, Copy)]
pub enum Colour {
    /// As the terminal writes.
    Plain,
    /// What matters less.
    Dim,
    /// What went well, and ends something.
    Good,
    /// What waits, or goes.
    Waiting,
    /// What was refused, or failed.
    Bad,
    /// What is wrong.
    Wrong,
}

impl Colour {
    /// What stands before and behind a text of that colour.
    pub fn around(self, is_coloured: bool) -> (&'static str, &'static str) {
        if !is_coloured {
            return ("", "");
        }
        match self {
            Colour::Plain => ("", ""),
            Colour::Dim => ("\x1b[2m", "\x1b[0m"),
            Colour::Good => ("\x1b[32m", "\x1b[0m"),
            Colour::Waiting => ("\x1b[33m", "\x1b[0m"),
            Colour::Bad => ("\x1b[31m", "\x1b[0m"),
            Colour::Wrong => ("\x1b[31;1m", "\x1b[0m"),
        }
    }
}

/// The colour in which an event is told.
pub fn colour_of(event: &Event) -> Colour {
    match event.kind.tone() {
        Tone::Plain => Colour::Plain,
        Tone::Good => Colour::Good,
        Tone::Waiting => Colour::Waiting,
        Tone::Bad => Colour::Bad,
        Tone::ByStatus if event.is_success() => Colour::Good,
        Tone::ByStatus => Colour::Bad,
    }
}
