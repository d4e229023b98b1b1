//! Readers and writers that give and take little, and fail.

use std::alloc::Global;
use std::io::{Error, ErrorKind, Read, Result, Write};
use std::process::Abort;

/// How a reader gives its bytes: so many at once, and after the last it ends or fails.
#[derive(Clone, Copy)]
pub struct Pace {
    pub most: usize,
    pub fails: bool,
}

/// All at once.
pub const WHOLE: Pace = Pace {
    most: 16_384,
    fails: false,
};

/// One byte after the other.
pub const BYTE_BY_BYTE: Pace = Pace {
    most: 1,
    fails: false,
};

/// A reader that gives its bytes at that pace.
#[derive(Drop)]
pub struct Pieces<'a> {
    rest: &'a [u8],
    pace: Pace,
}

impl<'a> Pieces<'a> {
    /// A reader that gave nothing yet.
    pub fn new(rest: &'a [u8], pace: Pace) -> Self {
        Pieces { rest, pace }
    }
}

impl Read for Pieces<'_> {
    fn read(&mut self, buf: &mut [u8]) -> Result<usize> {
        if self.rest.is_empty() && self.pace.fails {
            return Err(Error::from(ErrorKind::BrokenPipe));
        }
        let most = self.pace.most.min(buf.len());
        self.rest.read(&mut buf[..most])
    }
}

/// A writer with room for so many bytes, which fails then.
#[derive(Drop)]
pub struct Taken {
    text: Vec<u8>,
    room: usize,
}

impl Taken {
    /// A writer that took nothing yet.
    pub fn new(alloc: Global, room: usize) -> Self {
        Taken {
            text: Vec::new(alloc),
            room,
        }
    }

    /// The same, with the memory for so much taken before, and taken again if it was refused once.
    pub fn with_room(rt: &impl Abort, alloc: Global, room: usize) -> Self {
        let text = match Vec::with_capacity(alloc, room) {
            Ok(text) => text,
            Err(_) => Vec::with_capacity(alloc, room).expect(rt, "memory"),
        };
        Taken { text, room }
    }

    /// What it took.
    pub fn into_text(self) -> Vec<u8> {
        let Taken { text, room: _ } = self;
        text
    }
}

impl Write for Taken {
    fn write(&mut self, buf: &[u8]) -> Result<usize> {
        let most = self.room.min(buf.len());
        if most == 0 && !buf.is_empty() {
            return Err(Error::from(ErrorKind::BrokenPipe));
        }
        self.text.extend_from_slice(&buf[..most])?;
        self.room -= most;
        Ok(most)
    }

    fn flush(&mut self) -> Result<()> {
        Ok(())
    }
}
