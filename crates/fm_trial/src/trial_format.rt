//! How a trial is shown.

use fm_page::{Inert, PAGE_BEGIN, PAGE_END};
use std::alloc::Global;
use std::io::{self, Write};

/// How a trial is shown.
#[derive(Clone, Copy, Debug, PartialEq, Eq)]
pub(crate) enum TrialFormat {
    /// In lines of text.
    Lines,
    /// As JSON, one object a line.
    Json,
    /// As a page for a browser, which has the same objects.
    Page,
}

impl TrialFormat {
    /// Writes what stands before all that is told.
    pub(crate) fn begin<W: Write>(self, out: &mut W) -> io::Result<()> {
        match self {
            TrialFormat::Page => out.write_all(PAGE_BEGIN.as_bytes()),
            TrialFormat::Lines | TrialFormat::Json => Ok(()),
        }
    }

    /// Writes what is told: in a page as data, that can't break out of its place. Fails if memory is refused, or the write.
    pub(crate) fn write<W: Write>(self, alloc: Global, text: &str, out: &mut W) -> io::Result<()> {
        if self != TrialFormat::Page {
            return out.write_all(text.as_bytes());
        }
        let inert = Inert::new(alloc, text.as_bytes())?;
        out.write_all(inert.as_slice())
    }

    /// Writes what stands behind it, and hands all out.
    pub(crate) fn end<W: Write>(self, out: &mut W) -> io::Result<()> {
        if self == TrialFormat::Page {
            out.write_all(PAGE_END.as_bytes())?;
        }
        out.flush()
    }
}
