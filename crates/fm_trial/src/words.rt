//! The words of a trial program.

use crate::trial_format::TrialFormat;
use std::alloc::{AllocError, Global};
use std::fmt;

/// What the words of a program ask for.
#[derive(Drop)]
pub(crate) struct Words {
    /// How the trial is shown.
    pub(crate) format: TrialFormat,
    /// The files.
    pub(crate) files: Vec<String>,
}

/// Why words are refused.
#[derive(Debug, Drop)]
pub(crate) enum WordsRefused {
    /// A word that begins with `--` is none that is known.
    Unknown(String),
    /// Both JSON and a page are asked for.
    Both,
    /// A page of several files is asked for.
    Pages,
}

impl Words {
    /// Reads the words behind the program's name: files, and at most one of `--json` and `--page` among them, which takes at most one file. Fails if memory is
    /// refused.
    pub(crate) fn read(
        alloc: Global,
        words: Vec<String>,
    ) -> Result<Result<Words, WordsRefused>, AllocError> {
        let mut format = TrialFormat::Lines;
        let mut files = Vec::new(alloc);
        for word in words {
            match format_of(word.as_str()) {
                Some(other) if format != TrialFormat::Lines && format != other => {
                    return Ok(Err(WordsRefused::Both));
                }
                Some(other) => format = other,
                None if word.as_str().starts_with("--") => return Ok(Err(WordsRefused::Unknown(
                    word,
                ))),
                None => files.push(word)?,
            }
        }
        if format == TrialFormat::Page && files.len() > 1 {
            return Ok(Err(WordsRefused::Pages));
        }
        Ok(Ok(Words { format, files }))
    }
}

// The format that a word asks for.
fn format_of(word: &str) -> Option<TrialFormat> {
    match word {
        "--json" => Some(TrialFormat::Json),
        "--page" => Some(TrialFormat::Page),
        _ => None,
    }
}

/// The sentence that says so.
impl fmt::Display for WordsRefused {
    fn fmt<W: fmt::Write>(&self, f: &mut fmt::Formatter<W>) -> fmt::Result {
        match self {
            WordsRefused::Unknown(word) => {
                write!(
                    f,
                    "there are --json, --page and files, and no {}",
                    word.as_str()
                )
            }
            WordsRefused::Both => f.write_str("one of --json and --page at a time"),
            WordsRefused::Pages => f.write_str("a page shows one file"),
        }
    }
}
