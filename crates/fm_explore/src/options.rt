//! The words of a search.

use std::alloc::{AllocError, Global};

/// The preemptions of a search that no word bounds.
const BOUND: u32 = 2;

/// What the words after `--explore` ask for.
#[derive(Drop)]
pub(crate) struct Options {
    /// How many preemptions a schedule may have; without a bound as many as there can be.
    pub(crate) bound: Option<u32>,
    /// Whether each end that differs is shown.
    pub(crate) ends: bool,
    /// The schedule that alone is run.
    pub(crate) replay: Option<String>,
    /// The scenario.
    pub(crate) file: String,
}

/// Whether the words ask for a search.
pub(crate) fn asks_search(words: &[String]) -> bool {
    words.iter().any(|word| word.as_str() == "--explore")
}

// A copy of a word. Fails if memory is refused.
fn copy_of(alloc: Global, word: &str) -> Result<String, AllocError> {
    let mut copy = String::new(alloc);
    copy.push_str(word)?;
    Ok(copy)
}

impl Options {
    /// Reads words, `--explore` among them: `--bound N` or `--bound all`, `--ends`, `--replay SCHEDULE`, and one file. None if they are others. Fails if memory is refused.
    pub(crate) fn read(alloc: Global, words: &[String]) -> Result<Option<Options>, AllocError> {
        let mut options = Options {
            bound: Some(BOUND),
            ends: false,
            replay: None,
            file: String::new(alloc),
        };
        let mut rest = words;
        for _ in 0..words.len() {
            let [word, behind @ ..] = rest else {
                break;
            };
            let Some(taken) = options.take(alloc, word.as_str(), behind)? else {
                return Ok(None);
            };
            rest = behind.get(taken..).unwrap_or(&[]);
        }
        if options.file.is_empty() {
            return Ok(None);
        }
        Ok(Some(options))
    }

    // Takes a word, and says how many of those behind it belong to it. None if it can't be taken.
    fn take(
        &mut self,
        alloc: Global,
        word: &str,
        behind: &[String],
    ) -> Result<Option<usize>, AllocError> {
        match word {
            "--explore" => Ok(Some(0)),
            "--ends" => {
                self.ends = true;
                Ok(Some(0))
            }
            "--bound" => Ok(self.take_bound(behind)),
            "--replay" => self.take_replay(alloc, behind),
            other => self.take_file(alloc, other),
        }
    }

    fn take_bound(&mut self, behind: &[String]) -> Option<usize> {
        let bound = behind.first()?.as_str();
        if bound == "all" {
            self.bound = None;
        } else {
            self.bound = Some(bound.parse::<u32>().ok()?);
        }
        Some(1)
    }

    fn take_replay(
        &mut self,
        alloc: Global,
        behind: &[String],
    ) -> Result<Option<usize>, AllocError> {
        let Some(schedule) = behind.first() else {
            return Ok(None);
        };
        self.replay = Some(copy_of(alloc, schedule.as_str())?);
        Ok(Some(1))
    }

    fn take_file(&mut self, alloc: Global, word: &str) -> Result<Option<usize>, AllocError> {
        if word.starts_with("--") || !self.file.is_empty() {
            return Ok(None);
        }
        self.file = copy_of(alloc, word)?;
        Ok(Some(0))
    }
}
