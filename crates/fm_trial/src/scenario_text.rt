//! The text of a scenario, and where it comes from.

ghost use Rattle.std.specs.Prelude.{◌<◌, IfOk, length};

use std::alloc::Global;
use std::fs;
use std::io::{self, Read};
use std::rt::Files;

/// The text of a scenario, and where it comes from.
#[derive(Drop)]
pub(crate) struct ScenarioText {
    /// The file that it is of, if it is of one.
    pub(crate) file: Option<String>,
    /// Its text, or why that can't be read.
    pub(crate) text: io::Result<String>,
}

impl ScenarioText {
    /// The file's name.
    pub(crate) fn file(&self) -> Option<&str> {
        self.file.as_ref().map(|file| file.as_str())
    }

    /// These files, or the input where there is none: at least one text. Fails if memory is refused, or if the input can't be read.
    pub(crate) fn all<R, I>(rt: &R, input: I, files: Vec<String>) -> io::Result<Vec<ScenarioText>>
    where
        R: Files + AllocGlobal,
        I: Read + Drop,
        ensures { IfOk result (λ texts. 0 < length texts.items) }
    {
        if files.is_empty() {
            return ScenarioText::of_input(rt.alloc(), input);
        }
        let texts = files
            .into_iter()
            .map(|file| ScenarioText::of_file(rt, file))
            .collect(rt.alloc())?;
        Ok(texts)
    }

    // The file of that name.
    fn of_file<R: Files + AllocGlobal>(rt: &R, file: String) -> ScenarioText {
        let text = fs::read_to_string(rt, file.as_str());
        ScenarioText {
            file: Some(file),
            text,
        }
    }

    // The input alone.
    fn of_input<I: Read + Drop>(alloc: Global, input: I) -> io::Result<Vec<ScenarioText>>
        ensures { IfOk result (λ texts. 0 < length texts.items) }
    {
        let text = io::read_to_string(alloc, input)?;
        let mut texts = Vec::new(alloc);
        texts.push(ScenarioText {
            file: None,
            text: Ok(text),
        })?;
        Ok(texts)
    }
}
