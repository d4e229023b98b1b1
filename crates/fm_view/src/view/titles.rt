//! What a picture says of each event, and the picture.

use crate::picture::draw;
use crate::view::{ScriptLine, View};
use fm_page::Label;
use fm_report::{Text, push_ascii};
use fm_script::ScriptEnd;
use std::alloc::AllocError;
use std::io::Write;

impl<W: Write + Drop> View<W> {
    // Keeps what is told of an event in a picture.
    pub(super) fn title(&mut self, line: &ScriptLine<'_>, words: &str) -> Result<(), AllocError> {
        let mut title = Text::new(self.alloc);
        title.push_str("line ");
        title.push_number(u64::from(self.line));
        title.push_str(", ");
        push_ascii(&mut title, line.text);
        title.push_str(": ");
        title.push_str(words);
        let title = title.finish()?;
        let label = Label::new(self.alloc, title.as_bytes())?;
        self.titles.push(label)?;
        Ok(())
    }

    // Writes the picture.
    pub(super) fn write_picture(&mut self) -> Result<(), ScriptEnd> {
        let picture = draw(self.alloc, &self.notes, &self.moments, &self.titles).map_err(
            |_| ScriptEnd::NoMemory,
        )?;
        self.write_raw(picture.as_str())
    }
}
