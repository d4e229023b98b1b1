//! What a check tells of lines that no line expects so.

use crate::verdict::{say_expectations, say_fault, say_held, say_leaks};
use crate::view::{ScriptLine, View, ViewFormat};
use fm_report::{Text, push_ascii};
use fm_script::ScriptEnd;
use std::io::Write;
use std::mem;

impl<W: Write + Drop> View<W> {
    // Nothing more is expected of the last line. A check tells what counts of it.
    pub(super) fn settle(&mut self) -> Result<(), ScriptEnd> {
        let note = self.expectations.last();
        let is_told = note.is_unread || note.is_misuse || (note.is_refused && self.shown.is_strict);
        self.expectations.settle();
        let mut surprise = Text::new(self.alloc);
        mem::swap(&mut surprise, &mut self.surprise);
        if is_told && self.shown.format == ViewFormat::Check {
            return self.write_made(surprise);
        }
        Ok(())
    }

    // Keeps what a check tells of a line that was refused, if no line expects it.
    pub(super) fn note_surprise(&mut self, line: &ScriptLine<'_>, words: &str) {
        let mut surprise = Text::new(self.alloc);
        self.say_surprise(&mut surprise, line.text, words);
        self.surprise = surprise;
    }

    // Appends what a check tells of a line.
    pub(super) fn say_surprise(&self, text: &mut Text, line: &[u8], words: &str) {
        text.push_str("line ");
        text.push_number(u64::from(self.line));
        text.push_str(", ");
        push_ascii(text, line);
        text.push_str(": ");
        text.push_str(words);
        text.push('\n')
    }

    // What a check tells at the end, beside its status: what was left behind, what is held, and what isn't as expected.
    pub(super) fn say_causes(&self, text: &mut Text, end: ScriptEnd) {
        say_leaks(text, &self.notes);
        say_held(text, &self.notes, self.interpreter.state());
        say_expectations(text, &self.expectations, self.shown.is_strict);
        say_fault(text, end)
    }
}
