//! What a run answers, as objects.

use crate::verdict::counted_at;
use crate::view::{ScriptLine, View, bytes_of};
use fm_callback_data::PreVerdict;
use fm_report::{
    Detail, Event, Notes, ObjectDetail, Text, say_change_json, say_end_json, say_json, say_leak,
    say_leak_json,
};
use fm_script::{Said, ScriptEnd};
use std::alloc::Global;
use std::io::Write;

impl<W: Write + Drop> View<W> {
    // Appends what happened as an object.
    pub(super) fn show_object(
        &self,
        text: &mut Text,
        line: &ScriptLine<'_>,
        said: &Said,
        event: &Event,
        (words, reason): (&str, &str),
    ) {
        let counted = counted_at(self.interpreter.state(), event);
        let bytes = bytes_of(line.task, said);
        let telling = (self.line, line.text, words, reason);
        say_object(
            self.alloc,
            text,
            &self.notes,
            event,
            (bytes, counted),
            telling,
        )
    }

    // Appends what only the end of a line tells: how far lives came, and what was left behind.
    pub(super) fn show_rest(&self, text: &mut Text, changes: usize, leaks: usize) {
        if self.is_json() {
            self.show_changes(text, changes);
            self.show_leaks(text, leaks);
        }
    }

    // Appends how far lives came on this line.
    fn show_changes(&self, text: &mut Text, from: usize) {
        for change in self.notes.changes.iter().skip(from) {
            say_change_json(self.alloc, text, change);
        }
    }

    // Appends what was left behind on this line.
    fn show_leaks(&self, text: &mut Text, from: usize) {
        for leak in self.notes.leaks.iter().skip(from) {
            let mut words = Text::new(self.alloc);
            say_leak(&mut words, &self.notes, leak);
            say_leak_json(self.alloc, text, &self.notes, leak, words.as_str());
        }
    }

    // The last object.
    pub(super) fn say_end_object(&self, text: &mut Text, end: ScriptEnd) {
        let mut words = Text::new(self.alloc);
        self.say_verdict(&mut words, end);
        if words.check().is_err() {
            text.fail();
        }
        say_end_json(self.alloc, text, &self.tally(end), words.as_str())
    }
}

// Appends what happened as an object.
fn say_object<'x>(
    alloc: Global,
    text: &mut Text,
    notes: &Notes,
    event: &Event,
    (bytes, counted): (Option<&'x [u8]>, Option<PreVerdict>),
    (line, command, words, reason): (u32, &'x [u8], &'x str, &'x str),
) {
    let told = ObjectDetail {
        line,
        command,
        words,
        reason,
        detail: Detail {
            bytes,
            counted,
            left: None,
            reason: None,
        },
    };
    say_json(alloc, text, notes, event, &told)
}
