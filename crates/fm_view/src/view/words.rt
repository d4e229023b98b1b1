//! What a run answers, in words.

use crate::colour::{Colour, colour_of};
use crate::verdict::counted_at;
use crate::view::{ScriptLine, View, bytes_of};
use fm_callback_data::PreVerdict;
use fm_report::{Detail, Event, Notes, Text, push_ascii, say_detail};
use fm_script::Said;
use std::io::Write;

// How wide the commands are, before what happened.
const COMMAND: usize = 27;

impl<W: Write + Drop> View<W> {
    // What happened, in words.
    pub(super) fn words(
        &self,
        line: &ScriptLine<'_>,
        said: &Said,
        event: &Event,
        reason: &str,
    ) -> Text {
        let mut words = Text::new(self.alloc);
        let counted = counted_at(self.interpreter.state(), event);
        let bytes = bytes_of(line.task, said).unwrap_or(b"");
        say_words(&mut words, &self.notes, event, bytes, (counted, reason));
        words
    }

    // One answer in words, with the command before the first one of its line. One that is wider than its column has a line of its own.
    pub(super) fn show_words(
        &self,
        text: &mut Text,
        line: &[u8],
        event: &Event,
        words: &str,
        is_first: bool,
    ) {
        if is_first {
            self.show_command(text, line);
        } else {
            push_spaces(text, COMMAND.saturating_add(8));
        }
        let (begin, end) = colour_of(event).around(self.shown.is_coloured);
        text.push_str(begin);
        text.push_str(words);
        text.push_str(end);
        text.push('\n')
    }

    // A command before its answer, with its number.
    fn show_command(&self, text: &mut Text, line: &[u8]) {
        let (dim, plain) = Colour::Dim.around(self.shown.is_coloured);
        text.push_str(dim);
        push_line(text, self.line);
        text.push_str(plain);
        text.push_str("  ");
        let mut command = Text::new(self.alloc);
        push_ascii(&mut command, line);
        text.push_str(command.as_str());
        let width = command.len();
        if width > COMMAND {
            text.push('\n');
            return push_spaces(text, COMMAND.saturating_add(8));
        }
        push_spaces(text, COMMAND.saturating_sub(width).saturating_add(2))
    }

    // A line that asks for nothing, in words.
    pub(super) fn say_comment(&self, text: &mut Text, line: &[u8]) {
        let (begin, end) = Colour::Dim.around(self.shown.is_coloured);
        text.push_str(begin);
        push_line(text, self.line);
        text.push_str("  ");
        push_ascii(text, line);
        text.push_str(end);
        text.push('\n')
    }
}

// Appends what happened in words, with the verdict that counts and the reason of a refusal.
fn say_words<'x>(
    words: &mut Text,
    notes: &Notes,
    event: &Event,
    bytes: &'x [u8],
    (counted, reason): (Option<PreVerdict>, &'x str),
) {
    let detail = Detail {
        bytes: Some(bytes),
        counted,
        left: None,
        reason: Some(reason),
    };
    say_detail(words, notes, event, &detail)
}

// Appends so many spaces.
fn push_spaces(text: &mut Text, count: usize) {
    for _ in 0..count {
        text.push(' ');
    }
}

// Appends the number of a line, in four places.
fn push_line(text: &mut Text, line: u32) {
    let places = match line {
        0..=9 => 3,
        10..=99 => 2,
        100..=999 => 1,
        _ => 0,
    };
    push_spaces(text, places);
    text.push_number(u64::from(line))
}
