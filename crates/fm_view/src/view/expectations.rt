//! Lines that expect something, and lines that ask for nothing.

use crate::colour::Colour;
use crate::expect::{ExpectOutcome, Expected, behind_mark};
use crate::view::{View, ViewFormat};
use fm_report::{
    Detail, Event, Facts, ObjectDetail, Text, push_ascii, say_comment_json, say_detail,
    say_expectation_json, say_json,
};
use fm_script::ScriptEnd;
use fm_types::Status;
use std::io::Write;

impl<W: Write + Drop> View<W> {
    // A line says what the line before printed, or how the run ends. It is told if that isn't so.
    pub(super) fn expect(&mut self, line: &[u8], expected: Expected<'_>) -> Result<(), ScriptEnd> {
        let text = match self.expectations.meet(expected) {
            ExpectOutcome::Wrong(why) => self.wrong_line(line, why),
            outcome => self.expectation(line, behind_mark(line), outcome == ExpectOutcome::Met),
        };
        self.write_made(text)
    }

    // A line that expects what can't be read, as it is shown: it is refused.
    fn wrong_line(&mut self, line: &[u8], why: &str) -> Text {
        let refused = Event::refused(Status::BadRequest, Facts::none());
        self.notes.refuse(Status::BadRequest);
        let detail = Detail {
            reason: Some(why),
            ..Detail::none()
        };
        let mut words = Text::new(self.alloc);
        say_detail(&mut words, &self.notes, &refused, &detail);
        let mut text = Text::new(self.alloc);
        if self.shown.format == ViewFormat::Check {
            self.say_surprise(&mut text, line, words.as_str());
        } else if self.is_json() {
            let told = ObjectDetail {
                line: self.line,
                command: line,
                words: words.as_str(),
                reason: why,
                detail,
            };
            say_json(self.alloc, &mut text, &self.notes, &refused, &told);
        } else if self.is_said() {
            self.show_words(&mut text, line, &refused, words.as_str(), true);
        }
        text
    }

    // An expectation as it is shown.
    fn expectation(&self, line: &[u8], expected: &[u8], is_met: bool) -> Text {
        let mut text = Text::new(self.alloc);
        let number = self.line;
        if self.is_json() {
            let printed = self.expectations.printed();
            let outcome = (is_met, printed);
            say_expectation_json(self.alloc, &mut text, number, expected, outcome);
        }
        if self.is_said() {
            self.say_comment(&mut text, line);
        }
        if !is_met && matches!(self.shown.format, ViewFormat::Words | ViewFormat::Check) {
            self.say_unmet(&mut text, expected);
        }
        text
    }

    // What wasn't as the line expects.
    fn say_unmet(&self, text: &mut Text, expected: &[u8]) {
        let (begin, end) = Colour::Wrong.around(self.shown.is_coloured);
        text.push_str(begin);
        text.push_str("NOT AS EXPECTED on line ");
        text.push_number(u64::from(self.line));
        text.push_str(end);
        text.push_str(": ");
        push_ascii(text, expected);
        self.say_printed(text);
        text.push('\n')
    }

    // What the line before printed.
    fn say_printed(&self, text: &mut Text) {
        let mut is_first = true;
        for answer in self.expectations.printed().split(|byte| *byte == b'\n') {
            if !answer.is_empty() {
                text.push_str(between(is_first));
                push_ascii(text, answer);
                is_first = false;
            }
        }
    }

    // A line that asks for nothing, as it is shown.
    pub(super) fn comment(&self, line: &[u8]) -> Text {
        let mut text = Text::new(self.alloc);
        if self.is_json() {
            say_comment_json(self.alloc, &mut text, self.line, line);
        } else if self.is_said() {
            self.say_comment(&mut text, line);
        }
        text
    }
}

// What stands before an answer in a list of them.
fn between(is_first: bool) -> &'static str {
    if is_first { "; it answered " } else { ", " }
}
