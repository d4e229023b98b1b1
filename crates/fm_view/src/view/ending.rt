//! How a run ends.

ghost use Rattle.std.specs.Prelude.{◌≡◌};
ghost use Rattle.fm_view.specs.Ends.{IsCounted};

use crate::verdict::{exit_status, fault_of, say_end, say_expectations, say_fault};
use crate::view::{Shown, View, ViewFormat};
use fm_page::PAGE_END;
use fm_report::{Summary, Text, held_operations};
use fm_script::{Listener, ScriptEnd};
use std::io::Write;

impl<W: Write + Drop> View<W> {
    // Ends a run that ended so: writes the verdict or the picture. It gives the exit status, and how many lines expect something.
    pub(super) fn finish(mut self, end: ScriptEnd) -> (u8, u64) {
        let end = match (self.settle(), end) {
            (Err(fault), ScriptEnd::Ended) => fault,
            _ => end,
        };
        let end = match self.end(end) {
            Ok(()) => end,
            Err(fault) => fault,
        };
        (self.tally(end).status, self.expectations.count)
    }

    // Writes the last text, and hands all out.
    fn end(&mut self, end: ScriptEnd) -> Result<(), ScriptEnd> {
        if self.shown.format == ViewFormat::Picture {
            self.write_picture()?;
        } else {
            let text = self.last_text(end);
            self.write_made(text)?;
        }
        if self.shown.format == ViewFormat::Page {
            self.write_raw(PAGE_END)?;
        }
        self.pause()
    }

    // The figures of a run that ended so.
    pub(super) fn tally(&self, end: ScriptEnd) -> Summary
        ensures { IsCounted end self.now.expectations self.now.interpreter.session.world result }
    {
        let state = self.interpreter.state();
        let (unmet, misuses) = (self.unmet(), self.expectations.misuses);
        let status = exit_status(end, self.expectations.wrong, unmet, misuses, state);
        Summary {
            fault: fault_of(end),
            status: self.expectations.status(status),
            lines: self.last,
            refused: self.notes.refused(),
            born: state.born(),
            cleaned: state.cleaned_count(),
            leaks: state.leaks(),
            held: held_operations(state),
            misuses,
            unmet,
            told: None,
            dropped: None,
        }
    }

    // How much wasn't as the script expects. In a check a line that can't be read is among it, and in a strict run each refusal.
    fn unmet(&self) -> u64 {
        let more = match self.shown {
            Shown {
                is_strict: true,
                ..
            } => self.expectations.surprises,
            Shown {
                format: ViewFormat::Check,
                ..
            } => self.expectations.unread,
            _ => 0,
        };
        self.expectations.unmet.saturating_add(more)
    }

    // What is written at the end, if it isn't a picture.
    fn last_text(&self, end: ScriptEnd) -> Text {
        let mut text = Text::new(self.alloc);
        match self.shown.format {
            ViewFormat::Words => {
                text.push('\n');
                self.say_verdict(&mut text, end);
            }
            ViewFormat::Check => self.say_causes(&mut text, end),
            ViewFormat::Json | ViewFormat::Page => self.say_end_object(&mut text, end),
            ViewFormat::Picture => {}
        }
        text
    }

    // What is left at the end, in words.
    pub(super) fn say_verdict(&self, text: &mut Text, end: ScriptEnd) {
        let state = self.interpreter.state();
        say_end(text, &self.notes, state, self.last);
        say_expectations(text, &self.expectations, self.shown.is_strict);
        say_fault(text, end)
    }
}
