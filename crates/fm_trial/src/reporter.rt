//! How a scenario is told as it goes: in lines of text, or in objects.

use crate::line_request::LineRequest;
use crate::objects::{say_reply, say_request};
use crate::report::{TrialManager, write_reply, write_steps};
use fm_callback_data::Reply;
use fm_core::Place;
use fm_filter::Minifilter;
use fm_local::Leak;
use fm_mistakes::Mistake;
use fm_report::{CallbackDetail, Facts, Summary, Teller};
use fm_types::{CtxId, Name, OpId, Status, VolumeId};
use fm_wire::Body;
use std::alloc::AllocError;
use std::fmt::Write;

/// How a scenario is told. What fails of it fails because memory is refused.
#[derive(Drop)]
pub(crate) enum Reporter {
    /// In lines of text.
    Lines,
    /// In objects.
    Objects(Teller),
}

impl Reporter {
    /// Appends what stands before the first line: the volume, and of which file the scenario is.
    pub(crate) fn begin(
        &mut self,
        text: &mut String,
        file: Option<&str>,
        (volume, name): (VolumeId, Name),
    ) -> Result<(), AllocError> {
        match self {
            Reporter::Lines => Ok(()),
            Reporter::Objects(teller) => {
                teller.begin(text, file)?;
                teller.say_mounted(text, volume, name)
            }
        }
    }

    /// Goes on to a line.
    pub(crate) fn take_line(&mut self, number: usize, line: &str) -> Result<(), AllocError> {
        match self {
            Reporter::Lines => Ok(()),
            Reporter::Objects(teller) => {
                teller.take_line(u32::try_from(number).unwrap_or(u32::MAX), line)
            }
        }
    }

    /// Appends a line that asks for nothing, if it isn't empty.
    pub(crate) fn say_nothing(&self, text: &mut String, line: &str) -> Result<(), AllocError> {
        match self {
            Reporter::Objects(teller) if line.split_ascii_whitespace().next().is_some() => {
                teller.say_comment(text)
            }
            _ => Ok(()),
        }
    }

    /// Appends that the line is no request, and nothing that is expected.
    pub(crate) fn say_unknown(
        &mut self,
        text: &mut String,
        number: usize,
        line: &str,
    ) -> Result<(), AllocError> {
        match self {
            Reporter::Lines => writeln!(
                text,
                "line {number}: no request, and nothing that is expected: {line}"
            ),
            Reporter::Objects(teller) => {
                let reason = Some("it is no request, and nothing that is expected");
                teller.say_refused(text, Status::BadRequest, reason, Facts::none())
            }
        }
    }

    /// Appends what the line asks for, before it is asked.
    pub(crate) fn ask(
        &mut self,
        text: &mut String,
        line: &str,
        body: &Body,
    ) -> Result<(), AllocError> {
        match (self, body) {
            (Reporter::Lines, _) => writeln!(text, "> {line}"),
            (Reporter::Objects(teller), Body::Operation(request)) => teller.ask(request),
            (Reporter::Objects(_), _) => Ok(()),
        }
    }

    /// Appends what a request led to. In lines the reply stands behind what is told of callbacks.
    pub(crate) fn say_steps<F: Minifilter>(
        &mut self,
        text: &mut String,
        manager: &TrialManager<F>,
        asked: LineRequest,
        reply: &Reply,
    ) -> Result<(), AllocError> {
        match self {
            Reporter::Lines => write_steps(text, manager),
            Reporter::Objects(teller) => say_request(teller, text, manager, asked, reply),
        }
    }

    /// Appends the reply of an operation that was held.
    pub(crate) fn say_finished(
        &mut self,
        text: &mut String,
        operation: OpId,
        reply: &Reply,
    ) -> Result<(), AllocError> {
        match self {
            Reporter::Lines => {
                write!(text, "o{}: ", operation.0)?;
                write_reply(text, reply)
            }
            Reporter::Objects(teller) => say_reply(teller, text, operation, reply),
        }
    }

    /// Appends that a reference was left behind. In lines what is told of it says so.
    pub(crate) fn say_leaked(&mut self, text: &mut String, leak: &Leak) -> Result<(), AllocError> {
        match self {
            Reporter::Lines => Ok(()),
            Reporter::Objects(teller) => {
                teller.say_leaked(text, leak.context, leak.kind, leak.place)
            }
        }
    }

    /// Appends what is told, whose words are a line.
    pub(crate) fn tell(
        &mut self,
        text: &mut String,
        told: Mistake,
        words: &str,
        (place, context): (Place, Option<CtxId>),
    ) -> Result<(), AllocError> {
        match self {
            Reporter::Lines => text.push_str(words),
            Reporter::Objects(teller) => {
                let telling = CallbackDetail {
                    id: told.id(),
                    is_limit: told.is_limit(),
                    words: words.trim_end(),
                    place,
                    context,
                };
                teller.say_told(text, &telling)
            }
        }
    }

    /// Appends whether the line is as expected. In lines only what isn't is told.
    pub(crate) fn say_expectation(
        &self,
        text: &mut String,
        (number, line): (usize, &str),
        expected: &str,
        is_met: bool,
        answered: &str,
    ) -> Result<(), AllocError> {
        match self {
            Reporter::Lines if is_met => Ok(()),
            Reporter::Lines => writeln!(text, "line {number} failed: {line}"),
            Reporter::Objects(teller) => teller.say_expectation(text, expected, is_met, answered),
        }
    }

    /// How many lines were refused so far, as far as objects tell it.
    pub(crate) fn refused(&self) -> u64 {
        match self {
            Reporter::Lines => 0,
            Reporter::Objects(teller) => teller.refused(),
        }
    }

    /// Appends the end, whose words are lines.
    pub(crate) fn end(
        &self,
        text: &mut String,
        tally: &Summary,
        words: &str,
    ) -> Result<(), AllocError> {
        match self {
            Reporter::Lines => text.push_str(words),
            Reporter::Objects(teller) => teller.say_end(text, tally, words),
        }
    }
}
