//! What is told of a request as objects.

use crate::line_request::LineRequest;
use crate::report::TrialManager;
use fm_callback_data::{PostVerdict, PreVerdict, Reply};
use fm_filter::Minifilter;
use fm_local::{PostAnswer, PreAnswer, Traced, Visit};
use fm_report::{Detail, Event, Facts, InstanceVisit, Kind, Teller, counted_for};
use fm_types::{FilterId, InstanceId, OpId, Status};
use fm_wire::Control;
use std::alloc::AllocError;

// Where in the trace the reply of the request was handed out. None where the request didn't begin, isn't over, or was refused amid its way, as a close behind its
// cleanup.
fn reply_place<F: Minifilter>(manager: &TrialManager<F>, reply: &Reply) -> Option<usize> {
    let Reply::Done { status, .. } = reply else {
        return None;
    };
    let last = manager.state().operations_begun().checked_sub(1)?;
    for place in (0..manager.traced()).rev() {
        let step = manager.trace(place)?;
        if step.operation == OpId(last) && step.visit == Visit::Replied(*status) {
            return Some(place);
        }
    }
    None
}

/// Appends what a request led to: its operations with their steps and the reply of each, what a control did, or that it was refused; and then how far lives
/// came. Fails if memory is refused.
pub(crate) fn say_request<F: Minifilter>(
    teller: &mut Teller,
    text: &mut String,
    manager: &TrialManager<F>,
    asked: LineRequest,
    reply: &Reply,
) -> Result<(), AllocError> {
    let answered = reply_place(manager, reply);
    for place in 0..manager.traced() {
        if let Some(step) = manager.trace(place) {
            say_begun(teller, text, step.operation.0.saturating_add(1))?;
            let own = if answered == Some(place) {
                Some(reply)
            } else {
                None
            };
            say_step(teller, text, &step, own)?;
        }
    }
    say_begun(teller, text, manager.state().operations_begun())?;
    if answered.is_none() {
        say_plain(teller, text, asked, reply)?;
    }
    teller.say_lives(text, manager.state())
}

// Appends that operations began, up to that many.
fn say_begun(teller: &mut Teller, text: &mut String, count: u64) -> Result<(), AllocError> {
    for operation in teller.begun()..count {
        teller.say_began(text, operation)?;
    }
    Ok(())
}

// Appends a step of an operation; the reply where it is that of the request.
fn say_step(
    teller: &mut Teller,
    text: &mut String,
    step: &Traced,
    reply: Option<&Reply>,
) -> Result<(), AllocError> {
    let operation = step.operation;
    match step.visit {
        Visit::Pre(instance, answer) => say_pre(teller, text, at(operation, instance), &answer),
        Visit::Post(instance, answer) => say_post(teller, text, at(operation, instance), &answer),
        Visit::Base(status) => {
            teller.say_plain(text, &Event::answered(Kind::Base, operation.0, status))
        }
        Visit::Drain(instance) => {
            teller.say_plain(text, &Event::on(Kind::Drained, at(operation, instance)))
        }
        Visit::Replied(status) => match reply {
            Some(reply) => say_reply(teller, text, operation, reply),
            None => say_answer(teller, text, operation, (status, 0), b""),
        },
    }
}

// The only worker at an instance.
fn at(operation: OpId, instance: InstanceId) -> InstanceVisit {
    InstanceVisit {
        worker: 0,
        operation: operation.0,
        instance: u64::from(instance.0),
    }
}

// Appends what a preoperation answered, and what counts in its place.
fn say_pre(
    teller: &mut Teller,
    text: &mut String,
    visit: InstanceVisit,
    answer: &PreAnswer,
) -> Result<(), AllocError> {
    let pre = Event::verdict(Kind::Pre, visit, answer.given, None);
    let detail = Detail {
        counted: counted_of(answer),
        ..Detail::none()
    };
    teller.say_event(text, &pre, &detail)
}

// The verdict that counts, where it is another one than was given.
fn counted_of(answer: &PreAnswer) -> Option<PreVerdict> {
    counted_for(answer.given, answer.counted?)
}

// Appends that a postoperation returned, and which status it left in place of another.
fn say_post(
    teller: &mut Teller,
    text: &mut String,
    visit: InstanceVisit,
    answer: &PostAnswer,
) -> Result<(), AllocError> {
    let kind = match answer.given {
        PostVerdict::MoreProcessing => Kind::PostHeld,
        PostVerdict::Finished => Kind::Post,
    };
    let detail = Detail {
        left: (answer.found != answer.left).then_some(answer.left),
        ..Detail::none()
    };
    teller.say_event(text, &Event::on(kind, visit), &detail)
}

/// Appends the reply of an operation; nothing where it is held. Fails if memory is refused.
pub(crate) fn say_reply(
    teller: &mut Teller,
    text: &mut String,
    operation: OpId,
    reply: &Reply,
) -> Result<(), AllocError> {
    match reply {
        Reply::Done {
            status,
            information,
            bytes,
        } => say_answer(
            teller,
            text,
            operation,
            (*status, *information),
            bytes.as_slice(),
        ),
        Reply::Held(_) => Ok(()),
    }
}

fn say_answer(
    teller: &mut Teller,
    text: &mut String,
    operation: OpId,
    (status, information): (Status, u64),
    bytes: &[u8],
) -> Result<(), AllocError> {
    let replied = Event::replied(operation.0, status, information);
    teller.say_event(text, &replied, &Detail::bytes(bytes))
}

// Appends what a request came to that has no operation to tell it.
fn say_plain(
    teller: &mut Teller,
    text: &mut String,
    asked: LineRequest,
    reply: &Reply,
) -> Result<(), AllocError> {
    match (reply, asked) {
        (
            Reply::Done {
                status: Status::Success,
                information,
                ..
            },
            LineRequest::Control(control),
        ) => say_control(teller, text, control, *information),
        (Reply::Done { status, .. }, _) => {
            teller.say_refused(text, *status, asked.reason(), asked.subject())
        }
        (Reply::Held(_), _) => Ok(()),
    }
}

// Appends what a control did. What it attached the lives tell.
fn say_control(
    teller: &mut Teller,
    text: &mut String,
    control: Control,
    information: u64,
) -> Result<(), AllocError> {
    match control {
        Control::Load { name } => match u8::try_from(information) {
            Ok(filter) => teller.say_loaded(text, FilterId(filter), name),
            Err(_) => Ok(()),
        },
        Control::Detach { instance } => {
            let facts = Facts::instance(u64::from(instance.0));
            teller.say_plain(text, &Event::of(Kind::Finished, facts))
        }
        Control::Unload { filter } => {
            let facts = Facts::filter_since(u64::from(filter.0), 0);
            teller.say_plain(text, &Event::of(Kind::FilterFinished, facts))
        }
        Control::Stop => teller.say_stopped(text),
        Control::Attach { .. } | Control::Dismount { .. } => Ok(()),
    }
}
