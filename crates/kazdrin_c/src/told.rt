//! What C is told of an event: one structure for all answers.

ghost use Rattle.std.specs.Prelude.{◌≡◌, ◌++◌, length, min, take, drop};
ghost use Rattle.kazdrin_c.specs.Told.{bytes_in, code_of, completion_told, context_told, copied, due_code, given_told, nothing_told, old_told, outcome_of, refusal_told, reply_outcome, told_of};

use fm_callback_data::Completion;
use fm_core::{SetAnswer, StepReply};
use fm_session::Given;
use fm_types::{ContextKind, CtxId, Status};

/// What an event answered. `has` says whether a context, an operation or a handle that may be absent is there; `length` is how many bytes there are, of which
/// as many are copied as there is room for. `due` is 1 after an event of `kazdrin_step` or `kazdrin_attach` if some context waits for its cleanup then, so that
/// nobody has to ask for one in vain; other calls tell 0.
#[repr(C)]
#[derive(Clone, Copy, Drop)]
pub struct KazdrinTold {
    pub slot: u32,
    pub generation: u32,
    pub operation: u64,
    pub handle: u64,
    pub number: u64,
    pub information: u64,
    pub length: u64,
    pub instance: u16,
    pub filter: u8,
    pub volume: u8,
    pub kind: u8,
    pub action: u8,
    pub status: u8,
    pub has: u8,
    pub due: u8,
}

/// Nothing is told.
pub fn nothing_told() -> KazdrinTold
    ensures { result ≡ nothing_told }
{
    KazdrinTold {
        slot: 0,
        generation: 0,
        operation: 0,
        handle: 0,
        number: 0,
        information: 0,
        length: 0,
        instance: 0,
        filter: 0,
        volume: 0,
        kind: 0,
        action: 0,
        status: 0,
        has: 0,
        due: 0,
    }
}

fn code_of(kind: ContextKind) -> u8
    ensures { result ≡ code_of kind }
{
    match kind {
        ContextKind::Volume => 0,
        ContextKind::Instance => 1,
        ContextKind::Stream => 2,
        ContextKind::Handle => 3,
        ContextKind::File => 4,
    }
}

fn context_told(context: CtxId) -> KazdrinTold
    ensures { result ≡ context_told context }
{
    KazdrinTold {
        slot: context.slot,
        generation: context.generation,
        has: 1,
        ..nothing_told()
    }
}

/// A context that may be absent.
pub fn old_told(context: Option<CtxId>) -> KazdrinTold
    ensures { result ≡ old_told context }
{
    match context {
        Some(context) => context_told(context),
        None => nothing_told(),
    }
}

/// The number of an outcome: 0, or the status's.
pub fn outcome<T: Drop>(result_given: &Result<T, Status>) -> u32
    ensures { result ≡ outcome_of result_given.now }
{
    match result_given {
        Ok(_) => 0,
        Err(status) => u32::from(status.number()),
    }
}

/// The number of what an event answered.
pub fn outcome_of(reply: &StepReply) -> u32
    ensures { result ≡ reply_outcome reply.now }
{
    match reply {
        StepReply::Filter(answer) => outcome(answer),
        StepReply::Volume(answer) => outcome(answer),
        StepReply::Instance(answer) => outcome(answer),
        StepReply::Operation(answer) => outcome(answer),
        StepReply::Action(answer) => outcome(answer),
        StepReply::Done(answer) => outcome(answer),
        StepReply::Held(answer) => outcome(answer),
        StepReply::Drained(answer) => outcome(answer),
        StepReply::Dropped(answer) => outcome(answer),
        StepReply::Answer(answer) => outcome(answer),
        StepReply::Context(answer) => outcome(answer),
        StepReply::Set(SetAnswer::Linked(_)) => 0,
        StepReply::Set(SetAnswer::AlreadyDefined(_)) => 22,
        StepReply::Set(SetAnswer::Refused(status)) => u32::from(status.number()),
        StepReply::Old(answer) => outcome(answer),
        StepReply::Body(answer) => outcome(answer),
        StepReply::Number(answer) => outcome(answer),
        StepReply::Due(answer) => outcome(answer),
    }
}

// What a refusal tells: how many are in the way, if it is Busy.
fn refusal_told(status: &Status) -> KazdrinTold
    ensures { result ≡ refusal_told status.now }
{
    KazdrinTold {
        number: status.information(),
        ..nothing_told()
    }
}

// What an answer tells, but for its bytes.
fn told_of(reply: &StepReply) -> KazdrinTold
    ensures { result ≡ told_of reply.now }
{
    match reply {
        StepReply::Done(Err(status)) => refusal_told(status),
        StepReply::Filter(Ok(filter)) => KazdrinTold {
            filter: filter.0,
            ..nothing_told()
        },
        StepReply::Volume(Ok(volume)) => KazdrinTold {
            volume: volume.0,
            ..nothing_told()
        },
        StepReply::Instance(Ok(instance)) => KazdrinTold {
            instance: instance.0,
            ..nothing_told()
        },
        StepReply::Operation(Ok(operation)) => KazdrinTold {
            operation: operation.0,
            ..nothing_told()
        },
        StepReply::Held(Ok(Some(operation))) => KazdrinTold {
            operation: operation.0,
            has: 1,
            ..nothing_told()
        },
        StepReply::Dropped(Ok(Some(handle))) => KazdrinTold {
            handle: handle.0,
            has: 1,
            ..nothing_told()
        },
        StepReply::Number(Ok(number)) => KazdrinTold {
            number: *number,
            ..nothing_told()
        },
        StepReply::Answer(Ok(answer)) => KazdrinTold {
            status: answer.status.number(),
            number: answer.status.information(),
            information: answer.information,
            ..nothing_told()
        },
        StepReply::Context(Ok(context)) => context_told(*context),
        StepReply::Old(Ok(context)) => old_told(*context),
        StepReply::Set(SetAnswer::Linked(context)) => old_told(*context),
        StepReply::Set(SetAnswer::AlreadyDefined(context)) => old_told(*context),
        StepReply::Drained(Ok(Some((operation, completion)))) => KazdrinTold {
            operation: operation.0,
            action: 1,
            ..completion_told(completion)
        },
        StepReply::Due(Ok(Some(due))) => KazdrinTold {
            kind: code_of(due.kind),
            ..context_told(due.id)
        },
        _ => nothing_told(),
    }
}

fn completion_told(completion: &Completion) -> KazdrinTold
    ensures { result ≡ completion_told completion.now }
{
    KazdrinTold {
        number: completion.number,
        ..old_told(completion.context)
    }
}

// The bytes of an answer.
fn bytes_of(reply: &StepReply) -> &[u8]
    ensures { result.now ≡ bytes_in reply.now }
{
    match reply {
        StepReply::Answer(Ok(answer)) => answer.bytes.as_slice(),
        StepReply::Body(Ok(body)) => body.as_slice(),
        StepReply::Due(Ok(Some(due))) => due.body.as_slice(),
        _ => &[],
    }
}

/// As many bytes as there is room for; what lies beyond them stays.
pub fn put_bytes(room: &mut [u8], bytes: &[u8])
    ensures { room.new ≡ copied bytes.now room.old }
{
    let count = bytes.len().min(room.len());
    room[..count].copy_from_slice(&bytes[..count]);
}

/// Tells C what an event answered, and whether some context waits for its cleanup.
pub fn tell(reply: &StepReply, has_due: bool, told: &mut KazdrinTold, room: &mut [u8])
    ensures told { told.new ≡ record (told_of reply.now) { length = length (bytes_in reply.now); due = due_code has_due } }
    ensures bytes { room.new ≡ copied (bytes_in reply.now) room.old }
{
    let bytes = bytes_of(reply);
    put_bytes(room, bytes);
    *told = KazdrinTold {
        length: bytes.len() as u64,
        due: u8::from(has_due),
        ..told_of(reply)
    };
}

/// What a worker is to do next, as C is told it: 0 a preoperation, 1 a call of the base, 2 a postoperation, 3 a drain, 4 nothing, ask again, 5 nothing, the
/// operation is held, 6 nothing, it is done.
pub fn given_told(given: &Given) -> KazdrinTold
    ensures { result ≡ given_told given.now }
{
    match given {
        Given::Pre(instance) => KazdrinTold {
            instance: instance.0,
            ..nothing_told()
        },
        Given::Base => KazdrinTold {
            action: 1,
            ..nothing_told()
        },
        Given::Post(instance, completion) => KazdrinTold {
            instance: instance.0,
            action: 2,
            ..completion_told(completion)
        },
        Given::Drain(instance, completion) => KazdrinTold {
            instance: instance.0,
            action: 3,
            ..completion_told(completion)
        },
        Given::Moved => KazdrinTold {
            action: 4,
            ..nothing_told()
        },
        Given::Held => KazdrinTold {
            action: 5,
            ..nothing_told()
        },
        Given::Done => KazdrinTold {
            action: 6,
            ..nothing_told()
        },
    }
}
