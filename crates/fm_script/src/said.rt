//! The lines that a script prints: which one for which answer, and the bytes of each.

ghost use Rattle.std.specs.Prelude.{◌≡◌, ◌≤◌, ◌<◌, ◌++◌, ◌∷◌, [], IfErr, IfOk, decimal, length, vec_capacity};
ghost use Rattle.fm_core.specs.Passing.{numbered};
ghost use Rattle.fm_script.specs.Sayings.{phase_word, refused_text, reply_text, said_context, said_count, said_done, said_drained, said_dropped, said_due, said_given, said_held, said_new, said_of, said_old, said_phase, said_set, text_with, verdict_text, word_text};
ghost use Rattle.fm_script.specs.declared.said.Said.TheVariants as SaidOf;
ghost use Rattle.fm_script.specs.declared.said.Word.TheVariants as WordOf;
ghost use Rattle.fm_session.specs.Sessions.{given_after_next};

use crate::context_list::ContextList;
use fm_callback_data::{Answer, Completion, PreVerdict};
use fm_core::{Action, Count, Due, Phase, SetAnswer, StepReply};
use fm_session::Given;
use fm_types::{Bytes, CtxId, HandleId, InstanceId, OpId, Status};
use fm_words::write_hex;
use std::alloc::AllocError;

/// The words that lines begin with.
#[derive(Clone, Copy)]
pub enum Word {
    Ok,
    Pre,
    Base,
    Post,
    Drain,
    Moved,
    Held,
    Done,
    Body,
    Cleanup,
    None,
    Count,
    Due,
    Cleaning,
    Cleaned,
    Setup,
    Attached,
    Stopping,
    Completing,
    Emptying,
    Detached,
    Flight,
    Leaks,
    Failures,
}

/// One line that a script prints.
#[derive(Drop)]
pub enum Said {
    /// A word.
    Plain(Word),
    /// A word and an id, which is a letter and a number.
    Id(Word, u8, u64),
    /// A word and a number.
    Number(Word, u64),
    /// `no` and the number of a refusal; behind that of Busy stands how many there are.
    Refused(Status),
    /// `no 22` and the context that is set already, by its number.
    Defined(u64),
    /// A word and bytes.
    Told(Word, Bytes),
    /// `reply`, and an operation's answer.
    Replied(Answer),
    /// `pre`, the number of an instance, and what its preoperation callback answers in a `go`.
    Answered(u64, PreVerdict),
    /// `base`, and the status of a base entry in a `go`.
    Based(Status),
}

/// The line for what an event answered, by the contexts in the order of their allocation.
pub fn said_of(contexts: &ContextList, reply: StepReply) -> Said
    ensures { result ≡ said_of contexts.now.ids reply }
{
    match reply {
        StepReply::Filter(Ok(filter)) => Said::Id(Word::Ok, b'f', u64::from(filter.0)),
        StepReply::Volume(Ok(volume)) => Said::Id(Word::Ok, b'v', u64::from(volume.0)),
        StepReply::Instance(Ok(instance)) => Said::Id(Word::Ok, b'i', u64::from(instance.0)),
        StepReply::Operation(Ok(operation)) => Said::Id(Word::Ok, b'o', operation.0),
        StepReply::Action(answer) => said_action(answer),
        StepReply::Done(answer) => said_done(answer),
        StepReply::Held(answer) => said_held(answer),
        StepReply::Drained(answer) => said_drained(answer),
        StepReply::Dropped(answer) => said_dropped(answer),
        StepReply::Answer(Ok(answer)) => Said::Replied(answer),
        StepReply::Context(Ok(context)) => said_context(Word::Ok, contexts, context),
        StepReply::Set(answer) => said_set(contexts, answer),
        StepReply::Old(answer) => said_old(contexts, answer),
        StepReply::Body(Ok(bytes)) => Said::Told(Word::Body, bytes),
        StepReply::Number(Ok(number)) => Said::Number(Word::Ok, number),
        StepReply::Due(answer) => said_due(contexts, answer),
        StepReply::Filter(Err(status))
        | StepReply::Volume(Err(status))
        | StepReply::Instance(Err(status))
        | StepReply::Operation(Err(status))
        | StepReply::Answer(Err(status))
        | StepReply::Context(Err(status))
        | StepReply::Body(Err(status))
        | StepReply::Number(Err(status)) => Said::Refused(status),
    }
}

/// The line for an instance that was attached.
pub fn said_attached(answer: Result<InstanceId, Status>) -> Said
    ensures { result ≡ said_new (λ i. SaidOf.Id WordOf.Ok 105 i.0) answer }
{
    match answer {
        Ok(instance) => Said::Id(Word::Ok, b'i', u64::from(instance.0)),
        Err(status) => Said::Refused(status),
    }
}

/// The line for what a worker has to do next.
pub fn said_given(answer: Result<Given, Status>) -> Said
    ensures { result ≡ said_given answer }
{
    match answer {
        Ok(Given::Pre(instance)) => Said::Id(Word::Pre, b'i', u64::from(instance.0)),
        Ok(Given::Base) => Said::Plain(Word::Base),
        Ok(Given::Post(instance, _)) => Said::Id(Word::Post, b'i', u64::from(instance.0)),
        Ok(Given::Drain(instance, _)) => Said::Id(Word::Drain, b'i', u64::from(instance.0)),
        Ok(Given::Moved) => Said::Plain(Word::Moved),
        Ok(Given::Held) => Said::Plain(Word::Held),
        Ok(Given::Done) => Said::Plain(Word::Done),
        Err(status) => Said::Refused(status),
    }
}

// The same of an action with what it lends.
fn said_action(answer: Result<Action, Status>) -> Said
    ensures { result ≡ said_given (given_after_next answer) }
{
    match answer {
        Ok(action) => said_given(Ok(Given::of(&action))),
        Err(status) => Said::Refused(status),
    }
}

/// The line for what answers nothing but how it went.
pub fn said_done(answer: Result<(), Status>) -> Said
    ensures { result ≡ said_done answer }
{
    match answer {
        Ok(()) => Said::Plain(Word::Ok),
        Err(status) => Said::Refused(status),
    }
}

// A word and a context.
fn said_context(word: Word, contexts: &ContextList, context: CtxId) -> Said
    ensures { result ≡ said_context (SaidOf.Id word 99) contexts.now.ids context }
{
    match contexts.number_of(context) {
        Some(number) => Said::Id(word, b'c', number as u64),
        None => Said::Refused(Status::NotHeld),
    }
}

fn said_set(contexts: &ContextList, answer: SetAnswer) -> Said
    ensures { result ≡ said_set contexts.now.ids answer }
{
    match answer {
        SetAnswer::Linked(None) => Said::Plain(Word::Ok),
        SetAnswer::Linked(Some(old)) => said_context(Word::Ok, contexts, old),
        SetAnswer::AlreadyDefined(None) => Said::Refused(Status::AlreadyDefined),
        SetAnswer::AlreadyDefined(Some(old)) => said_defined(contexts, old),
        SetAnswer::Refused(status) => Said::Refused(status),
    }
}

// Another context is set already.
fn said_defined(contexts: &ContextList, context: CtxId) -> Said
    ensures { result ≡ said_context SaidOf.Defined contexts.now.ids context }
{
    match contexts.number_of(context) {
        Some(number) => Said::Defined(number as u64),
        None => Said::Refused(Status::NotHeld),
    }
}

fn said_old(contexts: &ContextList, answer: Result<Option<CtxId>, Status>) -> Said
    ensures { result ≡ said_old contexts.now.ids answer }
{
    match answer {
        Ok(None) => Said::Plain(Word::Ok),
        Ok(Some(old)) => said_context(Word::Ok, contexts, old),
        Err(status) => Said::Refused(status),
    }
}

fn said_due(contexts: &ContextList, answer: Result<Option<Due>, Status>) -> Said
    ensures { result ≡ said_due contexts.now.ids answer }
{
    match answer {
        Ok(None) => Said::Plain(Word::None),
        Ok(Some(due)) => said_context(Word::Cleanup, contexts, due.id),
        Err(status) => Said::Refused(status),
    }
}

fn said_held(answer: Result<Option<OpId>, Status>) -> Said
    ensures { result ≡ said_held answer }
{
    match answer {
        Ok(None) => Said::Plain(Word::None),
        Ok(Some(operation)) => Said::Id(Word::Ok, b'o', operation.0),
        Err(status) => Said::Refused(status),
    }
}

// The operation whose completion a drain that is taken before its turn has.
fn said_drained(answer: Result<Option<(OpId, Completion)>, Status>) -> Said
    ensures { result ≡ said_drained answer }
{
    match answer {
        Ok(None) => Said::Plain(Word::None),
        Ok(Some((operation, _))) => Said::Id(Word::Drain, b'o', operation.0),
        Err(status) => Said::Refused(status),
    }
}

// The handle that a dismount closed.
fn said_dropped(answer: Result<Option<HandleId>, Status>) -> Said
    ensures { result ≡ said_dropped answer }
{
    match answer {
        Ok(None) => Said::Plain(Word::None),
        Ok(Some(handle)) => Said::Id(Word::Ok, b'h', handle.0),
        Err(status) => Said::Refused(status),
    }
}

/// The line for how far a context's life has come.
pub fn said_count(count: Count) -> Said
    ensures { result ≡ said_count count }
{
    match count {
        Count::Live(number) => Said::Number(Word::Count, number),
        Count::Due => Said::Plain(Word::Due),
        Count::Cleaning => Said::Plain(Word::Cleaning),
        Count::Cleaned => Said::Plain(Word::Cleaned),
        Count::Absent => Said::Refused(Status::NotHeld),
    }
}

/// The line for how a base call returned. The status that the device answered isn't told.
pub fn said_called(answer: Result<Status, Status>) -> Said
    ensures { result ≡ said_new (λ status. SaidOf.Plain WordOf.Ok) answer }
{
    match answer {
        Ok(_) => Said::Plain(Word::Ok),
        Err(status) => Said::Refused(status),
    }
}

/// The line for an instance's phase.
pub fn said_phase(phase: Option<Phase>) -> Said
    ensures { result ≡ said_phase phase }
{
    match phase {
        Some(phase) => Said::Plain(phase_word(phase)),
        None => Said::Refused(Status::NoInstance),
    }
}

// The word for an instance's phase.
fn phase_word(phase: Phase) -> Word
    ensures { result ≡ phase_word phase }
{
    match phase {
        Phase::Setup => Word::Setup,
        Phase::Attached => Word::Attached,
        Phase::Stopping => Word::Stopping,
        Phase::Completing => Word::Completing,
        Phase::Emptying => Word::Emptying,
        Phase::Detached => Word::Detached,
    }
}

impl Word {
    // How it is spelled.
    fn text(self) -> &'static [u8]
        ensures { result.now ≡ word_text self }
    {
        match self {
            Word::Ok => b"ok",
            Word::Pre => b"pre",
            Word::Base => b"base",
            Word::Post => b"post",
            Word::Drain => b"drain",
            Word::Moved => b"moved",
            Word::Held => b"held",
            Word::Done => b"done",
            Word::Body => b"body",
            Word::Cleanup => b"cleanup",
            Word::None => b"none",
            Word::Count => b"count",
            Word::Due => b"due",
            Word::Cleaning => b"cleaning",
            Word::Cleaned => b"cleaned",
            Word::Setup => b"setup",
            Word::Attached => b"attached",
            Word::Stopping => b"stopping",
            Word::Completing => b"completing",
            Word::Emptying => b"emptying",
            Word::Detached => b"detached",
            Word::Flight => b"flight",
            Word::Leaks => b"leaks",
            Word::Failures => b"failures",
        }
    }
}

impl Said {
    /// The line for a preoperation that asks for its postoperation, and hands on a number alone.
    pub fn asks(instance: InstanceId, number: u64) -> Said
        ensures { result ≡ SaidOf.Answered instance.0 (PreVerdict.WithCallback (numbered number)) }
    {
        let completion = Completion {
            number,
            context: None,
        };
        Said::Answered(u64::from(instance.0), PreVerdict::WithCallback(completion))
    }

    /// The line for a postoperation that returns.
    pub fn returns(instance: InstanceId) -> Said
        ensures { result ≡ SaidOf.Id WordOf.Post 105 instance.0 }
    {
        Said::Id(Word::Post, b'i', u64::from(instance.0))
    }

    /// Appends the line, with its line feed. It fails if there is no memory for it, and never if there is room for it already; then the text may end with a
    /// beginning of the line.
    #[inline(never)]
    #[tactic(auto, using(crate::proofs::Lengths::fed_at_once))]
    pub fn print(&self, text: &mut Vec<u8>) -> Result<(), AllocError>
        ensures appends { IfOk result (λ _. text.new.items ≡ text_with text.old.items self.now) }
        ensures full { IfErr result (λ _. vec_capacity text.old < length (text_with text.old.items self.now)) }
        ensures room { vec_capacity text.old ≤ vec_capacity text.new }
    {
        match self {
            // most lines, at once
            Said::Plain(Word::Ok) => text.extend_from_slice(b"ok\n"),
            _ => self.print_any(text),
        }
    }

    #[inline(never)]
    fn print_any(&self, text: &mut Vec<u8>) -> Result<(), AllocError>
        ensures appends { IfOk result (λ _. text.new.items ≡ text_with text.old.items self.now) }
        ensures full { IfErr result (λ _. vec_capacity text.old < length (text_with text.old.items self.now)) }
        ensures room { vec_capacity text.old ≤ vec_capacity text.new }
    {
        match self {
            Said::Plain(word) => text.extend_from_slice(word.text())?,
            Said::Id(word, letter, number) => {
                text.extend_from_slice(word.text())?;
                text.push(b' ')?;
                text.push(*letter)?;
                print_number(text, *number)?;
            }
            Said::Number(word, number) => {
                text.extend_from_slice(word.text())?;
                text.push(b' ')?;
                print_number(text, *number)?;
            }
            Said::Refused(status) => print_refusal(text, *status)?,
            Said::Defined(number) => {
                text.extend_from_slice(b"no 22 c")?;
                print_number(text, *number)?;
            }
            Said::Told(word, bytes) => {
                text.extend_from_slice(word.text())?;
                text.push(b' ')?;
                write_hex(text, bytes.as_slice())?;
            }
            Said::Replied(answer) => print_reply(text, answer)?,
            Said::Answered(instance, verdict) => {
                text.extend_from_slice(b"pre i")?;
                print_number(text, *instance)?;
                print_verdict(text, *verdict)?;
            }
            Said::Based(status) => {
                text.extend_from_slice(b"base ")?;
                print_number(text, u64::from(status.number()))?;
            }
        }
        text.push(b'\n')?;
        Ok(())
    }
}

// Appends a number of two digits.
fn print_pair(text: &mut Vec<u8>, number: u8) -> Result<(), AllocError>
    requires above { 10 ≤ number }
    requires below { number < 100 }
    ensures appends { IfOk result (λ _. text.new.items ≡ text.old.items ++ decimal number) }
    ensures full { IfErr result (λ _. vec_capacity text.old < length (text.old.items ++ decimal number)) }
    ensures room { vec_capacity text.old ≤ vec_capacity text.new }
{
    text.push(b'0' + number / 10)?;
    text.push(b'0' + number % 10)?;
    Ok(())
}

// Appends a number. Most have one digit or two, which are made where they stand.
fn print_number(text: &mut Vec<u8>, number: u64) -> Result<(), AllocError>
    ensures appends { IfOk result (λ _. text.new.items ≡ text.old.items ++ decimal number) }
    ensures full { IfErr result (λ _. vec_capacity text.old < length (text.old.items ++ decimal number)) }
    ensures room { vec_capacity text.old ≤ vec_capacity text.new }
{
    if number < 10 {
        text.push(b'0' + number as u8)?;
        return Ok(());
    }
    if number < 100 {
        return print_pair(text, number as u8);
    }
    let mut buffer = itoa::Buffer::new();
    text.extend_from_slice(buffer.format(number).as_bytes())
}

fn print_refusal(text: &mut Vec<u8>, status: Status) -> Result<(), AllocError>
    ensures appends { IfOk result (λ _. text.new.items ≡ refused_text text.old.items status) }
    ensures full { IfErr result (λ _. vec_capacity text.old < length (refused_text text.old.items status)) }
    ensures room { vec_capacity text.old ≤ vec_capacity text.new }
{
    text.extend_from_slice(b"no ")?;
    print_number(text, u64::from(status.number()))?;
    if let Status::Busy(count) = status {
        text.push(b' ')?;
        print_number(text, count)?;
    }
    Ok(())
}

fn print_verdict(text: &mut Vec<u8>, verdict: PreVerdict) -> Result<(), AllocError>
    ensures appends { IfOk result (λ _. text.new.items ≡ verdict_text text.old.items verdict) }
    ensures full { IfErr result (λ _. vec_capacity text.old < length (verdict_text text.old.items verdict)) }
    ensures room { vec_capacity text.old ≤ vec_capacity text.new }
{
    match verdict {
        PreVerdict::WithCallback(_) => text.extend_from_slice(b" with"),
        PreVerdict::Synchronize(_) => text.extend_from_slice(b" sync"),
        PreVerdict::NoCallback => text.extend_from_slice(b" none"),
        PreVerdict::Complete(status) => {
            text.extend_from_slice(b" complete ")?;
            print_number(text, u64::from(status.number()))
        }
        PreVerdict::Pending => text.extend_from_slice(b" pend"),
    }
}

fn print_reply(text: &mut Vec<u8>, answer: &Answer) -> Result<(), AllocError>
    ensures appends { IfOk result (λ _. text.new.items ≡ reply_text text.old.items answer.now) }
    ensures full { IfErr result (λ _. vec_capacity text.old < length (reply_text text.old.items answer.now)) }
    ensures room { vec_capacity text.old ≤ vec_capacity text.new }
{
    text.extend_from_slice(b"reply ")?;
    print_number(text, u64::from(answer.status.number()))?;
    text.push(b' ')?;
    print_number(text, answer.information)?;
    text.push(b' ')?;
    write_hex(text, answer.bytes.as_slice())
}
