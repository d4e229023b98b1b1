//! What an operation is on, and what an answer to it makes of streams, handles and the links to them.

ghost use Rattle.std.specs.Prelude.{◌≡◌};
ghost use Rattle.fm_world.specs.Events.{is_created_on};
ghost use Rattle.fm_world.specs.Files.{after_pre};
ghost use Rattle.fm_core.specs.Lost.{Sweeping, handle_lost, torn, stream_lost, file_lost, is_lost, is_lost_of};
ghost use Rattle.fm_core.specs.Targets.{HasRoom, answered, decided, known_in, target_in, is_completed_create};

use crate::caller::is_there;
use crate::files::Files;
use fm_ctx::{Contexts, Object};
use fm_operations::{Below, Flow, FlowAction, OperationRecord, PreState};
use fm_types::{HandleId, Operation, Role, Status, StreamId};

/// What an operation is, and which stream and handle it is on (`FLT_RELATED_OBJECTS`).
#[derive(Clone, Copy)]
pub(crate) struct Target {
    pub operation: Operation,
    pub stream: Option<StreamId>,
    pub handle: Option<HandleId>,
}

/// What the operation of a record is on.
pub(crate) fn target_of(operation: &OperationRecord) -> Target
    ensures { result ≡ target_in operation.now }
{
    Target {
        operation: operation.operation(),
        stream: operation.stream(),
        handle: operation.handle(),
    }
}

/// The base's answer that `next` recorded without a call, if it did so.
pub(crate) fn known_in(action: &FlowAction, below: Below) -> Option<Status>
    ensures { result ≡ known_in action.now below }
{
    match action {
        FlowAction::Moved => match below {
            Below::Known(status) => Some(status),
            Below::Instance(_, _) | Below::Call => None,
        },
        _ => None,
    }
}

/// Whether a create of an operation's stream is under way.
fn is_created_on(flow: &Flow, stream: Option<StreamId>) -> bool
    ensures { result ≡ is_created_on stream flow.now }
{
    match stream {
        Some(stream) => flow.has_create_on(stream),
        None => false,
    }
}

/// The base answered an operation: a handle is given or closes, a stream is marked or torn down, and the contexts that are
/// set on what is gone by then lose their links (`FltDeleteStreamContext`, `FltDeleteStreamHandleContext` on each).
pub(crate) fn note_answer(
    files: &mut Files,
    contexts: &mut Contexts,
    flow: &Flow,
    target: Target,
    status: Status,
)
    requires { HasRoom files.old.table target status }
    ensures files { files.new.table ≡ answered flow.now status target files.old.table }
    ensures links { Sweeping (is_lost_of files.new.table target) contexts.old contexts.new }
{
    let is_created = is_created_on(flow, target.stream);
    files.answer(target, status, is_created);
    unlink_lost(contexts, files, target);
}

/// A filter gave its verdict on an operation: a create that it completed leaves its stream, and the contexts that are set
/// on it lose their links where it is torn down.
pub(crate) fn note_verdict(
    files: &mut Files,
    contexts: &mut Contexts,
    flow: &Flow,
    target: Target,
    state: PreState,
)
    ensures files { files.new.table ≡ decided flow.now state target files.old.table }
    ensures links { Sweeping (is_lost_of files.new.table target) contexts.old contexts.new }
{
    let is_created = is_created_on(flow, target.stream);
    leave_completed(files, state, target, is_created);
    unlink_lost(contexts, files, target);
}

fn leave_completed(files: &mut Files, state: PreState, target: Target, is_created: bool)
    ensures { files.new.table ≡ after_pre state target.operation target.stream is_created files.old.table }
{
    if is_completed_create(state, target.operation) {
        if let Some(stream) = target.stream {
            files.leave(stream, is_created);
        }
    }
}

fn is_completed_create(state: PreState, operation: Operation) -> bool
    ensures { result ≡ is_completed_create state operation }
{
    matches!(state, PreState::Completed(_)) && matches!(operation, Operation::Create)
}

/// The handle that an answer to an operation may have closed.
fn handle_lost(target: Target) -> Option<Object>
    ensures { result ≡ handle_lost target }
{
    match target.operation.role() {
        Role::Closes => Some(Object::Handle(target.handle?)),
        Role::Opens | Role::Uses | Role::Marks | Role::Unmarks | Role::CleansUp => None,
    }
}

/// The stream that an answer to an operation may have torn down.
fn torn(target: Target) -> Option<StreamId>
    ensures { result ≡ torn target }
{
    match target.operation.role() {
        Role::Opens | Role::Closes => target.stream,
        Role::Uses | Role::Marks | Role::Unmarks | Role::CleansUp => None,
    }
}

fn stream_lost(target: Target) -> Option<Object>
    ensures { result ≡ stream_lost target }
{
    Some(Object::Stream(torn(target)?))
}

/// The file of that stream, which goes with it.
fn file_lost(target: Target) -> Option<Object>
    ensures { result ≡ file_lost target }
{
    Some(Object::File(torn(target)?))
}

fn unlink_if_gone(contexts: &mut Contexts, files: &Files, object: Option<Object>)
    ensures { Sweeping (is_lost files.now.table object) contexts.old contexts.new }
{
    if let Some(object) = object {
        if !is_there(files, object) {
            contexts.unlink_object(object);
        }
    }
}

/// The contexts that are set on what an answer to an operation took away lose their links.
fn unlink_lost(contexts: &mut Contexts, files: &Files, target: Target)
    ensures { Sweeping (is_lost_of files.now.table target) contexts.old contexts.new }
{
    unlink_if_gone(contexts, files, handle_lost(target));
    unlink_if_gone(contexts, files, stream_lost(target));
    unlink_if_gone(contexts, files, file_lost(target));
}
