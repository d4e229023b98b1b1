//! What an operation finds on its way: the next instance below it or the base, which callbacks an instance has, and whether an instance that asked is drained.

ghost use Rattle.std.specs.Prelude.{◌≡◌, option_map, slice_get};
ghost use Rattle.fm_operations.specs.Entries.{visited};
ghost use Rattle.fm_world.specs.Descent.{cursor_of};
ghost use Rattle.fm_core.specs.Descent.{FindsAt, IsDownOrCall};
ghost use Rattle.fm_operations.specs.Creates.{is_create};
ghost use Rattle.fm_world.specs.Events.{LiesBelow, AnswersBelow, base_known, known_create, known_at, known_on, unlinks, has_pre, has_post, drains_next, is_stopping_ask};

use crate::files::Files;
use fm_operations::{Ask, Below, Flow, OperationRecord, Stage};
use fm_stack::{Phase, Stack};
use fm_types::{HandleId, InstanceId, Operation, Role, Status, StreamId};

/// Whether the filter of an instance has a callback before the operation.
pub(crate) fn has_pre(stack: &Stack, instance: InstanceId, operation: Operation) -> bool
    ensures { result ≡ has_pre stack.now (slice_get stack.now.instances instance.0) operation }
{
    match stack.registration_of(instance) {
        Some(registration) => registration.pre.has(operation),
        None => false,
    }
}

/// Whether the filter of an instance has a callback after the operation.
pub(crate) fn has_post(stack: &Stack, instance: InstanceId, operation: Operation) -> bool
    ensures { result ≡ has_post stack.now (slice_get stack.now.instances instance.0) operation }
{
    match stack.registration_of(instance) {
        Some(registration) => registration.post.has(operation),
        None => false,
    }
}

/// Whether a close of that handle unlinks the file, by a call of the base.
fn unlinks(files: &Files, flow: &Flow, stream: StreamId, handle: HandleId) -> bool
    ensures { result ≡ unlinks files.now.table flow.now stream handle }
{
    files.is_marked(stream)
        && !(files.has_other_handle(stream, handle) || flow.has_create_on(stream))
}

/// What the base answers to an operation on an open handle without a call of the device.
fn known_on(
    files: &Files,
    flow: &Flow,
    operation: Operation,
    stream: StreamId,
    handle: HandleId,
) -> Option<Status>
    ensures { result ≡ known_on files.now.table flow.now operation stream handle }
{
    match operation.role() {
        Role::Marks | Role::Unmarks | Role::CleansUp => Some(Status::Success),
        Role::Closes => {
            if unlinks(files, flow, stream, handle) {
                None
            } else {
                Some(Status::Success)
            }
        }
        Role::Opens | Role::Uses => None,
    }
}

/// The same for an operation on a handle, which may be closed by now.
fn known_at(
    files: &Files,
    flow: &Flow,
    operation: Operation,
    stream: Option<StreamId>,
    handle: Option<HandleId>,
) -> Option<Status>
    ensures { result ≡ known_at files.now.table flow.now operation stream handle }
{
    let stream = stream?;
    let handle = handle?;
    if files.handle(handle).is_none() {
        return Some(Status::NoHandle);
    }
    known_on(files, flow, operation, stream, handle)
}

/// The same for a create, whose file may be marked for deletion.
fn known_create(files: &Files, stream: Option<StreamId>) -> Option<Status>
    ensures { result ≡ known_create files.now.table stream }
{
    if files.is_marked(stream?) {
        Some(Status::DeletePending)
    } else {
        None
    }
}

/// What the base answers without a call of the device.
fn base_known(files: &Files, flow: &Flow, operation: &OperationRecord) -> Option<Status>
    ensures { result ≡ base_known files.now.table flow.now operation.now }
{
    if is_create(operation.operation()) {
        known_create(files, operation.stream())
    } else {
        known_at(
            files,
            flow,
            operation.operation(),
            operation.stream(),
            operation.handle(),
        )
    }
}

fn is_create(operation: Operation) -> bool
    ensures { result ≡ is_create operation }
{
    matches!(operation, Operation::Create)
}

/// The instance below which the next one is looked for: the one visited last, or else the one below which the operation began.
pub(crate) fn cursor(operation: &OperationRecord) -> Option<InstanceId>
    ensures { option_map (λ i. i.0) result ≡ cursor_of operation.now.below (visited operation.now.entries) }
{
    let last = operation.last_visited();
    if last.is_some() {
        last
    } else {
        operation.below()
    }
}

/// What lies below an operation: the next instance, or the base.
fn found_below(stack: &Stack, files: &Files, flow: &Flow, operation: &OperationRecord) -> Below
    ensures lies { LiesBelow stack.now operation.now result }
    ensures answers { AnswersBelow files.now.table flow.now operation.now result }
{
    match stack.next_below(
        operation.volume(),
        cursor(operation),
        operation.entries_before_last(),
        operation.born(),
        operation.operation(),
    ) {
        Some(instance) => Below::Instance(
            instance,
            has_pre(stack, instance, operation.operation()),
        ),
        None => match base_known(files, flow, operation) {
            Some(status) => Below::Known(status),
            None => Below::Call,
        },
    }
}

/// The same, where it matters: on the way down.
pub(crate) fn lies_below(
    stack: &Stack,
    files: &Files,
    flow: &Flow,
    operation: &OperationRecord,
) -> Below
    ensures finds { FindsAt stack.now files.now.table flow.now operation.now result }
    ensures down { IsDownOrCall operation.now result }
{
    match operation.stage() {
        Stage::Descending => found_below(stack, files, flow, operation),
        _ => Below::Call,
    }
}

/// Whether the instance that asked is being torn down.
pub(crate) fn is_stopping(stack: &Stack, ask: Option<Ask>) -> bool
    ensures { result ≡ is_stopping_ask stack.now ask }
{
    match ask {
        Some(ask) => matches!(stack.phase(ask.instance), Some(Phase::Stopping)),
        None => false,
    }
}

/// Whether the next postoperation of an operation is a drain.
pub(crate) fn drains_next(stack: &Stack, operation: &OperationRecord) -> bool
    ensures { result ≡ drains_next stack.now operation.now }
{
    is_stopping(stack, operation.next_owed())
}
