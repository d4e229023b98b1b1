//! Whose callback a worker is in, and what follows from it for contexts: who owns them, and what they are set on.

ghost use Rattle.std.specs.Prelude.{◌≡◌, ◌<◌, Some, None, IfSome, IfNone, option_map, slice_get};
ghost use Rattle.fm_world.specs.ContextEvents.{callback_of};
ghost use Rattle.fm_world.specs.Links.{is_there};
ghost use Rattle.fm_world.specs.Workers.{worker_at};
ghost use Rattle.fm_world.specs.Owners.{instance_in, operation_in, place_in, file_object, file_of};
ghost use Rattle.fm_core.specs.Callers.{caller_of, owner_for, object_for, has_kind_at, is_closing_at};

use crate::files::Files;
use crate::state::State;
use fm_ctx::{Object, Owner};
use fm_operations::Flow;
use fm_stack::{Phase, Stack, VolumePhase};
use fm_types::{ContextKind, FilterId, HandleId, InstanceId, OpId, StreamId, VolumeId, WorkerId};
use fm_world::{FileObject, Place};

/// An instance in one of whose callbacks or routines a worker is.
#[derive(Clone, Copy, Debug, PartialEq, Eq)]
pub(crate) struct Caller {
    pub(crate) instance: InstanceId,
    pub(crate) filter: FilterId,
    pub(crate) volume: VolumeId,
    /// The file that the callback's operation, or the routine, is on.
    pub(crate) file: Option<FileObject>,
}

impl Caller {
    /// Who owns a context that it allocates: its filter owns volume contexts, it itself all others.
    pub(crate) fn owner(self, kind: ContextKind) -> Owner
        ensures { result ≡ owner_for self kind }
    {
        match kind {
            ContextKind::Volume => Owner::Filter(self.filter),
            _ => Owner::Instance(self.instance),
        }
    }

    /// What it sets contexts of that kind on, if there is such an object.
    pub(crate) fn object(self, kind: ContextKind) -> Option<Object>
        ensures { result ≡ object_for self kind }
    {
        match kind {
            ContextKind::Volume => Some(Object::Volume(self.volume)),
            ContextKind::Instance => Some(Object::Instance(self.instance)),
            ContextKind::Stream => Some(Object::Stream(self.file?.stream)),
            ContextKind::Handle => Some(Object::Handle(self.file?.handle)),
            ContextKind::File => Some(Object::File(self.file?.stream)),
        }
    }
}

/// The instance whose callback or routine it is.
pub(crate) fn instance_in(place: Place) -> Option<InstanceId>
    ensures { result ≡ instance_in place }
{
    match place {
        Place::Setup(instance)
        | Place::Pre(_, instance)
        | Place::Post(_, instance)
        | Place::Drain(_, instance)
        | Place::EarlyDrain(_, instance)
        | Place::Query(instance)
        | Place::Start(instance)
        | Place::Complete(instance)
        | Place::Routine(instance, _) => Some(instance),
        Place::Idle | Place::Base(_) | Place::Cleanup(_) | Place::Unload(_) => None,
    }
}

/// The operation whose callback it is.
pub(crate) fn operation_in(place: Place) -> Option<OpId>
    ensures { result ≡ operation_in place }
{
    match place {
        Place::Pre(operation, _)
        | Place::Post(operation, _)
        | Place::Drain(operation, _)
        | Place::EarlyDrain(operation, _) => Some(operation),
        Place::Idle
        | Place::Setup(_)
        | Place::Base(_)
        | Place::Cleanup(_)
        | Place::Query(_)
        | Place::Start(_)
        | Place::Complete(_)
        | Place::Routine(_, _)
        | Place::Unload(_) => None,
    }
}

fn file_object(stream: Option<StreamId>, handle: Option<HandleId>) -> Option<FileObject>
    ensures { result ≡ file_object stream handle }
{
    let stream = stream?;
    let handle = handle?;
    Some(FileObject { stream, handle })
}

// The file that the callback's operation is on.
fn file_of(flow: &Flow, place: Place) -> Option<FileObject>
    ensures { result ≡ file_of flow.now (Some place) }
{
    if let Place::Routine(_, file) = place {
        return file;
    }
    let record = flow.record(operation_in(place)?)?;
    file_object(record.stream(), record.handle())
}

/// Whether an object that a context may be set on is there: streams are torn down, and handles close.
pub(crate) fn is_there(files: &Files, object: Object) -> bool
    ensures { result ≡ is_there files.now.table (Some object) }
{
    match object {
        Object::Volume(_) | Object::Instance(_) => true,
        Object::Stream(stream) | Object::File(stream) => files.stream(stream).is_some(),
        Object::Handle(handle) => files.handle(handle).is_some(),
    }
}

/// Whether the filter of an instance registered that kind of context.
pub(crate) fn has_kind(stack: &Stack, instance: InstanceId, kind: ContextKind) -> bool
    ensures { result ≡ has_kind_at stack.now (slice_get stack.now.instances instance.0) kind }
{
    match stack.registration_of(instance) {
        Some(registration) => registration.contexts.has(kind),
        None => false,
    }
}

/// Whether nothing more may be set there: the instance is torn down, or its volume is dismounted.
pub(crate) fn is_closing(stack: &Stack, instance: InstanceId) -> bool
    ensures { result ≡ is_closing_at stack.now (slice_get stack.now.instances instance.0) }
{
    let Some(phase) = stack.phase(instance) else {
        return true;
    };
    let Some(volume) = stack.volume_of(instance) else {
        return true;
    };
    let is_open = matches!(phase, Phase::Setup | Phase::Attached);
    let is_mounted = matches!(stack.volume_phase(volume), Some(VolumePhase::Mounted));
    !is_open || !is_mounted
}

impl State {
    /// The instance in one of whose callbacks the worker is.
    pub(crate) fn instance_of(&self, worker: WorkerId) -> Option<InstanceId>
        ensures { result ≡ place_in (worker_at self.now.workers worker) }
    {
        instance_in(self.place(worker)?)
    }

    /// Whose callback the worker is in.
    pub(crate) fn caller(&self, worker: WorkerId) -> Option<Caller>
        ensures callback { result ≡ option_map caller_of (callback_of self.now worker) }
        ensures none { IfNone result (callback_of self.now worker ≡ None) }
        ensures within { IfSome result (λ _. worker.0 < 48) }
    {
        let place = self.place(worker)?;
        let instance = instance_in(place)?;
        let filter = self.stack.filter_of(instance)?;
        let volume = self.stack.volume_of(instance)?;
        Some(Caller {
            instance,
            filter,
            volume,
            file: file_of(&self.flow, place),
        })
    }
}
