//! Where workers are, what a place says, and where an event puts a worker.

ghost use Rattle.std.specs.Prelude.{◌≡◌, Ok, option_map};
ghost use Rattle.fm_ctx.specs.declared.due.Due.{Due as DueContext};
ghost use Rattle.fm_world.specs.ContextEvents.{after_due};
ghost use Rattle.fm_world.specs.Workers.{put, after_attach, after_entering, after_next, cleanup_in};
ghost use Rattle.fm_core.specs.Places.{setup_of, pre_of, base_of, post_of, drain_of, early_drain_of, query_of, start_of, complete_of, is_routine, unload_of};

use fm_ctx::Due;
use fm_operations::FlowAction;
use fm_types::{CtxId, FilterId, InstanceId, OpId, Status, WorkerId};
use fm_world::Place;

/// The instance whose setup callback it is.
pub(crate) fn setup_of(place: Option<Place>) -> Option<InstanceId>
    ensures { result ≡ setup_of place }
{
    match place? {
        Place::Setup(instance) => Some(instance),
        _ => None,
    }
}

/// The operation and the instance whose preoperation it is.
pub(crate) fn pre_of(place: Option<Place>) -> Option<(OpId, InstanceId)>
    ensures { result ≡ pre_of place }
{
    match place? {
        Place::Pre(operation, instance) => Some((operation, instance)),
        _ => None,
    }
}

/// The operation whose base call it is.
pub(crate) fn base_of(place: Option<Place>) -> Option<OpId>
    ensures { result ≡ base_of place }
{
    match place? {
        Place::Base(operation) => Some(operation),
        _ => None,
    }
}

/// The operation and the instance whose postoperation it is.
pub(crate) fn post_of(place: Option<Place>) -> Option<(OpId, InstanceId)>
    ensures { result ≡ post_of place }
{
    match place? {
        Place::Post(operation, instance) => Some((operation, instance)),
        _ => None,
    }
}

/// The operation and the instance whose drain it is.
pub(crate) fn drain_of(place: Option<Place>) -> Option<(OpId, InstanceId)>
    ensures { result ≡ drain_of place }
{
    match place? {
        Place::Drain(operation, instance) => Some((operation, instance)),
        _ => None,
    }
}

/// The operation and the instance whose drain before its turn it is.
pub(crate) fn early_drain_of(place: Option<Place>) -> Option<(OpId, InstanceId)>
    ensures { result ≡ early_drain_of place }
{
    match place? {
        Place::EarlyDrain(operation, instance) => Some((operation, instance)),
        _ => None,
    }
}

/// The instance that it is a query of.
pub(crate) fn query_of(place: Option<Place>) -> Option<InstanceId>
    ensures { result ≡ query_of place }
{
    match place? {
        Place::Query(instance) => Some(instance),
        _ => None,
    }
}

/// The instance whose teardown-start callback it is.
pub(crate) fn start_of(place: Option<Place>) -> Option<InstanceId>
    ensures { result ≡ start_of place }
{
    match place? {
        Place::Start(instance) => Some(instance),
        _ => None,
    }
}

/// The instance whose teardown-complete callback it is.
pub(crate) fn complete_of(place: Option<Place>) -> Option<InstanceId>
    ensures { result ≡ complete_of place }
{
    match place? {
        Place::Complete(instance) => Some(instance),
        _ => None,
    }
}

/// Whether it is a routine of an instance.
pub(crate) fn is_routine(place: Option<Place>) -> bool
    ensures { result ≡ is_routine place }
{
    matches!(place, Some(Place::Routine(_, _)))
}

/// The filter whose unload callback it is.
pub(crate) fn unload_of(place: Option<Place>) -> Option<FilterId>
    ensures { result ≡ unload_of place }
{
    match place? {
        Place::Unload(filter) => Some(filter),
        _ => None,
    }
}

/// The context whose cleanup callback it is.
pub(crate) fn cleanup_of(place: Option<Place>) -> Option<CtxId>
    ensures { result ≡ cleanup_in place }
{
    match place? {
        Place::Cleanup(context) => Some(context),
        _ => None,
    }
}

/// Puts a worker somewhere; nothing happens where there is no such worker.
pub(crate) fn put(workers: &mut [Place], worker: WorkerId, place: Place)
    ensures { workers.new ≡ put workers.old worker place }
{
    let at = worker.0 as usize;
    if at < workers.len() {
        workers[at] = place;
    }
}

/// After an attach: where it succeeded, the worker is in the new instance's setup callback.
pub(crate) fn note_attach(
    workers: &mut [Place],
    worker: WorkerId,
    answer: &Result<InstanceId, Status>,
)
    ensures { workers.new ≡ after_attach workers.old worker answer.now }
{
    match answer {
        Ok(instance) => put(workers, worker, Place::Setup(*instance)),
        Err(_) => {}
    }
}

/// After an event that begins a callback: where it succeeded, the worker is in it.
pub(crate) fn note_entering(
    workers: &mut [Place],
    worker: WorkerId,
    place: Place,
    answer: &Result<(), Status>,
)
    ensures { workers.new ≡ after_entering workers.old worker place answer.now }
{
    if answer.is_ok() {
        put(workers, worker, place);
    }
}

/// After a `next`: the worker is inside the callback or the call that it was given, if it was.
pub(crate) fn note_next(
    workers: &mut [Place],
    worker: WorkerId,
    operation: OpId,
    action: &FlowAction,
)
    ensures { workers.new ≡ after_next workers.old worker operation (Ok action.now) }
{
    match action {
        FlowAction::Pre(instance, _) => put(workers, worker, Place::Pre(operation, *instance)),
        FlowAction::Base(_) => put(workers, worker, Place::Base(operation)),
        FlowAction::Post(instance, _, _) => put(workers, worker, Place::Post(operation, *instance)),
        FlowAction::Drain(instance, _) => put(workers, worker, Place::Drain(operation, *instance)),
        FlowAction::Moved | FlowAction::Held | FlowAction::Done => {}
    }
}

/// After a context was taken: the worker is in its cleanup callback.
pub(crate) fn note_due(workers: &mut [Place], worker: WorkerId, due: &Option<Due>)
    ensures { workers.new ≡ after_due workers.old worker (option_map (λ (d : DueContext). d.id) due.now) }
{
    match due {
        Some(due) => put(workers, worker, Place::Cleanup(due.id)),
        None => {}
    }
}
