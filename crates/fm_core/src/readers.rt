//! What can be read of a State without changing it.

ghost use Rattle.fm_ctx.specs.Bags.{left_of};
ghost use Rattle.std.specs.Prelude.{◌≡◌, length, nat_lt, slice_get, slice_index_or, option_map, option_and_then, option_copied};
ghost use Rattle.std.specs.List.{list_any};
ghost use Rattle.fm_ctx.specs.Bags.{hand_of};
ghost use Rattle.fm_ctx.specs.Counting.{born, cleaned_count, count_reply};
ghost use Rattle.fm_ctx.specs.Table.{kind_at};
ghost use Rattle.fm_world.specs.World.{carries};
ghost use Rattle.fm_core.specs.Places.{may_hold};
ghost use Rattle.fm_stack.specs.declared.filter.Filter.{Filter};
ghost use Rattle.fm_stack.specs.declared.instance.Instance.{Instance};
ghost use Rattle.fm_stack.specs.declared.volume.Volume.{Volume};
ghost use Rattle.fm_operations.specs.Record.{FlowRecord};
ghost use Rattle.fm_operations.specs.Steps.{is_done};
ghost use Rattle.fm_operations.specs.Table.{operation_at, in_flight};

use crate::state::State;
use fm_ctx::Count;
use fm_operations::Entry;
use fm_stack::{FilterPhase, Phase, VolumePhase};
use fm_types::limits::WORKERS;
use fm_types::{ContextKind, CtxId, FilterId, HandleId, InstanceId, OpId, VolumeId, WorkerId};
use fm_world::Place;

// Whether a worker in that place may still say that the instance holds an operation.
fn may_hold(instance: InstanceId, place: Place) -> bool
    ensures { result ≡ may_hold instance place }
{
    match place {
        Place::Pre(_, other) | Place::Post(_, other) => other.0 == instance.0,
        _ => false,
    }
}

impl State {
    /// How many filters were registered: the ids given out are those below.
    pub fn filters(&self) -> usize
        ensures { result ≡ length self.now.stack.filters }
    {
        self.stack.filters()
    }

    /// The handle that an operation is on, or that a create has given; none where it has none.
    pub fn handle_of(&self, operation: OpId) -> Option<HandleId>
        ensures { result ≡ option_and_then (λ (r : FlowRecord). r.handle) (operation_at operation self.now.flow) }
    {
        match self.flow.record(operation) {
            Some(record) => record.handle(),
            None => None,
        }
    }

    /// How many handles are open.
    pub fn handles(&self) -> usize
        ensures { result ≡ length self.now.files.handles }
    {
        self.files.handles()
    }

    /// How many instances were attached: the ids given out are those below.
    pub fn instances(&self) -> usize
        ensures { result ≡ length self.now.stack.instances }
    {
        self.stack.instances()
    }

    /// How far the life of an instance has come; none where it isn't there.
    pub fn phase(&self, instance: InstanceId) -> Option<Phase>
        ensures { result ≡ option_map (λ (row : Instance). row.phase) (slice_get self.now.stack.instances instance.0) }
    {
        self.stack.phase(instance)
    }

    /// How far the life of a volume has come; none where it isn't there.
    pub fn volume_phase(&self, volume: VolumeId) -> Option<VolumePhase>
        ensures { result ≡ option_map (λ (row : Volume). row.phase) (slice_get self.now.stack.volumes volume.0) }
    {
        self.stack.volume_phase(volume)
    }

    /// How many operations were begun: the numbers given out are those below.
    pub fn operations_begun(&self) -> u64
        ensures { result ≡ self.now.flow.next }
    {
        self.flow.next_number()
    }

    /// How many handles were given: the numbers given out are those below.
    pub fn handles_given(&self) -> u64
        ensures { result ≡ self.now.files.next }
    {
        self.files.next_number()
    }

    /// How far the life of a filter has come; none where it isn't there.
    pub fn filter_phase(&self, filter: FilterId) -> Option<FilterPhase>
        ensures { result ≡ option_map (λ (row : Filter). row.phase) (slice_get self.now.stack.filters filter.0) }
    {
        self.stack.filter_phase(filter)
    }

    /// Whose instance it is; none where it isn't there.
    pub fn filter_of(&self, instance: InstanceId) -> Option<FilterId>
        ensures { result ≡ option_map (λ (row : Instance). row.filter) (slice_get self.now.stack.instances instance.0) }
    {
        self.stack.filter_of(instance)
    }

    /// The volume that an instance is attached to; none where it isn't there.
    pub fn volume_of(&self, instance: InstanceId) -> Option<VolumeId>
        ensures { result ≡ option_map (λ (row : Instance). row.volume) (slice_get self.now.stack.instances instance.0) }
    {
        self.stack.volume_of(instance)
    }

    /// What happened to an operation so far, callback by callback; none where it isn't there.
    pub fn trace(&self, operation: OpId) -> Option<&[Entry]>
        ensures { option_copied result ≡ option_map (λ (r : FlowRecord). r.entries) (operation_at operation self.now.flow) }
    {
        match self.flow.record(operation) {
            Some(record) => Some(record.trace()),
            None => None,
        }
    }

    /// Whether an operation is done; none where it isn't there. Its answer may be collected then, or was already, and a drain of it still runs.
    pub fn is_done(&self, operation: OpId) -> Option<bool>
        ensures { result ≡ option_map is_done (operation_at operation self.now.flow) }
    {
        match self.flow.record(operation) {
            Some(record) => Some(record.is_done()),
            None => None,
        }
    }

    /// Whether a preoperation or a postoperation of an instance runs in some worker, which may still answer that the instance holds its operation.
    pub fn may_hold(&self, instance: InstanceId) -> bool
        ensures { result ≡ list_any (may_hold instance) self.now.workers }
    {
        self.workers.iter().any(|place| may_hold(instance, *place))
    }

    /// How many operations are in flight at an instance: a callback of it runs or holds them, or they owe it a postoperation.
    pub fn in_flight(&self, instance: InstanceId) -> u64
        ensures { result ≡ in_flight instance.0 self.now.flow }
    {
        self.flow.in_flight(instance)
    }

    /// How far a context's life has come: its reference count, one where it is linked and one for each reference that a worker holds or a completion carries;
    /// at zero, whether it is due, in cleanup or cleaned up.
    pub fn count(&self, context: CtxId) -> Count
        ensures { result ≡ count_reply (carries self.now) self.now.contexts context }
    {
        self.contexts.count(context)
    }

    /// How many references callbacks left behind; it stays at 2^64 - 1 once it is there.
    pub fn leaks(&self) -> u64
        ensures { result ≡ self.now.contexts.leaks }
    {
        self.contexts.leaks()
    }

    /// What a filter's cleanup callbacks returned in all, modulo 2^64; 0 where it isn't there.
    pub fn total(&self, filter: FilterId) -> u64
        ensures { result ≡ slice_index_or self.now.totals filter.0 0 }
    {
        match self.totals.get(filter.0 as usize) {
            Some(total) => *total,
            None => 0,
        }
    }

    /// How many references a worker holds; 0 where there is no such worker.
    pub fn hand_len(&self, worker: WorkerId) -> usize
        ensures { result ≡ length (hand_of self.now.contexts.hands worker.0) }
    {
        if (worker.0 as usize) < WORKERS {
            self.contexts.hand_len(worker)
        } else {
            0
        }
    }

    /// The reference at that place of the worker's hand, if it holds so many.
    pub fn held_at(&self, worker: WorkerId, place: usize) -> Option<CtxId>
        ensures { result ≡ slice_get (hand_of self.now.contexts.hands worker.0) place }
    {
        if (worker.0 as usize) < WORKERS {
            self.contexts.held_at(worker, place)
        } else {
            None
        }
    }

    /// Of which kind a context is, if it isn't cleaned.
    pub fn kind_of(&self, context: CtxId) -> Option<ContextKind>
        ensures { result ≡ kind_at self.now.contexts.slots context }
    {
        self.contexts.kind_of(context)
    }

    /// The contexts that were left in the worker's hand as its last callback returned, which the State released and counted as leaks, in the order of
    /// the hand; none for a worker past the 48.
    pub fn left(&self, worker: WorkerId) -> &[CtxId]
        ensures { result.now ≡ left_of self.now.contexts.left worker.0 }
    {
        self.contexts.left(worker)
    }

    /// Whether some context waits for its cleanup.
    pub fn has_due(&self) -> bool
        ensures { result ≡ nat_lt 0 (length self.now.contexts.due) }
    {
        self.contexts.has_due()
    }

    /// How many contexts were allocated.
    pub fn born(&self) -> u64
        ensures { result ≡ born self.now.contexts.slots }
    {
        self.contexts.born()
    }

    /// How many contexts were cleaned up.
    pub fn cleaned_count(&self) -> u64
        ensures { result ≡ cleaned_count self.now.contexts.slots }
    {
        self.contexts.cleaned_count()
    }
}
