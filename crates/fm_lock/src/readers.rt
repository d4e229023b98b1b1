//! What can be read of the state that the lock keeps. The lock is held for each call alone: what was read may have changed since.

use crate::hand::Hand;
use crate::manager::Manager;
use fm_core::State;
use fm_ctx::Count;
use fm_stack::{FilterPhase, Phase, VolumePhase};
use fm_types::{
    ContextKind, CtxId, FilterId, HandleId, InstanceId, OpId, Status, VolumeId, WorkerId,
};
use fm_world::About;
use std::sync::Wait;
use std::sync::ledger::Ledger;

impl<F: Drop, L: Ledger> Manager<F, L> {
    /// Reads the state by a function that is lent it, while the lock is held.
    pub fn read<R: Wait, T, E: FnOnce(&State) -> T>(&self, rt: &R, look: E) -> T
        requires { E.IsAlwaysCallable look }
    {
        look(self.locked(rt).state())
    }

    /// What the callback that the hand's worker is in is called for (`FLT_RELATED_OBJECTS`). It answers as the State does: 30, 1. While the callback runs it
    /// can't change.
    pub fn about<R: Wait>(&self, rt: &R, hand: &Hand<L>) -> Result<About, Status> {
        let worker = hand.worker();
        self.read(rt, |state| state.about(worker))
    }

    /// How many filters were registered: the ids given out are those below.
    pub fn filters<R: Wait>(&self, rt: &R) -> usize {
        self.read(rt, |state| state.filters())
    }

    /// How many instances were attached: the ids given out are those below.
    pub fn instances<R: Wait>(&self, rt: &R) -> usize {
        self.read(rt, |state| state.instances())
    }

    /// How many operations were begun: the numbers given out are those below.
    pub fn operations_begun<R: Wait>(&self, rt: &R) -> u64 {
        self.read(rt, |state| state.operations_begun())
    }

    /// How many handles were given: the numbers given out are those below.
    pub fn handles_given<R: Wait>(&self, rt: &R) -> u64 {
        self.read(rt, |state| state.handles_given())
    }

    /// How many handles are open.
    pub fn handles<R: Wait>(&self, rt: &R) -> usize {
        self.read(rt, |state| state.handles())
    }

    /// The handle that an operation is on, or that a create has given; none where it has none.
    pub fn handle_of<R: Wait>(&self, rt: &R, operation: OpId) -> Option<HandleId> {
        self.read(rt, |state| state.handle_of(operation))
    }

    /// Whether an operation is done; none where it isn't there. Its answer may have been handed out already, while a drain of it runs.
    pub fn is_done<R: Wait>(&self, rt: &R, operation: OpId) -> Option<bool> {
        self.read(rt, |state| state.is_done(operation))
    }

    /// The worker that alone would be given the operation's next postoperation, if there is one.
    pub fn sync_worker<R: Wait>(&self, rt: &R, operation: OpId) -> Option<WorkerId> {
        self.read(rt, |state| state.sync_worker(operation))
    }

    /// How far the life of an instance has come; none where it isn't there.
    pub fn phase<R: Wait>(&self, rt: &R, instance: InstanceId) -> Option<Phase> {
        self.read(rt, |state| state.phase(instance))
    }

    /// How far the life of a filter has come; none where it isn't there.
    pub fn filter_phase<R: Wait>(&self, rt: &R, filter: FilterId) -> Option<FilterPhase> {
        self.read(rt, |state| state.filter_phase(filter))
    }

    /// How far the life of a volume has come; none where it isn't there.
    pub fn volume_phase<R: Wait>(&self, rt: &R, volume: VolumeId) -> Option<VolumePhase> {
        self.read(rt, |state| state.volume_phase(volume))
    }

    /// Whose instance it is; none where it isn't there.
    pub fn filter_of<R: Wait>(&self, rt: &R, instance: InstanceId) -> Option<FilterId> {
        self.read(rt, |state| state.filter_of(instance))
    }

    /// The volume that an instance is attached to; none where it isn't there.
    pub fn volume_of<R: Wait>(&self, rt: &R, instance: InstanceId) -> Option<VolumeId> {
        self.read(rt, |state| state.volume_of(instance))
    }

    /// How many operations are in flight at an instance.
    pub fn in_flight<R: Wait>(&self, rt: &R, instance: InstanceId) -> u64 {
        self.read(rt, |state| state.in_flight(instance))
    }

    /// Whether a preoperation or a postoperation of an instance runs in some worker, which may still answer that the instance holds its operation.
    pub fn may_hold<R: Wait>(&self, rt: &R, instance: InstanceId) -> bool {
        self.read(rt, |state| state.may_hold(instance))
    }

    /// The context at that place among those that a worker's last callback left behind, if it left so many.
    pub fn left_at<R: Wait>(&self, rt: &R, worker: WorkerId, place: usize) -> Option<CtxId> {
        self.read(rt, |state| state.left(worker).get(place).copied())
    }

    /// How many references a worker holds.
    pub fn hand_len<R: Wait>(&self, rt: &R, worker: WorkerId) -> usize {
        self.read(rt, |state| state.hand_len(worker))
    }

    /// How far a context's life has come.
    pub fn count<R: Wait>(&self, rt: &R, context: CtxId) -> Count {
        self.read(rt, |state| state.count(context))
    }

    /// Of which kind a context is, if it isn't cleaned.
    pub fn kind_of<R: Wait>(&self, rt: &R, context: CtxId) -> Option<ContextKind> {
        self.read(rt, |state| state.kind_of(context))
    }

    /// What a filter's cleanup callbacks returned in all, modulo 2^64.
    pub fn total<R: Wait>(&self, rt: &R, filter: FilterId) -> u64 {
        self.read(rt, |state| state.total(filter))
    }

    /// How many references callbacks left behind.
    pub fn leaks<R: Wait>(&self, rt: &R) -> u64 {
        self.read(rt, |state| state.leaks())
    }

    /// How many contexts were allocated.
    pub fn born<R: Wait>(&self, rt: &R) -> u64 {
        self.read(rt, |state| state.born())
    }

    /// How many contexts were cleaned up.
    pub fn cleaned_count<R: Wait>(&self, rt: &R) -> u64 {
        self.read(rt, |state| state.cleaned_count())
    }

    /// How much is left of the manager's life: operations, open handles, instances that aren't Detached, contexts that aren't cleaned up.
    pub fn busy<R: Wait>(&self, rt: &R) -> u64 {
        self.read(rt, |state| state.busy())
    }
}
