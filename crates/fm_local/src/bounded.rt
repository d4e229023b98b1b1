//! Queues that take their memory once.

ghost use Rattle.std.specs.Prelude.{◌≡◌, ◌⊎◌, ◌↔◌, ◌<◌, ◌≤◌, ◌+◌, ◌-◌, ◌^◌, ◌++◌, ◌∷◌, [], IfOk, IsTrue, cond, drop, length, min, nat_le, slice_get};
ghost use Rattle.std.specs.VecDeque.{deque_capacity};
ghost use Rattle.fm_local.specs.Waits.{is_among};

use fm_types::OpId;
use std::alloc::{AllocError, Global};
use std::collections::VecDeque;

/// A queue of a bounded length, whose room is taken when it is made. It keeps no limit beside that capacity: so `put` can say that nothing is lost while there is
/// room.
#[derive(Drop)]
pub struct Bounded<T> {
    items: VecDeque<T>,
    dropped: u64,
}

impl<T: Copy> Bounded<T> {
    /// An empty queue for at most `limit` items. It fails where there is no memory for them.
    pub fn new(alloc: Global, limit: usize) -> Result<Bounded<T>, AllocError>
        ensures empty { IfOk result (λ queue. queue.items.items ≡ []) }
        ensures room { IfOk result (λ queue. limit ≤ deque_capacity queue.items) }
        ensures whole { IfOk result (λ queue. queue.dropped ≡ 0) }
    {
        let items = VecDeque::with_capacity(alloc, limit)?;
        Ok(Bounded { items, dropped: 0 })
    }

    /// How many items wait.
    pub fn len(&self) -> usize
        ensures { result ≡ length self.now.items.items }
    {
        self.items.len()
    }

    /// Whether none waits.
    pub fn is_empty(&self) -> bool
        ensures { IsTrue result ↔ (self.now.items.items ≡ []) }
    {
        self.items.is_empty()
    }

    /// How many items went since the queue was made or cleared, because there was no room for the next one.
    pub fn dropped(&self) -> u64
        ensures { result ≡ self.now.dropped }
    {
        self.dropped
    }

    /// Whether there is no room for one more.
    pub fn is_full(&self) -> bool
        ensures { result ≡ nat_le (deque_capacity self.now.items) (length self.now.items.items) }
    {
        self.items.len() >= self.items.capacity()
    }

    /// The item at that place, the one put longest ago first.
    pub fn get(&self, place: usize) -> Option<T>
        ensures { result ≡ slice_get self.now.items.items place }
    {
        self.items.get(place).copied()
    }

    /// Puts an item behind the others; where there is no room it goes in the place of the one put longest ago.
    pub fn put(&mut self, item: T)
        ensures counted { self.new.dropped ≡ cond (nat_le (deque_capacity self.old.items) (length self.old.items.items)) (min (self.old.dropped + 1) (2 ^ 64 - 1)) self.old.dropped }
        ensures room { length self.old.items.items < deque_capacity self.old.items → self.new.items.items ≡ self.old.items.items ++ item ∷ [] }
        ensures full { 0 < deque_capacity self.old.items → deque_capacity self.old.items ≤ length self.old.items.items → self.new.items.items ≡ drop 1 self.old.items.items ++ item ∷ [] }
        ensures any { (self.new.items.items ≡ self.old.items.items ++ item ∷ []) ⊎ (self.new.items.items ≡ drop 1 self.old.items.items ++ item ∷ []) ⊎ (self.new.items.items ≡ drop 1 self.old.items.items) }
    {
        if self.is_full() {
            let _ = self.items.pop_front();
            self.dropped = self.dropped.saturating_add(1);
        }
        let _ = self.items.push_back(item);
    }

    /// Takes the item put longest ago.
    pub fn take(&mut self) -> Option<T>
        ensures counted { self.new.dropped ≡ self.old.dropped }
        ensures first { result ≡ slice_get self.old.items.items 0 }
        ensures rest { self.new.items.items ≡ drop 1 self.old.items.items }
    {
        self.items.pop_front()
    }

    /// Takes all items away.
    pub fn clear(&mut self)
        ensures empty { self.new.items.items ≡ [] }
        ensures whole { self.new.dropped ≡ 0 }
    {
        self.items.clear();
        self.dropped = 0;
    }
}

impl Bounded<OpId> {
    /// Whether that operation waits.
    pub fn has(&self, operation: OpId) -> bool
        ensures { result ≡ is_among operation self.now.items.items }
    {
        self.items.contains(&operation)
    }
}
