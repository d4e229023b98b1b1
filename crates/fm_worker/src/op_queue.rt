//! Operations that wait to be carried on.

ghost use Rattle.std.specs.Prelude.{◌≡◌, [], IfOk, IfErr, drop, length, nat_le, slice_get};
ghost use Rattle.std.specs.List.{list_any};
ghost use Rattle.fm_worker.specs.OpQueues.{is_number, put_in};

use fm_types::limits::OPERATIONS;
use fm_types::{OpId, Status};
use std::alloc::Global;
use std::collections::VecDeque;
use std::marker::Model;

/// The numbers of operations that wait to be carried on, each once, in the order in which they came; 256 at most. Its memory is taken once.
#[derive(Drop)]
pub struct OpQueue {
    numbers: VecDeque<OpId>,
}

impl Model for OpQueue {
    ghost use Rattle.std.specs.Prelude.{List};
    ghost use Rattle.std.specs.VecDeque.{deque_capacity};
    ghost use Rattle.fm_types.specs.declared.ids.OpId.{OpId};
    ghost use Rattle.fm_worker.specs.OpQueues.{IsOpQueue};

    ghost Value = { List OpId };

    ghost view = { λ queue. queue.numbers.items };

    ghost invariant = { λ queue. IsOpQueue queue.numbers.items (deque_capacity queue.numbers) };
}

fn is_number(number: OpId, other: OpId) -> bool
    ensures { result ≡ is_number number other }
{
    number.0 == other.0
}

impl OpQueue {
    /// An empty one. Refused with 1 alone, if memory is refused.
    pub fn new(alloc: Global) -> Result<OpQueue, Status>
        ensures empty { IfOk result (λ queue. queue ≡ []) }
        ensures memory { IfErr result (λ status. status ≡ Status.NoMemory) }
    {
        match VecDeque::with_capacity(alloc, OPERATIONS) {
            Ok(numbers) => Ok(OpQueue { numbers }),
            Err(_) => Err(Status::NoMemory),
        }
    }

    /// How many operations are there.
    pub fn len(&self) -> usize
        ensures { result ≡ length self.now }
    {
        self.numbers.len()
    }

    /// Whether an operation is there.
    pub fn has(&self, operation: OpId) -> bool
        ensures { result ≡ list_any (is_number operation) self.now }
    {
        self.numbers
            .iter()
            .any(|number| is_number(operation, *number))
    }

    /// Whether there is no place for one more.
    pub fn is_full(&self) -> bool
        ensures { result ≡ nat_le 256 (length self.now) }
    {
        self.numbers.len() >= OPERATIONS
    }

    /// Puts an operation after the others, unless it is there or no place is free: then nothing changes.
    #[tactic(auto, using(crate::proofs::Once::once_put))]
    pub fn put(&mut self, operation: OpId)
        ensures { self.new ≡ put_in operation self.old }
    {
        if !self.has(operation) && !self.is_full() {
            let _ = self.numbers.push_back(operation);
        }
    }

    /// The operation that was put longest ago.
    pub fn first(&self) -> Option<OpId>
        ensures { result ≡ slice_get self.now 0 }
    {
        self.numbers.get(0).copied()
    }

    /// Takes the operation that was put longest ago.
    pub fn take(&mut self) -> Option<OpId>
        ensures first { result ≡ slice_get self.old 0 }
        ensures rest { self.new ≡ drop 1 self.old }
    {
        self.numbers.pop_front()
    }
}
