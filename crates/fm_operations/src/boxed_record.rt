//! An operation on the heap.

ghost use Rattle.std.specs.Prelude.{◌≡◌, IfOk};
ghost use Rattle.std.specs.Borrow.{Lends, sem};
ghost use Rattle.fm_operations.specs.contracts.boxed_record.BoxedRecord.{the_row as boxed_row};
ghost use Rattle.fm_operations.specs.contracts.operation_record.OperationRecord.{the_row as record_row};

use crate::operation_record::OperationRecord;
use std::alloc::{AllocError, Global};
use std::marker::Model;

/// An operation that stays where it is while others come and go: only the handle to it moves.
#[derive(Drop)]
pub(crate) struct BoxedRecord {
    record: Box<OperationRecord>,
}

impl Model for BoxedRecord {
    ghost use Rattle.fm_operations.specs.Record.{FlowRecord};

    ghost Value = { FlowRecord };

    ghost view = { λ b. b.record.value };
}

impl BoxedRecord {
    /// Puts an operation on the heap.
    pub(crate) fn new(alloc: Global, operation: OperationRecord) -> Result<BoxedRecord, AllocError>
        ensures { IfOk result (λ b. b ≡ operation) }
    {
        let record = Box::new(alloc, operation)?;
        Ok(BoxedRecord { record })
    }

    /// The operation.
    pub(crate) fn as_ref(&self) -> &OperationRecord
        ensures { result.now ≡ self.now }
    {
        &self.record
    }

    /// The operation, for its next step.
    pub(crate) fn as_mut(&mut self) -> &mut OperationRecord
        ensures* lends { sem 𝓛 (Lends boxed_row record_row self.entry result (λ w. w)) }
        ensures value { result.now ≡ self.old }
    {
        &mut self.record
    }

    /// Takes the operation off the heap.
    pub(crate) fn into_record(self) -> OperationRecord
        ensures { result ≡ self }
    {
        Box::into_inner(self.record)
    }
}
