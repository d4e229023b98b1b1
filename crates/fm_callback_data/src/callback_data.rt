//! Callback data: what a filter's callback is given, may read and may change, and hands back.

ghost use Rattle.std.specs.Prelude.{◌≡◌, ℕ, ◌<◌, ◌≤◌, ◌↔◌, Option, Some, None, List, [], length, IsOk, IfOk, OnOk, OnErr, IsTrue, IsSome, slice_set};
ghost use Rattle.fm_callback_data.specs.Params.{is_within_limits, fit, may_replace};
ghost use Rattle.fm_callback_data.specs.Data.{IsData, current_of, fresh_data, change_passes, data_fits, replaced_in};

use crate::answer::Answer;
use crate::params::Params;
use fm_types::limits::TRANSFER;
use fm_types::{Bytes, Operation, SharedPath, Status};
use std::alloc::{AllocError, Global};
use std::marker::Model;
use std::mem;

/// What one callback is given (`FLT_CALLBACK_DATA`): the operation's parameters, which a change
/// leaves as they were received, and the answer so far. It is lent and given back as one pointer.
/// Only `new` takes memory.
#[derive(Drop)]
pub struct CallbackData {
    parts: Box<Parts>,
}

impl Model for CallbackData {
    ghost use Rattle.fm_callback_data.specs.Data.{Data, IsData, data_of};

    ghost Value = { Data };

    ghost view = { λ d. data_of d.parts.value };

    ghost invariant = { λ d. IsData (data_of d.parts.value) };
}

// What callback data consists of: what the callback received, what it put in its place, and the answer.
#[derive(Drop)]
struct Parts {
    received: Params,
    changed: Option<Params>,
    answer: Answer,
}

// Nothing answered.
fn no_answer(alloc: Global) -> Answer
    ensures { result ≡ record { status = Status.Success; information = 0; bytes = [] } }
{
    Answer {
        status: Status::Success,
        information: 0,
        bytes: Bytes::new(alloc),
    }
}

impl CallbackData {
    /// The data for a preoperation callback: these parameters, and nothing answered yet
    /// (`FltAllocateCallbackData`). The parameters have to be within the limits. The error says that
    /// memory was refused.
    pub fn new(alloc: Global, params: Params) -> Result<Self, AllocError>
        requires { IsTrue (is_within_limits params) }
        ensures { IfOk result (λ fresh. fresh ≡ fresh_data params) }
    {
        let parts = Parts {
            received: params,
            changed: None,
            answer: no_answer(alloc),
        };
        Ok(CallbackData {
            parts: Box::new(alloc, parts)?,
        })
    }

    /// The parameters as they are now: the changed ones, or else those received.
    pub fn params(&self) -> &Params
        ensures { result.now ≡ current_of self.now }
    {
        match &self.parts.changed {
            Some(params) => params,
            None => &self.parts.received,
        }
    }

    /// The parameters as the callback received them.
    pub fn received(&self) -> &Params
        ensures { result.now ≡ self.now.received }
    {
        &self.parts.received
    }

    /// Whether the parameters were changed (`FltIsCallbackDataDirty`).
    pub fn is_dirty(&self) -> bool
        ensures { IsTrue result ↔ IsSome self.now.changed }
    {
        self.parts.changed.is_some()
    }

    /// Puts other parameters in place of those received, which are kept, and marks the data dirty
    /// (`FltSetCallbackDataDirty`). Refused with 32, nothing changed, for parameters of another
    /// operation, on another path of a create, or past a limit.
    pub fn change(&mut self, params: Params) -> Result<(), Status>
        ensures accepted { IsOk result ↔ IsTrue (may_replace self.old.received params) }
        ensures ok { OnOk result (self.new ≡ record self.old { changed = Some params }) }
        ensures refused { OnErr result (result ≡ Err Status.BadRequest) }
        ensures err { OnErr result (self.new ≡ self.old) }
    {
        if !params.may_replace(&self.parts.received) {
            return Err(Status::BadRequest);
        }
        self.parts.changed = Some(params);
        Ok(())
    }

    /// The status of the answer so far (`IoStatus.Status`).
    pub fn status(&self) -> Status
        ensures { result ≡ self.now.status }
    {
        self.parts.answer.status
    }

    /// The number of the answer so far (`IoStatus.Information`).
    pub fn information(&self) -> u64
        ensures { result ≡ self.now.information }
    {
        self.parts.answer.information
    }

    /// The bytes of the answer so far.
    pub fn out_bytes(&self) -> &[u8]
        ensures { result.now ≡ self.now.out }
    {
        self.parts.answer.bytes.as_slice()
    }

    /// Puts that status and number in the answer; its bytes stay. It is for postoperations: what a
    /// preoperation puts here is never the answer, since its `Complete` brings a status of its own. Of a
    /// create, a cleanup and a close no postoperation changes the answer: what it puts here is dropped.
    pub fn set_status(&mut self, status: Status, information: u64)
        ensures { self.new ≡ record self.old { status = status; information = information } }
    {
        self.parts.answer.status = status;
        self.parts.answer.information = information;
    }

    /// Puts those bytes in the answer; its status and number stay. Refused with 32, nothing changed,
    /// above 32,768 bytes.
    pub fn set_out(&mut self, bytes: Bytes) -> Result<(), Status>
        ensures accepted { IsOk result ↔ (length bytes ≤ 32768) }
        ensures ok { OnOk result (self.new ≡ record self.old { out = bytes }) }
        ensures refused { OnErr result (result ≡ Err Status.BadRequest) }
        ensures err { OnErr result (self.new ≡ self.old) }
    {
        if bytes.len() as u64 > TRANSFER {
            return Err(Status::BadRequest);
        }
        self.parts.answer.bytes = bytes;
        Ok(())
    }

    /// Puts a byte at a place of the answer's bytes. Refused with 32, nothing changed, past their end.
    pub fn map_out(&mut self, place: usize, byte: u8) -> Result<(), Status>
        ensures accepted { IsOk result ↔ (place < length self.old.out) }
        ensures ok { OnOk result (self.new ≡ record self.old { out = slice_set self.old.out place byte }) }
        ensures refused { OnErr result (result ≡ Err Status.BadRequest) }
        ensures err { OnErr result (self.new ≡ self.old) }
    {
        if place >= self.parts.answer.bytes.len() {
            return Err(Status::BadRequest);
        }
        self.parts.answer.bytes.set(place, byte);
        Ok(())
    }

    /// Whether a callback of such an operation may hand this back: what it received and what it put
    /// in its place are parameters of that operation, a create's on that path.
    pub fn fits(&self, operation: Operation, path: &Option<SharedPath>) -> bool
        ensures { result ≡ data_fits operation path.now self.now }
    {
        self.parts.received.fit(operation, path)
            && self.has_fitting_change(operation, path)
            && self.parts.answer.bytes.len() as u64 <= TRANSFER
    }

    fn has_fitting_change(&self, operation: Operation, path: &Option<SharedPath>) -> bool
        ensures { result ≡ change_passes (fit operation path.now) self.now.changed }
    {
        match &self.parts.changed {
            Some(params) => params.fit(operation, path),
            None => true,
        }
    }

    /// What a preoperation callback put in place of what it received is what the next one receives, and nothing is answered any more
    /// (`FltReuseCallbackData`). Gives what it received, where it put something in its place.
    pub fn settle(&mut self, alloc: Global) -> Option<Params>
        ensures replaced { result ≡ replaced_in self.old }
        ensures after { self.new ≡ fresh_data (current_of self.old) }
    {
        self.parts.answer = no_answer(alloc);
        let params = self.parts.changed.take()?;
        Some(mem::replace(&mut self.parts.received, params))
    }

    /// Takes the answer out, and drops what a postoperation callback put in place of what it received.
    pub fn take_answer(&mut self, alloc: Global) -> Answer
        ensures answer { result ≡ record { status = self.old.status; information = self.old.information; bytes = self.old.out } }
        ensures after { self.new ≡ fresh_data self.old.received }
    {
        self.parts.changed = None;
        mem::replace(&mut self.parts.answer, no_answer(alloc))
    }

    /// Puts an answer in, of at most 32,768 bytes, for a postoperation callback.
    pub fn put_answer(&mut self, answer: Answer)
        requires { length answer.bytes ≤ 32768 }
        ensures { self.new ≡ record self.old { status = answer.status; information = answer.information; out = answer.bytes } }
    {
        self.parts.answer = answer;
    }

    /// Puts other parameters there for the next callback, and gives those that were there. Data that a callback changed isn't given other parameters so.
    pub fn receive(&mut self, params: Params) -> Params
        requires limits { IsTrue (is_within_limits params) }
        requires bare { self.old.changed ≡ None }
        ensures before { result ≡ self.old.received }
        ensures after { self.new ≡ record self.old { received = params } }
    {
        mem::replace(&mut self.parts.received, params)
    }

    /// The laws of all callback data, for callers that rest on them. It does nothing.
    pub fn laws(&self)
        ensures { IsData self.now }
    {
        let _ = &self.parts;
    }
}
