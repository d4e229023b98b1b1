//! What lies behind a handle: a session, and a file system in memory for each of its volumes.

ghost use Rattle.std.specs.Prelude.{◌≡◌, IfErr, IfOk, slice_get};
ghost use Rattle.kazdrin_c.specs.Calls.{AnswerPut, AttachTold, BaseTold, BasedTold, ChangeTold, LentOn, Makes, NextTold, PostTold, PreTold, PutsAnswer, ReturnsAnswer, StepTold};
ghost use Rattle.kazdrin_c.specs.Counts.{counts_of, held_told, left_told};
ghost use Rattle.kazdrin_c.specs.Opened.{IsFresh};
ghost use Rattle.kazdrin_c.specs.Phases.{phase_named, phase_told};
ghost use Rattle.kazdrin_c.specs.Told.{old_told};
ghost use Rattle.kazdrin_c.specs.Named.{post_named, verdict_named};

use crate::counts::KazdrinCounts;
use crate::data::{DataGiven, KazdrinData, lent_bytes, lent_told};
use crate::event::{KazdrinEvent, post_verdict_of};
use crate::phase::{filter_code, instance_code, phase_told, volume_code};
use crate::told::{KazdrinTold, given_told, old_told, outcome, outcome_of, put_bytes, tell};
use fm_callback_data::Answer;
use fm_core::Step;
use fm_device::MemoryDevices;
use fm_session::Session;
use fm_types::{Bytes, FilterId, InstanceId, OpId, Status, VolumeId, WorkerId};
use std::alloc::Global;

/// A session with its file systems.
#[derive(Drop)]
pub struct SessionHost {
    pub alloc: Global,
    pub session: Session,
    pub devices: MemoryDevices,
}

impl SessionHost {
    /// A session before its first event, and empty file systems. Refused with 1 if memory was refused.
    pub fn new(alloc: Global) -> Result<SessionHost, Status>
        ensures new { IfOk result (λ host. IsFresh host) }
        ensures memory { IfErr result (λ status. status ≡ Status.NoMemory) }
    {
        let session = Session::new(alloc)?;
        let devices = MemoryDevices::new(alloc)?;
        Ok(SessionHost {
            alloc,
            session,
            devices,
        })
    }

    // Makes an event and tells its answer.
    fn make(&mut self, step: Step, told: &mut KazdrinTold, room: &mut [u8]) -> u32
        ensures { Makes step self.old room.old result self.new told.new room.new }
    {
        let reply = self.session.step(step);
        tell(&reply, self.session.state().has_due(), told, room);
        outcome_of(&reply)
    }

    /// The event that C names, with its answer. What names no event is refused, and nothing changes.
    pub fn step(
        &mut self,
        event: &KazdrinEvent,
        bytes: &[u8],
        told: &mut KazdrinTold,
        room: &mut [u8],
    ) -> u32
        ensures { StepTold event.now bytes.now self.old told.old room.old result self.new told.new room.new }
    {
        match event.step(self.alloc, bytes) {
            Ok(step) => self.make(step, told, room),
            Err(status) => u32::from(status.number()),
        }
    }

    /// The worker attaches the event's filter to its volume, under that name and at that altitude. A text that is no name or no altitude is refused with 3
    /// or 2, and nothing changes.
    pub fn attach(
        &mut self,
        event: &KazdrinEvent,
        name: &[u8],
        altitude: &[u8],
        told: &mut KazdrinTold,
        room: &mut [u8],
    ) -> u32
        ensures { AttachTold event.now name.now altitude.now self.old told.old room.old result self.new told.new room.new }
    {
        match event.attach(name, altitude) {
            Ok(step) => self.make(step, told, room),
            Err(status) => u32::from(status.number()),
        }
    }

    /// The worker takes the operation's next step, and is lent what it needs for it.
    pub fn next(&mut self, event: &KazdrinEvent, told: &mut KazdrinTold) -> u32
        ensures { NextTold event.now self.old told.old result self.new told.new }
    {
        let result = self
            .session
            .next(WorkerId(event.worker), OpId(event.operation));
        if let Ok(given) = &result {
            *told = given_told(given);
        }
        outcome(&result)
    }

    /// The worker's preoperation returns.
    pub fn pre_returned(&mut self, event: &KazdrinEvent) -> u32
        ensures { PreTold event.now self.old result self.new (verdict_named event.now) }
    {
        match event.verdict() {
            Some(verdict) => outcome(&self.session.pre_returned(WorkerId(event.worker), verdict)),
            None => 32,
        }
    }

    /// The worker's postoperation or drain returns.
    pub fn post_returned(&mut self, event: &KazdrinEvent) -> u32
        ensures { PostTold event.now self.old result self.new (post_named event.now.mode) }
    {
        match post_verdict_of(event.mode) {
            Some(verdict) => outcome(&self.session.post_returned(WorkerId(event.worker), verdict)),
            None => 32,
        }
    }

    /// The file systems in memory carry out the call that the worker was lent, and it returns.
    pub fn base(&mut self, event: &KazdrinEvent) -> u32
        ensures { BaseTold event.now self.old result self.new }
    {
        let worker = WorkerId(event.worker);
        outcome(&self.session.call_base(worker, &mut self.devices))
    }

    // The call of the base that the worker was lent returns with that status and those bytes.
    fn return_answer(&mut self, event: &KazdrinEvent, given: DataGiven) -> u32
        ensures { ReturnsAnswer event.now given.status given.bytes self.old result self.new }
    {
        let answer = Answer {
            status: given.status,
            information: event.offset,
            bytes: given.bytes.unwrap_or(Bytes::new(self.alloc)),
        };
        outcome(&self.session.base_answered(WorkerId(event.worker), answer))
    }

    /// C answers the call of the base that the worker was lent, and it returns: a status, a number, and bytes, if the flag says so. Refused with 32 for a
    /// number that is no status's, with 1 if memory was refused, with 30 where the worker was lent no call, and as the event refuses it: nothing changes then.
    pub fn based(&mut self, event: &KazdrinEvent, bytes: &[u8]) -> u32
        ensures { BasedTold event.now bytes.now self.old result self.new }
    {
        match event.answer(self.alloc, bytes) {
            Ok(given) => self.return_answer(event, given),
            Err(status) => u32::from(status.number()),
        }
    }

    /// What the worker was lent, for its callback to look at. Refused with 30 if there is no such worker. Nothing changes.
    pub fn lent(&self, event: &KazdrinEvent, told: &mut KazdrinData, room: &mut [u8]) -> u32
        ensures { LentOn event.now told.old room.old result told.new room.new self.now self.now }
    {
        let Some(lent) = self.session.lent(WorkerId(event.worker)) else {
            return 30;
        };
        let bytes = lent_bytes(event.is_flagged(), lent);
        put_bytes(room, bytes);
        *told = KazdrinData {
            length: bytes.len() as u64,
            ..lent_told(lent)
        };
        0
    }

    /// The callback puts the parameters that the event names in place of those that it received. Refused with 32, 15 or 1 as they are read, and as the session
    /// refuses them: nothing changes then.
    pub fn change(&mut self, event: &KazdrinEvent, bytes: &[u8]) -> u32
        ensures { ChangeTold event.now bytes.now self.old result self.new }
    {
        match event.params(self.alloc, bytes) {
            Ok(params) => {
                let put = self.session.change(WorkerId(event.worker), params);
                outcome(&put)
            }
            Err(status) => u32::from(status.number()),
        }
    }

    // Puts that status and those bytes in the answer of what the worker was lent.
    fn put_answer(&mut self, event: &KazdrinEvent, given: DataGiven) -> u32
        ensures { PutsAnswer event.now given.status given.bytes self.old result self.new }
    {
        let worker = WorkerId(event.worker);
        let put = self
            .session
            .answer(worker, given.status, event.offset, given.bytes);
        outcome(&put)
    }

    /// The callback puts a status and a number in the answer, and bytes, if the flag says so. Refused with 32 for a number that is no status's, with 1 if
    /// memory was refused, and as the session refuses it: nothing changes then.
    pub fn answer(&mut self, event: &KazdrinEvent, bytes: &[u8]) -> u32
        ensures { AnswerPut event.now bytes.now self.old result self.new }
    {
        match event.answer(self.alloc, bytes) {
            Ok(given) => self.put_answer(event, given),
            Err(status) => u32::from(status.number()),
        }
    }

    /// How many contexts were born and cleaned up, how many references callbacks left behind, and how many the worker holds: 0 if there is no such worker.
    pub fn counts(&self, event: &KazdrinEvent) -> KazdrinCounts
        ensures { result ≡ counts_of self.now.session.world event.now.worker }
    {
        let state = self.session.state();
        KazdrinCounts {
            born: state.born(),
            cleaned: state.cleaned_count(),
            leaks: state.leaks(),
            held: state.hand_len(WorkerId(event.worker)) as u64,
        }
    }

    /// The reference at that place of the worker's hand, if it holds so many.
    pub fn held_at(&self, event: &KazdrinEvent) -> KazdrinTold
        ensures { result ≡ held_told self.now.session.world event.now.worker event.now.len }
    {
        let state = self.session.state();
        old_told(state.held_at(WorkerId(event.worker), event.len as usize))
    }

    // The number of the phase of what the event names, if it is there.
    fn phase_code(&self, event: &KazdrinEvent) -> Option<u64>
        ensures { result ≡ phase_named self.now.session.world event.now event.now.mode }
    {
        let state = self.session.state();
        match event.mode {
            0 => state.phase(InstanceId(event.instance)).map(instance_code),
            1 => state.filter_phase(FilterId(event.filter)).map(filter_code),
            2 => state.volume_phase(VolumeId(event.volume)).map(volume_code),
            _ => None,
        }
    }

    /// How far the life of an instance, a filter or a volume has come: the event's mode says of which, 0, 1 or 2. Nothing is told of one that isn't there.
    pub fn phase(&self, event: &KazdrinEvent) -> KazdrinTold
        ensures { result ≡ phase_told (phase_named self.now.session.world event.now event.now.mode) }
    {
        phase_told(self.phase_code(event))
    }

    /// The context at that place among those that the worker's last callback left in its hand, if there were so many.
    pub fn left(&self, event: &KazdrinEvent) -> KazdrinTold
        ensures { result ≡ left_told self.now.session.world event.now.worker event.now.len }
    {
        let left = self.session.state().left(WorkerId(event.worker));
        old_told(left.get(event.len as usize).copied())
    }
}
