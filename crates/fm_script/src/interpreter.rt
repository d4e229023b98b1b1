//! What a script drives: the manager's state with what its workers were lent, the devices below, and what the script itself keeps.

mod go;
mod perform;
mod read;

ghost use Rattle.std.specs.Prelude.{◌≡◌, IfErr, IfOk, MatchResult, OnErr, OnOk};
ghost use Rattle.fm_session.specs.Sessions.{LendsNext, LentPreReturns, LentPostReturns, LentBaseReturns};
ghost use Rattle.fm_script.specs.Devices.{Calls};
ghost use Rattle.fm_script.specs.Scripts.{IsFirst};
ghost use Rattle.fm_script.specs.Runs.{AttachesAndAccepts, Fails, KeepsLists, MakesEvent, Plans, Stays, BySession, is_allocation, planned};

use crate::context_list::ContextList;
use crate::devices::Devices;
use crate::verdict_command::WITH;
use fm_altitude::Altitude;
use fm_callback_data::{PostVerdict, PreVerdict};
use fm_core::{Entry, State, Step, StepReply};
use fm_session::{Given, Session};
use fm_types::{FilterId, InstanceId, Name, OpId, Status, VolumeId, WorkerId};
use std::alloc::{AllocError, Global};

/// The worker that attaches for the command `attach`.
const ATTACHER: WorkerId = WorkerId(0);

/// What a script drives, and what it keeps beside it.
#[derive(Drop)]
pub struct Interpreter {
    session: Session,
    devices: Devices,
    plans: Vec<PreVerdict>,
    contexts: ContextList,
}

impl Interpreter {
    /// An interpreter that has run nothing. It is 1 (NoMemory) where there is no memory for it.
    pub fn new(alloc: Global) -> Result<Self, Status>
        ensures first { IfOk result IsFirst }
        ensures memory { IfErr result (λ status. status ≡ Status.NoMemory) }
    {
        let devices = Devices::new(alloc)?;
        let session = Session::new(alloc)?;
        Ok(Interpreter {
            session,
            devices,
            plans: Vec::new(alloc),
            contexts: ContextList::new(alloc),
        })
    }

    /// The manager's state, to be read.
    pub fn state(&self) -> &State
        ensures { result.now ≡ self.now.session.world }
    {
        self.session.state()
    }

    /// The contexts in the order of their allocation.
    pub fn contexts(&self) -> &ContextList
        ensures { result.now ≡ self.now.contexts }
    {
        &self.contexts
    }

    /// How many device calls failed.
    pub fn failures(&self) -> u64
        ensures { result ≡ self.now.devices.failures }
    {
        self.devices.failures()
    }

    /// How many device calls were made.
    pub fn calls(&self) -> u64
        ensures { result ≡ self.now.devices.calls }
    {
        self.devices.calls()
    }

    /// Makes one event, and notes the context that it allocates. It fails, nothing changed, where there is no memory for the note.
    pub fn event(&mut self, step: Step) -> Result<StepReply, AllocError>
        ensures { MatchResult result (λ reply. MakesEvent self.old step reply self.new) (λ _. Stays self.old self.new) }
    {
        if !is_allocation(&step) {
            return Ok(self.session.step(step));
        }
        self.contexts.reserve()?;
        let reply = self.session.step(step);
        if let StepReply::Context(Ok(context)) = &reply {
            self.contexts.push(*context);
        }
        Ok(reply)
    }

    /// Worker 0 attaches an instance, and accepts its setup.
    pub fn attach(
        &mut self,
        filter: FilterId,
        volume: VolumeId,
        name: Name,
        altitude: Altitude,
    ) -> Result<InstanceId, Status>
        ensures attaches { AttachesAndAccepts self.old.session.world filter volume name altitude result self.new.session.world }
        ensures lent { self.new.session.lent ≡ self.old.session.lent }
        ensures rest { BySession self.old self.new }
    {
        let instance = self
            .session
            .attach(ATTACHER, filter, volume, name, altitude)?;
        self.session.setup_done(ATTACHER, true)?;
        Ok(instance)
    }

    /// A worker takes the operation's next step.
    pub fn next(&mut self, worker: WorkerId, operation: OpId) -> Result<Given, Status>
        ensures event { LendsNext self.old.session worker operation result self.new.session }
        ensures rest { BySession self.old self.new }
    {
        self.session.next(worker, operation)
    }

    /// The worker's preoperation callback returns.
    pub fn pre(&mut self, worker: WorkerId, verdict: PreVerdict) -> Result<(), Status>
        ensures event { LentPreReturns self.old.session worker verdict result self.new.session }
        ensures rest { BySession self.old self.new }
    {
        self.session.pre_returned(worker, verdict)
    }

    /// The worker's base call is carried out by the devices, and returns with the status that they answered.
    pub fn base(&mut self, worker: WorkerId) -> Result<Status, Status>
        ensures event { LentBaseReturns Calls self.old.session self.old.devices worker result self.new.session self.new.devices }
        ensures lists { KeepsLists self.old self.new }
    {
        self.session.call_base(worker, &mut self.devices)
    }

    /// The worker's postoperation callback or drain returns.
    pub fn post(&mut self, worker: WorkerId, verdict: PostVerdict) -> Result<(), Status>
        ensures event { LentPostReturns self.old.session worker verdict result self.new.session }
        ensures rest { BySession self.old self.new }
    {
        self.session.post_returned(worker, verdict)
    }

    /// What `go` answers for the instance from here on. It fails, nothing changed, where there is no memory for it.
    pub fn plan(&mut self, instance: InstanceId, verdict: PreVerdict) -> Result<(), AllocError>
        ensures ok { OnOk result (Plans self.old instance verdict self.new) }
        ensures err { OnErr result (Stays self.old self.new) }
    {
        let at = usize::from(instance.0);
        if at >= self.plans.len() {
            self.plans.resize(at + 1, WITH)?;
        }
        self.plans[at] = verdict;
        Ok(())
    }

    /// What `go` answers for the instance: at first that the operation goes on and comes back.
    pub fn planned(&self, instance: InstanceId) -> PreVerdict
        ensures { result ≡ planned self.now.plans.items instance }
    {
        match self.plans.get(usize::from(instance.0)) {
            Some(plan) => *plan,
            None => WITH,
        }
    }

    /// The device call of that number will fail. It fails itself, nothing changed, where there is no memory for it.
    pub fn fail(&mut self, number: u64) -> Result<(), AllocError>
        ensures ok { OnOk result (Fails self.old number self.new) }
        ensures err { OnErr result (Stays self.old self.new) }
    {
        self.devices.fail(number)
    }

    /// The status of the base's entry that `next` has just made without a call, if it made one.
    pub fn known(&self, operation: OpId) -> Option<Status> {
        match self.session.state().trace(operation)?.last() {
            Some(Entry::Base(status, _)) => Some(*status),
            _ => None,
        }
    }
}

fn is_allocation(step: &Step) -> bool
    ensures { result ≡ is_allocation step.now }
{
    matches!(step, Step::Allocate { .. })
}
