//! The callbacks of filters, each between the event that enters it and the one that ends it. No lock is held while one runs.

ghost use Rattle.std.specs.Prelude.{◌≡◌};
ghost use Rattle.fm_queue.specs.Passes.{IsPassOf};
ghost use Rattle.fm_worker.specs.Between.{IsFree};
ghost use Rattle.fm_worker.specs.Ports.{RunsOnce};

use crate::hook::CallbackHook;
use crate::own::Own;
use crate::shared::WorkerShared;
use fm_callback_data::{CallbackData, Completion, PostVerdict};
use fm_device::Device;
use fm_filter::{
    Callbacks, WorkItem, ask_post, ask_pre, ask_query, ask_setup, let_go, tell_complete, tell_start,
};
use fm_types::{FilterId, InstanceId, Status};
use std::sync::Wait;
use std::sync::ledger::Ledger;

// The thread is in the callback when it ends it, so that a 30 there can't be: the thread waits for ever then. Other refusals are passed on.
impl<'a, F: Callbacks, L: Ledger, R: Wait, G: CallbackHook> WorkerShared<'a, F, L, R, G> {
    /// Calls the setup callback of a new instance. Refused as the end of that callback is.
    pub(crate) fn setup<D: Device>(
        &self,
        own: &mut Own<'a, F, L, R, D>,
        instance: InstanceId,
    ) -> Result<(), Status>
        requires pass { IsPassOf self.now.queue.now own.old.pass }
        ensures free { IsFree self.now.queue.now own.new.port.hand.held own.new.pass }
    {
        let accepts = ask_setup(self.filter_of(instance), &mut own.port);
        match self
            .manager
            .setup_done(self.rt, &mut own.port.hand, accepts)
        {
            Err(Status::WrongStep) => self.wait_forever(),
            ended => ended,
        }
    }

    /// Calls a filter's preoperation.
    pub(crate) fn pre<D: Device>(
        &self,
        own: &mut Own<'a, F, L, R, D>,
        filter: Option<&F>,
        mut lent: CallbackData,
    )
        requires pass { IsPassOf self.now.queue.now own.old.pass }
        ensures free { IsFree self.now.queue.now own.new.port.hand.held own.new.pass }
    {
        let verdict = ask_pre(filter, &mut lent, &mut own.port);
        let hand = &mut own.port.hand;
        if self
            .manager
            .pre_returned(self.rt, hand, verdict, lent)
            .is_err()
        {
            self.wait_forever();
        }
    }

    /// Calls a filter's postoperation.
    pub(crate) fn post<D: Device>(
        &self,
        own: &mut Own<'a, F, L, R, D>,
        filter: Option<&F>,
        mut lent: CallbackData,
        completion: Completion,
    )
        requires pass { IsPassOf self.now.queue.now own.old.pass }
        ensures free { IsFree self.now.queue.now own.new.port.hand.held own.new.pass }
    {
        let verdict = ask_post(filter, &mut lent, completion, &mut own.port);
        self.end_post(own, verdict, Some(lent));
    }

    /// Has a filter let go of what its completion names, in the place of its postoperation.
    pub(crate) fn drain<D: Device>(
        &self,
        own: &mut Own<'a, F, L, R, D>,
        filter: Option<&F>,
        completion: Completion,
    )
        requires pass { IsPassOf self.now.queue.now own.old.pass }
        ensures free { IsFree self.now.queue.now own.new.port.hand.held own.new.pass }
    {
        let_go(filter, completion, &mut own.port);
        self.end_post(own, PostVerdict::Finished, None);
    }

    // The end of a postoperation, or of a drain in its place.
    fn end_post<D: Device>(
        &self,
        own: &mut Own<'a, F, L, R, D>,
        verdict: PostVerdict,
        back: Option<CallbackData>,
    )
        requires pass { IsPassOf self.now.queue.now own.old.pass }
        ensures free { IsFree self.now.queue.now own.new.port.hand.held own.new.pass }
    {
        let hand = &mut own.port.hand;
        if self
            .manager
            .post_returned(self.rt, hand, verdict, back)
            .is_err()
        {
            self.wait_forever();
        }
    }

    /// Has an instance let go of what its completion names, before the operation has come to its postoperation.
    pub(crate) fn drain_early<D: Device>(
        &self,
        own: &mut Own<'a, F, L, R, D>,
        instance: InstanceId,
        completion: Completion,
    )
        requires pass { IsPassOf self.now.queue.now own.old.pass }
        ensures free { IsFree self.now.queue.now own.new.port.hand.held own.new.pass }
        ensures same { own.new.pass ≡ own.old.pass }
    {
        let_go(self.filter_of(instance), completion, &mut own.port);
        if self
            .manager
            .drain_done(self.rt, &mut own.port.hand)
            .is_err()
        {
            self.wait_forever();
        }
    }

    /// Calls the query callback of an instance. Refused as the end of that callback is.
    pub(crate) fn query<D: Device>(
        &self,
        own: &mut Own<'a, F, L, R, D>,
        instance: InstanceId,
    ) -> Result<(), Status>
        requires pass { IsPassOf self.now.queue.now own.old.pass }
        ensures free { IsFree self.now.queue.now own.new.port.hand.held own.new.pass }
    {
        let allows = ask_query(self.filter_of(instance), &mut own.port);
        match self
            .manager
            .query_returned(self.rt, &mut own.port.hand, allows)
        {
            Err(Status::WrongStep) => self.wait_forever(),
            ended => ended,
        }
    }

    /// Calls the callback that says that an instance's teardown starts.
    pub(crate) fn start<D: Device>(&self, own: &mut Own<'a, F, L, R, D>, instance: InstanceId)
        requires pass { IsPassOf self.now.queue.now own.old.pass }
        ensures free { IsFree self.now.queue.now own.new.port.hand.held own.new.pass }
        ensures same { own.new.pass ≡ own.old.pass }
    {
        tell_start(self.filter_of(instance), &mut own.port);
        if self
            .manager
            .start_returned(self.rt, &mut own.port.hand)
            .is_err()
        {
            self.wait_forever();
        }
    }

    /// Runs a work item in the routine that the thread is in.
    pub(crate) fn work<D: Device, W: WorkItem>(&self, own: &mut Own<'a, F, L, R, D>, item: &W)
        requires pass { IsPassOf self.now.queue.now own.old.pass }
        ensures free { IsFree self.now.queue.now own.new.port.hand.held own.new.pass }
        ensures works { RunsOnce own.old.port (λ port. port.resumed) (λ before after. W.works item.now before after) own.new.port.resumed }
    {
        item.run(&mut own.port);
        if self
            .manager
            .routine_returned(self.rt, &mut own.port.hand)
            .is_err()
        {
            self.wait_forever();
        }
    }

    /// Calls the callback that says that an instance's teardown is complete.
    pub(crate) fn complete<D: Device>(&self, own: &mut Own<'a, F, L, R, D>, instance: InstanceId)
        requires pass { IsPassOf self.now.queue.now own.old.pass }
        ensures free { IsFree self.now.queue.now own.new.port.hand.held own.new.pass }
    {
        tell_complete(self.filter_of(instance), &mut own.port);
        if self
            .manager
            .complete_returned(self.rt, &mut own.port.hand)
            .is_err()
        {
            self.wait_forever();
        }
    }

    /// Calls the unload callback of a filter. Refused as the end of that callback is.
    pub(crate) fn unloading<D: Device>(
        &self,
        own: &mut Own<'a, F, L, R, D>,
        filter: FilterId,
    ) -> Result<(), Status>
        requires free { IsFree self.now.queue.now own.old.port.hand.held own.old.pass }
        ensures free { IsFree self.now.queue.now own.new.port.hand.held own.new.pass }
        ensures kept { own.new.port.resumed ≡ own.old.port.resumed }
    {
        let allows = match self.manager.filter(self.rt, filter) {
            Some(filter) => filter.unload(),
            None => false,
        };
        match self
            .manager
            .unload_returned(self.rt, &mut own.port.hand, allows)
        {
            Err(Status::WrongStep) => self.wait_forever(),
            ended => ended,
        }
    }
}
