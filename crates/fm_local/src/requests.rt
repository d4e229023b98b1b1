//! Requests, each carried from its first callback to its reply.

ghost use Rattle.std.specs.Prelude.{◌≡◌, Ok, false};
ghost use Rattle.fm_callback_data.specs.declared.request.FileRequest.TheVariants as asked;
ghost use Rattle.fm_callback_data.specs.declared.request.Request.TheVariants as client;
ghost use Rattle.fm_operations.specs.Answered.{bare_answer};
ghost use Rattle.fm_operations.specs.declared.action.FlowAction.TheVariants as step;
ghost use Rattle.fm_local.specs.Actions.{CarriesIn, CarriesOn, CarriesOnAll, ClosesAfter, ClosesRefused, ClosesThen, GivesFinished, OnlyState, PerformsAlone, RefusesIn, RefusesOne, RepliesWith, RequestsOne, RunsAlone, RunsOn, Settles, TakesDone, closed_handle, ends_turn, goes_on, is_over, replied};
ghost use Rattle.fm_local.specs.Between.{StaysBetween};
ghost use Rattle.fm_local.specs.Offered.{AnswersAny, AnswersReady, HasNoneDue, SameAround, SameFilters, StaysOut};
ghost use Rattle.fm_local.specs.Private.{Acts, ActsApart, BaseReturns, Calls, CarriesOnOne, ClosesIn, DoneAtOnce, EndsAnswered, EndsAtOnce, GoesOn, HandsOutAnswer, Makes, PerformsIf, PerformsIn, ResumedNone, RunsIn, SameResumed, SettlesAlone, StateTraced, StaysQuiet, TakesEnded, TakesTurn, TidiesAlone, TurnsAs, TurnsOnly, WaitsFrom};
ghost use Rattle.fm_local.specs.Waits.{HandsOut, StaysApart, StaysWaiting, Waiting};

use crate::parts::{Parts, WORKER};
use crate::trace::Visit;
use fm_base::Base;
use fm_callback_data::{Answer, BaseCall, FileRequest, Reply, Request};
use fm_core::Action;
use fm_device::Device;
use fm_filter::Minifilter;
use fm_types::limits::{OPERATIONS, TURNS};
use fm_types::{Bytes, HandleId, OpId, Status};
use std::alloc::Global;

/// How many resumptions there are at most, while no request begins: 64 for each operation.
pub(crate) const RESUMPTIONS: usize = OPERATIONS * 64;

/// How a turn of an operation leaves it.
#[derive(Clone, Copy, PartialEq, Eq)]
pub(crate) enum Turn {
    /// There is more to do.
    Goes,
    /// A filter holds it.
    Held,
    /// It is done.
    Done,
}

impl<F: Minifilter, B: Base> Parts<F, B> {
    /// As `LocalManager::answer`.
    pub(crate) fn answer(&mut self, request: Request) -> Reply
        ensures fold { AnswersReady F.Minifilter B.Base request self.old result self.new }
        ensures refused { RefusesIn request self.old result self.new }
        ensures requests { AnswersAny F.Minifilter B.Base request self.old result self.new }
        ensures between { StaysBetween self.old self.new }
    {
        self.work.state.laws();
        match closed_handle(&request) {
            Some(handle) => self.close(handle),
            None => self.perform(request),
        }
    }

    /// As `LocalManager::finished`.
    pub(crate) fn finished(&mut self) -> Option<(OpId, Reply)>
        ensures first { Waiting self.old → HandsOut self.old.finished.items.items self.old result self.new }
        ensures any { GivesFinished self.old result self.new }
        ensures between { StaysBetween self.old self.new }
        ensures kept { SameAround self.old self.new }
    {
        let (operation, answer) = self.take_done()?;
        Some((operation, self.hand_out(operation, answer)))
    }

    // The first of the operations that ended, with its answer. One without an answer, which nothing here leaves, is passed over.
    fn take_done(&mut self) -> Option<(OpId, Answer)>
        ensures takes { TakesDone self.old result self.new }
        ensures kept { TakesEnded self.old self.new }
    {
        while let Some(operation) = self.finished.take() {
            if let Ok(answer) = self.work.state.collect(operation) {
                return Some((operation, answer));
            }
        }
        None
    }

    // A cleanup, and then the close.
    fn close(&mut self, handle: HandleId) -> Reply
        ensures fold { AnswersReady F.Minifilter B.Base (client.OnHandle handle asked.Close) self.old result self.new }
        ensures refused { RefusesIn (client.OnHandle handle asked.Close) self.old result self.new }
        ensures requests { AnswersAny F.Minifilter B.Base (client.OnHandle handle asked.Close) self.old result self.new }
        ensures between { StaysBetween self.old self.new }
    {
        self.work.state.laws();
        match self.work.state.begin(Request::OnHandle {
            handle,
            request: FileRequest::Cleanup,
        }) {
            Ok(cleanup) => self.close_after(cleanup, handle),
            Err(status) => self.close_where_cleaned(status, handle),
        }
    }

    // A close whose cleanup was refused: it goes on if the cleanup began before.
    fn close_where_cleaned(&mut self, refused: Status, handle: HandleId) -> Reply
        ensures does { PerformsIf F.Minifilter B.Base (is_over refused) (client.OnHandle handle asked.Close) self.old result self.new }
        ensures closes { ClosesRefused F.Minifilter B.Base WORKER TURNS RESUMPTIONS (is_over refused) refused handle self.old result self.new }
        ensures between { StaysBetween self.old self.new }
    {
        if !is_over(refused) {
            return self.refusal(refused);
        }
        self.perform(Request::OnHandle {
            handle,
            request: FileRequest::Close,
        })
    }

    // A close after its cleanup, which has begun. What callbacks of both resumed goes on after both.
    fn close_after(&mut self, cleanup: OpId, handle: HandleId) -> Reply
        ensures does { ClosesIn F.Minifilter B.Base cleanup handle self.old result self.new }
        ensures closes { ClosesAfter F.Minifilter B.Base WORKER TURNS RESUMPTIONS cleanup handle self.old result self.new }
        ensures none_due { HasNoneDue self.new }
        ensures out { StaysOut self.old self.new }
        ensures waits { WaitsFrom cleanup self.old self.new }
    {
        let cleaned = self.run_alone(cleanup);
        let reply = self.then_close(cleaned, handle);
        self.settle();
        reply
    }

    // The close, unless its cleanup was answered so that it ends there.
    fn then_close(&mut self, cleaned: Reply, handle: HandleId) -> Reply
        ensures stops { goes_on cleaned ≡ false → (result ≡ cleaned) × (self.new ≡ self.old) }
        ensures does { PerformsIf F.Minifilter B.Base (goes_on cleaned) (client.OnHandle handle asked.Close) self.old result self.new }
        ensures closes { ClosesThen F.Minifilter B.Base WORKER TURNS (goes_on cleaned) handle self.old cleaned result self.new }
        ensures out { StaysOut self.old self.new }
        ensures waits { StaysWaiting self.old self.new }
    {
        if !goes_on(&cleaned) {
            return cleaned;
        }
        self.perform_alone(Request::OnHandle {
            handle,
            request: FileRequest::Close,
        })
    }

    // One operation, from its beginning to its reply. What its callbacks resumed waits.
    fn perform_alone(&mut self, request: Request) -> Reply
        ensures does { PerformsIn F.Minifilter B.Base request self.old result self.new }
        ensures performs { PerformsAlone F.Minifilter B.Base WORKER TURNS request self.old result self.new }
        ensures out { StaysOut self.old self.new }
        ensures waits { StaysWaiting self.old self.new }
    {
        self.work.state.laws();
        match self.work.state.begin(request) {
            Ok(operation) => self.run_alone(operation),
            Err(status) => self.refusal(status),
        }
    }

    // One operation, from its beginning to its reply, with all that its callbacks resumed.
    fn perform(&mut self, request: Request) -> Reply
        ensures does { PerformsIn F.Minifilter B.Base request self.old result self.new }
        ensures refused { RefusesOne request self.old result self.new }
        ensures requests { RequestsOne F.Minifilter B.Base WORKER TURNS RESUMPTIONS request self.old result self.new }
        ensures between { StaysBetween self.old self.new }
    {
        self.work.state.laws();
        match self.work.state.begin(request) {
            Ok(operation) => self.run(operation),
            Err(status) => self.refusal(status),
        }
    }

    // An operation that began, to its reply, with all that its callbacks resumed.
    fn run(&mut self, operation: OpId) -> Reply
        ensures runs { RunsIn F.Minifilter B.Base operation self.old result self.new }
        ensures goes { RunsOn F.Minifilter B.Base WORKER TURNS RESUMPTIONS operation self.old result self.new }
        ensures none_due { HasNoneDue self.new }
        ensures out { StaysOut self.old self.new }
        ensures waits { WaitsFrom operation self.old self.new }
    {
        let reply = self.run_alone(operation);
        self.settle();
        reply
    }

    // The same without what its callbacks resumed.
    fn run_alone(&mut self, operation: OpId) -> Reply
        ensures runs { RunsIn F.Minifilter B.Base operation self.old result self.new }
        ensures goes { RunsAlone F.Minifilter B.Base WORKER TURNS operation self.old result self.new }
        ensures out { StaysOut self.old self.new }
        ensures waits { StaysApart operation self.old self.new }
    {
        let ended = self.carry(operation);
        self.reply_after(operation, ended)
    }

    // The answer of an operation whose turns ended so.
    fn reply_after(&mut self, operation: OpId, ended: Turn) -> Reply
        ensures answer { ended ≡ Turn.Done → HandsOutAnswer operation self.old result self.new }
        ensures replies { RepliesWith ended operation self.old result self.new }
        ensures kept { StateTraced self.old self.new }
        ensures out { StaysOut self.old self.new }
        ensures waits { StaysApart operation self.old self.new }
    {
        match ended {
            Turn::Done => self.reply(operation),
            Turn::Goes | Turn::Held => Reply::Held(operation),
        }
    }

    // The reply of a request that couldn't begin.
    fn refusal(&self, status: Status) -> Reply
        ensures { result ≡ replied (bare_answer status) }
    {
        Reply::Done {
            status,
            information: 0,
            bytes: Bytes::new(self.alloc),
        }
    }

    /// Hands out the answer of a done operation.
    pub(crate) fn reply(&mut self, operation: OpId) -> Reply
        ensures answer { HandsOutAnswer operation self.old result self.new }
        ensures kept { StateTraced self.old self.new }
        ensures out { StaysOut self.old self.new }
        ensures waits { StaysApart operation self.old self.new }
    {
        match self.work.state.collect(operation) {
            Ok(answer) => self.hand_out(operation, answer),
            Err(status) => self.refusal(status),
        }
    }

    // An answer as a reply, which is noted.
    fn hand_out(&mut self, operation: OpId, answer: Answer) -> Reply
        ensures reply { result ≡ replied answer }
        ensures kept { self.new ≡ record self.old { trace = self.new.trace } }
    {
        let Answer {
            status,
            information,
            bytes,
        } = answer;
        self.note(operation, Visit::Replied(status));
        Reply::Done {
            status,
            information,
            bytes,
        }
    }

    // Turn after turn of an operation, until it is done or held.
    fn carry(&mut self, operation: OpId) -> Turn
        ensures carried { CarriesIn F.Minifilter B.Base WORKER operation self.old result self.new }
        ensures quiet { StaysQuiet F.Minifilter self.old self.new }
        ensures kept { TurnsOnly self.old self.new }
        ensures at_once { DoneAtOnce operation self.old result self.new }
        ensures goes { GoesOn F.Minifilter B.Base operation self.old result self.new }
        ensures out { StaysOut self.old self.new }
        ensures waits { StaysApart operation self.old self.new }
        ensures ended { EndsAnswered operation result self.new }
    {
        for _made in 0..TURNS {
            match self.turn(operation) {
                Turn::Goes => {}
                ended => return ended,
            }
        }
        Turn::Held
    }

    /// What is next for an operation, done.
    pub(crate) fn turn(&mut self, operation: OpId) -> Turn
        ensures turned { TurnsAs F.Minifilter B.Base operation self.old result self.new }
        ensures quiet { StaysQuiet F.Minifilter self.old self.new }
        ensures kept { TurnsOnly self.old self.new }
        ensures at_once { DoneAtOnce operation self.old result self.new }
        ensures takes { TakesTurn F.Minifilter B.Base operation self.old result self.new }
        ensures out { StaysOut self.old self.new }
        ensures waits { StaysApart operation self.old self.new }
        ensures ended { EndsAnswered operation result self.new }
    {
        self.work.state.laws();
        let said = self.work.state.next(WORKER, operation);
        self.act(operation, said)
    }

    // A callback, or the call of the file system.
    fn act(&mut self, operation: OpId, said: Result<Action, Status>) -> Turn
        ensures acts { Acts F.Minifilter B.Base operation said self.old result self.new }
        ensures quiet { StaysQuiet F.Minifilter self.old self.new }
        ensures kept { TurnsOnly self.old self.new }
        ensures at_once { said ≡ Ok step.Done → (result ≡ Turn.Done) × (self.new ≡ self.old) }
        ensures ends { result ≡ ends_turn said }
        ensures makes { Makes F.Minifilter B.Base operation said self.old self.new }
        ensures waits { ActsApart operation said self.old self.new }
    {
        match said {
            Ok(Action::Pre(instance, data)) => {
                let _ = self.pre(operation, instance, data);
                Turn::Goes
            }
            Ok(Action::Base(call)) => {
                let _ = self.call(operation, call);
                Turn::Goes
            }
            Ok(Action::Post(instance, data, completion)) => {
                let _ = self.post(operation, instance, data, completion);
                Turn::Goes
            }
            Ok(Action::Drain(instance, completion)) => {
                let _ = self.drain_next(operation, instance, completion);
                Turn::Goes
            }
            Ok(Action::Moved) => Turn::Goes,
            Ok(Action::Held) => Turn::Held,
            Ok(Action::Done) => Turn::Done,
            Err(_) => Turn::Held,
        }
    }

    // Has the file system of the call's volume carry it out.
    fn call(&mut self, operation: OpId, call: BaseCall) -> Result<(), Status>
        ensures does { Calls F.Minifilter B.Base operation call self.old self.new }
        ensures quiet { SameResumed self.old self.new }
        ensures kept { self.new ≡ record self.old { work = self.new.work; bases = self.new.bases; trace = self.new.trace } }
        ensures waits { StaysWaiting self.old self.new }
    {
        let answer = self.bases.call(&call);
        self.note(operation, Visit::Base(answer.status));
        self.end_call(call, answer)
    }

    // The end of a call of the file system.
    fn end_call(&mut self, call: BaseCall, answer: Answer) -> Result<(), Status>
        ensures event { BaseReturns call answer self.old result self.new }
        ensures kept { OnlyState self.old self.new }
        ensures waits { StaysWaiting self.old self.new }
    {
        self.work.state.laws();
        match self.work.state.base_returned(WORKER, call, answer) {
            Ok(()) => Ok(()),
            Err(refused) => Err(refused.status),
        }
    }

    /// Carries on what callbacks resumed, in the order of the resumptions, and then cleans up what is due.
    pub(crate) fn settle(&mut self)
        ensures tidies { TidiesAlone self.old self.new }
        ensures carries_on { CarriesOnOne F.Minifilter B.Base self.old self.new }
        ensures kept { SettlesAlone self.old self.new }
        ensures none_due { HasNoneDue self.new }
        ensures all { Settles F.Minifilter B.Base WORKER TURNS RESUMPTIONS self.old self.new }
        ensures filters { SameFilters self.old self.new }
        ensures out { StaysOut self.old self.new }
        ensures waits { StaysWaiting self.old self.new }
    {
        self.carry_on_resumed();
        self.clean_up();
    }

    // Carries on what callbacks resumed, in the order of the resumptions; where they resumed nothing, nothing changes.
    fn carry_on_resumed(&mut self)
        ensures none { ResumedNone self.old → self.new ≡ self.old }
        ensures one { CarriesOnOne F.Minifilter B.Base self.old self.new }
        ensures all { CarriesOnAll F.Minifilter B.Base WORKER TURNS RESUMPTIONS self.old self.new }
        ensures filters { SameFilters self.old self.new }
        ensures out { StaysOut self.old self.new }
        ensures waits { StaysWaiting self.old self.new }
    {
        if self.work.resumed.is_empty() {
            return;
        }
        for _made in 0..RESUMPTIONS {
            match self.work.resumed.take() {
                Some(operation) => self.carry_on(operation),
                None => return,
            }
        }
    }

    // Carries on an operation that was resumed, and notes its end.
    fn carry_on(&mut self, operation: OpId)
        ensures at_end { EndsAtOnce operation self.old self.new }
        ensures goes { CarriesOn F.Minifilter B.Base WORKER TURNS operation self.old self.new }
        ensures filters { SameFilters self.old self.new }
        ensures out { StaysOut self.old self.new }
        ensures waits { WaitsFrom operation self.old self.new }
    {
        if let Turn::Done = self.carry(operation) {
            self.finished.put(operation);
        }
    }
}

// The handle that a request closes.
fn closed_handle(request: &Request) -> Option<HandleId>
    ensures { result ≡ closed_handle request.now }
{
    match request {
        Request::OnHandle { handle, request } => match request {
            FileRequest::Close => Some(*handle),
            _ => None,
        },
        Request::List { .. } | Request::OnVolume { .. } | Request::Create { .. } => None,
    }
}

// Whether a close goes on, if its cleanup was answered so.
fn goes_on(cleanup: &Reply) -> bool
    ensures { result ≡ goes_on cleanup.now }
{
    match cleanup {
        Reply::Done { status, .. } => is_over(*status),
        Reply::Held(_) => false,
    }
}

// Whether a cleanup that ended with that status is over: it succeeded, or began before.
fn is_over(status: Status) -> bool
    ensures { result ≡ is_over status }
{
    matches!(status, Status::Success | Status::WrongStep)
}
