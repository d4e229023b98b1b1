//! The callbacks of filters, each between the event that enters it and the one that ends it. That no filter is under a number can't come, since `load` alone gives
//! numbers; a callback without a filter agrees to nothing, and lets operations pass.

ghost use Rattle.std.specs.Prelude.{◌≡◌, Ok};
ghost use Rattle.fm_filter.specs.Standing.{standing_of};
ghost use Rattle.fm_operations.specs.declared.action.FlowAction.TheVariants as step;
ghost use Rattle.fm_world.specs.declared.place.Place.TheVariants as place;
ghost use Rattle.fm_local.specs.Actions.{CallsBack, OnlyState, filter_at};
ghost use Rattle.fm_local.specs.Callbacks.{CallsOnly, consents, was_told};
ghost use Rattle.fm_local.specs.Calls.{MayAgree};
ghost use Rattle.fm_local.specs.Chains.{PostMay, PreMay};
ghost use Rattle.fm_local.specs.Drains.{WasCalled};
ghost use Rattle.fm_local.specs.Managers.{IsQuietIn};
ghost use Rattle.fm_local.specs.Private.{CompletesPlainly, Does, EndsComplete, EndsDrain, EndsEarlyDrain, EndsQuery, EndsSetup, EndsStart, EndsTraced, EndsUnload, EndsWithLeaks, HasCalled, LeavesApart, LetsGo, Makes, NotesLeaks, PostReturns, PreReturns, QueriesPlainly, SetsUpPlainly, StartsPlainly, StaysQuiet, filter_on};
ghost use Rattle.fm_local.specs.Waits.{StaysWaiting};

use crate::bounded::Bounded;
use crate::leak::Leak;
use crate::local_port::Work;
use crate::parts::{Parts, WORKER};
use crate::trace::{PostAnswer, PreAnswer, Traced, Visit};
use fm_base::Base;
use fm_callback_data::{CallbackData, Completion, PostVerdict, PreVerdict};
use fm_core::{Entry, Place, PreState, State};
use fm_filter::{
    Filters, Minifilter, ask_post, ask_pre, ask_query, ask_setup, let_go, tell_complete, tell_start,
};
use fm_types::{FilterId, InstanceId, OpId, Status};

/// What a filter is asked, and may decline.
#[derive(Clone, Copy)]
enum Consent {
    /// To have a new instance.
    Setup,
    /// To have an instance detached.
    Query,
}

/// What a filter is told.
#[derive(Clone, Copy)]
enum News {
    /// The teardown of an instance starts.
    Start,
    /// It is complete.
    Complete,
    /// The postoperation that it asked for with that completion won't come.
    Drain(Completion),
}

// The verdict that counts of the preoperation that was called last for an operation.
fn counted(state: &State, operation: OpId) -> Option<PreState> {
    match state.trace(operation)?.last()? {
        Entry::Pre(visit) => Some(visit.state),
        _ => None,
    }
}

impl<F: Minifilter, B: Base> Parts<F, B> {
    /// Calls the setup callback of a new instance. Refused as the end of that callback is.
    pub(crate) fn setup(&mut self, instance: InstanceId) -> Result<(), Status>
        ensures ends { EndsSetup F.Minifilter instance self.old result self.new }
        ensures quiet { SetsUpPlainly F.Minifilter instance self.old result self.new }
        ensures kept { NotesLeaks self.old self.new }
        ensures waits { StaysWaiting self.old self.new }
    {
        let accepts = ask(&self.filters, &mut self.work, instance, Consent::Setup);
        let before = self.work.state.leaks();
        let ended = self.work.state.setup_done(WORKER, accepts);
        self.note_left(before, Place::Setup(instance));
        ended
    }

    /// Calls the preoperation of an instance.
    pub(crate) fn pre(
        &mut self,
        operation: OpId,
        instance: InstanceId,
        mut lent: CallbackData,
    ) -> Result<(), Status>
        ensures does { Does F.Minifilter B.Base operation (Ok (step.Pre instance lent)) self.old self.new }
        ensures quiet { StaysQuiet F.Minifilter self.old self.new }
        ensures makes { Makes F.Minifilter B.Base operation (Ok (step.Pre instance lent)) self.old self.new }
        ensures kept { CallsBack self.old self.new }
        ensures waits { LeavesApart (place.Pre operation instance) operation self.old self.new }
    {
        let found = lent.status();
        let verdict = goes_down(&self.filters, &mut self.work, instance, &mut lent);
        lent.laws();
        self.work.state.laws();
        let callback = Place::Pre(operation, instance);
        let answer = PreAnswer {
            given: verdict,
            counted: None,
            found,
            left: lent.status(),
        };
        self.end_pre(answer, lent, callback)
    }

    // Notes what a preoperation answered, and which verdict counts, once it has returned.
    fn note_pre(&mut self, mut answer: PreAnswer, callback: Place)
        ensures { self.new ≡ record self.old { trace = self.new.trace } }
    {
        if let Place::Pre(operation, instance) = callback {
            answer.counted = counted(&self.work.state, operation);
            self.note(operation, Visit::Pre(instance, answer));
        }
    }

    // The end of a preoperation.
    fn end_pre(
        &mut self,
        answer: PreAnswer,
        back: CallbackData,
        callback: Place,
    ) -> Result<(), Status>
        ensures event { PreReturns answer.given back self.old result self.new }
        ensures kept { EndsTraced self.old self.new }
        ensures waits { StaysWaiting self.old self.new }
    {
        self.work.state.laws();
        let before = self.work.state.leaks();
        let ended = self.work.state.pre_returned(WORKER, answer.given, back);
        self.note_left(before, callback);
        self.note_pre(answer, callback);
        match ended {
            Ok(()) => Ok(()),
            Err(refused) => Err(refused.status),
        }
    }

    /// Calls the postoperation of an instance.
    pub(crate) fn post(
        &mut self,
        operation: OpId,
        instance: InstanceId,
        mut lent: CallbackData,
        completion: Completion,
    ) -> Result<(), Status>
        ensures does { Does F.Minifilter B.Base operation (Ok (step.Post instance lent completion)) self.old self.new }
        ensures quiet { StaysQuiet F.Minifilter self.old self.new }
        ensures makes { Makes F.Minifilter B.Base operation (Ok (step.Post instance lent completion)) self.old self.new }
        ensures kept { CallsBack self.old self.new }
        ensures waits { LeavesApart (place.Post operation instance) operation self.old self.new }
    {
        let found = lent.status();
        let verdict = goes_up(
            &self.filters,
            &mut self.work,
            instance,
            &mut lent,
            completion,
        );
        lent.laws();
        self.work.state.laws();
        let answer = PostAnswer {
            given: verdict,
            found,
            left: lent.status(),
        };
        self.note(operation, Visit::Post(instance, answer));
        let callback = Place::Post(operation, instance);
        self.end_post(verdict, Some(lent), callback)
    }

    // The end of a postoperation, or of a drain in its place.
    fn end_post(
        &mut self,
        verdict: PostVerdict,
        back: Option<CallbackData>,
        callback: Place,
    ) -> Result<(), Status>
        ensures event { PostReturns verdict back self.old result self.new }
        ensures kept { EndsWithLeaks self.old self.new }
        ensures waits { StaysWaiting self.old self.new }
    {
        self.work.state.laws();
        let before = self.work.state.leaks();
        let ended = self.work.state.post_returned(WORKER, verdict, back);
        self.note_left(before, callback);
        match ended {
            Ok(()) => Ok(()),
            Err(refused) => Err(refused.status),
        }
    }

    /// Has an instance let go of what its completion names: in the place of its postoperation.
    pub(crate) fn drain_next(
        &mut self,
        operation: OpId,
        instance: InstanceId,
        completion: Completion,
    ) -> Result<(), Status>
        ensures called { LetsGo F.Minifilter instance completion self.old }
        ensures ends { EndsDrain self.old result self.new }
        ensures quiet { StaysQuiet F.Minifilter self.old self.new }
        ensures kept { CallsBack self.old self.new }
        ensures waits { LeavesApart (place.Drain operation instance) operation self.old self.new }
    {
        self.drain(operation, instance, completion);
        self.work.state.laws();
        let callback = Place::Drain(operation, instance);
        self.end_post(PostVerdict::Finished, None, callback)
    }

    /// The same before the operation has come to its postoperation.
    pub(crate) fn drain_early(
        &mut self,
        operation: OpId,
        instance: InstanceId,
        completion: Completion,
    ) -> Result<(), Status>
        ensures called { LetsGo F.Minifilter instance completion self.old }
        ensures ends { EndsEarlyDrain self.old result self.new }
        ensures kept { CallsBack self.old self.new }
        ensures waits { StaysWaiting self.old self.new }
    {
        self.drain(operation, instance, completion);
        let before = self.work.state.leaks();
        let ended = self.work.state.drain_done(WORKER);
        let callback = Place::EarlyDrain(operation, instance);
        self.note_left(before, callback);
        ended
    }

    // Has the filter of an instance let go, and notes it.
    fn drain(&mut self, operation: OpId, instance: InstanceId, completion: Completion)
        ensures called { LetsGo F.Minifilter instance completion self.old }
        ensures quiet { IsQuietIn F.is_quiet (filter_at self.old instance) → self.new.work ≡ self.old.work }
        ensures far { standing_of self.new.work.state ≡ standing_of self.old.work.state }
        ensures same { self.new ≡ record self.old { work = self.new.work; trace = self.new.trace } }
        ensures waits { StaysWaiting self.old self.new }
    {
        tell(
            &self.filters,
            &mut self.work,
            instance,
            News::Drain(completion),
        );
        self.note(operation, Visit::Drain(instance));
    }

    /// Calls the query callback of an instance. Refused as the end of that callback is.
    pub(crate) fn query(&mut self, instance: InstanceId) -> Result<(), Status>
        ensures ends { EndsQuery F.Minifilter instance self.old result self.new }
        ensures quiet { QueriesPlainly F.Minifilter instance self.old result self.new }
        ensures kept { NotesLeaks self.old self.new }
        ensures waits { StaysWaiting self.old self.new }
    {
        let allows = ask(&self.filters, &mut self.work, instance, Consent::Query);
        let before = self.work.state.leaks();
        let ended = self.work.state.query_returned(WORKER, allows);
        self.note_left(before, Place::Query(instance));
        ended
    }

    /// Calls the callback that says that an instance's teardown starts, which the worker has entered.
    pub(crate) fn start(&mut self, instance: InstanceId)
        ensures called { HasCalled F.Minifilter F.started instance self.old }
        ensures ends { EndsStart instance self.old self.new }
        ensures quiet { StartsPlainly F.Minifilter instance self.old self.new }
        ensures kept { NotesLeaks self.old self.new }
        ensures waits { StaysWaiting self.old self.new }
    {
        tell(&self.filters, &mut self.work, instance, News::Start);
        let before = self.work.state.leaks();
        // The worker is in the callback, so that its end isn't refused.
        let _ = self.work.state.start_returned(WORKER);
        self.note_left(before, Place::Start(instance));
    }

    /// Calls the callback that says that an instance's teardown is complete, which the worker has entered.
    pub(crate) fn complete(&mut self, instance: InstanceId)
        ensures called { HasCalled F.Minifilter F.completed instance self.old }
        ensures ends { EndsComplete instance self.old self.new }
        ensures quiet { CompletesPlainly F.Minifilter instance self.old self.new }
        ensures kept { NotesLeaks self.old self.new }
        ensures waits { StaysWaiting self.old self.new }
    {
        tell(&self.filters, &mut self.work, instance, News::Complete);
        let before = self.work.state.leaks();
        // The worker is in the callback, so that its end isn't refused.
        let _ = self.work.state.complete_returned(WORKER);
        self.note_left(before, Place::Complete(instance));
    }

    /// Calls the unload callback of a filter. Refused as the end of that callback is.
    pub(crate) fn unloading(&mut self, filter: FilterId) -> Result<(), Status>
        ensures event { EndsUnload F.Minifilter filter self.old result self.new }
        ensures kept { OnlyState self.old self.new }
    {
        let allows = match self.filters.of(Some(filter)) {
            Some(filter) => filter.unload(),
            None => false,
        };
        self.work.state.unload_returned(WORKER, allows)
    }

    /// Notes which references a callback that returned left behind, where there are more than before.
    pub(crate) fn note_left(&mut self, before: u64, callback: Place)
        ensures { self.new ≡ record self.old { leaks = self.new.leaks } }
    {
        if self.work.state.leaks() > before {
            note_leaks(&self.work.state, &mut self.leaks, callback);
        }
    }

    /// Notes a step of an operation.
    pub(crate) fn note(&mut self, operation: OpId, visit: Visit)
        ensures { self.new ≡ record self.old { trace = self.new.trace } }
    {
        self.trace.put(Traced { operation, visit });
    }
}

// Whether the filter of an instance consents.
#[tactic(auto, using(crate::proofs::operations::FilterAnswers::agreed, crate::proofs::operations::FilterAnswers::is_quiet_found))]
fn ask<F: Minifilter>(
    filters: &Filters<F>,
    work: &mut Work,
    instance: InstanceId,
    consent: Consent,
) -> bool
    ensures said { MayAgree (consents F.setup_may F.query_may consent) (filter_on filters.now work.old instance) result }
    ensures rest { CallsOnly F.is_quiet (filter_on filters.now work.old instance) work.old work.new }
{
    let filter = filters.of(work.state.filter_of(instance));
    match consent {
        Consent::Setup => ask_setup(filter, work),
        Consent::Query => ask_query(filter, work),
    }
}

// What the filter of an instance says of the data on its way down.
#[tactic(auto, using(crate::proofs::operations::FilterAnswers::before_base, crate::proofs::operations::FilterAnswers::is_quiet_found))]
fn goes_down<F: Minifilter>(
    filters: &Filters<F>,
    work: &mut Work,
    instance: InstanceId,
    lent: &mut CallbackData,
) -> PreVerdict
    ensures said { PreMay F.pre_may (filter_on filters.now work.old instance) lent.old result lent.new }
    ensures kept { lent.new.received ≡ lent.old.received }
    ensures rest { CallsOnly F.is_quiet (filter_on filters.now work.old instance) work.old work.new }
{
    ask_pre(filters.of(work.state.filter_of(instance)), lent, work)
}

// What the filter of an instance says of the data on its way up.
#[tactic(auto, using(crate::proofs::operations::FilterAnswers::after_base, crate::proofs::operations::FilterAnswers::is_quiet_found))]
fn goes_up<F: Minifilter>(
    filters: &Filters<F>,
    work: &mut Work,
    instance: InstanceId,
    lent: &mut CallbackData,
    completion: Completion,
) -> PostVerdict
    ensures said { PostMay F.post_may (filter_on filters.now work.old instance) lent.old completion result lent.new }
    ensures kept { lent.new.received ≡ lent.old.received }
    ensures rest { CallsOnly F.is_quiet (filter_on filters.now work.old instance) work.old work.new }
{
    ask_post(
        filters.of(work.state.filter_of(instance)),
        lent,
        completion,
        work,
    )
}

// Tells the filter of an instance.
#[tactic(auto, using(crate::proofs::operations::FilterAnswers::was_told, crate::proofs::operations::FilterAnswers::is_quiet_found))]
fn tell<F: Minifilter>(filters: &Filters<F>, work: &mut Work, instance: InstanceId, news: News)
    ensures called { WasCalled (was_told F.started F.completed F.drained news) (filter_on filters.now work.old instance) }
    ensures rest { CallsOnly F.is_quiet (filter_on filters.now work.old instance) work.old work.new }
{
    let filter = filters.of(work.state.filter_of(instance));
    match news {
        News::Start => tell_start(filter, work),
        News::Complete => tell_complete(filter, work),
        News::Drain(completion) => let_go(filter, completion, work),
    }
}

// Notes what the callback that returned last left in its hand.
fn note_leaks(state: &State, leaks: &mut Bounded<Leak>, callback: Place) {
    for context in state.left(WORKER) {
        leaks.put(Leak {
            context: *context,
            kind: state.kind_of(*context),
            place: callback,
        });
    }
}
