//! A scenario under way.

ghost use Rattle.std.specs.Prelude.{◌≡◌, ◌≤◌, ◌++◌, ◌&&◌, ◌||◌, ◌∷◌, [], Some, None, IfOk, is_some, true};
ghost use Rattle.fm_local.specs.Offered.{ForgetsReport, HasNoReport, dropped_count, leaks, refused_calls, steps};
ghost use Rattle.fm_mistakes.specs.Accounts.{TellsAll, status_of};
ghost use Rattle.fm_mistakes.specs.Findings.{findings};
ghost use Rattle.fm_trial.specs.Scenarios.{Asks, CountsDropped, CountsUnmet, Ends, EndsAfter, EndsAs, Finishes, HandsOutAll, HandsOutNext, IsFresh, IsMetAs, Keeps, LineExpects, RepliesTo, Reports, Settles, TakesLine, hears, held_by, held_without, is_callback, is_operation, is_refused, is_set_up, tells_leaks, tests_something};

use crate::expectation::{Expectation, expected_words};
use crate::line::ScenarioLine;
use crate::line_request::LineRequest;
use crate::report::{
    TrialManager, holder_of, write_attached, write_finding, write_reply, write_told,
};
use crate::reporter::Reporter;
use fm_base::MemoryBase;
use fm_callback_data::Reply;
use fm_core::Place;
use fm_filter::Minifilter;
use fm_local::{PortCall, Visit};
use fm_local_exec::LocalExec;
use fm_mistakes::{Account, Finding, Mistake, findings, steps_of};
use fm_report::Summary;
use fm_server::status_reply;
use fm_types::limits::OPERATIONS;
use fm_types::{CtxId, InstanceId, Name, OpId, Status, VolumeId};
use fm_wire::{Body, Control};
use std::alloc::{AllocError, Global};
use std::fmt::Write;

/// The exit status of a scenario of which a line says nothing.
pub(crate) const WRONG_FILE: u8 = 2;

/// A manager of the filters, with the volume 0 in memory, and what the last request came to.
#[derive(Drop)]
pub(crate) struct Scenario<F> {
    alloc: Global,
    exec: LocalExec<F, MemoryBase>,
    reporter: Reporter,
    last: Option<Reply>,
    account: Account,
    /// How many instances were told.
    instances: usize,
    /// The operations that filters hold.
    held: Vec<OpId>,
    /// The last line that isn't empty.
    lines: usize,
    /// Whether a line asked for an operation.
    operates: bool,
    /// Whether a callback was called for one, or a line expected something.
    is_heard: bool,
    /// The line of the last request, where that is a load or an attach that was refused and no line behind it expects anything.
    refused: Option<SetUpLine>,
}

/// A line that asks for a load or an attach.
#[derive(Drop)]
struct SetUpLine {
    number: usize,
    text: String,
}

impl<F: Minifilter> Scenario<F> {
    /// Before its first request, told so. Refused with 1, if memory is refused.
    pub(crate) fn new(
        alloc: Global,
        filters: Vec<(Name, F)>,
        reporter: Reporter,
    ) -> Result<Scenario<F>, Status>
        ensures { IfOk result (IsFresh filters) }
    {
        let mut manager: TrialManager<F> = TrialManager::new(alloc, filters)?;
        manager.mount(Name::read(b"v0")?, MemoryBase::new(alloc))?;
        manager.forget_report();
        Ok(Scenario {
            alloc,
            exec: LocalExec::new(alloc, manager),
            reporter,
            last: None,
            account: Account::new(alloc),
            instances: 0,
            held: Vec::new(alloc),
            lines: 0,
            operates: false,
            is_heard: false,
            refused: None,
        })
    }

    /// Appends what stands before the first line. Refused with 1, if memory is refused.
    pub(crate) fn begin(&mut self, file: Option<&str>, text: &mut String) -> Result<(), Status>
        ensures { self.new ≡ record self.old { reporter = self.new.reporter } }
    {
        let volume = VolumeId(0);
        if let Some(name) = self.exec.manager().state().volume_name(volume) {
            self.reporter.begin(text, file, (volume, name))?;
        }
        Ok(())
    }

    /// Does what a line says, and appends what is told of it. Whether the line says something. Refused with 1, if memory is refused.
    pub(crate) fn take(
        &mut self,
        number: usize,
        line: &str,
        text: &mut String,
    ) -> Result<bool, Status>
        ensures { IfOk result (λ known. TakesLine F.Minifilter line.now known self.old self.new) }
    {
        match ScenarioLine::read(self.alloc, line)? {
            ScenarioLine::Nothing => {
                self.go_to(number, line)?;
                self.reporter.say_nothing(text, line)?;
            }
            ScenarioLine::Request(body) => {
                self.settle(text)?;
                self.go_to(number, line)?;
                self.ask(line, body, text)?;
            }
            ScenarioLine::Expect(expected) => {
                self.go_to(number, line)?;
                self.expect(number, line, &expected, text)?;
            }
            ScenarioLine::Unknown => {
                self.go_to(number, line)?;
                self.reporter.say_unknown(text, number, line)?;
                return Ok(false);
            }
        }
        Ok(true)
    }

    // A load or an attach that was refused is an expectation that isn't met, where no line behind it expects anything.
    fn settle(&mut self, text: &mut String) -> Result<(), Status>
        ensures { IfOk result (λ _. Settles self.old self.new) }
    {
        let Some(set_up) = self.refused.take() else {
            return Ok(());
        };
        self.account.miss();
        let answered = self.answered()?;
        let line = (set_up.number, "it was refused, and no line expects that");
        self.reporter.take_line(self.lines, set_up.text.as_str())?;
        self.reporter
            .say_expectation(text, line, "0", false, answered.as_str())?;
        Ok(())
    }

    // Goes on to a line.
    fn go_to(&mut self, number: usize, line: &str) -> Result<(), AllocError>
        ensures { self.new ≡ record self.old { reporter = self.new.reporter; lines = self.new.lines } }
    {
        self.reporter.take_line(number, line)?;
        if !line.is_empty() {
            self.lines = number;
        }
        Ok(())
    }

    // The reply to a request. What is none is answered 32.
    fn reply_to(&mut self, body: Body) -> Reply
        ensures reply { RepliesTo F.Minifilter body self.old.exec.manager result self.new.exec.manager }
        ensures same { self.new ≡ record self.old { exec = self.new.exec } }
    {
        match body {
            Body::Operation(request) => self.exec.operate_by(request),
            Body::Control(control) => self.exec.control_by(control),
            Body::Reply(_) => status_reply(self.alloc, Status::BadRequest),
            Body::Refused(status) => status_reply(self.alloc, status),
        }
    }

    // Makes a request.
    fn ask(&mut self, line: &str, body: Body, text: &mut String) -> Result<(), Status>
        ensures { IfOk result (λ _. Asks F.Minifilter body self.old self.new) }
    {
        self.reporter.ask(text, line, &body)?;
        self.account.begin_request();
        let asked = LineRequest::of(&body);
        let is_set_up = is_set_up(&body);
        self.operates = either(self.operates, is_operation(&body));
        let reply = self.reply_to(body);
        self.report(asked, &reply, text)?;
        self.keep(is_set_up, line, reply)?;
        self.take_finished(text)?;
        Ok(())
    }

    // Keeps a reply for the lines that expect it, whether it refuses a set-up, and which operation it says is held.
    fn keep(&mut self, is_set_up: bool, line: &str, reply: Reply) -> Result<(), AllocError>
        ensures held { IfOk result (λ _. self.new.held.items ≡ self.old.held.items ++ held_by reply) }
        ensures last { IfOk result (λ _. self.new.last ≡ Some reply) }
        ensures refused { IfOk result (λ _. is_some self.new.refused ≡ (is_set_up && is_refused reply)) }
        ensures same { self.new ≡ record self.old { held = self.new.held; last = self.new.last; refused = self.new.refused } }
    {
        if let Reply::Held(operation) = &reply {
            self.held.push(*operation)?;
        }
        self.refused = self.set_up_line(is_set_up && is_refused(&reply), line)?;
        self.last = Some(reply);
        Ok(())
    }

    // The line, if it is one.
    fn set_up_line(&self, is_one: bool, line: &str) -> Result<Option<SetUpLine>, AllocError>
        ensures { IfOk result (λ kept. is_some kept ≡ is_one) }
    {
        if !is_one {
            return Ok(None);
        }
        let mut text = String::new(self.alloc);
        text.push_str(line)?;
        Ok(Some(SetUpLine {
            number: self.lines,
            text,
        }))
    }

    // Appends what callbacks did since the last request, which mistakes they made, and the reply.
    fn report(&mut self, asked: LineRequest, reply: &Reply, text: &mut String) -> Result<(), Status>
        ensures reports { IfOk result (λ _. Reports self.old.exec.manager self.old.account self.new.account) }
        ensures request { IfOk result (λ _. self.new.account.request ≡ self.old.account.request) }
        ensures forgets { IfOk result (λ _. ForgetsReport self.old.exec.manager self.new.exec.manager) }
        ensures none { IfOk result (λ _. HasNoReport self.new.exec.manager) }
        ensures last { IfOk result (λ _. self.new.last ≡ self.old.last) }
        ensures held { IfOk result (λ _. self.new.held ≡ self.old.held) }
        ensures operates { IfOk result (λ _. self.new.operates ≡ self.old.operates) }
        ensures heard { IfOk result (λ _. self.new.is_heard ≡ (self.old.is_heard || hears (steps self.old.exec.manager))) }
    {
        self.reporter
            .say_steps(text, self.exec.manager(), asked, reply)?;
        self.tell_findings(text)?;
        let hears = hears(self.alloc, self.exec.manager())?;
        self.is_heard = either(self.is_heard, hears);
        self.forget_report();
        if let Reporter::Lines = self.reporter {
            self.tell_instances(text)?;
            write_reply(text, reply)?;
        }
        Ok(())
    }

    // Forgets what was told of, and counts what couldn't be.
    fn forget_report(&mut self)
        ensures forgets { ForgetsReport self.old.exec.manager self.new.exec.manager }
        ensures none { HasNoReport self.new.exec.manager }
        ensures kept { Keeps self.old.account self.new.account }
        ensures dropped { dropped_count self.old.exec.manager ≤ self.new.account.dropped }
        ensures same { self.new ≡ record self.old { exec = self.new.exec; account = self.new.account } }
    {
        let dropped = self.exec.manager().dropped();
        self.account.drop_more(dropped);
        self.exec.forget_report();
    }

    // Appends the instances that were attached since the last request.
    fn tell_instances(&mut self, text: &mut String) -> Result<(), Status>
        ensures { self.new ≡ record self.old { instances = self.new.instances } }
    {
        let manager = self.exec.manager();
        let instances = manager.state().instances();
        for number in self.instances..instances {
            if let Ok(number) = u16::try_from(number) {
                write_attached(text, manager, InstanceId(number))?;
            }
        }
        self.instances = instances;
        Ok(())
    }

    // Appends what is told of what the manager noted, and keeps it for the lines that expect it.
    fn tell_findings(&mut self, text: &mut String) -> Result<(), Status>
        ensures told { IfOk result (λ _. TellsAll (findings (steps self.old.exec.manager) (leaks self.old.exec.manager) (refused_calls self.old.exec.manager)) self.old.account self.new.account) }
        ensures same { self.new ≡ record self.old { reporter = self.new.reporter; account = self.new.account } }
    {
        let manager = self.exec.manager();
        let found = findings(self.alloc, manager)?;
        say_findings(
            self.alloc,
            &mut self.reporter,
            manager,
            found.as_slice(),
            text,
        )?;
        self.account.tell_all(self.alloc, found.as_slice())?;
        Ok(())
    }

    // Appends the replies of operations that were held and have ended. In lines the step by which each was handed out stands with the next request.
    fn take_finished(&mut self, text: &mut String) -> Result<(), Status>
        ensures kept { IfOk result (λ _. Keeps self.old.account self.new.account) }
        ensures last { IfOk result (λ _. self.new.last ≡ self.old.last) }
        ensures refused { IfOk result (λ _. self.new.refused ≡ self.old.refused) }
        ensures finishes { IfOk result (λ _. Finishes self.old.exec.manager self.old.held.items self.new.exec.manager self.new.held.items) }
        ensures operates { IfOk result (λ _. self.new.operates ≡ self.old.operates) }
        ensures heard { IfOk result (λ _. self.new.is_heard ≡ self.old.is_heard) }
    {
        say_finished(&mut self.exec, &mut self.reporter, &mut self.held, text)?;
        if let Reporter::Objects(_) = self.reporter {
            self.forget_report();
        }
        Ok(())
    }

    // Whether the last request came to what is expected.
    fn is_met(&mut self, expected: &Expectation) -> bool
        ensures met { IsMetAs expected.now self.old.last result self.old.account self.new.account }
        ensures same { self.new ≡ record self.old { account = self.new.account } }
    {
        match (expected, &self.last) {
            (Expectation::Told(wanted), Some(_)) => self.account.expect(*wanted),
            (_, Some(reply)) => expected.is_met(reply),
            (_, None) => false,
        }
    }

    // Looks whether the last request came to what is expected.
    fn expect(
        &mut self,
        number: usize,
        line: &str,
        expected: &Expectation,
        text: &mut String,
    ) -> Result<(), Status>
        ensures expects { IfOk result (λ _. LineExpects expected.now self.old.last self.old.account self.new.account) }
        ensures same { self.new ≡ record self.old { account = self.new.account; is_heard = true; refused = None } }
    {
        self.refused = None;
        self.is_heard = true;
        let is_met = self.is_met(expected);
        if !is_met {
            self.account.miss();
        }
        let words = expected_words(self.alloc, line)?;
        let answered = self.answered()?;
        let (words, answered) = (words.as_str(), answered.as_str());
        self.reporter
            .say_expectation(text, (number, line), words, is_met, answered)?;
        Ok(())
    }

    // What the last request was answered, and what was told of it: a line for each.
    fn answered(&self) -> Result<String, Status> {
        let mut text = String::new(self.alloc);
        if let Some(reply) = &self.last {
            write_reply(&mut text, reply)?;
        }
        for told in self.account.told() {
            if self.account.is_of_last(told) {
                writeln!(text, "told {}", told.mistake.id())?;
            }
        }
        Ok(text)
    }

    /// The end, where all lines said something, or behind one that says nothing. Refused with 1, if memory is refused.
    pub(crate) fn finish(&mut self, is_known: bool, text: &mut String) -> Result<u8, Status>
        ensures { IfOk result (EndsAfter is_known self.old) }
    {
        if !is_known {
            return self.break_off(text);
        }
        let status = self.end(text)?;
        Ok(status)
    }

    // The end: what is still held, open or alive is said, and what became of contexts. The exit status: 0; 5 if a mistake was told that no line expects, or if
    // something wasn't kept of which it could have been told; 1 if an expectation wasn't met. That a load or an attach is refused of which no line expects
    // anything, and that nothing was asked or nothing tested, count as expectations that weren't met. Refused with 1, if memory is refused.
    fn end(&mut self, text: &mut String) -> Result<u8, Status>
        ensures status { IfOk result (λ status. status ≡ status_of self.new.account) }
        ensures ends { IfOk result (λ _. Ends self.old self.new.account) }
    {
        self.settle(text)?;
        self.check_asked(text)?;
        self.check_heard(text)?;
        self.check_leaks();
        self.tell_held(text)?;
        let mut words = String::new(self.alloc);
        self.write_left(&mut words)?;
        let status = self.account.status();
        self.reporter
            .end(text, &self.tally(status), words.as_str())?;
        Ok(status)
    }

    // The end behind a line that says nothing: its exit status, 2. In lines nothing is appended. Refused with 1, if memory is refused.
    fn break_off(&mut self, text: &mut String) -> Result<u8, Status>
        ensures { IfOk result (λ status. status ≡ 2) }
    {
        if let Reporter::Objects(_) = self.reporter {
            let mut words = String::new(self.alloc);
            self.write_left(&mut words)?;
            self.reporter
                .end(text, &self.tally(WRONG_FILE), words.as_str())?;
        }
        Ok(WRONG_FILE)
    }

    // A scenario that asks for nothing tests nothing: that is an expectation that isn't met.
    fn check_asked(&mut self, text: &mut String) -> Result<(), Status>
        ensures asked { IfOk result (λ _. CountsUnmet (is_some self.old.last) self.old.account self.new.account) }
        ensures same { self.new ≡ record self.old { account = self.new.account; reporter = self.new.reporter } }
    {
        if self.last.is_some() {
            return Ok(());
        }
        self.account.miss();
        let line = (self.lines, "there is no request up to here");
        self.reporter.take_line(self.lines, "")?;
        self.reporter
            .say_expectation(text, line, "a request", false, "")?;
        Ok(())
    }

    // Whether a callback heard of an operation or a line expected something, if operations were asked for at all.
    fn tests_something(&self) -> bool
        ensures { result ≡ tests_something self.now }
    {
        self.is_heard || !self.operates
    }

    // Operations of which no callback hears, with nothing expected, test nothing: that is an expectation that isn't met.
    fn check_heard(&mut self, text: &mut String) -> Result<(), Status>
        ensures tested { IfOk result (λ _. CountsUnmet (tests_something self.old) self.old.account self.new.account) }
        ensures same { self.new ≡ record self.old { account = self.new.account; reporter = self.new.reporter } }
    {
        if self.tests_something() {
            return Ok(());
        }
        self.account.miss();
        let line = (
            self.lines,
            "no callback was called, and nothing is expected",
        );
        self.reporter.take_line(self.lines, "")?;
        self.reporter
            .say_expectation(text, line, "a callback", false, "")?;
        Ok(())
    }

    // As many references that callbacks left behind were told as the manager's state counts: else something wasn't kept.
    fn check_leaks(&mut self)
        ensures left { CountsDropped (tells_leaks self.old self.old.account) self.old.account self.new.account }
        ensures same { self.new ≡ record self.old { account = self.new.account } }
    {
        if self.account.leaks() as u64 != self.exec.manager().state().leaks() {
            self.account.drop_more(1);
        }
    }

    // Appends that operations are held. In objects each stands by itself, with who holds it.
    fn tell_held(&mut self, text: &mut String) -> Result<(), Status>
        ensures { IfOk result (λ _. EndsAs self.old.held.items self.old.account self.new.account) }
    {
        if self.held.is_empty() {
            return Ok(());
        }
        let told = Mistake::HeldToTheEnd;
        self.account.begin_request();
        self.account.tell(told)?;
        let held = (self.held.as_slice(), self.lines);
        say_held(
            self.alloc,
            &mut self.reporter,
            self.exec.manager(),
            held,
            text,
        )?;
        Ok(())
    }

    // Appends what is open or alive, and what became of contexts.
    fn write_left(&self, text: &mut String) -> Result<(), Status> {
        let state = self.exec.manager().state();
        let alive = state.born().saturating_sub(state.cleaned_count());
        if state.handles() > 0 {
            writeln!(text, "open: {} handles", state.handles())?;
        }
        if alive > 0 {
            writeln!(
                text,
                "alive: {alive} contexts, since what they are set on is still there"
            )?;
        }
        if self.account.dropped() > 0 {
            writeln!(
                text,
                "{} steps, leaks or refused calls weren't kept, so mistakes may be missing",
                self.account.dropped()
            )?;
        }
        writeln!(
            text,
            "contexts born {}, cleaned {}, leaked references {}, told {}, failed {}",
            state.born(),
            state.cleaned_count(),
            state.leaks(),
            self.account.mistakes(),
            self.account.unmet()
        )?;
        Ok(())
    }

    // The figures of an end with that exit status.
    fn tally(&self, status: u8) -> Summary {
        let state = self.exec.manager().state();
        Summary {
            fault: None,
            status,
            lines: u32::try_from(self.lines).unwrap_or(u32::MAX),
            refused: self.reporter.refused(),
            born: state.born(),
            cleaned: state.cleaned_count(),
            leaks: state.leaks(),
            held: self.held.len() as u64,
            misuses: self.account.misuses() as u64,
            unmet: self.account.unmet(),
            told: Some(self.account.mistakes() as u64),
            dropped: Some(self.account.dropped()),
        }
    }
}

// Appends what is told of these findings. Fails if memory is refused.
fn say_findings<F: Minifilter>(
    alloc: Global,
    reporter: &mut Reporter,
    manager: &TrialManager<F>,
    found: &[Finding],
    text: &mut String,
) -> Result<(), AllocError> {
    for finding in found {
        let mut words = String::new(alloc);
        write_finding(&mut words, manager, finding)?;
        if let Finding::Leak(leak) = finding {
            reporter.say_leaked(text, leak)?;
        }
        let about = (finding.place(), context_in(finding));
        reporter.tell(text, finding.mistake(), words.as_str(), about)?;
    }
    Ok(())
}

// Whether the requests behind it may test nothing without it: a load and an attach.
fn is_set_up(body: &Body) -> bool
    ensures { result ≡ is_set_up body.now }
{
    matches!(
        body,
        Body::Control(Control::Load { .. } | Control::Attach { .. })
    )
}

// Whether one of both is so.
fn either(one: bool, other: bool) -> bool
    ensures { result ≡ (one || other) }
{
    one || other
}

// Whether an operation is asked for.
fn is_operation(body: &Body) -> bool
    ensures { result ≡ is_operation body.now }
{
    matches!(body, Body::Operation(_))
}

// Whether a callback was called by that step.
fn is_callback(visit: &Visit) -> bool
    ensures { result ≡ is_callback visit.now }
{
    matches!(visit, Visit::Pre(..) | Visit::Post(..) | Visit::Drain(_))
}

// Whether a callback was called for an operation, by what the manager noted. Fails if memory is refused.
fn hears<F: Minifilter>(alloc: Global, manager: &TrialManager<F>) -> Result<bool, AllocError>
    ensures { IfOk result (λ heard. heard ≡ hears (steps manager.now)) }
{
    let steps = steps_of(alloc, manager)?;
    Ok(steps.iter().any(|step| is_callback(&step.visit)))
}

// Whether the reply is a refusal.
fn is_refused(reply: &Reply) -> bool
    ensures { result ≡ is_refused reply.now }
{
    match reply {
        Reply::Done { status, .. } => status.number() != 0,
        Reply::Held(_) => false,
    }
}

// One that is held no more goes from a list.
fn let_go(held: &mut Vec<OpId>, operation: OpId)
    ensures { held.new.items ≡ held_without operation held.old.items }
{
    held.retain(|other| *other != operation);
}

// Appends the reply of the first operation that was held and has ended, which nobody holds any more. Whether there was one. Fails if memory is refused.
fn say_next_finished<F: Minifilter>(
    exec: &mut LocalExec<F, MemoryBase>,
    reporter: &mut Reporter,
    held: &mut Vec<OpId>,
    text: &mut String,
) -> Result<bool, AllocError>
    ensures { IfOk result (λ _. HandsOutNext exec.old.manager held.old.items exec.new.manager held.new.items) }
{
    let Some((operation, reply)) = exec.finished() else {
        return Ok(false);
    };
    reporter.say_finished(text, operation, &reply)?;
    let_go(held, operation);
    Ok(true)
}

// Appends the replies of all of them. Fails if memory is refused.
fn say_finished<F: Minifilter>(
    exec: &mut LocalExec<F, MemoryBase>,
    reporter: &mut Reporter,
    held: &mut Vec<OpId>,
    text: &mut String,
) -> Result<(), AllocError>
    ensures { IfOk result (λ _. HandsOutAll exec.old.manager held.old.items exec.new.manager held.new.items) }
{
    for _ in 0..OPERATIONS {
        if !say_next_finished(exec, reporter, held, text)? {
            return Ok(());
        }
    }
    Ok(())
}

// Appends who holds operations. In objects each stands by itself. Fails if memory is refused.
fn say_held<F: Minifilter>(
    alloc: Global,
    reporter: &mut Reporter,
    manager: &TrialManager<F>,
    (held, lines): (&[OpId], usize),
    text: &mut String,
) -> Result<(), AllocError> {
    let told = Mistake::HeldToTheEnd;
    if let Reporter::Lines = reporter {
        return writeln!(text, "{told}: {} of them", held.len());
    }
    reporter.take_line(lines, "")?;
    for operation in held {
        let mut words = String::new(alloc);
        let place = holder_of(manager, *operation);
        write_told(&mut words, manager, told, place)?;
        reporter.tell(text, told, words.as_str(), (place, None))?;
    }
    Ok(())
}

// The context that something is told of.
fn context_in(finding: &Finding) -> Option<CtxId> {
    match finding {
        Finding::Answer(..) => None,
        Finding::Leak(leak) => Some(leak.context),
        Finding::Call(_, refusal) => context_of(refusal.call),
    }
}

// The context that a call of a port is about.
fn context_of(call: PortCall) -> Option<CtxId> {
    match call {
        PortCall::Set(context)
        | PortCall::Reference(context)
        | PortCall::Release(context)
        | PortCall::ReadBody(context)
        | PortCall::WriteBody(context)
        | PortCall::Bump(context) => Some(context),
        _ => None,
    }
}
