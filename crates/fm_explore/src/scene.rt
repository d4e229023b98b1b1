//! What a run of a scenario is over, and its steps.

ghost use Rattle.std.specs.Prelude.{◌≡◌, IfOk};
ghost use Rattle.fm_explore.specs.Verdicts.{Expected, is_met_by};

use crate::client::{Client, Stand};
use crate::found::{FoundKind, RunFinding};
use crate::scenario::{ClientScenario, ScenarioRequest, read_line};
use fm_base::MemoryBase;
use fm_callback_data::{FileRequest, Reply, Request};
use fm_core::Place;
use fm_filter::Minifilter;
use fm_local::{Stepped, Visit};
use fm_local_exec::LocalExec;
use fm_mistakes::findings;
use fm_report::{callback_of, held_at, instance_in};
use fm_server::status_reply;
use fm_trial::{Expectation, ScenarioLine, TrialManager, write_reply};
use fm_types::limits::{OPERATIONS, TURNS};
use fm_types::{FilterId, InstanceId, Name, OpId, Status};
use fm_wire::{Body, Control};
use std::alloc::{AllocError, Global};
use std::fmt::Write;

/// What a run is over: its manager, and how its clients stand.
#[derive(Drop)]
pub(crate) struct Scene<'a, F> {
    pub(crate) alloc: Global,
    scenario: &'a ClientScenario,
    exec: LocalExec<F, MemoryBase>,
    clients: Vec<Client>,
    /// What was found.
    pub(crate) found: Vec<RunFinding>,
    /// Each step with its client, if it is to be shown.
    pub(crate) shown: Option<String>,
    steps: u64,
    last: Option<Reply>,
    // How many steps of operations were shown.
    traced: usize,
    // How many lines of `finally` were made.
    ended: usize,
}

impl<'a, F: Minifilter> Scene<'a, F> {
    /// Before the first step. Refused with 1, if memory is refused.
    pub(crate) fn new(
        alloc: Global,
        scenario: &'a ClientScenario,
        filters: Vec<(Name, F)>,
    ) -> Result<Scene<'a, F>, Status> {
        let mut manager: TrialManager<F> = TrialManager::new(alloc, filters)?;
        manager.mount(Name::read(b"v0")?, MemoryBase::new(alloc))?;
        let mut clients = Vec::new(alloc);
        for _ in &scenario.clients {
            clients.push(Client::new(alloc))?;
        }
        Ok(Scene {
            alloc,
            scenario,
            exec: LocalExec::new(alloc, manager),
            clients,
            found: Vec::new(alloc),
            shown: None,
            steps: 0,
            last: None,
            traced: 0,
            ended: 0,
        })
    }

    /// Makes the requests before the clients. The line of the first that is a load or an attach and was refused, where the next one doesn't expect that. Refused with 1, if
    /// memory is refused.
    pub(crate) fn set_up(&mut self) -> Result<Option<usize>, Status> {
        let scenario = self.scenario;
        let mut refused = None;
        for line in &scenario.set_up {
            if refused.is_some() && !line.is_expectation() {
                return Ok(refused);
            }
            let is_taken = self.take_line(line)?;
            refused = if is_taken { None } else { Some(line.line) };
        }
        if refused.is_some() {
            return Ok(refused);
        }
        self.traced = self.exec.manager().traced();
        Ok(None)
    }

    /// Notes what was told, who is stuck, and how it ended. Refused with 1, if memory is refused.
    pub(crate) fn finish(&mut self) -> Result<(), Status> {
        let found = findings(self.alloc, self.exec.manager())?;
        for finding in &found {
            if !finding.mistake().is_limit() {
                let mut words = format!(in self.alloc; "{}", finding.mistake())?;
                self.write_place(&mut words, finding.place())?;
                self.note(FoundKind::Told, words)?;
            }
        }
        self.note_stuck()?;
        self.note_end()
    }

    /// Whether a callback was called for an operation.
    pub(crate) fn is_heard(&self) -> bool {
        let manager = self.exec.manager();
        for place in 0..manager.traced() {
            if let Some(step) = manager.trace(place) {
                if matches!(
                    step.visit,
                    Visit::Pre(..) | Visit::Post(..) | Visit::Drain(_)
                ) {
                    return true;
                }
            }
        }
        false
    }

    /// How many steps, leaks or refused calls of the manager weren't kept.
    pub(crate) fn dropped(&self) -> u64 {
        self.exec.manager().dropped()
    }

    // ---- requests outside of the clients

    // Makes a request alone, or looks whether the last one came to what is expected. Whether it isn't a load or an attach that is refused.
    fn take_line(&mut self, line: &ScenarioRequest) -> Result<bool, Status> {
        match read_line(self.alloc, line.words.as_str(), None)? {
            ScenarioLine::Request(body) => {
                let is_set_up = matches!(
                    body,
                    Body::Control(Control::Load { .. } | Control::Attach { .. })
                );
                let reply = self.ask(body);
                let is_refused = is_refused(&reply);
                self.last = Some(reply);
                self.settle()?;
                Ok(!(is_set_up && is_refused))
            }
            ScenarioLine::Expect(expected) => {
                expect(self.alloc, line, &expected, &self.last, &mut self.found)?;
                Ok(true)
            }
            ScenarioLine::Nothing | ScenarioLine::Unknown => Ok(true),
        }
    }

    // The reply to a request that is made alone.
    fn ask(&mut self, body: Body) -> Reply {
        match body {
            Body::Operation(request) => self.exec.operate_by(request),
            Body::Control(control) => self.exec.control_by(control),
            Body::Reply(_) => status_reply(self.alloc, Status::BadRequest),
            Body::Refused(status) => status_reply(self.alloc, status),
        }
    }

    /// Makes the next request of `finally`. Whether there was one.
    pub(crate) fn take_finally(&mut self) -> Result<bool, Status> {
        let scenario = self.scenario;
        let Some(line) = scenario.finally.get(self.ended) else {
            return Ok(false);
        };
        self.ended = self.ended.saturating_add(1);
        self.show_request("finally", line)?;
        self.take_line(line)?;
        self.steps = self.steps.saturating_add(1);
        self.note_steps("finally")?;
        Ok(true)
    }

    // ---- who goes on

    /// Which clients can go on now. Fails if memory is refused.
    pub(crate) fn who_can(&self) -> Result<Vec<bool>, AllocError> {
        let mut can = Vec::new(self.alloc);
        for client in &self.clients {
            can.push(client.can_go_on(self.steps))?;
        }
        Ok(can)
    }

    // ---- a step

    /// A client goes on by one step. Refused with 1, if memory is refused.
    pub(crate) fn step(&mut self, client: usize) -> Result<(), Status> {
        let is_again = match self.stand(client) {
            Stand::Ready => {
                self.make_request(client)?;
                false
            }
            Stand::Waits(_) => {
                self.make_request(client)?;
                matches!(self.stand(client), Stand::Waits(_))
            }
            Stand::Under(operation) => {
                self.go_on(client, operation)?;
                false
            }
            Stand::Held(_) | Stand::Over => false,
        };
        if !is_again {
            self.steps = self.steps.saturating_add(1);
        }
        if let Stand::Waits(_) = self.stand(client) {
            self.set_stand(client, Stand::Waits(self.steps));
        }
        self.settle()?;
        self.show_client(client)
    }

    fn stand(&self, client: usize) -> Stand {
        match self.clients.get(client) {
            Some(client) => client.stand,
            None => Stand::Over,
        }
    }

    fn set_stand(&mut self, client: usize, stand: Stand) {
        if let Some(client) = self.clients.get_mut(client) {
            client.stand = stand;
        }
    }

    // Begins a client's next request.
    fn make_request(&mut self, client: usize) -> Result<(), Status> {
        let scenario = self.scenario;
        let Some(lines) = scenario.clients.get(client) else {
            return Ok(());
        };
        let Some(own) = self.clients.get(client) else {
            return Ok(());
        };
        let Some(line) = lines.requests.get(own.next) else {
            self.set_stand(client, Stand::Over);
            return Ok(());
        };
        let body = read_line(self.alloc, line.words.as_str(), own.handle)?;
        self.show_request(lines.name.as_str(), line)?;
        match body {
            ScenarioLine::Request(Body::Operation(request)) => self.begin(client, request),
            ScenarioLine::Request(Body::Control(control)) => self.control(client, control),
            ScenarioLine::Request(_) | ScenarioLine::Nothing | ScenarioLine::Unknown => {
                let reply = status_reply(self.alloc, Status::BadRequest);
                self.answer(client, reply)
            }
            ScenarioLine::Expect(_) => self.go_past(client),
        }
    }

    // Begins a client's operation. A close begins with the cleanup.
    fn begin(&mut self, client: usize, request: Request) -> Result<(), Status> {
        let mut closing = None;
        let creates = matches!(request, Request::Create { .. });
        let request = match request {
            Request::OnHandle {
                handle,
                request: FileRequest::Close,
            } => {
                closing = Some(handle);
                Request::OnHandle {
                    handle,
                    request: FileRequest::Cleanup,
                }
            }
            other => other,
        };
        if let Some(own) = self.clients.get_mut(client) {
            own.closing = closing;
            own.creates = creates;
        }
        match self.exec.begin(request) {
            Ok(operation) => {
                self.set_stand(client, Stand::Under(operation));
                Ok(())
            }
            Err(status) => {
                let reply = status_reply(self.alloc, status);
                self.answer(client, reply)
            }
        }
    }

    // Manages filters for a client. What is refused since operations are in flight waits, and is made again.
    fn control(&mut self, client: usize, control: Control) -> Result<(), Status> {
        let reply = self.exec.control_by(control);
        if let Reply::Done {
            status: Status::Busy(_),
            ..
        } = &reply
        {
            self.set_stand(client, Stand::Waits(self.steps));
            return Ok(());
        }
        self.answer(client, reply)
    }

    // A client's operation goes on, until the next callback or call has returned.
    fn go_on(&mut self, client: usize, operation: OpId) -> Result<(), Status> {
        for _ in 0..TURNS {
            let before = self.visits();
            match self.exec.step(operation) {
                Stepped::Goes if self.visits() == before => {}
                Stepped::Goes => return self.stop_behind(client, operation),
                Stepped::Held => {
                    self.set_stand(client, Stand::Held(operation));
                    return Ok(());
                }
                Stepped::Done(reply) => return self.answer(client, reply),
            }
        }
        Ok(())
    }

    // How many steps of operations were noted.
    fn visits(&self) -> u64 {
        let manager = self.exec.manager();
        (manager.traced() as u64).saturating_add(manager.dropped())
    }

    // After a callback or a call: an operation that is done is answered, and one that is held waits.
    fn stop_behind(&mut self, client: usize, operation: OpId) -> Result<(), Status> {
        let state = self.exec.manager().state();
        if held_at(state, operation).is_some() {
            self.set_stand(client, Stand::Held(operation));
            return Ok(());
        }
        if state.is_done(operation) == Some(true) {
            if let Stepped::Done(reply) = self.exec.step(operation) {
                return self.answer(client, reply);
            }
        }
        Ok(())
    }

    // A client's request is answered, unless it is a cleanup that a close follows.
    fn answer(&mut self, client: usize, reply: Reply) -> Result<(), Status> {
        let Some(own) = self.clients.get_mut(client) else {
            return Ok(());
        };
        if let Some(handle) = own.closing.take() {
            if is_over(&reply) {
                let close = Request::OnHandle {
                    handle,
                    request: FileRequest::Close,
                };
                return self.begin_close(client, close);
            }
        }
        self.end_request(client, reply)
    }

    // Begins the close that follows a cleanup.
    fn begin_close(&mut self, client: usize, close: Request) -> Result<(), Status> {
        match self.exec.begin(close) {
            Ok(operation) => {
                self.set_stand(client, Stand::Under(operation));
                Ok(())
            }
            Err(status) => {
                let reply = status_reply(self.alloc, status);
                self.end_request(client, reply)
            }
        }
    }

    // A client has the reply to its request.
    fn end_request(&mut self, client: usize, reply: Reply) -> Result<(), Status> {
        if let Some(own) = self.clients.get_mut(client) {
            write_reply(&mut own.answers, &reply)?;
            if let Reply::Done {
                status: Status::Success,
                information,
                ..
            } = &reply
            {
                if own.creates {
                    own.handle = Some(*information);
                }
            }
            own.reply = Some(reply);
        }
        self.go_past(client)
    }

    // A client goes past a request, and past what is expected of it.
    fn go_past(&mut self, client: usize) -> Result<(), Status> {
        let scenario = self.scenario;
        let Some(lines) = scenario.clients.get(client) else {
            return Ok(());
        };
        for _ in 0..lines.requests.len() {
            let Some(own) = self.clients.get_mut(client) else {
                return Ok(());
            };
            own.next = own.next.saturating_add(1);
            own.stand = Stand::Ready;
            let Some(line) = lines.requests.get(own.next) else {
                own.stand = Stand::Over;
                return Ok(());
            };
            match read_line(self.alloc, line.words.as_str(), own.handle)? {
                ScenarioLine::Expect(expected) => {
                    expect(self.alloc, line, &expected, &own.reply, &mut self.found)?;
                }
                _ => return Ok(()),
            }
        }
        Ok(())
    }

    // ---- what was resumed and what ended

    // Lets those go on whose operations were resumed, and answers those whose operations ended meanwhile.
    fn settle(&mut self) -> Result<(), Status> {
        for _ in 0..OPERATIONS {
            match self.exec.resumed() {
                Some(operation) => self.wake(operation)?,
                None => break,
            }
        }
        for _ in 0..OPERATIONS {
            match self.exec.finished() {
                Some((operation, reply)) => self.hand_out(operation, reply)?,
                None => break,
            }
        }
        Ok(())
    }

    // The client whose operation it is.
    fn owner(&self, operation: OpId) -> Option<usize> {
        self.clients.iter().position(|client| client.has(operation))
    }

    // An operation goes on that was resumed. One of no client goes on at once.
    fn wake(&mut self, operation: OpId) -> Result<(), Status> {
        if let Some(client) = self.owner(operation) {
            self.set_stand(client, Stand::Under(operation));
            return Ok(());
        }
        for _ in 0..TURNS {
            match self.exec.step(operation) {
                Stepped::Goes => {}
                Stepped::Held | Stepped::Done(_) => break,
            }
        }
        Ok(())
    }

    // An operation ended that a call of the manager carried on.
    fn hand_out(&mut self, operation: OpId, reply: Reply) -> Result<(), Status> {
        match self.owner(operation) {
            Some(client) => self.answer(client, reply),
            None => Ok(()),
        }
    }

    // ---- what is found

    // Notes a finding.
    fn note(&mut self, kind: FoundKind, words: String) -> Result<(), AllocError> {
        self.found.push(RunFinding { kind, words })?;
        Ok(())
    }

    // Notes who waits at the end, and for what.
    fn note_stuck(&mut self) -> Result<(), AllocError> {
        let mut words = String::new(self.alloc);
        for (place, client) in self.clients.iter().enumerate() {
            if client.is_stuck() {
                if !words.is_empty() {
                    words.push_str("; ")?;
                }
                words.push_str(self.name(place))?;
                self.write_wait(&mut words, client.stand)?;
            }
        }
        if words.is_empty() {
            return Ok(());
        }
        self.note(FoundKind::Stuck, words)
    }

    // Appends for what a client waits.
    fn write_wait(&self, words: &mut String, stand: Stand) -> Result<(), AllocError> {
        let Stand::Held(operation) = stand else {
            return words.push_str(" waits for operations in flight");
        };
        words.push_str(" waits for its operation")?;
        let state = self.exec.manager().state();
        if let Some((instance, _)) = held_at(state, operation) {
            words.push_str(", which ")?;
            self.write_instance(words, instance)?;
            words.push_str(" holds")?;
        }
        Ok(())
    }

    // Notes how it ended: each client's answers, and the filters' totals.
    fn note_end(&mut self) -> Result<(), Status> {
        let mut words = String::new(self.alloc);
        for (place, client) in self.clients.iter().enumerate() {
            for answer in client.answers.lines() {
                writeln!(words, "{}: {answer}", self.name(place))?;
            }
        }
        let state = self.exec.manager().state();
        for filter in 0..state.filters() {
            if let Ok(number) = u8::try_from(filter) {
                let filter = FilterId(number);
                self.write_filter(&mut words, filter)?;
                writeln!(words, ": total {}", state.total(filter))?;
            }
        }
        self.note(FoundKind::End, words)?;
        Ok(())
    }

    // The name of a client.
    fn name(&self, client: usize) -> &str {
        match self.scenario.clients.get(client) {
            Some(client) => client.name.as_str(),
            None => "",
        }
    }

    // Appends which callback of which instance is meant.
    fn write_place(&self, words: &mut String, place: Place) -> Result<(), AllocError> {
        if let Some(instance) = instance_in(place) {
            if let Ok(number) = u16::try_from(instance) {
                words.push_str(": ")?;
                self.write_instance(words, InstanceId(number))?;
                words.push_str(", ")?;
                words.push_str(callback_of(place))?;
            }
        }
        Ok(())
    }

    // Appends an instance by its name.
    fn write_instance(&self, words: &mut String, instance: InstanceId) -> Result<(), AllocError> {
        match self.exec.manager().state().instance_name(instance) {
            Some(name) => write_bytes(words, name.text()),
            None => Ok(()),
        }
    }

    // Appends a filter by its name.
    fn write_filter(&self, words: &mut String, filter: FilterId) -> Result<(), AllocError> {
        match self.exec.manager().state().filter_name(filter) {
            Some(name) => write_bytes(words, name.text()),
            None => Ok(()),
        }
    }

    // ---- what is shown

    // Shows the steps of operations that a client's step led to.
    fn show_client(&mut self, client: usize) -> Result<(), Status> {
        if self.shown.is_none() {
            return Ok(());
        }
        let scenario = self.scenario;
        match scenario.clients.get(client) {
            Some(lines) => self.note_steps(lines.name.as_str()),
            None => Ok(()),
        }
    }

    // Shows a request that is made.
    fn show_request(&mut self, who: &str, line: &ScenarioRequest) -> Result<(), AllocError> {
        match &mut self.shown {
            Some(text) => writeln!(text, "{who}: {}", line.words.as_str()),
            None => Ok(()),
        }
    }

    // Shows the steps of operations since the last time.
    fn note_steps(&mut self, who: &str) -> Result<(), Status> {
        let Some(text) = &mut self.shown else {
            return Ok(());
        };
        let manager = self.exec.manager();
        for place in self.traced..manager.traced() {
            if let Some(step) = manager.trace(place) {
                writeln!(text, "{who}   {step}")?;
            }
        }
        self.traced = manager.traced();
        Ok(())
    }
}

// Looks whether the last request came to what the line expects: where it didn't, or there was none, that is found. Fails if memory is refused.
fn expect(
    alloc: Global,
    line: &ScenarioRequest,
    expected: &Expectation,
    last: &Option<Reply>,
    found: &mut Vec<RunFinding>,
) -> Result<(), AllocError>
    ensures { IfOk result (λ done. Expected (is_met_by expected.now last.now) found.old.items found.new.items) }
{
    if is_met(expected, last) {
        return Ok(());
    }
    let words = format!(in alloc; "line {}: {}", line.line, line.words.as_str())?;
    let kind = FoundKind::Unmet;
    found.push(RunFinding { kind, words })?;
    Ok(())
}

// Whether the last request came to what is expected.
fn is_met(expected: &Expectation, last: &Option<Reply>) -> bool
    ensures { result ≡ is_met_by expected.now last.now }
{
    match last {
        Some(reply) => expected.is_met(reply),
        None => false,
    }
}

// Whether a reply is a refusal.
fn is_refused(reply: &Reply) -> bool {
    match reply {
        Reply::Done { status, .. } => status.number() != 0,
        Reply::Held(_) => false,
    }
}

// Whether a cleanup that was answered so is over, so that the close comes: it succeeded, or began before.
fn is_over(reply: &Reply) -> bool {
    matches!(
        reply,
        Reply::Done {
            status: Status::Success | Status::WrongStep,
            ..
        }
    )
}

// Appends a name.
fn write_bytes(words: &mut String, name: &[u8]) -> Result<(), AllocError> {
    for byte in name {
        words.push(char::from(*byte))?;
    }
    Ok(())
}
