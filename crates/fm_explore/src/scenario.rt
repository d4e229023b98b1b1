//! A scenario: set-up lines, `client NAME: request; request`, and `finally: request`.

use fm_trial::{Expectation, ScenarioLine, lines_of, without_return};
use fm_types::Status;
use std::alloc::{AllocError, Global};

/// How many clients a scenario may have.
pub(crate) const CLIENTS: usize = 12;

/// A request, or what one must have come to.
#[derive(Drop)]
pub(crate) struct ScenarioRequest {
    /// Its line in the file.
    pub(crate) line: usize,
    /// Its words.
    pub(crate) words: String,
}

impl ScenarioRequest {
    /// Whether it says what the one before must have come to.
    pub(crate) fn is_expectation(&self) -> bool {
        self.words.as_str().starts_with("expect")
    }
}

/// A client, with what it asks for, one after the other.
#[derive(Drop)]
pub(crate) struct ClientLines {
    /// Its name.
    pub(crate) name: String,
    /// What it asks for.
    pub(crate) requests: Vec<ScenarioRequest>,
}

/// A scenario.
#[derive(Drop)]
pub(crate) struct ClientScenario {
    /// What is asked for before the clients begin.
    pub(crate) set_up: Vec<ScenarioRequest>,
    /// The clients, in the order of their first lines.
    pub(crate) clients: Vec<ClientLines>,
    /// What is asked for once no client can go on.
    pub(crate) finally: Vec<ScenarioRequest>,
}

/// Why a scenario isn't one.
#[derive(Clone, Copy, PartialEq, Eq)]
pub(crate) enum ScenarioFault {
    /// The line of that number isn't understood.
    Line(usize),
    /// There are more clients than there may be.
    Clients,
    /// There is no client.
    NoClient,
}

/// The line of that text, with the handle of the client's last create in the place of `$`. Refused with 1, if memory is refused.
pub(crate) fn read_line(
    alloc: Global,
    text: &str,
    handle: Option<u64>,
) -> Result<ScenarioLine, Status> {
    let mut words = String::new(alloc);
    for word in text.split_ascii_whitespace() {
        words.push(' ')?;
        match (word, handle) {
            ("$", Some(handle)) => {
                let number = format!(in alloc; "{handle}")?;
                words.push_str(number.as_str())?;
            }
            (word, _) => words.push_str(word)?,
        }
    }
    ScenarioLine::read(alloc, words.as_str())
}

// Whether a line can stand in a scenario: a request, or what one must have come to. What was told can't be expected, since it may be of another client.
fn is_request(alloc: Global, text: &str) -> Result<bool, Status> {
    Ok(match read_line(alloc, text, Some(0))? {
        ScenarioLine::Request(_) => true,
        ScenarioLine::Expect(Expectation::Told(_)) => false,
        ScenarioLine::Expect(_) => true,
        ScenarioLine::Nothing | ScenarioLine::Unknown => false,
    })
}

// Appends a request. Whether it is one.
fn put_request(
    alloc: Global,
    requests: &mut Vec<ScenarioRequest>,
    line: usize,
    text: &str,
) -> Result<bool, Status> {
    if !is_request(alloc, text)? {
        return Ok(false);
    }
    let mut words = String::new(alloc);
    words.push_str(text.trim())?;
    requests.push(ScenarioRequest { line, words })?;
    Ok(true)
}

// Appends requests, divided by semicolons. Whether all are some.
fn put_requests(
    alloc: Global,
    requests: &mut Vec<ScenarioRequest>,
    line: usize,
    text: &str,
) -> Result<bool, Status> {
    for part in text.split(';') {
        if !put_request(alloc, requests, line, part)? {
            return Ok(false);
        }
    }
    Ok(true)
}

// Whether a line says nothing.
fn is_remark(line: &str) -> bool {
    match line.as_bytes().first() {
        Some(first) => *first == b'#',
        None => true,
    }
}

impl ClientScenario {
    /// Reads a scenario. Refused with 1, if memory is refused.
    pub(crate) fn read(
        alloc: Global,
        text: &str,
    ) -> Result<Result<ClientScenario, ScenarioFault>, Status> {
        let mut scenario = ClientScenario {
            set_up: Vec::new(alloc),
            clients: Vec::new(alloc),
            finally: Vec::new(alloc),
        };
        let lines = lines_of(alloc, text)?;
        for (place, line) in lines.iter().enumerate() {
            let number = place.saturating_add(1);
            let line = without_return(line).trim();
            if !is_remark(line) {
                if let Some(fault) = scenario.take(alloc, number, line)? {
                    return Ok(Err(fault));
                }
            }
        }
        if scenario.clients.is_empty() {
            return Ok(Err(ScenarioFault::NoClient));
        }
        Ok(Ok(scenario))
    }

    // Takes a line, or says what is wrong with it.
    fn take(
        &mut self,
        alloc: Global,
        number: usize,
        line: &str,
    ) -> Result<Option<ScenarioFault>, Status> {
        let is_taken = match line.split_once(':') {
            Some(("finally", requests)) => {
                put_requests(alloc, &mut self.finally, number, requests)?
            }
            Some((who, requests)) => match who.split_once(' ') {
                Some(("client", name)) => {
                    return self.take_client(alloc, name.trim(), number, requests);
                }
                _ => self.put_set_up(alloc, number, line)?,
            },
            None => self.put_set_up(alloc, number, line)?,
        };
        Ok(if is_taken {
            None
        } else {
            Some(ScenarioFault::Line(number))
        })
    }

    // Appends a line before the clients. Whether it is one.
    fn put_set_up(&mut self, alloc: Global, number: usize, line: &str) -> Result<bool, Status> {
        if !self.clients.is_empty() {
            return Ok(false);
        }
        put_request(alloc, &mut self.set_up, number, line)
    }

    // Takes a client's line, or says what is wrong with it.
    fn take_client(
        &mut self,
        alloc: Global,
        name: &str,
        number: usize,
        text: &str,
    ) -> Result<Option<ScenarioFault>, Status> {
        let mut requests = Vec::new(alloc);
        if name.is_empty()
            || name.contains(' ')
            || !put_requests(alloc, &mut requests, number, text)?
        {
            return Ok(Some(ScenarioFault::Line(number)));
        }
        if let Some(client) = self
            .clients
            .iter_mut()
            .find(|client| client.name.as_str() == name)
        {
            append(&mut client.requests, requests)?;
            return Ok(None);
        }
        if self.clients.len() >= CLIENTS {
            return Ok(Some(ScenarioFault::Clients));
        }
        let mut own = String::new(alloc);
        own.push_str(name)?;
        self.clients.push(ClientLines {
            name: own,
            requests,
        })?;
        Ok(None)
    }
}

// Whether one of these lines expects something.
fn has_expectation(lines: &[ScenarioRequest]) -> bool {
    lines.iter().any(|line| line.is_expectation())
}

// Appends requests to others.
fn append(
    requests: &mut Vec<ScenarioRequest>,
    more: Vec<ScenarioRequest>,
) -> Result<(), AllocError> {
    for request in more {
        requests.push(request)?;
    }
    Ok(())
}

impl ClientScenario {
    /// The clients' names. Fails if memory is refused.
    pub(crate) fn names(&self, alloc: Global) -> Result<Vec<&str>, AllocError> {
        self.clients
            .iter()
            .map(|client| client.name.as_str())
            .collect(alloc)
    }

    /// Whether a line expects something.
    pub(crate) fn expects(&self) -> bool {
        has_expectation(&self.set_up)
            || has_expectation(&self.finally)
            || self
                .clients
                .iter()
                .any(|client| has_expectation(&client.requests))
    }

    /// The place of the client of that name.
    pub(crate) fn place(&self, name: &str) -> Option<usize> {
        self.clients
            .iter()
            .position(|client| client.name.as_str() == name)
    }
}
