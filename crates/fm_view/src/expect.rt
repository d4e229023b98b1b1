//! What a script expects of its own lines, so that it is a test: `#! expect TEXT` after a line says that it printed TEXT, and `#! expect status N`, anywhere,
//! with which status the run ends. No other line begins with `#!`, so that a slip of the pen is no remark.

ghost use Rattle.std.specs.Prelude.{◌≡◌};
ghost use Rattle.fm_view.specs.Ends.{status_met};

use fm_words::read_number;
use std::alloc::Global;

/// What an expectation begins with, and no other line.
const MARK: &[u8] = b"#!";

/// What stands behind that.
const EXPECT: &[u8] = b" expect";

/// What one on the status begins with.
const STATUS: &[u8] = b"status";

/// The greatest status with which a program can end.
const MOST: u64 = 255;

/// What a line expects.
#[derive(Clone, Copy)]
pub enum Expected<'a> {
    /// That the line before printed that.
    Text(&'a [u8]),
    /// That the run ends with that status.
    Status(u8),
    /// It can't be read: why.
    Wrong(&'static str),
}

/// Whether an expectation is met.
#[derive(Clone, Copy, PartialEq, Eq)]
pub enum ExpectOutcome {
    /// It is. That on the status is seen at the end.
    Met,
    /// It isn't.
    Unmet,
    /// The line is none that can be: why.
    Wrong(&'static str),
}

/// What the last line came to, as far as an expectation may speak of it.
#[derive(Clone, Copy)]
pub struct LineNote {
    /// Whether it was refused.
    pub is_refused: bool,
    /// Whether it couldn't be read.
    pub is_unread: bool,
    /// Whether it gave back what wasn't held, or resumed what no filter held.
    pub is_misuse: bool,
}

/// Nothing that an expectation has to speak of.
const PLAIN: LineNote = LineNote {
    is_refused: false,
    is_unread: false,
    is_misuse: false,
};

/// The last line's answers, and how many expectations weren't met so far.
#[derive(Drop)]
pub struct Expectations {
    printed: Vec<u8>,
    from: usize,
    last: LineNote,
    status: Option<u8>,
    /// How many lines expect something.
    pub count: u64,
    /// How many of them can't be read, or expect a second status.
    pub wrong: u64,
    /// How many expectations weren't met.
    pub unmet: u64,
    /// How many lines were refused that no expectation speaks of.
    pub surprises: u64,
    /// How many of those couldn't be read.
    pub unread: u64,
    /// How many of those gave back what wasn't held, or resumed what no filter held.
    pub misuses: u64,
}

/// What a line expects, if it begins as an expectation does.
pub fn expected_in(line: &[u8]) -> Option<Expected<'_>> {
    let words = line.strip_prefix(MARK)?;
    match words.strip_prefix(EXPECT) {
        Some([]) => Some(Expected::Wrong("nothing stands behind it")),
        Some([b' ', text @ ..]) => Some(read(text)),
        _ => Some(Expected::Wrong("no such line; the nearest is #! expect TEXT")),
    }
}

/// The text behind the mark of an expectation, and the space behind that.
pub fn behind_mark(line: &[u8]) -> &[u8] {
    match line.get(MARK.len() + EXPECT.len()..) {
        Some([_, text @ ..]) => text,
        _ => b"",
    }
}

// The words behind the mark.
fn read(text: &[u8]) -> Expected<'_> {
    if text.is_empty() {
        return Expected::Wrong("nothing stands behind it");
    }
    match text.strip_prefix(STATUS) {
        Some([]) => Expected::Wrong("a status is a number from 0 to 255"),
        Some([b' ', number @ ..]) => read_status(number),
        _ => Expected::Text(text),
    }
}

// The number of a status. With 2 and 6 a run ends that isn't as its lines expect, so no line can expect these.
fn read_status(number: &[u8]) -> Expected<'_> {
    match read_number(number) {
        Some(2 | 6) => {
            Expected::Wrong(
                "2 and 6 say that a run isn't as its lines expect, so no line expects them",
            )
        }
        Some(status) if status <= MOST => Expected::Status(status as u8),
        _ => Expected::Wrong("a status is a number from 0 to 255"),
    }
}

// One more.
fn count_up(count: u64, is_one: bool) -> u64 {
    count.saturating_add(u64::from(is_one))
}

impl Expectations {
    /// Nothing was printed, and all is met.
    pub fn new(alloc: Global) -> Expectations {
        Expectations {
            printed: Vec::new(alloc),
            from: 0,
            last: PLAIN,
            status: None,
            count: 0,
            wrong: 0,
            unmet: 0,
            surprises: 0,
            unread: 0,
            misuses: 0,
        }
    }

    /// A line printed that, and came to that. What was expected of the line before is settled.
    pub fn take(&mut self, printed: Vec<u8>, note: LineNote) {
        self.settle();
        self.printed = printed;
        self.from = 0;
        self.last = note;
    }

    /// What the last line came to that nothing spoke of so far.
    pub fn last(&self) -> LineNote {
        self.last
    }

    /// Nothing more is expected of the last line: a refusal that nothing spoke of is a surprise.
    pub fn settle(&mut self) {
        self.surprises = count_up(self.surprises, self.last.is_refused);
        self.unread = count_up(self.unread, self.last.is_unread);
        self.misuses = count_up(self.misuses, self.last.is_misuse);
        self.last = PLAIN;
    }

    /// Whether an expectation is met: the last line printed it, behind what earlier expectations of the line found. One status alone can be expected.
    pub fn meet(&mut self, expected: Expected<'_>) -> ExpectOutcome {
        self.count = count_up(self.count, true);
        let outcome = match expected {
            Expected::Text(text) => self.meet_text(text),
            Expected::Status(status) => self.expect_status(status),
            Expected::Wrong(why) => ExpectOutcome::Wrong(why),
        };
        self.unmet = count_up(self.unmet, outcome == ExpectOutcome::Unmet);
        self.wrong = count_up(self.wrong, matches!(outcome, ExpectOutcome::Wrong(_)));
        outcome
    }

    fn meet_text(&mut self, text: &[u8]) -> ExpectOutcome {
        if self.find(text) {
            ExpectOutcome::Met
        } else {
            ExpectOutcome::Unmet
        }
    }

    fn expect_status(&mut self, status: u8) -> ExpectOutcome {
        if self.status.is_some() {
            return ExpectOutcome::Wrong("a line before it says with which status the run ends");
        }
        self.status = Some(status);
        ExpectOutcome::Met
    }

    fn find(&mut self, expected: &[u8]) -> bool {
        let mut behind = 0usize;
        for answer in self.printed.split(|byte| *byte == b'\n') {
            let begins = behind;
            behind = behind.saturating_add(answer.len()).saturating_add(1);
            if begins >= self.from && answer == expected {
                self.from = behind;
                if answer.starts_with(b"no ") {
                    self.last = PLAIN;
                }
                return true;
            }
        }
        false
    }

    /// What the last line printed.
    pub fn printed(&self) -> &[u8] {
        self.printed.as_slice()
    }

    /// The exit status, where the run would end with that one: 0 where it was expected, 6 where another one was. 2, of a line that can't be read, stays.
    pub fn status(&self, status: u8) -> u8
        ensures { result ≡ status_met self.now.status status }
    {
        match self.status {
            Some(_) if status == 2 => 2,
            Some(expected) if expected == status => 0,
            Some(_) => 6,
            None => status,
        }
    }
}
