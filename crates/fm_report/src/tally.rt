//! The figures of a run at its end.

/// What cut a run off.
#[derive(Clone, Copy, PartialEq, Eq)]
pub enum RunFault {
    /// There was no memory.
    NoMemory,
    /// It couldn't be read to its end.
    Read,
    /// The output couldn't be written.
    Write,
}

/// What a run left, and how it ended.
#[derive(Clone, Copy)]
pub struct Summary {
    /// What cut it off, if something did.
    pub fault: Option<RunFault>,
    /// Its exit status.
    pub status: u8,
    /// How many lines it has.
    pub lines: u32,
    /// How many of them were refused.
    pub refused: u64,
    /// How many contexts were allocated, and how many of these were cleaned up.
    pub born: u64,
    pub cleaned: u64,
    /// How many references callbacks left behind.
    pub leaks: u64,
    /// How many operations filters hold.
    pub held: u64,
    /// How many lines gave back or resumed what they didn't have.
    pub misuses: u64,
    /// How much wasn't as the script expects.
    pub unmet: u64,
    /// How many mistakes were told that no line expects, in a trial.
    pub told: Option<u64>,
    /// How many steps, leaks and refused calls weren't kept, in a trial.
    pub dropped: Option<u64>,
}

impl Summary {
    /// The verdict in a word.
    pub fn verdict(&self) -> &'static str {
        match (self.fault, self.status) {
            (Some(RunFault::NoMemory), _) => "NoMemory",
            (Some(RunFault::Read), _) => "ReadFault",
            (Some(RunFault::Write), _) => "WriteFault",
            (None, 0) => "Well",
            (None, 2) => "WrongLine",
            (None, 5) => "Left",
            (None, _) => "Unexpected",
        }
    }
}
