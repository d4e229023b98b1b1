//! How a script ends.

ghost use Rattle.std.specs.Prelude.{◌≡◌};
ghost use Rattle.fm_script.specs.Ends.{exit_status};

/// How a script ended.
#[derive(Clone, Copy, Debug, PartialEq, Eq)]
pub enum ScriptEnd {
    /// Its reader came to its end, and all that it printed was written.
    Ended,
    /// Its reader failed, or gave more lines or took more reads than a script may have.
    ReadFault,
    /// Its writer failed.
    WriteFault,
    /// There was no memory for what it asked.
    NoMemory,
}

impl ScriptEnd {
    /// The exit status of a program that ran the script: 0 where it ended, 1 where there was no memory, and 3 where a read or a write failed.
    pub fn status(self) -> u8
        ensures { result ≡ exit_status self }
    {
        match self {
            ScriptEnd::Ended => 0,
            ScriptEnd::NoMemory => 1,
            ScriptEnd::ReadFault | ScriptEnd::WriteFault => 3,
        }
    }
}
