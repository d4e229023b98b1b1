//! Why a program ends early.

ghost use Rattle.std.specs.Prelude.{◌≡◌};
ghost use Rattle.fm_cli.specs.Faults.{exit_status};

use std::alloc::AllocError;
use std::io;
use thiserror::Error;

/// Why a program of the server ends early.
#[derive(Debug, Drop, Error)]
pub enum Fault {
    /// There is no memory.
    #[error("out of memory")]
    Memory(#[from(alloc)] AllocError),
    /// The words were refused.
    #[error("words refused")]
    Words,
    /// A file, a read, a write or a socket failed.
    #[error("fault")]
    Outside(#[from] io::Error),
}

impl Fault {
    /// The exit status of the program: 1 for want of memory, 2 for words that were refused, 3 for a fault outside.
    pub fn status(&self) -> u8
        ensures { result ≡ exit_status self.now }
    {
        match self {
            Fault::Memory(_) => 1,
            Fault::Words => 2,
            Fault::Outside(_) => 3,
        }
    }
}
