//! What a recording filter answers.

use fm_types::{Name, Status};
use std::alloc::Global;

/// What a recording filter answers, known by its name.
#[derive(Clone, Copy, Debug, PartialEq, Eq)]
pub(crate) enum Plan {
    /// Asks for every postoperation.
    With,
    /// Asks for none.
    Without,
    /// Holds each read and each change of a size in its preoperation. A flush lets them go on, and each has a postoperation then; the start of a teardown lets
    /// them go on without.
    Hold,
    /// Holds each read so, but the start of a teardown lets only the first of them go on.
    Late,
    /// Holds each read in its postoperation, until a flush or the start of a teardown.
    Keep,
    /// Sends the context of its handle along with each read.
    Carry,
    /// Sets a context on the instance at its setup, and one on the stream at a read.
    Meter,
    /// Denies each create.
    Deny,
    /// Has the postoperation of each read made by the worker of its preoperation.
    Sync,
}

impl Plan {
    /// All of them, each under its name. Refused with 1.
    pub(crate) fn all(alloc: Global) -> Result<Vec<(Name, Plan)>, Status> {
        let mut all = Vec::new(alloc);
        for (name, plan) in [
            ("with", Plan::With),
            ("none", Plan::Without),
            ("hold", Plan::Hold),
            ("late", Plan::Late),
            ("keep", Plan::Keep),
            ("carry", Plan::Carry),
            ("meter", Plan::Meter),
            ("deny", Plan::Deny),
            ("sync", Plan::Sync),
        ] {
            all.push((Name::read(name.as_bytes())?, plan))?;
        }
        Ok(all)
    }
}
