//! To whom contexts belong.

ghost use Rattle.std.specs.Prelude.{◌≡◌};
ghost use Rattle.fm_ctx.specs.Objects.{same_owner};

use fm_types::{FilterId, InstanceId};

/// Who owns a context: the filter owns its volume contexts, the instance all others.
#[derive(Clone, Copy, Debug, PartialEq, Eq)]
pub enum Owner {
    Filter(FilterId),
    Instance(InstanceId),
}

impl Owner {
    /// Whether it is that owner.
    pub fn is(self, other: Owner) -> bool
        ensures { result ≡ same_owner self other }
    {
        match (self, other) {
            (Owner::Filter(a), Owner::Filter(b)) => a.0 == b.0,
            (Owner::Instance(a), Owner::Instance(b)) => a.0 == b.0,
            _ => false,
        }
    }
}
