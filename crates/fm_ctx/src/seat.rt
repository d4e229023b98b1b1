//! Where linked contexts stand.

ghost use Rattle.std.specs.Prelude.{◌≡◌, ◌<◌};
ghost use Rattle.fm_ctx.specs.Sweep.{seat_test};
ghost use Rattle.fm_ctx.specs.Seats.{object_number, same_seat, chain_of, chain_to as number_of_chain};

use crate::object::Object;
use crate::owner::Owner;

/// How many chains there are to find seats by.
pub const CHAINS: usize = 4096;

/// The links to an object, or the links of an owner's contexts.
#[derive(Clone, Copy)]
pub enum Links {
    To(Object),
    Of(Owner),
}

/// An owner's place on an object; at most one context is linked there.
#[derive(Clone, Copy)]
pub struct Seat {
    pub owner: Owner,
    pub object: Object,
}

impl Seat {
    /// Whether it is that seat.
    pub fn is(self, other: Seat) -> bool
        ensures { result ≡ same_seat self other }
    {
        self.object.is(other.object) && self.owner.is(other.owner)
    }

    /// Whether it is on that object, or of that owner.
    pub fn is_among(self, links: Links) -> bool
        ensures { result ≡ seat_test links self }
    {
        match links {
            Links::To(object) => object.is(self.object),
            Links::Of(owner) => owner.is(self.owner),
        }
    }

    /// On which chain it is.
    pub fn chain(self) -> usize
        ensures chain { result ≡ chain_of self }
        ensures within { result < 4096 }
    {
        chain_to(self.object)
    }
}

/// On which chain the seats of an object are: all on one, so that a search passes few of other
/// objects.
pub fn chain_to(object: Object) -> usize
    ensures chain { result ≡ number_of_chain object }
    ensures within { result < 4096 }
{
    (number_of(object) % CHAINS as u64) as usize
}

fn number_of(object: Object) -> u64
    ensures { result ≡ object_number object }
{
    match object {
        Object::Volume(id) => id.0 as u64,
        Object::Instance(id) => id.0 as u64,
        Object::Stream(id) => id.0,
        Object::File(id) => id.0,
        Object::Handle(id) => id.0,
    }
}
