//! Mistakes of filters, by the numbers under which the host for drivers in C tells them.

ghost use Rattle.std.specs.Prelude.{◌≡◌, bytes_eq, find};
ghost use Rattle.fm_mistakes.specs.Mistakes.{id_of, is_leak, is_limit, is_misuse, is_same_status, mistake_of, mistake_read, number_of, post_mistake, pre_mistake, unless};

use fm_callback_data::PreVerdict;
use fm_core::PreState;
use fm_local::{PortCall, PostAnswer, PreAnswer, Refusal};
use fm_types::Status;
use std::fmt;

/// A mistake, by its number.
#[derive(Clone, Copy, Debug, PartialEq, Eq)]
pub enum Mistake {
    /// A reference to a context was never released.
    Leak,
    /// A context was released to which no reference is held.
    ReleasedTwice,
    /// A context was used to which no reference is held.
    NotReferenced,
    /// A context was set to which no reference is held.
    SetNotReferenced,
    /// An operation is held to the end.
    HeldToTheEnd,
    /// A held operation was let go on that isn't held.
    NotHeld,
    /// A preoperation asked for a postoperation that isn't registered.
    NoPost,
    /// A preoperation that doesn't complete its operation set a status.
    StatusNotCompleted,
    /// A preoperation completed a create with success.
    CreateCompleted,
    /// A preoperation completed a cleanup or a close.
    CloseCompleted,
    /// A postoperation changed the status of an operation whose answer it can't change.
    FixedAnswer,
}

/// All of them.
const ALL: [Mistake; 11] = [
    Mistake::Leak,
    Mistake::ReleasedTwice,
    Mistake::NotReferenced,
    Mistake::SetNotReferenced,
    Mistake::HeldToTheEnd,
    Mistake::NotHeld,
    Mistake::NoPost,
    Mistake::StatusNotCompleted,
    Mistake::CreateCompleted,
    Mistake::CloseCompleted,
    Mistake::FixedAnswer,
];

// The one that is told so.
fn told_as(all: &[Mistake], id: &str) -> Option<Mistake>
    ensures { result ≡ find (λ told. bytes_eq (id_of told) id.now) all.now }
{
    all.iter().copied().find(|told| told.id() == id)
}

impl Mistake {
    /// Its number, which stays.
    pub fn number(self) -> u16
        ensures { result ≡ number_of self }
    {
        match self {
            Mistake::Leak => 101,
            Mistake::ReleasedTwice => 102,
            Mistake::NotReferenced => 103,
            Mistake::SetNotReferenced => 110,
            Mistake::HeldToTheEnd => 111,
            Mistake::NotHeld => 113,
            Mistake::NoPost => 124,
            Mistake::StatusNotCompleted => 125,
            Mistake::CreateCompleted => 221,
            Mistake::CloseCompleted => 222,
            Mistake::FixedAnswer => 223,
        }
    }

    /// Its number as it is told.
    pub fn id(self) -> &'static str
        ensures { result.now ≡ id_of self }
    {
        match self {
            Mistake::Leak => "KZ0101",
            Mistake::ReleasedTwice => "KZ0102",
            Mistake::NotReferenced => "KZ0103",
            Mistake::SetNotReferenced => "KZ0110",
            Mistake::HeldToTheEnd => "KZ0111",
            Mistake::NotHeld => "KZ0113",
            Mistake::NoPost => "KZ0124",
            Mistake::StatusNotCompleted => "KZ0125",
            Mistake::CreateCompleted => "KZ0221",
            Mistake::CloseCompleted => "KZ0222",
            Mistake::FixedAnswer => "KZ0223",
        }
    }

    /// Whether it is a limit of the model, and no mistake of the filter.
    pub fn is_limit(self) -> bool
        ensures { result ≡ is_limit self }
    {
        matches!(
            self,
            Mistake::CreateCompleted | Mistake::CloseCompleted | Mistake::FixedAnswer
        )
    }

    /// Whether it is a reference that a callback left behind.
    pub fn is_leak(self) -> bool
        ensures { result ≡ is_leak self }
    {
        matches!(self, Mistake::Leak)
    }

    /// Whether something was given back or let go on that isn't held.
    pub fn is_misuse(self) -> bool
        ensures { result ≡ is_misuse self }
    {
        matches!(self, Mistake::ReleasedTwice | Mistake::NotHeld)
    }

    /// The mistake that is told so.
    #[tactic(auto, unfolding(crate::specs::Mistakes::mistake_read))]
    pub fn read(id: &str) -> Option<Mistake>
        ensures { result ≡ mistake_read id.now }
    {
        told_as(&ALL, id)
    }

    /// Which mistake a refused call of a port is; none where a filter may meet that refusal.
    pub fn of(refusal: &Refusal) -> Option<Mistake>
        ensures { result ≡ mistake_of refusal.now.status refusal.now.call }
    {
        match (refusal.status, refusal.call) {
            (Status::NotHeld, PortCall::Release(_)) => Some(Mistake::ReleasedTwice),
            (Status::NotHeld, PortCall::Set(_)) => Some(Mistake::SetNotReferenced),
            (Status::NotHeld, _) => Some(Mistake::NotReferenced),
            (Status::NotPended, _) => Some(Mistake::NotHeld),
            _ => None,
        }
    }

    /// Which mistake a preoperation made whose verdict doesn't count as it was given, or that set a status for nothing; none where it made none.
    pub fn of_pre(answer: &PreAnswer) -> Option<Mistake>
        ensures { result ≡ pre_mistake answer.now.given answer.now.counted (is_same_status answer.now.found answer.now.left) }
    {
        match (answer.given, answer.counted) {
            (PreVerdict::WithCallback(_) | PreVerdict::Synchronize(_), Some(PreState::Passed)) => {
                Some(Mistake::NoPost)
            }
            (PreVerdict::Complete(_), Some(PreState::Passed)) => Some(Mistake::CloseCompleted),
            (PreVerdict::Complete(given), Some(PreState::Completed(counted))) => {
                unless(is_same_status(given, counted), Mistake::CreateCompleted)
            }
            (PreVerdict::Pending, _) => None,
            _ => unless(
                is_same_status(answer.found, answer.left),
                Mistake::StatusNotCompleted,
            ),
        }
    }

    /// Which limit a postoperation met that left a status, where the next step of the operation found that one; none where it counted.
    pub fn of_post(answer: &PostAnswer, next: Status) -> Option<Mistake>
        ensures { result ≡ post_mistake (is_same_status answer.now.found answer.now.left) (is_same_status answer.now.left next) }
    {
        let is_unchanged = is_same_status(answer.found, answer.left);
        let counts = is_same_status(answer.left, next);
        unless(is_unchanged || counts, Mistake::FixedAnswer)
    }
}

// Whether two statuses are the same.
fn is_same_status(one: Status, other: Status) -> bool
    ensures { result ≡ is_same_status one other }
{
    one.number() == other.number() && one.information() == other.information()
}

// That mistake, but where that is so.
fn unless(is_so: bool, mistake: Mistake) -> Option<Mistake>
    ensures { result ≡ unless is_so mistake }
{
    if is_so { None } else { Some(mistake) }
}

/// The number, and what was done.
impl fmt::Display for Mistake {
    fn fmt<W: fmt::Write>(&self, f: &mut fmt::Formatter<W>) -> fmt::Result {
        let words = match self {
            Mistake::Leak => "a reference to a context was never released",
            Mistake::ReleasedTwice => "a context was released to which no reference is held",
            Mistake::NotReferenced => "a context was used to which no reference is held",
            Mistake::SetNotReferenced => "a context was set to which no reference is held",
            Mistake::HeldToTheEnd => "an operation is held to the end",
            Mistake::NotHeld => "an operation was let go on that isn't held there",
            Mistake::NoPost => "a postoperation was asked for that isn't registered",
            Mistake::StatusNotCompleted => {
                "a preoperation set a status, and doesn't complete the operation"
            }
            Mistake::CreateCompleted => {
                "a create that is completed with success counts as denied"
            }
            Mistake::CloseCompleted =>
                "a cleanup or a close that is completed goes down all the same",
            Mistake::FixedAnswer => {
                "the status that a postoperation set of this operation doesn't count"
            }
        };
        let kind = if self.is_limit() { "LIMIT" } else { "TOLD" };
        write!(f, "{kind} {} {words}", self.id())
    }
}
