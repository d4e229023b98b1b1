//! The kinds of what can happen: how each is called in JSON, in which words it is told, and in which tone.

use fm_core::Place;

/// What happened. The name in JSON is that of the kind, but where two kinds differ in their words alone.
#[derive(Clone, Copy, PartialEq, Eq)]
pub enum Kind {
    /// A filter was loaded.
    Loaded,
    /// A volume was mounted.
    Mounted,
    /// An instance was attached, and its setup was accepted.
    Attached,
    /// A worker came into a callback, into a routine, or into the file system's call.
    InSetup,
    InPre,
    InBase,
    InPost,
    InDrain,
    InEarlyDrain,
    InCleanup,
    InQuery,
    InStart,
    InComplete,
    InRoutine,
    InUnload,
    /// A worker is in nothing.
    Idle,
    /// A callback of a setup, of a teardown, of an unload or of an early drain, or a routine, returned.
    SetUp,
    Queried,
    Started,
    Completed,
    RoutineReturned,
    Unloaded,
    EarlyDrained,
    /// An operation began.
    Began,
    /// It moved on without a call.
    Moved,
    /// A filter holds it.
    Held,
    /// It is done.
    Done,
    /// A preoperation gave its verdict, and perhaps sends a context along.
    Pre,
    /// The file system answered an operation.
    Base,
    /// The manager answered it in the file system's place.
    Known,
    /// A postoperation returned.
    Post,
    /// It returned, and holds its operation.
    PostHeld,
    /// A drain returned.
    Drained,
    /// An operation's reply was handed out.
    Replied,
    /// A preoperation that held an operation was resumed.
    Resumed,
    /// A postoperation that held an operation was resumed.
    PostResumed,
    /// A preoperation that held an operation put other parameters in place of what it received.
    HeldChanged,
    /// How `go` answers for an instance was planned.
    Planned,
    /// A context was allocated.
    Allocated,
    /// It was set on an object; what was set there before is the old one, whose reference came into the hand.
    Set,
    /// It is the one that is set, and a reference to it was taken.
    Got,
    /// It was taken off its object, and its reference is in the hand.
    TakenOff,
    /// The context of a kind was taken off its object, and its reference given up.
    TakenAway,
    /// One more reference was taken.
    Referenced,
    /// A reference was given up.
    Released,
    /// Its body was read.
    Body,
    /// Its body was written.
    Written,
    /// A number in its body was raised.
    Bumped,
    /// Its cleanup callback returned.
    Cleaned,
    /// No context is due.
    NoneDue,
    /// How far a context's life is: it has references, waits for its cleanup, is in it, or had it.
    Counted,
    CountedDue,
    CountedCleaning,
    CountedCleaned,
    /// So many references were left behind.
    Leaks,
    /// Nothing is owed to an instance.
    NoneOwed,
    /// An instance ended.
    Finished,
    /// A filter's volume contexts were taken off.
    FilterEmptied,
    /// A filter ended.
    FilterFinished,
    /// The dismount of a volume started.
    Dismounting,
    /// A handle was closed by the dismount.
    Dropped,
    /// No handle is open on a volume.
    NoneOpen,
    /// A volume's contexts were taken off.
    VolumeEmptied,
    /// The dismount of a volume ended.
    VolumeFinished,
    /// How far an instance's life is.
    Phase,
    /// So many operations are in flight at an instance.
    Flight,
    /// The device call of that number will fail.
    WillFail,
    /// None will: calls are counted from 1.
    WontFail,
    /// So many device calls failed.
    Failures,
    /// A line was refused.
    Refused,
}

/// How something is told: as it is, as a good end, as something that waits or goes, or as a refusal.
#[derive(Clone, Copy, PartialEq, Eq)]
pub enum Tone {
    Plain,
    Good,
    Waiting,
    Bad,
    /// By its status: good where that is Success, else bad.
    ByStatus,
}

impl Kind {
    /// That of a worker that came to a place.
    pub fn entered(place: Place) -> Kind {
        match place {
            Place::Idle => Kind::Idle,
            Place::Setup(_) => Kind::InSetup,
            Place::Pre(..) => Kind::InPre,
            Place::Base(_) => Kind::InBase,
            Place::Post(..) => Kind::InPost,
            Place::Drain(..) => Kind::InDrain,
            Place::EarlyDrain(..) => Kind::InEarlyDrain,
            Place::Cleanup(_) => Kind::InCleanup,
            Place::Query(_) => Kind::InQuery,
            Place::Start(_) => Kind::InStart,
            Place::Complete(_) => Kind::InComplete,
            Place::Routine(_, _) => Kind::InRoutine,
            Place::Unload(_) => Kind::InUnload,
        }
    }

    /// That of a worker that came back from there.
    pub fn returned(place: Place) -> Kind {
        match place {
            Place::Setup(_) => Kind::SetUp,
            Place::Query(_) => Kind::Queried,
            Place::Start(_) => Kind::Started,
            Place::Complete(_) => Kind::Completed,
            Place::Routine(_, _) => Kind::RoutineReturned,
            Place::Unload(_) => Kind::Unloaded,
            Place::EarlyDrain(..) => Kind::EarlyDrained,
            _ => Kind::Idle,
        }
    }

    /// Its name in JSON.
    pub fn name(self) -> &'static str {
        match self {
            Kind::Loaded => "Loaded",
            Kind::Mounted => "Mounted",
            Kind::Attached => "Attached",
            Kind::InSetup => "InSetup",
            Kind::InPre => "InPre",
            Kind::InBase => "InBase",
            Kind::InPost => "InPost",
            Kind::InDrain => "InDrain",
            Kind::InEarlyDrain => "InEarlyDrain",
            Kind::InCleanup => "InCleanup",
            Kind::InQuery => "InQuery",
            Kind::InStart => "InStart",
            Kind::InComplete => "InComplete",
            Kind::InRoutine => "InRoutine",
            Kind::InUnload => "InUnload",
            Kind::Idle => "Idle",
            Kind::SetUp => "SetUp",
            Kind::Queried => "Queried",
            Kind::Started => "Started",
            Kind::Completed => "Completed",
            Kind::RoutineReturned => "RoutineReturned",
            Kind::Unloaded => "Unloaded",
            Kind::EarlyDrained => "EarlyDrained",
            Kind::Began => "Began",
            Kind::Moved => "Moved",
            Kind::Held => "Held",
            Kind::Done => "Done",
            Kind::Pre => "Pre",
            Kind::Base => "Base",
            Kind::Known => "Known",
            Kind::Post => "Post",
            Kind::PostHeld => "PostHeld",
            Kind::Drained => "Drained",
            Kind::Replied => "Replied",
            Kind::Resumed => "Resumed",
            other => other.name_of_few(),
        }
    }

    fn name_of_few(self) -> &'static str {
        match self {
            Kind::PostResumed => "PostResumed",
            Kind::HeldChanged => "HeldChanged",
            Kind::Planned => "Planned",
            Kind::Allocated => "Allocated",
            Kind::Set => "Set",
            Kind::Got => "Got",
            Kind::TakenOff | Kind::TakenAway => "TakenOff",
            Kind::Referenced => "Referenced",
            Kind::Released => "Released",
            Kind::Body => "Body",
            Kind::Written => "Written",
            Kind::Bumped => "Bumped",
            Kind::Cleaned => "Cleaned",
            Kind::NoneDue => "NoneDue",
            Kind::Counted | Kind::CountedDue | Kind::CountedCleaning | Kind::CountedCleaned => {
                "Count"
            }
            Kind::Leaks => "Leaks",
            Kind::NoneOwed => "NoneOwed",
            Kind::Finished => "Finished",
            Kind::FilterEmptied => "FilterEmptied",
            Kind::FilterFinished => "FilterFinished",
            Kind::Dismounting => "Dismounting",
            Kind::Dropped => "Dropped",
            Kind::NoneOpen => "NoneOpen",
            Kind::VolumeEmptied => "VolumeEmptied",
            Kind::VolumeFinished => "VolumeFinished",
            Kind::Phase => "Phase",
            Kind::Flight => "Flight",
            Kind::WillFail | Kind::WontFail => "WillFail",
            Kind::Failures => "Failures",
            _ => "Refused",
        }
    }

    /// The words in which it is told, with a letter behind `%` for each fact (`fill`).
    pub fn pattern(self) -> &'static str {
        match self {
            Kind::Loaded => "filter %f",
            Kind::Mounted => "volume %v",
            Kind::Attached => "instance %i%@",
            Kind::InSetup => "%w is in the setup of %i",
            Kind::InPre => "%w is in the preoperation of %i for %o",
            Kind::InBase => "%w is in the file system's call for %o",
            Kind::InPost => "%w is in the postoperation of %i for %o",
            Kind::InDrain => "%w is in the drain of %i for %o",
            Kind::InEarlyDrain => "%w is in the early drain of %i for %o",
            Kind::InCleanup => "%w is in the cleanup of %c",
            Kind::InQuery => "%w is in the query of %i",
            Kind::InStart => "%w is in the teardown-start of %i",
            Kind::InComplete => "%w is in the teardown-complete of %i",
            Kind::InRoutine => "%w is in a routine of %i",
            Kind::InUnload => "%w is in the unload of %f",
            Kind::Idle => "%w is idle",
            Kind::SetUp => "%i is attached",
            Kind::Queried => "%i is stopping",
            Kind::Started => "the teardown-start of %i is over",
            Kind::Completed => "%i is being emptied: its contexts are taken off",
            Kind::RoutineReturned => "the routine of %i is over",
            Kind::Unloaded => "%f is being unloaded: its instances are stopping",
            Kind::EarlyDrained => "drain  %i of %o, before its turn",
            Kind::Began => "%O",
            Kind::Moved => "%o moved on without a call: ask again",
            Kind::Held => "held   %i",
            Kind::Done => "%o is done: its reply can be collected",
            Kind::Pre => "down   %i %V",
            Kind::Base => "base   %s",
            Kind::Known => "answer %s, without the file system",
            Kind::Post => "up     %i",
            Kind::PostHeld => "up     %i holds %o",
            Kind::Drained => "drain  %i",
            Kind::Replied => "reply  %s%R",
            Kind::Resumed => "%o goes on: %i %V",
            other => other.pattern_of_few(),
        }
    }

    fn pattern_of_few(self) -> &'static str {
        match self {
            Kind::PostResumed => "%o goes on: the postoperation of %i is over",
            Kind::HeldChanged => "%i changed the parameters of %o, which it holds",
            Kind::Planned => "in a go %i %V",
            Kind::Allocated => "%c",
            Kind::Set => "%c is set%D",
            Kind::Got => "a reference to %c",
            Kind::TakenOff => "%c is taken off, its reference is in the hand",
            Kind::TakenAway => "the %k context is taken off",
            Kind::Referenced => "one more reference to %c",
            Kind::Released => "one reference fewer to %c",
            Kind::Body => "the body of %c: %x",
            Kind::Written => "the body of %c is written",
            Kind::Bumped => "the number in %c is %n",
            Kind::Cleaned => "%c is cleaned up",
            Kind::NoneDue => "no context is due",
            Kind::Counted => "%c has %r",
            Kind::CountedDue => "%c has none, and waits for its cleanup",
            Kind::CountedCleaning => "%c is being cleaned up",
            Kind::CountedCleaned => "%c was cleaned up",
            Kind::Leaks => "%r left behind",
            Kind::NoneOwed => "nothing is owed to %i",
            Kind::Finished => "%i is detached",
            Kind::FilterEmptied => "the volume contexts of %f are taken off",
            Kind::FilterFinished => "%f is unloaded",
            Kind::Dismounting => "%v is being dismounted: its instances are stopping",
            Kind::Dropped => "%h is closed",
            Kind::NoneOpen => "no handle is open on %v",
            Kind::VolumeEmptied => "the contexts on %v are taken off",
            Kind::VolumeFinished => "%v is dismounted",
            Kind::Phase => "%i is %P",
            Kind::Flight => "%b in flight at %i",
            Kind::WillFail => "device call %n will fail",
            Kind::WontFail => "device calls count from 1, so none will fail",
            Kind::Failures => "%a failed",
            _ => "REFUSED %s",
        }
    }

    /// The tone in which it is told.
    pub fn tone(self) -> Tone {
        match self {
            Kind::Refused => Tone::Bad,
            Kind::Replied | Kind::Base | Kind::Known => Tone::ByStatus,
            Kind::Held | Kind::PostHeld | Kind::Drained | Kind::Dismounting => Tone::Waiting,
            Kind::Cleaned | Kind::Finished | Kind::FilterFinished | Kind::VolumeFinished => {
                Tone::Good
            }
            _ => Tone::Plain,
        }
    }

    /// Whether it has a place of its own in a picture: it isn't what a question was answered with, or what stands with another event.
    pub fn is_drawn(self) -> bool {
        !matches!(
            self,
            Kind::Loaded
                | Kind::Mounted
                | Kind::Planned
                | Kind::WillFail
                | Kind::WontFail
                | Kind::Failures
                | Kind::Leaks
                | Kind::Phase
                | Kind::Flight
                | Kind::Counted
                | Kind::CountedDue
                | Kind::CountedCleaning
                | Kind::CountedCleaned
                | Kind::Held
                | Kind::Moved
                | Kind::Done
        )
    }

    /// Whether the life of an instance, a filter or a volume may have gone on with it.
    pub fn changes_lives(self) -> bool {
        matches!(
            self,
            Kind::SetUp
                | Kind::Queried
                | Kind::Started
                | Kind::Completed
                | Kind::Unloaded
                | Kind::EarlyDrained
                | Kind::InComplete
                | Kind::Finished
                | Kind::FilterEmptied
                | Kind::FilterFinished
                | Kind::Dismounting
                | Kind::VolumeEmptied
                | Kind::VolumeFinished
                | Kind::Refused
        )
    }

    /// Whether a worker came to a place with it.
    pub fn is_entry(self) -> bool {
        matches!(
            self,
            Kind::InSetup
                | Kind::InPre
                | Kind::InBase
                | Kind::InPost
                | Kind::InDrain
                | Kind::InEarlyDrain
                | Kind::InCleanup
                | Kind::InQuery
                | Kind::InStart
                | Kind::InComplete
                | Kind::InRoutine
                | Kind::InUnload
        )
    }

    /// Whether it is told with the kind of its context, and whose that is.
    pub fn is_of_context(self) -> bool {
        matches!(
            self,
            Kind::Allocated
                | Kind::Set
                | Kind::Got
                | Kind::TakenOff
                | Kind::Referenced
                | Kind::Released
                | Kind::Body
                | Kind::Written
                | Kind::Bumped
                | Kind::InCleanup
                | Kind::Cleaned
                | Kind::Counted
                | Kind::CountedDue
                | Kind::CountedCleaning
                | Kind::CountedCleaned
        )
    }
}
