//! The laws of folds, as functions that promise them and do nothing.

ghost use Rattle.fm_device.specs.Bases.{BasesCarry};
ghost use Rattle.fm_world.specs.Words.{WorkerId};
ghost use Rattle.fm_local.specs.Actions.{RepliesAreFolds};
ghost use Rattle.fm_local.specs.Functions.{OneFold};
ghost use Rattle.fm_local.specs.Requests.{CarriedAreFolds, CarriedIsFold};
ghost use Rattle.fm_local.specs.Shifts.{ShiftRound};
ghost use Rattle.fm_local.specs.Visits.{OneWay};
ghost use Rattle.fm_local.specs.Waits.{EndedLasts};

use fm_base::Base;
use fm_device::Device;
use fm_filter::Minifilter;

/// Where every callback and the device are functions of what they are given, an operation has one answer and leaves one end. (A device that
/// may want memory is none: it has two answers.) It does nothing.
pub fn one_fold<F: Minifilter, D: Device>()
    ensures { OneFold F.pre_may F.post_may D.carries }
{}

/// Which instances an operation meets on its way down: there is one such list, and one alone. It does nothing.
pub fn one_way()
    ensures { OneWay }
{}

/// A request that one worker carries to its end, by the events of the World alone, with filters that are plain: it is answered as its fold
/// says, leaves the folders and the open handles that the fold says, and all is at rest again. It does nothing.
pub fn carried_is_fold<F: Minifilter, B: Base>()
    ensures { CarriedIsFold F.pre_may F.post_may F.is_quiet (BasesCarry B.folder B.faults) }
{}

/// Requests that one worker carries to their ends one after the other, with cleanups in between: all of them are answered as their folds
/// say, a close as its cleanup and then the close itself. It does nothing.
pub fn carried_are_folds<F: Minifilter, B: Base>()
    ensures { CarriedAreFolds F.pre_may F.post_may F.is_quiet (BasesCarry B.folder B.faults) }
{}

/// Requests that a manager which is ready is asked one after the other: all replies are those of the folds of its filters over its file systems, these and the
/// open handles are left as the folds say, and the manager is ready again; none is ever held. It does nothing.
pub fn replies_are_folds<F: Minifilter, B: Base>()
    ensures { (k : WorkerId) → RepliesAreFolds F.Minifilter B.Base k }
{}

/// A write and a later read of the same range, through the same instances, all of them of the filter shift, both answered with success,
/// over a base that knows its folder, and the file unchanged in between: the client reads the bytes that it wrote. It does nothing.
pub fn shift_round<B: Base>()
    ensures { ShiftRound B.folder B.faults }
{}

/// Whatever event comes next in a state that is sound, with whatever answer: an operation that is done and whose answer wasn't handed out is so afterwards,
/// unless the event hands it out. It does nothing.
pub fn ended_lasts()
    ensures { EndedLasts }
{}
