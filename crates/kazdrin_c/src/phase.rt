//! How far the life of an instance, a filter or a volume has come, as C is told it.

ghost use Rattle.std.specs.Prelude.{◌≡◌};
ghost use Rattle.kazdrin_c.specs.Phases.{filter_code, instance_code, phase_told, volume_code};

use crate::told::{KazdrinTold, nothing_told};
use fm_core::{FilterPhase, Phase, VolumePhase};

/// The number of an instance's phase.
pub fn instance_code(phase: Phase) -> u64
    ensures { result ≡ instance_code phase }
{
    match phase {
        Phase::Setup => 0,
        Phase::Attached => 1,
        Phase::Stopping => 2,
        Phase::Completing => 3,
        Phase::Emptying => 4,
        Phase::Detached => 5,
    }
}

/// The number of a filter's phase.
pub fn filter_code(phase: FilterPhase) -> u64
    ensures { result ≡ filter_code phase }
{
    match phase {
        FilterPhase::Loaded => 0,
        FilterPhase::Unloading => 1,
        FilterPhase::Emptied => 2,
        FilterPhase::NotLoaded => 3,
    }
}

/// The number of a volume's phase.
pub fn volume_code(phase: VolumePhase) -> u64
    ensures { result ≡ volume_code phase }
{
    match phase {
        VolumePhase::Mounted => 0,
        VolumePhase::Dismounting => 1,
        VolumePhase::Emptied => 2,
        VolumePhase::Finished => 3,
    }
}

/// A phase that may be absent, by its number.
pub fn phase_told(code: Option<u64>) -> KazdrinTold
    ensures { result ≡ phase_told code }
{
    match code {
        Some(number) => KazdrinTold {
            number,
            has: 1,
            ..nothing_told()
        },
        None => nothing_told(),
    }
}
