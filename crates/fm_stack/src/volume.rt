//! Volumes: a name, and how far a dismount has come.

ghost use Rattle.std.specs.Prelude.{◌≡◌, ◌<◌, length};
ghost use Rattle.fm_types.specs.Lists.{updated};
ghost use Rattle.fm_stack.specs.Events.{is_mounted_phase};
ghost use Rattle.fm_stack.specs.Dismounting.{volume_in, emptied_in, emptied_phase, is_volume_emptied_phase};

use fm_types::Name;

/// How far a volume's dismount has come.
#[derive(Clone, Copy, Debug, PartialEq, Eq)]
pub enum VolumePhase {
    /// In use.
    Mounted,
    /// No instance is attached and no operation begins any more.
    Dismounting,
    /// Its volume contexts are unlinked.
    Emptied,
    /// Dismounted for good. It keeps its number and its name.
    Finished,
}

impl VolumePhase {
    // How far it has come once the volume is emptied: a dismount that has ended stays so.
    fn emptied(self) -> VolumePhase
        ensures { result ≡ emptied_phase self }
    {
        match self {
            VolumePhase::Finished => VolumePhase::Finished,
            _ => VolumePhase::Emptied,
        }
    }
}

/// A volume that was mounted in this run. Rows are kept for good.
#[derive(Drop)]
pub struct Volume {
    /// Its name, which no other volume has.
    pub name: Name,
    /// How far its dismount has come.
    pub phase: VolumePhase,
}

impl Volume {
    /// Whether the volume is in use: no dismount of it has begun.
    pub fn is_mounted(&self) -> bool
        ensures { result ≡ is_mounted_phase self.now.phase }
    {
        matches!(self.phase, VolumePhase::Mounted)
    }

    /// Whether the volume's contexts are unlinked, and its dismount may be finished.
    pub fn is_emptied(&self) -> bool
        ensures { result ≡ is_volume_emptied_phase self.now.phase }
    {
        matches!(self.phase, VolumePhase::Emptied)
    }
}

/// One volume goes on to that phase.
pub fn set_phase(rows: &mut Vec<Volume>, at: usize, phase: VolumePhase)
    requires { at < length rows.old.items }
    ensures { rows.new.items ≡ updated (volume_in phase) rows.old.items at }
{
    rows[at].phase = phase;
}

/// One volume is emptied; if its dismount has ended, it stays so.
pub fn empty(rows: &mut Vec<Volume>, at: usize)
    requires { at < length rows.old.items }
    ensures { rows.new.items ≡ updated emptied_in rows.old.items at }
{
    let row = &mut rows[at];
    row.phase = row.phase.emptied();
}
