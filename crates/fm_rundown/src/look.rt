//! What a look at a volume finds.

ghost use Rattle.std.specs.Prelude.{◌≡◌};

use fm_types::VolumeId;

/// How far a volume's rundown has come.
#[derive(Clone, Copy, Debug, PartialEq, Eq)]
pub enum Look {
    /// Nobody has closed it.
    Open,
    /// It is closed, and passes of it may be held.
    Closing,
    /// It is closed, and nobody holds a pass of it or gets one.
    Drained(Seen),
}

/// A volume that was seen drained. `RundownGate::look` alone makes one, so what may begin only then takes it.
#[derive(Clone, Copy, Debug, PartialEq, Eq)]
pub struct Seen {
    pub(crate) volume: VolumeId,
}

impl Seen {
    /// Which volume it is.
    pub fn volume(&self) -> VolumeId
        ensures { result ≡ self.now.volume }
    {
        self.volume
    }
}
