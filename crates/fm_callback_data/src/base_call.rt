//! What the file system below a volume is asked.

ghost use Rattle.std.specs.Prelude.{◌≡◌};
ghost use Rattle.fm_callback_data.specs.Data.{fresh_data};
ghost use Rattle.fm_callback_data.specs.Params.{same_path, call_fits};

use crate::callback_data::CallbackData;
use crate::params::Params;
use fm_types::{Operation, SharedPath, VolumeId};
use std::marker::Model;

/// A call of the base: what an operation that reached it asks, whole, so that nobody has to look
/// anything up again (`FLT_IO_PARAMETER_BLOCK`, with its target file). Contracts see the volume, the path and the parameters.
#[derive(Drop)]
pub struct BaseCall {
    volume: VolumeId,
    path: Option<SharedPath>,
    data: CallbackData,
}

impl Model for BaseCall {
    ghost use Rattle.std.specs.Prelude.{◌≡◌};
    ghost use Rattle.fm_callback_data.specs.Calls.{BaseCall as Call};
    ghost use Rattle.fm_callback_data.specs.Data.{fresh_data};

    ghost Value = { Call };

    ghost view = { λ call. record { volume = call.volume; path = call.path; params = call.data.received } };

    ghost invariant = { λ call. call.data ≡ fresh_data call.data.received };
}

impl BaseCall {
    /// The call for the parameters of data that nobody changed or answered, on that volume and the file of that path.
    pub fn new(volume: VolumeId, path: Option<SharedPath>, lent: CallbackData) -> BaseCall
        requires { lent ≡ fresh_data lent.received }
        ensures { result ≡ record { volume = volume; path = path; params = lent.received } }
    {
        BaseCall {
            volume,
            path,
            data: lent,
        }
    }

    /// The volume that is asked.
    pub fn volume(&self) -> VolumeId
        ensures { result ≡ self.now.volume }
    {
        self.volume
    }

    /// The path of the file, as it was when the operation began; a listing has none.
    pub fn path(&self) -> &Option<SharedPath>
        ensures { result.now ≡ self.now.path }
    {
        &self.path
    }

    /// What is asked: the parameters that came down last.
    pub fn params(&self) -> &Params
        ensures { result.now ≡ self.now.params }
    {
        self.data.received()
    }

    /// The data with the parameters, once the call is over.
    pub fn into_data(self) -> CallbackData
        ensures { result ≡ fresh_data self.params }
    {
        self.data
    }

    /// Whether such an operation, on the file of that path, may hand this back: volume and path are its
    /// own, and so are the parameters, within the limits.
    pub fn fits(&self, operation: Operation, volume: VolumeId, path: &Option<SharedPath>) -> bool
        ensures { result ≡ call_fits operation volume path.now self.now }
    {
        self.volume.0 == volume.0
            && same_path(&self.path, path)
            && self.params().fit(operation, path)
    }
}

fn same_path(own: &Option<SharedPath>, path: &Option<SharedPath>) -> bool
    ensures { result ≡ same_path own.now path.now }
{
    match own {
        Some(own) => match path {
            Some(path) => own.path() == path.path(),
            None => false,
        },
        None => path.is_none(),
    }
}
