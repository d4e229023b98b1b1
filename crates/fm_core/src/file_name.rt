//! Files by their names, and which stream each has.

ghost use Rattle.std.specs.Prelude.{◌≡◌, ◌<◌, ◌++◌, ◌∷◌, [], None, Some, IfOk};
ghost use Rattle.std.specs.Hash as fed;
ghost use Rattle.std.specs.HashMap.{spare};
ghost use Rattle.fm_core.specs.FileNames.{is_same_file, number_in, Notes};

use fm_types::{SharedPath, StreamId, VolumeId};
use std::alloc::AllocError;
use std::collections::HashMap;
use std::hash::{Hash, Hasher};

/// A file by its volume and its path there (`FLT_FILE_NAME_INFORMATION`).
#[derive(Drop)]
pub(crate) struct FileName {
    pub volume: VolumeId,
    pub path: SharedPath,
}

impl PartialEq for FileName {
    ghost use Rattle.fm_core.specs.FileNames.{is_same_file, same_file_laws};
    ghost use Rattle.std.specs.Cmp.{partial_equiv_from_equiv};

    ghost eq = { is_same_file };

    ghost laws = { partial_equiv_from_equiv same_file_laws };

    fn eq(&self, other: &FileName) -> bool {
        self.volume.0 == other.volume.0 && self.path.path() == other.path.path()
    }
}

impl Eq for FileName {
    ghost use Rattle.fm_core.specs.FileNames.{same_file_laws};

    ghost laws = { same_file_laws };
}

impl Hash for FileName {
    ghost use Rattle.fm_core.specs.FileNames.{fed_alike};

    ghost hash_input = { λ name. fed.u8 name.volume.0 ++ name.path ∷ [] };

    ghost respects_eq = { fed_alike };

    fn hash<H: Hasher>(&self, state: &mut H) {
        state.write_u8(self.volume.0);
        state.write(self.path.path().text());
    }
}

/// The stream of a file, if it has one, and the file's path, which it shares with that stream. The error says that no more owners of the path can be counted.
pub(crate) fn look_up(
    numbers: &HashMap<FileName, StreamId>,
    name: FileName,
) -> Result<(Option<StreamId>, SharedPath), AllocError>
    ensures found { IfOk result (λ found. found.0 ≡ number_in numbers.now name) }
    ensures path { IfOk result (λ found. found.1 ≡ name.path) }
{
    match numbers.get_key_value(&name) {
        Some((own, stream)) => Ok((Some(*stream), own.path.share()?)),
        None => Ok((None, name.path)),
    }
}

/// A file has that stream from here on. The room was made with the stream's, so this takes no memory.
pub(crate) fn note(numbers: &mut HashMap<FileName, StreamId>, name: FileName, stream: StreamId)
    requires { 0 < spare numbers.old }
    ensures { Notes numbers.old numbers.new name (Some stream) }
{
    match numbers.insert(name, stream) {
        Ok(_) => {}
        Err(_) => unreachable!(),
    }
}

/// A file has no stream any more.
pub(crate) fn forget(numbers: &mut HashMap<FileName, StreamId>, name: &FileName)
    ensures { Notes numbers.old numbers.new name.now None }
{
    numbers.remove(name);
}
