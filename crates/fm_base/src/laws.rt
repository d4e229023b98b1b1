//! What follows from the trait of bases alone, of whatever base it is.

ghost use Rattle.std.specs.Prelude.{◌≡◌, ◌+◌, ◌^◌, ◌≤◌, ◌<◌, Ok, OnOk, length};
ghost use Rattle.fm_types.specs.ByteLists.{written};
ghost use Rattle.fm_base.specs.Folders.{changed, told};
ghost use Rattle.fm_base.specs.Answers.{MakesKnown, TellsKnown};

use crate::base::Base;
use fm_types::{Bytes, RelPath, Status};

/// Writes bytes to a file and reads them back from the same place. Where the base stands for a folder
/// that has the file, what is read is what was written, unless memory or the device fails; 19 where the
/// file is absent.
pub fn write_and_read<B: Base>(
    base: &mut B,
    path: &RelPath,
    offset: u64,
    bytes: &[u8],
) -> Result<Bytes, Status>
    requires end { offset + length bytes.now ≤ 2 ^ 40 }
    requires small { length bytes.now < 2 ^ 32 }
    ensures back { TellsKnown (told (λ _. Ok bytes.now) path.now) (B.folder base.old) result }
    ensures written { let wanted = changed (written offset bytes.now) path.now in OnOk result (MakesKnown {T = Unit {0}} path.now wanted (B.folder base.old) (B.folder base.new) (Ok tt)) }
{
    base.write(path, offset, bytes)?;
    base.read(path, offset, bytes.len() as u32)
}
