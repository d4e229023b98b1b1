//! Where the files of a base lie on the host.

ghost use Rattle.std.specs.Prelude.{◌≡◌, ◌++◌, ◌∷◌, IfOk, string_bytes};

use fm_types::RelPath;
use std::alloc::{AllocError, Global};
use std::str;

/// The path of a file on the host: that of the folder, a `/`, and the file's path below it. Since that
/// one has no empty part, no `.` and no `..`, the file lies in the folder.
pub fn joined(alloc: Global, folder: &str, path: &RelPath) -> Result<String, AllocError>
    ensures { IfOk result (λ whole. string_bytes whole ≡ folder.now ++ 47 ∷ path.now) }
{
    let text = str::from_utf8(path.text()).unwrap();
    let mut whole = String::with_capacity(alloc, folder.len() + 1 + text.len())?;
    whole.push_str(folder)?;
    whole.push('/')?;
    whole.push_str(text)?;
    Ok(whole)
}
