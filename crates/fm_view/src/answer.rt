//! What a script prints for what its lines answered.

ghost use Rattle.std.specs.Prelude.{◌≡◌, [], IfOk};
ghost use Rattle.fm_view.specs.Lines.{printed_behind};

use fm_script::Said;
use std::alloc::{AllocError, Global};

/// The lines that a script prints for these answers.
pub fn printed(alloc: Global, told: &[Said]) -> Result<Vec<u8>, AllocError>
    ensures { IfOk result (λ text. text.items ≡ printed_behind [] told.now) }
{
    let mut text = Vec::new(alloc);
    let mut rest = told;
    while let Some((said, behind)) = rest.split_first() {
        said.print(&mut text)?;
        rest = behind;
    }
    Ok(text)
}
