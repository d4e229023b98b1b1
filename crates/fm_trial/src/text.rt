//! The lines of a text, and the words of a line.

ghost use Rattle.std.specs.Prelude.{◌≡◌, IfOk, map};
ghost use Rattle.fm_trial.specs.Lines.{AreWords, IsWithoutReturn, text_lines};

use std::alloc::{AllocError, Global};

/// What stands between the line feeds of a text: at least one line. Fails if memory is refused.
pub fn lines_of<'a>(alloc: Global, text: &'a str) -> Result<Vec<&'a str>, AllocError>
    ensures { IfOk result (λ lines. map (λ line. line.now) lines.items ≡ text_lines text.now) }
{
    let mut lines = Vec::new(alloc);
    let mut left = text;
    while let Some((line, behind)) = left.split_once('\n') {
        lines.push(line)?;
        left = behind;
    }
    lines.push(left)?;
    Ok(lines)
}

/// A line without the carriage return at its end, if it has one.
pub fn without_return(line: &str) -> &str
    ensures { IsWithoutReturn line.now result.now }
{
    line.strip_suffix('\r').unwrap_or(line)
}

/// The words of a line, divided by ASCII white space. Fails if memory is refused.
pub(crate) fn words_of<'a>(alloc: Global, line: &'a str) -> Result<Vec<&'a str>, AllocError>
    ensures { IfOk result (λ words. AreWords line.now words.items) }
{
    line.split_ascii_whitespace().collect(alloc)
}
