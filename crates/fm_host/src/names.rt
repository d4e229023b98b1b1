//! The names of the files directly in a folder of the host.

ghost use Rattle.std.specs.Prelude.{◌≡◌, ◌+◌, ◌≤◌, ◌<◌, false, IfOk, OnOk, IfSome};
ghost use Rattle.std.specs.List.{sum_by};
ghost use Rattle.fm_base.specs.Folders.{lines_of};
ghost use Rattle.fm_host.specs.Names.{line_length, IsListing};

use crate::kinds::listed_name;
use fm_types::limits::TRANSFER;
use fm_types::{Bytes, RelPath};
use std::alloc::{AllocError, Global};
use std::fs::DirEntry;
use std::rt::Files;
use std::{fs, io};

// The name under which the entry is listed, if it is. A link may lead to a file: that isn't looked at here.
fn name_of<R: Files + AllocGlobal + Clone + Drop>(
    entry: &DirEntry<R>,
) -> io::Result<Option<RelPath>> {
    let may_be_file = entry
        .file_type()
        .map(|file_type| file_type.is_file() || file_type.is_symlink());
    listed_name(entry.file_name().as_bytes(), may_be_file)
}

// Keeps the name, if there is room for its line; whether there is.
fn keep_name(names: &mut Vec<RelPath>, room: &mut usize, name: RelPath) -> Result<bool, AllocError>
    ensures room { OnOk result (room.new + sum_by line_length names.new.items ≡ room.old + sum_by line_length names.old.items) }
    ensures full { IfOk result (λ is_kept. is_kept ≡ false → room.old < line_length name) }
{
    let line = name.text().len() + 1;
    if line > *room {
        return Ok(false);
    }
    names.push(name)?;
    *room -= line;
    Ok(true)
}

// The same of the name under which the entry is listed, if it is.
fn keep_entry<R: Files + AllocGlobal + Clone + Drop>(
    names: &mut Vec<RelPath>,
    room: &mut usize,
    entry: io::Result<DirEntry<R>>,
) -> io::Result<bool>
    ensures { OnOk result (room.new + sum_by line_length names.new.items ≡ room.old + sum_by line_length names.old.items) }
{
    match name_of(&entry?)? {
        Some(name) => Ok(keep_name(names, room, name)?),
        None => Ok(true),
    }
}

// The names in the order in which the host gives them; None where their lines have too many bytes.
fn names_in<R: Files + AllocGlobal + Clone + Drop>(
    rt: &R,
    folder: &str,
) -> io::Result<Option<Vec<RelPath>>>
    ensures { IfOk result (λ told. IfSome told (λ names. sum_by line_length names.items ≤ 32768)) }
{
    let mut names = Vec::new(rt.alloc());
    let mut room = TRANSFER as usize;
    for entry in fs::read_dir(rt, folder)? {
        if !keep_entry(&mut names, &mut room, entry)? {
            return Ok(None);
        }
    }
    Ok(Some(names))
}

// Each name, and a line feed behind it.
fn lines(alloc: Global, names: &[RelPath]) -> Result<Vec<u8>, AllocError>
    ensures { IfOk result (λ lines. lines.items ≡ lines_of names.now) }
{
    let mut lines = Vec::new(alloc);
    for name in names {
        lines.extend_from_slice(name.text())?;
        lines.push(b'\n')?;
    }
    Ok(lines)
}

/// The names of the files directly in the folder that are paths of a base, ascending by bytes, each
/// followed by a line feed; None where that has more than 32,768 bytes.
pub fn listing<R: Files + AllocGlobal + Clone + Drop>(
    rt: &R,
    folder: &str,
) -> io::Result<Option<Bytes>>
    ensures { IfOk result (λ told. IfSome told IsListing) }
{
    let Some(mut names) = names_in(rt, folder)? else {
        return Ok(None);
    };
    names.sort_unstable();
    let lines = lines(rt.alloc(), names.as_slice())?;
    Ok(Some(Bytes::from_vec(lines)))
}
