//! What each call of a base does with the files of the host. Every call opens the file that it names and
//! closes it again. It first looks what is there: to open a FIFO or a device may wait for ever.

ghost use Rattle.std.specs.Prelude.{◌≤◌, IfOk, IfSome, length};

use crate::kinds::file_size;
use crate::paths::joined;
use fm_types::{Bytes, CreateMode, RelPath};
use std::fs::{File, OpenFile, OpenOptions};
use std::io::{ErrorKind, Read, Seek, SeekFrom, Write};
use std::path::Path;
use std::rt::Files;
use std::{fs, io};

// How many bytes a file has. What isn't a regular file is none.
fn size_at(rt: &impl Files, path: &str) -> io::Result<u64> {
    let metadata = fs::metadata(rt, path)?;
    file_size(metadata.is_file(), metadata.len())
}

// Whether a file is there. Nothing is opened for it.
fn open_existing(rt: &impl Files, path: &str) -> io::Result<()> {
    size_at(rt, path)?;
    Ok(())
}

// Has the host write out the names in the folder of a file. Where it can't sync a folder there is nothing to
// write out.
fn sync_folder(rt: &impl Files, path: &str) -> io::Result<()> {
    let Some(folder) = Path::new(path).parent() else {
        return Ok(());
    };
    match fs::open(rt, folder)?.sync_all() {
        Err(error) if error.kind() == ErrorKind::InvalidInput => Ok(()),
        told => told,
    }
}

fn make_new(rt: &impl Files, path: &str) -> io::Result<()> {
    let _file = File::create_new(rt, path)?;
    sync_folder(rt, path)
}

// A file that is there, to be written.
fn open_to_write<R: Files>(rt: &R, path: &str) -> io::Result<R::File> {
    open_existing(rt, path)?;
    OpenOptions::new().write(true).open(rt, path)
}

/// Opens or makes a file; one that is there keeps its bytes. The name of one that is made is written out, so
/// that it is there after a power cut.
pub fn create<R: Files + AllocGlobal>(
    rt: &R,
    folder: &str,
    path: &RelPath,
    mode: CreateMode,
) -> io::Result<()> {
    let whole = joined(rt.alloc(), folder, path)?;
    match mode {
        CreateMode::Existing => open_existing(rt, whole.as_str()),
        CreateMode::New => make_new(rt, whole.as_str()),
        CreateMode::Always => match make_new(rt, whole.as_str()) {
            Err(error) if error.kind() == ErrorKind::AlreadyExists => open_existing(
                rt,
                whole.as_str(),
            ),
            made => made,
        },
    }
}

// Reads until the buffer is full or the file ends: how many bytes there were. A regular file gives them in one read.
fn fill(file: &mut impl Read, buffer: &mut [u8]) -> io::Result<usize>
    ensures { IfOk result (λ count. count ≤ length buffer.new) }
{
    let mut count = 0;
    'reads: for _ in 0..u64::MAX {
        if count == buffer.len() {
            break 'reads;
        }
        match file.read(&mut buffer[count..]) {
            Ok(0) => break 'reads,
            Ok(more) => count += more,
            Err(error) if error.kind() == ErrorKind::Interrupted => {}
            Err(error) => return Err(error),
        }
    }
    Ok(count)
}

// The bytes of a file from `offset` on: so many, or fewer where it ends before.
fn read_part<R: Files + AllocGlobal>(
    rt: &R,
    path: &str,
    offset: u64,
    len: usize,
) -> io::Result<Vec<u8>>
    ensures { IfOk result (λ bytes. length bytes.items ≤ len) }
{
    let mut file = fs::open(rt, path)?;
    if offset > 0 {
        file.seek(SeekFrom::Start(offset))?;
    }
    let mut bytes = Vec::from_elem(rt.alloc(), 0u8, len)?;
    let count = fill(&mut file, bytes.as_mut_slice())?;
    bytes.truncate(count);
    Ok(bytes)
}

/// The bytes from `offset` on, until there are `len` or the file ends; None where some are asked for and
/// the file ends at `offset` or before it.
pub fn read<R: Files + AllocGlobal>(
    rt: &R,
    folder: &str,
    path: &RelPath,
    offset: u64,
    len: u32,
) -> io::Result<Option<Bytes>>
    ensures { IfOk result (λ told. IfSome told (λ bytes. length bytes ≤ len)) }
{
    let whole = joined(rt.alloc(), folder, path)?;
    let behind = size_at(rt, whole.as_str())?.saturating_sub(offset);
    let bytes = match behind.min(len as u64) {
        0 => Vec::new(rt.alloc()),
        count => read_part(rt, whole.as_str(), offset, count as usize)?,
    };
    if bytes.is_empty() && len > 0 {
        return Ok(None);
    }
    Ok(Some(Bytes::from_vec(bytes)))
}

/// Writes until all is out; the host fills a gap with zeros. No bytes change nothing.
pub fn write<R: Files + AllocGlobal>(
    rt: &R,
    folder: &str,
    path: &RelPath,
    offset: u64,
    bytes: &[u8],
) -> io::Result<()> {
    let whole = joined(rt.alloc(), folder, path)?;
    if bytes.is_empty() {
        return open_existing(rt, whole.as_str());
    }
    let mut file = open_to_write(rt, whole.as_str())?;
    file.seek(SeekFrom::Start(offset))?;
    file.write_all(bytes)
}

/// How many bytes a file has.
pub fn size<R: Files + AllocGlobal>(rt: &R, folder: &str, path: &RelPath) -> io::Result<u64> {
    let whole = joined(rt.alloc(), folder, path)?;
    size_at(rt, whole.as_str())
}

/// Cuts a file to that size, or has the host fill it up to it with zeros.
pub fn set_size<R: Files + AllocGlobal>(
    rt: &R,
    folder: &str,
    path: &RelPath,
    size: u64,
) -> io::Result<()> {
    let whole = joined(rt.alloc(), folder, path)?;
    open_to_write(rt, whole.as_str())?.set_len(size)
}

/// Has the host write out what it buffers of a file, and its name.
pub fn flush<R: Files + AllocGlobal>(rt: &R, folder: &str, path: &RelPath) -> io::Result<()> {
    let whole = joined(rt.alloc(), folder, path)?;
    open_existing(rt, whole.as_str())?;
    fs::open(rt, whole.as_str())?.sync_all()?;
    sync_folder(rt, whole.as_str())
}

/// Takes a file away, and has the host write out that its name is gone.
pub fn unlink<R: Files + AllocGlobal>(rt: &R, folder: &str, path: &RelPath) -> io::Result<()> {
    let whole = joined(rt.alloc(), folder, path)?;
    open_existing(rt, whole.as_str())?;
    fs::remove_file(rt, whole.as_str())?;
    sync_folder(rt, whole.as_str())
}
