//! A host for tests: it gives and takes bytes one by one, is interrupted before each of them, may fail at
//! one place of its file or where a file is synced, and lists what names it is told to.

ghost use Rattle.std.specs.Prelude.{◌≡◌, ◌≤◌, length};

use std::alloc::{AllocError, Allocator, Global};
use std::fs::{Metadata, OpenFile, OpenOptions};
use std::io;
use std::io::{ErrorKind, Read, Seek, SeekFrom, Write};
use std::rt::Files;

/// What a slow host fails at, or which names its folders have; it fails nowhere else, and lists no others.
#[derive(Clone, Copy)]
pub enum Way {
    Plain,
    /// Reads and writes fail at that place.
    FailsAt(u64),
    /// Neither a file nor a folder can be synced.
    FailsToSync,
    /// Names of which some are no paths, one is that of a folder, one goes away, and one is hidden.
    Mixed,
    /// Three names, one of which isn't UTF-8.
    NotText,
    /// So many times a name of 255 letters.
    Long(u64),
}

/// What Linux answers where it wants memory itself.
const ENOMEM: i32 = 12;

/// Every path is that of a file of the 8 bytes `abcdefgh`, but for those that end in `root` and `folder`
/// (folders), `fifo` (neither a file nor a folder), `gone` (not there), `memory` (a growth of this program's
/// is refused) and `crowded` (the host wants memory).
#[derive(Clone, Drop)]
pub struct SlowHost {
    memory: Global,
    way: Way,
}

impl SlowHost {
    /// A host that has its way.
    pub fn new(memory: Global, way: Way) -> SlowHost {
        SlowHost { memory, way }
    }
}

impl Alloc for SlowHost {
    type A = Global;

    fn alloc(&self) -> Global {
        self.memory
    }
}

/// A file of the slow host, open at a place.
#[derive(Drop)]
pub struct SlowFile {
    at: u64,
    is_interrupted: bool,
    way: Way,
}

impl SlowFile {
    // Whether the next byte goes through now.
    fn turn(&mut self) -> io::Result<()>
        ensures { self.new.at ≡ self.old.at }
    {
        self.is_interrupted = !self.is_interrupted;
        if self.is_interrupted {
            return Err(io::Error::from(ErrorKind::Interrupted));
        }
        if matches!(self.way, Way::FailsAt(place) if place == self.at) {
            return Err(io::Error::from(ErrorKind::Other));
        }
        Ok(())
    }
}

impl Read for SlowFile {
    fn read(&mut self, buf: &mut [u8]) -> io::Result<usize> {
        if buf.is_empty() || self.at >= 8 {
            return Ok(0);
        }
        self.turn()?;
        buf[0] = b"abcdefgh"[self.at as usize];
        self.at += 1;
        Ok(1)
    }
}

impl Write for SlowFile {
    fn write(&mut self, buf: &[u8]) -> io::Result<usize> {
        if buf.is_empty() {
            return Ok(0);
        }
        self.turn()?;
        self.at = self.at.saturating_add(1);
        Ok(1)
    }

    fn flush(&mut self) -> io::Result<()> {
        Ok(())
    }
}

impl Seek for SlowFile {
    fn seek(&mut self, to: SeekFrom) -> io::Result<u64> {
        if let SeekFrom::Start(at) = to {
            self.at = at;
            return Ok(at);
        }
        Err(io::Error::from(ErrorKind::Unsupported))
    }
}

impl OpenFile for SlowFile {
    fn metadata(&self) -> io::Result<Metadata> {
        Ok(Metadata::of_file(8))
    }

    fn set_len(&self, _size: u64) -> io::Result<()> {
        Ok(())
    }

    fn sync_all(&self) -> io::Result<()> {
        if matches!(self.way, Way::FailsToSync) {
            return Err(io::Error::from(ErrorKind::StorageFull));
        }
        Ok(())
    }

    fn sync_data(&self) -> io::Result<()> {
        Ok(())
    }
}

/// The names that are left to give, each ended by a zero.
#[derive(Drop)]
pub struct NamesLeft {
    left: Way,
}

// Gives names that are all there.
fn give(buf: &mut [u8], names: &[u8]) -> usize
    ensures { result ≤ length buf.old }
{
    let count = names.len().min(buf.len());
    buf[..count].copy_from_slice(&names[..count]);
    count
}

impl Read for NamesLeft {
    fn read(&mut self, buf: &mut [u8]) -> io::Result<usize> {
        let left = self.left;
        self.left = Way::Plain;
        match left {
            Way::Mixed => Ok(give(buf, b"b\0.\0a c\0..\0\x01\0\xc3\xa9\0folder\0gone\0.b\0a\0")),
            Way::NotText => Ok(give(buf, b"a\0\xff\0b\0")),
            Way::Long(0) | Way::Plain | Way::FailsAt(_) | Way::FailsToSync => Ok(0),
            Way::Long(count) => {
                self.left = Way::Long(count - 1);
                let mut name = [b'n'; 256];
                name[255] = 0;
                Ok(give(buf, &name[..]))
            }
        }
    }
}

impl Files for SlowHost {
    type File = SlowFile;

    type Dir = NamesLeft;

    fn open_file(&self, _how: &OpenOptions, _path: &str) -> io::Result<SlowFile> {
        Ok(SlowFile {
            at: 0,
            is_interrupted: false,
            way: self.way,
        })
    }

    fn open_dir(&self, _path: &str) -> io::Result<NamesLeft> {
        Ok(NamesLeft { left: self.way })
    }

    fn metadata(&self, path: &str) -> io::Result<Metadata> {
        if path.ends_with("root") || path.ends_with("folder") {
            return Ok(Metadata::of_dir());
        }
        if path.ends_with("fifo") {
            return Ok(Metadata::of_symlink(8));
        }
        if path.ends_with("gone") {
            return Err(io::Error::from(ErrorKind::NotFound));
        }
        if path.ends_with("memory") {
            return Err(io::Error::from(AllocError));
        }
        if path.ends_with("crowded") {
            return Err(io::Error::from_raw_os_error(ENOMEM));
        }
        Ok(Metadata::of_file(8))
    }

    fn symlink_metadata(&self, path: &str) -> io::Result<Metadata> {
        self.metadata(path)
    }

    fn copy(&self, _from: &str, _to: &str) -> io::Result<u64> {
        Err(io::Error::from(ErrorKind::Unsupported))
    }

    fn rename(&self, _from: &str, _to: &str) -> io::Result<()> {
        Err(io::Error::from(ErrorKind::Unsupported))
    }

    fn remove_file(&self, _path: &str) -> io::Result<()> {
        Ok(())
    }

    fn create_dir(&self, _path: &str) -> io::Result<()> {
        Err(io::Error::from(ErrorKind::Unsupported))
    }

    fn remove_dir(&self, _path: &str) -> io::Result<()> {
        Err(io::Error::from(ErrorKind::Unsupported))
    }

    fn remove_dir_all<B: Allocator>(&self, _alloc: B, _path: &str) -> io::Result<()> {
        Err(io::Error::from(ErrorKind::Unsupported))
    }
}
