//! The values of single words.

ghost use Rattle.std.specs.Prelude.{◌≡◌, ◌<◌, IfOk, MatchOption};
ghost use Rattle.fm_words.specs.Numbers.{number_read};
ghost use Rattle.fm_cli.specs.Values.{ReadsAltitude, ReadsBytes, ReadsName, ReadsPath, mode_read, number_below};

use fm_altitude::Altitude;
use fm_types::{Bytes, CreateMode, Name, RelPath, SharedPath};
use fm_words::{read_hex, read_number};
use std::alloc::{AllocError, Global};

/// A number below `limit`.
pub(crate) fn read_below(limit: u64, word: &[u8]) -> Option<u64>
    ensures { result ≡ number_below limit word.now }
{
    let number = read_number(word)?;
    if number < limit { Some(number) } else { None }
}

/// A number of one byte.
pub(crate) fn read_u8(word: &[u8]) -> Option<u8>
    ensures { result ≡ number_below 256 word.now }
{
    Some(read_below(256, word)? as u8)
}

/// A number of two bytes.
pub(crate) fn read_u16(word: &[u8]) -> Option<u16>
    ensures { result ≡ number_below 65536 word.now }
{
    Some(read_below(65536, word)? as u16)
}

/// How many bytes a read asks for: no more than a reply can bring.
pub(crate) fn read_len(word: &[u8]) -> Option<u32>
    ensures { result ≡ number_below 32769 word.now }
{
    Some(read_below(32769, word)? as u32)
}

/// How a create treats a file that is there, or isn't.
pub(crate) fn read_mode(word: &[u8]) -> Option<CreateMode>
    ensures { result ≡ mode_read word.now }
{
    if word == b"existing".as_slice() {
        Some(CreateMode::Existing)
    } else if word == b"new".as_slice() {
        Some(CreateMode::New)
    } else if word == b"always".as_slice() {
        Some(CreateMode::Always)
    } else {
        None
    }
}

/// A path.
pub(crate) fn read_path(alloc: Global, word: &[u8]) -> Result<Option<SharedPath>, AllocError>
    ensures { IfOk result (ReadsPath word.now) }
{
    match RelPath::read(word) {
        Ok(path) => Ok(Some(SharedPath::new(alloc, path)?)),
        Err(_) => Ok(None),
    }
}

/// A name.
pub(crate) fn read_name(word: &[u8]) -> Option<Name>
    ensures { ReadsName word.now result }
{
    Name::read(word).ok()
}

/// An altitude.
pub(crate) fn read_altitude(word: &[u8]) -> Option<Altitude>
    ensures { ReadsAltitude word.now result }
{
    Altitude::read(word).ok()
}

/// Bytes.
pub(crate) fn read_bytes(alloc: Global, word: &[u8]) -> Result<Option<Bytes>, AllocError>
    ensures { IfOk result (ReadsBytes word.now) }
{
    match read_hex(alloc, word)? {
        Some(bytes) => Ok(Some(Bytes::from_vec(bytes))),
        None => Ok(None),
    }
}
