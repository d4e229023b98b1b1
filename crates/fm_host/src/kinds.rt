//! Which of the host's files and folders are a base's: what the host tells of a place decides it, and nothing else.

ghost use Rattle.fm_host.specs.Kinds.{TellsSize, TellsFolder, Lists};

use fm_types::RelPath;
use std::io;
use std::io::ErrorKind;

/// The size of what lies at the path of a file. Only a regular file is one.
pub fn file_size(is_file: bool, len: u64) -> io::Result<u64>
    ensures { TellsSize is_file len result }
{
    if !is_file {
        return Err(io::Error::from(ErrorKind::Unsupported));
    }
    Ok(len)
}

/// Whether what lies at the path of a base's folder is one. A file is no folder.
pub fn folder_there(is_folder: bool) -> io::Result<()>
    ensures { TellsFolder is_folder result }
{
    if !is_folder {
        return Err(io::Error::from(ErrorKind::NotADirectory));
    }
    Ok(())
}

/// The name under which an entry of the folder is listed: every name that a base's file may have is, also
/// one that begins with a dot, but for that of what can be no file and of what went away meanwhile.
pub fn listed_name(name: &[u8], may_be_file: io::Result<bool>) -> io::Result<Option<RelPath>>
    ensures { Lists name.now may_be_file result }
{
    let Ok(path) = RelPath::read(name) else {
        return Ok(None);
    };
    match may_be_file {
        Ok(false) => Ok(None),
        Ok(true) => Ok(Some(path)),
        Err(error) => match error.kind() {
            ErrorKind::NotFound => Ok(None),
            _ => Err(error),
        },
    }
}
