//! The listing of a folder in memory: the names directly in it.

ghost use Rattle.std.specs.Prelude.{◌≡◌, ◌≢◌, ◌≤◌, ◌++◌, ◌∷◌, [], length, IfOk, OnOk, IsTrue, ◌↔◌};
ghost use Rattle.std.specs.Ordering.{nat_cmp};
ghost use Rattle.std.specs.Cmp.Lexicographic.{slice_cmp};
ghost use Rattle.std.specs.BTreeMap.{keys, IsOrdered};
ghost use Rattle.fm_base.specs.Folders.{is_direct, listing_of, listed};
ghost use Rattle.fm_base.specs.Answers.{Tells};
ghost use Rattle.fm_base.specs.Stored.{folder_of};

use crate::file::File;
use fm_types::limits::TRANSFER;
use fm_types::{Bytes, RelPath, Status};
use std::alloc::{AllocError, Global};
use std::collections::BTreeMap;

// Whether the path has one part alone.
fn is_direct_name(path: &RelPath) -> bool
    ensures { result ≡ is_direct path.now }
{
    !path.text().contains(&b'/')
}

// Whether the listing has no more bytes than it may; stops at the first byte too many.
fn is_listing_short(files: &BTreeMap<RelPath, File>) -> bool
    ensures short { IsTrue result ↔ (length (listing_of (keys files.now)) ≤ 32768) }
    ensures ordered { IsOrdered (slice_cmp nat_cmp) files.now }
{
    let mut room = TRANSFER as usize;
    for name in files.keys() {
        if is_direct_name(name) {
            let line = name.text().len() + 1;
            if line > room {
                return false;
            }
            room -= line;
        }
    }
    true
}

fn push_line(listing: &mut Vec<u8>, name: &[u8]) -> Result<(), AllocError>
    ensures { OnOk result (listing.new.items ≡ listing.old.items ++ (name.now ++ 10 ∷ [])) }
{
    listing.extend_from_slice(name)?;
    listing.push(b'\n')?;
    Ok(())
}

fn lines(files: &BTreeMap<RelPath, File>, alloc: Global) -> Result<Vec<u8>, AllocError>
    ensures value { IfOk result (λ listing. listing.items ≡ listing_of (keys files.now)) }
    ensures ordered { IsOrdered (slice_cmp nat_cmp) files.now }
{
    let mut listing = Vec::new(alloc);
    for path in files.keys() {
        if is_direct_name(path) {
            push_line(&mut listing, path.text())?;
        }
    }
    Ok(listing)
}

/// The names of the files directly in the folder, ascending, each followed by a line feed. Refused
/// with 29, before any memory is taken, where that is above 32,768 bytes.
pub fn list_files(files: &BTreeMap<RelPath, File>, alloc: Global) -> Result<Bytes, Status>
    ensures tells { Tells (listed (folder_of files.now.entries)) result }
    ensures within { IfOk result (λ names. length names ≤ 32768) }
    ensures sound { result ≢ Err Status.DeviceFault }
{
    if !is_listing_short(files) {
        return Err(Status::TooMany);
    }
    Ok(Bytes::from_vec(lines(files, alloc)?))
}
