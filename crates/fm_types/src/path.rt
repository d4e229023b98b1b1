//! Paths below the root of a volume, kept in place like names.

ghost use Rattle.std.specs.Prelude.{◌≡◌, ◌↔◌, All, IsOk, IfOk, IfErr, IsTrue, Some, nat_eq, refl};
ghost use Rattle.std.specs.Ordering.{nat_cmp};
ghost use Rattle.std.specs.Hash as fed;
ghost use Rattle.std.specs.Slice.Scan.{big_endian};
ghost use Rattle.std.specs.Cmp.Lexicographic.{pointwise, slice_cmp, nat_list_eq_equiv, nat_list_cmp_total, texts_ties, texts_po};
ghost use Rattle.std.specs.Cmp.{partial_equiv_from_equiv};
ghost use Rattle.std.specs.Cmp.Rules.{hashing};
ghost use Rattle.std.proofs.Common.{rules};
ghost use Rattle.fm_types.specs.Paths.{IsPath, IsPathByte, IsPathPart, parts_of};
ghost use Rattle.fm_types.specs.Texts.{head_of};

use crate::limits::PATH;
use crate::status::Status;
use crate::text::padded_copy;
use std::alloc::AllocError;
use std::cmp::Ordering;
use std::hash::{Hash, Hasher};
use std::marker::Model;

/// The path of a file on a volume: 1 to 255 characters, each from the space to `~`, whose parts are
/// divided by `/`, no part being empty, `.` or `..`. Contracts see its text. Paths are compared byte
/// by byte.
#[derive(Copy, Debug)]
pub struct RelPath {
    buffer: [u8; PATH],
    len: u8,
}

impl Model for RelPath {
    ghost use Rattle.std.specs.Prelude.{List, ℕ};

    ghost Value = { List ℕ };

    ghost use Rattle.fm_types.specs.PathFields.{path_text, IsPathInside, path_fields, path_fields_back};

    ghost view = { path_text };

    ghost invariant = { IsPathInside };

    ghost inverse = { path_fields };

    ghost inverse_ok = { path_fields_back };
}

fn is_path_byte(byte: u8) -> bool
    ensures { IsTrue result ↔ IsPathByte byte }
{
    matches!(byte, b' '..=b'~')
}

fn is_path_part(part: &[u8]) -> bool
    ensures { IsTrue result ↔ IsPathPart part.now }
{
    !matches!(part, [] | [b'.'] | [b'.', b'.'])
}

fn has_path_parts(text: &[u8]) -> bool
    ensures { IsTrue result ↔ All IsPathPart (parts_of text.now) }
{
    text.split(|byte| *byte == b'/').all(is_path_part)
}

fn is_path(text: &[u8]) -> bool
    ensures { IsTrue result ↔ IsPath text.now }
{
    text.len() <= PATH && text.iter().all(|byte| is_path_byte(*byte)) && has_path_parts(text)
}

impl RelPath {
    /// Reads a path: 1 to 255 characters, each from the space to `~`, in parts that `/` divides; no
    /// part may be empty, `.` or `..`. Any other text is refused with `BadPath`.
    pub fn read(text: &[u8]) -> Result<RelPath, Status>
        ensures accepted { IsOk result ↔ IsPath text.now }
        ensures value { IfOk result (λ path. path ≡ text.now) }
        ensures refused { IfErr result (λ status. status ≡ Status.BadPath) }
    {
        if !is_path(text) {
            return Err(Status::BadPath);
        }
        Ok(RelPath {
            buffer: padded_copy(text),
            len: text.len() as u8,
        })
    }

    /// The path's text.
    pub fn text(&self) -> &[u8]
        ensures value { result.now ≡ self.now }
        ensures path { IsPath self.now }
    {
        &self.buffer[..self.len as usize]
    }

    // Its first eight bytes as one number, the first of which weighs most. Zeros stand behind a shorter text: each is below
    // the bytes of a path, so that two such numbers lie as the paths do where they differ.
    fn head(&self) -> u64
        ensures value { result ≡ big_endian 0 (head_of 8 self.now) }
        ensures characters { All IsPathByte self.now }
    {
        u64::from_be_bytes([
            self.buffer[0],
            self.buffer[1],
            self.buffer[2],
            self.buffer[3],
            self.buffer[4],
            self.buffer[5],
            self.buffer[6],
            self.buffer[7],
        ])
    }
}

impl Clone for RelPath {
    ghost is_clone = { λ path copy. copy ≡ path };

    fn clone(&self) -> Result<RelPath, AllocError> {
        Ok(*self)
    }
}

impl PartialEq for RelPath {
    ghost eq = { pointwise nat_eq };

    ghost laws = { partial_equiv_from_equiv nat_list_eq_equiv };

    fn eq(&self, other: &RelPath) -> bool {
        self.text() == other.text()
    }
}

impl Eq for RelPath {
    ghost laws = { nat_list_eq_equiv };
}

impl PartialOrd for RelPath {
    ghost partial_cmp = { λ a b. Some (slice_cmp nat_cmp a b) };

    ghost laws = { texts_po };

    fn partial_cmp(&self, other: &RelPath) -> Option<Ordering> {
        Some(self.cmp(other))
    }
}

impl Ord for RelPath {
    ghost cmp = { slice_cmp nat_cmp };

    ghost total = { nat_list_cmp_total };

    ghost matches_partial_cmp = { λ a b. refl };

    ghost matches_eq = { texts_ties };

    fn cmp(&self, other: &RelPath) -> Ordering {
        match self.head().cmp(&other.head()) {
            Ordering::Equal => self.text().cmp(other.text()),
            decided => decided,
        }
    }
}

impl Hash for RelPath {
    ghost hash_input = { fed.slice fed.u8 };

    ghost respects_eq = { Prim.search (hashing, rules) };

    fn hash<H: Hasher>(&self, state: &mut H) {
        self.text().hash(state);
    }
}
