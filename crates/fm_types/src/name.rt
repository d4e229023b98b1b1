//! Names of filters, volumes and instances: short texts that are kept in place, so that a name is
//! copied like a number and takes no memory.

ghost use Rattle.std.specs.Prelude.{◌≡◌, ◌↔◌, IsOk, IfOk, IfErr, IsTrue, Some, nat_eq, refl};
ghost use Rattle.std.specs.Ordering.{nat_cmp};
ghost use Rattle.std.specs.Hash as fed;
ghost use Rattle.std.specs.Cmp.Lexicographic.{pointwise, slice_cmp, nat_list_eq_equiv, nat_list_cmp_total, texts_ties, texts_po};
ghost use Rattle.std.specs.Cmp.{partial_equiv_from_equiv};
ghost use Rattle.std.specs.Cmp.Rules.{hashing};
ghost use Rattle.std.proofs.Common.{rules};
ghost use Rattle.fm_types.specs.Names.{IsName, IsNameByte};

use crate::limits::NAME;
use crate::status::Status;
use crate::text::padded_copy;
use std::alloc::AllocError;
use std::cmp::Ordering;
use std::hash::{Hash, Hasher};
use std::marker::Model;

/// A name: 1 to 32 letters, digits, `_` and `-`. Contracts see its text. Names are compared byte by
/// byte, so that case counts.
#[derive(Copy, Debug)]
pub struct Name {
    buffer: [u8; NAME],
    len: u8,
}

impl Model for Name {
    ghost use Rattle.std.specs.Prelude.{List, ℕ};

    ghost Value = { List ℕ };

    ghost use Rattle.fm_types.specs.NameFields.{name_text, IsNameInside, name_fields, name_fields_back};

    ghost view = { name_text };

    ghost invariant = { IsNameInside };

    ghost inverse = { name_fields };

    ghost inverse_ok = { name_fields_back };
}

fn is_name_byte(byte: u8) -> bool
    ensures { IsTrue result ↔ IsNameByte byte }
{
    byte.is_ascii_alphanumeric() || byte == b'_' || byte == b'-'
}

fn is_name(text: &[u8]) -> bool
    ensures { IsTrue result ↔ IsName text.now }
{
    !text.is_empty() && text.len() <= NAME && text.iter().all(|byte| is_name_byte(*byte))
}

impl Name {
    /// Reads a name: 1 to 32 characters, each a letter, a digit, `_` or `-`; any other text is
    /// refused with `BadName`.
    pub fn read(text: &[u8]) -> Result<Name, Status>
        ensures accepted { IsOk result ↔ IsName text.now }
        ensures value { IfOk result (λ name. name ≡ text.now) }
        ensures refused { IfErr result (λ status. status ≡ Status.BadName) }
    {
        if !is_name(text) {
            return Err(Status::BadName);
        }
        Ok(Name {
            buffer: padded_copy(text),
            len: text.len() as u8,
        })
    }

    /// The name's text.
    pub fn text(&self) -> &[u8]
        ensures value { result.now ≡ self.now }
        ensures name { IsName self.now }
    {
        &self.buffer[..self.len as usize]
    }
}

impl Clone for Name {
    ghost is_clone = { λ name copy. copy ≡ name };

    fn clone(&self) -> Result<Name, AllocError> {
        Ok(*self)
    }
}

impl PartialEq for Name {
    ghost eq = { pointwise nat_eq };

    ghost laws = { partial_equiv_from_equiv nat_list_eq_equiv };

    fn eq(&self, other: &Name) -> bool {
        self.text() == other.text()
    }
}

impl Eq for Name {
    ghost laws = { nat_list_eq_equiv };
}

impl PartialOrd for Name {
    ghost partial_cmp = { λ a b. Some (slice_cmp nat_cmp a b) };

    ghost laws = { texts_po };

    fn partial_cmp(&self, other: &Name) -> Option<Ordering> {
        Some(self.cmp(other))
    }
}

impl Ord for Name {
    ghost cmp = { slice_cmp nat_cmp };

    ghost total = { nat_list_cmp_total };

    ghost matches_partial_cmp = { λ a b. refl };

    ghost matches_eq = { texts_ties };

    fn cmp(&self, other: &Name) -> Ordering {
        self.text().cmp(other.text())
    }
}

impl Hash for Name {
    ghost hash_input = { fed.slice fed.u8 };

    ghost respects_eq = { Prim.search (hashing, rules) };

    fn hash<H: Hasher>(&self, state: &mut H) {
        self.text().hash(state);
    }
}
