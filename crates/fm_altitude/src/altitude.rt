//! The type of altitudes: read from a text, spelled canonically, compared by their decimal value.

ghost use Rattle.std.specs.Prelude.{◌≡◌, ◌≤◌, ◌↔◌, IfErr, IfOk, IsOk, IsTrue, length, refl};
ghost use Rattle.std.specs.Cmp.{partial_order_from_total, partial_equiv_from_equiv, eq_by_cmp_equiv};
ghost use Rattle.std.specs.Hash as fed;
ghost use Rattle.std.specs.Ordering.{as_partial_cmp, eq_by_cmp};
ghost use Rattle.fm_altitude.specs.Order.{IsBelow, IsSameAltitude, altitude_cmp};
ghost use Rattle.fm_altitude.specs.Grammar.{IsAltitude, canonical, fraction_of, whole_of};
ghost use Rattle.fm_altitude.specs.Laws.{hash_respects_eq};
ghost use Rattle.fm_altitude.specs.Total.{altitude_total};

use crate::parts::{is_altitude, trimmed_parts};
use crate::spell::{spell, spelled_len};
use fm_types::Status;
use std::cmp::Ordering;
use std::hash::{Hash, Hasher};
use std::marker::Model;

/// Where on its volume an instance stands, a decimal number such as `328010` or `100.5`. Contracts see its canonical text.
#[derive(Clone, Copy, Debug)]
pub struct Altitude {
    buffer: [u8; 64],
    len: u8,
    whole: u8,
}

impl Model for Altitude {
    ghost use Rattle.std.specs.Prelude.{List, ℕ, length, take};
    ghost use Rattle.fm_altitude.specs.Grammar.{whole_of};
    ghost use Rattle.fm_altitude.specs.Kept.{IsKept};
    ghost use Rattle.fm_types.specs.Texts.{padded};

    ghost Value = { List ℕ };

    ghost use Rattle.fm_altitude.specs.AltitudeFields.{altitude_fields_back};

    ghost view = { λ a. take a.len a.buffer };

    ghost invariant = { λ a. IsKept a.buffer a.len a.whole };

    ghost inverse = { λ text. record { buffer = padded 64 text; len = length text; whole = length (whole_of text) } };

    ghost inverse_ok = { altitude_fields_back };
}

impl Altitude {
    /// Reads an altitude: 1 to 64 characters, digits and at most one point, with at least one digit. It is 2 (BadAltitude) where the text isn't
    /// that. Zeros that say nothing are dropped, so `0100.50` is read as `100.5`.
    pub fn read(text: &[u8]) -> Result<Self, Status>
        ensures accepted { IsOk result ↔ IsAltitude text.now }
        ensures refused { IfErr result (λ status. status ≡ Status.BadAltitude) }
        ensures value { IfOk result (λ altitude. IsSameAltitude altitude text.now) }
        ensures spelling { IfOk result (λ altitude. altitude ≡ canonical text.now) }
        ensures shorter { IfOk result (λ altitude. length altitude ≤ length text.now) }
    {
        if !is_altitude(text) {
            return Err(Status::BadAltitude);
        }
        let (whole, fraction) = trimmed_parts(text);
        Ok(Altitude {
            buffer: spell(whole, fraction),
            len: spelled_len(whole, fraction) as u8,
            whole: whole.len() as u8,
        })
    }

    /// The canonical text: no zero in front of a whole number but in `0` itself, no zero at the end of a fraction, and no point without a
    /// fraction. It reads back as the same altitude, and is the same for equal altitudes.
    pub fn text(&self) -> &[u8]
        ensures text { result.now ≡ self.now }
        ensures grammar { IsAltitude self.now }
        ensures canonical { canonical self.now ≡ self.now }
    {
        &self.buffer[..self.len as usize]
    }

    // How many digits stand before the point, none for zero.
    fn whole_len(&self) -> usize
        ensures value { result ≡ length (whole_of self.now) }
        ensures within { result ≤ length self.now }
    {
        self.whole as usize
    }

    // The digits before the point.
    fn whole(&self) -> &[u8]
        ensures { result.now ≡ whole_of self.now }
    {
        let (whole, _) = self.text().split_at(self.whole_len());
        whole
    }

    // The digits behind the point. Behind the `0` of zero there are none either.
    fn fraction(&self) -> &[u8]
        ensures { result.now ≡ fraction_of self.now }
    {
        let (_, behind) = self.text().split_at(self.whole_len());
        match behind {
            [_, fraction @ ..] => fraction,
            [] => behind,
        }
    }
}

impl PartialEq for Altitude {
    ghost eq = { eq_by_cmp altitude_cmp };

    ghost laws = { partial_equiv_from_equiv (eq_by_cmp_equiv altitude_total) };

    /// Whether the two are one number, and so one text.
    fn eq(&self, other: &Altitude) -> bool
        ensures eq { result ≡ eq_by_cmp altitude_cmp self.now other.now }
        ensures value { IsTrue result ↔ IsSameAltitude self.now other.now }
        ensures text { IsTrue result ↔ (self.now ≡ other.now) }
    {
        self.text() == other.text()
    }
}

impl Eq for Altitude {
    ghost laws = { eq_by_cmp_equiv altitude_total };
}

impl PartialOrd for Altitude {
    ghost partial_cmp = { as_partial_cmp altitude_cmp };

    ghost laws = { partial_order_from_total altitude_total };

    fn partial_cmp(&self, other: &Altitude) -> Option<Ordering> {
        Some(self.cmp(other))
    }
}

impl Ord for Altitude {
    ghost cmp = { altitude_cmp };

    ghost total = { altitude_total };

    ghost matches_partial_cmp = { λ a b. refl };

    ghost matches_eq = { λ a b. refl };

    /// Compares the two as decimal numbers.
    fn cmp(&self, other: &Altitude) -> Ordering {
        let lengths = self.whole_len().cmp(&other.whole_len());
        lengths
            .then(self.whole().cmp(other.whole()))
            .then(self.fraction().cmp(other.fraction()))
    }
}

impl Hash for Altitude {
    ghost hash_input = { λ a. fed.slice fed.u8 (canonical a) };

    ghost respects_eq = { hash_respects_eq };

    fn hash<H: Hasher>(&self, state: &mut H) {
        self.text().hash(state);
    }
}
