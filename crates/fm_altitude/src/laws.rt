//! What holds of all texts, whatever an altitude was read from: laws without code, for those who prove something above this crate.

ghost use Rattle.fm_altitude.specs.Laws.{CanonicalSpelling, OneSpelling};

/// Equal altitudes have one canonical text.
#[tactic(auto, using(crate::specs::Laws::one_spelling))]
pub fn one_spelling()
    ensures { OneSpelling }
{}

/// The canonical text of a text names the same altitude, is its own canonical text, and is no longer than any text of that altitude.
pub fn canonical_spelling()
    ensures { CanonicalSpelling }
{}
