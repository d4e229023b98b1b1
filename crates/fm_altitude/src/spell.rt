//! The text of a whole number and a fraction, put into an array.

ghost use Rattle.std.specs.Prelude.{◌≡◌, ◌+◌, ◌≤◌, ◌++◌, drop, length, take};
ghost use Rattle.fm_altitude.specs.Grammar.{spelled};
ghost use Rattle.fm_types.specs.Texts.{padded};

// Writes the part at its place.
fn put(buffer: &mut [u8], at: usize, part: &[u8])
    requires { at + length part.now ≤ length buffer.old }
    ensures { buffer.new ≡ take at buffer.old ++ part.now ++ drop (at + length part.now) buffer.old }
{
    buffer[at..at + part.len()].copy_from_slice(part);
}

// Three parts one behind another, and zeros behind them.
fn joined<const N: usize>(first: &[u8], second: &[u8], third: &[u8]) -> [u8; N]
    requires { length first.now + length second.now + length third.now ≤ N }
    ensures { result ≡ padded N (first.now ++ second.now ++ third.now) }
{
    let mut buffer = [0; N];
    put(&mut buffer[..], 0, first);
    put(&mut buffer[..], first.len(), second);
    put(&mut buffer[..], first.len() + second.len(), third);
    buffer
}

/// The text of a whole number and a fraction: `0` for zero, and no point without a fraction.
pub fn spell<const N: usize>(whole: &[u8], fraction: &[u8]) -> [u8; N]
    requires { length (spelled whole.now fraction.now) ≤ N }
    ensures { result ≡ padded N (spelled whole.now fraction.now) }
{
    if fraction.is_empty() {
        if whole.is_empty() {
            joined(b"0", b"", b"")
        } else {
            joined(whole, b"", b"")
        }
    } else {
        joined(whole, b".", fraction)
    }
}

/// How many characters that text has.
pub fn spelled_len(whole: &[u8], fraction: &[u8]) -> usize
    requires { length (spelled whole.now fraction.now) ≤ 64 }
    ensures { result ≡ length (spelled whole.now fraction.now) }
{
    if fraction.is_empty() {
        whole.len().max(1)
    } else {
        whole.len() + 1 + fraction.len()
    }
}
