//! What names and paths share: a text in an array of fixed size, with zeros behind it.

ghost use Rattle.std.specs.Prelude.{◌≡◌, ◌≤◌, length};
ghost use Rattle.fm_types.specs.Texts.{padded};

/// The array that begins with `text` and has zeros behind it.
pub fn padded_copy<const N: usize>(text: &[u8]) -> [u8; N]
    requires { length text.now ≤ N }
    ensures { result ≡ padded N text.now }
{
    let mut buffer = [0; N];
    buffer[..text.len()].copy_from_slice(text);
    buffer
}
