//! The words by which a program is asked how it is used.

ghost use Rattle.std.specs.Prelude.{◌≡◌, map};
ghost use Rattle.fm_cli.specs.Usage.{asks_help, asks_usage};

fn is_help(word: &str) -> bool
    ensures { result ≡ asks_help word.now }
{
    word == "--help" || word == "-h"
}

/// Whether the words ask how the program is used: `--help` or `-h`, alone.
pub fn asks_usage(words: &[String]) -> bool
    ensures { result ≡ asks_usage (map (λ word. word.bytes.items) words.now) }
{
    match words {
        [word] => is_help(word.as_str()),
        _ => false,
    }
}
