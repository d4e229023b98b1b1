//! The words that requests begin with.

ghost use Rattle.std.specs.Prelude.{◌≡◌, bytes_eq, find};
ghost use Rattle.fm_cli.specs.Requests.{spelling, verb_read};

/// What the first word asks for.
#[derive(Clone, Copy)]
pub enum Verb {
    Create,
    Read,
    Write,
    QuerySize,
    SetSize,
    Flush,
    List,
    SetDelete,
    Restore,
    Close,
    Load,
    Attach,
    Detach,
    Unload,
    Dismount,
    Stop,
}

// The one that is spelled so.
fn spelled(verbs: &[Verb], word: &[u8]) -> Option<Verb>
    ensures { result ≡ find (λ verb. bytes_eq (spelling verb) word.now) verbs.now }
{
    verbs.iter().copied().find(|verb| verb.spelling() == word)
}

impl Verb {
    /// All of them.
    pub const ALL: [Verb; 16] = [
        Verb::Create,
        Verb::Read,
        Verb::Write,
        Verb::QuerySize,
        Verb::SetSize,
        Verb::Flush,
        Verb::List,
        Verb::SetDelete,
        Verb::Restore,
        Verb::Close,
        Verb::Load,
        Verb::Attach,
        Verb::Detach,
        Verb::Unload,
        Verb::Dismount,
        Verb::Stop,
    ];

    /// The one that a word is, if it is one.
    #[tactic(auto, unfolding(crate::specs::Requests::verb_read))]
    pub fn read(word: &[u8]) -> Option<Verb>
        ensures { result ≡ verb_read word.now }
    {
        spelled(&Verb::ALL, word)
    }

    /// How it is spelled.
    pub fn spelling(self) -> &'static [u8]
        ensures { result.now ≡ spelling self }
    {
        match self {
            Verb::Create => b"create",
            Verb::Read => b"read",
            Verb::Write => b"write",
            Verb::QuerySize => b"querysize",
            Verb::SetSize => b"setsize",
            Verb::Flush => b"flush",
            Verb::List => b"list",
            Verb::SetDelete => b"setdelete",
            Verb::Restore => b"restore",
            Verb::Close => b"close",
            Verb::Load => b"load",
            Verb::Attach => b"attach",
            Verb::Detach => b"detach",
            Verb::Unload => b"unload",
            Verb::Dismount => b"dismount",
            Verb::Stop => b"stop",
        }
    }
}
