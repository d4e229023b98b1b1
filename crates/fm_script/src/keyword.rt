//! The words that commands begin with.

ghost use Rattle.std.specs.Prelude.{◌≡◌, ◌∷◌, ℕ, List, bytes_eq, find};
ghost use Rattle.fm_script.specs.Commands.{keyword_read, spelling};

/// What the first word of a line asks for.
#[derive(Clone, Copy)]
pub enum Keyword {
    Load,
    Mount,
    Attach,
    List,
    Next,
    Pre,
    Plan,
    Base,
    Post,
    Go,
    Collect,
    Phase,
    Setup,
    SetDone,
    Finish,
    Create,
    Alloc,
    Set,
    Get,
    Del,
    Ref,
    Rel,
    Body,
    WBody,
    Bump,
    Due,
    Cleaned,
    Count,
    Leaks,
    Read,
    Write,
    Size,
    SetSize,
    Flush,
    Delete,
    Cleanup,
    Close,
    Fail,
    Failures,
    Resume,
    ResPost,
    Query,
    Queried,
    Start,
    Started,
    Complete,
    Completed,
    Enter,
    Left,
    Unload,
    Unloaded,
    EmptyF,
    FinishF,
    Flight,
    Drain,
    Drained,
    Dismount,
    Drop,
    EmptyV,
    FinishV,
    /// `size` by the word of requests.
    QuerySize,
    /// `delete` by the word of requests.
    SetDelete,
    Restore,
    Other,
    OtherV,
    ChangeHeld,
    Below,
    AtBase,
    AtTop,
}

// The keywords that begin with that letter.
#[tactic(auto, unfolding(crate::specs::Commands::keyword_read))]
fn beginning_with(letter: u8) -> &'static [Keyword]
    ensures { (rest : List ℕ) → find (λ k. bytes_eq (spelling k) (letter ∷ rest)) result.now ≡ keyword_read (letter ∷ rest) }
{
    match letter {
        b'l' => &[Keyword::Load, Keyword::List, Keyword::Leaks, Keyword::Left],
        b'm' => &[Keyword::Mount],
        b'a' => &[
            Keyword::Attach,
            Keyword::Alloc,
            Keyword::AtBase,
            Keyword::AtTop,
        ],
        b'n' => &[Keyword::Next],
        b'p' => &[Keyword::Pre, Keyword::Plan, Keyword::Post, Keyword::Phase],
        b'b' => &[Keyword::Base, Keyword::Body, Keyword::Bump, Keyword::Below],
        b'g' => &[Keyword::Go, Keyword::Get],
        b'c' => &[
            Keyword::Collect,
            Keyword::Create,
            Keyword::Cleaned,
            Keyword::Count,
            Keyword::Cleanup,
            Keyword::Close,
            Keyword::Complete,
            Keyword::Completed,
            Keyword::ChangeHeld,
        ],
        b's' => &[
            Keyword::Setup,
            Keyword::SetDone,
            Keyword::Set,
            Keyword::Size,
            Keyword::SetSize,
            Keyword::Start,
            Keyword::Started,
            Keyword::SetDelete,
        ],
        b'f' => &[
            Keyword::Finish,
            Keyword::Flush,
            Keyword::Fail,
            Keyword::Failures,
            Keyword::FinishF,
            Keyword::Flight,
            Keyword::FinishV,
        ],
        b'd' => &[
            Keyword::Del,
            Keyword::Due,
            Keyword::Delete,
            Keyword::Drain,
            Keyword::Drained,
            Keyword::Dismount,
            Keyword::Drop,
        ],
        b'r' => &[
            Keyword::Ref,
            Keyword::Rel,
            Keyword::Read,
            Keyword::Resume,
            Keyword::ResPost,
            Keyword::Restore,
        ],
        b'w' => &[Keyword::WBody, Keyword::Write],
        b'q' => &[Keyword::Query, Keyword::Queried, Keyword::QuerySize],
        b'u' => &[Keyword::Unload, Keyword::Unloaded],
        b'e' => &[Keyword::Enter, Keyword::EmptyF, Keyword::EmptyV],
        b'o' => &[Keyword::Other, Keyword::OtherV],
        _ => &[],
    }
}

// The one that is spelled so.
fn spelled(keywords: &[Keyword], word: &[u8]) -> Option<Keyword>
    ensures { result ≡ find (λ k. bytes_eq (spelling k) word.now) keywords.now }
{
    keywords
        .iter()
        .copied()
        .find(|keyword| keyword.is_spelled(word))
}

impl Keyword {
    /// All of them.
    pub const ALL: [Keyword; 69] = [
        Keyword::Load,
        Keyword::Mount,
        Keyword::Attach,
        Keyword::List,
        Keyword::Next,
        Keyword::Pre,
        Keyword::Plan,
        Keyword::Base,
        Keyword::Post,
        Keyword::Go,
        Keyword::Collect,
        Keyword::Phase,
        Keyword::Setup,
        Keyword::SetDone,
        Keyword::Finish,
        Keyword::Create,
        Keyword::Alloc,
        Keyword::Set,
        Keyword::Get,
        Keyword::Del,
        Keyword::Ref,
        Keyword::Rel,
        Keyword::Body,
        Keyword::WBody,
        Keyword::Bump,
        Keyword::Due,
        Keyword::Cleaned,
        Keyword::Count,
        Keyword::Leaks,
        Keyword::Read,
        Keyword::Write,
        Keyword::Size,
        Keyword::SetSize,
        Keyword::Flush,
        Keyword::Delete,
        Keyword::Cleanup,
        Keyword::Close,
        Keyword::Fail,
        Keyword::Failures,
        Keyword::Resume,
        Keyword::ResPost,
        Keyword::Query,
        Keyword::Queried,
        Keyword::Start,
        Keyword::Started,
        Keyword::Complete,
        Keyword::Completed,
        Keyword::Enter,
        Keyword::Left,
        Keyword::Unload,
        Keyword::Unloaded,
        Keyword::EmptyF,
        Keyword::FinishF,
        Keyword::Flight,
        Keyword::Drain,
        Keyword::Drained,
        Keyword::Dismount,
        Keyword::Drop,
        Keyword::EmptyV,
        Keyword::FinishV,
        Keyword::QuerySize,
        Keyword::SetDelete,
        Keyword::Restore,
        Keyword::Other,
        Keyword::OtherV,
        Keyword::ChangeHeld,
        Keyword::Below,
        Keyword::AtBase,
        Keyword::AtTop,
    ];

    /// The keyword that a word is, if it is one.
    #[tactic(auto, unfolding(crate::specs::Commands::keyword_read))]
    pub fn read(word: &[u8]) -> Option<Keyword>
        ensures { result ≡ keyword_read word.now }
    {
        match word {
            [] => None,
            [first, ..] => spelled(beginning_with(*first), word),
        }
    }

    // Whether a word spells it. Other words mostly differ in length, so lengths are compared first.
    fn is_spelled(self, word: &[u8]) -> bool
        ensures { result ≡ bytes_eq (spelling self) word.now }
    {
        let spelling = self.spelling();
        spelling.len() == word.len() && spelling == word
    }

    /// How a line spells it.
    pub fn spelling(self) -> &'static [u8]
        ensures { result.now ≡ spelling self }
    {
        match self {
            Keyword::Load => b"load",
            Keyword::Mount => b"mount",
            Keyword::Attach => b"attach",
            Keyword::List => b"list",
            Keyword::Next => b"next",
            Keyword::Pre => b"pre",
            Keyword::Plan => b"plan",
            Keyword::Base => b"base",
            Keyword::Post => b"post",
            Keyword::Go => b"go",
            Keyword::Collect => b"collect",
            Keyword::Phase => b"phase",
            Keyword::Setup => b"setup",
            Keyword::SetDone => b"setdone",
            Keyword::Finish => b"finish",
            Keyword::Create => b"create",
            Keyword::Alloc => b"alloc",
            Keyword::Set => b"set",
            Keyword::Get => b"get",
            Keyword::Del => b"del",
            Keyword::Ref => b"ref",
            Keyword::Rel => b"rel",
            Keyword::Body => b"body",
            Keyword::WBody => b"wbody",
            Keyword::Bump => b"bump",
            Keyword::Due => b"due",
            Keyword::Cleaned => b"cleaned",
            Keyword::Count => b"count",
            Keyword::Leaks => b"leaks",
            Keyword::Read => b"read",
            Keyword::Write => b"write",
            Keyword::Size => b"size",
            Keyword::SetSize => b"setsize",
            Keyword::Flush => b"flush",
            Keyword::Delete => b"delete",
            Keyword::Cleanup => b"cleanup",
            Keyword::Close => b"close",
            Keyword::Fail => b"fail",
            Keyword::Failures => b"failures",
            Keyword::Resume => b"resume",
            Keyword::ResPost => b"respost",
            Keyword::Query => b"query",
            Keyword::Queried => b"queried",
            Keyword::Start => b"start",
            Keyword::Started => b"started",
            Keyword::Complete => b"complete",
            Keyword::Completed => b"completed",
            Keyword::Enter => b"enter",
            Keyword::Left => b"left",
            Keyword::Unload => b"unload",
            Keyword::Unloaded => b"unloaded",
            Keyword::EmptyF => b"emptyf",
            Keyword::FinishF => b"finishf",
            Keyword::Flight => b"flight",
            Keyword::Drain => b"drain",
            Keyword::Drained => b"drained",
            Keyword::Dismount => b"dismount",
            Keyword::Drop => b"drop",
            Keyword::EmptyV => b"emptyv",
            Keyword::FinishV => b"finishv",
            Keyword::QuerySize => b"querysize",
            Keyword::SetDelete => b"setdelete",
            Keyword::Restore => b"restore",
            Keyword::Other => b"other",
            Keyword::OtherV => b"otherv",
            Keyword::ChangeHeld => b"change_held",
            Keyword::Below => b"below",
            Keyword::AtBase => b"atbase",
            Keyword::AtTop => b"attop",
        }
    }
}
