//! The five kinds of objects that a filter's contexts may be set on, and sets of them.

ghost use Rattle.std.specs.Prelude.{⊤, ◌≡◌, ◌<◌, ◌^◌, [], ◌∷◌, codes};
ghost use Rattle.fm_types.specs.Masks.{context_bit, has_context, HasEveryContext, HasNoContext};

use bitflags::{Flag, Flags, bitflag_items};

/// What a context is set on (`FLT_VOLUME_CONTEXT`, `FLT_INSTANCE_CONTEXT` ..).
#[derive(Clone, Copy, Debug, PartialEq, Eq, Hash)]
pub enum ContextKind {
    Volume,
    Instance,
    Stream,
    Handle,
    File,
}

/// A set of kinds of contexts (the entries of `FLT_CONTEXT_REGISTRATION`).
#[derive(Clone, Copy, Debug, PartialEq, Eq)]
pub struct ContextMask(pub u8);

bitflag_items! {
    impl ContextMask: u8 {
        const VOLUME = 1;
        const INSTANCE = 2;
        const STREAM = 4;
        const HANDLE = 8;
        const FILE = 16;
    }
}

impl Flags for ContextMask {
    type Bits = u8;

    ghost exact = { ⊤ };

    ghost table = { (codes "VOLUME", 1) ∷ (codes "INSTANCE", 2) ∷ (codes "STREAM", 4) ∷ (codes "HANDLE", 8) ∷ (codes "FILE", 16) ∷ [] };

    ghost set_of = { λ mask. mask.0 };

    fn flags<'a>() -> &'a [Flag<ContextMask>] {
        ContextMask::FLAGS
    }

    fn bits(&self) -> u8 {
        self.0
    }

    fn from_bits_retain(bits: u8) -> ContextMask {
        ContextMask(bits)
    }
}

impl ContextMask {
    /// Every kind of context.
    pub const ALL: ContextMask = ContextMask(31);

    /// No kind of context.
    pub const NONE: ContextMask = ContextMask(0);

    /// The set of that kind alone.
    pub fn of(kind: ContextKind) -> ContextMask
        ensures { result.0 ≡ context_bit kind }
    {
        match kind {
            ContextKind::Volume => ContextMask::VOLUME,
            ContextKind::Instance => ContextMask::INSTANCE,
            ContextKind::Stream => ContextMask::STREAM,
            ContextKind::Handle => ContextMask::HANDLE,
            ContextKind::File => ContextMask::FILE,
        }
    }

    /// Every kind of context is in `ALL`, none is in `NONE`, and nothing else is in either.
    pub fn laws()
        ensures all { HasEveryContext ContextMask.ALL.0 × (ContextMask.ALL.0 < 2 ^ 5) }
        ensures none { HasNoContext ContextMask.NONE.0 × (ContextMask.NONE.0 < 2 ^ 5) }
    {}

    /// Whether that kind of context is in the set.
    pub fn has(self, kind: ContextKind) -> bool
        ensures { result ≡ has_context self.0 kind }
    {
        self.contains(ContextMask::of(kind))
    }
}
