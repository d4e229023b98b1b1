//! How many contexts there were.

ghost use Rattle.std.specs.Prelude.{◌≡◌, ◌-◌, ◌^◌, ◌<◌, ◌≤◌};
ghost use Rattle.fm_ctx.specs.Generations.{begun, ended};

/// How many contexts were born, and how many of them aren't cleaned.
#[derive(Drop)]
pub struct Tally {
    pub born: u64,
    pub living: u64,
}

impl Tally {
    /// One more context is born.
    pub fn begin(&mut self)
        requires born { self.old.born < 2 ^ 64 - 1 }
        requires living { self.old.living < 2 ^ 64 - 1 }
        ensures { self.new ≡ begun self.old }
    {
        self.born += 1;
        self.living += 1;
    }

    /// A context is cleaned.
    pub fn end(&mut self)
        requires { 0 < self.old.living }
        ensures { self.new ≡ ended self.old }
    {
        self.living -= 1;
    }

    /// How many contexts are cleaned.
    pub fn cleaned(&self) -> u64
        requires { self.now.living ≤ self.now.born }
        ensures { result ≡ self.now.born - self.now.living }
    {
        self.born - self.living
    }
}
