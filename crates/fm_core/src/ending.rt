//! What is left of a manager's life, and when it is over.

ghost use Rattle.std.specs.Prelude.{◌≡◌, ◌≤◌};
ghost use Rattle.fm_ctx.specs.Counting.{born, cleaned_count};
ghost use Rattle.fm_world.specs.Ending.{busy_of, IsOver};

use crate::state::State;

impl State {
    // What keeps the sums of `busy` small.
    #[tactic(auto, using(fm_world::proofs::Endings::busy_few, fm_world::proofs::Endings::cleaned_few))]
    fn few_left(&self)
        ensures few { busy_of self.now ≤ 74032 }
        ensures cleaned { cleaned_count self.now.contexts.slots ≤ born self.now.contexts.slots }
    {
        self.laws();
        self.headline();
    }

    /// How much is left: the operations, also those whose answer was handed out while a drain of theirs runs; the open handles; the instances that aren't
    /// Detached; and the contexts that aren't cleaned up.
    pub fn busy(&self) -> u64
        ensures { result ≡ busy_of self.now }
    {
        self.few_left();
        let asked = self.flow.operations() as u64 + self.files.handles() as u64;
        let uncleaned = self.contexts.born() - self.contexts.cleaned_count();
        asked + (self.stack.instances_left() as u64 + uncleaned)
    }

    /// What holds of a state of which nothing is left, for callers that rest on it: no operation, no open handle, no link and no reference is there, each
    /// instance is Detached, and each context that was born is cleaned up. It does nothing.
    #[tactic(auto, using(fm_world::proofs::Endings::is_over))]
    pub fn end(&self)
        ensures { busy_of self.now ≡ 0 → IsOver self.now }
    {
        self.headline();
    }
}
