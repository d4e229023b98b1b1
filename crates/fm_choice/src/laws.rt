//! Laws of the search.

ghost use Rattle.std.specs.Prelude.{ℕ, List};
ghost use Rattle.fm_choice.specs.Choices.{Follows, IsBefore, IsNextPath};
ghost use Rattle.fm_choice.specs.Trees.{IsWholeSearch, RunsAll};
ghost use Rattle.fm_choice.specs.declared.choice.Choice.{Choice};

/// Paths grow: the path after a run comes behind the one that the run followed, none comes behind itself, and what comes behind a later one comes behind an
/// earlier one. So a search meets no path twice.
pub fn paths_grow()
    ensures grows { (path next : List ℕ) (choices : List Choice) → Follows path choices → IsNextPath choices next → IsBefore path next }
    ensures apart { (path : List ℕ) → IsBefore path path → ⊥ }
    ensures on { (one two three : List ℕ) → IsBefore one two → IsBefore two three → IsBefore one three }
{}

/// A search that has come to its end has run each path of the tree: if its runs are all of one tree, as those of a program that repeats itself are, then no path
/// of that tree is left.
pub fn whole_searches_run_all()
    ensures { (runs : List (List Choice)) → IsWholeSearch runs → RunsAll runs }
{}
