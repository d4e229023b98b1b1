//! The path of the next run.

ghost use Rattle.std.specs.Prelude.{◌≡◌, ◌+◌, ◌↔◌, All, IfOk, IfNone, IfSome, IsTrue, MatchOption, take};
ghost use Rattle.fm_choice.specs.Choices.{IsLast, IsLastOpen, IsNextPath, taken_of};
ghost use Rattle.fm_choice.specs.declared.choice.Choice.{Choice};

use crate::choice::Choice;
use std::alloc::{AllocError, Global};

// Whether a choice has no option behind the one that was taken.
fn is_last(choice: &Choice) -> bool
    ensures { IsTrue result ↔ IsLast choice.now }
{
    choice.options <= choice.taken.saturating_add(1)
}

// The place of the last choice that has one.
fn last_open(choices: &[Choice]) -> Option<usize>
    ensures none { IfNone result (All IsLast choices.now) }
    ensures some { IfSome result (λ at. (choice : Choice) × IsLastOpen choices.now at choice) }
{
    let mut at = choices.len();
    while at > 0 {
        at -= 1;
        if !is_last(&choices[at]) {
            return Some(at);
        }
    }
    None
}

// The options that were taken.
fn taken_of(alloc: Global, choices: &[Choice]) -> Result<Vec<usize>, AllocError>
    ensures { IfOk result (λ path. path.items ≡ taken_of choices.now) }
{
    let mut path = Vec::new(alloc);
    for choice in choices {
        path.push(choice.taken)?;
    }
    Ok(path)
}

// The option behind the one that was taken.
fn behind(choice: &Choice) -> usize
    requires { IsLast choice.now → ⊥ }
    ensures { result ≡ choice.now.taken + 1 }
{
    let _options = choice.options;
    choice.taken + 1
}

// The options that were taken before that place, and the next one there.
fn path_to(alloc: Global, choices: &[Choice], at: usize) -> Result<Vec<usize>, AllocError>
    requires { (choice : Choice) × IsLastOpen choices.now at choice }
    ensures next { IfOk result (λ path. IsNextPath choices.now path.items) }
{
    let mut path = taken_of(alloc, &choices[..at])?;
    path.push(behind(&choices[at]))?;
    Ok(path)
}

/// The path of the next run of a search by depth, after a run that made these choices. It is the same up to the last choice that has an untried option, and then
/// the option behind the one that was taken. None exactly where no choice has one: if each run followed its path, all orders were seen then. A search begins with the
/// empty path, and meets none twice (`laws::paths_grow`). Fails if memory is refused.
pub fn next_path(alloc: Global, choices: &[Choice]) -> Result<Option<Vec<usize>>, AllocError>
    ensures { IfOk result (λ next. MatchOption next (All IsLast choices.now) (λ path. IsNextPath choices.now path.items)) }
{
    match last_open(choices) {
        Some(at) => match path_to(alloc, choices, at) {
            Ok(path) => Ok(Some(path)),
            Err(refused) => Err(refused),
        },
        None => Ok(None),
    }
}
