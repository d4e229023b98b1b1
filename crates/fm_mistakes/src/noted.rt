//! What a manager noted since its report was last forgotten.

ghost use Rattle.std.specs.Prelude.{◌≡◌, IfOk, filter_map, length, map};
ghost use Rattle.std.specs.List.{range_with_len};
ghost use Rattle.fm_local.specs.Offered.{leaks, refused_calls, steps};
ghost use Rattle.fm_mistakes.specs.Findings.{call_finding, findings, leak_finding, step_findings};

use crate::finding::{Finding, call_finding, finding_at};
use fm_base::Base;
use fm_filter::Minifilter;
use fm_local::{Leak, LocalManager, Refusal, Traced};
use std::alloc::{AllocError, Global};

/// The steps of operations that can be read, the oldest first. Fails if memory is refused.
pub fn steps_of<F: Minifilter, B: Base>(
    alloc: Global,
    manager: &LocalManager<F, B>,
) -> Result<Vec<Traced>, AllocError>
    ensures { IfOk result (λ list. list.items ≡ steps manager.now) }
{
    let mut list = Vec::new(alloc);
    for place in 0..manager.traced() {
        if let Some(one) = manager.trace(place) {
            list.push(one)?;
        }
    }
    Ok(list)
}

// The leaks that can be read.
fn leaks_of<F: Minifilter, B: Base>(
    alloc: Global,
    manager: &LocalManager<F, B>,
) -> Result<Vec<Leak>, AllocError>
    ensures { IfOk result (λ list. list.items ≡ leaks manager.now) }
{
    let mut list = Vec::new(alloc);
    for place in 0..manager.leaked() {
        if let Some(one) = manager.leak(place) {
            list.push(one)?;
        }
    }
    Ok(list)
}

// The refused calls that can be read.
fn refused_calls_of<F: Minifilter, B: Base>(
    alloc: Global,
    manager: &LocalManager<F, B>,
) -> Result<Vec<Refusal>, AllocError>
    ensures { IfOk result (λ list. list.items ≡ refused_calls manager.now) }
{
    let mut list = Vec::new(alloc);
    for place in 0..manager.refused_calls() {
        if let Some(one) = manager.refused_call(place) {
            list.push(one)?;
        }
    }
    Ok(list)
}

// What is told of steps.
fn step_findings(alloc: Global, steps: &[Traced]) -> Result<Vec<Finding>, AllocError>
    ensures { IfOk result (λ list. list.items ≡ step_findings steps.now) }
{
    (0..steps.len())
        .filter_map(|place| finding_at(steps, place))
        .collect(alloc)
}

// What is told of leaks.
fn leak_findings(alloc: Global, leaks: &[Leak]) -> Result<Vec<Finding>, AllocError>
    ensures { IfOk result (λ list. list.items ≡ map leak_finding leaks.now) }
{
    leaks.iter().map(|leak| Finding::Leak(*leak)).collect(alloc)
}

// What is told of refused calls.
fn call_findings(alloc: Global, calls: &[Refusal]) -> Result<Vec<Finding>, AllocError>
    ensures { IfOk result (λ list. list.items ≡ filter_map call_finding calls.now) }
{
    calls
        .iter()
        .filter_map(|call| call_finding(call))
        .collect(alloc)
}

/// What is told of all that a manager noted since its report was last forgotten, as far as it can be read: of steps of operations first, then of references that
/// were left behind, then of calls that were refused, each in their order. Fails if memory is refused.
pub fn findings<F: Minifilter, B: Base>(
    alloc: Global,
    manager: &LocalManager<F, B>,
) -> Result<Vec<Finding>, AllocError>
    ensures { IfOk result (λ list. list.items ≡ findings (steps manager.now) (leaks manager.now) (refused_calls manager.now)) }
{
    let steps = steps_of(alloc, manager)?;
    let leaks = leaks_of(alloc, manager)?;
    let calls = refused_calls_of(alloc, manager)?;
    let mut all = step_findings(alloc, steps.as_slice())?;
    let more = leak_findings(alloc, leaks.as_slice())?;
    all.extend_from_slice(more.as_slice())?;
    let more = call_findings(alloc, calls.as_slice())?;
    all.extend_from_slice(more.as_slice())?;
    Ok(all)
}
