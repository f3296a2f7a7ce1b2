//! What comes next behind all paths, and all bytes, that begin alike.
ghost use Rattle.std.specs.Prelude.{◌≡◌, ◌∷◌, [], ◌++◌, IfOk, length, ◌<◌, ◌≤◌, ◌+◌};
ghost use Rattle.ax_atoms.specs.Spans as spec;

use ax_mean::{Items, Memory, Path, Step, Text};
use std::alloc::Global;

/// The least path behind all that begin with this one.
pub(crate) fn next_path(alloc: Global, path: &Path) -> Result<Path, Memory>
    ensures { IfOk result (λ next. next ≡ spec.next_path path.now) }
{
    match path.as_slice().split_last() {
        Some((last, before)) => next_of(alloc, before, last),
        None => Ok(Items::new(alloc)),
    }
}

/// The same of a path by its last step.
#[tactic(auto, using(crate::proofs::Nexts::path_next_last))]
fn next_of(alloc: Global, before: &[Step], last: &Step) -> Result<Path, Memory>
    ensures { IfOk result (λ next. next ≡ spec.next_path (before.now ++ last.now ∷ [])) }
{
    let next = next_step(alloc, last)?;
    let mut path = copied(alloc, before)?;
    path.push(next)?;
    Ok(Items::from_vec(path))
}

/// Equal steps.
fn copied(alloc: Global, steps: &[Step]) -> Result<Vec<Step>, Memory>
    ensures { IfOk result (λ path. path.items ≡ steps.now) }
{
    let mut path = Vec::with_capacity(alloc, steps.len())?;
    for step in steps {
        path.push(step_copy(alloc, step)?)?;
    }
    Ok(path)
}

/// An equal step.
fn step_copy(alloc: Global, step: &Step) -> Result<Step, Memory>
    ensures { IfOk result (λ found. found ≡ step.now) }
{
    match step {
        Step::Name(name) => Ok(Step::Name(name.copy(alloc)?)),
        Step::Item => Ok(Step::Item),
    }
}

/// The least step behind this one.
fn next_step(alloc: Global, step: &Step) -> Result<Step, Memory>
    ensures { IfOk result (λ found. found ≡ spec.next_step step.now) }
{
    match step {
        Step::Name(name) => Ok(Step::Name(name_and_zero(alloc, name)?)),
        Step::Item => Ok(Step::Name(Text::from_string(String::new(alloc)))),
    }
}

/// The name with a 00 behind it.
fn name_and_zero(alloc: Global, name: &Text) -> Result<Text, Memory>
    ensures { IfOk result (λ next. next ≡ name.now ++ 0 ∷ []) }
{
    let mut next = String::from_str(alloc, name.as_str())?;
    next.push('\0')?;
    Ok(Text::from_string(next))
}

/// The least bytes behind all that begin with these; none where all of them are FF.
pub(crate) fn next_bytes(alloc: Global, front: &[u8]) -> Result<Vec<u8>, Memory>
    ensures next { IfOk result (λ next. next.items ≡ spec.next_bytes front.now) }
    ensures short { IfOk result (λ next. length next.items ≤ length front.now) }
{
    let mut left = front;
    while let Some((last, before)) = left.split_last() {
        if *last < 255 {
            return raised(alloc, before, *last);
        }
        left = before;
    }
    Ok(Vec::new(alloc))
}

/// The bytes, and behind them the last one with 1 added to it.
fn raised(alloc: Global, before: &[u8], last: u8) -> Result<Vec<u8>, Memory>
    requires { last < 255 }
    ensures { IfOk result (λ next. next.items ≡ before.now ++ (last + 1) ∷ []) }
{
    let mut next = Vec::from_slice(alloc, before)?;
    next.push(last + 1)?;
    Ok(next)
}
