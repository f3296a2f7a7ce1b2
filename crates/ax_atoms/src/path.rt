//! Paths of properties of the document.
ghost use Rattle.std.specs.Prelude.{◌≡◌, IfOk, Some, map, option_map};
ghost use Rattle.ax_atoms.specs.Recognised.{property_path as path_in, step_of as step_in};

use ax_mean::{Expr, Items, Memory, Path, QueryStep, Step, Text};
use std::alloc::Global;

/// The path of the property of the document that an expression is, where the alias stands for the
/// document; none of another expression.
pub(crate) fn property_path(
    alloc: Global,
    alias: &Text,
    expr: &Expr,
) -> Result<Option<Path>, Memory>
    ensures { IfOk result (λ found. found ≡ path_in alias.now expr.now) }
{
    match property_steps(alias, expr) {
        Some(steps) => some_path(alloc, steps),
        None => Ok(None),
    }
}

/// The path of the steps, as one that is there.
fn some_path(alloc: Global, steps: &[QueryStep]) -> Result<Option<Path>, Memory>
    ensures { IfOk result (λ found. option_map (λ path. path) found ≡ Some (map step_in steps.now)) }
{
    Ok(Some(path_of(alloc, steps)?))
}

/// The steps of the property that an expression is: steps from the alias on, at least one.
fn property_steps<'a>(alias: &Text, expr: &'a Expr) -> Option<&'a [QueryStep]>
    ensures { option_map (λ steps. map step_in steps.now) result ≡ path_in alias.now expr.now }
{
    let Expr::Steps(base, steps) = expr else {
        return None;
    };
    let Expr::Alias(named) = base.get() else {
        return None;
    };
    let steps = steps.as_slice();
    if steps.is_empty() {
        return None;
    }
    if alias.as_str() == named.as_str() {
        Some(steps)
    } else {
        None
    }
}

/// The path of the steps in documents.
fn path_of(alloc: Global, steps: &[QueryStep]) -> Result<Path, Memory>
    ensures { IfOk result (λ path. path ≡ map step_in steps.now) }
{
    let mut path = Vec::with_capacity(alloc, steps.len())?;
    for step in steps {
        path.push(step_of(alloc, step)?)?;
    }
    Ok(Items::from_vec(path))
}

/// The step in documents: a position is one to any element.
fn step_of(alloc: Global, step: &QueryStep) -> Result<Step, Memory>
    ensures { IfOk result (λ found. found ≡ step_in step.now) }
{
    match step {
        QueryStep::Member(name) => Ok(Step::Name(name.copy(alloc)?)),
        QueryStep::Position(_) => Ok(Step::Item),
    }
}
