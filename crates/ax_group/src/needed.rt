//! What a tally needs of a value. A tree that stands in a document is copied only where it is kept.
ghost use Rattle.std.specs.Prelude.{◌≡◌, ◌++◌, ◌∷◌, List, length, slice_get, IfOk};
ghost use Rattle.std.specs.Option.{option_copied};
ghost use Rattle.ax_mean.specs.Values.{number_of as number_held};
ghost use Rattle.ax_mean.specs.declared.value.Value.{Value};
ghost use Rattle.ax_mean.specs.declared.value.Value.TheVariants.{Defined};
ghost use Rattle.ax_group.specs.States.{tallies_with};
ghost use Rattle.ax_group.specs.Tallies.{greatest_more, least_more, tally_with};

use crate::out_of_memory::Memory;
use crate::scalar::{compare_scalar, is_above, is_composed};
use crate::tally::Tally;
use ax_func::Seen;
use ax_mean::{Items, Tree, Value};
use std::alloc::Global;

/// Values by which the tallies go on as by those that are seen.
#[tactic(auto, using(crate::proofs::Needs::one_more))]
pub fn needed_all(alloc: Global, tallies: &[Tally], values: &[Seen]) -> Result<Vec<Value>, Memory>
    ensures { IfOk result (λ made.
        tallies_with tallies.now made.items ≡ tallies_with tallies.now values.now) }
{
    let mut made = Vec::with_capacity(alloc, values.len())?;
    for value in values {
        let needed = needed_at(alloc, tallies, made.len(), value)?;
        made.push(needed)?;
    }
    Ok(made)
}

/// A value by which the tally at that position goes on as by the one that is seen.
fn needed_at(alloc: Global, tallies: &[Tally], at: usize, value: &Seen) -> Result<Value, Memory>
    ensures { IfOk result (λ needed. (before after : List Value) → length before ≡ at
        → tallies_with tallies.now (before ++ needed ∷ after)
        ≡ tallies_with tallies.now (before ++ value.now ∷ after)) }
{
    match tally_at(tallies, at) {
        Some(tally) => needed(alloc, tally, value),
        None => Ok(Value::Undefined),
    }
}

fn tally_at(tallies: &[Tally], at: usize) -> Option<&Tally>
    ensures { option_copied result ≡ slice_get tallies.now at }
{
    tallies.get(at)
}

/// A value by which the tally goes on as by the one that is seen.
fn needed(alloc: Global, tally: &Tally, value: &Seen) -> Result<Value, Memory>
    ensures { IfOk result (λ needed. tally_with tally.now needed ≡ tally_with tally.now value.now) }
{
    match value.tree() {
        Some(tree) => needed_tree(alloc, tally, tree),
        None => Ok(Value::Undefined),
    }
}

fn needed_tree(alloc: Global, tally: &Tally, tree: &Tree) -> Result<Value, Memory>
    ensures { IfOk result (λ needed.
        tally_with tally.now needed ≡ tally_with tally.now (Defined tree.now)) }
{
    match tally {
        Tally::Count(_) => Ok(Value::Defined(Tree::Null)),
        Tally::Sum(_) => Ok(Value::Defined(number_or_null(tree))),
        Tally::Least(best) => needed_by_least(alloc, best, tree),
        Tally::Greatest(best) => needed_by_greatest(alloc, best, tree),
        Tally::First(_) => Ok(Value::Undefined),
        Tally::Undefined => Ok(Value::Undefined),
    }
}

/// The number; null in the place of any other tree.
fn number_or_null(tree: &Tree) -> Tree
    ensures { number_held (Defined result) ≡ number_held (Defined tree.now) }
{
    match tree {
        Tree::Number(number) => Tree::Number(*number),
        _ => Tree::Null,
    }
}

fn needed_by_least(alloc: Global, best: &Value, tree: &Tree) -> Result<Value, Memory>
    ensures { IfOk result (λ needed.
        tally_with (Tally.Least best.now) needed ≡ least_more best.now (Defined tree.now)) }
{
    if is_composed(tree) {
        return Ok(Value::Defined(Tree::List(Items::new(alloc))));
    }
    match best {
        Value::Defined(best) => {
            if compare_scalar(tree, best).is_lt() {
                Ok(Value::Defined(tree.copy(alloc)?))
            } else {
                Ok(Value::Undefined)
            }
        }
        Value::Undefined => Ok(Value::Defined(tree.copy(alloc)?)),
    }
}

fn needed_by_greatest(alloc: Global, best: &Value, tree: &Tree) -> Result<Value, Memory>
    ensures { IfOk result (λ needed.
        tally_with (Tally.Greatest best.now) needed ≡ greatest_more best.now (Defined tree.now)) }
{
    if is_composed(tree) {
        return Ok(Value::Defined(Tree::List(Items::new(alloc))));
    }
    match best {
        Value::Defined(best) => {
            if is_above(tree, best) {
                Ok(Value::Defined(tree.copy(alloc)?))
            } else {
                Ok(Value::Undefined)
            }
        }
        Value::Undefined => Ok(Value::Defined(tree.copy(alloc)?)),
    }
}
