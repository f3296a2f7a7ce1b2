//! Parts of a document, where they stand.
ghost use Rattle.std.specs.Prelude.{◌≡◌, map, IfOk};
ghost use Rattle.std.specs.Option.{option_copied};
ghost use Rattle.ax_mean.specs.Rows.{along_path, along_step};
ghost use Rattle.ax_mean.specs.Steps.{step_from, steps_from};
ghost use Rattle.ax_mean.specs.Values.{list_of, of_tree};
ghost use Rattle.ax_mean.specs.declared.expr.QueryStep.TheVariants.{Position};
ghost use Rattle.ax_mean.specs.declared.value.Value.TheVariants.{Defined};

use crate::out_of_memory::Memory;
use ax_mean::{Items, OrderList, Path, QueryStep, Step, StepList, Tree, Value, ValueList};
use std::alloc::Global;

/// The elements of a list; none of any other tree.
pub fn items_of(tree: &Tree) -> Option<&Items<Tree>>
    ensures { option_copied result ≡ list_of (Defined tree.now) }
{
    match tree {
        Tree::List(items) => Some(items),
        _ => None,
    }
}

/// The part to which the steps of a source lead; none where there is none.
pub fn part_at<'a>(tree: &'a Tree, steps: &StepList) -> Option<&'a Tree>
    ensures { of_tree (option_copied result) ≡ steps_from (Defined tree.now) steps.now }
{
    let mut part = tree;
    for step in steps.as_slice() {
        let Some(next) = part_of(part, step) else {
            return None;
        };
        part = next;
    }
    Some(part)
}

fn part_of<'a>(tree: &'a Tree, step: &QueryStep) -> Option<&'a Tree>
    ensures { of_tree (option_copied result) ≡ step_from (Defined tree.now) step.now }
{
    match step {
        QueryStep::Member(name) => tree.member(name.as_str()),
        QueryStep::Position(at) => item_of(tree, *at),
    }
}

fn item_of(tree: &Tree, at: u32) -> Option<&Tree>
    ensures { of_tree (option_copied result) ≡ step_from (Defined tree.now) (Position at) }
{
    match items_of(tree) {
        Some(items) => items.as_slice().get(at as usize),
        None => None,
    }
}

/// The values by which a document is ordered.
pub fn order_values(alloc: Global, orders: &OrderList, tree: &Tree) -> Result<ValueList, Memory>
    ensures { IfOk result (λ values.
        values ≡ map (λ order. along_path (Defined tree.now) order.path) orders.now) }
{
    let orders = orders.as_slice();
    let mut values = Vec::with_capacity(alloc, orders.len())?;
    for order in orders {
        values.push(value_at(alloc, tree, &order.path)?)?;
    }
    Ok(Items::from_vec(values))
}

fn value_at(alloc: Global, tree: &Tree, path: &Path) -> Result<Value, Memory>
    ensures { IfOk result (λ value. value ≡ along_path (Defined tree.now) path.now) }
{
    match tree_at(tree, path) {
        Some(part) => Ok(Value::Defined(part.copy(alloc)?)),
        None => Ok(Value::Undefined),
    }
}

fn tree_at<'a>(tree: &'a Tree, path: &Path) -> Option<&'a Tree>
    ensures { of_tree (option_copied result) ≡ along_path (Defined tree.now) path.now }
{
    let mut part = tree;
    for step in path.as_slice() {
        let Some(next) = named_part(part, step) else {
            return None;
        };
        part = next;
    }
    Some(part)
}

fn named_part<'a>(tree: &'a Tree, step: &Step) -> Option<&'a Tree>
    ensures { of_tree (option_copied result) ≡ along_step (Defined tree.now) step.now }
{
    match step {
        Step::Name(name) => tree.member(name.as_str()),
        Step::Item => None,
    }
}
