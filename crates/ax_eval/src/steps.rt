//! Steps from a value to a part of it.
ghost use Rattle.std.specs.Prelude.{◌≡◌};
ghost use Rattle.std.specs.Option.{option_copied};
ghost use Rattle.ax_tree.specs.Document.{value_of};
ghost use Rattle.ax_mean.specs.Steps.{step_from as part_from, steps_from as part_along};
ghost use Rattle.ax_mean.specs.Values.{of_tree};
ghost use Rattle.ax_mean.specs.declared.value.Value.TheVariants.{Defined};
ghost use Rattle.std.specs.Prelude.{slice_get};

use ax_func::{Held, Seen};
use ax_mean::{Items, Members, QueryStep, StepList, Tree, Value};

/// The part to which the steps lead; undefined where there is none. Nothing is copied.
pub fn steps_from<'a>(base: Seen<'a>, steps: &StepList) -> Seen<'a>
    ensures { result ≡ part_along base.entry steps.now }
{
    let mut part = base;
    for step in steps.as_slice() {
        part = step_from(part, step);
    }
    part
}

fn step_from<'a>(value: Seen<'a>, step: &QueryStep) -> Seen<'a>
    ensures { result ≡ part_from value.entry step.now }
{
    match value.into_held() {
        Held::Undefined => Seen::undefined(),
        Held::Here(tree) => seen_part(tree, step),
        Held::Made(tree) => Seen::made(moved_part(tree, step)),
    }
}

fn seen_part<'a>(tree: &'a Tree, step: &QueryStep) -> Seen<'a>
    ensures { result ≡ part_from (Defined tree.now) step.now }
{
    let part = match step {
        QueryStep::Member(name) => tree.member(name.as_str()),
        QueryStep::Position(at) => item(tree, *at),
    };
    match part {
        Some(part) => Seen::here(part),
        None => Seen::undefined(),
    }
}

/// The element at a position from 0; none where the tree is no list or has none there.
fn item(tree: &Tree, at: u32) -> Option<&Tree>
    ensures { of_tree (option_copied result) ≡ part_from (Defined tree.now) (QueryStep.Position at) }
{
    match tree {
        Tree::List(items) => element(items, at),
        _ => None,
    }
}

fn element(items: &Items<Tree>, at: u32) -> Option<&Tree>
    ensures { option_copied result ≡ slice_get items.now at }
{
    items.as_slice().get(at as usize)
}

fn moved_part(tree: Tree, step: &QueryStep) -> Value
    ensures { result ≡ part_from (Defined tree) step.now }
{
    match tree {
        Tree::Object(members) => match step {
            QueryStep::Member(name) => moved_member(members, name.as_str()),
            QueryStep::Position(_) => Value::Undefined,
        },
        Tree::List(items) => match step {
            QueryStep::Position(at) => moved_item(items, *at),
            QueryStep::Member(_) => Value::Undefined,
        },
        _ => Value::Undefined,
    }
}

fn moved_member(members: Members<Tree>, name: &str) -> Value
    ensures { result ≡ of_tree (value_of name.now members) }
{
    for member in members.into_vec() {
        if member.name.as_str() == name {
            return Value::Defined(member.value);
        }
        drop(member);
    }
    Value::Undefined
}

fn moved_item(items: Items<Tree>, at: u32) -> Value
    ensures { result ≡ of_tree (slice_get items at) }
{
    let mut items = items.into_vec();
    let at = at as usize;
    if at < items.len() {
        Value::Defined(items.swap_remove(at))
    } else {
        Value::Undefined
    }
}
