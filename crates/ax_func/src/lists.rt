//! The functions of lists.
ghost use Rattle.std.specs.Prelude.{◌≡◌, ◌++◌, IfOk, OnOk, option_map};
ghost use Rattle.ax_mean.specs.ListFunctions.{has_item as holds_item, contains_item, joined_lists, place_from, slice_from, slice_of};
ghost use Rattle.ax_mean.specs.Values.{of_truth as truth_value};

use crate::out_of_memory::Memory;
use crate::same::same;
use crate::seen::Seen;
use crate::texts::count;
use crate::values::{list_of, of_truth};
use ax_mean::{Tree, Value};
use std::alloc::Global;

/// Whether some element is the same tree.
pub fn has_item(items: &[Tree], tree: &Tree) -> bool
    ensures { result ≡ holds_item items.now tree.now }
{
    items.iter().any(|item| same(item, tree))
}

/// Whether some element is the same value; undefined where `list` is no list or `value` undefined.
pub fn contains(list: &Seen, value: &Seen) -> Value
    ensures { result ≡ truth_value (contains_item list.now value.now) }
{
    let Some(tree) = value.tree() else {
        return Value::Undefined;
    };
    match list_of(list) {
        Some(items) => of_truth(Some(has_item(items.as_slice(), tree))),
        None => Value::Undefined,
    }
}

/// The lists joined; none where a value is no list.
pub fn joined(alloc: Global, values: &[Seen]) -> Result<Option<Vec<Tree>>, Memory>
    ensures { IfOk result (λ items. option_map (λ v. v.items) items ≡ joined_lists values.now) }
{
    let mut joined = Vec::new(alloc);
    for value in values {
        let Some(items) = list_of(value) else {
            return Ok(None);
        };
        append_copies(alloc, &mut joined, items.as_slice())?;
    }
    Ok(Some(joined))
}

/// Appends copies of the trees.
fn append_copies(alloc: Global, to: &mut Vec<Tree>, items: &[Tree]) -> Result<(), Memory>
    ensures { OnOk result (to.new.items ≡ to.old.items ++ items.now) }
{
    to.reserve(items.len())?;
    for item in items {
        to.push(item.copy(alloc)?)?;
    }
    Ok(())
}

/// The elements from a position on, which counts from the end where it is negative.
pub fn slice(items: &[Tree], start: i64) -> &[Tree]
    ensures { result.now ≡ slice_from items.now start }
{
    let from = place(items, start);
    if from < items.len() {
        &items[from..]
    } else {
        &[]
    }
}

fn place(items: &[Tree], start: i64) -> usize
    ensures { result ≡ place_from items.now start }
{
    match usize::try_from(start) {
        Ok(start) => start,
        Err(_) => items.len().saturating_sub(start.unsigned_abs() as usize),
    }
}

/// At most `length` elements from a position on.
pub fn slice_to(items: &[Tree], start: i64, length: i64) -> &[Tree]
    ensures { result.now ≡ slice_of items.now start length }
{
    let rest = slice(items, start);
    &rest[..count(length).min(rest.len())]
}

/// Equal trees.
pub fn copies(alloc: Global, items: &[Tree]) -> Result<Vec<Tree>, Memory>
    ensures { IfOk result (λ v. v.items ≡ items.now) }
{
    let mut copied = Vec::new(alloc);
    append_copies(alloc, &mut copied, items)?;
    Ok(copied)
}
