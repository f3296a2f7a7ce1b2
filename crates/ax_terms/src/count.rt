//! The count of the terms of a document.
ghost use Rattle.std.specs.Prelude.{◌≡◌, map, IfOk, OnOk};
ghost use Rattle.std.specs.List.{flat_map};
ghost use Rattle.ax_terms.specs.Counting.{Counted};
ghost use Rattle.ax_terms.specs.Counts.{term_count};
ghost use Rattle.ax_terms.specs.Leaves.{item_leaves, leaves, leaves_in, member_leaves};

use crate::counter::{Counter, Place};
use crate::term_count::TermCount;
use ax_mean::{Items, Members, Memory, Tree};
use std::alloc::Global;

/// How many distinct plain terms a document has where all its leaves are covered, how many bytes
/// these terms have together, and the longest encoded path of a leaf in bytes, its end with them. A
/// number of 2^64 or more is given as 2^64 - 1.
pub fn count_all(alloc: Global, tree: &Tree) -> Result<TermCount, Memory>
    ensures { IfOk result (λ count. count ≡ term_count tree.now) }
{
    let mut counter = Counter::new(alloc);
    let start = Place { number: 0, size: 0 };
    count_tree(alloc, &mut counter, start, tree)?;
    Ok(counter.counts)
}

/// Counts the leaves of a tree at that place.
#[cycle(count)]
fn count_tree(alloc: Global, counter: &mut Counter, at: Place, tree: &Tree) -> Result<(), Memory>
    ensures { OnOk result (Counted counter.old at (leaves tree.now) counter.new) }
{
    match tree {
        Tree::List(items) => {
            if items.as_slice().is_empty() {
                counter.count_leaf(alloc, at, tree)
            } else {
                count_items(alloc, counter, at, items)
            }
        }
        Tree::Object(members) => {
            if members.as_slice().is_empty() {
                counter.count_leaf(alloc, at, tree)
            } else {
                count_members(alloc, counter, at, members)
            }
        }
        _ => counter.count_leaf(alloc, at, tree),
    }
}

#[cycle(count)]
fn count_items(
    alloc: Global,
    counter: &mut Counter,
    at: Place,
    items: &Items<Tree>,
) -> Result<(), Memory>
    ensures { OnOk result
        (Counted counter.old at (flat_map item_leaves (map leaves items.now)) counter.new) }
{
    let place = counter.behind_item(alloc, at)?;
    for item in items.as_slice() {
        count_tree(alloc, counter, place, item)?;
    }
    Ok(())
}

#[cycle(count)]
fn count_members(
    alloc: Global,
    counter: &mut Counter,
    at: Place,
    members: &Members<Tree>,
) -> Result<(), Memory>
    ensures { OnOk result
        (Counted counter.old at (flat_map member_leaves (map leaves_in members.now)) counter.new) }
{
    for member in members.as_slice() {
        let place = counter.behind_name(alloc, at, &member.name)?;
        count_tree(alloc, counter, place, &member.value)?;
    }
    Ok(())
}
