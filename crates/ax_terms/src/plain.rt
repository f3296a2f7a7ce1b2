//! The terms of leaves that are covered.
ghost use Rattle.std.specs.Prelude.{◌≡◌, [], ◌∷◌, ◌++◌, map, IfOk, OnOk, if◌then◌else◌};
ghost use Rattle.std.specs.List.{flat_map};
ghost use Rattle.ax_terms.specs.Adding.{AddsAt, term_from};
ghost use Rattle.ax_terms.specs.Leaves.{alone, item_leaves, leaves, leaves_in, member_leaves};

use crate::term_value::term_value;
use ax_mean::{Items, Members, Memory, Step, Tree};
use ax_policy::RuleWalk;
use ax_term::{Bytes, append_name, append_step, append_value};
use std::alloc::Global;

/// What stands behind the last step of a path.
const END_OF_PATH: u8 = 0x01;

/// Room for the end of a term of a short value.
const ROOM: usize = 32;

/// Appends the terms of the covered leaves of a tree. The walk is at the tree's path, and `front` is
/// what a term at that path begins with; afterwards it is so again.
#[cycle(plain)]
pub(crate) fn append_leaves(
    alloc: Global,
    terms: &mut Vec<Bytes>,
    front: &mut Vec<u8>,
    walk: RuleWalk<'_>,
    tree: &Tree,
) -> Result<(), Memory>
    ensures terms { OnOk result
        (AddsAt walk.entry front.old.items (leaves tree.now) terms.old.items terms.new.items) }
    ensures front { OnOk result (front.new.items ≡ front.old.items) }
{
    match tree {
        Tree::List(items) => {
            if items.as_slice().is_empty() {
                append_leaf(alloc, terms, front.as_slice(), walk, tree)
            } else {
                append_items(alloc, terms, front, walk, items)
            }
        }
        Tree::Object(members) => {
            if members.as_slice().is_empty() {
                append_leaf(alloc, terms, front.as_slice(), walk, tree)
            } else {
                append_members(alloc, terms, front, walk, members)
            }
        }
        _ => append_leaf(alloc, terms, front.as_slice(), walk, tree),
    }
}

#[cycle(plain)]
fn append_items(
    alloc: Global,
    terms: &mut Vec<Bytes>,
    front: &mut Vec<u8>,
    walk: RuleWalk<'_>,
    items: &Items<Tree>,
) -> Result<(), Memory>
    ensures terms { OnOk result (AddsAt walk.entry front.old.items
        (flat_map item_leaves (map leaves items.now)) terms.old.items terms.new.items) }
    ensures front { OnOk result (front.new.items ≡ front.old.items) }
{
    let len = front.len();
    append_step(front, &Step::Item)?;
    let below = walk.item();
    for item in items.as_slice() {
        append_leaves(alloc, terms, front, below, item)?;
    }
    front.truncate(len);
    Ok(())
}

#[cycle(plain)]
fn append_members(
    alloc: Global,
    terms: &mut Vec<Bytes>,
    front: &mut Vec<u8>,
    walk: RuleWalk<'_>,
    members: &Members<Tree>,
) -> Result<(), Memory>
    ensures terms { OnOk result (AddsAt walk.entry front.old.items
        (flat_map member_leaves (map leaves_in members.now)) terms.old.items terms.new.items) }
    ensures front { OnOk result (front.new.items ≡ front.old.items) }
{
    let len = front.len();
    let mut near = 0;
    for member in members.as_slice() {
        append_name(front, &member.name)?;
        let below = walk.name_near(member.name.as_str(), &mut near);
        append_leaves(alloc, terms, front, below, &member.value)?;
        front.truncate(len);
    }
    Ok(())
}

/// Appends the term of the tree as a leaf, where the walk is at one that is covered.
fn append_leaf(
    alloc: Global,
    terms: &mut Vec<Bytes>,
    front: &[u8],
    walk: RuleWalk<'_>,
    tree: &Tree,
) -> Result<(), Memory>
    ensures { OnOk result
        (AddsAt walk.entry front.now (alone tree.now) terms.old.items terms.new.items) }
{
    append_if(alloc, terms, front, walk.covers(), tree)?;
    Ok(())
}

/// Appends the term of the tree as a leaf, if it is covered.
fn append_if(
    alloc: Global,
    terms: &mut Vec<Bytes>,
    front: &[u8],
    covered: bool,
    tree: &Tree,
) -> Result<(), Memory>
    ensures { OnOk result (terms.new.items
        ≡ terms.old.items ++ (if covered then term_from front.now tree.now ∷ [] else [])) }
{
    if covered {
        terms.push(term_behind(alloc, front, tree)?)?;
    }
    Ok(())
}

/// The term of the tree as a leaf, from what it begins with.
fn term_behind(alloc: Global, front: &[u8], tree: &Tree) -> Result<Bytes, Memory>
    ensures { IfOk result (λ bytes. bytes ≡ term_from front.now tree.now) }
{
    let value = term_value(alloc, tree)?;
    let mut bytes = Vec::with_capacity(alloc, front.len().saturating_add(ROOM))?;
    bytes.extend_from_slice(front)?;
    bytes.push(END_OF_PATH)?;
    append_value(&mut bytes, &value)?;
    Ok(Items::from_vec(bytes))
}
