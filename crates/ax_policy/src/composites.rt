//! The composites of a policy.
ghost use Rattle.std.specs.Prelude.{◌≡◌, ◌≤◌, codes, IfOk, IfSome, OnOk, length, option_and_then};
ghost use Rattle.std.specs.Cmp.Lexicographic.{slice_cmp};
ghost use Rattle.std.specs.Ordering.{nat_cmp};
ghost use Rattle.std.specs.List.{list_any};
ghost use Rattle.ax_tree.specs.Document.{member as member_of};
ghost use Rattle.ax_policy.specs.Composites as spec;
ghost use Rattle.ax_policy.specs.Limits.{left_by};
ghost use Rattle.ax_policy.specs.Reading.{read_all};

use crate::limits::{MOST_PATH_BYTES, is_short_path, left_by_path};
use crate::members::{items_in, list_in, text_member};
use crate::normal::composite_text;
use crate::overlap::overlap;
use crate::policy::{Composite, CompositeList};
use crate::read_path::composite_path;
use ax_mean::{Items, Memory, Order, Path, Text, Tree};
use std::alloc::Global;
use std::cmp::Ordering;

/// The most composites of a policy.
const MOST_COMPOSITES: usize = 8;

/// The least and the most paths of a composite.
const LEAST_PATHS: usize = 2;

const MOST_PATHS: usize = 8;

/// The composites of a policy; `None` where they have a wrong shape or are too many.
pub(crate) fn composites_in(alloc: Global, tree: &Tree) -> Result<Option<CompositeList>, Memory>
    ensures { IfOk result (λ composites.
        composites ≡ spec.composites_of (member_of (codes "compositeIndexes") tree.now)) }
{
    let Some(items) = items_in(tree, "compositeIndexes") else {
        return Ok(None);
    };
    if items.len() > MOST_COMPOSITES {
        return Ok(None);
    }
    match composites_of(alloc, items)? {
        Some(composites) => Ok(Some(by_text(alloc, composites)?)),
        None => Ok(None),
    }
}

fn composites_of(alloc: Global, items: &[Tree]) -> Result<Option<CompositeList>, Memory>
    ensures { IfOk result (λ composites. composites ≡ read_all spec.composite_of items.now) }
{
    let mut composites = Vec::with_capacity(alloc, items.len())?;
    for item in items {
        let Some(composite) = composite_of(alloc, item)? else {
            return Ok(None);
        };
        composites.push(composite)?;
    }
    Ok(Some(Items::from_vec(composites)))
}

fn composite_of(alloc: Global, item: &Tree) -> Result<Option<Composite>, Memory>
    ensures { IfOk result (λ composite. composite ≡ spec.composite_of item.now) }
{
    match list_in(item) {
        Some(items) => Ok(if_composite(parts_of(alloc, items)?)),
        None => Ok(None),
    }
}

fn if_composite(parts: Option<Composite>) -> Option<Composite>
    ensures { result ≡ option_and_then spec.if_composite parts }
{
    let parts = parts?;
    if is_composite(parts.as_slice()) {
        Some(parts)
    } else {
        None
    }
}

fn is_composite(parts: &[Order]) -> bool
    ensures { result ≡ spec.is_composite parts.now }
{
    LEAST_PATHS <= parts.len()
        && parts.len() <= MOST_PATHS
        && are_apart(parts)
        && left_by_parts(MOST_PATH_BYTES, parts).is_some()
}

/// Whether no path equals or begins another.
fn are_apart(parts: &[Order]) -> bool
    ensures { result ≡ spec.are_apart parts.now }
{
    match parts.split_first() {
        Some((part, parts)) => !overlaps_any(part, parts) && are_apart(parts),
        None => true,
    }
}

fn overlaps_any(part: &Order, parts: &[Order]) -> bool
    ensures { result ≡ list_any (λ other. spec.overlap part.now.path other.path) parts.now }
{
    for other in parts {
        if overlap(part.path.as_slice(), other.path.as_slice()) {
            return true;
        }
    }
    false
}

/// What the encoded paths leave of some room; `None` where they do not fit.
fn left_by_parts(room: usize, parts: &[Order]) -> Option<usize>
    ensures { result ≡ left_by room (spec.parts_size parts.now) }
{
    let mut room = room;
    for part in parts {
        let Some(left) = left_by_path(room, part.path.as_slice()) else {
            return None;
        };
        room = left;
    }
    Some(room)
}

fn parts_of(alloc: Global, items: &[Tree]) -> Result<Option<Composite>, Memory>
    ensures { IfOk result (λ parts. parts ≡ read_all spec.part_of items.now) }
{
    let mut parts = Vec::with_capacity(alloc, items.len())?;
    for item in items {
        let Some(part) = part_of(alloc, item)? else {
            return Ok(None);
        };
        parts.push(part)?;
    }
    Ok(Some(Items::from_vec(parts)))
}

/// One path of a composite, with its direction.
fn part_of(alloc: Global, item: &Tree) -> Result<Option<Order>, Memory>
    ensures { IfOk result (λ part. part ≡ spec.part_of item.now) }
{
    let Some(text) = text_member(item, "path") else {
        return Ok(None);
    };
    match composite_path(alloc, text.as_str())? {
        Some(path) => Ok(directed(path, item)),
        None => Ok(None),
    }
}

/// The path with the direction that the item gives.
fn directed(path: Path, item: &Tree) -> Option<Order>
    ensures { result ≡ spec.directed (member_of (codes "order") item.now) path }
{
    if !is_short_path(path.as_slice()) {
        return None;
    }
    let down = direction(item)?;
    Some(Order { path, down })
}

/// Whether the direction that the item gives is the descending one.
fn direction(item: &Tree) -> Option<bool>
    ensures { result ≡ spec.direction_of (member_of (codes "order") item.now) }
{
    match item.member("order") {
        Some(order) => direction_in(order.as_text()?),
        None => Some(false),
    }
}

fn direction_in(word: &Text) -> Option<bool>
    ensures { result ≡ spec.direction_in word.now }
{
    let word = word.as_str();
    if word == "ascending" {
        return Some(false);
    }
    if word == "descending" {
        return Some(true);
    }
    None
}

/// The composites in byte order of their canonical texts, without repeats.
fn by_text(alloc: Global, composites: CompositeList) -> Result<CompositeList, Memory>
    ensures { IfOk result (λ ordered. ordered ≡ spec.by_text composites) }
{
    let mut ordered = Vec::with_capacity(alloc, MOST_COMPOSITES)?;
    for composite in composites.into_vec() {
        put(alloc, &mut ordered, composite)?;
    }
    Ok(Items::from_vec(ordered))
}

fn put(alloc: Global, ordered: &mut Vec<Composite>, composite: Composite) -> Result<(), Memory>
    ensures { OnOk result (ordered.new.items ≡ spec.with_composite ordered.old.items composite) }
{
    match place(alloc, ordered.as_slice(), &composite) {
        Ok(Some(at)) => {
            ordered.insert(at, composite)?;
            Ok(())
        }
        Ok(None) => {
            drop(composite);
            Ok(())
        }
        Err(fault) => {
            drop(composite);
            Err(fault)
        }
    }
}

/// Where the composite is to be put; `None` where an equal one is there.
fn place(
    alloc: Global,
    ordered: &[Composite],
    composite: &Composite,
) -> Result<Option<usize>, Memory>
    ensures placed { IfOk result (λ at. spec.placed at ordered.now composite.now
        ≡ spec.with_composite ordered.now composite.now) }
    ensures within { IfOk result (λ at. IfSome at (λ i. i ≤ length ordered.now)) }
{
    let text = composite_text(alloc, composite)?;
    for (at, other) in ordered.iter().enumerate() {
        match compared(alloc, text.as_slice(), other)? {
            Ordering::Less => return Ok(Some(at)),
            Ordering::Equal => return Ok(None),
            Ordering::Greater => {}
        }
    }
    Ok(Some(ordered.len()))
}

/// How a text compares with that of a composite.
fn compared(alloc: Global, text: &[u8], other: &Composite) -> Result<Ordering, Memory>
    ensures { IfOk result (λ order. order ≡ slice_cmp nat_cmp text.now (spec.composite_text other.now)) }
{
    let other = composite_text(alloc, other)?;
    Ok(text.cmp(other.as_slice()))
}
