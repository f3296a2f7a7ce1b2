//! The changes that a write of one document makes in the index.

ghost use Rattle.std.specs.Prelude.{IfOk, IfSome, Some};
ghost use Rattle.std.specs.Option.{option_copied};
ghost use Rattle.ax_tree.specs.Document.{IsDocument};
ghost use Rattle.ax_pair.specs.Order.{Rise};
ghost use Rattle.ax_keep.specs.Exchanges.{Exchanges, IsIn};
ghost use Rattle.ax_keep.specs.Owned.{AreOwned, Owns};

use crate::differing::differing_pairs;
use crate::netting::netted;
use crate::owned::pairs_of;
use ax_delta::Change;
use ax_mean::{Memory, Tree};
use ax_pair::Pair;
use ax_policy::Policy;
use std::alloc::Global;

/// The changes that take the pairs of a document as it was, under the policy by which it was indexed,
/// out of the index, and put in those of the document as it is to be, under the policy by which it is
/// to be indexed. They rise by term and then by number; a pair that is in both is in none of them. A
/// document that is `None` has no pairs, and its policy plays no part. `Memory` only where an
/// allocation failed.
pub fn changes(
    alloc: Global,
    number: u32,
    old_under: &Policy,
    old: Option<&Tree>,
    new_under: &Policy,
    new: Option<&Tree>,
) -> Result<Vec<Change>, Memory>
    requires old { IfSome (option_copied old) IsDocument }
    requires new { IfSome (option_copied new) IsDocument }
    ensures { IfOk result (λ changes. Exchanges (Owns number old_under.now (option_copied old.entry))
        (Owns number new_under.now (option_copied new.entry)) changes.items) }
{
    let (before, after) = both_pairs(alloc, number, old_under, old, new_under, new)?;
    let changes = exchanged(alloc, before, after)?;
    Ok(changes)
}

/// The same under one policy. Where there are two documents, no terms are made of a part that is equal
/// in both and reached by names alone; a list is such a part as a whole, and its items are not.
pub fn changes_under(
    alloc: Global,
    number: u32,
    under: &Policy,
    old: Option<&Tree>,
    new: Option<&Tree>,
) -> Result<Vec<Change>, Memory>
    requires old { IfSome (option_copied old) IsDocument }
    requires new { IfSome (option_copied new) IsDocument }
    ensures { IfOk result (λ changes. Exchanges (Owns number under.now (option_copied old.entry))
        (Owns number under.now (option_copied new.entry)) changes.items) }
{
    let Some(before) = old else {
        return changes(alloc, number, under, old, under, new);
    };
    let Some(after) = new else {
        return changes(alloc, number, under, old, under, new);
    };
    changes_between(alloc, number, under, before, after)
}

/// The changes that exchange the pairs of a document for those of another.
fn changes_between(
    alloc: Global,
    number: u32,
    under: &Policy,
    old: &Tree,
    new: &Tree,
) -> Result<Vec<Change>, Memory>
    requires old { IsDocument old.now }
    requires new { IsDocument new.now }
    ensures { IfOk result (λ changes. Exchanges (Owns number under.now (Some old.now))
        (Owns number under.now (Some new.now)) changes.items) }
{
    let (before, after) = differing_pairs(alloc, number, under, old, new)?;
    let changes = exchanged(alloc, before, after)?;
    Ok(changes)
}

/// The pairs of a document as it was, and those of it as it is to be.
fn both_pairs(
    alloc: Global,
    number: u32,
    old_under: &Policy,
    old: Option<&Tree>,
    new_under: &Policy,
    new: Option<&Tree>,
) -> Result<(Vec<Pair>, Vec<Pair>), Memory>
    requires old { IfSome (option_copied old) IsDocument }
    requires new { IfSome (option_copied new) IsDocument }
    ensures before { IfOk result (λ both. AreOwned number old_under.now (option_copied old.entry) both.0.items) }
    ensures after { IfOk result (λ both. AreOwned number new_under.now (option_copied new.entry) both.1.items) }
{
    let before = pairs_of(alloc, number, old_under, old)?;
    let after = pairs_of(alloc, number, new_under, new)?;
    Ok((before, after))
}

/// The changes that exchange pairs that rise for others that rise, by term and then by number; a pair
/// that is in both is in none of them. `Memory` only where an allocation failed.
pub fn exchanged(alloc: Global, before: Vec<Pair>, after: Vec<Pair>) -> Result<Vec<Change>, Memory>
    requires before { Rise before.items }
    requires after { Rise after.items }
    ensures { IfOk result (λ changes. Exchanges (IsIn before.items) (IsIn after.items) changes.items) }
{
    let changes = netted(alloc, before, after)?;
    Ok(changes)
}
