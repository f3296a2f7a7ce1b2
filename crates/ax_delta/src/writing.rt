//! Writing the payload of a delta.

ghost use Rattle.std.specs.Prelude.{◌≡◌, ◌↔◌, IsTrue, ◌++◌, ◌<◌, ◌^◌, [], length, OnOk, IfOk};
ghost use Rattle.std.specs.List.Sorted.{IsStrictlyIncreasing};
ghost use Rattle.ax_gap.specs.Gaps.{IsRisingList, gaps};
ghost use Rattle.std.specs.Ordering.{is_lt};
ghost use Rattle.ax_pair.specs.Order.{Rise, pair_cmp};
ghost use Rattle.ax_leaf.specs.Payload.{term_after};
ghost use Rattle.ax_delta.specs.Changes.{changed_pairs, term_changes_of, with_added, with_dropped};
ghost use Rattle.ax_delta.specs.Payload.{list_after, delta, IsDelta, AreGood};

use crate::change::Change;
use crate::out_of_memory::Memory;
use ax_gap::put_gaps;
use ax_leaf::short_term::{put_length, put_term};
use ax_pair::{Pair, comes_before};
use std::alloc::Global;

/// The payload of the delta with these changes. There has to be one, and their pairs have to rise:
/// `are_in_order` tells it.
///
/// `Memory` also where a term has 2^32 bytes or more, or where there are so many terms: no payload
/// has them.
pub fn encode(alloc: Global, changes: &[Change]) -> Result<Vec<u8>, Memory>
    requires some { 0 < length changes.now }
    requires rise { Rise (changed_pairs changes.now) }
    ensures { IfOk result (λ payload. IsDelta payload.items (term_changes_of changes.now)) }
{
    let payload = spelled(alloc, changes)?;
    Ok(payload)
}

/// The payload, by its parts.
#[tactic(auto, unfolding(crate::specs::Payload::delta))]
fn spelled(alloc: Global, changes: &[Change]) -> Result<Vec<u8>, Memory>
    requires { Rise (changed_pairs changes.now) }
    ensures bytes { IfOk result (λ payload. payload.items ≡ delta (term_changes_of changes.now)) }
    ensures count { OnOk result (length (term_changes_of changes.now) < 2 ^ 32) }
    ensures good { OnOk result (AreGood (term_changes_of changes.now)) }
{
    let mut list = Vec::new(alloc);
    let count = put_list(alloc, &mut list, changes)?;
    let mut payload = Vec::new(alloc);
    put_length(&mut payload, count)?;
    payload.extend_from_slice(list.as_slice())?;
    Ok(payload)
}

/// Is there a change, and do the pairs of the changes rise? `encode` requires it.
pub fn are_in_order(changes: &[Change]) -> bool
    ensures { IsTrue result ↔ ((0 < length changes.now) × Rise (changed_pairs changes.now)) }
{
    let Some((first, others)) = changes.split_first() else {
        return false;
    };
    let mut last = &first.pair;
    for change in others {
        if !is_before(last, &change.pair) {
            return false;
        }
        last = &change.pair;
    }
    true
}

/// Is one pair before another, by term and then by number?
fn is_before(first: &Pair, second: &Pair) -> bool
    ensures { result ≡ is_lt (pair_cmp first.now second.now) }
{
    comes_before(
        first.term.as_slice(),
        first.number,
        second.term.as_slice(),
        second.number,
    )
}

/// Writes the term changes of the changes at the end, and answers how many they are.
fn put_list(alloc: Global, out: &mut Vec<u8>, changes: &[Change]) -> Result<usize, Memory>
    requires { Rise (changed_pairs changes.now) }
    ensures count { IfOk result (λ count. count ≡ length (term_changes_of changes.now)) }
    ensures written { OnOk result (out.new.items ≡ out.old.items ++ list_after [] (term_changes_of changes.now)) }
    ensures good { OnOk result (AreGood (term_changes_of changes.now)) }
{
    if changes.len() == 0 {
        return Ok(0);
    }
    let mut added = Vec::new(alloc);
    let mut dropped = Vec::new(alloc);
    let first = &changes[0];
    put_number(&mut added, &mut dropped, first)?;
    let mut last: &[u8] = &[];
    let mut term = first.pair.term.as_slice();
    let mut count = 0usize;
    for i in 1..changes.len() {
        let change = &changes[i];
        if change.pair.term.as_slice() == term {
            put_number(&mut added, &mut dropped, change)?;
            continue;
        }
        put_change(out, last, term, added.as_slice(), dropped.as_slice())?;
        count += 1;
        added.clear();
        dropped.clear();
        put_number(&mut added, &mut dropped, change)?;
        last = term;
        term = change.pair.term.as_slice();
    }
    put_change(out, last, term, added.as_slice(), dropped.as_slice())?;
    Ok(count + 1)
}

/// Puts the number of a change at the end of those that are added, or of those that are dropped.
fn put_number(added: &mut Vec<u32>, dropped: &mut Vec<u32>, change: &Change) -> Result<(), Memory>
    ensures added { OnOk result (added.new.items ≡ with_added added.old.items change.now) }
    ensures dropped { OnOk result (dropped.new.items ≡ with_dropped dropped.old.items change.now) }
{
    if change.add {
        added.push(change.pair.number)?;
    } else {
        dropped.push(change.pair.number)?;
    }
    Ok(())
}

/// Writes a term after another, and the gap lists of its numbers, at the end. `Memory` also where
/// the term has 2^32 bytes or more.
#[tactic(auto, using(std::proofs::lemmas::List::append_assoc))]
fn put_change(
    out: &mut Vec<u8>,
    last: &[u8],
    term: &[u8],
    added: &[u32],
    dropped: &[u32],
) -> Result<(), Memory>
    requires additions { IsStrictlyIncreasing added.now }
    requires removals { IsStrictlyIncreasing dropped.now }
    ensures short { OnOk result (length term.now < 2 ^ 32) }
    ensures additions { OnOk result (IsRisingList added.now) }
    ensures removals { OnOk result (IsRisingList dropped.now) }
    ensures written { OnOk result (out.new.items ≡ out.old.items ++ term_after last.now term.now ++ gaps added.now ++ gaps dropped.now) }
{
    put_term(out, last, term)?;
    put_gaps(out, added)?;
    put_gaps(out, dropped)?;
    Ok(())
}
