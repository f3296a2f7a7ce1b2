//! Writing the payload of a base.

ghost use Rattle.std.specs.Prelude.{◌≡◌, ◌↔◌, IsTrue, ℕ, ◌+◌, ◌++◌, ◌≤◌, ◌<◌, ◌^◌, List, [], length, min, take, OnOk, IfOk};
ghost use Rattle.std.specs.List.Sorted.{IsStrictlyIncreasing};
ghost use Rattle.ax_gap.specs.Gaps.{IsRisingList, gaps};
ghost use Rattle.ax_gap.specs.Varint.{varint};
ghost use Rattle.std.specs.Ordering.{is_lt};
ghost use Rattle.ax_pair.specs.Order.{Rise, BeginsFrom, pair_cmp};
ghost use Rattle.ax_leaf.specs.Pairs.{postings_of};
ghost use Rattle.ax_leaf.specs.Payload.{common, term_after, list_after, leaf, IsLeaf, AreGood};

use crate::out_of_memory::Memory;
use crate::short_term::{put_length, put_term};
use ax_gap::put_gaps;
use ax_gap::varint::put_varint;
use ax_pair::comes_before;
use ax_pair_list::PairRef;
use std::alloc::Global;

/// The payload of a base with these pairs, whose page has this low pair. The pairs have to rise,
/// and none to be before the low pair: `is_in_order` tells it.
///
/// `Memory` also where a term has 2^32 bytes or more, or where there are so many terms: no payload
/// has them.
pub fn encode(alloc: Global, low: &PairRef<'_>, pairs: &[PairRef<'_>]) -> Result<Vec<u8>, Memory>
    requires rise { Rise pairs.now }
    requires begins { BeginsFrom low.now pairs.now }
    ensures { IfOk result (λ payload. IsLeaf payload.items low.now (postings_of pairs.now)) }
{
    let payload = spelled(alloc, low, pairs)?;
    Ok(payload)
}

/// The payload, by its parts.
#[tactic(auto, using(std::proofs::lemmas::List::append_assoc), unfolding(crate::specs::Payload::leaf))]
fn spelled(alloc: Global, low: &PairRef<'_>, pairs: &[PairRef<'_>]) -> Result<Vec<u8>, Memory>
    requires { Rise pairs.now }
    ensures bytes { IfOk result (λ payload. payload.items ≡ leaf low.now (postings_of pairs.now)) }
    ensures short { OnOk result (length low.now.term < 2 ^ 32) }
    ensures number { OnOk result (low.now.number < 2 ^ 32) }
    ensures count { OnOk result (length (postings_of pairs.now) < 2 ^ 32) }
    ensures good { OnOk result (AreGood (postings_of pairs.now)) }
{
    let mut list = Vec::new(alloc);
    let count = put_list(alloc, &mut list, pairs)?;
    let mut payload = Vec::new(alloc);
    put_low(&mut payload, low)?;
    put_length(&mut payload, count)?;
    payload.extend_from_slice(list.as_slice())?;
    Ok(payload)
}

/// Do the pairs rise, and is none before the low pair? `encode` requires it.
pub fn is_in_order(low: &PairRef<'_>, pairs: &[PairRef<'_>]) -> bool
    ensures { IsTrue result ↔ (Rise pairs.now × BeginsFrom low.now pairs.now) }
{
    if pairs.len() == 0 {
        return true;
    }
    if is_before(&pairs[0], low) {
        return false;
    }
    for i in 1..pairs.len() {
        if !is_before(&pairs[i - 1], &pairs[i]) {
            return false;
        }
    }
    true
}

/// Is one pair before another, by term and then by number?
fn is_before(first: &PairRef<'_>, second: &PairRef<'_>) -> bool
    ensures { result ≡ is_lt (pair_cmp first.now second.now) }
{
    comes_before(first.term(), first.number(), second.term(), second.number())
}

/// Writes a low pair at the end.
#[tactic(auto, using(std::proofs::lemmas::List::append_assoc))]
fn put_low(out: &mut Vec<u8>, low: &PairRef<'_>) -> Result<(), Memory>
    ensures short { OnOk result (length low.now.term < 2 ^ 32) }
    ensures number { OnOk result (low.now.number < 2 ^ 32) }
    ensures written { OnOk result (out.new.items ≡ out.old.items ++ varint (length low.now.term) ++ low.now.term ++ varint low.now.number) }
{
    let term = low.term();
    put_length(out, term.len())?;
    out.extend_from_slice(term)?;
    put_varint(out, low.number())?;
    Ok(())
}

/// Writes the postings of the pairs at the end, and answers how many they are.
fn put_list(alloc: Global, out: &mut Vec<u8>, pairs: &[PairRef<'_>]) -> Result<usize, Memory>
    requires { Rise pairs.now }
    ensures count { IfOk result (λ count. count ≡ length (postings_of pairs.now)) }
    ensures written { OnOk result (out.new.items ≡ out.old.items ++ list_after [] (postings_of pairs.now)) }
    ensures good { OnOk result (AreGood (postings_of pairs.now)) }
{
    if pairs.len() == 0 {
        return Ok(0);
    }
    let mut numbers = Vec::new(alloc);
    let first = &pairs[0];
    numbers.push(first.number())?;
    let mut last: &[u8] = &[];
    let mut term = first.term();
    let mut count = 0usize;
    for i in 1..pairs.len() {
        let pair = &pairs[i];
        if pair.term() == term {
            numbers.push(pair.number())?;
            continue;
        }
        put_posting(out, last, term, numbers.as_slice())?;
        count += 1;
        numbers.clear();
        numbers.push(pair.number())?;
        last = term;
        term = pair.term();
    }
    put_posting(out, last, term, numbers.as_slice())?;
    Ok(count + 1)
}

/// Writes a term after another, and the gap list of its numbers, at the end. `Memory` also where
/// the term has 2^32 bytes or more.
#[tactic(auto, using(std::proofs::lemmas::List::append_assoc))]
fn put_posting(out: &mut Vec<u8>, last: &[u8], term: &[u8], numbers: &[u32]) -> Result<(), Memory>
    requires rising { IsStrictlyIncreasing numbers.now }
    requires some { 0 < length numbers.now }
    ensures short { OnOk result (length term.now < 2 ^ 32) }
    ensures some { OnOk result (0 < length numbers.now) }
    ensures list { OnOk result (IsRisingList numbers.now) }
    ensures written { OnOk result (out.new.items ≡ out.old.items ++ term_after last.now term.now ++ gaps numbers.now) }
{
    put_term(out, last, term)?;
    put_gaps(out, numbers)?;
    Ok(())
}
