//! The payload of a base, checked.

ghost use Rattle.std.specs.Prelude.{◌≡◌, ◌↔◌, List, IsTrue, IfSome, IsSomeAnd};
ghost use Rattle.std.specs.Option.{option_map};
ghost use Rattle.ax_pair.specs.declared.pair.Pair.{Pair};
ghost use Rattle.ax_pair.specs.Order.{BeginsFrom};
ghost use Rattle.ax_leaf.specs.Pairs.{Posting, pairs_of};
ghost use Rattle.ax_leaf.specs.Lookup.{numbers_under};
ghost use Rattle.ax_leaf.specs.Payload.{IsLeaf};
ghost use Rattle.ax_leaf.specs.TermList.{IsTermList};

use crate::checking::is_term_list;
use crate::cursor::PairCursor;
use crate::finding::find_in;
use crate::short_posting::{ShortPosting, split_posting};
use ax_gap::GapCursor;
use ax_pair::{comes_before, split_low, split_number};
use std::alloc::Global;
use std::marker::Model;

/// The payload of a base that was checked. It borrows the payload, and takes no memory.
///
/// Contracts see its low pair and its postings.
#[derive(Drop)]
pub struct Leaf<'a> {
    // The low pair.
    term: &'a [u8],
    number: u32,
    // How many postings there are, and their bytes.
    count: usize,
    list: &'a [u8],
}

impl<'a> Model for Leaf<'a> {
    ghost use Rattle.ax_leaf.specs.Base.{Base};

    ghost Value = { Base };

    ghost use Rattle.ax_leaf.specs.View.{base_of, IsBase};

    ghost view = { base_of };

    ghost invariant = { IsBase };
}

impl<'a> Leaf<'a> {
    /// The term and the number of the low pair: the least pair that the page may have.
    pub fn low(&self) -> (&[u8], u32)
        ensures term { result.0.now ≡ self.now.low.term }
        ensures number { result.1 ≡ self.now.low.number }
    {
        (self.term, self.number)
    }

    /// The numbers of the documents that have a term. `None` exactly where the base does not have
    /// the term. It takes no memory, and goes over the postings once.
    pub fn find(&self, term: &[u8]) -> Option<GapCursor<'_>>
        ensures { option_map (λ cursor. cursor.numbers) result ≡ numbers_under term.now self.now.postings }
    {
        find_in(self.list, self.count, term)
    }

    /// A cursor over the pairs, in order. It takes memory once it gives pairs: for their terms.
    pub fn cursor(&self, alloc: Global) -> PairCursor<'_>
        ensures { result ≡ pairs_of self.now.postings }
    {
        PairCursor::at_first(alloc, self.list, self.count)
    }
}

/// The base whose payload the bytes are. `None` exactly where they are the payload of none.
pub fn check(payload: &[u8]) -> Option<Leaf<'_>>
    ensures found { IfSome result (λ leaf. IsLeaf payload.now leaf.low leaf.postings) }
    ensures only { (low : Pair) (postings : List Posting) → IsLeaf payload.now low postings
        → IsSomeAnd result (λ leaf. (leaf.low ≡ low) × (leaf.postings ≡ postings)) }
{
    let (term, number, after) = split_low(payload)?;
    let (count, list) = split_number(after)?;
    let count = count as usize;
    if !is_term_list(list, count) {
        return None;
    }
    if !begins_from(list, count, term, number) {
        return None;
    }
    Some(Leaf {
        term,
        number,
        count,
        list,
    })
}

/// Is the first pair of the postings not before the low pair?
fn begins_from(list: &[u8], count: usize, low_term: &[u8], low_number: u32) -> bool
    ensures { (postings : List Posting) → IsTermList count list.now postings
        → IsTrue result ↔ BeginsFrom (record { term = low_term.now; number = low_number }) (pairs_of postings) }
{
    if count == 0 {
        return true;
    }
    let Some((first, _)) = split_posting(list) else {
        return false;
    };
    let ShortPosting { term, mut numbers } = first;
    let Some(number) = numbers.next() else {
        return false;
    };
    !comes_before(term.rest, number, low_term, low_number)
}
