//! Several ranges of terms: whether a term is in one of them, and where the first of them begins.

ghost use Rattle.std.specs.Prelude.{◌≡◌, ℕ, List, true};
ghost use Rattle.std.specs.Option.{option_copied};
ghost use Rattle.ax_term.specs.Ranges.{is_in_range};
ghost use Rattle.ax_index.specs.Reading.{IsTermUpTo, StartsUpTo, has_terms_from};
ghost use Rattle.ax_index.specs.Wanted.{is_in_some};

use ax_term::TermRange;

/// Whether a term is in one of the ranges.
pub(crate) fn is_within_some(ranges: &[TermRange], term: &[u8]) -> bool
    ensures { result ≡ is_in_some ranges.now term.now }
{
    for range in ranges {
        if is_within(range, term) {
            return true;
        }
    }
    false
}

/// Whether a term is in a range.
fn is_within(range: &TermRange, term: &[u8]) -> bool
    ensures { result ≡ is_in_range range.now term.now }
{
    range.from.as_slice().cmp(term).is_le() && term.cmp(range.below.as_slice()).is_lt()
}

/// The least start of those ranges that have terms from this one on. `None` only where none of them has.
pub(crate) fn least_start<'a>(ranges: &'a [TermRange], term: &[u8]) -> Option<&'a [u8]>
    ensures { (other : List ℕ) → is_in_some ranges.now other ≡ true → IsTermUpTo term.now other
        → StartsUpTo (option_copied result) other }
{
    let mut start = None;
    for range in ranges {
        start = earlier_start(start, range, term);
    }
    start
}

/// The lesser of two starts: the one so far, where there is one, and that of a range which has terms from
/// this one on.
#[tactic(auto, using(crate::proofs::PageWalk::term_then, crate::proofs::PageWalk::has_terms, crate::proofs::PageWalk::within_from))]
fn earlier_start<'a>(start: Option<&'a [u8]>, range: &'a TermRange, term: &[u8]) -> Option<&'a [u8]>
    ensures kept { (other : List ℕ) → StartsUpTo (option_copied start.entry) other → StartsUpTo (option_copied result) other }
    ensures own { (other : List ℕ) → is_in_range range.now other ≡ true → IsTermUpTo term.now other
        → StartsUpTo (option_copied result) other }
{
    if !has_some_from(range, term) {
        return start;
    }
    match start {
        Some(start) => Some(lesser(start, range.from.as_slice())),
        None => Some(range.from.as_slice()),
    }
}

/// Whether a range has terms from this one on.
fn has_some_from(range: &TermRange, term: &[u8]) -> bool
    ensures { result ≡ has_terms_from range.now term.now }
{
    term.cmp(range.below.as_slice()).is_lt()
        && range.from.as_slice().cmp(range.below.as_slice()).is_lt()
}

/// Of two terms the one that is not after the other.
#[tactic(auto, using(crate::proofs::PageWalk::term_itself, crate::proofs::PageWalk::term_by_test, crate::proofs::PageWalk::other_by_test))]
fn lesser<'a>(term: &'a [u8], other: &'a [u8]) -> &'a [u8]
    ensures first { IsTermUpTo result.now term.now }
    ensures second { IsTermUpTo result.now other.now }
{
    if term.cmp(other).is_le() { term } else { other }
}
