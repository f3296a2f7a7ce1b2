//! A term that is written after another, against one that is sought: of the other only the number of
//! bytes is kept that it has in common with the one that is sought. Bases and deltas are searched
//! so, with no memory.

ghost use Rattle.std.specs.Prelude.{◌≡◌, ℕ, ◌≤◌, List, drop};
ghost use Rattle.std.specs.Ordering.{nat_cmp};
ghost use Rattle.std.specs.Cmp.Lexicographic.{slice_cmp};
ghost use Rattle.ax_leaf.specs.Lookup.{IsMet};
ghost use Rattle.ax_leaf.specs.Payload.{common};
ghost use Rattle.ax_leaf.specs.ShortTerm.{whole_term};

use crate::short_term::{ShortTerm, in_common};
use std::cmp::Ordering;

/// How a term compares with the one that is sought.
#[tactic(auto, using(crate::proofs::Meeting::met_less, crate::proofs::Meeting::met_equal, crate::proofs::Meeting::met_greater))]
pub fn cmp_met(sought: &[u8], matched: usize, term: ShortTerm<'_>) -> Ordering
    ensures { (last : List ℕ) → IsMet last sought.now matched term.entry.shared term.entry.rest.now
        → result ≡ slice_cmp nat_cmp (whole_term last term.entry.shared term.entry.rest.now) sought.now }
{
    match matched.cmp(&term.shared) {
        Ordering::Less => Ordering::Less,
        Ordering::Equal => term.rest.cmp(behind(sought, matched)),
        Ordering::Greater => Ordering::Greater,
    }
}

/// How many bytes a term that is before the one that is sought has in common with it.
pub fn matched_by(sought: &[u8], matched: usize, term: ShortTerm<'_>) -> usize
    ensures { (last : List ℕ) → IsMet last sought.now matched term.entry.shared term.entry.rest.now
        → matched ≤ term.entry.shared
        → result ≡ common (whole_term last term.entry.shared term.entry.rest.now) sought.now }
{
    if matched < term.shared {
        return matched;
    }
    matched + in_common(term.rest, behind(sought, matched))
}

/// The bytes behind so many.
fn behind(bytes: &[u8], count: usize) -> &[u8]
    ensures { result.now ≡ drop count bytes.now }
{
    bytes.get(count..).unwrap_or(&[])
}
