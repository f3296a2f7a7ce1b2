//! Changes: what a delta makes of the pairs of a page.

ghost use Rattle.std.specs.Prelude.{◌≡◌};
ghost use Rattle.ax_pair.specs.Order.{pair_cmp};

use ax_pair::Pair;
use std::cmp::Ordering;

/// A pair that is added, or dropped.
#[derive(Debug, Drop)]
pub struct Change {
    /// Is the pair added? Else it is dropped.
    pub add: bool,
    pub pair: Pair,
}

/// How the pair of a term and a number compares with another, by term and then by number.
pub(crate) fn cmp_pair(term: &[u8], number: u32, other: &[u8], other_number: u32) -> Ordering
    ensures { result ≡ pair_cmp (record { term = term.now; number = number }) (record { term = other.now; number = other_number }) }
{
    term.cmp(other).then(number.cmp(&other_number))
}
