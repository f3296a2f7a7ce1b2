//! Pairs: what a term page holds.

ghost use Rattle.std.specs.Prelude.{◌≡◌};
ghost use Rattle.std.specs.Ordering.{is_lt};
ghost use Rattle.ax_pair.specs.Order.{pair_cmp};

use ax_tree::Items;

/// A list of bytes over a vector.
pub type Bytes = Items<u8>;

/// A term, and the number of a document that has it.
#[derive(Debug, Drop)]
pub struct Pair {
    pub term: Bytes,
    pub number: u32,
}

/// Is the pair of a term and a number before another, by term and then by number?
pub fn comes_before(term: &[u8], number: u32, other: &[u8], other_number: u32) -> bool
    ensures { result ≡ is_lt (pair_cmp (record { term = term.now; number = number }) (record { term = other.now; number = other_number })) }
{
    term.cmp(other).then(number.cmp(&other_number)).is_lt()
}
