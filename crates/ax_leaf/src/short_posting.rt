//! A posting as it is written behind another.

ghost use Rattle.std.specs.Prelude.{◌≡◌, ℕ, ◌++◌, ◌<◌, ◌^◌, List, length, IfSome, IsSomeAnd};
ghost use Rattle.ax_gap.specs.Gaps.{IsRisingList, gaps};
ghost use Rattle.ax_leaf.specs.ShortTerm.{short_term};

use crate::short_term::{ShortTerm, split_term};
use ax_gap::{GapCursor, read_gaps};

/// A posting as it is written behind another: its term after the term of that one, and its numbers.
#[derive(Drop)]
pub(crate) struct ShortPosting<'a> {
    pub(crate) term: ShortTerm<'a>,
    pub(crate) numbers: GapCursor<'a>,
}

/// The posting with which the bytes begin, and the bytes after it. `None` exactly where they begin
/// with none.
pub(crate) fn split_posting(bytes: &[u8]) -> Option<(ShortPosting<'_>, &[u8])>
    ensures found { IfSome result (λ x.
        bytes.now ≡ short_term x.0.term.shared x.0.term.rest.now ++ (gaps x.0.numbers.numbers ++ x.1.now)) }
    ensures fits { IfSome result (λ x. (x.0.term.shared < 2 ^ 32) × (length x.0.term.rest.now < 2 ^ 32)) }
    ensures some { IfSome result (λ x. 0 < length x.0.numbers.numbers) }
    ensures rising { IfSome result (λ x. IsRisingList x.0.numbers.numbers) }
    ensures only { (shared : ℕ) (part numbers rest : List ℕ) → shared < 2 ^ 32 → length part < 2 ^ 32
        → IsRisingList numbers → 0 < length numbers
        → bytes.now ≡ short_term shared part ++ (gaps numbers ++ rest)
        → IsSomeAnd result (λ x. (x.0.term.shared ≡ shared) × (x.0.term.rest.now ≡ part)
        × (x.0.numbers.numbers ≡ numbers) × (x.1.now ≡ rest)) }
{
    let (term, after) = split_term(bytes)?;
    let numbers = read_gaps(after)?;
    if numbers.len() == 0 {
        return None;
    }
    let used = numbers.used();
    let (_, rest) = after.split_at(used);
    Some((ShortPosting { term, numbers }, rest))
}
