//! A term change as it is written behind another.

ghost use Rattle.std.specs.Prelude.{◌≡◌, ◌↔◌, ℕ, ◌+◌, ◌++◌, ◌<◌, ◌^◌, List, length, IfSome, IsSomeAnd, IsTrue};
ghost use Rattle.ax_gap.specs.Gaps.{IsRisingList, gaps};
ghost use Rattle.ax_leaf.specs.ShortTerm.{short_term};

use ax_gap::{GapCursor, read_gaps};
use ax_leaf::short_term::{ShortTerm, split_term};

/// A term change as it is written behind another: its term after the term of that one, the numbers
/// that are added and those that are dropped.
#[derive(Drop)]
pub(crate) struct ShortChange<'a> {
    pub(crate) term: ShortTerm<'a>,
    pub(crate) added: GapCursor<'a>,
    pub(crate) dropped: GapCursor<'a>,
}

/// The term change with which the bytes begin, and the bytes after it. `None` exactly where they
/// begin with none. That no number is both added and dropped is not looked at.
pub(crate) fn split_change(bytes: &[u8]) -> Option<(ShortChange<'_>, &[u8])>
    ensures found { IfSome result (λ x.
        bytes.now ≡ short_term x.0.term.shared x.0.term.rest.now ++ (gaps x.0.added.numbers ++ (gaps x.0.dropped.numbers ++ x.1.now))) }
    ensures fits { IfSome result (λ x. (x.0.term.shared < 2 ^ 32) × (length x.0.term.rest.now < 2 ^ 32)) }
    ensures some { IfSome result (λ x. 0 < length x.0.added.numbers + length x.0.dropped.numbers) }
    ensures additions { IfSome result (λ x. IsRisingList x.0.added.numbers) }
    ensures removals { IfSome result (λ x. IsRisingList x.0.dropped.numbers) }
    ensures only { (shared : ℕ) (part added dropped rest : List ℕ) → shared < 2 ^ 32 → length part < 2 ^ 32
        → IsRisingList added → IsRisingList dropped → 0 < length added + length dropped
        → bytes.now ≡ short_term shared part ++ (gaps added ++ (gaps dropped ++ rest))
        → IsSomeAnd result (λ x. (x.0.term.shared ≡ shared) × (x.0.term.rest.now ≡ part)
        × (x.0.added.numbers ≡ added) × (x.0.dropped.numbers ≡ dropped) × (x.1.now ≡ rest)) }
{
    let (term, after) = split_term(bytes)?;
    let (added, after) = split_list(after)?;
    let (dropped, rest) = split_list(after)?;
    if !is_one_there(&added, &dropped) {
        return None;
    }
    let change = ShortChange {
        term,
        added,
        dropped,
    };
    Some((change, rest))
}

/// The gap list with which the bytes begin, and the bytes after it. `None` exactly where they begin
/// with none.
fn split_list(bytes: &[u8]) -> Option<(GapCursor<'_>, &[u8])>
    ensures found { IfSome result (λ x. bytes.now ≡ gaps x.0.numbers ++ x.1.now) }
    ensures rising { IfSome result (λ x. IsRisingList x.0.numbers) }
    ensures only { (list rest : List ℕ) → IsRisingList list → bytes.now ≡ gaps list ++ rest
        → IsSomeAnd result (λ x. (x.0.numbers ≡ list) × (x.1.now ≡ rest)) }
{
    let numbers = read_gaps(bytes)?;
    let used = numbers.used();
    let (_, rest) = bytes.split_at(used);
    Some((numbers, rest))
}

/// Is a number in one of the two lists?
fn is_one_there(added: &GapCursor<'_>, dropped: &GapCursor<'_>) -> bool
    ensures { IsTrue result ↔ (0 < length added.now.numbers + length dropped.now.numbers) }
{
    if added.len() != 0 {
        return true;
    }
    dropped.len() != 0
}
