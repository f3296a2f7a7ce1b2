//! What term changes say of a pair, with no memory: of the term before only the number of bytes is
//! kept that it has in common with the one that is sought.

ghost use Rattle.std.specs.Prelude.{◌≡◌, List};
ghost use Rattle.ax_gap.specs.Gaps.{IsRisingList};
ghost use Rattle.ax_delta.specs.ChangeList.{IsChangeList};
ghost use Rattle.ax_delta.specs.Changes.{TermChange};
ghost use Rattle.ax_delta.specs.Said.{said_in, said_of};

use crate::numbers_left::has_one;
use crate::short_change::{ShortChange, split_change};
use ax_gap::GapCursor;
use ax_leaf::matching::{cmp_met, matched_by};
use std::cmp::Ordering;

/// What so many term changes say of the pair of this term and number.
pub(crate) fn look_in(list: &[u8], count: usize, sought: &[u8], number: u32) -> Option<bool>
    ensures { (changes : List TermChange) → IsChangeList count list.now changes
        → result ≡ said_of (record { term = sought.now; number = number }) changes }
{
    let mut rest = list;
    let mut matched = 0;
    for _k in 0..count {
        let (change, after) = split_change(rest)?;
        let ShortChange {
            term,
            added,
            dropped,
        } = change;
        match cmp_met(sought, matched, term) {
            Ordering::Less => matched = matched_by(sought, matched, term),
            Ordering::Equal => return said_here(added, dropped, number),
            Ordering::Greater => return None,
        }
        rest = after;
    }
    None
}

/// What the numbers of a term say of a number.
fn said_here(added: GapCursor<'_>, dropped: GapCursor<'_>, number: u32) -> Option<bool>
    requires additions { IsRisingList added.numbers }
    requires removals { IsRisingList dropped.numbers }
    ensures { result ≡ said_in number added.entry.numbers dropped.entry.numbers }
{
    if has_one(added, number) {
        return Some(true);
    }
    if has_one(dropped, number) {
        return Some(false);
    }
    None
}
