//! Finding a term among postings, with no memory: of the term before only the number of bytes is
//! kept that it has in common with the one that is sought.

ghost use Rattle.std.specs.Prelude.{◌≡◌, List};
ghost use Rattle.std.specs.Option.{option_map};
ghost use Rattle.ax_leaf.specs.Lookup.{numbers_under};
ghost use Rattle.ax_leaf.specs.Pairs.{Posting};
ghost use Rattle.ax_leaf.specs.TermList.{IsTermList};

use crate::matching::{cmp_met, matched_by};
use crate::short_posting::{ShortPosting, split_posting};
use ax_gap::GapCursor;
use std::cmp::Ordering;

/// The numbers of the posting of this term among so many. `None` exactly where it has none there.
pub(crate) fn find_in<'a>(list: &'a [u8], count: usize, sought: &[u8]) -> Option<GapCursor<'a>>
    ensures { (postings : List Posting) → IsTermList count list.now postings
        → option_map (λ cursor. cursor.numbers) result ≡ numbers_under sought.now postings }
{
    let mut rest = list;
    let mut matched = 0;
    for _k in 0..count {
        let (posting, after) = split_posting(rest)?;
        let ShortPosting { term, numbers } = posting;
        match cmp_met(sought, matched, term) {
            Ordering::Less => matched = matched_by(sought, matched, term),
            Ordering::Equal => return Some(numbers),
            Ordering::Greater => return None,
        }
        rest = after;
    }
    None
}
