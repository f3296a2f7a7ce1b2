//! Whether bytes are the postings of a base.

ghost use Rattle.std.specs.Prelude.{◌↔◌, IsTrue};
ghost use Rattle.ax_leaf.specs.TermList.{BeginsPosting, HasTermList};

use crate::listing::{Listed, is_listing};
use crate::short_posting::{ShortPosting, split_posting};
use crate::short_term::ShortTerm;

/// Postings, as a base lists them.
struct Postings;

impl Listed for Postings {
    ghost Begins = { BeginsPosting };

    fn split(bytes: &[u8]) -> Option<(ShortTerm<'_>, &[u8])> {
        let (posting, after) = split_posting(bytes)?;
        let ShortPosting {
            term,
            numbers: _numbers,
        } = posting;
        Some((term, after))
    }
}

/// Are the bytes so many postings, whose terms rise?
pub(crate) fn is_term_list(list: &[u8], count: usize) -> bool
    ensures { IsTrue result ↔ HasTermList count list.now }
{
    is_listing::<Postings>(list, count)
}
