//! Whether bytes are the term changes of a delta.

ghost use Rattle.std.specs.Prelude.{◌↔◌, ◌<◌, IsTrue};
ghost use Rattle.ax_delta.specs.ChangeList.{BeginsChange, HasChangeList};

use crate::numbers_left::are_disjoint;
use crate::short_change::{ShortChange, split_change};
use ax_leaf::listing::{Listed, is_listing};
use ax_leaf::short_term::ShortTerm;

/// Term changes, as a delta lists them.
struct TermChanges;

impl Listed for TermChanges {
    ghost Begins = { BeginsChange };

    fn split(bytes: &[u8]) -> Option<(ShortTerm<'_>, &[u8])> {
        let (change, after) = split_change(bytes)?;
        let ShortChange {
            term,
            added,
            dropped,
        } = change;
        if !are_disjoint(added, dropped) {
            return None;
        }
        Some((term, after))
    }
}

/// Are the bytes so many term changes, whose terms rise?
pub(crate) fn is_change_list(list: &[u8], count: usize) -> bool
    requires { 0 < count }
    ensures { IsTrue result ↔ HasChangeList count list.now }
{
    is_listing::<TermChanges>(list, count)
}
