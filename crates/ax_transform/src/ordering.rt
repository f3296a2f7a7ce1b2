//! Changes of the index in the order of their pairs.

ghost use Rattle.std.specs.Prelude.{◌≡◌, ◌↔◌};
ghost use Rattle.std.specs.List.{Contains};
ghost use Rattle.ax_delta.specs.Changes.{changed_pairs};
ghost use Rattle.ax_delta.specs.declared.change.Change as change;
ghost use Rattle.ax_pair.specs.Order.{Rise};
ghost use Rattle.ax_transform.specs.Gathering.{AreNetted, change_cmp};

use ax_index::Change;
use std::cmp::Ordering;

/// Puts the changes in the order of their pairs, each once.
pub(crate) fn put_in_order(changes: &mut Vec<Change>)
    ensures rise { AreNetted changes.old.items → Rise (changed_pairs changes.new.items) }
    ensures same { (one : change.Change) → Contains changes.new.items one ↔ Contains changes.old.items one }
{
    changes.sort_unstable_by(|a, b| compare(a, b));
    changes.dedup_by(|a, b| compare(a, b).is_eq());
}

/// How a change compares with another: by its pair, and then what is dropped before what is added.
fn compare(a: &Change, b: &Change) -> Ordering
    ensures { result ≡ change_cmp a.now b.now }
{
    let (term, other) = (a.pair.term.as_slice(), b.pair.term.as_slice());
    term.cmp(other)
        .then(a.pair.number.cmp(&b.pair.number))
        .then(a.add.cmp(&b.add))
}
