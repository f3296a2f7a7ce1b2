//! The parts of a batch that was committed are put into the pages. It takes no memory.

ghost use Rattle.std.specs.Prelude.{◌≡◌, ℕ, ◌+◌, ◌<◌, ◌≤◌, ◌^◌, vec_len, length, Some};
ghost use Rattle.ax_frame.specs.Part.{parts_bytes};
ghost use Rattle.ax_pages.specs.AfterPart.{after_part, kind_of};
ghost use Rattle.ax_store.specs.Change.{change_value, changes_value};
ghost use Rattle.ax_store.specs.Kept.{offsets_after, deltas_by_kind, room_of};
ghost use Rattle.ax_store.specs.Putting.{AreWithin, IsWithin, CanTake, Puts};

use crate::change::Change;
use crate::kept_part::PART_HEAD_BYTES;
use crate::pages::Pages;
use ax_pages::kind_of_number;

/// Puts parts that are within the format, the first of which stands at an offset of the area.
pub(crate) fn put_changes(pages: &mut Pages, changes: Vec<Change>, at: u64)
    requires within { AreWithin (changes_value changes.items) pages.old.contents }
    requires room { vec_len changes ≤ pages.old.spare }
    requires deltas { CanTake (changes_value changes.items) pages.old }
    requires end { at + length (parts_bytes (changes_value changes.items)) < 2 ^ 64 }
    ensures { Puts (changes_value changes.items) at pages.old pages.new }
{
    let mut here = at;
    for change in changes {
        let len = PART_HEAD_BYTES + u64::from(change.new.part.len);
        put_change(pages, change, here);
        here += len;
    }
}

/// Puts one part that is within the format.
fn put_change(pages: &mut Pages, change: Change, at: u64)
    requires within { IsWithin (change_value change) pages.old.contents }
    requires room { 0 < pages.old.spare }
    requires deltas { deltas_by_kind (kind_of change.kind) change.key change.key ≤ room_of change.key pages.old }
    ensures lead { after_part (change_value change) pages.old.contents ≡ Some pages.new.contents }
    ensures offsets { pages.new.offsets ≡ offsets_after (kind_of change.kind) change.key at pages.old.offsets }
    ensures room { pages.old.spare ≤ pages.new.spare + 1 }
    ensures rooms { (page : ℕ) → room_of page pages.old ≤ room_of page pages.new + deltas_by_kind (kind_of change.kind) change.key page }
{
    let Change { kind, key, new } = change;
    match kind_of_number(kind) {
        Some(kind) => pages.put(kind, key, at, new),
        None => unreachable!(),
    }
}
