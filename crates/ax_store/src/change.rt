//! A part that is to change a page.

ghost use Rattle.std.specs.Prelude.{◌≡◌};
ghost use Rattle.ax_pages.specs.AfterPart.{low_at_front};

use crate::new_part::NewPart;

/// What a batch keeps in memory of a part until it is committed.
#[derive(Drop)]
pub(crate) struct Change {
    pub(crate) kind: u8,
    pub(crate) key: u32,
    pub(crate) new: NewPart,
    ghost low_is: { kind ≡ 5 → record { term = new.term.items; number = new.number } ≡ low_at_front new.part.payload.bytes },
}
