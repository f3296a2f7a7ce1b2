//! What is kept of a part that is new.

ghost use Rattle.std.specs.Prelude.{◌≡◌, length};
ghost use Rattle.ax_pages.specs.Contents.{next_in, now_in};

use crate::kept_part::KeptPart;

/// What is kept of a part that is new: the part, and what the pages need of its payload.
#[derive(Drop)]
pub(crate) struct NewPart {
    pub(crate) part: KeptPart,
    /// The two numbers of a part of the meta.
    pub(crate) next: u32,
    pub(crate) policy_now: u32,
    /// The term and the number of the low pair of a base.
    pub(crate) term: Vec<u8>,
    pub(crate) number: u32,
    ghost next_is: { length part.payload.bytes ≡ 8 → next ≡ next_in part.payload.bytes },
    ghost now_is: { length part.payload.bytes ≡ 8 → policy_now ≡ now_in part.payload.bytes },
}
