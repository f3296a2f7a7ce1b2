//! A base that counts.

ghost use Rattle.std.specs.Prelude.{◌≡◌};
ghost use Rattle.ax_pages.specs.AfterPart.{low_at_front};

use crate::kept_part::KeptPart;

/// A base that counts, with the low pair at its front.
#[derive(Drop)]
pub(crate) struct BasePart {
    pub(crate) part: KeptPart,
    /// The term and the number of the low pair.
    pub(crate) term: Vec<u8>,
    pub(crate) number: u32,
    ghost low_is: { record { term = term.items; number = number } ≡ low_at_front part.payload.bytes },
}
