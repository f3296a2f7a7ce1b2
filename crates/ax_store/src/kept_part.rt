//! A part that counts.

ghost use Rattle.std.specs.Prelude.{◌≡◌, ◌≤◌, length, slice_index};

use ax_shown::Shown;

/// How many bytes stand in front of the payload of a part: its kind, its key and its length.
pub(crate) const PART_HEAD_BYTES: u64 = 9;

/// A part that counts: where it stands. Its payload is on the disk, and only contracts see it.
#[derive(Drop)]
pub(crate) struct KeptPart {
    /// Where it stands in the area that counts.
    pub(crate) at: u64,
    /// How many bytes its payload has.
    pub(crate) len: u32,
    /// The first byte of its payload, or 0: of a document the number of its policy.
    pub(crate) first: u8,
    pub(crate) payload: Shown,
    ghost fits: { length payload.bytes ≤ 65536 },
    ghost whole: { len ≡ length payload.bytes },
    ghost begins: { first ≡ slice_index payload.bytes 0 },
}
