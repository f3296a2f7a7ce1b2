//! The three lists of bytes that a store has on a disk.

/// A list of a store: the root with its two root slots, and the two areas, of which one counts at a
/// time.
/// As a number: 0, 1 and 2.
#[derive(Clone, Copy, Debug, PartialEq, Eq)]
pub enum Extent {
    Root,
    A,
    B,
}
