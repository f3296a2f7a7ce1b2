//! Under what a payload is kept.

/// The place of a part on the disk.
#[derive(Clone, Copy, Debug, PartialEq, Eq, Hash)]
pub struct PartKey {
    /// The area in which the part stands: 1 for A, 2 for B.
    pub area: u8,
    /// The generation of that area.
    pub generation: u64,
    /// The offset of the part in the area.
    pub offset: u64,
}
