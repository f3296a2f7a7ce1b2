//! One operation on the lists of a disk in memory, without the bytes of its write.
use crate::Extent;

/// The bytes of writes stand beside, those of one write after those of the last.
#[derive(Clone, Copy)]
pub(crate) enum OperationHead {
    /// A write of `size` bytes, of which the first `done` came to be read.
    Wrote {
        ext: Extent,
        at: usize,
        size: usize,
        done: usize,
    },
    /// A cut to `len` bytes, and whether it came to be read.
    Cut {
        ext: Extent,
        len: usize,
        done: bool,
    },
    Synced,
}
