//! Why a document was not written.

use ax_store::StoreFault;

/// Why a document was not written.
#[derive(Clone, Copy, Debug, PartialEq, Eq)]
pub enum WriteFault {
    /// A document of that id is held already.
    Conflict,
    /// No document of that id is held.
    Absent,
    /// No document can be created: as many are held as a store holds, or no number is left.
    Full,
    /// The store failed: its disk, its bytes, or memory.
    Store(StoreFault),
}
