//! Why a call of the log fails.

/// Why a call of the log fails. `Log::commit` answers `Disk` alone.
#[derive(Clone, Copy, Debug, PartialEq, Eq)]
pub enum LogFault {
    /// A call on the disk failed, and its count of faults rose. The log is to be opened again.
    Disk,
    /// The store's bytes are outside the format.
    Damaged {
        /// The list: 0 the root, 1 area A, 2 area B.
        extent: u8,
        /// The offset in that list.
        at: u64,
    },
    /// The root slot that counts is of a later version than this program knows.
    Newer {
        /// That version.
        version: u16,
    },
    /// Out of memory. Nothing was changed.
    Memory,
}
