//! Why a call of the store fails.

ghost use Rattle.std.specs.Prelude.{◌≡◌};
ghost use Rattle.ax_pages.specs.Area.{extent_number};
ghost use Rattle.ax_store.specs.Store.{of_log};

use ax_disk::Extent;
use ax_log::LogFault;

/// Why a call of the store fails.
#[derive(Clone, Copy, Debug, PartialEq, Eq)]
pub enum StoreFault {
    /// A call on the disk failed, and its count of faults rose; or the store had failed before. It is to be opened again.
    Disk,
    /// The store's bytes are outside the format.
    Damaged {
        /// The list: 0 the root, 1 area A, 2 area B.
        extent: u8,
        /// The offset in that list.
        at: u64,
    },
    /// The root slot that counts is of a later version than this program knows.
    Newer {
        /// That version.
        version: u16,
    },
    /// Out of memory.
    Memory,
}

/// The fault of a list that is damaged at an offset.
pub(crate) fn damaged(area: Extent, at: u64) -> StoreFault
    ensures { result ≡ StoreFault.Damaged (extent_number area) at }
{
    let extent = number_of(area);
    StoreFault::Damaged { extent, at }
}

/// An extent as a number.
pub(crate) fn number_of(extent: Extent) -> u8
    ensures { result ≡ extent_number extent }
{
    match extent {
        Extent::Root => 0,
        Extent::A => 1,
        Extent::B => 2,
    }
}

/// A fault of the log as one of the store.
pub(crate) fn store_fault(fault: LogFault) -> StoreFault
    ensures { result ≡ of_log fault }
{
    match fault {
        LogFault::Disk => StoreFault::Disk,
        LogFault::Damaged { extent, at } => StoreFault::Damaged { extent, at },
        LogFault::Newer { version } => StoreFault::Newer { version },
        LogFault::Memory => StoreFault::Memory,
    }
}
