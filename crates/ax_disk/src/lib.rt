//! Disks as Axis sees them. The trait `Disk` says what calls on a store's three lists of bytes do
//! to what reads give, and what a crash at each moment may leave of them. Each crash theorem of the
//! store stands on it. It stands on `ax_faults` alone.
//!
//! The one contract: after a crash each list has any length from the least to the greatest since the
//! last sync that succeeded, and each byte of then that wasn't written since is as it was; after a
//! sync that succeeded a crash leaves what a read gives.
#![tactic(auto)]

mod call_budget;
mod dead_disk;
mod disk;
mod extent;
mod fuse_disk;
mod lists;
mod logged_lists;
mod mem_disk;
mod operation_head;
mod operation_list;
mod out_of_memory;
mod outcome;

pub use dead_disk::DeadDisk;
pub use disk::{Disk, DiskFailed};
pub use extent::Extent;
pub use fuse_disk::FuseDisk;
pub use mem_disk::MemDisk;
pub use out_of_memory::Memory;
