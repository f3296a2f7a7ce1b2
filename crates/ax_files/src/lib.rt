//! The three files of a store on a file system, and the disk over them.
//!
//! It stands on `ax_disk`, whose trait the disk has, on `ax_frame` for root slots, and on `ax_faults`.
//! What the system does with a file is trusted. What is proved here is what the program makes of its
//! answers, over any files that tell what they hold and how their calls fail, and any file system that
//! opens them: that opening gives the files of the store named, locked and not lost, that a call is Ok
//! only where the same call on its file gave or left what it says, that each failure is counted once
//! and why the first one came is kept, that a file counts as unsynced from a write or a cut on until a
//! sync of it has succeeded, and that after a write, a cut or a sync that failed every later call
//! fails. `FileDisk` is that disk over the files of the host, which tell nothing.
#![tactic(auto)]

mod counted_files;
mod file_disk;
mod file_fault;
mod file_system;
mod judging;
mod opening;
mod store_file;
mod store_files;
mod system_file;

pub use file_disk::FileDisk;
pub use file_fault::{Explained, FileCall, FileFault, RootState};

#[cfg(test)]
mod tests;
