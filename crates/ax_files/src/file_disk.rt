//! The disk over the files of the operating system.
ghost use Rattle.std.specs.Prelude.{◌≡◌};

use crate::counted_files::CountedFiles;
use crate::file_system::HostFiles;
use std::fs::File;

/// A disk over the files of the operating system, which tell nothing of what they hold.
pub type FileDisk = CountedFiles<File, HostFiles>;

impl CountedFiles<File, HostFiles> {
    ghost use Rattle.ax_files.specs.FileDisk.{fault_count, first_fault_of};

    /// A disk with no store attached: until one is, each other call fails.
    pub fn new(rt: HostRuntime) -> FileDisk
        ensures no_fault { (fault_count result ≡ 0) × (first_fault_of result ≡ None) }
    {
        CountedFiles::over(HostFiles::new(rt))
    }
}
