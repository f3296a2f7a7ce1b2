//! A disk on which each call fails.
ghost use Rattle.std.specs.Prelude.{◌≡◌, ◌≤◌, false, [], Some, IsErr, OnOk};
ghost use Rattle.std.proofs.lemmas.Bool.{false≢true};
ghost use Rattle.ax_faults.specs.Faults.{raised, HasCause, CountsOnce};

use crate::{Disk, DiskFailed, Extent};
use ax_faults::FaultCount;

/// A disk on which each call fails and is counted. It tells nothing of any list.
#[derive(Debug, Drop)]
pub struct DeadDisk {
    faults: FaultCount,
}

impl DeadDisk {
    ghost use Rattle.ax_disk.specs.DeadDisk.{dead_faults};

    /// A disk with no fault yet.
    pub fn new() -> DeadDisk
        ensures { dead_faults result ≡ 0 }
    {
        DeadDisk {
            faults: FaultCount::new(),
        }
    }

    fn fail(&mut self) -> DiskFailed
        ensures counted { self.new.faults ≡ raised self.old.faults }
        ensures never_falls { self.old.faults ≤ self.new.faults }
    {
        self.faults.raise();
        DiskFailed
    }
}

impl Disk for DeadDisk {
    ghost use Rattle.ax_disk.specs.DeadDisk.{dead_faults, nothing_told};

    ghost faults = { λ disk. disk.faults };

    ghost is_honest = { λ _. false };

    ghost store_named = { λ name. name };

    ghost attached = { λ _. [] };

    ghost history = { λ _ _. nothing_told };

    ghost remaining = { λ _. Some 0 };

    ghost reads_may_stay = { λ _ _ honest. absurd (false≢true honest) };

    ghost is_current = { λ _ _ honest. absurd (false≢true honest) };

    fn attach(&mut self, _name: &str) -> Result<(), DiskFailed>
        ensures fails { IsErr result }
        ensures cause { HasCause result (dead_faults self.old) (dead_faults self.new) }
        ensures uncounted { OnOk result (dead_faults self.new ≡ dead_faults self.old) }
        ensures counts { CountsOnce result (dead_faults self.old) (dead_faults self.new) }
    {
        Err(self.fail())
    }

    fn len(&mut self, _ext: Extent) -> Result<u64, DiskFailed>
        ensures fails { IsErr result }
        ensures cause { HasCause result (dead_faults self.old) (dead_faults self.new) }
        ensures uncounted { OnOk result (dead_faults self.new ≡ dead_faults self.old) }
        ensures counts { CountsOnce result (dead_faults self.old) (dead_faults self.new) }
    {
        Err(self.fail())
    }

    fn read(&mut self, _ext: Extent, _at: u64, _buf: &mut [u8]) -> Result<(), DiskFailed>
        ensures fails { IsErr result }
        ensures cause { HasCause result (dead_faults self.old) (dead_faults self.new) }
        ensures uncounted { OnOk result (dead_faults self.new ≡ dead_faults self.old) }
        ensures counts { CountsOnce result (dead_faults self.old) (dead_faults self.new) }
    {
        Err(self.fail())
    }

    fn write_at(&mut self, _ext: Extent, _at: u64, _bytes: &[u8]) -> Result<(), DiskFailed>
        ensures fails { IsErr result }
        ensures cause { HasCause result (dead_faults self.old) (dead_faults self.new) }
        ensures uncounted { OnOk result (dead_faults self.new ≡ dead_faults self.old) }
        ensures counts { CountsOnce result (dead_faults self.old) (dead_faults self.new) }
    {
        Err(self.fail())
    }

    fn cut(&mut self, _ext: Extent, _len: u64) -> Result<(), DiskFailed>
        ensures fails { IsErr result }
        ensures cause { HasCause result (dead_faults self.old) (dead_faults self.new) }
        ensures uncounted { OnOk result (dead_faults self.new ≡ dead_faults self.old) }
        ensures counts { CountsOnce result (dead_faults self.old) (dead_faults self.new) }
    {
        Err(self.fail())
    }

    fn sync(&mut self) -> Result<(), DiskFailed>
        ensures fails { IsErr result }
        ensures cause { HasCause result (dead_faults self.old) (dead_faults self.new) }
        ensures uncounted { OnOk result (dead_faults self.new ≡ dead_faults self.old) }
        ensures counts { CountsOnce result (dead_faults self.old) (dead_faults self.new) }
    {
        Err(self.fail())
    }
}
