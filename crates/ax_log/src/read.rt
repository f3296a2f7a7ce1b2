//! Reading the bytes of a log's frames.

ghost use Rattle.std.specs.Prelude.{◌≡◌, ◌+◌, ◌≤◌, ℕ, List, length, take, drop, IsTrue, OnOk};
ghost use Rattle.ax_faults.specs.Faults.{HasCause};
ghost use Rattle.ax_disk.specs.model.Calls.{Idles};
ghost use Rattle.ax_pages.specs.Area.{frames_bytes};
ghost use Rattle.ax_log.specs.Log.{log_end};
ghost use Rattle.ax_log.specs.Agreement.{Agrees};

use crate::log::Log;
use ax_disk::{Disk, DiskFailed};

impl Log {
    /// Fills `buf` with the bytes at an offset in the area, all of which the frames have. It takes no
    /// memory. After a failure `buf` may hold anything.
    pub fn read<D: Disk>(&self, disk: &mut D, at: u64, buf: &mut [u8]) -> Result<(), DiskFailed>
        requires within { at + length buf.old ≤ log_end self.now }
        ensures bytes { IsTrue (D.is_honest disk.old) → (frames : List (List ℕ))
            → Agrees self.now frames (D.history disk.old (D.attached disk.old))
            → OnOk result (buf.new ≡ take (length buf.old) (drop at (frames_bytes frames))) }
        ensures agrees { IsTrue (D.is_honest disk.old) → (frames : List (List ℕ))
            → Agrees self.now frames (D.history disk.old (D.attached disk.old))
            → Agrees self.now frames (D.history disk.new (D.attached disk.new)) }
        ensures lists { IsTrue (D.is_honest disk.old)
            → Idles (D.history disk.old (D.attached disk.old)) (D.history disk.new (D.attached disk.new)) }
        ensures cause { HasCause result (D.faults disk.old) (D.faults disk.new) }
        ensures uncounted { OnOk result (D.faults disk.new ≡ D.faults disk.old) }
        ensures attached { D.attached disk.new ≡ D.attached disk.old }
        ensures honest { D.is_honest disk.new ≡ D.is_honest disk.old }
    {
        disk.read(self.slot.area, at, buf)
    }
}
