//! What the root of a store on a disk says.

ghost use Rattle.std.specs.Prelude.{◌≡◌, ◌+◌, ◌≤◌, ℕ, List, length, take, drop, IsTrue, IfOk, OnOk};
ghost use Rattle.ax_faults.specs.Faults.{HasCause};
ghost use Rattle.ax_disk.specs.model.Calls.{Idles};
ghost use Rattle.ax_frame.specs.RootSlot.{IsSlot};
ghost use Rattle.ax_area.specs.Root.{IsRoot};

use ax_area::{RootChoice, choose};
use ax_disk::{Disk, DiskFailed, Extent};
use ax_frame::{RootSlot, read_slot};

/// A root of fewer bytes is not whole.
const WHOLE_ROOT: u64 = 33;

/// What the root says.
pub(crate) fn read_root<D: Disk>(disk: &mut D) -> Result<RootChoice, DiskFailed>
    ensures is { IsTrue (D.is_honest disk.old)
        → IfOk result (λ choice. IsRoot (D.history disk.old (D.attached disk.old)).reads.root choice) }
    ensures lists { IsTrue (D.is_honest disk.old)
        → Idles (D.history disk.old (D.attached disk.old)) (D.history disk.new (D.attached disk.new)) }
    ensures cause { HasCause result (D.faults disk.old) (D.faults disk.new) }
    ensures uncounted { OnOk result (D.faults disk.new ≡ D.faults disk.old) }
    ensures attached { D.attached disk.new ≡ D.attached disk.old }
    ensures honest { D.is_honest disk.new ≡ D.is_honest disk.old }
{
    if disk.len(Extent::Root)? < WHOLE_ROOT {
        return Ok(RootChoice::Fresh);
    }
    let first = read_slot_at(disk, 0)?;
    let second = read_slot_at(disk, 16)?;
    Ok(choose(first, second))
}

/// The root slot at a place within the root.
fn read_slot_at<D: Disk>(disk: &mut D, at: u64) -> Result<RootSlot, DiskFailed>
    ensures is { IsTrue (D.is_honest disk.old)
        → at + 16 ≤ length (D.history disk.old (D.attached disk.old)).reads.root
        → IfOk result (λ slot. IsSlot (take 16 (drop at (D.history disk.old (D.attached disk.old)).reads.root)) slot) }
    ensures lists { IsTrue (D.is_honest disk.old)
        → Idles (D.history disk.old (D.attached disk.old)) (D.history disk.new (D.attached disk.new)) }
    ensures cause { HasCause result (D.faults disk.old) (D.faults disk.new) }
    ensures uncounted { OnOk result (D.faults disk.new ≡ D.faults disk.old) }
    ensures attached { D.attached disk.new ≡ D.attached disk.old }
    ensures honest { D.is_honest disk.new ≡ D.is_honest disk.old }
{
    let mut bytes = [0; 16];
    disk.read(Extent::Root, at, &mut bytes)?;
    Ok(read_slot(&bytes))
}
