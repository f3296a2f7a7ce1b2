//! Where the frames of an area end: a walk over their heads, in large reads.

ghost use Rattle.std.specs.Prelude.{◌≡◌, ◌+◌, ◌-◌, ◌^◌, ◌<◌, ◌≤◌, ℕ, List, length, IsTrue, IfOk, OnOk};
ghost use Rattle.ax_faults.specs.Faults.{HasCause};
ghost use Rattle.ax_disk.specs.model.Image.{list_of};
ghost use Rattle.ax_disk.specs.model.Calls.{Idles, bytes_from};
ghost use Rattle.ax_pages.specs.Area.{extent_number};
ghost use Rattle.ax_log.specs.Faults.{HasDiskCause};
ghost use Rattle.ax_log.specs.Walk.{Shows, ReachesTo, window_start, IsNext, Advances, IsEndOf};

use crate::fault::LogFault;
use crate::window::{Window, blank_window};
use ax_disk::{Disk, DiskFailed, Extent};
use ax_frame::{FrameHead, frame_head};
use std::alloc::Global;

/// What stands where the next gate is due.
#[derive(Clone, Copy, Debug)]
pub(crate) enum Next {
    /// A closed gate: the area ends here.
    Closed,
    /// A frame.
    Frame {
        /// How many bytes it takes, with its gate and its length.
        size: u64,
    },
    /// An open gate, and no frame that is whole.
    Broken,
}

/// The offset of the closed gate behind the frames of an area, or the place where it is broken.
pub(crate) fn frames_end<D: Disk>(
    alloc: Global,
    disk: &mut D,
    area: Extent,
) -> Result<u64, LogFault>
    ensures is { IsTrue (D.is_honest disk.old)
        → IsEndOf area (list_of area (D.history disk.old (D.attached disk.old)).reads) result }
    ensures limit { IfOk result (λ end. end ≤ 2 ^ 62) }
    ensures lists { IsTrue (D.is_honest disk.old)
        → Idles (D.history disk.old (D.attached disk.old)) (D.history disk.new (D.attached disk.new)) }
    ensures cause { HasDiskCause result (D.faults disk.old) (D.faults disk.new) }
    ensures attached { D.attached disk.new ≡ D.attached disk.old }
    ensures honest { D.is_honest disk.new ≡ D.is_honest disk.old }
{
    let Ok(mut window) = blank_window(alloc) else {
        return Err(LogFault::Memory);
    };
    let Ok(len) = disk.len(area) else {
        return Err(LogFault::Disk);
    };
    let Ok(()) = show(&mut window, disk, area, 0) else {
        return Err(LogFault::Disk);
    };
    let mut at = 0;
    while at < len {
        let Ok(()) = reach(&mut window, disk, area, at) else {
            return Err(LogFault::Disk);
        };
        match what_follows(&head(&window, at), len - at) {
            Next::Closed => return Ok(at),
            Next::Frame { size } => at += size,
            Next::Broken => return Err(damaged(area, at)),
        }
    }
    Err(damaged(area, at))
}

/// The fault of a list that is damaged at a place.
fn damaged(area: Extent, at: u64) -> LogFault
    ensures { result ≡ LogFault.Damaged (extent_number area) at }
{
    let extent = match area {
        Extent::Root => 0,
        Extent::A => 1,
        Extent::B => 2,
    };
    LogFault::Damaged { extent, at }
}

/// Moves the window to a place of a list.
fn show<D: Disk>(
    window: &mut Window,
    disk: &mut D,
    ext: Extent,
    start: u64,
) -> Result<(), DiskFailed>
    ensures shows { IsTrue (D.is_honest disk.old)
        → OnOk result (Shows window.new (list_of ext (D.history disk.old (D.attached disk.old)).reads)) }
    ensures start { OnOk result (window_start window.new ≡ start) }
    ensures lists { IsTrue (D.is_honest disk.old)
        → Idles (D.history disk.old (D.attached disk.old)) (D.history disk.new (D.attached disk.new)) }
    ensures cause { HasCause result (D.faults disk.old) (D.faults disk.new) }
    ensures uncounted { OnOk result (D.faults disk.new ≡ D.faults disk.old) }
    ensures attached { D.attached disk.new ≡ D.attached disk.old }
    ensures honest { D.is_honest disk.new ≡ D.is_honest disk.old }
{
    disk.read(ext, start, &mut window.bytes)?;
    window.start = start;
    Ok(())
}

/// Moves the window to a place unless a head there is within it.
fn reach<D: Disk>(window: &mut Window, disk: &mut D, ext: Extent, at: u64) -> Result<(), DiskFailed>
    requires small { at < 2 ^ 62 }
    requires shows { IsTrue (D.is_honest disk.old)
        → Shows window.old (list_of ext (D.history disk.old (D.attached disk.old)).reads) }
    ensures shows { IsTrue (D.is_honest disk.old)
        → OnOk result (Shows window.new (list_of ext (D.history disk.old (D.attached disk.old)).reads)) }
    ensures reaches { OnOk result (ReachesTo window.new at) }
    ensures lists { IsTrue (D.is_honest disk.old)
        → Idles (D.history disk.old (D.attached disk.old)) (D.history disk.new (D.attached disk.new)) }
    ensures cause { HasCause result (D.faults disk.old) (D.faults disk.new) }
    ensures uncounted { OnOk result (D.faults disk.new ≡ D.faults disk.old) }
    ensures attached { D.attached disk.new ≡ D.attached disk.old }
    ensures honest { D.is_honest disk.new ≡ D.is_honest disk.old }
{
    if window.start <= at && at - window.start <= (window.bytes.len() - 9) as u64 {
        return Ok(());
    }
    show(window, disk, ext, at)
}

/// The nine bytes at a place that is within the window.
fn head(window: &Window, at: u64) -> [u8; 9]
    requires { ReachesTo window.now at }
    ensures { (list : List ℕ) → Shows window.now list → result ≡ bytes_from list at 9 }
{
    let from = (at - window.start) as usize;
    let mut head = [0; 9];
    head.copy_from_slice(&window.bytes[from..from + 9]);
    head
}

/// What stands first in the bytes that are left, by the nine bytes there.
fn what_follows(head: &[u8; 9], left: u64) -> Next
    requires { 0 < left }
    ensures is { (bytes : List ℕ) → head.now ≡ bytes_from bytes 0 9 → left ≡ length bytes → IsNext bytes result }
    ensures advances { Advances result left }
{
    match frame_head(head) {
        FrameHead::Closed => Next::Closed,
        FrameHead::Bad => Next::Broken,
        FrameHead::Frame { len } => {
            if left < 9 || left - 9 < len {
                return Next::Broken;
            }
            Next::Frame { size: 9 + len }
        }
    }
}
