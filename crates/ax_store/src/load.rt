//! Opening reads the log frames of the area that counts into the pages.

ghost use Rattle.std.specs.Prelude.{◌≡◌, ◌+◌, ◌-◌, ◌<◌, ◌≤◌, ℕ, List, ◌∷◌, ◌++◌, length, take, drop, IsTrue, IfOk, OnOk};
ghost use Rattle.ax_disk.specs.model.Calls.{Idles};
ghost use Rattle.ax_pages.specs.Area.{frames_bytes};
ghost use Rattle.ax_log.specs.Log.{log_area, log_end};
ghost use Rattle.ax_log.specs.Agreement.{Agrees};
ghost use Rattle.ax_store.specs.Faults.{HasDiskCause};
ghost use Rattle.ax_store.specs.Loading.{IsLoadedTo, TellsLen, TellsNext, TellsSpan, TellsFrame, TellsLoad};
ghost use Rattle.ax_store.specs.Window.{Shows};

use crate::fault::{StoreFault, damaged};
use crate::pages::Pages;
use crate::take_parts::{TakeFault, take_front};
use crate::window::Window;
use ax_disk::Disk;
use ax_frame::{FrameHead, frame_head};
use ax_log::Log;
use std::alloc::Global;

/// How many bytes stand in front of the parts of a frame: its gate and its length.
pub(crate) const FRAME_HEAD_BYTES: u64 = 9;

/// The most bytes that a part has, with its head.
const MOST_PART: u64 = 65_545;

/// The pages to which the frames of a log lead.
pub(crate) fn load<D: Disk>(alloc: Global, disk: &mut D, log: &Log) -> Result<Pages, StoreFault>
    requires { IsTrue (D.is_honest disk.old)
        → (frames : List (List ℕ)) × Agrees log.now frames (D.history disk.old (D.attached disk.old)) }
    ensures tells { IsTrue (D.is_honest disk.old) → (frames : List (List ℕ))
        → Agrees log.now frames (D.history disk.old (D.attached disk.old))
        → TellsLoad result (log_area log.now) frames }
    ensures lists { IsTrue (D.is_honest disk.old)
        → Idles (D.history disk.old (D.attached disk.old)) (D.history disk.new (D.attached disk.new)) }
    ensures cause { HasDiskCause result (D.faults disk.old) (D.faults disk.new) }
    ensures attached { D.attached disk.new ≡ D.attached disk.old }
    ensures honest { D.is_honest disk.new ≡ D.is_honest disk.old }
{
    let Ok(mut pages) = Pages::new(alloc) else {
        return Err(StoreFault::Memory);
    };
    let mut window = Window::new(alloc);
    let mut at = 0;
    while at < log.end() {
        match load_frame(alloc, disk, log, &mut window, &mut pages, at) {
            Ok(next) => at = next,
            Err(fault) => return Err(fault),
        }
    }
    pages.drop_cleared();
    Ok(pages)
}

/// Takes the parts of the frame at an offset of the area, and answers the offset behind it.
fn load_frame<D: Disk>(
    alloc: Global,
    disk: &mut D,
    log: &Log,
    window: &mut Window,
    pages: &mut Pages,
    at: u64,
) -> Result<u64, StoreFault>
    requires { at < log_end log.now }
    ensures tells { IsTrue (D.is_honest disk.old) → (frames : List (List ℕ))
        → Agrees log.now frames (D.history disk.old (D.attached disk.old)) → Shows window.old frames
        → IsLoadedTo frames at pages.old → TellsFrame result (log_area log.now) frames pages.new }
    ensures shows { IsTrue (D.is_honest disk.old) → (frames : List (List ℕ))
        → Agrees log.now frames (D.history disk.old (D.attached disk.old)) → Shows window.old frames
        → OnOk result (Shows window.new frames) }
    ensures within { IfOk result (λ next. (at < next) × (next ≤ log_end log.now)) }
    ensures lists { IsTrue (D.is_honest disk.old)
        → Idles (D.history disk.old (D.attached disk.old)) (D.history disk.new (D.attached disk.new)) }
    ensures agrees { IsTrue (D.is_honest disk.old) → (frames : List (List ℕ))
        → Agrees log.now frames (D.history disk.old (D.attached disk.old))
        → Agrees log.now frames (D.history disk.new (D.attached disk.new)) }
    ensures cause { HasDiskCause result (D.faults disk.old) (D.faults disk.new) }
    ensures attached { D.attached disk.new ≡ D.attached disk.old }
    ensures honest { D.is_honest disk.new ≡ D.is_honest disk.old }
{
    let len = match read_len(disk, log, window, at) {
        Ok(len) => len,
        Err(fault) => return Err(fault),
    };
    match take_span(alloc, disk, log, window, pages, at + FRAME_HEAD_BYTES, len) {
        Ok(()) => Ok(at + FRAME_HEAD_BYTES + len),
        Err(fault) => Err(fault),
    }
}

/// Takes the parts of so many bytes at an offset of the area, one after another. The window is moved
/// along them, so that never more than a window of them is in memory.
fn take_span<D: Disk>(
    alloc: Global,
    disk: &mut D,
    log: &Log,
    window: &mut Window,
    pages: &mut Pages,
    at: u64,
    len: u64,
) -> Result<(), StoreFault>
    requires { at + len ≤ log_end log.now }
    ensures tells { IsTrue (D.is_honest disk.old) → (frames : List (List ℕ))
        → Agrees log.now frames (D.history disk.old (D.attached disk.old)) → Shows window.old frames
        → TellsSpan result (log_area log.now) (take len (drop at (frames_bytes frames))) at pages.old pages.new }
    ensures shows { IsTrue (D.is_honest disk.old) → (frames : List (List ℕ))
        → Agrees log.now frames (D.history disk.old (D.attached disk.old)) → Shows window.old frames
        → OnOk result (Shows window.new frames) }
    ensures lists { IsTrue (D.is_honest disk.old)
        → Idles (D.history disk.old (D.attached disk.old)) (D.history disk.new (D.attached disk.new)) }
    ensures agrees { IsTrue (D.is_honest disk.old) → (frames : List (List ℕ))
        → Agrees log.now frames (D.history disk.old (D.attached disk.old))
        → Agrees log.now frames (D.history disk.new (D.attached disk.new)) }
    ensures cause { HasDiskCause result (D.faults disk.old) (D.faults disk.new) }
    ensures attached { D.attached disk.new ≡ D.attached disk.old }
    ensures honest { D.is_honest disk.new ≡ D.is_honest disk.old }
{
    let end = at + len;
    let mut here = at;
    while here < end {
        match take_next(alloc, disk, log, window, pages, here, end) {
            Ok(size) => here += size,
            Err(fault) => return Err(fault),
        }
    }
    Ok(())
}

/// Takes the part at an offset of the area, before an end, and answers how many bytes it has with its head.
fn take_next<D: Disk>(
    alloc: Global,
    disk: &mut D,
    log: &Log,
    window: &mut Window,
    pages: &mut Pages,
    here: u64,
    end: u64,
) -> Result<u64, StoreFault>
    requires here { here < end }
    requires end { end ≤ log_end log.now }
    ensures tells { IsTrue (D.is_honest disk.old) → (frames : List (List ℕ))
        → Agrees log.now frames (D.history disk.old (D.attached disk.old)) → Shows window.old frames
        → TellsNext result (log_area log.now) (take (end - here) (drop here (frames_bytes frames))) here pages.old pages.new }
    ensures shows { IsTrue (D.is_honest disk.old) → (frames : List (List ℕ))
        → Agrees log.now frames (D.history disk.old (D.attached disk.old)) → Shows window.old frames
        → OnOk result (Shows window.new frames) }
    ensures within { IfOk result (λ size. (0 < size) × (here + size ≤ end)) }
    ensures lists { IsTrue (D.is_honest disk.old)
        → Idles (D.history disk.old (D.attached disk.old)) (D.history disk.new (D.attached disk.new)) }
    ensures agrees { IsTrue (D.is_honest disk.old) → (frames : List (List ℕ))
        → Agrees log.now frames (D.history disk.old (D.attached disk.old))
        → Agrees log.now frames (D.history disk.new (D.attached disk.new)) }
    ensures cause { HasDiskCause result (D.faults disk.old) (D.faults disk.new) }
    ensures attached { D.attached disk.new ≡ D.attached disk.old }
    ensures honest { D.is_honest disk.new ≡ D.is_honest disk.old }
{
    // No part is longer, so what stands there is told by so many bytes.
    let most = (end - here).min(MOST_PART);
    match window.reach(disk, log, here, most) {
        Ok(()) => {}
        Err(fault) => return Err(fault),
    }
    let bytes = window.bytes_at(here, most as usize);
    match take_front(alloc, pages, bytes, here) {
        Ok(size) => Ok(size as u64),
        Err(TakeFault::Spoiled { at }) => Err(damaged(log.area(), at)),
        Err(TakeFault::Memory) => Err(StoreFault::Memory),
    }
}

/// How many bytes the frame at an offset of the area spans. A disk that cannot vouch for its bytes may tell of none.
fn read_len<D: Disk>(
    disk: &mut D,
    log: &Log,
    window: &mut Window,
    at: u64,
) -> Result<u64, StoreFault>
    requires { at < log_end log.now }
    ensures tells { IsTrue (D.is_honest disk.old) → (first rest : List (List ℕ)) → (span : List ℕ)
        → Agrees log.now (first ++ span ∷ rest) (D.history disk.old (D.attached disk.old))
        → Shows window.old (first ++ span ∷ rest)
        → at ≡ length (frames_bytes first) → TellsLen result (length span) }
    ensures shows { IsTrue (D.is_honest disk.old) → (frames : List (List ℕ))
        → Agrees log.now frames (D.history disk.old (D.attached disk.old)) → Shows window.old frames
        → OnOk result (Shows window.new frames) }
    ensures within { IfOk result (λ len. at + 9 + len ≤ log_end log.now) }
    ensures lists { IsTrue (D.is_honest disk.old)
        → Idles (D.history disk.old (D.attached disk.old)) (D.history disk.new (D.attached disk.new)) }
    ensures agrees { IsTrue (D.is_honest disk.old) → (frames : List (List ℕ))
        → Agrees log.now frames (D.history disk.old (D.attached disk.old))
        → Agrees log.now frames (D.history disk.new (D.attached disk.new)) }
    ensures cause { HasDiskCause result (D.faults disk.old) (D.faults disk.new) }
    ensures attached { D.attached disk.new ≡ D.attached disk.old }
    ensures honest { D.is_honest disk.new ≡ D.is_honest disk.old }
{
    let left = log.end() - at;
    if left < FRAME_HEAD_BYTES {
        return Err(damaged(log.area(), at));
    }
    match window.reach(disk, log, at, FRAME_HEAD_BYTES) {
        Ok(()) => {}
        Err(fault) => return Err(fault),
    }
    match frame_head(&window.head_at(at)) {
        FrameHead::Frame { len } => {
            if len > left - FRAME_HEAD_BYTES {
                return Err(damaged(log.area(), at));
            }
            Ok(len)
        }
        FrameHead::Closed => Err(damaged(log.area(), at)),
        FrameHead::Bad => Err(damaged(log.area(), at)),
    }
}
