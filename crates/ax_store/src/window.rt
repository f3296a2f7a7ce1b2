//! A window over the frames of a log, which is moved along them.

ghost use Rattle.std.specs.Prelude.{◌≡◌, ◌+◌, ◌≤◌, ℕ, List, length, take, drop, IsTrue, OnOk};
ghost use Rattle.ax_disk.specs.model.Calls.{Idles};
ghost use Rattle.ax_pages.specs.Area.{frames_bytes};
ghost use Rattle.ax_log.specs.Log.{log_end};
ghost use Rattle.ax_log.specs.Agreement.{Agrees};
ghost use Rattle.ax_store.specs.Faults.{HasDiskCause};

use crate::fault::StoreFault;
use crate::together::WINDOW_BYTES;
use ax_disk::Disk;
use ax_log::Log;
use std::alloc::Global;

/// Bytes of a log's frames, from an offset on.
#[derive(Drop)]
pub(crate) struct Window {
    bytes: Vec<u8>,
    start: u64,
}

impl Window {
    ghost use Rattle.ax_store.specs.Window.{Shows, Reaches, ShowsSoMany, TellsReach};

    /// A window that shows nothing yet. It takes no memory yet.
    pub(crate) fn new(alloc: Global) -> Window
        ensures { (frames : List (List ℕ)) → Shows result frames }
    {
        Window {
            bytes: Vec::new(alloc),
            start: 0,
        }
    }

    /// So many bytes at an offset, which are within the window.
    pub(crate) fn bytes_at(&self, at: u64, len: usize) -> &[u8]
        requires { Reaches self.now at len }
        ensures is { (frames : List (List ℕ)) → Shows self.now frames
            → result.now ≡ take len (drop at (frames_bytes frames)) }
        ensures len { length result.now ≡ len }
    {
        let from = (at - self.start) as usize;
        &self.bytes[from..from + len]
    }

    /// The nine bytes at an offset, which are within the window.
    pub(crate) fn head_at(&self, at: u64) -> [u8; 9]
        requires { Reaches self.now at 9 }
        ensures { (frames : List (List ℕ)) → Shows self.now frames
            → result ≡ take 9 (drop at (frames_bytes frames)) }
    {
        let mut head = [0; 9];
        head.copy_from_slice(self.bytes_at(at, 9));
        head
    }

    /// Moves the window to an offset, unless so many bytes there are within it.
    pub(crate) fn reach<D: Disk>(
        &mut self,
        disk: &mut D,
        log: &Log,
        at: u64,
        len: u64,
    ) -> Result<(), StoreFault>
        requires { at + len ≤ log_end log.now }
        ensures tells { TellsReach result }
        ensures shows { IsTrue (D.is_honest disk.old) → (frames : List (List ℕ))
            → Agrees log.now frames (D.history disk.old (D.attached disk.old))
            → Shows self.old frames → OnOk result (Shows self.new frames) }
        ensures reaches { OnOk result (Reaches self.new at len) }
        ensures lists { IsTrue (D.is_honest disk.old)
            → Idles (D.history disk.old (D.attached disk.old)) (D.history disk.new (D.attached disk.new)) }
        ensures agrees { IsTrue (D.is_honest disk.old) → (frames : List (List ℕ))
            → Agrees log.now frames (D.history disk.old (D.attached disk.old))
            → Agrees log.now frames (D.history disk.new (D.attached disk.new)) }
        ensures cause { HasDiskCause result (D.faults disk.old) (D.faults disk.new) }
        ensures attached { D.attached disk.new ≡ D.attached disk.old }
        ensures honest { D.is_honest disk.new ≡ D.is_honest disk.old }
    {
        if self.reaches(at, len) {
            return Ok(());
        }
        let left = log.end() - at;
        self.show(disk, log, at, len.max(WINDOW_BYTES.min(left)))
    }

    /// Whether so many bytes at an offset are within the window.
    fn reaches(&self, at: u64, len: u64) -> bool
        ensures { IsTrue result → Reaches self.now at len }
    {
        let shown = self.bytes.len() as u64;
        self.start <= at && len <= shown && at - self.start <= shown - len
    }

    /// Moves the window to an offset, where it shows so many bytes.
    fn show<D: Disk>(
        &mut self,
        disk: &mut D,
        log: &Log,
        start: u64,
        len: u64,
    ) -> Result<(), StoreFault>
        requires { start + len ≤ log_end log.now }
        ensures tells { TellsReach result }
        ensures shows { IsTrue (D.is_honest disk.old) → (frames : List (List ℕ))
            → Agrees log.now frames (D.history disk.old (D.attached disk.old))
            → OnOk result (Shows self.new frames) }
        ensures place { OnOk result (ShowsSoMany self.new start len) }
        ensures lists { IsTrue (D.is_honest disk.old)
            → Idles (D.history disk.old (D.attached disk.old)) (D.history disk.new (D.attached disk.new)) }
        ensures agrees { IsTrue (D.is_honest disk.old) → (frames : List (List ℕ))
            → Agrees log.now frames (D.history disk.old (D.attached disk.old))
            → Agrees log.now frames (D.history disk.new (D.attached disk.new)) }
        ensures cause { HasDiskCause result (D.faults disk.old) (D.faults disk.new) }
        ensures attached { D.attached disk.new ≡ D.attached disk.old }
        ensures honest { D.is_honest disk.new ≡ D.is_honest disk.old }
    {
        let Ok(()) = self.bytes.resize(len as usize, 0) else {
            return Err(StoreFault::Memory);
        };
        let Ok(()) = log.read(disk, start, &mut self.bytes) else {
            return Err(StoreFault::Disk);
        };
        self.start = start;
        Ok(())
    }
}
