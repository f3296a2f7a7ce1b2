//! Texts of documents that were read ahead of a scan.

ghost use Rattle.std.specs.Prelude.{◌≡◌, ◌+◌, ◌≤◌, ℕ, List, false, IsTrue, IfSome, OnOk, length, take, drop};
ghost use Rattle.ax_faults.specs.Faults.{HasCause};
ghost use Rattle.ax_disk.specs.model.Calls.{Idles};
ghost use Rattle.ax_pages.specs.Area.{frames_bytes};
ghost use Rattle.ax_log.specs.Log.{log_end};
ghost use Rattle.ax_log.specs.Agreement.{Agrees};
ghost use Rattle.ax_store.specs.Cached.{HasBytesAt};

use crate::cached::read_disk;
use crate::together::{Stretch, WINDOW_BYTES};
use ax_disk::{Disk, DiskFailed};
use ax_log::Log;
use std::alloc::{AllocError, Global};

/// How many bytes the first read ahead may take at the least.
const LEAST_AHEAD: u64 = 16_384;

/// Texts that were read ahead: bytes of the area that counts, and which of them is the text that was
/// asked for last. It serves one store, from the first call on until that store is committed to.
#[derive(Drop)]
pub struct ReadAhead {
    // Behind those that were read last stand older ones, which are kept for their room.
    bytes: Vec<u8>,
    // How many were read last.
    filled: usize,
    // Where the first of these stands in the area.
    from: u64,
    // The text: where it begins among the bytes, and how many bytes it has.
    at: usize,
    len: usize,
    ghost room: { filled ≤ length bytes.items },
    ghost within: { at + len ≤ filled },
}

impl ReadAhead {
    ghost use Rattle.ax_store.specs.ReadAhead.{IsNothingAhead, SameAhead, IsShown, ahead_bytes, ahead_text};

    /// Nothing was read. It takes no memory yet.
    pub fn new(alloc: Global) -> ReadAhead
        ensures { IsNothingAhead result }
    {
        ReadAhead {
            bytes: Vec::new(alloc),
            filled: 0,
            from: 0,
            at: 0,
            len: 0,
        }
    }

    /// The text that was found last: of a number that is not held there is none, and this stays as it was.
    pub fn text(&self) -> &[u8]
        ensures { result.now ≡ ahead_text self.now }
    {
        &self.bytes[self.at..self.at + self.len]
    }

    /// Shows the text of a place and a length, if it is among the bytes. `false`, with all as it was,
    /// where it is not.
    pub(crate) fn show(&mut self, from: u64, len: usize) -> bool
        ensures same { SameAhead self.old self.new }
        ensures shown { IsTrue result → IsShown self.new from len }
        ensures text { result ≡ false → ahead_text self.new ≡ ahead_text self.old }
    {
        let Some(at) = self.place_of(from, len) else {
            return false;
        };
        self.at = at;
        self.len = len;
        true
    }

    /// Where the text of a place and a length stands among the bytes.
    fn place_of(&self, from: u64, len: usize) -> Option<usize>
        ensures place { IfSome result (λ at. self.now.from + at ≡ from) }
        ensures within { IfSome result (λ at. at + len ≤ self.now.filled) }
    {
        let at = from.checked_sub(self.from)?;
        let last = self.filled.checked_sub(len)?;
        if at > last as u64 {
            return None;
        }
        Some(at as usize)
    }

    /// Whether a text lies together with the one that was asked for last, behind it. So the first text is read
    /// alone, and so is one that is asked for out of order.
    pub(crate) fn is_next(&self, from: u64, len: usize) -> bool {
        let last = self.from.saturating_add(self.at as u64);
        self.filled > 0
            && Stretch::of_text(last, self.len)
                .with_text(from, len)
                .is_some()
    }

    /// How many bytes to read ahead at the most: four times what was read last, 16 KiB where that is more, and a window in
    /// the end. So a scan that stops soon has read some four times what it had use of, or 16 KiB, and not a whole window.
    pub(crate) fn reach(&self) -> u64
        ensures { result ≤ WINDOW_BYTES }
    {
        (self.filled as u64)
            .saturating_mul(4)
            .max(LEAST_AHEAD)
            .min(WINDOW_BYTES)
    }

    /// Makes room for so many bytes. `Err` where there is none; all is then as it was.
    pub(crate) fn make_room(&mut self, span: usize) -> Result<(), AllocError>
        ensures room { OnOk result (span ≤ length self.new.bytes.items) }
        ensures same { SameAhead self.old self.new }
        ensures text { ahead_text self.new ≡ ahead_text self.old }
    {
        lengthen(&mut self.bytes, span)
    }

    /// Reads so many bytes at a place, the first of which are the text.
    pub(crate) fn fill<D: Disk>(
        &mut self,
        log: &Log,
        disk: &mut D,
        from: u64,
        len: usize,
        span: usize,
    ) -> Result<(), DiskFailed>
        requires text { len ≤ span }
        requires room { span ≤ length self.old.bytes.items }
        ensures read { IsTrue (D.is_honest disk.old) → (frames : List (List ℕ))
            → Agrees log.now frames (D.history disk.old (D.attached disk.old))
            → from + span ≤ log_end log.now
            → OnOk result (HasBytesAt (frames_bytes frames) self.new.from (ahead_bytes self.new)) }
        ensures shown { OnOk result (IsShown self.new from len) }
        ensures lists { IsTrue (D.is_honest disk.old)
            → Idles (D.history disk.old (D.attached disk.old)) (D.history disk.new (D.attached disk.new)) }
        ensures cause { HasCause result (D.faults disk.old) (D.faults disk.new) }
        ensures uncounted { OnOk result (D.faults disk.new ≡ D.faults disk.old) }
        ensures attached { D.attached disk.new ≡ D.attached disk.old }
        ensures honest { D.is_honest disk.new ≡ D.is_honest disk.old }
    {
        let Ok(()) = read_front(log, disk, from, &mut self.bytes, span) else {
            return Err(DiskFailed);
        };
        self.from = from;
        self.filled = span;
        self.at = 0;
        self.len = len;
        Ok(())
    }
}

/// Fills the front of a buffer with so many bytes of the log's frames from the disk.
fn read_front<D: Disk>(
    log: &Log,
    disk: &mut D,
    from: u64,
    buf: &mut [u8],
    len: usize,
) -> Result<(), DiskFailed>
    requires { len ≤ length buf.old }
    ensures read { IsTrue (D.is_honest disk.old) → (frames : List (List ℕ))
        → Agrees log.now frames (D.history disk.old (D.attached disk.old))
        → from + len ≤ log_end log.now
        → OnOk result (take len buf.new ≡ take len (drop from (frames_bytes frames))) }
    ensures lists { IsTrue (D.is_honest disk.old)
        → Idles (D.history disk.old (D.attached disk.old)) (D.history disk.new (D.attached disk.new)) }
    ensures cause { HasCause result (D.faults disk.old) (D.faults disk.new) }
    ensures uncounted { OnOk result (D.faults disk.new ≡ D.faults disk.old) }
    ensures attached { D.attached disk.new ≡ D.attached disk.old }
    ensures honest { D.is_honest disk.new ≡ D.is_honest disk.old }
{
    let (front, _) = buf.split_at_mut(len);
    read_disk(log, disk, from, front)
}

/// Makes a vector so long, unless it is longer. `Err` where there is no memory; it is then as it was.
fn lengthen(bytes: &mut Vec<u8>, len: usize) -> Result<(), AllocError>
    ensures long { OnOk result (len ≤ length bytes.new.items) }
    ensures never_less { length bytes.old.items ≤ length bytes.new.items }
    ensures front { take (length bytes.old.items) bytes.new.items ≡ bytes.old.items }
{
    if len <= bytes.len() {
        return Ok(());
    }
    bytes.resize(len, 0)
}
