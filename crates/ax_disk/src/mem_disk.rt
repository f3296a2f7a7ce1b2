//! A disk in memory that obeys the model, with failures where they are asked for.
ghost use Rattle.std.specs.Prelude.{◌≡◌, ◌⊎◌, ◌+◌, ◌-◌, ◌/◌, ◌^◌, ◌<◌, ◌≤◌, ◌↔◌, ℕ, List, Bool, true, false, [], Some, length, take, min, IsTrue, IsOk, IsErr, IfOk, OnOk, OnErr, if◌then◌else◌};
ghost use Rattle.ax_faults.specs.Faults.{raised, HasCause, CountsOnce};
ghost use Rattle.ax_disk.specs.model.Image.{list_of};
ghost use Rattle.ax_disk.specs.model.Pending.{MayLeave};
ghost use Rattle.ax_disk.specs.model.Calls.{Idles, Writes, Cuts, Syncs, bytes_from};
ghost use Rattle.ax_disk.specs.mem_disk.OperationLog.{wrote, cut, new_log, with_operation};
ghost use Rattle.ax_disk.specs.mem_disk.ListsMatch.{last_synced};
ghost use Rattle.ax_disk.specs.mem_disk.LoggedLists.{operation_room_of};
ghost use Rattle.ax_disk.specs.mem_disk.CallBudget.{fails_next, after_call, Allows};

use crate::call_budget::CallBudget;
use crate::lists::Lists;
use crate::logged_lists::LoggedLists;
use crate::outcome::Outcome;
use crate::{Disk, DiskFailed, Extent, Memory};
use ax_faults::FaultCount;
use std::alloc::Global;

/// The greatest length of a list in bytes.
const MOST_BYTES: u64 = 1 << 62;

/// A disk in memory. It has the lists of a single store, whatever name is attached.
///
/// It takes room for so many written bytes and so many calls when it is made, and no memory later.
/// A call past that room fails and does nothing. Calls are numbered from 1, those that fail too,
/// and a call whose number is among `failing` fails. A write that fails so has written the first
/// half of its bytes (the smaller half), as reads then tell; what a crash leaves of its whole range
/// is open, and room for all of it is spent. A cut that fails so has cut nothing as reads tell; a
/// crash may leave it cut. Any other call that fails so has done nothing. No call fails otherwise,
/// but one that would pass 2^62 bytes.
#[derive(Drop)]
pub struct MemDisk {
    lists: LoggedLists,
    calls: CallBudget,
    faults: FaultCount,
    reads: u64,
    ghost ready: { calls.remaining ≤ operation_room_of lists },
}

impl MemDisk {
    ghost use Rattle.ax_disk.specs.mem_disk.MemDisk.{operation_log, disk_history, disk_faults, counted_reads, call_budget, disk_room, HasRoomFor};

    /// A disk with these lists, all synced, and room for `room` bytes of writes and for `calls`
    /// calls.
    pub fn make(
        alloc: Global,
        root: Vec<u8>,
        a: Vec<u8>,
        b: Vec<u8>,
        room: usize,
        calls: usize,
        failing: Vec<u64>,
    ) -> Result<MemDisk, Memory>
        ensures lists { IfOk result (λ disk. operation_log disk
            ≡ new_log (record { root = root.items; a = a.items; b = b.items })) }
        ensures calls { IfOk result (λ disk. call_budget disk
            ≡ record { remaining = calls; made = 0; failing = failing.items }) }
        ensures room { IfOk result (λ disk. disk_room disk ≡ room) }
        ensures reads { IfOk result (λ disk. counted_reads disk ≡ 0) }
        ensures faults { IfOk result (λ disk. disk_faults disk ≡ 0) }
    {
        let lists = Lists { root, a, b };
        Ok(MemDisk {
            lists: LoggedLists::make(alloc, lists, room, calls)?,
            calls: CallBudget::new(calls, failing),
            faults: FaultCount::new(),
            reads: 0,
        })
    }

    /// The bytes that reads give of a list.
    pub fn bytes(&self, ext: Extent) -> &[u8]
        ensures { result.now ≡ list_of ext (disk_history self.now).reads }
    {
        self.lists.list(ext)
    }

    /// How many calls of `read` were made, up to the last value of a `u64`.
    pub fn reads(&self) -> u64
        ensures { result ≡ counted_reads self.now }
    {
        self.reads
    }

    /// How many calls have failed, up to the last value of a `u64`.
    pub fn fault_count(&self) -> u64
        ensures { result ≡ disk_faults self.now }
    {
        self.faults.count()
    }

    /// Crashes, and comes back. With `keep` the lists are then what reads gave, else what the last
    /// sync that succeeded left, or what the disk was made with where none has succeeded. Nothing
    /// is then unsynced, and moments are counted anew. It is no call, and takes no room.
    pub fn crash(&mut self, keep: bool)
        ensures lists { operation_log self.new ≡ new_log (if keep then (disk_history self.old).reads
            else last_synced (disk_history self.old).unsynced) }
        ensures left { MayLeave (disk_history self.old).unsynced (disk_history self.new).reads }
        ensures calls { call_budget self.new ≡ call_budget self.old }
        ensures room { disk_room self.new ≡ disk_room self.old }
        ensures reads { counted_reads self.new ≡ counted_reads self.old }
        ensures faults { disk_faults self.new ≡ disk_faults self.old }
    {
        self.lists.crash(keep);
    }

    /// Whether a write of so many bytes has room, and its end does not pass 2^62.
    fn fits(&self, at: u64, size: usize) -> bool
        ensures { IsTrue result ↔ ((size ≤ disk_room self.now) × (at + size ≤ 2 ^ 62)) }
    {
        size <= self.lists.room() && at <= MOST_BYTES && size as u64 <= MOST_BYTES - at
    }
}

/// Fills `buf` with the bytes of a list from an offset on, and 0 past its end.
fn fill(list: &[u8], at: u64, buf: &mut [u8])
    ensures { buf.new ≡ bytes_from list.now at (length buf.old) }
{
    let start = (at as usize).min(list.len());
    let count = buf.len().min(list.len() - start);
    buf[..count].copy_from_slice(&list[start..start + count]);
    buf[count..].fill(0);
}

impl Disk for MemDisk {
    ghost use Rattle.ax_disk.specs.mem_disk.MemDisk.{operation_log, disk_history, disk_faults, counted_reads, call_budget, disk_room, HasRoomFor, LacksRoomFor, disk_reads_may_stay, disk_is_current};

    ghost faults = { λ disk. disk_faults disk };

    ghost is_honest = { λ _. true };

    ghost store_named = { λ _. [] };

    ghost attached = { λ _. [] };

    ghost history = { λ disk _. disk_history disk };

    ghost remaining = { λ disk. Some (call_budget disk).remaining };

    ghost reads_may_stay = { λ disk _ _. disk_reads_may_stay disk };

    ghost is_current = { λ disk _ _. disk_is_current disk };

    fn attach(&mut self, _name: &str) -> Result<(), DiskFailed>
        ensures lists { Idles (disk_history self.old) (disk_history self.new) }
        ensures untouched { operation_log self.new ≡ operation_log self.old }
        ensures cause { HasCause result (disk_faults self.old) (disk_faults self.new) }
        ensures uncounted { OnOk result (disk_faults self.new ≡ disk_faults self.old) }
        ensures succeeds { IsOk result ↔ Allows (call_budget self.old) }
        ensures counts { CountsOnce result (disk_faults self.old) (disk_faults self.new) }
        ensures calls { call_budget self.new ≡ after_call (call_budget self.old) }
        ensures room { disk_room self.new ≡ disk_room self.old }
        ensures reads { counted_reads self.new ≡ counted_reads self.old }
    {
        match self.calls.next(true) {
            Outcome::Refused | Outcome::Fails => {
                self.faults.raise();
                Err(DiskFailed)
            }
            Outcome::Done => Ok(()),
        }
    }

    fn len(&mut self, ext: Extent) -> Result<u64, DiskFailed>
        ensures length { IfOk result (λ n. n ≡ length (list_of ext (disk_history self.old).reads)) }
        ensures limit { IfOk result (λ n. n ≤ 2 ^ 62) }
        ensures lists { Idles (disk_history self.old) (disk_history self.new) }
        ensures untouched { operation_log self.new ≡ operation_log self.old }
        ensures cause { HasCause result (disk_faults self.old) (disk_faults self.new) }
        ensures uncounted { OnOk result (disk_faults self.new ≡ disk_faults self.old) }
        ensures succeeds { IsOk result
            ↔ (Allows (call_budget self.old)
            × (length (list_of ext (disk_history self.old).reads) ≤ 2 ^ 62)) }
        ensures counts { CountsOnce result (disk_faults self.old) (disk_faults self.new) }
        ensures calls { call_budget self.new ≡ after_call (call_budget self.old) }
        ensures room { disk_room self.new ≡ disk_room self.old }
        ensures reads { counted_reads self.new ≡ counted_reads self.old }
    {
        let length = self.lists.list(ext).len() as u64;
        match self.calls.next(length <= MOST_BYTES) {
            Outcome::Refused | Outcome::Fails => {
                self.faults.raise();
                Err(DiskFailed)
            }
            Outcome::Done => Ok(length),
        }
    }

    fn read(&mut self, ext: Extent, at: u64, buf: &mut [u8]) -> Result<(), DiskFailed>
        ensures bytes { OnOk result (buf.new
            ≡ bytes_from (list_of ext (disk_history self.old).reads) at (length buf.old)) }
        ensures unread { OnErr result (buf.new ≡ buf.old) }
        ensures lists { Idles (disk_history self.old) (disk_history self.new) }
        ensures untouched { operation_log self.new ≡ operation_log self.old }
        ensures cause { HasCause result (disk_faults self.old) (disk_faults self.new) }
        ensures uncounted { OnOk result (disk_faults self.new ≡ disk_faults self.old) }
        ensures succeeds { IsOk result ↔ Allows (call_budget self.old) }
        ensures counts { CountsOnce result (disk_faults self.old) (disk_faults self.new) }
        ensures calls { call_budget self.new ≡ after_call (call_budget self.old) }
        ensures room { disk_room self.new ≡ disk_room self.old }
        ensures reads { counted_reads self.new ≡ raised (counted_reads self.old) }
    {
        self.reads = self.reads.saturating_add(1);
        match self.calls.next(true) {
            Outcome::Refused | Outcome::Fails => {
                self.faults.raise();
                Err(DiskFailed)
            }
            Outcome::Done => {
                fill(self.lists.list(ext), at, buf);
                Ok(())
            }
        }
    }

    fn write_at(&mut self, ext: Extent, at: u64, bytes: &[u8]) -> Result<(), DiskFailed>
        requires { at ≤ length (list_of ext (disk_history self.old).reads) }
        ensures lists { Writes ext at bytes.now result
            (disk_history self.old) (disk_history self.new) }
        ensures limit { 2 ^ 62 < at + length bytes.now → IsErr result }
        ensures cause { HasCause result (disk_faults self.old) (disk_faults self.new) }
        ensures uncounted { OnOk result (disk_faults self.new ≡ disk_faults self.old) }
        ensures counts { CountsOnce result (disk_faults self.old) (disk_faults self.new) }
        ensures succeeds { IsOk result
            ↔ (HasRoomFor at (length bytes.now) self.old
            × (fails_next (call_budget self.old) ≡ false)) }

        // One that has room and is numbered to fail writes the first half of its bytes.
        ensures half { IsErr result → HasRoomFor at (length bytes.now) self.old
            → operation_log self.new
            ≡ with_operation
            (wrote ext at (length bytes.now) (take (length bytes.now / 2) bytes.now))
            (operation_log self.old) }
        ensures refused { LacksRoomFor at (length bytes.now) self.old
            → operation_log self.new ≡ operation_log self.old }

        // One that has room takes it, also where it fails.
        ensures room { HasRoomFor at (length bytes.now) self.old
            → disk_room self.new + length bytes.now ≡ disk_room self.old }
        ensures no_room { LacksRoomFor at (length bytes.now) self.old
            → disk_room self.new ≡ disk_room self.old }
        ensures calls { call_budget self.new ≡ after_call (call_budget self.old) }
        ensures reads { counted_reads self.new ≡ counted_reads self.old }
    {
        let fits = self.fits(at, bytes.len());
        match self.calls.next(fits) {
            Outcome::Refused => {
                self.faults.raise();
                Err(DiskFailed)
            }
            Outcome::Fails => {
                self.lists.write(ext, at as usize, bytes, bytes.len() / 2);
                self.faults.raise();
                Err(DiskFailed)
            }
            Outcome::Done => {
                self.lists.write(ext, at as usize, bytes, bytes.len());
                Ok(())
            }
        }
    }

    fn cut(&mut self, ext: Extent, len: u64) -> Result<(), DiskFailed>
        ensures lists { Cuts ext len result (disk_history self.old) (disk_history self.new) }
        // One that is numbered to fail is done as far as a crash may tell, and not as reads tell.
        ensures uncut { IsErr result → 0 < (call_budget self.old).remaining
            → operation_log self.new ≡ with_operation (cut ext len false) (operation_log self.old) }
        ensures refused { (call_budget self.old).remaining ≡ 0
            → operation_log self.new ≡ operation_log self.old }
        ensures cause { HasCause result (disk_faults self.old) (disk_faults self.new) }
        ensures uncounted { OnOk result (disk_faults self.new ≡ disk_faults self.old) }
        ensures succeeds { IsOk result ↔ Allows (call_budget self.old) }
        ensures counts { CountsOnce result (disk_faults self.old) (disk_faults self.new) }
        ensures calls { call_budget self.new ≡ after_call (call_budget self.old) }
        ensures room { disk_room self.new ≡ disk_room self.old }
        ensures reads { counted_reads self.new ≡ counted_reads self.old }
    {
        match self.calls.next(true) {
            Outcome::Refused => {
                self.faults.raise();
                Err(DiskFailed)
            }
            Outcome::Fails => {
                self.lists.cut(ext, len as usize, false);
                self.faults.raise();
                Err(DiskFailed)
            }
            Outcome::Done => {
                self.lists.cut(ext, len as usize, true);
                Ok(())
            }
        }
    }

    fn sync(&mut self) -> Result<(), DiskFailed>
        ensures lists { Syncs result (disk_history self.old) (disk_history self.new) }
        ensures refused { OnErr result (operation_log self.new ≡ operation_log self.old) }
        ensures cause { HasCause result (disk_faults self.old) (disk_faults self.new) }
        ensures uncounted { OnOk result (disk_faults self.new ≡ disk_faults self.old) }
        ensures succeeds { IsOk result ↔ Allows (call_budget self.old) }
        ensures counts { CountsOnce result (disk_faults self.old) (disk_faults self.new) }
        ensures calls { call_budget self.new ≡ after_call (call_budget self.old) }
        ensures room { disk_room self.new ≡ disk_room self.old }
        ensures reads { counted_reads self.new ≡ counted_reads self.old }
    {
        match self.calls.next(true) {
            // Nothing is synced, so a crash may leave all that it might have left before.
            Outcome::Refused | Outcome::Fails => {
                self.faults.raise();
                Err(DiskFailed)
            }
            Outcome::Done => {
                self.lists.sync();
                Ok(())
            }
        }
    }
}
