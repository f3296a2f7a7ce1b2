//! The lists of a disk in memory with the log of what was done to them: what reads give, what the
//! last sync left, and each operation since the lists were made or crashed.
ghost use Rattle.std.specs.Prelude.{◌≡◌, ◌+◌, ◌≤◌, ◌<◌, ◌++◌, [], ◌∷◌, ℕ, List, true, false, length, take, Ok, Err, IfOk, if◌then◌else◌};
ghost use Rattle.ax_disk.specs.declared.disk.DiskFailed.{DiskFailed};
ghost use Rattle.ax_disk.specs.model.Image.{list_of};
ghost use Rattle.ax_disk.specs.model.Calls.{Writes, Cuts, Syncs};
ghost use Rattle.ax_disk.specs.mem_disk.OperationLog.{wrote, cut, synced, with_operation, new_log, state_of};
ghost use Rattle.ax_disk.specs.mem_disk.Lists.{image_of, least_capacity, greatest_length};
ghost use Rattle.ax_disk.specs.mem_disk.OperationList.{operations_in};
ghost use Rattle.ax_disk.specs.mem_disk.ListsMatch.{ListsMatch, HasRoom, last_synced};

use crate::Extent;
use crate::lists::Lists;
use crate::operation_list::OperationList;
use std::alloc::{AllocError, Global};

#[derive(Drop)]
pub(crate) struct LoggedLists {
    /// What reads give.
    current: Lists,
    /// What the last sync that succeeded left.
    stable: Lists,
    /// What the lists were at first, all of it synced.
    first: Lists,
    operations: OperationList,
    /// No list grows beyond so many bytes.
    limit: usize,
    /// So many bytes may still be written.
    room: usize,
    ghost matching: { ListsMatch
        (state_of (record { first = image_of first; operations = operations_in operations }))
        (image_of current) (image_of stable) },
    ghost has_room: { HasRoom first current stable operations limit room },
}

impl LoggedLists {
    ghost use Rattle.ax_disk.specs.mem_disk.LoggedLists.{log_of, lists_history, room_of, operation_room_of};

    /// These lists, all synced, with room for so many bytes of writes and so many operations.
    pub fn make(
        alloc: Global,
        lists: Lists,
        room: usize,
        operations: usize,
    ) -> Result<LoggedLists, AllocError>
        ensures log { IfOk result (λ logged. log_of logged ≡ new_log (image_of lists)) }
        ensures room { IfOk result (λ logged. room_of logged ≡ room) }
        ensures operations { IfOk result (λ logged. operations ≤ operation_room_of logged) }
    {
        let limit = lists.longest_with(room)?;
        let stable = lists.copy(alloc, limit)?;
        let first = lists.copy(alloc, limit)?;
        let mut current = lists;
        current.reserve(limit)?;
        Ok(LoggedLists {
            current,
            stable,
            first,
            operations: OperationList::make(alloc, operations, room)?,
            limit,
            room,
        })
    }

    pub fn room(&self) -> usize
        ensures { result ≡ room_of self.now }
    {
        self.room
    }

    /// What reads give of a list.
    pub fn list(&self, ext: Extent) -> &[u8]
        ensures { result.now ≡ list_of ext (lists_history self.now).reads }
    {
        self.current.list(ext)
    }

    /// A write of these bytes, of which the first `done` come to be read: one that succeeds where
    /// it is all of them, or else one that fails.
    pub fn write(&mut self, ext: Extent, at: usize, bytes: &[u8], done: usize)
        requires operations { 0 < operation_room_of self.old }
        requires offset { at ≤ length (list_of ext (lists_history self.old).reads) }
        requires room { length bytes.now ≤ room_of self.old }
        requires done { done ≤ length bytes.now }
        ensures log { log_of self.new
            ≡ with_operation (wrote ext at (length bytes.now) (take done bytes.now))
            (log_of self.old) }
        ensures succeeded { done ≡ length bytes.now
            → Writes {E = DiskFailed} ext at bytes.now (Ok (tt {0}))
            (lists_history self.old) (lists_history self.new) }
        ensures failed { Writes {T = Unit {0}} {E = DiskFailed} ext at bytes.now (Err (record {}))
            (lists_history self.old) (lists_history self.new) }
        ensures operations { operation_room_of self.old ≤ operation_room_of self.new + 1 }
        ensures room { room_of self.new + length bytes.now ≡ room_of self.old }
    {
        let part = &bytes[..done];
        self.operations.add_write(ext, at, bytes.len(), part);
        self.current.write(ext, at, part);
        self.room -= bytes.len();
    }

    /// A cut that comes to be read where it is done, or else one that fails.
    pub fn cut(&mut self, ext: Extent, len: usize, done: bool)
        requires { 0 < operation_room_of self.old }
        ensures log { log_of self.new ≡ with_operation (cut ext len done) (log_of self.old) }
        ensures succeeded { done ≡ true
            → Cuts {E = DiskFailed} ext len (Ok (tt {0}))
            (lists_history self.old) (lists_history self.new) }
        ensures failed { Cuts {T = Unit {0}} {E = DiskFailed} ext len (Err (record {}))
            (lists_history self.old) (lists_history self.new) }
        ensures operations { operation_room_of self.old ≤ operation_room_of self.new + 1 }
        ensures room { room_of self.new ≡ room_of self.old }
    {
        self.operations.add_cut(ext, len, done);
        if done {
            self.current.cut(ext, len);
        }
    }

    pub fn sync(&mut self)
        requires { 0 < operation_room_of self.old }
        ensures log { log_of self.new ≡ with_operation synced (log_of self.old) }
        ensures succeeded { Syncs {E = DiskFailed} (Ok (tt {0}))
            (lists_history self.old) (lists_history self.new) }
        ensures operations { operation_room_of self.old ≤ operation_room_of self.new + 1 }
        ensures room { room_of self.new ≡ room_of self.old }
    {
        self.operations.add_sync();
        self.stable.set(&self.current);
    }

    /// Leaves what reads give or what the last sync left, all of it synced, and nothing of what was
    /// done before.
    pub fn crash(&mut self, keep: bool)
        ensures log { log_of self.new ≡ new_log (if keep then (lists_history self.old).reads
            else last_synced (lists_history self.old).unsynced) }
        ensures operations { operation_room_of self.old ≤ operation_room_of self.new }
        ensures room { room_of self.new ≡ room_of self.old }
    {
        self.operations.clear();
        settle(&mut self.current, &mut self.stable, keep);
        self.first.set(&self.current);
    }
}

/// Both become the current lists where they are kept, and else the stable ones.
fn settle(current: &mut Lists, stable: &mut Lists, keep: bool)
    requires current { greatest_length (image_of stable.old) ≤ least_capacity current.old }
    requires stable { greatest_length (image_of current.old) ≤ least_capacity stable.old }
    ensures current { image_of current.new
        ≡ (if keep then image_of current.old else image_of stable.old) }
    ensures stable { image_of stable.new
        ≡ (if keep then image_of current.old else image_of stable.old) }
    ensures current_room { least_capacity current.old ≤ least_capacity current.new }
    ensures stable_room { least_capacity stable.old ≤ least_capacity stable.new }
{
    if keep {
        stable.set(current);
    } else {
        current.set(stable);
    }
}
