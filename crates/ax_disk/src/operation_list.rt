//! What was done to the lists of a disk in memory, operation by operation, in room taken before.
ghost use Rattle.std.specs.Prelude.{◌≡◌, ◌+◌, ◌-◌, ◌≤◌, ◌<◌, ◌++◌, [], ◌∷◌, length, vec_len, vec_capacity, IfOk};
ghost use Rattle.ax_disk.specs.mem_disk.OperationHeads.{written_size, operations_of};
ghost use Rattle.ax_disk.specs.mem_disk.OperationLog.{wrote, cut, synced};

use crate::Extent;
use crate::operation_head::OperationHead;
use std::alloc::{AllocError, Global};

#[derive(Drop)]
pub(crate) struct OperationList {
    operations: Vec<OperationHead>,
    /// The bytes of all writes, one write after another.
    bytes: Vec<u8>,
    ghost whole: { written_size operations.items ≡ length bytes.items },
}

impl OperationList {
    ghost use Rattle.ax_disk.specs.mem_disk.OperationList.{operations_in, spare_operations, spare_bytes};

    /// An empty log with room for so many operations, and so many bytes of writes.
    pub fn make(alloc: Global, operations: usize, bytes: usize) -> Result<OperationList, AllocError>
        ensures empty { IfOk result (λ log. operations_in log ≡ []) }
        ensures operations { IfOk result (λ log. operations ≤ spare_operations log) }
        ensures bytes { IfOk result (λ log. bytes ≤ spare_bytes log) }
    {
        Ok(OperationList {
            operations: Vec::with_capacity(alloc, operations)?,
            bytes: Vec::with_capacity(alloc, bytes)?,
        })
    }

    pub fn clear(&mut self)
        ensures empty { operations_in self.new ≡ [] }
        ensures operations { spare_operations self.old ≤ spare_operations self.new }
        ensures bytes { spare_bytes self.old ≤ spare_bytes self.new }
    {
        self.operations.clear();
        self.bytes.clear();
    }

    /// Adds a write of `size` bytes, of which those in `bytes` came to be read.
    pub fn add_write(&mut self, ext: Extent, at: usize, size: usize, bytes: &[u8])
        requires operations { 0 < spare_operations self.old }
        requires bytes { length bytes.now ≤ spare_bytes self.old }
        ensures added { operations_in self.new
            ≡ operations_in self.old ++ wrote ext at size bytes.now ∷ [] }
        ensures operations { spare_operations self.old ≤ spare_operations self.new + 1 }
        ensures bytes { spare_bytes self.old ≤ spare_bytes self.new + length bytes.now }
    {
        let done = bytes.len();
        self.operations.push_reserved(OperationHead::Wrote {
            ext,
            at,
            size,
            done,
        });
        let taken = self.bytes.extend_from_slice(bytes);
        prove!(taken.is_ok());
    }

    /// Adds a cut to `len` bytes, and whether it came to be read.
    pub fn add_cut(&mut self, ext: Extent, len: usize, done: bool)
        requires { 0 < spare_operations self.old }
        ensures added { operations_in self.new ≡ operations_in self.old ++ cut ext len done ∷ [] }
        ensures operations { spare_operations self.old ≤ spare_operations self.new + 1 }
        ensures bytes { spare_bytes self.old ≤ spare_bytes self.new }
    {
        self.operations
            .push_reserved(OperationHead::Cut { ext, len, done });
    }

    pub fn add_sync(&mut self)
        requires { 0 < spare_operations self.old }
        ensures added { operations_in self.new ≡ operations_in self.old ++ synced ∷ [] }
        ensures operations { spare_operations self.old ≤ spare_operations self.new + 1 }
        ensures bytes { spare_bytes self.old ≤ spare_bytes self.new }
    {
        self.operations.push_reserved(OperationHead::Synced);
    }
}
