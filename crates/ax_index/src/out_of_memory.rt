//! Out of memory.

use std::alloc::{AllocError, AllocFailed};

/// Memory ran out.
#[derive(Clone, Copy, Debug, PartialEq, Eq)]
pub(crate) struct Memory;

impl From<AllocError> for Memory {
    fn from(_error: AllocError) -> Memory {
        Memory
    }
}

impl<T: Drop> From<AllocFailed<T>> for Memory {
    fn from(_error: AllocFailed<T>) -> Memory {
        Memory
    }
}

impl From<ax_delta::Memory> for Memory {
    fn from(_error: ax_delta::Memory) -> Memory {
        Memory
    }
}

impl From<ax_leaf::Memory> for Memory {
    fn from(_error: ax_leaf::Memory) -> Memory {
        Memory
    }
}

impl From<ax_pair_list::Memory> for Memory {
    fn from(_error: ax_pair_list::Memory) -> Memory {
        Memory
    }
}

impl From<ax_store::Memory> for Memory {
    fn from(_error: ax_store::Memory) -> Memory {
        Memory
    }
}
