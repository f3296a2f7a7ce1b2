use std::alloc::{AllocError, AllocFailed};

/// Out of memory: the one answer that no contract ties to a cause.
#[derive(Clone, Copy, Debug, PartialEq, Eq)]
pub struct Memory;

impl From<AllocError> for Memory {
    fn from(_: AllocError) -> Memory {
        Memory
    }
}

impl<T: Drop> From<AllocFailed<T>> for Memory {
    fn from(_: AllocFailed<T>) -> Memory {
        Memory
    }
}

impl From<ax_tree::Memory> for Memory {
    fn from(_: ax_tree::Memory) -> Memory {
        Memory
    }
}
