/// Out of memory: the one answer that no contract ties to a cause.
#[derive(Clone, Copy, Debug, PartialEq, Eq)]
pub struct Memory;

impl From<ax_group::Memory> for Memory {
    fn from(_: ax_group::Memory) -> Memory {
        Memory
    }
}

impl From<ax_rows::Memory> for Memory {
    fn from(_: ax_rows::Memory) -> Memory {
        Memory
    }
}
