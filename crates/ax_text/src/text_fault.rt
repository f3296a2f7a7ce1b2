use ax_tree::Memory;
use std::alloc::{AllocError, AllocFailed};

/// Why bytes were not read as a tree.
#[derive(Clone, Copy, Debug, PartialEq, Eq)]
pub enum TextFault {
    /// The bytes are no JSON text: no UTF-8, outside the grammar, nested deeper than 127, or with a
    /// number that is too large for a float.
    Json,
    /// The text is JSON, and a number in its value is not written as a whole one (`1.0`, `1e2` and
    /// `-0` are not), or is outside 64 bits.
    Number,
    /// Out of memory.
    Memory,
}

impl From<AllocError> for TextFault {
    ghost use Rattle.std.specs.Prelude.{◌≡◌};
    ghost use Rattle.ax_text.specs.declared.text_fault.TextFault.TheVariants.{Memory as OutOfMemory};

    ghost from_gives = { λ _ fault. fault ≡ OutOfMemory };

    fn from(_: AllocError) -> TextFault {
        TextFault::Memory
    }
}

impl<T: Drop> From<AllocFailed<T>> for TextFault {
    ghost use Rattle.std.specs.Prelude.{◌≡◌};
    ghost use Rattle.ax_text.specs.declared.text_fault.TextFault.TheVariants.{Memory as OutOfMemory};

    ghost from_gives = { λ _ fault. fault ≡ OutOfMemory };

    fn from(_: AllocFailed<T>) -> TextFault {
        TextFault::Memory
    }
}

impl From<Memory> for TextFault {
    ghost use Rattle.std.specs.Prelude.{◌≡◌};
    ghost use Rattle.ax_text.specs.declared.text_fault.TextFault.TheVariants.{Memory as OutOfMemory};

    ghost from_gives = { λ _ fault. fault ≡ OutOfMemory };

    fn from(_: Memory) -> TextFault {
        TextFault::Memory
    }
}
