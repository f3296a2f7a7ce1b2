use ax_mean::Memory;

/// Why a table did not take a policy.
#[derive(Clone, Copy, Debug, PartialEq, Eq)]
pub enum TableFault {
    /// Eight other policies are in use.
    Full,
    /// Out of memory.
    Memory,
}

impl From<Memory> for TableFault {
    ghost use Rattle.std.specs.Prelude.{◌≡◌};
    ghost use Rattle.ax_policy.specs.declared.table_fault.TableFault.TheVariants.{Memory as OutOfMemory};

    ghost from_gives = { λ _ fault. fault ≡ OutOfMemory };

    fn from(_: Memory) -> TableFault {
        TableFault::Memory
    }
}
