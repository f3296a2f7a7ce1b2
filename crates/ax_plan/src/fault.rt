use ax_mean::Memory;

/// Why a query has no plan.
#[derive(Clone, Copy, Debug, PartialEq, Eq)]
pub enum PlanFault {
    /// The policy now keeps no order for the query's ORDER BY: it is of one path, which the policy does not cover, or
    /// of more, for which it offers no composite.
    NoOrder,
    /// Out of memory.
    Memory,
}

impl From<Memory> for PlanFault {
    ghost use Rattle.std.specs.Prelude.{◌≡◌};
    ghost use Rattle.ax_plan.specs.declared.fault.PlanFault.TheVariants.{Memory as OutOfMemory};

    ghost from_gives = { λ _ fault. fault ≡ OutOfMemory };

    fn from(_: Memory) -> PlanFault {
        PlanFault::Memory
    }
}
