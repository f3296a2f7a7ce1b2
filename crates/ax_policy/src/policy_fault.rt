use ax_mean::Memory;

/// Why a tree was not read as an indexing policy.
#[derive(Clone, Copy, Debug, PartialEq, Eq)]
pub enum PolicyFault {
    /// The tree is no policy: it is no map; a member has a wrong shape or another value than those
    /// that it may have; another kind of index is asked for; the mode is `consistent` and `/*` is
    /// in neither list of paths; a path is in both; there are more than 8 composites; one has fewer
    /// than 2 or more than 8 paths, or a path in it equals or begins another; or one is too long: a
    /// name above 255 bytes, an encoded path, or those of a composite together, above 1,024, the
    /// normal text above 60,000.
    Refused,
    /// Out of memory.
    Memory,
}

impl From<Memory> for PolicyFault {
    ghost use Rattle.std.specs.Prelude.{◌≡◌};
    ghost use Rattle.ax_policy.specs.declared.policy_fault.PolicyFault.TheVariants.{Memory as OutOfMemory};

    ghost from_gives = { λ _ fault. fault ≡ OutOfMemory };

    fn from(_: Memory) -> PolicyFault {
        PolicyFault::Memory
    }
}
