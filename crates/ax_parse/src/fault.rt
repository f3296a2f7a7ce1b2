use ax_lex::LexFault;
use ax_mean::Memory;
use std::alloc::{AllocError, AllocFailed};

/// Why a text is no query here.
#[derive(Clone, Copy, Debug, PartialEq, Eq)]
pub enum ParseFault {
    /// No query is written by the text: it has more than 16,384 bytes, is no UTF-8, has bytes that
    /// are no token, names a parameter that is not given, has TOP, OFFSET or LIMIT with a parameter
    /// that is no number from 0 to 2^32 - 1, or is outside the grammar or the rules of scope.
    Text,
    /// Out of memory.
    Memory,
}

impl From<AllocError> for ParseFault {
    ghost use Rattle.std.specs.Prelude.{◌≡◌};
    ghost use Rattle.ax_parse.specs.declared.fault.ParseFault.TheVariants.{Memory as OutOfMemory};

    ghost from_gives = { λ _ fault. fault ≡ OutOfMemory };

    fn from(_: AllocError) -> ParseFault {
        ParseFault::Memory
    }
}

impl<T: Drop> From<AllocFailed<T>> for ParseFault {
    ghost use Rattle.std.specs.Prelude.{◌≡◌};
    ghost use Rattle.ax_parse.specs.declared.fault.ParseFault.TheVariants.{Memory as OutOfMemory};

    ghost from_gives = { λ _ fault. fault ≡ OutOfMemory };

    fn from(_: AllocFailed<T>) -> ParseFault {
        ParseFault::Memory
    }
}

impl From<Memory> for ParseFault {
    ghost use Rattle.std.specs.Prelude.{◌≡◌};
    ghost use Rattle.ax_parse.specs.declared.fault.ParseFault.TheVariants.{Memory as OutOfMemory};

    ghost from_gives = { λ _ fault. fault ≡ OutOfMemory };

    fn from(_: Memory) -> ParseFault {
        ParseFault::Memory
    }
}

impl From<LexFault> for ParseFault {
    ghost use Rattle.std.specs.Prelude.{◌≡◌};
    ghost use Rattle.ax_parse.specs.Reads.{fault_of};

    ghost from_gives = { λ old fault. fault ≡ fault_of old };

    fn from(fault: LexFault) -> ParseFault {
        match fault {
            LexFault::Text => ParseFault::Text,
            LexFault::Memory => ParseFault::Memory,
        }
    }
}
