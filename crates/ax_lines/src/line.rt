use crate::body::Body;
use crate::refusal::Refusal;
use ax_tree::{Memory, Text, Tree};

/// What a line asks for.
#[derive(Debug, Drop)]
pub enum Line {
    /// `CREATE json`: the document is created.
    Create(Tree),
    /// `UPSERT json`: the document replaces that of its id, or is created.
    Upsert(Tree),
    /// `REPLACE json`: the document replaces that of its id.
    Replace(Tree),
    /// `DELETE id`: the document of the id is deleted.
    Delete(Text),
    /// `READ id`: the document of the id.
    Read(Text),
    /// `QUERY body`: the rows that the query gives.
    Query(Body),
}

/// Why bytes were not read as a line.
#[derive(Clone, Copy, Debug, PartialEq, Eq)]
pub enum LineFault {
    /// The line is refused, by the first cause that holds of it.
    Refused(Refusal),
    /// Out of memory.
    Memory,
}

impl From<Refusal> for LineFault {
    ghost use Rattle.std.specs.Prelude.{◌≡◌};
    ghost use Rattle.ax_lines.specs.declared.line.LineFault.TheVariants.{Refused};

    ghost from_gives = { λ refusal fault. fault ≡ Refused refusal };

    fn from(refusal: Refusal) -> LineFault {
        LineFault::Refused(refusal)
    }
}

impl From<Memory> for LineFault {
    ghost use Rattle.std.specs.Prelude.{◌≡◌};
    ghost use Rattle.ax_lines.specs.declared.line.LineFault.TheVariants.{Memory as OutOfMemory};

    ghost from_gives = { λ _ fault. fault ≡ OutOfMemory };

    fn from(_: Memory) -> LineFault {
        LineFault::Memory
    }
}
