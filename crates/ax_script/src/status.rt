ghost use Rattle.std.specs.Prelude.{◌≡◌, ◌++◌, IfOk, string_bytes, codes, decimal};

use ax_tree::Memory;
use std::alloc::Global;

/// How a run ended.
#[derive(Clone, Copy, Debug, PartialEq, Eq)]
pub enum Status {
    /// All input was read and served.
    Done,
    /// The words are not `run STORE`.
    Words,
    /// A call on the disk failed.
    DiskFault,
    /// A read of the source failed.
    ReadFault,
    /// A write of the sink failed.
    WriteFault,
    /// The store's bytes are outside the format.
    Damaged {
        /// The extent: 0 the root, 1 A, 2 B.
        extent: u8,
        /// The offset in that list.
        at: u64,
    },
    /// The store is of a later version than this program knows.
    Newer {
        /// That version.
        version: u16,
    },
    /// Out of memory outside the serving of a line.
    Memory,
    /// The input has more than 2^40 bytes.
    Long,
}

impl Status {
    ghost use Rattle.ax_script.specs.Statuses.{code_of, text_of};

    /// The exit code of the program.
    pub fn code(&self) -> u8
        ensures { result ≡ code_of self.now }
    {
        match self {
            Status::Done => 0,
            Status::Words => 2,
            Status::DiskFault => 3,
            Status::ReadFault => 4,
            Status::WriteFault => 5,
            Status::Damaged { .. } => 6,
            Status::Newer { .. } => 7,
            Status::Memory => 8,
            Status::Long => 10,
        }
    }

    /// What the program writes on standard error: empty at `Done`.
    pub fn text(&self, alloc: Global) -> Result<String, Memory>
        ensures { IfOk result (λ text. string_bytes text ≡ text_of self.now) }
    {
        match self {
            Status::Done => plain(alloc, ""),
            Status::Words => plain(alloc, "words"),
            Status::DiskFault => plain(alloc, "disk fault"),
            Status::ReadFault => plain(alloc, "read fault"),
            Status::WriteFault => plain(alloc, "write fault"),
            Status::Damaged { extent, at } => damaged(alloc, *extent, *at),
            Status::Newer { version } => newer(alloc, *version),
            Status::Memory => plain(alloc, "memory"),
            Status::Long => plain(alloc, "long"),
        }
    }
}

fn plain(alloc: Global, text: &str) -> Result<String, Memory>
    ensures { IfOk result (λ made. string_bytes made ≡ text.now) }
{
    Ok(String::from_str(alloc, text)?)
}

fn damaged(alloc: Global, extent: u8, at: u64) -> Result<String, Memory>
    ensures { IfOk result (λ made. string_bytes made
        ≡ codes "damaged " ++ decimal extent ++ codes " " ++ decimal at) }
{
    Ok(format!(in alloc; "damaged {extent} {at}")?)
}

fn newer(alloc: Global, version: u16) -> Result<String, Memory>
    ensures { IfOk result (λ made. string_bytes made ≡ codes "newer " ++ decimal version) }
{
    Ok(format!(in alloc; "newer {version}")?)
}
