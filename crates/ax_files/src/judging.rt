//! Whether files of a store have been lost: then nothing is made, cut or written.
ghost use Rattle.std.specs.Prelude.{◌≡◌, ◌<◌, ◌⊎◌, ◌↔◌, IsTrue, IsErr, IfErr};
ghost use Rattle.ax_files.specs.Judging.{IsFull, IsLost, Tells, root_state};

use crate::file_fault::{FileFault, RootState};
use ax_disk::Extent;
use ax_frame::RootSlot;

/// How many bytes of an area forming writes: one closed gate.
const FORMED_AREA: u64 = 1;

/// Refuses a store of which files have been lost, and answers which. `a` and `b` are the lengths of the
/// areas that are there.
pub(crate) fn judge(root: RootState, a: Option<u64>, b: Option<u64>) -> Result<(), FileFault>
    ensures refused { IsErr result ↔ IsLost root a b }
    ensures told { IfErr result (λ fault. Tells root a b fault) }
{
    match root {
        RootState::Absent | RootState::Short if is_full(a) => Err(FileFault::Rootless {
            root,
            area: Extent::A,
        }),
        RootState::Absent | RootState::Short if is_full(b) => Err(FileFault::Rootless {
            root,
            area: Extent::B,
        }),
        RootState::Absent | RootState::Short => Ok(()),
        RootState::NoSlot => Err(FileFault::Foreign),
        RootState::HasSlot if a.is_none() => Err(FileFault::Arealess { area: Extent::A }),
        RootState::HasSlot if b.is_none() => Err(FileFault::Arealess { area: Extent::B }),
        RootState::HasSlot => Ok(()),
    }
}

/// Whether an area holds more than forming writes.
fn is_full(len: Option<u64>) -> bool
    ensures { IsTrue result ↔ IsFull len }
{
    match len {
        Some(len) => len > FORMED_AREA,
        None => false,
    }
}

/// What a whole root with these slots is.
pub(crate) fn state_of(first: RootSlot, second: RootSlot) -> RootState
    ensures { result ≡ root_state first second }
{
    match (first, second) {
        (RootSlot::Closed, RootSlot::Closed) => RootState::NoSlot,
        _ => RootState::HasSlot,
    }
}
