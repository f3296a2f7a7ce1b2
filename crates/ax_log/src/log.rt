//! What a log keeps in memory.

ghost use Rattle.std.specs.Prelude.{◌^◌, ◌≤◌};

use ax_area::Counting;
use ax_disk::Extent;

/// A log that was opened on a disk. It keeps no frames, only where they stand.
///
/// Until a call answers that the disk failed, the log agrees with the disk: each image that a crash
/// may leave has the log's slot and frames, with a closed gate at its end.
#[derive(Debug, Drop)]
pub struct Log {
    pub(crate) slot: Counting,
    pub(crate) end: u64,
    ghost small: { end ≤ 2 ^ 62 },
}

impl Log {
    ghost use Rattle.std.specs.Prelude.{◌≡◌};
    ghost use Rattle.ax_log.specs.Log.{log_slot, log_area, log_generation, log_end};

    /// The root slot that counts: its version, its area and its generation, and which of the two it is.
    pub fn slot(&self) -> Counting
        ensures { result ≡ log_slot self.now }
    {
        self.slot
    }

    /// The area that counts.
    pub fn area(&self) -> Extent
        ensures { result ≡ log_area self.now }
    {
        self.slot.area
    }

    /// The generation of the root slot that counts.
    pub fn generation(&self) -> u64
        ensures { result ≡ log_generation self.now }
    {
        self.slot.generation
    }

    /// The offset of the closed gate behind the last frame: how many bytes the frames take.
    pub fn end(&self) -> u64
        ensures { result ≡ log_end self.now }
    {
        self.end
    }
}
