//! A commit: one frame more.

ghost use Rattle.std.specs.Prelude.{◌≡◌, ◌≢◌, ◌+◌, ◌^◌, ◌<◌, ◌≤◌, List, ℕ, ◌++◌, [], ◌∷◌, length, IsTrue, IfErr, OnOk, OnErr};
ghost use Rattle.ax_faults.specs.Faults.{HasCause};
ghost use Rattle.ax_disk.specs.declared.extent.Extent.TheVariants.{Root};
ghost use Rattle.ax_disk.specs.model.Image.{list_of};
ghost use Rattle.ax_disk.specs.model.Pending.{all_settled};
ghost use Rattle.ax_disk.specs.model.Stays.{Rests, Stays, Turns};
ghost use Rattle.ax_pages.specs.Area.{frames_bytes};
ghost use Rattle.ax_area.specs.Image.{IsLive};
ghost use Rattle.ax_log.specs.Log.{log_slot, log_end};
ghost use Rattle.ax_log.specs.Agreement.{HasLog, Agrees};
ghost use Rattle.ax_log.specs.Commit.{IsCommitSpelling, IsStaged, IsReady};

use crate::fault::LogFault;
use crate::log::Log;
use ax_disk::{Disk, DiskFailed, Extent};
use ax_pages::numbers::NEWEST_VERSION;

impl Log {
    /// Puts one frame behind the others. `frame` is what `ax_frame::write_frame` gives.
    ///
    /// At Ok the frame is durable. At an error, which is only of the disk, the store has the frame or
    /// has it not, and the log is to be opened again. It takes no memory.
    pub fn commit<D: Disk>(&mut self, disk: &mut D, frame: &[u8]) -> Result<(), LogFault>
        requires agrees { IsTrue (D.is_honest disk.old)
            → (frames : List (List ℕ)) × Agrees self.old frames (D.history disk.old (D.attached disk.old)) }
        requires frame { (span : List ℕ) × IsCommitSpelling frame.now span }

        ensures acknowledged { IsTrue (D.is_honest disk.old) → (frames : List (List ℕ)) → (span : List ℕ)
            → Agrees self.old frames (D.history disk.old (D.attached disk.old)) → IsCommitSpelling frame.now span
            → OnOk result (Agrees self.new (frames ++ span ∷ []) (D.history disk.new (D.attached disk.new))) }

        // A crash at any moment of the call, and after it, leaves the slot, and the frames before it or with the one more.
        ensures any_moment { IsTrue (D.is_honest disk.old) → (frames : List (List ℕ)) → (span : List ℕ)
            → Agrees self.old frames (D.history disk.old (D.attached disk.old)) → IsCommitSpelling frame.now span
            → Turns (D.history disk.old (D.attached disk.old)) (D.history disk.new (D.attached disk.new))
            (IsLive NEWEST_VERSION (log_slot self.old) frames) (IsLive NEWEST_VERSION (log_slot self.old) (frames ++ span ∷ [])) }

        ensures slot { log_slot self.new ≡ log_slot self.old }
        ensures end { OnOk result (log_end self.new ≡ log_end self.old + length frame.now) }
        ensures end_stays { OnErr result (log_end self.new ≡ log_end self.old) }
        ensures disk_alone { IfErr result (λ fault. fault ≡ LogFault.Disk) }
        ensures cause { HasCause result (D.faults disk.old) (D.faults disk.new) }
        ensures uncounted { OnOk result (D.faults disk.new ≡ D.faults disk.old) }
        ensures attached { D.attached disk.new ≡ D.attached disk.old }
        ensures honest { D.is_honest disk.new ≡ D.is_honest disk.old }
    {
        let Ok(()) = write_behind(disk, self.slot.area, self.end, frame) else {
            return Err(LogFault::Disk);
        };
        let Ok(()) = open_gate(disk, self.slot.area, self.end) else {
            return Err(LogFault::Disk);
        };
        self.end += frame.len() as u64;
        Ok(())
    }
}

/// Writes the text of a frame behind the closed gate at `end`, and syncs it. The gate stays closed.
fn write_behind<D: Disk>(
    disk: &mut D,
    area: Extent,
    end: u64,
    frame: &[u8],
) -> Result<(), DiskFailed>
    requires small { end ≤ 2 ^ 62 }
    requires within { IsTrue (D.is_honest disk.old)
        → end < length (list_of area (D.history disk.old (D.attached disk.old)).reads) }

    ensures any_moment { IsTrue (D.is_honest disk.old) → (root : List ℕ) → (frames : List (List ℕ))
        → area ≢ Root → end ≡ length (frames_bytes frames)
        → Rests (D.history disk.old (D.attached disk.old)) (HasLog root area frames)
        → Stays (D.history disk.old (D.attached disk.old)) (D.history disk.new (D.attached disk.new)) (HasLog root area frames) }
    ensures staged { IsTrue (D.is_honest disk.old)
        → OnOk result (IsStaged area end frame.now (D.history disk.old (D.attached disk.old)) (D.history disk.new (D.attached disk.new))) }
    ensures limit { OnOk result (end + 1 + length frame.now ≤ 2 ^ 62) }
    ensures cause { HasCause result (D.faults disk.old) (D.faults disk.new) }
    ensures uncounted { OnOk result (D.faults disk.new ≡ D.faults disk.old) }
    ensures attached { D.attached disk.new ≡ D.attached disk.old }
    ensures honest { D.is_honest disk.new ≡ D.is_honest disk.old }
{
    disk.write_at(area, end + 1, frame)?;
    disk.sync()
}

/// Opens the gate at `end` of an area that is synced, and syncs it.
fn open_gate<D: Disk>(disk: &mut D, area: Extent, end: u64) -> Result<(), DiskFailed>
    requires within { IsTrue (D.is_honest disk.old)
        → end < length (list_of area (D.history disk.old (D.attached disk.old)).reads) }

    ensures any_moment { IsTrue (D.is_honest disk.old) → (frames : List (List ℕ)) → (span : List ℕ)
        → area ≢ Root → end ≡ length (frames_bytes frames)
        → (D.history disk.old (D.attached disk.old)).unsynced ≡ all_settled (D.history disk.old (D.attached disk.old)).reads
        → IsReady (list_of area (D.history disk.old (D.attached disk.old)).reads) frames span
        → Turns (D.history disk.old (D.attached disk.old)) (D.history disk.new (D.attached disk.new))
        (HasLog (D.history disk.old (D.attached disk.old)).reads.root area frames)
        (HasLog (D.history disk.old (D.attached disk.old)).reads.root area (frames ++ span ∷ [])) }
    ensures opened { IsTrue (D.is_honest disk.old) → (frames : List (List ℕ)) → (span : List ℕ)
        → area ≢ Root → end ≡ length (frames_bytes frames)
        → IsReady (list_of area (D.history disk.old (D.attached disk.old)).reads) frames span
        → OnOk result (Rests (D.history disk.new (D.attached disk.new))
        (HasLog (D.history disk.old (D.attached disk.old)).reads.root area (frames ++ span ∷ []))) }
    ensures root { IsTrue (D.is_honest disk.old) → area ≢ Root
        → OnOk result ((D.history disk.new (D.attached disk.new)).reads.root ≡ (D.history disk.old (D.attached disk.old)).reads.root) }
    ensures cause { HasCause result (D.faults disk.old) (D.faults disk.new) }
    ensures uncounted { OnOk result (D.faults disk.new ≡ D.faults disk.old) }
    ensures attached { D.attached disk.new ≡ D.attached disk.old }
    ensures honest { D.is_honest disk.new ≡ D.is_honest disk.old }
{
    disk.write_at(area, end, &[1])?;
    disk.sync()
}
