//! Opening a log: the frames that a crash left are found, or a fresh store is formed.

ghost use Rattle.std.specs.Prelude.{◌≡◌, ◌^◌, ◌≤◌, ℕ, List, [], IsTrue, IfOk, OnOk};
ghost use Rattle.ax_disk.specs.declared.extent.Extent.TheVariants.{Root};
ghost use Rattle.ax_disk.specs.model.Pending.{all_settled};
ghost use Rattle.ax_disk.specs.model.Calls.{Idles};
ghost use Rattle.ax_disk.specs.model.Stays.{Stays, SinceBarrier};
ghost use Rattle.ax_area.specs.Root.{IsRoot, IsKnown, slot_offset};
ghost use Rattle.ax_area.specs.declared.root.RootChoice.TheVariants.{Counts};
ghost use Rattle.ax_area.specs.Image.{IsFresh, IsBrokenImage, IsNewer, HasFrames};
ghost use Rattle.ax_pages.specs.Area.{extent_number};
ghost use Rattle.ax_log.specs.Faults.{FailsOtherwise, HasDiskCause};
ghost use Rattle.ax_log.specs.Forming.{IsForming};
ghost use Rattle.ax_log.specs.Opening.{Tells, IsAnswer, IsAnswerUnlessDisk, Keeps};

use crate::fault::LogFault;
use crate::form::form;
use crate::log::Log;
use crate::root::read_root;
use crate::walk::frames_end;
use ax_area::{Counting, Judgement, RootChoice, Which, judge};
use ax_disk::{Disk, Extent};
use ax_pages::numbers::NEWEST_VERSION;
use std::alloc::Global;

impl Log {
    /// Opens the log of the store attached, or forms one where the store is fresh.
    ///
    /// It begins with a sync, the barrier: until that succeeds a crash leaves what it might have left
    /// before, and from then on the frames that reads gave. `Damaged` and `Newer` are answered where
    /// the store is so, and leave it as it was; so does `Memory`.
    pub fn open_log<D: Disk>(alloc: Global, disk: &mut D) -> Result<Log, LogFault>
        ensures tells { IsTrue (D.is_honest disk.old)
            → Tells result (D.history disk.old (D.attached disk.old)).reads (D.history disk.new (D.attached disk.new)) }

        // Wherever the store is damaged, or of a later version, that is the answer. Memory is used only where an
        // area is read.
        ensures damaged { IsTrue (D.is_honest disk.old) → (ext : Extent) → (at : ℕ)
            → IsBrokenImage NEWEST_VERSION (D.history disk.old (D.attached disk.old)).reads ext at
            → IsAnswer (LogFault.Damaged (extent_number ext) at) result }
        ensures damaged_root { IsTrue (D.is_honest disk.old) → (at : ℕ)
            → IsBrokenImage NEWEST_VERSION (D.history disk.old (D.attached disk.old)).reads Root at
            → IsAnswerUnlessDisk (LogFault.Damaged (extent_number Root) at) result }
        ensures newer { IsTrue (D.is_honest disk.old) → (version : ℕ)
            → IsNewer NEWEST_VERSION version (D.history disk.old (D.attached disk.old)).reads
            → IsAnswerUnlessDisk (LogFault.Newer version) result }

        // Only a fresh store is changed, and no store where the answer is an error other than of the disk.
        ensures unchanged { IsTrue (D.is_honest disk.old)
            → (IsFresh (D.history disk.old (D.attached disk.old)).reads → ⊥)
            → Keeps (D.history disk.old (D.attached disk.old)) (D.history disk.new (D.attached disk.new)) }
        ensures refused { IsTrue (D.is_honest disk.old) → FailsOtherwise result
            → Keeps (D.history disk.old (D.attached disk.old)) (D.history disk.new (D.attached disk.new)) }

        // A crash at any moment since the barrier, and after the call, leaves the frames that were there.
        ensures any_moment { IsTrue (D.is_honest disk.old) → (frames : List (List ℕ))
            → HasFrames NEWEST_VERSION frames (D.history disk.old (D.attached disk.old)).reads
            → SinceBarrier (D.history disk.old (D.attached disk.old)) (D.history disk.new (D.attached disk.new)) (HasFrames NEWEST_VERSION frames) }

        // Where a fresh store is formed a crash leaves a fresh one, or the one that is formed.
        ensures forming { IsTrue (D.is_honest disk.old) → IsFresh (D.history disk.old (D.attached disk.old)).reads
            → SinceBarrier (D.history disk.old (D.attached disk.old)) (D.history disk.new (D.attached disk.new)) IsForming }

        ensures cause { HasDiskCause result (D.faults disk.old) (D.faults disk.new) }
        ensures attached { D.attached disk.new ≡ D.attached disk.old }
        ensures honest { D.is_honest disk.new ≡ D.is_honest disk.old }
    {
        let Ok(()) = disk.sync() else {
            return Err(LogFault::Disk);
        };
        recover(alloc, disk)
    }
}

/// Finds the log of a store all of which is synced, or forms it.
fn recover<D: Disk>(alloc: Global, disk: &mut D) -> Result<Log, LogFault>
    requires settled { IsTrue (D.is_honest disk.old)
        → (D.history disk.old (D.attached disk.old)).unsynced ≡ all_settled (D.history disk.old (D.attached disk.old)).reads }
    ensures tells { IsTrue (D.is_honest disk.old)
        → Tells result (D.history disk.old (D.attached disk.old)).reads (D.history disk.new (D.attached disk.new)) }
    ensures unchanged { IsTrue (D.is_honest disk.old)
        → (IsFresh (D.history disk.old (D.attached disk.old)).reads → ⊥)
        → Idles (D.history disk.old (D.attached disk.old)) (D.history disk.new (D.attached disk.new)) }
    ensures refused { IsTrue (D.is_honest disk.old) → FailsOtherwise result
        → Idles (D.history disk.old (D.attached disk.old)) (D.history disk.new (D.attached disk.new)) }
    ensures any_moment { IsTrue (D.is_honest disk.old) → (frames : List (List ℕ))
        → HasFrames NEWEST_VERSION frames (D.history disk.old (D.attached disk.old)).reads
        → Stays (D.history disk.old (D.attached disk.old)) (D.history disk.new (D.attached disk.new)) (HasFrames NEWEST_VERSION frames) }
    ensures forming { IsTrue (D.is_honest disk.old) → IsFresh (D.history disk.old (D.attached disk.old)).reads
        → Stays (D.history disk.old (D.attached disk.old)) (D.history disk.new (D.attached disk.new)) IsForming }
    ensures cause { HasDiskCause result (D.faults disk.old) (D.faults disk.new) }
    ensures attached { D.attached disk.new ≡ D.attached disk.old }
    ensures honest { D.is_honest disk.new ≡ D.is_honest disk.old }
{
    let Ok(choice) = read_root(disk) else {
        return Err(LogFault::Disk);
    };
    match choice {
        RootChoice::Fresh => form_log(disk),
        RootChoice::Damaged { at } => Err(LogFault::Damaged { extent: 0, at }),
        RootChoice::Counts(slot) => match judge(NEWEST_VERSION, slot) {
            Judgement::Newer => Err(LogFault::Newer {
                version: slot.version,
            }),
            Judgement::Worn => Err(LogFault::Damaged {
                extent: 0,
                at: offset_of(slot.which),
            }),
            Judgement::Known => find_log(alloc, disk, slot),
        },
    }
}

/// Forms the log of a fresh store all of which is synced.
fn form_log<D: Disk>(disk: &mut D) -> Result<Log, LogFault>
    requires settled { IsTrue (D.is_honest disk.old)
        → (D.history disk.old (D.attached disk.old)).unsynced ≡ all_settled (D.history disk.old (D.attached disk.old)).reads }
    requires fresh { IsTrue (D.is_honest disk.old) → IsFresh (D.history disk.old (D.attached disk.old)).reads }
    ensures tells { IsTrue (D.is_honest disk.old)
        → Tells result (D.history disk.old (D.attached disk.old)).reads (D.history disk.new (D.attached disk.new)) }
    ensures never_refused { FailsOtherwise result → ⊥ }
    ensures any_moment { IsTrue (D.is_honest disk.old)
        → Stays (D.history disk.old (D.attached disk.old)) (D.history disk.new (D.attached disk.new)) IsForming }
    ensures cause { HasDiskCause result (D.faults disk.old) (D.faults disk.new) }
    ensures attached { D.attached disk.new ≡ D.attached disk.old }
    ensures honest { D.is_honest disk.new ≡ D.is_honest disk.old }
{
    let Ok(log) = form(disk) else {
        return Err(LogFault::Disk);
    };
    Ok(log)
}

/// Where a slot stands in the root.
fn offset_of(which: Which) -> u64
    ensures { result ≡ slot_offset which }
{
    match which {
        Which::First => 0,
        Which::Second => 16,
    }
}

/// Finds the log of a live store all of which is synced: this slot counts, and its version is known.
fn find_log<D: Disk>(alloc: Global, disk: &mut D, slot: Counting) -> Result<Log, LogFault>
    requires settled { IsTrue (D.is_honest disk.old)
        → (D.history disk.old (D.attached disk.old)).unsynced ≡ all_settled (D.history disk.old (D.attached disk.old)).reads }
    requires counts { IsTrue (D.is_honest disk.old)
        → IsRoot (D.history disk.old (D.attached disk.old)).reads.root (Counts slot) }
    requires known { IsKnown NEWEST_VERSION slot }
    ensures tells { IsTrue (D.is_honest disk.old)
        → Tells result (D.history disk.old (D.attached disk.old)).reads (D.history disk.new (D.attached disk.new)) }
    ensures lists { IsTrue (D.is_honest disk.old)
        → Idles (D.history disk.old (D.attached disk.old)) (D.history disk.new (D.attached disk.new)) }
    ensures cause { HasDiskCause result (D.faults disk.old) (D.faults disk.new) }
    ensures attached { D.attached disk.new ≡ D.attached disk.old }
    ensures honest { D.is_honest disk.new ≡ D.is_honest disk.old }
{
    match frames_end(alloc, disk, slot.area) {
        Ok(end) => Ok(Log { slot, end }),
        Err(fault) => Err(fault),
    }
}
