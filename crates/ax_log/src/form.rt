//! Forming a fresh store: three steps, each of which ends with its sync. Until the last of them is
//! done the root is not whole, so a crash leaves a fresh store or one that has no frames.

ghost use Rattle.std.specs.Prelude.{◌≡◌, List, ℕ, [], ◌∷◌, length, IsTrue, IfOk, OnOk};
ghost use Rattle.ax_faults.specs.Faults.{HasCause};
ghost use Rattle.ax_disk.specs.model.Pending.{all_settled};
ghost use Rattle.ax_disk.specs.model.Stays.{Stays};
ghost use Rattle.ax_area.specs.Image.{IsFresh};
ghost use Rattle.ax_log.specs.Agreement.{Agrees};
ghost use Rattle.ax_log.specs.Forming.{empty_image, fresh_slots, formed_slot, laid_image, formed_image, IsForming, IsSettledAt};
ghost use Rattle.ax_log.specs.Log.{log_slot};

use crate::log::Log;
use ax_area::{Counting, Which};
use ax_disk::{Disk, DiskFailed, Extent};
use ax_frame::write_slot;
use ax_pages::numbers::NEWEST_VERSION;

/// The byte that makes a root whole.
const LAST_BYTE: u8 = b'E';

/// Forms a store that has no frames where there is a fresh one.
pub(crate) fn form<D: Disk>(disk: &mut D) -> Result<Log, DiskFailed>
    requires settled { IsTrue (D.is_honest disk.old)
        → (D.history disk.old (D.attached disk.old)).unsynced ≡ all_settled (D.history disk.old (D.attached disk.old)).reads }
    requires fresh { IsTrue (D.is_honest disk.old) → IsFresh (D.history disk.old (D.attached disk.old)).reads }
    ensures agrees { IsTrue (D.is_honest disk.old)
        → IfOk result (λ log. Agrees log [] (D.history disk.new (D.attached disk.new))) }
    ensures slot { IfOk result (λ log. log_slot log ≡ formed_slot) }
    ensures formed { IsTrue (D.is_honest disk.old)
        → OnOk result ((D.history disk.new (D.attached disk.new)).reads ≡ formed_image) }
    ensures any_moment { IsTrue (D.is_honest disk.old)
        → Stays (D.history disk.old (D.attached disk.old)) (D.history disk.new (D.attached disk.new)) IsForming }
    ensures cause { HasCause result (D.faults disk.old) (D.faults disk.new) }
    ensures uncounted { OnOk result (D.faults disk.new ≡ D.faults disk.old) }
    ensures attached { D.attached disk.new ≡ D.attached disk.old }
    ensures honest { D.is_honest disk.new ≡ D.is_honest disk.old }
{
    clear(disk)?;
    lay_out(disk)?;
    complete_root(disk)?;
    Ok(Log {
        slot: Counting {
            which: Which::First,
            version: NEWEST_VERSION,
            area: Extent::A,
            generation: 1,
        },
        end: 0,
    })
}

/// Empties the three lists of a fresh store.
fn clear<D: Disk>(disk: &mut D) -> Result<(), DiskFailed>
    requires settled { IsTrue (D.is_honest disk.old)
        → (D.history disk.old (D.attached disk.old)).unsynced ≡ all_settled (D.history disk.old (D.attached disk.old)).reads }
    requires fresh { IsTrue (D.is_honest disk.old) → IsFresh (D.history disk.old (D.attached disk.old)).reads }
    ensures empty { IsTrue (D.is_honest disk.old) → OnOk result (IsSettledAt empty_image (D.history disk.new (D.attached disk.new))) }
    ensures any_moment { IsTrue (D.is_honest disk.old)
        → Stays (D.history disk.old (D.attached disk.old)) (D.history disk.new (D.attached disk.new)) IsFresh }
    ensures cause { HasCause result (D.faults disk.old) (D.faults disk.new) }
    ensures uncounted { OnOk result (D.faults disk.new ≡ D.faults disk.old) }
    ensures attached { D.attached disk.new ≡ D.attached disk.old }
    ensures honest { D.is_honest disk.new ≡ D.is_honest disk.old }
{
    disk.cut(Extent::Root, 0)?;
    disk.cut(Extent::A, 0)?;
    disk.cut(Extent::B, 0)?;
    disk.sync()
}

/// Writes a closed gate into area A and the slots of the root, which is not whole by them.
fn lay_out<D: Disk>(disk: &mut D) -> Result<(), DiskFailed>
    requires empty { IsTrue (D.is_honest disk.old) → IsSettledAt empty_image (D.history disk.old (D.attached disk.old)) }
    ensures laid { IsTrue (D.is_honest disk.old) → OnOk result (IsSettledAt laid_image (D.history disk.new (D.attached disk.new))) }
    ensures any_moment { IsTrue (D.is_honest disk.old)
        → Stays (D.history disk.old (D.attached disk.old)) (D.history disk.new (D.attached disk.new)) IsFresh }
    ensures cause { HasCause result (D.faults disk.old) (D.faults disk.new) }
    ensures uncounted { OnOk result (D.faults disk.new ≡ D.faults disk.old) }
    ensures attached { D.attached disk.new ≡ D.attached disk.old }
    ensures honest { D.is_honest disk.new ≡ D.is_honest disk.old }
{
    disk.write_at(Extent::A, 0, &[0])?;
    disk.write_at(Extent::Root, 0, &first_slots())?;
    disk.sync()
}

/// The slots of a new root: area A counts with generation 1, and the second slot is closed.
fn first_slots() -> [u8; 32]
    ensures { result ≡ fresh_slots }
{
    let mut slots = [0; 32];
    slots[..16].copy_from_slice(&write_slot(NEWEST_VERSION, 1, 1));
    slots
}

/// Makes the root whole by its last byte.
fn complete_root<D: Disk>(disk: &mut D) -> Result<(), DiskFailed>
    requires laid { IsTrue (D.is_honest disk.old) → IsSettledAt laid_image (D.history disk.old (D.attached disk.old)) }
    ensures formed { IsTrue (D.is_honest disk.old) → OnOk result (IsSettledAt formed_image (D.history disk.new (D.attached disk.new))) }
    ensures any_moment { IsTrue (D.is_honest disk.old)
        → Stays (D.history disk.old (D.attached disk.old)) (D.history disk.new (D.attached disk.new)) IsForming }
    ensures cause { HasCause result (D.faults disk.old) (D.faults disk.new) }
    ensures uncounted { OnOk result (D.faults disk.new ≡ D.faults disk.old) }
    ensures attached { D.attached disk.new ≡ D.attached disk.old }
    ensures honest { D.is_honest disk.new ≡ D.is_honest disk.old }
{
    disk.write_at(Extent::Root, 32, &[LAST_BYTE])?;
    disk.sync()
}
