//! A batch that is no plan of term pages is committed.

ghost use Rattle.std.specs.Prelude.{◌≡◌, ◌≢◌, ◌≤◌, [], ℕ, List, Some, Err, IsTrue, IfErr, OnOk, OnErr, false};
ghost use Rattle.ax_area.specs.Changes.{Change};
ghost use Rattle.ax_area.specs.Contents.{Contents, after_changes};
ghost use Rattle.ax_area.specs.Image.{Says};
ghost use Rattle.ax_area.specs.Parts.{after_parts, changes_said};
ghost use Rattle.ax_area.specs.Told.{Told};
ghost use Rattle.ax_disk.specs.model.Calls.{Idles};
ghost use Rattle.ax_disk.specs.model.Stays.{Rests, Turns};
ghost use Rattle.ax_image.specs.Readable.{newest};
ghost use Rattle.ax_index.specs.Damage.{FailsBy};
ghost use Rattle.ax_index.specs.Plans.{HasNoDeltas};
ghost use Rattle.ax_store.specs.Batch.{AreAllowed, batch_parts};
ghost use Rattle.ax_store.specs.Faults.{HasDiskCause};
ghost use Rattle.ax_store.specs.Store.{AgreesUnlessFailed, SaysMore, store_area, store_contents, store_failed, store_slots};
ghost use Rattle.ax_write.specs.Committed.{IsBrief};

use ax_cache::PageCache;
use ax_disk::Disk;
use ax_store::{Batch, Store, StoreFault};
use std::alloc::Global;

/// Seals a batch, makes room for its parts and commits it. `Memory` where there is no room for them or for the frame; nothing
/// has changed then but the room.
pub(crate) fn seal_and_commit<D: Disk, C: PageCache>(
    alloc: Global,
    store: &mut Store<C>,
    disk: &mut D,
    batch: Batch,
) -> Result<(), StoreFault>
    requires agrees { AgreesUnlessFailed C.pages (D.is_honest disk.old) store.old (D.history disk.old (D.attached disk.old)) }
    requires some { batch_parts batch ≢ [] }
    requires none { HasNoDeltas (batch_parts batch) }
    requires within { AreAllowed (batch_parts batch) (store_contents store.old) }
    ensures ok { OnOk result (after_parts (batch_parts batch) (store_contents store.old) ≡ Some (store_contents store.new)) }
    ensures kept { OnErr result (store_contents store.new ≡ store_contents store.old) }

    // A crash at any moment of the call, and after it, leaves what was told before it and those contents; or behind it
    // the changes of the batch, and the contents to which they lead.
    ensures any_moment { IsTrue (D.is_honest disk.old) → store_failed store.old ≡ false
        → (version : ℕ) → (told : List Told) → (changes : List Change) → (new : Contents)
        → Says newest version told (store_contents store.old) (D.history disk.old (D.attached disk.old)).reads
        → changes_said (batch_parts batch) ≡ Some changes
        → after_changes changes (store_contents store.old) ≡ Some new
        → Turns (D.history disk.old (D.attached disk.old)) (D.history disk.new (D.attached disk.new))
        (Says newest version told (store_contents store.old)) (SaysMore version told changes new) }

    // Once it has answered Ok the changes are told.
    ensures told { IsTrue (D.is_honest disk.old) → store_failed store.old ≡ false
        → (version : ℕ) → (told : List Told) → (changes : List Change) → (new : Contents)
        → Says newest version told (store_contents store.old) (D.history disk.old (D.attached disk.old)).reads
        → changes_said (batch_parts batch) ≡ Some changes
        → after_changes changes (store_contents store.old) ≡ Some new
        → OnOk result (Rests (D.history disk.new (D.attached disk.new)) (SaysMore version told changes new)) }
    ensures untouched { IsTrue (D.is_honest disk.old) → result ≡ Err StoreFault.Memory
        → Idles (D.history disk.old (D.attached disk.old)) (D.history disk.new (D.attached disk.new)) }
    ensures only { IfErr result IsBrief }
    ensures fails { FailsBy result (store_failed store.old) (store_failed store.new) }
    ensures agrees { AgreesUnlessFailed C.pages (D.is_honest disk.old) store.new (D.history disk.new (D.attached disk.new)) }
    ensures slots { store_slots store.new ≡ store_slots store.old }
    ensures area { store_area store.new ≡ store_area store.old }
    ensures cause { store_failed store.old ≡ false → HasDiskCause result (D.faults disk.old) (D.faults disk.new) }
    ensures never_falls { D.faults disk.old ≤ D.faults disk.new }
    ensures attached { D.attached disk.new ≡ D.attached disk.old }
    ensures honest { D.is_honest disk.new ≡ D.is_honest disk.old }
{
    let Ok(batch) = batch.seal(alloc) else {
        return Err(StoreFault::Memory);
    };
    let Ok(()) = store.reserve(batch.parts()) else {
        return Err(StoreFault::Memory);
    };
    store.commit(disk, batch)
}
