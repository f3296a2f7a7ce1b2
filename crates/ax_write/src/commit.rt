//! A batch of documents is committed with the changes of the index behind them.

ghost use Rattle.std.specs.Prelude.{◌≡◌, ◌≢◌, ◌≤◌, [], ℕ, List, Some, Err, IsTrue, IfErr, OnOk, OnErr, false, length};
ghost use Rattle.std.specs.List.{AllByRecursion};
ghost use Rattle.ax_area.specs.Changes.{Change};
ghost use Rattle.ax_area.specs.Contents.{Contents, after_changes};
ghost use Rattle.ax_area.specs.Image.{Says};
ghost use Rattle.ax_area.specs.Parts.{after_parts, changes_said};
ghost use Rattle.ax_area.specs.Told.{Told};
ghost use Rattle.ax_delta.specs.Changes.{changed_pairs};
ghost use Rattle.ax_disk.specs.model.Calls.{Idles};
ghost use Rattle.ax_disk.specs.model.Stays.{Rests, Stays, Turns};
ghost use Rattle.ax_image.specs.Readable.{SaysReadable, newest};
ghost use Rattle.ax_image_grammar.specs.Payloads.{IsReadable};
ghost use Rattle.ax_index.specs.Damage.{FailsBy, TellsPart};
ghost use Rattle.ax_index.specs.DeltaSizes.{HaveShortTerms};
ghost use Rattle.ax_index.specs.Plans.{HasNoDeltas};
ghost use Rattle.ax_index.specs.Reads.{KeepsTaken};
ghost use Rattle.ax_pair.specs.Order.{Rise};
ghost use Rattle.ax_pairs.specs.Index.{IsIndex};
ghost use Rattle.ax_pairs.specs.PairSets.{PairSet};
ghost use Rattle.ax_pool.specs.Frames.{free_count};
ghost use Rattle.ax_store.specs.Batch.{AreAllowed, batch_parts};
ghost use Rattle.ax_store.specs.Faults.{HasDiskCause};
ghost use Rattle.ax_store.specs.Kept.{deltas_of};
ghost use Rattle.ax_store.specs.Store.{AgreesUnlessFailed, SaysMore, store_area, store_contents, store_failed, store_room, store_slots, store_spare};
ghost use Rattle.ax_write.specs.Committed.{IdlesUnlessDisk, IsBrief, LeadWith, LeaveTerms, SaysWith};
ghost use Rattle.ax_write.specs.Small.{IsPlanned};

use ax_cache::PageCache;
use ax_disk::Disk;
use ax_index::{Change as PairChange, plan_changes};
use ax_store::{Batch, Store, StoreFault};
use std::alloc::Global;

/// Puts parts behind those of a batch that make rising changes of the index, and commits it. The parts of the
/// batch may follow the store's contents, and none is of a term page.
///
/// `Damaged` where a part of a term page that a plan reads is outside its grammar, with its place. `Memory` where
/// there is no room for the plan or the frame. The contents are then as before, and so they are after `Disk`,
/// where a call of the disk failed; the store has then failed.
pub fn plan_and_commit<D: Disk, C: PageCache>(
    alloc: Global,
    store: &mut Store<C>,
    disk: &mut D,
    changes: &[PairChange],
    batch: Batch,
) -> Result<(), StoreFault>
    requires rise { Rise (changed_pairs changes.now) }
    requires short { HaveShortTerms changes.now }
    requires slots { 2 ≤ free_count (store_slots store.old) }
    requires agrees { AgreesUnlessFailed C.pages (D.is_honest disk.old) store.old (D.history disk.old (D.attached disk.old)) }
    requires some { batch_parts batch ≢ [] }
    requires none { HasNoDeltas (batch_parts batch) }
    requires beside { LeaveTerms (batch_parts batch) (store_contents store.old) }
    ensures made { (front : List Change) → changes_said (batch_parts batch) ≡ Some front
        → OnOk result (LeadWith (D.is_honest disk.old) changes.now front (store_contents store.old) (store_contents store.new)) }
    ensures planned { OnOk result (IsPlanned (D.is_honest disk.old) changes.now (batch_parts batch) (store_contents store.old) (store_contents store.new)) }
    ensures kept { OnErr result (store_contents store.new ≡ store_contents store.old) }

    // A crash at any moment of the call, and after it, leaves what was told before it and those contents; or behind it
    // the changes of the batch, and such of the index as make those of the pairs.
    ensures any_moment { IsTrue (D.is_honest disk.old) → store_failed store.old ≡ false
        → (version : ℕ) → (told : List Told) → (front : List Change)
        → Says newest version told (store_contents store.old) (D.history disk.old (D.attached disk.old)).reads
        → changes_said (batch_parts batch) ≡ Some front
        → Turns (D.history disk.old (D.attached disk.old)) (D.history disk.new (D.attached disk.new))
        (Says newest version told (store_contents store.old)) (SaysWith version told changes.now front (store_contents store.old)) }

    // Once it has answered Ok these are told.
    ensures told { IsTrue (D.is_honest disk.old) → store_failed store.old ≡ false
        → (version : ℕ) → (told : List Told) → (front : List Change)
        → Says newest version told (store_contents store.old) (D.history disk.old (D.attached disk.old)).reads
        → changes_said (batch_parts batch) ≡ Some front
        → OnOk result (Rests (D.history disk.new (D.attached disk.new)) (SaysWith version told changes.now front (store_contents store.old))) }

    // Unless it is the disk that failed, no list has changed where it is not Ok.
    ensures untouched { IsTrue (D.is_honest disk.old) → IfErr result (λ why. IdlesUnlessDisk why
        (D.history disk.old (D.attached disk.old)) (D.history disk.new (D.attached disk.new))) }

    // All that is told can be read, where the changes in front can and the term pages hold a set: what is put for the
    // index is in its grammar.
    ensures readable { IsTrue (D.is_honest disk.old) → store_failed store.old ≡ false
        → (front : List Change) → (set : PairSet) → changes_said (batch_parts batch) ≡ Some front
        → AllByRecursion (IsReadable newest) front → IsIndex (store_contents store.old).terms set
        → Rests (D.history disk.old (D.attached disk.old)) SaysReadable
        → Stays (D.history disk.old (D.attached disk.old)) (D.history disk.new (D.attached disk.new)) SaysReadable }
    ensures damage { IsTrue (D.is_honest disk.old) → IfErr result (TellsPart store.old) }
    ensures fails { FailsBy result (store_failed store.old) (store_failed store.new) }
    ensures agrees { AgreesUnlessFailed C.pages (D.is_honest disk.old) store.new (D.history disk.new (D.attached disk.new)) }
    ensures slots { (store_slots store.new).taken ≡ (store_slots store.old).taken }
    ensures others { KeepsTaken (store_slots store.old) (store_slots store.new) }
    ensures area { store_area store.new ≡ store_area store.old }
    ensures cause { store_failed store.old ≡ false → HasDiskCause result (D.faults disk.old) (D.faults disk.new) }
    ensures never_falls { D.faults disk.old ≤ D.faults disk.new }
    ensures attached { D.attached disk.new ≡ D.attached disk.old }
    ensures honest { D.is_honest disk.new ≡ D.is_honest disk.old }
{
    let mut batch = batch;
    match plan_changes(alloc, store, disk, changes, &mut batch) {
        Ok(_merged) => seal_and_commit(alloc, store, disk, batch),
        Err(fault) => Err(fault),
    }
}

/// Seals a batch and commits it. `Memory` where there is no room for its frame; nothing has changed then.
fn seal_and_commit<D: Disk, C: PageCache>(
    alloc: Global,
    store: &mut Store<C>,
    disk: &mut D,
    batch: Batch,
) -> Result<(), StoreFault>
    requires agrees { AgreesUnlessFailed C.pages (D.is_honest disk.old) store.old (D.history disk.old (D.attached disk.old)) }
    requires some { batch_parts batch ≢ [] }
    requires room { length (batch_parts batch) ≤ store_spare store.old }
    requires deltas { (number : ℕ) → deltas_of number (batch_parts batch) ≤ store_room number store.old }
    requires within { AreAllowed (batch_parts batch) (store_contents store.old) }
    ensures ok { OnOk result (after_parts (batch_parts batch) (store_contents store.old) ≡ Some (store_contents store.new)) }
    ensures kept { OnErr result (store_contents store.new ≡ store_contents store.old) }
    ensures any_moment { IsTrue (D.is_honest disk.old) → store_failed store.old ≡ false
        → (version : ℕ) → (told : List Told) → (changes : List Change) → (new : Contents)
        → Says newest version told (store_contents store.old) (D.history disk.old (D.attached disk.old)).reads
        → changes_said (batch_parts batch) ≡ Some changes
        → after_changes changes (store_contents store.old) ≡ Some new
        → Turns (D.history disk.old (D.attached disk.old)) (D.history disk.new (D.attached disk.new))
        (Says newest version told (store_contents store.old)) (SaysMore version told changes new) }
    ensures told { IsTrue (D.is_honest disk.old) → store_failed store.old ≡ false
        → (version : ℕ) → (told : List Told) → (changes : List Change) → (new : Contents)
        → Says newest version told (store_contents store.old) (D.history disk.old (D.attached disk.old)).reads
        → changes_said (batch_parts batch) ≡ Some changes
        → after_changes changes (store_contents store.old) ≡ Some new
        → OnOk result (Rests (D.history disk.new (D.attached disk.new)) (SaysMore version told changes new)) }
    ensures untouched { IsTrue (D.is_honest disk.old) → result ≡ Err StoreFault.Memory
        → Idles (D.history disk.old (D.attached disk.old)) (D.history disk.new (D.attached disk.new)) }
    ensures only { IfErr result IsBrief }
    ensures fails { FailsBy result (store_failed store.old) (store_failed store.new) }
    ensures agrees { AgreesUnlessFailed C.pages (D.is_honest disk.old) store.new (D.history disk.new (D.attached disk.new)) }
    ensures slots { store_slots store.new ≡ store_slots store.old }
    ensures area { store_area store.new ≡ store_area store.old }
    ensures cause { store_failed store.old ≡ false → HasDiskCause result (D.faults disk.old) (D.faults disk.new) }
    ensures never_falls { D.faults disk.old ≤ D.faults disk.new }
    ensures attached { D.attached disk.new ≡ D.attached disk.old }
    ensures honest { D.is_honest disk.new ≡ D.is_honest disk.old }
{
    let Ok(batch) = batch.seal(alloc) else {
        return Err(StoreFault::Memory);
    };
    store.commit(disk, batch)
}
