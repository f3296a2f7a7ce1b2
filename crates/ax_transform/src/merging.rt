//! Term pages that have deltas are merged because a user asks for it.

ghost use Rattle.std.specs.Prelude.{◌≡◌, ◌≤◌, ℕ, List, Ok, IsTrue, IfOk, false};
ghost use Rattle.ax_container.specs.Container.{Container};
ghost use Rattle.ax_policy.specs.Table.{Table};
ghost use Rattle.ax_pool.specs.Frames.{free_count};
ghost use Rattle.ax_store.specs.Store.{AgreesUnlessFailed, store_contents, store_failed, store_slots};
ghost use Rattle.ax_table.specs.TableAgrees.{TableAgrees};
ghost use Rattle.ax_transform.specs.Merges.{IsMerged, done_of};
ghost use Rattle.ax_transform.specs.Steps.{as_write};
ghost use Rattle.ax_write.specs.Writes.{HoldsAll, TellsWrite, WriteLeaves};

use crate::commit::seal_and_commit;
use ax_cache::PageCache;
use ax_disk::Disk;
use ax_index::merge_some;
use ax_store::{Batch, Store, StoreFault};
use std::alloc::Global;

/// Merges the deltas of term pages into bases, in one batch, and answers of how many pages: as many as were asked for, or fewer
/// where no page is left that has deltas and can be merged (`merge_some`). It changes no document and no pair, so that it is
/// upkeep alone; where no page is merged nothing is written.
///
/// `Damaged` where a part of a term page that it reads is outside its grammar, with the place of the part. `Disk` where a call of
/// the disk failed, or the store has failed before. `Memory` where there is no room for the pages or the batch. But for `Disk`, by
/// which the batch may have been written, all is then as before.
pub fn merge<D: Disk, C: PageCache>(
    alloc: Global,
    store: &mut Store<C>,
    disk: &mut D,
    count: u32,
) -> Result<u32, StoreFault>
    requires free { 2 ≤ free_count (store_slots store.old) }
    requires agrees { AgreesUnlessFailed C.pages (D.is_honest disk.old) store.old (D.history disk.old (D.attached disk.old)) }
    ensures tells { IsTrue (D.is_honest disk.old) → store_failed store.old ≡ false → (before : Container)
        → (ids : List (List ℕ × ℕ)) → HoldsAll store.old ids before
        → TellsWrite before (Ok before) (as_write (done_of result)) store.new ids
        (D.history disk.old (D.attached disk.old)) (D.history disk.new (D.attached disk.new)) }
    ensures table { (table : Table) → TableAgrees (D.is_honest disk.old) table (store_contents store.old)
        → TableAgrees (D.is_honest disk.old) table (store_contents store.new) }
    ensures merged { IfOk result (λ merged. IsMerged (D.is_honest disk.old) count merged (store_contents store.old) (store_contents store.new)) }
    ensures leaves { WriteLeaves C.pages (D.is_honest disk.old) (as_write (done_of result)) store.old store.new
        (D.history disk.old (D.attached disk.old)) (D.history disk.new (D.attached disk.new))
        (D.faults disk.old) (D.faults disk.new) }
    ensures attached { D.attached disk.new ≡ D.attached disk.old }
    ensures honest { D.is_honest disk.new ≡ D.is_honest disk.old }
{
    let mut batch = Batch::begin(alloc);
    match merge_some(alloc, store, disk, count, &mut batch) {
        Ok(merged) => {
            if batch.parts() == 0 {
                drop(batch);
                return Ok(merged);
            }
            match seal_and_commit(alloc, store, disk, batch) {
                Ok(()) => Ok(merged),
                Err(fault) => Err(fault),
            }
        }
        Err(fault) => {
            drop(batch);
            Err(fault)
        }
    }
}
