//! Some documents that are under another policy are put under the policy now.

ghost use Rattle.std.specs.Prelude.{◌≡◌, ◌≤◌, ◌+◌, ◌<◌, ◌⊎◌, ℕ, List, Ok, None, IsTrue, OnErr, OnOk, false};
ghost use Rattle.std.specs.FinMap as map;
ghost use Rattle.ax_container.specs.Container.{Container};
ghost use Rattle.ax_container.specs.Reindexing.{left, stepped};
ghost use Rattle.ax_image_pairs.specs.Indexed.{ContentsHoldAll};
ghost use Rattle.ax_pool.specs.Frames.{free_count};
ghost use Rattle.ax_store.specs.Store.{AgreesUnlessFailed, store_contents, store_failed, store_slots};
ghost use Rattle.ax_table.specs.TableAgrees.{TableAgrees};
ghost use Rattle.ax_transform.specs.Gathering.{GathersEnough, start_of};
ghost use Rattle.ax_transform.specs.Steps.{IsSmallStep, KeepsPolicies, as_write};
ghost use Rattle.ax_write.specs.Writes.{HoldsAll, TellsWrite, WriteLeaves};

use crate::counting::count_moved;
use crate::gather::gather;
use crate::moves::Moves;
use crate::ordering::put_in_order;
use ax_base::Steps;
use ax_cache::PageCache;
use ax_disk::Disk;
use ax_policy::PolicyTable;
use ax_store::{Store, StoreFault};
use ax_write::plan_and_commit;
use std::alloc::Global;
use std::sync::ledger::Ledger;

/// Puts the first documents that are under another policy under the policy now, as many as asked for, or all where there are
/// fewer, with the changes of the index in one batch. It counts one step for each document that it fetches: no more than were
/// asked for, and no more than are left.
///
/// `Damaged` where the text of one of them is that of no document, or a part of a term page that the plan reads is outside its
/// grammar, with the place of the part. `Disk` where a call of the disk failed, or the store has failed before. `Memory` where
/// there is no room for the texts, the changes or the batch. But for `Disk`, by which the batch may have been written, all is
/// then as before.
///
/// The walk begins where the one before it ended, so that to move all documents costs as much for each of them in a store of any
/// size.
pub fn step<D: Disk, C: PageCache, L: Ledger>(
    alloc: Global,
    store: &mut Store<C>,
    disk: &mut D,
    table: &mut PolicyTable,
    count: u32,
    steps: &mut Steps<L>,
) -> Result<(), StoreFault>
    requires free { 2 ≤ free_count (store_slots store.old) }
    requires agrees { AgreesUnlessFailed C.pages (D.is_honest disk.old) store.old (D.history disk.old (D.attached disk.old)) }
    requires table { TableAgrees (D.is_honest disk.old) table.old (store_contents store.old) }
    ensures tells { IsTrue (D.is_honest disk.old) → store_failed store.old ≡ false → (before : Container)
        → (ids : List (List ℕ × ℕ)) → HoldsAll store.old ids before
        → TellsWrite before (Ok (stepped count before)) (as_write result) store.new ids
        (D.history disk.old (D.attached disk.old)) (D.history disk.new (D.attached disk.new)) }
    ensures table { TableAgrees (D.is_honest disk.old) table.new (store_contents store.new) }
    ensures policies { KeepsPolicies table.old table.new }
    ensures unless { OnErr result (table.new ≡ table.old) }
    ensures one_each { steps.new ≤ steps.old + count }
    ensures no_more { IsTrue (D.is_honest disk.old) → (before : Container) → ContentsHoldAll (store_contents store.old) before
        → steps.new ≤ steps.old + left before }
    ensures never_falls { steps.old ≤ steps.new }
    ensures small { OnOk result (IsSmallStep (D.is_honest disk.old) count table.old table.new
        (store_contents store.old) (store_contents store.new)) }
    ensures leaves { WriteLeaves C.pages (D.is_honest disk.old) (as_write result) store.old store.new
        (D.history disk.old (D.attached disk.old)) (D.history disk.new (D.attached disk.new))
        (D.faults disk.old) (D.faults disk.new) }
    ensures attached { D.attached disk.new ≡ D.attached disk.old }
    ensures honest { D.is_honest disk.new ≡ D.is_honest disk.old }
{
    match gather(alloc, store, disk, table, count, steps) {
        Ok(moves) => commit_moves(alloc, store, disk, table, moves),
        Err(fault) => Err(fault),
    }
}

/// Commits the moves that were gathered, in one batch; where there are none, nothing is written.
fn commit_moves<D: Disk, C: PageCache>(
    alloc: Global,
    store: &mut Store<C>,
    disk: &mut D,
    table: &mut PolicyTable,
    moves: Moves,
) -> Result<(), StoreFault>
    requires free { 2 ≤ free_count (store_slots store.old) }
    requires agrees { AgreesUnlessFailed C.pages (D.is_honest disk.old) store.old (D.history disk.old (D.attached disk.old)) }
    requires table { TableAgrees (D.is_honest disk.old) table.old (store_contents store.old) }
    requires gathered { (count : ℕ) × GathersEnough (D.is_honest disk.old) count table.old (store_contents store.old) (start_of table.old) moves }
    ensures tells { IsTrue (D.is_honest disk.old) → store_failed store.old ≡ false → (before : Container)
        → (ids : List (List ℕ × ℕ)) → HoldsAll store.old ids before → (count : ℕ)
        → GathersEnough (D.is_honest disk.old) count table.old (store_contents store.old) (start_of table.old) moves
        → TellsWrite before (Ok (stepped count before)) (as_write result) store.new ids
        (D.history disk.old (D.attached disk.old)) (D.history disk.new (D.attached disk.new)) }
    ensures table { TableAgrees (D.is_honest disk.old) table.new (store_contents store.new) }
    ensures policies { KeepsPolicies table.old table.new }
    ensures unless { OnErr result (table.new ≡ table.old) }
    ensures small { (count : ℕ)
        → GathersEnough (D.is_honest disk.old) count table.old (store_contents store.old) (start_of table.old) moves
        → OnOk result (IsSmallStep (D.is_honest disk.old) count table.old table.new (store_contents store.old) (store_contents store.new)) }
    ensures leaves { WriteLeaves C.pages (D.is_honest disk.old) (as_write result) store.old store.new
        (D.history disk.old (D.attached disk.old)) (D.history disk.new (D.attached disk.new))
        (D.faults disk.old) (D.faults disk.new) }
    ensures attached { D.attached disk.new ≡ D.attached disk.old }
    ensures honest { D.is_honest disk.new ≡ D.is_honest disk.old }
{
    let mark = mark_up_to(store, moves.last);
    if moves.is_empty() {
        drop(moves);
        raise_mark(table, mark);
        return Ok(());
    }
    let Moves {
        batch,
        changes,
        policies,
        ..
    } = moves;
    let mut changes = changes;
    put_in_order(&mut changes);
    match plan_and_commit(alloc, store, disk, changes.as_slice(), batch) {
        Ok(()) => {
            count_moved(table, policies.as_slice());
            raise_mark(table, mark);
            Ok(())
        }
        Err(fault) => Err(fault),
    }
}

/// The number up to which the table is to know the documents to be under the policy now: 0 where a document is held under number
/// 0, which none of a container has and no step moves.
fn mark_up_to<C>(store: &Store<C>, number: u32) -> u32
    ensures most { result ≤ number }
    ensures none { 0 < result → map.get (store_contents store.now).documents 0 ≡ None }
    ensures all { map.get (store_contents store.now).documents 0 ≡ None → result ≡ number }
{
    if store.head_of(0).is_some() {
        0
    } else {
        number
    }
}

/// Notes that each document of a number below the mark is under the policy now.
fn raise_mark(table: &mut PolicyTable, mark: u32)
    ensures same { table.new ≡ record table.old { moved = table.new.moved } }
    ensures rises { table.old.moved ≤ table.new.moved }
    ensures marked { mark ≤ table.new.moved }
    ensures most { (table.new.moved ≡ table.old.moved) ⊎ (table.new.moved ≡ mark) }
{
    if table.moved() < mark {
        table.set_moved(mark);
    }
}
