//! A store on a disk, whose index is changed and asked.

ghost use Rattle.std.specs.Prelude.{◌≡◌, ◌≤◌, ◌+◌, ℕ, length, IfOk, IsTrue, OnErr, OnOk, Some};
ghost use Rattle.std.specs.FinMap as map;
ghost use Rattle.ax_area.specs.Parts.{after_parts};
ghost use Rattle.ax_index.specs.Bare.{with_deltas};
ghost use Rattle.ax_index.specs.Wanted.{AreNumbersIn, AreNumbersInSome};
ghost use Rattle.ax_index_support.specs.Ready.{IsReady};
ghost use Rattle.ax_pairs.specs.Index.{IsIndex};
ghost use Rattle.ax_pairs.specs.PairSets.{PairSet, with_changes};
ghost use Rattle.ax_store.specs.Batch.{AreAllowed, batch_parts};
ghost use Rattle.ax_store.specs.Kept.{deltas_of};
ghost use Rattle.ax_store.specs.Store.{store_contents, store_room, store_spare};

use ax_cache::PageCache;
use ax_delta::are_in_order;
use ax_disk::Disk;
use ax_index::{
    Change, Pair, StoreFault, TermRange, has, have_short_terms, merge_some, pairs_in,
    pairs_in_some, plan_changes,
};
use ax_store::{Batch, Store};
use std::alloc::Global;

/// Opens the store on a disk, with a cache.
pub fn open<D: Disk, C: PageCache + Drop>(
    alloc: Global,
    disk: &mut D,
    cache: C,
) -> Result<Store<C>, StoreFault>
    requires { C.pages cache ≡ map.empty }
    ensures { IfOk result (λ store. IsReady C.pages store (D.is_honest disk.new) (D.history disk.new (D.attached disk.new))) }
{
    Store::open_store(alloc, disk, cache)
}

/// Plans rising changes and commits them, and answers how many pages were merged. Changes that do not
/// rise, or with a term of more than 4,096 bytes, are answered by `Memory`.
pub fn change<D: Disk, C: PageCache>(
    alloc: Global,
    disk: &mut D,
    store: &mut Store<C>,
    changes: &[Change],
) -> Result<u32, StoreFault>
    requires { IsReady C.pages store.old (D.is_honest disk.old) (D.history disk.old (D.attached disk.old)) }
    ensures changed { IsTrue (D.is_honest disk.old) → (set : PairSet) → IsIndex (store_contents store.old).terms set
        → IfOk result (λ merged. IsIndex (store_contents store.new).terms (with_changes changes.now set)) }
    ensures kept { OnErr result (store_contents store.new ≡ store_contents store.old) }
    ensures ready { IsReady C.pages store.new (D.is_honest disk.new) (D.history disk.new (D.attached disk.new)) }
{
    if !are_in_order(changes) || !have_short_terms(changes) {
        return Err(StoreFault::Memory);
    }
    let mut batch = Batch::begin(alloc);
    let merged = plan_changes(alloc, store, disk, changes, &mut batch)?;
    commit_batch(alloc, disk, store, batch)?;
    Ok(merged)
}

/// Merges so many pages at most and commits that, and answers how many were merged.
pub fn merge<D: Disk, C: PageCache>(
    alloc: Global,
    disk: &mut D,
    store: &mut Store<C>,
    most: u32,
) -> Result<u32, StoreFault>
    requires { IsReady C.pages store.old (D.is_honest disk.old) (D.history disk.old (D.attached disk.old)) }
    ensures merged { IsTrue (D.is_honest disk.old) → (set : PairSet) → IsIndex (store_contents store.old).terms set
        → IfOk result (λ merged. IsIndex (store_contents store.new).terms set) }
    ensures fewer { IfOk result (λ merged. with_deltas (store_contents store.new).terms + merged ≡ with_deltas (store_contents store.old).terms) }
    ensures kept { OnErr result (store_contents store.new ≡ store_contents store.old) }
    ensures ready { IsReady C.pages store.new (D.is_honest disk.new) (D.history disk.new (D.attached disk.new)) }
{
    let mut batch = Batch::begin(alloc);
    let merged = merge_some(alloc, store, disk, most, &mut batch)?;
    commit_batch(alloc, disk, store, batch)?;
    Ok(merged)
}

/// Commits a batch, if it has a part.
fn commit_batch<D: Disk, C: PageCache>(
    alloc: Global,
    disk: &mut D,
    store: &mut Store<C>,
    batch: Batch,
) -> Result<(), StoreFault>
    requires ready { IsReady C.pages store.old (D.is_honest disk.old) (D.history disk.old (D.attached disk.old)) }
    requires room { length (batch_parts batch) ≤ store_spare store.old }
    requires deltas { (number : ℕ) → deltas_of number (batch_parts batch) ≤ store_room number store.old }
    requires within { AreAllowed (batch_parts batch) (store_contents store.old) }
    ensures committed { OnOk result (after_parts (batch_parts batch) (store_contents store.old) ≡ Some (store_contents store.new)) }
    ensures kept { OnErr result (store_contents store.new ≡ store_contents store.old) }
    ensures ready { IsReady C.pages store.new (D.is_honest disk.new) (D.history disk.new (D.attached disk.new)) }
{
    if batch.parts() == 0 {
        return Ok(());
    }
    let Ok(batch) = batch.seal(alloc) else {
        return Err(StoreFault::Memory);
    };
    store.commit(disk, batch)
}

/// Whether a pair is in the index.
pub fn ask<D: Disk, C: PageCache>(
    disk: &mut D,
    store: &mut Store<C>,
    pair: &Pair,
) -> Result<bool, StoreFault>
    requires { IsReady C.pages store.old (D.is_honest disk.old) (D.history disk.old (D.attached disk.old)) }
    ensures has { IsTrue (D.is_honest disk.old) → (set : PairSet) → IsIndex (store_contents store.old).terms set
        → IfOk result (λ found. found ≡ set pair.now) }
    ensures same { store_contents store.new ≡ store_contents store.old }
    ensures ready { IsReady C.pages store.new (D.is_honest disk.new) (D.history disk.new (D.attached disk.new)) }
{
    has(store, disk, pair)
}

/// The numbers with a term in a range.
pub fn look<D: Disk, C: PageCache>(
    alloc: Global,
    disk: &mut D,
    store: &mut Store<C>,
    range: &TermRange,
) -> Result<Vec<u32>, StoreFault>
    requires { IsReady C.pages store.old (D.is_honest disk.old) (D.history disk.old (D.attached disk.old)) }
    ensures found { IsTrue (D.is_honest disk.old) → (set : PairSet) → IsIndex (store_contents store.old).terms set
        → IfOk result (λ numbers. AreNumbersIn range.now set numbers.items) }
    ensures same { store_contents store.new ≡ store_contents store.old }
    ensures ready { IsReady C.pages store.new (D.is_honest disk.new) (D.history disk.new (D.attached disk.new)) }
{
    pairs_in(alloc, store, disk, range)
}

/// The numbers with a term in one of the ranges.
pub fn look_in_some<D: Disk, C: PageCache>(
    alloc: Global,
    disk: &mut D,
    store: &mut Store<C>,
    ranges: &[TermRange],
) -> Result<Vec<u32>, StoreFault>
    requires { IsReady C.pages store.old (D.is_honest disk.old) (D.history disk.old (D.attached disk.old)) }
    ensures found { IsTrue (D.is_honest disk.old) → (set : PairSet) → IsIndex (store_contents store.old).terms set
        → IfOk result (λ numbers. AreNumbersInSome ranges.now set numbers.items) }
    ensures same { store_contents store.new ≡ store_contents store.old }
    ensures ready { IsReady C.pages store.new (D.is_honest disk.new) (D.history disk.new (D.attached disk.new)) }
{
    pairs_in_some(alloc, store, disk, ranges)
}
