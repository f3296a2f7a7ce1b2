//! Merging term pages: bases in the place of all parts of pages that have deltas.

ghost use Rattle.std.specs.Prelude.{◌≡◌, ◌<◌, ◌≤◌, ◌+◌, ℕ, List, Option, Some, [], IsTrue, IfOk, IfErr, OnOk, if◌then◌else◌, true, false, length};
ghost use Rattle.ax_frame.specs.Part.{PartValue};
ghost use Rattle.ax_pair.specs.declared.pair.Pair.{Pair};
ghost use Rattle.ax_pages.specs.Contents.{TermPage, term_page};
ghost use Rattle.ax_pages.specs.TermPages.{low_pair};
ghost use Rattle.ax_pairs.specs.Index.{IsIndex};
ghost use Rattle.ax_pairs.specs.PagePairs.{HasPairs};
ghost use Rattle.ax_pairs.specs.PairSets.{PairSet};
ghost use Rattle.ax_pool.specs.Frames.{free_count};
ghost use Rattle.ax_store.specs.Batch.{batch_parts};
ghost use Rattle.ax_store.specs.Faults.{HasDiskCause};
ghost use Rattle.ax_store.specs.Slots.{AreOthersSame, IsSlotOf};
ghost use Rattle.ax_store.specs.Store.{AgreesUnlessFailed, store_contents, store_failed, store_slots, store_spare};
ghost use Rattle.ax_index.specs.Bare.{has_deltas as does_have_deltas};
ghost use Rattle.ax_index.specs.Damage.{FailsBy, TellsPart};
ghost use Rattle.ax_index.specs.Grammar.{IsInGrammar};
ghost use Rattle.ax_index.specs.Merging.{IsBehind, IsMergePlan, IsMergedTo};
ghost use Rattle.ax_index.specs.PageSizes.{AreStuck};
ghost use Rattle.ax_index.specs.Planning.{IsUpTo, IsPagePlanned};
ghost use Rattle.ax_index.specs.Plans.{HasNoDeltas};
ghost use Rattle.ax_index.specs.Reads.{KeepsTaken, Reads, Reserves};

use crate::bases::rewrite_list;
use crate::folding::folded;
use crate::looking::oldest_delta;
use crate::plan::{as_number, reserve};
use crate::wanted::Wanted;
use ax_cache::PageCache;
use ax_disk::Disk;
use ax_pages::Page;
use ax_store::{Batch, Store, StoreFault, StoreSlot};
use std::alloc::Global;

/// Puts parts behind those of a batch that merge `n` term pages with deltas, from the least low pair on, and
/// answers how many they are: fewer only where no page is left that has deltas, but for those whose fold
/// needs so many new pages that the last would have a number from 2^31 on, those that have a term of more than
/// 4,096 bytes or a low pair with such a term, which no change brings, and those that have a pair which is none of
/// theirs, as no page of an index has. No pair is changed, and no page is made without one. Over an honest disk a
/// page is merged only where each of its parts is in its grammar. It makes the room that a commit of the batch
/// needs.
///
/// `Disk`, `Damaged`: as `has`. `Memory` where there is no room; the store is then as before but for room,
/// and the batch may hold further parts.
pub fn merge_some<D: Disk, C: PageCache>(
    alloc: Global,
    store: &mut Store<C>,
    disk: &mut D,
    n: u32,
    batch: &mut Batch,
) -> Result<u32, StoreFault>
    requires slots { 2 ≤ free_count (store_slots store.old) }
    requires agrees { AgreesUnlessFailed C.pages (D.is_honest disk.old) store.old
        (D.history disk.old (D.attached disk.old)) }
    requires none { HasNoDeltas (batch_parts batch.old) }
    ensures merged { IfOk result (λ merged. IsMergePlan (D.is_honest disk.old) n merged (batch_parts batch.old) (batch_parts batch.new) (store_contents store.old).terms) }
    ensures room { OnOk result (length (batch_parts batch.new) ≤ store_spare store.new) }
    ensures told { IsTrue (D.is_honest disk.old) → IfErr result (TellsPart store.old) }
    ensures reserves { Reserves C.pages (D.is_honest disk.old) store.old store.new
        (D.history disk.old (D.attached disk.old)) (D.history disk.new (D.attached disk.new))
        (D.faults disk.old) (D.faults disk.new) }
    ensures others { KeepsTaken (store_slots store.old) (store_slots store.new) }
    ensures fails { FailsBy result (store_failed store.old) (store_failed store.new) }
    ensures cause { store_failed store.old ≡ false → HasDiskCause result (D.faults disk.old) (D.faults disk.new) }
    ensures attached { D.attached disk.new ≡ D.attached disk.old }
    ensures honest { D.is_honest disk.new ≡ D.is_honest disk.old }
{
    let Some(mut slot) = store.take_slot() else {
        unreachable!()
    };
    let merged = merge_by(alloc, store, disk, &mut slot, n, batch);
    store.give_slot(slot);
    merged
}

/// The same with a slot.
fn merge_by<D: Disk, C: PageCache>(
    alloc: Global,
    store: &mut Store<C>,
    disk: &mut D,
    slot: &mut StoreSlot,
    n: u32,
    batch: &mut Batch,
) -> Result<u32, StoreFault>
    requires slot { IsSlotOf store.old slot.old }
    requires agrees { AgreesUnlessFailed C.pages (D.is_honest disk.old) store.old
        (D.history disk.old (D.attached disk.old)) }
    ensures merged { IfOk result (λ merged. IsMergePlan (D.is_honest disk.old) n merged (batch_parts batch.old) (batch_parts batch.new) (store_contents store.old).terms) }
    ensures room { OnOk result (length (batch_parts batch.new) ≤ store_spare store.new) }
    ensures told { IsTrue (D.is_honest disk.old) → IfErr result (TellsPart store.old) }
    ensures slot { slot.new ≡ slot.old }
    ensures others { AreOthersSame slot.old.number (store_slots store.old) (store_slots store.new) }
    ensures reserves { Reserves C.pages (D.is_honest disk.old) store.old store.new
        (D.history disk.old (D.attached disk.old)) (D.history disk.new (D.attached disk.new))
        (D.faults disk.old) (D.faults disk.new) }
    ensures fails { FailsBy result (store_failed store.old) (store_failed store.new) }
    ensures cause { store_failed store.old ≡ false → HasDiskCause result (D.faults disk.old) (D.faults disk.new) }
    ensures attached { D.attached disk.new ≡ D.attached disk.old }
    ensures honest { D.is_honest disk.new ≡ D.is_honest disk.old }
{
    let merged = match merge_pages(alloc, store, disk, slot, n, batch) {
        Ok(merged) => merged,
        Err(fault) => return Err(fault),
    };
    match reserve(store, batch) {
        Ok(()) => Ok(merged),
        Err(_) => Err(StoreFault::Memory),
    }
}

/// Merges pages in the order of their low pairs.
fn merge_pages<D: Disk, C: PageCache>(
    alloc: Global,
    store: &mut Store<C>,
    disk: &mut D,
    slot: &mut StoreSlot,
    n: u32,
    batch: &mut Batch,
) -> Result<u32, StoreFault>
    requires slot { IsSlotOf store.old slot.old }
    requires agrees { AgreesUnlessFailed C.pages (D.is_honest disk.old) store.old
        (D.history disk.old (D.attached disk.old)) }
    ensures merged { IfOk result (λ merged. IsMergePlan (D.is_honest disk.old) n merged (batch_parts batch.old) (batch_parts batch.new) (store_contents store.old).terms) }
    ensures told { IsTrue (D.is_honest disk.old) → IfErr result (TellsPart store.old) }
    ensures slot { slot.new ≡ slot.old }
    ensures others { AreOthersSame slot.old.number (store_slots store.old) (store_slots store.new) }
    ensures reads { Reads C.pages (D.is_honest disk.old) store.old store.new
        (D.history disk.old (D.attached disk.old)) (D.history disk.new (D.attached disk.new))
        (D.faults disk.old) (D.faults disk.new) }
    ensures fails { FailsBy result (store_failed store.old) (store_failed store.new) }
    ensures cause { store_failed store.old ≡ false → HasDiskCause result (D.faults disk.old) (D.faults disk.new) }
    ensures attached { D.attached disk.new ≡ D.attached disk.old }
    ensures honest { D.is_honest disk.new ≡ D.is_honest disk.old }
{
    let mut next = store.pages();
    let mut merged = 0;
    let mut at = Some(store.page_of(&[], 0));
    while let Some(page) = at {
        if are_enough(merged, n) {
            return Ok(merged);
        }
        match merge_one(alloc, store, disk, slot, &mut next, page, batch) {
            Ok(done) => merged += as_number(done),
            Err(fault) => return Err(fault),
        }
        at = store.next_page(page);
    }
    Ok(merged)
}

/// Whether so many pages are merged as were asked for.
fn are_enough(merged: u32, asked: u32) -> bool
    ensures enough { result ≡ true → asked ≤ merged }
    ensures fewer { result ≡ false → merged < asked }
{
    merged >= asked
}

/// Merges a page where it has deltas, and answers whether it did.
fn merge_one<D: Disk, C: PageCache>(
    alloc: Global,
    store: &mut Store<C>,
    disk: &mut D,
    slot: &mut StoreSlot,
    next: &mut u32,
    page: u32,
    batch: &mut Batch,
) -> Result<bool, StoreFault>
    requires page { page < length (store_contents store.old).terms }
    requires slot { IsSlotOf store.old slot.old }
    requires agrees { AgreesUnlessFailed C.pages (D.is_honest disk.old) store.old
        (D.history disk.old (D.attached disk.old)) }
    ensures step { (merged : ℕ) (old : List PartValue) (at : Option ℕ) → IsBehind page at (store_contents store.old).terms
        → IsMergedTo (D.is_honest disk.old) (Some page) (store_contents store.old).terms merged next.old old (batch_parts batch.old)
        → IfOk result (λ done. IsMergedTo (D.is_honest disk.old) at (store_contents store.old).terms (merged + (if done then 1 else 0)) next.new old (batch_parts batch.new)) }
    ensures told { IsTrue (D.is_honest disk.old) → IfErr result (TellsPart store.old) }
    ensures slot { slot.new ≡ slot.old }
    ensures others { AreOthersSame slot.old.number (store_slots store.old) (store_slots store.new) }
    ensures reads { Reads C.pages (D.is_honest disk.old) store.old store.new
        (D.history disk.old (D.attached disk.old)) (D.history disk.new (D.attached disk.new))
        (D.faults disk.old) (D.faults disk.new) }
    ensures fails { FailsBy result (store_failed store.old) (store_failed store.new) }
    ensures cause { store_failed store.old ≡ false → HasDiskCause result (D.faults disk.old) (D.faults disk.new) }
    ensures attached { D.attached disk.new ≡ D.attached disk.old }
    ensures honest { D.is_honest disk.new ≡ D.is_honest disk.old }
{
    if !has_deltas(store, page) {
        return Ok(false);
    }
    merge_whole(alloc, store, disk, slot, next, page, batch)
}

/// Whether a page has deltas.
pub(crate) fn has_deltas<C>(store: &Store<C>, page: u32) -> bool
    ensures { result ≡ does_have_deltas (term_page page (store_contents store.now).terms) }
{
    store.parts(Page::Term(page)) > oldest_delta(store, page)
}

/// Writes a page anew with its pairs, and answers whether it did (`rewrite_list`).
fn merge_whole<D: Disk, C: PageCache>(
    alloc: Global,
    store: &mut Store<C>,
    disk: &mut D,
    slot: &mut StoreSlot,
    next: &mut u32,
    page: u32,
    batch: &mut Batch,
) -> Result<bool, StoreFault>
    requires page { page < length (store_contents store.old).terms }
    requires slot { IsSlotOf store.old slot.old }
    requires agrees { AgreesUnlessFailed C.pages (D.is_honest disk.old) store.old
        (D.history disk.old (D.attached disk.old)) }
    ensures merged { (now : List TermPage) (earlier : List PartValue)
        → IsUpTo (low_pair page (store_contents store.old).terms) (store_contents store.old).terms now earlier
        → next.old ≡ length now
        → IfOk result (λ done. done ≡ true → IsPagePlanned (D.is_honest disk.old) page [] (store_contents store.old).terms now true next.new (λ number. 0) (batch_parts batch.old) (batch_parts batch.new)) }
    ensures left { IfOk result (λ done. done ≡ false → (batch_parts batch.new ≡ batch_parts batch.old) × (next.new ≡ next.old)) }
    ensures stuck { IsTrue (D.is_honest disk.old) → (set : PairSet) → IsIndex (store_contents store.old).terms set
        → IfOk result (λ done. done ≡ false → (pairs : List Pair) → HasPairs (term_page page (store_contents store.old).terms) pairs
        → AreStuck next.old (low_pair page (store_contents store.old).terms) pairs) }
    ensures met { IsTrue (D.is_honest disk.old) → OnOk result (IsInGrammar (term_page page (store_contents store.old).terms)) }
    ensures told { IsTrue (D.is_honest disk.old) → IfErr result (TellsPart store.old) }
    ensures slot { slot.new ≡ slot.old }
    ensures others { AreOthersSame slot.old.number (store_slots store.old) (store_slots store.new) }
    ensures reads { Reads C.pages (D.is_honest disk.old) store.old store.new
        (D.history disk.old (D.attached disk.old)) (D.history disk.new (D.attached disk.new))
        (D.faults disk.old) (D.faults disk.new) }
    ensures fails { FailsBy result (store_failed store.old) (store_failed store.new) }
    ensures cause { store_failed store.old ≡ false → HasDiskCause result (D.faults disk.old) (D.faults disk.new) }
    ensures attached { D.attached disk.new ≡ D.attached disk.old }
    ensures honest { D.is_honest disk.new ≡ D.is_honest disk.old }
{
    let pairs = match folded(alloc, store, disk, slot, page, &Wanted::All) {
        Ok(pairs) => pairs,
        Err(fault) => return Err(fault),
    };
    match rewrite_list(alloc, store, batch, next, page, &pairs) {
        Ok(done) => Ok(done),
        Err(_) => Err(StoreFault::Memory),
    }
}
