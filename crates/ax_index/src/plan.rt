//! Changes of the set, as parts of term pages: deltas of the pages to which their pairs belong, and of
//! some pages a base in place of all parts.

ghost use Rattle.std.specs.Prelude.{◌≡◌, ◌<◌, ◌≤◌, ℕ, Bool, List, IsTrue, IfOk, IfErr, OnOk, if◌then◌else◌, true, false, length};
ghost use Rattle.ax_delta.specs.declared.change.Change.{Change};
ghost use Rattle.ax_delta.specs.Changes.{changed_pairs};
ghost use Rattle.ax_delta.specs.Said.{has, said_by};
ghost use Rattle.ax_frame.specs.Part.{PartValue};
ghost use Rattle.ax_pair.specs.declared.pair.Pair.{Pair};
ghost use Rattle.ax_pair.specs.Order.{Rise};
ghost use Rattle.ax_pages.specs.Contents.{TermPage, term_page};
ghost use Rattle.ax_pages.specs.TermPages.{low_pair};
ghost use Rattle.ax_pairs.specs.Index.{AllBelong};
ghost use Rattle.ax_pairs.specs.PagePairs.{HasPairs};
ghost use Rattle.ax_pool.specs.Frames.{free_count};
ghost use Rattle.ax_store.specs.Batch.{batch_parts};
ghost use Rattle.ax_store.specs.Faults.{HasDiskCause};
ghost use Rattle.ax_store.specs.Kept.{deltas_of};
ghost use Rattle.ax_store.specs.Slots.{AreOthersSame, IsSlotOf};
ghost use Rattle.ax_store.specs.Store.{AgreesUnlessFailed, SameButRoom, store_contents, store_failed, store_room, store_slots, store_spare};
ghost use Rattle.ax_index.specs.Damage.{FailsBy, TellsPart};
ghost use Rattle.ax_index.specs.DeltaRuns.{AreCarried};
ghost use Rattle.ax_index.specs.DeltaSizes.{HaveShortTerms};
ghost use Rattle.ax_index.specs.Grammar.{IsInGrammar};
ghost use Rattle.ax_index.specs.Planning.{IsUpTo, IsPagePlanned, IsPlannedTo};
ghost use Rattle.ax_index.specs.Plans.{HasNoDeltas, IsPlan};
ghost use Rattle.ax_index.specs.Reads.{KeepsTaken, Reads, Reserves};
ghost use Rattle.std.specs.Option.{unwrap_or};

use crate::bases::rewrite_list;
use crate::choice::Choice;
use crate::folding::folded;
use crate::out_of_memory::Memory;
use crate::parts::put_deltas;
use crate::runs::{Run, first_run};
use crate::sizes::MOST_MERGED;
use crate::wanted::Wanted;
use ax_cache::PageCache;
use ax_delta::Change;
use ax_disk::Disk;
use ax_pair_list::PairList;
use ax_store::{Batch, Store, StoreFault, StoreSlot};
use std::alloc::Global;

/// Puts parts behind those of a batch that make changes in the set which the term pages hold: a pair that
/// is added is in it, one that is dropped is not, whether it was before or not. The pairs of the changes
/// rise, and their terms have at most 4,096 bytes: `have_short_terms` tells it.
///
/// It answers how many term pages it merges, at most 16. Each other page gets just the changes of its pairs:
/// one delta, but where it would be longer than a part may be, and none where nothing of it is changed. It
/// reads the parts of pages that it merges, and of those that it would merge if they did not need a number from
/// 2^31 on, have a term of more than 4,096 bytes or a low pair with such a term, which no change brings, or have a
/// pair that is none of theirs, as no page of an index has. New pages have no deltas, and none is empty. Over an
/// honest disk a page is merged only where each of its parts is in its grammar. It makes the room that a commit of
/// the batch needs.
///
/// `Disk`, `Damaged`: as `has`. `Memory` where there is no room; the store is then as before but for room,
/// and the batch may hold further parts.
pub fn plan_changes<D: Disk, C: PageCache>(
    alloc: Global,
    store: &mut Store<C>,
    disk: &mut D,
    changes: &[Change],
    batch: &mut Batch,
) -> Result<u32, StoreFault>
    requires rise { Rise (changed_pairs changes.now) }
    requires short { HaveShortTerms changes.now }
    requires slots { 2 ≤ free_count (store_slots store.old) }
    requires agrees { AgreesUnlessFailed C.pages (D.is_honest disk.old) store.old
        (D.history disk.old (D.attached disk.old)) }
    requires none { HasNoDeltas (batch_parts batch.old) }
    ensures planned { IfOk result (λ merged. IsPlan (D.is_honest disk.old) changes.now merged (batch_parts batch.old) (batch_parts batch.new) (store_contents store.old).terms) }
    ensures room { OnOk result (length (batch_parts batch.new) ≤ store_spare store.new) }
    ensures deltas { OnOk result ((number : ℕ) → deltas_of number (batch_parts batch.new) ≤ store_room number store.new) }
    ensures told { IsTrue (D.is_honest disk.old) → IfErr result (TellsPart store.old) }
    ensures reserves { Reserves C.pages (D.is_honest disk.old) store.old store.new
        (D.history disk.old (D.attached disk.old)) (D.history disk.new (D.attached disk.new))
        (D.faults disk.old) (D.faults disk.new) }
    ensures others { KeepsTaken (store_slots store.old) (store_slots store.new) }
    ensures fails { FailsBy result (store_failed store.old) (store_failed store.new) }
    ensures cause { store_failed store.old ≡ false → HasDiskCause result (D.faults disk.old) (D.faults disk.new) }
    ensures attached { D.attached disk.new ≡ D.attached disk.old }
    ensures honest { D.is_honest disk.new ≡ D.is_honest disk.old }
{
    let Some(mut slot) = store.take_slot() else {
        unreachable!()
    };
    let planned = plan_by(alloc, store, disk, &mut slot, changes, batch);
    store.give_slot(slot);
    planned
}

/// How far a plan has come, and what it chose.
#[derive(Drop)]
struct Plan {
    /// The number of the next new page.
    next: u32,
    /// How many pages are merged.
    merged: u32,
    choice: Choice,
}

/// The same with a slot.
fn plan_by<D: Disk, C: PageCache>(
    alloc: Global,
    store: &mut Store<C>,
    disk: &mut D,
    slot: &mut StoreSlot,
    changes: &[Change],
    batch: &mut Batch,
) -> Result<u32, StoreFault>
    requires rise { Rise (changed_pairs changes.now) }
    requires short { HaveShortTerms changes.now }
    requires slot { IsSlotOf store.old slot.old }
    requires agrees { AgreesUnlessFailed C.pages (D.is_honest disk.old) store.old
        (D.history disk.old (D.attached disk.old)) }
    requires none { HasNoDeltas (batch_parts batch.old) }
    ensures planned { IfOk result (λ merged. IsPlan (D.is_honest disk.old) changes.now merged (batch_parts batch.old) (batch_parts batch.new) (store_contents store.old).terms) }
    ensures room { OnOk result (length (batch_parts batch.new) ≤ store_spare store.new) }
    ensures deltas { OnOk result ((number : ℕ) → deltas_of number (batch_parts batch.new) ≤ store_room number store.new) }
    ensures told { IsTrue (D.is_honest disk.old) → IfErr result (TellsPart store.old) }
    ensures slot { slot.new ≡ slot.old }
    ensures others { AreOthersSame slot.old.number (store_slots store.old) (store_slots store.new) }
    ensures reserves { Reserves C.pages (D.is_honest disk.old) store.old store.new
        (D.history disk.old (D.attached disk.old)) (D.history disk.new (D.attached disk.new))
        (D.faults disk.old) (D.faults disk.new) }
    ensures fails { FailsBy result (store_failed store.old) (store_failed store.new) }
    ensures cause { store_failed store.old ≡ false → HasDiskCause result (D.faults disk.old) (D.faults disk.new) }
    ensures attached { D.attached disk.new ≡ D.attached disk.old }
    ensures honest { D.is_honest disk.new ≡ D.is_honest disk.old }
{
    let Ok(choice) = Choice::among(alloc, store, changes) else {
        return Err(StoreFault::Memory);
    };
    let mut plan = Plan {
        next: store.pages(),
        merged: 0,
        choice,
    };
    let mut rest = changes;
    while rest.len() > 0 {
        match plan_first(alloc, store, disk, slot, &mut plan, rest, batch) {
            Ok(behind) => rest = behind,
            Err(fault) => return Err(fault),
        }
    }
    match reserve(store, batch) {
        Ok(()) => Ok(plan.merged),
        Err(_) => Err(StoreFault::Memory),
    }
}

/// Makes room for the parts of a batch.
pub(crate) fn reserve<C>(store: &mut Store<C>, batch: &Batch) -> Result<(), Memory>
    ensures room { OnOk result (length (batch_parts batch.now) ≤ store_spare store.new) }
    ensures deltas { (number : ℕ) → store_room number store.new ≡ store_room number store.old }
    ensures same { SameButRoom store.old store.new }
{
    store.reserve(batch.parts())?;
    Ok(())
}

/// Plans the first of the changes that are of one page, and answers those behind them.
fn plan_first<'a, D: Disk, C: PageCache>(
    alloc: Global,
    store: &mut Store<C>,
    disk: &mut D,
    slot: &mut StoreSlot,
    plan: &mut Plan,
    changes: &'a [Change],
    batch: &mut Batch,
) -> Result<&'a [Change], StoreFault>
    requires some { 0 < length changes.now }
    requires rise { Rise (changed_pairs changes.now) }
    requires short { HaveShortTerms changes.now }
    requires slot { IsSlotOf store.old slot.old }
    requires agrees { AgreesUnlessFailed C.pages (D.is_honest disk.old) store.old
        (D.history disk.old (D.attached disk.old)) }
    requires few { plan.old.merged ≤ 16 }
    ensures planned { (all : List Change) (old : List PartValue)
        → IsPlannedTo (D.is_honest disk.old) all changes.entry.now (store_contents store.old).terms plan.old.merged plan.old.next (λ number. store_room number store.old) old (batch_parts batch.old)
        → IfOk result (λ behind. IsPlannedTo (D.is_honest disk.old) all behind.now (store_contents store.old).terms plan.new.merged plan.new.next (λ number. store_room number store.new) old (batch_parts batch.new)) }
    ensures rise { IfOk result (λ behind. Rise (changed_pairs behind.now)) }
    ensures short { IfOk result (λ behind. HaveShortTerms behind.now) }
    ensures fewer { IfOk result (λ behind. length behind.now < length changes.entry.now) }
    ensures few { plan.new.merged ≤ 16 }
    ensures told { IsTrue (D.is_honest disk.old) → IfErr result (TellsPart store.old) }
    ensures slot { slot.new ≡ slot.old }
    ensures others { AreOthersSame slot.old.number (store_slots store.old) (store_slots store.new) }
    ensures reserves { Reserves C.pages (D.is_honest disk.old) store.old store.new
        (D.history disk.old (D.attached disk.old)) (D.history disk.new (D.attached disk.new))
        (D.faults disk.old) (D.faults disk.new) }
    ensures fails { FailsBy result (store_failed store.old) (store_failed store.new) }
    ensures cause { store_failed store.old ≡ false → HasDiskCause result (D.faults disk.old) (D.faults disk.new) }
    ensures attached { D.attached disk.new ≡ D.attached disk.old }
    ensures honest { D.is_honest disk.new ≡ D.is_honest disk.old }
{
    let run = first_run(store, changes);
    let (first, behind) = changes.split_at(run.len);
    let merge = plan.choice.takes(store, run) && plan.merged < MOST_MERGED;
    let merged = match plan_page(
        alloc,
        store,
        disk,
        slot,
        &mut plan.next,
        run.page,
        first,
        merge,
        batch,
    ) {
        Ok(merged) => merged,
        Err(fault) => return Err(fault),
    };
    plan.merged += as_number(merged);
    Ok(behind)
}

/// 1 where it is so, else 0.
pub(crate) fn as_number(merged: bool) -> u32
    ensures { result ≡ (if merged then 1 else 0) }
{
    if merged { 1 } else { 0 }
}

/// Plans changes of one page: merges it, or puts deltas of it. It answers whether it merged it.
fn plan_page<D: Disk, C: PageCache>(
    alloc: Global,
    store: &mut Store<C>,
    disk: &mut D,
    slot: &mut StoreSlot,
    next: &mut u32,
    page: u32,
    changes: &[Change],
    merge: bool,
    batch: &mut Batch,
) -> Result<bool, StoreFault>
    requires page { page < length (store_contents store.old).terms }
    requires some { 0 < length changes.now }
    requires rise { Rise (changed_pairs changes.now) }
    requires short { HaveShortTerms changes.now }
    requires slot { IsSlotOf store.old slot.old }
    requires agrees { AgreesUnlessFailed C.pages (D.is_honest disk.old) store.old
        (D.history disk.old (D.attached disk.old)) }
    ensures planned { (now : List TermPage) (earlier : List PartValue)
        → IsUpTo (low_pair page (store_contents store.old).terms) (store_contents store.old).terms now earlier
        → next.old ≡ length now
        → AllBelong (changed_pairs changes.now) page (store_contents store.old).terms
        → IfOk result (λ merged. IsPagePlanned (D.is_honest disk.old) page changes.now (store_contents store.old).terms now merged next.new (λ number. store_room number store.new) (batch_parts batch.old) (batch_parts batch.new)) }
    ensures asked { IfOk result (λ merged. merged ≡ true → merge ≡ true) }
    ensures never_less { (number : ℕ) → store_room number store.old ≤ store_room number store.new }
    ensures met { IsTrue (D.is_honest disk.old) → IfOk result (λ merged. merged ≡ true → IsInGrammar (term_page page (store_contents store.old).terms)) }
    ensures told { IsTrue (D.is_honest disk.old) → IfErr result (TellsPart store.old) }
    ensures slot { slot.new ≡ slot.old }
    ensures others { AreOthersSame slot.old.number (store_slots store.old) (store_slots store.new) }
    ensures reserves { Reserves C.pages (D.is_honest disk.old) store.old store.new
        (D.history disk.old (D.attached disk.old)) (D.history disk.new (D.attached disk.new))
        (D.faults disk.old) (D.faults disk.new) }
    ensures fails { FailsBy result (store_failed store.old) (store_failed store.new) }
    ensures cause { store_failed store.old ≡ false → HasDiskCause result (D.faults disk.old) (D.faults disk.new) }
    ensures attached { D.attached disk.new ≡ D.attached disk.old }
    ensures honest { D.is_honest disk.new ≡ D.is_honest disk.old }
{
    if !merge {
        return plan_deltas(alloc, store, batch, page, changes);
    }
    match merge_page(alloc, store, disk, slot, next, page, changes, batch) {
        Ok(true) => Ok(true),
        Ok(false) => plan_deltas(alloc, store, batch, page, changes),
        Err(fault) => Err(fault),
    }
}

/// Plans changes of one page by deltas.
fn plan_deltas<C>(
    alloc: Global,
    store: &mut Store<C>,
    batch: &mut Batch,
    page: u32,
    changes: &[Change],
) -> Result<bool, StoreFault>
    requires page { page < length (store_contents store.old).terms }
    requires some { 0 < length changes.now }
    requires rise { Rise (changed_pairs changes.now) }
    requires short { HaveShortTerms changes.now }
    ensures planned { (now : List TermPage) → page < length now
        → OnOk result (AreCarried page changes.now now (store_room page store.new) (batch_parts batch.old) (batch_parts batch.new)) }
    ensures deltas { IfOk result (λ merged. merged ≡ false) }
    ensures memory { IfErr result (λ fault. fault ≡ StoreFault.Memory) }
    ensures never_less { (number : ℕ) → store_room number store.old ≤ store_room number store.new }
    ensures same { SameButRoom store.old store.new }
{
    match put_changes(alloc, store, batch, page, changes) {
        Ok(()) => Ok(false),
        Err(_) => Err(StoreFault::Memory),
    }
}

/// Puts deltas of a page, and makes the room that they need.
fn put_changes<C>(
    alloc: Global,
    store: &mut Store<C>,
    batch: &mut Batch,
    page: u32,
    changes: &[Change],
) -> Result<(), Memory>
    requires page { page < length (store_contents store.old).terms }
    requires some { 0 < length changes.now }
    requires rise { Rise (changed_pairs changes.now) }
    requires short { HaveShortTerms changes.now }
    ensures put { (now : List TermPage) → page < length now
        → OnOk result (AreCarried page changes.now now (store_room page store.new) (batch_parts batch.old) (batch_parts batch.new)) }
    ensures never_less { (number : ℕ) → store_room number store.old ≤ store_room number store.new }
    ensures same { SameButRoom store.old store.new }
{
    let count = put_deltas(alloc, batch, page, changes)?;
    store.reserve_deltas(page, count)?;
    Ok(())
}

/// Writes a page anew with its pairs as changes make them, and answers whether it did (`rewrite`).
pub(crate) fn merge_page<D: Disk, C: PageCache>(
    alloc: Global,
    store: &mut Store<C>,
    disk: &mut D,
    slot: &mut StoreSlot,
    next: &mut u32,
    page: u32,
    changes: &[Change],
    batch: &mut Batch,
) -> Result<bool, StoreFault>
    requires page { page < length (store_contents store.old).terms }
    requires rise { Rise (changed_pairs changes.now) }
    requires slot { IsSlotOf store.old slot.old }
    requires agrees { AgreesUnlessFailed C.pages (D.is_honest disk.old) store.old
        (D.history disk.old (D.attached disk.old)) }
    ensures merged { (now : List TermPage) (earlier : List PartValue)
        → IsUpTo (low_pair page (store_contents store.old).terms) (store_contents store.old).terms now earlier
        → next.old ≡ length now
        → AllBelong (changed_pairs changes.now) page (store_contents store.old).terms
        → IfOk result (λ merged. merged ≡ true → IsPagePlanned (D.is_honest disk.old) page changes.now (store_contents store.old).terms now true next.new (λ number. 0) (batch_parts batch.old) (batch_parts batch.new)) }
    ensures left { IfOk result (λ merged. merged ≡ false → (batch_parts batch.new ≡ batch_parts batch.old) × (next.new ≡ next.old)) }
    ensures met { IsTrue (D.is_honest disk.old) → OnOk result (IsInGrammar (term_page page (store_contents store.old).terms)) }
    ensures told { IsTrue (D.is_honest disk.old) → IfErr result (TellsPart store.old) }
    ensures slot { slot.new ≡ slot.old }
    ensures others { AreOthersSame slot.old.number (store_slots store.old) (store_slots store.new) }
    ensures reads { Reads C.pages (D.is_honest disk.old) store.old store.new
        (D.history disk.old (D.attached disk.old)) (D.history disk.new (D.attached disk.new))
        (D.faults disk.old) (D.faults disk.new) }
    ensures fails { FailsBy result (store_failed store.old) (store_failed store.new) }
    ensures cause { store_failed store.old ≡ false → HasDiskCause result (D.faults disk.old) (D.faults disk.new) }
    ensures attached { D.attached disk.new ≡ D.attached disk.old }
    ensures honest { D.is_honest disk.new ≡ D.is_honest disk.old }
{
    let pairs = match folded(alloc, store, disk, slot, page, &Wanted::All) {
        Ok(pairs) => pairs,
        Err(fault) => return Err(fault),
    };
    match rewrite_changed(alloc, store, batch, next, page, pairs, changes) {
        Ok(done) => Ok(done),
        Err(_) => Err(StoreFault::Memory),
    }
}

/// Writes a page anew with its pairs as changes make them.
fn rewrite_changed<C>(
    alloc: Global,
    store: &Store<C>,
    batch: &mut Batch,
    next: &mut u32,
    page: u32,
    pairs: PairList,
    changes: &[Change],
) -> Result<bool, Memory>
    requires page { page < length (store_contents store.now).terms }
    requires pairs { Rise pairs }
    requires changes { Rise (changed_pairs changes.now) }
    ensures merged { (honest : Bool) (now : List TermPage) (earlier : List PartValue)
        → IsUpTo (low_pair page (store_contents store.now).terms) (store_contents store.now).terms now earlier
        → next.old ≡ length now
        → AllBelong (changed_pairs changes.now) page (store_contents store.now).terms
        → (IsTrue honest → (some : List Pair) → HasPairs (term_page page (store_contents store.now).terms) some → (p : Pair) → has p pairs ≡ has p some)
        → IfOk result (λ merged. merged ≡ true → IsPagePlanned honest page changes.now (store_contents store.now).terms now true next.new (λ number. 0) (batch_parts batch.old) (batch_parts batch.new)) }
    ensures left { IfOk result (λ merged. merged ≡ false → (batch_parts batch.new ≡ batch_parts batch.old) × (next.new ≡ next.old)) }
{
    let pairs = changed(alloc, pairs, changes)?;
    let done = rewrite_list(alloc, store, batch, next, page, &pairs)?;
    Ok(done)
}

/// The pairs as rising changes make them.
fn changed(alloc: Global, pairs: PairList, changes: &[Change]) -> Result<PairList, Memory>
    requires pairs { Rise pairs }
    requires changes { Rise (changed_pairs changes.now) }
    ensures rise { IfOk result (λ after. Rise after) }
    ensures made { IfOk result (λ after. (p : Pair) → has p after ≡ unwrap_or (said_by p changes.now) (has p pairs)) }
{
    if changes.len() == 0 {
        return Ok(pairs);
    }
    let payload = ax_delta::encode(alloc, changes)?;
    let Some(delta) = ax_delta::check(payload.as_slice()) else {
        unreachable!()
    };
    let after = ax_delta::merge(alloc, pairs, &delta)?;
    Ok(after)
}
