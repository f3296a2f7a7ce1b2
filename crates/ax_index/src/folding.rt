//! The pairs of a term page: those of its base, merged with its deltas, the oldest first.

ghost use Rattle.std.specs.Prelude.{◌≡◌, ◌<◌, List, [], ◌∷◌, ◌++◌, IsTrue, IfOk, IfErr, IfSome, OnOk, MatchOption, false, length};
ghost use Rattle.ax_pair.specs.declared.pair.Pair.{Pair};
ghost use Rattle.ax_pair.specs.Order.{Rise};
ghost use Rattle.ax_delta.specs.Changes.{TermChange};
ghost use Rattle.ax_delta.specs.Merge.{IsMerge};
ghost use Rattle.ax_delta.specs.Payload.{IsDelta};
ghost use Rattle.ax_pages.specs.Contents.{term_page, term_parts};
ghost use Rattle.ax_pairs.specs.PagePairs.{AreOfBase, HasPairs, IsBase};
ghost use Rattle.ax_store.specs.Faults.{HasDiskCause};
ghost use Rattle.ax_store.specs.Slots.{AreOthersSame, IsSlotOf, term_part};
ghost use Rattle.ax_store.specs.Store.{AgreesUnlessFailed, store_contents, store_failed, store_slots};
ghost use Rattle.ax_index.specs.Reads.{Reads};
ghost use Rattle.ax_index.specs.Damage.{FailsBy, TellsPart, is_base_at};
ghost use Rattle.ax_index.specs.Grammar.{IsInGrammar};
ghost use Rattle.ax_index.specs.Reading.{wanted_of};
ghost use Rattle.ax_index.specs.Wanted.{HaveWanted};

use crate::damage::damaged_at;
use crate::looking::oldest_delta;
use crate::out_of_memory::Memory;
use crate::payload::payload_in;
use crate::wanted::Wanted;
use ax_cache::PageCache;
use ax_disk::Disk;
use ax_leaf::PairCursor;
use ax_pages::Page;
use ax_pair_list::PairList;
use ax_store::{Store, StoreFault, StoreSlot};
use std::alloc::Global;

/// The pairs of a term page, of which those of other terms than the wanted ones may be left out.
pub(crate) fn folded<D: Disk, C: PageCache>(
    alloc: Global,
    store: &mut Store<C>,
    disk: &mut D,
    slot: &mut StoreSlot,
    page: u32,
    wanted: &Wanted<'_>,
) -> Result<PairList, StoreFault>
    requires page { page < length (store_contents store.old).terms }
    requires slot { IsSlotOf store.old slot.old }
    requires agrees { AgreesUnlessFailed C.pages (D.is_honest disk.old) store.old
        (D.history disk.old (D.attached disk.old)) }
    ensures rise { IfOk result (λ kept. Rise kept) }
    ensures has { IsTrue (D.is_honest disk.old) → (pairs : List Pair) → HasPairs (term_page page (store_contents store.old).terms) pairs
        → IfOk result (λ kept. HaveWanted wanted.now pairs kept) }
    ensures met { IsTrue (D.is_honest disk.old) → OnOk result (IsInGrammar (term_page page (store_contents store.old).terms)) }
    ensures told { IsTrue (D.is_honest disk.old) → IfErr result (TellsPart store.old) }
    ensures reads { Reads C.pages (D.is_honest disk.old) store.old store.new
        (D.history disk.old (D.attached disk.old)) (D.history disk.new (D.attached disk.new))
        (D.faults disk.old) (D.faults disk.new) }
    ensures fails { FailsBy result (store_failed store.old) (store_failed store.new) }
    ensures slot { slot.new ≡ slot.old }
    ensures others { AreOthersSame slot.old.number (store_slots store.old) (store_slots store.new) }
    ensures cause { store_failed store.old ≡ false → HasDiskCause result (D.faults disk.old) (D.faults disk.new) }
    ensures attached { D.attached disk.new ≡ D.attached disk.old }
    ensures honest { D.is_honest disk.new ≡ D.is_honest disk.old }
{
    let first = oldest_delta(store, page);
    let parts = store.parts(Page::Term(page));
    let mut pairs = match base_pairs(alloc, store, disk, slot, page, wanted) {
        Ok(pairs) => pairs,
        Err(fault) => return Err(fault),
    };
    for i in first..parts {
        pairs = match merge_at(alloc, store, disk, slot, page, i, pairs) {
            Ok(after) => after,
            Err(fault) => return Err(fault),
        };
    }
    Ok(pairs)
}

/// The pairs of the wanted terms in a page's base.
fn base_pairs<D: Disk, C: PageCache>(
    alloc: Global,
    store: &mut Store<C>,
    disk: &mut D,
    slot: &mut StoreSlot,
    page: u32,
    wanted: &Wanted<'_>,
) -> Result<PairList, StoreFault>
    requires slot { IsSlotOf store.old slot.old }
    requires agrees { AgreesUnlessFailed C.pages (D.is_honest disk.old) store.old
        (D.history disk.old (D.attached disk.old)) }
    ensures rise { IfOk result (λ kept. Rise kept) }
    ensures has { IsTrue (D.is_honest disk.old) → (base : List Pair) → AreOfBase (term_page page (store_contents store.old).terms).base base
        → IfOk result (λ kept. kept ≡ wanted_of wanted.now base) }
    ensures met { IsTrue (D.is_honest disk.old) → OnOk result ((base : List Pair) × AreOfBase (term_page page (store_contents store.old).terms).base base) }
    ensures told { IsTrue (D.is_honest disk.old) → IfErr result (TellsPart store.old) }
    ensures reads { Reads C.pages (D.is_honest disk.old) store.old store.new
        (D.history disk.old (D.attached disk.old)) (D.history disk.new (D.attached disk.new))
        (D.faults disk.old) (D.faults disk.new) }
    ensures fails { FailsBy result (store_failed store.old) (store_failed store.new) }
    ensures slot { slot.new ≡ slot.old }
    ensures others { AreOthersSame slot.old.number (store_slots store.old) (store_slots store.new) }
    ensures cause { store_failed store.old ≡ false → HasDiskCause result (D.faults disk.old) (D.faults disk.new) }
    ensures attached { D.attached disk.new ≡ D.attached disk.old }
    ensures honest { D.is_honest disk.new ≡ D.is_honest disk.old }
{
    if !store.has_base(page) {
        return Ok(PairList::new(alloc));
    }
    let len = match store.read_term(disk, page, 0, slot) {
        Ok(len) => len,
        Err(fault) => return Err(fault),
    };
    match leaf_pairs(alloc, payload_in(store, slot, len), wanted) {
        Ok(Some(pairs)) => Ok(pairs),
        Ok(None) => Err(damaged_at(store, page, 0)),
        Err(_) => Err(StoreFault::Memory),
    }
}

/// The pairs of the wanted terms in the payload of a base. `None` exactly where it is the payload of
/// none.
fn leaf_pairs(
    alloc: Global,
    payload: &[u8],
    wanted: &Wanted<'_>,
) -> Result<Option<PairList>, Memory>
    ensures has { (base : List Pair) → IsBase payload.now base
        → IfOk result (λ found. MatchOption found ⊥ (λ kept. kept ≡ wanted_of wanted.now base)) }
    ensures met { IfOk result (λ found. IfSome found (λ kept. (base : List Pair) × IsBase payload.now base)) }
    ensures rise { IfOk result (λ found. MatchOption found
        ((base : List Pair) × IsBase payload.now base → ⊥)
        (λ kept. Rise kept)) }
{
    let Some(leaf) = ax_leaf::check(payload) else {
        return Ok(None);
    };
    let pairs = take_wanted(alloc, leaf.cursor(alloc), wanted)?;
    Ok(Some(pairs))
}

/// The pairs of the wanted terms that a cursor has still to give.
fn take_wanted(
    alloc: Global,
    mut cursor: PairCursor<'_>,
    wanted: &Wanted<'_>,
) -> Result<PairList, Memory>
    ensures { IfOk result (λ kept. kept ≡ wanted_of wanted.now cursor.entry) }
{
    let mut kept = PairList::new(alloc);
    let mut term = Vec::new(alloc);
    while let Some(number) = cursor.next(&mut term)? {
        if wanted.has(term.as_slice()) {
            kept.push(term.as_slice(), number)?;
        }
    }
    Ok(kept)
}

/// The pairs after a delta of a page, of those before it.
fn merge_at<D: Disk, C: PageCache>(
    alloc: Global,
    store: &mut Store<C>,
    disk: &mut D,
    slot: &mut StoreSlot,
    page: u32,
    i: usize,
    pairs: PairList,
) -> Result<PairList, StoreFault>
    requires part { i < length (term_parts (term_page page (store_contents store.old).terms)) }
    requires delta { is_base_at (term_page page (store_contents store.old).terms) i ≡ false }
    requires slot { IsSlotOf store.old slot.old }
    requires agrees { AgreesUnlessFailed C.pages (D.is_honest disk.old) store.old
        (D.history disk.old (D.attached disk.old)) }
    requires rise { Rise pairs }
    ensures rise { IfOk result (λ after. Rise after) }
    ensures merged { IsTrue (D.is_honest disk.old) → (changes : List TermChange) → IsDelta (term_part page i (store_contents store.old).terms) changes
        → IfOk result (λ after. IsMerge pairs changes after) }
    ensures met { IsTrue (D.is_honest disk.old) → OnOk result ((changes : List TermChange) × IsDelta (term_part page i (store_contents store.old).terms) changes) }
    ensures told { IsTrue (D.is_honest disk.old) → IfErr result (TellsPart store.old) }
    ensures reads { Reads C.pages (D.is_honest disk.old) store.old store.new
        (D.history disk.old (D.attached disk.old)) (D.history disk.new (D.attached disk.new))
        (D.faults disk.old) (D.faults disk.new) }
    ensures fails { FailsBy result (store_failed store.old) (store_failed store.new) }
    ensures slot { slot.new ≡ slot.old }
    ensures others { AreOthersSame slot.old.number (store_slots store.old) (store_slots store.new) }
    ensures cause { store_failed store.old ≡ false → HasDiskCause result (D.faults disk.old) (D.faults disk.new) }
    ensures attached { D.attached disk.new ≡ D.attached disk.old }
    ensures honest { D.is_honest disk.new ≡ D.is_honest disk.old }
{
    let len = match store.read_term(disk, page, i, slot) {
        Ok(len) => len,
        Err(fault) => return Err(fault),
    };
    match merge_payload(alloc, payload_in(store, slot, len), pairs) {
        Ok(Some(after)) => Ok(after),
        Ok(None) => Err(damaged_at(store, page, i)),
        Err(_) => Err(StoreFault::Memory),
    }
}

/// The pairs after the delta in a payload, of those before it. `None` exactly where it is the payload
/// of none.
fn merge_payload(
    alloc: Global,
    payload: &[u8],
    pairs: PairList,
) -> Result<Option<PairList>, ax_delta::Memory>
    requires { Rise pairs }
    ensures merged { (changes : List TermChange) → IsDelta payload.now changes
        → IfOk result (λ found. MatchOption found ⊥ (λ after. IsMerge pairs changes after)) }
    ensures met { IfOk result (λ found. IfSome found (λ after. (changes : List TermChange) × IsDelta payload.now changes)) }
    ensures rise { IfOk result (λ found. MatchOption found
        ((changes : List TermChange) × IsDelta payload.now changes → ⊥)
        (λ after. Rise after)) }
{
    let Some(delta) = ax_delta::check(payload) else {
        return Ok(None);
    };
    let after = ax_delta::merge(alloc, pairs, &delta)?;
    Ok(Some(after))
}
