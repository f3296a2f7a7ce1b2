//! Whether a pair is in the set: the newest part of its page that says something of it tells.

ghost use Rattle.std.specs.Prelude.{◌≡◌, ◌<◌, ◌≤◌, ℕ, List, IsTrue, IfOk, IfErr, IfNone, IfSome, OnOk, Some, Err, false, length};
ghost use Rattle.ax_pair.specs.declared.pair.Pair.{Pair};
ghost use Rattle.ax_delta.specs.Changes.{TermChange};
ghost use Rattle.ax_delta.specs.Payload.{IsDelta};
ghost use Rattle.ax_delta.specs.Said.{has as has_pair, last_said, said_of};
ghost use Rattle.ax_pages.specs.Contents.{term_page, term_parts};
ghost use Rattle.ax_pages.specs.TermPages.{IsPageOf};
ghost use Rattle.ax_pairs.specs.Index.{IsIndex};
ghost use Rattle.ax_pairs.specs.PagePairs.{AreDeltas, AreOfBase, IsBase};
ghost use Rattle.ax_pairs.specs.PairSets.{PairSet};
ghost use Rattle.ax_pool.specs.Frames.{free_count};
ghost use Rattle.ax_store.specs.Faults.{HasDiskCause};
ghost use Rattle.ax_store.specs.Slots.{AreOthersSame, IsSlotOf, term_part};
ghost use Rattle.ax_store.specs.Store.{AgreesUnlessFailed, store_contents, store_slots, store_failed};
ghost use Rattle.ax_index.specs.Damage.{TellsPart, FailsBy, is_base_at};
ghost use Rattle.ax_index.specs.Grammar.{IsLookedAt, IsLookedBack};
ghost use Rattle.ax_index.specs.Reading.{first_delta};
ghost use Rattle.ax_index.specs.Reads.{KeepsTaken, Reads};

use crate::damage::damaged_at;
use crate::number_lookup::has_one;
use crate::payload::payload_in;
use crate::runs::page_of_pair;
use ax_cache::PageCache;
use ax_disk::Disk;
use ax_pages::Page;
use ax_pair::Pair;
use ax_store::{Store, StoreFault, StoreSlot};

/// Whether a pair is in the set that the term pages hold. It takes no memory, and reads the parts of
/// the one page to which the pair belongs, from the newest to the first that says something of it. Over an
/// honest disk an answer tells that each part that was read is in its grammar, and is what these parts say.
///
/// `Disk` where a read failed, and the disk's count of faults rose, or where the store had failed
/// before; `Damaged` where the payload of a part that was read is outside its grammar, with its place.
pub fn has<D: Disk, C: PageCache>(
    store: &mut Store<C>,
    disk: &mut D,
    pair: &Pair,
) -> Result<bool, StoreFault>
    requires free { 2 ≤ free_count (store_slots store.old) }
    requires agrees { AgreesUnlessFailed C.pages (D.is_honest disk.old) store.old
        (D.history disk.old (D.attached disk.old)) }
    ensures has { IsTrue (D.is_honest disk.old) → (set : PairSet) → IsIndex (store_contents store.old).terms set → IfOk result (λ found. found ≡ set pair.now) }
    ensures met { IsTrue (D.is_honest disk.old) → IfOk result (λ found. (page : ℕ) × IsPageOf pair.now page (store_contents store.old).terms
        × IsLookedAt pair.now found (term_page page (store_contents store.old).terms)) }
    ensures told { IsTrue (D.is_honest disk.old) → IfErr result (TellsPart store.old) }
    ensures no_memory { result ≡ Err StoreFault.Memory → ⊥ }
    ensures reads { Reads C.pages (D.is_honest disk.old) store.old store.new
        (D.history disk.old (D.attached disk.old)) (D.history disk.new (D.attached disk.new))
        (D.faults disk.old) (D.faults disk.new) }
    ensures others { KeepsTaken (store_slots store.old) (store_slots store.new) }
    ensures fails { FailsBy result (store_failed store.old) (store_failed store.new) }
    ensures cause { store_failed store.old ≡ false → HasDiskCause result (D.faults disk.old) (D.faults disk.new) }
    ensures attached { D.attached disk.new ≡ D.attached disk.old }
    ensures honest { D.is_honest disk.new ≡ D.is_honest disk.old }
{
    let Some(mut slot) = store.take_slot() else {
        unreachable!()
    };
    let found = has_by(store, disk, &mut slot, pair);
    store.give_slot(slot);
    found
}

/// Whether a pair is in the set, by a slot that was taken.
fn has_by<D: Disk, C: PageCache>(
    store: &mut Store<C>,
    disk: &mut D,
    slot: &mut StoreSlot,
    pair: &Pair,
) -> Result<bool, StoreFault>
    requires slot { IsSlotOf store.old slot.old }
    requires agrees { AgreesUnlessFailed C.pages (D.is_honest disk.old) store.old
        (D.history disk.old (D.attached disk.old)) }
    ensures has { IsTrue (D.is_honest disk.old) → (set : PairSet) → IsIndex (store_contents store.old).terms set → IfOk result (λ found. found ≡ set pair.now) }
    ensures met { IsTrue (D.is_honest disk.old) → IfOk result (λ found. (page : ℕ) × IsPageOf pair.now page (store_contents store.old).terms
        × IsLookedAt pair.now found (term_page page (store_contents store.old).terms)) }
    ensures told { IsTrue (D.is_honest disk.old) → IfErr result (TellsPart store.old) }
    ensures no_memory { result ≡ Err StoreFault.Memory → ⊥ }
    ensures slot { slot.new ≡ slot.old }
    ensures others { AreOthersSame slot.old.number (store_slots store.old) (store_slots store.new) }
    ensures reads { Reads C.pages (D.is_honest disk.old) store.old store.new
        (D.history disk.old (D.attached disk.old)) (D.history disk.new (D.attached disk.new))
        (D.faults disk.old) (D.faults disk.new) }
    ensures fails { FailsBy result (store_failed store.old) (store_failed store.new) }
    ensures cause { store_failed store.old ≡ false → HasDiskCause result (D.faults disk.old) (D.faults disk.new) }
    ensures attached { D.attached disk.new ≡ D.attached disk.old }
    ensures honest { D.is_honest disk.new ≡ D.is_honest disk.old }
{
    let page = page_of_pair(store, pair);
    let said = match look_back(store, disk, slot, page, pair) {
        Ok(said) => said,
        Err(fault) => return Err(fault),
    };
    match said {
        Some(added) => Ok(added),
        None => base_has(store, disk, slot, page, pair),
    }
}

/// What the deltas of a page say of a pair: the newest that says something of it counts.
fn look_back<D: Disk, C: PageCache>(
    store: &mut Store<C>,
    disk: &mut D,
    slot: &mut StoreSlot,
    page: u32,
    pair: &Pair,
) -> Result<Option<bool>, StoreFault>
    requires slot { IsSlotOf store.old slot.old }
    requires agrees { AgreesUnlessFailed C.pages (D.is_honest disk.old) store.old
        (D.history disk.old (D.attached disk.old)) }
    ensures said { IsTrue (D.is_honest disk.old) → (deltas : List (List TermChange)) → AreDeltas (term_page page (store_contents store.old).terms).deltas deltas
        → IfOk result (λ said. said ≡ last_said pair.now deltas) }
    ensures met { IsTrue (D.is_honest disk.old) → IfOk result (λ said. IsLookedBack pair.now said (term_page page (store_contents store.old).terms)) }
    ensures told { IsTrue (D.is_honest disk.old) → IfErr result (TellsPart store.old) }
    ensures no_memory { result ≡ Err StoreFault.Memory → ⊥ }
    ensures reads { Reads C.pages (D.is_honest disk.old) store.old store.new
        (D.history disk.old (D.attached disk.old)) (D.history disk.new (D.attached disk.new))
        (D.faults disk.old) (D.faults disk.new) }
    ensures fails { FailsBy result (store_failed store.old) (store_failed store.new) }
    ensures slot { slot.new ≡ slot.old }
    ensures others { AreOthersSame slot.old.number (store_slots store.old) (store_slots store.new) }
    ensures cause { store_failed store.old ≡ false → HasDiskCause result (D.faults disk.old) (D.faults disk.new) }
    ensures attached { D.attached disk.new ≡ D.attached disk.old }
    ensures honest { D.is_honest disk.new ≡ D.is_honest disk.old }
{
    let first = oldest_delta(store, page);
    let mut i = store.parts(Page::Term(page));
    while i > first {
        i -= 1;
        let said = match look_at(store, disk, slot, page, i, pair) {
            Ok(said) => said,
            Err(fault) => return Err(fault),
        };
        if said.is_some() {
            return Ok(said);
        }
    }
    Ok(None)
}

/// The position of a page's oldest delta among its parts.
pub(crate) fn oldest_delta<C>(store: &Store<C>, page: u32) -> usize
    ensures { result ≡ first_delta (term_page page (store_contents store.now).terms) }
{
    if store.has_base(page) { 1 } else { 0 }
}

/// What a delta of a page says of a pair.
fn look_at<D: Disk, C: PageCache>(
    store: &mut Store<C>,
    disk: &mut D,
    slot: &mut StoreSlot,
    page: u32,
    i: usize,
    pair: &Pair,
) -> Result<Option<bool>, StoreFault>
    requires part { i < length (term_parts (term_page page (store_contents store.old).terms)) }
    requires delta { is_base_at (term_page page (store_contents store.old).terms) i ≡ false }
    requires slot { IsSlotOf store.old slot.old }
    requires agrees { AgreesUnlessFailed C.pages (D.is_honest disk.old) store.old
        (D.history disk.old (D.attached disk.old)) }
    ensures said { IsTrue (D.is_honest disk.old) → (changes : List TermChange) → IsDelta (term_part page i (store_contents store.old).terms) changes
        → IfOk result (λ said. said ≡ said_of pair.now changes) }
    ensures met { IsTrue (D.is_honest disk.old) → OnOk result ((changes : List TermChange) × IsDelta (term_part page i (store_contents store.old).terms) changes) }
    ensures told { IsTrue (D.is_honest disk.old) → IfErr result (TellsPart store.old) }
    ensures no_memory { result ≡ Err StoreFault.Memory → ⊥ }
    ensures reads { Reads C.pages (D.is_honest disk.old) store.old store.new
        (D.history disk.old (D.attached disk.old)) (D.history disk.new (D.attached disk.new))
        (D.faults disk.old) (D.faults disk.new) }
    ensures fails { FailsBy result (store_failed store.old) (store_failed store.new) }
    ensures slot { slot.new ≡ slot.old }
    ensures others { AreOthersSame slot.old.number (store_slots store.old) (store_slots store.new) }
    ensures cause { store_failed store.old ≡ false → HasDiskCause result (D.faults disk.old) (D.faults disk.new) }
    ensures attached { D.attached disk.new ≡ D.attached disk.old }
    ensures honest { D.is_honest disk.new ≡ D.is_honest disk.old }
{
    let len = match store.read_term(disk, page, i, slot) {
        Ok(len) => len,
        Err(fault) => return Err(fault),
    };
    match delta_says(payload_in(store, slot, len), pair) {
        Some(said) => Ok(said),
        None => Err(damaged_at(store, page, i)),
    }
}

/// What the payload of a delta says of a pair. `None` exactly where it is the payload of none.
fn delta_says(payload: &[u8], pair: &Pair) -> Option<Option<bool>>
    ensures said { (changes : List TermChange) → IsDelta payload.now changes → result ≡ Some (said_of pair.now changes) }
    ensures none { IfNone result ((changes : List TermChange) × IsDelta payload.now changes → ⊥) }
    ensures met { IfSome result (λ said. (changes : List TermChange) × IsDelta payload.now changes) }
{
    let delta = ax_delta::check(payload)?;
    Some(delta.look(pair))
}

/// Whether a pair is among those of a page's base.
fn base_has<D: Disk, C: PageCache>(
    store: &mut Store<C>,
    disk: &mut D,
    slot: &mut StoreSlot,
    page: u32,
    pair: &Pair,
) -> Result<bool, StoreFault>
    requires slot { IsSlotOf store.old slot.old }
    requires agrees { AgreesUnlessFailed C.pages (D.is_honest disk.old) store.old
        (D.history disk.old (D.attached disk.old)) }
    ensures has { IsTrue (D.is_honest disk.old) → (base : List Pair) → AreOfBase (term_page page (store_contents store.old).terms).base base
        → IfOk result (λ found. found ≡ has_pair pair.now base) }
    ensures met { IsTrue (D.is_honest disk.old) → OnOk result ((base : List Pair) × AreOfBase (term_page page (store_contents store.old).terms).base base) }
    ensures told { IsTrue (D.is_honest disk.old) → IfErr result (TellsPart store.old) }
    ensures no_memory { result ≡ Err StoreFault.Memory → ⊥ }
    ensures slot { slot.new ≡ slot.old }
    ensures others { AreOthersSame slot.old.number (store_slots store.old) (store_slots store.new) }
    ensures reads { Reads C.pages (D.is_honest disk.old) store.old store.new
        (D.history disk.old (D.attached disk.old)) (D.history disk.new (D.attached disk.new))
        (D.faults disk.old) (D.faults disk.new) }
    ensures fails { FailsBy result (store_failed store.old) (store_failed store.new) }
    ensures cause { store_failed store.old ≡ false → HasDiskCause result (D.faults disk.old) (D.faults disk.new) }
    ensures attached { D.attached disk.new ≡ D.attached disk.old }
    ensures honest { D.is_honest disk.new ≡ D.is_honest disk.old }
{
    if !store.has_base(page) {
        return Ok(false);
    }
    let len = match store.read_term(disk, page, 0, slot) {
        Ok(len) => len,
        Err(fault) => return Err(fault),
    };
    match leaf_has(payload_in(store, slot, len), pair) {
        Some(found) => Ok(found),
        None => Err(damaged_at(store, page, 0)),
    }
}

/// Whether a pair is among those in the payload of a base. `None` exactly where it is the payload of
/// none.
fn leaf_has(payload: &[u8], pair: &Pair) -> Option<bool>
    ensures found { (pairs : List Pair) → IsBase payload.now pairs → result ≡ Some (has_pair pair.now pairs) }
    ensures none { IfNone result ((pairs : List Pair) × IsBase payload.now pairs → ⊥) }
    ensures met { IfSome result (λ found. (pairs : List Pair) × IsBase payload.now pairs) }
{
    let leaf = ax_leaf::check(payload)?;
    match leaf.find(pair.term.as_slice()) {
        Some(numbers) => Some(has_one(numbers, pair.number)),
        None => Some(false),
    }
}
