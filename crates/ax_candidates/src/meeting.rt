//! The numbers found so far, met with those of one union of ranges more.

ghost use Rattle.std.specs.Prelude.{◌≡◌, ◌⊎◌, ◌≤◌, ℕ, IsTrue, IfOk, IfErr, IfSome, OnOk, Some, None, true, false};
ghost use Rattle.ax_gap.specs.Gaps.{IsRisingList};
ghost use Rattle.ax_delta.specs.Said.{has_number};
ghost use Rattle.ax_pairs.specs.Index.{IsIndex};
ghost use Rattle.ax_pairs.specs.PairSets.{PairSet};
ghost use Rattle.ax_pool.specs.Frames.{free_count};
ghost use Rattle.ax_store.specs.Faults.{HasDiskCause};
ghost use Rattle.ax_store.specs.Store.{AgreesUnlessFailed, store_contents, store_slots, store_failed};
ghost use Rattle.ax_index.specs.Damage.{FailsBy, TellsPart};
ghost use Rattle.ax_index.specs.Grammar.{AreInGrammar};
ghost use Rattle.ax_index.specs.Reads.{KeepsTaken, Reads};
ghost use Rattle.ax_candidates.specs.Meeting.{AreMet, AreShared, IsAsked, IsLeft};

use ax_cache::PageCache;
use ax_disk::Disk;
use ax_gap::{Memory, meet};
use ax_index::pairs_in_some;
use ax_mean::Items;
use ax_store::{Store, StoreFault};
use ax_term::TermRange;
use std::alloc::Global;

/// The numbers found so far that have a term in one of the ranges; `None` are all numbers.
pub(crate) fn met_once<D: Disk, C: PageCache>(
    alloc: Global,
    store: &mut Store<C>,
    disk: &mut D,
    found: Option<Items<u32>>,
    ranges: &[TermRange],
) -> Result<Items<u32>, StoreFault>
    requires found { IfSome found IsRisingList }
    requires free { 2 ≤ free_count (store_slots store.old) }
    requires agrees { AgreesUnlessFailed C.pages (D.is_honest disk.old) store.old
        (D.history disk.old (D.attached disk.old)) }
    ensures numbers { IsTrue (D.is_honest disk.old) → (set : PairSet) → IsIndex (store_contents store.old).terms set
        → IfOk result (λ left. AreMet found ranges.now set left) }
    ensures rising { IfOk result IsRisingList }
    ensures met { IsTrue (D.is_honest disk.old) → IfOk result (λ left. (number : ℕ) → has_number number left ≡ true
        → AreInGrammar ranges.now (store_contents store.old).terms) }
    ensures fewer { IfOk result (λ left. (number : ℕ) → has_number number left ≡ true → IsLeft found number) }
    ensures asked { IsTrue (D.is_honest disk.old) → IfOk result (λ left. (found ≡ Some left)
        ⊎ IsAsked found ranges.now (store_contents store.old).terms left) }
    ensures told { IsTrue (D.is_honest disk.old) → IfErr result (TellsPart store.old) }
    ensures reads { Reads C.pages (D.is_honest disk.old) store.old store.new
        (D.history disk.old (D.attached disk.old)) (D.history disk.new (D.attached disk.new))
        (D.faults disk.old) (D.faults disk.new) }
    ensures others { KeepsTaken (store_slots store.old) (store_slots store.new) }
    ensures fails { FailsBy result (store_failed store.old) (store_failed store.new) }
    ensures cause { store_failed store.old ≡ false → HasDiskCause result (D.faults disk.old) (D.faults disk.new) }
    ensures attached { D.attached disk.new ≡ D.attached disk.old }
    ensures honest { D.is_honest disk.new ≡ D.is_honest disk.old }
{
    match found {
        Some(found) => met_further(alloc, store, disk, found, ranges),
        None => first_found(alloc, store, disk, ranges),
    }
}

/// The numbers with a term in one of the ranges.
fn first_found<D: Disk, C: PageCache>(
    alloc: Global,
    store: &mut Store<C>,
    disk: &mut D,
    ranges: &[TermRange],
) -> Result<Items<u32>, StoreFault>
    requires free { 2 ≤ free_count (store_slots store.old) }
    requires agrees { AgreesUnlessFailed C.pages (D.is_honest disk.old) store.old
        (D.history disk.old (D.attached disk.old)) }
    ensures numbers { IsTrue (D.is_honest disk.old) → (set : PairSet) → IsIndex (store_contents store.old).terms set
        → IfOk result (λ found. AreMet None ranges.now set found) }
    ensures rising { IfOk result IsRisingList }
    ensures met { IsTrue (D.is_honest disk.old) → OnOk result (AreInGrammar ranges.now (store_contents store.old).terms) }
    ensures asked { IsTrue (D.is_honest disk.old) → IfOk result (IsAsked None ranges.now (store_contents store.old).terms) }
    ensures told { IsTrue (D.is_honest disk.old) → IfErr result (TellsPart store.old) }
    ensures reads { Reads C.pages (D.is_honest disk.old) store.old store.new
        (D.history disk.old (D.attached disk.old)) (D.history disk.new (D.attached disk.new))
        (D.faults disk.old) (D.faults disk.new) }
    ensures others { KeepsTaken (store_slots store.old) (store_slots store.new) }
    ensures fails { FailsBy result (store_failed store.old) (store_failed store.new) }
    ensures cause { store_failed store.old ≡ false → HasDiskCause result (D.faults disk.old) (D.faults disk.new) }
    ensures attached { D.attached disk.new ≡ D.attached disk.old }
    ensures honest { D.is_honest disk.new ≡ D.is_honest disk.old }
{
    match pairs_in_some(alloc, store, disk, ranges) {
        Ok(numbers) => Ok(Items::from_vec(numbers)),
        Err(fault) => Err(fault),
    }
}

/// Those of rising numbers that have a term in one of the ranges. Of no numbers nothing is read.
#[tactic(auto, using(crate::proofs::Shared::none_met))]
fn met_further<D: Disk, C: PageCache>(
    alloc: Global,
    store: &mut Store<C>,
    disk: &mut D,
    found: Items<u32>,
    ranges: &[TermRange],
) -> Result<Items<u32>, StoreFault>
    requires found { IsRisingList found }
    requires free { 2 ≤ free_count (store_slots store.old) }
    requires agrees { AgreesUnlessFailed C.pages (D.is_honest disk.old) store.old
        (D.history disk.old (D.attached disk.old)) }
    ensures numbers { IsTrue (D.is_honest disk.old) → (set : PairSet) → IsIndex (store_contents store.old).terms set
        → IfOk result (λ left. AreMet (Some found) ranges.now set left) }
    ensures rising { IfOk result IsRisingList }
    ensures met { IsTrue (D.is_honest disk.old) → IfOk result (λ left. (number : ℕ) → has_number number left ≡ true
        → AreInGrammar ranges.now (store_contents store.old).terms) }
    ensures fewer { IfOk result (λ left. (number : ℕ) → has_number number left ≡ true → has_number number found ≡ true) }
    ensures asked { IsTrue (D.is_honest disk.old) → IfOk result (λ left. (left ≡ found)
        ⊎ IsAsked (Some found) ranges.now (store_contents store.old).terms left) }
    ensures told { IsTrue (D.is_honest disk.old) → IfErr result (TellsPart store.old) }
    ensures reads { Reads C.pages (D.is_honest disk.old) store.old store.new
        (D.history disk.old (D.attached disk.old)) (D.history disk.new (D.attached disk.new))
        (D.faults disk.old) (D.faults disk.new) }
    ensures others { KeepsTaken (store_slots store.old) (store_slots store.new) }
    ensures fails { FailsBy result (store_failed store.old) (store_failed store.new) }
    ensures cause { store_failed store.old ≡ false → HasDiskCause result (D.faults disk.old) (D.faults disk.new) }
    ensures attached { D.attached disk.new ≡ D.attached disk.old }
    ensures honest { D.is_honest disk.new ≡ D.is_honest disk.old }
{
    if found.as_slice().is_empty() {
        return Ok(found);
    }
    let others = match pairs_in_some(alloc, store, disk, ranges) {
        Ok(others) => others,
        Err(fault) => return Err(fault),
    };
    match in_both(alloc, &found, others) {
        Ok(both) => Ok(both),
        Err(_) => Err(StoreFault::Memory),
    }
}

/// The numbers that are in both of two rising lists.
#[tactic(auto, using(crate::proofs::Shared::shared_rise))]
fn in_both(alloc: Global, found: &Items<u32>, others: Vec<u32>) -> Result<Items<u32>, Memory>
    requires found { IsRisingList found.now }
    requires others { IsRisingList others.items }
    ensures rising { IfOk result IsRisingList }
    ensures both { IfOk result (λ both. AreShared found.now others.items both) }
{
    let both = meet(alloc, found.as_slice(), others.as_slice())?;
    Ok(Items::from_vec(both))
}
