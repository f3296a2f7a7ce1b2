//! The numbers with a term in a range, or in one of several.

ghost use Rattle.std.specs.Prelude.{◌≡◌, ◌↔◌, ◌<◌, ◌≤◌, ℕ, List, [], ◌∷◌, ◌++◌, IsTrue, IfOk, IfErr, IfSome, OnOk, true, false, length};
ghost use Rattle.std.specs.Option.{option_copied};
ghost use Rattle.std.specs.declared.cmp.Ordering.TheVariants.{Less, Greater};
ghost use Rattle.ax_gap.specs.Gaps.{IsRisingList};
ghost use Rattle.ax_pair.specs.declared.pair.Pair.{Pair};
ghost use Rattle.ax_pair.specs.Order.{pair_cmp};
ghost use Rattle.ax_delta.specs.Said.{has_number};
ghost use Rattle.ax_pages.specs.Contents.{term_page};
ghost use Rattle.ax_pages.specs.TermPages.{low_pair};
ghost use Rattle.ax_pairs.specs.Index.{IsIndex};
ghost use Rattle.ax_pairs.specs.PagePairs.{HasPairs};
ghost use Rattle.ax_pairs.specs.PairSets.{PairSet};
ghost use Rattle.ax_pool.specs.Frames.{free_count};
ghost use Rattle.ax_store.specs.Faults.{HasDiskCause};
ghost use Rattle.ax_store.specs.Slots.{AreOthersSame, IsSlotOf};
ghost use Rattle.ax_store.specs.Store.{AgreesUnlessFailed, store_contents, store_slots, store_failed};
ghost use Rattle.ax_index.specs.Damage.{FailsBy, TellsPart};
ghost use Rattle.ax_index.specs.Grammar.{AreInGrammar, HasAllThatStand, IsInGrammar};
ghost use Rattle.ax_index.specs.Reading.{Gathers, HasWithin, IsAhead, IsTermUpTo, StartsUpTo, numbers_of, pages_after};
ghost use Rattle.ax_index.specs.Reads.{KeepsTaken, Reads};
ghost use Rattle.ax_index.specs.Wanted.{AreNumbersIn, AreNumbersInSome, is_in_some};

use crate::base_numbers::gather_base;
use crate::folding::folded;
use crate::merging::has_deltas;
use crate::ranges::{is_within_some, least_start};
use crate::wanted::Wanted;
use ax_cache::PageCache;
use ax_disk::Disk;
use ax_pair_list::PairList;
use ax_store::{Store, StoreFault, StoreSlot};
use ax_term::TermRange;
use std::alloc::{AllocError, Global};
use std::slice;

/// The rising numbers with a term in the range, of the set that the term pages hold. It reads the pages
/// that may have a term of the range, each with its parts. The numbers rise whatever the pages hold and
/// whatever the disk gives: it is `pairs_in_some` of the one range. Over an honest disk numbers are answered only
/// where each part of these pages is in its grammar, and all that stand there, as with that.
///
/// `Disk`, `Damaged`: as `has`. `Memory` where there is no room for the pairs of a page or for the numbers.
pub fn pairs_in<D: Disk, C: PageCache>(
    alloc: Global,
    store: &mut Store<C>,
    disk: &mut D,
    range: &TermRange,
) -> Result<Vec<u32>, StoreFault>
    requires free { 2 ≤ free_count (store_slots store.old) }
    requires agrees { AgreesUnlessFailed C.pages (D.is_honest disk.old) store.old
        (D.history disk.old (D.attached disk.old)) }
    ensures numbers { IsTrue (D.is_honest disk.old) → (set : PairSet) → IsIndex (store_contents store.old).terms set
        → IfOk result (λ numbers. AreNumbersIn range.now set numbers.items) }
    ensures rising { IfOk result (λ numbers. IsRisingList numbers.items) }
    ensures met { IsTrue (D.is_honest disk.old) → OnOk result (AreInGrammar (range.now ∷ []) (store_contents store.old).terms) }
    ensures all { IsTrue (D.is_honest disk.old)
        → IfOk result (λ numbers. HasAllThatStand (range.now ∷ []) (store_contents store.old).terms numbers.items) }
    ensures told { IsTrue (D.is_honest disk.old) → IfErr result (TellsPart store.old) }
    ensures reads { Reads C.pages (D.is_honest disk.old) store.old store.new
        (D.history disk.old (D.attached disk.old)) (D.history disk.new (D.attached disk.new))
        (D.faults disk.old) (D.faults disk.new) }
    ensures others { KeepsTaken (store_slots store.old) (store_slots store.new) }
    ensures fails { FailsBy result (store_failed store.old) (store_failed store.new) }
    ensures cause { store_failed store.old ≡ false → HasDiskCause result (D.faults disk.old) (D.faults disk.new) }
    ensures attached { D.attached disk.new ≡ D.attached disk.old }
    ensures honest { D.is_honest disk.new ≡ D.is_honest disk.old }
{
    pairs_in_some(alloc, store, disk, slice::from_ref(range))
}

/// The rising numbers with a term in one of the ranges, of the set that the term pages hold. It reads each page
/// that may have a term of one of them once, however many reach it, and no other. The ranges may stand in any
/// order and have terms in common; of none there are no numbers. The numbers rise whatever the pages hold and
/// whatever the disk gives. Over an honest disk they are answered only where each part of these pages is in its
/// grammar.
///
/// `Disk`, `Damaged`: as `has`. `Memory` where there is no room for the pairs of a page or for the numbers.
pub fn pairs_in_some<D: Disk, C: PageCache>(
    alloc: Global,
    store: &mut Store<C>,
    disk: &mut D,
    ranges: &[TermRange],
) -> Result<Vec<u32>, StoreFault>
    requires free { 2 ≤ free_count (store_slots store.old) }
    requires agrees { AgreesUnlessFailed C.pages (D.is_honest disk.old) store.old
        (D.history disk.old (D.attached disk.old)) }
    ensures numbers { IsTrue (D.is_honest disk.old) → (set : PairSet) → IsIndex (store_contents store.old).terms set
        → IfOk result (λ numbers. AreNumbersInSome ranges.now set numbers.items) }
    ensures rising { IfOk result (λ numbers. IsRisingList numbers.items) }
    ensures met { IsTrue (D.is_honest disk.old) → OnOk result (AreInGrammar ranges.now (store_contents store.old).terms) }
    ensures all { IsTrue (D.is_honest disk.old) → IfOk result (λ numbers. HasAllThatStand ranges.now (store_contents store.old).terms numbers.items) }
    ensures told { IsTrue (D.is_honest disk.old) → IfErr result (TellsPart store.old) }
    ensures reads { Reads C.pages (D.is_honest disk.old) store.old store.new
        (D.history disk.old (D.attached disk.old)) (D.history disk.new (D.attached disk.new))
        (D.faults disk.old) (D.faults disk.new) }
    ensures others { KeepsTaken (store_slots store.old) (store_slots store.new) }
    ensures fails { FailsBy result (store_failed store.old) (store_failed store.new) }
    ensures cause { store_failed store.old ≡ false → HasDiskCause result (D.faults disk.old) (D.faults disk.new) }
    ensures attached { D.attached disk.new ≡ D.attached disk.old }
    ensures honest { D.is_honest disk.new ≡ D.is_honest disk.old }
{
    let Some(mut slot) = store.take_slot() else {
        unreachable!()
    };
    let found = numbers_by(alloc, store, disk, &mut slot, ranges);
    store.give_slot(slot);
    found
}

/// The rising numbers with a term in one of the ranges, by a slot that was taken.
fn numbers_by<D: Disk, C: PageCache>(
    alloc: Global,
    store: &mut Store<C>,
    disk: &mut D,
    slot: &mut StoreSlot,
    ranges: &[TermRange],
) -> Result<Vec<u32>, StoreFault>
    requires slot { IsSlotOf store.old slot.old }
    requires agrees { AgreesUnlessFailed C.pages (D.is_honest disk.old) store.old
        (D.history disk.old (D.attached disk.old)) }
    ensures numbers { IsTrue (D.is_honest disk.old) → (set : PairSet) → IsIndex (store_contents store.old).terms set
        → IfOk result (λ numbers. AreNumbersInSome ranges.now set numbers.items) }
    ensures rising { IfOk result (λ numbers. IsRisingList numbers.items) }
    ensures met { IsTrue (D.is_honest disk.old) → OnOk result (AreInGrammar ranges.now (store_contents store.old).terms) }
    ensures all { IsTrue (D.is_honest disk.old) → IfOk result (λ numbers. HasAllThatStand ranges.now (store_contents store.old).terms numbers.items) }
    ensures told { IsTrue (D.is_honest disk.old) → IfErr result (TellsPart store.old) }
    ensures slot { slot.new ≡ slot.old }
    ensures others { AreOthersSame slot.old.number (store_slots store.old) (store_slots store.new) }
    ensures reads { Reads C.pages (D.is_honest disk.old) store.old store.new
        (D.history disk.old (D.attached disk.old)) (D.history disk.new (D.attached disk.new))
        (D.faults disk.old) (D.faults disk.new) }
    ensures fails { FailsBy result (store_failed store.old) (store_failed store.new) }
    ensures cause { store_failed store.old ≡ false → HasDiskCause result (D.faults disk.old) (D.faults disk.new) }
    ensures attached { D.attached disk.new ≡ D.attached disk.old }
    ensures honest { D.is_honest disk.new ≡ D.is_honest disk.old }
{
    let mut numbers = match gathered(alloc, store, disk, slot, ranges) {
        Ok(numbers) => numbers,
        Err(fault) => return Err(fault),
    };
    put_in_order(&mut numbers);
    Ok(numbers)
}

/// Sorts numbers, and keeps one of those that are equal.
fn put_in_order(numbers: &mut Vec<u32>)
    ensures rising { IsRisingList numbers.new.items }
    ensures same { (number : ℕ) → has_number number numbers.new.items ≡ has_number number numbers.old.items }
{
    numbers.sort_unstable();
    numbers.dedup();
}

/// The numbers with a term in one of the ranges, in no order; one may be there more than once.
fn gathered<D: Disk, C: PageCache>(
    alloc: Global,
    store: &mut Store<C>,
    disk: &mut D,
    slot: &mut StoreSlot,
    ranges: &[TermRange],
) -> Result<Vec<u32>, StoreFault>
    requires slot { IsSlotOf store.old slot.old }
    requires agrees { AgreesUnlessFailed C.pages (D.is_honest disk.old) store.old
        (D.history disk.old (D.attached disk.old)) }
    ensures numbers { IsTrue (D.is_honest disk.old) → (set : PairSet) → IsIndex (store_contents store.old).terms set
        → IfOk result (λ numbers. (number : ℕ) → (has_number number numbers.items ≡ true) ↔ HasWithin ranges.now set number) }
    ensures met { IsTrue (D.is_honest disk.old) → OnOk result (AreInGrammar ranges.now (store_contents store.old).terms) }
    ensures all { IsTrue (D.is_honest disk.old) → IfOk result (λ numbers. HasAllThatStand ranges.now (store_contents store.old).terms numbers.items) }
    ensures told { IsTrue (D.is_honest disk.old) → IfErr result (TellsPart store.old) }
    ensures slot { slot.new ≡ slot.old }
    ensures others { AreOthersSame slot.old.number (store_slots store.old) (store_slots store.new) }
    ensures reads { Reads C.pages (D.is_honest disk.old) store.old store.new
        (D.history disk.old (D.attached disk.old)) (D.history disk.new (D.attached disk.new))
        (D.faults disk.old) (D.faults disk.new) }
    ensures fails { FailsBy result (store_failed store.old) (store_failed store.new) }
    ensures cause { store_failed store.old ≡ false → HasDiskCause result (D.faults disk.old) (D.faults disk.new) }
    ensures attached { D.attached disk.new ≡ D.attached disk.old }
    ensures honest { D.is_honest disk.new ≡ D.is_honest disk.old }
{
    let mut numbers = Vec::new(alloc);
    let mut next = first_page(store, ranges);
    while let Some(page) = next {
        match gather(alloc, store, disk, slot, page, ranges, &mut numbers) {
            Ok(()) => {}
            Err(fault) => return Err(fault),
        }
        next = page_behind(store, page, ranges);
    }
    Ok(numbers)
}

/// The first page that may have a term of the ranges. `None` only where they have no term.
fn first_page<C>(store: &Store<C>, ranges: &[TermRange]) -> Option<u32>
    ensures there { IfSome result (λ page. page < length (store_contents store.now).terms) }
    ensures reaches { (p : Pair) → is_in_some ranges.now p.term ≡ true → IsAhead result p (store_contents store.now).terms }
{
    let start = least_start(ranges, &[])?;
    Some(store.page_of(start, 0))
}

/// The next page behind another that may have a term of the ranges: the very next one, or that where the
/// least of their terms behind it would stand.
fn page_behind<C>(store: &Store<C>, page: u32, ranges: &[TermRange]) -> Option<u32>
    requires { page < length (store_contents store.now).terms }
    ensures there { IfSome result (λ next. next < length (store_contents store.now).terms) }
    ensures fewer { IfSome result (λ next. pages_after (low_pair next (store_contents store.now).terms) (store_contents store.now).terms
        < pages_after (low_pair page (store_contents store.now).terms) (store_contents store.now).terms) }
    ensures reaches { (p : Pair) (other : ℕ) → is_in_some ranges.now p.term ≡ true → other < length (store_contents store.now).terms
        → pair_cmp (low_pair page (store_contents store.now).terms) (low_pair other (store_contents store.now).terms) ≡ Less
        → (pair_cmp (low_pair other (store_contents store.now).terms) p ≡ Greater → ⊥)
        → IsAhead result p (store_contents store.now).terms }
{
    let next = store.next_page(page)?;
    let Some(start) = start_from(store, next, ranges) else {
        return None;
    };
    let (term, _) = store.low(next);
    if start.cmp(term).is_le() {
        Some(next)
    } else {
        Some(store.page_of(start, 0))
    }
}

/// The least start of those ranges that have terms from the first of a page on.
fn start_from<'a, C>(store: &Store<C>, page: u32, ranges: &'a [TermRange]) -> Option<&'a [u8]>
    requires { page < length (store_contents store.now).terms }
    ensures { (other : List ℕ) → is_in_some ranges.now other ≡ true → IsTermUpTo (low_pair page (store_contents store.now).terms).term other
        → StartsUpTo (option_copied result) other }
{
    let (term, _) = store.low(page);
    least_start(ranges, term)
}

/// Puts the numbers of a page's pairs whose terms are in the ranges at the end.
fn gather<D: Disk, C: PageCache>(
    alloc: Global,
    store: &mut Store<C>,
    disk: &mut D,
    slot: &mut StoreSlot,
    page: u32,
    ranges: &[TermRange],
    numbers: &mut Vec<u32>,
) -> Result<(), StoreFault>
    requires page { page < length (store_contents store.old).terms }
    requires slot { IsSlotOf store.old slot.old }
    requires agrees { AgreesUnlessFailed C.pages (D.is_honest disk.old) store.old
        (D.history disk.old (D.attached disk.old)) }
    ensures numbers { IsTrue (D.is_honest disk.old) → (pairs : List Pair) → HasPairs (term_page page (store_contents store.old).terms) pairs
        → OnOk result (Gathers ranges.now pairs numbers.old.items numbers.new.items) }
    ensures met { IsTrue (D.is_honest disk.old) → OnOk result (IsInGrammar (term_page page (store_contents store.old).terms)) }
    ensures told { IsTrue (D.is_honest disk.old) → IfErr result (TellsPart store.old) }
    ensures slot { slot.new ≡ slot.old }
    ensures others { AreOthersSame slot.old.number (store_slots store.old) (store_slots store.new) }
    ensures reads { Reads C.pages (D.is_honest disk.old) store.old store.new
        (D.history disk.old (D.attached disk.old)) (D.history disk.new (D.attached disk.new))
        (D.faults disk.old) (D.faults disk.new) }
    ensures fails { FailsBy result (store_failed store.old) (store_failed store.new) }
    ensures cause { store_failed store.old ≡ false → HasDiskCause result (D.faults disk.old) (D.faults disk.new) }
    ensures attached { D.attached disk.new ≡ D.attached disk.old }
    ensures honest { D.is_honest disk.new ≡ D.is_honest disk.old }
{
    if !has_deltas(store, page) {
        return gather_base(alloc, store, disk, slot, page, ranges, numbers);
    }
    let wanted = Wanted::In(ranges);
    let pairs = match folded(alloc, store, disk, slot, page, &wanted) {
        Ok(pairs) => pairs,
        Err(fault) => return Err(fault),
    };
    match put_numbers(numbers, &pairs, ranges) {
        Ok(()) => Ok(()),
        Err(_) => Err(StoreFault::Memory),
    }
}

/// Puts the numbers of the pairs whose terms are in the ranges at the end.
fn put_numbers(
    numbers: &mut Vec<u32>,
    pairs: &PairList,
    ranges: &[TermRange],
) -> Result<(), AllocError>
    ensures { OnOk result (numbers.new.items ≡ numbers.old.items ++ numbers_of ranges.now pairs.now) }
{
    for at in 0..pairs.len() {
        let (term, number) = pairs.pair(at);
        if !is_within_some(ranges, term) {
            continue;
        }
        numbers.push(number)?;
    }
    Ok(())
}
