//! The numbers of a page that has no deltas, straight from its base: no pair is made for them.

ghost use Rattle.std.specs.Prelude.{◌≡◌, ◌++◌, List, IsTrue, IfOk, IfErr, OnOk, true, false};
ghost use Rattle.ax_pair.specs.declared.pair.Pair.{Pair};
ghost use Rattle.ax_pages.specs.Contents.{term_page};
ghost use Rattle.ax_pairs.specs.PagePairs.{AreOfBase, IsBase};
ghost use Rattle.ax_store.specs.Faults.{HasDiskCause};
ghost use Rattle.ax_store.specs.Slots.{AreOthersSame, IsSlotOf};
ghost use Rattle.ax_store.specs.Store.{AgreesUnlessFailed, store_contents, store_failed, store_slots};
ghost use Rattle.ax_index.specs.Damage.{FailsBy, TellsPart};
ghost use Rattle.ax_index.specs.Reading.{numbers_of};
ghost use Rattle.ax_index.specs.Reads.{Reads};

use crate::damage::damaged_at;
use crate::payload::payload_in;
use crate::ranges::is_within_some;
use ax_cache::PageCache;
use ax_disk::Disk;
use ax_leaf::{Memory, PairCursor};
use ax_store::{Store, StoreFault, StoreSlot};
use ax_term::TermRange;
use std::alloc::Global;

/// Puts the numbers of the pairs in a page's base whose terms are in the ranges at the end.
pub(crate) fn gather_base<D: Disk, C: PageCache>(
    alloc: Global,
    store: &mut Store<C>,
    disk: &mut D,
    slot: &mut StoreSlot,
    page: u32,
    ranges: &[TermRange],
    numbers: &mut Vec<u32>,
) -> Result<(), StoreFault>
    requires slot { IsSlotOf store.old slot.old }
    requires agrees { AgreesUnlessFailed C.pages (D.is_honest disk.old) store.old
        (D.history disk.old (D.attached disk.old)) }
    ensures numbers { IsTrue (D.is_honest disk.old) → (base : List Pair) → AreOfBase (term_page page (store_contents store.old).terms).base base
        → OnOk result (numbers.new.items ≡ numbers.old.items ++ numbers_of ranges.now base) }
    ensures met { IsTrue (D.is_honest disk.old) → OnOk result ((base : List Pair) × AreOfBase (term_page page (store_contents store.old).terms).base base) }
    ensures told { IsTrue (D.is_honest disk.old) → IfErr result (TellsPart store.old) }
    ensures slot { slot.new ≡ slot.old }
    ensures others { AreOthersSame slot.old.number (store_slots store.old) (store_slots store.new) }
    ensures reads { Reads C.pages (D.is_honest disk.old) store.old store.new
        (D.history disk.old (D.attached disk.old)) (D.history disk.new (D.attached disk.new))
        (D.faults disk.old) (D.faults disk.new) }
    ensures fails { FailsBy result (store_failed store.old) (store_failed store.new) }
    ensures cause { store_failed store.old ≡ false → HasDiskCause result (D.faults disk.old) (D.faults disk.new) }
    ensures attached { D.attached disk.new ≡ D.attached disk.old }
    ensures honest { D.is_honest disk.new ≡ D.is_honest disk.old }
{
    if !store.has_base(page) {
        return Ok(());
    }
    let len = match store.read_term(disk, page, 0, slot) {
        Ok(len) => len,
        Err(fault) => return Err(fault),
    };
    match put_leaf_numbers(alloc, payload_in(store, slot, len), ranges, numbers) {
        Ok(true) => Ok(()),
        Ok(false) => Err(damaged_at(store, page, 0)),
        Err(_) => Err(StoreFault::Memory),
    }
}

/// Puts the numbers of the pairs in the payload of a base whose terms are in the ranges at the end. It
/// answers whether it is the payload of one.
fn put_leaf_numbers(
    alloc: Global,
    payload: &[u8],
    ranges: &[TermRange],
    numbers: &mut Vec<u32>,
) -> Result<bool, Memory>
    ensures has { (base : List Pair) → IsBase payload.now base
        → IfOk result (λ is_base. (is_base ≡ true) × (numbers.new.items ≡ numbers.old.items ++ numbers_of ranges.now base)) }
    ensures none { IfOk result (λ is_base. is_base ≡ false → (base : List Pair) × IsBase payload.now base → ⊥) }
    ensures met { IfOk result (λ is_base. is_base ≡ true → (base : List Pair) × IsBase payload.now base) }
{
    let Some(leaf) = ax_leaf::check(payload) else {
        return Ok(false);
    };
    put_rest(alloc, leaf.cursor(alloc), ranges, numbers)?;
    Ok(true)
}

/// Puts the numbers of the pairs that a cursor has still to give, whose terms are in the ranges, at the end.
fn put_rest(
    alloc: Global,
    mut cursor: PairCursor<'_>,
    ranges: &[TermRange],
    numbers: &mut Vec<u32>,
) -> Result<(), Memory>
    ensures { OnOk result (numbers.new.items ≡ numbers.old.items ++ numbers_of ranges.now cursor.entry) }
{
    let mut term = Vec::new(alloc);
    while let Some(number) = cursor.next(&mut term)? {
        if is_within_some(ranges, term.as_slice()) {
            numbers.push(number)?;
        }
    }
    Ok(())
}
