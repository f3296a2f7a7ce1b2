//! The document of an id: under which number it stands, and what it is.

ghost use Rattle.std.specs.Prelude.{◌≡◌, ◌<◌, ◌≤◌, ◌+◌, ℕ, Some, IsTrue, IfOk, IfSome, false};
ghost use Rattle.ax_container.specs.Container.{Container, contains};
ghost use Rattle.ax_storable.specs.Storable.{IsStorable};
ghost use Rattle.ax_pool.specs.Frames.{free_count};
ghost use Rattle.ax_store.specs.Store.{AgreesUnlessFailed, store_contents, store_slots};
ghost use Rattle.ax_image_pairs.specs.Found.{number_in};
ghost use Rattle.ax_write.specs.Learnt.{HasPut, Learns, Puts};
ghost use Rattle.ax_write.specs.Writes.{Finds, HoldsAll, IsFoundIn, IsHeldAs, IsLookedUp, IsTextHeld, Looks};

use crate::held::{HeldDocument, fetch_held};
use ax_base::Steps;
use ax_cache::PageCache;
use ax_disk::Disk;
use ax_index::number_of;
use ax_recent::RecentIds;
use ax_store::{Store, StoreFault};
use std::alloc::Global;
use std::sync::ledger::Ledger;

/// A document that was found by its id, and its number.
#[derive(Drop)]
pub(crate) struct FoundDocument {
    pub(crate) number: u32,
    pub(crate) document: HeldDocument,
}

/// The number of the document of an id; `None` exactly where none is held. An id that was lately found is told by the table
/// of these and reads nothing; any other by the index, and is put into the table with the number that the index tells, and
/// nothing else is put there. Over an honest disk the index tells it, or that there is none, only where each part of a term
/// page that is read is in its grammar.
///
/// `Damaged` where a part of a term page that is read is outside its grammar, with its place.
/// `Disk` where a read failed, or the store has failed before and the table does not tell the id. `Memory` where there is
/// no room for what is read.
pub fn find_number<D: Disk, C: PageCache>(
    alloc: Global,
    store: &mut Store<C>,
    disk: &mut D,
    ids: &mut RecentIds,
    id: &[u8],
) -> Result<Option<u32>, StoreFault>
    requires free { 2 ≤ free_count (store_slots store.old) }
    requires agrees { AgreesUnlessFailed C.pages (D.is_honest disk.old) store.old (D.history disk.old (D.attached disk.old)) }
    ensures number { IsTrue (D.is_honest disk.old) → (before : Container) → HoldsAll store.old ids.old before
        → IfOk result (λ found. found ≡ number_in id.now before) }
    ensures met { IsTrue (D.is_honest disk.old) → IfOk result (IsLookedUp ids.old id.now (store_contents store.old)) }
    ensures ids { IsTrue (D.is_honest disk.old) → (before : Container) → HoldsAll store.old ids.old before
        → HoldsAll store.new ids.new before }
    ensures learns { Learns (D.is_honest disk.old) id.now (store_contents store.old) ids.old ids.new }
    ensures kept { IfOk result (λ found. IfSome found (λ number. HasPut id.now number ids.new)) }
    ensures leaves { Looks C.pages (D.is_honest disk.old) result store.old store.new
        (D.history disk.old (D.attached disk.old)) (D.history disk.new (D.attached disk.new))
        (D.faults disk.old) (D.faults disk.new) }
    ensures attached { D.attached disk.new ≡ D.attached disk.old }
    ensures honest { D.is_honest disk.new ≡ D.is_honest disk.old }
{
    if let Some(number) = ids.get(id) {
        return Ok(Some(number));
    }
    match number_of(alloc, store, disk, id) {
        Ok(Some(number)) => {
            remember(ids, id, number);
            Ok(Some(number))
        }
        Ok(None) => Ok(None),
        Err(fault) => Err(fault),
    }
}

/// Puts an id that was found into the table of those lately found, with its number.
fn remember(ids: &mut RecentIds, id: &[u8], number: u32)
    ensures { Puts id.now number ids.old ids.new }
{
    ids.put(id, number);
}

/// The document of an id; `None` exactly where none is held. It counts one step where a number was found, else none.
///
/// As `find_number`, whose number it is under which the document is found over an honest disk, and `Damaged` also where the text
/// of the document is that of none, with the place of its part: over an honest disk such a document is not told as one that
/// is not held.
pub(crate) fn find_held<D: Disk, C: PageCache, L: Ledger>(
    alloc: Global,
    store: &mut Store<C>,
    disk: &mut D,
    ids: &mut RecentIds,
    id: &[u8],
    steps: &mut Steps<L>,
) -> Result<Option<FoundDocument>, StoreFault>
    requires free { 2 ≤ free_count (store_slots store.old) }
    requires agrees { AgreesUnlessFailed C.pages (D.is_honest disk.old) store.old (D.history disk.old (D.attached disk.old)) }
    ensures found { IsTrue (D.is_honest disk.old) → (before : Container) → HoldsAll store.old ids.old before
        → IfOk result (IsFoundIn id.now before) }
    ensures met { IsTrue (D.is_honest disk.old) → IfOk result (Finds ids.old id.now (store_contents store.old)) }
    ensures number { IsTrue (D.is_honest disk.old) → IfOk result (λ found. IfSome found
        (λ found. IsLookedUp ids.old id.now (store_contents store.old) (Some found.number))) }
    ensures ids { IsTrue (D.is_honest disk.old) → (before : Container) → HoldsAll store.old ids.old before
        → HoldsAll store.new ids.new before }
    ensures learns { Learns (D.is_honest disk.old) id.now (store_contents store.old) ids.old ids.new }
    ensures held { IfOk result (λ found. IfSome found (IsHeldAs (store_contents store.old))) }
    ensures storable { IfOk result (λ found. IfSome found (λ found. IsStorable found.document.tree)) }
    ensures some { IfOk result (λ found. IfSome found (λ found. 0 < found.number)) }
    ensures one { steps.new ≤ steps.old + 1 }
    ensures none { IsTrue (D.is_honest disk.old) → (before : Container) → HoldsAll store.old ids.old before
        → contains id.now before ≡ false → steps.new ≡ steps.old }
    ensures counted { IfOk result (λ found. IfSome found (λ found. steps.new ≡ steps.old + 1)) }
    ensures text { IsTrue (D.is_honest disk.old) → IfOk result (λ found. IfSome found (IsTextHeld (store_contents store.old))) }
    ensures never_falls { steps.old ≤ steps.new }
    ensures leaves { Looks C.pages (D.is_honest disk.old) result store.old store.new
        (D.history disk.old (D.attached disk.old)) (D.history disk.new (D.attached disk.new))
        (D.faults disk.old) (D.faults disk.new) }
    ensures attached { D.attached disk.new ≡ D.attached disk.old }
    ensures honest { D.is_honest disk.new ≡ D.is_honest disk.old }
{
    let number = match find_number(alloc, store, disk, ids, id) {
        Ok(Some(number)) => number,
        Ok(None) => return Ok(None),
        Err(fault) => return Err(fault),
    };
    // No document has the number 0.
    if number == 0 {
        return Ok(None);
    }
    match fetch_held(alloc, store, disk, number, steps) {
        Ok(Some(document)) => Ok(Some(FoundDocument { number, document })),
        Ok(None) => Ok(None),
        Err(fault) => Err(fault),
    }
}
