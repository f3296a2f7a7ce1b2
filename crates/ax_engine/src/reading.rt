//! The documents of an open store: their numbers in order, their texts, and where a part stands.

ghost use Rattle.std.specs.Prelude.{◌≡◌, ◌⊎◌, ◌+◌, ◌<◌, ℕ, IsTrue, IfOk, IfErr, IfSome, IfNone, Some, None};
ghost use Rattle.std.specs.FinMap as map;
ghost use Rattle.ax_pages.specs.Area.{extent_number};
ghost use Rattle.ax_store.specs.ReadAhead.{ahead_text, IsAhead};
ghost use Rattle.ax_store.specs.Store.{store_area, store_offsets, store_contents};
ghost use Rattle.ax_store.specs.Listed.{IsNextAfter};
ghost use Rattle.ax_engine.specs.InPages.{IsPlaced};
ghost use Rattle.ax_engine.specs.Scans.{IsReady, Scans};

use ax_answer_text::TextFault;
use ax_base::Steps;
use ax_cache::PageCache;
use ax_disk::Disk;
use ax_store::{Page, ReadAhead, Store, StoreFault};
use std::sync::ledger::Ledger;

/// The least number above another that is held. `None` exactly where there is none.
pub(crate) fn next_held<C>(store: &Store<C>, after: u32) -> Option<u32>
    ensures found { IfSome result (IsNextAfter (store_contents store.now).documents after) }
    ensures none { IfNone result ((number : ℕ) → after < number → map.get (store_contents store.now).documents number ≡ None) }
{
    store.next_document(after)
}

/// Finds the text of a document, which `ahead` shows from then on, and answers whether the number is
/// held. `Disk` where a read failed, `Memory` where there is none for what is read.
pub(crate) fn read_document<D: Disk, C: PageCache>(
    store: &mut Store<C>,
    disk: &mut D,
    ahead: &mut ReadAhead,
    number: u32,
) -> Result<bool, StoreFault>
    requires ready { IsReady C.pages (D.is_honest disk.old) store.old ahead.old (D.history disk.old (D.attached disk.old)) }
    ensures text { IsTrue (D.is_honest disk.old)
        → IfOk result (λ found. IsAhead (map.get (store_contents store.old).documents number) found (ahead_text ahead.new)) }
    ensures scans { Scans C.pages (D.is_honest disk.old) result store.old store.new ahead.new
        (D.history disk.old (D.attached disk.old)) (D.history disk.new (D.attached disk.new))
        (D.faults disk.old) (D.faults disk.new) }
    ensures only { IfErr result (λ fault. (fault ≡ StoreFault.Disk) ⊎ (fault ≡ StoreFault.Memory)) }
    ensures attached { D.attached disk.new ≡ D.attached disk.old }
    ensures honest { D.is_honest disk.new ≡ D.is_honest disk.old }
{
    store.read_ahead(disk, number, ahead)
}

/// The same for a query that goes over the documents: it takes one step of work, whatever it answers.
pub(crate) fn fetch_document<D: Disk, C: PageCache, L: Ledger>(
    store: &mut Store<C>,
    disk: &mut D,
    ahead: &mut ReadAhead,
    number: u32,
    steps: &mut Steps<L>,
) -> Result<bool, StoreFault>
    requires ready { IsReady C.pages (D.is_honest disk.old) store.old ahead.old (D.history disk.old (D.attached disk.old)) }
    ensures text { IsTrue (D.is_honest disk.old)
        → IfOk result (λ found. IsAhead (map.get (store_contents store.old).documents number) found (ahead_text ahead.new)) }
    ensures found { IfOk result (λ found. found ≡ map.contains_key (store_contents store.old).documents number) }
    ensures scans { Scans C.pages (D.is_honest disk.old) result store.old store.new ahead.new
        (D.history disk.old (D.attached disk.old)) (D.history disk.new (D.attached disk.new))
        (D.faults disk.old) (D.faults disk.new) }
    ensures attached { D.attached disk.new ≡ D.attached disk.old }
    ensures honest { D.is_honest disk.new ≡ D.is_honest disk.old }
    ensures ticked { steps.new ≡ steps.old + 1 }
{
    store.fetch_ahead(disk, number, ahead, steps)
}

/// The fault of a text of a document that is held: where it is outside the format, the place of its
/// part.
pub(crate) fn text_fault<C>(store: &Store<C>, number: u32, fault: TextFault) -> StoreFault
    requires { IsTrue (map.contains_key (store_contents store.now).documents number) }
    ensures memory { fault ≡ TextFault.Memory → result ≡ StoreFault.Memory }
    ensures outside { fault ≡ TextFault.Outside → IsPlaced store.now number result }
{
    match fault {
        TextFault::Memory => StoreFault::Memory,
        TextFault::Outside => {
            let (extent, at) = place_of(store, number);
            StoreFault::Damaged { extent, at }
        }
    }
}

/// Where the part of a document that is held stands: the list as a number, and the offset in it.
fn place_of<C>(store: &Store<C>, number: u32) -> (u8, u64)
    requires { IsTrue (map.contains_key (store_contents store.now).documents number) }
    ensures list { result.0 ≡ extent_number (store_area store.now) }
    ensures offset { map.get (store_offsets store.now).documents number ≡ Some result.1 }
{
    store.place(Page::Document(number), 0)
}
