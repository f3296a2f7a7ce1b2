//! The document that is held under a number.

ghost use Rattle.std.specs.Prelude.{◌≡◌, ◌+◌, IsTrue, IfOk, IfErr, IfSome, Some, false};
ghost use Rattle.std.specs.FinMap as map;
ghost use Rattle.ax_index.specs.Damage.{FailsBy};
ghost use Rattle.ax_storable.specs.Storable.{IsStorable};
ghost use Rattle.ax_pages.specs.Area.{extent_number};
ghost use Rattle.ax_store.specs.Faults.{HasDiskCause};
ghost use Rattle.ax_store.specs.Reads.{ReadsStore};
ghost use Rattle.ax_store.specs.Store.{AgreesUnlessFailed, store_area, store_contents, store_failed, store_offsets, store_slots};
ghost use Rattle.ax_write.specs.Held.{HasPolicyOf, IsHeld, IsPlaced, IsRead, TellsRead, TellsText};

use ax_base::Steps;
use ax_cache::PageCache;
use ax_disk::Disk;
use ax_storable::{DocumentFault, read_document};
use ax_store::{Page, Store, StoreFault};
use ax_tree::Tree;
use std::alloc::Global;
use std::sync::ledger::Ledger;

/// A document that is held: its tree, and the number of the policy by which it is indexed.
#[derive(Drop)]
pub struct HeldDocument {
    pub policy: u8,
    pub tree: Tree,
}

/// The document that is held under a number; `None` exactly where none is. It counts one step.
///
/// `Damaged` where its text is that of no document that a store can hold, with the place of its part. `Disk` where a
/// read failed, or the store has failed before. `Memory` where there is no room for the text or the tree.
pub fn fetch_held<D: Disk, C: PageCache, L: Ledger>(
    alloc: Global,
    store: &mut Store<C>,
    disk: &mut D,
    number: u32,
    steps: &mut Steps<L>,
) -> Result<Option<HeldDocument>, StoreFault>
    requires agrees { AgreesUnlessFailed C.pages (D.is_honest disk.old) store.old (D.history disk.old (D.attached disk.old)) }
    ensures held { IsTrue (D.is_honest disk.old) → IfOk result (IsHeld (map.get (store_contents store.old).documents number)) }
    ensures policy { IfOk result (HasPolicyOf (map.get (store_contents store.old).documents number)) }
    ensures storable { IfOk result (λ found. IfSome found (λ held. IsStorable held.tree)) }
    ensures told { IsTrue (D.is_honest disk.old) → IfErr result (TellsText store.old number) }
    ensures reads { ReadsStore C.pages (D.is_honest disk.old) store.old store.new
        (D.history disk.old (D.attached disk.old)) (D.history disk.new (D.attached disk.new))
        (D.faults disk.old) (D.faults disk.new) }
    ensures slots { store_slots store.new ≡ store_slots store.old }
    ensures ticked { steps.new ≡ steps.old + 1 }
    ensures fails { FailsBy result (store_failed store.old) (store_failed store.new) }
    ensures cause { store_failed store.old ≡ false → HasDiskCause result (D.faults disk.old) (D.faults disk.new) }
    ensures attached { D.attached disk.new ≡ D.attached disk.old }
    ensures honest { D.is_honest disk.new ≡ D.is_honest disk.old }
{
    match store.fetch_text(alloc, disk, number, steps) {
        Ok(Some(text)) => read_held(alloc, store, number, text.as_slice()),
        Ok(None) => Ok(None),
        Err(fault) => Err(fault),
    }
}

/// The document of a number that is held, whose text this is.
fn read_held<C>(
    alloc: Global,
    store: &Store<C>,
    number: u32,
    text: &[u8],
) -> Result<Option<HeldDocument>, StoreFault>
    requires { IsTrue (map.contains_key (store_contents store.now).documents number) }
    ensures held { IfOk result (IsRead (map.get (store_contents store.now).documents number) text.now) }
    ensures told { IfErr result (TellsRead store.now number text.now) }
{
    let Some(head) = store.head_of(number) else {
        unreachable!()
    };
    match read_document(alloc, text) {
        Ok(tree) => Ok(Some(HeldDocument {
            policy: head.policy,
            tree,
        })),
        Err(fault) => Err(text_fault(store, number, fault)),
    }
}

/// The fault of a text of a document that is held: where it is that of none, the place of its part.
fn text_fault<C>(store: &Store<C>, number: u32, fault: DocumentFault) -> StoreFault
    requires { IsTrue (map.contains_key (store_contents store.now).documents number) }
    ensures memory { fault ≡ DocumentFault.Memory → result ≡ StoreFault.Memory }
    ensures outside { fault ≡ DocumentFault.Outside → IsPlaced store.now number result }
{
    match fault {
        DocumentFault::Memory => StoreFault::Memory,
        DocumentFault::Outside => {
            let (extent, at) = place_of(store, number);
            StoreFault::Damaged { extent, at }
        }
    }
}

/// Where the part of a document that is held stands: the list as a number, and the offset in it.
fn place_of<C>(store: &Store<C>, number: u32) -> (u8, u64)
    requires { IsTrue (map.contains_key (store_contents store.now).documents number) }
    ensures list { result.0 ≡ extent_number (store_area store.now) }
    ensures offset { map.get (store_offsets store.now).documents number ≡ Some result.1 }
{
    store.place(Page::Document(number), 0)
}
