//! Opening a store with its index.

ghost use Rattle.std.specs.Prelude.{◌≡◌, ℕ, [], IsTrue, IfErr, IfOk, OnOk};
ghost use Rattle.ax_area.specs.Image.{IsDamaged, IsFresh, IsNewer};
ghost use Rattle.ax_cache.specs.PageLaws.{no_pages};
ghost use Rattle.ax_container.specs.Container.{Container};
ghost use Rattle.ax_disk.specs.declared.extent.Extent.TheVariants.{Root};
ghost use Rattle.ax_disk.specs.model.Stays.{Rests, SinceBarrier};
ghost use Rattle.ax_image.specs.Readable.{SaysReadable, newest};
ghost use Rattle.ax_log.specs.Opening.{Keeps};
ghost use Rattle.ax_pages.specs.Area.{extent_number};
ghost use Rattle.ax_store.specs.Faults.{HasDiskCause};
ghost use Rattle.ax_store.specs.Store.{Has, store_contents};
ghost use Rattle.ax_documents.specs.Documents.{DocumentsHold, DocumentsWork};
ghost use Rattle.ax_documents.specs.Opening.{IsAnswerUnlessDisk, IsImageOf, IsStore, IsWithin, RefusesBy};

use crate::documents::Documents;
use ax_base::Steps;
use ax_disk::Disk;
use ax_recent::RecentIds;
use ax_store::{NoPages, Store, StoreFault};
use ax_table::read_table;
use std::alloc::Global;
use std::sync::ledger::Ledger;

/// How many ids are kept of those that were lately found.
const RECENT_IDS: u32 = 65_536;

/// Opens the store attached, or forms one where it is fresh, over no cache, and makes the table of its policies. No text of a
/// document is read, and no step is counted.
///
/// It begins with a sync, the barrier: until that succeeds a crash leaves what it might have left before, and from then on
/// the documents that reads gave. The errors are those of the store, and `Damaged` also where the text of a policy that
/// the table needs is outside its grammar, or two policies in use or now have one text. The store is as it was at
/// `Damaged` and `Newer`.
pub fn open_documents<D: Disk, L: Ledger>(
    alloc: Global,
    disk: &mut D,
    steps: &mut Steps<L>,
) -> Result<Documents<NoPages>, StoreFault>
    ensures works { IfOk result (λ documents. DocumentsWork (λ _. no_pages) (D.is_honest disk.old) documents
        (D.history disk.new (D.attached disk.new))) }
    ensures holds { IsTrue (D.is_honest disk.old) → (before : Container)
        → IsStore before (D.history disk.old (D.attached disk.old)) → IfOk result (λ documents. DocumentsHold documents before) }
    ensures empty { IfOk result (λ documents. documents.ids ≡ []) }
    ensures says { IsTrue (D.is_honest disk.old) → IfOk result
        (λ documents. Has (store_contents documents.store) (D.history disk.old (D.attached disk.old)).reads) }
    ensures readable { IsTrue (D.is_honest disk.old) → (before : Container)
        → IsStore before (D.history disk.old (D.attached disk.old))
        → OnOk result (Rests (D.history disk.new (D.attached disk.new)) SaysReadable) }
    ensures opened { IsTrue (D.is_honest disk.old) → IfOk result
        (λ documents. IsWithin (D.history disk.old (D.attached disk.old)).reads) }
    ensures any_moment { IsTrue (D.is_honest disk.old) → (before : Container)
        → IsStore before (D.history disk.old (D.attached disk.old))
        → SinceBarrier (D.history disk.old (D.attached disk.old)) (D.history disk.new (D.attached disk.new)) (IsImageOf before) }
    ensures unchanged { IsTrue (D.is_honest disk.old)
        → (IsFresh (D.history disk.old (D.attached disk.old)).reads → ⊥)
        → Keeps (D.history disk.old (D.attached disk.old)) (D.history disk.new (D.attached disk.new)) }
    ensures refused { IsTrue (D.is_honest disk.old) → IfErr result (λ fault. RefusesBy fault
        (D.history disk.old (D.attached disk.old)) (D.history disk.new (D.attached disk.new))) }
    ensures damaged_root { IsTrue (D.is_honest disk.old) → (at : ℕ)
        → IsDamaged newest (D.history disk.old (D.attached disk.old)).reads Root at
        → IsAnswerUnlessDisk (StoreFault.Damaged (extent_number Root) at) result }
    ensures newer { IsTrue (D.is_honest disk.old) → (version : ℕ)
        → IsNewer newest version (D.history disk.old (D.attached disk.old)).reads
        → IsAnswerUnlessDisk (StoreFault.Newer version) result }
    ensures cause { HasDiskCause result (D.faults disk.old) (D.faults disk.new) }
    ensures steps { steps.new ≡ steps.old }
    ensures attached { D.attached disk.new ≡ D.attached disk.old }
    ensures honest { D.is_honest disk.new ≡ D.is_honest disk.old }
{
    let mut store = match Store::open_store(alloc, disk, NoPages) {
        Ok(store) => store,
        Err(fault) => return Err(fault),
    };
    let table = match read_table(alloc, &mut store, disk, steps) {
        Ok(table) => table,
        Err(fault) => {
            drop(store);
            return Err(fault);
        }
    };
    match RecentIds::make(alloc, RECENT_IDS) {
        Ok(ids) => Ok(Documents {
            store,
            table,
            ids,
            alloc,
        }),
        Err(_) => {
            drop(store);
            drop(table);
            Err(StoreFault::Memory)
        }
    }
}
