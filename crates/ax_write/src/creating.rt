//! A document is created.

ghost use Rattle.std.specs.Prelude.{◌≡◌, ◌<◌, ◌≤◌, ◌+◌, ℕ, List, Option, None, Some, Ok, Err, IsTrue, IfErr, IfOk, IfSome, true, false, OnOk};
ghost use Rattle.ax_container.specs.Container.{Container, entry_of};
ghost use Rattle.ax_container.specs.Writes.{creation, is_full};
ghost use Rattle.ax_storable.specs.Storable.{IsStorable};
ghost use Rattle.ax_policy.specs.Table.{SetsCount, count_at, most_documents};
ghost use Rattle.ax_pool.specs.Frames.{free_count};
ghost use Rattle.ax_store.specs.Store.{AgreesUnlessFailed, store_contents, store_failed, store_slots};
ghost use Rattle.ax_table.specs.TableAgrees.{ArePolicies, TableAgrees};
ghost use Rattle.ax_tree.specs.Document.{document_id};
ghost use Rattle.ax_image_pairs.specs.Indexed.{ContentsHoldAll};
ghost use Rattle.ax_write.specs.Exchanged.{IsExchanged};
ghost use Rattle.ax_write.specs.Full.{is_free_in, is_full_of};
ghost use Rattle.ax_write.specs.Learnt.{Puts, PutsIfMade};
ghost use Rattle.ax_write.specs.Small.{IsNew, IsSmallBatch};
ghost use Rattle.ax_write.specs.Writes.{HoldsAll, IsFullExactly, IsOfUpsert, SamePolicies, TellsWrite, WriteLeaves};

use crate::batches::creating;
use crate::commit::plan_and_commit;
use crate::fault::WriteFault;
use crate::pairs::pair_changes;
use ax_cache::PageCache;
use ax_disk::Disk;
use ax_index::Change;
use ax_keep::Memory;
use ax_pages::numbers::{LAST_NUMBER, MOST_DOCUMENTS};
use ax_policy::PolicyTable;
use ax_recent::RecentIds;
use ax_store::{Store, StoreFault};
use ax_tree::Tree;
use std::alloc::Global;

/// Creates a document of an id that is not held, behind all others, under the policy now. `Full` exactly where as many
/// are held as a store holds, or the next number can be taken by none, whatever the store holds. The id is put into the
/// table of ids lately found with that number where the document is created, and only there.
#[tactic(auto, using(crate::proofs::KeptPolicies::same_policies, crate::proofs::KeptPolicies::counted))]
pub(crate) fn create_new<D: Disk, C: PageCache>(
    alloc: Global,
    store: &mut Store<C>,
    disk: &mut D,
    table: &mut PolicyTable,
    ids: &mut RecentIds,
    id: &[u8],
    tree: &Tree,
) -> Result<(), WriteFault>
    requires storable { IsStorable tree.now }
    requires free { 2 ≤ free_count (store_slots store.old) }
    requires agrees { AgreesUnlessFailed C.pages (D.is_honest disk.old) store.old (D.history disk.old (D.attached disk.old)) }
    requires table { TableAgrees (D.is_honest disk.old) table.old (store_contents store.old) }
    ensures tells { IsTrue (D.is_honest disk.old) → store_failed store.old ≡ false → (before : Container) → HoldsAll store.old ids.old before
        → document_id tree.now ≡ Some id.now → entry_of id.now before ≡ None
        → TellsWrite before (creation id.now tree.now before) result store.new ids.new
        (D.history disk.old (D.attached disk.old)) (D.history disk.new (D.attached disk.new)) }
    ensures full { (before : Container) → ContentsHoldAll (store_contents store.old) before → is_full before ≡ true
        → result ≡ Err WriteFault.Full }
    ensures full_only { IsFullExactly result (store_contents store.old) }
    ensures learns { PutsIfMade result id.now (store_contents store.old).next_number ids.old ids.new }
    ensures only { IfErr result IsOfUpsert }
    ensures table { TableAgrees (D.is_honest disk.old) table.new (store_contents store.new) }
    ensures policies { SamePolicies table.old table.new }
    ensures small { OnOk result (IsSmallBatch (IsNew (store_contents store.old)) (D.is_honest disk.old) table.old
        (Some tree.now) (store_contents store.old) (store_contents store.new)) }
    ensures leaves { WriteLeaves C.pages (D.is_honest disk.old) result store.old store.new
        (D.history disk.old (D.attached disk.old)) (D.history disk.new (D.attached disk.new))
        (D.faults disk.old) (D.faults disk.new) }
    ensures attached { D.attached disk.new ≡ D.attached disk.old }
    ensures honest { D.is_honest disk.new ≡ D.is_honest disk.old }
{
    if is_full(store) {
        return Err(WriteFault::Full);
    }
    let number = store.meta().next;
    let now = table.now();
    let Ok(batch) = creating(alloc, number, now, tree) else {
        return Err(WriteFault::Store(StoreFault::Memory));
    };
    let Ok(changes) = created_pairs(alloc, table, number, tree) else {
        return Err(WriteFault::Store(StoreFault::Memory));
    };
    match plan_and_commit(alloc, store, disk, changes.as_slice(), batch) {
        Ok(()) => {
            note_created(table, ids, id, number);
            Ok(())
        }
        Err(fault) => Err(WriteFault::Store(fault)),
    }
}

/// The changes of the index by which a document is created under the policy now.
fn created_pairs(
    alloc: Global,
    table: &PolicyTable,
    number: u32,
    tree: &Tree,
) -> Result<Vec<Change>, Memory>
    requires policies { ArePolicies table.now }
    requires storable { IsStorable tree.now }
    ensures { IfOk result (λ changes. IsExchanged table.now number table.now.current None table.now.current (Some tree.now) changes.items) }
{
    let now = table.now();
    pair_changes(alloc, table, number, now, None, now, Some(tree))
}

/// Counts a document that was created under the policy now, and keeps its number for its id.
fn note_created(table: &mut PolicyTable, ids: &mut RecentIds, id: &[u8], number: u32)
    requires room { count_at table.old table.old.current < most_documents }
    ensures counts { SetsCount table.old.current (count_at table.old table.old.current + 1) table.old table.new }
    ensures ids { Puts id.now number ids.old ids.new }
{
    let now = table.now();
    table.count_in(now);
    ids.put(id, number);
}

/// Whether no document can be created: as many are held as a store holds, or the next number can be taken by none.
fn is_full<C>(store: &Store<C>) -> bool
    ensures { result ≡ is_full_of (store_contents store.now) }
{
    store.documents() >= MOST_DOCUMENTS || !is_free(store, store.meta().next)
}

/// Whether a document can take the number: it is neither 0 nor the last one, and no document has it.
fn is_free<C>(store: &Store<C>, number: u32) -> bool
    ensures { result ≡ is_free_in (store_contents store.now) number }
{
    number > 0 && number < LAST_NUMBER && store.head_of(number).is_none()
}
