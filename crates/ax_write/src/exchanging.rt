//! A document that is held gets another tree, or is deleted.

ghost use Rattle.std.specs.Prelude.{◌≡◌, ◌≢◌, ◌↔◌, ◌≤◌, ◌<◌, ◌+◌, ◌-◌, ℕ, List, Option, None, Some, Ok, Err, IsTrue, IfErr, IfOk, IfSome, IsSome, true, false, OnOk};
ghost use Rattle.std.specs.List.{Contains};
ghost use Rattle.ax_container.specs.Container.{Container, entry_of};
ghost use Rattle.ax_container.specs.Writes.{deleted, replaced};
ghost use Rattle.ax_storable.specs.Storable.{IsStorable};
ghost use Rattle.ax_policy.specs.Table.{SetsCount, count_at, policy_at};
ghost use Rattle.ax_pool.specs.Frames.{free_count};
ghost use Rattle.ax_store.specs.Store.{AgreesUnlessFailed, store_contents, store_failed, store_slots};
ghost use Rattle.ax_table.specs.TableAgrees.{ArePolicies, TableAgrees};
ghost use Rattle.ax_tree.specs.Document.{document_id};
ghost use Rattle.ax_write.specs.Exchanged.{IsExchanged};
ghost use Rattle.ax_write.specs.Learnt.{ForgetsIfMade};
ghost use Rattle.ax_write.specs.Small.{IsFound, IsSmallBatch};
ghost use Rattle.ax_write.specs.Writes.{HoldsAll, IsFoundIn, IsHeldAs, IsOfStore, IsTextHeld, SamePolicies, TellsWrite, WriteLeaves};

use crate::batches::{deleting, replacing};
use crate::commit::plan_and_commit;
use crate::fault::WriteFault;
use crate::finding::FoundDocument;
use crate::pairs::pair_changes;
use ax_cache::PageCache;
use ax_disk::Disk;
use ax_index::Change;
use ax_keep::Memory;
use ax_policy::PolicyTable;
use ax_recent::RecentIds;
use ax_store::{Store, StoreFault};
use ax_tree::Tree;
use std::alloc::Global;

/// Gives a document that is held another tree of its id, under the policy now. It keeps its number.
#[tactic(auto, using(crate::proofs::KeptPolicies::same_policies, crate::proofs::KeptPolicies::counted_twice))]
pub(crate) fn replace_held<D: Disk, C: PageCache>(
    alloc: Global,
    store: &mut Store<C>,
    disk: &mut D,
    table: &mut PolicyTable,
    found: &FoundDocument,
    tree: &Tree,
) -> Result<(), WriteFault>
    requires storable { IsStorable tree.now }
    requires was { IsStorable found.now.document.tree }
    requires held { IsHeldAs (store_contents store.old) found.now }
    requires text { IsTrue (D.is_honest disk.old) → IsTextHeld (store_contents store.old) found.now }
    requires some { 0 < found.now.number }
    requires free { 2 ≤ free_count (store_slots store.old) }
    requires agrees { AgreesUnlessFailed C.pages (D.is_honest disk.old) store.old (D.history disk.old (D.attached disk.old)) }
    requires table { TableAgrees (D.is_honest disk.old) table.old (store_contents store.old) }
    ensures tells { IsTrue (D.is_honest disk.old) → store_failed store.old ≡ false → (before : Container)
        → (ids : List (List ℕ × ℕ)) → (id : List ℕ) → HoldsAll store.old ids before
        → document_id tree.now ≡ Some id → IsFoundIn id before (Some found.now)
        → TellsWrite before (Ok (replaced id tree.now before)) result store.new ids
        (D.history disk.old (D.attached disk.old)) (D.history disk.new (D.attached disk.new)) }
    ensures only { IfErr result IsOfStore }
    ensures table { TableAgrees (D.is_honest disk.old) table.new (store_contents store.new) }
    ensures policies { SamePolicies table.old table.new }
    ensures small { OnOk result (IsSmallBatch (IsFound found.now) (D.is_honest disk.old) table.old (Some tree.now)
        (store_contents store.old) (store_contents store.new)) }
    ensures leaves { WriteLeaves C.pages (D.is_honest disk.old) result store.old store.new
        (D.history disk.old (D.attached disk.old)) (D.history disk.new (D.attached disk.new))
        (D.faults disk.old) (D.faults disk.new) }
    ensures attached { D.attached disk.new ≡ D.attached disk.old }
    ensures honest { D.is_honest disk.new ≡ D.is_honest disk.old }
{
    let now = table.now();
    let Ok(batch) = replacing(alloc, found.number, now, tree) else {
        return Err(WriteFault::Store(StoreFault::Memory));
    };
    let Ok(changes) = replaced_pairs(alloc, table, found, tree) else {
        return Err(WriteFault::Store(StoreFault::Memory));
    };
    match plan_and_commit(alloc, store, disk, changes.as_slice(), batch) {
        Ok(()) => {
            table.count_out(found.document.policy);
            table.count_in(now);
            Ok(())
        }
        Err(fault) => Err(WriteFault::Store(fault)),
    }
}

/// Deletes a document that is held. Its id is taken out of the table of ids lately found where it is deleted, and only there.
#[tactic(auto, using(crate::proofs::KeptPolicies::same_policies, crate::proofs::KeptPolicies::counted))]
pub(crate) fn delete_held<D: Disk, C: PageCache>(
    alloc: Global,
    store: &mut Store<C>,
    disk: &mut D,
    table: &mut PolicyTable,
    ids: &mut RecentIds,
    id: &[u8],
    found: &FoundDocument,
) -> Result<(), WriteFault>
    requires was { IsStorable found.now.document.tree }
    requires held { IsHeldAs (store_contents store.old) found.now }
    requires text { IsTrue (D.is_honest disk.old) → IsTextHeld (store_contents store.old) found.now }
    requires some { 0 < found.now.number }
    requires free { 2 ≤ free_count (store_slots store.old) }
    requires agrees { AgreesUnlessFailed C.pages (D.is_honest disk.old) store.old (D.history disk.old (D.attached disk.old)) }
    requires table { TableAgrees (D.is_honest disk.old) table.old (store_contents store.old) }
    ensures tells { IsTrue (D.is_honest disk.old) → store_failed store.old ≡ false → (before : Container) → HoldsAll store.old ids.old before
        → IsFoundIn id.now before (Some found.now)
        → TellsWrite before (Ok (deleted id.now before)) result store.new ids.new
        (D.history disk.old (D.attached disk.old)) (D.history disk.new (D.attached disk.new)) }
    ensures learns { ForgetsIfMade result id.now ids.old ids.new }
    ensures only { IfErr result IsOfStore }
    ensures table { TableAgrees (D.is_honest disk.old) table.new (store_contents store.new) }
    ensures policies { SamePolicies table.old table.new }
    ensures small { OnOk result (IsSmallBatch (IsFound found.now) (D.is_honest disk.old) table.old None
        (store_contents store.old) (store_contents store.new)) }
    ensures leaves { WriteLeaves C.pages (D.is_honest disk.old) result store.old store.new
        (D.history disk.old (D.attached disk.old)) (D.history disk.new (D.attached disk.new))
        (D.faults disk.old) (D.faults disk.new) }
    ensures attached { D.attached disk.new ≡ D.attached disk.old }
    ensures honest { D.is_honest disk.new ≡ D.is_honest disk.old }
{
    let Ok(batch) = deleting(alloc, found.number) else {
        return Err(WriteFault::Store(StoreFault::Memory));
    };
    let Ok(changes) = deleted_pairs(alloc, table, found) else {
        return Err(WriteFault::Store(StoreFault::Memory));
    };
    match plan_and_commit(alloc, store, disk, changes.as_slice(), batch) {
        Ok(()) => {
            note_deleted(table, ids, id, found.document.policy);
            Ok(())
        }
        Err(fault) => Err(WriteFault::Store(fault)),
    }
}

/// The changes of the index by which a document that is held gets another tree, under the policy now.
fn replaced_pairs(
    alloc: Global,
    table: &PolicyTable,
    found: &FoundDocument,
    tree: &Tree,
) -> Result<Vec<Change>, Memory>
    requires policies { ArePolicies table.now }
    requires known { IsSome (policy_at table.now found.now.document.policy) }
    requires was { IsStorable found.now.document.tree }
    requires storable { IsStorable tree.now }
    ensures { IfOk result (λ changes. IsExchanged table.now found.now.number
        found.now.document.policy (Some found.now.document.tree) table.now.current (Some tree.now) changes.items) }
{
    let number = found.number;
    let (before, now) = (found.document.policy, table.now());
    let old = &found.document.tree;
    pair_changes(alloc, table, number, before, Some(old), now, Some(tree))
}

/// The changes of the index by which a document that is held is deleted.
fn deleted_pairs(
    alloc: Global,
    table: &PolicyTable,
    found: &FoundDocument,
) -> Result<Vec<Change>, Memory>
    requires policies { ArePolicies table.now }
    requires known { IsSome (policy_at table.now found.now.document.policy) }
    requires was { IsStorable found.now.document.tree }
    ensures { IfOk result (λ changes. IsExchanged table.now found.now.number
        found.now.document.policy (Some found.now.document.tree) table.now.current None changes.items) }
{
    let number = found.number;
    let (before, now) = (found.document.policy, table.now());
    let old = &found.document.tree;
    pair_changes(alloc, table, number, before, Some(old), now, None)
}

/// Counts a document that was deleted no more, and forgets the number of its id.
fn note_deleted(table: &mut PolicyTable, ids: &mut RecentIds, id: &[u8], policy: u8)
    requires known { IsSome (policy_at table.old policy) }
    requires used { 0 < count_at table.old policy }
    ensures counts { SetsCount policy (count_at table.old policy - 1) table.old table.new }
    ensures gone { (number : ℕ) → Contains ids.new (id.now, number) → ⊥ }
    ensures others { (entry : List ℕ × ℕ) → entry.0 ≢ id.now → Contains ids.new entry ↔ Contains ids.old entry }
{
    table.count_out(policy);
    ids.remove(id);
}
