//! The writes of documents.
//!
//! Over an honest disk each is made, or refused by what is held, only where the table of ids lately found tells the id or the
//! parts of the index that tell it are in their grammar, and the text of the document that it reads is that of a document. One
//! that is made commits the changes of just that document. The table of ids lately found gets no number but one that the
//! index tells for the id, or that of the document that is created.

ghost use Rattle.std.specs.Prelude.{◌≡◌, ◌≤◌, ◌+◌, ℕ, List, Option, None, Some, Ok, Err, IsTrue, IfErr, IfOk, IfSome, true, false, OnOk};
ghost use Rattle.ax_container.specs.Container.{Container, contains};
ghost use Rattle.ax_container.specs.Writes.{exchanged, inserted, removed, upserted};
ghost use Rattle.ax_storable.specs.Storable.{IsStorable};
ghost use Rattle.ax_pool.specs.Frames.{free_count};
ghost use Rattle.ax_store.specs.Store.{AgreesUnlessFailed, store_contents, store_failed, store_slots};
ghost use Rattle.ax_table.specs.TableAgrees.{TableAgrees};
ghost use Rattle.ax_tree.specs.Document.{document_id};
ghost use Rattle.ax_write.specs.Full.{is_full_of};
ghost use Rattle.ax_write.specs.Learnt.{Learns, LearnsOfCreation, LearnsOfDeletion, LearnsOfUpsert};
ghost use Rattle.ax_write.specs.Small.{IsNew, IsNewOrTold, IsSmallBatch, IsToldHeld};
ghost use Rattle.ax_write.specs.Writes.{FullOnly, HoldsAll, IsOfCreation, IsOfHeld, IsOfUpsert, MeetsCreation, MeetsHeld, MeetsUpsert, SamePolicies, TellsWrite, WriteLeaves};

use crate::creating::create_new;
use crate::exchanging::{delete_held, replace_held};
use crate::fault::WriteFault;
use crate::finding::{find_held, find_number};
use ax_base::Steps;
use ax_cache::PageCache;
use ax_disk::Disk;
use ax_policy::PolicyTable;
use ax_recent::RecentIds;
use ax_store::Store;
use ax_tree::{Tree, id_of};
use std::alloc::Global;
use std::sync::ledger::Ledger;

/// Creates a document behind all others. `Conflict` where its id is held, else `Full` exactly where none can be created. It
/// counts no step: no document is fetched.
#[tactic(auto, using(crate::proofs::KeptPolicies::same_policies))]
pub fn create<D: Disk, C: PageCache>(
    alloc: Global,
    store: &mut Store<C>,
    disk: &mut D,
    table: &mut PolicyTable,
    ids: &mut RecentIds,
    tree: &Tree,
) -> Result<(), WriteFault>
    requires storable { IsStorable tree.now }
    requires free { 2 ≤ free_count (store_slots store.old) }
    requires agrees { AgreesUnlessFailed C.pages (D.is_honest disk.old) store.old (D.history disk.old (D.attached disk.old)) }
    requires table { TableAgrees (D.is_honest disk.old) table.old (store_contents store.old) }
    ensures tells { IsTrue (D.is_honest disk.old) → store_failed store.old ≡ false → (before : Container) → (id : List ℕ)
        → HoldsAll store.old ids.old before → document_id tree.now ≡ Some id
        → TellsWrite before (inserted id tree.now before) result store.new ids.new
        (D.history disk.old (D.attached disk.old)) (D.history disk.new (D.attached disk.new)) }
    ensures met { IsTrue (D.is_honest disk.old) → (id : List ℕ) → document_id tree.now ≡ Some id
        → MeetsCreation result ids.old id (store_contents store.old) }
    ensures only { IfErr result IsOfCreation }
    ensures table { TableAgrees (D.is_honest disk.old) table.new (store_contents store.new) }
    ensures policies { SamePolicies table.old table.new }
    ensures full { FullOnly result (store_contents store.old) }
    ensures made { OnOk result (is_full_of (store_contents store.old) ≡ false) }
    ensures small { OnOk result (IsSmallBatch (IsNew (store_contents store.old)) (D.is_honest disk.old) table.old
        (Some tree.now) (store_contents store.old) (store_contents store.new)) }
    ensures learns { (id : List ℕ) → document_id tree.now ≡ Some id
        → LearnsOfCreation result (D.is_honest disk.old) id (store_contents store.old) ids.old ids.new }
    ensures leaves { WriteLeaves C.pages (D.is_honest disk.old) result store.old store.new
        (D.history disk.old (D.attached disk.old)) (D.history disk.new (D.attached disk.new))
        (D.faults disk.old) (D.faults disk.new) }
    ensures attached { D.attached disk.new ≡ D.attached disk.old }
    ensures honest { D.is_honest disk.new ≡ D.is_honest disk.old }
{
    let Some(id) = id_of(tree) else {
        unreachable!()
    };
    let id = id.as_str().as_bytes();
    match find_number(alloc, store, disk, ids, id) {
        Ok(Some(_)) => Err(WriteFault::Conflict),
        Ok(None) => create_new(alloc, store, disk, table, ids, id, tree),
        Err(fault) => Err(WriteFault::Store(fault)),
    }
}

/// Replaces the tree of the document of its id, which keeps its number, or creates a document behind all others. `Full`
/// where none can be created. It counts one step where the id is held, else none.
#[tactic(auto, using(crate::proofs::KeptPolicies::same_policies))]
pub fn upsert<D: Disk, C: PageCache, L: Ledger>(
    alloc: Global,
    store: &mut Store<C>,
    disk: &mut D,
    table: &mut PolicyTable,
    ids: &mut RecentIds,
    tree: &Tree,
    steps: &mut Steps<L>,
) -> Result<(), WriteFault>
    requires storable { IsStorable tree.now }
    requires free { 2 ≤ free_count (store_slots store.old) }
    requires agrees { AgreesUnlessFailed C.pages (D.is_honest disk.old) store.old (D.history disk.old (D.attached disk.old)) }
    requires table { TableAgrees (D.is_honest disk.old) table.old (store_contents store.old) }
    ensures tells { IsTrue (D.is_honest disk.old) → store_failed store.old ≡ false → (before : Container) → (id : List ℕ)
        → HoldsAll store.old ids.old before → document_id tree.now ≡ Some id
        → TellsWrite before (upserted id tree.now before) result store.new ids.new
        (D.history disk.old (D.attached disk.old)) (D.history disk.new (D.attached disk.new)) }
    ensures met { IsTrue (D.is_honest disk.old) → (id : List ℕ) → document_id tree.now ≡ Some id
        → MeetsUpsert result ids.old id (store_contents store.old) }
    ensures only { IfErr result IsOfUpsert }
    ensures table { TableAgrees (D.is_honest disk.old) table.new (store_contents store.new) }
    ensures policies { SamePolicies table.old table.new }
    ensures full { FullOnly result (store_contents store.old) }
    ensures one { steps.new ≤ steps.old + 1 }
    ensures none { IsTrue (D.is_honest disk.old) → (before : Container) → (id : List ℕ) → HoldsAll store.old ids.old before
        → document_id tree.now ≡ Some id → contains id before ≡ false → steps.new ≡ steps.old }
    ensures counted { IsTrue (D.is_honest disk.old) → (before : Container) → (id : List ℕ) → HoldsAll store.old ids.old before
        → document_id tree.now ≡ Some id → contains id before ≡ true → OnOk result (steps.new ≡ steps.old + 1) }
    ensures never_falls { steps.old ≤ steps.new }
    ensures small { (id : List ℕ) → document_id tree.now ≡ Some id
        → OnOk result (IsSmallBatch (IsNewOrTold (D.is_honest disk.old) ids.old id (store_contents store.old)) (D.is_honest disk.old)
        table.old (Some tree.now) (store_contents store.old) (store_contents store.new)) }
    ensures learns { (id : List ℕ) → document_id tree.now ≡ Some id
        → LearnsOfUpsert result (D.is_honest disk.old) id (store_contents store.old) ids.old ids.new }
    ensures leaves { WriteLeaves C.pages (D.is_honest disk.old) result store.old store.new
        (D.history disk.old (D.attached disk.old)) (D.history disk.new (D.attached disk.new))
        (D.faults disk.old) (D.faults disk.new) }
    ensures attached { D.attached disk.new ≡ D.attached disk.old }
    ensures honest { D.is_honest disk.new ≡ D.is_honest disk.old }
{
    let Some(id) = id_of(tree) else {
        unreachable!()
    };
    let id = id.as_str().as_bytes();
    // What is held is replaced, and else one is created.
    match find_held(alloc, store, disk, ids, id, steps) {
        Ok(Some(found)) => {
            let done = replace_held(alloc, store, disk, table, &found, tree);
            drop(found);
            done
        }
        Ok(None) => create_new(alloc, store, disk, table, ids, id, tree),
        Err(fault) => Err(WriteFault::Store(fault)),
    }
}

/// Replaces the tree of the document of its id, which keeps its number. `Absent` where the id is not held. It counts one
/// step where the id is held, else none.
#[tactic(auto, using(crate::proofs::KeptPolicies::same_policies))]
pub fn replace<D: Disk, C: PageCache, L: Ledger>(
    alloc: Global,
    store: &mut Store<C>,
    disk: &mut D,
    table: &mut PolicyTable,
    ids: &mut RecentIds,
    tree: &Tree,
    steps: &mut Steps<L>,
) -> Result<(), WriteFault>
    requires storable { IsStorable tree.now }
    requires free { 2 ≤ free_count (store_slots store.old) }
    requires agrees { AgreesUnlessFailed C.pages (D.is_honest disk.old) store.old (D.history disk.old (D.attached disk.old)) }
    requires table { TableAgrees (D.is_honest disk.old) table.old (store_contents store.old) }
    ensures tells { IsTrue (D.is_honest disk.old) → store_failed store.old ≡ false → (before : Container) → (id : List ℕ)
        → HoldsAll store.old ids.old before → document_id tree.now ≡ Some id
        → TellsWrite before (exchanged id tree.now before) result store.new ids.new
        (D.history disk.old (D.attached disk.old)) (D.history disk.new (D.attached disk.new)) }
    ensures met { IsTrue (D.is_honest disk.old) → (id : List ℕ) → document_id tree.now ≡ Some id
        → MeetsHeld result ids.old id (store_contents store.old) }
    ensures only { IfErr result IsOfHeld }
    ensures table { TableAgrees (D.is_honest disk.old) table.new (store_contents store.new) }
    ensures policies { SamePolicies table.old table.new }
    ensures one { steps.new ≤ steps.old + 1 }
    ensures none { IsTrue (D.is_honest disk.old) → (before : Container) → (id : List ℕ) → HoldsAll store.old ids.old before
        → document_id tree.now ≡ Some id → contains id before ≡ false → steps.new ≡ steps.old }
    ensures counted { OnOk result (steps.new ≡ steps.old + 1) }
    ensures never_falls { steps.old ≤ steps.new }
    ensures small { (id : List ℕ) → document_id tree.now ≡ Some id
        → OnOk result (IsSmallBatch (IsToldHeld (D.is_honest disk.old) ids.old id (store_contents store.old)) (D.is_honest disk.old)
        table.old (Some tree.now) (store_contents store.old) (store_contents store.new)) }
    ensures learns { (id : List ℕ) → document_id tree.now ≡ Some id
        → Learns (D.is_honest disk.old) id (store_contents store.old) ids.old ids.new }
    ensures leaves { WriteLeaves C.pages (D.is_honest disk.old) result store.old store.new
        (D.history disk.old (D.attached disk.old)) (D.history disk.new (D.attached disk.new))
        (D.faults disk.old) (D.faults disk.new) }
    ensures attached { D.attached disk.new ≡ D.attached disk.old }
    ensures honest { D.is_honest disk.new ≡ D.is_honest disk.old }
{
    let Some(id) = id_of(tree) else {
        unreachable!()
    };
    let id = id.as_str().as_bytes();
    // Nothing is created where the id is not held.
    match find_held(alloc, store, disk, ids, id, steps) {
        Ok(Some(found)) => {
            let done = replace_held(alloc, store, disk, table, &found, tree);
            drop(found);
            done
        }
        Ok(None) => Err(WriteFault::Absent),
        // What is damaged is not told as replaced.
        Err(fault) => Err(WriteFault::Store(fault)),
    }
}

/// Deletes the document of an id. `Absent` where the id is not held. It counts one step where the id is held, else none.
#[tactic(auto, using(crate::proofs::KeptPolicies::same_policies))]
pub fn delete<D: Disk, C: PageCache, L: Ledger>(
    alloc: Global,
    store: &mut Store<C>,
    disk: &mut D,
    table: &mut PolicyTable,
    ids: &mut RecentIds,
    id: &[u8],
    steps: &mut Steps<L>,
) -> Result<(), WriteFault>
    requires free { 2 ≤ free_count (store_slots store.old) }
    requires agrees { AgreesUnlessFailed C.pages (D.is_honest disk.old) store.old (D.history disk.old (D.attached disk.old)) }
    requires table { TableAgrees (D.is_honest disk.old) table.old (store_contents store.old) }
    ensures tells { IsTrue (D.is_honest disk.old) → store_failed store.old ≡ false → (before : Container)
        → HoldsAll store.old ids.old before
        → TellsWrite before (removed id.now before) result store.new ids.new
        (D.history disk.old (D.attached disk.old)) (D.history disk.new (D.attached disk.new)) }
    ensures met { IsTrue (D.is_honest disk.old) → MeetsHeld result ids.old id.now (store_contents store.old) }
    ensures only { IfErr result IsOfHeld }
    ensures table { TableAgrees (D.is_honest disk.old) table.new (store_contents store.new) }
    ensures policies { SamePolicies table.old table.new }
    ensures one { steps.new ≤ steps.old + 1 }
    ensures none { IsTrue (D.is_honest disk.old) → (before : Container) → HoldsAll store.old ids.old before
        → contains id.now before ≡ false → steps.new ≡ steps.old }
    ensures counted { OnOk result (steps.new ≡ steps.old + 1) }
    ensures never_falls { steps.old ≤ steps.new }
    ensures small { OnOk result (IsSmallBatch (IsToldHeld (D.is_honest disk.old) ids.old id.now (store_contents store.old)) (D.is_honest disk.old)
        table.old None (store_contents store.old) (store_contents store.new)) }
    ensures learns { LearnsOfDeletion result (D.is_honest disk.old) id.now (store_contents store.old) ids.old ids.new }
    ensures leaves { WriteLeaves C.pages (D.is_honest disk.old) result store.old store.new
        (D.history disk.old (D.attached disk.old)) (D.history disk.new (D.attached disk.new))
        (D.faults disk.old) (D.faults disk.new) }
    ensures attached { D.attached disk.new ≡ D.attached disk.old }
    ensures honest { D.is_honest disk.new ≡ D.is_honest disk.old }
{
    // Its tree tells which pairs leave the index.
    match find_held(alloc, store, disk, ids, id, steps) {
        Ok(Some(found)) => {
            let done = delete_held(alloc, store, disk, table, ids, id, &found);
            drop(found);
            done
        }
        Ok(None) => Err(WriteFault::Absent),
        // What is damaged is not told as absent.
        Err(fault) => Err(WriteFault::Store(fault)),
    }
}
