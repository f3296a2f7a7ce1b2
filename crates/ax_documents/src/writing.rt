//! The writes of documents, and READ.

ghost use Rattle.std.specs.Prelude.{◌≡◌, ◌≤◌, ◌+◌, ◌⊎◌, ℕ, List, Some, IsTrue, IfErr, IfOk, false, option_map, OnOk, None, IfSome, true};
ghost use Rattle.std.specs.FinMap as map;
ghost use Rattle.ax_container.specs.Container.{Container, contains, tree_of};
ghost use Rattle.ax_container.specs.Writes.{exchanged, inserted, removed, upserted};
ghost use Rattle.ax_index.specs.Damage.{FailsBy};
ghost use Rattle.ax_storable.specs.Storable.{IsStorable};
ghost use Rattle.ax_store.specs.Faults.{HasDiskCause};
ghost use Rattle.ax_store.specs.Reads.{ReadsStore};
ghost use Rattle.ax_store.specs.Store.{AgreesUnlessFailed, store_contents, store_failed, store_slots};
ghost use Rattle.ax_tree.specs.CanonicalText.{canonical_text};
ghost use Rattle.ax_tree.specs.Document.{document_id};
ghost use Rattle.ax_write.specs.Full.{is_full_of};
ghost use Rattle.ax_write.specs.Learnt.{Learns, LearnsOfCreation, LearnsOfDeletion, LearnsOfUpsert};
ghost use Rattle.ax_write.specs.Small.{IsNew, IsNewOrTold, IsSmallBatch, IsToldHeld};
ghost use Rattle.ax_write.specs.Writes.{FullOnly, IsOfCreation, IsOfHeld, IsOfUpsert, Looks, MeetsCreation, MeetsHeld, MeetsUpsert, SamePolicies, TellsWrite, WriteLeaves, of_store};
ghost use Rattle.ax_documents.specs.Damage.{MeetsBy};
ghost use Rattle.ax_documents.specs.Documents.{DocumentsHold, DocumentsWork, IsReadOf, WorkUnlessDisk};

use crate::documents::Documents;
use ax_base::Steps;
use ax_cache::PageCache;
use ax_disk::Disk;
use ax_store::{Store, StoreFault};
use ax_tree::Tree;
use ax_write::{WriteFault, create, delete, find_number, replace, upsert};
use std::alloc::Global;
use std::sync::ledger::Ledger;

impl<C: PageCache> Documents<C> {
    /// Creates a document behind all others. `Conflict` where its id is held, else `Full` where none can be created. No
    /// document is fetched.
    pub fn create<D: Disk>(&mut self, disk: &mut D, tree: &Tree) -> Result<(), WriteFault>
        requires storable { IsStorable tree.now }
        requires works { DocumentsWork C.pages (D.is_honest disk.old) self.old (D.history disk.old (D.attached disk.old)) }
        ensures tells { IsTrue (D.is_honest disk.old) → (before : Container) → (id : List ℕ) → DocumentsHold self.old before
            → document_id tree.now ≡ Some id
            → TellsWrite before (inserted id tree.now before) result self.new.store self.new.ids
            (D.history disk.old (D.attached disk.old)) (D.history disk.new (D.attached disk.new)) }
        ensures met { IsTrue (D.is_honest disk.old) → (id : List ℕ) → document_id tree.now ≡ Some id
            → MeetsCreation result self.old.ids id (store_contents self.old.store) }
        ensures damage { IsTrue (D.is_honest disk.old) → IfErr (of_store result) (λ why. MeetsBy why (D.history disk.new (D.attached disk.new)).reads) }
        ensures only { IfErr result IsOfCreation }
        ensures works { WorkUnlessDisk C.pages (D.is_honest disk.old) (of_store result) self.new
            (D.history disk.new (D.attached disk.new)) }
        ensures policies { SamePolicies self.old.table self.new.table }
        ensures full { FullOnly result (store_contents self.old.store) }
        ensures made { OnOk result (is_full_of (store_contents self.old.store) ≡ false) }
        ensures small { OnOk result (IsSmallBatch (IsNew (store_contents self.old.store)) (D.is_honest disk.old) self.old.table
            (Some tree.now) (store_contents self.old.store) (store_contents self.new.store)) }
        ensures learns { (id : List ℕ) → document_id tree.now ≡ Some id
            → LearnsOfCreation result (D.is_honest disk.old) id (store_contents self.old.store) self.old.ids self.new.ids }
        ensures leaves { WriteLeaves C.pages (D.is_honest disk.old) result self.old.store self.new.store
            (D.history disk.old (D.attached disk.old)) (D.history disk.new (D.attached disk.new))
            (D.faults disk.old) (D.faults disk.new) }
        ensures attached { D.attached disk.new ≡ D.attached disk.old }
        ensures honest { D.is_honest disk.new ≡ D.is_honest disk.old }
    {
        create(
            self.alloc,
            &mut self.store,
            disk,
            &mut self.table,
            &mut self.ids,
            tree,
        )
    }

    /// Replaces the tree of the document of its id, which keeps its number, or creates a document behind all others. `Full`
    /// where none can be created. It counts one step where the id is held, else none.
    pub fn upsert<D: Disk, L: Ledger>(
        &mut self,
        disk: &mut D,
        tree: &Tree,
        steps: &mut Steps<L>,
    ) -> Result<(), WriteFault>
        requires storable { IsStorable tree.now }
        requires works { DocumentsWork C.pages (D.is_honest disk.old) self.old (D.history disk.old (D.attached disk.old)) }
        ensures tells { IsTrue (D.is_honest disk.old) → (before : Container) → (id : List ℕ) → DocumentsHold self.old before
            → document_id tree.now ≡ Some id
            → TellsWrite before (upserted id tree.now before) result self.new.store self.new.ids
            (D.history disk.old (D.attached disk.old)) (D.history disk.new (D.attached disk.new)) }
        ensures met { IsTrue (D.is_honest disk.old) → (id : List ℕ) → document_id tree.now ≡ Some id
            → MeetsUpsert result self.old.ids id (store_contents self.old.store) }
        ensures damage { IsTrue (D.is_honest disk.old) → IfErr (of_store result) (λ why. MeetsBy why (D.history disk.new (D.attached disk.new)).reads) }
        ensures only { IfErr result IsOfUpsert }
        ensures works { WorkUnlessDisk C.pages (D.is_honest disk.old) (of_store result) self.new
            (D.history disk.new (D.attached disk.new)) }
        ensures one { steps.new ≤ steps.old + 1 }
        ensures none { IsTrue (D.is_honest disk.old) → (before : Container) → (id : List ℕ) → DocumentsHold self.old before
            → document_id tree.now ≡ Some id
            → contains id before ≡ false → steps.new ≡ steps.old }
        ensures counted { IsTrue (D.is_honest disk.old) → (before : Container) → (id : List ℕ) → DocumentsHold self.old before
            → document_id tree.now ≡ Some id → contains id before ≡ true → OnOk result (steps.new ≡ steps.old + 1) }
        ensures never_falls { steps.old ≤ steps.new }
        ensures policies { SamePolicies self.old.table self.new.table }
        ensures full { FullOnly result (store_contents self.old.store) }
        ensures small { (id : List ℕ) → document_id tree.now ≡ Some id
            → OnOk result (IsSmallBatch (IsNewOrTold (D.is_honest disk.old) self.old.ids id (store_contents self.old.store))
            (D.is_honest disk.old) self.old.table (Some tree.now) (store_contents self.old.store) (store_contents self.new.store)) }
        ensures learns { (id : List ℕ) → document_id tree.now ≡ Some id
            → LearnsOfUpsert result (D.is_honest disk.old) id (store_contents self.old.store) self.old.ids self.new.ids }
        ensures leaves { WriteLeaves C.pages (D.is_honest disk.old) result self.old.store self.new.store
            (D.history disk.old (D.attached disk.old)) (D.history disk.new (D.attached disk.new))
            (D.faults disk.old) (D.faults disk.new) }
        ensures attached { D.attached disk.new ≡ D.attached disk.old }
        ensures honest { D.is_honest disk.new ≡ D.is_honest disk.old }
    {
        upsert(
            self.alloc,
            &mut self.store,
            disk,
            &mut self.table,
            &mut self.ids,
            tree,
            steps,
        )
    }

    /// Replaces the tree of the document of its id, which keeps its number. `Absent` where the id is not held. It counts one
    /// step where the id is held, else none.
    pub fn replace<D: Disk, L: Ledger>(
        &mut self,
        disk: &mut D,
        tree: &Tree,
        steps: &mut Steps<L>,
    ) -> Result<(), WriteFault>
        requires storable { IsStorable tree.now }
        requires works { DocumentsWork C.pages (D.is_honest disk.old) self.old (D.history disk.old (D.attached disk.old)) }
        ensures tells { IsTrue (D.is_honest disk.old) → (before : Container) → (id : List ℕ) → DocumentsHold self.old before
            → document_id tree.now ≡ Some id
            → TellsWrite before (exchanged id tree.now before) result self.new.store self.new.ids
            (D.history disk.old (D.attached disk.old)) (D.history disk.new (D.attached disk.new)) }
        ensures met { IsTrue (D.is_honest disk.old) → (id : List ℕ) → document_id tree.now ≡ Some id
            → MeetsHeld result self.old.ids id (store_contents self.old.store) }
        ensures damage { IsTrue (D.is_honest disk.old) → IfErr (of_store result) (λ why. MeetsBy why (D.history disk.new (D.attached disk.new)).reads) }
        ensures only { IfErr result IsOfHeld }
        ensures works { WorkUnlessDisk C.pages (D.is_honest disk.old) (of_store result) self.new
            (D.history disk.new (D.attached disk.new)) }
        ensures one { steps.new ≤ steps.old + 1 }
        ensures none { IsTrue (D.is_honest disk.old) → (before : Container) → (id : List ℕ) → DocumentsHold self.old before
            → document_id tree.now ≡ Some id
            → contains id before ≡ false → steps.new ≡ steps.old }
        ensures counted { OnOk result (steps.new ≡ steps.old + 1) }
        ensures never_falls { steps.old ≤ steps.new }
        ensures policies { SamePolicies self.old.table self.new.table }
        ensures small { (id : List ℕ) → document_id tree.now ≡ Some id
            → OnOk result (IsSmallBatch (IsToldHeld (D.is_honest disk.old) self.old.ids id (store_contents self.old.store))
            (D.is_honest disk.old) self.old.table (Some tree.now) (store_contents self.old.store) (store_contents self.new.store)) }
        ensures learns { (id : List ℕ) → document_id tree.now ≡ Some id
            → Learns (D.is_honest disk.old) id (store_contents self.old.store) self.old.ids self.new.ids }
        ensures leaves { WriteLeaves C.pages (D.is_honest disk.old) result self.old.store self.new.store
            (D.history disk.old (D.attached disk.old)) (D.history disk.new (D.attached disk.new))
            (D.faults disk.old) (D.faults disk.new) }
        ensures attached { D.attached disk.new ≡ D.attached disk.old }
        ensures honest { D.is_honest disk.new ≡ D.is_honest disk.old }
    {
        replace(
            self.alloc,
            &mut self.store,
            disk,
            &mut self.table,
            &mut self.ids,
            tree,
            steps,
        )
    }

    /// Deletes the document of an id. `Absent` where the id is not held. It counts one step where the id is held, else none.
    pub fn delete<D: Disk, L: Ledger>(
        &mut self,
        disk: &mut D,
        id: &[u8],
        steps: &mut Steps<L>,
    ) -> Result<(), WriteFault>
        requires works { DocumentsWork C.pages (D.is_honest disk.old) self.old (D.history disk.old (D.attached disk.old)) }
        ensures tells { IsTrue (D.is_honest disk.old) → (before : Container) → DocumentsHold self.old before
            → TellsWrite before (removed id.now before) result self.new.store self.new.ids
            (D.history disk.old (D.attached disk.old)) (D.history disk.new (D.attached disk.new)) }
        ensures met { IsTrue (D.is_honest disk.old) → MeetsHeld result self.old.ids id.now (store_contents self.old.store) }
        ensures damage { IsTrue (D.is_honest disk.old) → IfErr (of_store result) (λ why. MeetsBy why (D.history disk.new (D.attached disk.new)).reads) }
        ensures only { IfErr result IsOfHeld }
        ensures works { WorkUnlessDisk C.pages (D.is_honest disk.old) (of_store result) self.new
            (D.history disk.new (D.attached disk.new)) }
        ensures one { steps.new ≤ steps.old + 1 }
        ensures none { IsTrue (D.is_honest disk.old) → (before : Container) → DocumentsHold self.old before
            → contains id.now before ≡ false → steps.new ≡ steps.old }
        ensures counted { OnOk result (steps.new ≡ steps.old + 1) }
        ensures never_falls { steps.old ≤ steps.new }
        ensures policies { SamePolicies self.old.table self.new.table }
        ensures small { OnOk result (IsSmallBatch (IsToldHeld (D.is_honest disk.old) self.old.ids id.now (store_contents self.old.store))
            (D.is_honest disk.old) self.old.table None (store_contents self.old.store) (store_contents self.new.store)) }
        ensures learns { LearnsOfDeletion result (D.is_honest disk.old) id.now (store_contents self.old.store) self.old.ids self.new.ids }
        ensures leaves { WriteLeaves C.pages (D.is_honest disk.old) result self.old.store self.new.store
            (D.history disk.old (D.attached disk.old)) (D.history disk.new (D.attached disk.new))
            (D.faults disk.old) (D.faults disk.new) }
        ensures attached { D.attached disk.new ≡ D.attached disk.old }
        ensures honest { D.is_honest disk.new ≡ D.is_honest disk.old }
    {
        delete(
            self.alloc,
            &mut self.store,
            disk,
            &mut self.table,
            &mut self.ids,
            id,
            steps,
        )
    }

    /// The text of the document of an id, as it is stored; `None` exactly where the id is not held. It counts one step
    /// where the id is held, else none.
    ///
    /// `Disk` where a read failed, `Memory` where there is no room for the text or for what the index reads, `Damaged` where
    /// a part of a term page that is read is outside its grammar, with its place. The text is read by nobody here, so it
    /// is not judged.
    pub fn read<D: Disk, L: Ledger>(
        &mut self,
        disk: &mut D,
        id: &[u8],
        steps: &mut Steps<L>,
    ) -> Result<Option<Vec<u8>>, StoreFault>
        requires works { DocumentsWork C.pages (D.is_honest disk.old) self.old (D.history disk.old (D.attached disk.old)) }
        ensures text { IsTrue (D.is_honest disk.old) → (before : Container) → DocumentsHold self.old before
            → IfOk result (λ found. option_map (λ text. text.items) found ≡ option_map canonical_text (tree_of id.now before)) }
        ensures met { IsTrue (D.is_honest disk.old) → IfOk result (IsReadOf self.old.ids id.now (store_contents self.old.store)) }
        ensures damage { IsTrue (D.is_honest disk.old) → IfErr result (λ why. MeetsBy why (D.history disk.new (D.attached disk.new)).reads) }
        ensures holds { IsTrue (D.is_honest disk.old) → (before : Container) → DocumentsHold self.old before
            → DocumentsHold self.new before }
        ensures table { self.new.table ≡ self.old.table }
        ensures learns { Learns (D.is_honest disk.old) id.now (store_contents self.old.store) self.old.ids self.new.ids }
        ensures works { WorkUnlessDisk C.pages (D.is_honest disk.old) result self.new (D.history disk.new (D.attached disk.new)) }
        ensures one { steps.new ≤ steps.old + 1 }
        ensures none { IsTrue (D.is_honest disk.old) → (before : Container) → DocumentsHold self.old before
            → contains id.now before ≡ false → steps.new ≡ steps.old }
        ensures counted { IfOk result (λ found. IfSome found (λ text. steps.new ≡ steps.old + 1)) }
        ensures never_falls { steps.old ≤ steps.new }
        ensures leaves { Looks C.pages (D.is_honest disk.old) result self.old.store self.new.store
            (D.history disk.old (D.attached disk.old)) (D.history disk.new (D.attached disk.new))
            (D.faults disk.old) (D.faults disk.new) }
        ensures attached { D.attached disk.new ≡ D.attached disk.old }
        ensures honest { D.is_honest disk.new ≡ D.is_honest disk.old }
    {
        let number = match find_number(self.alloc, &mut self.store, disk, &mut self.ids, id) {
            Ok(Some(number)) => number,
            Ok(None) => return Ok(None),
            Err(fault) => return Err(fault),
        };
        match text_under(self.alloc, &mut self.store, disk, number, steps) {
            Ok(text) => Ok(text),
            Err(fault) => Err(fault),
        }
    }
}

/// The text of the document of a number; `None` exactly where none is held. It counts one step.
fn text_under<D: Disk, C: PageCache, L: Ledger>(
    alloc: Global,
    store: &mut Store<C>,
    disk: &mut D,
    number: u32,
    steps: &mut Steps<L>,
) -> Result<Option<Vec<u8>>, StoreFault>
    requires agrees { AgreesUnlessFailed C.pages (D.is_honest disk.old) store.old (D.history disk.old (D.attached disk.old)) }
    ensures text { IsTrue (D.is_honest disk.old) → IfOk result (λ found. option_map (λ text. text.items) found
        ≡ option_map (λ document. document.text) (map.get (store_contents store.old).documents number)) }
    ensures only { IfErr result (λ fault. (fault ≡ StoreFault.Disk) ⊎ (fault ≡ StoreFault.Memory)) }
    ensures reads { ReadsStore C.pages (D.is_honest disk.old) store.old store.new
        (D.history disk.old (D.attached disk.old)) (D.history disk.new (D.attached disk.new))
        (D.faults disk.old) (D.faults disk.new) }
    ensures slots { store_slots store.new ≡ store_slots store.old }
    ensures ticked { steps.new ≡ steps.old + 1 }
    ensures fails { FailsBy result (store_failed store.old) (store_failed store.new) }
    ensures cause { store_failed store.old ≡ false → HasDiskCause result (D.faults disk.old) (D.faults disk.new) }
    ensures attached { D.attached disk.new ≡ D.attached disk.old }
    ensures honest { D.is_honest disk.new ≡ D.is_honest disk.old }
{
    match store.fetch_text(alloc, disk, number, steps) {
        Ok(text) => Ok(text),
        Err(fault) => Err(fault),
    }
}
