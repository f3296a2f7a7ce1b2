//! The documents of a store, counted under their policies.

ghost use Rattle.std.specs.Prelude.{◌≡◌, ◌<◌, ◌≤◌, IsTrue, IfErr, OnOk, OnErr, Some, false};
ghost use Rattle.std.specs.FinMap as map;
ghost use Rattle.ax_area.specs.Contents.{Stored};
ghost use Rattle.ax_pages.specs.AfterPart.{most_documents};
ghost use Rattle.ax_policy.specs.Table.{count_at};
ghost use Rattle.ax_store.specs.Faults.{IsDiskFault};
ghost use Rattle.ax_store.specs.Slots.{IsSlotOf};
ghost use Rattle.ax_store.specs.Store.{AgreesUnlessFailed, store_contents, store_failed};
ghost use Rattle.ax_table.specs.Damage.{TellsTable};
ghost use Rattle.ax_table.specs.Filling.{IsFilled, IsFirst, IsStarted, TakesIn};
ghost use Rattle.ax_table.specs.Reads.{ReadsBy};

use crate::damage::damaged_at;
use crate::given::given_by;
use crate::policies::give_policy;
use ax_base::Steps;
use ax_cache::PageCache;
use ax_disk::Disk;
use ax_pages::Page;
use ax_pages::numbers::MOST_DOCUMENTS;
use ax_policy::PolicyTable;
use ax_store::{Store, StoreFault, StoreSlot};
use std::alloc::Global;
use std::sync::ledger::Ledger;

/// Counts each document of a store under its policy, in one pass over their heads. The policy of a number is read when
/// the first document under it is met.
pub(crate) fn take_documents<D: Disk, C: PageCache, L: Ledger>(
    alloc: Global,
    store: &mut Store<C>,
    disk: &mut D,
    slot: &mut StoreSlot,
    steps: &mut Steps<L>,
    table: &mut PolicyTable,
) -> Result<(), StoreFault>
    requires started { IsStarted (D.is_honest disk.old) table.old (store_contents store.old) }
    requires slot { IsSlotOf store.old slot.old }
    requires agrees { AgreesUnlessFailed C.pages (D.is_honest disk.old) store.old
        (D.history disk.old (D.attached disk.old)) }
    ensures filled { OnOk result (IsFilled (D.is_honest disk.old) table.new (store_contents store.old)) }
    ensures told { IsTrue (D.is_honest disk.old) → store_failed store.old ≡ false → IfErr result (TellsTable store.old) }
    ensures reads { ReadsBy C.pages (D.is_honest disk.old) result slot.old.number store.old store.new
        (D.history disk.old (D.attached disk.old)) (D.history disk.new (D.attached disk.new))
        (D.faults disk.old) (D.faults disk.new) }
    ensures slot { slot.new ≡ slot.old }
    ensures steps { steps.new ≡ steps.old }
    ensures attached { D.attached disk.new ≡ D.attached disk.old }
    ensures honest { D.is_honest disk.new ≡ D.is_honest disk.old }
{
    let mut next = first_document(store);
    match check_count(store, next) {
        Ok(()) => {}
        Err(fault) => return Err(fault),
    }
    while let Some(number) = next {
        match take_document(alloc, store, disk, slot, steps, table, number) {
            Ok(()) => {}
            Err(fault) => return Err(fault),
        }
        next = store.next_document(number);
    }
    Ok(())
}

/// The least number of a document.
fn first_document<C>(store: &Store<C>) -> Option<u32>
    ensures { IsFirst (store_contents store.now).documents result }
{
    if store.head_of(0).is_some() {
        return Some(0);
    }
    store.next_document(0)
}

/// Refuses more documents than a store holds. The fault has the place of the first one's part.
fn check_count<C>(store: &Store<C>, first: Option<u32>) -> Result<(), StoreFault>
    requires { IsFirst (store_contents store.now).documents first }
    ensures few { OnOk result (map.len (store_contents store.now).documents ≤ most_documents) }
    ensures many { OnErr result (most_documents < map.len (store_contents store.now).documents) }
    ensures fault { IfErr result (λ fault. IsDiskFault fault → ⊥) }
{
    match first {
        Some(number) => check_held_count(store, number),
        None => Ok(()),
    }
}

/// The same where a document of this number is held.
fn check_held_count<C>(store: &Store<C>, number: u32) -> Result<(), StoreFault>
    requires { IsTrue (map.contains_key (store_contents store.now).documents number) }
    ensures few { OnOk result (map.len (store_contents store.now).documents ≤ most_documents) }
    ensures many { OnErr result (most_documents < map.len (store_contents store.now).documents) }
    ensures fault { IfErr result (λ fault. IsDiskFault fault → ⊥) }
{
    if store.documents() > MOST_DOCUMENTS {
        Err(damaged_document(store, number))
    } else {
        Ok(())
    }
}

/// Counts a document under its policy.
fn take_document<D: Disk, C: PageCache, L: Ledger>(
    alloc: Global,
    store: &mut Store<C>,
    disk: &mut D,
    slot: &mut StoreSlot,
    steps: &mut Steps<L>,
    table: &mut PolicyTable,
    number: u32,
) -> Result<(), StoreFault>
    requires held { IsTrue (map.contains_key (store_contents store.old).documents number) }
    requires room { (document : Stored) → map.get (store_contents store.old).documents number ≡ Some document
        → count_at table.old document.policy < most_documents }
    requires slot { IsSlotOf store.old slot.old }
    requires agrees { AgreesUnlessFailed C.pages (D.is_honest disk.old) store.old
        (D.history disk.old (D.attached disk.old)) }
    ensures takes { OnOk result ((document : Stored) → map.get (store_contents store.old).documents number ≡ Some document
        → TakesIn (D.is_honest disk.old) document.policy (store_contents store.old) table.old table.new) }
    ensures told { IsTrue (D.is_honest disk.old) → store_failed store.old ≡ false → IfErr result (TellsTable store.old) }
    ensures reads { ReadsBy C.pages (D.is_honest disk.old) result slot.old.number store.old store.new
        (D.history disk.old (D.attached disk.old)) (D.history disk.new (D.attached disk.new))
        (D.faults disk.old) (D.faults disk.new) }
    ensures slot { slot.new ≡ slot.old }
    ensures steps { steps.new ≡ steps.old }
    ensures attached { D.attached disk.new ≡ D.attached disk.old }
    ensures honest { D.is_honest disk.new ≡ D.is_honest disk.old }
{
    let Some(head) = store.head_of(number) else {
        unreachable!()
    };
    let Some(policy) = given_by(store, head) else {
        return Err(damaged_document(store, number));
    };
    match give_policy(alloc, store, disk, slot, steps, table, policy) {
        Ok(()) => {}
        Err(fault) => return Err(fault),
    }
    table.count_in(policy);
    Ok(())
}

/// The fault of the part of a document.
fn damaged_document<C>(store: &Store<C>, number: u32) -> StoreFault
    requires { IsTrue (map.contains_key (store_contents store.now).documents number) }
    ensures { IsDiskFault result → ⊥ }
{
    damaged_at(store, Page::Document(number))
}
