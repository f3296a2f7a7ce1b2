//! The table of a store, read when the store is opened.

ghost use Rattle.std.specs.Prelude.{◌≡◌, ◌≤◌, IsTrue, IfOk, IfErr, OnOk, false};
ghost use Rattle.ax_image_grammar.specs.Table.{AreApart};
ghost use Rattle.ax_policy.specs.Table.{fresh, AreApart as AreApartIn};
ghost use Rattle.ax_pool.specs.Frames.{free_count};
ghost use Rattle.ax_store.specs.Faults.{HasDiskCause};
ghost use Rattle.ax_store.specs.Reads.{ReadsStore};
ghost use Rattle.ax_store.specs.Slots.{IsSlotOf};
ghost use Rattle.ax_store.specs.Store.{AgreesUnlessFailed, store_contents, store_failed, store_slots};
ghost use Rattle.ax_table.specs.Damage.{TellsTable};
ghost use Rattle.ax_table.specs.Filling.{AreNumbersGiven, IsStarted, TellsTwins};
ghost use Rattle.ax_table.specs.Reads.{FailsBy, KeepsTaken, ReadsBy};
ghost use Rattle.ax_table.specs.TableAgrees.{TableAgrees};

use crate::apart::twin_in;
use crate::damage::{damaged_area, damaged_at};
use crate::documents::take_documents;
use crate::given::given_number;
use crate::policies::{give_policy, put_policy};
use ax_base::Steps;
use ax_cache::PageCache;
use ax_disk::Disk;
use ax_pages::Page;
use ax_policy::PolicyTable;
use ax_store::{Store, StoreFault, StoreSlot};
use std::alloc::Global;
use std::sync::ledger::Ledger;

/// The table of the policies of a store, which agrees with it: each number that is in use or now has its policy, the
/// policy now is that of the store, and each count is that of the documents under the number, by their heads. No two
/// numbers in use or now have one policy. It looks at no text of a document, and counts no step.
///
/// `Damaged` where the text that a part gave a number in use or now, or number 0, is the normal text of no policy, with
/// the place of that part; and at offset 0 of the area where two numbers in use or now have one text. `Disk` where a
/// read failed, and the disk's count of faults rose, or where the store had failed before. `Memory` where there is no
/// room for a policy or its text.
pub fn read_table<D: Disk, C: PageCache, L: Ledger>(
    alloc: Global,
    store: &mut Store<C>,
    disk: &mut D,
    steps: &mut Steps<L>,
) -> Result<PolicyTable, StoreFault>
    requires free { 2 ≤ free_count (store_slots store.old) }
    requires agrees { AgreesUnlessFailed C.pages (D.is_honest disk.old) store.old
        (D.history disk.old (D.attached disk.old)) }
    ensures table { IfOk result (λ table. TableAgrees (D.is_honest disk.old) table (store_contents store.old)) }
    ensures apart { IsTrue (D.is_honest disk.old) → OnOk result (AreApart (store_contents store.old)) }
    ensures told { IsTrue (D.is_honest disk.old) → store_failed store.old ≡ false → IfErr result (TellsTable store.old) }
    ensures reads { ReadsStore C.pages (D.is_honest disk.old) store.old store.new
        (D.history disk.old (D.attached disk.old)) (D.history disk.new (D.attached disk.new))
        (D.faults disk.old) (D.faults disk.new) }
    ensures others { KeepsTaken (store_slots store.old) (store_slots store.new) }
    ensures fails { FailsBy result (store_failed store.old) (store_failed store.new) }
    ensures cause { store_failed store.old ≡ false → HasDiskCause result (D.faults disk.old) (D.faults disk.new) }
    ensures steps { steps.new ≡ steps.old }
    ensures attached { D.attached disk.new ≡ D.attached disk.old }
    ensures honest { D.is_honest disk.new ≡ D.is_honest disk.old }
{
    let Some(mut slot) = store.take_slot() else {
        unreachable!()
    };
    let table = table_by(alloc, store, disk, &mut slot, steps);
    store.give_slot(slot);
    table
}

/// The table of a store, by a slot that was taken.
fn table_by<D: Disk, C: PageCache, L: Ledger>(
    alloc: Global,
    store: &mut Store<C>,
    disk: &mut D,
    slot: &mut StoreSlot,
    steps: &mut Steps<L>,
) -> Result<PolicyTable, StoreFault>
    requires slot { IsSlotOf store.old slot.old }
    requires agrees { AgreesUnlessFailed C.pages (D.is_honest disk.old) store.old
        (D.history disk.old (D.attached disk.old)) }
    ensures table { IfOk result (λ table. TableAgrees (D.is_honest disk.old) table (store_contents store.old)) }
    ensures apart { IsTrue (D.is_honest disk.old) → OnOk result (AreApart (store_contents store.old)) }
    ensures told { IsTrue (D.is_honest disk.old) → store_failed store.old ≡ false → IfErr result (TellsTable store.old) }
    ensures reads { ReadsBy C.pages (D.is_honest disk.old) result slot.old.number store.old store.new
        (D.history disk.old (D.attached disk.old)) (D.history disk.new (D.attached disk.new))
        (D.faults disk.old) (D.faults disk.new) }
    ensures slot { slot.new ≡ slot.old }
    ensures steps { steps.new ≡ steps.old }
    ensures attached { D.attached disk.new ≡ D.attached disk.old }
    ensures honest { D.is_honest disk.new ≡ D.is_honest disk.old }
{
    let mut table = match PolicyTable::fresh(alloc) {
        Ok(table) => table,
        Err(_) => return Err(StoreFault::Memory),
    };
    match fill_table(alloc, store, disk, slot, steps, &mut table) {
        Ok(()) => Ok(table),
        Err(fault) => {
            drop(table);
            Err(fault)
        }
    }
}

/// Fills a new table from the parts of a store.
fn fill_table<D: Disk, C: PageCache, L: Ledger>(
    alloc: Global,
    store: &mut Store<C>,
    disk: &mut D,
    slot: &mut StoreSlot,
    steps: &mut Steps<L>,
    table: &mut PolicyTable,
) -> Result<(), StoreFault>
    requires fresh { table.old ≡ fresh }
    requires slot { IsSlotOf store.old slot.old }
    requires agrees { AgreesUnlessFailed C.pages (D.is_honest disk.old) store.old
        (D.history disk.old (D.attached disk.old)) }
    ensures table { OnOk result (TableAgrees (D.is_honest disk.old) table.new (store_contents store.old)) }
    ensures apart { IsTrue (D.is_honest disk.old) → OnOk result (AreApart (store_contents store.old)) }
    ensures told { IsTrue (D.is_honest disk.old) → store_failed store.old ≡ false → IfErr result (TellsTable store.old) }
    ensures reads { ReadsBy C.pages (D.is_honest disk.old) result slot.old.number store.old store.new
        (D.history disk.old (D.attached disk.old)) (D.history disk.new (D.attached disk.new))
        (D.faults disk.old) (D.faults disk.new) }
    ensures slot { slot.new ≡ slot.old }
    ensures steps { steps.new ≡ steps.old }
    ensures attached { D.attached disk.new ≡ D.attached disk.old }
    ensures honest { D.is_honest disk.new ≡ D.is_honest disk.old }
{
    match take_now(alloc, store, disk, slot, steps, table) {
        Ok(()) => {}
        Err(fault) => return Err(fault),
    }
    match take_documents(alloc, store, disk, slot, steps, table) {
        Ok(()) => {}
        Err(fault) => return Err(fault),
    }
    check_apart(alloc, store, table)
}

/// Gives a new table the policy of number 0 and the policy now.
fn take_now<D: Disk, C: PageCache, L: Ledger>(
    alloc: Global,
    store: &mut Store<C>,
    disk: &mut D,
    slot: &mut StoreSlot,
    steps: &mut Steps<L>,
    table: &mut PolicyTable,
) -> Result<(), StoreFault>
    requires fresh { table.old ≡ fresh }
    requires slot { IsSlotOf store.old slot.old }
    requires agrees { AgreesUnlessFailed C.pages (D.is_honest disk.old) store.old
        (D.history disk.old (D.attached disk.old)) }
    ensures started { OnOk result (IsStarted (D.is_honest disk.old) table.new (store_contents store.old)) }
    ensures told { IsTrue (D.is_honest disk.old) → store_failed store.old ≡ false → IfErr result (TellsTable store.old) }
    ensures reads { ReadsBy C.pages (D.is_honest disk.old) result slot.old.number store.old store.new
        (D.history disk.old (D.attached disk.old)) (D.history disk.new (D.attached disk.new))
        (D.faults disk.old) (D.faults disk.new) }
    ensures slot { slot.new ≡ slot.old }
    ensures steps { steps.new ≡ steps.old }
    ensures attached { D.attached disk.new ≡ D.attached disk.old }
    ensures honest { D.is_honest disk.new ≡ D.is_honest disk.old }
{
    let Some(now) = given_number(store, store.meta().now) else {
        return Err(damaged_at(store, Page::Meta));
    };
    match put_policy(alloc, store, disk, slot, steps, table, 0) {
        Ok(()) => {}
        Err(fault) => return Err(fault),
    }
    match give_policy(alloc, store, disk, slot, steps, table, now) {
        Ok(()) => {}
        Err(fault) => return Err(fault),
    }
    table.start(now);
    Ok(())
}

/// Refuses a table in which two numbers in use or now have policies of one normal text.
fn check_apart<C>(alloc: Global, store: &Store<C>, table: &PolicyTable) -> Result<(), StoreFault>
    requires { AreNumbersGiven table.now (store_contents store.now) }
    ensures apart { OnOk result (AreApartIn table.now) }
    ensures told { IfErr result (TellsTwins store.now table.now) }
{
    match twin_in(alloc, table) {
        Ok(None) => Ok(()),
        Ok(Some(number)) => Err(damaged_area(store, Page::Policy(number))),
        Err(_) => Err(StoreFault::Memory),
    }
}
