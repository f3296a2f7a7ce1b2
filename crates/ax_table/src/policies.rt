//! The policies of a store, read from their parts and put into a table.

ghost use Rattle.std.specs.Prelude.{◌≡◌, ◌≤◌, ℕ, List, Some, IsTrue, IfOk, IfErr, OnOk, is_some};
ghost use Rattle.std.specs.FinMap as map;
ghost use Rattle.ax_image_grammar.specs.Payloads.{IsTextOf};
ghost use Rattle.ax_policy.specs.Default.{default_policy as the_default};
ghost use Rattle.ax_policy.specs.Normal.{normal_tree};
ghost use Rattle.ax_policy.specs.Policies.{policy_of};
ghost use Rattle.ax_policy.specs.Table.{policy_at};
ghost use Rattle.ax_store.specs.Faults.{IsDiskFault};
ghost use Rattle.ax_store.specs.Slots.{IsRead, IsSlotOf};
ghost use Rattle.ax_store.specs.Store.{AgreesUnlessFailed, store_contents, store_slots};
ghost use Rattle.ax_table.specs.Damage.{TellsPolicy};
ghost use Rattle.ax_table.specs.Filling.{Gives, IsGivenNumber, IsPolicyOf, PutsGiven};
ghost use Rattle.ax_table.specs.Reads.{ReadsBy};

use crate::damage::damaged_at;
use crate::policy_text::{PolicyTextFault, read_policy_text};
use ax_base::Steps;
use ax_cache::PageCache;
use ax_disk::Disk;
use ax_pages::Page;
use ax_policy::{Policy, PolicyTable, default_policy};
use ax_store::{Store, StoreFault, StoreSlot};
use std::alloc::Global;
use std::sync::ledger::Ledger;

/// Sees to it that a number has its policy in the table: one that has none there is read.
pub(crate) fn give_policy<D: Disk, C: PageCache, L: Ledger>(
    alloc: Global,
    store: &mut Store<C>,
    disk: &mut D,
    slot: &mut StoreSlot,
    steps: &mut Steps<L>,
    table: &mut PolicyTable,
    number: u8,
) -> Result<(), StoreFault>
    requires given { IsGivenNumber number (store_contents store.old) }
    requires slot { IsSlotOf store.old slot.old }
    requires agrees { AgreesUnlessFailed C.pages (D.is_honest disk.old) store.old
        (D.history disk.old (D.attached disk.old)) }
    ensures gives { OnOk result (Gives (D.is_honest disk.old) number (store_contents store.old) table.old table.new) }
    ensures told { IsTrue (D.is_honest disk.old) → IfErr result (TellsPolicy number store.old) }
    ensures reads { ReadsBy C.pages (D.is_honest disk.old) result slot.old.number store.old store.new
        (D.history disk.old (D.attached disk.old)) (D.history disk.new (D.attached disk.new))
        (D.faults disk.old) (D.faults disk.new) }
    ensures slot { slot.new ≡ slot.old }
    ensures steps { steps.new ≡ steps.old }
    ensures attached { D.attached disk.new ≡ D.attached disk.old }
    ensures honest { D.is_honest disk.new ≡ D.is_honest disk.old }
{
    if has_policy(table, number) {
        return Ok(());
    }
    put_policy(alloc, store, disk, slot, steps, table, number)
}

/// Whether the number has a policy in the table.
fn has_policy(table: &PolicyTable, number: u8) -> bool
    ensures { result ≡ is_some (policy_at table.now number) }
{
    table.policy(number).is_some()
}

/// Puts the policy of a number into the table.
pub(crate) fn put_policy<D: Disk, C: PageCache, L: Ledger>(
    alloc: Global,
    store: &mut Store<C>,
    disk: &mut D,
    slot: &mut StoreSlot,
    steps: &mut Steps<L>,
    table: &mut PolicyTable,
    number: u8,
) -> Result<(), StoreFault>
    requires given { IsGivenNumber number (store_contents store.old) }
    requires slot { IsSlotOf store.old slot.old }
    requires agrees { AgreesUnlessFailed C.pages (D.is_honest disk.old) store.old
        (D.history disk.old (D.attached disk.old)) }
    ensures puts { OnOk result (PutsGiven (D.is_honest disk.old) number (store_contents store.old) table.old table.new) }
    ensures told { IsTrue (D.is_honest disk.old) → IfErr result (TellsPolicy number store.old) }
    ensures reads { ReadsBy C.pages (D.is_honest disk.old) result slot.old.number store.old store.new
        (D.history disk.old (D.attached disk.old)) (D.history disk.new (D.attached disk.new))
        (D.faults disk.old) (D.faults disk.new) }
    ensures slot { slot.new ≡ slot.old }
    ensures steps { steps.new ≡ steps.old }
    ensures attached { D.attached disk.new ≡ D.attached disk.old }
    ensures honest { D.is_honest disk.new ≡ D.is_honest disk.old }
{
    let policy = match policy_under(alloc, store, disk, slot, steps, number) {
        Ok(policy) => policy,
        Err(fault) => return Err(fault),
    };
    match table.put(number, policy) {
        Ok(()) => Ok(()),
        Err(_) => Err(StoreFault::Memory),
    }
}

/// The policy of a number: the one whose text a part gave it, and where none did the default one.
fn policy_under<D: Disk, C: PageCache, L: Ledger>(
    alloc: Global,
    store: &mut Store<C>,
    disk: &mut D,
    slot: &mut StoreSlot,
    steps: &mut Steps<L>,
    number: u8,
) -> Result<Policy, StoreFault>
    requires slot { IsSlotOf store.old slot.old }
    requires agrees { AgreesUnlessFailed C.pages (D.is_honest disk.old) store.old
        (D.history disk.old (D.attached disk.old)) }
    ensures policy { IfOk result (IsPolicyOf (D.is_honest disk.old) number (store_contents store.old)) }
    ensures told { IsTrue (D.is_honest disk.old) → IfErr result (TellsPolicy number store.old) }
    ensures reads { ReadsBy C.pages (D.is_honest disk.old) result slot.old.number store.old store.new
        (D.history disk.old (D.attached disk.old)) (D.history disk.new (D.attached disk.new))
        (D.faults disk.old) (D.faults disk.new) }
    ensures slot { slot.new ≡ slot.old }
    ensures steps { steps.new ≡ steps.old }
    ensures attached { D.attached disk.new ≡ D.attached disk.old }
    ensures honest { D.is_honest disk.new ≡ D.is_honest disk.old }
{
    if !has_part(store, number) {
        return by_default(alloc);
    }
    let len = match store.read_part(disk, Page::Policy(number), 0, slot, steps) {
        Ok(len) => len,
        Err(fault) => return Err(fault),
    };
    policy_read(alloc, store, slot, len, number)
}

/// Whether a part gave a policy this number.
fn has_part<C>(store: &Store<C>, number: u8) -> bool
    ensures { result ≡ map.contains_key (store_contents store.now).policies number }
{
    store.has_policy(u32::from(number))
}

/// The policy of a number whose part was read into the front of a slot, by its length.
fn policy_read<C>(
    alloc: Global,
    store: &Store<C>,
    slot: &StoreSlot,
    len: usize,
    number: u8,
) -> Result<Policy, StoreFault>
    requires part { IsTrue (map.contains_key (store_contents store.now).policies number) }
    requires slot { IsSlotOf store.now slot.now }
    requires room { len ≤ 65536 }
    ensures policy { IfOk result (λ policy. policy_of (normal_tree policy) ≡ Some policy) }
    ensures text { (text : List ℕ) → IsRead text (store_slots store.now) slot.now.number len → IfOk result (IsTextOf text) }
    ensures told { (text : List ℕ) → map.get (store_contents store.now).policies number ≡ Some text
        → IsRead text (store_slots store.now) slot.now.number len → IfErr result (TellsPolicy number store.now) }
    ensures fault { IfErr result (λ fault. IsDiskFault fault → ⊥) }
{
    match read_policy_text(alloc, text_in(store, slot, len)) {
        Ok(policy) => Ok(policy),
        Err(PolicyTextFault::Outside) => Err(damaged_at(store, Page::Policy(number))),
        Err(PolicyTextFault::Memory) => Err(StoreFault::Memory),
    }
}

/// The default policy.
fn by_default(alloc: Global) -> Result<Policy, StoreFault>
    ensures policy { IfOk result (λ policy. policy ≡ the_default) }
    ensures memory { IfErr result (λ fault. fault ≡ StoreFault.Memory) }
{
    match default_policy(alloc) {
        Ok(policy) => Ok(policy),
        Err(_) => Err(StoreFault::Memory),
    }
}

/// The text that was read into the front of a slot, by its length.
fn text_in<'a, C>(store: &'a Store<C>, slot: &StoreSlot, len: usize) -> &'a [u8]
    requires slot { IsSlotOf store.now slot.now }
    requires room { len ≤ 65536 }
    ensures { (text : List ℕ) → IsRead text (store_slots store.now) slot.now.number len → result.now ≡ text }
{
    let (text, _) = store.slot_bytes(slot).split_at(len);
    text
}
