//! Policies by number, and which of them is the policy now.
ghost use Rattle.std.specs.Prelude.{◌≡◌, ◌+◌, ◌-◌, ◌<◌, ◌≤◌, IfOk, IfErr, OnOk, OnErr, IsSome, length, replicate};
ghost use Rattle.std.specs.Option.{option_copied};
ghost use Rattle.ax_policy.specs.NumberUses.{use_of, with_uses, nothing_found};
ghost use Rattle.ax_policy.specs.Table as spec;

use crate::default::default_policy;
use crate::number_use::{NumberUse, NumbersFound};
use crate::policy::Policy;
use crate::slot::Slot;
use crate::table_fault::TableFault;
use ax_mean::Memory;
use std::alloc::Global;
use std::marker::Model;

/// Policies by number, from 0 to 8, each with the count of the documents that are under it, and
/// which of them is the policy now; and a number below which every document is under the policy now,
/// as who sets it keeps.
#[derive(Debug, Drop)]
pub struct PolicyTable {
    slots: Vec<Slot>,
    current: u8,
    /// Every document of a lesser number is under the policy now.
    moved: u32,
}

impl Model for PolicyTable {
    ghost use Rattle.ax_policy.specs.Table.{Table, IsTable};

    ghost Value = { Table };

    ghost view = { λ t. record { slots = t.slots.items; current = t.current; moved = t.moved } };

    ghost invariant = { λ t. IsTable (record { slots = t.slots.items; current = t.current; moved = t.moved }) };
}

impl PolicyTable {
    /// The table of a new store: the default policy has number 0 and is the policy now, and no
    /// document is under any policy.
    pub fn fresh(alloc: Global) -> Result<PolicyTable, Memory>
        ensures { IfOk result (λ table. table ≡ spec.fresh) }
    {
        let policy = default_policy(alloc)?;
        match empty_slots(alloc) {
            Ok(slots) => Ok(begun(slots, policy)),
            Err(fault) => {
                drop(policy);
                Err(fault)
            }
        }
    }

    /// Puts the policy under that number, in place of what stood there.
    pub fn put(&mut self, number: u8, policy: Policy) -> Result<(), Memory>
        requires { number ≤ 8 }
        ensures ok { OnOk result (spec.PutsPolicy number policy self.old self.new) }
        ensures err { OnErr result (self.new ≡ self.old) }
    {
        self.store(number, policy);
        Ok(())
    }

    fn store(&mut self, number: u8, policy: Policy)
        requires { number ≤ 8 }
        ensures { spec.PutsPolicy number policy self.old self.new }
    {
        let slot = &mut self.slots[usize::from(number)];
        slot.policy = Some(policy);
    }

    /// The policy of that number; `None` where it has none.
    pub fn policy(&self, number: u8) -> Option<&Policy>
        ensures { option_copied result ≡ spec.policy_at self.now number }
    {
        self.slots.get(usize::from(number))?.policy.as_ref()
    }

    /// How many documents are under the policy of that number; 0 where it has none.
    pub fn count(&self, number: u8) -> u32
        ensures count { result ≡ spec.count_at self.now number }
        ensures none { spec.policy_at self.now number ≡ None → result ≡ 0 }
        ensures most { result ≤ spec.most_documents }
    {
        match self.slots.get(usize::from(number)) {
            Some(slot) => slot.count,
            None => 0,
        }
    }

    /// The number of the policy now.
    pub fn now(&self) -> u8
        ensures current { result ≡ self.now.current }
        ensures given { IsSome (spec.policy_at self.now result) }
    {
        self.current
    }

    /// One document more under the policy of that number.
    pub fn count_in(&mut self, number: u8)
        requires given { IsSome (spec.policy_at self.old number) }
        requires room { spec.count_at self.old number < spec.most_documents }
        ensures { spec.SetsCount number (spec.count_at self.old number + 1) self.old self.new }
    {
        let slot = &mut self.slots[usize::from(number)];
        slot.count += 1;
    }

    /// One document less under the policy of that number.
    pub fn count_out(&mut self, number: u8)
        requires given { IsSome (spec.policy_at self.old number) }
        requires used { 0 < spec.count_at self.old number }
        ensures { spec.SetsCount number (spec.count_at self.old number - 1) self.old self.new }
    {
        let slot = &mut self.slots[usize::from(number)];
        slot.count -= 1;
    }

    /// How many documents are under other policies than that now.
    pub fn left(&self) -> u32
        ensures { result ≡ spec.left self.now }
    {
        let mut left = 0;
        for number in numbers() {
            left += self.count_unless_now(*number);
        }
        left
    }

    fn count_unless_now(&self, number: u8) -> u32
        ensures count { result ≡ spec.count_unless_now self.now number }
        ensures most { result ≤ spec.most_documents }
    {
        if number == self.current {
            0
        } else {
            self.count(number)
        }
    }

    /// The number below which every document is under the policy now.
    pub fn moved(&self) -> u32
        ensures { result ≡ self.now.moved }
    {
        self.moved
    }

    /// Notes that every document below that number is under the policy now, which is the caller's to
    /// know.
    pub fn set_moved(&mut self, number: u32)
        ensures { self.new ≡ record self.old { moved = number } }
    {
        self.moved = number;
    }

    /// Makes the policy of that number the policy now; no document is known to be under it.
    pub fn start(&mut self, number: u8)
        requires { IsSome (spec.policy_at self.old number) }
        ensures { self.new ≡ record self.old { current = number; moved = 0 } }
    {
        self.current = number;
        self.moved = 0;
    }

    /// Makes the policy the one now, under the number that is in use or now under the same normal
    /// text, and else under the least that is neither. `TableFault::Full` where eight other
    /// policies are in use; after an error the table is as before.
    pub fn set_now(&mut self, alloc: Global, policy: Policy) -> Result<(), TableFault>
        ensures ok { OnOk result (spec.SetsNow policy self.old self.new) }
        ensures room { OnOk result (spec.others_in_use policy self.old < spec.most_others) }
        ensures full { result ≡ Err TableFault.Full → spec.most_others ≤ spec.others_in_use policy self.old }
        ensures err { OnErr result (self.new ≡ self.old) }
    {
        match self.number_for(alloc, &policy) {
            Ok(number) => self.set_under(number, policy),
            Err(Memory) => {
                drop(policy);
                Err(TableFault::Memory)
            }
        }
    }

    /// Makes the policy the one now, under the number that it is given. `TableFault::Full`, and no
    /// other error, where it is given none.
    fn set_under(&mut self, number: Option<u8>, policy: Policy) -> Result<(), TableFault>
        requires { spec.IsGiven policy self.old number }
        ensures ok { OnOk result (spec.SetsNow policy self.old self.new) }
        ensures room { OnOk result (spec.others_in_use policy self.old < spec.most_others) }
        ensures full { OnErr result (spec.most_others ≤ spec.others_in_use policy self.old) }
        ensures only { IfErr result (λ fault. fault ≡ TableFault.Full) }
        ensures err { OnErr result (self.new ≡ self.old) }
    {
        match number {
            Some(number) => {
                self.put_now(number, policy);
                Ok(())
            }
            None => {
                drop(policy);
                Err(TableFault::Full)
            }
        }
    }

    /// Makes the policy the one now, under the number that `number_for` gives it.
    pub fn put_now(&mut self, number: u8, policy: Policy)
        requires { spec.IsGiven policy self.old (Some number) }
        ensures now { spec.SetsNow policy self.old self.new }
        ensures room { spec.others_in_use policy self.old < spec.most_others }
    {
        self.store(number, policy);
        self.start(number);
    }

    /// The number that the policy is given, from 0 to 8: that in use or now under the same normal
    /// text, and else the least that is neither. `None` just where eight other policies are in use.
    pub fn number_for(&self, alloc: Global, policy: &Policy) -> Result<Option<u8>, Memory>
        ensures { IfOk result (spec.IsGiven policy.now self.now) }
    {
        let text = policy.normal(alloc)?;
        let found = self.numbers_found(alloc, text.as_slice())?;
        Ok(found.number())
    }

    /// What there is among the numbers for a policy of that normal text.
    fn numbers_found(&self, alloc: Global, text: &[u8]) -> Result<NumbersFound, Memory>
        ensures { IfOk result (λ found. found ≡ with_uses text.now self.now nothing_found spec.numbers) }
    {
        let mut found = NumbersFound::none();
        for number in numbers() {
            found = found.with(*number, self.number_use(alloc, *number, text)?);
        }
        Ok(found)
    }

    fn number_use(&self, alloc: Global, number: u8, text: &[u8]) -> Result<NumberUse, Memory>
        ensures { IfOk result (λ number_use. number_use ≡ use_of text.now self.now number) }
    {
        if !self.is_taken(number) {
            return Ok(NumberUse::Free);
        }
        if self.has_text(alloc, number, text)? {
            return Ok(NumberUse::Same);
        }
        if self.is_used(number) {
            Ok(NumberUse::Other)
        } else {
            Ok(NumberUse::Idle)
        }
    }

    fn is_used(&self, number: u8) -> bool
        ensures { result ≡ spec.is_used self.now number }
    {
        self.count(number) > 0
    }

    /// Whether the number is in use or now.
    fn is_taken(&self, number: u8) -> bool
        ensures { result ≡ spec.is_taken self.now number }
    {
        self.is_used(number) || number == self.current
    }

    /// Whether the number has a policy of that normal text.
    fn has_text(&self, alloc: Global, number: u8, text: &[u8]) -> Result<bool, Memory>
        ensures { IfOk result (λ has. has ≡ spec.is_text_of text.now (spec.policy_at self.now number)) }
    {
        match self.policy(number) {
            Some(policy) => Ok(policy.normal(alloc)?.as_slice() == text),
            None => Ok(false),
        }
    }
}

/// The numbers that policies have.
#[tactic(auto, unfolding(crate::specs::Table::numbers))]
fn numbers() -> &'static [u8]
    ensures numbers { result.now ≡ spec.numbers }
    ensures nine { length result.now ≡ 9 }
{
    &[0, 1, 2, 3, 4, 5, 6, 7, 8]
}

/// The table with the policy under number 0.
fn begun(slots: Vec<Slot>, policy: Policy) -> PolicyTable
    requires { slots.items ≡ replicate 9 spec.no_slot }
    ensures { result ≡ spec.begun policy }
{
    let mut slots = slots;
    let first = &mut slots[0];
    first.policy = Some(policy);
    PolicyTable {
        slots,
        current: 0,
        moved: 0,
    }
}

fn empty_slots(alloc: Global) -> Result<Vec<Slot>, Memory>
    ensures { IfOk result (λ slots. slots.items ≡ replicate 9 spec.no_slot) }
{
    let mut slots = Vec::new(alloc);
    for _number in numbers() {
        slots.push(Slot {
            policy: None,
            count: 0,
        })?;
    }
    Ok(slots)
}
