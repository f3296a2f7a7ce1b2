//! Documents that are to be put under the policy now, gathered with what moves them.

ghost use Rattle.std.specs.Prelude.{◌≡◌, ◌≢◌, [], Bool, IsTrue, IsSome, OnOk, true, false};
ghost use Rattle.std.specs.FinMap as map;
ghost use Rattle.ax_area.specs.Contents.{Contents, Stored};
ghost use Rattle.ax_policy.specs.Table.{policy_at};
ghost use Rattle.ax_storable.specs.Storable.{IsStorable};
ghost use Rattle.ax_store.specs.Batch.{batch_parts};
ghost use Rattle.ax_table.specs.TableAgrees.{ArePolicies, TableAgrees};
ghost use Rattle.ax_transform.specs.Gathering.{AddsMove};
ghost use Rattle.ax_write.specs.Held.{IsHeld};

use ax_index::Change;
use ax_policy::PolicyTable;
use ax_store::{Batch, Memory};
use ax_write::{HeldDocument, add_document, pair_changes};
use std::alloc::Global;

/// Documents that are to be put under the policy now: the parts that say so, the changes of the index in the order in which they
/// were gathered, of each document the number of the policy that it was under, and a number: the documents up to it are under the
/// policy now, or are among these.
#[derive(Drop)]
pub(crate) struct Moves {
    pub(crate) batch: Batch,
    pub(crate) changes: Vec<Change>,
    pub(crate) policies: Vec<u8>,
    pub(crate) last: u32,
}

impl Moves {
    /// None yet, behind that number. It takes no memory.
    pub(crate) fn begin(alloc: Global, last: u32) -> Moves
        ensures parts { batch_parts result.batch ≡ [] }
        ensures changes { result.changes.items ≡ [] }
        ensures policies { result.policies.items ≡ [] }
        ensures last { result.last ≡ last }
    {
        Moves {
            batch: Batch::begin(alloc),
            changes: Vec::new(alloc),
            policies: Vec::new(alloc),
            last,
        }
    }

    /// Whether there is none.
    pub(crate) fn is_empty(&self) -> bool
        ensures none { result ≡ true → self.now.policies.items ≡ [] }
        ensures some { result ≡ false → self.now.policies.items ≢ [] }
    {
        self.policies.as_slice().is_empty()
    }

    /// One more, of that number. `Memory` where there is no room for it; what was gathered is then not to be committed.
    pub(crate) fn add(
        &mut self,
        alloc: Global,
        table: &PolicyTable,
        number: u32,
        held: &HeldDocument,
    ) -> Result<(), Memory>
        requires policies { ArePolicies table.now }
        requires before { IsSome (policy_at table.now held.now.policy) }
        requires storable { IsStorable held.now.tree }
        ensures { (honest : Bool) → (contents : Contents) → (stored : Stored)
            → map.get contents.documents number ≡ Some stored → held.now.policy ≡ stored.policy
            → (IsTrue honest → IsHeld (Some stored) (Some held.now))
            → OnOk result (AddsMove honest table.now contents number self.old self.new) }
    {
        let now = table.now();
        let tree = &held.tree;
        let Ok(changes) = pair_changes(
            alloc,
            table,
            number,
            held.policy,
            Some(tree),
            now,
            Some(tree),
        ) else {
            return Err(Memory);
        };
        let mut changes = changes;
        self.policies.push(held.policy)?;
        self.changes.append(&mut changes)?;
        add_document(alloc, &mut self.batch, number, now, tree)?;
        self.last = number;
        Ok(())
    }
}
