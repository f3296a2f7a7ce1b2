//! The changes of the index that a write of a document makes.

ghost use Rattle.std.specs.Prelude.{IfOk, IfSome, IsSome};
ghost use Rattle.std.specs.Option.{option_copied};
ghost use Rattle.ax_storable.specs.Storable.{IsStorable};
ghost use Rattle.ax_policy.specs.Table.{policy_at};
ghost use Rattle.ax_table.specs.TableAgrees.{ArePolicies};
ghost use Rattle.ax_write.specs.Exchanged.{IsExchanged};

use ax_index::Change;
use ax_keep::{Memory, changes, changes_under};
use ax_policy::PolicyTable;
use ax_tree::Tree;
use std::alloc::Global;

/// The changes that take the pairs of a document as it was, under the policy of a number, out of the index, and put in
/// those of it as it is to be, under the policy of another. They rise, and their terms are short.
pub fn pair_changes(
    alloc: Global,
    table: &PolicyTable,
    number: u32,
    before: u8,
    old: Option<&Tree>,
    after: u8,
    new: Option<&Tree>,
) -> Result<Vec<Change>, Memory>
    requires policies { ArePolicies table.now }
    requires before { IsSome (policy_at table.now before) }
    requires after { IsSome (policy_at table.now after) }
    requires old { IfSome (option_copied old) IsStorable }
    requires new { IfSome (option_copied new) IsStorable }
    ensures { IfOk result (λ changes. IsExchanged table.now number before (option_copied old.entry) after (option_copied new.entry) changes.items) }
{
    let Some(old_under) = table.policy(before) else {
        unreachable!()
    };
    let Some(new_under) = table.policy(after) else {
        unreachable!()
    };
    if before == after {
        return changes_under(alloc, number, old_under, old, new);
    }
    changes(alloc, number, old_under, old, new_under, new)
}
