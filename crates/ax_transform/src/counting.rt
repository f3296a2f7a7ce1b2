//! The counts of a table of policies, where documents are moved to the policy now.

ghost use Rattle.ax_transform.specs.Gathering.{CountAllMoved, MayAllBeMoved};

use ax_policy::PolicyTable;

/// Counts each of the documents that were under the policies of these numbers under the policy now.
pub(crate) fn count_moved(table: &mut PolicyTable, policies: &[u8])
    requires { MayAllBeMoved policies.now table.old }
    ensures { CountAllMoved policies.now table.old table.new }
{
    let now = table.now();
    for policy in policies {
        table.count_out(*policy);
        table.count_in(now);
    }
}
