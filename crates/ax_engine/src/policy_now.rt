//! The policy by which the order of a query is judged.

ghost use Rattle.std.specs.Prelude.{◌≡◌};
ghost use Rattle.ax_engine.specs.PolicyNow as spec;

use ax_policy::{Policy, PolicyTable};

/// The policy that the table has now.
pub(crate) fn current_policy(table: &PolicyTable) -> &Policy
    ensures { result.now ≡ spec.policy_now table.now }
{
    match table.policy(table.now()) {
        Some(policy) => policy,
        // A table has a policy under the number of the one now.
        None => unreachable!(),
    }
}
