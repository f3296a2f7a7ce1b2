//! Why a query that was read is refused.
ghost use Rattle.std.specs.Prelude.{◌≡◌, ℕ, List, Result, Err, IfSome, IfNone};
ghost use Rattle.ax_lines.specs.declared.refusal.Refusal as refused;
ghost use Rattle.ax_lines.specs.Causes.{unless};
ghost use Rattle.ax_machine.specs.Querying.{causes};
ghost use Rattle.ax_policy.specs.Sameness.{is_orderable};

use ax_lines::Refusal;
use ax_mean::{OrderList, Query};
use ax_policy::Policy;

/// The refusal of a query that was read, under the policy now, and none of one that is answered: `Order` where the policy
/// keeps no order for its ORDER BY.
pub fn refusal_of(query: &Query, policy: &Policy) -> Option<Refusal>
    ensures refused { IfSome result (λ why. (answer : Result (List (List ℕ)) refused.Refusal)
        → unless (causes policy.now query.now) answer ≡ Err why) }
    ensures answered { IfNone result ((answer : Result (List (List ℕ)) refused.Refusal)
        → unless (causes policy.now query.now) answer ≡ answer) }
{
    if !is_kept(policy, &query.orders) {
        return Some(Refusal::Order);
    }
    None
}

/// Whether the policy keeps an order for ORDER BY, or none is asked for.
fn is_kept(policy: &Policy, orders: &OrderList) -> bool
    ensures { result ≡ is_orderable policy.now orders.now }
{
    policy.orderable(orders)
}
