ghost use Rattle.std.specs.Prelude.{◌≡◌};
ghost use Rattle.std.specs.List.{list_any};
ghost use Rattle.ax_mean.specs.Aggregates.{has_aggregate as aggregate_in, picks_aggregate as aggregate_picked, has_groups as groups_of};

use ax_mean::{NamedList, Pick, Query};

/// Whether the query has groups: GROUP BY is written, or an aggregate stands in what is picked.
pub fn has_groups(query: &Query) -> bool
    ensures { result ≡ groups_of query.now }
{
    !query.groups.as_slice().is_empty() || picks_aggregate(&query.pick)
}

fn picks_aggregate(pick: &Pick) -> bool
    ensures { result ≡ aggregate_picked pick.now }
{
    match pick {
        Pick::Star => false,
        Pick::Value(expr) => expr.has_aggregate(),
        Pick::Named(items) => item_has_aggregate(items),
    }
}

fn item_has_aggregate(items: &NamedList) -> bool
    ensures { result ≡ list_any (λ item. aggregate_in item.expr) items.now }
{
    for item in items.as_slice() {
        if item.expr.has_aggregate() {
            return true;
        }
    }
    false
}
