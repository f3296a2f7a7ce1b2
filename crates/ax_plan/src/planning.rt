//! The plan of a query.
ghost use Rattle.std.specs.Prelude.{◌≡◌, ◌↔◌, ◌∷◌, ◌++◌, List, IsTrue, IfOk, OnOk, option_map};
ghost use Rattle.std.specs.Option.{option_to_list};
ghost use Rattle.ax_atoms.specs.declared.conjunct.Conjunct as conjunct_spec;
ghost use Rattle.ax_atoms.specs.Conjuncts.{atoms};
ghost use Rattle.ax_plan.specs.Ordered.{IsOrdered};
ghost use Rattle.ax_plan.specs.ByPaths.{AreOfConjuncts, sought_in as sought_for};
ghost use Rattle.ax_plan.specs.Usable.{AreUnions};
ghost use Rattle.ax_plan.specs.declared.sought.Sought as sought_spec;

use crate::combining::combined;
use crate::covering::are_covered;
use crate::fault::PlanFault;
use crate::parts::{Plan, Source, UnionList};
use crate::sought::Sought;
use ax_atoms::{Conjunct, conjuncts};
use ax_mean::{Memory, Query};
use ax_policy::PolicyTable;
use std::alloc::Global;

/// The plan of a query over documents under the policies of that table: one union for each of its conditions that an
/// index answers and of which the policy now, and each under which documents are, covers all leaves on which it rests,
/// in the order of the text. Conditions on one property, to which names alone lead, are combined: each with those before it,
/// one by one, where of the two one has one range at most. What is combined has one union, of the terms that are in the
/// ranges of all, at the place of the last. So a property has one where at most one of its conditions has several ranges
/// (IN); where more have, it may have several, and then each of them has several ranges.
/// `PlanFault::NoOrder` exactly where the policy now keeps no order for its ORDER BY, whatever memory there is.
///
/// Under the default policy `c.n > 1 AND c.m != 2 AND c.k IN (1, 2) AND c.n < 5` gives two unions, of two ranges and of
/// one; where documents are left under a policy that excludes `/n/?`, only the one of `c.k`. `c.k IN (1, 2) AND c.k IN (2, 3)`
/// gives two, and with `c.k = 2`, wherever it stands, one, of one range. `c.k IN (1, 2, 9) AND c.k IN (2, 3) AND c.k < 5` gives
/// two: that of 2 and 3, and that of 1 and 2. `c.t[0] > 1 AND c.t[1] < 5` gives two, of one range each.
pub fn plan(alloc: Global, query: &Query, table: &PolicyTable) -> Result<Plan, PlanFault>
    ensures unions { IfOk result (λ plan. AreUnions table.now (atoms query.now) plan.unions) }
    ensures ordered { OnOk result (IsOrdered table.now query.now) }
    ensures no_order { result ≡ Err PlanFault.NoOrder ↔ (IsOrdered table.now query.now → ⊥) }
{
    if !is_ordered(query, table) {
        return Err(PlanFault::NoOrder);
    }
    match unions_of(alloc, query, table) {
        Ok(unions) => Ok(Plan {
            unions,
            source: Source::All,
        }),
        Err(Memory) => Err(PlanFault::Memory),
    }
}

/// Whether the policy now keeps an order for the query's ORDER BY.
fn is_ordered(query: &Query, table: &PolicyTable) -> bool
    ensures { IsTrue result ↔ IsOrdered table.now query.now }
{
    match table.policy(table.now()) {
        Some(policy) => policy.orderable(&query.orders),
        None => true,
    }
}

/// The unions of the usable conditions, with those on one property combined.
fn unions_of(alloc: Global, query: &Query, table: &PolicyTable) -> Result<UnionList, Memory>
    ensures { IfOk result (λ unions. AreUnions table.now (atoms query.now) unions) }
{
    combined(alloc, usable(alloc, conjuncts(alloc, query)?, table)?)
}

/// What is sought for each usable condition.
fn usable(alloc: Global, found: Vec<Conjunct>, table: &PolicyTable) -> Result<Vec<Sought>, Memory>
    ensures { IfOk result (λ sought. AreOfConjuncts table.now found.items sought.items) }
{
    let mut sought = Vec::new(alloc);
    for conjunct in found {
        if let Some(one) = sought_where_covered(conjunct, table) {
            sought.push(one)?;
        }
    }
    Ok(sought)
}

/// What is sought for a condition, where it is usable.
fn sought_where_covered(conjunct: Conjunct, table: &PolicyTable) -> Option<Sought>
    ensures { (conjuncts : List conjunct_spec.Conjunct) → (sought : List sought_spec.Sought)
        → AreOfConjuncts table.now conjuncts sought
        → AreOfConjuncts table.now (conjunct ∷ conjuncts) (option_to_list result ++ sought) }
{
    if are_covered(table, conjunct.whole, conjunct.paths.as_slice()) {
        sought_in(conjunct)
    } else {
        None
    }
}

fn sought_in(conjunct: Conjunct) -> Option<Sought>
    ensures { result ≡ option_map (sought_for conjunct) conjunct.ranges }
{
    let Conjunct {
        paths,
        whole,
        ranges,
    } = conjunct;
    match ranges {
        Some(ranges) => Some(Sought {
            paths,
            whole,
            ranges,
        }),
        None => {
            drop(paths);
            None
        }
    }
}
