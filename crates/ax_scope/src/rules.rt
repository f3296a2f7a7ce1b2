//! The rules of scope.
ghost use Rattle.std.specs.Prelude.{◌≡◌, ◌∷◌, [], IfOk, map, false};
ghost use Rattle.std.specs.List.{list_all};
ghost use Rattle.std.specs.Str.{bytes_eq};
ghost use Rattle.ax_grammar.specs.Parts.{aggregates_fit as fit_in};
ghost use Rattle.ax_grammar.specs.Scope.{obeys_rules as rules_obeyed, limits_fit as limits_of, window_fits as window_of, sources_fit as sources_of, aliases_of as aliases_in, aliases_fit as aliases_stand, pick_fits as pick_of, is_grouped as grouped, aggregates_stand as aggregates_of, groups_fit as groups_of, orders_fit as orders_of, first_alias as alias_first, exprs_optional};
ghost use Rattle.ax_scope.specs.AsWritten.{ordered_of, source_of, written_of};

use crate::aggregates::aggregates_fit;
use crate::aliases::{
    aliases_of, are_distinct, bases_declared, condition_declared, first_alias, groups_declared,
};
use crate::distinct::are_all_distinct;
use crate::names::{alias_of, item_names};
use crate::picks::{
    aggregates_fit_in_picked, one_picked_has_aggregate, picked_built, picked_declared,
};
use crate::written::{NameList, OrderedList, Picked, Written};
use ax_mean::{Expr, ExprList, Memory, Text};
use std::alloc::Global;

const MOST_JOINS: usize = 8;

const MOST_GROUPS: usize = 8;

const MOST_ORDERS: usize = 8;

const MOST_ITEMS: usize = 256;

/// Whether the rules of scope allow what is written.
pub fn obeys_rules(alloc: Global, written: &Written) -> Result<bool, Memory>
    ensures { IfOk result (λ obeys. obeys ≡ rules_obeyed (written_of written.now)) }
{
    if !limits_fit(written) {
        return Ok(false);
    }
    let aliases = aliases_of(alloc, written)?;
    let sources = sources_fit(alloc, written, &aliases)?;
    let pick = pick_fits(alloc, written)?;
    Ok(
        window_fits(written)
            && sources
            && aliases_fit(written, &aliases)
            && pick
            && aggregates_stand(written)
            && groups_fit(written)
            && orders_fit(written),
    )
}

fn limits_fit(written: &Written) -> bool
    ensures { result ≡ limits_of (written_of written.now) }
{
    written.joins.as_slice().len() <= MOST_JOINS
        && written.groups.as_slice().len() <= MOST_GROUPS
        && written.orders.as_slice().len() <= MOST_ORDERS
}

/// TOP does not stand with OFFSET.
fn window_fits(written: &Written) -> bool
    ensures { result ≡ window_of (written_of written.now) }
{
    written.top.is_none() || written.window.is_none()
}

/// The first source has an alias, the aliases are distinct, and joins use those before them.
fn sources_fit(alloc: Global, written: &Written, aliases: &NameList) -> Result<bool, Memory>
    requires { aliases.now ≡ aliases_in (written_of written.now) }
    ensures { IfOk result (λ fit. fit ≡ sources_of (written_of written.now)) }
{
    let first = first_alias(&written.source);
    let based = bases_declared(alloc, first, &written.joins)?;
    Ok(alias_of(&written.source).is_some() && are_distinct(aliases.as_slice()) && based)
}

/// Each alias in the expressions is declared.
fn aliases_fit(written: &Written, aliases: &NameList) -> bool
    requires { aliases.now ≡ aliases_in (written_of written.now) }
    ensures { result ≡ aliases_stand (written_of written.now) }
{
    picked_declared(&written.picked, aliases)
        && condition_declared(&written.condition, aliases)
        && groups_declared(&written.groups, aliases)
}

/// At most so many items, of distinct names; `*` neither with joins nor with GROUP BY.
fn pick_fits(alloc: Global, written: &Written) -> Result<bool, Memory>
    ensures { IfOk result (λ fits. fits
        ≡ pick_of (written_of written.now) (written_of written.now).picked) }
{
    match &written.picked {
        Picked::Star => {
            Ok(written.joins.as_slice().is_empty() && written.groups.as_slice().is_empty())
        }
        Picked::Value(_) => Ok(true),
        Picked::Items(items) => {
            if items.as_slice().len() > MOST_ITEMS {
                return Ok(false);
            }
            Ok(are_all_distinct(item_names(alloc, items)?))
        }
    }
}

/// Whether the query has GROUP BY or an aggregate.
fn is_grouped(written: &Written) -> bool
    ensures { result ≡ grouped (written_of written.now) }
{
    !written.groups.as_slice().is_empty() || one_picked_has_aggregate(&written.picked)
}

/// Aggregates stand only in picked expressions, and none inside another's argument.
fn aggregates_stand(written: &Written) -> bool
    ensures { result ≡ aggregates_of (written_of written.now) }
{
    aggregates_fit_in_picked(&written.picked)
        && no_aggregate_in_condition(&written.condition)
        && no_aggregate_in_groups(&written.groups)
}

fn no_aggregate_in_condition(condition: &Option<Expr>) -> bool
    ensures { result ≡ list_all (λ x. fit_in x false) (exprs_optional condition.now) }
{
    match condition {
        None => true,
        Some(expr) => aggregates_fit(expr, false),
    }
}

fn no_aggregate_in_groups(groups: &ExprList) -> bool
    ensures { result ≡ list_all (λ x. fit_in x false) groups.now }
{
    for group in groups.as_slice() {
        if !aggregates_fit(group, false) {
            return false;
        }
    }
    true
}

/// Where the query has GROUP BY or an aggregate, each picked expression is built of aggregates,
/// literals and what it groups by.
fn groups_fit(written: &Written) -> bool
    ensures { result ≡ groups_of (written_of written.now) }
{
    !is_grouped(written) || picked_built(&written.picked, &written.groups)
}

/// ORDER BY stands where FROM binds its alias to the document, each item begins with this alias,
/// and there is neither GROUP BY nor an aggregate.
fn orders_fit(written: &Written) -> bool
    ensures { result ≡ orders_of (written_of written.now) }
{
    let source = &written.source;
    written.orders.as_slice().is_empty()
        || (!source.each
            && source.steps.as_slice().is_empty()
            && !is_grouped(written)
            && begin_with(&written.orders, first_alias(source)))
}

fn begin_with(orders: &OrderedList, alias: &Text) -> bool
    ensures { result ≡ list_all (λ ordered. bytes_eq ordered.alias alias.now)
        (map ordered_of orders.now) }
{
    for ordered in orders.as_slice() {
        if ordered.alias.as_str() != alias.as_str() {
            return false;
        }
    }
    true
}
