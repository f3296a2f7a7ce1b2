//! What holds of the expressions that are picked.
ghost use Rattle.std.specs.Prelude.{◌≡◌, map, true};
ghost use Rattle.std.specs.List.{list_all, list_any};
ghost use Rattle.ax_grammar.specs.Parts.{are_declared as declared_in, aggregates_fit as fit_in, is_built as built_in};
ghost use Rattle.ax_mean.specs.Aggregates.{has_aggregate as aggregate_in};
ghost use Rattle.ax_grammar.specs.Scope.{exprs_picked};
ghost use Rattle.ax_scope.specs.AsWritten.{item_of, picked_of};

use crate::aggregates::aggregates_fit;
use crate::built::is_built;
use crate::declared::are_declared;
use crate::written::{ItemList, NameList, Picked};
use ax_mean::ExprList;

pub(crate) fn picked_declared(picked: &Picked, aliases: &NameList) -> bool
    ensures { result ≡ list_all (declared_in aliases.now) (exprs_picked (picked_of picked.now)) }
{
    match picked {
        Picked::Star => true,
        Picked::Value(expr) => are_declared(expr, aliases),
        Picked::Items(items) => items_declared(items, aliases),
    }
}

fn items_declared(items: &ItemList, aliases: &NameList) -> bool
    ensures { result ≡ list_all (declared_in aliases.now)
        (map (λ item. item.expr) (map item_of items.now)) }
{
    for item in items.as_slice() {
        if !are_declared(&item.expr, aliases) {
            return false;
        }
    }
    true
}

pub(crate) fn aggregates_fit_in_picked(picked: &Picked) -> bool
    ensures { result ≡ list_all (λ x. fit_in x true) (exprs_picked (picked_of picked.now)) }
{
    match picked {
        Picked::Star => true,
        Picked::Value(expr) => aggregates_fit(expr, true),
        Picked::Items(items) => aggregates_fit_in_items(items),
    }
}

fn aggregates_fit_in_items(items: &ItemList) -> bool
    ensures { result ≡ list_all (λ x. fit_in x true)
        (map (λ item. item.expr) (map item_of items.now)) }
{
    for item in items.as_slice() {
        if !aggregates_fit(&item.expr, true) {
            return false;
        }
    }
    true
}

pub(crate) fn one_picked_has_aggregate(picked: &Picked) -> bool
    ensures { result ≡ list_any aggregate_in (exprs_picked (picked_of picked.now)) }
{
    match picked {
        Picked::Star => false,
        Picked::Value(expr) => expr.has_aggregate(),
        Picked::Items(items) => one_item_has_aggregate(items),
    }
}

fn one_item_has_aggregate(items: &ItemList) -> bool
    ensures { result ≡ list_any aggregate_in (map (λ item. item.expr) (map item_of items.now)) }
{
    for item in items.as_slice() {
        if item.expr.has_aggregate() {
            return true;
        }
    }
    false
}

pub(crate) fn picked_built(picked: &Picked, groups: &ExprList) -> bool
    ensures { result ≡ list_all (built_in groups.now) (exprs_picked (picked_of picked.now)) }
{
    match picked {
        Picked::Star => true,
        Picked::Value(expr) => is_built(expr, groups),
        Picked::Items(items) => items_built(items, groups),
    }
}

fn items_built(items: &ItemList, groups: &ExprList) -> bool
    ensures { result ≡ list_all (built_in groups.now)
        (map (λ item. item.expr) (map item_of items.now)) }
{
    for item in items.as_slice() {
        if !is_built(&item.expr, groups) {
            return false;
        }
    }
    true
}
