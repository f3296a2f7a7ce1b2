//! The paths of a document that a query looks at.
ghost use Rattle.std.specs.Prelude.{◌≡◌, ◌&&◌, [], IfOk, OnOk};
ghost use Rattle.std.specs.List.{list_all};
ghost use Rattle.ax_excerpt.specs.declared.excerpt.Excerpt.{Excerpt};
ghost use Rattle.ax_excerpt.specs.Excerpts.{keeps};
ghost use Rattle.ax_excerpt.specs.Enough.{within, condition_within, pick_within, rest_within, sources_within, sources_enough};
ghost use Rattle.ax_excerpt.specs.Needs.{keeps_all};
ghost use Rattle.ax_excerpt.specs.ShownDocuments.{with_pick};
ghost use Rattle.ax_excerpt.specs.Uses.{is_within, uses_in, parts_alone};

use crate::source::is_document;
use ax_mean::{Expr, ExprList, FromItem, Memory, NamedList, Pick, Query, QueryStep, Text};
use std::alloc::Global;

/// The steps that lead from a document to a value of which all is looked at.
pub(crate) type StepPath<'a> = &'a [QueryStep];

/// The paths of a document along which the query looks where it shows the pick, beside ORDER BY.
pub(crate) fn paths_of<'a>(
    alloc: Global,
    query: &'a Query,
    pick: &'a Pick,
) -> Result<Vec<StepPath<'a>>, Memory>
    ensures { IfOk result (λ paths. (e : Excerpt) → keeps_all e paths.items
        ≡ sources_enough e query.now.froms (with_pick pick.now query.now)) }
{
    let mut paths = Vec::new(alloc);
    let Some((first, rest)) = query.froms.as_slice().split_first() else {
        return Ok(paths);
    };
    if is_document(first) {
        at_rows(&mut paths, &first.alias, rest, query, pick)?;
    } else {
        paths.push(first.steps.as_slice())?;
    }
    Ok(paths)
}

/// Adds what the further sources, WHERE, GROUP BY and the pick look at, where the alias stands for the
/// document.
fn at_rows<'a>(
    paths: &mut Vec<StepPath<'a>>,
    alias: &Text,
    sources: &'a [FromItem],
    query: &'a Query,
    pick: &'a Pick,
) -> Result<(), Memory>
    ensures { OnOk result ((e : Excerpt) → keeps_all e paths.new.items
        ≡ (keeps_all e paths.old.items
        && rest_within (keeps e []) (within alias.now e) sources.now (with_pick pick.now query.now))) }
{
    at_sources(paths, alias, sources)?;
    at_condition(paths, alias, &query.condition)?;
    at_all(paths, alias, &query.groups)?;
    at_pick(paths, alias, pick)
}

fn at_sources<'a>(
    paths: &mut Vec<StepPath<'a>>,
    alias: &Text,
    sources: &'a [FromItem],
) -> Result<(), Memory>
    ensures { OnOk result ((e : Excerpt) → keeps_all e paths.new.items
        ≡ (keeps_all e paths.old.items && sources_within (within alias.now e) sources.now)) }
{
    for source in sources {
        at_alias(paths, alias, &source.base, source.steps.as_slice())?;
    }
    Ok(())
}

fn at_condition<'a>(
    paths: &mut Vec<StepPath<'a>>,
    alias: &Text,
    condition: &'a Option<Expr>,
) -> Result<(), Memory>
    ensures { OnOk result ((e : Excerpt) → keeps_all e paths.new.items
        ≡ (keeps_all e paths.old.items && condition_within (within alias.now e) condition.now)) }
{
    match condition {
        Some(condition) => at(paths, alias, condition, &[]),
        None => Ok(()),
    }
}

fn at_pick<'a>(paths: &mut Vec<StepPath<'a>>, alias: &Text, pick: &'a Pick) -> Result<(), Memory>
    ensures { OnOk result ((e : Excerpt) → keeps_all e paths.new.items
        ≡ (keeps_all e paths.old.items && pick_within (keeps e []) (within alias.now e) pick.now)) }
{
    match pick {
        Pick::Star => add(paths, &[]),
        Pick::Value(expr) => at(paths, alias, expr, &[]),
        Pick::Named(items) => at_items(paths, alias, items),
    }
}

fn at_items<'a>(
    paths: &mut Vec<StepPath<'a>>,
    alias: &Text,
    items: &'a NamedList,
) -> Result<(), Memory>
    ensures { OnOk result ((e : Excerpt) → keeps_all e paths.new.items
        ≡ (keeps_all e paths.old.items
        && list_all (λ item. is_within (within alias.now e) item.expr) items.now)) }
{
    for item in items.as_slice() {
        at(paths, alias, &item.expr, &[])?;
    }
    Ok(())
}

fn at_all<'a>(
    paths: &mut Vec<StepPath<'a>>,
    alias: &Text,
    items: &'a ExprList,
) -> Result<(), Memory>
    ensures { OnOk result ((e : Excerpt) → keeps_all e paths.new.items
        ≡ (keeps_all e paths.old.items && list_all (is_within (within alias.now e)) items.now)) }
{
    for item in items.as_slice() {
        at(paths, alias, item, &[])?;
    }
    Ok(())
}

/// Adds what an expression looks at, with steps behind it.
#[cycle(looks)]
fn at<'a>(
    paths: &mut Vec<StepPath<'a>>,
    alias: &Text,
    expr: &'a Expr,
    steps: &'a [QueryStep],
) -> Result<(), Memory>
    ensures { OnOk result ((e : Excerpt) → keeps_all e paths.new.items
        ≡ (keeps_all e paths.old.items && uses_in (within alias.now e) expr.now steps.now)) }
{
    match expr {
        Expr::Alias(name) => at_alias(paths, alias, name, steps),
        Expr::Steps(base, more) => at(paths, alias, base.get(), more.as_slice()),
        _ => at_parts(paths, alias, expr),
    }
}

#[cycle(looks)]
fn at_parts<'a>(paths: &mut Vec<StepPath<'a>>, alias: &Text, expr: &'a Expr) -> Result<(), Memory>
    ensures { OnOk result ((e : Excerpt) → keeps_all e paths.new.items
        ≡ (keeps_all e paths.old.items && parts_alone (within alias.now e) expr.now)) }
{
    for part in expr.parts() {
        at(paths, alias, part, &[])?;
    }
    Ok(())
}

/// Adds the steps behind an alias, if it is that of the document.
fn at_alias<'a>(
    paths: &mut Vec<StepPath<'a>>,
    alias: &Text,
    name: &Text,
    steps: &'a [QueryStep],
) -> Result<(), Memory>
    ensures { OnOk result ((e : Excerpt) → keeps_all e paths.new.items
        ≡ (keeps_all e paths.old.items && within alias.now e name.now steps.now)) }
{
    if alias.as_str() == name.as_str() {
        add(paths, steps)
    } else {
        Ok(())
    }
}

#[tactic(auto, using(crate::proofs::LookedAt::one_more))]
fn add<'a>(paths: &mut Vec<StepPath<'a>>, steps: &'a [QueryStep]) -> Result<(), Memory>
    ensures { OnOk result ((e : Excerpt) → keeps_all e paths.new.items
        ≡ (keeps_all e paths.old.items && keeps e steps.now)) }
{
    paths.push(steps)?;
    Ok(())
}
