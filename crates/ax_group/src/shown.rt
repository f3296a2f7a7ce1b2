//! The row that a group shows.
ghost use Rattle.std.specs.Prelude.{◌≡◌, [], map, IfOk, OnOk};
ghost use Rattle.ax_mean.specs.Building.{members_of};
ghost use Rattle.ax_mean.specs.Meaning.{meaning};
ghost use Rattle.ax_mean.specs.Rows.{named_member};
ghost use Rattle.ax_group.specs.States.{state_row};
ghost use Rattle.ax_group.specs.Tallies.{value_of};
ghost use Rattle.ax_group.specs.Walks.{fill, items_filled, shown_by};

use crate::arguments::value_in;
use crate::filled::filled;
use crate::out_of_memory::Memory;
use crate::results::Results;
use crate::state::State;
use crate::tally::Tally;
use ax_eval::{Scope, with_value};
use ax_mean::{Expr, Items, KeyedRow, Members, NamedList, Pick, Tree, Value};
use std::alloc::Global;

/// The row of a group, where what it shows is defined.
pub fn row_of(alloc: Global, pick: &Pick, state: State) -> Result<Option<KeyedRow>, Memory>
    ensures { IfOk result (λ row. row ≡ state_row pick.now state) }
{
    let State { values, tallies } = state;
    match shown_of(alloc, pick, tallies) {
        Ok(Value::Defined(shown)) => Ok(Some(KeyedRow {
            values,
            number: 0,
            place: Items::new(alloc),
            shown,
        })),
        Ok(Value::Undefined) => {
            drop(values);
            Ok(None)
        }
        Err(fault) => {
            drop(values);
            Err(fault)
        }
    }
}

/// What is shown, with the tallies' values in place of what is asked for.
fn shown_of(alloc: Global, pick: &Pick, tallies: Vec<Tally>) -> Result<Value, Memory>
    ensures { IfOk result (λ value. value ≡ shown_by pick.now (map value_of tallies.items)) }
{
    let results = results_of(alloc, tallies)?;
    shown_in(alloc, pick, results)
}

fn results_of(alloc: Global, tallies: Vec<Tally>) -> Result<Results, Memory>
    ensures { IfOk result (λ results. results ≡ map value_of tallies.items) }
{
    let mut values = Vec::with_capacity(alloc, tallies.len())?;
    for tally in tallies {
        values.push(tally.into_value())?;
    }
    Ok(Results::new(values))
}

fn shown_in(alloc: Global, pick: &Pick, results: Results) -> Result<Value, Memory>
    ensures { IfOk result (λ value. value ≡ shown_by pick.now results) }
{
    let mut results = results;
    match pick {
        Pick::Star => Ok(results.take()),
        Pick::Value(expr) => filled_value(alloc, expr, &mut results),
        Pick::Named(items) => {
            let members = named_in(alloc, items, &mut results)?;
            Ok(Value::Defined(Tree::Object(members)))
        }
    }
}

/// The value of an expression with the next results in place of what it asks for.
fn filled_value(alloc: Global, expr: &Expr, results: &mut Results) -> Result<Value, Memory>
    ensures value { IfOk result (λ value. value ≡ meaning [] (fill expr.now results.old).0) }
    ensures left { OnOk result (results.new ≡ (fill expr.now results.old).1) }
{
    let expr = filled(alloc, expr, results)?;
    let value = value_alone(alloc, &expr);
    drop(expr);
    value
}

/// The value of an expression that names nothing.
fn value_alone(alloc: Global, expr: &Expr) -> Result<Value, Memory>
    ensures { IfOk result (λ value. value ≡ meaning [] expr.now) }
{
    let scope = Scope::new(alloc);
    value_in(alloc, expr, &scope)
}

/// The items that are defined, by their names.
fn named_in(
    alloc: Global,
    items: &NamedList,
    results: &mut Results,
) -> Result<Members<Tree>, Memory>
    ensures { IfOk result (λ members. members
        ≡ members_of (map (named_member []) (items_filled items.now results.old))) }
{
    let mut members = Members::new(alloc);
    for item in items.as_slice() {
        let Ok(value) = filled_value(alloc, &item.expr, results) else {
            drop(members);
            return Err(Memory);
        };
        members = with_value(alloc, members, &item.name, value)?;
    }
    Ok(members)
}
