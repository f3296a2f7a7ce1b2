//! The values that a row adds to its group. What they name in the row's documents is not copied.
ghost use Rattle.std.specs.Prelude.{◌≡◌, map, IfOk};
ghost use Rattle.ax_mean.specs.Meaning.{meaning};
ghost use Rattle.ax_mean.specs.Rows.{first_bound};
ghost use Rattle.ax_mean.specs.Values.{of_tree};
ghost use Rattle.std.specs.Option.{option_copied};
ghost use Rattle.ax_result.specs.Groups.{group_values as values_of_group};
ghost use Rattle.ax_group.specs.Keys.{seen_keys, value_key};
ghost use Rattle.ax_group.specs.States.{argument_in as argument_of, arguments_in as arguments_of};
ghost use Rattle.ax_group.specs.Walks.{ask_of, asks_of};

use crate::asked::Asked;
use crate::key::GroupKey;
use crate::out_of_memory::Memory;
use ax_eval::{Scope, eval_in};
use ax_func::Seen;
use ax_mean::{Expr, ExprList, Items, Value, ValueList};
use std::alloc::Global;

/// What a row adds: the values that tell its group, with their key, and one value for each thing
/// asked for. A value that stands in a document is not copied.
#[derive(Drop)]
pub struct Row<'a> {
    pub key: GroupKey,
    pub values: Vec<Seen<'a>>,
    pub arguments: Vec<Seen<'a>>,
}

impl<'a> Row<'a> {
    pub fn new(
        alloc: Global,
        groups: &'a ExprList,
        asked: &[Asked<'a>],
        scope: &Scope<'a>,
    ) -> Result<Row<'a>, Memory>
        ensures key { IfOk result (λ row.
            seen_keys row.key ≡ map value_key (values_of_group groups.now scope.now)) }
        ensures values { IfOk result (λ row.
            row.values.items ≡ values_of_group groups.now scope.now) }
        ensures arguments { IfOk result (λ row.
            row.arguments.items ≡ arguments_of (asks_of asked.now) scope.now) }
    {
        let values = group_values(alloc, groups, scope)?;
        let Ok(key) = GroupKey::of(alloc, values.as_slice()) else {
            drop(values);
            return Err(Memory);
        };
        let Ok(arguments) = arguments_in(alloc, asked, scope) else {
            drop(values);
            drop(key);
            return Err(Memory);
        };
        Ok(Row {
            key,
            values,
            arguments,
        })
    }
}

/// The values of the expressions behind GROUP BY.
fn group_values<'a>(
    alloc: Global,
    groups: &'a ExprList,
    scope: &Scope<'a>,
) -> Result<Vec<Seen<'a>>, Memory>
    ensures { IfOk result (λ values. values.items ≡ values_of_group groups.now scope.now) }
{
    let groups = groups.as_slice();
    let mut values = Vec::with_capacity(alloc, groups.len())?;
    for expr in groups {
        values.push(eval_in(alloc, expr, scope)?)?;
    }
    Ok(values)
}

/// The values as ones of their own.
pub fn owned(alloc: Global, values: Vec<Seen>) -> Result<ValueList, Memory>
    ensures { IfOk result (λ made. made ≡ values.entry.items) }
{
    let mut made = Vec::with_capacity(alloc, values.len())?;
    for value in values {
        made.push(value.into_value(alloc)?)?;
    }
    Ok(Items::from_vec(made))
}

/// The row's values for what is asked for.
fn arguments_in<'a>(
    alloc: Global,
    asked: &[Asked<'a>],
    scope: &Scope<'a>,
) -> Result<Vec<Seen<'a>>, Memory>
    ensures { IfOk result (λ values. values.items ≡ arguments_of (asks_of asked.now) scope.now) }
{
    let mut values = Vec::with_capacity(alloc, asked.len())?;
    for one in asked {
        values.push(argument_in(alloc, one, scope)?)?;
    }
    Ok(values)
}

/// The row's value for what is asked for; nothing more where it is of the first row.
fn argument_in<'a>(alloc: Global, asked: &Asked<'a>, scope: &Scope<'a>) -> Result<Seen<'a>, Memory>
    ensures { IfOk result (λ value. value ≡ argument_of scope.now (ask_of asked.now)) }
{
    match asked {
        Asked::Total(_, argument) => Ok(eval_in(alloc, argument, scope)?),
        Asked::Part(_) => Ok(Seen::undefined()),
        Asked::FirstAlias => Ok(Seen::undefined()),
    }
}

/// The value of an expression, of its own.
pub fn value_in<'a>(alloc: Global, expr: &'a Expr, scope: &Scope<'a>) -> Result<Value, Memory>
    ensures { IfOk result (λ value. value ≡ meaning scope.now expr.now) }
{
    let value = eval_in(alloc, expr, scope)?;
    Ok(value.into_value(alloc)?)
}

/// The value of the first alias, of its own.
pub fn first_in(alloc: Global, scope: &Scope) -> Result<Value, Memory>
    ensures { IfOk result (λ value. value ≡ first_bound scope.now) }
{
    match scope.first() {
        Some(tree) => Ok(Value::Defined(tree.copy(alloc)?)),
        None => Ok(Value::Undefined),
    }
}
