//! What a query shows for a row, and whether the row passes WHERE.
ghost use Rattle.std.specs.Prelude.{◌≡◌, map, IfOk};
ghost use Rattle.ax_mean.specs.Building.{members_of};
ghost use Rattle.ax_mean.specs.Meaning.{meaning};
ghost use Rattle.ax_mean.specs.Rows.{first_bound, passes, shown, named_member};
ghost use Rattle.ax_mean.specs.Values.{is_defined};
ghost use Rattle.ax_mean.specs.declared.value.Value.TheVariants.{Defined};

use crate::out_of_memory::Memory;
use ax_eval::{Scope, eval_in, is_true_in, with_value};
use ax_mean::{Expr, Members, Named, NamedList, Pick, Tree, Value};
use std::alloc::Global;

/// Whether the row passes WHERE.
pub fn passes_in(alloc: Global, condition: &Option<Expr>, scope: &Scope) -> Result<bool, Memory>
    ensures { IfOk result (λ truth. truth ≡ passes condition.now scope.now) }
{
    match condition {
        None => Ok(true),
        Some(condition) => Ok(is_true_in(alloc, condition, scope)?),
    }
}

/// What is shown of the row, which may be undefined.
pub fn shown_in(alloc: Global, pick: &Pick, scope: &Scope) -> Result<Value, Memory>
    ensures { IfOk result (λ value. value ≡ shown pick.now scope.now) }
{
    match pick {
        Pick::Star => first_in(alloc, scope),
        Pick::Value(expr) => value_in(alloc, expr, scope),
        Pick::Named(items) => Ok(Value::Defined(Tree::Object(named_in(alloc, items, scope)?))),
    }
}

/// Whether what is shown of the row is defined. Nothing is copied.
pub fn shows_in(alloc: Global, pick: &Pick, scope: &Scope) -> Result<bool, Memory>
    ensures { IfOk result (λ found. found ≡ is_defined (shown pick.now scope.now)) }
{
    match pick {
        Pick::Star => Ok(scope.first().is_some()),
        Pick::Value(expr) => Ok(eval_in(alloc, expr, scope)?.is_defined()),
        Pick::Named(_) => Ok(true),
    }
}

fn first_in(alloc: Global, scope: &Scope) -> Result<Value, Memory>
    ensures { IfOk result (λ value. value ≡ first_bound scope.now) }
{
    match scope.first() {
        Some(tree) => Ok(Value::Defined(tree.copy(alloc)?)),
        None => Ok(Value::Undefined),
    }
}

fn value_in(alloc: Global, expr: &Expr, scope: &Scope) -> Result<Value, Memory>
    ensures { IfOk result (λ value. value ≡ meaning scope.now expr.now) }
{
    let seen = eval_in(alloc, expr, scope)?;
    Ok(seen.into_value(alloc)?)
}

/// The items that are defined, by their names.
fn named_in(alloc: Global, items: &NamedList, scope: &Scope) -> Result<Members<Tree>, Memory>
    ensures { IfOk result (λ members. members ≡ members_of (map (named_member scope.now) items.now)) }
{
    let mut members = Members::new(alloc);
    for item in items.as_slice() {
        let value = value_in(alloc, &item.expr, scope)?;
        members = with_value(alloc, members, &item.name, value)?;
    }
    Ok(members)
}
