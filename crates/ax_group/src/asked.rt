//! What a pick asks of the rows of a group, in the order of a walk over it.
ghost use Rattle.std.specs.Prelude.{◌≡◌, ◌++◌, map, IfOk, OnOk};
ghost use Rattle.ax_mean.specs.Parts.{parts_of};
ghost use Rattle.ax_group.specs.Walks.{all_asked, asked_in, asked_pair, asked_within, asks_of, items_asked, asked_by as asked_of};

use crate::out_of_memory::Memory;
use crate::part::is_part;
use ax_mean::{Aggregate, Expr, NamedList, Pick};
use std::alloc::Global;

/// What is asked for.
#[derive(Debug, Drop)]
pub enum Asked<'a> {
    /// An aggregate of its argument.
    Total(Aggregate, &'a Expr),
    /// The value of a part of the pick in the first row.
    Part(&'a Expr),
    /// The value of the first alias in the first row.
    FirstAlias,
}

/// What a pick asks for, in the order of a walk over it.
pub fn asked_by<'a>(alloc: Global, pick: &'a Pick) -> Result<Vec<Asked<'a>>, Memory>
    ensures { IfOk result (λ asked. asks_of asked.items ≡ asked_of pick.now) }
{
    let mut asked = Vec::new(alloc);
    match pick {
        Pick::Star => asked.push(Asked::FirstAlias)?,
        Pick::Value(expr) => collect(&mut asked, expr)?,
        Pick::Named(items) => collect_items(&mut asked, items)?,
    }
    Ok(asked)
}

fn collect_items<'a>(asked: &mut Vec<Asked<'a>>, items: &'a NamedList) -> Result<(), Memory>
    ensures { OnOk result (asks_of asked.new.items ≡ asks_of asked.old.items ++ items_asked items.now) }
{
    for item in items.as_slice() {
        collect(asked, &item.expr)?;
    }
    Ok(())
}

/// Appends what an expression asks for.
#[tactic(auto, using(crate::proofs::Asking::part_collected, crate::proofs::Asking::within_collected))]
#[cycle(collect)]
fn collect<'a>(asked: &mut Vec<Asked<'a>>, expr: &'a Expr) -> Result<(), Memory>
    ensures { OnOk result (asks_of asked.new.items ≡ asks_of asked.old.items ++ asked_in expr.now) }
{
    if is_part(expr) {
        asked.push(Asked::Part(expr))?;
        Ok(())
    } else {
        collect_within(asked, expr)
    }
}

/// Appends what an expression asks for that is not asked for as a whole. An aggregate inside another's
/// argument is undefined there, and not asked for.
#[cycle(collect)]
fn collect_within<'a>(asked: &mut Vec<Asked<'a>>, expr: &'a Expr) -> Result<(), Memory>
    ensures { OnOk result
        (asks_of asked.new.items ≡ asks_of asked.old.items ++ asked_within expr.now) }
{
    match expr {
        Expr::Total(which, argument) => collect_total(asked, *which, argument.get()),
        _ => collect_parts(asked, expr),
    }
}

/// Appends an aggregate.
fn collect_total<'a>(
    asked: &mut Vec<Asked<'a>>,
    which: Aggregate,
    argument: &'a Expr,
) -> Result<(), Memory>
    ensures { OnOk result (asks_of asked.new.items
        ≡ asks_of asked.old.items ++ asked_within (Expr.Total which argument.now)) }
{
    asked.push(Asked::Total(which, argument))?;
    Ok(())
}

/// Appends what the parts of an expression ask for.
#[cycle(collect)]
fn collect_parts<'a>(asked: &mut Vec<Asked<'a>>, expr: &'a Expr) -> Result<(), Memory>
    ensures { OnOk result (asks_of asked.new.items
        ≡ asks_of asked.old.items ++ all_asked (map asked_pair (parts_of expr.now))) }
{
    for part in expr.parts() {
        collect(asked, part)?;
    }
    Ok(())
}
