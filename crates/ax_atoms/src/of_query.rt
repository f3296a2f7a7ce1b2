//! The conjuncts of a query.
ghost use Rattle.std.specs.Prelude.{◌≡◌, ◌∷◌, [], ◌++◌, IfOk, OnOk, map};
ghost use Rattle.std.specs.List.{flat_map};
ghost use Rattle.std.specs.Option.{option_copied};
ghost use Rattle.ax_atoms.specs.Conjuncts.{atom_of, conjunct_of, conjuncts_of, document_alias as alias_in};
ghost use Rattle.ax_atoms.specs.Operands.{operands};

use crate::conjunct::Conjunct;
use crate::recognise::{recognised, unrecognised};
use ax_mean::{Expr, ExprList, Memory, Query, Text};
use std::alloc::Global;

/// The conjuncts of a query: one for each operand of the outermost ANDs of its WHERE, in the order of the
/// text, and none without WHERE. The only error is want of memory.
///
/// An index answers these, where `FROM c` binds `c` to the documents, whatever JOIN follows. Constants are
/// literals, parameters, and a minus before a number.
///
/// - `c.a = 5`: the property is a null, a truth value, a number or a text
/// - `c.a.b >= 5`, `'x' > c.a`: it is on that side of a number, or of a text; its own term is in the range
/// - `c.a BETWEEN 1 AND 5`: two numbers, or two texts
/// - `c.a IN (5, 'x', null)`: as `=`, with each
/// - `IS_DEFINED(c.a)`: it rests on every leaf at the path and below it
/// - `STARTSWITH(c.a, 'x')`: of a long text the first 128 bytes count
/// - `ARRAY_CONTAINS(c.tags, 'x')`: it rests on the elements
///
/// Of any other, as `c.a != 5`, `NOT c.a = 5`, `c.a = c.b` and an OR, the conjunct has no paths and no ranges.
pub fn conjuncts(alloc: Global, query: &Query) -> Result<Vec<Conjunct>, Memory>
    ensures { IfOk result (λ found. found.items ≡ conjuncts_of query.now) }
{
    let mut found = Vec::new(alloc);
    if let Some(condition) = &query.condition {
        append_conjuncts(alloc, document_alias(query), condition, &mut found)?;
    }
    Ok(found)
}

/// The alias of the first source, where it stands for the document.
fn document_alias(query: &Query) -> Option<&Text>
    ensures { option_copied result ≡ alias_in query.now.froms }
{
    let from = query.froms.as_slice().first()?;
    if from.each || !from.steps.as_slice().is_empty() {
        return None;
    }
    Some(&from.alias)
}

/// Appends the conjuncts of the operands of an expression.
#[cycle(operands)]
#[tactic(auto, using(crate::proofs::Falls::and_falls, crate::proofs::Falls::other_falls, crate::proofs::Falls::empty_falls))]
fn append_conjuncts(
    alloc: Global,
    alias: Option<&Text>,
    expr: &Expr,
    out: &mut Vec<Conjunct>,
) -> Result<(), Memory>
    ensures { OnOk result (out.new.items
        ≡ out.old.items ++ map conjunct_of (map (atom_of (option_copied alias.entry)) (operands expr.now))) }
{
    match expr {
        Expr::And(items) => {
            if items.as_slice().is_empty() {
                append_one(alloc, alias, expr, out)
            } else {
                append_all(alloc, alias, items, out)
            }
        }
        _ => append_one(alloc, alias, expr, out),
    }
}

/// Appends those of expressions that AND joins.
#[cycle(operands)]
fn append_all(
    alloc: Global,
    alias: Option<&Text>,
    items: &ExprList,
    out: &mut Vec<Conjunct>,
) -> Result<(), Memory>
    ensures { OnOk result (out.new.items
        ≡ out.old.items ++ map conjunct_of (map (atom_of (option_copied alias.entry)) (flat_map operands items.now))) }
{
    for item in items.as_slice() {
        append_conjuncts(alloc, alias, item, out)?;
    }
    Ok(())
}

/// Appends the one of an expression that is no AND.
fn append_one(
    alloc: Global,
    alias: Option<&Text>,
    expr: &Expr,
    out: &mut Vec<Conjunct>,
) -> Result<(), Memory>
    ensures { OnOk result (out.new.items
        ≡ out.old.items ++ conjunct_of (atom_of (option_copied alias.entry) expr.now) ∷ []) }
{
    out.push(conjunct_for(alloc, alias, expr)?)?;
    Ok(())
}

/// The conjunct of an expression, where the alias stands for the document.
fn conjunct_for(alloc: Global, alias: Option<&Text>, expr: &Expr) -> Result<Conjunct, Memory>
    ensures { IfOk result (λ found. found ≡ conjunct_of (atom_of (option_copied alias.entry) expr.now)) }
{
    match alias {
        Some(alias) => recognised(alloc, alias, expr),
        None => Ok(unrecognised(alloc)),
    }
}
