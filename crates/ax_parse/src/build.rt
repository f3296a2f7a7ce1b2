//! The variants of expressions, each from its parts.

ghost use Rattle.std.specs.Prelude.{◌≡◌, ◌∷◌, IfOk};
ghost use Rattle.ax_mean.specs.declared.expr.Expr.TheVariants as expr;
ghost use Rattle.ax_grammar.specs.ExprReader.{chain_of, literal, operated_of, stepped_of};
ghost use Rattle.ax_parse.specs.Levels.{chain_variant, operated_variant};

use crate::level::{Chain, Operated};
use ax_mean::{
    Aggregate, BinaryOp, Boxed, Expr, ExprList, Items, Memory, OpChain, Shared, StepList, Tree,
    UnaryOp, Value,
};
use std::alloc::Global;

pub(crate) fn literal(alloc: Global, value: Tree) -> Result<Expr, Memory>
    ensures { IfOk result (λ built. built ≡ literal value) }
{
    Ok(Expr::Literal(Shared::new(alloc, Value::Defined(value))?))
}

pub(crate) fn choice(alloc: Global, test: Expr, first: Expr, second: Expr) -> Result<Expr, Memory>
    ensures { IfOk result (λ built. built ≡ expr.Choice test first second) }
{
    let Ok(test) = Boxed::new(alloc, test) else {
        drop(first);
        drop(second);
        return Err(Memory);
    };
    let Ok(first) = Boxed::new(alloc, first) else {
        drop(test);
        drop(second);
        return Err(Memory);
    };
    let Ok(second) = Boxed::new(alloc, second) else {
        drop(test);
        drop(first);
        return Err(Memory);
    };
    Ok(Expr::Choice(test, first, second))
}

pub(crate) fn not(alloc: Global, operand: Expr) -> Result<Expr, Memory>
    ensures { IfOk result (λ built. built ≡ expr.Not operand) }
{
    Ok(Expr::Not(Boxed::new(alloc, operand)?))
}

pub(crate) fn compare(alloc: Global, op: BinaryOp, left: Expr, right: Expr) -> Result<Expr, Memory>
    ensures { IfOk result (λ built. built ≡ expr.Compare op left right) }
{
    let Ok(left) = Boxed::new(alloc, left) else {
        drop(right);
        return Err(Memory);
    };
    let Ok(right) = Boxed::new(alloc, right) else {
        drop(left);
        return Err(Memory);
    };
    Ok(Expr::Compare(op, left, right))
}

pub(crate) fn among(
    alloc: Global,
    negated: bool,
    left: Expr,
    items: ExprList,
) -> Result<Expr, Memory>
    ensures { IfOk result (λ built. built ≡ expr.Among negated left items) }
{
    let Ok(left) = Boxed::new(alloc, left) else {
        drop(items);
        return Err(Memory);
    };
    Ok(Expr::Among {
        negated,
        left,
        items,
    })
}

pub(crate) fn between(
    alloc: Global,
    negated: bool,
    left: Expr,
    low: Expr,
    high: Expr,
) -> Result<Expr, Memory>
    ensures { IfOk result (λ built. built ≡ expr.Between negated left low high) }
{
    let Ok(left) = Boxed::new(alloc, left) else {
        drop(low);
        drop(high);
        return Err(Memory);
    };
    let Ok(low) = Boxed::new(alloc, low) else {
        drop(left);
        drop(high);
        return Err(Memory);
    };
    let Ok(high) = Boxed::new(alloc, high) else {
        drop(left);
        drop(low);
        return Err(Memory);
    };
    Ok(Expr::Between {
        negated,
        left,
        low,
        high,
    })
}

pub(crate) fn like(alloc: Global, negated: bool, left: Expr, pattern: Expr) -> Result<Expr, Memory>
    ensures { IfOk result (λ built. built ≡ expr.Like negated left pattern) }
{
    let Ok(left) = Boxed::new(alloc, left) else {
        drop(pattern);
        return Err(Memory);
    };
    let Ok(pattern) = Boxed::new(alloc, pattern) else {
        drop(left);
        return Err(Memory);
    };
    Ok(Expr::Like {
        negated,
        left,
        pattern,
    })
}

pub(crate) fn sign(alloc: Global, op: UnaryOp, operand: Expr) -> Result<Expr, Memory>
    ensures { IfOk result (λ built. built ≡ expr.Sign op operand) }
{
    Ok(Expr::Sign(op, Boxed::new(alloc, operand)?))
}

pub(crate) fn total(alloc: Global, aggregate: Aggregate, of: Expr) -> Result<Expr, Memory>
    ensures { IfOk result (λ built. built ≡ expr.Total aggregate of) }
{
    Ok(Expr::Total(aggregate, Boxed::new(alloc, of)?))
}

/// The first, and those behind it.
pub(crate) fn joined<T: Drop>(first: T, more: Items<T>) -> Result<Items<T>, Memory>
    ensures { IfOk result (λ items. items ≡ first ∷ more) }
{
    let mut items = more.into_vec();
    items.insert(0, first)?;
    Ok(Items::from_vec(items))
}

/// The operand alone, where nothing follows it.
pub(crate) fn chained(chain: Chain, first: Expr, more: ExprList) -> Result<Expr, Memory>
    ensures { IfOk result (λ built. built ≡ chain_of (chain_variant chain) (first ∷ more)) }
{
    if more.as_slice().is_empty() {
        return Ok(first);
    }
    let operands = joined(first, more)?;
    match chain {
        Chain::Coalesce => Ok(Expr::Coalesce(operands)),
        Chain::Or => Ok(Expr::Or(operands)),
        Chain::And => Ok(Expr::And(operands)),
        Chain::Join => Ok(Expr::Join(operands)),
    }
}

/// The operand alone, where nothing follows it.
pub(crate) fn operated(
    alloc: Global,
    chain: Operated,
    first: Expr,
    more: OpChain,
) -> Result<Expr, Memory>
    ensures { IfOk result (λ built. built ≡ operated_of (operated_variant chain) first more) }
{
    if more.as_slice().is_empty() {
        return Ok(first);
    }
    let Ok(first) = Boxed::new(alloc, first) else {
        drop(more);
        return Err(Memory);
    };
    match chain {
        Operated::Sum => Ok(Expr::Sum(first, more)),
        Operated::Product => Ok(Expr::Product(first, more)),
    }
}

/// The expression alone, where no step follows it.
pub(crate) fn stepped(alloc: Global, first: Expr, steps: StepList) -> Result<Expr, Memory>
    ensures { IfOk result (λ built. built ≡ stepped_of first steps) }
{
    if steps.as_slice().is_empty() {
        return Ok(first);
    }
    Ok(Expr::Steps(Boxed::new(alloc, first)?, steps))
}
