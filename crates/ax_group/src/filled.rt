//! An expression in which what it asks for is the literal of its value. One function for each form of
//! expression that has many parts; each holds at most one part that it owns while it makes the next.
ghost use Rattle.std.specs.Prelude.{◌≡◌, map, IfOk, OnOk};
ghost use Rattle.ax_group.specs.Walks.{fill, fill_pair, fill_within, operand_fill, member_fill, all_filled, operands_filled, members_filled};

use crate::out_of_memory::Memory;
use crate::part::is_part;
use crate::results::Results;
use ax_mean::{
    Boxed, Chained, Expr, ExprList, Items, Member, MemberList, OpChain, QueryStep, Shared,
    StepList, Text,
};
use std::alloc::Global;

/// The expression with the next results in place of what it asks for.
#[tactic(auto, using(crate::proofs::Asking::part_filled, crate::proofs::Asking::within_filled))]
#[cycle(filled)]
pub fn filled(alloc: Global, expr: &Expr, results: &mut Results) -> Result<Expr, Memory>
    ensures made { IfOk result (λ made. made ≡ (fill expr.now results.old).0) }
    ensures left { OnOk result (results.new ≡ (fill expr.now results.old).1) }
{
    if is_part(expr) {
        Ok(Expr::Literal(Shared::new(alloc, results.take())?))
    } else {
        filled_within(alloc, expr, results)
    }
}

/// The expression with the next results in place of what its children ask for.
#[cycle(filled)]
fn filled_within(alloc: Global, expr: &Expr, results: &mut Results) -> Result<Expr, Memory>
    ensures made { IfOk result (λ made. made ≡ (fill_within expr.now results.old).0) }
    ensures left { OnOk result (results.new ≡ (fill_within expr.now results.old).1) }
{
    match expr {
        Expr::Literal(value) => Ok(Expr::Literal(value.share()?)),
        Expr::Alias(name) => Ok(Expr::Alias(name.copy(alloc)?)),
        Expr::Steps(base, steps) => {
            let base = boxed(alloc, base, results)?;
            match copy_of_steps(alloc, steps) {
                Ok(steps) => Ok(Expr::Steps(base, steps)),
                Err(fault) => {
                    drop(base);
                    Err(fault)
                }
            }
        }
        Expr::Choice(test, a, b) => {
            let test = boxed(alloc, test, results)?;
            let a = match boxed(alloc, a, results) {
                Ok(a) => a,
                Err(fault) => {
                    drop(test);
                    return Err(fault);
                }
            };
            match boxed(alloc, b, results) {
                Ok(b) => Ok(Expr::Choice(test, a, b)),
                Err(fault) => {
                    drop(test);
                    drop(a);
                    Err(fault)
                }
            }
        }
        Expr::Coalesce(items) => Ok(Expr::Coalesce(list_of(alloc, items, results)?)),
        Expr::Or(items) => Ok(Expr::Or(list_of(alloc, items, results)?)),
        Expr::And(items) => Ok(Expr::And(list_of(alloc, items, results)?)),
        Expr::Not(a) => Ok(Expr::Not(boxed(alloc, a, results)?)),
        Expr::Compare(op, a, b) => {
            let a = boxed(alloc, a, results)?;
            match boxed(alloc, b, results) {
                Ok(b) => Ok(Expr::Compare(*op, a, b)),
                Err(fault) => {
                    drop(a);
                    Err(fault)
                }
            }
        }
        Expr::Among {
            negated,
            left,
            items,
        } => {
            let left = boxed(alloc, left, results)?;
            match list_of(alloc, items, results) {
                Ok(items) => Ok(Expr::Among {
                    negated: *negated,
                    left,
                    items,
                }),
                Err(fault) => {
                    drop(left);
                    Err(fault)
                }
            }
        }
        Expr::Between {
            negated,
            left,
            low,
            high,
        } => {
            let left = boxed(alloc, left, results)?;
            let low = match boxed(alloc, low, results) {
                Ok(low) => low,
                Err(fault) => {
                    drop(left);
                    return Err(fault);
                }
            };
            match boxed(alloc, high, results) {
                Ok(high) => Ok(Expr::Between {
                    negated: *negated,
                    left,
                    low,
                    high,
                }),
                Err(fault) => {
                    drop(left);
                    drop(low);
                    Err(fault)
                }
            }
        }
        Expr::Like {
            negated,
            left,
            pattern,
        } => {
            let left = boxed(alloc, left, results)?;
            match boxed(alloc, pattern, results) {
                Ok(pattern) => Ok(Expr::Like {
                    negated: *negated,
                    left,
                    pattern,
                }),
                Err(fault) => {
                    drop(left);
                    Err(fault)
                }
            }
        }
        Expr::Join(items) => Ok(Expr::Join(list_of(alloc, items, results)?)),
        Expr::Sum(first, rest) => {
            let first = boxed(alloc, first, results)?;
            match chain_of(alloc, rest, results) {
                Ok(rest) => Ok(Expr::Sum(first, rest)),
                Err(fault) => {
                    drop(first);
                    Err(fault)
                }
            }
        }
        Expr::Product(first, rest) => {
            let first = boxed(alloc, first, results)?;
            match chain_of(alloc, rest, results) {
                Ok(rest) => Ok(Expr::Product(first, rest)),
                Err(fault) => {
                    drop(first);
                    Err(fault)
                }
            }
        }
        Expr::Sign(op, a) => Ok(Expr::Sign(*op, boxed(alloc, a, results)?)),
        Expr::Call(func, args) => Ok(Expr::Call(*func, list_of(alloc, args, results)?)),
        Expr::Total(_, _) => Ok(Expr::Literal(Shared::new(alloc, results.take())?)),
        Expr::List(items) => Ok(Expr::List(list_of(alloc, items, results)?)),
        Expr::Object(members) => Ok(Expr::Object(members_of(alloc, members, results)?)),
    }
}

#[cycle(filled)]
fn boxed(alloc: Global, expr: &Boxed<Expr>, results: &mut Results) -> Result<Boxed<Expr>, Memory>
    ensures made { IfOk result (λ made. made ≡ (fill expr.now results.old).0) }
    ensures left { OnOk result (results.new ≡ (fill expr.now results.old).1) }
{
    let made = filled(alloc, expr.get(), results)?;
    Ok(Boxed::new(alloc, made)?)
}

#[cycle(filled)]
fn list_of(alloc: Global, items: &ExprList, results: &mut Results) -> Result<ExprList, Memory>
    ensures made { IfOk result (λ made. made ≡ (all_filled (map fill_pair items.now) results.old).0) }
    ensures left { OnOk result (results.new ≡ (all_filled (map fill_pair items.now) results.old).1) }
{
    let items = items.as_slice();
    let mut made = Vec::with_capacity(alloc, items.len())?;
    for item in items {
        made.push(filled(alloc, item, results)?)?;
    }
    Ok(Items::from_vec(made))
}

#[cycle(filled)]
fn chain_of(alloc: Global, chain: &OpChain, results: &mut Results) -> Result<OpChain, Memory>
    ensures made { IfOk result (λ made.
        made ≡ (operands_filled (map operand_fill chain.now) results.old).0) }
    ensures left { OnOk result
        (results.new ≡ (operands_filled (map operand_fill chain.now) results.old).1) }
{
    let chain = chain.as_slice();
    let mut made = Vec::with_capacity(alloc, chain.len())?;
    for chained in chain {
        let operand = filled(alloc, &chained.operand, results)?;
        made.push(Chained {
            op: chained.op,
            operand,
        })?;
    }
    Ok(Items::from_vec(made))
}

#[cycle(filled)]
fn members_of(
    alloc: Global,
    members: &MemberList,
    results: &mut Results,
) -> Result<MemberList, Memory>
    ensures made { IfOk result (λ made.
        made ≡ (members_filled (map member_fill members.now) results.old).0) }
    ensures left { OnOk result
        (results.new ≡ (members_filled (map member_fill members.now) results.old).1) }
{
    let members = members.as_slice();
    let mut made = Vec::with_capacity(alloc, members.len())?;
    for member in members {
        let value = filled(alloc, &member.value, results)?;
        made.push(named(alloc, &member.name, value)?)?;
    }
    Ok(Items::from_vec(made))
}

/// The expression under an equal name.
fn named(alloc: Global, name: &Text, value: Expr) -> Result<Member<Expr>, Memory>
    ensures name { IfOk result (λ made. made.name ≡ name.now) }
    ensures value { IfOk result (λ made. made.value ≡ value) }
{
    match name.copy(alloc) {
        Ok(name) => Ok(Member { name, value }),
        Err(_) => {
            drop(value);
            Err(Memory)
        }
    }
}

/// Equal steps.
fn copy_of_steps(alloc: Global, steps: &StepList) -> Result<StepList, Memory>
    ensures { IfOk result (λ copied. copied ≡ steps.now) }
{
    let steps = steps.as_slice();
    let mut copied = Vec::with_capacity(alloc, steps.len())?;
    for step in steps {
        copied.push(copy_of_step(alloc, step)?)?;
    }
    Ok(Items::from_vec(copied))
}

fn copy_of_step(alloc: Global, step: &QueryStep) -> Result<QueryStep, Memory>
    ensures { IfOk result (λ copied. copied ≡ step.now) }
{
    match step {
        QueryStep::Member(name) => Ok(QueryStep::Member(name.copy(alloc)?)),
        QueryStep::Position(at) => Ok(QueryStep::Position(*at)),
    }
}
