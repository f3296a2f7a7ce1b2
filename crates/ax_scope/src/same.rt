//! Whether two expressions are the same.
ghost use Rattle.std.specs.Prelude.{◌≡◌, map};
ghost use Rattle.ax_grammar.specs.SameExprs.{is_same_expr, all_pass, all_chained_pass, all_members_pass};
ghost use Rattle.ax_scope.specs.EachPart.{chained_seen, member_seen};

use crate::same_parts::{
    same_aggregate, same_func, same_operator, same_sign, same_steps, same_value,
};
use ax_mean::{Expr, ExprList, MemberList, OpChain};

/// Whether the two expressions are the same.
#[cycle(same)]
pub(crate) fn same(a: &Expr, b: &Expr) -> bool
    ensures { result ≡ is_same_expr a.now b.now }
{
    match a {
        Expr::Literal(left) => match b {
            Expr::Literal(right) => same_value(left.get(), right.get()),
            _ => false,
        },
        Expr::Alias(left) => match b {
            Expr::Alias(right) => left.as_str() == right.as_str(),
            _ => false,
        },
        Expr::Steps(left, steps) => match b {
            Expr::Steps(right, others) => same(left.get(), right.get())
                && same_steps(steps, others),
            _ => false,
        },
        Expr::Choice(test, first, second) => match b {
            Expr::Choice(x, y, z) => {
                same(test.get(), x.get())
                    && same(first.get(), y.get())
                    && same(second.get(), z.get())
            }
            _ => false,
        },
        Expr::Coalesce(left) => match b {
            Expr::Coalesce(right) => same_exprs(left, right),
            _ => false,
        },
        Expr::Or(left) => match b {
            Expr::Or(right) => same_exprs(left, right),
            _ => false,
        },
        Expr::And(left) => match b {
            Expr::And(right) => same_exprs(left, right),
            _ => false,
        },
        Expr::Not(left) => match b {
            Expr::Not(right) => same(left.get(), right.get()),
            _ => false,
        },
        Expr::Compare(op, first, second) => match b {
            Expr::Compare(other, x, y) => {
                same_operator(*op, *other)
                    && same(first.get(), x.get())
                    && same(second.get(), y.get())
            }
            _ => false,
        },
        Expr::Among {
            negated,
            left,
            items,
        } => match b {
            Expr::Among {
                negated: other,
                left: x,
                items: xs,
            } => negated == other && same(left.get(), x.get()) && same_exprs(items, xs),
            _ => false,
        },
        Expr::Between {
            negated,
            left,
            low,
            high,
        } => match b {
            Expr::Between {
                negated: other,
                left: x,
                low: y,
                high: z,
            } => {
                negated == other
                    && same(left.get(), x.get())
                    && same(low.get(), y.get())
                    && same(high.get(), z.get())
            }
            _ => false,
        },
        Expr::Like {
            negated,
            left,
            pattern,
        } => match b {
            Expr::Like {
                negated: other,
                left: x,
                pattern: y,
            } => negated == other && same(left.get(), x.get()) && same(pattern.get(), y.get()),
            _ => false,
        },
        Expr::Join(left) => match b {
            Expr::Join(right) => same_exprs(left, right),
            _ => false,
        },
        Expr::Sum(first, rest) => match b {
            Expr::Sum(x, others) => same(first.get(), x.get()) && same_chains(rest, others),
            _ => false,
        },
        Expr::Product(first, rest) => match b {
            Expr::Product(x, others) => same(first.get(), x.get()) && same_chains(rest, others),
            _ => false,
        },
        Expr::Sign(op, left) => match b {
            Expr::Sign(other, right) => same_sign(*op, *other) && same(left.get(), right.get()),
            _ => false,
        },
        Expr::Call(func, args) => match b {
            Expr::Call(other, others) => same_func(*func, *other) && same_exprs(args, others),
            _ => false,
        },
        Expr::Total(aggregate, left) => match b {
            Expr::Total(other, right) => {
                same_aggregate(*aggregate, *other) && same(left.get(), right.get())
            }
            _ => false,
        },
        Expr::List(left) => match b {
            Expr::List(right) => same_exprs(left, right),
            _ => false,
        },
        Expr::Object(left) => match b {
            Expr::Object(right) => same_members(left, right),
            _ => false,
        },
    }
}

#[cycle(same)]
fn same_exprs(a: &ExprList, b: &ExprList) -> bool
    ensures { result ≡ all_pass (map is_same_expr a.now) b.now }
{
    let left = a.as_slice();
    let right = b.as_slice();
    if left.len() != right.len() {
        return false;
    }
    for at in 0..left.len() {
        if !same(&left[at], &right[at]) {
            return false;
        }
    }
    true
}

#[cycle(same)]
fn same_chains(a: &OpChain, b: &OpChain) -> bool
    ensures { result ≡ all_chained_pass (map (chained_seen is_same_expr) a.now) b.now }
{
    let left = a.as_slice();
    let right = b.as_slice();
    if left.len() != right.len() {
        return false;
    }
    for at in 0..left.len() {
        let (one, other) = (&left[at], &right[at]);
        if !same_operator(one.op, other.op) {
            return false;
        }
        if !same(&one.operand, &other.operand) {
            return false;
        }
    }
    true
}

#[cycle(same)]
fn same_members(a: &MemberList, b: &MemberList) -> bool
    ensures { result ≡ all_members_pass (map (member_seen is_same_expr) a.now) b.now }
{
    let left = a.as_slice();
    let right = b.as_slice();
    if left.len() != right.len() {
        return false;
    }
    for at in 0..left.len() {
        let (one, other) = (&left[at], &right[at]);
        if one.name.as_str() != other.name.as_str() {
            return false;
        }
        if !same(&one.value, &other.value) {
            return false;
        }
    }
    true
}
