//! Whether two parts of an expression that are no expressions are the same.
ghost use Rattle.std.specs.Prelude.{◌≡◌, ◌==◌};
ghost use Rattle.ax_mean.specs.Comparison.{is_same_value};
ghost use Rattle.ax_grammar.specs.SameExprs.{is_same_step, all_steps_same, operator_number as number_of_operator, sign_number as number_of_sign, func_number as number_of_func, aggregate_number as number_of_aggregate};
ghost use Rattle.ax_scope.specs.SameOrBoth.{same_or_both as equal_or_undefined};

use ax_func::{Seen, equality};
use ax_mean::{Aggregate, BinaryOp, Func, QueryStep, StepList, UnaryOp, Value};

#[tactic(auto, using(crate::proofs::SameValues::equal_or_both))]
pub(crate) fn same_value(a: &Value, b: &Value) -> bool
    ensures { result ≡ is_same_value a.now b.now }
{
    same_or_both(equality(&Seen::of(a), &Seen::of(b)), a, b)
}

fn same_or_both(equal: Option<bool>, a: &Value, b: &Value) -> bool
    ensures { result ≡ equal_or_undefined a.now b.now equal }
{
    match equal {
        Some(same) => same,
        None => matches!(a, Value::Undefined) && matches!(b, Value::Undefined),
    }
}

pub(crate) fn same_steps(a: &StepList, b: &StepList) -> bool
    ensures { result ≡ all_steps_same a.now b.now }
{
    let left = a.as_slice();
    let right = b.as_slice();
    if left.len() != right.len() {
        return false;
    }
    for at in 0..left.len() {
        if !same_step(&left[at], &right[at]) {
            return false;
        }
    }
    true
}

fn same_step(a: &QueryStep, b: &QueryStep) -> bool
    ensures { result ≡ is_same_step a.now b.now }
{
    match a {
        QueryStep::Member(a) => matches!(b, QueryStep::Member(b) if a.as_str() == b.as_str()),
        QueryStep::Position(a) => matches!(b, QueryStep::Position(b) if a == b),
    }
}

pub(crate) fn same_operator(a: BinaryOp, b: BinaryOp) -> bool
    ensures { result ≡ (number_of_operator a == number_of_operator b) }
{
    operator_number(a) == operator_number(b)
}

fn operator_number(op: BinaryOp) -> u8
    ensures { result ≡ number_of_operator op }
{
    op as u8
}

pub(crate) fn same_sign(a: UnaryOp, b: UnaryOp) -> bool
    ensures { result ≡ (number_of_sign a == number_of_sign b) }
{
    sign_number(a) == sign_number(b)
}

fn sign_number(op: UnaryOp) -> u8
    ensures { result ≡ number_of_sign op }
{
    op as u8
}

pub(crate) fn same_func(a: Func, b: Func) -> bool
    ensures { result ≡ (number_of_func a == number_of_func b) }
{
    func_number(a) == func_number(b)
}

fn func_number(func: Func) -> u8
    ensures { result ≡ number_of_func func }
{
    func as u8
}

pub(crate) fn same_aggregate(a: Aggregate, b: Aggregate) -> bool
    ensures { result ≡ (number_of_aggregate a == number_of_aggregate b) }
{
    aggregate_number(a) == aggregate_number(b)
}

fn aggregate_number(aggregate: Aggregate) -> u8
    ensures { result ≡ number_of_aggregate aggregate }
{
    aggregate as u8
}
