//! The operators of queries.
ghost use Rattle.std.specs.Prelude.{◌≡◌, IfOk};
ghost use Rattle.ax_mean.specs.Arithmetic.{arithmetic as on_numbers, on_number, sum_of, difference_of, product_of, quotient_of, remainder_of, negative_of};
ghost use Rattle.ax_mean.specs.Like.{is_like as like_test};
ghost use Rattle.ax_mean.specs.Values.{of_truth as truth_value};
ghost use Rattle.ax_mean.specs.Operators.{binary as binary_value, unary as unary_value, joined, first_defined};

use crate::comparison::{equality, scalar_order};
use crate::like::is_like;
use crate::out_of_memory::Memory;
use crate::seen::Seen;
use crate::values::{number_of, of_number, of_string, of_truth, text_of, truth_of};
use crate::{arithmetic, logic};
use ax_mean::{BinaryOp, UnaryOp, Value};
use std::alloc::Global;

/// The value of `a op b`.
pub fn binary_seen(alloc: Global, op: BinaryOp, a: &Seen, b: &Seen) -> Result<Value, Memory>
    ensures { IfOk result (λ value. value ≡ binary_value op a.now b.now) }
{
    match op {
        BinaryOp::Equal => Ok(of_truth(equality(a, b))),
        BinaryOp::NotEqual => Ok(of_truth(scalar_order(a, b).map(|order| order.is_ne()))),
        BinaryOp::Less => Ok(of_truth(scalar_order(a, b).map(|order| order.is_lt()))),
        BinaryOp::LessEqual => Ok(of_truth(scalar_order(a, b).map(|order| order.is_le()))),
        BinaryOp::Greater => Ok(of_truth(scalar_order(a, b).map(|order| order.is_gt()))),
        BinaryOp::GreaterEqual => Ok(of_truth(scalar_order(a, b).map(|order| order.is_ge()))),
        BinaryOp::Add => Ok(sum(a, b)),
        BinaryOp::Subtract => Ok(difference(a, b)),
        BinaryOp::Multiply => Ok(product(a, b)),
        BinaryOp::Divide => Ok(quotient(a, b)),
        BinaryOp::Remainder => Ok(remainder(a, b)),
        BinaryOp::Join => join(alloc, a, b),
        BinaryOp::And => Ok(of_truth(logic::and(truth_of(a), truth_of(b)))),
        BinaryOp::Or => Ok(of_truth(logic::or(truth_of(a), truth_of(b)))),
        BinaryOp::Coalesce => coalesce(alloc, a, b),
        BinaryOp::Like => Ok(like(a, b)),
    }
}

/// The value of `op a`.
pub fn unary_seen(op: UnaryOp, a: &Seen) -> Result<Value, Memory>
    ensures { IfOk result (λ value. value ≡ unary_value op a.now) }
{
    match op {
        UnaryOp::Not => Ok(of_truth(logic::not(truth_of(a)))),
        UnaryOp::Minus => Ok(of_number(number_of(a).and_then(arithmetic::negative))),
        UnaryOp::Plus => Ok(of_number(number_of(a))),
    }
}

fn sum(a: &Seen, b: &Seen) -> Value
    ensures { result ≡ on_numbers sum_of a.now b.now }
{
    match (number_of(a), number_of(b)) {
        (Some(a), Some(b)) => of_number(arithmetic::sum(a, b)),
        _ => Value::Undefined,
    }
}

fn difference(a: &Seen, b: &Seen) -> Value
    ensures { result ≡ on_numbers difference_of a.now b.now }
{
    match (number_of(a), number_of(b)) {
        (Some(a), Some(b)) => of_number(arithmetic::difference(a, b)),
        _ => Value::Undefined,
    }
}

fn product(a: &Seen, b: &Seen) -> Value
    ensures { result ≡ on_numbers product_of a.now b.now }
{
    match (number_of(a), number_of(b)) {
        (Some(a), Some(b)) => of_number(arithmetic::product(a, b)),
        _ => Value::Undefined,
    }
}

fn quotient(a: &Seen, b: &Seen) -> Value
    ensures { result ≡ on_numbers quotient_of a.now b.now }
{
    match (number_of(a), number_of(b)) {
        (Some(a), Some(b)) => of_number(arithmetic::quotient(a, b)),
        _ => Value::Undefined,
    }
}

fn remainder(a: &Seen, b: &Seen) -> Value
    ensures { result ≡ on_numbers remainder_of a.now b.now }
{
    match (number_of(a), number_of(b)) {
        (Some(a), Some(b)) => of_number(arithmetic::remainder(a, b)),
        _ => Value::Undefined,
    }
}

fn join(alloc: Global, a: &Seen, b: &Seen) -> Result<Value, Memory>
    ensures { IfOk result (λ value. value ≡ joined a.now b.now) }
{
    let (Some(a), Some(b)) = (text_of(a), text_of(b)) else {
        return Ok(Value::Undefined);
    };
    let (a, b) = (a.as_str(), b.as_str());
    let mut text = String::with_capacity(alloc, a.len().saturating_add(b.len()))?;
    text.push_str(a)?;
    text.push_str(b)?;
    Ok(of_string(text))
}

fn coalesce(alloc: Global, a: &Seen, b: &Seen) -> Result<Value, Memory>
    ensures { IfOk result (λ value. value ≡ first_defined a.now b.now) }
{
    match a.tree() {
        None => b.to_value(alloc),
        Some(tree) => Ok(Value::Defined(tree.copy(alloc)?)),
    }
}

fn like(text: &Seen, pattern: &Seen) -> Value
    ensures { result ≡ truth_value (like_test text.now pattern.now) }
{
    match (text_of(text), text_of(pattern)) {
        (Some(text), Some(pattern)) => of_truth(is_like(text.as_str(), pattern.as_str())),
        _ => Value::Undefined,
    }
}
