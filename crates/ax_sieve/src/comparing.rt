//! Comparisons of what is found with literals.
ghost use Rattle.std.specs.Prelude.{◌≡◌, false, IsFalse};
ghost use Rattle.ax_tree.specs.declared.tree.Tree as tree;
ghost use Rattle.ax_mean.specs.Meaning.{is_yes};
ghost use Rattle.ax_mean.specs.Operators.{binary};
ghost use Rattle.ax_mean.specs.Values.{truth_of};
ghost use Rattle.ax_mean.specs.declared.value.Value.TheVariants.{Defined};
ghost use Rattle.ax_sieve.specs.Comparing.{scalar_order, is_met as met_test};
ghost use Rattle.ax_sieve.specs.Literals.{literal_value};
ghost use Rattle.ax_sieve.specs.FoundValues.{value_of};

use crate::found::Found;
use crate::literal::Literal;
use ax_mean::{BinaryOp, Tree, Value};
use ax_skim::Scalar;
use std::cmp::Ordering;

/// Whether a comparison may be true; no operator but the six comparisons is told to be false.
#[tactic(auto, using(crate::proofs::Comparisons::not_met))]
pub(crate) fn may_be_true(op: BinaryOp, found: &Found, literal: &Literal) -> bool
    ensures { IsFalse result
        → is_yes (truth_of (binary op (value_of found.now) (literal_value literal.now))) ≡ false }
{
    is_met(op, order(found, literal))
}

/// Whether a comparison is true of two scalars in that order; none: they are of two kinds.
#[inline]
fn is_met(op: BinaryOp, order: Option<Ordering>) -> bool
    ensures { result ≡ met_test op order }
{
    match op {
        BinaryOp::Equal => order.is_some_and(|order| order.is_eq()),
        BinaryOp::NotEqual => order.is_some_and(|order| order.is_ne()),
        BinaryOp::Less => order.is_some_and(|order| order.is_lt()),
        BinaryOp::LessEqual => order.is_some_and(|order| order.is_le()),
        BinaryOp::Greater => order.is_some_and(|order| order.is_gt()),
        BinaryOp::GreaterEqual => order.is_some_and(|order| order.is_ge()),
        _ => true,
    }
}

/// The order of what is found and a literal of its kind; none across kinds.
#[inline]
fn order(found: &Found, literal: &Literal) -> Option<Ordering>
    ensures { result ≡ scalar_order (value_of found.now) (literal_value literal.now) }
{
    match literal {
        Literal::Value(value) => order_to_value(found, value),
        Literal::Number(number) => order_to_number(found, number),
    }
}

#[inline]
#[tactic(auto, using(crate::proofs::Comparisons::of_two_kinds))]
fn order_to_number(found: &Found, number: &i64) -> Option<Ordering>
    ensures { result ≡ scalar_order (value_of found.now) (Defined (tree.Number number.now)) }
{
    match found {
        Found::Scalar(Scalar::Number(own)) => Some(own.cmp(number)),
        _ => None,
    }
}

#[inline]
fn order_to_value(found: &Found, value: &Value) -> Option<Ordering>
    ensures { result ≡ scalar_order (value_of found.now) value.now }
{
    let (Found::Scalar(scalar), Value::Defined(tree)) = (found, value) else {
        return None;
    };
    match (scalar, tree) {
        (Scalar::Null, Tree::Null) => Some(Ordering::Equal),
        (Scalar::Truth(a), Tree::Truth(b)) => Some(a.cmp(b)),
        (Scalar::Number(a), Tree::Number(b)) => Some(a.cmp(b)),
        (Scalar::Text(a), Tree::Text(b)) => Some((*a).cmp(b.as_str().as_bytes())),
        _ => None,
    }
}
