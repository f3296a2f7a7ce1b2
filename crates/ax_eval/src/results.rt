//! What is made of one or two values.
ghost use Rattle.std.specs.Prelude.{◌≡◌, List, [], ◌∷◌, ◌++◌, IfOk, OnOk, MatchOption};
ghost use Rattle.ax_mean.specs.declared.value.Value as values;
ghost use Rattle.ax_mean.specs.declared.value.Value.TheVariants.{Undefined};
ghost use Rattle.ax_mean.specs.Building.{defined_of};
ghost use Rattle.ax_mean.specs.Comparison.{equality as equality_of, is_greater_or_equal, is_less_or_equal};
ghost use Rattle.ax_mean.specs.Functions.{call as call_value};
ghost use Rattle.ax_mean.specs.Meaning.{along, is_yes, negated_where as with_not};
ghost use Rattle.ax_mean.specs.Operators.{binary as binary_value, unary as unary_value, negation as negation_of, first_defined};
ghost use Rattle.ax_mean.specs.Values.{truth_of as truth_held, of_truth as truth_value};

use crate::out_of_memory::Memory;
use ax_func::{
    Seen, binary_seen, call_seen, equality, of_truth, scalar_order, truth_of, unary_seen,
};
use ax_mean::{BinaryOp, Func, Tree, UnaryOp, Value};
use std::alloc::Global;

/// Whether the value is true.
pub fn is_true(value: Seen) -> bool
    ensures { result ≡ is_yes (truth_held value.entry) }
{
    match truth_of(&value) {
        Some(truth) => truth,
        None => false,
    }
}

/// The truth value; none of another value.
pub fn truth_in(value: Seen) -> Option<bool>
    ensures { result ≡ truth_held value.entry }
{
    truth_of(&value)
}

/// The value that a truth is.
pub fn seen_truth<'a>(truth: Option<bool>) -> Seen<'a>
    ensures { result ≡ truth_value truth }
{
    Seen::made(of_truth(truth))
}

/// The value where it is defined, which is then the first of any chain of `??` that it begins.
#[tactic(auto, using(crate::proofs::Chains::first_taken))]
pub fn defined<'a>(value: Seen<'a>) -> Option<Seen<'a>>
    ensures { MatchOption result (value.entry ≡ Undefined) (λ seen. (seen ≡ value.entry)
        × ((rest : List values.Value) → along first_defined seen rest ≡ seen)) }
{
    if value.is_defined() {
        Some(value)
    } else {
        None
    }
}

pub fn negation<'a>(value: Seen<'a>) -> Seen<'a>
    ensures { result ≡ negation_of value.entry }
{
    seen_truth(ax_func::logic::not(truth_in(value)))
}

/// The value, with NOT before it where that is written.
pub fn negated_where<'a>(negated: bool, value: Seen<'a>) -> Seen<'a>
    ensures { result ≡ with_not negated value.entry }
{
    if negated { negation(value) } else { value }
}

/// `left op right`
pub fn binary<'a>(
    alloc: Global,
    op: BinaryOp,
    left: Seen<'a>,
    right: Seen<'a>,
) -> Result<Seen<'a>, Memory>
    ensures { IfOk result (λ seen. seen ≡ binary_value op left.entry right.entry) }
{
    Ok(Seen::made(binary_seen(alloc, op, &left, &right)?))
}

/// `op operand`
pub fn unary<'a>(op: UnaryOp, operand: Seen<'a>) -> Result<Seen<'a>, Memory>
    ensures { IfOk result (λ seen. seen ≡ unary_value op operand.entry) }
{
    Ok(Seen::made(unary_seen(op, &operand)?))
}

/// The value of a function at its arguments.
pub fn call<'a>(alloc: Global, func: Func, args: Vec<Seen<'a>>) -> Result<Seen<'a>, Memory>
    ensures { IfOk result (λ seen. seen ≡ call_value func args.entry.items) }
{
    Ok(Seen::made(call_seen(alloc, func, args.as_slice())?))
}

/// `left >= low`
pub fn is_at_least(left: &Seen, low: Seen) -> Option<bool>
    ensures { result ≡ is_greater_or_equal left.now low.entry }
{
    scalar_order(left, &low).map(|order| order.is_ge())
}

/// `left <= high`
pub fn is_at_most(left: &Seen, high: Seen) -> Option<bool>
    ensures { result ≡ is_less_or_equal left.now high.entry }
{
    scalar_order(left, &high).map(|order| order.is_le())
}

/// `left = value`
pub fn is_equal(left: &Seen, value: Seen) -> Option<bool>
    ensures { result ≡ equality_of left.now value.entry }
{
    equality(left, &value)
}

/// Appends the tree of a value that is defined.
pub fn push_defined(trees: &mut Vec<Tree>, value: Value) -> Result<(), Memory>
    ensures { OnOk result (trees.new.items ≡ trees.old.items ++ defined_of (value ∷ [])) }
{
    match value {
        Value::Undefined => Ok(()),
        Value::Defined(tree) => Ok(trees.push(tree)?),
    }
}
