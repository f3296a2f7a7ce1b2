//! One function for each form of expression that has many parts; each stops as soon as its value is
//! decided.
ghost use Rattle.std.specs.Prelude.{◌≡◌, IfOk, map};
ghost use Rattle.ax_tree.specs.declared.members.Member.{Member};
ghost use Rattle.ax_mean.specs.Building.{defined_of, members_of};
ghost use Rattle.ax_mean.specs.Functions.{call as call_value};
ghost use Rattle.ax_mean.specs.Meaning.{meaning, bound, chain, operated, among, between, is_yes, negated_where as with_not};
ghost use Rattle.ax_mean.specs.Operators.{binary as binary_value, unary as unary_value, negation as negation_of, first_defined, conjunction, disjunction, joined};
ghost use Rattle.ax_mean.specs.Steps.{steps_from as steps_led};
ghost use Rattle.ax_mean.specs.Values.{truth_of as truth_held, of_truth as truth_value};
ghost use Rattle.ax_mean.specs.declared.expr.Chained.{Chained};
ghost use Rattle.ax_mean.specs.declared.operator.BinaryOp.TheVariants.{Like};
ghost use Rattle.ax_eval.specs.Truths.{all_of, some_of, some_equal};

use crate::members::with_value;
use crate::out_of_memory::Memory;
use crate::results::{
    binary, call, defined, is_at_least, is_at_most, is_equal, is_true, negated_where, negation,
    push_defined, seen_truth, truth_in, unary,
};
use crate::scope::Scope;
use crate::steps::steps_from;
use ax_func::Seen;
use ax_func::logic::{and, or};
use ax_mean::{
    BinaryOp, Chained, Expr, ExprList, Func, Items, Member, MemberList, Members, OpChain, StepList,
    Text, Tree, UnaryOp, Value,
};
use std::alloc::Global;

/// Whether the expression's value is true, as WHERE asks.
pub fn is_true_in<'a>(alloc: Global, expr: &'a Expr, scope: &Scope<'a>) -> Result<bool, Memory>
    ensures { IfOk result (λ truth. truth ≡ is_yes (truth_held (meaning scope.now expr.now))) }
{
    Ok(is_true(eval_in(alloc, expr, scope)?))
}

/// The value of the expression where each alias stands for its tree in `scope`; an alias that is
/// not there, and an aggregate, are undefined. What the expression names in a document or writes as
/// a literal is not copied.
#[cycle(eval)]
pub fn eval_in<'a>(alloc: Global, expr: &'a Expr, scope: &Scope<'a>) -> Result<Seen<'a>, Memory>
    ensures { IfOk result (λ seen. seen ≡ meaning scope.now expr.now) }
{
    match expr {
        Expr::Literal(value) => Ok(Seen::of(value.get())),
        Expr::Alias(name) => Ok(alias_in(name, scope)),
        Expr::Steps(base, steps) => stepped_in(alloc, base.get(), steps, scope),
        Expr::Choice(test, a, b) => {
            if is_true(eval_in(alloc, test.get(), scope)?) {
                eval_in(alloc, a.get(), scope)
            } else {
                eval_in(alloc, b.get(), scope)
            }
        }
        Expr::Coalesce(items) => coalesce_in(alloc, items, scope),
        Expr::Or(items) => or_in(alloc, items, scope),
        Expr::And(items) => and_in(alloc, items, scope),
        Expr::Not(a) => not_in(alloc, a.get(), scope),
        Expr::Compare(op, a, b) => {
            let left = eval_in(alloc, a.get(), scope)?;
            binary_in(alloc, *op, left, b.get(), scope)
        }
        Expr::Among {
            negated,
            left,
            items,
        } => {
            let left = eval_in(alloc, left.get(), scope)?;
            membership_in(alloc, *negated, left, items, scope)
        }
        Expr::Between {
            negated,
            left,
            low,
            high,
        } => {
            let left = eval_in(alloc, left.get(), scope)?;
            let Ok(low) = eval_in(alloc, low.get(), scope) else {
                drop(left);
                return Err(Memory);
            };
            between_in(alloc, *negated, left, low, high.get(), scope)
        }
        Expr::Like {
            negated,
            left,
            pattern,
        } => {
            let left = eval_in(alloc, left.get(), scope)?;
            like_in(alloc, *negated, left, pattern.get(), scope)
        }
        Expr::Join(items) => join_in(alloc, items, scope),
        Expr::Sum(first, rest) => {
            let first = eval_in(alloc, first.get(), scope)?;
            operated_in(alloc, rest, first, scope)
        }
        Expr::Product(first, rest) => {
            let first = eval_in(alloc, first.get(), scope)?;
            operated_in(alloc, rest, first, scope)
        }
        Expr::Sign(op, a) => sign_in(alloc, *op, a.get(), scope),
        Expr::Call(func, args) => call_in(alloc, *func, args, scope),
        Expr::Total(_, _) => Ok(Seen::undefined()),
        Expr::List(items) => list_in(alloc, items, scope),
        Expr::Object(members) => object_in(alloc, members, scope),
    }
}

fn alias_in<'a>(name: &Text, scope: &Scope<'a>) -> Seen<'a>
    ensures { result ≡ bound scope.now name.now }
{
    match scope.get(name.as_str()) {
        Some(tree) => Seen::here(tree),
        None => Seen::undefined(),
    }
}

/// What a path of steps leads to from the value of its base.
#[cycle(eval)]
fn stepped_in<'a>(
    alloc: Global,
    base: &'a Expr,
    steps: &'a StepList,
    scope: &Scope<'a>,
) -> Result<Seen<'a>, Memory>
    ensures { IfOk result (λ seen. seen ≡ steps_led (meaning scope.now base.now) steps.now) }
{
    Ok(steps_from(eval_in(alloc, base, scope)?, steps))
}

/// `NOT a`
#[inline(never)]
#[cycle(eval)]
fn not_in<'a>(alloc: Global, a: &'a Expr, scope: &Scope<'a>) -> Result<Seen<'a>, Memory>
    ensures { IfOk result (λ seen. seen ≡ negation_of (meaning scope.now a.now)) }
{
    Ok(negation(eval_in(alloc, a, scope)?))
}

/// `left op right`, of a left value.
#[cycle(eval)]
fn binary_in<'a>(
    alloc: Global,
    op: BinaryOp,
    left: Seen<'a>,
    right: &'a Expr,
    scope: &Scope<'a>,
) -> Result<Seen<'a>, Memory>
    ensures { IfOk result (λ seen. seen ≡ binary_value op left.entry (meaning scope.now right.now)) }
{
    let right = eval_in(alloc, right, scope)?;
    binary(alloc, op, left, right)
}

/// `left IN (items)` or its negation, of a left value.
#[inline(never)]
#[cycle(eval)]
fn membership_in<'a>(
    alloc: Global,
    negated: bool,
    left: Seen<'a>,
    items: &'a ExprList,
    scope: &Scope<'a>,
) -> Result<Seen<'a>, Memory>
    ensures { IfOk result (λ seen. seen
        ≡ with_not negated (among left.entry (map (meaning scope.now) items.now))) }
{
    Ok(negated_where(negated, among_in(alloc, items, left, scope)?))
}

/// `left BETWEEN low AND high` or its negation, of the first two values. A left value below `low`
/// decides it.
#[inline(never)]
#[cycle(eval)]
fn between_in<'a>(
    alloc: Global,
    negated: bool,
    left: Seen<'a>,
    low: Seen<'a>,
    high: &'a Expr,
    scope: &Scope<'a>,
) -> Result<Seen<'a>, Memory>
    ensures { IfOk result (λ seen. seen
        ≡ with_not negated (between left.entry low.entry (meaning scope.now high.now))) }
{
    let above = is_at_least(&left, low);
    if matches!(above, Some(false)) {
        return Ok(negated_where(negated, seen_truth(above)));
    }
    let below = is_at_most(&left, eval_in(alloc, high, scope)?);
    Ok(negated_where(negated, seen_truth(and(above, below))))
}

/// `left LIKE pattern` or its negation, of a left value.
#[inline(never)]
#[cycle(eval)]
fn like_in<'a>(
    alloc: Global,
    negated: bool,
    left: Seen<'a>,
    pattern: &'a Expr,
    scope: &Scope<'a>,
) -> Result<Seen<'a>, Memory>
    ensures { IfOk result (λ seen. seen
        ≡ with_not negated (binary_value Like left.entry (meaning scope.now pattern.now))) }
{
    let pattern = eval_in(alloc, pattern, scope)?;
    Ok(negated_where(negated, binary(alloc, BinaryOp::Like, left, pattern)?))
}

/// `op a`
#[inline(never)]
#[cycle(eval)]
fn sign_in<'a>(
    alloc: Global,
    op: UnaryOp,
    a: &'a Expr,
    scope: &Scope<'a>,
) -> Result<Seen<'a>, Memory>
    ensures { IfOk result (λ seen. seen ≡ unary_value op (meaning scope.now a.now)) }
{
    unary(op, eval_in(alloc, a, scope)?)
}

/// `func(args)`
#[inline(never)]
#[cycle(eval)]
fn call_in<'a>(
    alloc: Global,
    func: Func,
    args: &'a ExprList,
    scope: &Scope<'a>,
) -> Result<Seen<'a>, Memory>
    ensures { IfOk result (λ seen. seen ≡ call_value func (map (meaning scope.now) args.now)) }
{
    call(alloc, func, values_in(alloc, args, scope)?)
}

/// The first value that is defined.
#[inline(never)]
#[cycle(eval)]
#[tactic(auto, using(crate::proofs::Chains::undefined_skipped))]
fn coalesce_in<'a>(
    alloc: Global,
    items: &'a ExprList,
    scope: &Scope<'a>,
) -> Result<Seen<'a>, Memory>
    ensures { IfOk result (λ seen. seen ≡ chain first_defined (map (meaning scope.now) items.now)) }
{
    for item in items.as_slice() {
        if let Some(value) = defined(eval_in(alloc, item, scope)?) {
            return Ok(value);
        }
    }
    Ok(Seen::undefined())
}

#[inline(never)]
#[cycle(eval)]
#[tactic(auto, using(crate::proofs::Chains::and_chain))]
fn and_in<'a>(alloc: Global, items: &'a ExprList, scope: &Scope<'a>) -> Result<Seen<'a>, Memory>
    ensures { IfOk result (λ seen. seen ≡ chain conjunction (map (meaning scope.now) items.now)) }
{
    match items.as_slice() {
        [] => Ok(Seen::undefined()),
        [only] => eval_in(alloc, only, scope),
        _ => Ok(seen_truth(all_in(alloc, items, scope)?)),
    }
}

/// Whether all are true. What is false decides it.
#[cycle(eval)]
#[tactic(auto, using(crate::proofs::Chains::and_again, crate::proofs::Chains::and_end))]
fn all_in<'a>(alloc: Global, items: &'a ExprList, scope: &Scope<'a>) -> Result<Option<bool>, Memory>
    ensures { IfOk result (λ truth. truth ≡ all_of (map (meaning scope.now) items.now)) }
{
    let mut all = Some(true);
    for item in items.as_slice() {
        all = and(all, truth_in(eval_in(alloc, item, scope)?));
        if matches!(all, Some(false)) {
            return Ok(Some(false));
        }
    }
    Ok(all)
}

#[inline(never)]
#[cycle(eval)]
#[tactic(auto, using(crate::proofs::Chains::or_chain))]
fn or_in<'a>(alloc: Global, items: &'a ExprList, scope: &Scope<'a>) -> Result<Seen<'a>, Memory>
    ensures { IfOk result (λ seen. seen ≡ chain disjunction (map (meaning scope.now) items.now)) }
{
    match items.as_slice() {
        [] => Ok(Seen::undefined()),
        [only] => eval_in(alloc, only, scope),
        _ => Ok(seen_truth(some_in(alloc, items, scope)?)),
    }
}

/// Whether one is true. What is true decides it.
#[cycle(eval)]
#[tactic(auto, using(crate::proofs::Chains::or_again, crate::proofs::Chains::or_end))]
fn some_in<'a>(
    alloc: Global,
    items: &'a ExprList,
    scope: &Scope<'a>,
) -> Result<Option<bool>, Memory>
    ensures { IfOk result (λ truth. truth ≡ some_of (map (meaning scope.now) items.now)) }
{
    let mut some = Some(false);
    for item in items.as_slice() {
        some = or(some, truth_in(eval_in(alloc, item, scope)?));
        if matches!(some, Some(true)) {
            return Ok(Some(true));
        }
    }
    Ok(some)
}

#[cycle(eval)]
#[tactic(auto, using(crate::proofs::Chains::among_chain))]
fn among_in<'a>(
    alloc: Global,
    items: &'a ExprList,
    left: Seen<'a>,
    scope: &Scope<'a>,
) -> Result<Seen<'a>, Memory>
    ensures { IfOk result (λ seen. seen ≡ among left.entry (map (meaning scope.now) items.now)) }
{
    if items.as_slice().is_empty() {
        return Ok(Seen::undefined());
    }
    Ok(seen_truth(equal_in(alloc, items, left, scope)?))
}

/// Whether one is equal. The first that is equal decides it.
#[cycle(eval)]
#[tactic(auto, using(crate::proofs::Chains::or_again, crate::proofs::Chains::or_end))]
fn equal_in<'a>(
    alloc: Global,
    items: &'a ExprList,
    left: Seen<'a>,
    scope: &Scope<'a>,
) -> Result<Option<bool>, Memory>
    ensures { IfOk result (λ truth. truth ≡ some_equal left.entry (map (meaning scope.now) items.now)) }
{
    let mut equal = Some(false);
    for item in items.as_slice() {
        equal = or(equal, is_equal(&left, eval_in(alloc, item, scope)?));
        if matches!(equal, Some(true)) {
            return Ok(equal);
        }
    }
    Ok(equal)
}

#[inline(never)]
#[cycle(eval)]
#[tactic(auto, using(crate::proofs::Chains::join_chain))]
fn join_in<'a>(alloc: Global, items: &'a ExprList, scope: &Scope<'a>) -> Result<Seen<'a>, Memory>
    ensures { IfOk result (λ seen. seen ≡ chain joined (map (meaning scope.now) items.now)) }
{
    match items.as_slice() {
        [] => Ok(Seen::undefined()),
        [only] => eval_in(alloc, only, scope),
        _ => call(alloc, Func::Concat, values_in(alloc, items, scope)?),
    }
}

/// What the operators of a chain make of its first operand.
#[inline(never)]
#[cycle(eval)]
fn operated_in<'a>(
    alloc: Global,
    rest: &'a OpChain,
    first: Seen<'a>,
    scope: &Scope<'a>,
) -> Result<Seen<'a>, Memory>
    ensures { IfOk result (λ seen. seen ≡ operated first.entry
        (map (λ c. record { op = c.op; operand = meaning scope.now c.operand }) rest.now)) }
{
    let mut value = first;
    for chained in rest.as_slice() {
        let operand = eval_in(alloc, &chained.operand, scope)?;
        value = binary(alloc, chained.op, value, operand)?;
    }
    Ok(value)
}

#[cycle(eval)]
fn values_in<'a>(
    alloc: Global,
    items: &'a ExprList,
    scope: &Scope<'a>,
) -> Result<Vec<Seen<'a>>, Memory>
    ensures { IfOk result (λ values. values.items ≡ map (meaning scope.now) items.now) }
{
    let items = items.as_slice();
    let mut values = Vec::with_capacity(alloc, items.len())?;
    for item in items {
        values.push(eval_in(alloc, item, scope)?)?;
    }
    Ok(values)
}

/// The list of the values that are defined.
#[inline(never)]
#[cycle(eval)]
fn list_in<'a>(alloc: Global, items: &'a ExprList, scope: &Scope<'a>) -> Result<Seen<'a>, Memory>
    ensures { IfOk result (λ seen. seen ≡ Value.Defined (Tree.List (defined_of (map (meaning scope.now) items.now)))) }
{
    let items = items.as_slice();
    let mut trees = Vec::with_capacity(alloc, items.len())?;
    for item in items {
        let value = eval_in(alloc, item, scope)?.into_value(alloc)?;
        push_defined(&mut trees, value)?;
    }
    Ok(Seen::made(Value::Defined(Tree::List(Items::from_vec(trees)))))
}

/// The map of the members that are defined. Of a name that is repeated the last counts.
#[inline(never)]
#[cycle(eval)]
fn object_in<'a>(
    alloc: Global,
    members: &'a MemberList,
    scope: &Scope<'a>,
) -> Result<Seen<'a>, Memory>
    ensures { IfOk result (λ seen. seen ≡ Value.Defined (Tree.Object (members_of
        (map (λ m. record { name = m.name; value = meaning scope.now m.value }) members.now)))) }
{
    let mut made = Members::new(alloc);
    for member in members.as_slice() {
        let value = eval_in(alloc, &member.value, scope)?.into_value(alloc)?;
        made = with_value(alloc, made, &member.name, value)?;
    }
    Ok(Seen::made(Value::Defined(Tree::Object(made))))
}
