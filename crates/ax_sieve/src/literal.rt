//! Literals, perhaps with a sign before them.
ghost use Rattle.std.specs.Prelude.{◌≡◌, IfSome};
ghost use Rattle.ax_tree.specs.declared.tree.Tree as tree;
ghost use Rattle.ax_mean.specs.Meaning.{Env, meaning};
ghost use Rattle.ax_mean.specs.Operators.{unary};
ghost use Rattle.ax_mean.specs.Values.{of_number};
ghost use Rattle.ax_mean.specs.declared.value.Value.TheVariants.{Defined};
ghost use Rattle.ax_sieve.specs.Literals.{literal_value};

use ax_mean::{Expr, Tree, UnaryOp, Value};

/// What an expression stands for in each document.
#[derive(Debug, Clone, Copy)]
pub(crate) enum Literal<'a> {
    /// A value as it is written.
    Value(&'a Value),
    /// A number with a sign before it.
    Number(i64),
}

/// The literal that an expression is; none of another expression.
pub(crate) fn literal_of(expr: &Expr) -> Option<Literal>
    ensures { IfSome result (λ literal. (env : Env) → meaning env expr.now ≡ literal_value literal) }
{
    match expr {
        Expr::Literal(value) => Some(Literal::Value(value.get())),
        expr => signed_number(expr),
    }
}

/// A number literal with one sign before it; none of another expression, and of the least number
/// with a minus, which has no value.
fn signed_number(expr: &Expr) -> Option<Literal>
    ensures { IfSome result (λ literal. (env : Env) → meaning env expr.now ≡ literal_value literal) }
{
    let Expr::Sign(sign, operand) = expr else {
        return None;
    };
    let Expr::Literal(value) = operand.get() else {
        return None;
    };
    let Value::Defined(Tree::Number(number)) = value.get() else {
        return None;
    };
    Some(Literal::Number(with_sign(*sign, *number)?))
}

/// What a sign makes of a number; none where that is no number.
#[inline]
#[tactic(auto, using(crate::proofs::Signs::minus, crate::proofs::Signs::plus, crate::proofs::Signs::not_a_sign))]
fn with_sign(sign: UnaryOp, number: i64) -> Option<i64>
    ensures { unary sign (Defined (tree.Number number)) ≡ of_number result }
{
    match sign {
        UnaryOp::Minus => number.checked_neg(),
        UnaryOp::Plus => Some(number),
        UnaryOp::Not => None,
    }
}
