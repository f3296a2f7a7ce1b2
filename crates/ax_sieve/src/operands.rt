//! What has to be true for WHERE to be.
ghost use Rattle.std.specs.Prelude.{◌≡◌, true};
ghost use Rattle.ax_mean.specs.Meaning.{Env};
ghost use Rattle.ax_sieve.specs.Operands.{are_true, is_true};

use ax_mean::Expr;
use std::slice;

/// Expressions each of which is true where the condition is: the operands of AND, or the condition.
#[tactic(auto, using(crate::proofs::Conjunctions::and_is_true))]
pub(crate) fn operands(condition: &Expr) -> &[Expr]
    ensures { (env : Env) → is_true env condition.now ≡ true → are_true env result.now ≡ true }
{
    match condition {
        Expr::And(items) => items.as_slice(),
        condition => slice::from_ref(condition),
    }
}
