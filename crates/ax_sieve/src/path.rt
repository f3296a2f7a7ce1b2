//! Expressions that lead into the document.
ghost use Rattle.std.specs.Prelude.{◌≡◌, IfSome};
ghost use Rattle.ax_tree.specs.declared.tree.Tree.{Tree};
ghost use Rattle.ax_mean.specs.Meaning.{Env, meaning};
ghost use Rattle.ax_mean.specs.Steps.{steps_from};
ghost use Rattle.ax_mean.specs.declared.value.Value.TheVariants.{Defined};
ghost use Rattle.ax_sieve.specs.Operands.{StandsFor};

use ax_mean::{Expr, QueryStep, Text};

/// The steps from the document on that the expression is, where the alias stands for the document;
/// none of another expression.
pub(crate) fn steps_of<'a>(alias: &Text, expr: &'a Expr) -> Option<&'a [QueryStep]>
    ensures { IfSome result (λ steps. (env : Env) (tree : Tree) → StandsFor env alias.now tree
        → meaning env expr.now ≡ steps_from (Defined tree) steps.now) }
{
    let Expr::Steps(base, steps) = expr else {
        return None;
    };
    let Expr::Alias(named) = base.get() else {
        return None;
    };
    if named.as_str() == alias.as_str() {
        Some(steps.as_slice())
    } else {
        None
    }
}
