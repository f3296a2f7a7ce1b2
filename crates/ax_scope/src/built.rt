//! Whether an expression is built of aggregates, literals and what is grouped by.
ghost use Rattle.std.specs.Prelude.{◌≡◌};
ghost use Rattle.std.specs.List.{list_any};
ghost use Rattle.ax_grammar.specs.Parts.{is_built as built_in};
ghost use Rattle.ax_grammar.specs.SameExprs.{is_same_expr};
ghost use Rattle.ax_scope.specs.Forms.{is_alias as alias_itself};

use crate::aggregates::is_total;
use crate::same::same;
use ax_mean::{Expr, ExprList};

/// Whether the expression is built of aggregates, literals and expressions that are the same as one
/// of these.
#[tactic(auto, using(crate::proofs::Wholes::built_by_parts))]
pub(crate) fn is_built(expr: &Expr, groups: &ExprList) -> bool
    ensures { result ≡ built_in groups.now expr.now }
{
    if is_total(expr) || is_among(expr, groups) {
        return true;
    }
    if is_alias(expr) {
        return false;
    }
    for part in expr.parts() {
        if !is_built(part, groups) {
            return false;
        }
    }
    true
}

fn is_alias(expr: &Expr) -> bool
    ensures { result ≡ alias_itself expr.now }
{
    matches!(expr, Expr::Alias(_))
}

fn is_among(expr: &Expr, groups: &ExprList) -> bool
    ensures { result ≡ list_any (is_same_expr expr.now) groups.now }
{
    for group in groups.as_slice() {
        if same(expr, group) {
            return true;
        }
    }
    false
}
