//! Whether aggregates stand only where they are allowed.
ghost use Rattle.std.specs.Prelude.{◌≡◌};
ghost use Rattle.ax_mean.specs.Aggregates.{is_total as is_aggregate};
ghost use Rattle.ax_grammar.specs.Parts.{aggregates_fit as fit_in};

use ax_mean::Expr;

/// Whether aggregates stand in the expression only where they are allowed, and none inside another.
#[tactic(auto, using(ax_grammar::proofs::AggregatesFit::fit_by_parts))]
pub(crate) fn aggregates_fit(expr: &Expr, allowed: bool) -> bool
    ensures { result ≡ fit_in expr.now allowed }
{
    let total = is_total(expr);
    if total && !allowed {
        return false;
    }
    let inside = allowed && !total;
    for part in expr.parts() {
        if !aggregates_fit(part, inside) {
            return false;
        }
    }
    true
}

/// Whether the expression is itself an aggregate.
pub(crate) fn is_total(expr: &Expr) -> bool
    ensures { result ≡ is_aggregate expr.now }
{
    matches!(expr, Expr::Total(_, _))
}
