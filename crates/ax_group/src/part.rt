//! The greatest parts of a pick that have no aggregate: of the first row they are asked for as a whole.
ghost use Rattle.std.specs.Prelude.{◌≡◌};
ghost use Rattle.ax_group.specs.Walks.{is_literal as literal_test, is_part as part_test};

use ax_mean::Expr;

/// Whether the expression is asked for as a whole: it has no aggregate, and is no literal.
pub fn is_part(expr: &Expr) -> bool
    ensures { result ≡ part_test expr.now }
{
    !is_literal(expr) && !expr.has_aggregate()
}

fn is_literal(expr: &Expr) -> bool
    ensures { result ≡ literal_test expr.now }
{
    matches!(expr, Expr::Literal(_))
}
