//! Whether an expression has an aggregate.
ghost use Rattle.std.specs.Prelude.{◌≡◌};
ghost use Rattle.ax_mean.specs.Aggregates.{is_total as is_aggregate, has_aggregate as aggregate_in};

use crate::expr::Expr;

impl Expr {
    /// Whether an aggregate stands anywhere in the expression, which may be one itself.
    #[tactic(auto, using(crate::proofs::AggregateParts::aggregate_by_parts))]
    pub fn has_aggregate(&self) -> bool
        ensures { result ≡ aggregate_in self.now }
    {
        if self.is_total() {
            return true;
        }
        for part in self.parts() {
            if part.has_aggregate() {
                return true;
            }
        }
        false
    }

    fn is_total(&self) -> bool
        ensures { result ≡ is_aggregate self.now }
    {
        matches!(self, Expr::Total(_, _))
    }
}
