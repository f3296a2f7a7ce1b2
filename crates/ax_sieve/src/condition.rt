//! A condition on a document, and the one that an expression is.
ghost use Rattle.std.specs.Prelude.{◌≡◌, true, IfSome};
ghost use Rattle.ax_mean.specs.declared.expr.Expr as exprs;
ghost use Rattle.ax_sieve.specs.Names.{are_plain as plain_steps};

use crate::comparing::may_be_true;
use crate::found::find_value;
use crate::literal::{Literal, literal_of};
use crate::path::steps_of;
use crate::plain::are_plain;
use ax_mean::{BinaryOp, Expr, QueryStep, Text};

/// That what the steps lead to in a document compares so with a literal.
#[derive(Debug, Clone, Copy)]
pub(crate) struct Condition<'a> {
    pub(crate) steps: &'a [QueryStep],
    pub(crate) op: BinaryOp,
    pub(crate) literal: Literal<'a>,
    ghost plain: { plain_steps steps.now ≡ true },
}

impl<'a> Condition<'a> {
    ghost use Rattle.std.specs.Prelude.{false, IsTrue};
    ghost use Rattle.ax_tree.specs.CanonicalText.{canonical_text};
    ghost use Rattle.ax_tree.specs.declared.tree.Tree.{Tree};
    ghost use Rattle.ax_mean.specs.Meaning.{Env, meaning};
    ghost use Rattle.ax_sieve.specs.Conditions.{holds, value};
    ghost use Rattle.ax_sieve.specs.Operands.{StandsFor};

    /// The condition that an expression is, where the alias stands for the document; none of another
    /// expression.
    pub(crate) fn of(alias: &Text, expr: &'a Expr) -> Option<Condition<'a>>
        ensures { IfSome result (λ condition. (env : Env) (tree : Tree) → StandsFor env alias.now tree
            → meaning env expr.now ≡ value condition tree) }
    {
        let (op, left, right) = comparison_of(expr)?;
        let literal = literal_of(right)?;
        let steps = steps_of(alias, left)?;
        if !are_plain(steps) {
            return None;
        }
        Some(Condition { steps, op, literal })
    }

    /// Whether it does not hold in the document of a canonical text; only where that is told at
    /// once.
    pub(crate) fn fails(&self, text: &[u8]) -> bool
        ensures { IsTrue result → (tree : Tree) → text.now ≡ canonical_text tree
            → holds self.now tree ≡ false }
    {
        match find_value(text, self.steps) {
            Some(found) => !may_be_true(self.op, &found, &self.literal),
            None => false,
        }
    }
}

/// The operator of a comparison, and what stands on its left and on its right; none of another
/// expression.
fn comparison_of(expr: &Expr) -> Option<(BinaryOp, &Expr, &Expr)>
    ensures { IfSome result (λ parts. expr.now ≡ exprs.Compare parts.0 parts.1.now parts.2.now) }
{
    match expr {
        Expr::Compare(op, left, right) => Some((*op, left.get(), right.get())),
        _ => None,
    }
}
