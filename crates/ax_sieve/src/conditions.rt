//! The conditions among expressions.
ghost use Rattle.std.specs.Prelude.{◌≡◌, true, false, IfOk};
ghost use Rattle.ax_tree.specs.declared.tree.Tree.{Tree};
ghost use Rattle.ax_mean.specs.Meaning.{Env};
ghost use Rattle.ax_sieve.specs.Conditions.{one_fails};
ghost use Rattle.ax_sieve.specs.Operands.{StandsFor, are_true};

use crate::condition::Condition;
use crate::out_of_memory::Memory;
use ax_mean::{Expr, Text};
use std::alloc::Global;

/// Conditions that hold where the alias stands for the document and each of the expressions is
/// true.
pub(crate) fn conditions_of<'a>(
    alloc: Global,
    alias: &Text,
    operands: &'a [Expr],
) -> Result<Vec<Condition<'a>>, Memory>
    ensures { IfOk result (λ conditions. (env : Env) (tree : Tree) → StandsFor env alias.now tree
        → one_fails conditions.items tree ≡ true → are_true env operands.now ≡ false) }
{
    let mut conditions = Vec::new(alloc);
    for operand in operands {
        if let Some(condition) = Condition::of(alias, operand) {
            conditions.push(condition)?;
        }
    }
    Ok(conditions)
}
