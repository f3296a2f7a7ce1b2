//! The source of a query that shows whole documents.
ghost use Rattle.std.specs.List.{All};
ghost use Rattle.std.specs.Prelude.{IfSome};
ghost use Rattle.ax_tree.specs.declared.tree.Tree.{Tree};
ghost use Rattle.ax_mean.specs.Rows.{rows_of_tree};
ghost use Rattle.ax_sieve.specs.Operands.{StandsFor};

use ax_mean::{Query, Text};

/// The alias of a query whose first source is the document, whatever sources follow; none of another
/// query.
#[tactic(auto, using(crate::proofs::Rows::stands_in_each))]
pub(crate) fn document_alias(query: &Query) -> Option<&Text>
    ensures { IfSome result (λ alias. (tree : Tree)
        → All (λ row. StandsFor row.env alias.now tree) (rows_of_tree query.now.froms tree)) }
{
    let [from, ..] = query.froms.as_slice() else {
        return None;
    };
    if from.each || !from.steps.as_slice().is_empty() {
        return None;
    }
    Some(&from.alias)
}
