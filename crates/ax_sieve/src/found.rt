//! What is found at the end of a path in a document's text.
ghost use Rattle.std.specs.Prelude.{◌≡◌, true, IfSome};
ghost use Rattle.ax_tree.specs.CanonicalText.{canonical_text};
ghost use Rattle.ax_tree.specs.declared.tree.Tree.{Tree};
ghost use Rattle.ax_mean.specs.Steps.{steps_from};
ghost use Rattle.ax_mean.specs.declared.value.Value.TheVariants.{Defined};
ghost use Rattle.ax_sieve.specs.FoundValues.{value_of};
ghost use Rattle.ax_sieve.specs.Names.{are_plain};

use ax_mean::QueryStep;
use ax_skim::{Scalar, find_member, read_scalar};

/// A value that is told from a text at once.
#[derive(Debug, Clone, Copy)]
pub(crate) enum Found<'t> {
    /// There is no member of a name on the path.
    Undefined,
    Scalar(Scalar<'t>),
}

/// The value that the steps lead to in the document of a canonical text; none where it is not told at
/// once.
pub(crate) fn find_value<'t>(text: &'t [u8], steps: &[QueryStep]) -> Option<Found<'t>>
    requires plain { are_plain steps.now ≡ true }
    ensures { (tree : Tree) → text.now ≡ canonical_text tree
        → IfSome result (λ found. value_of found ≡ steps_from (Defined tree) steps.now) }
{
    let mut rest = text;
    let mut left = steps;
    while let Some((step, more)) = left.split_first() {
        let QueryStep::Member(name) = step else {
            return None;
        };
        let Some(value) = find_member(rest, name.as_str()) else {
            return Some(Found::Undefined);
        };
        rest = value;
        left = more;
    }
    Some(Found::Scalar(read_scalar(rest)?))
}
