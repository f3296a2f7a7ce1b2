//! Comparing two values: undefined across kinds.
ghost use Rattle.std.specs.Prelude.{◌≡◌, ◌&&◌, Some, None, if◌then◌else◌};
ghost use Rattle.ax_mean.specs.ValueOrder.{value_cmp};
ghost use Rattle.ax_mean.specs.declared.value.Value.TheVariants.{Defined};
ghost use Rattle.ax_mean.specs.Values.{are_of_one_kind, tree_kind};
ghost use Rattle.ax_mean.specs.Comparison.{equality as equality_of, is_scalar};

use crate::same::same;
use crate::seen::Seen;
use ax_mean::Tree;
use std::cmp::Ordering;

/// Whether two values of one kind are the same; none across kinds, and none where one is undefined.
pub fn equality(a: &Seen, b: &Seen) -> Option<bool>
    ensures { result ≡ equality_of a.now b.now }
{
    match (a.tree(), b.tree()) {
        (Some(a), Some(b)) => {
            if kind(a) == kind(b) {
                Some(same(a, b))
            } else {
                None
            }
        }
        _ => None,
    }
}

/// The tree's kind, as a number.
pub fn kind(tree: &Tree) -> u8
    ensures { result ≡ tree_kind tree.now }
{
    match tree {
        Tree::Null => 1,
        Tree::Truth(_) => 2,
        Tree::Number(_) => 3,
        Tree::Text(_) => 4,
        Tree::List(_) => 5,
        Tree::Object(_) => 6,
    }
}

/// The order of two scalars of one kind; none of other values.
pub fn scalar_order(a: &Seen, b: &Seen) -> Option<Ordering>
    ensures { result ≡ (if are_of_one_kind a.now b.now && is_scalar a.now then Some (value_cmp a.now b.now) else None) }
{
    match (a.tree(), b.tree()) {
        (Some(a), Some(b)) => tree_order(a, b),
        _ => None,
    }
}

fn tree_order(a: &Tree, b: &Tree) -> Option<Ordering>
    ensures { result ≡ (if are_of_one_kind (Defined a.now) (Defined b.now) && is_scalar (Defined a.now) then Some (value_cmp (Defined a.now) (Defined b.now)) else None) }
{
    match (a, b) {
        (Tree::Null, Tree::Null) => Some(Ordering::Equal),
        (Tree::Truth(a), Tree::Truth(b)) => Some(a.cmp(b)),
        (Tree::Number(a), Tree::Number(b)) => Some(a.cmp(b)),
        (Tree::Text(a), Tree::Text(b)) => Some(a.as_str().cmp(b.as_str())),
        _ => None,
    }
}
