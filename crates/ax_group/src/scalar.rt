//! Values that are neither lists nor maps, which compare without memory.
ghost use Rattle.std.specs.Prelude.{◌≡◌, false};
ghost use Rattle.std.specs.Ordering.{is_lt};
ghost use Rattle.ax_mean.specs.ValueOrder.{value_cmp, tree_rank};
ghost use Rattle.ax_mean.specs.declared.value.Value.TheVariants.{Defined};
ghost use Rattle.ax_result.specs.Totals.{is_composed as composed_value};

use ax_mean::Tree;
use std::cmp::Ordering;

/// Whether the tree is a list or a map.
pub fn is_composed(tree: &Tree) -> bool
    ensures { result ≡ composed_value (Defined tree.now) }
{
    matches!(tree, Tree::List(_) | Tree::Object(_))
}

/// How a tree that is neither a list nor a map stands to another.
pub fn compare_scalar(a: &Tree, b: &Tree) -> Ordering
    requires { composed_value (Defined a.now) ≡ false }
    ensures { result ≡ value_cmp (Defined a.now) (Defined b.now) }
{
    match (a, b) {
        (Tree::Number(a), Tree::Number(b)) => a.cmp(b),
        (Tree::Text(a), Tree::Text(b)) => a.as_str().cmp(b.as_str()),
        _ => rank(a).cmp(&rank(b)),
    }
}

/// Whether a tree that is neither a list nor a map is above another.
pub fn is_above(a: &Tree, b: &Tree) -> bool
    requires { composed_value (Defined a.now) ≡ false }
    ensures { result ≡ is_lt (value_cmp (Defined b.now) (Defined a.now)) }
{
    compare_scalar(a, b).is_gt()
}

/// Where the tree's kind stands in the order.
fn rank(tree: &Tree) -> u8
    ensures { result ≡ tree_rank tree.now }
{
    match tree {
        Tree::Null => 1,
        Tree::Truth(false) => 2,
        Tree::Truth(true) => 3,
        Tree::Number(_) => 4,
        Tree::Text(_) => 5,
        Tree::List(_) => 6,
        Tree::Object(_) => 7,
    }
}
