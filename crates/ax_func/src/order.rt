ghost use Rattle.std.specs.Prelude.{◌≡◌, IfOk};
ghost use Rattle.std.specs.Ordering.{nat_cmp};
ghost use Rattle.std.specs.Cmp.Lexicographic.{slice_cmp};
ghost use Rattle.ax_mean.specs.CanonicalText.{canonical_text};
ghost use Rattle.ax_mean.specs.ValueOrder.{value_cmp, tree_rank};
ghost use Rattle.ax_mean.specs.declared.value.Value.TheVariants.{Defined};

use crate::out_of_memory::Memory;
use ax_mean::{Tree, Value, write_tree};
use std::alloc::Global;
use std::cmp::Ordering;

/// How two values stand in the order of values: undefined, null, false, true, numbers, texts by
/// their bytes, lists and then maps by the bytes of their canonical texts.
pub fn compare(alloc: Global, a: &Value, b: &Value) -> Result<Ordering, Memory>
    ensures { IfOk result (λ order. order ≡ value_cmp a.now b.now) }
{
    // Only lists and maps take memory.
    match a {
        Value::Undefined => match b {
            Value::Undefined => Ok(Ordering::Equal),
            Value::Defined(_) => Ok(Ordering::Less),
        },
        Value::Defined(a) => match b {
            Value::Undefined => Ok(Ordering::Greater),
            Value::Defined(b) => compare_trees(alloc, a, b),
        },
    }
}

fn compare_trees(alloc: Global, a: &Tree, b: &Tree) -> Result<Ordering, Memory>
    ensures { IfOk result (λ order. order ≡ value_cmp (Defined a.now) (Defined b.now)) }
{
    match (a, b) {
        (Tree::Number(a), Tree::Number(b)) => Ok(a.cmp(b)),
        (Tree::Text(a), Tree::Text(b)) => Ok(a.as_str().cmp(b.as_str())),
        (Tree::List(_), Tree::List(_)) => compare_texts(alloc, a, b),
        (Tree::Object(_), Tree::Object(_)) => compare_texts(alloc, a, b),
        _ => Ok(rank(a).cmp(&rank(b))),
    }
}

fn compare_texts(alloc: Global, a: &Tree, b: &Tree) -> Result<Ordering, Memory>
    ensures { IfOk result (λ order. order ≡ slice_cmp nat_cmp (canonical_text a.now) (canonical_text b.now)) }
{
    let a = write_tree(alloc, a)?;
    let b = write_tree(alloc, b)?;
    Ok(a.as_slice().cmp(b.as_slice()))
}

/// Where the tree's kind stands in the order.
fn rank(tree: &Tree) -> u8
    ensures { result ≡ tree_rank tree.now }
{
    match tree {
        Tree::Null => 1,
        Tree::Truth(false) => 2,
        Tree::Truth(true) => 3,
        Tree::Number(_) => 4,
        Tree::Text(_) => 5,
        Tree::List(_) => 6,
        Tree::Object(_) => 7,
    }
}
