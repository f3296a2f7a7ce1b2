//! The value of terms that a tree is.
ghost use Rattle.std.specs.Prelude.{◌≡◌, IfOk};
ghost use Rattle.std.specs.Option.{option_copied};
ghost use Rattle.ax_tree.specs.CanonicalText.{canonical_text};
ghost use Rattle.ax_mean.specs.Values.{of_tree};
ghost use Rattle.ax_mean.specs.declared.value.Value.TheVariants.{Defined};
ghost use Rattle.ax_term.specs.CutTexts.{cut};
ghost use Rattle.ax_term.specs.CutValues.{cut_of, cut_value};

use ax_mean::{Items, Memory, Tree, write_tree};
use ax_term::{Bytes, TermValue};
use std::alloc::Global;

/// How many bytes tell of a text what a term keeps of it.
const TELLING: usize = 129;

/// The value of terms that a tree is: a list or a map is its canonical text.
pub(crate) fn term_value(alloc: Global, tree: &Tree) -> Result<TermValue, Memory>
    ensures { IfOk result (λ value. cut_value value ≡ cut_of (Defined tree.now)) }
{
    match tree {
        Tree::Null => Ok(TermValue::Null),
        Tree::Truth(true) => Ok(TermValue::True),
        Tree::Truth(false) => Ok(TermValue::False),
        Tree::Number(number) => Ok(TermValue::Number(*number)),
        Tree::Text(text) => Ok(TermValue::Text(front(alloc, text.as_str().as_bytes())?)),
        Tree::List(_) => Ok(TermValue::List(canonical_front(alloc, tree)?)),
        Tree::Object(_) => Ok(TermValue::Object(canonical_front(alloc, tree)?)),
    }
}

/// The value of terms that a tree is, and undefined where there is none.
pub(crate) fn value_or_undefined(alloc: Global, tree: Option<&Tree>) -> Result<TermValue, Memory>
    ensures { IfOk result (λ value. cut_value value ≡ cut_of (of_tree (option_copied tree.entry))) }
{
    match tree {
        Some(tree) => term_value(alloc, tree),
        None => Ok(TermValue::Undefined),
    }
}

/// As much of a text as tells what a term keeps of it.
#[tactic(auto, using(crate::proofs::Telling::telling_front))]
fn front(alloc: Global, text: &[u8]) -> Result<Bytes, Memory>
    ensures { IfOk result (λ front. cut front ≡ cut text.now) }
{
    let (front, _) = text.split_at(TELLING.min(text.len()));
    Ok(Items::from_vec(Vec::from_slice(alloc, front)?))
}

/// As much of the canonical text of a tree as tells what a term keeps of it.
#[tactic(auto, using(crate::proofs::Telling::telling))]
fn canonical_front(alloc: Global, tree: &Tree) -> Result<Bytes, Memory>
    ensures { IfOk result (λ front. cut front ≡ cut (canonical_text tree.now)) }
{
    let mut text = write_tree(alloc, tree)?;
    text.truncate(TELLING);
    Ok(Items::from_vec(text))
}
