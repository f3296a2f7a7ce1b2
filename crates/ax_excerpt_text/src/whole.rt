//! Trees read whole.
ghost use Rattle.std.specs.Prelude.{◌≡◌, ◌≢◌, None, Some, Ok, IfOk, IfErr, IsErr, IfSome};
ghost use Rattle.ax_tree.specs.CanonicalText.{canonical_text};
ghost use Rattle.ax_tree.specs.WellFormed.{IsWellFormed};
ghost use Rattle.ax_tree.specs.declared.tree.Tree.{Tree as TreeOf};
ghost use Rattle.ax_skim.specs.Scalars.{scalar_tree};
ghost use Rattle.ax_excerpt_text.specs.Left.{IsReadable};
ghost use Rattle.ax_excerpt_text.specs.Wholes.{tree_read};

use ax_skim::{Scalar, read_scalar};
use ax_text::{TextFault, TreeReader};
use ax_tree::{Memory, Text, Tree};
use std::alloc::Global;
use std::str;

/// The tree that the bytes stand for as a JSON text, none of bytes that stand for none: a scalar of a
/// canonical text at once, anything else by the reader.
#[tactic(auto, using(crate::proofs::WholeLaws::read_so))]
pub(crate) fn read_whole(
    alloc: Global,
    reader: &mut TreeReader,
    text: &[u8],
) -> Result<Option<Tree>, Memory>
    ensures given { IfOk result (λ found. (tree : TreeOf) → text.now ≡ canonical_text tree
        → IsReadable tree → found ≡ Some tree) }
    ensures read { IfOk result (λ found. found ≡ tree_read text.now) }
{
    match read_at_once(alloc, text) {
        Ok(Some(tree)) => Ok(Some(tree)),
        Ok(None) => read_by_reader(alloc, reader, text),
        Err(memory) => Err(memory),
    }
}

/// The tree of a scalar's canonical text; none where it is not told at once.
fn read_at_once(alloc: Global, text: &[u8]) -> Result<Option<Tree>, Memory>
    ensures { IfOk result (λ found. IfSome found (λ tree. tree_read text.now ≡ Some tree)) }
{
    match read_scalar(text) {
        Some(scalar) => tree_of(alloc, &scalar),
        None => Ok(None),
    }
}

/// The tree that a scalar is; none of a text that is no UTF-8.
fn tree_of(alloc: Global, scalar: &Scalar) -> Result<Option<Tree>, Memory>
    ensures { IfOk result (λ found. IfSome found (λ tree.
        (tree ≡ scalar_tree scalar.now) × IsWellFormed tree)) }
{
    match *scalar {
        Scalar::Null => Ok(Some(Tree::Null)),
        Scalar::Truth(truth) => Ok(Some(Tree::Truth(truth))),
        Scalar::Number(number) => Ok(Some(Tree::Number(number))),
        Scalar::Text(bytes) => match str::from_utf8(bytes) {
            Ok(text) => {
                let text = String::from_str(alloc, text)?;
                Ok(Some(Tree::Text(Text::from_string(text))))
            }
            Err(_) => Ok(None),
        },
    }
}

/// The tree that the bytes stand for as a JSON text; none of bytes that stand for none.
fn read_by_reader(
    alloc: Global,
    reader: &mut TreeReader,
    text: &[u8],
) -> Result<Option<Tree>, Memory>
    ensures given { IfOk result (λ found. (tree : TreeOf) → text.now ≡ canonical_text tree
        → IsReadable tree → found ≡ Some tree) }
    ensures read { IfOk result (λ found. found ≡ tree_read text.now) }
{
    told(reader.read(alloc, text))
}

/// What the reader's answer tells of bytes: a tree, or none, whatever the cause; out of memory alone stays
/// an error.
fn told(read: Result<Tree, TextFault>) -> Result<Option<Tree>, Memory>
    ensures tree { IfOk read (λ tree. result ≡ Ok (Some tree)) }
    ensures none { IfErr read (λ fault. fault ≢ TextFault.Memory → result ≡ Ok None) }
    ensures memory { IfErr read (λ fault. fault ≡ TextFault.Memory → IsErr result) }
{
    match read {
        Ok(tree) => Ok(Some(tree)),
        Err(TextFault::Json) => Ok(None),
        Err(TextFault::Number) => Ok(None),
        Err(TextFault::Memory) => Err(Memory),
    }
}
