//! The texts of the documents that a store holds.

ghost use Rattle.std.specs.Prelude.{◌≡◌, ◌≢◌, true, Err, IfOk};
ghost use Rattle.ax_tree.specs.declared.tree.Tree.{Tree as TreeOf};
ghost use Rattle.ax_tree.specs.CanonicalText.{canonical_text};
ghost use Rattle.ax_tree.specs.WellFormed.{IsWellFormed};
ghost use Rattle.ax_storable.specs.StoredTexts.{IsStoredText};

use crate::limits::{Unstorable, storable};
use ax_text::laws::canonical_text_reads_back;
use ax_text::{TextFault, read_tree};
use ax_tree::{Memory, Tree, write_tree};
use std::alloc::Global;

/// Why bytes were not read as the text of a document.
#[derive(Clone, Copy, Debug, PartialEq, Eq)]
pub enum DocumentFault {
    /// They are the text of no document that a store can hold: no canonical text of one, or too large.
    Outside,
    /// Out of memory.
    Memory,
}

/// The document whose text a store holds.
pub fn read_document(alloc: Global, text: &[u8]) -> Result<Tree, DocumentFault>
    ensures document { IfOk result (IsStoredText text.now) }
    ensures outside { result ≡ Err DocumentFault.Outside → (tree : TreeOf) → IsStoredText text.now tree → ⊥ }
{
    let tree = tree_in(alloc, text)?;
    match storable(alloc, &tree) {
        Ok(()) => Ok(tree),
        Err(fault) => {
            drop(tree);
            Err(outside_unless_memory(fault))
        }
    }
}

/// The tree whose canonical text this is.
fn tree_in(alloc: Global, text: &[u8]) -> Result<Tree, DocumentFault>
    ensures well_formed { IfOk result IsWellFormed }
    ensures spelled { IfOk result (λ tree. text.now ≡ canonical_text tree) }
    ensures outside { result ≡ Err DocumentFault.Outside → (tree : TreeOf) → IsStoredText text.now tree → ⊥ }
{
    canonical_text_reads_back();
    let tree = match read_tree(alloc, text) {
        Ok(tree) => tree,
        Err(TextFault::Memory) => return Err(DocumentFault::Memory),
        Err(_) => return Err(DocumentFault::Outside),
    };
    match is_spelled(alloc, &tree, text) {
        Ok(true) => Ok(tree),
        Ok(false) => {
            drop(tree);
            Err(DocumentFault::Outside)
        }
        Err(_) => {
            drop(tree);
            Err(DocumentFault::Memory)
        }
    }
}

/// Whether this is the canonical text of the tree.
fn is_spelled(alloc: Global, tree: &Tree, text: &[u8]) -> Result<bool, Memory>
    ensures yes { IfOk result (λ yes. yes ≡ true → text.now ≡ canonical_text tree.now) }
    ensures no { IfOk result (λ yes. text.now ≡ canonical_text tree.now → yes ≡ true) }
{
    let canonical = write_tree(alloc, tree)?;
    Ok(canonical.as_slice() == text)
}

/// A document that a store can't hold is outside.
fn outside_unless_memory(fault: Unstorable) -> DocumentFault
    ensures { result ≡ DocumentFault.Outside → fault ≢ Unstorable.Memory }
{
    match fault {
        Unstorable::Id | Unstorable::Large => DocumentFault::Outside,
        Unstorable::Memory => DocumentFault::Memory,
    }
}
