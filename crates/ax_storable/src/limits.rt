//! Whether a store can hold a document.

ghost use Rattle.std.specs.Prelude.{◌≡◌, true, false, nat_lt, IfOk, Err};
ghost use Rattle.ax_tree.specs.Nesting.{nesting as nesting_of};
ghost use Rattle.ax_tree.specs.WellFormed.{IsWellFormed};
ghost use Rattle.ax_storable.specs.IndexLimits.{fits_index};
ghost use Rattle.ax_storable.specs.Storable as spec;
ghost use Rattle.ax_storable.specs.Storable.{IsStorable};

use crate::short_names::has_short_names;
use ax_terms::{TermCount, count_all};
use ax_text::nesting;
use ax_tree::{Memory, Tree, id_of, write_tree};
use std::alloc::Global;

/// The deepest that a document may nest.
const DEEPEST: u32 = 100;

/// The most bytes that the canonical text of a document has.
const MOST_BYTES: usize = 60_000;

/// The most bytes that the encoded path of a leaf of a document has, its end with them.
const MOST_PATH_BYTES: u64 = 1_024;

/// The most terms that a document has where all its leaves are covered, each counted once.
const MOST_TERMS: u64 = 4_096;

/// The most bytes that all these terms have.
const MOST_TERM_BYTES: u64 = 1_048_576;

/// Why a store can't hold a tree as a document.
#[derive(Clone, Copy, Debug, PartialEq, Eq)]
pub enum Unstorable {
    /// It is no map, or has no text member `id` that may be an id.
    Id,
    /// It nests deeper than 100, a member name has more than 255 bytes, the canonical text more than 60,000,
    /// or the encoded path of a leaf more than 1,024; or it has more than 4,096 terms, or these more than
    /// 1,048,576 bytes.
    Large,
    /// Out of memory.
    Memory,
}

/// Whether a store can hold the tree as a document, or why it can't: `Large` of one that has an id.
pub fn storable(alloc: Global, tree: &Tree) -> Result<(), Unstorable>
    requires { IsWellFormed tree.now }
    ensures storable { IfOk result (λ _. IsStorable tree.now) }
    ensures id { result ≡ Err Unstorable.Id → spec.has_no_id tree.now ≡ true }
    ensures large { result ≡ Err Unstorable.Large → (spec.has_no_id tree.now ≡ false) × (spec.is_too_large tree.now ≡ true) }
{
    if id_of(tree).is_none() {
        return Err(Unstorable::Id);
    }
    if is_too_deep(tree) {
        return Err(Unstorable::Large);
    }
    if !has_short_names(tree) {
        return Err(Unstorable::Large);
    }
    let Ok(text) = write_tree(alloc, tree) else {
        return Err(Unstorable::Memory);
    };
    if text.len() > MOST_BYTES {
        return Err(Unstorable::Large);
    }
    drop(text);
    match has_room_in_index(alloc, tree) {
        Ok(true) => Ok(()),
        Ok(false) => Err(Unstorable::Large),
        Err(_) => Err(Unstorable::Memory),
    }
}

/// Whether the index can hold the document: its paths are short, and its terms few and small.
fn has_room_in_index(alloc: Global, tree: &Tree) -> Result<bool, Memory>
    ensures { IfOk result (λ fits. fits ≡ fits_index tree.now) }
{
    let TermCount {
        count,
        bytes,
        longest_path,
    } = count_all(alloc, tree)?;
    Ok(longest_path <= MOST_PATH_BYTES && count <= MOST_TERMS && bytes <= MOST_TERM_BYTES)
}

/// Whether a tree nests deeper than a document may.
pub fn is_too_deep(tree: &Tree) -> bool
    ensures { result ≡ nat_lt spec.deepest (nesting_of tree.now) }
{
    nesting(tree) > DEEPEST
}
