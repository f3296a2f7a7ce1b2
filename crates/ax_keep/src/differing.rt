//! The pairs by which two documents with one number differ under one policy.

ghost use Rattle.std.specs.Prelude.{◌≡◌, ◌++◌, true, IfOk, OnOk, Some, ℕ, List};
ghost use Rattle.ax_tree.specs.Document.{IsDocument, document_id};
ghost use Rattle.ax_keep.specs.Different.{AreDifferent, id_pairs};
ghost use Rattle.ax_keep.specs.Owned.{with_number};

use crate::owned::{put_id, put_terms};
use ax_mean::{Memory, Tree, id_of};
use ax_pair::{Bytes, Pair};
use ax_policy::Policy;
use ax_terms::differing_terms;
use std::alloc::Global;

/// Pairs of the old document and pairs of the new one, each rising; what is in neither list is in the
/// index for both documents or for none.
pub(crate) fn differing_pairs(
    alloc: Global,
    number: u32,
    under: &Policy,
    old: &Tree,
    new: &Tree,
) -> Result<(Vec<Pair>, Vec<Pair>), Memory>
    requires old { IsDocument old.now }
    requires new { IsDocument new.now }
    ensures { IfOk result (λ both.
        AreDifferent number under.now old.now new.now both.0.items both.1.items) }
{
    let (gone, come) = differing_terms(alloc, under, old, new)?;
    let same = have_one_id(old, new);
    let before = pairs_beside(alloc, number, old, same, gone)?;
    let after = pairs_beside(alloc, number, new, same, come)?;
    Ok((before, after))
}

/// Whether the two documents have one id.
fn have_one_id(old: &Tree, new: &Tree) -> bool
    ensures told { result ≡ true → document_id old.now ≡ document_id new.now }
    ensures same { (id : List ℕ) → document_id old.now ≡ Some id → document_id new.now ≡ Some id → result ≡ true }
{
    match id_of(old) {
        Some(old) => match id_of(new) {
            Some(new) => old.as_str() == new.as_str(),
            None => false,
        },
        None => false,
    }
}

/// The pairs of terms of a document, behind that of its id, unless this is left out.
fn pairs_beside(
    alloc: Global,
    number: u32,
    document: &Tree,
    without_id: bool,
    terms: Vec<Bytes>,
) -> Result<Vec<Pair>, Memory>
    requires { IsDocument document.now }
    ensures { (id : List ℕ) → document_id document.now ≡ Some id → IfOk result (λ pairs.
        pairs.items ≡ id_pairs without_id id number ++ with_number number terms.items) }
{
    let mut pairs = Vec::with_capacity(alloc, terms.len() + 1)?;
    put_id_unless(alloc, &mut pairs, number, document, without_id)?;
    put_terms(&mut pairs, number, terms)?;
    Ok(pairs)
}

/// Puts the pair of a document's id at the end, unless it is left out.
fn put_id_unless(
    alloc: Global,
    pairs: &mut Vec<Pair>,
    number: u32,
    document: &Tree,
    without_id: bool,
) -> Result<(), Memory>
    requires { IsDocument document.now }
    ensures { (id : List ℕ) → document_id document.now ≡ Some id
        → OnOk result (pairs.new.items ≡ pairs.old.items ++ id_pairs without_id id number) }
{
    if without_id {
        return Ok(());
    }
    put_id(alloc, pairs, number, document)
}
