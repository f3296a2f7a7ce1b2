//! The pairs that a document has in the index.

ghost use Rattle.std.specs.Prelude.{◌≡◌, ◌∷◌, [], ◌++◌, IfOk, OnOk, IfSome, Some, ℕ, List};
ghost use Rattle.std.specs.Option.{option_copied};
ghost use Rattle.ax_tree.specs.Document.{IsDocument, document_id};
ghost use Rattle.ax_term.specs.TermBytes.{term_bytes};
ghost use Rattle.ax_term.specs.Terms.{Term};
ghost use Rattle.ax_keep.specs.Owned.{AreOwned, with_number};

use ax_mean::{Memory, Tree, id_of};
use ax_pair::{Bytes, Pair};
use ax_policy::Policy;
use ax_term::id_term;
use ax_terms::terms_of;
use std::alloc::Global;

/// The pairs of a document with that number under a policy, rising; none where there is no document.
#[tactic(auto, using(crate::proofs::Owning::no_pairs))]
pub(crate) fn pairs_of(
    alloc: Global,
    number: u32,
    under: &Policy,
    document: Option<&Tree>,
) -> Result<Vec<Pair>, Memory>
    requires { IfSome (option_copied document) IsDocument }
    ensures { IfOk result (λ pairs. AreOwned number under.now (option_copied document.entry) pairs.items) }
{
    match document {
        Some(document) => document_pairs(alloc, number, under, document),
        None => Ok(Vec::new(alloc)),
    }
}

/// The pairs of a document: that of its id stands before all others.
fn document_pairs(
    alloc: Global,
    number: u32,
    under: &Policy,
    document: &Tree,
) -> Result<Vec<Pair>, Memory>
    requires { IsDocument document.now }
    ensures { IfOk result (λ pairs. AreOwned number under.now (Some document.now) pairs.items) }
{
    let terms = terms_of(alloc, under, document)?;
    let mut pairs = Vec::with_capacity(alloc, terms.len() + 1)?;
    put_id(alloc, &mut pairs, number, document)?;
    put_terms(&mut pairs, number, terms)?;
    Ok(pairs)
}

/// Puts the pair of a document's id at the end.
pub(crate) fn put_id(
    alloc: Global,
    pairs: &mut Vec<Pair>,
    number: u32,
    document: &Tree,
) -> Result<(), Memory>
    requires { IsDocument document.now }
    ensures { (id : List ℕ) → document_id document.now ≡ Some id
        → OnOk result (pairs.new.items
        ≡ pairs.old.items ++ record { term = term_bytes (Term.Id id); number = number } ∷ []) }
{
    let Some(id) = id_of(document) else {
        unreachable!()
    };
    let term = id_term(alloc, id.as_str().as_bytes())?;
    let term = Bytes::from_vec(term);
    pairs.push(Pair { term, number })?;
    Ok(())
}

/// Puts terms, each with the number, at the end.
pub(crate) fn put_terms(pairs: &mut Vec<Pair>, number: u32, terms: Vec<Bytes>) -> Result<(), Memory>
    ensures { OnOk result (pairs.new.items ≡ pairs.old.items ++ with_number number terms.items) }
{
    for term in terms {
        pairs.push(Pair { term, number })?;
    }
    Ok(())
}
