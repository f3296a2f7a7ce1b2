//! The terms of a document.
ghost use Rattle.std.specs.Prelude.{◌≡◌, ◌↔◌, ℕ, List, true, IfOk};
ghost use Rattle.std.specs.List.{Contains};
ghost use Rattle.ax_tree.specs.Rising.{is_rising};
ghost use Rattle.ax_terms.specs.TermsOf.{AreTermsOf, HasPlain, HasTerm};
ghost use Rattle.ax_tree.specs.declared.tree.Tree.{Tree};
ghost use Rattle.ax_policy.specs.declared.policy.Policy.{Policy};

use crate::composites::append_composites;
use crate::in_order::put_in_order;
use crate::plain::append_leaves;
use ax_mean::{Memory, Tree};
use ax_policy::Policy;
use ax_term::Bytes;
use std::alloc::Global;

/// What the term of a leaf begins with.
pub(crate) const PLAIN: u8 = 0x02;

/// The terms of a document under a policy, rising by bytes, without repeats: one for each leaf that
/// is covered, and one for each composite that is offered. The term of its id is not among them.
pub fn terms_of(alloc: Global, policy: &Policy, tree: &Tree) -> Result<Vec<Bytes>, Memory>
    ensures rising { IfOk result (λ terms. is_rising terms.items ≡ true) }
    ensures exact { IfOk result (λ terms. (bytes : List ℕ)
        → Contains terms.items bytes ↔ HasTerm policy.now tree.now bytes) }
{
    in_order_once(alloc, policy, tree)
}

/// The same, as a fact with a name.
fn in_order_once(alloc: Global, policy: &Policy, tree: &Tree) -> Result<Vec<Bytes>, Memory>
    ensures rising { IfOk result (λ terms. is_rising terms.items ≡ true) }
    ensures exact { IfOk result (λ terms. AreTermsOf policy.now tree.now terms.items) }
{
    let mut terms = all_terms(alloc, policy, tree)?;
    put_once(&mut terms);
    Ok(terms)
}

/// Puts the terms in the order of their bytes, each once, so that they are those of the documents that
/// they were of.
fn put_once(terms: &mut Vec<Bytes>)
    ensures rising { is_rising terms.new.items ≡ true }
    ensures exact { (policy : Policy) (given : Tree)
        → AreTermsOf policy given terms.old.items → AreTermsOf policy given terms.new.items }
{
    put_in_order(terms);
}

/// The same in any order, some of them perhaps twice.
fn all_terms(alloc: Global, policy: &Policy, tree: &Tree) -> Result<Vec<Bytes>, Memory>
    ensures { IfOk result (λ terms. AreTermsOf policy.now tree.now terms.items) }
{
    let mut terms = plain_terms(alloc, policy, tree)?;
    append_composites(alloc, policy, tree, &mut terms)?;
    Ok(terms)
}

/// The terms of the leaves that are covered, as the leaves stand.
fn plain_terms(alloc: Global, policy: &Policy, tree: &Tree) -> Result<Vec<Bytes>, Memory>
    ensures { IfOk result (λ terms. (bytes : List ℕ)
        → Contains terms.items bytes ↔ HasPlain policy.now tree.now bytes) }
{
    let mut terms = Vec::new(alloc);
    let mut front = Vec::new(alloc);
    front.push(PLAIN)?;
    append_leaves(alloc, &mut terms, &mut front, policy.walk(), tree)?;
    Ok(terms)
}
