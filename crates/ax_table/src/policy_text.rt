//! The texts of the policies that a store has.

ghost use Rattle.std.specs.Prelude.{◌≡◌, true, Err, Some, None, IfOk};
ghost use Rattle.ax_tree.specs.CanonicalText.{canonical_text};
ghost use Rattle.ax_tree.specs.WellFormed.{IsWellFormed};
ghost use Rattle.ax_policy.specs.declared.policy.Policy.{Policy as PolicyOf};
ghost use Rattle.ax_policy.specs.Normal.{normal_text};
ghost use Rattle.ax_policy.specs.Policies.{policy_of};
ghost use Rattle.ax_image_grammar.specs.Payloads.{IsTextOf};

use ax_policy::{Policy, PolicyFault, read_policy};
use ax_text::laws::canonical_text_reads_back;
use ax_text::{TextFault, read_tree};
use ax_tree::{Memory, Tree, write_tree};
use std::alloc::Global;

/// Why bytes were not read as the normal text of a policy.
#[derive(Clone, Copy, Debug, PartialEq, Eq)]
pub enum PolicyTextFault {
    /// They are the normal text of no policy.
    Outside,
    /// Out of memory.
    Memory,
}

/// The policy whose normal text these bytes are. `PolicyTextFault::Outside` only where they are that of none.
pub fn read_policy_text(alloc: Global, text: &[u8]) -> Result<Policy, PolicyTextFault>
    ensures policy { IfOk result (IsTextOf text.now) }
    ensures outside { result ≡ Err PolicyTextFault.Outside → (policy : PolicyOf) → IsTextOf text.now policy → ⊥ }
{
    let tree = tree_in(alloc, text)?;
    let policy = match policy_in(alloc, &tree) {
        Ok(policy) => policy,
        Err(fault) => {
            drop(tree);
            return Err(fault);
        }
    };
    drop(tree);
    match is_normal(alloc, &policy, text) {
        Ok(true) => Ok(policy),
        Ok(false) => {
            drop(policy);
            Err(PolicyTextFault::Outside)
        }
        Err(_) => {
            drop(policy);
            Err(PolicyTextFault::Memory)
        }
    }
}

/// The tree whose canonical text this is.
fn tree_in(alloc: Global, text: &[u8]) -> Result<Tree, PolicyTextFault>
    ensures well_formed { IfOk result IsWellFormed }
    ensures spelled { IfOk result (λ tree. text.now ≡ canonical_text tree) }
    ensures outside { result ≡ Err PolicyTextFault.Outside → (policy : PolicyOf) → IsTextOf text.now policy → ⊥ }
{
    canonical_text_reads_back();
    let tree = match read_tree(alloc, text) {
        Ok(tree) => tree,
        Err(TextFault::Json) => return Err(PolicyTextFault::Outside),
        Err(TextFault::Number) => return Err(PolicyTextFault::Outside),
        Err(TextFault::Memory) => return Err(PolicyTextFault::Memory),
    };
    match is_spelled(alloc, &tree, text) {
        Ok(true) => Ok(tree),
        Ok(false) => {
            drop(tree);
            Err(PolicyTextFault::Outside)
        }
        Err(_) => {
            drop(tree);
            Err(PolicyTextFault::Memory)
        }
    }
}

/// Whether this is the canonical text of the tree.
fn is_spelled(alloc: Global, tree: &Tree, text: &[u8]) -> Result<bool, Memory>
    ensures yes { IfOk result (λ yes. yes ≡ true → text.now ≡ canonical_text tree.now) }
    ensures no { IfOk result (λ yes. text.now ≡ canonical_text tree.now → yes ≡ true) }
{
    let canonical = write_tree(alloc, tree)?;
    Ok(canonical.as_slice() == text)
}

/// The policy that a tree is.
fn policy_in(alloc: Global, tree: &Tree) -> Result<Policy, PolicyTextFault>
    ensures policy { IfOk result (λ policy. policy_of tree.now ≡ Some policy) }
    ensures outside { result ≡ Err PolicyTextFault.Outside → policy_of tree.now ≡ None }
{
    match read_policy(alloc, tree) {
        Ok(policy) => Ok(policy),
        Err(PolicyFault::Refused) => Err(PolicyTextFault::Outside),
        Err(PolicyFault::Memory) => Err(PolicyTextFault::Memory),
    }
}

/// Whether this is the normal text of the policy.
fn is_normal(alloc: Global, policy: &Policy, text: &[u8]) -> Result<bool, Memory>
    ensures yes { IfOk result (λ yes. yes ≡ true → text.now ≡ normal_text policy.now) }
    ensures no { IfOk result (λ yes. text.now ≡ normal_text policy.now → yes ≡ true) }
{
    let normal = policy.normal(alloc)?;
    Ok(normal.as_slice() == text)
}
