//! Policies, from trees.
ghost use Rattle.std.specs.Prelude.{◌≡◌, codes, length, nat_le, IfOk};
ghost use Rattle.ax_tree.specs.Document.{member as member_of};
ghost use Rattle.ax_policy.specs.Limits.{most_policy_bytes};
ghost use Rattle.ax_policy.specs.Normal.{normal_text};
ghost use Rattle.ax_policy.specs.Policies as spec;

use crate::composites::composites_in;
use crate::members::list_in;
use crate::mode::Mode;
use crate::policy::{CompositeList, Policy};
use crate::policy_fault::PolicyFault;
use crate::read_rules::rules_in;
use crate::rules::Rules;
use ax_mean::{Memory, Text, Tree};
use std::alloc::Global;

/// The most bytes of the normal text of a policy.
const MOST_POLICY_BYTES: usize = 60_000;

/// The indexing policy that a tree is, as in Azure Cosmos DB for NoSQL. A member that is absent has
/// its default, and one that is not known is ignored. `PolicyFault::Refused` exactly where the tree
/// is no policy.
pub fn read_policy(alloc: Global, tree: &Tree) -> Result<Policy, PolicyFault>
    ensures policy { IfOk result (λ policy. spec.policy_of tree.now ≡ Some policy) }
    ensures refused { result ≡ Err PolicyFault.Refused → spec.policy_of tree.now ≡ None }
{
    match policy_of(alloc, tree) {
        Ok(Some(policy)) => Ok(policy),
        Ok(None) => Err(PolicyFault::Refused),
        Err(_) => Err(PolicyFault::Memory),
    }
}

fn policy_of(alloc: Global, tree: &Tree) -> Result<Option<Policy>, Memory>
    ensures { IfOk result (λ policy. policy ≡ spec.policy_of tree.now) }
{
    if !is_map(tree) || !has_no_others(tree) {
        return Ok(None);
    }
    policy_in(alloc, tree)
}

fn policy_in(alloc: Global, tree: &Tree) -> Result<Option<Policy>, Memory>
    ensures { IfOk result (λ policy. policy ≡ spec.policy_in tree.now) }
{
    let Some(mode) = mode_of(tree) else {
        return Ok(None);
    };
    let Some(automatic) = truth_of(tree) else {
        return Ok(None);
    };
    policy_with(alloc, tree, mode, automatic)
}

/// The policy of a map with this mode and this value of `automatic`.
fn policy_with(
    alloc: Global,
    tree: &Tree,
    mode: Mode,
    automatic: bool,
) -> Result<Option<Policy>, Memory>
    ensures { IfOk result (λ policy. policy ≡ spec.policy_with tree.now mode automatic) }
{
    let Some(rules) = rules_in(alloc, tree, mode)? else {
        return Ok(None);
    };
    match composites_in(alloc, tree) {
        Ok(Some(composites)) => policy_from(alloc, mode, automatic, rules, composites),
        Ok(None) => {
            drop(rules);
            Ok(None)
        }
        Err(fault) => {
            drop(rules);
            Err(fault)
        }
    }
}

fn policy_from(
    alloc: Global,
    mode: Mode,
    automatic: bool,
    rules: Rules,
    composites: CompositeList,
) -> Result<Option<Policy>, Memory>
    ensures { IfOk result (λ policy. policy ≡ spec.if_short_text
        (record { mode = mode; automatic = automatic; rules = rules; composites = composites })) }
{
    if_short_text(
        alloc,
        Policy {
            mode,
            automatic,
            rules,
            composites,
        },
    )
}

/// The policy, unless its normal text is too long.
fn if_short_text(alloc: Global, policy: Policy) -> Result<Option<Policy>, Memory>
    ensures { IfOk result (λ short. short ≡ spec.if_short_text policy) }
{
    match is_short(alloc, &policy) {
        Ok(true) => Ok(Some(policy)),
        Ok(false) => {
            drop(policy);
            Ok(None)
        }
        Err(fault) => {
            drop(policy);
            Err(fault)
        }
    }
}

fn is_short(alloc: Global, policy: &Policy) -> Result<bool, Memory>
    ensures { IfOk result (λ short. short ≡ nat_le (length (normal_text policy.now)) most_policy_bytes) }
{
    let text = policy.normal(alloc)?;
    Ok(text.len() <= MOST_POLICY_BYTES)
}

fn is_map(tree: &Tree) -> bool
    ensures { result ≡ spec.is_map tree.now }
{
    match tree {
        Tree::Object(_) => true,
        _ => false,
    }
}

/// Whether no kind of index is asked for that there is not here.
fn has_no_others(tree: &Tree) -> bool
    ensures { result ≡ spec.has_no_others tree.now }
{
    is_unused(tree, "spatialIndexes")
        && is_unused(tree, "vectorIndexes")
        && is_unused(tree, "fullTextIndexes")
}

/// Whether the member is absent or the empty list.
fn is_unused(tree: &Tree, name: &str) -> bool
    ensures { result ≡ spec.is_unused (member_of name.now tree.now) }
{
    match tree.member(name) {
        Some(value) => is_empty_list(value),
        None => true,
    }
}

fn is_empty_list(tree: &Tree) -> bool
    ensures { result ≡ spec.is_unused (Some tree.now) }
{
    match list_in(tree) {
        Some(items) => items.is_empty(),
        None => false,
    }
}

fn mode_of(tree: &Tree) -> Option<Mode>
    ensures { result ≡ spec.mode_of (member_of (codes "indexingMode") tree.now) }
{
    match tree.member("indexingMode") {
        Some(mode) => mode_in(mode.as_text()?),
        None => Some(Mode::Consistent),
    }
}

fn mode_in(word: &Text) -> Option<Mode>
    ensures { result ≡ spec.mode_in word.now }
{
    let word = word.as_str();
    if word.eq_ignore_ascii_case("consistent") {
        return Some(Mode::Consistent);
    }
    if word.eq_ignore_ascii_case("none") {
        return Some(Mode::None);
    }
    None
}

fn truth_of(tree: &Tree) -> Option<bool>
    ensures { result ≡ spec.truth_of (member_of (codes "automatic") tree.now) }
{
    match tree.member("automatic") {
        Some(value) => truth_in(value),
        None => Some(true),
    }
}

fn truth_in(tree: &Tree) -> Option<bool>
    ensures { result ≡ spec.truth_of (Some tree.now) }
{
    match tree {
        Tree::Truth(value) => Some(*value),
        _ => None,
    }
}
