ghost use Rattle.std.specs.Prelude.{◌≡◌, true, IfOk, Some};
ghost use Rattle.ax_tree.specs.Names.{HaveRisingNames};
ghost use Rattle.ax_policy.specs.RuleTrees.{IsTreeOf, IsWith, TextAdded};
ghost use Rattle.ax_policy.specs.Written.{are_written, is_written};

use crate::read_path::rule_path;
use crate::rule_path::RulePath;
use crate::rule_tree::RuleTree;
use crate::with_rule::with_rule;
use ax_mean::{Member, Members, Memory};
use std::alloc::Global;
use std::marker::Model;

/// The rules of a policy: under the text of each path whether it is included. The texts rise by
/// bytes, and each is that of a path, with every name quoted.
#[derive(Debug, Drop)]
pub(crate) struct Rules {
    rules: Members<bool>,
    /// The same as a tree, for walks down documents.
    tree: RuleTree,
}

impl Model for Rules {
    ghost use Rattle.std.specs.Prelude.{◌≡◌, ℕ, List, Bool, true, Some, refl};
    ghost use Rattle.std.specs.Coded.{code_by, coded_list, coded×, coded_ℕ, coded_bool};
    ghost use Rattle.ax_tree.specs.declared.members.Member.{Member};
    ghost use Rattle.ax_policy.specs.RuleTrees.{IsTreeOf};
    ghost use Rattle.ax_policy.specs.Written.{are_written};

    ghost Value = { List (Member Bool) };

    ghost coded = { coded_list (code_by (List ℕ × Bool) (coded× (coded_list coded_ℕ) coded_bool) (λ m. (m.name, m.value)) (λ p. record { name = p.0; value = p.1 }) (λ _. refl)) };

    ghost view = { λ r. r.rules };

    ghost invariant = { λ r. (are_written r.rules ≡ true) × IsTreeOf (Some r.tree) r.rules };
}

impl Rules {
    pub(crate) fn from_members(alloc: Global, rules: Members<bool>) -> Result<Rules, Memory>
        requires { are_written rules ≡ true }
        ensures { IfOk result (λ made. made ≡ rules) }
    {
        match tree_of(alloc, rules.as_slice()) {
            Ok(tree) => Ok(Rules { rules, tree }),
            Err(fault) => {
                drop(rules);
                Err(fault)
            }
        }
    }

    pub(crate) fn as_slice(&self) -> &[Member<bool>]
        ensures rules { result.now ≡ self.now }
        ensures rising { HaveRisingNames result.now }
        ensures written { are_written result.now ≡ true }
    {
        self.rules.as_slice()
    }

    pub(crate) fn tree(&self) -> &RuleTree
        ensures { IsTreeOf (Some result.now) self.now }
    {
        &self.tree
    }
}

/// The rules as a tree.
fn tree_of(alloc: Global, rules: &[Member<bool>]) -> Result<RuleTree, Memory>
    requires { are_written rules.now ≡ true }
    ensures { IfOk result (λ tree. IsTreeOf (Some tree) rules.now) }
{
    let mut tree = RuleTree::new(alloc);
    for rule in rules {
        tree = with_text(alloc, tree, rule.name.as_str(), rule.value)?;
    }
    Ok(tree)
}

/// The tree with the rule of that text.
fn with_text(alloc: Global, tree: RuleTree, text: &str, included: bool) -> Result<RuleTree, Memory>
    requires { is_written text.now ≡ true }
    ensures { IfOk result (λ more. TextAdded (Some tree) text.now included (Some more)) }
{
    match rule_path(alloc, text) {
        Ok(Some(path)) => with_path(alloc, tree, &path, included),
        Ok(None) => Ok(tree),
        Err(fault) => {
            drop(tree);
            Err(fault)
        }
    }
}

/// The tree with the rule of that path.
fn with_path(
    alloc: Global,
    tree: RuleTree,
    path: &RulePath,
    included: bool,
) -> Result<RuleTree, Memory>
    ensures { IfOk result (λ more. IsWith (Some tree) path.now included (Some more)) }
{
    with_rule(alloc, tree, path.steps.as_slice(), path.all, included)
}
