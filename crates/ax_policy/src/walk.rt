//! A walk down a document beside the rules of a policy: each step goes from the rules that are left to
//! those that go on with it, so that what is decided on a leaf costs what its last step costs.
ghost use Rattle.std.specs.Prelude.{◌≡◌, ◌↔◌, [], ◌∷◌, ◌++◌, ◌&&◌, List, Bool, IsTrue, Some, option_map, false, true, length};
ghost use Rattle.std.specs.Option.{unwrap_or};
ghost use Rattle.ax_mean.specs.declared.query.Step.{Step};
ghost use Rattle.ax_mean.specs.declared.query.Step.TheVariants.{Name, Item};
ghost use Rattle.ax_policy.specs.declared.policy.Policy.{Policy};
ghost use Rattle.ax_policy.specs.Covering.{Covers, indexes as does_index};
ghost use Rattle.ax_policy.specs.Deciding as spec;
ghost use Rattle.ax_policy.specs.Paths.{either};
ghost use Rattle.ax_policy.specs.RuleTrees.{says};
ghost use Rattle.ax_policy.specs.Walking.{IsAt, rules_at, StepsTo};

use crate::policy::Policy;
use crate::rule_tree::RuleTree;
use ax_mean::Step;

/// Where a walk down a document stands among the rules of a policy.
#[derive(Clone, Copy)]
pub struct RuleWalk<'a> {
    /// Whether the policy indexes at all.
    on: bool,
    /// What the longest rule with `/*` on the way here says.
    decided: Option<bool>,
    /// The rules whose paths begin with that of the walk; `None` where there is none.
    rules: Option<&'a RuleTree>,
}

impl Policy {
    /// A walk from the top of a document.
    pub fn walk(&self) -> RuleWalk<'_>
        ensures { IsAt result self.now [] }
    {
        let rules = self.rules.tree();
        RuleWalk {
            on: self.indexes(),
            decided: rules.own(true),
            rules: Some(rules),
        }
    }
}

impl<'a> RuleWalk<'a> {
    /// The walk at the member of that name. Takes time by the number of digits of how many names
    /// rules go on with here.
    pub fn name(self, name: &str) -> RuleWalk<'a>
        ensures { (policy : Policy) (path : List Step) → IsAt self.entry policy path
            → IsAt result policy (path ++ Name name.now ∷ []) }
    {
        let mut near = 0;
        self.name_near(name, &mut near)
    }

    /// The same, looked for first at a place among the names that rules go on with, which is then set
    /// behind it. With one place for all members, 0 before the first, a member in the order of names
    /// is mostly found at once. Any place will do.
    pub fn name_near(self, name: &str, near: &mut usize) -> RuleWalk<'a>
        ensures { (policy : Policy) (path : List Step) → IsAt self.entry policy path
            → IsAt result policy (path ++ Name name.now ∷ []) }
    {
        match self.rules {
            Some(rules) => self.among(rules.behind_name(name, near)),
            None => self,
        }
    }

    /// The walk at an item of the list, which is the same for each item.
    pub fn item(self) -> RuleWalk<'a>
        ensures { (policy : Policy) (path : List Step) → IsAt self.entry policy path
            → IsAt result policy (path ++ Item ∷ []) }
    {
        match self.rules {
            Some(rules) => self.among(rules.behind_item()),
            None => self,
        }
    }

    /// Whether the leaf here is indexed, as `Policy::covers` says it of its path.
    pub fn covers(&self) -> bool
        ensures { (policy : Policy) (path : List Step) → IsAt self.now policy path
            → (IsTrue result ↔ Covers policy path) }
    {
        self.is_covered()
    }

    /// The same as `covers`, by what the rules are found to decide.
    pub(crate) fn is_covered(&self) -> bool
        ensures { (policy : Policy) (path : List Step) → IsAt self.now policy path
            → result ≡ spec.is_covered policy path }
    {
        self.on && self.decision().unwrap_or(false)
    }

    /// Whether a leaf below is indexed that no rule decides on but one with `/*` on the way here.
    pub(crate) fn is_covered_below(&self) -> bool
        ensures { (policy : Policy) (path : List Step) → IsAt self.now policy path
            → result ≡ (does_index policy && unwrap_or (spec.longest policy.rules path (length path)) false) }
    {
        self.on && self.decided.unwrap_or(false)
    }

    /// The walk a step further.
    pub(crate) fn step(self, step: &Step) -> RuleWalk<'a>
        ensures { (policy : Policy) (path : List Step) → IsAt self.entry policy path
            → IsAt result policy (path ++ step.now ∷ []) }
    {
        match step {
            Step::Name(name) => self.name(name.as_str()),
            Step::Item => self.item(),
        }
    }

    /// Whether the rule that decides on the leaf here is an included one.
    fn decision(&self) -> Option<bool>
        ensures { (policy : Policy) (path : List Step) → IsAt self.now policy path
            → result ≡ spec.decision policy.rules path }
    {
        own_of(self.rules, false).or(self.decided)
    }

    /// The walk a step further, where these rules are left.
    fn among(self, rules: Option<&'a RuleTree>) -> RuleWalk<'a>
        ensures { StepsTo self.entry (option_map (λ r. r.now) rules.entry) result }
    {
        RuleWalk {
            on: self.on,
            decided: own_of(rules, true).or(self.decided),
            rules,
        }
    }
}

/// Whether the rule that ends at the top of the tree is an included one; `None` where there is none.
fn own_of(rules: Option<&RuleTree>, all: bool) -> Option<bool>
    ensures { result ≡ says (option_map (λ r. r.now) rules.entry) [] all }
{
    match rules {
        Some(rules) => rules.own(all),
        None => None,
    }
}
