//! The rules of a policy as a tree of their steps, in which a walk down a document goes from each
//! place to the one below.
ghost use Rattle.std.specs.Prelude.{◌≡◌, Option, Some, None, option_map};
ghost use Rattle.ax_tree.specs.Names.{HaveRisingNames};
ghost use Rattle.ax_mean.specs.declared.query.Step.TheVariants.{Name, Item};
ghost use Rattle.ax_policy.specs.Rules.{under};
ghost use Rattle.ax_policy.specs.RuleTrees as spec;

use crate::name_places::place_from;
use ax_mean::{Boxed, Member, Members};
use std::alloc::Global;

/// The rules whose paths begin with the steps that lead here.
#[derive(Debug, Drop)]
pub(crate) struct RuleTree {
    /// Whether the rule that ends here in `/?` is an included one; `None` where there is none.
    pub(crate) leaf: Option<bool>,
    /// The same of the rule that ends here in `/*`.
    pub(crate) below: Option<bool>,
    /// The rules that go on with an item.
    pub(crate) item: Option<Boxed<RuleTree>>,
    /// Those that go on with a name, under it.
    pub(crate) names: Members<RuleTree>,
}

impl RuleTree {
    /// No rules.
    pub(crate) fn new(alloc: Global) -> RuleTree
        ensures { spec.SaySame (Some result) None }
    {
        RuleTree {
            leaf: None,
            below: None,
            item: None,
            names: Members::new(alloc),
        }
    }

    /// Whether the rule that ends here is an included one; `None` where there is none.
    pub(crate) fn own(&self, all: bool) -> Option<bool>
        ensures { result ≡ spec.own all self.now }
    {
        if all { self.below } else { self.leaf }
    }

    /// The rules behind an item.
    pub(crate) fn behind_item(&self) -> Option<&RuleTree>
        ensures { option_map (λ rules. rules.now) result ≡ spec.behind Item self.now }
    {
        match &self.item {
            Some(rules) => Some(rules.get()),
            None => None,
        }
    }

    /// The rules behind a name, which is looked for at a place first; this is then set behind them.
    pub(crate) fn behind_name(&self, name: &str, near: &mut usize) -> Option<&RuleTree>
        ensures { option_map (λ rules. rules.now) result ≡ spec.behind (Name name.now) self.now }
    {
        let names = self.names.as_slice();
        if let Some(member) = names.get(*near) {
            if member.name.as_str() == name {
                *near = near.saturating_add(1);
                return Some(&member.value);
            }
        }
        look_up(names, name, near)
    }
}

/// The same where it does not stand at the place. Sets this behind where the name stands, or to where
/// it would stand.
fn look_up<'a>(names: &'a [Member<RuleTree>], name: &str, near: &mut usize) -> Option<&'a RuleTree>
    requires { HaveRisingNames names.now }
    ensures { option_map (λ rules. rules.now) result ≡ under name.now names.now }
{
    match place_from(names, name, *near) {
        Ok(at) => {
            *near = at.saturating_add(1);
            Some(&names[at].value)
        }
        Err(at) => {
            *near = at;
            None
        }
    }
}
