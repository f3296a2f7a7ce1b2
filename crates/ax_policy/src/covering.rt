//! Which leaves a policy covers.
ghost use Rattle.std.specs.Prelude.{◌≡◌, ◌↔◌, IsTrue, ◌&&◌, true, length};
ghost use Rattle.std.specs.List.{list_all};
ghost use Rattle.ax_tree.specs.Names.{HaveRisingNames};
ghost use Rattle.ax_policy.specs.Covering.{Covers, CoversAll, indexes as does_index};
ghost use Rattle.ax_policy.specs.Deciding as spec;
ghost use Rattle.ax_policy.specs.Walking.{IsAt};
ghost use Rattle.ax_policy.specs.Written.{are_written};

use crate::compare::after_steps;
use crate::mode::Mode;
use crate::policy::Policy;
use crate::walk::RuleWalk;
use ax_mean::{Member, Path, Step};

impl Policy {
    /// Whether the leaf at that path is indexed: of the included and excluded paths that match, the
    /// one with most steps decides, and of equal steps the one with `/?`. Takes time by the path's
    /// length, and for each step by the number of digits of how many names rules go on with.
    pub fn covers(&self, path: &Path) -> bool
        ensures { IsTrue result ↔ Covers self.now path.now }
    {
        self.is_covered(path)
    }

    /// Whether every leaf whose path begins with that path is indexed. Takes time by the number of
    /// rules.
    pub fn covers_all(&self, path: &Path) -> bool
        ensures { IsTrue result ↔ CoversAll self.now path.now }
    {
        self.is_all_covered(path)
    }

    /// The same as `covers`, by what the rules are found to decide.
    pub(crate) fn is_covered(&self, path: &Path) -> bool
        ensures { result ≡ spec.is_covered self.now path.now }
    {
        self.walk_to(path.as_slice()).is_covered()
    }

    fn is_all_covered(&self, path: &Path) -> bool
        ensures covered { result ≡ spec.is_all_covered self.now path.now }
        ensures rising { HaveRisingNames self.now.rules }
        ensures written { are_written self.now.rules ≡ true }
    {
        let rules = self.rules.as_slice();
        let path = path.as_slice();
        self.walk_to(path).is_covered_below() && all_are_included(rules, path)
    }

    /// The walk at that path.
    fn walk_to(&self, steps: &[Step]) -> RuleWalk<'_>
        ensures { IsAt result self.now steps.now }
    {
        let mut walk = self.walk();
        for step in steps {
            walk = walk.step(step);
        }
        walk
    }

    /// Whether the policy indexes at all.
    pub(crate) fn indexes(&self) -> bool
        ensures { result ≡ does_index self.now }
    {
        match self.mode {
            Mode::Consistent => self.automatic,
            Mode::None => false,
        }
    }
}

/// Whether each rule whose steps begin with these is an included one.
fn all_are_included(rules: &[Member<bool>], steps: &[Step]) -> bool
    requires { are_written rules.now ≡ true }
    ensures { result ≡ list_all (spec.is_kept steps.now) rules.now }
{
    for rule in rules {
        if !rule.value && begins_with(rule.name.as_str().as_bytes(), steps) {
            return false;
        }
    }
    true
}

fn begins_with(text: &[u8], steps: &[Step]) -> bool
    ensures { result ≡ spec.begins_with steps.now text.now }
{
    match after_steps(text, steps) {
        Ok(_rest) => true,
        Err(_order) => false,
    }
}
