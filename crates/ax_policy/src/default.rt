//! The policy of a new store.
ghost use Rattle.std.specs.Prelude.{◌≡◌, [], ◌∷◌, ◌++◌, IfOk};
ghost use Rattle.ax_policy.specs.Default as spec;

use crate::mode::Mode;
use crate::normal::text_of;
use crate::policy::Policy;
use crate::rules::Rules;
use ax_mean::{Items, Member, Members, Memory};
use std::alloc::Global;

/// The policy that a store has until it is given one: every leaf is indexed but that at `_etag`.
pub fn default_policy(alloc: Global) -> Result<Policy, Memory>
    ensures { IfOk result (λ policy. policy ≡ spec.default_policy) }
{
    let rules = default_rules(alloc)?;
    Ok(Policy {
        mode: Mode::Consistent,
        automatic: true,
        rules,
        composites: Items::new(alloc),
    })
}

#[tactic(auto, using(crate::proofs::DefaultRules::default_are_written))]
fn default_rules(alloc: Global) -> Result<Rules, Memory>
    ensures { IfOk result (λ rules. rules ≡ spec.default_rules) }
{
    let excluded = with_rule(alloc, Vec::new(alloc), r#"/"_etag"/?"#, false)?;
    let rules = with_rule(alloc, excluded, "/*", true)?;
    Rules::from_members(alloc, Members::from_vec(rules))
}

/// The rules, and one more behind them.
fn with_rule(
    alloc: Global,
    rules: Vec<Member<bool>>,
    path: &str,
    included: bool,
) -> Result<Vec<Member<bool>>, Memory>
    ensures { IfOk result (λ more. more.items ≡ rules.items ++ record { name = path.now; value = included } ∷ []) }
{
    let mut rules = rules;
    match text_of(alloc, path) {
        Ok(name) => {
            rules.push(Member {
                name,
                value: included,
            })?;
            Ok(rules)
        }
        Err(fault) => {
            drop(rules);
            Err(fault)
        }
    }
}
