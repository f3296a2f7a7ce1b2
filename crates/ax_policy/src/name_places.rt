//! Where a name stands among those that rules go on with, which rise.
ghost use Rattle.std.specs.Prelude.{◌≡◌, IfOk, IfErr, IfSome, IsTrue};
ghost use Rattle.ax_tree.specs.Names.{HaveRisingNames};
ghost use Rattle.ax_policy.specs.RuleTrees as spec;

use crate::rule_tree::RuleTree;
use ax_mean::Member;
use std::cmp::Ordering;

/// So many names are looked at one after another before halves.
const FEW: usize = 8;

/// Where the member of that name stands, or would stand, looked for from a place on.
pub(crate) fn place_from(
    names: &[Member<RuleTree>],
    name: &str,
    near: usize,
) -> Result<usize, usize>
    ensures found { IfOk result (λ at. spec.IsFound name.now names.now at) }
    ensures absent { HaveRisingNames names.now → IfErr result (λ at. spec.IsRoom name.now names.now at) }
{
    match place_near(names, name, near) {
        Some(place) => place,
        None => place_of(names, name),
    }
}

/// The same where that is the place or one of the few behind it; else `None`.
fn place_near(names: &[Member<RuleTree>], name: &str, near: usize) -> Option<Result<usize, usize>>
    ensures found { IfSome result (λ place. IfOk place (λ at. spec.IsFound name.now names.now at)) }
    ensures absent { HaveRisingNames names.now
        → IfSome result (λ place. IfErr place (λ at. spec.IsRoom name.now names.now at)) }
{
    if !is_before(names, name, near) {
        return None;
    }
    place_ahead(names, name, near)
}

/// Whether the members before a place come before the name, which the last of them tells.
fn is_before(names: &[Member<RuleTree>], name: &str, near: usize) -> bool
    ensures { IsTrue result → HaveRisingNames names.now → spec.AreBefore name.now names.now near }
{
    let Some(last) = near.checked_sub(1) else {
        return true;
    };
    match names.get(last) {
        Some(member) => member.name.as_str().cmp(name).is_lt(),
        None => false,
    }
}

fn place_ahead(names: &[Member<RuleTree>], name: &str, near: usize) -> Option<Result<usize, usize>>
    requires { HaveRisingNames names.now → spec.AreBefore name.now names.now near }
    ensures found { IfSome result (λ place. IfOk place (λ at. spec.IsFound name.now names.now at)) }
    ensures absent { HaveRisingNames names.now
        → IfSome result (λ place. IfErr place (λ at. spec.IsRoom name.now names.now at)) }
{
    let mut at = near;
    for _ in 0..FEW {
        let Some(member) = names.get(at) else {
            return Some(Err(at));
        };
        match member.name.as_str().cmp(name) {
            Ordering::Less => at += 1,
            Ordering::Equal => return Some(Ok(at)),
            Ordering::Greater => return Some(Err(at)),
        }
    }
    None
}

/// Where the member of that name stands, or would stand.
pub(crate) fn place_of(names: &[Member<RuleTree>], name: &str) -> Result<usize, usize>
    ensures found { IfOk result (λ at. spec.IsFound name.now names.now at) }
    ensures absent { HaveRisingNames names.now → IfErr result (λ at. spec.IsRoom name.now names.now at) }
{
    match names.binary_search_by(|member| member.name.as_str().cmp(name)) {
        Ok(at) => Ok(at),
        Err(at) => Err(at),
    }
}
