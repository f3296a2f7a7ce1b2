//! A rule put among others in a tree of their steps.
ghost use Rattle.std.specs.Prelude.{◌≡◌, ◌≤◌, [], ◌∷◌, ◌++◌, length, take, drop, IfOk, Some};
ghost use Rattle.ax_tree.specs.Names.{HaveRisingNames};
ghost use Rattle.ax_mean.specs.declared.query.Step.TheVariants.{Name, Item};
ghost use Rattle.ax_policy.specs.RuleTrees as spec;

use crate::name_places::place_of;
use crate::rule_tree::RuleTree;
use ax_mean::{Boxed, Member, Members, Memory, Step, Text};
use std::alloc::Global;

/// Members of which the one of a name is taken out, and what it was.
struct Opening {
    names: Vec<Member<RuleTree>>,
    at: usize,
    name: Text,
    rules: RuleTree,
}

/// The rules with one more, which counts where there was none with its path.
#[cycle(with_rule)]
pub(crate) fn with_rule(
    alloc: Global,
    rules: RuleTree,
    steps: &[Step],
    all: bool,
    included: bool,
) -> Result<RuleTree, Memory>
    ensures { IfOk result (λ more. spec.IsWith (Some rules)
        (record { steps = steps.now; all = all }) included (Some more)) }
{
    match steps.split_first() {
        Some((Step::Item, rest)) => with_item(alloc, rules, rest, all, included),
        Some((Step::Name(name), rest)) => with_name(alloc, rules, name, rest, all, included),
        None => Ok(with_own(rules, all, included)),
    }
}

/// The rules with one more that ends here.
fn with_own(rules: RuleTree, all: bool, included: bool) -> RuleTree
    ensures { spec.IsWith (Some rules) (record { steps = []; all = all }) included (Some result) }
{
    let RuleTree {
        leaf,
        below,
        item,
        names,
    } = rules;
    if all {
        return RuleTree {
            leaf,
            below: below.or(Some(included)),
            item,
            names,
        };
    }
    RuleTree {
        leaf: leaf.or(Some(included)),
        below,
        item,
        names,
    }
}

/// The rules with one more that goes on with an item and then these steps.
#[cycle(with_rule)]
fn with_item(
    alloc: Global,
    rules: RuleTree,
    rest: &[Step],
    all: bool,
    included: bool,
) -> Result<RuleTree, Memory>
    ensures { IfOk result (λ more. spec.IsWith (Some rules)
        (record { steps = Item ∷ rest.now; all = all }) included (Some more)) }
{
    let RuleTree {
        leaf,
        below,
        item,
        names,
    } = rules;
    match with_rule(alloc, inner(alloc, item), rest, all, included) {
        Ok(inside) => boxed(alloc, leaf, below, inside, names),
        Err(fault) => {
            drop(names);
            Err(fault)
        }
    }
}

/// The rules behind an item, which may be none.
fn inner(alloc: Global, item: Option<Boxed<RuleTree>>) -> RuleTree
    ensures { spec.SaySame (Some result) item }
{
    match item {
        Some(rules) => rules.into_inner(),
        None => RuleTree::new(alloc),
    }
}

/// A tree of these parts.
fn boxed(
    alloc: Global,
    leaf: Option<bool>,
    below: Option<bool>,
    item: RuleTree,
    names: Members<RuleTree>,
) -> Result<RuleTree, Memory>
    ensures { IfOk result (λ rules. spec.HasParts leaf below (Some item) names rules) }
{
    match Boxed::new(alloc, item) {
        Ok(item) => Ok(RuleTree {
            leaf,
            below,
            item: Some(item),
            names,
        }),
        Err(fault) => {
            drop(names);
            Err(fault)
        }
    }
}

/// The rules with one more that goes on with that name and then these steps.
#[cycle(with_rule)]
fn with_name(
    alloc: Global,
    rules: RuleTree,
    name: &Text,
    rest: &[Step],
    all: bool,
    included: bool,
) -> Result<RuleTree, Memory>
    ensures { IfOk result (λ more. spec.IsWith (Some rules)
        (record { steps = Name name.now ∷ rest.now; all = all }) included (Some more)) }
{
    let RuleTree {
        leaf,
        below,
        item,
        names,
    } = rules;
    match names_with(alloc, names, name, rest, all, included) {
        Ok(names) => Ok(RuleTree {
            leaf,
            below,
            item,
            names,
        }),
        Err(fault) => {
            drop(item);
            Err(fault)
        }
    }
}

/// The names that rules go on with, where one more goes on with this name and then these steps.
#[cycle(with_rule)]
fn names_with(
    alloc: Global,
    names: Members<RuleTree>,
    name: &Text,
    rest: &[Step],
    all: bool,
    included: bool,
) -> Result<Members<RuleTree>, Memory>
    ensures { IfOk result (λ more. spec.AreNamesWith names name.now
        (record { steps = rest.now; all = all }) included more) }
{
    let Opening {
        names,
        at,
        name,
        rules,
    } = opened(alloc, names, name)?;
    match with_rule(alloc, rules, rest, all, included) {
        Ok(rules) => closed(names, at, name, rules),
        Err(fault) => {
            drop(names);
            drop(name);
            Err(fault)
        }
    }
}

/// Takes out the rules behind that name, which are none where no member has it.
fn opened(alloc: Global, names: Members<RuleTree>, name: &Text) -> Result<Opening, Memory>
    ensures { IfOk result (λ o. spec.IsOpened names name.now o.names.items o.at o.name o.rules) }
{
    let mut names = names.into_vec();
    match place_of(names.as_slice(), name.as_str()) {
        Ok(at) => {
            let Member { name, value } = names.remove(at);
            Ok(Opening {
                names,
                at,
                name,
                rules: value,
            })
        }
        Err(at) => opened_new(alloc, names, at, name),
    }
}

/// The same where no member has the name, which would stand at that place.
fn opened_new(
    alloc: Global,
    names: Vec<Member<RuleTree>>,
    at: usize,
    name: &Text,
) -> Result<Opening, Memory>
    requires rise { HaveRisingNames names.items }
    requires room { spec.IsRoom name.now names.items at }
    ensures { IfOk result (λ o. spec.IsOpened names.items name.now o.names.items o.at o.name o.rules) }
{
    match name.copy(alloc) {
        Ok(name) => Ok(Opening {
            names,
            at,
            name,
            rules: RuleTree::new(alloc),
        }),
        Err(fault) => {
            drop(names);
            Err(fault)
        }
    }
}

/// Puts in rules under a name, at the place where it was or would be.
fn closed(
    names: Vec<Member<RuleTree>>,
    at: usize,
    name: Text,
    rules: RuleTree,
) -> Result<Members<RuleTree>, Memory>
    requires bound { at ≤ length names.items }
    requires rise { HaveRisingNames (take at names.items ++ record { name = name; value = rules } ∷ drop at names.items) }
    ensures { IfOk result (λ more. more
        ≡ take at names.items ++ record { name = name; value = rules } ∷ drop at names.items) }
{
    let mut names = names;
    names.insert(at, Member { name, value: rules })?;
    Ok(Members::from_vec(names))
}
