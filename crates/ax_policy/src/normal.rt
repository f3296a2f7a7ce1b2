//! The normal text of a policy.
ghost use Rattle.std.specs.Prelude.{◌≡◌, [], ◌∷◌, ◌++◌, IfOk, codes, map};
ghost use Rattle.ax_policy.specs.Composites as written;
ghost use Rattle.ax_policy.specs.Normal as spec;
ghost use Rattle.ax_policy.specs.Paths.{steps_text as steps_text_of};

use crate::mode::Mode;
use crate::path_text::steps_text;
use crate::policy::{Composite, Policy};
use ax_mean::{Items, Member, Members, Memory, Order, Text, Tree, write_tree};
use std::alloc::Global;

impl Policy {
    /// The normal text: compact JSON with the members `automatic`, `compositeIndexes`,
    /// `excludedPaths`, `includedPaths` and `indexingMode`, the paths in byte order with every name
    /// quoted. Two policies are the same where their normal texts are.
    pub fn normal(&self, alloc: Global) -> Result<Vec<u8>, Memory>
        ensures { IfOk result (λ text. text.items ≡ spec.normal_text self.now) }
    {
        let tree = self.normal_tree(alloc)?;
        write_tree(alloc, &tree)
    }

    fn normal_tree(&self, alloc: Global) -> Result<Tree, Memory>
        ensures { IfOk result (λ tree. tree ≡ spec.normal_tree self.now) }
    {
        let rules = self.rules.as_slice();
        let automatic = with(
            alloc,
            Vec::new(alloc),
            "automatic",
            Tree::Truth(self.automatic),
        )?;
        let composites = with_composites(alloc, automatic, self.composites.as_slice())?;
        let excluded = with_paths(alloc, composites, "excludedPaths", rules, false)?;
        let included = with_paths(alloc, excluded, "includedPaths", rules, true)?;
        let members = with_word(alloc, included, "indexingMode", mode_word(self.mode))?;
        Ok(Tree::Object(Members::from_vec(members)))
    }
}

/// The members, and one more behind them.
fn with(
    alloc: Global,
    members: Vec<Member<Tree>>,
    name: &str,
    value: Tree,
) -> Result<Vec<Member<Tree>>, Memory>
    ensures { IfOk result (λ more. more.items ≡ spec.behind members.items name.now value) }
{
    match text_of(alloc, name) {
        Ok(name) => push(members, Member { name, value }),
        Err(fault) => {
            drop(members);
            drop(value);
            Err(fault)
        }
    }
}

fn push(members: Vec<Member<Tree>>, member: Member<Tree>) -> Result<Vec<Member<Tree>>, Memory>
    ensures { IfOk result (λ more. more.items ≡ members.items ++ member ∷ []) }
{
    let mut members = members;
    match members.push(member) {
        Ok(()) => Ok(members),
        Err(_) => {
            drop(members);
            Err(Memory)
        }
    }
}

fn with_composites(
    alloc: Global,
    members: Vec<Member<Tree>>,
    composites: &[Composite],
) -> Result<Vec<Member<Tree>>, Memory>
    ensures { IfOk result (λ more. more.items ≡ spec.behind members.items
        (codes "compositeIndexes") (Tree.List (map written.composite_tree composites.now))) }
{
    match composite_trees(alloc, composites) {
        Ok(trees) => with(alloc, members, "compositeIndexes", trees),
        Err(fault) => {
            drop(members);
            Err(fault)
        }
    }
}

fn with_paths(
    alloc: Global,
    members: Vec<Member<Tree>>,
    name: &str,
    rules: &[Member<bool>],
    included: bool,
) -> Result<Vec<Member<Tree>>, Memory>
    ensures { IfOk result (λ more. more.items ≡ spec.behind members.items
        name.now (Tree.List (spec.path_trees included rules.now))) }
{
    match path_trees(alloc, rules, included) {
        Ok(trees) => with(alloc, members, name, trees),
        Err(fault) => {
            drop(members);
            Err(fault)
        }
    }
}

fn with_word(
    alloc: Global,
    members: Vec<Member<Tree>>,
    name: &str,
    value: &str,
) -> Result<Vec<Member<Tree>>, Memory>
    ensures { IfOk result
        (λ more. more.items ≡ spec.behind members.items name.now (Tree.Text value.now)) }
{
    match word(alloc, value) {
        Ok(value) => with(alloc, members, name, value),
        Err(fault) => {
            drop(members);
            Err(fault)
        }
    }
}

fn mode_word(mode: Mode) -> &'static str
    ensures { result.now ≡ spec.mode_word mode }
{
    match mode {
        Mode::Consistent => "consistent",
        Mode::None => "none",
    }
}

/// A word as a tree.
fn word(alloc: Global, word: &str) -> Result<Tree, Memory>
    ensures { IfOk result (λ tree. tree ≡ Tree.Text word.now) }
{
    Ok(Tree::Text(text_of(alloc, word)?))
}

pub(crate) fn text_of(alloc: Global, text: &str) -> Result<Text, Memory>
    ensures { IfOk result (λ made. made ≡ text.now) }
{
    Ok(Text::from_string(String::from_str(alloc, text)?))
}

/// The list of the paths that are included, or of those that are not.
fn path_trees(alloc: Global, rules: &[Member<bool>], included: bool) -> Result<Tree, Memory>
    ensures { IfOk result (λ tree. tree ≡ Tree.List (spec.path_trees included rules.now)) }
{
    let mut trees = Vec::new(alloc);
    for rule in rules {
        if rule.value == included {
            trees.push(path_tree(alloc, &rule.name)?)?;
        }
    }
    Ok(Tree::List(Items::from_vec(trees)))
}

fn path_tree(alloc: Global, text: &Text) -> Result<Tree, Memory>
    ensures { IfOk result (λ tree. tree ≡ spec.text_tree text.now) }
{
    let members = with_word(alloc, Vec::new(alloc), "path", text.as_str())?;
    Ok(Tree::Object(Members::from_vec(members)))
}

fn composite_trees(alloc: Global, composites: &[Composite]) -> Result<Tree, Memory>
    ensures { IfOk result (λ tree. tree ≡ Tree.List (map written.composite_tree composites.now)) }
{
    let mut trees = Vec::with_capacity(alloc, composites.len())?;
    for composite in composites {
        trees.push(composite_tree(alloc, composite)?)?;
    }
    Ok(Tree::List(Items::from_vec(trees)))
}

/// The canonical text of a composite.
pub(crate) fn composite_text(alloc: Global, composite: &Composite) -> Result<Vec<u8>, Memory>
    ensures { IfOk result (λ text. text.items ≡ written.composite_text composite.now) }
{
    let tree = composite_tree(alloc, composite)?;
    write_tree(alloc, &tree)
}

fn composite_tree(alloc: Global, composite: &Composite) -> Result<Tree, Memory>
    ensures { IfOk result (λ tree. tree ≡ written.composite_tree composite.now) }
{
    let parts = composite.as_slice();
    let mut trees = Vec::with_capacity(alloc, parts.len())?;
    for part in parts {
        trees.push(part_tree(alloc, part)?)?;
    }
    Ok(Tree::List(Items::from_vec(trees)))
}

fn part_tree(alloc: Global, part: &Order) -> Result<Tree, Memory>
    ensures { IfOk result (λ tree. tree ≡ written.part_tree part.now) }
{
    let order = with_word(alloc, Vec::new(alloc), "order", order_word(part.down))?;
    let members = with_path(alloc, order, part)?;
    Ok(Tree::Object(Members::from_vec(members)))
}

fn with_path(
    alloc: Global,
    members: Vec<Member<Tree>>,
    part: &Order,
) -> Result<Vec<Member<Tree>>, Memory>
    ensures { IfOk result (λ more. more.items ≡ spec.behind members.items (codes "path")
        (Tree.Text (steps_text_of part.now.path))) }
{
    match steps_text(alloc, part.path.as_slice()) {
        Ok(text) => with(alloc, members, "path", Tree::Text(text)),
        Err(fault) => {
            drop(members);
            Err(fault)
        }
    }
}

fn order_word(down: bool) -> &'static str
    ensures { result.now ≡ written.order_word down }
{
    if down { "descending" } else { "ascending" }
}
