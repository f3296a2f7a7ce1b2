//! The terms by which two documents differ under one policy: a walk down both trees at once, which
//! passes over each part that is equal in both and reached by names alone before any term is made of it.
ghost use Rattle.std.specs.Prelude.{◌≡◌, ◌++◌, [], ◌∷◌, map, true, IfOk, OnOk, None, option_map};
ghost use Rattle.ax_tree.specs.Names.{HaveRisingNames};
ghost use Rattle.ax_tree.specs.Rising.{is_rising};
ghost use Rattle.ax_tree.specs.declared.tree.Tree.{Tree};
ghost use Rattle.ax_policy.specs.declared.policy.Policy.{Policy};
ghost use Rattle.ax_terms.specs.Adding.{AddsAt};
ghost use Rattle.ax_terms.specs.Differing.{AreDiffering, ArePlainDiffering, DiffersAt, TakesBefore, first_before as front_before, first_named as front_named, leaves_of};
ghost use Rattle.ax_terms.specs.Leaves.{leaves, leaves_in, member_leaves};

use crate::composites::append_composites;
use crate::in_order::put_in_order;
use crate::plain::append_leaves;
use crate::terms::PLAIN;
use ax_func::{Seen, equality};
use ax_mean::{Member, Members, Memory, Tree};
use ax_policy::{Policy, RuleWalk};
use ax_term::{Bytes, append_name};
use std::alloc::Global;

/// The terms by which a document differs from the one that is to take its place, under the policy of
/// both: some terms of the old one and some of the new one, each rising by bytes, without repeats. A
/// term that is in neither list is one of both documents or of none. What is equal in both and reached
/// by names alone, whole lists included, is in neither list, but for terms of composites; of lists that
/// differ all items are. Takes time by the size of both documents.
pub fn differing_terms(
    alloc: Global,
    policy: &Policy,
    old: &Tree,
    new: &Tree,
) -> Result<(Vec<Bytes>, Vec<Bytes>), Memory>
    ensures old_rise { IfOk result (λ both. is_rising both.0.items ≡ true) }
    ensures new_rise { IfOk result (λ both. is_rising both.1.items ≡ true) }
    ensures exact { IfOk result (λ both.
        AreDiffering policy.now old.now new.now both.0.items both.1.items) }
{
    let (mut gone, mut come) = all_differing(alloc, policy, old, new)?;
    put_both_in_order(&mut gone, &mut come);
    Ok((gone, come))
}

/// Puts the terms of each list in the order of their bytes, each once.
#[tactic(auto, using(crate::proofs::Differences::still_differ))]
fn put_both_in_order(gone: &mut Vec<Bytes>, come: &mut Vec<Bytes>)
    ensures gone_rise { is_rising gone.new.items ≡ true }
    ensures come_rise { is_rising come.new.items ≡ true }
    ensures same { (policy : Policy) (before after : Tree)
        → AreDiffering policy before after gone.old.items come.old.items
        → AreDiffering policy before after gone.new.items come.new.items }
{
    put_in_order(gone);
    put_in_order(come);
}

/// The same terms in any order, some of them perhaps twice.
#[tactic(auto, using(crate::proofs::Differences::all_differ))]
fn all_differing(
    alloc: Global,
    policy: &Policy,
    old: &Tree,
    new: &Tree,
) -> Result<(Vec<Bytes>, Vec<Bytes>), Memory>
    ensures { IfOk result (λ both.
        AreDiffering policy.now old.now new.now both.0.items both.1.items) }
{
    let (mut gone, mut come) = plain_differing(alloc, policy, old, new)?;
    append_composites(alloc, policy, old, &mut gone)?;
    append_composites(alloc, policy, new, &mut come)?;
    Ok((gone, come))
}

/// Those of leaves alone.
fn plain_differing(
    alloc: Global,
    policy: &Policy,
    old: &Tree,
    new: &Tree,
) -> Result<(Vec<Bytes>, Vec<Bytes>), Memory>
    ensures { IfOk result (λ both.
        ArePlainDiffering policy.now old.now new.now both.0.items both.1.items) }
{
    let mut gone = Vec::new(alloc);
    let mut come = Vec::new(alloc);
    let mut front = Vec::new(alloc);
    front.push(PLAIN)?;
    append_differing(
        alloc,
        &mut gone,
        &mut come,
        &mut front,
        policy.walk(),
        old,
        new,
    )?;
    Ok((gone, come))
}

/// Appends the terms of the covered leaves by which two trees differ. The walk is at the path of both,
/// and `front` is what a term at that path begins with; afterwards it is so again.
#[cycle(differing)]
fn append_differing(
    alloc: Global,
    gone: &mut Vec<Bytes>,
    come: &mut Vec<Bytes>,
    front: &mut Vec<u8>,
    walk: RuleWalk<'_>,
    old: &Tree,
    new: &Tree,
) -> Result<(), Memory>
    ensures terms { OnOk result (DiffersAt walk.entry front.old.items (leaves old.now) (leaves new.now)
        gone.old.items gone.new.items come.old.items come.new.items) }
    ensures front { OnOk result (front.new.items ≡ front.old.items) }
{
    match old {
        Tree::Object(members) => match new {
            Tree::Object(others) => {
                if members.as_slice().is_empty() || others.as_slice().is_empty() {
                    append_unlike(alloc, gone, come, front, walk, old, new)
                } else {
                    append_maps(alloc, gone, come, front, walk, members, others)
                }
            }
            _ => append_unlike(alloc, gone, come, front, walk, old, new),
        },
        _ => append_unlike(alloc, gone, come, front, walk, old, new),
    }
}

/// The same of two maps, whose members rise by their names.
#[cycle(differing)]
fn append_maps(
    alloc: Global,
    gone: &mut Vec<Bytes>,
    come: &mut Vec<Bytes>,
    front: &mut Vec<u8>,
    walk: RuleWalk<'_>,
    old: &Members<Tree>,
    new: &Members<Tree>,
) -> Result<(), Memory>
    ensures terms { OnOk result (DiffersAt walk.entry front.old.items (leaves_of old.now) (leaves_of new.now)
        gone.old.items gone.new.items come.old.items come.new.items) }
    ensures front { OnOk result (front.new.items ≡ front.old.items) }
{
    let len = front.len();
    let mut near = 0;
    let mut others = new.as_slice();
    for member in old.as_slice() {
        let name = member.name.as_str();
        let ahead = append_before(alloc, come, front, walk, &mut near, others, name)?;
        let Some((value, behind)) = first_named(ahead, name) else {
            append_member(alloc, gone, front, walk, &mut near, member)?;
            others = ahead;
            continue;
        };
        others = behind;
        if is_passed(&member.value, value) {
            continue;
        }
        append_name(front, &member.name)?;
        let below = walk.name_near(name, &mut near);
        append_differing(alloc, gone, come, front, below, &member.value, value)?;
        front.truncate(len);
    }
    append_rest(alloc, come, front, walk, &mut near, others)
}

/// Whether the values of a name are equal. Two maps are gone down into instead, so that no part of them
/// is compared twice.
fn is_passed(old: &Tree, new: &Tree) -> bool
    ensures { result ≡ true → old.now ≡ new.now }
{
    if matches!(old, Tree::Object(_)) && matches!(new, Tree::Object(_)) {
        return false;
    }
    are_equal(old, new)
}

/// Whether two trees are equal, found without writing either.
#[tactic(auto, using(crate::proofs::Passing::equality_told))]
fn are_equal(old: &Tree, new: &Tree) -> bool
    ensures told { result ≡ true → old.now ≡ new.now }
    ensures equal { old.now ≡ new.now → result ≡ true }
{
    equality(&Seen::here(old), &Seen::here(new)).unwrap_or(false)
}

/// Appends the terms of the covered leaves of two trees that are not both maps with members, unless they
/// are equal.
#[tactic(auto, using(crate::proofs::Passing::unlike))]
fn append_unlike(
    alloc: Global,
    gone: &mut Vec<Bytes>,
    come: &mut Vec<Bytes>,
    front: &mut Vec<u8>,
    walk: RuleWalk<'_>,
    old: &Tree,
    new: &Tree,
) -> Result<(), Memory>
    ensures terms { OnOk result (DiffersAt walk.entry front.old.items (leaves old.now) (leaves new.now)
        gone.old.items gone.new.items come.old.items come.new.items) }
    ensures front { OnOk result (front.new.items ≡ front.old.items) }
{
    if are_equal(old, new) {
        return Ok(());
    }
    append_leaves(alloc, gone, front, walk, old)?;
    append_leaves(alloc, come, front, walk, new)?;
    Ok(())
}

/// Appends the terms of the covered leaves of the members whose names are before that one. Gives those
/// that are left.
fn append_before<'a>(
    alloc: Global,
    terms: &mut Vec<Bytes>,
    front: &mut Vec<u8>,
    walk: RuleWalk<'_>,
    near: &mut usize,
    members: &'a [Member<Tree>],
    name: &str,
) -> Result<&'a [Member<Tree>], Memory>
    ensures terms { IfOk result (λ left. TakesBefore walk.entry front.old.items name.now members.now left.now
        terms.old.items terms.new.items) }
    ensures left { IfOk result (λ left. front_before name.now left.now ≡ None) }
    ensures front { IfOk result (λ left. front.new.items ≡ front.old.items) }
{
    let mut left = members;
    while let Some((member, behind)) = first_before(left, name) {
        append_member(alloc, terms, front, walk, near, member)?;
        left = behind;
    }
    Ok(left)
}

/// Appends the terms of the covered leaves of all these members.
fn append_rest(
    alloc: Global,
    terms: &mut Vec<Bytes>,
    front: &mut Vec<u8>,
    walk: RuleWalk<'_>,
    near: &mut usize,
    members: &[Member<Tree>],
) -> Result<(), Memory>
    ensures terms { OnOk result
        (AddsAt walk.entry front.old.items (leaves_of members.now) terms.old.items terms.new.items) }
    ensures front { OnOk result (front.new.items ≡ front.old.items) }
{
    for member in members {
        append_member(alloc, terms, front, walk, near, member)?;
    }
    Ok(())
}

/// Appends the terms of the covered leaves of one member of a map.
#[tactic(auto, using(crate::proofs::Passing::member_alone))]
fn append_member(
    alloc: Global,
    terms: &mut Vec<Bytes>,
    front: &mut Vec<u8>,
    walk: RuleWalk<'_>,
    near: &mut usize,
    member: &Member<Tree>,
) -> Result<(), Memory>
    ensures terms { OnOk result (AddsAt walk.entry front.old.items (member_leaves (leaves_in member.now))
        terms.old.items terms.new.items) }
    ensures front { OnOk result (front.new.items ≡ front.old.items) }
{
    let len = front.len();
    append_name(front, &member.name)?;
    let below = walk.name_near(member.name.as_str(), near);
    append_leaves(alloc, terms, front, below, &member.value)?;
    front.truncate(len);
    Ok(())
}

/// The first member and those behind it, where its name is before that one.
fn first_before<'a>(
    members: &'a [Member<Tree>],
    name: &str,
) -> Option<(&'a Member<Tree>, &'a [Member<Tree>])>
    ensures { option_map (λ found. (found.0.now, found.1.now)) result ≡ front_before name.now members.now }
{
    let (first, behind) = members.split_first()?;
    if first.name.as_str().cmp(name).is_lt() {
        Some((first, behind))
    } else {
        None
    }
}

/// The value of the first member and those behind it, where it has that name.
fn first_named<'a>(
    members: &'a [Member<Tree>],
    name: &str,
) -> Option<(&'a Tree, &'a [Member<Tree>])>
    ensures { option_map (λ found. (found.0.now, found.1.now)) result ≡ front_named name.now members.now }
{
    let (first, behind) = members.split_first()?;
    if first.name.as_str() == name {
        Some((&first.value, behind))
    } else {
        None
    }
}
