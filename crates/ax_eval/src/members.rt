//! The members of a map that is being made, in the order of their names.
ghost use Rattle.std.specs.Prelude.{◌≡◌, ◌∷◌, ◌++◌, ◌+◌, ◌<◌, length, take, drop, IfOk, OnOk, MatchOption};
ghost use Rattle.ax_mean.specs.Building.{with_value as value_put, with_member as member_put, without_member as member_removed};
ghost use Rattle.ax_tree.specs.Names.{HaveRisingNames};
ghost use Rattle.ax_eval.specs.Places.{IsPlace};

use crate::out_of_memory::Memory;
use ax_mean::{Member, Members, Text, Tree, Value};
use std::alloc::Global;
use std::mem;

/// Where a member is put.
enum Place {
    /// A member of its name stands there.
    Taken(usize),
    /// None has its name, and those from there on come after it.
    Free(usize),
}

/// The members with the value put at its name; without that name where the value is undefined.
pub fn with_value(
    alloc: Global,
    members: Members<Tree>,
    name: &Text,
    value: Value,
) -> Result<Members<Tree>, Memory>
    ensures { IfOk result (λ put. put ≡ value_put name.now value members) }
{
    match value {
        Value::Undefined => Ok(without_member(members, name.as_str())),
        Value::Defined(tree) => with_member(members, name.copy(alloc)?, tree),
    }
}

#[tactic(auto, using(crate::proofs::Rising::with_member_rises))]
fn with_member(members: Members<Tree>, name: Text, value: Tree) -> Result<Members<Tree>, Memory>
    ensures { IfOk result (λ put. put ≡ member_put name value members) }
{
    let mut members = members.into_vec();
    put(&mut members, name, value)?;
    Ok(Members::from_vec(members))
}

fn put(members: &mut Vec<Member<Tree>>, name: Text, value: Tree) -> Result<(), Memory>
    requires { HaveRisingNames members.old.items }
    ensures { OnOk result (members.new.items ≡ member_put name value members.old.items) }
{
    match place_for(members.as_slice(), name.as_str()) {
        Place::Taken(at) => {
            replace(members, at, Member { name, value });
            Ok(())
        }
        Place::Free(at) => {
            members.insert(at, Member { name, value })?;
            Ok(())
        }
    }
}

#[tactic(auto, using(crate::proofs::Puts::set_parts))]
fn replace(members: &mut Vec<Member<Tree>>, at: usize, member: Member<Tree>)
    requires { at < length members.old.items }
    ensures { members.new.items ≡ take at members.old.items ++ member ∷ drop (at + 1) members.old.items }
{
    drop(mem::replace(&mut members[at], member));
}

/// Looked for by halves: a map that is written may have its members in any order.
fn place_for(members: &[Member<Tree>], name: &str) -> Place
    requires { HaveRisingNames members.now }
    ensures { IsPlace name.now members.now result }
{
    match members.binary_search_by(|member| member.name.as_str().cmp(name)) {
        Ok(at) => Place::Taken(at),
        Err(at) => Place::Free(at),
    }
}

#[tactic(auto, using(crate::proofs::Rising::without_member_rises))]
fn without_member(members: Members<Tree>, name: &str) -> Members<Tree>
    ensures { result ≡ member_removed name.now members }
{
    let mut members = members.into_vec();
    take_out(&mut members, name);
    Members::from_vec(members)
}

fn take_out(members: &mut Vec<Member<Tree>>, name: &str)
    ensures { members.new.items ≡ member_removed name.now members.old.items }
{
    if let Some(at) = position(members.as_slice(), name) {
        drop(members.remove(at));
    }
}

/// Where the member of that name stands.
fn position(members: &[Member<Tree>], name: &str) -> Option<usize>
    ensures { MatchOption result (member_removed name.now members.now ≡ members.now)
        (λ at. (at < length members.now) × (member_removed name.now members.now ≡ take at members.now ++ drop (at + 1) members.now)) }
{
    for (at, member) in members.iter().enumerate() {
        if name == member.name.as_str() {
            return Some(at);
        }
    }
    None
}
