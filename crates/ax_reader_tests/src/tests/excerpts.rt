//! Excerpts by their names.
use ax_excerpt::Excerpt;
use ax_tree::{Member, Members, Text};
use std::alloc::Global;

fn member(alloc: Global, name: &str, value: Excerpt) -> Option<Member<Excerpt>> {
    let name = Text::from_string(String::from_str(alloc, name).ok()?);
    Some(Member { name, value })
}

/// The excerpt of a member of that name.
pub fn one(alloc: Global, name: &str, value: Excerpt) -> Option<Excerpt> {
    let only = member(alloc, name, value)?;
    let mut members = Vec::new(alloc);
    members.push(only).ok()?;
    Some(Excerpt::Part(Members::from_vec(members)))
}

/// The excerpt of two members, of which the first has the lower name.
pub fn two(
    alloc: Global,
    first: &str,
    first_value: Excerpt,
    second: &str,
    second_value: Excerpt,
) -> Option<Excerpt> {
    let a = member(alloc, first, first_value)?;
    let b = member(alloc, second, second_value)?;
    if !a.name.as_str().cmp(b.name.as_str()).is_lt() {
        return None;
    }
    let mut members = Vec::new(alloc);
    members.push(a).ok()?;
    members.push(b).ok()?;
    Some(Excerpt::Part(Members::from_vec(members)))
}
