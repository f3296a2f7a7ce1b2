ghost use Rattle.std.specs.Prelude.{◌≡◌, IfOk, OnOk, map, option_map, string_bytes};
ghost use Rattle.std.specs.Option.{option_copied};
ghost use Rattle.ax_tree.specs.Document.{member as member_of, value_of as value_in};
ghost use Rattle.ax_lines.specs.Bodies as spec;

use ax_lex::is_word;
use ax_tree::{Items, Member, Members, Memory, Text, Tree};
use std::alloc::Global;
use std::collections::BTreeMap;

/// The map of the parameters that the items are; `None` where one of them is no parameter. Of a
/// repeated name the last counts.
pub(crate) fn parameters_from(
    alloc: Global,
    items: Items<Tree>,
) -> Result<Option<Members<Tree>>, Memory>
    ensures { IfOk result
        (λ params. params ≡ option_map spec.by_name (spec.parameters items)) }
{
    let mut values = BTreeMap::new(alloc);
    for item in items.into_vec() {
        let Some(parameter) = parameter_from(alloc, item)? else {
            return Ok(None);
        };
        put(&mut values, parameter)?;
    }
    Ok(Some(members_from(alloc, values)?))
}

/// Puts a parameter among the values; it counts in place of an earlier one of its name.
fn put(values: &mut BTreeMap<String, Tree>, parameter: Member<Tree>) -> Result<(), Memory>
    ensures { OnOk result
        (map (λ e. record { name = string_bytes e.0; value = e.1 }) values.new.entries
        ≡ spec.with_parameter
        (map (λ e. record { name = string_bytes e.0; value = e.1 }) values.old.entries) parameter) }
{
    let Member { name, value } = parameter;
    let replaced = values.insert(name.into_string(), value)?;
    drop(replaced);
    Ok(())
}

/// The values of the map under their names.
fn members_from(alloc: Global, values: BTreeMap<String, Tree>) -> Result<Members<Tree>, Memory>
    ensures { IfOk result (λ members. members
        ≡ map (λ e. record { name = string_bytes e.0; value = e.1 }) values.entries) }
{
    let mut members = Vec::with_capacity(alloc, values.len())?;
    for (name, value) in values {
        let name = Text::from_string(name);
        members.push(Member { name, value })?;
    }
    Ok(Members::from_vec(members))
}

/// The parameter that the tree is.
fn parameter_from(alloc: Global, tree: Tree) -> Result<Option<Member<Tree>>, Memory>
    ensures { IfOk result (λ parameter. parameter ≡ spec.parameter tree) }
{
    let Some(name) = parameter_name(&tree) else {
        return Ok(None);
    };
    let name = name.copy(alloc)?;
    let Some(value) = take_member(tree, "value") else {
        return Ok(None);
    };
    Ok(Some(Member { name, value }))
}

/// The name of the parameter that the tree is.
fn parameter_name(tree: &Tree) -> Option<&Text>
    ensures { option_copied result ≡ spec.parameter_name tree.now }
{
    let name = tree.member("name")?.as_text()?;
    if is_parameter_name(name.as_str().as_bytes()) {
        Some(name)
    } else {
        None
    }
}

fn is_parameter_name(name: &[u8]) -> bool
    ensures { result ≡ spec.is_parameter_name name.now }
{
    match name.split_first() {
        Some((first, word)) => *first == b'@' && is_word(word),
        None => false,
    }
}

/// The value of the member of that name, moved out of the tree.
pub(crate) fn take_member(tree: Tree, name: &str) -> Option<Tree>
    ensures { result ≡ member_of name.now tree }
{
    match tree {
        Tree::Object(members) => take_value(members.into_vec(), name),
        _ => None,
    }
}

fn take_value(members: Vec<Member<Tree>>, name: &str) -> Option<Tree>
    ensures { result ≡ value_in name.now members.items }
{
    for member in members {
        let Member { name: own, value } = member;
        if own.as_str() == name {
            return Some(value);
        }
    }
    None
}
