//! Excerpts read from texts.
ghost use Rattle.std.specs.Prelude.{◌≡◌, true, map, List, Some, IfOk, option_map};
ghost use Rattle.ax_tree.specs.declared.members.Member.{Member as MemberOf};
ghost use Rattle.ax_tree.specs.declared.tree.Tree as tree;
ghost use Rattle.ax_tree.specs.declared.tree.Tree.{Tree as TreeOf};
ghost use Rattle.ax_tree.specs.CanonicalText.{canonical_text};
ghost use Rattle.ax_tree.specs.Names.{HaveRisingNames};
ghost use Rattle.ax_skim.specs.Members.{members_text};
ghost use Rattle.ax_excerpt.specs.Excerpts.{excerpt_of, chosen};
ghost use Rattle.ax_excerpt.specs.Plain.{are_plain, plain_parts, plain_flag, leaving};
ghost use Rattle.ax_excerpt_text.specs.Left.{IsReadable, AreReadable};
ghost use Rattle.ax_excerpt_text.specs.Wholes.{tree_read, IsNoMap};

use crate::looking::look;
use crate::whole::read_whole;
use ax_excerpt::Excerpt;
use ax_skim::after_prefix;
use ax_text::TreeReader;
use ax_tree::{Member, Members, Memory, Text, Tree};
use std::alloc::Global;

/// What the excerpt leaves of the tree of that canonical text. It is there for the canonical text of
/// each tree that reads back: UTF-8, names that rise, numbers of 64 bits, nested 127 deep at the most.
/// Of other bytes it is what they stand for where they are read whole, so none where they stand for
/// nothing; where only members of a map are read, it is not said. `Memory` where memory ran out.
#[cycle(excerpt)]
pub fn read_excerpt(
    alloc: Global,
    reader: &mut TreeReader,
    excerpt: &Excerpt,
    text: &[u8],
) -> Result<Option<Tree>, Memory>
    requires plain { are_plain excerpt.now ≡ true }
    ensures given { IfOk result (λ found. (tree : TreeOf) → text.now ≡ canonical_text tree
        → IsReadable tree → found ≡ Some (excerpt_of excerpt.now tree)) }
    ensures whole { excerpt.now ≡ Excerpt.Whole → IfOk result (λ found. found ≡ tree_read text.now) }
    ensures no_map { IsNoMap text.now → IfOk result (λ found. found ≡ tree_read text.now) }
{
    match excerpt {
        Excerpt::Whole => read_whole(alloc, reader, text),
        Excerpt::Part(parts) => match after_prefix(text, b"{") {
            Some(members) => {
                let found = read_parts(alloc, reader, parts, members)?;
                Ok(as_map(found))
            }
            None => read_whole(alloc, reader, text),
        },
    }
}

/// The members that the parts leave, from behind the opening bracket of a map on.
#[cycle(excerpt)]
fn read_parts(
    alloc: Global,
    reader: &mut TreeReader,
    parts: &Members<Excerpt>,
    members: &[u8],
) -> Result<Option<Members<Tree>>, Memory>
    requires plain { plain_parts (map plain_flag parts.now) ≡ true }
    ensures { IfOk result (λ found. (those : List (MemberOf TreeOf)) → members.now ≡ members_text those
        → HaveRisingNames those → AreReadable those
        → found ≡ Some (chosen (map leaving parts.now) those)) }
{
    let mut found = Vec::new(alloc);
    let mut rest = members;
    for part in parts.as_slice() {
        let looked = look(rest, part.name.as_str().as_bytes());
        rest = looked.rest;
        if let Some(text) = looked.value {
            let value = match read_excerpt(alloc, reader, &part.value, text) {
                Ok(Some(value)) => value,
                Ok(None) => {
                    drop(found);
                    return Ok(None);
                }
                Err(memory) => {
                    drop(found);
                    return Err(memory);
                }
            };
            let Ok(member) = named(alloc, &part.name, value) else {
                drop(found);
                return Err(Memory);
            };
            found.push(member)?;
        }
    }
    Ok(Some(Members::from_vec(found)))
}

fn as_map(members: Option<Members<Tree>>) -> Option<Tree>
    ensures { result ≡ option_map (λ members. tree.Object members) members }
{
    match members {
        Some(members) => Some(Tree::Object(members)),
        None => None,
    }
}

/// A value under a copy of the name.
fn named(alloc: Global, name: &Text, value: Tree) -> Result<Member<Tree>, Memory>
    ensures { IfOk result (λ member. member ≡ record { name = name.now; value = value }) }
{
    match name.copy(alloc) {
        Ok(name) => Ok(Member { name, value }),
        Err(memory) => {
            drop(value);
            Err(memory)
        }
    }
}
