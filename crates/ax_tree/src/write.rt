ghost use Rattle.std.specs.Prelude.{◌≡◌, ◌++◌, IfOk, OnOk, OnErr};
ghost use Rattle.ax_tree.specs.CanonicalText.{canonical_text};
ghost use Rattle.ax_tree.specs.SerdeData.{tree_tokens, items_tokens, members_tokens};

use crate::items::Items;
use crate::members::Members;
use crate::out_of_memory::Memory;
use crate::tree::Tree;
use json::Writer;
use std::alloc::Global;
use std::mem;

/// The canonical text of a tree: compact JSON with the members in byte order of their names.
pub fn write_tree(alloc: Global, tree: &Tree) -> Result<Vec<u8>, Memory>
    ensures { IfOk result (λ text. text.items ≡ canonical_text tree.now) }
{
    let mut text = Vec::with_capacity(alloc, 128)?;
    append_tree(&mut text, tree)?;
    Ok(text)
}

/// Appends the canonical text of a tree. Where memory runs out, `out` is as it was.
#[tactic(auto, using(crate::proofs::SerdeLemmas::printed_text))]
pub fn append_tree(out: &mut Vec<u8>, tree: &Tree) -> Result<(), Memory>
    ensures ok { OnOk result (out.new.items ≡ out.old.items ++ canonical_text tree.now) }
    ensures err { OnErr result (out.new.items ≡ out.old.items) }
{
    let len = out.len();
    let alloc = *out.allocator();
    let mut writer = Writer::new(mem::replace(out, Vec::new(alloc)));
    let written = put_tree(&mut writer, tree);
    *out = writer.into_inner();
    if written.is_err() {
        out.truncate(len);
    }
    written
}

#[cycle(put)]
fn put_tree(writer: &mut Writer, tree: &Tree) -> Result<(), Memory>
    ensures ok { OnOk result (writer.new.tokens ≡ writer.old.tokens ++ tree_tokens tree.now) }
    ensures before { writer.new.before ≡ writer.old.before }
{
    match tree {
        Tree::Null => writer.null()?,
        Tree::Truth(value) => writer.boolean(*value)?,
        Tree::Number(value) => writer.i64(*value)?,
        Tree::Text(text) => writer.string(text.as_str())?,
        Tree::List(items) => {
            writer.begin_array()?;
            put_items(writer, items)?;
        }
        Tree::Object(members) => {
            writer.begin_object()?;
            put_members(writer, members)?;
        }
    }
    Ok(())
}

#[cycle(put)]
fn put_items(writer: &mut Writer, items: &Items<Tree>) -> Result<(), Memory>
    ensures ok { OnOk result (writer.new.tokens ≡ writer.old.tokens ++ items_tokens items.now) }
    ensures before { writer.new.before ≡ writer.old.before }
{
    for item in items.as_slice() {
        put_tree(writer, item)?;
    }
    writer.end_array()?;
    Ok(())
}

#[cycle(put)]
fn put_members(writer: &mut Writer, members: &Members<Tree>) -> Result<(), Memory>
    ensures ok { OnOk result
        (writer.new.tokens ≡ writer.old.tokens ++ members_tokens members.now) }
    ensures before { writer.new.before ≡ writer.old.before }
{
    for member in members.as_slice() {
        writer.key(member.name.as_str())?;
        put_tree(writer, &member.value)?;
    }
    writer.end_object()?;
    Ok(())
}
